//! The lines of a change of the best prices, in each form.
ghost use Rattle.std.specs.Prelude.{◌≡◌, ◌+◌, ◌≤◌, ◌++◌, length};
ghost use Rattle.std.specs.List.{flat_map, range_with_len};
ghost use Rattle.std.specs.Option.{option_copied};
ghost use Rattle.itch_commands.specs.Outputs.{WritesText};
ghost use Rattle.itch_commands.specs.Forms.{level_line, title_line};
ghost use Rattle.itch_commands.specs.declared.form.BookForm.TheVariants as book;
ghost use Rattle.itch_depth.specs.Changes.{cells, cells_at, cells_of, change_head, change_line, columns, csv_line, front, json_level, json_levels, json_line, level_lines, members, next_level, text_lines};

use super::best::DepthLevel;
use itch_codec::Side;
use itch_commands::{BookForm, Line, ToolFault, write_text};
use itch_frame::CountedWrite;

/// The best prices of a stock after a message that changed them.
#[derive(Clone, Copy)]
pub struct Change<'a> {
    /// The number of the message, and its time.
    pub number: u64,
    pub time: u64,
    pub locate: u16,
    pub stock: &'a str,
    pub bids: &'a [DepthLevel],
    pub asks: &'a [DepthLevel],
}

/// Writes the heading of all lines.
pub fn write_head<W: CountedWrite>(
    form: BookForm,
    depth: usize,
    out: &mut W,
) -> Result<(), ToolFault>
    ensures { WritesText W.contents W.failures (change_head form depth) out.old result out.new }
{
    match form {
        BookForm::Text | BookForm::Json => write_text(b"", out),
        BookForm::Csv => write_columns(depth, out),
    }
}

// Writes the names of the columns.
fn write_columns<W: CountedWrite>(depth: usize, out: &mut W) -> Result<(), ToolFault>
    ensures { WritesText W.contents W.failures (change_head book.Csv depth) out.old result out.new }
{
    write_text(b"message,time", out)?;
    write_names(depth, out)?;
    write_text(b"\n", out)
}

// Writes the names of the columns of the prices.
fn write_names<W: CountedWrite>(depth: usize, out: &mut W) -> Result<(), ToolFault>
    ensures { WritesText W.contents W.failures (flat_map columns (range_with_len 0 depth)) out.old result out.new }
{
    for place in 0..depth {
        write_text(columns(place).as_bytes(), out)?;
    }
    Ok(())
}

// Returns the names of the columns of a price of each side.
fn columns(place: usize) -> Line
    ensures { result ≡ columns place }
{
    let number = place as u128 + 1;
    let mut line = Line::new();
    line.text(b",ask_price_");
    line.number(number);
    line.text(b",ask_shares_");
    line.number(number);
    line.text(b",bid_price_");
    line.number(number);
    line.text(b",bid_shares_");
    line.number(number);
    line
}

/// Writes the lines of a change: of text a line for the stock and one for each price, and of the other forms one line.
pub fn write_change<W: CountedWrite>(
    form: BookForm,
    depth: usize,
    change: &Change<'_>,
    out: &mut W,
) -> Result<(), ToolFault>
    requires { length change.now.stock.now ≤ 8 }
    ensures { WritesText W.contents W.failures (change_line form depth change.now.number change.now.time change.now.locate change.now.stock.now (record { bids = change.now.bids.now; asks = change.now.asks.now })) out.old result out.new }
{
    match form {
        BookForm::Text => write_lines(change, out),
        BookForm::Json => write_object(change, out),
        BookForm::Csv => write_cells(depth, change, out),
    }
}

// Writes the line of the stock, and below it one for each price.
fn write_lines<W: CountedWrite>(change: &Change<'_>, out: &mut W) -> Result<(), ToolFault>
    requires { length change.now.stock.now ≤ 8 }
    ensures { WritesText W.contents W.failures (text_lines change.now.number change.now.time change.now.locate change.now.stock.now (record { bids = change.now.bids.now; asks = change.now.asks.now })) out.old result out.new }
{
    let front = front(BookForm::Text, change.number, change.time);
    write_text(front.as_bytes(), out)?;
    write_text(title(change.locate, change.stock).as_bytes(), out)?;
    write_levels(&front, Side::Buy, change.bids, out)?;
    write_levels(&front, Side::Sell, change.asks, out)
}

// Writes a line for each price of a side.
fn write_levels<W: CountedWrite>(
    front: &Line,
    side: Side,
    levels: &[DepthLevel],
    out: &mut W,
) -> Result<(), ToolFault>
    ensures { WritesText W.contents W.failures (level_lines front.now side levels.now) out.old result out.new }
{
    for level in levels {
        write_level(front, side, level, out)?;
    }
    Ok(())
}

// Writes the line of a price.
fn write_level<W: CountedWrite>(
    front: &Line,
    side: Side,
    level: &DepthLevel,
    out: &mut W,
) -> Result<(), ToolFault>
    ensures { WritesText W.contents W.failures (front.now ++ level_line side level.now.price level.now.shares level.now.orders) out.old result out.new }
{
    write_text(front.as_bytes(), out)?;
    write_text(level_line(side, level).as_bytes(), out)
}

// Writes an object of JSON.
fn write_object<W: CountedWrite>(change: &Change<'_>, out: &mut W) -> Result<(), ToolFault>
    requires { length change.now.stock.now ≤ 8 }
    ensures { WritesText W.contents W.failures (json_line change.now.number change.now.time change.now.locate change.now.stock.now (record { bids = change.now.bids.now; asks = change.now.asks.now })) out.old result out.new }
{
    let front = front(BookForm::Json, change.number, change.time);
    write_text(front.as_bytes(), out)?;
    write_text(members(change.locate, change.stock).as_bytes(), out)?;
    write_array(change.bids, out)?;
    write_text(b"],\"asks\":[", out)?;
    write_array(change.asks, out)?;
    write_text(b"]}\n", out)
}

// Writes the prices of a side, with commas between them.
fn write_array<W: CountedWrite>(levels: &[DepthLevel], out: &mut W) -> Result<(), ToolFault>
    ensures { WritesText W.contents W.failures (json_levels levels.now) out.old result out.new }
{
    let [first, rest @ ..] = levels else {
        return Ok(());
    };
    write_text(json_level(first).as_bytes(), out)?;
    write_rest(rest, out)
}

// Writes the prices after the first one.
fn write_rest<W: CountedWrite>(levels: &[DepthLevel], out: &mut W) -> Result<(), ToolFault>
    ensures { WritesText W.contents W.failures (flat_map next_level levels.now) out.old result out.new }
{
    for level in levels {
        write_text(next_level(level).as_bytes(), out)?;
    }
    Ok(())
}

// Writes comma-separated values: the number, the time, and the columns of the prices, which are empty where there is no price.
fn write_cells<W: CountedWrite>(
    depth: usize,
    change: &Change<'_>,
    out: &mut W,
) -> Result<(), ToolFault>
    ensures { WritesText W.contents W.failures (csv_line depth change.now.number change.now.time (record { bids = change.now.bids.now; asks = change.now.asks.now })) out.old result out.new }
{
    let front = front(BookForm::Csv, change.number, change.time);
    write_text(front.as_bytes(), out)?;
    write_places(depth, change, out)?;
    write_text(b"\n", out)
}

// Writes the columns of the prices.
fn write_places<W: CountedWrite>(
    depth: usize,
    change: &Change<'_>,
    out: &mut W,
) -> Result<(), ToolFault>
    ensures { WritesText W.contents W.failures (flat_map (cells_at change.now.asks.now change.now.bids.now) (range_with_len 0 depth)) out.old result out.new }
{
    for place in 0..depth {
        let cells = cells(change.asks.get(place), change.bids.get(place));
        write_text(cells.as_bytes(), out)?;
    }
    Ok(())
}

// Returns the number and the time of a message in front of a line.
fn front(form: BookForm, number: u64, time: u64) -> Line
    ensures { result ≡ front form number time }
{
    let mut line = Line::new();
    match form {
        BookForm::Text => {
            line.number(number);
            line.text(b" ");
            line.clock(time);
            line.text(b" ");
        }
        BookForm::Json => {
            line.text(b"{\"message\":");
            line.number(number);
            line.text(b",\"time\":\"");
            line.clock(time);
            line.text(b"\",");
        }
        BookForm::Csv => {
            line.number(number);
            line.text(b",");
            line.clock(time);
        }
    }
    line
}

// Returns the line `LOCATE STOCK`.
fn title(locate: u16, stock: &str) -> Line
    requires { length stock.now ≤ 8 }
    ensures { result ≡ title_line locate stock.now }
{
    let mut line = Line::new();
    line.number(locate);
    line.text(b" ");
    line.text(stock.as_bytes());
    line.text(b"\n");
    line
}

// Returns the line `SIDE PRICE SHARES ORDERS`.
fn level_line(side: Side, level: &DepthLevel) -> Line
    ensures { result ≡ level_line side level.now.price level.now.shares level.now.orders }
{
    let mut line = Line::new();
    line.text(match side {
        Side::Buy => b"B ",
        Side::Sell => b"S ",
    });
    line.price(level.price);
    line.text(b" ");
    line.number(level.shares);
    line.text(b" ");
    line.number(level.orders);
    line.text(b"\n");
    line
}

// Returns the members of an object up to the first price.
fn members(locate: u16, stock: &str) -> Line
    requires { length stock.now ≤ 8 }
    ensures { result ≡ members locate stock.now }
{
    let mut line = Line::new();
    line.text(b"\"locate\":");
    line.number(locate);
    line.text(b",\"stock\":\"");
    line.json_text(stock.as_bytes());
    line.text(b"\",\"bids\":[");
    line
}

// Returns the object of a price.
fn json_level(level: &DepthLevel) -> Line
    ensures text { result ≡ json_level level.now }
    ensures short { length result ≤ 160 }
{
    let mut line = Line::new();
    line.text(b"{\"price\":\"");
    line.price(level.price);
    line.text(b"\",\"shares\":");
    line.number(level.shares);
    line.text(b",\"orders\":");
    line.number(level.orders);
    line.text(b"}");
    line
}

// Returns a comma and the object of a price.
fn next_level(level: &DepthLevel) -> Line
    ensures { result ≡ next_level level.now }
{
    let mut line = Line::new();
    line.text(b",");
    line.text(json_level(level).as_bytes());
    line
}

// Returns the columns of an ask and a bid.
fn cells(ask: Option<&DepthLevel>, bid: Option<&DepthLevel>) -> Line
    ensures { result ≡ cells (option_copied ask.entry) (option_copied bid.entry) }
{
    let mut line = Line::new();
    push_cells(&mut line, ask);
    push_cells(&mut line, bid);
    line
}

// Appends the columns of a price: the price and its shares, or two empty ones.
fn push_cells(line: &mut Line, level: Option<&DepthLevel>)
    requires { length line.old ≤ 128 }
    ensures text { line.new ≡ line.old ++ cells_of (option_copied level.entry) }
    ensures short { length line.new ≤ length line.old + 87 }
{
    line.text(b",");
    if let Some(level) = level {
        line.price(level.price);
    }
    line.text(b",");
    if let Some(level) = level {
        line.number(level.shares);
    }
}
