//! The lines of books, with a time at the beginning of each.
ghost use Rattle.std.specs.Prelude.{◌≡◌, ◌≤◌, length};
ghost use Rattle.std.specs.Option.{option_copied};
ghost use Rattle.itch_book.specs.Orders.{queue};
ghost use Rattle.itch_commands.specs.Books.{side_lines, wanted_by};
ghost use Rattle.itch_commands.specs.Outputs.{WritesText};
ghost use Rattle.itch_depth.specs.Timed.{rest, stamp, timed, timed_at, timed_book, timed_books, timed_head, timed_row, timed_title};

use itch_book::OrderBook;
use itch_codec::Side;
use itch_commands::book::{Rows, is_wanted, next_wanted, one_fewer};
use itch_commands::{BookForm, Line, ToolFault, write_text};
use itch_frame::CountedWrite;
use itch_market::{LocateSet, Market};

/// Returns the heading of all books of all times.
pub fn timed_head(form: BookForm) -> Line
    ensures { result ≡ timed_head form }
{
    let mut line = Line::new();
    match form {
        BookForm::Text | BookForm::Json => {}
        BookForm::Csv => line.text(b"time,locate,stock,side,price,shares,orders\n"),
    }
    line
}

/// Writes the books of the requested locates of a market, in ascending order, with this time.
pub fn write_timed_books<B: OrderBook, W: CountedWrite>(
    market: &Market<B>,
    only: Option<&LocateSet<B::Alloc>>,
    depth: Option<u64>,
    time: u64,
    form: BookForm,
    out: &mut W,
) -> Result<(), ToolFault>
    ensures { WritesText W.contents W.failures (timed_books form time depth (wanted_by (option_copied only.entry)) market.now) out.old result out.new }
{
    for locate in market.locates() {
        if is_wanted(only, locate) {
            write_timed_listed(market, locate, depth, time, form, out)?;
        }
    }
    Ok(())
}

// Writes the book of a locate, if the directory has it.
fn write_timed_listed<B: OrderBook, W: CountedWrite>(
    market: &Market<B>,
    locate: u16,
    depth: Option<u64>,
    time: u64,
    form: BookForm,
    out: &mut W,
) -> Result<(), ToolFault>
    ensures { WritesText W.contents W.failures (timed_at form time depth market.now locate) out.old result out.new }
{
    let Some(security) = market.security(locate) else {
        return Ok(());
    };
    let stock = security.entry.stock;
    stock.recall_invariant();
    let rows = Rows {
        form,
        locate,
        stock: stock.text(),
    };
    write_timed_book(market.book(), depth, time, &rows, out)
}

// Writes the title of a book and its prices.
fn write_timed_book<B: OrderBook, W: CountedWrite>(
    book: &B,
    depth: Option<u64>,
    time: u64,
    rows: &Rows<'_>,
    out: &mut W,
) -> Result<(), ToolFault>
    requires { length rows.now.stock.now ≤ 8 }
    ensures { WritesText W.contents W.failures (timed_book rows.now.form time rows.now.locate depth rows.now.stock.now (B.orders book.now)) out.old result out.new }
{
    write_timed_title(time, rows, out)?;
    write_timed_side(book, depth, time, rows, Side::Buy, out)?;
    write_timed_side(book, depth, time, rows, Side::Sell, out)
}

// Writes the title in the form that has one.
fn write_timed_title<W: CountedWrite>(
    time: u64,
    rows: &Rows<'_>,
    out: &mut W,
) -> Result<(), ToolFault>
    requires { length rows.now.stock.now ≤ 8 }
    ensures { WritesText W.contents W.failures (timed_title rows.now.form time rows.now.locate rows.now.stock.now) out.old result out.new }
{
    match rows.form {
        BookForm::Text => write_timed(BookForm::Text, time, &rows.title(), out),
        BookForm::Json | BookForm::Csv => Ok(()),
    }
}

// Writes the line of each requested price of a side, the best price first.
fn write_timed_side<B: OrderBook, W: CountedWrite>(
    book: &B,
    depth: Option<u64>,
    time: u64,
    rows: &Rows<'_>,
    side: Side,
    out: &mut W,
) -> Result<(), ToolFault>
    requires { length rows.now.stock.now ≤ 8 }
    ensures { WritesText W.contents W.failures (side_lines (timed_row rows.now.form time rows.now.locate rows.now.stock.now) depth side (queue (B.orders book.now) rows.now.locate side)) out.old result out.new }
{
    let locate = rows.locate;
    let (mut last, mut left) = (None, depth);
    while let Some(price) = next_wanted(book, locate, left, side, last) {
        let (shares, orders) = book.level_total(locate, side, price);
        write_timed(rows.form, time, &rows.row(side, price, shares, orders), out)?;
        last = Some(price);
        left = one_fewer(left);
    }
    Ok(())
}

// Writes a line with the time at its beginning.
fn write_timed<W: CountedWrite>(
    form: BookForm,
    time: u64,
    line: &Line,
    out: &mut W,
) -> Result<(), ToolFault>
    ensures { WritesText W.contents W.failures (timed form time line.now) out.old result out.new }
{
    write_text(stamp(form, time).as_bytes(), out)?;
    write_text(rest(form, line.as_bytes()), out)
}

// Returns the time at the beginning of a line.
fn stamp(form: BookForm, time: u64) -> Line
    ensures { result ≡ stamp form time }
{
    let mut line = Line::new();
    match form {
        BookForm::Text => {
            line.clock(time);
            line.text(b" ");
        }
        BookForm::Json => {
            line.text(b"{\"time\":\"");
            line.clock(time);
            line.text(b"\",");
        }
        BookForm::Csv => {
            line.clock(time);
            line.text(b",");
        }
    }
    line
}

// Returns the part of a line after the time: a JSON object without its first brace.
fn rest(form: BookForm, line: &[u8]) -> &[u8]
    ensures text { result.now ≡ rest form line.now }
    ensures short { length result.now ≤ length line.now }
{
    match (form, line) {
        (BookForm::Json, [_brace, rest @ ..]) => rest,
        _ => line,
    }
}
