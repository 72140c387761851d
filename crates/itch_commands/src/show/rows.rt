//! Messages of one type as rows of comma-separated values.
ghost use Rattle.std.specs.Prelude.{◌≡◌, ◌+◌, ◌*◌, ◌≤◌, ◌++◌, length, codes};
ghost use Rattle.itch_codec.specs.Fields.{Number, Bytes, TheSide};
ghost use Rattle.itch_codec.specs.Layouts.{Integer, Price, Text, OneSide, Code, Codes, Digits};
ghost use Rattle.itch_codec.specs.declared.message.Message.TheVariants as is;
ghost use Rattle.itch_commands.specs.Outputs.{WritesText};
ghost use Rattle.itch_commands.specs.Rows.{column_by, execution_row, first_fields, header_row, last_fields, order_row, own_fields, row, row_of, row_start, time_columns};

use super::orders::{side_text, write_both};
use crate::fault::ToolFault;
use crate::line::Line;
use itch_codec::{
    AddOrder, Alpha, CrossTrade, Directory, Header, Message, OperationalHalt, OrderCancel,
    OrderExecuted, OrderExecutedWithPrice, OrderReplace, ParticipantPosition, RegSho, Side, Trade,
    TradingAction,
};
use itch_frame::CountedWrite;

/// Writes the row of a message with this number, if the message is of this type.
pub fn write_row_of<W: CountedWrite>(
    kind: u8,
    number: u64,
    message: &Message<'_>,
    out: &mut W,
) -> Result<(), ToolFault>
    ensures { WritesText W.contents W.failures (row_of kind number message.now) out.old result out.new }
{
    if message.kind() == kind {
        write_row(number, message, out)
    } else {
        Ok(())
    }
}

// Its row.
fn write_row<W: CountedWrite>(
    number: u64,
    message: &Message<'_>,
    out: &mut W,
) -> Result<(), ToolFault>
    ensures { WritesText W.contents W.failures (row number message.now) out.old result out.new }
{
    let start = row_start(number, message);
    let end = row_end(message);
    write_both(start.as_bytes(), end.as_bytes(), out)
}

// The number of a message, its type and its header.
fn row_start(number: u64, message: &Message<'_>) -> Line
    ensures { result ≡ row_start number message.now }
{
    let mut line = Line::new();
    line.number(number);
    put_code(&mut line, message.kind());
    if let Some(header) = message.header() {
        put_header(&mut line, &header);
    }
    line
}

fn put_header(line: &mut Line, header: &Header)
    requires { length line.old ≤ 60 }
    ensures { line.new ≡ line.old ++ header_row header.now }
{
    put_number(line, u64::from(header.locate));
    put_number(line, u64::from(header.tracking));
    put_time(line, header.stamp.value());
}

// The fields of a message after its header, and the end of the row.
fn row_end(message: &Message<'_>) -> Line
    ensures { result ≡ own_fields message.now ++ codes "\n" }
{
    let mut line = Line::new();
    put_fields(&mut line, message);
    line.text(b"\n");
    line
}

fn put_fields(line: &mut Line, message: &Message<'_>)
    requires { length line.old ≤ 0 }
    ensures text { line.new ≡ line.old ++ own_fields message.now }
    ensures short { length line.new ≤ 240 }
{
    match message {
        Message::SystemEvent(x) => put_code(line, x.code),
        Message::StockDirectory(x) => {
            put_first(line, &x.entry);
            put_last(line, &x.entry);
        }
        Message::TradingAction(x) => put_action(line, x),
        Message::RegSho(x) => put_restriction(line, x),
        Message::Halt(x) => put_halt(line, x),
        Message::Position(x) => put_position(line, x),
        Message::AddOrder(x) => put_order(line, x),
        Message::AttributedAddOrder(x) => {
            put_order(line, &x.order);
            put_text(line, &x.attribution);
        }
        Message::OrderExecuted(x) => put_execution(line, x),
        Message::OrderExecutedWithPrice(x) => put_priced(line, x),
        Message::OrderCancel(x) => put_cancel(line, x),
        Message::OrderDelete(x) => put_number(line, x.reference),
        Message::OrderReplace(x) => put_replacement(line, x),
        Message::Trade(x) => put_trade(line, x),
        Message::CrossTrade(x) => put_cross(line, x),
        Message::BrokenTrade(x) => put_number(line, x.match_number),
        Message::End { next } => put_digits(line, next.value()),
        Message::Other(x) => put_number(line, x.payload().len() as u64),
    }
}

// The fields of a directory entry.
fn put_first(line: &mut Line, x: &Directory)
    requires { length line.old ≤ 10 }
    ensures text { line.new ≡ line.old ++ first_fields x.now }
    ensures short { length line.new ≤ length line.old + 123 }
{
    put_text(line, &x.stock);
    put_code(line, x.market_category);
    put_code(line, x.financial_status);
    put_number(line, u64::from(x.round_lot_size));
    put_code(line, x.round_lots_only);
    put_code(line, x.issue_classification);
    put_codes(line, &x.issue_sub_type);
}

fn put_last(line: &mut Line, x: &Directory)
    requires { length line.old ≤ 140 }
    ensures text { line.new ≡ line.old ++ last_fields x.now }
    ensures short { length line.new ≤ length line.old + 107 }
{
    put_code(line, x.authenticity);
    put_code(line, x.short_sale_threshold);
    put_code(line, x.ipo_flag);
    put_code(line, x.luld_price_tier);
    put_code(line, x.etp_flag);
    put_number(line, u64::from(x.etp_leverage_factor));
    put_code(line, x.inverse_indicator);
}

fn put_action(line: &mut Line, x: &TradingAction)
    requires { length line.old ≤ 10 }
    ensures text { line.new ≡ line.old ++ own_fields (is.TradingAction x.now) }
    ensures short { length line.new ≤ length line.old + 76 }
{
    put_text(line, &x.stock);
    put_code(line, x.state);
    put_code(line, x.reserved);
    put_codes(line, &x.reason);
}

fn put_restriction(line: &mut Line, x: &RegSho)
    requires { length line.old ≤ 10 }
    ensures text { line.new ≡ line.old ++ own_fields (is.RegSho x.now) }
    ensures short { length line.new ≤ length line.old + 30 }
{
    put_text(line, &x.stock);
    put_code(line, x.action);
}

fn put_halt(line: &mut Line, x: &OperationalHalt)
    requires { length line.old ≤ 10 }
    ensures text { line.new ≡ line.old ++ own_fields (is.Halt x.now) }
    ensures short { length line.new ≤ length line.old + 41 }
{
    put_text(line, &x.stock);
    put_code(line, x.market_code);
    put_code(line, x.action);
}

fn put_position(line: &mut Line, x: &ParticipantPosition)
    requires { length line.old ≤ 10 }
    ensures text { line.new ≡ line.old ++ own_fields (is.Position x.now) }
    ensures short { length line.new ≤ length line.old + 71 }
{
    put_text(line, &x.mpid);
    put_text(line, &x.stock);
    put_code(line, x.primary_market_maker);
    put_code(line, x.mode);
    put_code(line, x.state);
}

fn put_order(line: &mut Line, x: &AddOrder)
    requires { length line.old ≤ 10 }
    ensures text { line.new ≡ line.old ++ order_row x.now }
    ensures short { length line.new ≤ length line.old + 149 }
{
    put_number(line, x.reference);
    put_side(line, x.side);
    put_number(line, u64::from(x.shares));
    put_text(line, &x.stock);
    put_price(line, x.price);
}

fn put_execution(line: &mut Line, x: &OrderExecuted)
    requires { length line.old ≤ 10 }
    ensures text { line.new ≡ line.old ++ execution_row x.now }
    ensures short { length line.new ≤ length line.old + 123 }
{
    put_number(line, x.reference);
    put_number(line, u64::from(x.shares));
    put_number(line, x.match_number);
}

fn put_priced(line: &mut Line, x: &OrderExecutedWithPrice)
    requires { length line.old ≤ 10 }
    ensures text { line.new ≡ line.old ++ own_fields (is.OrderExecutedWithPrice x.now) }
    ensures short { length line.new ≤ length line.old + 180 }
{
    put_execution(line, &x.execution);
    put_code(line, x.printable);
    put_price(line, x.price);
}

fn put_cancel(line: &mut Line, x: &OrderCancel)
    requires { length line.old ≤ 10 }
    ensures text { line.new ≡ line.old ++ own_fields (is.OrderCancel x.now) }
    ensures short { length line.new ≤ length line.old + 82 }
{
    put_number(line, x.reference);
    put_number(line, u64::from(x.shares));
}

fn put_replacement(line: &mut Line, x: &OrderReplace)
    requires { length line.old ≤ 10 }
    ensures text { line.new ≡ line.old ++ own_fields (is.OrderReplace x.now) }
    ensures short { length line.new ≤ length line.old + 169 }
{
    put_number(line, x.original);
    put_number(line, x.reference);
    put_number(line, u64::from(x.shares));
    put_price(line, x.price);
}

fn put_trade(line: &mut Line, x: &Trade)
    requires { length line.old ≤ 10 }
    ensures text { line.new ≡ line.old ++ own_fields (is.Trade x.now) }
    ensures short { length line.new ≤ length line.old + 190 }
{
    put_number(line, x.reference);
    put_side(line, x.side);
    put_number(line, u64::from(x.shares));
    put_text(line, &x.stock);
    put_price(line, x.price);
    put_number(line, x.match_number);
}

fn put_cross(line: &mut Line, x: &CrossTrade)
    requires { length line.old ≤ 10 }
    ensures text { line.new ≡ line.old ++ own_fields (is.CrossTrade x.now) }
    ensures short { length line.new ≤ length line.old + 158 }
{
    put_number(line, x.shares);
    put_text(line, &x.stock);
    put_price(line, x.price);
    put_number(line, x.match_number);
    put_code(line, x.cross_type);
}

// A comma, and a number in decimal digits.
#[tactic(auto, unfolding(crate::specs::Rows::column_by))]
fn put_number(line: &mut Line, number: u64)
    requires { length line.old ≤ 215 }
    ensures text { line.new ≡ line.old ++ column_by Integer (Number number) }
    ensures short { length line.new ≤ length line.old + 41 }
{
    line.text(b",");
    line.number(number);
}

// The same of a number that a message has in decimal digits.
#[tactic(auto, unfolding(crate::specs::Rows::column_by))]
fn put_digits(line: &mut Line, number: u64)
    requires { length line.old ≤ 215 }
    ensures text { line.new ≡ line.old ++ column_by Digits (Number number) }
    ensures short { length line.new ≤ length line.old + 41 }
{
    line.text(b",");
    line.number(number);
}

// Two columns: the time of the day, and the nanoseconds since midnight.
#[tactic(auto, unfolding(crate::specs::Rows::time_columns))]
fn put_time(line: &mut Line, nanoseconds: u64)
    requires { length line.old ≤ 190 }
    ensures { line.new ≡ line.old ++ time_columns nanoseconds }
{
    line.text(b",");
    line.clock(nanoseconds);
    line.text(b",");
    line.number(nanoseconds);
}

// A comma, and a price with its four decimals.
#[tactic(auto, unfolding(crate::specs::Rows::column_by))]
fn put_price(line: &mut Line, price: u32)
    requires { length line.old ≤ 210 }
    ensures text { line.new ≡ line.old ++ column_by Price (Number price) }
    ensures short { length line.new ≤ length line.old + 46 }
{
    line.text(b",");
    line.price(price);
}

// A comma, and a text without the spaces at its end.
#[tactic(auto, unfolding(crate::specs::Rows::column_by))]
fn put_text<const N: usize>(line: &mut Line, text: &Alpha<N>)
    requires narrow { N ≤ 8 }
    requires room { length line.old ≤ 237 }
    ensures text { line.new ≡ line.old ++ column_by Text (Bytes text.now) }
    ensures short { length line.new ≤ length line.old + 19 }
{
    line.text(b",");
    line.csv_text(text.text().as_bytes());
}

// A comma, and the letter of a side.
#[tactic(auto, unfolding(crate::specs::Rows::column_by))]
fn put_side(line: &mut Line, side: Side)
    requires { length line.old ≤ 254 }
    ensures text { line.new ≡ line.old ++ column_by OneSide (TheSide side) }
    ensures short { length line.new ≤ length line.old + 2 }
{
    line.text(b",");
    line.text(side_text(side));
}

// A comma, and a byte of any kind.
#[tactic(auto, unfolding(crate::specs::Rows::column_by))]
fn put_code(line: &mut Line, byte: u8)
    requires { length line.old ≤ 245 }
    ensures text { line.new ≡ line.old ++ column_by Code (Number byte) }
    ensures short { length line.new ≤ length line.old + 11 }
{
    line.text(b",");
    line.codes(&[byte]);
}

// A comma, and bytes of any kind.
#[tactic(auto, unfolding(crate::specs::Rows::column_by))]
fn put_codes(line: &mut Line, bytes: &[u8])
    requires { length line.old + 8 * length bytes.now + 3 ≤ 256 }
    ensures text { line.new ≡ line.old ++ column_by Codes (Bytes bytes.now) }
    ensures short { length line.new ≤ length line.old + 8 * length bytes.now + 3 }
{
    line.text(b",");
    line.codes(bytes);
}
