//! Comma-separated values of a message and the order behind it.
ghost use Rattle.std.specs.Prelude.{◌≡◌, ◌+◌, ◌<◌, ◌≤◌, ◌++◌, length, codes};
ghost use Rattle.itch_codec.specs.Lines.{hex_digit};
ghost use Rattle.itch_codec.specs.declared.message.Message.TheVariants as is;
ghost use Rattle.itch_commands.specs.OrderForms.{attribution_field, code_field, header_columns, message_columns, order_columns, order_fields, own_columns};

use super::behind::Behind;
use super::lines::{side_text, stock_text};
use crate::line::Line;
use itch_codec::{
    Alpha, Header, Message, OrderCancel, OrderExecuted, OrderExecutedWithPrice, OrderReplace,
};

/// Returns the line with the names of the columns.
pub fn columns() -> &'static [u8]
    ensures text { result.now ≡ order_columns }
    ensures short { length result.now < 65538 }
{
    b"number,type,stock_locate,tracking_number,time,ns,order_reference_number,buy_sell_indicator,stock,\
    order_price,shares_before,shares_after,attribution,executed_shares,match_number,printable,\
    execution_price,cancelled_shares,new_order_reference_number,shares,price\n"
}

/// Returns the columns of any message: its number, its type and its header.
pub fn message_columns(number: u64, message: &Message<'_>) -> Line
    ensures { result ≡ message_columns number message.now }
{
    let mut line = Line::new();
    line.number(number);
    line.text(b",");
    line.text(&[message.kind()]);
    line.text(b",");
    push_header(&mut line, message.header());
    line
}

// Appends the columns of a header, if there is one.
fn push_header(line: &mut Line, header: Option<Header>)
    requires { length line.old ≤ 100 }
    ensures { line.new ≡ line.old ++ header_columns header }
{
    if let Some(header) = header {
        line.number(header.locate);
        line.text(b",");
        line.number(header.tracking);
        line.text(b",");
        line.clock(header.stamp.value());
        line.text(b",");
        line.number(header.stamp.value());
        line.text(b",");
    }
}

/// Returns the columns of an order.
pub fn order_fields(behind: &Behind) -> Line
    ensures { result ≡ order_fields behind.now }
{
    let mut line = Line::new();
    line.number(behind.order.reference);
    line.text(b",");
    line.text(side_text(behind.order.side));
    line.text(b",");
    line.csv_text(stock_text(&behind.stock));
    line.text(b",");
    line.price(behind.order.price);
    line.text(b",");
    line.number(behind.order.shares);
    line.text(b",");
    line.number(behind.left);
    line.text(b",");
    push_attribution(&mut line, &behind.order.mpid);
    line
}

// Appends an attribution as a field, which is empty without one.
fn push_attribution(line: &mut Line, mpid: &Option<Alpha<4>>)
    requires { length line.old ≤ 246 }
    ensures { line.new ≡ line.old ++ attribution_field mpid.now }
{
    if let Some(mpid) = mpid {
        line.csv_text(mpid.text().as_bytes());
    }
}

/// Returns the columns of one type of message, and the end of the line.
pub fn own_columns(message: &Message<'_>) -> Line
    ensures { result ≡ own_columns message.now }
{
    match message {
        Message::OrderExecuted(x) => execution_columns(x),
        Message::OrderExecutedWithPrice(x) => priced_columns(x),
        Message::OrderCancel(x) => cancel_columns(x),
        Message::OrderReplace(x) => replacement_columns(x),
        _ => no_columns(),
    }
}

fn execution_columns(x: &OrderExecuted) -> Line
    ensures { result ≡ own_columns (is.OrderExecuted x.now) }
{
    let mut line = Line::new();
    line.text(b",");
    line.number(x.shares);
    line.text(b",");
    line.number(x.match_number);
    line.text(b",,,,,,\n");
    line
}

fn priced_columns(x: &OrderExecutedWithPrice) -> Line
    ensures { result ≡ own_columns (is.OrderExecutedWithPrice x.now) }
{
    let mut line = Line::new();
    line.text(b",");
    line.number(x.execution.shares);
    line.text(b",");
    line.number(x.execution.match_number);
    line.text(b",");
    push_code(&mut line, x.printable);
    line.text(b",");
    line.price(x.price);
    line.text(b",,,,\n");
    line
}

fn cancel_columns(x: &OrderCancel) -> Line
    ensures { result ≡ own_columns (is.OrderCancel x.now) }
{
    let mut line = Line::new();
    line.text(b",,,,,");
    line.number(x.shares);
    line.text(b",,,\n");
    line
}

fn replacement_columns(x: &OrderReplace) -> Line
    ensures { result ≡ own_columns (is.OrderReplace x.now) }
{
    let mut line = Line::new();
    line.text(b",,,,,,");
    line.number(x.reference);
    line.text(b",");
    line.number(x.shares);
    line.text(b",");
    line.price(x.price);
    line.text(b"\n");
    line
}

fn no_columns() -> Line
    ensures { result ≡ codes ",,,,,,,,\n" }
{
    let mut line = Line::new();
    line.text(b",,,,,,,,\n");
    line
}

// Appends any byte as a field.
fn push_code(line: &mut Line, byte: u8)
    requires { length line.old ≤ 252 }
    ensures text { line.new ≡ line.old ++ code_field byte }
    ensures short { length line.new ≤ length line.old + 4 }
{
    if byte < b' ' || byte > b'~' {
        line.text(&[b'\\', b'x', hex_digit(byte / 16), hex_digit(byte % 16)]);
    } else {
        line.csv_text(&[byte]);
    }
}

// Returns a hexadecimal digit.
fn hex_digit(digit: u8) -> u8
    requires { digit < 16 }
    ensures { result ≡ hex_digit digit }
{
    if digit < 10 {
        b'0' + digit
    } else {
        b'a' + digit - 10
    }
}
