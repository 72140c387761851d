//! Writes the line of a message with the order behind it.
ghost use Rattle.std.specs.Prelude.{◌≡◌, ◌+◌, ◌<◌, ◌≤◌, ◌++◌, ◌∷◌, [], length};
ghost use Rattle.itch_codec.specs.Fields.{side_byte};
ghost use Rattle.itch_commands.specs.OrderForms.{attribution_value, attribution_word, order_head, order_line, order_members, order_words, price_members, share_members, stock_text, without_last};
ghost use Rattle.itch_commands.specs.Outputs.{WritesText};

use super::behind::Behind;
use super::columns::{columns, message_columns, order_fields, own_columns};
use crate::fault::ToolFault;
use crate::form::OrderForm;
use crate::line::Line;
use crate::writing::write_text;
use itch_codec::{Alpha, Message, Side, json, show as show_message, show_named};
use itch_frame::CountedWrite;

/// Writes the heading of all lines.
pub fn write_head<W: CountedWrite>(form: OrderForm, out: &mut W) -> Result<(), ToolFault>
    ensures { WritesText W.contents W.failures (order_head form) out.old result out.new }
{
    match form {
        OrderForm::Text | OrderForm::Named | OrderForm::Json => write_text(b"", out),
        OrderForm::Csv => write_text(columns(), out),
    }
}

/// Writes the line of a message with this number and the order behind it.
pub fn write_order<W: CountedWrite>(
    form: OrderForm,
    number: u64,
    message: &Message<'_>,
    behind: &Behind,
    out: &mut W,
) -> Result<(), ToolFault>
    ensures { WritesText W.contents W.failures (order_line form number message.now behind.now) out.old result out.new }
{
    match form {
        OrderForm::Text => {
            let line = show_message(number, message);
            let words = order_words(behind);
            write_both(
                without_last(1, line.as_str().as_bytes()),
                words.as_bytes(),
                out,
            )
        }
        OrderForm::Named => {
            let line = show_named(number, message);
            let words = order_words(behind);
            write_both(
                without_last(1, line.as_str().as_bytes()),
                words.as_bytes(),
                out,
            )
        }
        OrderForm::Json => {
            let line = json(number, message);
            let members = order_members(behind);
            write_both(
                without_last(2, line.as_str().as_bytes()),
                members.as_bytes(),
                out,
            )
        }
        OrderForm::Csv => write_fields(number, message, behind, out),
    }
}

// Writes the line of comma-separated values.
fn write_fields<W: CountedWrite>(
    number: u64,
    message: &Message<'_>,
    behind: &Behind,
    out: &mut W,
) -> Result<(), ToolFault>
    ensures { WritesText W.contents W.failures (order_line OrderForm.Csv number message.now behind.now) out.old result out.new }
{
    let first = message_columns(number, message);
    write_text(first.as_bytes(), out)?;
    let fields = order_fields(behind);
    let own = own_columns(message);
    write_both(fields.as_bytes(), own.as_bytes(), out)
}

/// One text, and then another.
pub fn write_both<W: CountedWrite>(first: &[u8], then: &[u8], out: &mut W) -> Result<(), ToolFault>
    requires first { length first.now < 65538 }
    requires then { length then.now < 65538 }
    ensures { WritesText W.contents W.failures (first.now ++ then.now) out.old result out.new }
{
    write_text(first, out)?;
    write_text(then, out)
}

// Returns a text without its last bytes.
fn without_last(most: usize, text: &[u8]) -> &[u8]
    ensures text { result.now ≡ without_last most text.now }
    ensures short { length result.now ≤ length text.now }
{
    &text[..text.len().saturating_sub(most)]
}

// Returns the part after a message in a line of text.
fn order_words(behind: &Behind) -> Line
    ensures { result ≡ order_words behind.now }
{
    let mut line = Line::new();
    line.text(b" | ");
    line.text(side_text(behind.order.side));
    line.text(b" [");
    line.text(stock_text(&behind.stock));
    line.text(b"] ");
    line.price(behind.order.price);
    line.text(b" ");
    line.number(behind.order.shares);
    line.text(b" ");
    line.number(behind.left);
    push_attribution(&mut line, &behind.order.mpid);
    line.text(b"\n");
    line
}

// Appends the attribution at the end of a line of text, if there is one.
fn push_attribution(line: &mut Line, mpid: &Option<Alpha<4>>)
    requires { length line.old ≤ 249 }
    ensures text { line.new ≡ line.old ++ attribution_word mpid.now }
    ensures short { length line.new ≤ length line.old + 7 }
{
    if let Some(mpid) = mpid {
        line.text(b" [");
        line.text(mpid.text().as_bytes());
        line.text(b"]");
    }
}

// Returns the members after those of a message, and the end of the object.
fn order_members(behind: &Behind) -> Line
    ensures { result ≡ order_members behind.now }
{
    let mut line = price_members(behind);
    push_share_members(&mut line, behind);
    line
}

fn price_members(behind: &Behind) -> Line
    ensures text { result ≡ price_members behind.now }
    ensures short { length result ≤ 114 }
{
    let mut line = Line::new();
    line.text(b",\"buy_sell_indicator\":\"");
    line.text(side_text(behind.order.side));
    line.text(b"\",\"stock\":\"");
    line.json_text(stock_text(&behind.stock));
    line.text(b"\",\"order_price\":\"");
    line.price(behind.order.price);
    line.text(b"\"");
    line
}

fn push_share_members(line: &mut Line, behind: &Behind)
    requires { length line.old ≤ 114 }
    ensures { line.new ≡ line.old ++ share_members behind.now }
{
    line.text(b",\"shares_before\":");
    line.number(behind.order.shares);
    line.text(b",\"shares_after\":");
    line.number(behind.left);
    line.text(b",\"attribution\":");
    push_json_attribution(line, &behind.order.mpid);
    line.text(b"}\n");
}

// Appends the value of an attribution: a string, or null.
fn push_json_attribution(line: &mut Line, mpid: &Option<Alpha<4>>)
    requires { length line.old ≤ 246 }
    ensures text { line.new ≡ line.old ++ attribution_value mpid.now }
    ensures short { length line.new ≤ length line.old + 10 }
{
    match mpid {
        Some(mpid) => {
            line.text(b"\"");
            line.json_text(mpid.text().as_bytes());
            line.text(b"\"");
        }
        None => line.text(b"null"),
    }
}

/// Returns the characters of a stock without trailing spaces; none if there is no stock.
pub fn stock_text(stock: &Option<Alpha<8>>) -> &[u8]
    ensures text { result.now ≡ stock_text stock.now }
    ensures short { length result.now ≤ 8 }
{
    match stock {
        Some(stock) => stock.text().as_bytes(),
        None => b"",
    }
}

/// Returns the letter of a side.
pub fn side_text(side: Side) -> &'static [u8]
    ensures { result.now ≡ side_byte side ∷ [] }
{
    match side {
        Side::Buy => b"B",
        Side::Sell => b"S",
    }
}
