//! Writes the words of a line for a message. Each class of field has one writer, which puts a space before the word.
ghost use Rattle.std.specs.Prelude.{◌≡◌, ◌+◌, ◌*◌, ◌≤◌, [], ◌∷◌, ◌++◌, length};
ghost use Rattle.arrayvec.specs.ArrayString.{array_string_len};
ghost use Rattle.itch_codec.specs.Fields.{Number, Bytes, TheSide};
ghost use Rattle.itch_codec.specs.Lines.{word};
ghost use Rattle.itch_codec.specs.Layouts.{Integer, Price, Text, OneSide, Code, Codes};

use crate::orders::Side;
use crate::pieces::{push_hex, push_number, push_price};
use crate::text::Alpha;
use arrayvec::ArrayString;

/// The text of a line under construction. The longest line, for a Stock Directory message with names, has 168 bytes.
pub(crate) type Words = ArrayString<192>;

/// Appends a space and a number in decimal digits.
#[tactic(auto, unfolding(crate::specs::Lines::word))]
pub(crate) fn show_number(line: &mut Words, number: u64)
    requires { array_string_len line.old ≤ 171 }
    ensures bytes { line.new.bytes ≡ line.old.bytes ++ word Integer (Number number) }
    ensures len { array_string_len line.new ≤ array_string_len line.old + 21 }
{
    line.push_str(" ");
    push_number(line, number);
}

/// Appends a space and a price with its four decimals.
#[tactic(auto, unfolding(crate::specs::Lines::word))]
pub(crate) fn show_price(line: &mut Words, price: u32)
    requires { array_string_len line.old ≤ 166 }
    ensures bytes { line.new.bytes ≡ line.old.bytes ++ word Price (Number price) }
    ensures len { array_string_len line.new ≤ array_string_len line.old + 26 }
{
    line.push_str(" ");
    push_price(line, price);
}

/// Appends a space and a text in square brackets, without the spaces at its end.
#[tactic(auto, unfolding(crate::specs::Lines::word))]
pub(crate) fn show_text<const N: usize>(line: &mut Words, text: &Alpha<N>)
    requires { array_string_len line.old + N ≤ 189 }
    ensures bytes { line.new.bytes ≡ line.old.bytes ++ word Text (Bytes text.now) }
    ensures len { array_string_len line.new ≤ array_string_len line.old + N + 3 }
{
    line.push_str(" [");
    line.push_str(text.text());
    line.push_str("]");
}

/// Appends a space and the letter of a side.
#[tactic(auto, unfolding(crate::specs::Lines::word))]
pub(crate) fn show_side(line: &mut Words, side: Side)
    requires { array_string_len line.old ≤ 190 }
    ensures bytes { line.new.bytes ≡ line.old.bytes ++ word OneSide (TheSide side) }
    ensures len { array_string_len line.new ≡ array_string_len line.old + 2 }
{
    line.push_str(match side {
        Side::Buy => " B",
        Side::Sell => " S",
    });
}

/// Appends a space and a byte as two hexadecimal digits.
#[tactic(auto, unfolding(crate::specs::Lines::word, crate::specs::Lines::hex))]
pub(crate) fn show_code(line: &mut Words, byte: u8)
    requires { array_string_len line.old ≤ 189 }
    ensures bytes { line.new.bytes ≡ line.old.bytes ++ word Code (Number byte) }
    ensures len { array_string_len line.new ≡ array_string_len line.old + 3 }
{
    line.push_str(" ");
    push_hex(line, byte);
}

/// Appends a space and bytes as hexadecimal digits.
#[tactic(auto, unfolding(crate::specs::Lines::word))]
pub(crate) fn show_codes(line: &mut Words, bytes: &[u8])
    requires { array_string_len line.old + 2 * length bytes.now ≤ 191 }
    ensures bytes { line.new.bytes ≡ line.old.bytes ++ word Codes (Bytes bytes.now) }
    ensures len { array_string_len line.new ≡ array_string_len line.old + 2 * length bytes.now + 1 }
{
    line.push_str(" ");
    for &byte in bytes {
        push_hex(line, byte);
    }
}
