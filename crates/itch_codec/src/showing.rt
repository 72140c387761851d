//! Shows messages as lines of text.
ghost use Rattle.std.specs.Prelude.{◌≡◌, ◌≤◌, length, IfOk};
ghost use Rattle.std.specs.String.{string_bytes};
ghost use Rattle.arrayvec.specs.ArrayString.{array_string_len};
ghost use Rattle.itch_codec.specs.Lines.{line_form, line_of};
ghost use Rattle.itch_codec.specs.Rooms.{line_most};

use crate::message::Message;
use crate::names::Key;
use crate::pieces::{push_ascii, push_number};
use crate::sink::{Field, FieldSink};
use crate::words::{Words, show_code, show_codes, show_number, show_price, show_side, show_text};
use std::alloc::{AllocError, Allocator};
use std::marker::Model;

/// A line of text for a message, with its line feed. It is stored in the value itself and needs no allocation.
#[derive(Drop)]
pub struct LineText {
    text: Words,
}

impl Model for LineText {
    ghost use Rattle.std.specs.Prelude.{ℕ, List};

    ghost Value = { List ℕ };

    ghost view = { λ l. l.text.bytes };
}

impl LineText {
    pub(crate) fn of(text: Words) -> LineText
        ensures { result ≡ text.bytes }
    {
        LineText { text }
    }

    /// Returns the text, which is ASCII and has at most 192 bytes.
    pub fn as_str(&self) -> &str
        ensures text { result.now ≡ self.now }
        ensures short { length result.now ≤ 192 }
    {
        self.text.as_str()
    }
}

/// Returns the line of a message: its number, the letter of its type, and its fields in the order of its layout, separated by single spaces.
///
/// Integers are decimal, prices have their four decimals, texts are in square brackets without the spaces at their end, sides are `B` or `S`,
/// and codes are lower-case hexadecimal, two digits per byte. The line of an undecoded message has `other`, its type in hexadecimal, and the
/// length of its payload.
pub fn show(number: u64, message: &Message<'_>) -> LineText
    ensures { result ≡ line_of number message.now }
{
    let mut line = PlainLine {
        words: Words::new(),
    };
    push_number(&mut line.words, number);
    line.words.push_str(" ");
    message.write(&mut line);
    line.words.push_str("\n");
    LineText { text: line.words }
}

/// Returns the same line as a string.
///
/// # Errors
///
/// `AllocError` if memory runs out.
pub fn line<A: Allocator>(
    alloc: A,
    number: u64,
    message: &Message<'_>,
) -> Result<String<A>, AllocError>
    ensures { IfOk result (λ text. string_bytes text ≡ line_of number message.now) }
{
    String::from_str(alloc, show(number, message).as_str())
}

// A line under construction.
#[derive(Drop)]
struct PlainLine {
    words: Words,
}

impl FieldSink for PlainLine {
    ghost form = { line_form };

    ghost text = { λ l. l.words.bytes };

    ghost len = { λ l. array_string_len l.words };

    ghost capacity = { 192 };

    ghost most = { line_most };

    fn begin(&mut self, kind: u8) {
        push_ascii(&mut self.words, kind);
    }

    fn begin_undecoded(&mut self) {
        self.words.push_str("other");
    }

    #[inline(always)]
    #[tactic(auto, unfolding(crate::specs::Lines::word))]
    fn put(&mut self, _key: Key, field: Field<'_>) {
        let words = &mut self.words;
        match field {
            Field::U16(number) => show_number(words, u64::from(number)),
            Field::U32(number) => show_number(words, u64::from(number)),
            Field::U64(number) => show_number(words, number),
            Field::Time(nanoseconds) => show_number(words, nanoseconds),
            Field::Price(price) => show_price(words, price),
            Field::Mpid(mpid) => show_text(words, mpid),
            Field::Stock(stock) => show_text(words, stock),
            Field::Side(side) => show_side(words, side),
            Field::Code(byte) => show_code(words, byte),
            Field::TwoCodes(bytes) => show_codes(words, bytes),
            Field::FourCodes(bytes) => show_codes(words, bytes),
            Field::Digits(number) => show_number(words, number),
        }
    }
}
