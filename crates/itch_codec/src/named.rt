//! Shows messages as lines of text with their codes as characters.
ghost use Rattle.std.specs.Prelude.{◌≡◌};
ghost use Rattle.arrayvec.specs.ArrayString.{array_string_len};
ghost use Rattle.itch_codec.specs.Named.{named_form, named_line};
ghost use Rattle.itch_codec.specs.Rooms.{named_most};

mod words;

use crate::message::Message;
use crate::names::Key;
use crate::pieces::{push_ascii, push_number};
use crate::showing::LineText;
use crate::sink::{Field, FieldSink};
use crate::words::{Words, show_number, show_price, show_side, show_text};
use words::{show_character, show_characters, show_clock, show_short};

/// Returns the line of a message, as [`show`](crate::show) does, but with codes as characters in single quotes, and with the timestamp as a
/// time of day, such as `09:30:00.000000001`.
///
/// Inside the single quotes, a single quote or a backslash is preceded by a backslash, and an unprintable byte is written as `\x` and its two
/// hexadecimal digits.
pub fn show_named(number: u64, message: &Message<'_>) -> LineText
    ensures { result ≡ named_line number message.now }
{
    let mut line = NamedLine {
        words: Words::new(),
    };
    push_number(&mut line.words, number);
    line.words.push_str(" ");
    message.write(&mut line);
    line.words.push_str("\n");
    LineText::of(line.words)
}

// A line under construction.
#[derive(Drop)]
struct NamedLine {
    words: Words,
}

impl FieldSink for NamedLine {
    ghost form = { named_form };

    ghost text = { λ l. l.words.bytes };

    ghost len = { λ l. array_string_len l.words };

    ghost capacity = { 192 };

    ghost most = { named_most };

    fn begin(&mut self, kind: u8) {
        push_ascii(&mut self.words, kind);
    }

    fn begin_undecoded(&mut self) {
        self.words.push_str("other");
    }

    #[inline(always)]
    #[tactic(auto, unfolding(crate::specs::Lines::word))]
    fn put(&mut self, _key: Key, field: Field<'_>) {
        let words = &mut self.words;
        match field {
            Field::U16(number) => show_short(words, number),
            Field::U32(number) => show_number(words, u64::from(number)),
            Field::U64(number) => show_number(words, number),
            Field::Time(nanoseconds) => show_clock(words, nanoseconds),
            Field::Price(price) => show_price(words, price),
            Field::Mpid(mpid) => show_text(words, mpid),
            Field::Stock(stock) => show_text(words, stock),
            Field::Side(side) => show_side(words, side),
            Field::Code(byte) => show_character(words, byte),
            Field::TwoCodes(bytes) => show_characters(words, bytes),
            Field::FourCodes(bytes) => show_characters(words, bytes),
            Field::Digits(number) => show_number(words, number),
        }
    }
}
