//! Messages as lines of JSON.
ghost use Rattle.std.specs.Prelude.{◌≡◌, ◌≤◌, length};
ghost use Rattle.itch_codec.specs.Json.{json_form, json_line};
ghost use Rattle.itch_codec.specs.Rooms.{json_most};

mod words;

use crate::message::Message;
use crate::names::Key;
use crate::pieces::push_number;
use crate::sink::{Field, FieldSink};
use std::marker::Model;
use words::{JsonWords, push_quoted, push_quoted_price, push_side, push_times, put_key};

/// A line of JSON for a message, with its line feed. It is stored in the value itself and needs no allocation.
#[derive(Drop)]
pub struct JsonText {
    text: JsonWords,
}

impl Model for JsonText {
    ghost use Rattle.std.specs.Prelude.{ℕ, List};

    ghost Value = { List ℕ };

    ghost view = { λ l. l.text.bytes };
}

impl JsonText {
    /// Returns the text, which is ASCII and has at most 648 bytes.
    pub fn as_str(&self) -> &str
        ensures text { result.now ≡ self.now }
        ensures short { length result.now ≤ 648 }
    {
        self.text.as_str()
    }
}

/// Returns the line of JSON of a message: an object with its number, its type and its fields in the order of its layout, and a line feed.
///
/// The keys are the names of the fields in TotalView-ITCH 5.0. Integers are numbers, and all other values are strings: prices with their four
/// decimals, texts without the spaces at their end, sides as `B` or `S`, and codes as characters. A timestamp has two members, the time of
/// day and the nanoseconds. For an undecoded message the object has its type and the length of its payload.
pub fn json(number: u64, message: &Message<'_>) -> JsonText
    ensures { result ≡ json_line number message.now }
{
    let mut line = JsonText {
        text: JsonWords::new(),
    };
    line.text.push_str("{\"number\":");
    push_number(&mut line.text, number);
    message.write(&mut line);
    line.text.push_str("}\n");
    line
}

impl FieldSink for JsonText {
    ghost form = { json_form };

    ghost text = { λ bytes. bytes };

    ghost len = { λ bytes. length bytes };

    ghost capacity = { 648 };

    ghost most = { json_most };

    fn begin(&mut self, kind: u8) {
        self.put(Key::Kind, Field::Code(kind));
    }

    fn begin_undecoded(&mut self) {}

    #[inline(always)]
    #[tactic(auto, using(crate::proofs::Joining::joining), unfolding(crate::specs::Json::member, crate::specs::Json::times))]
    fn put(&mut self, key: Key, field: Field<'_>) {
        let text = &mut self.text;
        put_key(text, key);
        match field {
            Field::U16(number) => push_number(text, u64::from(number)),
            Field::U32(number) => push_number(text, u64::from(number)),
            Field::U64(number) => push_number(text, number),
            Field::Time(nanoseconds) => push_times(text, nanoseconds),
            Field::Price(price) => push_quoted_price(text, price),
            Field::Mpid(mpid) => push_quoted(text, mpid.text().as_bytes()),
            Field::Stock(stock) => push_quoted(text, stock.text().as_bytes()),
            Field::Side(side) => push_side(text, side),
            Field::Code(byte) => push_quoted(text, &[byte]),
            Field::TwoCodes(bytes) => push_quoted(text, bytes),
            Field::FourCodes(bytes) => push_quoted(text, bytes),
            Field::Digits(number) => push_number(text, number),
        }
    }
}
