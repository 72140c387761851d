//! Parts of a line of JSON.
ghost use Rattle.std.specs.Prelude.{◌≡◌, ◌+◌, ◌*◌, ◌≤◌, [], ◌∷◌, ◌++◌, length, codes, decimal};
ghost use Rattle.std.specs.List.{flat_map};
ghost use Rattle.arrayvec.specs.ArrayString.{array_string_len};
ghost use Rattle.itch_codec.specs.Clock.{clock};
ghost use Rattle.itch_codec.specs.Fields.{side_byte};
ghost use Rattle.itch_codec.specs.Json.{escaped, quoted};
ghost use Rattle.itch_codec.specs.Lines.{price_text};
ghost use Rattle.itch_codec.specs.Names.{key_text};

use crate::names::Key;
use crate::orders::Side;
use crate::pieces::{push_ascii, push_clock, push_hex, push_number, push_price};
use arrayvec::ArrayString;

/// The text of a line of JSON under construction. The longest line, for a Stock Directory message, has 553 bytes.
pub(crate) type JsonWords = ArrayString<648>;

/// Appends a comma and a key.
pub(super) fn put_key(line: &mut JsonWords, key: Key)
    requires { array_string_len line.old + length (key_text key) ≤ 644 }
    ensures bytes { line.new.bytes ≡ line.old.bytes ++ codes ",\"" ++ key_text key ++ codes "\":" }
    ensures len { array_string_len line.new ≡ array_string_len line.old + length (key_text key) + 4 }
{
    line.push_str(",\"");
    line.push_str(key.text());
    line.push_str("\":");
}

/// Appends the time of day as a string, and a second member with the nanoseconds since midnight.
#[tactic(auto, using(crate::proofs::Joining::joining))]
pub(super) fn push_times(line: &mut JsonWords, nanoseconds: u64)
    requires { array_string_len line.old ≤ 602 }
    ensures bytes { line.new.bytes ≡ line.old.bytes ++ codes "\"" ++ clock nanoseconds ++ codes "\",\"ns\":" ++ decimal nanoseconds }
    ensures len { array_string_len line.new ≤ array_string_len line.old + 46 }
{
    line.push_str("\"");
    push_clock(line, nanoseconds);
    line.push_str("\",\"ns\":");
    push_number(line, nanoseconds);
}

/// Appends a price with its four decimals as a string.
#[tactic(auto, using(crate::proofs::Joining::joining))]
pub(super) fn push_quoted_price(line: &mut JsonWords, price: u32)
    requires { array_string_len line.old ≤ 621 }
    ensures bytes { line.new.bytes ≡ line.old.bytes ++ codes "\"" ++ price_text price ++ codes "\"" }
    ensures len { array_string_len line.new ≤ array_string_len line.old + 27 }
{
    line.push_str("\"");
    push_price(line, price);
    line.push_str("\"");
}

/// Appends the letter of a side as a string.
pub(super) fn push_side(line: &mut JsonWords, side: Side)
    requires { array_string_len line.old ≤ 645 }
    ensures bytes { line.new.bytes ≡ line.old.bytes ++ codes "\"" ++ side_byte side ∷ codes "\"" }
    ensures len { array_string_len line.new ≡ array_string_len line.old + 3 }
{
    line.push_str(match side {
        Side::Buy => "\"B\"",
        Side::Sell => "\"S\"",
    });
}

/// Appends a string of these bytes.
#[tactic(auto, unfolding(crate::specs::Json::quoted))]
pub(super) fn push_quoted(line: &mut JsonWords, bytes: &[u8])
    requires { array_string_len line.old + 6 * length bytes.now ≤ 646 }
    ensures bytes { line.new.bytes ≡ line.old.bytes ++ quoted bytes.now }
    ensures len { array_string_len line.new ≤ array_string_len line.old + 6 * length bytes.now + 2 }
{
    line.push_str("\"");
    push_escaped_bytes(line, bytes);
    line.push_str("\"");
}

fn push_escaped_bytes(line: &mut JsonWords, bytes: &[u8])
    requires { array_string_len line.old + 6 * length bytes.now ≤ 648 }
    ensures bytes { line.new.bytes ≡ line.old.bytes ++ flat_map escaped bytes.now }
    ensures len { array_string_len line.new ≤ array_string_len line.old + 6 * length bytes.now }
{
    for &byte in bytes {
        push_escaped(line, byte);
    }
}

#[tactic(auto, using(crate::proofs::Joining::joining))]
fn push_escaped(line: &mut JsonWords, byte: u8)
    requires { array_string_len line.old ≤ 642 }
    ensures bytes { line.new.bytes ≡ line.old.bytes ++ escaped byte }
    ensures len { array_string_len line.new ≤ array_string_len line.old + 6 }
{
    if byte == b'"' || byte == b'\\' {
        line.push_str("\\");
        push_ascii(line, byte);
    } else if byte < b' ' || byte > b'~' {
        line.push_str("\\u00");
        push_hex(line, byte);
    } else {
        push_ascii(line, byte);
    }
}
