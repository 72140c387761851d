//! Writes the words of a line with names that differ from those of other lines.
ghost use Rattle.std.specs.Prelude.{◌≡◌, ◌+◌, ◌*◌, ◌≤◌, [], ◌∷◌, ◌++◌, length};
ghost use Rattle.std.specs.List.{flat_map};
ghost use Rattle.arrayvec.specs.ArrayString.{array_string_len};
ghost use Rattle.itch_codec.specs.Fields.{Number};
ghost use Rattle.itch_codec.specs.Layouts.{Integer};
ghost use Rattle.itch_codec.specs.Lines.{word};
ghost use Rattle.itch_codec.specs.Named.{character, characters, clock_word};

use crate::pieces::{push_ascii, push_clock, push_hex};
use crate::words::Words;
use itoa::Buffer;

/// Appends a space and a number of at most five digits. The limit leaves room for the characters of a directory entry.
#[tactic(auto, unfolding(crate::specs::Lines::word))]
pub(super) fn show_short(line: &mut Words, number: u16)
    requires { array_string_len line.old ≤ 186 }
    ensures bytes { line.new.bytes ≡ line.old.bytes ++ word Integer (Number number) }
    ensures len { array_string_len line.new ≤ array_string_len line.old + 6 }
{
    line.push_str(" ");
    line.push_str(Buffer::new().format(number));
}

/// Appends a space and a time of day.
#[tactic(auto, unfolding(crate::specs::Named::clock_word))]
pub(super) fn show_clock(line: &mut Words, nanoseconds: u64)
    requires { array_string_len line.old ≤ 173 }
    ensures bytes { line.new.bytes ≡ line.old.bytes ++ clock_word nanoseconds }
    ensures len { array_string_len line.new ≡ array_string_len line.old + 19 }
{
    line.push_str(" ");
    push_clock(line, nanoseconds);
}

/// Appends a space and a byte as a character in single quotes.
pub(super) fn show_character(line: &mut Words, byte: u8)
    requires { array_string_len line.old ≤ 185 }
    ensures bytes { line.new.bytes ≡ line.old.bytes ++ characters (byte ∷ []) }
    ensures len { array_string_len line.new ≤ array_string_len line.old + 7 }
{
    show_characters(line, &[byte]);
}

/// Appends a space and bytes as characters in single quotes.
#[tactic(auto, using(crate::proofs::Joining::joining), unfolding(crate::specs::Named::characters))]
pub(super) fn show_characters(line: &mut Words, bytes: &[u8])
    requires { array_string_len line.old + 4 * length bytes.now ≤ 189 }
    ensures bytes { line.new.bytes ≡ line.old.bytes ++ characters bytes.now }
    ensures len { array_string_len line.new ≤ array_string_len line.old + 4 * length bytes.now + 3 }
{
    line.push_str(" '");
    push_characters(line, bytes);
    line.push_str("'");
}

fn push_characters(line: &mut Words, bytes: &[u8])
    requires { array_string_len line.old + 4 * length bytes.now ≤ 192 }
    ensures bytes { line.new.bytes ≡ line.old.bytes ++ flat_map character bytes.now }
    ensures len { array_string_len line.new ≤ array_string_len line.old + 4 * length bytes.now }
{
    for &byte in bytes {
        push_character(line, byte);
    }
}

#[tactic(auto, using(crate::proofs::Joining::joining))]
fn push_character(line: &mut Words, byte: u8)
    requires { array_string_len line.old ≤ 188 }
    ensures bytes { line.new.bytes ≡ line.old.bytes ++ character byte }
    ensures len { array_string_len line.new ≤ array_string_len line.old + 4 }
{
    if byte == b'\'' || byte == b'\\' {
        line.push_str("\\");
        push_ascii(line, byte);
    } else if byte < b' ' || byte > b'~' {
        line.push_str("\\x");
        push_hex(line, byte);
    } else {
        push_ascii(line, byte);
    }
}
