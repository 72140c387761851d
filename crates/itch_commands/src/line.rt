//! A line of output, built part by part.
ghost use Rattle.std.specs.Prelude.{◌≡◌, ◌+◌, ◌*◌, ◌/◌, ◌%◌, ◌<◌, ◌≤◌, ◌++◌, [], ◌∷◌, length};
ghost use Rattle.itch_codec.specs.Clock.{clock, two_digits, nine_digits};
ghost use Rattle.itch_codec.specs.Json.{escaped};
ghost use Rattle.itch_codec.specs.Lines.{hex_digit, price_text};
ghost use Rattle.itch_codec.specs.Named.{character};
ghost use Rattle.itch_commands.specs.Forms.{csv_text, json_text, quoted_char};
ghost use Rattle.itch_commands.specs.Rows.{code_char, codes_field};
ghost use Rattle.std.specs.List.{flat_map};

use arrayvec::ArrayVec;
use itoa::{Buffer, Integer};
use std::marker::Model;

/// A line of at most 256 bytes. It is stored in the value itself and allocates nothing.
#[derive(Drop)]
pub struct Line {
    bytes: ArrayVec<u8, 256>,
}

impl Model for Line {
    ghost use Rattle.std.specs.Prelude.{ℕ, List};

    ghost Value = { List ℕ };

    ghost view = { λ l. l.bytes.items };
}

impl Line {
    pub fn new() -> Line
        ensures { result ≡ [] }
    {
        Line {
            bytes: ArrayVec::new(),
        }
    }

    /// Returns the line so far.
    pub fn as_bytes(&self) -> &[u8]
        ensures bytes { result.now ≡ self.now }
        ensures short { length result.now ≤ 256 }
    {
        self.bytes.as_slice()
    }

    /// Appends a text as it is.
    pub fn text(&mut self, text: &[u8])
        requires { length self.old + length text.now ≤ 256 }
        ensures { self.new ≡ self.old ++ text.now }
    {
        self.bytes.try_extend_from_slice(text).unwrap();
    }

    /// Appends a number in decimal digits.
    pub fn number<I: Integer>(&mut self, number: I)
        requires { length self.old ≤ 216 }
        ensures digits { self.new ≡ self.old ++ I.text number }
        ensures short { length self.new ≤ length self.old + 40 }
    {
        self.text(Buffer::new().format(number).as_bytes());
    }

    /// Appends a price with its four decimals.
    pub fn price(&mut self, price: u32)
        requires { length self.old ≤ 211 }
        ensures digits { self.new ≡ self.old ++ price_text price }
        ensures short { length self.new ≤ length self.old + 45 }
    {
        let decimals = [
            b'.',
            b'0' + (price / 1_000 % 10) as u8,
            b'0' + (price / 100 % 10) as u8,
            b'0' + (price / 10 % 10) as u8,
            b'0' + (price % 10) as u8,
        ];
        self.number(price / 10_000);
        self.text(&decimals);
    }

    /// Appends nanoseconds since midnight as a time of the day, such as `09:30:00.000000001`. A timestamp has less than 100 hours.
    #[tactic(auto, using(itch_codec::proofs::Joining::joining), unfolding(itch_codec::specs::Clock::clock))]
    pub fn clock(&mut self, nanoseconds: u64)
        requires { length self.old ≤ 238 }
        ensures text { self.new ≡ self.old ++ clock nanoseconds }
        ensures short { length self.new ≤ length self.old + 18 }
    {
        self.two_digits(nanoseconds / 3_600_000_000_000);
        self.text(b":");
        self.two_digits(nanoseconds / 60_000_000_000 % 60);
        self.text(b":");
        self.two_digits(nanoseconds / 1_000_000_000 % 60);
        self.text(b".");
        self.nine_digits(nanoseconds);
    }

    // Appends the last two decimal digits of a number.
    #[tactic(auto, unfolding(itch_codec::specs::Clock::two_digits))]
    fn two_digits(&mut self, number: u64)
        requires { length self.old ≤ 254 }
        ensures text { self.new ≡ self.old ++ two_digits number }
        ensures short { length self.new ≡ length self.old + 2 }
    {
        self.text(&[digit(number / 10), digit(number)]);
    }

    // Appends the last nine decimal digits of a number.
    #[tactic(auto, unfolding(itch_codec::specs::Clock::nine_digits))]
    fn nine_digits(&mut self, number: u64)
        requires { length self.old ≤ 247 }
        ensures text { self.new ≡ self.old ++ nine_digits number }
        ensures short { length self.new ≡ length self.old + 9 }
    {
        self.text(&[
            digit(number / 100_000_000),
            digit(number / 10_000_000),
            digit(number / 1_000_000),
            digit(number / 100_000),
            digit(number / 10_000),
            digit(number / 1_000),
            digit(number / 100),
            digit(number / 10),
            digit(number),
        ]);
    }

    /// Appends a byte as a character in single quotes: a single quote or a reverse solidus after a reverse solidus, and a byte that is not
    /// printable as `\\x` and two hexadecimal digits.
    pub fn character(&mut self, byte: u8)
        requires { length self.old ≤ 252 }
        ensures text { self.new ≡ self.old ++ character byte }
        ensures short { length self.new ≤ length self.old + 4 }
    {
        if byte == b'\'' || byte == b'\\' {
            self.text(&[b'\\', byte]);
        } else if byte < b' ' || byte > b'~' {
            self.text(b"\\x");
            self.hex(byte);
        } else {
            self.text(&[byte]);
        }
    }

    /// Appends any byte within a string of JSON: a quotation mark or a reverse solidus after a reverse solidus, and a byte that is not
    /// printable as `\\u00` and two hexadecimal digits.
    pub fn escaped(&mut self, byte: u8)
        requires { length self.old ≤ 250 }
        ensures text { self.new ≡ self.old ++ escaped byte }
        ensures short { length self.new ≤ length self.old + 6 }
    {
        if byte == b'"' || byte == b'\\' {
            self.text(&[b'\\', byte]);
        } else if byte < b' ' || byte > b'~' {
            self.text(b"\\u00");
            self.hex(byte);
        } else {
            self.text(&[byte]);
        }
    }

    // Appends a byte in hexadecimal digits.
    fn hex(&mut self, byte: u8)
        requires { length self.old ≤ 254 }
        ensures text { self.new ≡ self.old ++ hex_digit (byte / 16) ∷ hex_digit (byte % 16) ∷ [] }
        ensures short { length self.new ≡ length self.old + 2 }
    {
        self.text(&[hex_digit(byte / 16), hex_digit(byte % 16)]);
    }

    /// Appends a printable text within a string of JSON.
    pub fn json_text(&mut self, text: &[u8])
        requires { length self.old + 2 * length text.now ≤ 256 }
        ensures text { self.new ≡ self.old ++ json_text text.now }
        ensures short { length self.new ≤ length self.old + 2 * length text.now }
    {
        for &byte in text {
            if byte == b'"' || byte == b'\\' {
                self.text(b"\\");
            }
            self.text(&[byte]);
        }
    }

    /// Appends a printable text as a field of comma-separated values.
    pub fn csv_text(&mut self, text: &[u8])
        requires { length self.old + 2 * length text.now + 2 ≤ 256 }
        ensures text { self.new ≡ self.old ++ csv_text text.now }
        ensures short { length self.new ≤ length self.old + 2 * length text.now + 2 }
    {
        if text.contains(&b',') || text.contains(&b'"') {
            self.text(b"\"");
            self.quoted_text(text);
            self.text(b"\"");
        } else {
            self.text(text);
        }
    }

    /// Appends bytes of any kind as a field of comma-separated values: one that is not printable as `\\x` and two hexadecimal digits.
    #[tactic(auto, unfolding(crate::specs::Rows::codes_field))]
    pub fn codes(&mut self, bytes: &[u8])
        requires { length self.old + 8 * length bytes.now + 2 ≤ 256 }
        ensures text { self.new ≡ self.old ++ codes_field bytes.now }
        ensures short { length self.new ≤ length self.old + 8 * length bytes.now + 2 }
    {
        let mut text = Line::new();
        text.code_chars(bytes);
        self.csv_text(text.as_bytes());
    }

    // Appends bytes of any kind.
    fn code_chars(&mut self, bytes: &[u8])
        requires { length self.old + 4 * length bytes.now ≤ 256 }
        ensures text { self.new ≡ self.old ++ flat_map code_char bytes.now }
        ensures short { length self.new ≤ length self.old + 4 * length bytes.now }
    {
        for &byte in bytes {
            self.code_char(byte);
        }
    }

    // Appends a byte of any kind: as `\\x` and two hexadecimal digits if it is not printable.
    fn code_char(&mut self, byte: u8)
        requires { length self.old ≤ 252 }
        ensures text { self.new ≡ self.old ++ code_char byte }
        ensures short { length self.new ≤ length self.old + 4 }
    {
        if byte < b' ' || byte > b'~' {
            self.text(b"\\x");
            self.hex(byte);
        } else {
            self.text(&[byte]);
        }
    }

    // Appends a text, and doubles its quotation marks.
    fn quoted_text(&mut self, text: &[u8])
        requires { length self.old + 2 * length text.now ≤ 256 }
        ensures text { self.new ≡ self.old ++ flat_map quoted_char text.now }
        ensures short { length self.new ≤ length self.old + 2 * length text.now }
    {
        for &byte in text {
            if byte == b'"' {
                self.text(b"\"");
            }
            self.text(&[byte]);
        }
    }
}

// Returns the last decimal digit of a number.
fn digit(number: u64) -> u8
    ensures { result ≡ 48 + number % 10 }
{
    b'0' + (number % 10) as u8
}

fn hex_digit(digit: u8) -> u8
    requires { digit < 16 }
    ensures { result ≡ hex_digit digit }
{
    if digit < 10 {
        b'0' + digit
    } else {
        b'a' + digit - 10
    }
}
