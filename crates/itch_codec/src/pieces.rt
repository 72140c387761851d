//! Pieces of a line, for texts of any capacity: numbers, prices, times of day and hexadecimal digits.
ghost use Rattle.std.specs.Prelude.{◌≡◌, ◌+◌, ◌/◌, ◌%◌, ◌<◌, ◌≤◌, [], ◌∷◌, ◌++◌, length, drop, decimal};
ghost use Rattle.arrayvec.specs.ArrayString.{array_string_len};
ghost use Rattle.itch_codec.specs.Clock.{clock, two_digits, nine_digits};
ghost use Rattle.itch_codec.specs.Lines.{hex_digit, four_digits, price_text};

use arrayvec::ArrayString;
use itoa::Buffer;

/// Appends a number in decimal digits.
pub(crate) fn push_number<const CAP: usize>(line: &mut ArrayString<CAP>, number: u64)
    requires { array_string_len line.old + 20 ≤ CAP }
    ensures bytes { line.new.bytes ≡ line.old.bytes ++ decimal number }
    ensures len { array_string_len line.new ≤ array_string_len line.old + 20 }
{
    line.push_str(Buffer::new().format(number));
}

/// Appends a price with its four decimals.
#[tactic(auto, using(crate::proofs::LaterDigits::later, crate::proofs::Joining::joining))]
pub(crate) fn push_price<const CAP: usize>(line: &mut ArrayString<CAP>, price: u32)
    requires { array_string_len line.old + 25 ≤ CAP }
    ensures bytes { line.new.bytes ≡ line.old.bytes ++ price_text price }
    ensures len { array_string_len line.new ≤ array_string_len line.old + 25 }
{
    push_number(line, u64::from(price / 10_000));
    line.push_str(".");
    push_later_digits(line, u64::from(10_000 + price % 10_000));
}

/// Appends nanoseconds since midnight as a time of day.
#[tactic(auto, using(crate::proofs::Joining::joining), unfolding(crate::specs::Clock::clock))]
pub(crate) fn push_clock<const CAP: usize>(line: &mut ArrayString<CAP>, nanoseconds: u64)
    requires { array_string_len line.old + 18 ≤ CAP }
    ensures bytes { line.new.bytes ≡ line.old.bytes ++ clock nanoseconds }
    ensures len { array_string_len line.new ≡ array_string_len line.old + 18 }
{
    push_two_digits(line, nanoseconds / 3_600_000_000_000);
    line.push_str(":");
    push_two_digits(line, nanoseconds / 60_000_000_000 % 60);
    line.push_str(":");
    push_two_digits(line, nanoseconds / 1_000_000_000 % 60);
    line.push_str(".");
    push_nine_digits(line, nanoseconds);
}

#[tactic(auto, using(crate::proofs::LaterDigits::later), unfolding(crate::specs::Clock::two_digits))]
fn push_two_digits<const CAP: usize>(line: &mut ArrayString<CAP>, number: u64)
    requires { array_string_len line.old + 2 ≤ CAP }
    ensures bytes { line.new.bytes ≡ line.old.bytes ++ two_digits number }
    ensures len { array_string_len line.new ≡ array_string_len line.old + 2 }
{
    push_later_digits(line, 100 + number % 100);
}

#[tactic(auto, using(crate::proofs::LaterDigits::later), unfolding(crate::specs::Clock::nine_digits))]
fn push_nine_digits<const CAP: usize>(line: &mut ArrayString<CAP>, number: u64)
    requires { array_string_len line.old + 9 ≤ CAP }
    ensures bytes { line.new.bytes ≡ line.old.bytes ++ nine_digits number }
    ensures len { array_string_len line.new ≡ array_string_len line.old + 9 }
{
    push_later_digits(line, 1_000_000_000 + number % 1_000_000_000);
}

// Appends the decimal digits of a number except the first. If the first digit is 1, the others keep their leading zeros.
fn push_later_digits<const CAP: usize>(line: &mut ArrayString<CAP>, number: u64)
    requires { array_string_len line.old + length (decimal number) ≤ CAP + 1 }
    ensures bytes { line.new.bytes ≡ line.old.bytes ++ drop 1 (decimal number) }
    ensures len { array_string_len line.new + 1 ≡ array_string_len line.old + length (decimal number) }
{
    let mut digits = Buffer::new();
    line.push_str(&digits.format(number)[1..]);
}

/// Appends an ASCII character.
pub(crate) fn push_ascii<const CAP: usize>(line: &mut ArrayString<CAP>, byte: u8)
    requires ascii { byte < 128 }
    requires room { array_string_len line.old < CAP }
    ensures bytes { line.new.bytes ≡ line.old.bytes ++ byte ∷ [] }
    ensures len { array_string_len line.new ≡ array_string_len line.old + 1 }
{
    line.push(char::from(byte));
}

/// Appends a byte as two hexadecimal digits.
pub(crate) fn push_hex<const CAP: usize>(line: &mut ArrayString<CAP>, byte: u8)
    requires { array_string_len line.old + 2 ≤ CAP }
    ensures bytes { line.new.bytes ≡ line.old.bytes ++ hex_digit (byte / 16) ∷ hex_digit (byte % 16) ∷ [] }
    ensures len { array_string_len line.new ≡ array_string_len line.old + 2 }
{
    push_ascii(line, hex_digit(byte / 16));
    push_ascii(line, hex_digit(byte % 16));
}

fn hex_digit(digit: u8) -> u8
    requires { digit < 16 }
    ensures digit { result ≡ hex_digit digit }
    ensures ascii { result < 128 }
{
    if digit < 10 {
        b'0' + digit
    } else {
        b'a' + digit - 10
    }
}
