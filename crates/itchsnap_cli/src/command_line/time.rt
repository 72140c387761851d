//! Times of day on the command line.
ghost use Rattle.std.specs.Prelude.{◌<◌, ◌≤◌, ◌^◌, ◌*◌, ◌+◌, ◌-◌, ◌≡◌, length, SomeIff, IfSome, [], ◌∷◌};
ghost use Rattle.std.specs.Str.Parse.{digits_value, IsNumeral, AllDigits};
ghost use Rattle.std.specs.Char.{digit_value};
ghost use Rattle.itchsnap_cli.specs.Times.{IsTime, time_value, IsMinutes, minutes_value, IsSeconds, seconds_value, AreDecimals, decimals_value, IsTwoDigits, IsNumber};

/// The nanoseconds of a second.
const SECOND: u64 = 1_000_000_000;

/// Parses a time of the day, in nanoseconds since midnight: hours and minutes, such as `10:30` or `9:30`, then optional seconds with up to
/// nine decimals, such as `10:30:00.000000001`; or the nanoseconds themselves.
pub fn read_time(text: &str) -> Option<u64>
    ensures { SomeIff result (IsTime text.now) (time_value text.now) }
{
    let (hours, rest) = match text.as_bytes() {
        [one, b':', rest @ ..] => (digit_of(*one)?, rest),
        [ten, one, b':', rest @ ..] => (two_digits(*ten, *one, 24)?, rest),
        _ => return read_digits(text),
    };
    let rest = read_minutes(rest)?;
    Some(hours * 3600 * SECOND + rest)
}

// Minutes, and seconds if there are any, in nanoseconds.
fn read_minutes(text: &[u8]) -> Option<u64>
    ensures exact { SomeIff result (IsMinutes text.now) (minutes_value text.now) }
    ensures bound { IfSome result (λ time. time < 2 ^ 63) }
{
    match text {
        [ten, one] => Some(two_digits(*ten, *one, 60)? * 60 * SECOND),
        [ten, one, b':', rest @ ..] => {
            Some(two_digits(*ten, *one, 60)? * 60 * SECOND + read_seconds(rest)?)
        }
        _ => None,
    }
}

// Parses seconds with up to nine decimals, in nanoseconds.
fn read_seconds(text: &[u8]) -> Option<u64>
    ensures exact { SomeIff result (IsSeconds text.now) (seconds_value text.now) }
    ensures bound { IfSome result (λ time. time < 2 ^ 62) }
{
    match text {
        [ten, one] => Some(two_digits(*ten, *one, 60)? * SECOND),
        [ten, one, b'.', decimals @ ..] => {
            Some(two_digits(*ten, *one, 60)? * SECOND + read_decimals(decimals)?)
        }
        _ => None,
    }
}

// Parses one to nine decimals of a second, in nanoseconds.
fn read_decimals(digits: &[u8]) -> Option<u64>
    ensures exact { SomeIff result (AreDecimals digits.now) (decimals_value digits.now) }
    ensures bound { IfSome result (λ time. time < 2 ^ 61) }
{
    let unit = match digits.len() {
        1 => 100_000_000,
        2 => 10_000_000,
        3 => 1_000_000,
        4 => 100_000,
        5 => 10_000,
        6 => 1_000,
        7 => 100,
        8 => 10,
        9 => 1,
        _ => return None,
    };
    Some(few_digits(digits)? * unit)
}

// The number of at most nine digits.
#[tactic(auto, using(crate::proofs::Digits::beginning_below, crate::proofs::Digits::each_digit, std::proofs::lemmas::Int::Digits::digits_value_more, std::proofs::lemmas::Int::Digits::digits_more))]
fn few_digits(digits: &[u8]) -> Option<u64>
    requires { length digits.now ≤ 9 }
    ensures exact { SomeIff result (AllDigits 10 digits.now) (digits_value 10 digits.now) }
    ensures bound { IfSome result (λ number. number < 10 ^ 9) }
{
    let mut number = 0;
    for place in 0..digits.len() {
        number = number * 10 + digit_of(digits[place])?;
    }
    Some(number)
}

// The number of two digits, below `end`.
fn two_digits(ten: u8, one: u8, end: u64) -> Option<u64>
    ensures exact { SomeIff result (IsTwoDigits end ten one) (digits_value 10 (ten ∷ one ∷ [])) }
    ensures bound { IfSome result (λ number. number < end) }
{
    let number = digit_of(ten)? * 10 + digit_of(one)?;
    if number < end { Some(number) } else { None }
}

// The value of a decimal digit.
fn digit_of(byte: u8) -> Option<u64>
    ensures { SomeIff result (digit_value byte < 10) (digit_value byte) }
{
    if byte.is_ascii_digit() {
        Some(u64::from(byte - b'0'))
    } else {
        None
    }
}

/// Parses a number in decimal digits only.
pub fn read_digits(text: &str) -> Option<u64>
    ensures { SomeIff result (IsNumber text.now) (digits_value 10 text.now) }
{
    if text.as_bytes().first() == Some(&b'+') {
        return None;
    }
    text.parse::<u64>().ok()
}
