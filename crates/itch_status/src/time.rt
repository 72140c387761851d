//! The date and the time of day in a log.
ghost use Rattle.std.specs.Prelude.{◌≡◌, ◌/◌, IfSome};
ghost use Rattle.httpdate.specs.Date.{date_text, unix_secs};
ghost use Rattle.httpdate.specs.declared.date.HttpDate.{HttpDate as Date};
ghost use Rattle.itch_status.specs.Times.{month_digits, utc_text};

use crate::line::digit;
use httpdate::HttpDate;

/// The number of bytes of a time.
pub const UTC: usize = 24;

/// Returns the time of a number of milliseconds since 1970, such as `2026-11-29T09:30:00.123Z`, or `None` after the year 9999.
pub fn utc(unix_ms: u64) -> Option<[u8; UTC]>
    ensures { IfSome result (λ text. (d : Date) × (unix_secs d ≡ unix_ms / 1000) × (text ≡ utc_text (date_text d) unix_ms)) }
{
    let Ok(date) = HttpDate::from_unix_secs(unix_ms / 1_000) else {
        return None;
    };
    Some(time_of(&date.to_bytes(), unix_ms))
}

// Returns the time of an HTTP date and of its milliseconds.
fn time_of(date: &[u8; 29], unix_ms: u64) -> [u8; UTC]
    ensures { result ≡ utc_text date.now unix_ms }
{
    let month = month_digits(date[8], date[9], date[10]);
    [
        date[12],
        date[13],
        date[14],
        date[15],
        b'-',
        month[0],
        month[1],
        b'-',
        date[5],
        date[6],
        b'T',
        date[17],
        date[18],
        b':',
        date[20],
        date[21],
        b':',
        date[23],
        date[24],
        b'.',
        digit(unix_ms / 100),
        digit(unix_ms / 10),
        digit(unix_ms),
        b'Z',
    ]
}

// Returns the two digits of a month, from its three letters in an HTTP date.
fn month_digits(first: u8, second: u8, third: u8) -> [u8; 2]
    ensures { result ≡ month_digits first second third }
{
    match (first, second, third) {
        (b'J', b'a', _) => *b"01",
        (b'F', _, _) => *b"02",
        (b'M', _, b'r') => *b"03",
        (b'A', b'p', _) => *b"04",
        (b'M', _, _) => *b"05",
        (b'J', _, b'n') => *b"06",
        (b'J', _, _) => *b"07",
        (b'A', _, _) => *b"08",
        (b'S', _, _) => *b"09",
        (b'O', _, _) => *b"10",
        (b'N', _, _) => *b"11",
        _ => *b"12",
    }
}
