//! The words of codes.
ghost use Rattle.std.specs.Prelude.{◌≡◌, option_map};
ghost use Rattle.itchsnap_c.specs.Reasons.{Tells, payload_reason, rule_reason, file_reason, call_reason, joiner_reason, session_reason, reason};

use crate::answers::Written;
use crate::codes::ABSENT;
use crate::snapshots::copy;

/// Writes the words of a code, and a zero byte after them, to the front of `out`. If there is no room for them, or no such code, `out`
/// stays as it was.
#[unsafe(no_mangle)]
pub extern "C" fn itchsnap_reason_text(code: u32, out: &mut [u8]) -> Written
    ensures { Tells code out.old result out.new }
{
    match reason(code) {
        Some(words) => copy(words, out),
        None => Written {
            len: 0,
            code: ABSENT,
        },
    }
}

// The words of a code, with a zero byte after them.
fn reason(code: u32) -> Option<&'static [u8]>
    ensures { option_map (λ words. words.now) result ≡ reason code }
{
    match code {
        0..16 => payload_reason(code),
        16..32 => rule_reason(code),
        32..48 => file_reason(code),
        48..64 => call_reason(code),
        64..80 => joiner_reason(code),
        _ => session_reason(code),
    }
}

// The codes of a payload.
fn payload_reason(code: u32) -> Option<&'static [u8]>
    ensures { option_map (λ words. words.now) result ≡ payload_reason code }
{
    match code {
        0 => Some(b"ok\0"),
        1 => Some(b"empty message\0"),
        2 => Some(b"wrong length\0"),
        3 => Some(b"bad text\0"),
        4 => Some(b"bad side\0"),
        5 => Some(b"bad number\0"),
        _ => None,
    }
}

// The codes of the order rules.
fn rule_reason(code: u32) -> Option<&'static [u8]>
    ensures { option_map (λ words. words.now) result ≡ rule_reason code }
{
    match code {
        16 => Some(b"unknown locate\0"),
        17 => Some(b"stock mismatch\0"),
        18 => Some(b"zero shares\0"),
        19 => Some(b"duplicate reference\0"),
        20 => Some(b"unknown reference\0"),
        21 => Some(b"locate mismatch\0"),
        22 => Some(b"too many shares\0"),
        23 => Some(b"unexpected end\0"),
        _ => None,
    }
}

// The codes of files.
fn file_reason(code: u32) -> Option<&'static [u8]>
    ensures { option_map (λ words. words.now) result ≡ file_reason code }
{
    match code {
        32 => Some(b"truncated\0"),
        33 => Some(b"too many messages\0"),
        34 => Some(b"read failed\0"),
        35 => Some(b"no end of snapshot\0"),
        36 => Some(b"message after end of snapshot\0"),
        37 => Some(b"too few messages\0"),
        _ => None,
    }
}

// The codes of calls.
fn call_reason(code: u32) -> Option<&'static [u8]>
    ensures { option_map (λ words. words.now) result ≡ call_reason code }
{
    match code {
        48 => Some(b"out of memory\0"),
        49 => Some(b"no room\0"),
        50 => Some(b"wrong handle\0"),
        51 => Some(b"handle in use\0"),
        52 => Some(b"absent\0"),
        53 => Some(b"not joined\0"),
        54 => Some(b"no number\0"),
        _ => None,
    }
}

// The codes of joiners.
fn joiner_reason(code: u32) -> Option<&'static [u8]>
    ensures { option_map (λ words. words.now) result ≡ joiner_reason code }
{
    match code {
        64 => Some(b"kept\0"),
        65 => Some(b"applied\0"),
        66 => Some(b"old message\0"),
        67 => Some(b"more follows\0"),
        68 => Some(b"joined\0"),
        72 => Some(b"full\0"),
        73 => Some(b"conflict\0"),
        74 => Some(b"bad message number\0"),
        75 => Some(b"halted\0"),
        76 => Some(b"already joined\0"),
        77 => Some(b"taken, out of memory\0"),
        78 => Some(b"bad snapshot\0"),
        _ => None,
    }
}

// The codes of sessions.
fn session_reason(code: u32) -> Option<&'static [u8]>
    ensures { option_map (λ words. words.now) result ≡ session_reason code }
{
    match code {
        80 => Some(b"login accepted\0"),
        81 => Some(b"login rejected\0"),
        82 => Some(b"message\0"),
        83 => Some(b"session ended\0"),
        84 => Some(b"logged out\0"),
        85 => Some(b"heartbeat due\0"),
        86 => Some(b"connection lost\0"),
        96 => Some(b"unknown packet type\0"),
        97 => Some(b"packet from the wrong side\0"),
        98 => Some(b"second login\0"),
        99 => Some(b"packet before the login\0"),
        100 => Some(b"session closed\0"),
        101 => Some(b"broken session\0"),
        _ => None,
    }
}
