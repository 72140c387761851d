//! Values as plain text.
ghost use Rattle.std.specs.Prelude.{◌≡◌, ◌+◌, ◌≤◌, ◌++◌};
ghost use Rattle.arrayvec.specs.ArrayVec.{array_vec_len};
ghost use Rattle.itch_status.specs.PlainTexts.{plain_value, time_of_day};

use crate::line::{digit, push, push_number, push_thousandths};
use crate::shown::{Shown, session_name};
use arrayvec::ArrayVec;

/// Appends a value.
pub(crate) fn push_plain<const N: usize>(line: &mut ArrayVec<u8, N>, shown: Shown)
    requires { array_vec_len line.old + 24 ≤ N }
    ensures items { line.new.items ≡ line.old.items ++ plain_value shown }
    ensures short { array_vec_len line.new ≤ array_vec_len line.old + 24 }
{
    match shown {
        Shown::Nothing => push(line, b"-"),
        Shown::Count(number) => push_number(line, number),
        Shown::Thousandths(number) => push_thousandths(line, number),
        Shown::Clock(number) => push_clock(line, number),
        Shown::Yes(true) => push(line, b"yes"),
        Shown::Yes(false) => push(line, b"no"),
        Shown::State(state) => push(line, state.words().as_bytes()),
        Shown::Cause(cause) => push(line, cause.words().as_bytes()),
        Shown::Session(session) => push(line, session_name(&session)),
    }
}

// Appends nanoseconds since midnight as a time of day, to the millisecond.
fn push_clock<const N: usize>(line: &mut ArrayVec<u8, N>, nanoseconds: u64)
    requires { array_vec_len line.old + 12 ≤ N }
    ensures items { line.new.items ≡ line.old.items ++ time_of_day nanoseconds }
    ensures short { array_vec_len line.new ≤ array_vec_len line.old + 12 }
{
    let seconds = nanoseconds / 1_000_000_000;
    push(
        line,
        &[
            digit(seconds / 36_000),
            digit(seconds / 3_600),
            b':',
            digit(seconds / 60 % 60 / 10),
            digit(seconds / 60 % 60),
            b':',
            digit(seconds % 60 / 10),
            digit(seconds % 60),
            b'.',
            digit(nanoseconds / 100_000_000),
            digit(nanoseconds / 10_000_000),
            digit(nanoseconds / 1_000_000),
        ],
    );
}
