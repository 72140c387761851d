//! Durations on the command line.
ghost use Rattle.std.specs.Prelude.{◌<◌, ◌≤◌, IfSome};

use crate::command_line::time::read_digits;

/// The nanoseconds of a millisecond.
const MILLISECOND: u64 = 1_000_000;

/// The nanoseconds of a day.
const DAY: u64 = 86_400_000_000_000;

/// Parses a duration, in nanoseconds: decimal digits, and then `h`, `m`, `s` or `ms`, such as `1m` or `500ms`. It is at least a
/// millisecond, and at most a day.
pub fn read_duration(text: &str) -> Option<u64>
    ensures { IfSome result (λ duration. (0 < duration) × (duration ≤ 86400000000000)) }
{
    let (digits, unit) = unit_of(text)?;
    let duration = read_digits(digits)?.checked_mul(unit)?;
    if duration > 0 && duration <= DAY {
        Some(duration)
    } else {
        None
    }
}

// Returns the digits before the unit, and the nanoseconds of the unit.
fn unit_of(text: &str) -> Option<(&str, u64)> {
    if let Some(digits) = text.strip_suffix("ms") {
        Some((digits, MILLISECOND))
    } else if let Some(digits) = text.strip_suffix('s') {
        Some((digits, 1_000 * MILLISECOND))
    } else if let Some(digits) = text.strip_suffix('m') {
        Some((digits, 60_000 * MILLISECOND))
    } else if let Some(digits) = text.strip_suffix('h') {
        Some((digits, 3_600_000 * MILLISECOND))
    } else {
        None
    }
}
