//! Numbers of bytes on the command line.
ghost use Rattle.std.specs.Prelude.{◌<◌, IfSome};

use crate::command_line::time::read_digits;

/// Parses a number of bytes, which must not be 0: decimal digits, such as `1000000`, or that many KiB, MiB or GiB, such as `512K`, `256M`
/// or `2G`.
pub fn read_size(text: &str) -> Option<u64>
    ensures { IfSome result (λ bytes. 0 < bytes) }
{
    let (digits, unit) = unit_of(text);
    let bytes = read_digits(digits)?.checked_mul(unit)?;
    if bytes > 0 { Some(bytes) } else { None }
}

// Returns the digits before the unit, and the number of bytes in the unit.
fn unit_of(text: &str) -> (&str, u64) {
    if let Some(digits) = text.strip_suffix('K') {
        (digits, 1 << 10)
    } else if let Some(digits) = text.strip_suffix('M') {
        (digits, 1 << 20)
    } else if let Some(digits) = text.strip_suffix('G') {
        (digits, 1 << 30)
    } else {
        (text, 1)
    }
}
