//! When a message of a played day file is due.
ghost use Rattle.std.specs.Prelude.{◌≡◌, ◌*◌, nat_le};
ghost use Rattle.itch_clients.specs.Paces.{is_due, timestamp};

use itch_codec::Stamp;

/// The speed at which a day file is played.
#[derive(Clone, Copy, Debug, PartialEq, Eq)]
pub enum Pace {
    /// As fast as a client accepts it.
    Free,
    /// This number of messages per second, from the login on.
    Rate(u64),
    /// This many times the pace of the messages' timestamps.
    Clock(u64),
}

/// Returns whether a message is due `passed_ms` milliseconds after the login was accepted, if `before` messages come before it, and its
/// timestamp is `later_ns` nanoseconds after that of the first message.
pub fn is_due(pace: Pace, passed_ms: u64, before: u64, later_ns: u64) -> bool
    ensures { result ≡ is_due pace passed_ms before later_ns }
{
    match pace {
        Pace::Free => true,
        Pace::Rate(rate) => reaches(
            u128::from(before) * 1_000,
            u128::from(rate),
            u128::from(passed_ms),
        ),
        Pace::Clock(times) => reaches(
            u128::from(later_ns),
            u128::from(times) * 1_000_000,
            u128::from(passed_ms),
        ),
    }
}

// Returns whether a product is at least the wanted number.
fn reaches(wanted: u128, factor: u128, other: u128) -> bool
    ensures { result ≡ nat_le wanted (factor * other) }
{
    match factor.checked_mul(other) {
        Some(product) => wanted <= product,
        None => true,
    }
}

/// Returns the timestamp in a message's header, in nanoseconds since midnight, or 0 if it has none.
pub fn timestamp(message: &[u8]) -> u64
    ensures { result ≡ timestamp message.now }
{
    match Stamp::of_payload(message) {
        Some(stamp) => stamp.value(),
        None => 0,
    }
}
