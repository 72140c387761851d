//! How far a day was read, and which of two cursors is nearer to a point of the day.
ghost use Rattle.std.specs.Prelude.{◌≡◌, ℕ, ◌<◌, ◌≤◌, ◌-◌, ◌^◌, List, length, IfSome, true};
ghost use Rattle.std.specs.List.{AllByRecursion};
ghost use Rattle.itch_day.specs.Limits.{IsEarly};
ghost use Rattle.itch_day.specs.DayCursors.{IsDayCursor, first_cursor, is_before, is_in, is_nearer, is_within, later, cursor_past, time_at};

use crate::limit::Limit;

/// Describes the first messages of a day file, as far as it was read.
#[derive(Clone, Copy, Debug, PartialEq, Eq)]
pub struct DayCursor {
    /// The number of these messages.
    pub count: u64,
    /// The offset in the file of the first message after them. The number remains at its maximum, 2^64 - 1.
    pub offset: u64,
    /// Their latest timestamp, in nanoseconds since midnight, if one of them has a timestamp.
    pub latest: Option<u64>,
}

impl DayCursor {
    /// Returns the cursor at the beginning of a file.
    pub fn new() -> DayCursor
        ensures { result ≡ first_cursor }
    {
        DayCursor {
            count: 0,
            offset: 0,
            latest: None,
        }
    }

    // Returns the cursor after this message, which has this time.
    #[inline(always)]
    pub(crate) fn past(self, payload: &[u8], time: Option<u64>) -> DayCursor
        requires few { self.count < 2 ^ 64 - 1 }
        requires time { time ≡ time_at payload.now }
        ensures { result ≡ cursor_past self payload.now }
    {
        DayCursor {
            count: self.count + 1,
            offset: self
                .offset
                .saturating_add((payload.len() as u64).saturating_add(2)),
            latest: later(self.latest, time),
        }
    }

    /// Returns whether all of its messages belong to the part with this limit: their number is not above the limit, and none is at the time
    /// where the part ends, or later.
    pub fn is_in(&self, limit: Limit) -> bool
        ensures exact { result ≡ is_in limit self.now }
        ensures early { (payloads : List (List ℕ)) → IsDayCursor self.now payloads → result ≡ true
            → IfSome limit.after (λ most. length payloads ≤ most) × AllByRecursion (IsEarly limit) payloads }
    {
        is_within(limit.after, self.count) && is_before(limit.until, self.latest)
    }

    /// Returns whether the cursor is nearer to the end of a part than another one: it is in the part, and has more messages.
    pub fn is_nearer(&self, other: &DayCursor, limit: Limit) -> bool
        ensures { result ≡ is_nearer limit self.now other.now }
    {
        self.is_in(limit) && other.count < self.count
    }
}

// Returns the later of two times, each of which may be missing.
#[inline(always)]
fn later(before: Option<u64>, time: Option<u64>) -> Option<u64>
    ensures { result ≡ later before time }
{
    match (before, time) {
        (Some(before), Some(time)) => Some(before.max(time)),
        (None, time) => time,
        (before, None) => before,
    }
}

fn is_within(wanted: Option<u64>, count: u64) -> bool
    ensures { result ≡ is_within wanted count }
{
    match wanted {
        Some(wanted) => count <= wanted,
        None => true,
    }
}

fn is_before(until: Option<u64>, latest: Option<u64>) -> bool
    ensures { result ≡ is_before until latest }
{
    match (until, latest) {
        (Some(until), Some(time)) => time < until,
        _ => true,
    }
}
