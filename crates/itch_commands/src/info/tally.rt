//! The tally of messages.
ghost use Rattle.std.specs.Prelude.{◌≡◌, ℕ, ◌+◌, ◌-◌, ◌^◌, ◌<◌, ◌==◌, if◌then◌else◌, max, None, slice_index};
ghost use Rattle.itch_commands.specs.Tallies.{earlier};

use crate::info::counts::TypeCounts;

/// The tally of messages: the number of each type, their earliest time, and the greatest number of live orders after one.
#[derive(Clone, Copy)]
pub struct Tally {
    pub counts: TypeCounts,
    pub first: Option<u64>,
    pub peak: u64,
}

impl Tally {
    /// Starts without messages.
    pub fn new() -> Tally
        ensures counts { (kind : ℕ) → kind < 256 → slice_index result.counts.counts kind ≡ 0 }
        ensures first { result.first ≡ None }
        ensures peak { result.peak ≡ 0 }
    {
        Tally {
            counts: TypeCounts::new(),
            first: None,
            peak: 0,
        }
    }

    /// Counts one more message with this type and this time, after which that many orders are live.
    #[inline(always)]
    pub fn count(&mut self, kind: u8, time: Option<u64>, live: u64)
        requires { slice_index self.old.counts.counts kind < 2 ^ 64 - 1 }
        ensures counts { (other : ℕ) → other < 256 → slice_index self.new.counts.counts other ≡ slice_index self.old.counts.counts other + (if kind == other then 1 else 0) }
        ensures first { self.new.first ≡ earlier self.old.first time }
        ensures peak { self.new.peak ≡ max self.old.peak live }
    {
        self.counts.add(kind);
        self.first = earlier(self.first, time);
        self.peak = self.peak.max(live);
    }
}

// Returns the earlier of two times, if there are any.
#[inline(always)]
fn earlier(before: Option<u64>, time: Option<u64>) -> Option<u64>
    ensures { result ≡ earlier before time }
{
    match (before, time) {
        (Some(before), Some(time)) => Some(before.min(time)),
        (None, time) => time,
        (before, None) => before,
    }
}
