//! The share of time spent on encoding snapshots.
ghost use Rattle.std.specs.Prelude.{◌≡◌, ◌-◌};
ghost use Rattle.itch_clients.specs.Budgets.{may_encode, is_slow};

/// When the last snapshot was encoded, and how long it took.
#[derive(Clone, Copy, Debug)]
pub struct Budget {
    ended_ms: u64,
    took_ms: u64,
}

impl Budget {
    /// Creates a budget before the first snapshot.
    pub fn new() -> Budget
        ensures ended { result.ended_ms ≡ 0 }
        ensures took { result.took_ms ≡ 0 }
    {
        Budget {
            ended_ms: 0,
            took_ms: 0,
        }
    }

    /// Returns whether a snapshot may be encoded now. `idle` means that there is no other work.
    pub fn allows(&self, now_ms: u64, idle: bool) -> bool
        ensures { result ≡ may_encode self.now.ended_ms self.now.took_ms now_ms idle }
    {
        may_encode(self.ended_ms, self.took_ms, now_ms, idle)
    }

    /// Records that a snapshot was encoded between two times.
    pub fn spend(&mut self, begun_ms: u64, ended_ms: u64)
        ensures ended { self.new.ended_ms ≡ ended_ms }
        ensures took { self.new.took_ms ≡ ended_ms - begun_ms }
    {
        self.ended_ms = ended_ms;
        self.took_ms = ended_ms.saturating_sub(begun_ms);
    }
}

/// Returns whether a snapshot may be encoded now. The last one took `took_ms` milliseconds and was ready at `ended_ms`. Encoding takes at
/// most a third of the time, as long as there is other work.
pub fn may_encode(ended_ms: u64, took_ms: u64, now_ms: u64, idle: bool) -> bool
    ensures { result ≡ may_encode ended_ms took_ms now_ms idle }
{
    idle || now_ms.saturating_sub(ended_ms) >= took_ms.saturating_mul(2)
}

/// Returns whether a client that accepted this many bytes of its snapshot in this time is slow: less than a megabyte per second.
pub fn is_slow(bytes: u64, passed_ms: u64) -> bool
    ensures { result ≡ is_slow bytes passed_ms }
{
    bytes < passed_ms.saturating_mul(1_000)
}
