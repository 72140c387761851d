//! Counts the messages of each second of the last minute.
ghost use Rattle.std.specs.Prelude.{◌≡◌};
ghost use Rattle.itch_status.specs.Rates.{advanced, counted, passed, rate, total};

/// The number of seconds that are kept.
pub const SECONDS: usize = 60;

/// After this many seconds no earlier second is kept.
const FORGOTTEN: u64 = 61;

/// The number of messages of the current second, and of each of the sixty seconds before it.
#[derive(Clone, Copy, Debug, PartialEq, Eq)]
pub struct Minute {
    /// The seconds before the current one, the oldest first.
    pub before: [u64; SECONDS],
    /// The number of messages of the current second, and the number of that second.
    pub present: u64,
    pub second: u64,
}

impl Minute {
    /// Returns a minute without messages, in second 0.
    pub fn new() -> Minute {
        Minute {
            before: [0; SECONDS],
            present: 0,
            second: 0,
        }
    }

    /// Counts messages in this second. Messages of an earlier second count as those of the current one.
    pub fn count(&mut self, second: u64, messages: u64)
        ensures { self.new ≡ counted self.old second messages }
    {
        self.advance(second);
        self.present = self.present.saturating_add(messages);
    }

    // Makes this second the current one.
    fn advance(&mut self, second: u64)
        ensures { self.new ≡ advanced self.old second }
    {
        let passed = second.saturating_sub(self.second).min(FORGOTTEN);
        for _second in 0..passed {
            self.pass();
        }
        self.second = self.second.max(second);
    }

    // Ends the current second; the next one has no messages yet.
    #[tactic(auto, using(crate::proofs::Minutes::last_set))]
    fn pass(&mut self)
        ensures { self.new ≡ passed self.old }
    {
        self.before.rotate_left(1);
        self.before[SECONDS - 1] = self.present;
        self.present = 0;
    }

    /// Returns the number of messages of the sixty seconds before the current one.
    pub fn total(&self) -> u64
        ensures { result ≡ total self.now }
    {
        let mut total = 0u64;
        for &messages in &self.before {
            total = total.saturating_add(messages);
        }
        total
    }

    /// Returns the messages per second over those seconds, in thousandths.
    pub fn thousandths(&self) -> u64
        ensures { result ≡ rate self.now }
    {
        self.total().saturating_mul(1_000) / 60
    }
}
