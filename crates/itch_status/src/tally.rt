//! Counts the messages of a feed as they are received.
ghost use Rattle.std.specs.Prelude.{◌≡◌, ◌-◌, ◌/◌, None, option_map};
ghost use Rattle.itch_status.specs.Rates.{counted, seen};

use crate::rate::Minute;

/// The messages received since the start.
#[derive(Clone, Copy, Debug, PartialEq, Eq)]
pub struct FeedTally {
    /// The number of the next message, if there is a market.
    pub next: Option<u64>,
    pub messages: u64,
    pub minute: Minute,
    /// The time when the last message was received, in milliseconds.
    pub received_ms: Option<u64>,
}

impl FeedTally {
    /// Creates a tally without messages. `next` is the number of the next message, if there is a market.
    pub fn new(next: Option<u64>) -> FeedTally
        ensures next { result.next ≡ next }
        ensures messages { result.messages ≡ 0 }
        ensures received { result.received_ms ≡ None }
    {
        FeedTally {
            next,
            messages: 0,
            minute: Minute::new(),
            received_ms: None,
        }
    }

    /// Notes the number of the next message at this time: the messages before it were received since the last note.
    pub fn see(&mut self, next: Option<u64>, now_ms: u64)
        ensures { self.new ≡ seen self.old next now_ms }
    {
        let received = match (self.next, next) {
            (Some(before), Some(next)) => next.saturating_sub(before),
            _ => 0,
        };
        self.next = next;
        self.minute.count(now_ms / 1_000, received);
        self.messages = self.messages.saturating_add(received);
        if received > 0 {
            self.received_ms = Some(now_ms);
        }
    }

    /// Returns the time since the last message was received, in milliseconds, or `None` if none was received.
    pub fn silence_ms(&self, now_ms: u64) -> Option<u64>
        ensures { result ≡ option_map (λ received. now_ms - received) self.now.received_ms }
    {
        match self.received_ms {
            Some(received_ms) => Some(now_ms.saturating_sub(received_ms)),
            None => None,
        }
    }

    /// Returns the last minute at this time.
    pub fn minute_at(&self, now_ms: u64) -> Minute
        ensures { result ≡ counted self.now.minute (now_ms / 1000) 0 }
    {
        let mut minute = self.minute;
        minute.count(now_ms / 1_000, 0);
        minute
    }
}
