//! The state of a feed for the status page.

use super::FeedSide;
use crate::feed_line::{FeedLine, Loss};
use itch_status::{FeedState, LossCause};

impl FeedSide<'_> {
    /// Returns the state of the feed, and why it is not followed, if the cause is known.
    pub(crate) fn state(&self) -> (FeedState, Option<LossCause>) {
        if self.is_over() {
            return (FeedState::Ended, None);
        }
        if self.is_accepted {
            return (FeedState::Following, None);
        }
        if self.was_accepted {
            return (FeedState::Lost, self.cause);
        }
        (FeedState::Connecting, self.cause)
    }

    /// Returns the milliseconds since the last accepted login.
    pub(crate) fn accepted_for_ms(&self, now_ms: u64) -> u64 {
        now_ms.saturating_sub(self.accepted_ms)
    }

    /// Returns the number of the current server, starting at 1.
    pub(crate) fn server_number(&self) -> u64 {
        (self.server() as u64).saturating_add(1)
    }

    /// Returns how often a connection was lost, or could not be made.
    pub(crate) fn losses(&self) -> u64 {
        self.losses
    }

    /// Returns the timestamp of the last message, in nanoseconds since midnight.
    pub(crate) fn market_ns(&self) -> Option<u64> {
        self.market_ns
    }

    /// Returns the line about the loss of the server with this name, if the feed's next message has this number.
    pub(super) fn loss<'a>(&self, next: Option<u64>, name: Option<&'a str>) -> Loss<'a> {
        let line = match next {
            Some(next) => FeedLine::Lost(next),
            None => FeedLine::GlimpseLost,
        };
        Loss {
            line,
            cause: self.cause,
            name,
        }
    }
}
