//! When clients are served after a start.
ghost use Rattle.std.specs.Prelude.{◌≡◌};
ghost use Rattle.itch_records.specs.Readiness.{is_caught_up};

use itch_status::FeedState;

/// If a feed sends nothing more for this many milliseconds after it has accepted the login, it counts as caught up.
const QUIET_MS: u64 = 1_000;

/// When clients begin to receive snapshots.
#[derive(Clone, Copy, Debug, PartialEq, Eq)]
pub enum Ready {
    /// As soon as there is a market, which may be an early one.
    First,
    /// As soon as the record was replayed, and the feed has sent all messages that it had.
    CaughtUp,
}

/// Returns whether a feed in this state, which accepted the login `accepted_for_ms` milliseconds ago, has sent all messages that it had.
/// `is_busy` means that bytes of it are waiting to be read.
pub fn is_caught_up(state: FeedState, accepted_for_ms: u64, is_busy: bool) -> bool
    ensures { result ≡ is_caught_up state accepted_for_ms is_busy }
{
    match state {
        FeedState::Ended => true,
        FeedState::Following => !is_busy && accepted_for_ms >= QUIET_MS,
        FeedState::Connecting | FeedState::Lost => false,
    }
}
