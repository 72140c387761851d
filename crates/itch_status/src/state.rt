//! The state of a feed.
ghost use Rattle.std.specs.Prelude.{◌≡◌, ◌≤◌, length};
ghost use Rattle.itch_status.specs.States.{state_words};

/// The state of a feed.
#[derive(Clone, Copy, Debug, PartialEq, Eq)]
pub enum FeedState {
    /// No login was accepted yet.
    Connecting,
    /// The server follows its messages.
    Following,
    /// The connection was lost after a login was accepted.
    Lost,
    /// The feed has ended its session.
    Ended,
}

impl FeedState {
    /// The states, in the order of the metrics.
    pub(crate) const ALL: [FeedState; 4] = [
        FeedState::Connecting,
        FeedState::Following,
        FeedState::Lost,
        FeedState::Ended,
    ];

    /// Returns the state as a word.
    pub fn words(self) -> &'static str
        ensures words { result.now ≡ state_words self }
        ensures short { length result.now ≤ 10 }
    {
        match self {
            FeedState::Connecting => "connecting",
            FeedState::Following => "following",
            FeedState::Lost => "lost",
            FeedState::Ended => "ended",
        }
    }
}
