//! The figures of a live server.
ghost use Rattle.std.specs.Prelude.{◌≡◌, None};
ghost use Rattle.itch_status.specs.declared.state.FeedState.TheVariants.{Connecting};
ghost use Rattle.itch_status.specs.FigureTables.{is_ready, record_length, record_unsynced};

use crate::cause::LossCause;
use crate::rate::Minute;
use crate::state::FeedState;
use itch_codec::Alpha;

/// The figures of a live server at one point in time.
#[derive(Clone, Copy, Debug, PartialEq, Eq)]
pub struct Figures {
    pub state: FeedState,
    /// The reason why the feed is not followed, if it is known.
    pub cause: Option<LossCause>,
    /// The feed's session, after the feed named it.
    pub session: Option<Alpha<10>>,
    /// The number of the next message, if there is a market.
    pub next: Option<u64>,
    /// The number of messages received since the start, and in the last minute.
    pub messages: u64,
    pub minute: Minute,
    /// The timestamp of the last message, in nanoseconds since midnight, and the time since it was received, in milliseconds.
    pub market_ns: Option<u64>,
    pub silence_ms: Option<u64>,
    /// The number of the feed's server in use, from 1, and how often a connection to a server was lost or failed.
    pub server: u64,
    pub losses: u64,
    /// The connections so far, those that have not logged in yet, the clients that wait for a snapshot, the clients that are receiving one,
    /// and the slots for both.
    pub connections: u64,
    pub opening: u64,
    pub waiting: u64,
    pub served: u64,
    pub slots: u64,
    /// The snapshots that were encoded, the bytes of those in use, and the bytes sent to clients.
    pub encoded: u64,
    pub kept: u64,
    pub sent: u64,
    /// `None` if messages are not recorded.
    pub recorded: Option<Recorded>,
    /// The number of messages of the newest snapshot file, if one was written, and the number of files that could not be written.
    pub saved: Option<u64>,
    pub missed: u64,
    /// The number of lines of the log that could not be written.
    pub lines_lost: u64,
    /// The time since the server started, in milliseconds.
    pub uptime_ms: u64,
}

/// A record: its bytes, and those that may not be on disk yet.
#[derive(Clone, Copy, Debug, PartialEq, Eq)]
pub struct Recorded {
    pub length: u64,
    pub unsynced: u64,
}

impl Figures {
    /// Returns the figures of a server that has just started: all are 0 or `None`.
    pub fn new() -> Figures
        ensures state { result.state ≡ Connecting }
        ensures next { result.next ≡ None }
    {
        Figures {
            state: FeedState::Connecting,
            cause: None,
            session: None,
            server: 1,
            losses: 0,
            next: None,
            messages: 0,
            minute: Minute::new(),
            market_ns: None,
            silence_ms: None,
            connections: 0,
            opening: 0,
            waiting: 0,
            served: 0,
            slots: 0,
            encoded: 0,
            kept: 0,
            sent: 0,
            recorded: None,
            saved: None,
            missed: 0,
            lines_lost: 0,
            uptime_ms: 0,
        }
    }

    /// Returns whether a client that logs in now receives the feed's market: there is a market, and the feed is followed or has ended.
    pub fn is_ready(&self) -> bool
        ensures { result ≡ is_ready self.now }
    {
        self.next.is_some() && matches!(self.state, FeedState::Following | FeedState::Ended)
    }

    /// Returns the number of bytes of the record, if there is one.
    pub fn record_length(&self) -> Option<u64>
        ensures { result ≡ record_length self.now }
    {
        Some(self.recorded?.length)
    }

    /// Returns the number of its bytes that may not be on disk yet.
    pub fn record_unsynced(&self) -> Option<u64>
        ensures { result ≡ record_unsynced self.now }
    {
        Some(self.recorded?.unsynced)
    }
}
