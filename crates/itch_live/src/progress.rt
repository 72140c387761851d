//! The progress of a client of a played feed.

/// The progress of a client of a played feed.
#[derive(Clone, Copy, Debug)]
pub(crate) enum Progress {
    /// No login was accepted yet.
    Waiting,
    /// The login was rejected with this code.
    Refused { code: u8 },
    /// The login was accepted from this number on, and the session has not ended.
    Playing { first: u64 },
    /// The same, and all messages and the end of the session were queued.
    Ended { first: u64 },
}
