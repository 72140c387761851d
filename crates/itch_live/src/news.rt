//! The outcomes of bytes from the feed.
use itch_codec::Alpha;
use itch_frame::FrameFault;
use itch_join::JoinFault;
use itch_soup::SoupFault;

/// The outcome of a piece of the feed's bytes.
#[derive(Clone, Copy, Debug)]
pub enum News {
    /// Nothing for the caller to act on.
    Nothing,
    /// The server accepted the login, starting at this number.
    Accepted { next: u64 },
    /// The snapshot is complete, and the market is the result of all messages before this number.
    Joined { next: u64 },
    /// A message was applied, and the market is the result of all messages before this number.
    Taken { next: u64 },
    /// The server ended its session.
    Ended,
    /// The server rejected the login with this code.
    Rejected(u8),
    /// The server accepted the login under this session name, but another one was expected. This happens with the server of another day,
    /// which has different messages under the same numbers. Nothing later on this connection is taken.
    OtherSession { named: Alpha<10> },
    /// The server broke the protocol.
    Broken(SoupFault),
    /// The joiner did not accept a message. It accepts nothing later on this connection either: connect again.
    Refused(JoinFault),
    /// A message was applied, but could not be written to the record completely.
    Unrecorded(FrameFault),
}

/// The kind of server that a connection is made to: a snapshot server or a live feed.
#[derive(Clone, Copy, Debug, PartialEq, Eq)]
pub enum ServerKind {
    Glimpse,
    Live,
}
