//! The reasons why a joiner did not take a message.

use itch_codec::CodecFault;
use itch_market::Refusal;
use thiserror::Error;

/// The reason why a message is refused.
#[derive(Clone, Copy, Debug, PartialEq, Eq, Error)]
pub enum Cause {
    /// The payload is not a valid message.
    #[error("{0}")]
    Codec(CodecFault),
    /// An order rule refuses the message.
    #[error("{0}")]
    Rule(Refusal),
    /// The snapshot continues after 10^19 - 1 messages, without an End of Snapshot.
    #[error("too many messages")]
    TooMany,
}

/// The reason why a joiner did not take a message.
#[derive(Clone, Copy, Debug, PartialEq, Eq, Error)]
pub enum JoinFault {
    /// `cap` messages are already waiting, and this one is not the next. Nothing has changed.
    #[error("{cap} messages wait already")]
    Full {
        cap: usize,
    },
    /// Another payload is waiting under this number. Nothing has changed.
    #[error("message {number} waits with other bytes")]
    Conflict {
        number: u64,
    },
    /// The number is 0 or above 10^19 - 1. Nothing has changed.
    #[error("bad message number")]
    BadNumber,
    /// The message with this number is refused. The market is that of the messages before it. The waiting messages are still waiting, except
    /// those that this call applied or dropped before. Every later call except `restart` returns the same.
    #[error("message {number}: {cause}")]
    Halted {
        number: u64,
        cause: Cause,
    },
    /// Memory ran out. The messages that this call has applied remain applied. The waiting messages are still waiting, except those that this
    /// call applied or dropped before.
    #[error("out of memory")]
    OutOfMemory {
        /// Whether the delivered message was applied or is waiting; in `snapshot`, whether it was taken. If not, it may be delivered again.
        taken: bool,
    },
    /// There was a message of a snapshot after joining. Nothing has changed.
    #[error("joined already")]
    Joined,
    /// The snapshot's message at this position, counted from 1, is refused. Every further message of the snapshot returns the same until
    /// `restart`. The waiting messages are kept.
    #[error("snapshot message {place}: {cause}")]
    BadSnapshot {
        place: u64,
        cause: Cause,
    },
}
