//! The reasons why a snapshot was not written or not read.
ghost use Rattle.std.specs.Prelude.{◌≡◌};
ghost use Rattle.itch_snapshot.specs.declared.fault.SnapFault.TheVariants.{Frame};

use itch_codec::CodecFault;
use itch_frame::FrameFault;
use itch_market::Refusal;
use std::error::Error;
use std::fmt;

/// The reason why a snapshot was not written or not read.
///
/// `place` is the position of a message in the snapshot, counted from 1. If memory runs out, the fault is `Rule` with the reason
/// `OutOfMemory`.
#[derive(Clone, Copy, Debug)]
pub enum SnapFault {
    /// The blocks ended before an End of Snapshot.
    NoEnd,
    /// A block was not read or not written.
    Frame(FrameFault),
    /// The payload at this position is not a valid message.
    Codec { place: u64, fault: CodecFault },
    /// An order rule refuses the message at this position, or memory ran out.
    Rule { place: u64, reason: Refusal },
    /// A block that is not empty follows the End of Snapshot.
    AfterEnd,
    /// The snapshot continues after 10^19 - 1 messages, without an End of Snapshot.
    TooManyMessages,
}

impl fmt::Display for SnapFault {
    fn fmt<W: fmt::Write>(&self, f: &mut fmt::Formatter<W>) -> fmt::Result {
        match self {
            SnapFault::NoEnd => write!(f, "no end of snapshot"),
            SnapFault::Frame(fault) => write!(f, "{fault}"),
            SnapFault::Codec { place, fault } => write!(f, "message {place}: {fault}"),
            SnapFault::Rule {
                place: _,
                reason: Refusal::OutOfMemory,
            } => write!(f, "out of memory"),
            SnapFault::Rule { place, reason } => write!(f, "message {place}: {reason}"),
            SnapFault::AfterEnd => write!(f, "message after end of snapshot"),
            SnapFault::TooManyMessages => write!(f, "too many messages"),
        }
    }
}

impl Error for SnapFault {}

impl From<FrameFault> for SnapFault {
    ghost from_gives = { λ fault made. made ≡ Frame fault };

    fn from(fault: FrameFault) -> SnapFault {
        SnapFault::Frame(fault)
    }
}
