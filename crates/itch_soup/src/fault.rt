//! Faults of packets and sessions.
ghost use Rattle.std.specs.Prelude.{◌≡◌};
ghost use Rattle.itch_soup.specs.declared.fault.SoupFault.TheVariants.{Frame, Snapshot};

use itch_codec::Seq;
use itch_frame::FrameFault;
use itch_snapshot::SnapFault;
use thiserror::Error;

/// The reason why a block is not a valid packet, or why a session ended. Offsets count from 0, at the packet's type byte.
///
/// The first six are checked in this order, and the first fault found is returned.
#[derive(Clone, Copy, Debug, Error)]
pub enum SoupFault {
    /// The block has no bytes.
    #[error("empty packet")]
    EmptyPacket,
    /// No packet has this type byte.
    #[error("unknown packet type {0:#04x}")]
    UnknownType(u8),
    /// Only the other side sends packets of this type.
    #[error("packet {} from the wrong side", char::from(*.0))]
    WrongSide(u8),
    /// The packet's length is not that of its type. Both include the type byte.
    #[error("wrong length for packet {}: want {want}, got {got}", char::from(*.kind))]
    WrongLength { kind: u8, want: usize, got: usize },
    /// The byte at this offset is in a text and is not printable. The bytes before it in the same field are printable.
    #[error("bad text at {offset}")]
    BadText { offset: usize },
    /// The field at this offset does not hold a valid number: it holds no number, one above 10^19, or 0 in an acceptance.
    #[error("bad number at {offset}")]
    BadNumber { offset: usize },
    /// There was a login, or an answer to one, after the login was accepted.
    #[error("second login")]
    SecondLogin,
    /// There was sequenced data, with this type byte, before the login was accepted.
    #[error("packet {} before the login was accepted", char::from(*.0))]
    Early(u8),
    /// The session is over.
    #[error("the session is closed")]
    Closed,
    /// There was sequenced data whose number would be above 10^19 - 1.
    #[error("too many messages")]
    TooManyMessages,
    /// A block could not be read or written.
    #[error("{0}")]
    Frame(FrameFault),
    /// The server rejected the login with this code.
    #[error("login rejected with {}", char::from(*.0))]
    Rejected(u8),
    /// The server accepted the login from another number than the requested one.
    #[error("accepted from {}, not from {}", .next.value(), .asked.value())]
    WrongStart { next: Seq, asked: Seq },
    /// The session or the input ended before the End of Snapshot.
    #[error("ended early")]
    EndedEarly,
    /// The snapshot that was received is refused.
    #[error("{0}")]
    Snapshot(SnapFault),
}

impl From<FrameFault> for SoupFault {
    ghost from_gives = { λ fault made. made ≡ Frame fault };

    fn from(fault: FrameFault) -> SoupFault {
        SoupFault::Frame(fault)
    }
}

impl From<SnapFault> for SoupFault {
    ghost from_gives = { λ fault made. made ≡ Snapshot fault };

    fn from(fault: SnapFault) -> SoupFault {
        SoupFault::Snapshot(fault)
    }
}
