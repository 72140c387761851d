//! The reasons why a payload is not a valid message.

use thiserror::Error;

/// The reason why a payload was not decoded. Offsets count from 0, at the payload's first byte.
///
/// The decoder checks the length first and then the fields in order, and returns the first fault.
#[derive(Clone, Copy, Debug, PartialEq, Eq, Error)]
pub enum CodecFault {
    /// The payload has no bytes.
    #[error("empty message")]
    Empty,
    /// The payload's type is in the table, but its length is not the length of that type.
    #[error("wrong length for {}: want {want}, got {got}", char::from(*.kind))]
    WrongLength { kind: u8, want: usize, got: usize },
    /// The byte at this offset is in a text and is not printable. The bytes before it in the same field are printable.
    #[error("bad text at {offset}")]
    BadText { offset: usize },
    /// The byte at this offset is the side of an order, but is neither `B` nor `S`.
    #[error("bad side at {offset}")]
    BadSide { offset: usize },
    /// The End of Snapshot does not hold a number from 1 to 10^19.
    #[error("bad number")]
    BadNumber,
}
