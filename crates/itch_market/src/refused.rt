//! The reasons why a message of a day is not applied.

use crate::refusal::Refusal;
use itch_codec::CodecFault;

/// The reason why the next message of a day is not applied to a market.
#[derive(Clone, Copy, Debug)]
pub enum Refused {
    /// The payload is not a valid message.
    Codec(CodecFault),
    /// An order rule refuses the message, or an allocation failed.
    Rule(Refusal),
}
