//! The cases that determine the result of a joiner's call.
ghost use Rattle.std.specs.Prelude.{◌≡◌};
ghost use Rattle.itch_join.specs.declared.fault.Cause.TheVariants.{Codec};
ghost use Rattle.itch_join.specs.declared.state.Stopped.TheVariants.{Refused};
ghost use Rattle.itch_join.specs.Applying.{stopped_by};

use crate::fault::Cause;
use itch_codec::CodecFault;
use itch_market::Refusal;

/// The number of a refused message, and the reason.
#[derive(Clone, Copy, Debug)]
pub struct Halt {
    pub(crate) number: u64,
    pub(crate) cause: Cause,
}

/// The reason why a message was not applied.
#[derive(Clone, Copy, Debug)]
pub enum Stopped {
    Refused(Cause),
    NoMemory,
}

impl From<CodecFault> for Stopped {
    ghost from_gives = { λ fault stopped. stopped ≡ Refused (Codec fault) };

    fn from(fault: CodecFault) -> Stopped {
        Stopped::Refused(Cause::Codec(fault))
    }
}

impl From<Refusal> for Stopped {
    ghost from_gives = { λ why stopped. stopped ≡ stopped_by why };

    fn from(why: Refusal) -> Stopped {
        match why {
            Refusal::OutOfMemory => Stopped::NoMemory,
            why => Stopped::Refused(Cause::Rule(why)),
        }
    }
}

/// The case of a delivery of the live feed. The first one that applies decides the result.
#[derive(Clone, Copy, Debug)]
pub enum LiveCase {
    /// A message was refused before.
    Halted(Halt),
    /// No message has this number.
    BadNumber,
    /// The market contains it.
    Old,
    /// Other bytes are waiting under its number.
    Conflict,
    /// It is the next message.
    Next,
    /// It is already waiting.
    Kept,
    /// There is no room for it.
    Full,
    /// There is room for it.
    Stored,
}
