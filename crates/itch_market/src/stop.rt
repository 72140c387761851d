//! The place and the reason of a replay's stop.
ghost use Rattle.std.specs.Prelude.{◌≡◌};
ghost use Rattle.itch_market.specs.declared.stop.Stop.TheVariants.{Frame, Codec, Rule};

use crate::refusal::Refusal;
use itch_codec::CodecFault;
use itch_frame::FrameFault;
use thiserror::Error;

/// The reason why a replay stopped.
#[derive(Clone, Copy, Debug, Error)]
pub enum Stop {
    /// The input ended before the first byte of a block, or at a block of length 0, after which nothing was read.
    #[error("end of input")]
    End,
    /// A read failed, or the input ended inside a block.
    #[error("{0}")]
    Frame(FrameFault),
    /// The payload of the next block is not a message.
    #[error("{0}")]
    Codec(CodecFault),
    /// An order rule refuses the next message, or an allocation failed.
    #[error("{0}")]
    Rule(Refusal),
    /// There is a further block after 10^19 - 1 messages.
    #[error("too many messages")]
    TooManyMessages,
}

impl From<FrameFault> for Stop {
    ghost from_gives = { λ fault stop. stop ≡ Frame fault };

    fn from(fault: FrameFault) -> Stop {
        Stop::Frame(fault)
    }
}

impl From<CodecFault> for Stop {
    ghost from_gives = { λ fault stop. stop ≡ Codec fault };

    fn from(fault: CodecFault) -> Stop {
        Stop::Codec(fault)
    }
}

impl From<Refusal> for Stop {
    ghost from_gives = { λ why stop. stop ≡ Rule why };

    fn from(why: Refusal) -> Stop {
        Stop::Rule(why)
    }
}

/// The result of a replay: the number of messages applied, and the reason why it stopped.
///
/// The position of the faulty message, counted from 1, is `count + 1`.
#[derive(Clone, Copy, Debug)]
pub struct ReplayEnd {
    pub count: u64,
    pub stop: Stop,
}
