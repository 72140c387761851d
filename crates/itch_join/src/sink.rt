//! A joiner as a sink of the messages of a day.
ghost use Rattle.std.specs.Prelude.{◌≡◌};
ghost use Rattle.itch_join.specs.Takings.{IsOfNext, refused_by};

use crate::fault::{Cause, JoinFault};
use crate::joiner::Joiner;
use itch_book::OrderBook;
use itch_codec::{CodecFault, Message};
use itch_day::Sink;
use itch_market::{Refusal, Refused};

/// A joiner that has joined, without waiting messages, takes the day's messages from its next one on. It skips messages that its market
/// already contains, whatever their content.
impl<B: OrderBook> Sink for Joiner<B> {
    ghost use Rattle.itch_join.specs.Takings.{MayTake, RefusesNumbered, TakesNumbered};

    type Fault = Refused;

    ghost is_ready = { MayTake };

    ghost takes = { TakesNumbered };

    ghost refuses = { RefusesNumbered };

    #[inline(always)]
    fn take(
        &mut self,
        number: u64,
        payload: &[u8],
        message: &Result<Message<'_>, CodecFault>,
    ) -> Result<(), Refused> {
        match self.live_decoded(number, payload, message) {
            Ok(_taken) => Ok(()),
            Err(fault) => Err(refused_by(fault)),
        }
    }
}

// Returns the reason why such a joiner refuses a message.
fn refused_by(fault: JoinFault) -> Refused
    requires { IsOfNext fault }
    ensures { result ≡ refused_by fault }
{
    match fault {
        JoinFault::Halted {
            cause: Cause::Codec(fault),
            ..
        } => Refused::Codec(fault),
        JoinFault::Halted {
            cause: Cause::Rule(reason),
            ..
        } => Refused::Rule(reason),
        JoinFault::OutOfMemory { .. } => Refused::Rule(Refusal::OutOfMemory),
        _ => unreachable!(),
    }
}
