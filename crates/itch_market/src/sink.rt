//! A market as a sink of the messages of a day.

use crate::market::Market;
use crate::refused::Refused;
use itch_book::OrderBook;
use itch_codec::{CodecFault, Message};
use itch_day::Sink;

impl<B: OrderBook> Sink for Market<B> {
    ghost use Rattle.itch_market.specs.Takings.{TakesMessage, RefusesMessage};

    type Fault = Refused;

    ghost is_ready = { λ _ _. Unit {0} };

    ghost takes = { TakesMessage };

    ghost refuses = { RefusesMessage };

    #[inline(always)]
    fn take(
        &mut self,
        number: u64,
        payload: &[u8],
        message: &Result<Message<'_>, CodecFault>,
    ) -> Result<(), Refused> {
        let _number = number;
        let _payload = payload;
        match message {
            Ok(message) => match self.apply(message) {
                Ok(()) => Ok(()),
                Err(why) => Err(Refused::Rule(why)),
            },
            Err(fault) => Err(Refused::Codec(*fault)),
        }
    }

    #[inline(always)]
    fn take_payload(&mut self, number: u64, payload: &[u8]) -> bool {
        let _number = number;
        self.apply_at_hand(payload)
    }

    #[inline(always)]
    fn look_ahead(&mut self, blocks: &[u8]) -> u64 {
        Market::look_ahead(self, blocks)
    }
}
