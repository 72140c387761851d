//! A sink that records how far the day was read.
ghost use Rattle.std.specs.Prelude.{◌≡◌, ℕ, List};
ghost use Rattle.itch_day.specs.DayCursors.{time_at};
ghost use Rattle.itch_day.specs.Sinks.{Decodes};

use crate::cursor::DayCursor;
use crate::sink::Sink;
use itch_codec::{CodecFault, Message};

/// A sink, and the cursor after the messages that it took.
#[derive(Drop)]
pub struct Tracked<S> {
    /// The sink that takes the messages.
    pub sink: S,
    /// The cursor after the messages taken so far.
    pub cursor: DayCursor,
}

impl<S: Sink> Sink for Tracked<S> {
    ghost use Rattle.std.specs.Prelude.{◌≡◌, ◌+◌};
    ghost use Rattle.itch_day.specs.DayCursors.{RefusesTracked, TakesTracked};

    type Fault = S::Fault;

    ghost is_ready = { λ s number. S.is_ready s.sink number × (number ≡ s.cursor.count + 1) };

    ghost takes = { TakesTracked S.takes };

    ghost refuses = { RefusesTracked S.refuses };

    #[inline(always)]
    fn take(
        &mut self,
        number: u64,
        payload: &[u8],
        message: &Result<Message<'_>, CodecFault>,
    ) -> Result<(), S::Fault> {
        match self.sink.take(number, payload, message) {
            Ok(()) => {
                self.cursor = self.cursor.past(payload, time_of(message));
                Ok(())
            }
            Err(why) => Err(why),
        }
    }

    #[inline(always)]
    fn look_ahead(&mut self, blocks: &[u8]) -> u64 {
        self.sink.look_ahead(blocks)
    }
}

// Returns the time of a decoded message, if it has one.
#[inline(always)]
fn time_of(message: &Result<Message<'_>, CodecFault>) -> Option<u64>
    ensures { (payload : List ℕ) → Decodes payload message.now → result ≡ time_at payload }
{
    match message {
        Ok(message) => message.time(),
        Err(_fault) => None,
    }
}
