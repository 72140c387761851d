//! A market, and the tally of the messages that it takes.
ghost use Rattle.std.specs.Prelude.{◌≡◌, List, ℕ, [], true};
ghost use Rattle.itch_market.specs.Content.{empty};
ghost use Rattle.itch_day.specs.DayCursors.{first_cursor};
ghost use Rattle.itch_commands.specs.FirstDifferences.{over};
ghost use Rattle.itch_commands.specs.declared.fault.Source.TheVariants.{Only};
ghost use Rattle.itch_commands.specs.Infos.{ReadsBefore, fault_of};
ghost use Rattle.itch_commands.specs.Tallies.{IsNew, IsTally};

use crate::fault::{Source, ToolFault};
use crate::info::events::EventList;
use crate::info::tally::Tally;
use crate::reading::stopped;
use itch_book::OrderBook;
use itch_codec::{CodecFault, Message};
use itch_day::{DayCursor, Limit, Sink, Tracked, pass_stop, read_part};
use itch_frame::{BlockReader, CountedRead};
use itch_market::{Market, Refused, Stop, reason_of};
use std::alloc::Allocator;

/// A market that takes the messages of a day, and their tally.
#[derive(Drop)]
pub struct TalliedMarket<B: OrderBook> {
    pub market: Market<B>,
    pub tally: Tally,
    pub events: EventList<B::Alloc>,
}

impl<B: OrderBook> Sink for TalliedMarket<B> {
    ghost use Rattle.std.specs.Prelude.{◌≡◌, ℕ, ◌<◌, slice_index};
    ghost use Rattle.itch_codec.specs.Messages.{message_of};
    ghost use Rattle.itch_market.specs.Takings.{TakesMessage, RefusesMessage};
    ghost use Rattle.itch_commands.specs.Tallies.{IsCounted, IsListed};

    type Fault = Refused;

    ghost is_ready = { λ s number. (kind : ℕ) → kind < 256 → slice_index s.tally.counts.counts kind < number };

    ghost takes = { λ s number payload t. TakesMessage s.market number payload t.market × IsCounted s.tally (message_of payload) t.market t.tally
        × IsListed s.events.is_complete s.events.events.items number (message_of payload) t.events.is_complete t.events.events.items };

    ghost refuses = { λ s number payload why t. RefusesMessage s.market number payload why t.market × (t.tally ≡ s.tally)
        × (t.events.is_complete ≡ s.events.is_complete) × (t.events.events.items ≡ s.events.events.items) };

    #[inline(always)]
    fn take(
        &mut self,
        number: u64,
        payload: &[u8],
        message: &Result<Message<'_>, CodecFault>,
    ) -> Result<(), Refused> {
        let _payload = payload;
        match message {
            Ok(message) => match self.market.apply(message) {
                Ok(()) => {
                    let live = self.market.book().len() as u64;
                    self.tally.count(message.kind(), message.time(), live);
                    self.events.pass(number, message);
                    Ok(())
                }
                Err(why) => Err(Refused::Rule(why)),
            },
            Err(fault) => Err(Refused::Codec(*fault)),
        }
    }

    #[inline(always)]
    fn look_ahead(&mut self, blocks: &[u8]) -> u64 {
        self.market.look_ahead(blocks)
    }
}

/// Creates the market before any message, with an empty tally, at the beginning of a day.
pub fn new_tally<B: OrderBook>(alloc: B::Alloc) -> Tracked<TalliedMarket<B>>
    ensures cursor { result.cursor ≡ first_cursor }
    ensures market { result.sink.market ≡ empty }
    ensures tally { IsNew result.sink.tally }
    ensures complete { result.sink.events.is_complete ≡ true }
    ensures events { result.sink.events.events.items ≡ [] }
{
    Tracked {
        sink: TalliedMarket {
            market: Market::new(alloc),
            tally: Tally::new(),
            events: EventList::new(alloc),
        },
        cursor: DayCursor::new(),
    }
}

/// Counts the messages of the requested part of a day, or those before the fault that is returned.
pub fn read_tally<R: CountedRead, A: Allocator, B: OrderBook>(
    reader: &mut BlockReader<R, A>,
    tally: &mut Tracked<TalliedMarket<B>>,
    limit: Limit,
) -> Result<(), ToolFault>
    requires cursor { tally.old.cursor ≡ first_cursor }
    requires market { tally.old.sink.market ≡ empty }
    requires tally { IsNew tally.old.sink.tally }
    requires complete { tally.old.sink.events.is_complete ≡ true }
    requires events { tally.old.sink.events.events.items ≡ [] }
    ensures { (payloads : List (List ℕ)) × ReadsBefore R.remaining R.failures limit reader.old reader.new payloads (fault_of result)
        × IsTally payloads tally.new.cursor tally.new.sink.market tally.new.sink.tally tally.new.sink.events.is_complete tally.new.sink.events.events.items }
{
    let mut count = 0;
    let stop = read_part(reader, &mut count, tally, limit);
    pass_stop(reader, &stop);
    ended(reason_of(stop), limit, count)
}

// Returns the result if a part stops after that many messages: no fault, unless more messages were requested.
fn ended(stop: Option<Stop>, limit: Limit, count: u64) -> Result<(), ToolFault>
    ensures { result ≡ over stop limit Only count }
{
    let Some(stop) = stop else {
        return Ok(());
    };
    match stopped(stop, limit.after, Source::Only, count) {
        Ok(_count) => Ok(()),
        Err(fault) => Err(fault),
    }
}
