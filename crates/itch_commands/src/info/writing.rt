//! Writes the contents of a day to the output.
ghost use Rattle.std.specs.Prelude.{◌≡◌, ◌<◌, ◌^◌, length, slice_index, true};
ghost use Rattle.std.specs.FinMap as map;
ghost use Rattle.itch_market.specs.Content.{Content};
ghost use Rattle.itch_commands.specs.Expectations.{is_last};
ghost use Rattle.itch_commands.specs.Infos.{events_text, head_text, info_text, types_text};
ghost use Rattle.itch_commands.specs.Outputs.{WritesText};
ghost use Rattle.itch_commands.specs.Tallies.{live, summary_by};

use crate::expected::is_last;
use crate::fault::ToolFault;
use crate::form::ReportForm;
use crate::info::counts::{KINDS, TypeCounts};
use crate::info::events::Event;
use crate::info::lines::{
    event_text, market_text, middle_text, size_text, tail_text, times_text, type_text,
};
use crate::info::summary::Summary;
use crate::info::tallied::TalliedMarket;
use crate::writing::write_text;
use itch_book::OrderBook;
use itch_day::Tracked;
use itch_frame::CountedWrite;
use itch_market::{Locates, Market};
use std::alloc::Allocator;

/// Writes the tally of a day.
pub fn write_info<B: OrderBook, W: CountedWrite>(
    tally: &Tracked<TalliedMarket<B>>,
    form: ReportForm,
    out: &mut W,
) -> Result<(), ToolFault>
    ensures { WritesText W.contents W.failures (info_text form (summary_by tally.now.cursor tally.now.sink.market tally.now.sink.tally) (slice_index tally.now.sink.tally.counts.counts) tally.now.sink.events.events.items) out.old result out.new }
{
    write_head(&summary(tally), form, out)?;
    write_types(&tally.sink.tally.counts, form, out)?;
    write_text(middle_text(form), out)?;
    write_events(tally.sink.events.events.as_slice(), form, out)?;
    write_text(tail_text(form), out)
}

// Returns the summary of the tally.
fn summary<B: OrderBook>(tally: &Tracked<TalliedMarket<B>>) -> Summary
    ensures { result ≡ summary_by tally.now.cursor tally.now.sink.market tally.now.sink.tally }
{
    let market = &tally.sink.market;
    Summary {
        count: tally.cursor.count,
        bytes: tally.cursor.offset,
        first: tally.sink.tally.first,
        last: tally.cursor.latest,
        stocks: count_stocks(market),
        live: market.book().len() as u64,
        peak: tally.sink.tally.peak,
        is_ended: is_last(market.phase()),
    }
}

// Returns the number of stocks in the directory.
#[tactic(auto, using(itch_snapshot::proofs::LengthLemmas::few_locates))]
fn count_stocks<B: OrderBook>(market: &Market<B>) -> u64
    ensures { result ≡ length (map.keys (Content.securities market.now)) }
{
    market.recall_invariant();
    count(market.locates())
}

fn count<A: Allocator>(locates: Locates<'_, A>) -> u64
    requires { length locates < 2 ^ 64 }
    ensures { result ≡ length locates.entry }
{
    locates.count() as u64
}

// Writes the summary.
fn write_head<W: CountedWrite>(
    summary: &Summary,
    form: ReportForm,
    out: &mut W,
) -> Result<(), ToolFault>
    ensures { WritesText W.contents W.failures (head_text form summary.now) out.old result out.new }
{
    write_text(size_text(form, summary).as_bytes(), out)?;
    write_text(times_text(form, summary).as_bytes(), out)?;
    write_text(market_text(form, summary).as_bytes(), out)
}

// Writes the types that have messages, with their numbers.
fn write_types<W: CountedWrite>(
    counts: &TypeCounts,
    form: ReportForm,
    out: &mut W,
) -> Result<(), ToolFault>
    ensures { WritesText W.contents W.failures (types_text form (slice_index counts.now.counts) true 0 256) out.old result out.new }
{
    let mut is_first = true;
    for kind in 0..KINDS {
        let kind = kind as u8;
        let count = counts.of(kind);
        if count > 0 {
            write_text(type_text(form, is_first, kind, count).as_bytes(), out)?;
            is_first = false;
        }
    }
    Ok(())
}

// Writes the system events.
fn write_events<W: CountedWrite>(
    events: &[Event],
    form: ReportForm,
    out: &mut W,
) -> Result<(), ToolFault>
    ensures { WritesText W.contents W.failures (events_text form true events.now) out.old result out.new }
{
    let mut is_first = true;
    for event in events {
        write_text(event_text(form, is_first, event).as_bytes(), out)?;
        is_first = false;
    }
    Ok(())
}
