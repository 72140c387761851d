//! `show --orders`: shows messages that change an order, each with that order as it was before.
ghost use Rattle.std.specs.Prelude.{◌≡◌, Bool};
ghost use Rattle.std.specs.Option.{option_copied};
ghost use Rattle.itch_commands.specs.ListedOrders.{Lists, ListsBelow, ListsFile, ListsPart, answer_of};

mod behind;
mod columns;
mod lines;
mod sink;

use super::found::if_found;
use super::sink::stopped;
use crate::choice::Choice;
use crate::fault::{Source, ToolFault};
use crate::filters::Filters;
use crate::form::OrderForm;
use itch_book::OrderBook;
use itch_day::{Limit, PartStop, pass_stop, read_part};
use itch_frame::{BlockReader, CountedRead, CountedWrite};
use itch_market::{LocateSet, Market, Refused, Stop};
use lines::write_head;
pub(crate) use lines::{side_text, write_both};
use sink::{ChosenMarket, OrderLines, Unlisted};
use std::alloc::Allocator;

/// Writes a line for each execution, cancel, delete and replace of a part of a day file that the filters choose: the message, and the order
/// that it refers to as it was before. For a replace that is the original order; its new one has the same side, stock and attribution.
///
/// The messages are applied to a market. If one is refused, the lines before it have been written, and the fault is that of
/// [`check_blocks`](crate::check::check_blocks). If the part has no Stock Directory message of a stock searched for (`UnknownStock`), all
/// lines have been written.
pub fn orders_blocks<R: CountedRead, A: Allocator, B: OrderBook, W: CountedWrite>(
    alloc: B::Alloc,
    reader: &mut BlockReader<R, A>,
    limit: Limit,
    form: OrderForm,
    filters: Filters<'_>,
    only: Option<&LocateSet<B::Alloc>>,
    out: &mut W,
) -> Result<bool, ToolFault>
    ensures { ListsFile W.contents W.failures R.remaining R.failures limit form (option_copied only.entry) filters.entry reader.old reader.new out.old result out.new }
{
    let choice = Choice::new(alloc, only, filters)?;
    list_found::<R, A, B, W>(alloc, reader, limit, form, choice, out)
}

// Does the same for this choice.
fn list_found<R: CountedRead, A: Allocator, B: OrderBook, W: CountedWrite>(
    alloc: B::Alloc,
    reader: &mut BlockReader<R, A>,
    limit: Limit,
    form: OrderForm,
    choice: Choice<'_, B::Alloc>,
    out: &mut W,
) -> Result<bool, ToolFault>
    ensures { Lists W.contents W.failures R.remaining R.failures limit form choice.entry reader.old reader.new out.old result out.new }
{
    let found = list_below::<R, A, B, W>(alloc, reader, limit, form, choice, out)?;
    if_found(found)
}

// Does the same. Returns whether each of the stocks searched for has come.
fn list_below<R: CountedRead, A: Allocator, B: OrderBook, W: CountedWrite>(
    alloc: B::Alloc,
    reader: &mut BlockReader<R, A>,
    limit: Limit,
    form: OrderForm,
    choice: Choice<'_, B::Alloc>,
    out: &mut W,
) -> Result<bool, ToolFault>
    ensures { ListsBelow W.contents W.failures R.remaining R.failures limit form choice.entry reader.old reader.new out.old result out.new }
{
    write_head(form, out)?;
    list_part::<R, A, B, W>(alloc, reader, limit, form, choice, out)
}

// Writes the lines below the heading.
fn list_part<R: CountedRead, A: Allocator, B: OrderBook, W: CountedWrite>(
    alloc: B::Alloc,
    reader: &mut BlockReader<R, A>,
    limit: Limit,
    form: OrderForm,
    choice: Choice<'_, B::Alloc>,
    out: &mut W,
) -> Result<bool, ToolFault>
    ensures { ListsPart W.contents W.failures R.remaining R.failures limit form choice.entry reader.old reader.new out.old result out.new }
{
    let market: Market<B> = Market::new(alloc);
    let mut chosen = ChosenMarket { market, choice };
    let mut count = 0;
    let mut lines = OrderLines {
        out,
        form,
        chosen: &mut chosen,
    };
    let stop = read_part(reader, &mut count, &mut lines, limit);
    pass_stop(reader, &stop);
    answer(stop, limit.after, count, lines.has_found_all())
}

// Returns the result if a part ends. The end of the file is not a fault, unless more messages were requested.
fn answer(
    stop: PartStop<Unlisted>,
    wanted: Option<u64>,
    count: u64,
    found: bool,
) -> Result<bool, ToolFault>
    ensures { result ≡ answer_of wanted count found stop }
{
    match stop {
        PartStop::Full | PartStop::Late => Ok(found),
        PartStop::End => match wanted {
            None => Ok(found),
            Some(_) => Err(ToolFault::Short {
                file: Source::Only,
                count,
            }),
        },
        PartStop::Frame(fault) => Err(stopped(count, Stop::Frame(fault))),
        PartStop::TooMany => Err(stopped(count, Stop::TooManyMessages)),
        PartStop::Refused(Unlisted::Refused(Refused::Codec(fault))) => {
            Err(stopped(count, Stop::Codec(fault)))
        }
        PartStop::Refused(Unlisted::Refused(Refused::Rule(why))) => {
            Err(stopped(count, Stop::Rule(why)))
        }
        PartStop::Refused(Unlisted::Write(error)) => Err(ToolFault::Write(error)),
    }
}
