//! The books at given times.
ghost use Rattle.std.specs.Prelude.{◌≡◌, Some, true};
ghost use Rattle.std.specs.Option.{option_copied};
ghost use Rattle.itch_day.specs.Parts.{GoesOnTo};
ghost use Rattle.itch_day.specs.declared.limit.Limit.{Limit as AnyLimit};
ghost use Rattle.itch_day.specs.declared.stop.PartStop.{PartStop as AnyStop};
ghost use Rattle.itch_day.specs.declared.stop.PartStop.TheVariants.{Full};
ghost use Rattle.itch_day.specs.declared.tracked.Tracked.{Tracked};
ghost use Rattle.itch_frame.specs.Reading.{Reading};
ghost use Rattle.itch_market.specs.Content.{Content as AnyMarket};
ghost use Rattle.itch_market.specs.declared.refused.Refused.{Refused as AnyRefused};
ghost use Rattle.itch_commands.specs.Points.{Stands, up_to};
ghost use Rattle.itch_depth.specs.Own.{Fits, IsApart, Keeps};
ghost use Rattle.itch_depth.specs.Series.{Ascend, AtEach, AtTime, IsAt, ListsThere, TitlesBefore, continues};
ghost use Rattle.itch_depth.specs.Timed.{timed_head};

use crate::listing::continues;
use crate::pass::{OwnLocates, TimedPass};
use crate::request::BookRequest;
use crate::timed::timed_head;
use itch_book::OrderBook;
use itch_commands::{Book, Selection, ToolFault, write_text};
use itch_frame::{BlockReader, CountedRead, CountedWrite};
use itch_market::LocateSet;
use std::alloc::Allocator;

/// Writes the books of a day file at each of these times, in one pass over the file. The times must ascend.
///
/// For each time, in order, the output and the result are those of `book` for the part of the file before that time, with the time at the
/// beginning of each line. The heading is written once, at the beginning. A time at which the directory still lacks a selected locate or
/// stock has no lines, and the next times follow; the last time has the result. Any other fault ends the output.
pub fn books_at<R: CountedRead + Drop, A: Allocator, B: OrderBook, W: CountedWrite>(
    alloc: B::Alloc,
    request: BookRequest<'_>,
    only: Option<&LocateSet<B::Alloc>>,
    times: &[u64],
    reader: BlockReader<R, A>,
    out: &mut W,
) -> Result<bool, ToolFault>
    ensures { Ascend times.now → TitlesBefore W.contents W.failures (timed_head request.entry.form)
        (AtEach (AtTime R.remaining R.failures W.contents W.failures request.entry (option_copied only.entry) reader) times.now) out.old result out.new }
{
    write_text(timed_head(request.form).as_bytes(), out)?;
    let locates = own_locates(times, request.selection, only);
    if locates.are_none() {
        let mut pass: TimedPass<'_, R, A, B> = TimedPass::new(alloc, locates, reader);
        return list_each(alloc, request, only, times, &mut pass, out);
    }
    let mut pass: TimedPass<'_, R, A, Book<B::Alloc>> = TimedPass::new(alloc, locates, reader);
    list_each(alloc, request, only, times, &mut pass, out)
}

// Returns the locates whose books are kept apart.
fn own_locates<'a, A: Allocator>(
    times: &[u64],
    selection: Selection<'a>,
    only: Option<&'a LocateSet<A>>,
) -> OwnLocates<'a, A>
    ensures { Fits result selection.entry (option_copied only.entry) }
{
    // For one time it takes less time to sort all orders once.
    if times.len() == 1 {
        return OwnLocates::none();
    }
    OwnLocates::of(selection, only)
}

// Writes the books at each of these times.
fn list_each<R: CountedRead, A: Allocator, B: OrderBook, W: CountedWrite>(
    alloc: B::Alloc,
    request: BookRequest<'_>,
    only: Option<&LocateSet<B::Alloc>>,
    times: &[u64],
    pass: &mut TimedPass<'_, R, A, B>,
    out: &mut W,
) -> Result<bool, ToolFault>
    requires apart { IsApart pass.old.markets.locates pass.old.markets.market pass.old.markets.own }
    requires fits { Fits pass.old.markets.locates request.selection (option_copied only) }
    ensures { (first : Reading R) → (tracked : Tracked AnyMarket)
        → Stands R.remaining R.failures (record { after = Some 0; until = Some 0 }) first pass.old.reader tracked Full
        → IsAt tracked pass.old.markets.market pass.old.count → Ascend times.now
        → AtEach (AtTime R.remaining R.failures W.contents W.failures request.entry (option_copied only.entry) first) times.now out.old result out.new }
{
    let mut answer = Ok(true);
    for &time in times {
        answer = list_at(alloc, request, only, time, pass, out);
        if !continues(&answer) {
            return answer;
        }
    }
    answer
}

// Reads on to a time, and writes the books there.
fn list_at<R: CountedRead, A: Allocator, B: OrderBook, W: CountedWrite>(
    alloc: B::Alloc,
    request: BookRequest<'_>,
    only: Option<&LocateSet<B::Alloc>>,
    time: u64,
    pass: &mut TimedPass<'_, R, A, B>,
    out: &mut W,
) -> Result<bool, ToolFault>
    requires apart { IsApart pass.old.markets.locates pass.old.markets.market pass.old.markets.own }
    requires fits { Fits pass.old.markets.locates request.selection (option_copied only) }
    ensures lists { (first : Reading R) → (before : AnyLimit) → (stop : AnyStop AnyRefused) → (tracked : Tracked AnyMarket)
        → Stands R.remaining R.failures before first pass.old.reader tracked stop → IsAt tracked pass.old.markets.market pass.old.count
        → GoesOnTo before stop tracked.cursor.count (up_to time)
        → ListsThere R.remaining R.failures W.contents W.failures request.entry (option_copied only.entry) first time pass.new.reader pass.new.markets.market pass.new.count out.old result out.new }
    ensures apart { continues result ≡ true → IsApart pass.new.markets.locates pass.new.markets.market pass.new.markets.own }
    ensures kept { Keeps pass.old.markets.locates pass.new.markets.locates }
{
    pass.read_until(time)?;
    pass.list(alloc, request, only, time, out)
}
