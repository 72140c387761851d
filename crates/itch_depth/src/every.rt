//! The books at every multiple of a duration.
ghost use Rattle.std.specs.Prelude.{◌<◌, None, Some};
ghost use Rattle.std.specs.Option.{option_copied};
ghost use Rattle.itch_frame.specs.Reading.{Reading};
ghost use Rattle.itch_day.specs.Limits.{counted};
ghost use Rattle.itch_day.specs.Parts.{GoesOnTo};
ghost use Rattle.itch_day.specs.declared.limit.Limit.{Limit as AnyLimit};
ghost use Rattle.itch_day.specs.declared.tracked.Tracked.{Tracked};
ghost use Rattle.itch_day.specs.declared.stop.PartStop.{PartStop as AnyStop};
ghost use Rattle.itch_day.specs.declared.stop.PartStop.TheVariants.{Full};
ghost use Rattle.itch_market.specs.Content.{Content as AnyMarket};
ghost use Rattle.itch_market.specs.declared.refused.Refused.{Refused as AnyRefused};
ghost use Rattle.itch_commands.specs.Points.{Stands};
ghost use Rattle.itch_depth.specs.Own.{Fits, IsApart};
ghost use Rattle.itch_depth.specs.Series.{AtEnd, AtMultiples, IsAt, ListsAfter, TitlesBefore};
ghost use Rattle.itch_depth.specs.Timed.{timed_head};

use crate::listing::continues;
use crate::pass::{OwnLocates, TimedPass};
use crate::request::BookRequest;
use crate::timed::timed_head;
use itch_book::OrderBook;
use itch_commands::{Book, ToolFault, write_text};
use itch_frame::{BlockReader, CountedRead, CountedWrite};
use itch_market::LocateSet;
use std::alloc::Allocator;

/// The greatest timestamp, which has 48 bits.
const LATEST: u64 = (1 << 48) - 1;

/// Writes the books of a day file at the multiples of a duration since midnight, in nanoseconds, in one pass over the file: from the first
/// multiple after the first message to the last that is not after the last message.
///
/// The lines are those of `books_at` for these times. The directory at the end of the file must have each selected locate and stock. A duration of 0
/// is one nanosecond.
pub fn books_every<R: CountedRead + Drop, A: Allocator, B: OrderBook, W: CountedWrite>(
    alloc: B::Alloc,
    request: BookRequest<'_>,
    only: Option<&LocateSet<B::Alloc>>,
    step: u64,
    reader: BlockReader<R, A>,
    out: &mut W,
) -> Result<bool, ToolFault>
    ensures { 0 < step → TitlesBefore W.contents W.failures (timed_head request.entry.form)
        (AtMultiples R.remaining R.failures W.contents W.failures request.entry (option_copied only.entry) reader step) out.old result out.new }
{
    write_text(timed_head(request.form).as_bytes(), out)?;
    let step = step.max(1);
    let locates = OwnLocates::of(request.selection, only);
    if locates.are_none() {
        let mut pass: TimedPass<'_, R, A, B> = TimedPass::new(alloc, locates, reader);
        return list_every(alloc, request, only, step, &mut pass, out);
    }
    let mut pass: TimedPass<'_, R, A, Book<B::Alloc>> = TimedPass::new(alloc, locates, reader);
    list_every(alloc, request, only, step, &mut pass, out)
}

// Writes the books at each multiple.
fn list_every<R: CountedRead, A: Allocator, B: OrderBook, W: CountedWrite>(
    alloc: B::Alloc,
    request: BookRequest<'_>,
    only: Option<&LocateSet<B::Alloc>>,
    step: u64,
    pass: &mut TimedPass<'_, R, A, B>,
    out: &mut W,
) -> Result<bool, ToolFault>
    requires step { 0 < step }
    requires apart { IsApart pass.old.markets.locates pass.old.markets.market pass.old.markets.own }
    requires fits { Fits pass.old.markets.locates request.selection (option_copied only) }
    ensures { (first : Reading R) → (tracked : Tracked AnyMarket)
        → Stands R.remaining R.failures (record { after = Some 0; until = Some 0 }) first pass.old.reader tracked Full
        → IsAt tracked pass.old.markets.market pass.old.count
        → AtMultiples R.remaining R.failures W.contents W.failures request.entry (option_copied only.entry) first step out.old result out.new }
{
    for multiple in 1..=LATEST / step {
        let time = multiple * step;
        if !pass.read_until(time)? {
            return finish(alloc, request, only, pass);
        }
        let answer = list_begun(alloc, request, only, time, pass, out);
        if !continues(&answer) {
            return answer;
        }
    }
    finish(alloc, request, only, pass)
}

// Reads the rest of the file, and checks that its directory has each selected locate and stock.
fn finish<R: CountedRead, A: Allocator, B: OrderBook>(
    alloc: B::Alloc,
    request: BookRequest<'_>,
    only: Option<&LocateSet<B::Alloc>>,
    pass: &mut TimedPass<'_, R, A, B>,
) -> Result<bool, ToolFault>
    requires { IsApart pass.old.markets.locates pass.old.markets.market pass.old.markets.own }
    ensures { (first : Reading R) → (before : AnyLimit) → (stop : AnyStop AnyRefused) → (tracked : Tracked AnyMarket)
        → Stands R.remaining R.failures before first pass.old.reader tracked stop → IsAt tracked pass.old.markets.market pass.old.count
        → GoesOnTo before stop tracked.cursor.count (counted None)
        → AtEnd R.remaining R.failures request.entry (option_copied only.entry) first result }
{
    let _count = pass.read_rest()?;
    pass.check(alloc, request, only)?;
    Ok(true)
}

// Writes the books at the present time, unless it is before the first message.
fn list_begun<R: CountedRead, A: Allocator, B: OrderBook, W: CountedWrite>(
    alloc: B::Alloc,
    request: BookRequest<'_>,
    only: Option<&LocateSet<B::Alloc>>,
    time: u64,
    pass: &TimedPass<'_, R, A, B>,
    out: &mut W,
) -> Result<bool, ToolFault>
    requires apart { IsApart pass.now.markets.locates pass.now.markets.market pass.now.markets.own }
    requires fits { Fits pass.now.markets.locates request.selection (option_copied only) }
    ensures { ListsAfter W.contents W.failures pass.now.count request.entry (option_copied only.entry) pass.now.markets.market time out.old result out.new }
{
    if pass.count() == 0 {
        return Ok(true);
    }
    pass.list(alloc, request, only, time, out)
}
