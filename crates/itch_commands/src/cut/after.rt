//! `cut` of a day file from a cursor on.
ghost use Rattle.std.specs.Prelude.{◌-◌, ◌^◌, ◌≤◌, ℕ, List};
ghost use Rattle.std.specs.Option.{option_copied};
ghost use Rattle.itch_commands.specs.Further.{AreListed, CutsAfter, CutsFound, CutsOn};

use super::sink::KeptBlocks;
use crate::begun::Begun;
use crate::choice::Choice;
use crate::fault::ToolFault;
use crate::filters::Filters;
use crate::show::{answer, if_found};
use itch_day::{Limit, pass_stop, read_part};
use itch_frame::{BlockReader, CountedRead, CountedWrite};
use itch_market::LocateSet;
use std::alloc::Allocator;

/// Cuts a part of a day file whose first messages are before the range, with a reader of the messages after them: the output and the result
/// are those of a reading from the beginning. The messages before the cursor must be in the part, and no filter may follow an order.
pub fn cut_after<R: CountedRead, B: Allocator, A: Allocator + Copy, W: CountedWrite>(
    alloc: A,
    begun: Begun<'_>,
    reader: &mut BlockReader<R, B>,
    limit: Limit,
    filters: Filters<'_>,
    only: Option<&LocateSet<A>>,
    out: &mut W,
) -> Result<bool, ToolFault>
    ensures { (payloads : List (List ℕ)) → AreListed payloads begun.entry.directory.now
        → CutsAfter R.remaining R.failures limit W.contents W.failures (option_copied only.entry) filters.entry begun.entry.cursor payloads reader.old reader.new out.old result out.new }
{
    let choice = begun.choice(alloc, only, filters)?;
    cut_found(reader, begun.count(), limit, choice, out)
}

// Cuts the messages after this number of others.
fn cut_found<R: CountedRead, B: Allocator, A: Allocator, W: CountedWrite>(
    reader: &mut BlockReader<R, B>,
    before: u64,
    limit: Limit,
    choice: Choice<'_, A>,
    out: &mut W,
) -> Result<bool, ToolFault>
    requires few { before ≤ 10 ^ 19 - 1 }
    ensures { CutsFound R.remaining R.failures limit choice.entry before W.contents W.failures reader.old reader.new out.old result out.new }
{
    let found = cut_on(reader, before, limit, choice, out)?;
    if_found(found)
}

// Does the same. Returns whether each of the stocks searched for has come.
fn cut_on<R: CountedRead, B: Allocator, A: Allocator, W: CountedWrite>(
    reader: &mut BlockReader<R, B>,
    before: u64,
    limit: Limit,
    choice: Choice<'_, A>,
    out: &mut W,
) -> Result<bool, ToolFault>
    requires few { before ≤ 10 ^ 19 - 1 }
    ensures { CutsOn R.remaining R.failures limit choice.entry before W.contents W.failures reader.old reader.new out.old result out.new }
{
    let mut choice = choice;
    let mut count = before;
    let mut blocks = KeptBlocks {
        out,
        choice: &mut choice,
    };
    let stop = read_part(reader, &mut count, &mut blocks, limit);
    pass_stop(reader, &stop);
    answer(stop, limit.after, count, blocks.has_found_all())
}
