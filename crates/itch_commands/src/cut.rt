//! `cut`: writes the blocks of some messages of a day file unchanged.
ghost use Rattle.std.specs.Option.{option_copied};
ghost use Rattle.itch_commands.specs.Cuts.{Cuts, CutsFile, CutsPart};

mod after;
mod at_hand;
mod sink;

use crate::choice::Choice;
use crate::fault::ToolFault;
use crate::filters::Filters;
use crate::show::{answer, if_found};
pub use after::cut_after;
pub(crate) use at_hand::order_at;
use itch_day::{Limit, pass_stop, read_part};
use itch_frame::{BlockReader, CountedRead, CountedWrite};
use itch_market::LocateSet;
use sink::KeptBlocks;
use std::alloc::Allocator;

/// Writes the blocks of those messages of a part of a day file that the filters keep, byte for byte and in order. A message about no stock
/// is kept for any choice of stocks.
///
/// No order rule is applied. If a block is not a valid message, or the file has fewer messages than requested (`Short`), the blocks before
/// that have been written. If the part has no Stock Directory message of a stock searched for (`UnknownStock`), all blocks have been
/// written.
pub fn cut_blocks<R: CountedRead, B: Allocator, A: Allocator + Copy, W: CountedWrite>(
    alloc: A,
    reader: &mut BlockReader<R, B>,
    limit: Limit,
    filters: Filters<'_>,
    only: Option<&LocateSet<A>>,
    out: &mut W,
) -> Result<bool, ToolFault>
    ensures { CutsFile W.contents W.failures R.remaining R.failures limit (option_copied only.entry) filters.entry reader.old reader.new out.old result out.new }
{
    let choice = Choice::new(alloc, only, filters)?;
    cut_found(reader, limit, choice, out)
}

// Does the same for this choice.
fn cut_found<R: CountedRead, B: Allocator, A: Allocator, W: CountedWrite>(
    reader: &mut BlockReader<R, B>,
    limit: Limit,
    choice: Choice<'_, A>,
    out: &mut W,
) -> Result<bool, ToolFault>
    ensures { Cuts W.contents W.failures R.remaining R.failures limit choice.entry reader.old reader.new out.old result out.new }
{
    let found = cut_part(reader, limit, choice, out)?;
    if_found(found)
}

// Does the same. Returns whether each of the stocks searched for has come.
fn cut_part<R: CountedRead, B: Allocator, A: Allocator, W: CountedWrite>(
    reader: &mut BlockReader<R, B>,
    limit: Limit,
    choice: Choice<'_, A>,
    out: &mut W,
) -> Result<bool, ToolFault>
    ensures { CutsPart W.contents W.failures R.remaining R.failures limit choice.entry reader.old reader.new out.old result out.new }
{
    let mut choice = choice;
    let mut count = 0;
    let mut blocks = KeptBlocks {
        out,
        choice: &mut choice,
    };
    let stop = read_part(reader, &mut count, &mut blocks, limit);
    pass_stop(reader, &stop);
    answer(stop, limit.after, count, blocks.has_found_all())
}
