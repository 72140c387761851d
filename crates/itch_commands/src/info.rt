//! `info`: writes the contents of a day file, in numbers.
ghost use Rattle.std.specs.Prelude.{None};
ghost use Rattle.itch_commands.specs.Infos.{Informs};
ghost use Rattle.itch_commands.specs.Readings.{FromBlocks, FromReader};
ghost use Rattle.itch_commands.specs.declared.form.ReportForm.TheVariants.{Text};
ghost use Rattle.itch_day.specs.Limits.{counted};

mod counts;
mod events;
mod lines;
mod summary;
mod tallied;
mod tally;
mod writing;

use crate::fault::ToolFault;
use crate::form::ReportForm;
use crate::order_book::Book;
use itch_book::OrderBook;
use itch_day::Limit;
use itch_frame::{BlockReader, CountedRead, CountedWrite};
use std::alloc::Allocator;
use tallied::{new_tally, read_tally};
use writing::write_info;

/// Writes the contents of a day file: the number of messages, in all and of each type, the bytes of their blocks, the earliest and the
/// latest time, the number of stocks, the live orders at the end and at most, whether the day has ended, and the system events.
pub fn info<R: CountedRead + Drop, A: Allocator + Copy, W: CountedWrite>(
    alloc: A,
    reader: R,
    out: &mut W,
) -> Result<bool, ToolFault>
    ensures { Informs R.remaining R.failures W.contents W.failures Text (counted None) (FromReader reader) out.old result out.new }
{
    let mut reader = BlockReader::new(alloc, reader)?;
    info_blocks::<_, _, Book<A>, _>(alloc, &mut reader, Limit::whole(), ReportForm::Text, out)
}

/// Does the same over a reader of blocks, for any part of the file, and in any form. The reader is left where the reading ended.
///
/// If a message is refused, it writes the contents before that message, and then returns the fault. If memory for the list of system events
/// runs out (`OutOfMemory`), nothing is written.
pub fn info_blocks<R: CountedRead, A: Allocator, B: OrderBook, W: CountedWrite>(
    alloc: B::Alloc,
    reader: &mut BlockReader<R, A>,
    limit: Limit,
    form: ReportForm,
    out: &mut W,
) -> Result<bool, ToolFault>
    ensures { Informs R.remaining R.failures W.contents W.failures form limit (FromBlocks reader.old reader.new) out.old result out.new }
{
    let mut tally = new_tally::<B>(alloc);
    let read = read_tally(reader, &mut tally, limit);
    if !tally.sink.events.is_complete {
        return Err(ToolFault::OutOfMemory);
    }
    write_info(&tally, form, out)?;
    match read {
        Ok(()) => Ok(true),
        Err(fault) => Err(fault),
    }
}
