//! `show` of a snapshot file.
ghost use Rattle.std.specs.Prelude.{◌≡◌, ◌<◌, ◌^◌, ◌++◌, ◌∷◌, [], length, OnOk};
ghost use Rattle.itch_codec.specs.declared.message.Message.TheVariants.{End};
ghost use Rattle.itch_snapshot.specs.Snapshot.{snap};
ghost use Rattle.itch_commands.specs.Choices.{chosen_past};
ghost use Rattle.itch_commands.specs.Commands.{ShowsSnapshot};
ghost use Rattle.itch_commands.specs.Outputs.{Outputs, WritesText};
ghost use Rattle.itch_commands.specs.Readings.{FromBlocks, ReadsSnap};
ghost use Rattle.itch_commands.specs.Showing.{closed_lines, closed_found};
ghost use Rattle.itch_commands.specs.declared.fault.Source.TheVariants.{Only};

use super::found::if_found;
use super::lines::write_chosen;
use crate::choice::Choice;
use crate::fault::{Source, ToolFault};
use crate::form::ShowForm;
use crate::kind::snapshot_market;
use itch_book::OrderBook;
use itch_codec::{Message, Seq};
use itch_frame::{BlockReader, CountedRead, CountedWrite};
use itch_market::Market;
use itch_snapshot::SnapshotIter;
use std::alloc::Allocator;

/// Writes a line for each chosen message of a snapshot file, in canonical order, and for its End of Snapshot. The file is read completely
/// first, and refused as by `canon`; then nothing is written. If a stock searched for is not in the directory (`UnknownStock`), all lines
/// have been written.
pub fn show_snapshot<R: CountedRead, A: Allocator, B: OrderBook, W: CountedWrite>(
    alloc: B::Alloc,
    reader: &mut BlockReader<R, A>,
    form: ShowForm,
    choice: Choice<'_, B::Alloc>,
    out: &mut W,
) -> Result<bool, ToolFault>
    ensures { ShowsSnapshot R.remaining R.failures W.contents W.failures form choice.entry (FromBlocks reader.old reader.new) out.old result out.new }
{
    let mut choice = choice;
    let found = show_found::<R, A, B, W>(alloc, reader, form, &mut choice, out)?;
    if_found(found)
}

// Does the same. Returns whether each of the stocks searched for has come.
fn show_found<R: CountedRead, A: Allocator, B: OrderBook, W: CountedWrite>(
    alloc: B::Alloc,
    reader: &mut BlockReader<R, A>,
    form: ShowForm,
    choice: &mut Choice<'_, B::Alloc>,
    out: &mut W,
) -> Result<bool, ToolFault>
    ensures { Outputs W.contents W.failures (FromBlocks reader.old reader.new (ReadsSnap R.remaining R.failures Only)) (closed_lines form choice.old) (closed_found choice.old) out.old result out.new }
{
    let (market, next): (Market<B>, Seq) = snapshot_market(alloc, reader, Source::Only)?;
    write_lines(&market, next, form, choice, out)?;
    Ok(choice.has_found_all())
}

fn write_lines<B: OrderBook, W: CountedWrite>(
    market: &Market<B>,
    next: Seq,
    form: ShowForm,
    choice: &mut Choice<'_, B::Alloc>,
    out: &mut W,
) -> Result<(), ToolFault>
    requires { length (snap market.now) < 10 ^ 19 }
    ensures lines { WritesText W.contents W.failures (closed_lines form choice.old (market.now, next)) out.old result out.new }
    ensures passed { OnOk result (choice.new ≡ chosen_past choice.old (snap market.now ++ End next ∷ [])) }
{
    let mut number = 1u64;
    for message in SnapshotIter::new(market) {
        write_chosen(form, choice, number, &message, out)?;
        number += 1;
    }
    write_chosen(form, choice, number, &Message::End { next }, out)
}
