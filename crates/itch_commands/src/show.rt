//! `show`: shows the messages of a file as lines of text.
ghost use Rattle.std.specs.Prelude.{◌≡◌, Bool, None, Err};
ghost use Rattle.itch_commands.specs.Choices.{everything};
ghost use Rattle.itch_day.specs.Limits.{counted};
ghost use Rattle.itch_commands.specs.Readings.{FromReader};
ghost use Rattle.itch_commands.specs.Showing.{Shows, ShowsPart, answer_of};
ghost use Rattle.itch_commands.specs.declared.fault.ToolFault.TheVariants.{OutOfMemory};
ghost use Rattle.itch_commands.specs.declared.form.ShowForm.TheVariants.{Text};

mod after;
mod found;
mod headings;
mod lines;
mod orders;
mod rows;
mod sink;
mod snapshot_file;

use crate::choice::Choice;
use crate::fault::{Source, ToolFault};
use crate::form::ShowForm;
pub use after::show_after;
pub(crate) use found::if_found;
pub(crate) use headings::write_heading;
use itch_day::{Limit, PartStop, pass_stop, read_part};
use itch_frame::{BlockReader, CountedRead, CountedWrite};
use itch_market::Stop;
pub use orders::orders_blocks;
use sink::ShownLines;
pub(crate) use sink::stopped;
pub use snapshot_file::show_snapshot;
use std::alloc::Allocator;

/// Writes a line for each message of a day file or a snapshot file, in the form of [`itch_codec::show`].
///
/// The errors are those of [`show_blocks`]. It allocates memory for only one block, before anything is read.
pub fn show<R: CountedRead + Drop, A: Allocator, W: CountedWrite>(
    alloc: A,
    reader: R,
    out: &mut W,
) -> Result<bool, ToolFault>
    ensures shows { FromReader reader (λ old new r. Shows W.contents W.failures R.remaining R.failures (counted None) Text everything old new out.old r out.new) result }
    ensures memory { result ≡ Err OutOfMemory → out.new ≡ out.old }
{
    let mut reader = BlockReader::new(alloc, reader)?;
    let choice: Choice<'_, A> = Choice::everything();
    show_blocks(&mut reader, Limit::whole(), ShowForm::Text, choice, out)
}

/// The same over a reader of blocks, for any part of the file, of those messages that are chosen, and in any form. A message has the
/// number that it has in the file. The reader is left after the block that ended the reading. The form of comma-separated values has no
/// heading here.
///
/// No order rule is applied, and an End of Snapshot is shown as any other message. The file is never held: each line is written
/// as its message is read. If a block spells no message, or the file has fewer messages than are wanted (`Short`), the lines before
/// that have been written. If the part that is wanted has no Stock Directory message of a stock that is looked for (`UnknownStock`),
/// all lines have been written.
pub fn show_blocks<R: CountedRead, B: Allocator, A: Allocator, W: CountedWrite>(
    reader: &mut BlockReader<R, B>,
    limit: Limit,
    form: ShowForm,
    choice: Choice<'_, A>,
    out: &mut W,
) -> Result<bool, ToolFault>
    ensures { Shows W.contents W.failures R.remaining R.failures limit form choice.entry reader.old reader.new out.old result out.new }
{
    let found = show_part(reader, limit, form, choice, out)?;
    if_found(found)
}

// Does the same. Returns whether each of the stocks searched for has come.
fn show_part<R: CountedRead, B: Allocator, A: Allocator, W: CountedWrite>(
    reader: &mut BlockReader<R, B>,
    limit: Limit,
    form: ShowForm,
    choice: Choice<'_, A>,
    out: &mut W,
) -> Result<bool, ToolFault>
    ensures { ShowsPart W.contents W.failures R.remaining R.failures limit form choice.entry reader.old reader.new out.old result out.new }
{
    let mut choice = choice;
    let mut count = 0;
    let mut lines = ShownLines {
        out,
        form,
        choice: &mut choice,
    };
    let stop = read_part(reader, &mut count, &mut lines, limit);
    pass_stop(reader, &stop);
    answer(stop, limit.after, count, lines.has_found_all())
}

// Returns the result if a part ends. The end of the file is not a fault, unless more messages were requested.
pub(crate) fn answer(
    stop: PartStop<ToolFault>,
    wanted: Option<u64>,
    count: u64,
    found: bool,
) -> Result<bool, ToolFault>
    ensures { result ≡ answer_of wanted count found stop }
{
    match stop {
        PartStop::Full | PartStop::Late => Ok(found),
        PartStop::End => match wanted {
            None => Ok(found),
            Some(_) => Err(ToolFault::Short {
                file: Source::Only,
                count,
            }),
        },
        PartStop::Frame(fault) => Err(stopped(count, Stop::Frame(fault))),
        PartStop::TooMany => Err(stopped(count, Stop::TooManyMessages)),
        PartStop::Refused(fault) => Err(fault),
    }
}
