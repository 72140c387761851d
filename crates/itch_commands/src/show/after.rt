//! `show` of a day file from a cursor on.
ghost use Rattle.std.specs.Prelude.{◌-◌, ◌^◌, ◌≤◌, ℕ, List};
ghost use Rattle.std.specs.Option.{option_copied};
ghost use Rattle.itch_commands.specs.Further.{AreListed, ShowsAfter, ShowsBelow, ShowsFound, ShowsOn};
ghost use Rattle.itch_commands.specs.declared.form.ShowForm.TheVariants.{Csv};

use super::answer;
use super::found::if_found;
use super::headings::write_heading;
use super::sink::ShownLines;
use crate::begun::Begun;
use crate::choice::Choice;
use crate::fault::ToolFault;
use crate::filters::Filters;
use crate::form::ShowForm;
use itch_day::{Limit, pass_stop, read_part};
use itch_frame::{BlockReader, CountedRead, CountedWrite};
use itch_market::LocateSet;
use std::alloc::Allocator;

/// Shows a part of a day file whose first messages are before the range, with a reader of the messages after them: the output and the result
/// are those of a reading from the beginning. The messages before the cursor must be in the part, and no filter may follow an order.
pub fn show_after<R: CountedRead, B: Allocator, A: Allocator + Copy, W: CountedWrite>(
    alloc: A,
    begun: Begun<'_>,
    reader: &mut BlockReader<R, B>,
    limit: Limit,
    form: ShowForm,
    filters: Filters<'_>,
    only: Option<&LocateSet<A>>,
    out: &mut W,
) -> Result<bool, ToolFault>
    ensures { (payloads : List (List ℕ)) → AreListed payloads begun.entry.directory.now
        → ShowsAfter R.remaining R.failures limit W.contents W.failures (option_copied only.entry) filters.entry begun.entry.cursor payloads form reader.old reader.new out.old result out.new }
{
    let choice = begun.choice(alloc, only, filters)?;
    show_below(reader, begun.count(), limit, form, choice, out)
}

// Shows the messages after this number of others, below a heading in the form that has one.
fn show_below<R: CountedRead, B: Allocator, A: Allocator, W: CountedWrite>(
    reader: &mut BlockReader<R, B>,
    before: u64,
    limit: Limit,
    form: ShowForm,
    choice: Choice<'_, A>,
    out: &mut W,
) -> Result<bool, ToolFault>
    requires few { before ≤ 10 ^ 19 - 1 }
    ensures { ShowsBelow R.remaining R.failures limit choice.entry before W.contents W.failures form reader.old reader.new out.old result out.new }
{
    match form {
        ShowForm::Csv { kind } => show_columns(reader, before, limit, kind, choice, out),
        ShowForm::Text | ShowForm::Named | ShowForm::Json => {
            show_found(reader, before, limit, form, choice, out)
        }
    }
}

// The heading of a type, and the rows of its messages.
fn show_columns<R: CountedRead, B: Allocator, A: Allocator, W: CountedWrite>(
    reader: &mut BlockReader<R, B>,
    before: u64,
    limit: Limit,
    kind: u8,
    choice: Choice<'_, A>,
    out: &mut W,
) -> Result<bool, ToolFault>
    requires few { before ≤ 10 ^ 19 - 1 }
    ensures { ShowsBelow R.remaining R.failures limit choice.entry before W.contents W.failures (Csv kind) reader.old reader.new out.old result out.new }
{
    write_heading(kind, out)?;
    let form = ShowForm::Csv { kind };
    show_found(reader, before, limit, form, choice, out)
}

// The lines alone.
fn show_found<R: CountedRead, B: Allocator, A: Allocator, W: CountedWrite>(
    reader: &mut BlockReader<R, B>,
    before: u64,
    limit: Limit,
    form: ShowForm,
    choice: Choice<'_, A>,
    out: &mut W,
) -> Result<bool, ToolFault>
    requires few { before ≤ 10 ^ 19 - 1 }
    ensures { ShowsFound R.remaining R.failures limit choice.entry before W.contents W.failures form reader.old reader.new out.old result out.new }
{
    let found = show_on(reader, before, limit, form, choice, out)?;
    if_found(found)
}

// Does the same. Returns whether each of the stocks searched for has come.
fn show_on<R: CountedRead, B: Allocator, A: Allocator, W: CountedWrite>(
    reader: &mut BlockReader<R, B>,
    before: u64,
    limit: Limit,
    form: ShowForm,
    choice: Choice<'_, A>,
    out: &mut W,
) -> Result<bool, ToolFault>
    requires few { before ≤ 10 ^ 19 - 1 }
    ensures { ShowsOn R.remaining R.failures limit choice.entry before W.contents W.failures form reader.old reader.new out.old result out.new }
{
    let mut choice = choice;
    let mut count = before;
    let mut lines = ShownLines {
        out,
        form,
        choice: &mut choice,
    };
    let stop = read_part(reader, &mut count, &mut lines, limit);
    pass_stop(reader, &stop);
    answer(stop, limit.after, count, lines.has_found_all())
}
