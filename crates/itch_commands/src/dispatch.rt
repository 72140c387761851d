//! Commands over the blocks of their files.
ghost use Rattle.std.specs.Option.{option_copied};
ghost use Rattle.itch_commands.specs.Requests.{Performs, PerformsBook, PerformsJoin, PerformsPair, PerformsSnap, ShowsBelow, ShowsFile, ShowsKind};
ghost use Rattle.itch_commands.specs.declared.form.ShowForm.TheVariants.{Csv};

use crate::book::{book_blocks, book_stocks};
use crate::canon::canon_blocks;
use crate::check::check_blocks;
use crate::choice::Choice;
use crate::compare::{compare_blocks, compare_first_blocks};
use crate::cut::cut_blocks;
use crate::fault::ToolFault;
use crate::feed_part::FeedPart;
use crate::filters::Filters;
use crate::form::{BookForm, ShowForm};
use crate::info::info_blocks;
use crate::join::{join_blocks, join_stocks};
use crate::kind::FileKind;
use crate::request::{Command, PairCommand};
use crate::selection::Selection;
use crate::show::{orders_blocks, show_blocks, show_snapshot, write_heading};
use crate::snap::{snap_blocks, snap_stocks};
use itch_book::OrderBook;
use itch_day::Limit;
use itch_frame::{BlockReader, CountedRead, CountedWrite};
use itch_market::LocateSet;
use std::alloc::Allocator;

/// Performs a command over one file, with the set of the requested locates, if not all are.
pub fn perform<R: CountedRead, A: Allocator, B: OrderBook, W: CountedWrite>(
    alloc: B::Alloc,
    command: Command<'_>,
    only: Option<&LocateSet<B::Alloc>>,
    reader: &mut BlockReader<R, A>,
    out: &mut W,
) -> Result<bool, ToolFault>
    ensures { Performs R.remaining R.failures W.contents W.failures command.entry (option_copied only.entry) reader.old reader.new out.old result out.new }
{
    match command {
        Command::Snap { limit, selection } => snap_selected::<R, A, B, W>(
            alloc, limit, selection, only, reader, out,
        ),
        Command::Check {
            limit,
            expected,
            form,
        } => check_blocks::<R, A, B, W>(alloc, reader, limit, expected, form, out),
        Command::Info { limit, form } => {
            info_blocks::<R, A, B, W>(alloc, reader, limit, form, out)
        }
        Command::Show {
            kind,
            form,
            filters,
        } => show_file::<R, A, B, W>(alloc, kind, form, filters, only, reader, out),
        Command::ShowOrders {
            limit,
            form,
            filters,
        } => orders_blocks::<R, A, B, W>(alloc, reader, limit, form, filters, only, out),
        Command::Cut { limit, filters } => cut_blocks(alloc, reader, limit, filters, only, out),
        Command::Canon { check } => canon_blocks::<R, A, B, W>(alloc, reader, check, out),
        Command::Book {
            selection,
            depth,
            kind,
            form,
        } => book_selected::<R, A, B, W>(alloc, selection, only, depth, reader, kind, form, out),
    }
}

/// Performs a command over two files, with the set of the requested locates, if not all are.
pub fn perform_pair<
    R: CountedRead,
    S: CountedRead,
    A: Allocator,
    C: Allocator,
    B: OrderBook,
    W: CountedWrite,
>(
    alloc: B::Alloc,
    command: PairCommand<'_>,
    only: Option<LocateSet<B::Alloc>>,
    first: &mut BlockReader<R, A>,
    second: &mut BlockReader<S, C>,
    out: &mut W,
) -> Result<bool, ToolFault>
    ensures { PerformsPair R.remaining R.failures S.remaining S.failures W.contents W.failures command.entry only first.old first.new second.old second.new out.old result out.new }
{
    match command {
        PairCommand::Compare { kind, form } => compare_blocks::<R, S, A, C, B, W>(
            alloc, first, second, kind, form, out,
        ),
        PairCommand::CompareFirst { limit, form } => compare_first_blocks::<R, S, A, C, B, W>(
            alloc, first, second, limit, form, out,
        ),
        PairCommand::Join { part, selection } => join_selected::<R, S, A, C, B, W>(
            alloc, selection, only, first, second, part, out,
        ),
    }
}

// Performs `snap` for a selection: by the names of stocks, or by the set.
fn snap_selected<R: CountedRead, A: Allocator, B: OrderBook, W: CountedWrite>(
    alloc: B::Alloc,
    limit: Limit,
    selection: Selection<'_>,
    only: Option<&LocateSet<B::Alloc>>,
    reader: &mut BlockReader<R, A>,
    out: &mut W,
) -> Result<bool, ToolFault>
    ensures { PerformsSnap R.remaining R.failures W.contents W.failures limit selection.entry (option_copied only.entry) reader.old reader.new out.old result out.new }
{
    match selection {
        Selection::Stocks(names) => snap_stocks::<R, A, B, W>(alloc, reader, limit, names, out),
        Selection::All => snap_blocks::<R, A, B, W>(alloc, reader, limit, only, out),
        Selection::Locates(_) => snap_blocks::<R, A, B, W>(alloc, reader, limit, only, out),
    }
}

// Performs `book` for a selection.
fn book_selected<R: CountedRead, A: Allocator, B: OrderBook, W: CountedWrite>(
    alloc: B::Alloc,
    selection: Selection<'_>,
    only: Option<&LocateSet<B::Alloc>>,
    depth: Option<u64>,
    reader: &mut BlockReader<R, A>,
    kind: FileKind,
    form: BookForm,
    out: &mut W,
) -> Result<bool, ToolFault>
    ensures { PerformsBook R.remaining R.failures W.contents W.failures form selection.entry (option_copied only.entry) depth kind reader.old reader.new out.old result out.new }
{
    match selection {
        Selection::Stocks(names) => book_stocks::<R, A, B, W>(
            alloc, names, depth, reader, kind, form, out,
        ),
        Selection::All => book_blocks::<R, A, B, W>(alloc, only, depth, reader, kind, form, out),
        Selection::Locates(_) => book_blocks::<R, A, B, W>(
            alloc, only, depth, reader, kind, form, out,
        ),
    }
}

// Performs `join` for a selection.
fn join_selected<
    R: CountedRead,
    S: CountedRead,
    A: Allocator,
    C: Allocator,
    B: OrderBook,
    W: CountedWrite,
>(
    alloc: B::Alloc,
    selection: Selection<'_>,
    only: Option<LocateSet<B::Alloc>>,
    snapshot: &mut BlockReader<R, A>,
    feed: &mut BlockReader<S, C>,
    part: FeedPart,
    out: &mut W,
) -> Result<bool, ToolFault>
    ensures { PerformsJoin R.remaining R.failures S.remaining S.failures W.contents W.failures selection.entry only part snapshot.old snapshot.new feed.old feed.new out.old result out.new }
{
    match selection {
        Selection::Stocks(names) => join_stocks::<R, S, A, C, B, W>(
            alloc, snapshot, feed, part, names, out,
        ),
        Selection::All => join_blocks::<R, S, A, C, B, W>(alloc, snapshot, feed, part, only, out),
        Selection::Locates(_) => join_blocks::<R, S, A, C, B, W>(
            alloc, snapshot, feed, part, only, out,
        ),
    }
}

// Shows the messages of a file of this kind that the filters choose.
fn show_file<R: CountedRead, A: Allocator, B: OrderBook, W: CountedWrite>(
    alloc: B::Alloc,
    kind: FileKind,
    form: ShowForm,
    filters: Filters<'_>,
    only: Option<&LocateSet<B::Alloc>>,
    reader: &mut BlockReader<R, A>,
    out: &mut W,
) -> Result<bool, ToolFault>
    ensures { ShowsFile R.remaining R.failures W.contents W.failures kind form (option_copied only.entry) filters.entry reader.old reader.new out.old result out.new }
{
    let choice = Choice::new(alloc, only, filters)?;
    show_below::<R, A, B, W>(alloc, kind, form, choice, reader, out)
}

// The same of what is chosen, below a heading in the form that has one.
fn show_below<R: CountedRead, A: Allocator, B: OrderBook, W: CountedWrite>(
    alloc: B::Alloc,
    kind: FileKind,
    form: ShowForm,
    choice: Choice<'_, B::Alloc>,
    reader: &mut BlockReader<R, A>,
    out: &mut W,
) -> Result<bool, ToolFault>
    ensures { ShowsBelow R.remaining R.failures W.contents W.failures kind form choice.entry reader.old reader.new out.old result out.new }
{
    match form {
        ShowForm::Csv { kind: letter } => {
            show_columns::<R, A, B, W>(alloc, kind, letter, choice, reader, out)
        }
        ShowForm::Text | ShowForm::Named | ShowForm::Json => {
            show_kind::<R, A, B, W>(alloc, kind, form, choice, reader, out)
        }
    }
}

// The heading of a type, and the rows of its messages.
fn show_columns<R: CountedRead, A: Allocator, B: OrderBook, W: CountedWrite>(
    alloc: B::Alloc,
    kind: FileKind,
    letter: u8,
    choice: Choice<'_, B::Alloc>,
    reader: &mut BlockReader<R, A>,
    out: &mut W,
) -> Result<bool, ToolFault>
    ensures { ShowsBelow R.remaining R.failures W.contents W.failures kind (Csv letter) choice.entry reader.old reader.new out.old result out.new }
{
    write_heading(letter, out)?;
    let form = ShowForm::Csv { kind: letter };
    show_kind::<R, A, B, W>(alloc, kind, form, choice, reader, out)
}

// The lines alone.
fn show_kind<R: CountedRead, A: Allocator, B: OrderBook, W: CountedWrite>(
    alloc: B::Alloc,
    kind: FileKind,
    form: ShowForm,
    choice: Choice<'_, B::Alloc>,
    reader: &mut BlockReader<R, A>,
    out: &mut W,
) -> Result<bool, ToolFault>
    ensures { ShowsKind R.remaining R.failures W.contents W.failures kind form choice.entry reader.old reader.new out.old result out.new }
{
    match kind {
        FileKind::Day(limit) => show_blocks(reader, limit, form, choice, out),
        FileKind::Snapshot => show_snapshot::<R, A, B, W>(alloc, reader, form, choice, out),
    }
}
