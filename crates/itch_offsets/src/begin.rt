//! The row of an index from which a range of a day is read.
ghost use Rattle.std.specs.Prelude.{◌≡◌, None, option_map};
ghost use Rattle.itch_offsets.specs.Beginnings.{begin_after, better, may_begin, range_in, range_of};

use crate::row::IndexRow;
use itch_commands::{Command, FileKind, Filters, Limit, Start};
use itch_day::DayCursor;

/// A range of the messages of a day: its beginning, and the part of the file with which it ends.
#[derive(Clone, Copy, Debug, PartialEq, Eq)]
pub struct Range {
    pub start: Start,
    pub limit: Limit,
}

/// Returns the range that a command reads, if its output does not depend on the messages before the range, other than Stock Directory
/// messages. A command that follows an order or needs the market reads the file from its beginning.
pub fn range_of(command: &Command<'_>) -> Option<Range>
    ensures { result ≡ range_of command.now }
{
    match command {
        Command::Show {
            kind: FileKind::Day(limit),
            filters,
            ..
        } => range_in(*limit, filters),
        Command::Cut { limit, filters } => range_in(*limit, filters),
        _ => None,
    }
}

// Returns the range of a part of a file for these filters, unless they follow an order.
fn range_in(limit: Limit, filters: &Filters<'_>) -> Option<Range>
    ensures { result ≡ range_in limit filters.now }
{
    match filters.reference {
        Some(_) => None,
        None => Some(Range {
            start: filters.start,
            limit,
        }),
    }
}

/// Returns whether a range can be read from a cursor on: all messages before the cursor are before the range, and in the part of the file.
pub fn may_begin(cursor: &DayCursor, range: Range) -> bool
    ensures { result ≡ may_begin range cursor.now }
{
    range.start.is_beyond(cursor) && cursor.is_in(range.limit)
}

/// Returns the row with the most messages from which a range can be read, if there is one.
pub fn begin_from(rows: &[IndexRow], range: Range) -> Option<IndexRow>
    ensures { result ≡ begin_after range None rows.now }
{
    let mut best = None;
    for row in rows {
        best = better(best, *row, range);
    }
    best
}

// Returns the better of two rows for a range: the second, if the range can be read from there, and it has more messages.
fn better(best: Option<IndexRow>, row: IndexRow, range: Range) -> Option<IndexRow>
    ensures { result ≡ better range best row }
{
    let most = match best {
        Some(best) => best.cursor.count,
        None => 0,
    };
    if most < row.cursor.count && may_begin(&row.cursor, range) {
        Some(row)
    } else {
        best
    }
}
