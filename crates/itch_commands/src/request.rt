//! The requests of the program over files.
ghost use Rattle.std.specs.Prelude.{◌≡◌, ◌↔◌, Some, IsNone, IfSome, option_map, codes};
ghost use Rattle.itch_commands.specs.Requests.{is_binary, only_of};

use crate::expected::Expectations;
use crate::feed_part::FeedPart;
use crate::filters::Filters;
use crate::form::{BookForm, OrderForm, ReportForm, ShowForm};
use crate::kind::FileKind;
use crate::selection::Selection;
use itch_day::Limit;

/// A request to the program. A file is given by its path, or is standard input without one.
#[derive(Clone, Copy, Debug, PartialEq, Eq)]
pub enum Request<'a> {
    /// Read one file.
    One {
        file: Option<&'a str>,
        command: Command<'a>,
    },
    /// Read two files.
    Two {
        first: Option<&'a str>,
        second: Option<&'a str>,
        command: PairCommand<'a>,
    },
    /// Write the snapshot at a point of the day, starting from the nearest snapshot in a folder, for the selected locates.
    At {
        folder: &'a str,
        feed: Option<&'a str>,
        point: Limit,
        selection: Selection<'a>,
    },
}

/// A command over one file. A limit gives the requested part of the file.
#[derive(Clone, Copy, Debug, PartialEq, Eq)]
pub enum Command<'a> {
    /// Write the snapshot after the file's messages, restricted to the selected locates.
    Snap {
        limit: Limit,
        selection: Selection<'a>,
    },
    /// Check that a file follows the order rules and meets the expectations, and count its messages.
    Check {
        limit: Limit,
        expected: Expectations,
        form: ReportForm,
    },
    /// Write the contents of a day file, in numbers.
    Info {
        limit: Limit,
        form: ReportForm,
    },
    /// Show each message of a file as a line, or those that are chosen.
    Show {
        kind: FileKind,
        form: ShowForm,
        filters: Filters<'a>,
    },
    /// Show each message of a day file that changes an order, or those that are chosen, with that order as it was before.
    ShowOrders {
        limit: Limit,
        form: OrderForm,
        filters: Filters<'a>,
    },
    /// Write the blocks of the kept messages of a day file.
    Cut {
        limit: Limit,
        filters: Filters<'a>,
    },
    /// Write a snapshot in canonical form, or only check whether it is in that form.
    Canon {
        check: bool,
    },
    /// Write the price levels of the selected locates, or the first ones of each side.
    Book {
        selection: Selection<'a>,
        depth: Option<u64>,
        kind: FileKind,
        form: BookForm,
    },
}

/// A command over two files.
#[derive(Clone, Copy, Debug, PartialEq, Eq)]
pub enum PairCommand<'a> {
    /// Check whether they leave the same market.
    Compare {
        kind: FileKind,
        form: ReportForm,
    },
    /// Find the number of messages after which the markets of two day files first differ.
    CompareFirst {
        limit: Limit,
        form: ReportForm,
    },
    /// Join the second file, a feed, to the first, a snapshot, and write the snapshot after both, for the selected locates.
    Join {
        part: FeedPart,
        selection: Selection<'a>,
    },
}

impl<'a> Request<'a> {
    /// Returns whether the output is a snapshot or the blocks of messages, not text.
    pub fn is_binary(&self) -> bool
        ensures { result ≡ is_binary self.now }
    {
        match self {
            Request::One { command, .. } => matches!(
                command,
                Command::Snap { .. } | Command::Cut { .. } | Command::Canon { check: false }
            ),
            Request::Two { command, .. } => matches!(command, PairCommand::Join { .. }),
            Request::At { .. } => true,
        }
    }

    /// Returns the list of the requested locates, if there is one.
    pub fn only(&self) -> Option<&'a str>
        ensures { option_map (λ list. list.now) result ≡ only_of self.now }
    {
        match self {
            Request::One { command, .. } => match command {
                Command::Snap { selection, .. } | Command::Book { selection, .. } =>
                    selection.list(),
                Command::Show { filters, .. } | Command::ShowOrders { filters, .. } => filters.only,
                Command::Cut { filters, .. } => filters.only,
                Command::Check { .. } | Command::Info { .. } | Command::Canon { .. } => None,
            },
            Request::Two { command, .. } => match command {
                PairCommand::Join { selection, .. } => selection.list(),
                PairCommand::Compare { .. } | PairCommand::CompareFirst { .. } => None,
            },
            Request::At { selection, .. } => selection.list(),
        }
    }
}

/// Returns the path of a file with this name, or `None` for standard input: the name is `-`, or there is no name.
pub fn path_of<'a>(name: Option<&'a str>) -> Option<&'a str>
    ensures standard { IsNone result ↔ IfSome name.entry (λ path. path.now ≡ codes "-") }
    ensures path { IfSome result (λ path. name.entry ≡ Some path) }
{
    let path = name?;
    if path == "-" { None } else { Some(path) }
}
