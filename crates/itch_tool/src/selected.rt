//! The selection of a request, and the part of its file.

use itch_commands::{Command, FileKind, Limit, PairCommand, Request, Selection};
use itchsnap_cli::command_line::{
    BookArguments, ChangeArguments, HistoryArguments, IndexedArguments, IndexedWork, Job,
    PointArguments, Times,
};

/// The list of locates or of stocks that a request selects, and the part of its one file that it reads.
#[derive(Clone, Copy)]
pub struct Selected<'a> {
    pub locates: Option<&'a str>,
    pub stocks: Option<&'a str>,
    /// `None` if a second file is read too.
    pub part: Option<Limit>,
}

impl<'a> Selected<'a> {
    pub fn of(job: &Job<'a>) -> Selected<'a> {
        match job {
            Job::Files { request, .. } => Selected::of_request(*request),
            Job::Indexed(IndexedArguments { work, .. }) => match work {
                IndexedWork::Command(command) => Selected::of_command(*command),
                IndexedWork::History(arguments) => Selected::of_history(arguments),
            },
            Job::History(arguments) => Selected::of_history(arguments),
            Job::Points(PointArguments { selection, .. }) => Selected::by(*selection, None),
            Job::Books(arguments) => Selected::of_books(arguments),
            Job::Changes(
                ChangeArguments {
                    selection,
                    limit,
                    ..
                },
            ) => { Selected::by(*selection, Some(*limit)) }
            _ => Selected::nothing(),
        }
    }

    fn of_history(arguments: &HistoryArguments<'a>) -> Selected<'a> {
        let filters = arguments.filters;
        Selected::new(filters.only, filters.stocks, Some(arguments.limit))
    }

    pub fn nothing() -> Selected<'a> {
        Selected::new(None, None, None)
    }

    fn new(locates: Option<&'a str>, stocks: Option<&'a str>, part: Option<Limit>) -> Selected<'a> {
        Selected {
            locates,
            stocks,
            part,
        }
    }

    // The directory is that at the last time, or at the end of the file.
    fn of_books(arguments: &BookArguments<'a>) -> Selected<'a> {
        let until = match &arguments.times {
            Times::At(times) => times.last().copied(),
            Times::Every(_) => None,
        };
        Selected::by(
            arguments.request.selection,
            Some(Limit { after: None, until }),
        )
    }

    fn of_request(request: Request<'a>) -> Selected<'a> {
        match request {
            Request::One { command, .. } => Selected::of_command(command),
            Request::Two { command, .. } => Selected::of_pair(command),
            Request::At {
                selection,
                point,
                ..
            } => Selected::by(selection, Some(point)),
        }
    }

    fn of_pair(command: PairCommand<'a>) -> Selected<'a> {
        match command {
            PairCommand::Join { selection, .. } => Selected::by(selection, None),
            _ => Selected::nothing(),
        }
    }

    fn of_command(command: Command<'a>) -> Selected<'a> {
        match command {
            Command::Snap { limit, selection } => Selected::by(selection, Some(limit)),
            Command::Book {
                selection,
                kind,
                ..
            } => Selected::by(selection, Some(part_of(kind))),
            Command::Show { kind, filters, .. } => {
                Selected::new(filters.only, filters.stocks, Some(part_of(kind)))
            }
            Command::ShowOrders { limit, filters, .. } | Command::Cut { limit, filters } => {
                Selected::new(filters.only, filters.stocks, Some(limit))
            }
            Command::Check { limit, .. } | Command::Info { limit, .. } => {
                Selected::new(None, None, Some(limit))
            }
            Command::Canon { .. } => Selected::nothing(),
        }
    }

    fn by(selection: Selection<'a>, part: Option<Limit>) -> Selected<'a> {
        match selection {
            Selection::All => Selected::new(None, None, part),
            Selection::Locates(list) => Selected::new(Some(list), None, part),
            Selection::Stocks(names) => Selected::new(None, Some(names), part),
        }
    }
}

// Returns the part of a file that is read. A snapshot is read completely.
fn part_of(kind: FileKind) -> Limit {
    match kind {
        FileKind::Day(limit) => limit,
        FileKind::Snapshot => Limit::whole(),
    }
}
