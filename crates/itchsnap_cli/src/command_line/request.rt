//! Requests over files, read from the matched command line.
ghost use Rattle.std.specs.Prelude.{◌≡◌};
ghost use Rattle.itchsnap_cli.specs.Types.{is_message_type};

use crate::command_line::fault::{Fault, usage_fault};
use crate::command_line::time::read_time;
use clap::ArgMatches;
use itch_commands::{
    BookForm, Command, Expectations, FeedPart, FileKind, Filters, Limit, OrderForm, PairCommand,
    ReportForm, Request, Selection, ShowForm, Start, path_of,
};
use std::alloc::Global;

/// The types of TotalView-ITCH 5.0, and that of End of Snapshot (GLIMPSE 5.0).
const TYPES: [char; 24] = [
    'S', 'R', 'H', 'Y', 'L', 'V', 'W', 'K', 'J', 'h', 'A', 'F', 'E', 'C', 'X', 'D', 'U', 'P', 'Q',
    'B', 'I', 'N', 'O', 'G',
];

/// Reads a request over files other than `snap`.
///
/// An error is a usage fault or out of memory: its kind tells which.
pub fn read_request<'a>(alloc: Global, matches: &ArgMatches<'a>) -> Result<Request<'a>, Fault> {
    match matches.subcommand() {
        Some(("compare", options)) => read_compare(alloc, options),
        Some(("join", options)) => read_join(alloc, options),
        Some(("at", options)) => read_at(alloc, options),
        Some(("book", options)) => read_book(alloc, options),
        Some(("canon", options)) => Ok(Request::One {
            file: read_path(options, "SNAP"),
            command: Command::Canon {
                check: options.get_flag("check"),
            },
        }),
        Some((name, options)) => Ok(Request::One {
            file: read_path(options, "FILE"),
            command: read_command(alloc, name, options)?,
        }),
        None => Err(usage_fault(alloc, "a command is missing")?),
    }
}

/// Reads the options of `snap` for one part of a file.
pub fn read_snap<'a>(
    alloc: Global,
    options: &ArgMatches<'a>,
    limit: Limit,
) -> Result<Request<'a>, Fault> {
    Ok(Request::One {
        file: read_path(options, "FILE"),
        command: Command::Snap {
            limit,
            selection: read_selection(alloc, options)?,
        },
    })
}

// Reads the command over a file that is named FILE.
fn read_command<'a>(
    alloc: Global,
    name: &str,
    options: &ArgMatches<'a>,
) -> Result<Command<'a>, Fault> {
    match name {
        "check" => Ok(Command::Check {
            limit: read_limit(alloc, options)?,
            expected: read_expected(alloc, options)?,
            form: read_form(options),
        }),
        "info" => Ok(Command::Info {
            limit: read_limit(alloc, options)?,
            form: read_form(options),
        }),
        "cut" => Ok(Command::Cut {
            limit: read_limit(alloc, options)?,
            filters: read_filters(alloc, options)?,
        }),
        "show" if options.get_flag("orders") => read_orders(alloc, options),
        "show" => read_show(alloc, options),
        _ => Err(usage_fault(alloc, "a command is missing")?),
    }
}

// Reads the expectations after `--expect` and `--ended`.
fn read_expected<'a>(alloc: Global, options: &ArgMatches<'a>) -> Result<Expectations, Fault> {
    Ok(Expectations {
        count: read_count(alloc, options, "expect", "--expect takes decimal digits")?,
        end: options.get_flag("ended"),
    })
}

fn read_compare<'a>(alloc: Global, options: &ArgMatches<'a>) -> Result<Request<'a>, Fault> {
    let (first, second) = read_two(alloc, options, "A", "B")?;
    let kind = read_kind(alloc, options)?;
    let form = read_form(options);
    let command = match (options.get_flag("first"), kind) {
        (false, _) => PairCommand::Compare { kind, form },
        (true, FileKind::Day(limit)) => PairCommand::CompareFirst { limit, form },
        (true, FileKind::Snapshot) => {
            return Err(usage_fault(
                alloc,
                "the argument '--first' cannot be used with '--snapshot'",
            )?);
        }
    };
    Ok(Request::Two {
        first,
        second,
        command,
    })
}

fn read_join<'a>(alloc: Global, options: &ArgMatches<'a>) -> Result<Request<'a>, Fault> {
    let (first, second) = read_two(alloc, options, "SNAP", "FEED")?;
    Ok(Request::Two {
        first,
        second,
        command: PairCommand::Join {
            part: read_feed_part(alloc, options)?,
            selection: read_selection(alloc, options)?,
        },
    })
}

fn read_at<'a>(alloc: Global, options: &ArgMatches<'a>) -> Result<Request<'a>, Fault> {
    Ok(Request::At {
        folder: options.get_str("DIR").unwrap_or("."),
        feed: read_path(options, "FEED"),
        point: read_point(alloc, options.get_str("POINT").unwrap_or(""))?,
        selection: read_selection(alloc, options)?,
    })
}

// Reads a point of the day: a number of messages, or a time with a colon in it.
fn read_point(alloc: Global, text: &str) -> Result<Limit, Fault> {
    if text.contains(':') {
        if let Some(time) = read_time(text) {
            return Ok(Limit {
                after: None,
                until: Some(time),
            });
        }
    }
    if text.bytes().all(|byte| byte.is_ascii_digit()) {
        if let Ok(count) = text.parse::<u64>() {
            return Ok(Limit::counted(Some(count)));
        }
    }
    Err(usage_fault(
        alloc,
        "POINT is a number of messages, or a time such as 10:30",
    )?)
}

// Reads the requested part of a feed, after `--first-number`, `--after` and `--until`.
fn read_feed_part<'a>(alloc: Global, options: &ArgMatches<'a>) -> Result<FeedPart, Fault> {
    Ok(FeedPart {
        before: read_before(
            alloc,
            options,
            "first-number",
            "--first-number takes decimal digits",
        )?,
        limit: read_limit(alloc, options)?,
    })
}

fn read_show<'a>(alloc: Global, options: &ArgMatches<'a>) -> Result<Command<'a>, Fault> {
    let kind = read_kind(alloc, options)?;
    let filters = read_filters(alloc, options)?;
    if kind == FileKind::Snapshot && filters.start != Start::first() {
        return Err(usage_fault(
            alloc,
            "the argument '--snapshot' cannot be used with '--from <N>' or '--since <TIME>'",
        )?);
    }
    Ok(Command::Show {
        kind,
        form: read_show_form(alloc, options, filters.types)?,
        filters,
    })
}

// Reads `show --orders`, which applies the order rules of a day.
fn read_orders<'a>(alloc: Global, options: &ArgMatches<'a>) -> Result<Command<'a>, Fault> {
    let FileKind::Day(limit) = read_kind(alloc, options)? else {
        return Err(usage_fault(
            alloc,
            "the argument '--orders' cannot be used with '--snapshot'",
        )?);
    };
    Ok(Command::ShowOrders {
        limit,
        form: read_order_form(alloc, options)?,
        filters: read_filters(alloc, options)?,
    })
}

/// Reads the form of messages with their orders.
pub fn read_order_form<'a>(alloc: Global, options: &ArgMatches<'a>) -> Result<OrderForm, Fault> {
    let (json, csv) = (options.get_flag("json"), options.get_flag("csv"));
    match (options.get_flag("names"), json, csv) {
        (false, false, false) => Ok(OrderForm::Text),
        (true, false, false) => Ok(OrderForm::Named),
        (false, true, false) => Ok(OrderForm::Json),
        (false, false, true) => Ok(OrderForm::Csv),
        _ => Err(usage_fault(
            alloc,
            "only one of '--names', '--json' and '--csv' can be used",
        )?),
    }
}

/// Reads the form of messages, which may be comma-separated values if one type of message is requested.
pub fn read_show_form<'a>(
    alloc: Global,
    options: &ArgMatches<'a>,
    types: Option<&str>,
) -> Result<ShowForm, Fault> {
    match read_order_form(alloc, options)? {
        OrderForm::Text => Ok(ShowForm::Text),
        OrderForm::Named => Ok(ShowForm::Named),
        OrderForm::Json => Ok(ShowForm::Json),
        OrderForm::Csv => read_columns(alloc, types.unwrap_or("")),
    }
}

// The one type whose fields are the columns.
fn read_columns(alloc: Global, types: &str) -> Result<ShowForm, Fault> {
    let letters = types.as_bytes();
    if letters.len() != 1 {
        return Err(usage_fault(
            alloc,
            "--csv needs --orders, or one type, such as --types A: each type has its own columns",
        )?);
    }
    Ok(ShowForm::Csv { kind: letters[0] })
}

/// Reads the filters for the messages that are shown.
pub fn read_filters<'a>(alloc: Global, options: &ArgMatches<'a>) -> Result<Filters<'a>, Fault> {
    Ok(Filters {
        start: read_start(alloc, options)?,
        only: options.get_str("only"),
        stocks: read_stocks(alloc, options)?,
        types: read_types(alloc, options)?,
        reference: read_count(
            alloc,
            options,
            "reference",
            "--reference takes decimal digits",
        )?,
    })
}

// Reads the letters of message types: one or more.
fn read_types<'a>(alloc: Global, options: &ArgMatches<'a>) -> Result<Option<&'a str>, Fault> {
    let Some(types) = options.get_str("types") else {
        return Ok(None);
    };
    if types.is_empty() {
        return Err(usage_fault(alloc, "--types takes letters of message types, such as AEX")?);
    }
    if let Some(other) = types.chars().find(|letter| !is_type(*letter)) {
        let message = format!(in alloc; "--types: no message has type '{other}'")?;
        return Err(usage_fault(alloc, message.as_str())?);
    }
    Ok(Some(types))
}

// Returns whether a letter is a type of message.
fn is_type(letter: char) -> bool
    ensures { result ≡ is_message_type letter }
{
    TYPES.contains(&letter)
}

// Reads the two files of a command; one may be standard input.
fn read_two<'a>(
    alloc: Global,
    options: &ArgMatches<'a>,
    first: &str,
    second: &str,
) -> Result<(Option<&'a str>, Option<&'a str>), Fault> {
    match (read_path(options, first), read_path(options, second)) {
        (None, None) => Err(usage_fault(alloc, "only one of the two files may be standard input")?),
        paths => Ok(paths),
    }
}

/// Reads the path of a file on the command line; `None` means standard input.
pub fn read_path<'a>(options: &ArgMatches<'a>, name: &str) -> Option<&'a str> {
    path_of(options.get_str(name))
}

fn read_book<'a>(alloc: Global, options: &ArgMatches<'a>) -> Result<Request<'a>, Fault> {
    let (selection, file) = read_booked(alloc, options)?;
    Ok(Request::One {
        file,
        command: Command::Book {
            selection,
            depth: read_depth(alloc, options)?,
            kind: read_kind(alloc, options)?,
            form: read_book_form(alloc, options)?,
        },
    })
}

/// Reads the number of prices of each side, after `--depth`.
pub fn read_depth<'a>(alloc: Global, options: &ArgMatches<'a>) -> Result<Option<u64>, Fault> {
    read_count(alloc, options, "depth", "--depth takes decimal digits")
}

/// Reads the locates for `book`, and its file. With `--stock` there is no LOCATE, and the first positional argument is the file.
pub fn read_booked<'a>(
    alloc: Global,
    options: &ArgMatches<'a>,
) -> Result<(Selection<'a>, Option<&'a str>), Fault> {
    let (first, second) = (options.get_str("LOCATE"), options.get_str("FILE"));
    match (read_stocks(alloc, options)?, first, second) {
        (Some(names), file, None) => Ok((Selection::Stocks(names), path_of(file))),
        (Some(_), _, Some(_)) => Err(usage_fault(
            alloc,
            "the argument '[LOCATE]' cannot be used with '--stock <LIST>'",
        )?),
        (None, Some(list), file) => Ok((Selection::Locates(list), path_of(file))),
        (None, None, _) => Err(usage_fault(
            alloc,
            "one of '<LOCATE>' and '--stock <LIST>' is required",
        )?),
    }
}

/// Reads the selection of `--only` or `--stock`.
pub fn read_selection<'a>(alloc: Global, options: &ArgMatches<'a>) -> Result<Selection<'a>, Fault> {
    match (options.get_str("only"), read_stocks(alloc, options)?) {
        (None, None) => Ok(Selection::All),
        (Some(list), None) => Ok(Selection::Locates(list)),
        (None, Some(names)) => Ok(Selection::Stocks(names)),
        (Some(_), Some(_)) => Err(usage_fault(
            alloc,
            "the argument '--only <LIST>' cannot be used with '--stock <LIST>'",
        )?),
    }
}

// Reads the names after `--stock`, none of which may be empty.
fn read_stocks<'a>(alloc: Global, options: &ArgMatches<'a>) -> Result<Option<&'a str>, Fault> {
    let Some(names) = options.get_str("stock") else {
        return Ok(None);
    };
    if has_empty_part(names) {
        return Err(usage_fault(alloc, "--stock takes names separated by commas")?);
    }
    Ok(Some(names))
}

// Returns whether a list has nothing before or after one of its commas.
fn has_empty_part(names: &str) -> bool {
    names.is_empty() || names.starts_with(',') || names.ends_with(',') || names.contains(",,")
}

/// Reads the kind of a file: a snapshot with `--snapshot`, and otherwise a day file or the requested part of it.
pub fn read_kind<'a>(alloc: Global, options: &ArgMatches<'a>) -> Result<FileKind, Fault> {
    let limit = read_limit(alloc, options)?;
    if !options.get_flag("snapshot") {
        return Ok(FileKind::Day(limit));
    }
    if limit != Limit::whole() {
        return Err(usage_fault(
            alloc,
            "the argument '--snapshot' cannot be used with '--after <N>' or '--until <TIME>'",
        )?);
    }
    Ok(FileKind::Snapshot)
}

/// Reads the path of the output file for a snapshot; `None` means standard output. `canon --check` writes no snapshot.
pub fn read_output<'a>(alloc: Global, options: &ArgMatches<'a>) -> Result<Option<&'a str>, Fault> {
    let path = path_of(options.get_str("output"));
    if path.is_some() && options.get_flag("check") {
        return Err(usage_fault(
            alloc,
            "the argument '--check' cannot be used with '--output <PATH>'",
        )?);
    }
    Ok(path)
}

// Reads the form of a count or a verdict.
fn read_form(options: &ArgMatches<'_>) -> ReportForm {
    if options.get_flag("json") {
        ReportForm::Json
    } else {
        ReportForm::Text
    }
}

/// Reads the form of `book`.
pub fn read_book_form<'a>(alloc: Global, options: &ArgMatches<'a>) -> Result<BookForm, Fault> {
    match (options.get_flag("json"), options.get_flag("csv")) {
        (false, false) => Ok(BookForm::Text),
        (true, false) => Ok(BookForm::Json),
        (false, true) => Ok(BookForm::Csv),
        (true, true) => Err(usage_fault(
            alloc,
            "the argument '--json' cannot be used with '--csv'",
        )?),
    }
}

/// Reads the requested part of a file, after `--after` and `--until`.
pub fn read_limit<'a>(alloc: Global, options: &ArgMatches<'a>) -> Result<Limit, Fault> {
    Ok(Limit {
        after: read_count(alloc, options, "after", "--after takes decimal digits")?,
        until: read_until(alloc, options)?,
    })
}

// Reads the beginning of the requested range of messages, after `--from` and `--since`.
fn read_start<'a>(alloc: Global, options: &ArgMatches<'a>) -> Result<Start, Fault> {
    Ok(Start {
        before: read_before(alloc, options, "from", "--from takes decimal digits")?,
        since: read_moment(
            alloc,
            options,
            "since",
            "--since takes a time such as 9:30 or 9:30:00.000000001, or nanoseconds since midnight",
        )?,
    })
}

// Reads the number of messages before the one whose number follows an option, which defaults to the first.
fn read_before<'a>(
    alloc: Global,
    options: &ArgMatches<'a>,
    name: &str,
    fault: &str,
) -> Result<u64, Fault> {
    let first = read_count(alloc, options, name, fault)?;
    Ok(first.unwrap_or(1).saturating_sub(1))
}

/// Reads the end time of the part of a file, after `--until`.
pub fn read_until<'a>(alloc: Global, options: &ArgMatches<'a>) -> Result<Option<u64>, Fault> {
    read_moment(
        alloc,
        options,
        "until",
        "--until takes a time such as 10:30 or 10:30:00.000000001, or nanoseconds since midnight",
    )
}

// Reads the time after an option, if it is given; any other text is this usage fault.
fn read_moment<'a>(
    alloc: Global,
    options: &ArgMatches<'a>,
    name: &str,
    fault: &str,
) -> Result<Option<u64>, Fault> {
    let Some(text) = options.get_str(name) else {
        return Ok(None);
    };
    match read_time(text) {
        Some(time) => Ok(Some(time)),
        None => Err(usage_fault(alloc, fault)?),
    }
}

/// Reads the number after an option, if it is given, in decimal digits only; any other text is this usage fault.
pub fn read_count<'a>(
    alloc: Global,
    options: &ArgMatches<'a>,
    name: &str,
    fault: &str,
) -> Result<Option<u64>, Fault> {
    let Some(text) = options.get_str(name) else {
        return Ok(None);
    };
    if !text.bytes().all(|byte| byte.is_ascii_digit()) {
        return Err(usage_fault(alloc, fault)?);
    }
    Ok(options.get_one::<u64>(name))
}
