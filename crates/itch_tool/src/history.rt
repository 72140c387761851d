//! Shows the complete history of an order, for which a file is read twice.
ghost use Rattle.std.specs.Prelude.{◌≡◌};
ghost use Rattle.itch_tool.specs.Histories.{search_fault, stopped};

use crate::beginning::Beginning;
use crate::failure::Failure;
use crate::locate_list::read_only;
use crate::opened::open;
use crate::run::{blocks, request_to};
use itch_commands::{Source, ToolFault};
use itch_history::{SearchFault, first_reference};
use itch_market::{ReplayEnd, Stop};
use itchsnap_cli::command_line::HistoryArguments;
use itchsnap_cli::input::ProgressLine;
use std::rt::{Clock, Files};
use std::{fs, io};

/// Finds the first reference number of the order's history, and then shows the messages about the order from that number on.
pub fn run_history<R: Files + Input + Print + Eprint + AllocGlobal + Clock>(
    rt: &R,
    arguments: &HistoryArguments<'_>,
    beginning: &Beginning,
) -> Result<bool, Failure> {
    let only = match arguments.filters.only {
        Some(list) => Some(read_only(rt, list)?),
        None => None,
    };
    let first = find_first(rt, arguments, beginning)?;
    request_to(
        rt,
        arguments.request(first),
        arguments.progress,
        beginning,
        only,
        io::writer(rt),
    )
}

// Reads the file up to the first message that names the order.
fn find_first<R: Files + Input + Eprint + AllocGlobal + Clock>(
    rt: &R,
    arguments: &HistoryArguments<'_>,
    beginning: &Beginning,
) -> Result<u64, Failure> {
    let alloc = rt.alloc();
    if !may_be_read_twice(rt, arguments.file) {
        return Err(Failure::OnlyOnce {
            path: String::from_str(alloc, arguments.file)?,
        });
    }
    let progress = if arguments.progress {
        ProgressLine::begin(rt)
    } else {
        None
    };
    let file = open(
        rt,
        Some(arguments.file),
        Source::Only,
        progress.as_ref(),
        beginning,
    )?;
    let mut reader = blocks(alloc, file)?;
    match first_reference(alloc, &mut reader, arguments.limit, arguments.reference) {
        Ok(Some(first)) => Ok(first),
        Ok(None) => Err(Failure::NoOrder {
            reference: arguments.reference,
        }),
        Err(fault) => Err(Failure::from(tool_fault(fault))),
    }
}

// Returns whether a file may be read twice. A pipe may not, and is not opened. A path without a file fails when it is opened.
fn may_be_read_twice<R: Files>(rt: &R, path: &str) -> bool {
    match fs::metadata(rt, path) {
        Ok(metadata) => metadata.is_file(),
        Err(_error) => true,
    }
}

// Returns the fault of a search as that of a command.
fn tool_fault(fault: SearchFault) -> ToolFault
    ensures { result ≡ search_fault fault }
{
    match fault {
        SearchFault::Short { count } => ToolFault::Short {
            file: Source::Only,
            count,
        },
        SearchFault::Frame { count, fault } => stopped(count, Stop::Frame(fault)),
        SearchFault::Codec { count, fault } => stopped(count, Stop::Codec(fault)),
        SearchFault::TooMany { count } => stopped(count, Stop::TooManyMessages),
        SearchFault::OutOfMemory => ToolFault::OutOfMemory,
    }
}

// Returns the fault of the only file, which stops after this many messages.
fn stopped(count: u64, stop: Stop) -> ToolFault
    ensures { result ≡ stopped count stop }
{
    ToolFault::Stopped {
        file: Source::Only,
        end: ReplayEnd { count, stop },
    }
}
