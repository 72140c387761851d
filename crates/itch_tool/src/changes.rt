//! Prints the best prices of one stock after each message that changes them.

use crate::beginning::Beginning;
use crate::failure::Failure;
use crate::opened::open;
use crate::run::blocks;
use itch_commands::{Book, Source, ToolFault};
use itch_depth::book_changes;
use itch_frame::{Counted, CountedWrite};
use itch_sessions::sessions::PIECE;
use itchsnap_cli::command_line::ChangeArguments;
use itchsnap_cli::input::ProgressLine;
use std::alloc::Allocator;
use std::io::{self, BufWriter, Read, Write};
use std::rt::{Clock, Files};

/// Prints the lines of the changes on standard output. Those before a fault are printed too.
pub fn run_changes<R: Files + Input + Print + Eprint + AllocGlobal + Clock>(
    rt: &R,
    arguments: &ChangeArguments<'_>,
    beginning: &Beginning,
) -> Result<bool, Failure> {
    let alloc = rt.alloc();
    let progress = if arguments.progress {
        ProgressLine::begin(rt)
    } else {
        None
    };
    let file = open(
        rt,
        arguments.file,
        Source::Only,
        progress.as_ref(),
        beginning,
    )?;
    let Ok(buffered) = BufWriter::with_capacity(alloc, PIECE, io::writer(rt)) else {
        return Err(Failure::from(ToolFault::OutOfMemory));
    };
    let mut out = Counted::new(buffered);
    let answer = print_changes(alloc, arguments, file, &mut out);
    match (answer, out.into_inner().flush()) {
        (Ok(answer), Ok(())) => Ok(answer),
        (Err(fault), _) => Err(Failure::from(fault)),
        (Ok(_), Err(error)) => Err(Failure::from(ToolFault::Write(error))),
    }
}

// The book of the whole market is never looked at, so it keeps no price levels.
fn print_changes<A: Allocator + Copy, R: Read + Drop, W: CountedWrite>(
    alloc: A,
    arguments: &ChangeArguments<'_>,
    file: R,
    out: &mut W,
) -> Result<bool, ToolFault> {
    let reader = blocks(alloc, file)?;
    book_changes::<_, _, Book<A>, _>(alloc, arguments.request, arguments.limit, reader, out)
}
