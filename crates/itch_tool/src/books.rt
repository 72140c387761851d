//! Prints the books of a day file at several times.

use crate::beginning::Beginning;
use crate::failure::Failure;
use crate::locate_list::read_only;
use crate::opened::open;
use crate::run::blocks;
use itch_book::IndexedBook;
use itch_commands::{Book, Source, ToolFault};
use itch_depth::{books_at, books_every};
use itch_frame::{Counted, CountedWrite};
use itch_market::LocateSet;
use itch_sessions::sessions::PIECE;
use itchsnap_cli::command_line::{BookArguments, Times};
use itchsnap_cli::input::ProgressLine;
use std::alloc::Allocator;
use std::io::{self, BufWriter, Read, Write};
use std::rt::{Clock, Files};

/// Prints the books at each time on standard output. Those before a fault are printed too.
pub fn run_books<R: Files + Input + Print + Eprint + AllocGlobal + Clock>(
    rt: &R,
    arguments: &BookArguments<'_>,
    beginning: &Beginning,
) -> Result<bool, Failure> {
    let alloc = rt.alloc();
    let only = match arguments.request.selection.list() {
        Some(list) => Some(read_only(rt, list)?),
        None => None,
    };
    let progress = if arguments.progress {
        ProgressLine::begin(rt)
    } else {
        None
    };
    let file = open(
        rt,
        arguments.file,
        Source::Only,
        progress.as_ref(),
        beginning,
    )?;
    let Ok(buffered) = BufWriter::with_capacity(alloc, PIECE, io::writer(rt)) else {
        return Err(Failure::from(ToolFault::OutOfMemory));
    };
    let mut out = Counted::new(buffered);
    let answer = print_books(alloc, arguments, only.as_ref(), file, &mut out);
    match (answer, out.into_inner().flush()) {
        (Ok(answer), Ok(())) => Ok(answer),
        (Err(fault), _) => Err(Failure::from(fault)),
        (Ok(_), Err(error)) => Err(Failure::from(ToolFault::Write(error))),
    }
}

// Several times are looked at between messages, so their book keeps its price levels, and does not sort its orders anew for each.
fn print_books<A: Allocator + Copy, R: Read + Drop, W: CountedWrite>(
    alloc: A,
    arguments: &BookArguments<'_>,
    only: Option<&LocateSet<A>>,
    file: R,
    out: &mut W,
) -> Result<bool, ToolFault> {
    let reader = blocks(alloc, file)?;
    match &arguments.times {
        // One time is the end of the reading.
        Times::At(times) if times.len() == 1 => books_at::<_, _, Book<A>, _>(
            alloc,
            arguments.request,
            only,
            times,
            reader,
            out,
        ),
        Times::At(times) => books_at::<_, _, IndexedBook<A>, _>(
            alloc,
            arguments.request,
            only,
            times,
            reader,
            out,
        ),
        Times::Every(step) => books_every::<_, _, IndexedBook<A>, _>(
            alloc,
            arguments.request,
            only,
            *step,
            reader,
            out,
        ),
    }
}
