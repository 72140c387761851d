//! Writes the index of a day file.

use crate::beginning::Beginning;
use crate::failure::Failure;
use crate::noted::{Noted, Notes};
use crate::opened::{open, read_fault};
use crate::output::Output;
use crate::run::blocks;
use itch_commands::{Limit, Source, ToolFault};
use itch_frame::{BlockReader, CountedRead};
use itch_offsets::{IndexPass, IndexWriter};
use itch_sessions::sessions::PIECE;
use itchsnap_cli::command_line::IndexArguments;
use itchsnap_cli::input::ProgressLine;
use std::alloc::{Allocator, Global};
use std::fs::{File, OpenFile};
use std::io::{self, BufWriter, ErrorKind, Write};
use std::rt::{Clock, Files};

/// Reads a day file, or a part of it, and writes its index.
pub fn run_index<R: Files<File = File> + Input + Print + Eprint + AllocGlobal + Clock>(
    rt: &R,
    arguments: &IndexArguments<'_>,
    beginning: &Beginning,
) -> Result<bool, Failure> {
    let Some(path) = arguments.output else {
        let _standard = index_to(rt, arguments, beginning, io::writer(rt))?;
        return Ok(true);
    };
    let (output, file) = Output::create(rt, path)?;
    let outcome = match index_to(rt, arguments, beginning, file) {
        Ok(file) => synced(file.sync_all()),
        Err(failure) => Err(failure),
    };
    output.finish(rt, outcome)
}

// A device or a pipe cannot be synced.
fn synced(outcome: io::Result<()>) -> Result<bool, Failure> {
    match outcome {
        Ok(()) => Ok(true),
        Err(error) if error.kind() == ErrorKind::InvalidInput => Ok(true),
        Err(error) => Err(Failure::from(ToolFault::Write(error))),
    }
}

// Writes the index to a writer, and returns the writer.
fn index_to<R: Files + Input + Eprint + AllocGlobal + Clock, W: Write + Drop>(
    rt: &R,
    arguments: &IndexArguments<'_>,
    beginning: &Beginning,
    writer: W,
) -> Result<W, Failure> {
    let alloc = rt.alloc();
    let progress = if arguments.progress {
        ProgressLine::begin(rt)
    } else {
        None
    };
    let file = open(
        rt,
        arguments.file,
        Source::Only,
        progress.as_ref(),
        beginning,
    )?;
    let notes = Notes::new(alloc)?;
    let reader = blocks(alloc, Noted::new(file, &notes))?;
    let Ok(mut out) = BufWriter::with_capacity(alloc, PIECE, writer) else {
        return Err(Failure::from(ToolFault::OutOfMemory));
    };
    write_index(alloc, reader, arguments.limit, &notes, &mut out)?;
    match out.into_inner() {
        Ok(writer) => Ok(writer),
        Err(error) => Err(Failure::from(ToolFault::Write(error.into_error()))),
    }
}

// Writes the lines of each row, and the last line.
fn write_index<S: CountedRead + Drop, A: Allocator, W: Write>(
    alloc: Global,
    reader: BlockReader<S, A>,
    limit: Limit,
    notes: &Notes,
    out: &mut W,
) -> Result<(), Failure> {
    let mut pass = IndexPass::new(alloc, reader);
    let mut writer = IndexWriter::new(alloc);
    let mut last = 0;
    for _ in 0..u64::MAX {
        let is_more = pass.read_row(limit)?;
        let cursor = pass.cursor();
        if last < cursor.count {
            let fingerprint = match notes.fingerprint(cursor.offset) {
                Ok(fingerprint) => fingerprint,
                Err(error) => return Err(Failure::from(read_fault(cursor.count, error))),
            };
            writer.add(pass.directory(), cursor, fingerprint)?;
            write(out, writer.lines())?;
            last = cursor.count;
        }
        if !is_more {
            break;
        }
    }
    let end = writer.end()?;
    write(out, &end)
}

fn write<W: Write>(out: &mut W, bytes: &[u8]) -> Result<(), Failure> {
    match out.write_all(bytes) {
        Ok(()) => Ok(()),
        Err(error) => Err(Failure::from(ToolFault::Write(error))),
    }
}
