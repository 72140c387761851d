//! Shows and cuts a day file with its index.

use crate::beginning::{Beginning, BegunInput};
use crate::failure::Failure;
use crate::history::run_history;
use crate::locate_list::read_only;
use crate::opened::{read_fault, size};
use crate::output::Output;
use crate::run::{blocks, perform_over};
use itch_checkpoints::fingerprint_before;
use itch_commands::show::show_after;
use itch_commands::{Begun, Command, FileKind, Source, ToolFault, cut_after, system_fault};
use itch_frame::{Counted, CountedWrite};
use itch_market::LocateSet;
use itch_offsets::{DayIndex, IndexRow, IndexUnfit, begin_from, range_of, why_unfit};
use itch_sessions::sessions::PIECE;
use itchsnap_cli::command_line::{IndexedArguments, IndexedWork};
use itchsnap_cli::input::{InputStream, ProgressLine, ProgressReader};
use std::alloc::{AllocError, Global};
use std::fs::{self, File};
use std::io::{self, BufReader, BufWriter, ErrorKind, Read, Seek, SeekFrom, Write};
use std::rt::{Clock, Files};

/// Shows or cuts a day file from the row of its index that is nearest to the range. An index that does not fit the file is refused, even if
/// the file is read from its beginning.
pub fn run_indexed<R: Files<File = File> + Input + Print + Eprint + AllocGlobal + Clock>(
    rt: &R,
    arguments: &IndexedArguments<'_>,
    beginning: &Beginning,
) -> Result<bool, Failure> {
    let command = match &arguments.work {
        IndexedWork::Command(command) => *command,
        IndexedWork::History(history) => {
            let _file = open_fitting(rt, arguments)?;
            return run_history(rt, history, beginning);
        }
    };
    let only = match arguments.request(command).only() {
        Some(list) => Some(read_only(rt, list)?),
        None => None,
    };
    let Some(path) = arguments.output else {
        return command_to(rt, arguments, command, only.as_ref(), io::writer(rt));
    };
    let (output, file) = Output::create(rt, path)?;
    let outcome = command_to(rt, arguments, command, only.as_ref(), file);
    output.finish(rt, outcome)
}

// Performs a command, with its output to a writer.
fn command_to<R: Files + Input + Eprint + AllocGlobal + Clock, W: Write + Drop>(
    rt: &R,
    arguments: &IndexedArguments<'_>,
    command: Command<'_>,
    only: Option<&LocateSet<Global>>,
    writer: W,
) -> Result<bool, Failure> {
    let Ok(buffered) = BufWriter::with_capacity(rt.alloc(), PIECE, writer) else {
        return Err(Failure::from(ToolFault::OutOfMemory));
    };
    let mut out = Counted::new(buffered);
    let progress = if arguments.progress {
        ProgressLine::begin(rt)
    } else {
        None
    };
    let answer = perform_indexed(rt, arguments, command, only, progress.as_ref(), &mut out)?;
    match out.into_inner().flush() {
        Ok(()) => Ok(answer),
        Err(error) => Err(Failure::from(ToolFault::Write(error))),
    }
}

fn perform_indexed<R: Files + Input + Eprint + AllocGlobal + Clock, W: CountedWrite>(
    rt: &R,
    arguments: &IndexedArguments<'_>,
    command: Command<'_>,
    only: Option<&LocateSet<Global>>,
    progress: Option<&ProgressLine<'_, R>>,
    out: &mut W,
) -> Result<bool, Failure> {
    let mut fitting = open_fitting(rt, arguments)?;
    let row = match range_of(&command) {
        Some(range) => begin_from(fitting.index.rows(), range),
        None => None,
    };
    let offset = fitting.move_to(rt, arguments, row)?;
    if let Some(progress) = progress {
        progress.add_file(Some(fitting.size.saturating_sub(offset)));
    }
    let opened: InputStream<R::File, BegunInput<'_, R::Reader>> = InputStream::File(fitting.file);
    let file = ProgressReader::new(opened, progress);
    let Some(row) = row else {
        return Ok(perform_over(rt.alloc(), command, only, file, out)?);
    };
    let begun = Begun {
        cursor: row.cursor,
        directory: fitting.index.directory(&row),
    };
    Ok(perform_after(rt.alloc(), command, only, begun, file, out)?)
}

// Performs a command over the bytes of a day file after the messages before a cursor.
fn perform_after<R: Read + Drop, W: CountedWrite>(
    alloc: Global,
    command: Command<'_>,
    only: Option<&LocateSet<Global>>,
    begun: Begun<'_>,
    file: R,
    out: &mut W,
) -> Result<bool, ToolFault> {
    match command {
        Command::Show {
            kind: FileKind::Day(limit),
            form,
            filters,
        } => {
            let mut reader = blocks(alloc, file)?;
            show_after(alloc, begun, &mut reader, limit, form, filters, only, out)
        }
        Command::Cut { limit, filters } => {
            let mut reader = blocks(alloc, file)?;
            cut_after(alloc, begun, &mut reader, limit, filters, only, out)
        }
        _ => perform_over(alloc, command, only, file, out),
    }
}

// A day file and an index that fits it.
#[derive(Drop)]
struct Fitting<F> {
    file: F,
    size: u64,
    index: DayIndex,
}

// Opens the day file and reads its index. The file must have the fingerprint of the last row.
fn open_fitting<R: Files + AllocGlobal>(
    rt: &R,
    arguments: &IndexedArguments<'_>,
) -> Result<Fitting<R::File>, Failure> {
    let (file, size) = open_file(rt, arguments.file)?;
    let Some(index) = read_index(rt, arguments.index)? else {
        return Err(unfit(rt.alloc(), IndexUnfit::Invalid, arguments)?);
    };
    let last = index.rows().last().copied();
    let mut fitting = Fitting { file, size, index };
    if let Some(last) = last {
        fitting.compare(rt, arguments, &last)?;
    }
    Ok(fitting)
}

// Opens a day file that can be read from any place, and returns its size too.
fn open_file<R: Files + AllocGlobal>(rt: &R, path: &str) -> Result<(R::File, u64), Failure> {
    if let Ok(metadata) = fs::metadata(rt, path)
        && !metadata.is_file()
        && !metadata.is_dir()
    {
        return Err(Failure::NotPlaced {
            path: String::from_str(rt.alloc(), path)?,
        });
    }
    match fs::open(rt, path) {
        Ok(file) => Ok((file, size(rt, path).unwrap_or(0))),
        Err(error) => {
            let file = Source::Only;
            Err(Failure::from(system_fault(error, ToolFault::Open { file, error })))
        }
    }
}

fn read_index<R: Files + AllocGlobal>(rt: &R, path: &str) -> Result<Option<DayIndex>, Failure> {
    let alloc = rt.alloc();
    let file = match fs::open(rt, path) {
        Ok(file) => file,
        Err(error) => return Err(Failure::open(alloc, path, error)),
    };
    let Ok(buffered) = BufReader::new(alloc, file) else {
        return Err(Failure::from(ToolFault::OutOfMemory));
    };
    match DayIndex::read(alloc, buffered) {
        Ok(index) => Ok(index),
        Err(error) => Err(Failure::open(alloc, path, error)),
    }
}

impl<F: Read + Seek> Fitting<F> {
    // Moves to the row where the reading begins, if there is one, or to the beginning of the file. Returns the offset.
    fn move_to<R: AllocGlobal>(
        &mut self,
        rt: &R,
        arguments: &IndexedArguments<'_>,
        row: Option<IndexRow>,
    ) -> Result<u64, Failure> {
        if let Some(row) = row {
            self.compare(rt, arguments, &row)?;
            return Ok(row.cursor.offset);
        }
        match self.file.seek(SeekFrom::Start(0)) {
            Ok(_) => Ok(0),
            Err(error) => Err(Failure::from(read_fault(0, error))),
        }
    }

    // Compares the file's bytes before a row with the fingerprint of the row. The file's position afterwards is the row.
    fn compare<R: AllocGlobal>(
        &mut self,
        rt: &R,
        arguments: &IndexedArguments<'_>,
        row: &IndexRow,
    ) -> Result<(), Failure> {
        let alloc = rt.alloc();
        let found = if self.size < row.cursor.offset {
            None
        } else {
            match fingerprint_before(alloc, &mut self.file, row.cursor.offset) {
                Ok(found) => Some(found),
                Err(error) if error.kind() == ErrorKind::UnexpectedEof => None,
                Err(error) => return Err(Failure::from(read_fault(0, error))),
            }
        };
        match why_unfit(row.fingerprint, found) {
            Some(why) => Err(unfit(alloc, why, arguments)?),
            None => Ok(()),
        }
    }
}

// Returns the failure for an index that is not used, with the details for its message.
fn unfit(
    alloc: Global,
    why: IndexUnfit,
    arguments: &IndexedArguments<'_>,
) -> Result<Failure, AllocError> {
    let (file, index) = (arguments.file, arguments.index);
    let detail = match why {
        IndexUnfit::Invalid => {
            format!(in alloc; "{index}: not an index of `itchsnap index`, or changed since")?
        }
        IndexUnfit::Beyond => {
            format!(in alloc; "{file}: it ends before the last message of {index}")?
        }
        IndexUnfit::OtherDay => {
            format!(in alloc; "{index}: it is of another day file than {file}")?
        }
    };
    Ok(Failure::Index { why, detail })
}
