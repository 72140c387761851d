//! Writes snapshots of several points of a day file to the files of a folder.
ghost use Rattle.itch_day.specs.Passing.{left_by};
ghost use Rattle.itch_commands.specs.Points.{IsRead};

use crate::beginning::Beginning;
use crate::failure::Failure;
use crate::locate_list::read_only;
use crate::noted::{Noted, Notes};
use crate::opened::{open, read_fault};
use crate::output::{Output, in_use};
use crate::run::blocks;
use itch_checkpoints::index_line;
use itch_commands::snap::{Followed, PointReader, PointSaver, save_points};
use itch_commands::{Book, Selection, Source, ToolFault, stock_locates, write_locates};
use itch_frame::{BlockReader, Counted, CountedRead};
use itch_market::LocateSet;
use itch_sessions::sessions::PIECE;
use itchsnap_cli::command_line::PointArguments;
use itchsnap_cli::input::ProgressLine;
use std::alloc::{Allocator, Global};
use std::fs::{self, File, TryLockError};
use std::io::{BufWriter, ErrorKind, Write};
use std::rt::{Clock, Files};

/// Writes the snapshot of each point into the folder, and its line into the index there. Files that were written before a fault are kept.
pub fn run_points<R: Files<File = File> + Input + Eprint + AllocGlobal + Clock>(
    rt: &R,
    arguments: &PointArguments<'_>,
    beginning: &Beginning,
) -> Result<bool, Failure> {
    let alloc = rt.alloc();
    let kept = KeptLocates::of(rt, arguments.selection)?;
    let progress = if arguments.progress {
        ProgressLine::begin(rt)
    } else {
        None
    };
    let file = open(
        rt,
        arguments.file,
        Source::Only,
        progress.as_ref(),
        beginning,
    )?;
    let notes = Notes::new(alloc)?;
    let reader = blocks(alloc, Noted::new(file, &notes))?;
    save_into(rt, arguments, &kept, &notes, reader)
}

fn save_into<R: Files<File = File> + AllocGlobal, S: CountedRead + Drop, A: Allocator>(
    rt: &R,
    arguments: &PointArguments<'_>,
    kept: &KeptLocates<'_>,
    notes: &Notes,
    reader: BlockReader<S, A>,
) -> Result<bool, Failure> {
    let mut folder = Folder::create(rt, arguments.folder, kept, notes)?;
    save_points::<_, _, Book<Global>, _>(
        rt.alloc(),
        reader,
        kept.followed(),
        &arguments.points,
        &mut folder,
    )
}

// The locates that the snapshots keep.
#[derive(Drop)]
enum KeptLocates<'a> {
    All,
    // Those of a set, and their list.
    Listed {
        set: LocateSet<Global>,
        list: String,
    },
    // Those that have one of these stocks at the point.
    OfStocks(&'a str),
}

impl<'a> KeptLocates<'a> {
    fn of<R: Files + AllocGlobal>(
        rt: &R,
        selection: Selection<'a>,
    ) -> Result<KeptLocates<'a>, Failure> {
        Ok(match selection {
            Selection::All => KeptLocates::All,
            Selection::Locates(list) => {
                let set = read_only(rt, list)?;
                let list = write_locates(rt.alloc(), &set)?;
                KeptLocates::Listed { set, list }
            }
            Selection::Stocks(names) => KeptLocates::OfStocks(names),
        })
    }

    fn followed(&self) -> Followed<'_, Global> {
        match self {
            KeptLocates::All => Followed::Nothing,
            KeptLocates::Listed { set, .. } => Followed::Locates(set),
            KeptLocates::OfStocks(names) => Followed::Stocks(names),
        }
    }
}

// A folder of snapshots, which no other process uses.
#[derive(Drop)]
struct Folder<'a, R: Files> {
    rt: &'a R,
    path: &'a str,
    _lock: File,
    index: R::File,
    kept: &'a KeptLocates<'a>,
    notes: &'a Notes,
    // The number of messages in the last snapshot.
    last: Option<u64>,
}

impl<'a, R: Files<File = File> + AllocGlobal> Folder<'a, R> {
    // Opens the folder at a path, with a new index. Creates the folder if it is missing.
    fn create(
        rt: &'a R,
        path: &'a str,
        kept: &'a KeptLocates<'a>,
        notes: &'a Notes,
    ) -> Result<Folder<'a, R>, Failure> {
        let index = format!(in rt.alloc(); "{path}/index.jsonl")?;
        match fs::create_dir(rt, path) {
            Err(error) if !matches!(error.kind(), ErrorKind::AlreadyExists) => {
                return Err(Failure::open(rt.alloc(), path, error));
            }
            _ => {}
        }
        let lock = lock_folder(rt, path)?;
        match fs::create(rt, index.as_str()) {
            Ok(file) => Ok(Folder {
                rt,
                path,
                _lock: lock,
                index: file,
                kept,
                notes,
                last: None,
            }),
            Err(error) => Err(Failure::open(rt.alloc(), path, error)),
        }
    }

    // Writes the snapshot of these locates, or of all, and its line in the index, with the list of the locates.
    fn save_locates<S: CountedRead, A: Allocator>(
        &mut self,
        pass: &PointReader<'_, S, A, Book<Global>>,
        only: Option<&LocateSet<Global>>,
        list: Option<&str>,
    ) -> Result<(), Failure>
        requires { IsRead S.remaining S.failures pass.now.limit.value pass.now.first.value (left_by pass.now.stop.value pass.now.reader)
            pass.now.tracked.sink pass.now.tracked.cursor }
    {
        let cursor = pass.cursor();
        let fingerprint = match self.notes.fingerprint(cursor.offset) {
            Ok(fingerprint) => fingerprint,
            Err(error) => return Err(Failure::from(read_fault(cursor.count, error))),
        };
        let (alloc, folder, count) = (self.rt.alloc(), self.path, cursor.count);
        let path = format!(in alloc; "{folder}/{count}.snap")?;
        let (output, file) = Output::create(self.rt, path.as_str())?;
        output.finish(self.rt, write_file(alloc, pass, only, file))?;
        self.last = Some(count);
        let line = index_line(alloc, cursor, fingerprint, list)?;
        match self.index.write_all(&line) {
            Ok(()) => Ok(()),
            Err(error) => Err(Failure::from(ToolFault::Write(error))),
        }
    }
}

// Each snapshot becomes a file of the folder, with a line in its index. No clause can say what the system makes of them.
impl<'a, R: Files<File = File> + AllocGlobal, S: CountedRead, A: Allocator> PointSaver<
    S,
    A,
    Book<Global>,
> for Folder<'a, R> {
    type Fault = Failure;

    ghost saves = { λ _ _ _ _ _ _ _. Unit {0} };

    // Writes the snapshot of the messages that were read, unless the last one has the same number of messages.
    fn save(&mut self, pass: &PointReader<'_, S, A, Book<Global>>) -> Result<(), Failure> {
        if self.last == Some(pass.cursor().count) {
            return Ok(());
        }
        match self.kept {
            KeptLocates::All => self.save_locates(pass, None, None),
            KeptLocates::Listed { set, list } => {
                self.save_locates(pass, Some(set), Some(list.as_str()))
            }
            KeptLocates::OfStocks(names) => {
                let alloc = self.rt.alloc();
                let set = stock_locates(alloc, pass.market(), names)?;
                let list = write_locates(alloc, &set)?;
                self.save_locates(pass, Some(&set), Some(list.as_str()))
            }
        }
    }
}

// Opens a folder and locks it, as `live --to` does, whose index would be lost. A file system without locks has none.
fn lock_folder<R: Files<File = File> + AllocGlobal>(rt: &R, path: &str) -> Result<File, Failure> {
    let folder = match fs::open(rt, path) {
        Ok(folder) => folder,
        Err(error) => return Err(Failure::open(rt.alloc(), path, error)),
    };
    match folder.try_lock() {
        Err(TryLockError::WouldBlock) => Err(Failure::open(rt.alloc(), path, in_use())),
        _ => Ok(folder),
    }
}

fn write_file<S: CountedRead, A: Allocator, W: Write + Drop>(
    alloc: Global,
    pass: &PointReader<'_, S, A, Book<Global>>,
    only: Option<&LocateSet<Global>>,
    file: W,
) -> Result<bool, Failure>
    requires { IsRead S.remaining S.failures pass.now.limit.value pass.now.first.value (left_by pass.now.stop.value pass.now.reader)
        pass.now.tracked.sink pass.now.tracked.cursor }
{
    let Ok(buffered) = BufWriter::with_capacity(alloc, PIECE, file) else {
        return Err(Failure::from(ToolFault::OutOfMemory));
    };
    let mut out = Counted::new(buffered);
    let answer = pass.write(only, &mut out)?;
    match out.into_inner().flush() {
        Ok(()) => Ok(answer),
        Err(error) => Err(Failure::from(ToolFault::Write(error))),
    }
}
