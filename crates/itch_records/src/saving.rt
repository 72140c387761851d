//! Snapshots of the current market in files of a folder.
ghost use Rattle.std.specs.Prelude.{◌≡◌, ◌<◌, ◌^◌, ◌++◌, length, IfOk, OnOk};
ghost use Rattle.std.specs.Io.KnownBytes.{Appends};
ghost use Rattle.itch_snapshot.specs.Bytes.{canon, closing};
ghost use Rattle.itch_snapshot.specs.Snapshot.{snap};
ghost use Rattle.itch_records.specs.Recordings.{IsFlushed, IsSame};
ghost use Rattle.itch_records.specs.Savings.{is_wanted};

use crate::fault::{LiveFault, Owned};
use crate::recording::Recording;
use crate::snapshot_folder::{KeptLines, clean, keep_lines, list, remove, snapshot_path};
use itch_book::OrderBook;
use itch_checkpoints::fingerprint_before;
use itch_codec::{GREATEST_SEQ, Seq};
use itch_day::DayCursor;
use itch_market::Market;
use itch_sessions::SessionFault;
use itch_sessions::log::Log;
use itch_sessions::log::entry::{LogEvent, LogLevel, write_number, write_shown, write_text};
use itch_sessions::log::form::LogForm;
use itch_sessions::sessions::{PIECE, Sending, write_closed};
use itch_snapshot::snapshot_len;
use std::alloc::Global;
use std::fmt::{self, Display, Formatter};
use std::fs::{self, File, TryLockError};
use std::io::{self, BufWriter, ErrorKind, Write};
use std::rt::Files;

/// The interval in milliseconds at which missed snapshots are reported.
const REPORT_MS: u64 = 60_000;

/// The options for saving snapshots: the folder, after how many messages each one is written, and how many are kept, if not all are.
#[derive(Clone, Copy, Debug, PartialEq, Eq)]
pub struct SnapshotOptions<'a> {
    pub folder: &'a str,
    pub every: u64,
    pub keep: Option<u64>,
}

/// The part of a record that a snapshot covers: the messages before this offset, with this latest timestamp.
#[derive(Clone, Copy)]
pub struct RecordPart<'a> {
    pub path: &'a str,
    pub offset: u64,
    pub latest: Option<u64>,
}

/// A folder to which snapshots are written, by this process alone.
#[derive(Drop)]
pub struct Saver {
    folder: String,
    every: u64,
    keep: Option<u64>,
    // The open folder, which is locked.
    _lock: File,
    // The number of messages of each snapshot in the folder, the oldest one first.
    files: Vec<u64>,
    // The number of messages of the last snapshot, if one was written.
    saved: Option<u64>,
    // The number of snapshots that were not written, in total and since the last report, and the time of that report.
    all_missed: u64,
    missed: u64,
    reported_ms: Option<u64>,
}

// The line about snapshots that were not written: how many, and why the last one was not.
#[derive(Drop)]
struct Missed<'a> {
    count: u64,
    folder: &'a str,
    messages: u64,
    fault: &'a SessionFault,
}

// The line about an old snapshot that cannot be removed.
#[derive(Drop)]
struct Unremoved<'a> {
    folder: &'a str,
    error: io::Error,
}

impl Display for Unremoved<'_> {
    fn fmt<W: fmt::Write>(&self, f: &mut Formatter<W>) -> fmt::Result {
        let Unremoved { folder, error } = self;
        write!(
            f,
            "snapshots: cannot remove an old one in {folder}: {error}"
        )
    }
}

impl LogEvent for Unremoved<'_> {
    fn level(&self) -> LogLevel {
        LogLevel::Warn
    }

    fn name(&self) -> &'static str {
        "snapshot_not_removed"
    }

    fn write_fields<W: fmt::Write>(&self, f: &mut Formatter<W>, form: LogForm) -> fmt::Result {
        write_text(f, form, "folder", self.folder)?;
        write_shown(f, form, "why", &self.error)
    }
}

impl Display for Missed<'_> {
    fn fmt<W: fmt::Write>(&self, f: &mut Formatter<W>) -> fmt::Result {
        let Missed {
            count,
            folder,
            messages,
            fault,
        } = self;
        write!(
            f,
            "snapshots: {count} not written, the last one {folder}/{messages}.snap: "
        )?;
        match fault {
            SessionFault::Folder(error) | SessionFault::Write(error) => write!(f, "{error}"),
            SessionFault::OutOfMemory => f.write_str("out of memory"),
            _ => f.write_str("too many messages"),
        }
    }
}

impl LogEvent for Missed<'_> {
    fn level(&self) -> LogLevel {
        LogLevel::Warn
    }

    fn name(&self) -> &'static str {
        "snapshots_missed"
    }

    fn write_fields<W: fmt::Write>(&self, f: &mut Formatter<W>, form: LogForm) -> fmt::Result {
        write_number(f, form, "count", self.count)?;
        write_text(f, form, "folder", self.folder)?;
        write_number(f, form, "messages", self.messages)?;
        match self.fault {
            SessionFault::Folder(error) | SessionFault::Write(error) => {
                write_shown(f, form, "why", error)
            }
            SessionFault::OutOfMemory => write_text(f, form, "why", "out of memory"),
            _ => write_text(f, form, "why", "too many messages"),
        }
    }
}

impl Saver {
    /// Opens and locks the folder, and removes incomplete files.
    ///
    /// # Errors
    ///
    /// A [`LiveFault`] if the folder cannot be opened or read, or another process uses it.
    pub fn open<R: Files<File = File> + AllocGlobal>(
        rt: &R,
        words: SnapshotOptions<'_>,
        folder: String,
    ) -> Result<Saver, LiveFault> {
        let open = match open_folder(rt, folder.as_str()) {
            Ok(open) => open,
            Err(error) => return Err(LiveFault::Session(folder_fault(error))),
        };
        match open.try_lock() {
            Ok(()) => {}
            Err(TryLockError::WouldBlock) => return Err(LiveFault::InUse(Owned::Snapshots)),
            Err(TryLockError::Error(error)) => return Err(LiveFault::Session(folder_fault(error))),
        }
        let files = match clean(rt, folder.as_str()) {
            Ok(files) => files,
            Err(error) => return Err(LiveFault::Session(folder_fault(error))),
        };
        Ok(Saver {
            folder,
            every: words.every,
            keep: words.keep,
            _lock: open,
            files,
            saved: None,
            all_missed: 0,
            missed: 0,
            reported_ms: None,
        })
    }

    /// Removes the snapshots with more messages than this from the index.
    ///
    /// # Errors
    ///
    /// A [`LiveFault`] if the index cannot be read or written.
    pub fn forget_after<R: Files<File = File> + AllocGlobal>(
        &self,
        rt: &R,
        messages: u64,
    ) -> Result<(), LiveFault> {
        match keep_lines(rt, self.folder.as_str(), KeptLines::UpTo(messages)) {
            Ok(()) => Ok(()),
            Err(error) => Err(LiveFault::Session(folder_fault(error))),
        }
    }

    /// Returns the number of messages after which each snapshot is written.
    pub fn every(&self) -> u64 {
        self.every
    }

    /// Returns the number of messages of the last snapshot, if one was written, and how many were not written.
    pub fn figures(&self) -> (Option<u64>, u64) {
        (self.saved, self.all_missed)
    }

    /// Returns whether a snapshot of the market before this number is due.
    pub fn wants(&self, next: u64) -> bool {
        is_wanted(self.every, next)
    }

    /// Writes the snapshot of the market before this number, and lists it as the snapshot of a part of the record, if there is one. A
    /// snapshot that cannot be written is only reported.
    ///
    /// # Errors
    ///
    /// The system's error if the record cannot be flushed. It must contain each message of the snapshot.
    pub fn save<R, F, B>(
        &mut self,
        log: &mut Log<'_, R>,
        market: &Market<B>,
        next: u64,
        now_ms: u64,
        recording: &mut Recording<F>,
        part: Option<RecordPart<'_>>,
    ) -> io::Result<()>
    where
        R: Files<File = File> + Eprint + AllocGlobal,
        F: Write + Drop,
        B: OrderBook,
        ensures { IsSame F.contents recording.old recording.new }
    {
        let rt = log.runtime();
        let written = match save(rt, self.folder.as_str(), market, next, recording) {
            Ok(()) => self.enter(rt, next.saturating_sub(1), part),
            Err(Unsaved::Record(error)) => return Err(error),
            Err(Unsaved::Snapshot(fault)) => Err(fault),
        };
        match written {
            Ok(()) => {
                self.saved = Some(next.saturating_sub(1));
                if let Err(error) = self.remove_oldest(rt) {
                    log.say(&Unremoved {
                        folder: self.folder.as_str(),
                        error,
                    });
                }
            }
            Err(fault) => self.miss(log, &fault, next, now_ms),
        }
        Ok(())
    }

    // Lists the snapshot of this number of messages.
    fn enter<R: Files<File = File> + AllocGlobal>(
        &mut self,
        rt: &R,
        messages: u64,
        part: Option<RecordPart<'_>>,
    ) -> Result<(), SessionFault> {
        let entered = match part {
            Some(part) => list_part(rt, self.folder.as_str(), messages, part),
            None => Ok(()),
        };
        if let Err(error) = entered {
            // A snapshot that is not in the index would be useless.
            let _ = remove(rt, self.folder.as_str(), messages);
            return Err(folder_fault(error));
        }
        self.files.retain(|count| *count != messages);
        if self.files.push(messages).is_err() {
            return Err(SessionFault::OutOfMemory);
        }
        Ok(())
    }

    // Removes the oldest snapshots until only the requested number is left. If one cannot be removed, it is tried again after the next snapshot.
    fn remove_oldest<R: Files<File = File> + AllocGlobal>(&mut self, rt: &R) -> io::Result<()> {
        let Some(keep) = self.keep else {
            return Ok(());
        };
        let keep = usize::try_from(keep).unwrap_or(usize::MAX);
        for _ in keep..self.files.len() {
            let Some(&oldest) = self.files.first() else {
                break;
            };
            keep_lines(rt, self.folder.as_str(), KeptLines::AllBut(oldest))?;
            remove(rt, self.folder.as_str(), oldest)?;
            let _ = self.files.remove(0);
        }
        Ok(())
    }

    // Counts a snapshot that was not written, and reports it if a report is due.
    fn miss<R: Eprint>(
        &mut self,
        log: &mut Log<'_, R>,
        fault: &SessionFault,
        next: u64,
        now_ms: u64,
    ) {
        self.all_missed = self.all_missed.saturating_add(1);
        self.missed = self.missed.saturating_add(1);
        let is_due = match self.reported_ms {
            Some(reported_ms) => now_ms.saturating_sub(reported_ms) >= REPORT_MS,
            None => true,
        };
        if is_due {
            log.say(&Missed {
                count: self.missed,
                folder: self.folder.as_str(),
                messages: next.saturating_sub(1),
                fault,
            });
            self.missed = 0;
            self.reported_ms = Some(now_ms);
        }
    }
}

/// Returns whether a snapshot of the market before this number is due: one is due after every `every` messages.
pub fn is_wanted(every: u64, next: u64) -> bool
    ensures { result ≡ is_wanted every next }
{
    let messages = next.saturating_sub(1);
    messages > 0 && every > 0 && messages % every == 0
}

// Lists the snapshot of the part of a record with this number of messages.
fn list_part<R: Files<File = File> + AllocGlobal>(
    rt: &R,
    folder: &str,
    messages: u64,
    part: RecordPart<'_>,
) -> io::Result<()> {
    let mut record = fs::open(rt, part.path)?;
    let fingerprint = fingerprint_before(rt.alloc(), &mut record, part.offset)?;
    let cursor = DayCursor {
        count: messages,
        offset: part.offset,
        latest: part.latest,
    };
    list(rt, folder, cursor, fingerprint)
}

// Opens a folder. A file is not a folder.
fn open_folder<R: Files<File = File>>(rt: &R, path: &str) -> io::Result<File> {
    if !fs::metadata(rt, path)?.is_dir() {
        return Err(io::Error::from(ErrorKind::NotADirectory));
    }
    fs::open(rt, path)
}

// The reason why a snapshot is not written.
#[derive(Debug, Drop)]
enum Unsaved {
    // The record could not be flushed.
    Record(io::Error),
    // The snapshot itself could not be written.
    Snapshot(SessionFault),
}

impl From<SessionFault> for Unsaved {
    fn from(fault: SessionFault) -> Unsaved {
        Unsaved::Snapshot(fault)
    }
}

// Writes the snapshot of the market before this number. The record is flushed first, so that it contains each message of the snapshot.
fn save<R: Files<File = File> + AllocGlobal, F: Write + Drop, B: OrderBook>(
    rt: &R,
    folder: &str,
    market: &Market<B>,
    next: u64,
    recording: &mut Recording<F>,
) -> Result<(), Unsaved>
    ensures flushed { OnOk result (IsFlushed recording.new) }
    ensures same { IsSame F.contents recording.old recording.new }
{
    if let Err(error) = recording.flush() {
        return Err(Unsaved::Record(error));
    }
    write_snapshot(rt, folder, market, next, recording)?;
    Ok(())
}

// Writes the snapshot of the market before this number, in canonical form, to a temporary file, which is renamed when it is on disk. So a
// file with the final name is complete. By then nothing of the record may be held back.
fn write_snapshot<R: Files<File = File> + AllocGlobal, F: Write + Drop, B: OrderBook>(
    rt: &R,
    folder: &str,
    market: &Market<B>,
    next: u64,
    recording: &Recording<F>,
) -> Result<(), SessionFault>
    requires { IsFlushed recording.now }
{
    let _recording = recording;
    let messages = next.saturating_sub(1);
    let Some(next) = Seq::new(next) else {
        return Err(SessionFault::TooMany);
    };
    if snapshot_len(market) >= u128::from(GREATEST_SEQ) {
        return Err(SessionFault::TooMany);
    }
    let path = snapshot_path(rt.alloc(), folder, messages)?;
    let beside = format!(in rt.alloc(); "{path}.part")?;
    let written = match write_file(rt, beside.as_str(), market, next) {
        Ok(()) => fs::rename(rt, beside.as_str(), path.as_str()).map_err(folder_fault),
        Err(fault) => Err(fault),
    };
    if written.is_err() {
        // The record needs the space of the incomplete file.
        let _ = fs::remove_file(rt, beside.as_str());
    }
    written
}

// Writes the snapshot of a market to a new file, and waits until it is on disk.
fn write_file<R: Files<File = File> + AllocGlobal, B: OrderBook>(
    rt: &R,
    path: &str,
    market: &Market<B>,
    next: Seq,
) -> Result<(), SessionFault>
    requires { length (snap market.now) < 10 ^ 19 }
{
    let file = match fs::create(rt, path) {
        Ok(file) => file,
        Err(error) => return Err(folder_fault(error)),
    };
    let written = write_whole(rt.alloc(), file, market, next)?;
    match written.sync_all() {
        Ok(()) => Ok(()),
        Err(error) => Err(folder_fault(error)),
    }
}

// Writes the snapshot of a market to a file, and returns the file, which then holds each byte of it.
#[tactic(auto, using(crate::proofs::Written::written))]
fn write_whole<F: Write + Drop, B: OrderBook>(
    alloc: Global,
    file: F,
    market: &Market<B>,
    next: Seq,
) -> Result<F, SessionFault>
    requires { length (snap market.now) < 10 ^ 19 }
    ensures { IfOk result (λ written. Appends (F.contents file) (F.contents written) (canon market.now ++ closing next)) }
{
    let Ok(buffered) = BufWriter::with_capacity(alloc, PIECE, file) else {
        return Err(SessionFault::OutOfMemory);
    };
    let mut out = Sending::new(buffered);
    match write_closed(market, next, &mut out) {
        Ok(_) => {}
        Err(SessionFault::Write(error)) => return Err(folder_fault(error)),
        Err(fault) => return Err(fault),
    }
    match out.into_inner().into_inner() {
        Ok(written) => Ok(written),
        Err(failed) => Err(folder_fault(failed.into_error())),
    }
}

// Returns the fault of a file in the folder that cannot be written.
fn folder_fault(error: io::Error) -> SessionFault {
    SessionFault::of_system(error, SessionFault::Folder(error))
}
