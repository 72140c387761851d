//! The record of a live server: a day file to which only this process appends, and its session.

use crate::fault::{LiveFault, Owned, RecordFault};
use crate::recording::Recording;
use crate::replay::{Replay, Replaying};
use crate::session_file::{read_session, write_session};
use crate::step::record_fault;
use crate::watch::{FileChange, Seen, change_of};
use itch_codec::Alpha;
use itch_day::DayCursor;
use itch_frame::tally::Failures;
use itch_sessions::SessionFault;
use itch_sessions::log::Log;
use itch_sessions::log::entry::{LogEvent, LogLevel, write_shown};
use itch_sessions::log::form::LogForm;
use itch_sessions::log::lines::Dropped;
use itch_sessions::sessions::PIECE;
use itch_status::Recorded;
use std::fmt::{self, Display, Formatter};
use std::fs::{self, File, OpenOptions, TryLockError};
use std::io::{self, BufWriter, ErrorKind};
use std::rt::{Clock, Files};

/// The interval in milliseconds at which the record is checked and synced.
const WATCH_MS: u64 = 1_000;

/// When the record is synced to disk.
#[derive(Clone, Copy, Debug, PartialEq, Eq)]
pub enum SyncTime {
    /// Whenever the system writes it.
    Never,
    /// Once per second, if something was added.
    EverySecond,
    /// Whenever messages were added, before they are sent to a client.
    EveryMessage,
}

/// Where a live server records its feed.
#[derive(Clone, Copy, Debug, PartialEq, Eq)]
pub enum RecordPlace<'a> {
    /// In this day file, for one session.
    File(&'a str),
    /// In this folder, with a day file for each session.
    Folder(&'a str),
}

impl<'a> RecordPlace<'a> {
    /// Returns the path as given on the command line: the day file or the folder.
    pub fn path(self) -> &'a str {
        match self {
            RecordPlace::File(path) | RecordPlace::Folder(path) => path,
        }
    }
}

/// The options of a live server's record.
#[derive(Clone, Copy, Debug, PartialEq, Eq)]
pub struct RecordOptions<'a> {
    /// The day file to which each message is appended, or the folder of such files.
    pub place: RecordPlace<'a>,
    pub sync: SyncTime,
    /// Whether the server continues without a record that cannot be written.
    pub is_optional: bool,
}

/// A record, or none.
#[derive(Drop)]
pub struct Record {
    pub recording: Recording<File>,
    kept: Option<RecordFile>,
}

// The file of a record.
#[derive(Drop)]
struct RecordFile {
    path: String,
    sync: SyncTime,
    is_optional: bool,
    // The file as it was opened, without an incomplete message at its end.
    opened: Seen,
    // The session of its messages, if it has any, and whether the session file names it.
    session: Option<Alpha<10>>,
    is_named: bool,
    // The number of added bytes that are on disk.
    synced: u64,
    watched_ms: u64,
}

impl Record {
    /// Creates a record that is none.
    pub fn none() -> Record {
        Record {
            recording: Recording::Nowhere(Failures::none()),
            kept: None,
        }
    }

    /// Opens a record for appending, for this process alone. If `named` names a session, the record must belong to it.
    ///
    /// # Errors
    ///
    /// A [`LiveFault`] if the file cannot be opened, another process uses it, or its session is unknown or another one.
    pub fn open<R: Files<File = File> + AllocGlobal>(
        rt: &R,
        words: RecordOptions<'_>,
        path: String,
        named: Option<Alpha<10>>,
    ) -> Result<Record, LiveFault> {
        let file = open_alone(rt, path.as_str())?;
        let opened = seen(&file)?;
        let beside = if opened.length == 0 {
            None
        } else {
            read_session(rt, path.as_str())?
        };
        let session = session_of(opened.length, beside, named)?;
        let Ok(file) = BufWriter::with_capacity(rt.alloc(), PIECE, file) else {
            return Err(LiveFault::Session(SessionFault::OutOfMemory));
        };
        let recording = Recording::File {
            file,
            failures: Failures::none(),
            added: 0,
        };
        let kept = Some(RecordFile {
            path,
            sync: words.sync,
            is_optional: words.is_optional,
            opened,
            session,
            is_named: beside.is_some(),
            synced: 0,
            watched_ms: 0,
        });
        Ok(Record { recording, kept })
    }

    /// Returns a replay of its messages after a cursor, if it has any bytes.
    ///
    /// # Errors
    ///
    /// A [`LiveFault`] if the file cannot be opened or memory is refused.
    pub fn replay<R: Files<File = File> + AllocGlobal>(
        &self,
        rt: &R,
        cursor: DayCursor,
    ) -> Result<Option<Replay>, LiveFault> {
        match &self.kept {
            Some(kept) if kept.opened.length > 0 => {
                let file = open_again(rt, kept.path.as_str())?;
                Ok(Some(Replaying::after(rt.alloc(), file, cursor)?))
            }
            _ => Ok(None),
        }
    }

    /// Drops everything after the complete messages, all of which were replayed. A record that is refused is left as it is.
    ///
    /// # Errors
    ///
    /// A [`LiveFault`] if the file cannot be truncated.
    pub fn cut<R: Eprint>(
        &mut self,
        log: &mut Log<'_, R>,
        whole: DayCursor,
    ) -> Result<(), LiveFault> {
        let Recording::File { file, .. } = &self.recording else {
            return Ok(());
        };
        if let Some(kept) = &mut self.kept
            && whole.offset < kept.opened.length
        {
            cut(file.get_ref(), whole.offset)?;
            log.say(&Dropped {
                bytes: kept.opened.length - whole.offset,
                messages: whole.count,
            });
            kept.opened.length = whole.offset;
        }
        Ok(())
    }

    /// Returns its path, if there is a record.
    pub fn path(&self) -> Option<&str> {
        match &self.kept {
            Some(kept) => Some(kept.path.as_str()),
            None => None,
        }
    }

    /// Returns its length in bytes.
    pub fn length(&self) -> u64 {
        match &self.kept {
            Some(kept) => kept.opened.length.saturating_add(self.recording.added()),
            None => 0,
        }
    }

    /// Returns the session of its messages, if it has any.
    pub fn session(&self) -> Option<Alpha<10>> {
        self.kept.as_ref()?.session
    }

    /// Returns whether the server continues without it if it cannot be written.
    pub fn is_optional(&self) -> bool {
        match &self.kept {
            Some(kept) => kept.is_optional,
            None => true,
        }
    }

    /// Records the session of the messages to come. The session file is written before the record contains a message.
    ///
    /// # Errors
    ///
    /// A [`LiveFault`] if the session file cannot be written.
    pub fn begin<R: Files<File = File> + AllocGlobal>(
        &mut self,
        rt: &R,
        session: Alpha<10>,
    ) -> Result<(), LiveFault> {
        if let Some(kept) = &mut self.kept
            && !kept.is_named
        {
            write_session(rt, kept.path.as_str(), &session)?;
            kept.session = Some(session);
            kept.is_named = true;
        }
        Ok(())
    }

    /// Writes the added bytes to the file, and waits until they are on disk if every message is to be synced.
    ///
    /// # Errors
    ///
    /// The system's error if this fails.
    pub fn flush(&mut self) -> io::Result<()> {
        self.recording.flush()?;
        match &self.kept {
            Some(kept) if matches!(kept.sync, SyncTime::EveryMessage) => self.sync(),
            _ => Ok(()),
        }
    }

    // Waits until the added bytes are on disk.
    fn sync(&mut self) -> io::Result<()> {
        let added = self.recording.added();
        if let Some(kept) = &mut self.kept
            && added > kept.synced
        {
            self.recording.sync()?;
            kept.synced = added;
        }
        Ok(())
    }

    /// Once per second: syncs the added bytes, if requested, and checks whether another process has changed the file.
    ///
    /// # Errors
    ///
    /// A [`RecordLoss`] if the file was changed, or a system call failed.
    pub fn watch<R: Files<File = File>>(&mut self, rt: &R, now_ms: u64) -> Result<(), RecordLoss> {
        let added = self.recording.added();
        let Some(kept) = &mut self.kept else {
            return Ok(());
        };
        if now_ms < kept.watched_ms.saturating_add(WATCH_MS) {
            return Ok(());
        }
        kept.watched_ms = now_ms;
        let written = Seen {
            length: kept.opened.length.saturating_add(added),
            ..kept.opened
        };
        let found = match fs::metadata(rt, kept.path.as_str()) {
            Ok(metadata) => Some(Seen::of(&metadata)),
            Err(error) if matches!(error.kind(), ErrorKind::NotFound) => None,
            Err(error) => return Err(RecordLoss::System(error)),
        };
        if let Some(change) = change_of(written, found) {
            return Err(RecordLoss::Changed(change));
        }
        if matches!(kept.sync, SyncTime::EverySecond)
            && let Err(error) = self.sync()
        {
            return Err(RecordLoss::System(error));
        }
        Ok(())
    }

    /// Writes the added bytes to the file, and waits until they are on disk, unless the record is never synced.
    ///
    /// # Errors
    ///
    /// The system's error if this fails.
    pub fn finish(&mut self) -> io::Result<()> {
        self.recording.flush()?;
        match &self.kept {
            Some(kept) if matches!(kept.sync, SyncTime::Never) => Ok(()),
            _ => self.sync(),
        }
    }

    /// Returns its length in bytes, and how many of the added bytes are not on disk, if there is a record.
    pub fn figures(&self) -> Option<Recorded> {
        let kept = self.kept.as_ref()?;
        let added = self.recording.added();
        Some(Recorded {
            length: self.length(),
            unsynced: added.saturating_sub(kept.synced),
        })
    }

    /// Gives up the record.
    pub fn give_up(&mut self) {
        *self = Record::none();
    }
}

/// The reason why a record cannot be written any more.
#[derive(Debug, Drop)]
pub enum RecordLoss {
    /// Another process changed its file.
    Changed(FileChange),
    /// A system call failed.
    System(io::Error),
}

impl RecordLoss {
    /// Returns the fault of a server that needs its record, if the feed's next message has this number.
    pub fn fault(self, next: Option<u64>) -> LiveFault {
        match self {
            RecordLoss::Changed(change) => LiveFault::Record(RecordFault::Changed(change)),
            RecordLoss::System(error) => {
                LiveFault::Session(record_fault(SessionFault::Write(error), next))
            }
        }
    }
}

impl Display for RecordLoss {
    fn fmt<W: fmt::Write>(&self, f: &mut Formatter<W>) -> fmt::Result {
        match self {
            RecordLoss::Changed(change) => write!(f, "record: given up: {change}"),
            RecordLoss::System(error) => write!(f, "record: given up: {error}"),
        }
    }
}

impl LogEvent for RecordLoss {
    fn level(&self) -> LogLevel {
        LogLevel::Error
    }

    fn name(&self) -> &'static str {
        "record_given_up"
    }

    fn write_fields<W: fmt::Write>(&self, f: &mut Formatter<W>, form: LogForm) -> fmt::Result {
        match self {
            RecordLoss::Changed(change) => write_shown(f, form, "why", change),
            RecordLoss::System(error) => write_shown(f, form, "why", error),
        }
    }
}

// Returns the session of a record of `length` bytes, from the session file or the command line. If both name one, they must agree. A record
// without messages does not belong to a session.
fn session_of(
    length: u64,
    beside: Option<Alpha<10>>,
    named: Option<Alpha<10>>,
) -> Result<Option<Alpha<10>>, LiveFault> {
    if length == 0 {
        return Ok(None);
    }
    match (beside, named) {
        (None, None) => Err(LiveFault::Record(RecordFault::UnknownSession)),
        (Some(session), None) | (None, Some(session)) => Ok(Some(session)),
        (Some(session), Some(named)) => {
            if session.text().trim() == named.text().trim() {
                return Ok(Some(session));
            }
            Err(LiveFault::Record(RecordFault::NotOf { session, named }))
        }
    }
}

// Opens a file for appending. No other process may open it in this way.
fn open_alone<R: Files<File = File>>(rt: &R, path: &str) -> Result<File, LiveFault> {
    let mut how = OpenOptions::new();
    how.append(true).create(true);
    let file = match how.open(rt, path) {
        Ok(file) => file,
        Err(error) => return Err(open_fault(error)),
    };
    match file.try_lock() {
        Ok(()) => Ok(file),
        Err(TryLockError::WouldBlock) => Err(LiveFault::InUse(Owned::Record)),
        Err(TryLockError::Error(error)) => Err(open_fault(error)),
    }
}

// Opens the file for reading.
fn open_again<R: Files<File = File>>(rt: &R, path: &str) -> Result<File, LiveFault> {
    match fs::open(rt, path) {
        Ok(file) => Ok(file),
        Err(error) => Err(open_fault(error)),
    }
}

fn seen(file: &File) -> Result<Seen, LiveFault> {
    match file.metadata() {
        Ok(metadata) => Ok(Seen::of(&metadata)),
        Err(error) => Err(open_fault(error)),
    }
}

fn cut(file: &File, length: u64) -> Result<(), LiveFault> {
    match file.set_len(length) {
        Ok(()) => Ok(()),
        Err(error) => Err(open_fault(error)),
    }
}

// Returns the fault of a record that cannot be opened.
fn open_fault(error: io::Error) -> LiveFault {
    LiveFault::Session(SessionFault::of_system(error, SessionFault::Open(error)))
}
