//! Where a live server begins: before the first message, or with the newest snapshot in its folder that fits the record.
ghost use Rattle.std.specs.Prelude.{◌≡◌, None, Some, Ok};
ghost use Rattle.itch_join.specs.States.{new};
ghost use Rattle.itch_market.specs.Content.{empty};

use crate::fault::LiveFault;
use crate::snapshot_folder::snapshot_path;
use itch_book::OrderBook;
use itch_checkpoints::{Checkpoint, Unfit, fingerprint_before, nearest, why_unfit};
use itch_codec::{Encoder, Message, Seq};
use itch_day::{DayCursor, Limit};
use itch_frame::{BlockReader, Buffered};
use itch_join::Joiner;
use itch_sessions::SessionFault;
use itch_sessions::log::Log;
use itch_sessions::log::entry::{LogEvent, LogLevel, write_number, write_shown, write_text};
use itch_sessions::log::form::LogForm;
use itch_sessions::sessions::PIECE;
use itch_snapshot::SnapFault;
use std::alloc::Global;
use std::fmt::{self, Display, Formatter};
use std::fs::{self, File};
use std::io::{self, BufReader, ErrorKind};
use std::rt::Files;

/// The number of unsuitable snapshots that are skipped. After that, the complete record is replayed.
const MOST_UNFIT: usize = 16;

/// Gives a joiner the market before the first message. A new joiner takes it, without memory.
///
/// # Errors
///
/// [`SessionFault::OutOfMemory`] if the joiner is not new.
pub fn at_the_first<B: OrderBook>(joiner: &mut Joiner<B>) -> Result<(), SessionFault>
    ensures first { joiner.old.state ≡ new → (result ≡ Ok tt) × (joiner.new.state.joined ≡ Some (record { next = 1; market = empty })) × (joiner.new.state.halt ≡ None) }
    ensures cap { joiner.new.cap ≡ joiner.old.cap }
    ensures set { joiner.new.set ≡ joiner.old.set }
{
    let Some(next) = Seq::new(1) else {
        unreachable!()
    };
    let end = Message::End { next };
    let mut encoder = Encoder::new();
    let payload = encoder.encode(&end);
    match joiner.snapshot(payload) {
        Ok(_) => Ok(()),
        Err(_) => Err(SessionFault::OutOfMemory),
    }
}

/// A record to be replayed: its path, and its length in bytes.
#[derive(Clone, Copy)]
pub struct Replayed<'a> {
    pub path: &'a str,
    pub length: u64,
}

/// Returns a joiner with the market of the newest snapshot in a folder that fits the record, and the cursor of its messages. A snapshot that
/// does not fit is reported, and an older one is tried.
///
/// # Errors
///
/// A [`LiveFault`] if memory is refused.
pub fn newest<R: Files<File = File> + Eprint + AllocGlobal, B: OrderBook<Alloc = Global>>(
    log: &mut Log<'_, R>,
    folder: &str,
    record: Replayed<'_>,
) -> Result<Option<(Joiner<B>, DayCursor)>, LiveFault> {
    let mut most = u64::MAX;
    for _ in 0..MOST_UNFIT {
        let rt = log.runtime();
        let Some(checkpoint) = listed(rt, folder, Limit::counted(Some(most))) else {
            break;
        };
        let messages = checkpoint.count;
        match joined_at(rt, folder, record, &checkpoint) {
            Ok(joined) => {
                log.say(&Resumed { folder, messages });
                return Ok(Some(joined));
            }
            Err(Unusable::OutOfMemory) => return Err(LiveFault::Session(SessionFault::OutOfMemory)),
            Err(why) => log.say(&Skipped {
                folder,
                messages,
                why,
            }),
        }
        most = messages.saturating_sub(1);
    }
    Ok(None)
}

// Returns the newest snapshot in the index of a folder, among those within this limit. An index that cannot be read counts as empty.
fn listed<R: Files<File = File> + AllocGlobal>(
    rt: &R,
    folder: &str,
    most: Limit,
) -> Option<Checkpoint> {
    let alloc = rt.alloc();
    let path = format!(in alloc; "{folder}/index.jsonl").ok()?;
    let index = fs::open(rt, path.as_str()).ok()?;
    let buffered = BufReader::new(alloc, index).ok()?;
    let checkpoint = nearest(alloc, buffered, most).ok()?;
    if checkpoint.count == 0 {
        return None;
    }
    Some(checkpoint)
}

// The reason why a snapshot is not used.
#[derive(Debug, Drop)]
enum Unusable {
    // It does not fit the record.
    Unfit(Unfit),
    // Its line does not describe the messages before it completely.
    Unknown,
    // Its file, or the record, cannot be read.
    Unread(io::Error),
    // Its file is not a snapshot.
    Broken(SnapFault),
    // Its End of Snapshot has another number.
    OtherNumber(u64),
    OutOfMemory,
}

impl From<io::Error> for Unusable {
    fn from(error: io::Error) -> Unusable {
        match error.kind() {
            ErrorKind::OutOfMemory => Unusable::OutOfMemory,
            _ => Unusable::Unread(error),
        }
    }
}

impl Display for Unusable {
    fn fmt<W: fmt::Write>(&self, f: &mut Formatter<W>) -> fmt::Result {
        match self {
            Unusable::Unfit(Unfit::Partial) => f.write_str("of some locates only"),
            Unusable::Unfit(Unfit::Beyond) => f.write_str("beyond the end of the record"),
            Unusable::Unfit(Unfit::OtherDay) => f.write_str("of another day than the record"),
            Unusable::Unknown => f.write_str("without a fingerprint or a timestamp in the index"),
            Unusable::Unread(error) => write!(f, "{error}"),
            Unusable::Broken(fault) => write!(f, "{fault}"),
            Unusable::OtherNumber(next) => write!(f, "its End of Snapshot has number {next}"),
            Unusable::OutOfMemory => f.write_str("out of memory"),
        }
    }
}

// Returns a joiner with the market of a snapshot that fits the record, and its cursor.
fn joined_at<R: Files<File = File> + AllocGlobal, B: OrderBook<Alloc = Global>>(
    rt: &R,
    folder: &str,
    record: Replayed<'_>,
    checkpoint: &Checkpoint,
) -> Result<(Joiner<B>, DayCursor), Unusable> {
    if checkpoint.only.is_some() {
        return Err(Unusable::Unfit(Unfit::Partial));
    }
    let until = Limit {
        after: None,
        until: Some(u64::MAX),
    };
    let Some(cursor) = checkpoint.cursor(until) else {
        return Err(Unusable::Unknown);
    };
    if checkpoint.fingerprint.is_none() {
        return Err(Unusable::Unknown);
    }
    let found = if cursor.offset <= record.length {
        let mut file = fs::open(rt, record.path)?;
        Some(fingerprint_before(rt.alloc(), &mut file, cursor.offset)?)
    } else {
        None
    };
    if let Some(why) = why_unfit(checkpoint.fingerprint, found) {
        return Err(Unusable::Unfit(why));
    }
    Ok((joined(rt, folder, cursor.count)?, cursor))
}

// Returns a joiner with the market of the snapshot of `messages` messages.
fn joined<R: Files<File = File> + AllocGlobal, B: OrderBook<Alloc = Global>>(
    rt: &R,
    folder: &str,
    messages: u64,
) -> Result<Joiner<B>, Unusable> {
    let alloc = rt.alloc();
    let Ok(path) = snapshot_path(alloc, folder, messages) else {
        return Err(Unusable::OutOfMemory);
    };
    let file = fs::open(rt, path.as_str())?;
    let Ok(buffered) = BufReader::with_capacity(alloc, PIECE, file) else {
        return Err(Unusable::OutOfMemory);
    };
    let Ok(mut blocks) = BlockReader::new(alloc, Buffered::new(buffered)) else {
        return Err(Unusable::OutOfMemory);
    };
    let mut joiner: Joiner<B> = Joiner::new(alloc, 0);
    if let Err(fault) = joiner.read_snapshot(&mut blocks) {
        return Err(Unusable::Broken(fault));
    }
    match joiner.next() {
        Some(next) if next == messages.saturating_add(1) => Ok(joiner),
        next => Err(Unusable::OtherNumber(next.unwrap_or(0))),
    }
}

// The line for a snapshot from which the server continues.
#[derive(Drop)]
struct Resumed<'a> {
    folder: &'a str,
    messages: u64,
}

impl Display for Resumed<'_> {
    fn fmt<W: fmt::Write>(&self, f: &mut Formatter<W>) -> fmt::Result {
        let Resumed { folder, messages } = self;
        write!(f, "record: replayed from {folder}/{messages}.snap on")
    }
}

impl LogEvent for Resumed<'_> {
    fn level(&self) -> LogLevel {
        LogLevel::Info
    }

    fn name(&self) -> &'static str {
        "resumed"
    }

    fn write_fields<W: fmt::Write>(&self, f: &mut Formatter<W>, form: LogForm) -> fmt::Result {
        write_text(f, form, "folder", self.folder)?;
        write_number(f, form, "messages", self.messages)
    }
}

// The line for a snapshot that is not used.
#[derive(Drop)]
struct Skipped<'a> {
    folder: &'a str,
    messages: u64,
    why: Unusable,
}

impl Display for Skipped<'_> {
    fn fmt<W: fmt::Write>(&self, f: &mut Formatter<W>) -> fmt::Result {
        let Skipped {
            folder,
            messages,
            why,
        } = self;
        write!(f, "snapshots: {folder}/{messages}.snap is not used: {why}")
    }
}

impl LogEvent for Skipped<'_> {
    fn level(&self) -> LogLevel {
        LogLevel::Warn
    }

    fn name(&self) -> &'static str {
        "snapshot_skipped"
    }

    fn write_fields<W: fmt::Write>(&self, f: &mut Formatter<W>, form: LogForm) -> fmt::Result {
        write_text(f, form, "folder", self.folder)?;
        write_number(f, form, "messages", self.messages)?;
        write_shown(f, form, "why", &self.why)
    }
}
