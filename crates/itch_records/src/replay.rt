//! Replays the messages of a record in parts, before more are added.
ghost use Rattle.std.specs.Prelude.{◌≡◌, ℕ, ◌+◌, List, IfOk};
ghost use Rattle.itch_day.specs.DayCursors.{later, cursor_past, time_at};
ghost use Rattle.itch_day.specs.Sinks.{Decodes};
ghost use Rattle.itch_records.specs.Readiness.{next_stop};
ghost use Rattle.itch_records.specs.Replays.{IsRead, Replays};

use crate::fault::{LiveFault, RecordFault};
use crate::step::stop_of;
use itch_book::OrderBook;
use itch_codec::{CodecFault, MOST_MESSAGES, Message};
use itch_day::{DayCursor, Limit, PartStop, Sink, read_part};
use itch_frame::{BlockReader, Buffered, CountedRead, FrameFault};
use itch_join::{JoinFault, Live};
use itch_live::Follower;
use itch_market::{Refusal, ReplayEnd, Stop};
use itch_sessions::SessionFault;
use itch_sessions::sessions::PIECE;
use std::alloc::Global;
use std::fs::File;
use std::io::{BufReader, Seek, SeekFrom};

/// A replay pauses after this many messages, which take a few milliseconds.
const PART: u64 = 8_192;

/// Returns the message at which a replay at message `count` pauses: after 8,192 more messages, or when the next snapshot is due, if `every`
/// is not 0.
pub fn next_stop(every: u64, count: u64) -> u64
    ensures { result ≡ next_stop every count }
{
    let part = count.saturating_add(PART);
    if every == 0 {
        return part;
    }
    match (count - count % every).checked_add(every) {
        Some(multiple) => part.min(multiple),
        None => part,
    }
}

// A follower of a feed that takes the messages of a record, or stops the replay with a reason; and the cursor after these messages.
#[derive(Drop)]
struct RecordSink<'x, B: OrderBook> {
    follower: &'x mut Follower<B>,
    cursor: DayCursor,
}

impl<'x, B: OrderBook> Sink for RecordSink<'x, B> {
    ghost use Rattle.std.specs.Prelude.{◌≡◌, ◌+◌};
    ghost use Rattle.itch_day.specs.DayCursors.{cursor_past};
    ghost use Rattle.itch_records.specs.Replays.{TakesRecorded};

    type Fault = Stop;

    ghost is_ready = { λ s number. number ≡ s.cursor.count + 1 };

    ghost takes = { λ s number payload t. (t.follower.ghost_name ≡ s.follower.ghost_name) × TakesRecorded s.follower.now number payload t.follower.now
        × (t.cursor ≡ cursor_past s.cursor payload) };

    ghost refuses = { λ s number payload why t. t.follower.ghost_name ≡ s.follower.ghost_name };

    fn take(
        &mut self,
        number: u64,
        payload: &[u8],
        message: &Result<Message<'_>, CodecFault>,
    ) -> Result<(), Stop> {
        match self.follower.replay(number, payload, message) {
            Ok(Live::Applied { .. }) => {
                self.cursor = cursor_past(self.cursor, number, payload, message);
                Ok(())
            }
            Err(JoinFault::Halted { cause, .. }) => Err(stop_of(cause)),
            Err(JoinFault::OutOfMemory { .. }) => Err(Stop::Rule(Refusal::OutOfMemory)),
            _ => Err(Stop::TooManyMessages),
        }
    }

    fn take_payload(&mut self, number: u64, payload: &[u8]) -> bool {
        let _number = number;
        let _payload = payload;
        false
    }

    fn look_ahead(&mut self, blocks: &[u8]) -> u64 {
        let _blocks = blocks;
        u64::MAX
    }
}

// Returns the cursor after the message with this number, which follows the messages before a cursor.
fn cursor_past(
    cursor: DayCursor,
    number: u64,
    payload: &[u8],
    message: &Result<Message<'_>, CodecFault>,
) -> DayCursor
    requires next { number ≡ cursor.count + 1 }
    requires decoded { Decodes payload.now message.now }
    ensures { result ≡ cursor_past cursor payload.now }
{
    let size = (payload.len() as u64).saturating_add(2);
    DayCursor {
        count: number,
        offset: cursor.offset.saturating_add(size),
        latest: later(cursor.latest, time_of(message)),
    }
}

// Returns the time of a decoded message, if it has one.
fn time_of(message: &Result<Message<'_>, CodecFault>) -> Option<u64>
    ensures { (payload : List ℕ) → Decodes payload message.now → result ≡ time_at payload }
{
    match message {
        Ok(message) => message.time(),
        Err(_fault) => None,
    }
}

// Returns the later of two times, each of which may be missing.
fn later(before: Option<u64>, time: Option<u64>) -> Option<u64>
    ensures { result ≡ later before time }
{
    match (before, time) {
        (Some(before), Some(time)) => Some(before.max(time)),
        (Some(before), None) => Some(before),
        (None, time) => time,
    }
}

/// The messages of a record that were not replayed yet: those that `check` counts, up to the end of the file, a block of length 0 or an
/// incomplete block.
#[derive(Drop)]
pub struct Replaying<S: CountedRead + Drop> {
    blocks: BlockReader<S, Global>,
    // The messages that were replayed.
    cursor: DayCursor,
}

/// Those of a file.
pub type Replay = Replaying<Buffered<File>>;

impl Replaying<Buffered<File>> {
    /// Creates a replay of a record, starting at a cursor.
    ///
    /// # Errors
    ///
    /// A [`LiveFault`] if the file cannot be read or memory is refused.
    pub fn after(alloc: Global, file: File, cursor: DayCursor) -> Result<Replay, LiveFault> {
        let mut file = file;
        if let Err(error) = file.seek(SeekFrom::Start(cursor.offset)) {
            return Err(LiveFault::Session(SessionFault::of_system(
                error,
                SessionFault::Open(error),
            )));
        }
        let Ok(buffered) = BufReader::with_capacity(alloc, PIECE, file) else {
            return Err(LiveFault::Session(SessionFault::OutOfMemory));
        };
        Ok(Replaying {
            blocks: BlockReader::new(alloc, Buffered::new(buffered))?,
            cursor,
        })
    }
}

impl<S: CountedRead + Drop> Replaying<S> {
    /// Returns the cursor of the messages replayed so far: their number, the size of their blocks in bytes, and the latest timestamp.
    pub fn cursor(&self) -> DayCursor
        ensures { result ≡ self.now.cursor }
    {
        self.cursor
    }

    /// Continues the replay up to message `most` of the record, and returns whether more may follow. The follower has applied each message
    /// of the record up to there, in order and once.
    ///
    /// # Errors
    ///
    /// A [`LiveFault`] if a message is refused or cannot be read.
    pub fn read_to<B: OrderBook>(
        &mut self,
        follower: &mut Follower<B>,
        most: u64,
    ) -> Result<bool, LiveFault>
        ensures { IfOk result (λ _. Replays S.remaining self.old.blocks self.new.blocks self.old.cursor self.new.cursor follower.old follower.new) }
    {
        let mut count = self.cursor.count;
        if count > MOST_MESSAGES {
            return Err(refused(count, Stop::TooManyMessages));
        }
        let mut recorded = RecordSink {
            follower,
            cursor: self.cursor,
        };
        let limit = Limit::counted(Some(most));
        let stop = read_part(&mut self.blocks, &mut count, &mut recorded, limit);
        self.cursor = recorded.cursor;
        is_more(stop, count)
    }
}

// Returns whether more may follow after a part of a record, or the fault at which the part of `count` messages stopped.
fn is_more(stop: PartStop<Stop>, count: u64) -> Result<bool, LiveFault>
    ensures { IfOk result (λ _. IsRead stop) }
{
    match stop {
        PartStop::Full => Ok(true),
        PartStop::Late | PartStop::End | PartStop::Frame(FrameFault::Truncated { .. }) => Ok(false),
        PartStop::Frame(fault) => Err(refused(count, Stop::Frame(fault))),
        PartStop::TooMany => Err(refused(count, Stop::TooManyMessages)),
        PartStop::Refused(stop) => Err(refused(count, stop)),
    }
}

fn refused(count: u64, stop: Stop) -> LiveFault {
    LiveFault::Record(RecordFault::Refused(ReplayEnd { count, stop }))
}
