//! The files of a live server.

use super::{READING_MS, Server};
use itch_book::OrderBook;
use itch_records::{DayPaths, LiveFault, RecordLoss, RecordPart, next_stop};
use itch_status::FeedTally;
use std::alloc::Global;
use std::fs::File;
use std::net::Net;
use std::rt::{Clock, Files};

impl<'r, 'a, R, B: OrderBook<Alloc = Global>> Server<'r, 'a, R, B>
where
    R: Net + Clock + Files<File = File> + Eprint + AllocGlobal,
{
    // Continues without the record if it has failed and is optional.
    pub(super) fn fail(&mut self, fault: LiveFault) -> Result<(), LiveFault> {
        match fault.write_error() {
            Some(error) => self.lose_record(RecordLoss::System(error)),
            None => Err(self.explained(fault)),
        }
    }

    // Writes the feed's session to the record before it contains a message.
    pub(super) fn begin_record(&mut self) -> Result<(), LiveFault> {
        let Some(session) = self.live_server.follower().session() else {
            return Ok(());
        };
        match self.day.record.begin(self.log.runtime(), session) {
            Ok(()) => Ok(()),
            Err(LiveFault::SessionFile(error)) if self.day.record.is_optional() => {
                self.lose_record(RecordLoss::System(error))
            }
            Err(fault) => Err(fault),
        }
    }

    // Replays the record for the time of one turn.
    pub(super) fn replay(&mut self, now_ms: u64) -> Result<(), LiveFault> {
        let until_ms = now_ms.saturating_add(READING_MS);
        for _part in 0..u64::MAX {
            if !self.replay_part(now_ms)? || self.poll_loop.now()? >= until_ms {
                break;
            }
        }
        Ok(())
    }

    // Replays a part of the record, and returns whether more may follow. Snapshots that are due are written.
    fn replay_part(&mut self, now_ms: u64) -> Result<bool, LiveFault> {
        let Some(mut replay) = self.day.replay.take() else {
            return Ok(false);
        };
        let most = next_stop(self.day.every(), replay.cursor().count);
        let is_more = replay.read_to(self.live_server.follower_mut(), most)?;
        let cursor = replay.cursor();
        self.day.latest = cursor.latest;
        if is_more {
            self.day.replay = Some(replay);
            self.save(cursor.count.saturating_add(1), cursor.offset, now_ms)?;
        } else {
            self.day.record.cut(&mut self.log, cursor)?;
            self.day.tally = FeedTally::new(self.live_server.follower().next());
        }
        Ok(is_more)
    }

    // Writes the snapshot after a message, if one is due, and returns whether it was due. The record contains each message of the snapshot,
    // and they end at this offset.
    pub(super) fn save(&mut self, next: u64, offset: u64, now_ms: u64) -> Result<bool, LiveFault> {
        if !self.day.wants_snapshot(next) {
            return Ok(false);
        }
        if let Err(error) = self.day.record.flush() {
            self.lose_record(RecordLoss::System(error))?;
        }
        self.spare.release();
        let latest = self.day.latest;
        let saved = match (&mut self.day.saver, self.live_server.follower().market()) {
            (Some(saver), Some(market)) => {
                let is_recorded = self.day.record.path().is_some();
                let part = part_of(&self.paths, is_recorded, offset, latest);
                let recording = &mut self.day.record.recording;
                saver.save(&mut self.log, market, next, now_ms, recording, part)
            }
            _ => Ok(()),
        };
        if let Err(error) = saved {
            self.lose_record(RecordLoss::System(error))?;
        }
        Ok(true)
    }

    // Continues without the record if it is optional.
    pub(super) fn lose_record(&mut self, loss: RecordLoss) -> Result<(), LiveFault> {
        if self.day.record.is_optional() {
            self.log.say(&loss);
            self.day.record.give_up();
            return Ok(());
        }
        Err(loss.fault(self.live_server.follower().next()))
    }

    // Adds details to the fault of a feed: its session, or that of the record or the snapshot, which it is not in.
    pub(super) fn explained(&self, fault: LiveFault) -> LiveFault {
        let fault = fault.of_message(self.live_server.follower().session(), self.feed.server());
        if self.day.record.session().is_some() {
            return fault.of_record();
        }
        if self.serving.from_snapshot && self.serving.session.is_none() {
            return fault.after_glimpse();
        }
        fault
    }

    // Checks the files that other processes may change.
    pub(super) fn watch(&mut self, now_ms: u64) -> Result<(), LiveFault> {
        if self.client_side.users.is_due(now_ms) {
            self.spare.release();
            self.client_side.users.look(&mut self.log, "users", now_ms);
        }
        match self.day.record.watch(self.log.runtime(), now_ms) {
            Ok(()) => Ok(()),
            Err(loss) => self.lose_record(loss),
        }
    }

    // Waits until all of the record is on disk.
    pub(super) fn finish(&mut self) -> Result<(), LiveFault> {
        match self.day.record.finish() {
            Ok(()) => Ok(()),
            Err(error) => self.lose_record(RecordLoss::System(error)),
        }
    }
}

// Returns the part of a day's record up to an offset, if it is recorded.
fn part_of(
    paths: &DayPaths,
    is_recorded: bool,
    offset: u64,
    latest: Option<u64>,
) -> Option<RecordPart<'_>> {
    match &paths.record {
        Some(path) if is_recorded => Some(RecordPart {
            path: path.as_str(),
            offset,
            latest,
        }),
        _ => None,
    }
}
