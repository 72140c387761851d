//! The days of a live server: if each session of the feed has its own files, the next session begins with new ones.

use super::beginning::open_day;
use super::day::Day;
use super::{SCOUT, Server};
use crate::opened::{OpenedDay, follower_of};
use crate::scout::Scout;
use itch_book::OrderBook;
use itch_codec::Alpha;
use itch_live::LiveServer;
use itch_records::LiveFault;
use itch_sessions::is_another;
use std::alloc::Global;
use std::fs::File;
use std::net::Net;
use std::rt::{Clock, Files};

/// How many milliseconds the clients of a day have to receive their data, after the next day was found.
const EVENING_MS: u64 = 30_000;

/// The session of the next day, and when it was found.
#[derive(Clone, Copy)]
pub(super) struct Tomorrow {
    session: Alpha<10>,
    found_ms: u64,
}

// Returns the session that was found, if it differs from the current one.
fn another(found: Option<Alpha<10>>, present: Option<Alpha<10>>) -> Option<Alpha<10>> {
    let (Some(session), Some(present)) = (found, present) else {
        return None;
    };
    if is_another(&present, &session) {
        Some(session)
    } else {
        None
    }
}

impl<'r, 'a, R, B: OrderBook<Alloc = Global>> Server<'r, 'a, R, B>
where
    R: Net + Clock + Files<File = File> + Eprint + AllocGlobal,
{
    // Starts to ask the feed for its session, because it is no longer in the session of the day.
    pub(super) fn begin_scouting(&mut self) {
        if self.serving.has_days() && self.serving.stay && self.scout.is_none() {
            self.scout = Scout::of(&self.log, &self.feed, SCOUT);
        }
    }

    pub(super) fn is_scouting(&self) -> bool {
        match &self.scout {
            Some(scout) => scout.is_busy(),
            None => false,
        }
    }

    // Records the session of the next day when the feed names it. Waiting clients receive the last market of this one.
    pub(super) fn look_for_a_day(&mut self, now_ms: u64) {
        if self.day.tomorrow.is_some() {
            return;
        }
        let Some(mut scout) = self.scout.take() else {
            return;
        };
        if scout.is_due(now_ms) {
            self.spare.release();
        }
        let found = scout.turn(&self.poll_loop, now_ms);
        let present = self.live_server.follower().session();
        match another(found, present) {
            Some(session) => {
                self.day.has_caught_up = true;
                self.day.tomorrow = Some(Tomorrow {
                    session,
                    found_ms: now_ms,
                });
            }
            None => self.scout = Some(scout),
        }
    }

    // Begins the next day, if it was found, and the clients of this one are gone or had their time.
    pub(super) fn begin_day_if_due(&mut self) -> Result<(), LiveFault> {
        let Some(Tomorrow { session, found_ms }) = self.day.tomorrow else {
            return Ok(());
        };
        let now_ms = self.poll_loop.now()?;
        if self.client_side.has_no_client() || now_ms.saturating_sub(found_ms) >= EVENING_MS {
            self.client_side.cut_off(&mut self.live_server);
            self.begin_day(session, now_ms)?;
        }
        Ok(())
    }

    fn begin_day(&mut self, session: Alpha<10>, now_ms: u64) -> Result<(), LiveFault> {
        self.finish()?;
        self.spare.release();
        let alloc = self.log.runtime().alloc();
        let begun: OpenedDay<B> = open_day(
            &mut self.log,
            self.serving,
            Some(session),
            &mut self.paths,
        )?;
        let OpenedDay {
            files,
            joiner,
            session: _,
        } = begun;
        let login = self.feed.login();
        let follower = follower_of(alloc, self.serving, &login, Some(session), joiner)?;
        self.day = Day::new(files, follower.next());
        self.live_server = LiveServer::new(alloc, follower, self.serving.clients)?;
        self.client_side.begin_day(alloc, self.serving, session)?;
        self.feed.begin_day(now_ms);
        Ok(())
    }
}
