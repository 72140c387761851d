//! Finds the session of a feed that is not in the session of the current day.

use crate::feed_side::{FeedSide, SHARE};
use crate::question::nameless_follower;
use itch_book::OrderBook;
use itch_codec::Alpha;
use itch_frame::tally::Failures;
use itch_join::Joiner;
use itch_live::Follower;
use itch_records::Recording;
use itch_sessions::log::Log;
use itch_sessions::sessions::current_session;
use itch_sessions::{Logins, PollLoop, Servers};
use mio::event::Event;
use std::alloc::Global;
use std::fs::File;
use std::net::Net;
use std::rt::{Clock, Files};

/// How many milliseconds to wait before asking again, if the feed is still in the session of the current day.
const PAUSE_MS: u64 = 5_000;

/// A separate connection to the feed, with a login to its current session. It writes no lines.
#[derive(Drop)]
pub(crate) struct Scout<'r, 'a, R, B: OrderBook> {
    log: Log<'r, R>,
    feed: FeedSide<'a>,
    follower: Follower<B>,
}

impl<'r, 'a, R, B: OrderBook<Alloc = Global>> Scout<'r, 'a, R, B>
where
    R: Net + Clock + Files<File = File> + Eprint + AllocGlobal,
{
    /// Creates one for the servers of a feed, with its login. Returns `None` if memory is refused. Its socket will have this number.
    pub(crate) fn of(
        log: &Log<'r, R>,
        feed: &FeedSide<'a>,
        token: usize,
    ) -> Option<Scout<'r, 'a, R, B>> {
        let alloc = log.runtime().alloc();
        let mut log = log.another().ok()?;
        log.mute();
        let account = Logins::of(alloc, &feed.login()).ok()?;
        let servers = Servers {
            feeds: feed.servers().feeds,
            glimpse: None,
        };
        let follower = nobody_of(alloc, feed)?;
        let feed = FeedSide::new(alloc, servers, account, None, token).ok()?;
        Some(Scout {
            log,
            feed,
            follower,
        })
    }

    /// Records the readiness reported by an event.
    pub(crate) fn note(&mut self, event: &Event) {
        self.feed.note(event);
    }

    /// Returns whether a connection is due at this time.
    pub(crate) fn is_due(&self, now_ms: u64) -> bool {
        self.feed.is_due(now_ms)
    }

    /// Returns whether there may be bytes to read without waiting for another event.
    pub(crate) fn is_busy(&self) -> bool {
        self.feed.is_busy()
    }

    /// Does what is due, and returns the session if the feed names it. The connection is then closed, and made again some seconds later.
    pub(crate) fn turn(&mut self, poll_loop: &PollLoop<'_, R>, now_ms: u64) -> Option<Alpha<10>> {
        self.feed
            .begin_turn(&mut self.log, poll_loop, &mut self.follower, now_ms);
        self.read(now_ms);
        self.feed
            .end_turn(&mut self.log, &mut self.follower, now_ms);
        let session = self.follower.session()?;
        self.feed.pause(now_ms.saturating_add(PAUSE_MS));
        self.follower = nobody_of(self.log.runtime().alloc(), &self.feed)?;
        Some(session)
    }

    // Reads bytes until a session is named.
    fn read(&mut self, now_ms: u64) {
        let mut nowhere: Recording<File> = Recording::Nowhere(Failures::none());
        for _packet in 0..SHARE {
            match self
                .feed
                .step(&mut self.log, &mut self.follower, now_ms, &mut nowhere)
            {
                Ok(Some(_)) if self.follower.session().is_none() => {}
                Ok(_) => break,
                Err(_) => {
                    self.feed.pause(now_ms.saturating_add(PAUSE_MS));
                    break;
                }
            }
        }
    }
}

// Returns a follower that knows no session.
fn nobody_of<B: OrderBook<Alloc = Global>>(
    alloc: Global,
    feed: &FeedSide<'_>,
) -> Option<Follower<B>> {
    let joiner: Joiner<B> = Joiner::new(alloc, 0);
    let credentials = feed.login().credentials(current_session());
    nameless_follower(alloc, &credentials, joiner).ok()
}
