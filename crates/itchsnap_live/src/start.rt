//! A feed before its session is known.

use crate::feed_side::{FeedSide, SHARE};
use crate::status::{STATUS, StatusPort};
use itch_book::OrderBook;
use itch_codec::Alpha;
use itch_frame::tally::Failures;
use itch_live::Follower;
use itch_records::{LiveFault, Record, Recording};
use itch_sessions::log::Log;
use itch_sessions::{Logins, PollLoop, SPARED, Servers, Spare};
use itch_status::Figures;
use mio::Token;
use std::alloc::Global;
use std::fs::File;
use std::net::{Net, SocketAddr};
use std::rt::{Clock, Files};

/// The time is checked at this interval in milliseconds if no socket is ready.
const MOMENT_MS: u64 = 100;

/// The most sockets reported per wait.
const EVENTS: usize = 1_024;

/// Follows a feed until its session is known. Clients are served under the name of this session.
#[derive(Drop)]
pub(crate) struct Startup<'r, 'a, R: Clock> {
    pub log: Log<'r, R>,
    pub poll_loop: PollLoop<'r, R>,
    pub feed: FeedSide<'a>,
    /// The number of the feed's socket.
    pub token: usize,
    /// The status port with its descriptors, and the figures other than those of the feed.
    pub spare: Spare,
    pub status: Option<StatusPort>,
    pub figures: Figures,
}

impl<'r, 'a, R> Startup<'r, 'a, R>
where
    R: Net + Clock + Files<File = File> + Eprint + AllocGlobal,
{
    /// Creates one without a connection. The feed's socket will have this number.
    ///
    /// # Errors
    ///
    /// A [`LiveFault`] if memory is refused or the clock fails.
    pub(crate) fn new(
        rt: &'r R,
        log: Log<'r, R>,
        servers: Servers<'a>,
        account: Logins<'a>,
        glimpse_session: Option<Alpha<10>>,
        token: usize,
    ) -> Result<Startup<'r, 'a, R>, LiveFault> {
        let poll_loop = PollLoop::begin(rt, rt, EVENTS)?;
        let feed = FeedSide::new(rt.alloc(), servers, account, glimpse_session, token)?;
        Ok(Startup {
            log,
            poll_loop,
            feed,
            token,
            spare: Spare::new(rt.alloc(), SPARED)?,
            status: None,
            figures: Figures::new(),
        })
    }

    /// Records the figures of an existing record.
    pub(crate) fn note_record(&mut self, record: &Record) {
        self.figures.recorded = record.figures();
    }

    /// Follows the feed until its session is known.
    ///
    /// # Errors
    ///
    /// A [`LiveFault`] if the feed refuses to start.
    pub(crate) fn find_session<B: OrderBook<Alloc = Global>>(
        &mut self,
        follower: &mut Follower<B>,
    ) -> Result<Option<Alpha<10>>, LiveFault> {
        for _turn in 0..u64::MAX {
            if let Some(session) = follower.session() {
                return Ok(Some(session));
            }
            self.turn(follower)?;
        }
        Ok(None)
    }

    /// Returns the session that the server at this address names in its answer to one login, if it does so within `most_ms` milliseconds. It
    /// writes no lines.
    pub(crate) fn ask<B: OrderBook<Alloc = Global>>(
        &mut self,
        address: SocketAddr,
        follower: &mut Follower<B>,
        most_ms: u64,
    ) -> Option<Alpha<10>> {
        self.log.mute();
        self.feed.keep_to(address);
        for _turn in 0..u64::MAX {
            if follower.session().is_some()
                || self.feed.is_down()
                || self.poll_loop.is_past(most_ms)
            {
                break;
            }
            if self.turn(follower).is_err() {
                break;
            }
        }
        follower.session()
    }

    fn turn<B: OrderBook<Alloc = Global>>(
        &mut self,
        follower: &mut Follower<B>,
    ) -> Result<(), LiveFault> {
        let most_ms = if self.feed.is_busy() || self.is_asked() {
            0
        } else {
            MOMENT_MS
        };
        let now_ms = self.poll_loop.wait(most_ms)?;
        self.log.look_at_clock();
        self.note();
        self.feed
            .begin_turn(&mut self.log, &self.poll_loop, follower, now_ms);
        let done = self.steps(follower, now_ms);
        self.feed.end_turn(&mut self.log, follower, now_ms);
        self.tell_status(follower, now_ms);
        done
    }

    // Answers the requests at the status port.
    fn tell_status<B: OrderBook<Alloc = Global>>(&mut self, follower: &Follower<B>, now_ms: u64) {
        let Some(status) = &mut self.status else {
            return;
        };
        let rt = self.log.runtime();
        status.hear(rt, self.poll_loop.registry(), &mut self.spare, now_ms);
        let (state, cause) = self.feed.state();
        self.figures.state = state;
        self.figures.cause = cause;
        self.figures.server = self.feed.server_number();
        self.figures.losses = self.feed.losses();
        self.figures.session = follower.session();
        self.figures.next = follower.next();
        self.figures.lines_lost = self.log.lost();
        self.figures.uptime_ms = now_ms;
        if status.is_asked() {
            status.answer(rt, &self.figures);
        }
        status.tell(now_ms);
    }

    // Returns whether there may be something to do for the status port without waiting for another event.
    fn is_asked(&self) -> bool {
        match &self.status {
            Some(status) => status.is_busy(),
            None => false,
        }
    }

    // Records which sockets are ready.
    fn note(&mut self) {
        for event in self.poll_loop.events().iter() {
            let Token(token) = event.token();
            if token == self.token {
                self.feed.note(event);
            }
            if token >= STATUS
                && let Some(status) = &mut self.status
            {
                status.note(token, event);
            }
        }
    }

    // Handles the bytes of the feed, up to a share of bytes, or until it has named its session.
    fn steps<B: OrderBook<Alloc = Global>>(
        &mut self,
        follower: &mut Follower<B>,
        now_ms: u64,
    ) -> Result<(), LiveFault> {
        let mut nowhere: Recording<File> = Recording::Nowhere(Failures::none());
        for _packet in 0..SHARE {
            let step = self
                .feed
                .step(&mut self.log, follower, now_ms, &mut nowhere)?;
            if step.is_none() || follower.session().is_some() {
                break;
            }
        }
        Ok(())
    }
}
