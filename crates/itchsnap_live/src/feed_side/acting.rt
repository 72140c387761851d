//! The effects of a feed's steps on its connection.

use super::FeedSide;
use crate::feed_line::{FeedLine, Named, Trouble};
use itch_book::OrderBook;
use itch_codec::Alpha;
use itch_live::{Follower, ServerKind};
use itch_records::{LiveFault, Step, rejection_ends};
use itch_sessions::SessionFault;
use itch_sessions::log::Log;
use itch_soup::SoupFault;
use itch_status::LossCause;

impl FeedSide<'_> {
    /// Applies a step to the connection.
    ///
    /// # Errors
    ///
    /// A [`LiveFault`] if a rejection or another session ends the follower.
    pub(super) fn follow<R: Eprint, B: OrderBook>(
        &mut self,
        log: &mut Log<'_, R>,
        follower: &Follower<B>,
        step: &Step,
        now_ms: u64,
    ) -> Result<(), LiveFault> {
        match *step {
            Step::On | Step::Taken(_) => {}
            Step::Accepted(begins) => self.accept(log, follower, begins, now_ms),
            Step::Joined(next) => {
                self.drop_connection(now_ms);
                self.route.begin();
                self.was_accepted = false;
                log.say(&FeedLine::Joined(next));
            }
            Step::Ended => self.end(log, follower, now_ms),
            Step::Rejected(code) => self.reject(log, follower, code, now_ms)?,
            Step::OtherSession(named) => self.refuse(log, follower, named, now_ms)?,
            Step::NoMemory => match follower.next() {
                Some(next) => self.lose(log, follower, Some(Trouble::NoMemory(next)), now_ms),
                None => self.break_off(log, follower, LossCause::NoMemory, now_ms),
            },
            Step::Lost => self.break_off(log, follower, LossCause::Broken, now_ms),
        }
        Ok(())
    }

    // Handles a login that was accepted from a number on. If this is not the next number, messages are missing, and the connection is made
    // again.
    fn accept<R: Eprint, B: OrderBook>(
        &mut self,
        log: &mut Log<'_, R>,
        follower: &Follower<B>,
        begins: u64,
        now_ms: u64,
    ) {
        let line = match follower.next() {
            Some(next) if begins > next => {
                return self.lose(log, follower, Some(Trouble::Gap { next, begins }), now_ms);
            }
            Some(_) => FeedLine::Accepted(begins),
            None => FeedLine::GlimpseAccepted,
        };
        self.is_accepted = true;
        self.accepted_ms = now_ms;
        self.was_accepted = true;
        self.is_down = false;
        self.forget_troubles();
        self.route.accept(now_ms);
        let name = self.name(follower.next().is_some(), false);
        log.say(&Named { line, name });
    }

    // Forgets the reports about each server, so that they are repeated if they occur again.
    pub(super) fn forget_troubles(&mut self) {
        for trouble in self.troubles.iter_mut() {
            *trouble = None;
        }
    }

    // Handles the end of the server's session. The connection is made again if the server has sent no message yet, or if a snapshot server
    // has not sent its End of Snapshot.
    fn end<R: Eprint, B: OrderBook>(
        &mut self,
        log: &mut Log<'_, R>,
        follower: &Follower<B>,
        now_ms: u64,
    ) {
        match follower.next() {
            Some(next) if self.is_accepted && next > 1 => {
                self.drop_connection(u64::MAX);
                log.say(&FeedLine::Ended(next));
            }
            _ => self.break_off(log, follower, LossCause::Closed, now_ms),
        }
    }

    fn reject<R: Eprint, B: OrderBook>(
        &mut self,
        log: &mut Log<'_, R>,
        follower: &Follower<B>,
        code: u8,
        now_ms: u64,
    ) -> Result<(), LiveFault> {
        if rejection_ends(code, self.was_accepted) {
            return Err(LiveFault::Session(SessionFault::Soup(SoupFault::Rejected(code))));
        }
        let line = match follower.next() {
            Some(_) => Trouble::Rejected(code),
            None => Trouble::GlimpseRejected(code),
        };
        self.lose(log, follower, Some(line), now_ms);
        Ok(())
    }

    // Handles a server that is in another session. If it was accepted before, the connection is made again, and the clients keep the market
    // of the session that they logged in to.
    fn refuse<R: Eprint, B: OrderBook>(
        &mut self,
        log: &mut Log<'_, R>,
        follower: &Follower<B>,
        named: Alpha<10>,
        now_ms: u64,
    ) -> Result<(), LiveFault> {
        let (server, wanted) = match follower.next() {
            Some(_) => (ServerKind::Live, follower.session()),
            None => (
                ServerKind::Glimpse,
                self.glimpse_session.or(follower.session()),
            ),
        };
        match wanted {
            Some(wanted) if !self.was_accepted => Err(LiveFault::OtherSession {
                server,
                named,
                wanted,
            }),
            _ => {
                let line = wanted.map(|wanted| Trouble::OtherSession(named, wanted));
                self.lose(log, follower, line, now_ms);
                Ok(())
            }
        }
    }
}
