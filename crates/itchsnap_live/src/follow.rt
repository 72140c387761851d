//! `follow`: writes the messages of a feed, starting from a snapshot.

use crate::feed_side::{FeedSide, SHARE};
use itch_book::{IndexedBook, OrderBook};
use itch_codec::{decode, encode, json};
use itch_frame::{Counted, CountedWrite, FrameFault, write_block};
use itch_join::Joiner;
use itch_live::{Follower, Sessions};
use itch_market::Market;
use itch_records::{LiveFault, Step};
use itch_sessions::log::Log;
use itch_sessions::log::form::LogForm;
use itch_sessions::sessions::{Sending, current_session, write_text};
use itch_sessions::{FollowForm, Logins, PollLoop, Servers, SessionFault};
use itch_snapshot::SnapshotIter;
use std::alloc::{AllocError, Global};
use std::fs::File;
use std::io::Write;
use std::net::Net;
use std::rt::{Clock, Files};

/// The number of the feed's socket.
const FEED: usize = 0;

const EVENTS: usize = 16;

/// The time is checked at this interval in milliseconds if nothing arrives.
const MOMENT_MS: u64 = 100;

/// The feed to follow, and the form of the output.
#[derive(Clone, Copy)]
pub struct Following {
    /// The sessions that are known in advance.
    pub sessions: Sessions,
    pub form: FollowForm,
}

/// Fetches a snapshot, joins the feed to it, and writes each later message of the feed: as blocks, which may follow those of the snapshot's
/// messages, or as JSON, one object per line. Lines on standard error report where it has joined, and the state of the feed. The output is
/// flushed whenever nothing more has arrived.
///
/// It ends with the feed's session.
///
/// # Faults
///
/// A first login that is not authorised, or is accepted under another session than the named one or that of the snapshot; a message that is
/// refused; and a failed write.
pub fn follow_feed<R, W: Write>(
    rt: &R,
    servers: Servers<'_>,
    following: &Following,
    account: Logins<'_>,
    out: &mut Sending<W>,
) -> Result<bool, LiveFault>
where
    R: Net + Clock + Files<File = File> + Eprint + AllocGlobal,
{
    let joiner: Joiner<IndexedBook<Global>> = Joiner::new(rt.alloc(), 0);
    let mut tail = Tail::new(rt, servers, following, account, joiner)?;
    tail.run(following.form, out)
}

// The follower of the feed, and its connection.
#[derive(Drop)]
struct Tail<'r, 'a, R: Clock, B: OrderBook> {
    log: Log<'r, R>,
    poll_loop: PollLoop<'r, R>,
    feed: FeedSide<'a>,
    follower: Follower<B>,
    // Whether the feed's session is named.
    is_named: bool,
    // The block of the message that is written as a line.
    block: Vec<u8>,
}

impl<'r, 'a, R, B: OrderBook<Alloc = Global>> Tail<'r, 'a, R, B>
where
    R: Net + Clock + Files<File = File> + Eprint + AllocGlobal,
{
    // Creates one without a connection.
    fn new(
        rt: &'r R,
        servers: Servers<'a>,
        following: &Following,
        account: Logins<'a>,
        joiner: Joiner<B>,
    ) -> Result<Tail<'r, 'a, R, B>, LiveFault> {
        let sessions = following.sessions;
        let credentials = account.first().credentials(current_session());
        let follower = Follower::new(rt.alloc(), credentials, sessions, joiner, 0)?;
        let log = Log::new(rt, LogForm::Plain)?;
        let poll_loop = PollLoop::begin(rt, rt, EVENTS)?;
        let feed = FeedSide::new(rt.alloc(), servers, account, sessions.glimpse, FEED)?;
        Ok(Tail {
            log,
            poll_loop,
            feed,
            follower,
            is_named: sessions.feed.is_some(),
            block: Vec::new(rt.alloc()),
        })
    }

    // Follows the feed to its end.
    fn run<W: Write>(&mut self, form: FollowForm, out: &mut Sending<W>) -> Result<bool, LiveFault> {
        for _turn in 0..u64::MAX {
            if self.turn(form, out)? {
                break;
            }
        }
        Ok(true)
    }

    // Waits until something has arrived or is due, and writes it. Returns whether the feed has ended its session.
    fn turn<W: Write>(
        &mut self,
        form: FollowForm,
        out: &mut Sending<W>,
    ) -> Result<bool, LiveFault> {
        let most_ms = if self.feed.is_busy() { 0 } else { MOMENT_MS };
        let now_ms = self.poll_loop.wait(most_ms)?;
        for event in self.poll_loop.events().iter() {
            self.feed.note(event);
        }
        self.feed
            .begin_turn(&mut self.log, &self.poll_loop, &mut self.follower, now_ms);
        let ended = match self.steps(form, now_ms, out) {
            Err(fault) if !self.is_named => Err(fault.after_glimpse()),
            ended => ended,
        };
        self.feed
            .end_turn(&mut self.log, &mut self.follower, now_ms);
        // Messages before a fault are written too.
        match (ended, out.flush()) {
            (Ok(_), Err(error)) => Err(LiveFault::Session(SessionFault::Write(error))),
            (ended, _) => ended,
        }
    }

    // Writes the messages that have arrived, up to a share of bytes. Each packet has at least three bytes.
    fn steps<W: Write>(
        &mut self,
        form: FollowForm,
        now_ms: u64,
        out: &mut Sending<W>,
    ) -> Result<bool, LiveFault> {
        for _packet in 0..SHARE {
            let step = match form {
                FollowForm::Json => self.show_step(now_ms, out)?,
                _ => self
                    .feed
                    .step(&mut self.log, &mut self.follower, now_ms, out)?,
            };
            match step {
                Some(Step::Joined(_)) if matches!(form, FollowForm::Whole) => {
                    if let Some(market) = self.follower.market() {
                        write_messages(market, out)?;
                    }
                }
                Some(Step::Ended) if self.feed.is_over() => return Ok(true),
                Some(_) => {}
                None => break,
            }
        }
        Ok(false)
    }

    // Returns the next step. If a message was applied, it is written as a line.
    fn show_step<W: CountedWrite>(
        &mut self,
        now_ms: u64,
        out: &mut W,
    ) -> Result<Option<Step>, LiveFault> {
        self.block.clear();
        let mut block = Counted::new(&mut self.block);
        let step = match self
            .feed
            .step(&mut self.log, &mut self.follower, now_ms, &mut block)
        {
            Err(LiveFault::Session(SessionFault::Write(_))) => {
                return Err(LiveFault::Session(SessionFault::OutOfMemory));
            }
            step => step?,
        };
        if let Some(Step::Taken(next)) = step {
            show(next.saturating_sub(1), self.block.as_slice(), out)?;
        }
        Ok(step)
    }
}

// Writes the line of the message in a block. An applied message can always be decoded.
fn show<W: CountedWrite>(number: u64, block: &[u8], out: &mut W) -> Result<(), SessionFault> {
    let payload = match block {
        [_, _, payload @ ..] => payload,
        _ => &[],
    };
    match decode(payload) {
        Ok(message) => write_text(json(number, &message).as_str().as_bytes(), out),
        Err(_) => Ok(()),
    }
}

// Writes the blocks of the messages of a market's snapshot, without its End of Snapshot.
fn write_messages<B: OrderBook, W: CountedWrite>(
    market: &Market<B>,
    out: &mut W,
) -> Result<(), SessionFault> {
    for message in SnapshotIter::new(market) {
        match write_block(out, encode(&message).bytes()) {
            Ok(()) => {}
            Err(FrameFault::Write { error, .. }) => return Err(SessionFault::Write(error)),
            Err(_) => return Err(SessionFault::TooMany),
        }
    }
    Ok(())
}
