//! `live`: follows a feed, and sends a snapshot of its current market to each client that logs in.

mod beginning;
mod client_side;
mod day;
mod days;
mod figures;
mod keeping;

use crate::feed_side::{FeedSide, SHARE};
use crate::question::{agreed, ask_session, asks_session};
use crate::scout::Scout;
use crate::status::{STATUS, StatusPort};
use client_side::ServingSide;
use day::Day;
use itch_book::{IndexedBook, OrderBook};
use itch_codec::Alpha;
use itch_frame::CountedWrite;
use itch_join::Joiner;
use itch_live::LiveServer;
use itch_records::{
    DayFault, DayPaths, LiveFault, Ready, RecordLoss, RecordOptions, RecordPlace, SnapshotOptions,
    Step, is_caught_up,
};
use itch_sessions::log::Log;
use itch_sessions::log::form::LogForm;
use itch_sessions::{Logins, PollLoop, ServerAddress, Servers, Spare, Visit};
use mio::Token;
use std::alloc::Global;
use std::fs::File;
use std::mem::swap;
use std::net::{Net, SocketAddr};
use std::rt::{Clock, Files};

/// The numbers of the sockets: the listening port, the feed, and the clients from here on, followed by the reception.
const LISTENER: usize = 0;

const FEED: usize = 1;

const FIRST_CLIENT: usize = 2;

/// The number of the connection that looks for the session of the next day. It is the last number before those of the status port.
const SCOUT: usize = STATUS - 1;

/// The time is checked at this interval in milliseconds if no socket is ready.
const MOMENT_MS: u64 = 100;

/// The same, while a client waits for a snapshot that the budget does not allow yet.
const SOON_MS: u64 = 10;

/// The most milliseconds for which the feed is read in one turn.
const READING_MS: u64 = 20;

/// The options of a live server: what it serves, to whom, and which files it keeps.
#[derive(Clone, Copy)]
pub struct Serving<'a> {
    pub address: SocketAddr,
    /// The feed's session, and that of the snapshot server if it differs, if they are named.
    pub session: Option<Alpha<10>>,
    pub glimpse_session: Option<Alpha<10>>,
    /// The most clients at a time, and the most from one address.
    pub clients: usize,
    pub clients_per_address: usize,
    /// The limit of the snapshots in use in bytes, if one is given.
    pub snapshot_memory: Option<u64>,
    /// Whether it starts from a snapshot instead of the feed's first message.
    pub from_snapshot: bool,
    pub record: Option<RecordOptions<'a>>,
    /// Where snapshots are written: in the folder itself, or in a folder for each session inside it, if the record has a file for each
    /// session.
    pub snapshots: Option<SnapshotOptions<'a>>,
    /// Whether it continues to serve after the feed has ended.
    pub stay: bool,
    /// When it starts to send snapshots.
    pub ready: Ready,
    /// The address of its status port, if it has one.
    pub status: Option<ServerAddress<'a>>,
    pub log: LogForm,
}

impl<'a> Serving<'a> {
    /// Returns where it records, if it does.
    pub(crate) fn place(&self) -> Option<RecordPlace<'a>> {
        match self.record {
            Some(words) => Some(words.place),
            None => None,
        }
    }

    /// Returns whether it has files for each session of its feed.
    pub(crate) fn has_days(&self) -> bool {
        matches!(self.place(), Some(RecordPlace::Folder(_)))
    }
}

/// The users who may log in to a live server, and the login that it uses itself.
#[derive(Drop)]
pub struct Accounts<'a> {
    pub users: Logins<'a>,
    pub own: Logins<'a>,
}

/// Follows a feed, and serves snapshots of its current market, with a line on `out` for each client that is gone. Lines on standard error
/// report the address that it listens on, and the state of the feed.
///
/// It ends when the feed has ended its session and all clients are gone. With `stay` it does not end.
///
/// # Faults
///
/// A first login to the feed that is not authorised, or is accepted under another session than the named or recorded one; a message that is
/// refused; a record that belongs to another day, is in use, was changed by another process, or cannot be written; a folder of snapshots that
/// is in use or does not exist; `Socket` if the port cannot be bound.
pub fn serve_live<'a, R, W: CountedWrite>(
    rt: &R,
    servers: Servers<'a>,
    serving: &'a Serving<'a>,
    accounts: Accounts<'a>,
    out: &mut W,
) -> Result<bool, DayFault>
where
    R: Net + Clock + Files<File = File> + Eprint + AllocGlobal,
{
    let mut paths = DayPaths::none();
    match served::<R, IndexedBook<Global>, W>(rt, servers, serving, accounts, out, &mut paths) {
        Ok(answer) => Ok(answer),
        Err(fault) => Err(DayFault { fault, paths }),
    }
}

// Serves until the end, or until a fault, which concerns the day with these paths.
fn served<'a, R, B: OrderBook<Alloc = Global>, W: CountedWrite>(
    rt: &R,
    servers: Servers<'a>,
    serving: &'a Serving<'a>,
    accounts: Accounts<'a>,
    out: &mut W,
    paths: &mut DayPaths,
) -> Result<bool, LiveFault>
where
    R: Net + Clock + Files<File = File> + Eprint + AllocGlobal,
{
    let mut server: Server<'_, '_, R, B> = beginning::opened(
        rt, servers, serving, accounts, paths,
    )?;
    let answer = server.run_from(out, paths);
    // An explicit call, because a proof of code that drops this many fields takes long.
    drop(server);
    answer
}

// A server, its sockets and its files.
#[derive(Drop)]
struct Server<'r, 'a, R: Clock, B: OrderBook> {
    serving: &'a Serving<'a>,
    log: Log<'r, R>,
    poll_loop: PollLoop<'r, R>,
    spare: Spare,
    status: Option<StatusPort>,
    feed: FeedSide<'a>,
    live_server: LiveServer<B>,
    client_side: ServingSide<'a>,
    // The paths of the day's record and snapshots.
    paths: DayPaths,
    day: Day,
    // Looks for the session of the next day.
    scout: Option<Scout<'r, 'a, R, B>>,
}

impl<'r, 'a, R, B: OrderBook<Alloc = Global>> Server<'r, 'a, R, B>
where
    R: Net + Clock + Files<File = File> + Eprint + AllocGlobal,
{
    // Serves, beginning with the day with these paths, and returns those of the last day in them.
    fn run_from<W: CountedWrite>(
        &mut self,
        out: &mut W,
        paths: &mut DayPaths,
    ) -> Result<bool, LiveFault> {
        swap(&mut self.paths, paths);
        let answer = self.run(out);
        swap(&mut self.paths, paths);
        answer
    }

    // Serves until the end.
    fn run<W: CountedWrite>(&mut self, out: &mut W) -> Result<bool, LiveFault> {
        self.begin()?;
        for _turn in 0..u64::MAX {
            if self.is_over() {
                break;
            }
            self.turn(out)?;
        }
        self.finish()?;
        Ok(true)
    }

    // Clients that connected before the session was known are accepted now. If the feed has confirmed the session, it is written to the
    // record.
    fn begin(&mut self) -> Result<(), LiveFault> {
        self.client_side.port.note();
        if self.feed.was_accepted() {
            self.begin_record()?;
        }
        Ok(())
    }

    fn is_over(&self) -> bool {
        self.is_closed() && self.client_side.is_empty()
    }

    // Returns whether no more clients are accepted.
    fn is_closed(&self) -> bool {
        self.day.has_ended && !self.serving.stay
    }

    // Waits until something is ready or due, and does it.
    fn turn<W: CountedWrite>(&mut self, out: &mut W) -> Result<(), LiveFault> {
        self.begin_day_if_due()?;
        let most_ms = self.patience_ms();
        let now_ms = self.poll_loop.wait(most_ms)?;
        self.log.look_at_clock();
        self.note();
        if self.day.replay.is_some() {
            self.replay(now_ms)?;
        } else {
            self.follow(now_ms)?;
            let next = self.live_server.follower().next();
            self.day.tally.see(next, now_ms);
            self.look_for_a_day(now_ms);
        }
        self.serve(now_ms)?;
        self.watch(now_ms)?;
        self.write_lines(now_ms, out);
        self.tell_status(now_ms);
        Ok(())
    }

    // Returns how long to wait for a socket to become ready.
    fn patience_ms(&self) -> u64 {
        if self.day.replay.is_some()
            || self.is_scouting()
            || self.feed.is_busy()
            || self.client_side.is_busy(&self.live_server)
            || self.is_asked()
        {
            return 0;
        }
        if self.client_side.clients.any_waits(&self.live_server) {
            return SOON_MS;
        }
        MOMENT_MS
    }

    // Records which sockets are ready.
    fn note(&mut self) {
        let first_room = FIRST_CLIENT.saturating_add(self.serving.clients);
        for event in self.poll_loop.events().iter() {
            let Token(token) = event.token();
            match token {
                LISTENER => self.client_side.port.note(),
                FEED => self.feed.note(event),
                SCOUT => {
                    if let Some(scout) = &mut self.scout {
                        scout.note(event);
                    }
                }
                _ if token >= STATUS => {
                    if let Some(status) = &mut self.status {
                        status.note(token, event);
                    }
                }
                _ => self.client_side.note(token, token < first_room, event),
            }
        }
    }

    // Handles the bytes of the feed. Afterwards the messages are flushed to the record, even after a fault.
    fn follow(&mut self, now_ms: u64) -> Result<(), LiveFault> {
        if self.feed.is_due(now_ms) {
            self.spare.release();
        }
        self.feed.begin_turn(
            &mut self.log,
            &self.poll_loop,
            self.live_server.follower_mut(),
            now_ms,
        );
        let done = self.read_feed(now_ms);
        self.feed
            .end_turn(&mut self.log, self.live_server.follower_mut(), now_ms);
        let flushed = match self.day.record.flush() {
            Ok(()) => Ok(()),
            Err(error) => self.lose_record(RecordLoss::System(error)),
        };
        done?;
        self.catch_up(now_ms);
        flushed
    }

    // Records whether everything that the feed had has arrived.
    fn catch_up(&mut self, now_ms: u64) {
        let (state, _cause) = self.feed.state();
        let for_ms = self.feed.accepted_for_ms(now_ms);
        let is_caught_up = is_caught_up(state, for_ms, self.feed.is_busy());
        self.day.has_caught_up = self.day.has_caught_up || is_caught_up;
    }

    // Handles the bytes of the feed until nothing more has arrived, but no longer than its share of the time.
    fn read_feed(&mut self, now_ms: u64) -> Result<(), LiveFault> {
        let until_ms = now_ms.saturating_add(READING_MS);
        for _share in 0..u64::MAX {
            let is_held_up = self.steps(now_ms)?;
            if is_held_up || !self.feed.is_busy() || self.poll_loop.now()? >= until_ms {
                break;
            }
            self.feed.renew();
        }
        Ok(())
    }

    // Handles the bytes of the feed, up to a share of bytes, and returns whether a snapshot was written meanwhile. Each packet has at least
    // three bytes. Writing a snapshot may take long, so later bytes are left to the next turn, with its own time.
    fn steps(&mut self, now_ms: u64) -> Result<bool, LiveFault> {
        for _packet in 0..SHARE {
            let Some(step) = self.step(now_ms)? else {
                break;
            };
            if self.act(&step, now_ms)? {
                return Ok(true);
            }
        }
        Ok(false)
    }

    // Returns the feed's next step. If the record is optional, a message that could not be recorded still counts as applied.
    fn step(&mut self, now_ms: u64) -> Result<Option<Step>, LiveFault> {
        let recording = &mut self.day.record.recording;
        match self.feed.step(
            &mut self.log,
            self.live_server.follower_mut(),
            now_ms,
            recording,
        ) {
            Ok(step) => Ok(step),
            Err(fault) => {
                self.fail(fault)?;
                Ok(Some(Step::On))
            }
        }
    }

    // Acts on a step, and returns whether this may have taken long.
    fn act(&mut self, step: &Step, now_ms: u64) -> Result<bool, LiveFault> {
        match *step {
            Step::Taken(next) => {
                self.day.see(self.feed.market_ns());
                let length = self.day.record.length();
                return self.save(next, length, now_ms);
            }
            Step::Accepted(_) => {
                self.scout = None;
                self.begin_record()?;
            }
            Step::Ended => {
                self.day.has_ended = self.feed.is_over();
                self.begin_scouting();
            }
            Step::Rejected(b'S') | Step::OtherSession(_) if self.serving.has_days() => {
                self.begin_scouting();
            }
            Step::Rejected(code) => self.question(code)?,
            _ => {}
        }
        Ok(false)
    }

    // Asks a feed that rejects the session of the record, once, which session it is in.
    fn question(&mut self, code: u8) -> Result<(), LiveFault> {
        let (Some(session), Some(address)) = (self.day.record.session(), self.feed.address()) else {
            return Ok(());
        };
        if !asks_session(code, self.feed.was_accepted(), self.day.has_asked) {
            return Ok(());
        }
        self.day.has_asked = true;
        self.spare.release();
        let joiner: Joiner<B> = Joiner::new(self.log.runtime().alloc(), 0);
        let asked = ask_session(&self.log, &self.feed, address, joiner);
        agreed(session, asked)
    }

    // Handles the bytes of the clients, and sends them theirs. After the feed has ended, no new client is accepted, unless the server stays.
    fn serve(&mut self, now_ms: u64) -> Result<(), LiveFault> {
        if !self.is_closed() && self.day.tomorrow.is_none() {
            self.client_side.accept(
                self.log.runtime(),
                &mut self.spare,
                self.poll_loop.registry(),
                now_ms,
            );
        }
        self.client_side
            .hear(self.poll_loop.registry(), &mut self.live_server, now_ms);
        self.answer(now_ms)?;
        self.client_side
            .tell(self.poll_loop.registry(), &mut self.live_server, now_ms);
        Ok(())
    }

    // Returns whether clients may receive snapshots yet.
    fn is_ready(&self) -> bool {
        let may_be_early = matches!(self.serving.ready, Ready::First);
        (may_be_early || self.day.has_caught_up) && self.live_server.follower().market().is_some()
    }

    // Answers all waiting clients, as often as the budget allows.
    fn answer(&mut self, now_ms: u64) -> Result<(), LiveFault> {
        if !self.is_ready()
            || !self
                .client_side
                .may_answer(&self.live_server, self.feed.is_busy(), now_ms)
        {
            return Ok(());
        }
        let begun_ms = self.poll_loop.now()?;
        self.client_side
            .clients
            .answer(&mut self.live_server, now_ms);
        let ended_ms = self.poll_loop.now()?;
        self.client_side
            .spend(&mut self.live_server, begun_ms, ended_ms, now_ms);
        Ok(())
    }

    // Writes the events of the connections.
    fn write_lines<W: CountedWrite>(&mut self, now_ms: u64, out: &mut W) {
        for _ in 0..u64::MAX {
            let Some((who, happening)) = self.client_side.reception.next_happening() else {
                break;
            };
            self.log.tell(out, &Visit::new(who, happening, now_ms));
        }
        self.log.report(now_ms);
    }
}
