//! The connection to a feed, or to the snapshot server.

mod acting;
mod health;

use crate::cause::cause_of;
use crate::feed_line::{Named, Trouble};
use crate::glance::Glance;
use itch_book::OrderBook;
use itch_codec::Alpha;
use itch_frame::CountedWrite;
use itch_live::{Follower, PendingPacket};
use itch_records::{LiveFault, Step, step_of};
use itch_sessions::log::Log;
use itch_sessions::sessions::{Login, current_session};
use itch_sessions::{Got, Logins, MOST_FEEDS, PollLoop, ReadBuffer, Route, Servers, Socket};
use itch_soup::{ClientSession, Tick};
use itch_status::LossCause;
use mio::Registry;
use mio::event::Event;
use mio::net::TcpStream;
use std::alloc::{AllocError, Global};
use std::fs::File;
use std::io;
use std::net::{Net, SocketAddr};
use std::rt::{Clock, Files};

/// The most bytes of the feed that are read at a time.
pub(crate) const SHARE: usize = 1 << 18;

// A connection, and the packet that is still to be sent.
#[derive(Drop)]
struct FeedConnection {
    socket: Socket,
    packet: PendingPacket,
}

impl FeedConnection {
    // Sends the pending bytes, and a heartbeat if one is due.
    fn send(&mut self, heartbeat: bool) -> io::Result<()> {
        if heartbeat && self.packet.is_empty() {
            self.packet = PendingPacket::of(&ClientSession::heartbeat());
        }
        let count = self.socket.write(self.packet.bytes())?;
        self.packet.took(count);
        Ok(())
    }
}

/// The connection of a follower, which is made again whenever it is lost.
#[derive(Drop)]
pub(crate) struct FeedSide<'a> {
    route: Route<'a>,
    // The login that it uses.
    account: Logins<'a>,
    // The address of the last connection.
    address: Option<SocketAddr>,
    token: usize,
    // The session of the snapshot server, if it differs from the feed's.
    glimpse_session: Option<Alpha<10>>,
    connection: Option<FeedConnection>,
    again_at: u64,
    // Whether a login was accepted on this connection, and when, and whether one was accepted on any.
    is_accepted: bool,
    accepted_ms: u64,
    was_accepted: bool,
    // Whether the loss of the server was reported, and what else was reported about each server since.
    is_down: bool,
    troubles: [Option<Trouble>; MOST_FEEDS],
    // The last cause of a loss since a login was accepted, and the number of losses.
    cause: Option<LossCause>,
    losses: u64,
    glance: Glance,
    // The timestamp of the last message.
    market_ns: Option<u64>,
    piece: ReadBuffer,
    // How many more bytes may be read in this turn.
    share: usize,
}

impl<'a> FeedSide<'a> {
    /// Creates one without a connection. Its socket will be registered under this number.
    ///
    /// # Errors
    ///
    /// [`AllocError`] if memory is refused.
    pub(crate) fn new(
        alloc: Global,
        servers: Servers<'a>,
        account: Logins<'a>,
        glimpse_session: Option<Alpha<10>>,
        token: usize,
    ) -> Result<FeedSide<'a>, AllocError> {
        let piece = ReadBuffer::new(alloc)?;
        Ok(FeedSide {
            route: Route::new(alloc, servers),
            account,
            address: None,
            token,
            glimpse_session,
            connection: None,
            again_at: 0,
            is_accepted: false,
            accepted_ms: 0,
            was_accepted: false,
            is_down: false,
            troubles: [None; MOST_FEEDS],
            cause: None,
            losses: 0,
            glance: Glance::new(),
            market_ns: None,
            piece,
            share: 0,
        })
    }

    /// Records the readiness reported by an event.
    pub(crate) fn note(&mut self, event: &Event) {
        if let Some(connection) = &mut self.connection {
            connection.socket.note(event);
        }
    }

    /// Returns whether there may be something to do without waiting for another event.
    pub(crate) fn is_busy(&self) -> bool {
        match &self.connection {
            Some(connection) => !self.piece.is_empty() || connection.socket.is_readable(),
            None => false,
        }
    }

    /// Returns whether a connection is due at this time.
    pub(crate) fn is_due(&self, now_ms: u64) -> bool {
        self.connection.is_none() && now_ms >= self.again_at
    }

    /// Begins a turn: connects if a connection is due. The login is checked for changes before.
    pub(crate) fn begin_turn<
        R: Net + Clock + Files<File = File> + Eprint + AllocGlobal,
        B: OrderBook,
    >(
        &mut self,
        log: &mut Log<'_, R>,
        poll_loop: &PollLoop<'_, R>,
        follower: &mut Follower<B>,
        now_ms: u64,
    ) {
        self.share = SHARE;
        if !self.is_due(now_ms) {
            return;
        }
        self.account.look(log, "feed", now_ms);
        let live = follower.next().is_some();
        self.address = self.route.next(log.runtime(), live);
        // Resolving a name may take long.
        let now_ms = poll_loop.now().unwrap_or(now_ms);
        let Some(address) = self.address else {
            let why = if live {
                Trouble::Unknown
            } else {
                Trouble::GlimpseUnknown
            };
            return self.lose(log, follower, Some(why), now_ms);
        };
        match self.connect(
            log.runtime(),
            poll_loop.registry(),
            address,
            follower,
            now_ms,
        ) {
            Ok(connection) => self.connection = Some(connection),
            Err(error) => self.break_off(log, follower, cause_of(error), now_ms),
        }
    }

    // Begins to connect to an address. The login is sent when the connection is made.
    fn connect<N: Net, B: OrderBook>(
        &mut self,
        net: &N,
        registry: &Registry,
        address: SocketAddr,
        follower: &mut Follower<B>,
        now_ms: u64,
    ) -> io::Result<FeedConnection> {
        let credentials = self.account.first().credentials(current_session());
        let login = follower.connect(credentials, now_ms);
        let stream = TcpStream::connect(net, address)?;
        // A login or a heartbeat must not wait for later data.
        let _ = stream.set_nodelay(true);
        Ok(FeedConnection {
            socket: Socket::register(registry, stream, self.token, false)?,
            packet: PendingPacket::of(&login),
        })
    }

    /// Ends a turn: sends the pending bytes, and a heartbeat if one is due. A server that was silent for too long counts as lost.
    pub(crate) fn end_turn<R: Eprint, B: OrderBook>(
        &mut self,
        log: &mut Log<'_, R>,
        follower: &mut Follower<B>,
        now_ms: u64,
    ) {
        let Some(connection) = &mut self.connection else {
            return;
        };
        let tick = follower.tick(now_ms);
        let sent = connection.send(matches!(tick, Tick::Heartbeat));
        match sent {
            Err(error) => self.break_off(log, follower, cause_of(error), now_ms),
            Ok(()) if matches!(tick, Tick::Lost) => {
                self.break_off(log, follower, LossCause::Silent, now_ms);
            }
            Ok(()) => {}
        }
    }

    // Drops the connection, for a cause that the status and the log show.
    fn break_off<R: Eprint, B: OrderBook>(
        &mut self,
        log: &mut Log<'_, R>,
        follower: &Follower<B>,
        cause: LossCause,
        now_ms: u64,
    ) {
        self.cause = Some(cause);
        let why = if log.has_causes() {
            Some(Trouble::Cut(cause))
        } else {
            None
        };
        self.lose(log, follower, why, now_ms);
    }

    // Drops the connection, to make another one. The loss of the server is reported once, until it accepts a login. Further details about a
    // server are reported when they change.
    fn lose<R: Eprint, B: OrderBook>(
        &mut self,
        log: &mut Log<'_, R>,
        follower: &Follower<B>,
        why: Option<Trouble>,
        now_ms: u64,
    ) {
        self.losses = self.losses.saturating_add(1);
        let next = follower.next();
        let server = self.route.server();
        let mut is_of_a_name = false;
        if let Some(why) = &why {
            self.cause = Some(why.cause());
            is_of_a_name = why.is_of_a_name();
        }
        let name = self.name(next.is_some(), is_of_a_name);
        let lost = self.route.name(next.is_some());
        let wait = self.route.lose(next.is_some(), now_ms);
        self.drop_connection(now_ms.saturating_add(wait));
        let is_known = self.is_down && (why.is_none() || self.trouble_of(server) == why);
        self.is_down = true;
        if is_known {
            return;
        }
        match &why {
            Some(line) if !line.is_a_cut() => log.say(&Named { line: *line, name }),
            _ => log.say(&self.loss(next, lost)),
        }
        if let Some(trouble) = self.troubles.get_mut(server) {
            *trouble = why;
        }
    }

    // Returns the last report about a server of the feed.
    fn trouble_of(&self, server: usize) -> Option<Trouble> {
        match self.troubles.as_slice().get(server) {
            Some(trouble) => *trouble,
            None => None,
        }
    }

    // Returns the name of the server, if it is one of several, or if a line is about its name.
    fn name(&self, live: bool, is_of_a_name: bool) -> Option<&'a str> {
        if is_of_a_name || (live && !self.route.servers().feeds.is_one()) {
            return self.route.name(live);
        }
        None
    }

    fn drop_connection(&mut self, again_at: u64) {
        self.connection = None;
        self.is_accepted = false;
        self.piece.clear();
        self.glance.clear();
        self.again_at = again_at;
    }

    /// Returns the next step, or `None` if nothing more has arrived or this turn's share was read.
    ///
    /// A message that is applied is also written to `record`.
    ///
    /// # Errors
    ///
    /// A [`LiveFault`] if the step ends the follower.
    pub(crate) fn step<R: Eprint, B: OrderBook, W: CountedWrite>(
        &mut self,
        log: &mut Log<'_, R>,
        follower: &mut Follower<B>,
        now_ms: u64,
        record: &mut W,
    ) -> Result<Option<Step>, LiveFault> {
        if self.piece.is_empty() {
            match self.fill() {
                Ok(Got::Bytes(_)) => {}
                Ok(Got::Nothing) => return Ok(None),
                Ok(Got::Ended) => {
                    self.break_off(log, follower, LossCause::Closed, now_ms);
                    return Ok(None);
                }
                Err(error) => {
                    self.break_off(log, follower, cause_of(error), now_ms);
                    return Ok(None);
                }
            }
        }
        let (count, news) = follower.hear(self.piece.bytes(), now_ms, record);
        self.glance.read(&self.piece.bytes()[..count]);
        self.piece.passed(count);
        let step = step_of(news)?;
        if matches!(step, Step::Taken(_)) {
            self.market_ns = self.glance.stamp().or(self.market_ns);
        }
        self.follow(log, follower, &step, now_ms)?;
        Ok(Some(step))
    }

    /// Closes the connection. The next one is made at this time.
    pub(crate) fn pause(&mut self, until_ms: u64) {
        self.drop_connection(until_ms);
    }

    /// Begins another day: no login was accepted in its session yet.
    pub(crate) fn begin_day(&mut self, now_ms: u64) {
        self.drop_connection(now_ms);
        self.route.begin();
        self.was_accepted = false;
        self.is_down = false;
        self.forget_troubles();
        self.cause = None;
        self.market_ns = None;
    }

    /// Allows another share of bytes to be read in this turn.
    pub(crate) fn renew(&mut self) {
        self.share = SHARE;
    }

    /// Returns the login that it uses.
    pub(crate) fn login(&self) -> Login {
        self.account.first()
    }

    /// Returns the servers that it may connect to.
    pub(crate) fn servers(&self) -> Servers<'a> {
        self.route.servers()
    }

    /// Restricts it to this address.
    pub(crate) fn keep_to(&mut self, address: SocketAddr) {
        self.route.keep_to(address);
    }

    /// Returns the address of the last connection, if there is one.
    pub(crate) fn address(&self) -> Option<SocketAddr> {
        self.address
    }

    /// Returns the index of the current or next server among those of the feed.
    pub(crate) fn server(&self) -> usize {
        self.route.server()
    }

    /// Returns whether a connection was lost, or could not be made, since a login was accepted.
    pub(crate) fn is_down(&self) -> bool {
        self.is_down
    }

    /// Returns whether the server has accepted a login.
    pub(crate) fn was_accepted(&self) -> bool {
        self.was_accepted
    }

    /// Returns whether the feed has ended its session.
    pub(crate) fn is_over(&self) -> bool {
        self.connection.is_none() && self.again_at == u64::MAX
    }

    // Reads the next piece, as far as this turn's share allows.
    fn fill(&mut self) -> io::Result<Got> {
        let Some(connection) = &mut self.connection else {
            return Ok(Got::Nothing);
        };
        if self.share == 0 {
            return Ok(Got::Nothing);
        }
        let got = self.piece.fill(&mut connection.socket)?;
        if let Got::Bytes(count) = got {
            self.share = self.share.saturating_sub(count);
        }
        Ok(got)
    }
}
