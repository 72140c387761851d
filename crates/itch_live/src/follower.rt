//! The feed side of a live server.
ghost use Rattle.std.specs.Prelude.{◌≡◌, IfOk, option_map};
ghost use Rattle.std.specs.Option.{option_copied};
ghost use Rattle.itch_day.specs.Sinks.{Decodes};
ghost use Rattle.itch_live.specs.Follows as follows;
ghost use Rattle.itch_soup.specs.Connections.{tick_answer};
ghost use Rattle.itch_soup.specs.Clients.{login_of};
ghost use Rattle.itch_soup.specs.Packets.{packet_spelling};

use crate::news::{News, ServerKind};
use crate::sessions::{Sessions, other_name};
use itch_book::OrderBook;
use itch_codec::{Alpha, CodecFault, GREATEST_SEQ, Message};
use itch_frame::{CountedWrite, Splitter, write_block};
use itch_join::{JoinFault, Joiner, Live, Snap};
use itch_market::Market;
use itch_soup::{ClientAct, ClientSession, Credentials, Origin, Packet, Tick, parse_packet};
use std::alloc::AllocError;
use std::marker::Model;

/// Keeps the market of a feed, over any number of connections to its server.
///
/// After a lost connection, the next one asks for the next message in the same session. Another day's session has different messages under
/// the same numbers. For this reason, nothing is taken from a server that accepts a login under another session name. The session is known in
/// advance, or is the one named in the first Login Accepted packet, whether it comes from the feed or from a snapshot server.
#[derive(Drop)]
pub struct Follower<B: OrderBook> {
    sessions: Sessions,
    source: ServerKind,
    splitter: Splitter<B::Alloc>,
    session: ClientSession,
    joiner: Joiner<B>,
}

impl<B: OrderBook> Model for Follower<B> {
    ghost use Rattle.std.specs.FinMap as map;
    ghost use Rattle.std.specs.Coded.{codes};
    ghost use Rattle.itch_live.specs.Follows.{Following};

    ghost Value = { Following };

    ghost coded = { Prim.hlevel (codes, map.code) };

    ghost view = { λ f. record { sessions = f.sessions; source = f.source; held = f.splitter; session = f.session; joining = f.joiner } };
}

impl<B: OrderBook> Follower<B> {
    /// Creates a follower with this joiner, which may have a snapshot already, and with the sessions that are known in advance.
    /// [`Follower::connect`] begins a connection; while no session is known, it asks for the session of the credentials.
    ///
    /// # Errors
    ///
    /// [`AllocError`] if there is no memory for a packet.
    pub fn new(
        alloc: B::Alloc,
        credentials: Credentials,
        sessions: Sessions,
        joiner: Joiner<B>,
        now_ms: u64,
    ) -> Result<Follower<B>, AllocError>
        ensures { IfOk result (λ f. f ≡ follows.new_following credentials sessions joiner now_ms) }
    {
        Ok(Follower {
            sessions,
            source: ServerKind::Live,
            splitter: Splitter::new(alloc)?,
            session: ClientSession::new(credentials, 0, now_ms),
            joiner,
        })
    }

    /// Begins a connection at this time with these credentials, and returns the login packet to send, without its two bytes of length. While
    /// there is no market, the login asks for a complete snapshot, from its first message on. Afterwards it asks for the messages of the feed
    /// from the next number on.
    pub fn connect(&mut self, credentials: Credentials, now_ms: u64) -> [u8; 47]
        ensures after { self.new ≡ follows.connected self.old credentials now_ms }
        ensures login { result ≡ packet_spelling (Packet.LoginRequest (login_of self.new.session)) }
    {
        let (source, next) = match self.joiner.next() {
            Some(next) => (ServerKind::Live, next.min(GREATEST_SEQ)),
            None => (ServerKind::Glimpse, 1),
        };
        let credentials = asking(credentials, self.sessions.expected(source));
        self.joiner.restart();
        self.source = source;
        self.splitter.clear();
        self.session = ClientSession::new(credentials, next, now_ms);
        self.session.login()
    }

    /// Passes in bytes of the feed, up to the end of the current packet. Returns how many were consumed, and their outcome. A message that is
    /// applied is also written to `record`.
    pub fn hear<W: CountedWrite>(
        &mut self,
        piece: &[u8],
        now_ms: u64,
        record: &mut W,
    ) -> (usize, News)
        ensures { follows.HearsFeed W.contents W.failures self.old piece.now now_ms record.old result record.new self.new }
    {
        let count = self.splitter.take(piece);
        let Some(payload) = self.splitter.ready() else {
            return (count, News::Nothing);
        };
        let news = hear_packet(
            &mut self.session,
            &mut self.joiner,
            self.source,
            &mut self.sessions,
            payload,
            now_ms,
            record,
        );
        self.splitter.clear();
        (count, news)
    }

    /// Applies the message of the feed with this number, which is read from the record and so is not recorded again.
    pub fn replay(
        &mut self,
        number: u64,
        payload: &[u8],
        message: &Result<Message<'_>, CodecFault>,
    ) -> Result<Live, JoinFault>
        requires decoded { Decodes payload.now message.now }
        ensures { follows.Replayed self.old number payload.now result self.new }
    {
        self.joiner.live_decoded(number, payload, message)
    }

    /// Returns the action that is due at this time towards the server.
    pub fn tick(&mut self, now_ms: u64) -> Tick
        ensures answer { result ≡ tick_answer self.old.session.connection now_ms }
        ensures after { self.new ≡ follows.ticked self.old now_ms }
    {
        self.session.tick(now_ms)
    }

    /// Returns the feed's session, if it is known.
    pub fn session(&self) -> Option<Alpha<10>>
        ensures { result ≡ self.now.sessions.feed }
    {
        self.sessions.feed
    }

    /// Returns the number of the next message, if there is a market.
    pub fn next(&self) -> Option<u64>
        ensures { result ≡ option_map (λ j. j.next) self.now.joining.state.joined }
    {
        self.joiner.next()
    }

    /// Returns the market after all messages before the next one, if there is a market.
    pub fn market(&self) -> Option<&Market<B>>
        ensures { option_copied result ≡ option_map (λ j. j.market) self.now.joining.state.joined }
    {
        self.joiner.market()
    }
}

// Returns these credentials with the expected session, if there is one.
fn asking(credentials: Credentials, expected: Option<Alpha<10>>) -> Credentials
    ensures { result ≡ follows.asking credentials expected }
{
    match expected {
        Some(session) => Credentials {
            username: credentials.username,
            password: credentials.password,
            session,
        },
        None => credentials,
    }
}

// Returns the session named by a packet, if it is a Login Accepted packet.
fn named_in(packet: &Packet<'_>) -> Option<Alpha<10>>
    ensures { result ≡ follows.named_in packet.now }
{
    match packet {
        Packet::LoginAccepted(login) => Some(login.session),
        _ => None,
    }
}

// Returns the named session if the protocol allowed an acceptance at this point.
fn accepted_as(act: &ClientAct<'_>, named: Option<Alpha<10>>) -> Option<Alpha<10>>
    ensures { result ≡ follows.accepted_as act.now named }
{
    match act {
        ClientAct::Accepted { .. } => named,
        _ => None,
    }
}

// Closes the session of a connection if it belongs to another session. Any later packet on it is a fault.
fn shut_if(other: Option<Alpha<10>>, session: &mut ClientSession, news: News, now_ms: u64) -> News
    ensures news { result ≡ follows.news_or other news }
    ensures session { session.new ≡ follows.shut_if other session.old now_ms }
{
    match other {
        Some(named) => {
            session.on_packet(&Packet::EndOfSession, now_ms);
            News::OtherSession { named }
        }
        None => news,
    }
}

// Handles the packet of a payload, and returns the outcome.
fn hear_packet<B: OrderBook, W: CountedWrite>(
    session: &mut ClientSession,
    joiner: &mut Joiner<B>,
    source: ServerKind,
    sessions: &mut Sessions,
    payload: &[u8],
    now_ms: u64,
    record: &mut W,
) -> News
    ensures { follows.HearsPacket W.contents W.failures source sessions.old session.old joiner.old payload.now now_ms record.old (result, sessions.new) record.new session.new joiner.new }
{
    match parse_packet(payload, Origin::Server) {
        Ok(packet) => {
            let act = session.on_packet(&packet, now_ms);
            let named = accepted_as(&act, named_in(&packet));
            let wanted = sessions.expected(source);
            let other = other_name(&wanted, &named);
            sessions.learn(source, named);
            let news = act_on(act, joiner, source, record);
            shut_if(other, session, news, now_ms)
        }
        Err(fault) => News::Broken(fault),
    }
}

// Acts on the meaning of a packet.
fn act_on<B: OrderBook, W: CountedWrite>(
    act: ClientAct<'_>,
    joiner: &mut Joiner<B>,
    source: ServerKind,
    record: &mut W,
) -> News
    ensures { follows.ActsOn W.contents W.failures source act.entry joiner.old record.old result record.new joiner.new }
{
    match act {
        ClientAct::Accepted { next } => News::Accepted { next: next.value() },
        ClientAct::Rejected(code) => News::Rejected(code),
        ClientAct::Data { number, payload } => match source {
            ServerKind::Glimpse => take_snapshot(joiner, payload.bytes()),
            ServerKind::Live => take_live(joiner, number, payload.bytes(), record),
        },
        ClientAct::Nothing => News::Nothing,
        ClientAct::Ended => News::Ended,
        ClientAct::Fault(fault) => News::Broken(fault),
    }
}

// Delivers a message of the snapshot to the joiner.
fn take_snapshot<B: OrderBook>(joiner: &mut Joiner<B>, payload: &[u8]) -> News
    ensures { follows.TakesSnapshot joiner.old payload.now result joiner.new }
{
    match joiner.snapshot(payload) {
        Ok(Snap::More) => News::Nothing,
        Ok(Snap::Joined { next }) => News::Joined { next },
        Err(fault) => News::Refused(fault),
    }
}

// Delivers a message of the feed to the joiner, and records it if it is applied.
fn take_live<B: OrderBook, W: CountedWrite>(
    joiner: &mut Joiner<B>,
    number: u64,
    payload: &[u8],
    record: &mut W,
) -> News
    ensures { follows.TakesLive W.contents W.failures joiner.old number payload.now record.old result record.new joiner.new }
{
    match joiner.live(number, payload) {
        Ok(Live::Applied { next }) => match write_block(record, payload) {
            Ok(()) => News::Taken { next },
            Err(fault) => News::Unrecorded(fault),
        },
        Ok(Live::Kept | Live::Old) => News::Nothing,
        Err(fault) => News::Refused(fault),
    }
}
