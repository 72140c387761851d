//! The server's side of a session.
ghost use Rattle.std.specs.Prelude.{◌≡◌, ◌<◌, ◌^◌};
ghost use Rattle.itch_soup.specs.Servers.{server_turn, turn_of, is_user, judged};

use crate::connection::{Connection, SessionStage, Tick};
use crate::fault::SoupFault;
use crate::login::{ServerConfig, asks_for_session, is_same_name};
use crate::origin::Origin;
use crate::packet::{LoginAccepted, LoginRequest, Packet};
use itch_codec::Seq;
use std::marker::Model;

const NOT_AUTHORISED: u8 = b'A';

const NOT_AVAILABLE: u8 = b'S';

/// The action of a server after a packet.
#[derive(Clone, Copy, Debug)]
pub enum ServerAct {
    /// Accept the login, and send the messages from this number on.
    Accept { next: Seq },
    /// Reject the login with this code: `A` for not authorised, `S` for a session that is not available. The session is closed.
    Reject(u8),
    Nothing,
    /// The client logged out. The session is closed.
    Close,
    /// The client violated the protocol, or the session was closed before. It is closed now.
    Fault(SoupFault),
}

/// The judgement on a login.
#[derive(Clone, Copy)]
pub(crate) enum Judgement {
    /// The login is accepted, and the messages from this number on are sent.
    Accepted { next: Seq },
    /// The login is rejected with this code.
    Rejected(u8),
}

/// The server's side of a session. Pass in packets and times; each call returns the action to take.
///
/// The caller calls [`sent`](ServerSession::sent) whenever it has sent something.
#[derive(Debug, Drop)]
pub struct ServerSession {
    config: ServerConfig,
    total: u64,
    connection: Connection,
}

impl Model for ServerSession {
    ghost use Rattle.std.specs.Prelude.{◌<◌, ◌^◌};
    ghost use Rattle.itch_soup.specs.Servers.{Server};

    ghost Value = { Server };

    ghost view = { λ s. record { config = s.config; total = s.total; connection = s.connection } };

    ghost invariant = { λ s. s.total < 10 ^ 19 };
}

impl ServerSession {
    ghost use Rattle.itch_soup.specs.Packets.{PacketSpells, packet_spelling};
    ghost use Rattle.itch_soup.specs.Connections.{tick_answer};
    ghost use Rattle.itch_soup.specs.Servers.{new_server, acceptance, server_answer, server_after_packet, server_after_tick, server_after_sent};

    /// Creates a session of `total` messages that begins at `now_ms`, as if something had been received and sent then.
    ///
    /// `total` must be at most 10^19 - 1.
    pub fn new(config: ServerConfig, total: u64, now_ms: u64) -> ServerSession
        requires { total < 10 ^ 19 }
        ensures { result ≡ new_server config total now_ms }
    {
        ServerSession {
            config,
            total,
            connection: Connection::new(now_ms),
        }
    }

    /// Returns the packet to send after a login is accepted from this number on, without the length in front. Its session is that of the
    /// configuration, without the spaces at both ends and padded on the left.
    pub fn accepted(&self, next: Seq) -> [u8; 31]
        ensures bytes { result ≡ packet_spelling (Packet.LoginAccepted (acceptance self.now.config next)) }
        ensures spelled { PacketSpells (Packet.LoginAccepted (acceptance self.now.config next)) result Origin.Server }
    {
        LoginAccepted::spelling(&self.config, next)
    }

    /// Returns the packet to send after a login is rejected with this code, without the length in front.
    pub fn rejected(code: u8) -> [u8; 2]
        ensures bytes { result ≡ packet_spelling (Packet.LoginRejected code) }
        ensures spelled { PacketSpells (Packet.LoginRejected code) result Origin.Server }
    {
        [b'J', code]
    }

    /// Returns the packet to send at [`Tick::Heartbeat`], without the length in front.
    pub fn heartbeat() -> [u8; 1]
        ensures bytes { result ≡ packet_spelling Packet.ServerHeartbeat }
        ensures spelled { PacketSpells Packet.ServerHeartbeat result Origin.Server }
    {
        [b'H']
    }

    /// Returns the packet to send after the last message, without the length in front.
    pub fn end() -> [u8; 1]
        ensures bytes { result ≡ packet_spelling Packet.EndOfSession }
        ensures spelled { PacketSpells Packet.EndOfSession result Origin.Server }
    {
        [b'Z']
    }

    /// Returns the answer to a packet received at `now_ms`.
    ///
    /// The first login is judged by its user name and password, then by its session, then by its number, which may be at most the one after
    /// the last message. The answer to debug packets, unsequenced data and heartbeats is `Nothing`.
    ///
    /// # Faults
    ///
    /// [`SoupFault::SecondLogin`] after a login was accepted, [`SoupFault::WrongSide`] for a packet that only servers send, and
    /// [`SoupFault::Closed`] after the session is closed.
    pub fn on_packet(&mut self, packet: &Packet<'_>, now_ms: u64) -> ServerAct
        ensures answer { result ≡ server_answer self.old packet.now }
        ensures after { self.new ≡ server_after_packet self.old packet.now now_ms }
    {
        let (act, stage) = turn(&self.config, self.total, self.connection.stage, packet);
        self.connection.stage = stage;
        self.connection.heard = now_ms;
        act
    }

    /// Records that something was sent at `now_ms`.
    pub fn sent(&mut self, now_ms: u64)
        ensures { self.new ≡ server_after_sent self.old now_ms }
    {
        self.connection.sent = now_ms;
    }

    /// Returns the action that is due at `now_ms` if no packet has arrived. A heartbeat counts as sent.
    pub fn tick(&mut self, now_ms: u64) -> Tick
        ensures answer { result ≡ tick_answer self.old.connection now_ms }
        ensures after { self.new ≡ server_after_tick self.old now_ms }
    {
        self.connection.tick(now_ms)
    }
}

// Returns the answer to a packet, and the next stage.
fn turn(
    config: &ServerConfig,
    total: u64,
    stage: SessionStage,
    packet: &Packet<'_>,
) -> (ServerAct, SessionStage)
    requires { total < 10 ^ 19 }
    ensures { result ≡ server_turn config.now total stage packet.now }
{
    match (stage, packet) {
        (SessionStage::Closed, _) => closing(SoupFault::Closed),
        (_, Packet::Debug(_) | Packet::UnsequencedData(_) | Packet::ClientHeartbeat) => {
            (ServerAct::Nothing, stage)
        }
        (_, Packet::LogoutRequest) => (ServerAct::Close, SessionStage::Closed),
        (SessionStage::Before, Packet::LoginRequest(login)) => match judge(config, total, login) {
            Judgement::Accepted { next } => (ServerAct::Accept { next }, SessionStage::Accepted),
            Judgement::Rejected(code) => (ServerAct::Reject(code), SessionStage::Closed),
        },
        (SessionStage::Accepted, Packet::LoginRequest(_)) => closing(SoupFault::SecondLogin),
        _ => closing(SoupFault::WrongSide(packet.kind())),
    }
}

fn closing(fault: SoupFault) -> (ServerAct, SessionStage)
    ensures { result ≡ (ServerAct.Fault fault, SessionStage.Closed) }
{
    (ServerAct::Fault(fault), SessionStage::Closed)
}

/// Returns the judgement on a login to a session of `total` messages.
pub(crate) fn judge(config: &ServerConfig, total: u64, login: &LoginRequest) -> Judgement
    requires { total < 10 ^ 19 }
    ensures { turn_of result ≡ judged config.now total login.now }
{
    if !is_user(config, login) {
        return Judgement::Rejected(NOT_AUTHORISED);
    }
    if !asks_for_session(&config.session, &login.session) {
        return Judgement::Rejected(NOT_AVAILABLE);
    }
    match Seq::new(login.number.max(1)) {
        Some(next) if next.value() <= total + 1 => Judgement::Accepted { next },
        _ => Judgement::Rejected(NOT_AVAILABLE),
    }
}

fn is_user(config: &ServerConfig, login: &LoginRequest) -> bool
    ensures { result ≡ is_user config.now login.now }
{
    is_same_name(&config.username, &login.username)
        && is_same_name(&config.password, &login.password)
}
