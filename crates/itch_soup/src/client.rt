//! The client's side of a session.
ghost use Rattle.std.specs.Prelude.{◌≡◌, ◌≤◌, ◌^◌};
ghost use Rattle.itch_soup.specs.Clients.{client_turn};

use crate::connection::{Connection, SessionStage, Tick};
use crate::fault::SoupFault;
use crate::login::Credentials;
use crate::origin::Origin;
use crate::packet::{LoginRequest, Packet};
use crate::payload::Payload;
use itch_codec::{MOST_MESSAGES, Seq};
use std::marker::Model;

/// The meaning of a packet for a client.
#[derive(Debug, Drop)]
pub enum ClientAct<'a> {
    /// The login was accepted. The first message has the number `next`.
    Accepted { next: Seq },
    /// The login was rejected with this code. The session is closed.
    Rejected(u8),
    /// A message, and its number.
    Data { number: u64, payload: Payload<'a> },
    Nothing,
    /// The server ended the session, which is closed now.
    Ended,
    /// The server violated the protocol, or the session was closed before. It is closed now.
    Fault(SoupFault),
}

/// The client's side of a session. Pass in packets and times; each call returns what they mean.
///
/// The caller sends [`login`](ClientSession::login) first, and calls [`sent`](ClientSession::sent) whenever it has sent something.
#[derive(Debug, Drop)]
pub struct ClientSession {
    credentials: Credentials,
    from: u64,
    next: u64,
    connection: Connection,
}

impl Model for ClientSession {
    ghost use Rattle.std.specs.Prelude.{◌≤◌, ◌^◌};
    ghost use Rattle.itch_soup.specs.Clients.{Client};

    ghost Value = { Client };

    ghost view = { λ c. record { credentials = c.credentials; from = c.from; next = c.next; connection = c.connection } };

    ghost invariant = { λ c. c.from ≤ 10 ^ 19 };
}

impl ClientSession {
    ghost use Rattle.itch_soup.specs.Packets.{PacketSpells, packet_spelling};
    ghost use Rattle.itch_soup.specs.Connections.{tick_answer};
    ghost use Rattle.itch_soup.specs.Clients.{new_client, login_of, client_answer, client_after_packet, client_after_tick, client_after_sent};

    /// Creates a session that begins at `now_ms`, as if something had been received and sent then. It requests the messages from number
    /// `from` on; 0 requests all of them.
    ///
    /// `from` must be at most 10^19.
    pub fn new(credentials: Credentials, from: u64, now_ms: u64) -> ClientSession
        requires { from ≤ 10 ^ 19 }
        ensures { result ≡ new_client credentials from now_ms }
    {
        ClientSession {
            credentials,
            from,
            next: from,
            connection: Connection::new(now_ms),
        }
    }

    /// Returns the login request to send, without the length in front. Its session is that of the credentials, without the spaces at both
    /// ends and padded on the right.
    pub fn login(&self) -> [u8; 47]
        ensures bytes { result ≡ packet_spelling (Packet.LoginRequest (login_of self.now)) }
        ensures spelled { PacketSpells (Packet.LoginRequest (login_of self.now)) result Origin.Client }
    {
        LoginRequest::spelling(&self.credentials, self.from)
    }

    /// Returns the packet to send at [`Tick::Heartbeat`], without the length in front.
    pub fn heartbeat() -> [u8; 1]
        ensures bytes { result ≡ packet_spelling Packet.ClientHeartbeat }
        ensures spelled { PacketSpells Packet.ClientHeartbeat result Origin.Client }
    {
        [b'R']
    }

    /// Returns the packet that logs out, without the length in front.
    pub fn logout() -> [u8; 1]
        ensures bytes { result ≡ packet_spelling Packet.LogoutRequest }
        ensures spelled { PacketSpells Packet.LogoutRequest result Origin.Client }
    {
        [b'O']
    }

    /// Returns the meaning of a packet received at `now_ms`.
    ///
    /// Debug packets, unsequenced data and heartbeats mean nothing.
    ///
    /// # Faults
    ///
    /// [`SoupFault::Early`] for sequenced data before the login was accepted, [`SoupFault::SecondLogin`] for an answer to a login afterwards,
    /// [`SoupFault::TooManyMessages`] for data whose number would be above 10^19 - 1, [`SoupFault::WrongSide`] for a packet that only clients
    /// send, and [`SoupFault::Closed`] after the session is closed.
    pub fn on_packet<'a>(&mut self, packet: &Packet<'a>, now_ms: u64) -> ClientAct<'a>
        ensures answer { result ≡ client_answer self.old packet.now }
        ensures after { self.new ≡ client_after_packet self.old packet.now now_ms }
    {
        let (act, stage, next) = turn(self.next, self.connection.stage, packet);
        self.next = next;
        self.connection.stage = stage;
        self.connection.heard = now_ms;
        act
    }

    /// Records that something was sent at `now_ms`.
    pub fn sent(&mut self, now_ms: u64)
        ensures { self.new ≡ client_after_sent self.old now_ms }
    {
        self.connection.sent = now_ms;
    }

    /// Returns the action that is due at `now_ms` if no packet has arrived. A heartbeat counts as sent.
    pub fn tick(&mut self, now_ms: u64) -> Tick
        ensures answer { result ≡ tick_answer self.old.connection now_ms }
        ensures after { self.new ≡ client_after_tick self.old now_ms }
    {
        self.connection.tick(now_ms)
    }
}

// Returns the meaning of a packet, the next stage, and the number of the next message.
fn turn<'a>(
    next: u64,
    stage: SessionStage,
    packet: &Packet<'a>,
) -> (ClientAct<'a>, SessionStage, u64)
    ensures { result ≡ client_turn next stage packet.now }
{
    match (stage, packet) {
        (SessionStage::Closed, _) => closing(SoupFault::Closed, next),
        (_, Packet::Debug(_) | Packet::UnsequencedData(_) | Packet::ServerHeartbeat) => {
            (ClientAct::Nothing, stage, next)
        }
        (_, Packet::EndOfSession) => (ClientAct::Ended, SessionStage::Closed, next),
        (SessionStage::Before, Packet::LoginAccepted(login)) => {
            let next = login.next;
            (
                ClientAct::Accepted { next },
                SessionStage::Accepted,
                next.value(),
            )
        }
        (SessionStage::Before, Packet::LoginRejected { code }) => {
            (ClientAct::Rejected(*code), SessionStage::Closed, next)
        }
        (SessionStage::Before, Packet::SequencedData(_)) => {
            closing(SoupFault::Early(packet.kind()), next)
        }
        (SessionStage::Accepted, Packet::SequencedData(payload)) => data(next, payload),
        (SessionStage::Accepted, Packet::LoginAccepted(_) | Packet::LoginRejected { .. }) => {
            closing(SoupFault::SecondLogin, next)
        }
        _ => closing(SoupFault::WrongSide(packet.kind()), next),
    }
}

fn closing<'a>(fault: SoupFault, next: u64) -> (ClientAct<'a>, SessionStage, u64)
    ensures { result ≡ (ClientAct.Fault fault, SessionStage.Closed, next) }
{
    (ClientAct::Fault(fault), SessionStage::Closed, next)
}

// Returns the same for a message after the login was accepted.
fn data<'a>(number: u64, payload: &Payload<'a>) -> (ClientAct<'a>, SessionStage, u64)
    ensures { result ≡ client_turn number SessionStage.Accepted (Packet.SequencedData payload.now) }
{
    if number > MOST_MESSAGES {
        return closing(SoupFault::TooManyMessages, number);
    }
    let payload = Payload::new(payload.bytes());
    (
        ClientAct::Data { number, payload },
        SessionStage::Accepted,
        number + 1,
    )
}
