//! The packets of SoupBinTCP.

ghost use Rattle.std.specs.Prelude.{◌≡◌, ◌+◌, ◌≤◌, ◌++◌, length, take};

use crate::fault::SoupFault;
use crate::fields::{request_at, seq_at, text_at};
use crate::login::{Credentials, ServerConfig, client_session, server_session};
use crate::origin::Origin;
use crate::payload::Payload;
use itch_codec::{Alpha, Seq, number20};
use std::fmt::{self, Debug, Formatter};

/// Login Request, `L` (SoupBinTCP 3.00, "Login Request Packet").
///
/// `{:?}` leaves the password out.
#[derive(Clone, Copy, PartialEq, Eq)]
pub struct LoginRequest {
    pub username: Alpha<6>,
    pub password: Alpha<10>,
    /// The requested session; blank for the current one.
    pub session: Alpha<10>,
    /// The number of the first requested message. 0, or a blank field, requests all messages, as 1 does.
    pub number: u64,
}

impl LoginRequest {
    ghost use Rattle.std.specs.Prelude.{◌≡◌, ◌≤◌, ◌^◌, length};
    ghost use Rattle.itch_codec.specs.Fields.{Reads};
    ghost use Rattle.itch_soup.specs.PacketTable.{login_request};
    ghost use Rattle.itch_soup.specs.Packets.{PacketSpells, packet_spelling, HasParts, parts_fault, login_request_values};
    ghost use Rattle.itch_soup.specs.Clients.{login_with};

    pub(crate) fn parse(block: &[u8]) -> Result<LoginRequest, SoupFault>
        requires { length block.now ≡ 47 }
        ensures { Reads (λ login. HasParts block.now login_request.parts (login_request_values login)) (parts_fault block.now login_request.parts) result }
    {
        Ok(LoginRequest {
            username: text_at(block, 1)?,
            password: text_at(block, 7)?,
            session: text_at(block, 17)?,
            number: request_at(block, 27)?,
        })
    }

    /// Returns the bytes of a login with these credentials that requests the messages from this number on. Texts are padded on the right, and
    /// the number on the left.
    pub(crate) fn spelling(credentials: &Credentials, number: u64) -> [u8; 47]
        requires { number ≤ 10 ^ 19 }
        ensures bytes { result ≡ packet_spelling (Packet.LoginRequest (login_with credentials.now number)) }
        ensures spelled { PacketSpells (Packet.LoginRequest (login_with credentials.now number)) result Origin.Client }
    {
        let mut block = [b'L'; 47];
        put(&mut block, 1, credentials.username.bytes());
        put(&mut block, 7, credentials.password.bytes());
        put(&mut block, 17, &client_session(&credentials.session));
        put(&mut block, 27, &number20(number));
        block
    }
}

impl Debug for LoginRequest {
    fn fmt<W: fmt::Write>(&self, f: &mut Formatter<W>) -> fmt::Result {
        f.debug_struct("LoginRequest")
            .field("username", &self.username)
            .field("session", &self.session)
            .field("number", &self.number)
            .finish_non_exhaustive()
    }
}

/// Login Accepted, `A` (SoupBinTCP 3.00, "Login Accepted Packet").
#[derive(Clone, Copy, Debug, PartialEq, Eq)]
pub struct LoginAccepted {
    pub session: Alpha<10>,
    /// The number of the first sequenced data packet that follows.
    pub next: Seq,
}

impl LoginAccepted {
    ghost use Rattle.std.specs.Prelude.{◌≡◌, length};
    ghost use Rattle.itch_codec.specs.Fields.{Reads};
    ghost use Rattle.itch_soup.specs.PacketTable.{login_accepted};
    ghost use Rattle.itch_soup.specs.Packets.{PacketSpells, packet_spelling, HasParts, parts_fault, login_accepted_values};
    ghost use Rattle.itch_soup.specs.Servers.{acceptance};

    /// Returns the bytes of this server's acceptance from this number on. Both fields are padded on the left.
    pub(crate) fn spelling(config: &ServerConfig, next: Seq) -> [u8; 31]
        ensures bytes { result ≡ packet_spelling (Packet.LoginAccepted (acceptance config.now next)) }
        ensures spelled { PacketSpells (Packet.LoginAccepted (acceptance config.now next)) result Origin.Server }
    {
        let mut block = [b'A'; 31];
        put(&mut block, 1, &server_session(&config.session));
        put(&mut block, 11, &number20(next.value()));
        block
    }

    pub(crate) fn parse(block: &[u8]) -> Result<LoginAccepted, SoupFault>
        requires { length block.now ≡ 31 }
        ensures { Reads (λ login. HasParts block.now login_accepted.parts (login_accepted_values login)) (parts_fault block.now login_accepted.parts) result }
    {
        Ok(LoginAccepted {
            session: text_at(block, 1)?,
            next: seq_at(block, 11)?,
        })
    }
}

/// A packet. Each type has one variant (SoupBinTCP 3.00, "Logical Packets").
#[derive(Debug, Drop, PartialEq, Eq)]
pub enum Packet<'a> {
    /// `+`, from either side: a text for people.
    Debug(Payload<'a>),
    /// `A`, from the server.
    LoginAccepted(LoginAccepted),
    /// `J`, from the server: `A` for not authorised, `S` for a session that is not available. Any byte is accepted.
    LoginRejected { code: u8 },
    /// `S`, from the server: the next message.
    SequencedData(Payload<'a>),
    /// `H`, from the server.
    ServerHeartbeat,
    /// `Z`, from the server.
    EndOfSession,
    /// `L`, from the client.
    LoginRequest(LoginRequest),
    /// `U`, from the client; it is also accepted from a server.
    UnsequencedData(Payload<'a>),
    /// `R`, from the client.
    ClientHeartbeat,
    /// `O`, from the client.
    LogoutRequest,
}

impl Packet<'_> {
    ghost use Rattle.std.specs.Prelude.{◌≡◌};
    ghost use Rattle.itch_soup.specs.Packets.{packet_type};

    /// Returns the type byte.
    pub(crate) fn kind(&self) -> u8
        ensures { result ≡ (packet_type self.now).kind }
    {
        match self {
            Packet::Debug(_) => b'+',
            Packet::LoginAccepted(_) => b'A',
            Packet::LoginRejected { .. } => b'J',
            Packet::SequencedData(_) => b'S',
            Packet::ServerHeartbeat => b'H',
            Packet::EndOfSession => b'Z',
            Packet::LoginRequest(_) => b'L',
            Packet::UnsequencedData(_) => b'U',
            Packet::ClientHeartbeat => b'R',
            Packet::LogoutRequest => b'O',
        }
    }
}

// Writes a field after the first `at` bytes of the block.
#[tactic(auto, using(crate::proofs::LoginBytes::putting))]
fn put<const N: usize>(block: &mut [u8], at: usize, field: &[u8; N])
    requires { at + N ≤ length block.old }
    ensures length { length block.new ≡ length block.old }
    ensures front { take (at + N) block.new ≡ take at block.old ++ field.now }
{
    block[at..at + N].copy_from_slice(field);
}
