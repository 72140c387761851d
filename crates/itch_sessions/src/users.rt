//! The users of a server: whose logins it accepts, and the lines of a user file.
ghost use Rattle.std.specs.Prelude.{◌≡◌, ◌<◌, ◌^◌};
ghost use Rattle.std.specs.List.{find};
ghost use Rattle.std.specs.Option.{option_copied};
ghost use Rattle.itch_soup.specs.Names.{is_same_name};
ghost use Rattle.itch_soup.specs.Servers.{new_server, server_answer};
ghost use Rattle.itch_sessions.specs.Users.{ReadsLine, is_login_of, opening_verdict, verdict_by};

use crate::session_fault::SessionFault;
use crate::sessions::Login;
use itch_codec::Alpha;
use itch_soup::{LoginRequest, Packet, ServerAct, ServerConfig, ServerSession};
use std::fmt::{self, Display, Formatter};

const NOT_AUTHORISED: u8 = b'A';

const NOT_AVAILABLE: u8 = b'S';

/// The outcome of a packet from a client that has not logged in.
#[derive(Clone, Copy)]
pub enum Verdict {
    /// The packet is not a login, and changes nothing.
    Waits,
    /// The login is accepted, by this configuration.
    Accepted(ServerConfig),
    /// The login is rejected with this code.
    Rejected(u8),
    /// The client has logged out.
    Left,
    /// The client has broken the protocol.
    Fault,
}

/// Returns the outcome of this packet from a client that has not logged in, at a server of `total` messages with these users.
pub fn verdict_of(users: &[Login], session: &Alpha<10>, total: u64, packet: &Packet<'_>) -> Verdict
    requires { total < 10 ^ 19 }
    ensures { result ≡ opening_verdict users.now session.now total packet.now }
{
    match packet {
        Packet::Debug(_) | Packet::UnsequencedData(_) | Packet::ClientHeartbeat => Verdict::Waits,
        Packet::LogoutRequest => Verdict::Left,
        Packet::LoginRequest(login) => match user_of(users, login) {
            Some(user) => verdict_by(&user.config(*session), total, packet),
            None => Verdict::Rejected(NOT_AUTHORISED),
        },
        _ => Verdict::Fault,
    }
}

// Returns the outcome of a login at a server with a single user.
fn verdict_by(config: &ServerConfig, total: u64, login: &Packet<'_>) -> Verdict
    requires { total < 10 ^ 19 }
    ensures { result ≡ verdict_by config.now (server_answer (new_server config.now total 0) login.now) }
{
    match ServerSession::new(*config, total, 0).on_packet(login, 0) {
        ServerAct::Accept { .. } => Verdict::Accepted(*config),
        ServerAct::Reject(code) => Verdict::Rejected(code),
        _ => Verdict::Rejected(NOT_AVAILABLE),
    }
}

/// Returns the first of these users with the name and the password of a login, if there is one.
pub fn user_of<'a>(users: &'a [Login], login: &LoginRequest) -> Option<&'a Login>
    ensures { option_copied result ≡ find (is_login_of login.now) users.now }
{
    users.iter().find(|user| is_login_of(login, user))
}

// Returns whether a login has the name and the password of a user, compared as in SoupBinTCP.
fn is_login_of(login: &LoginRequest, user: &Login) -> bool
    ensures { result ≡ is_login_of login.now user.now }
{
    is_same_name(&user.username, &login.username) && is_same_name(&user.password, &login.password)
}

#[tactic(auto, using(itch_soup::proofs::SessionNames::texts))]
fn is_same_name<const N: usize>(name: &Alpha<N>, other: &Alpha<N>) -> bool
    ensures { result ≡ is_same_name name.now other.now }
{
    name.text().eq_ignore_ascii_case(other.text())
}

/// The fault of a line in a user file.
#[derive(Clone, Copy, Debug, PartialEq, Eq)]
pub enum LineFault {
    /// There is no colon after the user name.
    NoColon,
    /// The user name does not consist of 1 to 6 printable characters.
    BadUser,
    /// The password does not consist of 1 to 10 printable characters.
    BadPassword,
}

impl Display for LineFault {
    fn fmt<W: fmt::Write>(&self, f: &mut Formatter<W>) -> fmt::Result {
        f.write_str(match self {
            LineFault::NoColon => "no colon",
            LineFault::BadUser => "bad user",
            LineFault::BadPassword => "bad password",
        })
    }
}

/// Reads a line of a user file, without its line ending: a user name, a colon, and a password, which may contain colons.
///
/// # Errors
///
/// The [`LineFault`] of the line.
pub fn read_user(line: &str) -> Result<Login, LineFault>
    ensures { ReadsLine line.now result }
{
    let Some((user, password)) = line.split_once(':') else {
        return Err(LineFault::NoColon);
    };
    match Login::new(user, password) {
        Ok(login) => Ok(login),
        Err(SessionFault::BadUser) => Err(LineFault::BadUser),
        Err(_) => Err(LineFault::BadPassword),
    }
}
