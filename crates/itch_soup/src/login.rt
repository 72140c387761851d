//! Logins: the data of each side of a session, and how its names are compared and written.
ghost use Rattle.std.specs.Prelude.{◌≡◌, ◌≤◌, length, map};
ghost use Rattle.std.specs.Char.{to_ascii_lowercase};
ghost use Rattle.std.specs.Str.{bytes_eq};
ghost use Rattle.itch_codec.specs.Text.{IsPrintable};
ghost use Rattle.itch_codec.specs.Fields.{IsAlpha};
ghost use Rattle.itch_soup.specs.Names.{is_same_name, session_name, asks_for_session, client_session, server_session};

use itch_codec::Alpha;
use itch_codec::spaces::{after_spaces, is_blank};
use std::fmt::{self, Debug, Formatter};

/// The user that may log in to a server, and the session that it serves.
///
/// `{:?}` leaves the password out.
#[derive(Clone, Copy, PartialEq, Eq)]
pub struct ServerConfig {
    pub username: Alpha<6>,
    pub password: Alpha<10>,
    pub session: Alpha<10>,
}

impl Debug for ServerConfig {
    fn fmt<W: fmt::Write>(&self, f: &mut Formatter<W>) -> fmt::Result {
        show_names(f, "ServerConfig", &self.username, &self.session)
    }
}

/// The credentials of a client, with the session that it requests.
///
/// `{:?}` leaves the password out.
#[derive(Clone, Copy, PartialEq, Eq)]
pub struct Credentials {
    pub username: Alpha<6>,
    pub password: Alpha<10>,
    /// The requested session; blank for the current one.
    pub session: Alpha<10>,
}

impl Debug for Credentials {
    fn fmt<W: fmt::Write>(&self, f: &mut Formatter<W>) -> fmt::Result {
        show_names(f, "Credentials", &self.username, &self.session)
    }
}

// Writes a struct without its password.
fn show_names<W: fmt::Write>(
    f: &mut Formatter<W>,
    name: &str,
    username: &Alpha<6>,
    session: &Alpha<10>,
) -> fmt::Result {
    f.debug_struct(name)
        .field("username", username)
        .field("session", session)
        .finish_non_exhaustive()
}

/// Returns whether two user names or passwords are the same, apart from spaces at their end and the case of ASCII letters.
#[tactic(auto, using(crate::proofs::SessionNames::texts))]
pub(crate) fn is_same_name<const N: usize>(name: &Alpha<N>, other: &Alpha<N>) -> bool
    ensures { result ≡ is_same_name name.now other.now }
{
    is_same_text(name.text(), other.text())
}

#[tactic(auto, using(crate::proofs::SessionNames::texts))]
fn is_same_text(text: &str, other: &str) -> bool
    ensures { result ≡ bytes_eq (map to_ascii_lowercase text.now) (map to_ascii_lowercase other.now) }
{
    text.eq_ignore_ascii_case(other)
}

/// Returns whether the requested session is the served one: it is requested by name, or by a blank field.
pub(crate) fn asks_for_session(served: &Alpha<10>, asked: &Alpha<10>) -> bool
    ensures { result ≡ asks_for_session served.now asked.now }
{
    is_blank(asked.bytes()) || session_name(served) == session_name(asked)
}

/// Returns a session's name as a client writes it, padded on the right.
pub(crate) fn client_session(session: &Alpha<10>) -> [u8; 10]
    ensures field { result ≡ client_session session.now }
    ensures fits { IsAlpha 10 (client_session session.now) }
{
    let name = session_name(session);
    let mut field = [b' '; 10];
    field[..name.len()].copy_from_slice(name);
    field
}

/// Returns a session's name as a server writes it, padded on the left.
pub(crate) fn server_session(session: &Alpha<10>) -> [u8; 10]
    ensures field { result ≡ server_session session.now }
    ensures fits { IsAlpha 10 (server_session session.now) }
{
    let name = session_name(session);
    let mut field = [b' '; 10];
    field[10 - name.len()..].copy_from_slice(name);
    field
}

// Returns the name without the spaces at both ends, since it may be padded at either end.
#[tactic(auto, using(crate::proofs::SessionNames::trimming))]
fn session_name(session: &Alpha<10>) -> &[u8]
    ensures name { result.now ≡ session_name session.entry.now }
    ensures width { length (session_name session.now) ≤ 10 }
    ensures printable { IsPrintable (session_name session.now) }
{
    after_spaces(session.text().as_bytes())
}
