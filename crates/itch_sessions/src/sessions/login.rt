//! The user name and the password of a login.
ghost use Rattle.std.specs.Prelude.{◌≡◌, ◌==◌, ◌↔◌, IsSome, IfSome, [], codes};
ghost use Rattle.std.specs.List.{before_first};
ghost use Rattle.itch_codec.specs.Text.{padded_to};
ghost use Rattle.itch_sessions.specs.Logins.{IsWord, ReadsLogin, without_return};

use crate::session_fault::SessionFault;
use itch_codec::Alpha;
use itch_soup::{Credentials, ServerConfig};
use std::fmt::{self, Debug, Formatter};

/// A user name and a password, padded as in a login.
///
/// `{:?}` omits the password.
#[derive(Clone, Copy, PartialEq, Eq)]
pub struct Login {
    pub username: Alpha<6>,
    pub password: Alpha<10>,
}

impl Debug for Login {
    fn fmt<W: fmt::Write>(&self, f: &mut Formatter<W>) -> fmt::Result {
        f.debug_struct("Login")
            .field("username", &self.username)
            .finish_non_exhaustive()
    }
}

impl Login {
    /// Checks a user name of 1 to 6 and a password of 1 to 10 printable characters, the user name first.
    ///
    /// # Errors
    ///
    /// [`SessionFault::BadUser`] or [`SessionFault::BadPassword`].
    pub fn new(user: &str, password: &str) -> Result<Login, SessionFault>
        ensures { ReadsLogin user.now password.now result }
    {
        let Some(username) = word(user) else {
            return Err(SessionFault::BadUser);
        };
        match word(password) {
            Some(password) => Ok(Login { username, password }),
            None => Err(SessionFault::BadPassword),
        }
    }

    /// Returns the configuration of a server with this session that accepts this login.
    pub fn config(&self, served: Alpha<10>) -> ServerConfig
        ensures username { result.username ≡ self.now.username }
        ensures password { result.password ≡ self.now.password }
        ensures session { result.session ≡ served }
    {
        ServerConfig {
            username: self.username,
            password: self.password,
            session: served,
        }
    }

    /// Returns the credentials of a client for this session. A blank session means the current one.
    pub fn credentials(&self, asked: Alpha<10>) -> Credentials
        ensures username { result.username ≡ self.now.username }
        ensures password { result.password ≡ self.now.password }
        ensures session { result.session ≡ asked }
    {
        Credentials {
            username: self.username,
            password: self.password,
            session: asked,
        }
    }
}

/// Returns the default session of a server: `ITCHSNAP`.
pub fn default_session() -> Alpha<10>
    ensures { result ≡ padded_to 10 (codes "ITCHSNAP") }
{
    Alpha::from_text("ITCHSNAP").unwrap()
}

/// Returns the blank name by which a login asks for the current session.
pub fn current_session() -> Alpha<10>
    ensures { result ≡ padded_to 10 [] }
{
    Alpha::from_text("").unwrap()
}

/// Returns the first line of a text, without its line ending.
pub fn first_line(text: &str) -> &str
    ensures { result.now ≡ without_return (before_first (λ byte. byte == 10) text.now) }
{
    match text.split_once('\n') {
        Some((line, _)) => without_return(line),
        None => without_return(text),
    }
}

/// Returns a line without the carriage return at its end, if it has one.
pub fn without_return(line: &str) -> &str
    ensures { result.now ≡ without_return line.now }
{
    match line.split_once('\r') {
        Some((front, rest)) if rest.is_empty() => front,
        _ => line,
    }
}

// Returns a text padded to its field, if it has at least one character and fits.
fn word<const N: usize>(text: &str) -> Option<Alpha<N>>
    ensures taken { IsSome result ↔ IsWord N text.now }
    ensures padded { IfSome result (λ word. word ≡ padded_to N text.now) }
{
    if text.is_empty() {
        return None;
    }
    Alpha::from_text(text).ok()
}
