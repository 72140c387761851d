//! The client of a connection, and its events.

use crate::log::entry::{
    LogEvent, LogLevel, write_letter, write_number, write_seconds, write_shown, write_text,
};
use crate::log::form::LogForm;
use crate::outcome::SessionOutcome;
use std::fmt::{self, Display, Formatter};
use std::net::IpAddr;
use std::str;

/// The client of a connection.
#[derive(Clone, Copy, Debug)]
pub struct Who {
    /// The number of the connection, starting at 1.
    pub number: u64,
    pub address: IpAddr,
    /// The user name of its login, once it was read.
    pub user: Option<User>,
    /// When it connected, and how many bytes it was sent.
    pub since_ms: u64,
    pub sent: u64,
}

impl Who {
    /// Creates a client that has not logged in yet.
    pub fn new(number: u64, address: IpAddr, now_ms: u64) -> Who {
        Who {
            number,
            address,
            user: None,
            since_ms: now_ms,
            sent: 0,
        }
    }
}

/// A user name, padded with spaces at its end.
#[derive(Clone, Copy, Debug)]
pub struct User {
    name: [u8; 6],
}

impl User {
    /// Creates the user with this name, or its first six bytes.
    pub fn new(text: &str) -> User {
        let mut name = [b' '; 6];
        for (to, from) in name.iter_mut().zip(text.as_bytes()) {
            *to = *from;
        }
        User { name }
    }

    fn text(&self) -> &str {
        str::from_utf8(&self.name).unwrap_or("").trim_end()
    }
}

/// An event of a connection.
#[derive(Clone, Copy, Debug)]
pub enum Happening {
    Connected,
    LoggedIn,
    /// The first byte of its snapshot was sent.
    FirstByte,
    Ended(SessionOutcome),
}

/// An event of a client's connection, with the milliseconds since it connected.
#[derive(Clone, Copy, Debug)]
pub struct Visit {
    pub who: Who,
    pub happening: Happening,
    pub passed_ms: u64,
}

impl Visit {
    pub fn new(who: Who, happening: Happening, now_ms: u64) -> Visit {
        Visit {
            who,
            happening,
            passed_ms: now_ms.saturating_sub(who.since_ms),
        }
    }
}

impl Display for Visit {
    fn fmt<W: fmt::Write>(&self, f: &mut Formatter<W>) -> fmt::Result {
        let (name, number) = (self.name(), self.who.number);
        write!(f, "{name} {number}")
    }
}

impl LogEvent for Visit {
    fn level(&self) -> LogLevel {
        match self.happening {
            Happening::Connected | Happening::LoggedIn | Happening::FirstByte => LogLevel::Info,
            Happening::Ended(outcome) => level_of(outcome),
        }
    }

    fn name(&self) -> &'static str {
        match self.happening {
            Happening::Connected => "client_connected",
            Happening::LoggedIn => "client_logged_in",
            Happening::FirstByte => "client_first_byte",
            Happening::Ended(_) => "client_ended",
        }
    }

    fn write_fields<W: fmt::Write>(&self, f: &mut Formatter<W>, form: LogForm) -> fmt::Result {
        write_number(f, form, "number", self.who.number)?;
        write_shown(f, form, "address", &self.who.address)?;
        if let Some(user) = &self.who.user {
            write_text(f, form, "user", user.text())?;
        }
        match self.happening {
            Happening::Connected => Ok(()),
            Happening::LoggedIn | Happening::FirstByte => {
                write_seconds(f, form, "seconds", self.passed_ms)
            }
            Happening::Ended(outcome) => {
                write_number(f, form, "bytes", self.who.sent)?;
                write_seconds(f, form, "seconds", self.passed_ms)?;
                write_outcome(f, form, outcome)
            }
        }
    }
}

fn level_of(outcome: SessionOutcome) -> LogLevel {
    match outcome {
        SessionOutcome::Answered { .. } | SessionOutcome::Played { .. } | SessionOutcome::Left =>
            LogLevel::Info,
        _ => LogLevel::Warn,
    }
}

// Writes how a connection ended, with its number or code.
fn write_outcome<W: fmt::Write>(
    f: &mut Formatter<W>,
    form: LogForm,
    outcome: SessionOutcome,
) -> fmt::Result {
    write_text(f, form, "reason", reason_of(outcome))?;
    match outcome {
        SessionOutcome::Answered { next, .. } => write_number(f, form, "next", next),
        SessionOutcome::Played { from, .. } => write_number(f, form, "from", from),
        SessionOutcome::Rejected(code) => write_letter(f, form, "code", code),
        _ => Ok(()),
    }
}

fn reason_of(outcome: SessionOutcome) -> &'static str {
    match outcome {
        SessionOutcome::Answered { .. } => "answered",
        SessionOutcome::Played { .. } => "played",
        SessionOutcome::Rejected(_) => "rejected",
        SessionOutcome::Left => "left",
        SessionOutcome::Fault => "fault",
        SessionOutcome::CutOff => "cut off",
        SessionOutcome::Slowest => "slowest",
    }
}
