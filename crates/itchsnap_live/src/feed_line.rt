//! The lines about the state of the feed.
ghost use Rattle.std.specs.Prelude.{◌≡◌};
ghost use Rattle.itchsnap_live.specs.Losses.{trouble_cause};

use crate::cause::cause_of_code;
use itch_codec::Alpha;
use itch_sessions::log::entry::{LogEvent, LogLevel, write_letter, write_number, write_text};
use itch_sessions::log::form::LogForm;
use itch_status::LossCause;
use std::fmt::{self, Display, Formatter};

/// The state of the connection to the feed, or to the snapshot server.
#[derive(Clone, Copy, Debug, PartialEq, Eq)]
pub(crate) enum FeedLine {
    /// The snapshot server accepted the login.
    GlimpseAccepted,
    /// The connection to the snapshot server is lost, or the server does not answer.
    GlimpseLost,
    /// The feed accepted the login from this number on.
    Accepted(u64),
    /// The market is that of the snapshot, up to this number.
    Joined(u64),
    /// The connection to the feed is lost, or the feed does not answer. The next message has this number.
    Lost(u64),
    /// The feed ended its session before this number.
    Ended(u64),
}

impl Display for FeedLine {
    ghost use Rattle.std.specs.Prelude.{Some};
    ghost use Rattle.itchsnap_live.specs.FeedLines.{feed_words};

    ghost output = { λ line. Some (feed_words line) };

    fn fmt<W: fmt::Write>(&self, f: &mut Formatter<W>) -> fmt::Result {
        match self {
            FeedLine::GlimpseAccepted => f.write_str("glimpse: accepted"),
            FeedLine::GlimpseLost => f.write_str("glimpse: lost"),
            FeedLine::Accepted(next) => write!(f, "feed: accepted from {next}"),
            FeedLine::Joined(next) => write!(f, "feed: joined at {next}"),
            FeedLine::Lost(next) => write!(f, "feed: lost at {next}"),
            FeedLine::Ended(next) => write!(f, "feed: ended at {next}"),
        }
    }
}

/// A line about a server, with its name if it is one of several.
#[derive(Clone, Copy)]
pub(crate) struct Named<'a, L> {
    pub line: L,
    pub name: Option<&'a str>,
}

impl<L: Display> Display for Named<'_, L> {
    fn fmt<W: fmt::Write>(&self, f: &mut Formatter<W>) -> fmt::Result {
        let line = &self.line;
        match self.name {
            Some(name) => write!(f, "{line} ({name})"),
            None => write!(f, "{line}"),
        }
    }
}

impl LogEvent for FeedLine {
    fn level(&self) -> LogLevel {
        match self {
            FeedLine::GlimpseLost | FeedLine::Lost(_) => LogLevel::Warn,
            _ => LogLevel::Info,
        }
    }

    fn name(&self) -> &'static str {
        match self {
            FeedLine::GlimpseAccepted => "glimpse_accepted",
            FeedLine::GlimpseLost => "glimpse_lost",
            FeedLine::Accepted(_) => "feed_accepted",
            FeedLine::Joined(_) => "feed_joined",
            FeedLine::Lost(_) => "feed_lost",
            FeedLine::Ended(_) => "feed_ended",
        }
    }

    fn write_fields<W: fmt::Write>(&self, f: &mut Formatter<W>, form: LogForm) -> fmt::Result {
        match self {
            FeedLine::GlimpseAccepted | FeedLine::GlimpseLost => Ok(()),
            FeedLine::Accepted(next)
            | FeedLine::Joined(next)
            | FeedLine::Lost(next)
            | FeedLine::Ended(next) => write_number(f, form, "next", *next),
        }
    }
}

// Writes the name of a server, if there is one.
fn write_server<W: fmt::Write>(
    f: &mut Formatter<W>,
    form: LogForm,
    name: Option<&str>,
) -> fmt::Result {
    match name {
        Some(name) => write_text(f, form, "server", name),
        None => Ok(()),
    }
}

impl<L: LogEvent> LogEvent for Named<'_, L> {
    fn level(&self) -> LogLevel {
        self.line.level()
    }

    fn name(&self) -> &'static str {
        self.line.name()
    }

    fn write_fields<W: fmt::Write>(&self, f: &mut Formatter<W>, form: LogForm) -> fmt::Result {
        self.line.write_fields(f, form)?;
        write_server(f, form, self.name)
    }
}

/// A lost server. Its name appears only in the fields of the event, not in the plain line.
#[derive(Clone, Copy)]
pub(crate) struct Loss<'a> {
    pub line: FeedLine,
    pub cause: Option<LossCause>,
    pub name: Option<&'a str>,
}

impl Display for Loss<'_> {
    fn fmt<W: fmt::Write>(&self, f: &mut Formatter<W>) -> fmt::Result {
        let line = &self.line;
        match self.cause {
            Some(cause) => {
                let words = cause.words();
                write!(f, "{line}: {words}")
            }
            None => write!(f, "{line}"),
        }
    }
}

impl LogEvent for Loss<'_> {
    fn level(&self) -> LogLevel {
        self.line.level()
    }

    fn name(&self) -> &'static str {
        self.line.name()
    }

    fn write_fields<W: fmt::Write>(&self, f: &mut Formatter<W>, form: LogForm) -> fmt::Result {
        self.line.write_fields(f, form)?;
        if let Some(cause) = self.cause {
            write_text(f, form, "cause", cause.words())?;
        }
        write_server(f, form, self.name)
    }
}

/// Why a connection is made again, if more is known than that the server is lost.
#[derive(Clone, Copy, Debug, PartialEq, Eq)]
pub(crate) enum Trouble {
    /// The name of the snapshot server has no address.
    GlimpseUnknown,
    /// The snapshot server rejected the login with this code.
    GlimpseRejected(u8),
    /// The name of the feed has no address.
    Unknown,
    /// The feed rejected the login with this code.
    Rejected(u8),
    /// The feed is in the first of these sessions, instead of the second, requested one.
    OtherSession(Alpha<10>, Alpha<10>),
    /// The feed begins with a later message than the next one.
    Gap { next: u64, begins: u64 },
    /// Memory was refused for the message with this number.
    NoMemory(u64),
    /// The connection ended, or could not be made, for this cause. It appears only in the fields of events.
    Cut(LossCause),
}

impl Trouble {
    /// Returns the cause for the status.
    pub(crate) fn cause(&self) -> LossCause
        ensures { result ≡ trouble_cause self.now }
    {
        match self {
            Trouble::GlimpseUnknown | Trouble::Unknown => LossCause::NotFound,
            Trouble::GlimpseRejected(code) | Trouble::Rejected(code) => cause_of_code(*code),
            Trouble::OtherSession(..) => LossCause::OtherSession,
            Trouble::Gap { .. } => LossCause::Gap,
            Trouble::NoMemory(_) => LossCause::NoMemory,
            Trouble::Cut(cause) => *cause,
        }
    }

    /// Returns whether nothing is known except how the connection ended.
    pub(crate) fn is_a_cut(&self) -> bool {
        matches!(self, Trouble::Cut(_))
    }

    /// Returns whether a line about it names the server, even if there is only one.
    pub(crate) fn is_of_a_name(&self) -> bool {
        matches!(self, Trouble::GlimpseUnknown | Trouble::Unknown)
    }
}

impl LogEvent for Trouble {
    fn level(&self) -> LogLevel {
        LogLevel::Warn
    }

    fn name(&self) -> &'static str {
        match self {
            Trouble::GlimpseUnknown | Trouble::GlimpseRejected(_) => "glimpse_lost",
            _ => "feed_lost",
        }
    }

    fn write_fields<W: fmt::Write>(&self, f: &mut Formatter<W>, form: LogForm) -> fmt::Result {
        write_text(f, form, "cause", self.cause().words())?;
        match self {
            Trouble::GlimpseUnknown | Trouble::Unknown | Trouble::Cut(_) => Ok(()),
            Trouble::GlimpseRejected(code) | Trouble::Rejected(code) => {
                write_letter(f, form, "code", *code)
            }
            Trouble::OtherSession(named, wanted) => {
                write_text(f, form, "session", named.text().trim())?;
                write_text(f, form, "wanted", wanted.text().trim())
            }
            Trouble::Gap { next, begins } => {
                write_number(f, form, "next", *next)?;
                write_number(f, form, "begins", *begins)
            }
            Trouble::NoMemory(next) => write_number(f, form, "next", *next),
        }
    }
}

impl Display for Trouble {
    fn fmt<W: fmt::Write>(&self, f: &mut Formatter<W>) -> fmt::Result {
        match self {
            Trouble::GlimpseUnknown => f.write_str("glimpse: not found"),
            Trouble::Unknown => f.write_str("feed: not found"),
            Trouble::GlimpseRejected(code) => {
                let letter = char::from(*code);
                write!(f, "glimpse: rejected {letter}")
            }
            Trouble::Rejected(code) => {
                let letter = char::from(*code);
                write!(f, "feed: rejected {letter}")
            }
            Trouble::OtherSession(named, wanted) => {
                let (named, wanted) = (named.text().trim(), wanted.text().trim());
                write!(f, "feed: in session {named}, not in {wanted}")
            }
            Trouble::Gap { next, begins } => {
                write!(
                    f,
                    "gap: message {next} is next, and the feed begins with {begins}"
                )
            }
            Trouble::NoMemory(next) => write!(f, "feed: out of memory at {next}"),
            Trouble::Cut(cause) => {
                let words = cause.words();
                write!(f, "feed: {words}")
            }
        }
    }
}
