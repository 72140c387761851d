//! The faults that end a live server or a follower, with their lines on standard error and the exit statuses.
ghost use Rattle.std.specs.Prelude.{◌≡◌};
ghost use Rattle.itch_records.specs.LiveFaults.{live_status, record_status};

use crate::day_files::DayPaths;
use crate::watch::FileChange;
use itch_codec::Alpha;
use itch_live::ServerKind;
use itch_market::ReplayEnd;
use itch_sessions::{Feeds, SessionFault};
use std::alloc::AllocError;
use std::error::Error;
use std::fmt::{self, Display, Formatter};
use std::io;

/// The reason why a live server or a follower of a feed has ended.
///
/// `Display` writes the first line for standard error, without its line feed; [`LiveFault::detail`] is the second line.
#[derive(Debug, Drop)]
pub enum LiveFault {
    /// A fault that occurs in other sessions too.
    Session(SessionFault),
    /// The record cannot be continued.
    Record(RecordFault),
    /// The session file next to the record cannot be read or written.
    SessionFile(io::Error),
    /// The status port cannot be bound.
    StatusPort(io::Error),
    /// Another process uses a file of the server.
    InUse(Owned),
    /// A server accepted the login under another session than the requested one.
    OtherSession {
        server: ServerKind,
        named: Alpha<10>,
        wanted: Alpha<10>,
    },
    /// A message of the feed was refused. Without it, the market would no longer be that of the feed.
    Refused {
        fault: SessionFault,
        session: Alpha<10>,
        /// The index of the server that sent it.
        server: usize,
    },
    /// The snapshot belongs to one session, and the feed is in another.
    GlimpseSession {
        snapshot: Alpha<10>,
        feed: Alpha<10>,
    },
}

/// The reason why a live server has ended, and the paths of the day's files, if they were known.
#[derive(Debug, Drop)]
pub struct DayFault {
    pub fault: LiveFault,
    pub paths: DayPaths,
}

/// A resource that only one process at a time may write to.
#[derive(Clone, Copy, Debug, PartialEq, Eq)]
pub enum Owned {
    Record,
    Snapshots,
}

/// The names for the second line of a fault, as given on the command line: the paths of the record and of the folder of snapshots, the status
/// port, and the feed's servers.
#[derive(Clone, Copy, Debug)]
pub struct Names<'a> {
    pub record: &'a str,
    pub snapshots: &'a str,
    pub status: &'a str,
    pub feeds: Feeds<'a>,
}

/// The reason why a record cannot be continued.
#[derive(Debug, Drop)]
pub enum RecordFault {
    /// A replay of its messages stopped before its end.
    Refused(ReplayEnd),
    /// Its session is unknown: there is no session file next to it.
    UnknownSession,
    /// Its session file does not name a session.
    BadSession,
    /// It belongs to one session, and the command line names another.
    NotOf {
        session: Alpha<10>,
        named: Alpha<10>,
    },
    /// It belongs to one session, and the feed is in another.
    OtherSession {
        session: Alpha<10>,
        named: Alpha<10>,
    },
    /// Its file was changed while messages were being appended.
    Changed(FileChange),
}

impl LiveFault {
    /// Returns the exit status of the program.
    pub fn status(&self) -> u8
        ensures { result ≡ live_status self.now }
    {
        match self {
            LiveFault::Session(fault) | LiveFault::Refused { fault, .. } => fault.status(),
            LiveFault::Record(fault) => record_status(fault),
            LiveFault::SessionFile(_) | LiveFault::StatusPort(_) | LiveFault::InUse(_) => 3,
            LiveFault::OtherSession { .. } | LiveFault::GlimpseSession { .. } => 1,
        }
    }

    /// Returns the second line, if there is one.
    pub fn detail<'a>(&self, names: Names<'a>) -> Option<Detail<'a>> {
        let Names {
            record,
            snapshots,
            status,
            feeds,
        } = names;
        match self {
            LiveFault::Session(_) => None,
            LiveFault::Record(RecordFault::UnknownSession) => Some(Detail::NoSessionFile(record)),
            LiveFault::Record(RecordFault::BadSession) => Some(Detail::SessionFile(record)),
            LiveFault::Record(_) => Some(Detail::Path(record)),
            LiveFault::SessionFile(error) => Some(Detail::SessionFileFailed(record, *error)),
            LiveFault::StatusPort(error) => Some(Detail::Status(status, *error)),
            LiveFault::InUse(Owned::Record) => Some(Detail::InUse(record)),
            LiveFault::InUse(Owned::Snapshots) => Some(Detail::InUse(snapshots)),
            LiveFault::Refused {
                session,
                server,
                ..
            } => {
                let place = feeds.get(*server).unwrap_or(feeds.first);
                Some(Detail::Feed(place.text, *session))
            }
            LiveFault::OtherSession { server, named, .. } => match server {
                ServerKind::Glimpse => Some(Detail::GlimpseSession(*named)),
                ServerKind::Live => None,
            },
            LiveFault::GlimpseSession { snapshot, .. } => Some(Detail::GlimpseSession(*snapshot)),
        }
    }

    /// Returns the same fault for a feed that was joined to a snapshot without a named session: the feed is then not in the snapshot's
    /// session.
    pub fn after_glimpse(self) -> LiveFault {
        if let LiveFault::OtherSession {
            server: ServerKind::Live,
            named,
            wanted,
        } = &self
        {
            return LiveFault::GlimpseSession {
                snapshot: *wanted,
                feed: *named,
            };
        }
        self
    }

    /// Returns the system's error, if a write failed.
    pub fn write_error(&self) -> Option<io::Error> {
        match self {
            LiveFault::Session(SessionFault::Write(error)) => Some(*error),
            _ => None,
        }
    }

    /// Returns the same fault for a feed in this session, from the server with this index: the fault of a refused message names both.
    pub fn of_message(self, session: Option<Alpha<10>>, server: usize) -> LiveFault {
        let Some(session) = session else {
            return self;
        };
        match self {
            LiveFault::Session(fault) => of_session(fault, session, server),
            _ => self,
        }
    }

    /// Returns the same fault for a feed that is recorded: the feed is then not in the record's session.
    pub fn of_record(self) -> LiveFault {
        if let LiveFault::OtherSession {
            server: ServerKind::Live,
            named,
            wanted,
        } = &self
        {
            return LiveFault::Record(RecordFault::OtherSession {
                session: *wanted,
                named: *named,
            });
        }
        self
    }
}

fn of_session(fault: SessionFault, session: Alpha<10>, server: usize) -> LiveFault {
    match &fault {
        SessionFault::Stopped(_) => LiveFault::Refused {
            fault,
            session,
            server,
        },
        _ => LiveFault::Session(fault),
    }
}

fn record_status(fault: &RecordFault) -> u8
    ensures { result ≡ record_status fault.now }
{
    match fault {
        RecordFault::Refused(end) => end.stop.status(),
        RecordFault::Changed(_) => 3,
        _ => 1,
    }
}

impl Display for LiveFault {
    fn fmt<W: fmt::Write>(&self, f: &mut Formatter<W>) -> fmt::Result {
        match self {
            LiveFault::Session(fault) | LiveFault::Refused { fault, .. } => write!(f, "{fault}"),
            LiveFault::Record(fault) => write!(f, "itchsnap: record: {fault}"),
            LiveFault::SessionFile(_) | LiveFault::InUse(_) => f.write_str("itchsnap: cannot open"),
            LiveFault::StatusPort(_) => f.write_str("itchsnap: socket failed"),
            LiveFault::OtherSession {
                server,
                named,
                wanted,
            } => {
                let named = named.text().trim();
                let wanted = wanted.text().trim();
                match server {
                    ServerKind::Glimpse => {
                        write!(f, "itchsnap: glimpse: in session {named}, not in {wanted}")
                    }
                    ServerKind::Live => write!(
                        f,
                        "itchsnap: feed: in session {named}, not in {wanted}"
                    ),
                }
            }
            LiveFault::GlimpseSession { snapshot, feed } => {
                let snapshot = snapshot.text().trim();
                let feed = feed.text().trim();
                write!(
                    f,
                    "itchsnap: glimpse: of session {snapshot}, but the feed is in {feed}"
                )
            }
        }
    }
}

impl Display for RecordFault {
    fn fmt<W: fmt::Write>(&self, f: &mut Formatter<W>) -> fmt::Result {
        match self {
            RecordFault::Refused(end) => {
                let place = u128::from(end.count) + 1;
                let stop = &end.stop;
                write!(f, "message {place}: {stop}")
            }
            RecordFault::UnknownSession => f.write_str("its session is not known"),
            RecordFault::BadSession => f.write_str("its session file names no session"),
            RecordFault::NotOf { session, named } => {
                let session = session.text().trim();
                let named = named.text().trim();
                write!(f, "of session {session}, not of {named}")
            }
            RecordFault::OtherSession { session, named } => {
                let session = session.text().trim();
                let named = named.text().trim();
                write!(f, "of session {session}, but the feed is in {named}")
            }
            RecordFault::Changed(change) => write!(f, "{change}"),
        }
    }
}

impl Error for LiveFault {}

impl From<SessionFault> for LiveFault {
    ghost use Rattle.itch_records.specs.declared.fault.LiveFault.TheVariants.{Session};

    ghost from_gives = { λ fault live. live ≡ Session fault };

    fn from(fault: SessionFault) -> LiveFault {
        LiveFault::Session(fault)
    }
}

impl From<AllocError> for LiveFault {
    ghost use Rattle.itch_sessions.specs.declared.session_fault.SessionFault.TheVariants.{OutOfMemory};
    ghost use Rattle.itch_records.specs.declared.fault.LiveFault.TheVariants.{Session};

    ghost from_gives = { λ _ live. live ≡ Session OutOfMemory };

    fn from(_error: AllocError) -> LiveFault {
        LiveFault::Session(SessionFault::OutOfMemory)
    }
}

/// The second line of a fault.
#[derive(Clone, Copy, Debug)]
pub enum Detail<'a> {
    /// The file at this path failed.
    Path(&'a str),
    /// The session file of the record at this path failed.
    SessionFile(&'a str),
    /// The session file of the record at this path failed, with the system's error.
    SessionFileFailed(&'a str, io::Error),
    /// The status port with this name failed, with the system's error.
    Status(&'a str, io::Error),
    /// The record at this path has no session file.
    NoSessionFile(&'a str),
    /// Another process holds the lock of this path.
    InUse(&'a str),
    /// The feed at this address, in this session, failed.
    Feed(&'a str, Alpha<10>),
    /// A snapshot server is in this session.
    GlimpseSession(Alpha<10>),
}

impl Display for Detail<'_> {
    fn fmt<W: fmt::Write>(&self, f: &mut Formatter<W>) -> fmt::Result {
        match self {
            Detail::Path(path) => f.write_str(path),
            Detail::SessionFile(path) => write!(f, "{path}.session"),
            Detail::SessionFileFailed(path, error) => write!(f, "{path}.session: {error}"),
            Detail::Status(name, error) => write!(f, "{name}: {error}"),
            Detail::NoSessionFile(path) => write!(
                f,
                "{path}: there is no {path}.session: name its session with --session, or begin a new record"
            ),
            Detail::InUse(path) => write!(f, "{path}: another process uses it"),
            Detail::Feed(feed, session) => {
                let session = session.text().trim();
                write!(f, "{feed}, session {session}")
            }
            Detail::GlimpseSession(session) => {
                let session = session.text().trim();
                write!(
                    f,
                    "--glimpse-session {session} accepts a snapshot of that session"
                )
            }
        }
    }
}
