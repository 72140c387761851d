//! The faults of sessions over sockets, with their lines on standard error and the exit statuses.
ghost use Rattle.std.specs.Prelude.{◌≡◌, ◌≢◌};
ghost use Rattle.std.specs.IoError.{error_kind};
ghost use Rattle.itch_sessions.specs.SessionFaults.{cause_at, cause_of, peer_fault, session_status, soup_error, soup_status};

use itch_frame::FrameFault;
use itch_market::{Refusal, ReplayEnd};
use itch_snapshot::SnapFault;
use itch_soup::SoupFault;
use std::alloc::AllocError;
use std::error::Error;
use std::fmt::{self, Display, Formatter};
use std::io::{self, ErrorKind};

/// The reason why a session over sockets, a live server or a follower of a feed has failed. Output that was written before, such as the lines
/// of connections, is kept.
///
/// `Display` writes the line for standard error, without its line feed, and allocates nothing.
#[derive(Debug, Drop)]
pub enum SessionFault {
    /// The day file that is played, or to which a feed is recorded, cannot be opened.
    Open(io::Error),
    /// The folder of snapshots cannot be opened or written.
    Folder(io::Error),
    /// A message of a day file or a feed was refused, or cannot be read or recorded.
    Stopped(ReplayEnd),
    /// The snapshot that a feed is joined to was refused.
    Snapshot(SnapFault),
    /// The output cannot be written.
    Write(io::Error),
    /// A socket could not be bound, connected, accepted or set up.
    Socket(io::Error),
    /// A session ended without the requested data.
    Soup(SoupFault),
    /// The user name does not consist of 1 to 6 printable characters.
    BadUser,
    /// The password does not consist of 1 to 10 printable characters.
    BadPassword,
    /// There are more messages than can be served or played: the message after the last would have no valid number.
    TooMany,
    /// Memory was refused.
    OutOfMemory,
}

/// A device that a session reads or writes.
#[derive(Clone, Copy, Debug, PartialEq, Eq)]
pub enum SessionDevice {
    /// The day file that is played, or to which a feed is recorded.
    DayFile,
    /// The folder of snapshots.
    Folder,
    /// Standard output, or a file in its place.
    Output,
    Socket,
}

/// The device that failed in a session, and the system's error.
#[derive(Clone, Copy, Debug)]
pub struct SessionCause {
    pub device: SessionDevice,
    pub error: io::Error,
}

impl SessionFault {
    /// Returns the fault for an error of a system call: `OutOfMemory` if the error says so, otherwise `otherwise`.
    pub fn of_system(error: io::Error, otherwise: SessionFault) -> SessionFault
        ensures memory { error_kind error ≡ ErrorKind.OutOfMemory → result ≡ SessionFault.OutOfMemory }
        ensures otherwise { error_kind error ≢ ErrorKind.OutOfMemory → result ≡ otherwise }
    {
        match error.kind() {
            ErrorKind::OutOfMemory => SessionFault::OutOfMemory,
            _ => otherwise,
        }
    }

    /// Returns the exit status of the program: 1 for refused, 2 for usage, 3 for a read, a write, a file or a socket, 4 for memory.
    pub fn status(&self) -> u8
        ensures { result ≡ session_status self.now }
    {
        match self {
            SessionFault::Open(_) | SessionFault::Folder(_) => 3,
            SessionFault::Stopped(end) => end.stop.status(),
            SessionFault::Snapshot(fault) => fault.status(),
            SessionFault::Write(_) | SessionFault::Socket(_) => 3,
            SessionFault::Soup(fault) => soup_status(fault),
            SessionFault::BadUser | SessionFault::BadPassword => 2,
            SessionFault::TooMany => 1,
            SessionFault::OutOfMemory => 4,
        }
    }

    /// Returns the device that failed, with the system's error. Returns `None` if no device failed, or if memory ran out.
    pub fn cause(&self) -> Option<SessionCause>
        ensures { result ≡ cause_of self.now }
    {
        match self {
            SessionFault::Open(error) => cause_at(SessionDevice::DayFile, Some(*error)),
            SessionFault::Folder(error) => cause_at(SessionDevice::Folder, Some(*error)),
            SessionFault::Stopped(end) => cause_at(SessionDevice::DayFile, end.stop.io_error()),
            SessionFault::Snapshot(fault) => cause_at(SessionDevice::Socket, fault.io_error()),
            SessionFault::Write(error) => cause_at(SessionDevice::Output, Some(*error)),
            SessionFault::Socket(error) => cause_at(SessionDevice::Socket, Some(*error)),
            SessionFault::Soup(fault) => cause_at(SessionDevice::Socket, soup_error(fault)),
            _ => None,
        }
    }

    /// Returns how the peer of a session broke the protocol. Returns `None` if it did not, or if the line of the fault says so already.
    pub fn peer_fault(&self) -> Option<SoupFault>
        ensures { result ≡ peer_fault self.now }
    {
        let SessionFault::Soup(fault) = self else {
            return None;
        };
        match fault {
            SoupFault::Rejected(_)
            | SoupFault::EndedEarly
            | SoupFault::Frame(FrameFault::Read(_) | FrameFault::Write { .. })
            | SoupFault::Snapshot(
                SnapFault::Rule {
                    reason: Refusal::OutOfMemory,
                    ..
                },
            ) => None,
            _ => Some(*fault),
        }
    }
}

fn soup_status(fault: &SoupFault) -> u8
    ensures { result ≡ soup_status fault.now }
{
    match fault {
        SoupFault::Frame(fault) => fault.status(),
        SoupFault::Snapshot(SnapFault::Rule { reason, .. }) => reason.status(),
        _ => 1,
    }
}

// Returns the system's error, if a read or a write of the socket failed.
fn soup_error(fault: &SoupFault) -> Option<io::Error>
    ensures { result ≡ soup_error fault.now }
{
    match fault {
        SoupFault::Frame(fault) => fault.io_error(),
        _ => None,
    }
}

// Returns a device, if it failed with a system's error.
fn cause_at(device: SessionDevice, error: Option<io::Error>) -> Option<SessionCause>
    ensures { result ≡ cause_at device error }
{
    match error {
        Some(error) => Some(SessionCause { device, error }),
        None => None,
    }
}

impl Display for SessionFault {
    fn fmt<W: fmt::Write>(&self, f: &mut Formatter<W>) -> fmt::Result {
        f.write_str("itchsnap: ")?;
        match self {
            SessionFault::Open(_) | SessionFault::Folder(_) => f.write_str("cannot open"),
            SessionFault::Stopped(end) => {
                let place = u128::from(end.count) + 1;
                let stop = &end.stop;
                write!(f, "message {place}: {stop}")
            }
            SessionFault::Snapshot(fault) => write!(f, "snapshot: {fault}"),
            SessionFault::Write(_) => f.write_str("write failed"),
            SessionFault::Socket(_) => f.write_str("socket failed"),
            SessionFault::Soup(fault) => write_soup(fault, f),
            SessionFault::BadUser => f.write_str("bad user"),
            SessionFault::BadPassword => f.write_str("bad password"),
            SessionFault::TooMany => f.write_str("too many messages"),
            SessionFault::OutOfMemory => f.write_str("out of memory"),
        }
    }
}

// Writes why a session ended without the requested data. All faults of the peer share one line.
fn write_soup<W: fmt::Write>(fault: &SoupFault, f: &mut Formatter<W>) -> fmt::Result {
    match fault {
        SoupFault::Rejected(code) => {
            let letter = char::from(*code);
            write!(f, "rejected {letter}")
        }
        SoupFault::EndedEarly => f.write_str("ended early"),
        SoupFault::Frame(FrameFault::Read(_)) => f.write_str("read failed"),
        SoupFault::Frame(FrameFault::Write { .. }) => f.write_str("write failed"),
        SoupFault::Snapshot(
            SnapFault::Rule {
                reason: Refusal::OutOfMemory,
                ..
            },
        ) => f.write_str("out of memory"),
        _ => f.write_str("session fault"),
    }
}

impl Error for SessionFault {}

impl From<AllocError> for SessionFault {
    ghost use Rattle.itch_sessions.specs.declared.session_fault.SessionFault.TheVariants.{OutOfMemory};

    ghost from_gives = { λ _ fault. fault ≡ OutOfMemory };

    fn from(_error: AllocError) -> SessionFault {
        SessionFault::OutOfMemory
    }
}
