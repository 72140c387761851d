//! Hints for refused files and sessions: a file of the other kind, and what a login must be.
ghost use Rattle.std.specs.Prelude.{◌≡◌};
ghost use Rattle.itch_tool.specs.Hints.{login_hint, mixup_of, rejection_hint};

use crate::names::{Name, SnapshotFlag};
use itch_commands::ToolFault;
use itch_market::{Refusal, Stop};
use itch_sessions::SessionFault;
use itch_snapshot::SnapFault;
use itch_soup::SoupFault;
use std::fmt;

/// How a file differs from the kind that a command reads.
#[derive(Clone, Copy, Debug, PartialEq, Eq)]
pub enum Mixup {
    /// It has an End of Snapshot, which no day file has.
    SnapshotAsDay,
    /// It has no End of Snapshot, as a day file.
    DayAsSnapshot,
}

/// Returns how the file of a fault may be of the other kind.
pub fn mixup_of(fault: &ToolFault) -> Option<Mixup>
    ensures { result ≡ mixup_of fault.now }
{
    match fault {
        ToolFault::Stopped { end, .. } => match end.stop {
            Stop::Rule(Refusal::UnexpectedEnd) => Some(Mixup::SnapshotAsDay),
            _ => None,
        },
        ToolFault::Snap {
            fault: SnapFault::NoEnd,
            ..
        } => Some(Mixup::DayAsSnapshot),
        _ => None,
    }
}

/// A file that may be of the other kind. `Display` writes what to do about it.
#[derive(Clone, Copy)]
pub struct MixedUp<'a> {
    pub mixup: Mixup,
    pub file: Name<'a>,
    pub flag: SnapshotFlag,
}

impl fmt::Display for MixedUp<'_> {
    fn fmt<W: fmt::Write>(&self, f: &mut fmt::Formatter<W>) -> fmt::Result {
        let file = self.file;
        match (self.mixup, self.flag) {
            (Mixup::SnapshotAsDay, SnapshotFlag::Omitted) => {
                write!(f, "{file}: this looks like a snapshot: use --snapshot")
            }
            (Mixup::SnapshotAsDay, _) => {
                write!(f, "{file}: this looks like a snapshot, not a day file")
            }
            (Mixup::DayAsSnapshot, SnapshotFlag::Given) => {
                write!(f, "{file}: if this is a day file, omit --snapshot")
            }
            (Mixup::DayAsSnapshot, _) => write!(
                f,
                "{file}: if this is a day file, use itchsnap snap to make its snapshot"
            ),
        }
    }
}

/// What a login must be, or why a server rejected it.
#[derive(Clone, Copy, Debug, PartialEq, Eq)]
pub enum LoginHint {
    User,
    Password,
    WrongLogin,
    NoSession,
}

/// Returns what the login of a failed session must be.
pub fn login_hint(fault: &SessionFault) -> Option<LoginHint>
    ensures { result ≡ login_hint fault.now }
{
    match fault {
        SessionFault::BadUser => Some(LoginHint::User),
        SessionFault::BadPassword => Some(LoginHint::Password),
        SessionFault::Soup(SoupFault::Rejected(code)) => rejection_hint(*code),
        _ => None,
    }
}

// Returns the hint for the code of a rejection.
fn rejection_hint(code: u8) -> Option<LoginHint>
    ensures { result ≡ rejection_hint code }
{
    match code {
        b'A' => Some(LoginHint::WrongLogin),
        b'S' => Some(LoginHint::NoSession),
        _ => None,
    }
}

impl fmt::Display for LoginHint {
    fn fmt<W: fmt::Write>(&self, f: &mut fmt::Formatter<W>) -> fmt::Result {
        f.write_str(match self {
            LoginHint::User => "a user name has 1 to 6 printable characters",
            LoginHint::Password => "a password has 1 to 10 printable characters",
            LoginHint::WrongLogin =>
                "not authorized: the user name or the password is not the server's",
            LoginHint::NoSession => "the server does not have this session, or this message",
        })
    }
}
