//! The reasons why a command failed, with the line on standard error and the exit status.
ghost use Rattle.std.specs.Prelude.{◌≡◌, ◌≢◌};
ghost use Rattle.std.specs.IoError.{error_kind};
ghost use Rattle.itch_commands.specs.Causes.{error_of, source_of};
ghost use Rattle.itch_commands.specs.Statuses.{exit_status, status_of};

use crate::expected::UnmetExpectation;
use crate::feed_part::FeedMismatch;
use itch_market::ReplayEnd;
use itch_snapshot::SnapFault;
use std::alloc::AllocError;
use std::error::Error;
use std::fmt;
use std::io::{self, ErrorKind};

/// The file of a command that has the fault.
#[derive(Clone, Copy, Debug, PartialEq, Eq)]
pub enum Source {
    /// The only file.
    Only,
    First,
    Second,
    /// The snapshot to which a feed is joined.
    Snapshot,
    /// The output.
    Output,
}

impl fmt::Display for Source {
    // Writes the words before the reason of a fault.
    fn fmt<W: fmt::Write>(&self, f: &mut fmt::Formatter<W>) -> fmt::Result {
        f.write_str(match self {
            Source::Only | Source::Output => "",
            Source::First => "first: ",
            Source::Second => "second: ",
            Source::Snapshot => "snapshot: ",
        })
    }
}

/// The reason why a command failed. With `Write` a prefix of the output has been written. With other faults nothing has, except by `show`,
/// which has written the lines before.
///
/// `Display` writes the line for standard error, without its line feed, and allocates nothing.
#[derive(Debug, Drop)]
pub enum ToolFault {
    /// A replay of a file stopped before its end.
    Stopped { file: Source, end: ReplayEnd },
    /// A snapshot file was refused.
    Snap { file: Source, fault: SnapFault },
    /// A file has only this many messages, fewer than requested.
    Short { file: Source, count: u64 },
    /// A file follows the order rules, but does not meet the expectations.
    UnmetExpectation(UnmetExpectation),
    /// A snapshot and a feed do not match.
    FeedMismatch(FeedMismatch),
    /// The directory has no such locate.
    UnknownLocate,
    /// The directory has no entry with such a stock.
    UnknownStock,
    /// A write failed.
    Write(io::Error),
    /// Memory ran out.
    OutOfMemory,
    /// A file cannot be opened.
    Open { file: Source, error: io::Error },
    /// The text is not a list of locates.
    BadLocates,
    /// A market has too many messages for a snapshot: the number in its End of Snapshot would not be valid.
    TooMany,
}

impl ToolFault {
    /// Returns the exit status: 1 refused, 2 usage, 3 read, write or file, 4 memory.
    pub fn status(&self) -> u8
        ensures { result ≡ status_of self.now }
    {
        match self {
            ToolFault::Stopped { end, .. } => end.stop.status(),
            ToolFault::Snap { fault, .. } => fault.status(),
            ToolFault::Short { .. } | ToolFault::UnknownLocate | ToolFault::UnknownStock => 1,
            ToolFault::Write(_) | ToolFault::Open { .. } => 3,
            ToolFault::OutOfMemory => 4,
            ToolFault::BadLocates => 2,
            ToolFault::TooMany | ToolFault::UnmetExpectation(_) | ToolFault::FeedMismatch(_) => 1,
        }
    }

    /// Returns the file that has the fault, if it is in one.
    pub fn source(&self) -> Option<Source>
        ensures { result ≡ source_of self.now }
    {
        match self {
            ToolFault::Stopped { file, .. }
            | ToolFault::Snap { file, .. }
            | ToolFault::Short { file, .. }
            | ToolFault::Open { file, .. } => Some(*file),
            ToolFault::Write(_) => Some(Source::Output),
            _ => None,
        }
    }

    /// Returns the system's own error at that file; `None` if no call failed, or if memory ran out.
    pub fn io_error(&self) -> Option<io::Error>
        ensures { result ≡ error_of self.now }
    {
        match self {
            ToolFault::Stopped { end, .. } => end.stop.io_error(),
            ToolFault::Snap { fault, .. } => fault.io_error(),
            ToolFault::Open { error, .. } | ToolFault::Write(error) => Some(*error),
            _ => None,
        }
    }
}

/// Returns the exit status of a command: 0 for true, 1 for false, otherwise that of its fault.
pub fn status(outcome: &Result<bool, ToolFault>) -> u8
    ensures { result ≡ exit_status outcome.now }
{
    match outcome {
        Ok(true) => 0,
        Ok(false) => 1,
        Err(fault) => fault.status(),
    }
}

/// Returns the fault for a system call: `OutOfMemory` if the error says so, else `otherwise`.
pub fn system_fault(error: io::Error, otherwise: ToolFault) -> ToolFault
    ensures memory { error_kind error ≡ ErrorKind.OutOfMemory → result ≡ ToolFault.OutOfMemory }
    ensures otherwise { error_kind error ≢ ErrorKind.OutOfMemory → result ≡ otherwise }
{
    match error.kind() {
        ErrorKind::OutOfMemory => ToolFault::OutOfMemory,
        _ => otherwise,
    }
}

impl fmt::Display for ToolFault {
    fn fmt<W: fmt::Write>(&self, f: &mut fmt::Formatter<W>) -> fmt::Result {
        f.write_str("itchsnap: ")?;
        match self {
            ToolFault::Stopped { file, end } => {
                let place = u128::from(end.count) + 1;
                let stop = &end.stop;
                write!(f, "{file}message {place}: {stop}")
            }
            ToolFault::Snap { file, fault } => write!(f, "{file}{fault}"),
            ToolFault::Short { file, count } => write!(f, "{file}only {count} messages"),
            ToolFault::UnmetExpectation(unmet) => write!(f, "{unmet}"),
            ToolFault::FeedMismatch(mismatch) => write!(f, "{mismatch}"),
            ToolFault::UnknownLocate => f.write_str("unknown locate"),
            ToolFault::UnknownStock => f.write_str("unknown stock"),
            ToolFault::Write(_) => f.write_str("write failed"),
            ToolFault::OutOfMemory => f.write_str("out of memory"),
            ToolFault::Open { .. } => f.write_str("cannot open"),
            ToolFault::BadLocates => f.write_str("bad locate list"),
            ToolFault::TooMany => f.write_str("too many messages"),
        }
    }
}

impl Error for ToolFault {}

impl From<AllocError> for ToolFault {
    ghost use Rattle.itch_commands.specs.declared.fault.ToolFault.TheVariants.{OutOfMemory};

    ghost from_gives = { λ _ fault. fault ≡ OutOfMemory };

    fn from(_error: AllocError) -> ToolFault {
        ToolFault::OutOfMemory
    }
}
