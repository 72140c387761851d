//! The exit status of a program after a snapshot file is refused, and the system's error behind it.
ghost use Rattle.std.specs.Prelude.{◌≡◌};
ghost use Rattle.itch_snapshot.specs.Statuses.{snapshot_error, snapshot_status};

use crate::fault::SnapFault;
use std::io;

impl SnapFault {
    /// Returns the exit status of a program: 1 for a refused file, 3 for a failed read, 4 if memory ran out.
    pub fn status(&self) -> u8
        ensures { result ≡ snapshot_status self.now }
    {
        match self {
            SnapFault::Frame(fault) => fault.status(),
            SnapFault::Rule { reason, .. } => reason.status(),
            _ => 1,
        }
    }

    /// Returns the system's own error, if a read failed.
    pub fn io_error(&self) -> Option<io::Error>
        ensures { result ≡ snapshot_error self.now }
    {
        match self {
            SnapFault::Frame(fault) => fault.io_error(),
            _ => None,
        }
    }
}
