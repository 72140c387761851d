//! The exit status of a program after a fault, and the system's error behind it.
ghost use Rattle.std.specs.Prelude.{◌≡◌};
ghost use Rattle.itch_frame.specs.Statuses.{frame_error, frame_status};

use crate::fault::FrameFault;
use std::io;

impl FrameFault {
    /// Returns the exit status of a program: 3 for a failed read or write, 1 for rejected blocks.
    pub fn status(&self) -> u8
        ensures { result ≡ frame_status self.now }
    {
        match self {
            FrameFault::Read(_) | FrameFault::Write { .. } => 3,
            _ => 1,
        }
    }

    /// Returns the system's own error, if a read or a write failed.
    pub fn io_error(&self) -> Option<io::Error>
        ensures { result ≡ frame_error self.now }
    {
        match self {
            FrameFault::Read(error) | FrameFault::Write { error, .. } => Some(*error),
            _ => None,
        }
    }
}
