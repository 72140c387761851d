//! The exit status of a program after a stop, and the system's error behind it.
ghost use Rattle.std.specs.Prelude.{◌≡◌};
ghost use Rattle.itch_market.specs.Statuses.{refusal_status, stop_error, stop_status};

use crate::refusal::Refusal;
use crate::stop::Stop;
use std::io;

impl Refusal {
    /// Returns the exit status of a program: 4 if memory ran out, 1 for every order rule.
    pub fn status(&self) -> u8
        ensures { result ≡ refusal_status self.now }
    {
        match self {
            Refusal::OutOfMemory => 4,
            _ => 1,
        }
    }
}

impl Stop {
    /// Returns the exit status of a program: 1 for a refused file, 3 for a failed read or write, 4 if memory ran out.
    pub fn status(&self) -> u8
        ensures { result ≡ stop_status self.now }
    {
        match self {
            Stop::Frame(fault) => fault.status(),
            Stop::Rule(reason) => reason.status(),
            _ => 1,
        }
    }

    /// Returns the system's own error, if a read or a write failed.
    pub fn io_error(&self) -> Option<io::Error>
        ensures { result ≡ stop_error self.now }
    {
        match self {
            Stop::Frame(fault) => fault.io_error(),
            _ => None,
        }
    }
}
