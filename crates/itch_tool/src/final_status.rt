//! The exit status of the program, including the case of a closed output pipe.
ghost use Rattle.std.specs.Prelude.{◌≡◌, ◌↔◌, IsTrue};
ghost use Rattle.itch_tool.specs.Endings.{EndsByClosedPipe, exit_status};

use crate::failure::Failure;
use itch_commands::{ToolFault, status};
use itch_sessions::SessionFault;
use std::io::ErrorKind;

/// The exit status that a shell reports for a program that SIGPIPE ended: 128 plus the signal's number.
const CLOSED_PIPE: u8 = 141;

/// Returns whether a job failed because its output pipe was closed.
pub fn ends_by_closed_pipe(outcome: &Result<bool, Failure>) -> bool
    ensures { IsTrue result ↔ EndsByClosedPipe outcome.now }
{
    match outcome {
        Err(
            Failure::Command {
                fault: ToolFault::Write(error),
                ..
            },
        ) => matches!(error.kind(), ErrorKind::BrokenPipe),
        Err(Failure::Session(SessionFault::Write(error))) => matches!(
            error.kind(),
            ErrorKind::BrokenPipe
        ),
        _ => false,
    }
}

/// Returns the exit status of the program: 141 if its output pipe was closed, otherwise that of its outcome.
pub fn final_status(outcome: &Result<bool, Failure>) -> u8
    ensures closed { EndsByClosedPipe outcome.now → result ≡ 141 }
    ensures other { (¬ EndsByClosedPipe outcome.now) → result ≡ exit_status outcome.now }
{
    if ends_by_closed_pipe(outcome) {
        CLOSED_PIPE
    } else {
        exit_status(outcome)
    }
}

// Returns the exit status for a job: that of its answer, or of its failure.
fn exit_status(outcome: &Result<bool, Failure>) -> u8
    ensures { result ≡ exit_status outcome.now }
{
    match outcome {
        Ok(answer) => status(&Ok(*answer)),
        Err(failure) => failure.status(),
    }
}
