//! Expectations for a day file.
ghost use Rattle.std.specs.Prelude.{◌≡◌, Some, None, MatchResult};
ghost use Rattle.itch_commands.specs.Expectations.{is_last, nothing, unmet, unmet_count, unmet_end};

use crate::fault::{Source, ToolFault};
use std::fmt;

/// The code of End of Messages (TotalView-ITCH 5.0, "System Event Message").
const END_OF_MESSAGES: u8 = b'C';

/// Expectations for a day file, or for the requested part of it, in addition to following the order rules.
#[derive(Clone, Copy, Debug, PartialEq, Eq)]
pub struct Expectations {
    /// It has exactly this many messages.
    pub count: Option<u64>,
    /// It is complete: its last System Event message is End of Messages.
    pub end: bool,
}

/// The difference between a file and the expectations, unless it has too few messages.
#[derive(Clone, Copy, Debug, PartialEq, Eq)]
pub enum UnmetExpectation {
    /// It has more messages than this.
    More { expected: u64 },
    /// There was no End of Messages, or another system event after it.
    NoEnd,
}

impl fmt::Display for UnmetExpectation {
    fn fmt<W: fmt::Write>(&self, f: &mut fmt::Formatter<W>) -> fmt::Result {
        match self {
            UnmetExpectation::More { expected } => write!(f, "more than {expected} messages"),
            UnmetExpectation::NoEnd => f.write_str("no end of messages"),
        }
    }
}

impl Expectations {
    /// Expects only that a file follows the order rules.
    pub fn nothing() -> Expectations
        ensures { result ≡ nothing }
    {
        Expectations {
            count: None,
            end: false,
        }
    }

    /// Checks that a file with this many messages, and with this last system event, meets the expectations.
    ///
    /// # Faults
    ///
    /// `Short` if it has fewer messages than expected, otherwise `UnmetExpectation`. A wrong number takes precedence over a missing end.
    pub fn check(&self, count: u64, event: Option<u8>) -> Result<(), ToolFault>
        ensures { MatchResult result (λ _. unmet self.now count event ≡ None) (λ fault. unmet self.now count event ≡ Some fault) }
    {
        if let Some(expected) = self.count {
            check_count(expected, count)?;
        }
        if self.end && !is_last(event) {
            return Err(ToolFault::UnmetExpectation(UnmetExpectation::NoEnd));
        }
        Ok(())
    }
}

// Checks that there are as many messages as expected.
fn check_count(expected: u64, count: u64) -> Result<(), ToolFault>
    ensures { MatchResult result (λ _. unmet_count expected count ≡ None) (λ fault. unmet_count expected count ≡ Some fault) }
{
    if count < expected {
        return Err(ToolFault::Short {
            file: Source::Only,
            count,
        });
    }
    if count > expected {
        return Err(ToolFault::UnmetExpectation(UnmetExpectation::More { expected }));
    }
    Ok(())
}

// Returns whether a system event is the last of a day.
pub(crate) fn is_last(event: Option<u8>) -> bool
    ensures { result ≡ is_last event }
{
    event == Some(END_OF_MESSAGES)
}
