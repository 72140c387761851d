//! Counts the failures of a reader or a writer.
ghost use Rattle.std.specs.Prelude.{◌≡◌};
ghost use Rattle.itch_frame.specs.Counting.{failed};

use std::io;

/// The number of failed calls, and the error of the last one.
#[derive(Clone, Copy, Debug)]
pub struct Failures {
    // Remains at its maximum, 2^64 - 1.
    count: u64,
    last: Option<io::Error>,
}

impl Failures {
    /// Returns a count without failures.
    pub fn none() -> Failures
        ensures count { result.count ≡ 0 }
        ensures last { result.last ≡ None }
    {
        Failures {
            count: 0,
            last: None,
        }
    }

    /// Returns the number of failures. The count remains at its maximum, 2^64 - 1.
    pub fn count(&self) -> u64
        ensures { result ≡ self.now.count }
    {
        self.count
    }

    /// Returns the error of the last failure.
    pub fn last(&self) -> Option<io::Error>
        ensures { result ≡ self.now.last }
    {
        self.last
    }

    /// Counts a failure, and returns its error.
    pub fn add(&mut self, error: io::Error) -> io::Error
        ensures failures { self.new ≡ failed error self.old }
        ensures error { result ≡ error }
    {
        self.count = self.count.saturating_add(1);
        self.last = Some(error);
        error
    }
}
