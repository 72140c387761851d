//! A writer that counts every failure.
ghost use Rattle.std.specs.Prelude.{◌≡◌, None};
ghost use Rattle.std.specs.Io.KnownBytes.{Keeps};
ghost use Rattle.itch_frame.specs.Counting.{CountsErr};

use itch_frame::CountedWrite;
use itch_frame::tally::Failures;
use std::io::{self, ErrorKind, Write};

/// Counts the failures of a standard writer, as `Counted` does, and also those of its flush.
#[derive(Drop)]
pub struct Sending<W> {
    inner: W,
    failures: Failures,
}

impl<W: Write> Sending<W> {
    /// Creates one with a count of 0.
    pub fn new(inner: W) -> Sending<W>
        ensures inner { result.inner ≡ inner }
        ensures count { result.failures.count ≡ 0 }
        ensures last { result.failures.last ≡ None }
    {
        Sending {
            inner,
            failures: Failures::none(),
        }
    }

    /// Flushes the inner writer. An error is counted.
    ///
    /// # Errors
    ///
    /// The error of the inner writer.
    pub fn flush(&mut self) -> io::Result<()>
        ensures bytes { Keeps (W.contents self.old.inner) (W.contents self.new.inner) }
        ensures count { CountsErr result self.old.failures self.new.failures }
    {
        match self.inner.flush() {
            Ok(()) => Ok(()),
            Err(error) => Err(self.failures.add(error)),
        }
    }

    /// Returns the failures so far.
    pub fn failures(&self) -> Failures
        ensures { result ≡ self.now.failures }
    {
        self.failures
    }

    /// Returns the inner writer.
    pub fn into_inner(self) -> W
        ensures { result ≡ self.inner }
    {
        let Sending { inner, failures: _ } = self;
        inner
    }
}

impl<W: Write> CountedWrite for Sending<W> {
    ghost contents = { λ s. W.contents s.inner };

    ghost failures = { λ s. s.failures };

    fn write_some(&mut self, buf: &[u8]) -> io::Result<usize> {
        match self.inner.write(buf) {
            Ok(count) if count > 0 || buf.is_empty() => Ok(count),
            Ok(_) => Err(self.failures.add(io::Error::from(ErrorKind::WriteZero))),
            Err(error) => Err(self.failures.add(error)),
        }
    }
}
