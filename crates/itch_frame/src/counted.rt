//! Readers and writers that count their failures.
//!
//! Contracts refer to the bytes that a reader still has to read or that a writer has written, if they are known, to the number of failed
//! calls, and to the error of the last failed call.
ghost use Rattle.std.specs.Prelude.{◌≡◌, ℕ, ◌-◌, ◌≤◌, List, length, take, Option, IfSome, IfNone};
ghost use Rattle.std.specs.Io.{ReadsAtMost, WritesAtMost};
ghost use Rattle.std.specs.Io.KnownBytes.{ReadConsumes, Consumes};
ghost use Rattle.itch_frame.specs.Blocks.{IsBlock};
ghost use Rattle.itch_frame.specs.Counting.{CountsErr, Takes};
ghost use Rattle.itch_frame.specs.Offers.{Offers};

mod buffered;

use crate::consumer::Consumer;
use crate::tally::Failures;
pub use buffered::Buffered;
use std::io::{self, Read, Write};

/// A reader that counts its failures.
pub trait CountedRead {
    ghost use Rattle.itch_frame.specs.declared.tally.Failures.{Failures};

    // The bytes that the reader has not read yet, if they are known.
    ghost remaining: { Self → Option (List ℕ) };

    // The number of failed reads, and the error of the last one.
    ghost failures: { Self → Failures };

    /// Reads some bytes into the front of `buf`, and returns their number. If `buf` is not empty, `Ok(0)` means the end of input.
    ///
    /// An `Err` is counted, and consumes nothing.
    fn read_some(&mut self, buf: &mut [u8]) -> io::Result<usize>
        ensures bound { ReadsAtMost result buf.new }
        ensures bytes { ReadConsumes (remaining self.old) (remaining self.new) result buf.new }
        ensures count { CountsErr result (failures self.old) (failures self.new) };

    /// Moves the next block to the front of `buf` and returns its length, if the reader already holds the complete block in memory.
    ///
    /// This reads nothing, so it cannot fail. `None` changes nothing; a reader may always return it.
    fn take_block(&mut self, buf: &mut [u8]) -> Option<usize>
        ensures block { IfSome result (λ size. (size ≤ length buf.new) × IsBlock (take size buf.new)) }
        ensures bytes { IfSome result (λ size. Consumes (remaining self.old) (remaining self.new) (take size buf.new)) }
        ensures none { IfNone result ((self.new ≡ self.old) × (buf.new ≡ buf.old)) }
        ensures count { failures self.new ≡ failures self.old }
    {
        let _buf = buf;
        None
    }

    /// Returns the next bytes that the reader already holds in memory. A reader may always return none.
    fn at_hand(&self) -> &[u8]
        ensures { IfSome (remaining self.now) (λ rest. take (length result.now) rest ≡ result.now) }
    {
        &[]
    }

    /// Offers the bytes that the reader holds in memory to a consumer, moves past those that the consumer uses, and returns their number.
    ///
    /// This reads nothing, so it cannot fail. A reader may always offer nothing and return 0.
    fn offer<C: Consumer>(&mut self, consumer: &mut C) -> usize
        requires { C.is_ready consumer.old }
        ensures offers { Offers remaining C.uses self.old result self.new consumer.old consumer.new }
        ensures count { failures self.new ≡ failures self.old }
    {
        let _consumer = consumer;
        0
    }
}

/// A writer that counts its failures.
pub trait CountedWrite {
    ghost use Rattle.itch_frame.specs.declared.tally.Failures.{Failures};

    // The bytes that were written, if they are known.
    ghost contents: { Self → Option (List ℕ) };

    // The number of failed writes, and the error of the last one.
    ghost failures: { Self → Failures };

    /// Writes some bytes from the front of `buf`, at least one unless `buf` is empty, and returns their number.
    ///
    /// An `Err` is counted, and writes nothing.
    fn write_some(&mut self, buf: &[u8]) -> io::Result<usize>
        ensures bound { WritesAtMost result buf.now }
        ensures bytes { Takes (contents self.old) (contents self.new) result buf.now }
        ensures count { CountsErr result (failures self.old) (failures self.new) };
}

/// Counts the failures of any standard reader or writer. It reads or writes the same bytes as the inner one, also after failures.
///
/// A write of some bytes that accepts none counts as the failure `WriteZero`. A flush of the inner writer is not counted.
#[derive(Drop)]
pub struct Counted<T> {
    inner: T,
    failures: Failures,
}

impl<T> Counted<T> {
    /// Wraps a reader or a writer, with no failures counted yet.
    pub fn new(inner: T) -> Counted<T>
        ensures inner { result.inner ≡ inner }
        ensures count { result.failures.count ≡ 0 }
        ensures last { result.failures.last ≡ None }
    {
        Counted {
            inner,
            failures: Failures::none(),
        }
    }

    /// Returns the inner reader or writer.
    pub fn get(&self) -> &T
        ensures { result.now ≡ self.now.inner }
    {
        &self.inner
    }

    /// Returns the failures so far.
    pub fn failures(&self) -> Failures
        ensures { result ≡ self.now.failures }
    {
        self.failures
    }

    /// Returns the inner reader or writer, whose failures are no longer counted.
    pub fn into_inner(self) -> T
        ensures { result ≡ self.inner }
    {
        let Counted { inner, failures: _ } = self;
        inner
    }
}

impl<T: Read> CountedRead for Counted<T> {
    ghost remaining = { λ c. T.remaining c.inner };

    ghost failures = { λ c. c.failures };

    fn read_some(&mut self, buf: &mut [u8]) -> io::Result<usize> {
        match self.inner.read(buf) {
            Ok(count) => Ok(count),
            Err(error) => Err(self.failures.add(error)),
        }
    }
}

impl<T: Write> CountedWrite for Counted<T> {
    ghost contents = { λ c. T.contents c.inner };

    ghost failures = { λ c. c.failures };

    #[inline(always)]
    fn write_some(&mut self, buf: &[u8]) -> io::Result<usize> {
        match self.inner.write(buf) {
            Ok(count) if count > 0 || buf.is_empty() => Ok(count),
            Ok(_) => Err(self.failures.add(io::Error::from(io::ErrorKind::WriteZero))),
            Err(error) => Err(self.failures.add(error)),
        }
    }
}
