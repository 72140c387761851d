//! Counted reads through a standard buffer, which makes many short reads cheap.
ghost use Rattle.std.specs.Prelude.{◌≡◌, None, length, take, min};
ghost use Rattle.std.specs.Io.Buffered.{reader_remaining};

use crate::consumer::Consumer;
use crate::counted::{Counted, CountedRead};
use crate::first::copy_first_block;
use crate::tally::Failures;
use std::alloc::{Allocator, Global};
use std::io::{self, BufRead, BufReader, Read};

/// Counts the failures of a buffered reader, as [`Counted`] does, and reads the same bytes.
///
/// A read copies bytes from the buffer, and reads from the inner reader only if the buffer is empty.
#[derive(Drop)]
pub struct Buffered<T, A: Allocator = Global> {
    counted: Counted<BufReader<T, A>>,
}

impl<T: Read, A: Allocator> Buffered<T, A> {
    /// Wraps a buffered reader, with no failures counted yet.
    pub fn new(reader: BufReader<T, A>) -> Buffered<T, A>
        ensures inner { result.counted.inner ≡ reader }
        ensures count { result.counted.failures.count ≡ 0 }
        ensures last { result.counted.failures.last ≡ None }
    {
        Buffered {
            counted: Counted::new(reader),
        }
    }

    /// Returns the failures so far.
    pub fn failures(&self) -> Failures
        ensures { result ≡ self.now.counted.failures }
    {
        self.counted.failures
    }
}

impl<T: Read, A: Allocator> CountedRead for Buffered<T, A> {
    ghost remaining = { λ b. reader_remaining T.remaining b.counted.inner };

    ghost failures = { λ b. b.counted.failures };

    #[inline(always)]
    #[tactic(auto, using(crate::proofs::BufferedBytes::passed_over))]
    fn read_some(&mut self, buf: &mut [u8]) -> io::Result<usize> {
        let ahead = self.counted.inner.buffer();
        if ahead.is_empty() {
            return self.counted.read_some(buf);
        }
        let count = copy_front(ahead, buf);
        self.counted.inner.consume(count);
        Ok(count)
    }

    #[inline(always)]
    fn take_block(&mut self, buf: &mut [u8]) -> Option<usize> {
        let ahead = self.counted.inner.buffer();
        let size = copy_first_block(ahead, buf)?;
        self.counted.inner.consume(size);
        Some(size)
    }

    #[inline(always)]
    fn at_hand(&self) -> &[u8] {
        self.counted.inner.buffer()
    }

    #[inline(always)]
    fn offer<C: Consumer>(&mut self, consumer: &mut C) -> usize {
        let used = consumer.consume(self.counted.inner.buffer());
        if used > 0 {
            self.counted.inner.consume(used);
        }
        used
    }
}

// Copies as many bytes as are available and fit, and returns their number.
#[inline(always)]
fn copy_front(from: &[u8], to: &mut [u8]) -> usize
    ensures count { result ≡ min (length from.now) (length to.new) }
    ensures bytes { take result to.new ≡ take result from.now }
{
    let count = from.len().min(to.len());
    to[..count].copy_from_slice(&from[..count]);
    count
}
