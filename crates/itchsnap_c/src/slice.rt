//! A reader of bytes in memory, which never fails.
ghost use Rattle.std.specs.Prelude.{Some, None};

use itch_frame::{Consumer, CountedRead, copy_first_block};
use std::io;

/// Bytes in memory.
#[derive(Drop)]
pub(crate) struct SliceReader<'a> {
    pub(crate) rest: &'a [u8],
}

impl CountedRead for SliceReader<'_> {
    ghost remaining = { λ s. Some s.rest.now };

    ghost failures = { λ s. record { count = 0; last = None } };

    fn read_some(&mut self, buf: &mut [u8]) -> io::Result<usize> {
        let count = buf.len().min(self.rest.len());
        buf[..count].copy_from_slice(&self.rest[..count]);
        self.rest = &self.rest[count..];
        Ok(count)
    }

    fn take_block(&mut self, buf: &mut [u8]) -> Option<usize> {
        let size = copy_first_block(self.rest, buf)?;
        self.rest = &self.rest[size..];
        Some(size)
    }

    fn at_hand(&self) -> &[u8] {
        self.rest
    }

    fn offer<C: Consumer>(&mut self, consumer: &mut C) -> usize {
        let used = consumer.consume(self.rest);
        if used > 0 {
            self.rest = &self.rest[used..];
        }
        used
    }
}
