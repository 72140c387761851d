//! A buffer of fixed size.
ghost use Rattle.std.specs.Prelude.{◌≡◌, ◌<◌, ◌≤◌, ◌∷◌, [], Some, vec_len, vec_capacity, IfOk};

use crate::outbox::append;
use itch_frame::CountedWrite;
use itch_frame::tally::Failures;
use std::alloc::{AllocError, Allocator};
use std::io;

/// A buffer that is allocated for a known number of bytes. A write fails only if it is full.
#[derive(Drop)]
pub(crate) struct FixedBuffer<A: Allocator> {
    bytes: Vec<u8, A>,
    room: usize,
    failures: Failures,
    ghost within: { vec_len bytes ≤ room },
    ghost held: { room ≤ vec_capacity bytes },
    ghost full: { 0 < failures.count → room ≤ vec_len bytes },
}

impl<A: Allocator> FixedBuffer<A> {
    /// Creates an empty buffer, with memory for `room` bytes.
    pub(crate) fn new(alloc: A, room: usize) -> Result<FixedBuffer<A>, AllocError>
        ensures { IfOk result (λ buffer. (buffer.bytes.items ≡ []) × (buffer.room ≡ room)) }
    {
        Ok(FixedBuffer {
            bytes: Vec::with_capacity(alloc, room)?,
            room,
            failures: Failures::none(),
        })
    }

    pub(crate) fn into_bytes(self) -> Vec<u8, A>
        ensures { result ≡ self.bytes }
    {
        self.bytes
    }
}

impl<A: Allocator> CountedWrite for FixedBuffer<A> {
    // The contents begin with the room, so that a proof sees that no write changes it.
    ghost contents = { λ s. Some (s.room ∷ s.bytes.items) };

    ghost failures = { λ s. s.failures };

    fn write_some(&mut self, buf: &[u8]) -> io::Result<usize> {
        let count = buf.len().min(self.room - self.bytes.len());
        if count == 0 && !buf.is_empty() {
            return Err(self.failures.add(io::Error::from(io::ErrorKind::WriteZero)));
        }
        append(&mut self.bytes, &buf[..count]);
        Ok(count)
    }
}
