//! Bytes read from a socket that were not passed on yet.
ghost use Rattle.std.specs.Prelude.{◌≡◌, ◌≤◌, [], length, drop, IfOk};

use crate::socket::{Got, Socket};
use std::alloc::{AllocError, Global};
use std::io;
use std::marker::Model;

/// The most bytes of one read.
const PIECE: usize = 1 << 16;

/// Bytes read from a socket that were not passed on yet.
#[derive(Drop)]
pub struct ReadBuffer {
    buffer: Vec<u8>,
    from: usize,
    to: usize,
}

impl Model for ReadBuffer {
    ghost use Rattle.std.specs.Prelude.{ℕ, ◌≤◌, List, vec_len};
    ghost use Rattle.std.specs.List.{slice_range};

    ghost Value = { List ℕ };

    ghost view = { λ p. slice_range p.buffer.items p.from p.to };

    ghost invariant = { λ p. (p.from ≤ p.to) × (p.to ≤ vec_len p.buffer) };
}

impl ReadBuffer {
    /// Creates an empty one. It allocates all its memory here, 65,536 bytes.
    ///
    /// # Errors
    ///
    /// [`AllocError`] if memory is refused.
    pub fn new(alloc: Global) -> Result<ReadBuffer, AllocError>
        ensures { IfOk result (λ piece. piece ≡ []) }
    {
        Ok(ReadBuffer {
            buffer: vec![in alloc; 0; PIECE]?,
            from: 0,
            to: 0,
        })
    }

    /// Returns the bytes to be passed on.
    pub fn bytes(&self) -> &[u8]
        ensures { result.now ≡ self.now }
    {
        &self.buffer[self.from..self.to]
    }

    pub fn is_empty(&self) -> bool {
        self.from == self.to
    }

    /// Records that the first `count` bytes were passed on.
    #[tactic(auto, using(crate::proofs::Ranges::front_passed))]
    pub fn passed(&mut self, count: usize)
        requires { count ≤ length self.old }
        ensures { self.new ≡ drop count self.old }
    {
        self.from += count;
    }

    /// Drops all bytes.
    pub fn clear(&mut self)
        ensures { self.new ≡ [] }
    {
        self.from = 0;
        self.to = 0;
    }

    /// Reads the available bytes of a socket, in place of the previous ones.
    ///
    /// # Errors
    ///
    /// The system's error if the read fails.
    pub fn fill(&mut self, socket: &mut Socket) -> io::Result<Got> {
        self.clear();
        let got = socket.read(&mut self.buffer[..])?;
        if let Got::Bytes(count) = got {
            self.from = 0;
            self.to = count.min(self.buffer.len());
        }
        Ok(got)
    }
}
