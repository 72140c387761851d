//! The first bytes of standard input, which show whether it is compressed.

use itchsnap_cli::input::{ContainerFormat, MOST_MAGIC};
use std::cell::Cell;
use std::io::{self, Read};

/// The first bytes of standard input, and their number.
#[derive(Drop)]
pub struct Beginning {
    bytes: Cell<[u8; MOST_MAGIC]>,
    count: Cell<usize>,
}

impl Beginning {
    /// Starts before any bytes.
    pub fn new() -> Beginning {
        Beginning {
            bytes: Cell::new([0; MOST_MAGIC]),
            count: Cell::new(0),
        }
    }

    /// Returns the form of a packed file with these first bytes, if it is one.
    pub fn container_format(&self) -> Option<ContainerFormat> {
        if self.count.get() < MOST_MAGIC {
            return None;
        }
        ContainerFormat::of(&self.bytes.get())
    }

    fn pass(&self, piece: &[u8]) {
        let mut bytes = self.bytes.get();
        for (byte, &next) in bytes.iter_mut().skip(self.count.get()).zip(piece) {
            *byte = next;
        }
        self.bytes.set(bytes);
        self.count.set(self.count.get().saturating_add(piece.len()));
    }
}

/// A reader that reads as its inner reader does, and notes the first bytes.
#[derive(Drop)]
pub struct BegunInput<'a, T> {
    inner: T,
    beginning: &'a Beginning,
}

impl<'a, T> BegunInput<'a, T> {
    pub fn new(inner: T, beginning: &'a Beginning) -> BegunInput<'a, T> {
        BegunInput { inner, beginning }
    }
}

impl<T: Read> Read for BegunInput<'_, T> {
    fn read(&mut self, buf: &mut [u8]) -> io::Result<usize> {
        let count = self.inner.read(buf)?;
        self.beginning.pass(&buf[..count]);
        Ok(count)
    }
}
