//! Reads a day file, and notes the bytes that the fingerprint of a place needs.

use itch_checkpoints::{Fingerprint, Passed};
use std::alloc::{AllocError, Global};
use std::cell::RefCell;
use std::io::{self, ErrorKind, Read};

/// The bytes that have passed through a reader.
#[derive(Drop)]
pub struct Notes {
    passed: RefCell<Passed<Global>>,
}

impl Notes {
    pub fn new(alloc: Global) -> Result<Notes, AllocError> {
        Ok(Notes {
            passed: RefCell::new(Passed::new(alloc)?),
        })
    }

    /// Returns the fingerprint of the bytes before a place that is not far behind.
    pub fn fingerprint(&self, place: u64) -> io::Result<Fingerprint> {
        let found = match self.passed.try_borrow() {
            Ok(passed) => passed.fingerprint(place),
            Err(_) => None,
        };
        found.ok_or(io::Error::from(ErrorKind::Other))
    }

    fn pass(&self, piece: &[u8]) -> io::Result<()> {
        match self.passed.try_borrow_mut() {
            Ok(mut passed) => Ok(passed.pass(piece)?),
            Err(_) => Err(io::Error::from(ErrorKind::Other)),
        }
    }
}

/// A reader that reads as its inner reader does, and notes the bytes.
#[derive(Drop)]
pub struct Noted<'a, T> {
    inner: T,
    notes: &'a Notes,
}

impl<'a, T> Noted<'a, T> {
    pub fn new(inner: T, notes: &'a Notes) -> Noted<'a, T> {
        Noted { inner, notes }
    }
}

impl<T: Read> Read for Noted<'_, T> {
    fn read(&mut self, buf: &mut [u8]) -> io::Result<usize> {
        let count = self.inner.read(buf)?;
        self.notes.pass(&buf[..count])?;
        Ok(count)
    }
}
