//! File descriptors that are kept from clients, so that a server with many clients can still connect to its feed and write its snapshots.

use std::alloc::{AllocError, Global};
use std::fs::{self, File};
use std::rt::Files;

/// A file that can always be opened.
const ANY: &str = "/dev/null";

/// The number of descriptors that are kept.
pub const SPARED: usize = 3;

/// Open files that give up their descriptors when these are needed.
#[derive(Drop)]
pub struct Spare {
    files: Vec<File>,
    most: usize,
}

impl Spare {
    /// Creates one with room for `most` files, none of which is open yet.
    ///
    /// # Errors
    ///
    /// [`AllocError`] if memory is refused.
    pub fn new(alloc: Global, most: usize) -> Result<Spare, AllocError> {
        Ok(Spare {
            files: Vec::with_capacity(alloc, most)?,
            most,
        })
    }

    /// Opens the missing files, and returns whether all are open. If not, clients get no descriptors.
    pub fn hold<R: Files<File = File>>(&mut self, rt: &R) -> bool {
        for _ in self.files.len()..self.most {
            let Ok(file) = fs::open(rt, ANY) else {
                return false;
            };
            if self.files.push(file).is_err() {
                return false;
            }
        }
        true
    }

    /// Closes all of them.
    pub fn release(&mut self) {
        self.files.clear();
    }
}
