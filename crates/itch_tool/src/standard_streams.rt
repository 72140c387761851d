//! Standard streams that are closed when the program starts.

use std::fs::{self, File};
use std::os::fd::AsRawFd;
use std::rt::Files;

/// The standard streams have the descriptors below this one.
const STREAMS: i32 = 3;

/// Occupies the descriptors of closed standard streams, as long as it is held. Otherwise the first file or socket that is opened would get one of them, and
/// the lines for that stream would be written into it.
#[derive(Drop)]
pub struct Occupied {
    _files: [Option<File>; 3],
}

impl Occupied {
    /// Opens the root directory in place of each closed stream: a write to it fails, as one to a closed stream does.
    pub fn open<R: Files<File = File>>(rt: &R) -> Occupied {
        Occupied {
            _files: [stand_in(rt), stand_in(rt), stand_in(rt)],
        }
    }
}

// A file in place of a standard stream, if one is closed.
fn stand_in<R: Files<File = File>>(rt: &R) -> Option<File> {
    let file = fs::open(rt, "/").ok()?;
    if file.as_raw_fd() < STREAMS {
        Some(file)
    } else {
        None
    }
}
