//! The output file for a snapshot: it is written to a temporary file, which is renamed once it is complete.

use crate::failure::Failure;
use crate::same_file::{identity, is_same, part_of};
use itch_records::Seen;
use std::fs::{self, File, OpenOptions, TryLockError};
use std::io::{self, Error, ErrorKind};
use std::rt::Files;

/// How often the temporary file may be renamed by another process before it is locked.
const MOST_TRIES: u8 = 16;

/// A temporary file next to a path, which is then renamed to the path: so a file at that path is complete.
///
/// If the path is that of a device or a pipe, it is written directly.
#[derive(Drop)]
pub struct Output<'a> {
    path: &'a str,
    temporary: Option<Temporary>,
}

// A temporary file, which this process has locked until it has its name.
#[derive(Drop)]
struct Temporary {
    path: String,
    _lock: File,
}

impl<'a> Output<'a> {
    /// Creates the output at a path, and returns it with the file to write to.
    ///
    /// An error is `Open`, or `OutOfMemory`.
    pub fn create<R: Files<File = File> + AllocGlobal>(
        rt: &R,
        path: &'a str,
    ) -> Result<(Output<'a>, File), Failure> {
        let Some(part) = part_of(rt, path)? else {
            return match fs::create(rt, path) {
                Ok(file) => Ok((
                    Output {
                        path,
                        temporary: None,
                    },
                    file,
                )),
                Err(error) => Err(Failure::open(rt.alloc(), path, error)),
            };
        };
        match create_locked(rt, part.as_str()) {
            Ok((file, lock)) => {
                let temporary = Some(Temporary {
                    path: part,
                    _lock: lock,
                });
                Ok((Output { path, temporary }, file))
            }
            Err(error) => {
                // If the temporary file already exists, it is in the way.
                let is_in_the_way = fs::metadata(rt, part.as_str()).is_ok();
                let named = if is_in_the_way { part.as_str() } else { path };
                Err(Failure::open(rt.alloc(), named, error))
            }
        }
    }

    /// Renames the temporary file, if everything was written to it; otherwise removes it.
    pub fn finish<R: Files + AllocGlobal>(
        &self,
        rt: &R,
        outcome: Result<bool, Failure>,
    ) -> Result<bool, Failure> {
        let Some(temporary) = &self.temporary else {
            return outcome;
        };
        let part = temporary.path.as_str();
        let named = match outcome {
            Ok(answer) => match fs::rename(rt, part, self.path) {
                Ok(()) => return Ok(answer),
                Err(error) => Failure::open(rt.alloc(), self.path, error),
            },
            Err(failure) => failure,
        };
        let _removed = fs::remove_file(rt, part);
        Err(named)
    }
}

// Creates the file at a path, or empties it, and returns it with its lock: two processes that wrote to it at once would mix their output. A
// file system without locks has none.
fn create_locked<R: Files<File = File>>(rt: &R, path: &str) -> io::Result<(File, File)> {
    let mut how = OpenOptions::new();
    how.write(true).create(true);
    for _ in 0..MOST_TRIES {
        let file = how.open(rt, path)?;
        if matches!(file.try_lock(), Err(TryLockError::WouldBlock)) {
            break;
        }
        // Another process may have renamed it since it was opened.
        if is_at(rt, path, &file) {
            file.set_len(0)?;
            let lock = file.try_clone()?;
            return Ok((file, lock));
        }
    }
    Err(in_use())
}

/// Returns the error of a file or a folder that another process has locked.
pub fn in_use() -> Error {
    Error::new(ErrorKind::WouldBlock, "another process is writing it")
}

// Returns whether an open file is the one at a path.
fn is_at<R: Files<File = File>>(rt: &R, path: &str, file: &File) -> bool {
    match file.metadata() {
        Ok(metadata) => is_same(Seen::of(&metadata), identity(rt, path)),
        Err(_) => false,
    }
}
