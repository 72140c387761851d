//! The file next to a record that names the feed's session. It is needed because the messages of another day have the same numbers.

use crate::fault::{LiveFault, RecordFault};
use itch_codec::Alpha;
use itch_sessions::{SessionFault, VERSION};
use std::fs::{self, File};
use std::io::{self, ErrorKind, Read, Write};
use std::rt::Files;

/// A longer file is not a session file.
const MOST_BYTES: u64 = 1_024;

/// Returns the session of the record at this path, or `None` if it has no session file.
///
/// # Errors
///
/// A [`LiveFault`] if the file cannot be read or does not name a session.
pub fn read_session<R: Files<File = File> + AllocGlobal>(
    rt: &R,
    path: &str,
) -> Result<Option<Alpha<10>>, LiveFault> {
    let name = format!(in rt.alloc(); "{path}.session")?;
    let text = match read_text(rt, name.as_str()) {
        Ok(text) => text,
        Err(error) => match error.kind() {
            ErrorKind::NotFound => return Ok(None),
            ErrorKind::InvalidData => return Err(LiveFault::Record(RecordFault::BadSession)),
            _ => return Err(file_fault(error)),
        },
    };
    match session_in(text.as_str()) {
        Some(session) => Ok(Some(session)),
        None => Err(LiveFault::Record(RecordFault::BadSession)),
    }
}

/// Writes the session of the record at this path to a temporary file, which is renamed when it is on disk.
///
/// # Errors
///
/// A [`LiveFault`] if the file cannot be written.
pub fn write_session<R: Files<File = File> + AllocGlobal>(
    rt: &R,
    path: &str,
    session: &Alpha<10>,
) -> Result<(), LiveFault> {
    let name = format!(in rt.alloc(); "{path}.session")?;
    let beside = format!(in rt.alloc(); "{name}.part")?;
    let session = session.text().trim();
    let text = format!(in rt.alloc(); "{session}\nitchsnap {VERSION}\n")?;
    match write_text(rt, beside.as_str(), name.as_str(), text.as_str()) {
        Ok(()) => Ok(()),
        Err(error) => Err(file_fault(error)),
    }
}

// Returns the session named in the first line of a text.
fn session_in(text: &str) -> Option<Alpha<10>> {
    let line = text.lines().next()?;
    Alpha::from_text(line.trim()).ok()
}

fn read_text<R: Files<File = File> + AllocGlobal>(rt: &R, path: &str) -> io::Result<String> {
    io::read_to_string(rt.alloc(), fs::open(rt, path)?.take(MOST_BYTES))
}

fn write_text<R: Files<File = File>>(
    rt: &R,
    beside: &str,
    name: &str,
    text: &str,
) -> io::Result<()> {
    let mut file = fs::create(rt, beside)?;
    file.write_all(text.as_bytes())?;
    file.sync_all()?;
    fs::rename(rt, beside, name)
}

fn file_fault(error: io::Error) -> LiveFault {
    match error.kind() {
        ErrorKind::OutOfMemory => LiveFault::Session(SessionFault::OutOfMemory),
        _ => LiveFault::SessionFile(error),
    }
}
