//! The files in a folder of snapshots: one for each snapshot, and their index.
ghost use Rattle.std.specs.Prelude.{◌≡◌, IfOk};
ghost use Rattle.std.specs.String.{string_bytes};
ghost use Rattle.itch_records.specs.Savings.{path_of};

use itch_checkpoints::{Checkpoint, Fingerprint, IndexReader, Latest, index_line};
use itch_day::DayCursor;
use std::alloc::{AllocError, Global};
use std::fs::{self, File, OpenOptions};
use std::io::{self, BufRead, BufReader, BufWriter, ErrorKind, Write};
use std::rt::Files;

/// The kind of a file in the folder.
#[derive(Clone, Copy, Debug, PartialEq, Eq)]
pub enum FolderFile {
    /// The snapshot of this number of messages.
    Snapshot(u64),
    /// A temporary file, which was not completed and renamed.
    Part,
    Other,
}

/// Returns the kind of the file with this name.
pub fn file_of(name: &[u8]) -> FolderFile {
    if name == b"index.jsonl.part".as_slice() {
        return FolderFile::Part;
    }
    if let Some(stem) = name.strip_suffix(b".snap.part")
        && number_of(stem).is_some()
    {
        return FolderFile::Part;
    }
    match name.strip_suffix(b".snap") {
        Some(stem) => match number_of(stem) {
            Some(messages) => FolderFile::Snapshot(messages),
            None => FolderFile::Other,
        },
        None => FolderFile::Other,
    }
}

// Returns the number with these digits, if it is written without leading zeros or a sign.
fn number_of(digits: &[u8]) -> Option<u64> {
    if digits.first() == Some(&b'0') && digits.len() > 1 {
        return None;
    }
    let digits = std::str::from_utf8(digits).ok()?;
    if digits.starts_with('+') {
        return None;
    }
    digits.parse().ok()
}

/// Returns the path of the snapshot of this number of messages in a folder.
pub fn snapshot_path(alloc: Global, folder: &str, messages: u64) -> Result<String, AllocError>
    ensures { IfOk result (λ path. string_bytes path ≡ path_of folder.now messages) }
{
    format!(in alloc; "{folder}/{messages}.snap")
}

/// Removes temporary files, and returns the number of messages of each snapshot in the folder, in ascending order.
///
/// # Errors
///
/// The system's error if the folder cannot be read or a file cannot be removed.
pub fn clean<R: Files<File = File> + AllocGlobal>(rt: &R, folder: &str) -> io::Result<Vec<u64>> {
    let alloc = rt.alloc();
    // With the dot, a link to a folder is followed.
    let itself = format!(in alloc; "{folder}/.")?;
    let mut names = BufReader::new(alloc, rt.open_dir(itself.as_str())?)?;
    let mut found = Vec::new(alloc);
    let mut name = Vec::new(alloc);
    for _ in 0..u64::MAX {
        name.clear();
        if names.read_until(0, &mut name)? == 0 {
            break;
        }
        let _ = name.pop();
        match file_of(&name) {
            FolderFile::Snapshot(messages) => found.push(messages)?,
            FolderFile::Part => remove_part(rt, folder, &name)?,
            FolderFile::Other => {}
        }
    }
    found.sort_unstable();
    Ok(found)
}

fn remove_part<R: Files + AllocGlobal>(rt: &R, folder: &str, name: &[u8]) -> io::Result<()> {
    let Ok(name) = std::str::from_utf8(name) else {
        return Ok(());
    };
    let path = format!(in rt.alloc(); "{folder}/{name}")?;
    fs::remove_file(rt, path.as_str())
}

/// Removes the snapshot of this number of messages, if it exists.
///
/// # Errors
///
/// The system's error if it cannot be removed.
pub fn remove<R: Files + AllocGlobal>(rt: &R, folder: &str, messages: u64) -> io::Result<()> {
    let path = snapshot_path(rt.alloc(), folder, messages)?;
    match fs::remove_file(rt, path.as_str()) {
        Err(error) if matches!(error.kind(), ErrorKind::NotFound) => Ok(()),
        removed => removed,
    }
}

/// Adds the line of a snapshot to the index.
///
/// # Errors
///
/// The system's error if the index cannot be written.
pub fn list<R: Files<File = File> + AllocGlobal>(
    rt: &R,
    folder: &str,
    cursor: DayCursor,
    fingerprint: Fingerprint,
) -> io::Result<()> {
    let alloc = rt.alloc();
    let path = format!(in alloc; "{folder}/index.jsonl")?;
    let line = index_line(alloc, cursor, fingerprint, None)?;
    let mut how = OpenOptions::new();
    how.append(true).create(true);
    let mut file = how.open(rt, path.as_str())?;
    let length = file.metadata()?.len();
    match file.write_all(&line) {
        Ok(()) => Ok(()),
        Err(error) => {
            // An incomplete line would spoil the next one.
            let _ = file.set_len(length);
            Err(error)
        }
    }
}

/// Which lines of the index are kept, by the number of messages of their snapshots.
#[derive(Clone, Copy)]
pub enum KeptLines {
    /// The lines with at most this number.
    UpTo(u64),
    /// All lines except the one with this number.
    AllBut(u64),
}

impl KeptLines {
    fn has(self, count: u64) -> bool {
        match self {
            KeptLines::UpTo(most) => count <= most,
            KeptLines::AllBut(removed) => count != removed,
        }
    }
}

/// Removes the other lines of the index, and those that are not of a snapshot of all locates. The new index is a temporary file, which is
/// renamed when it is on disk.
///
/// # Errors
///
/// The system's error if the index cannot be read or written.
pub fn keep_lines<R: Files<File = File> + AllocGlobal>(
    rt: &R,
    folder: &str,
    kept: KeptLines,
) -> io::Result<()> {
    let alloc = rt.alloc();
    let path = format!(in alloc; "{folder}/index.jsonl")?;
    let beside = format!(in alloc; "{path}.part")?;
    let index = match fs::open(rt, path.as_str()) {
        Ok(index) => index,
        Err(error) if matches!(error.kind(), ErrorKind::NotFound) => return Ok(()),
        Err(error) => return Err(error),
    };
    let written = match write_kept(rt, index, beside.as_str(), kept) {
        Ok(()) => fs::rename(rt, beside.as_str(), path.as_str()),
        Err(error) => Err(error),
    };
    if written.is_err() {
        // The record needs the space of the incomplete file.
        let _ = fs::remove_file(rt, beside.as_str());
    }
    written
}

// Writes the kept lines of an index to the file at a path, and waits until it is on disk.
fn write_kept<R: Files<File = File> + AllocGlobal>(
    rt: &R,
    index: File,
    path: &str,
    kept: KeptLines,
) -> io::Result<()> {
    let alloc = rt.alloc();
    let mut lines = IndexReader::new(alloc, BufReader::new(alloc, index)?);
    let mut out = BufWriter::new(alloc, fs::create(rt, path)?)?;
    for _ in 0..u64::MAX {
        let Some(checkpoint) = lines.next()? else {
            break;
        };
        if kept.has(checkpoint.count)
            && let Some((cursor, fingerprint)) = whole(&checkpoint)
        {
            out.write_all(&index_line(alloc, cursor, fingerprint, None)?)?;
        }
    }
    out.flush()?;
    out.get_ref().sync_all()
}

// Returns the data in the line of a snapshot of all locates, if it is complete.
fn whole(checkpoint: &Checkpoint) -> Option<(DayCursor, Fingerprint)> {
    let Latest::Known(latest) = checkpoint.latest else {
        return None;
    };
    let fingerprint = checkpoint.fingerprint?;
    if checkpoint.only.is_some() {
        return None;
    }
    let cursor = DayCursor {
        count: checkpoint.count,
        offset: checkpoint.offset,
        latest,
    };
    Some((cursor, fingerprint))
}
