//! Refuses a job whose output is also its input: writing the output would destroy the input.
ghost use Rattle.std.specs.Prelude.{◌≡◌};
ghost use Rattle.itch_tool.specs.SameFiles.{is_same_file};

use crate::failure::Failure;
use crate::names::CommandFiles;
use itch_records::Seen;
use std::fs;
use std::rt::Files;

/// Returns the failure of a job that would write its output, or the temporary file for it, to one of its input files.
pub fn check_output<R: Files + AllocGlobal>(
    rt: &R,
    files: &CommandFiles<'_>,
) -> Result<(), Failure> {
    let Some(path) = files.output() else {
        return check_path(rt, files, "/dev/stdout");
    };
    check_path(rt, files, path)?;
    match part_of(rt, path)? {
        Some(part) => check_path(rt, files, part.as_str()),
        None => Ok(()),
    }
}

// Returns the failure if a path is that of an input file.
fn check_path<R: Files + AllocGlobal>(
    rt: &R,
    files: &CommandFiles<'_>,
    path: &str,
) -> Result<(), Failure> {
    let Some(output) = identity(rt, path) else {
        return Ok(());
    };
    let (first, last) = files.input_paths();
    if is_same(output, identity(rt, first)) || is_same(output, identity(rt, last)) {
        let path = String::from_str(rt.alloc(), path)?;
        return Err(Failure::SameFile { path });
    }
    Ok(())
}

/// Returns the path of the temporary file for an output. A device or a pipe has none.
pub fn part_of<R: Files + AllocGlobal>(rt: &R, path: &str) -> Result<Option<String>, Failure> {
    match fs::metadata(rt, path) {
        Ok(metadata) if !metadata.is_file() => Ok(None),
        _ => Ok(Some(format!(in rt.alloc(); "{path}.part")?)),
    }
}

/// Returns the identity of the regular file at a path, if there is one.
pub fn identity<R: Files>(rt: &R, path: &str) -> Option<Seen> {
    let metadata = fs::metadata(rt, path).ok()?;
    if metadata.is_file() {
        Some(Seen::of(&metadata))
    } else {
        None
    }
}

/// Returns whether these are one file. Its length may have changed.
pub fn is_same(one: Seen, other: Option<Seen>) -> bool
    ensures { result ≡ is_same_file one other }
{
    match other {
        Some(other) => one.device == other.device && one.inode == other.inode,
        None => false,
    }
}
