//! The snapshots of a folder, as its index lists them, and the one nearest to a point of the day.

use crate::failure::Failure;
use itch_checkpoints::{Checkpoint, nearest};
use itch_commands::{Limit, ToolFault};
use std::alloc::{AllocError, Global};
use std::fs;
use std::io::BufReader;
use std::rt::Files;

/// The snapshot of a market without messages: only End of Snapshot, with the number 1.
pub const EMPTY_SNAPSHOT: &[u8] = b"\0\x15G                   1";

/// Returns the checkpoint of a folder with the most messages that is not beyond a point, or the beginning of the day.
pub fn nearest_of<R: Files + AllocGlobal>(
    rt: &R,
    folder: &str,
    point: Limit,
) -> Result<Checkpoint, Failure> {
    let alloc = rt.alloc();
    let path = format!(in alloc; "{folder}/index.jsonl")?;
    let index = match fs::open(rt, path.as_str()) {
        Ok(index) => index,
        Err(error) => return Err(Failure::open(alloc, path.as_str(), error)),
    };
    let Ok(buffered) = BufReader::new(alloc, index) else {
        return Err(Failure::from(ToolFault::OutOfMemory));
    };
    match nearest(alloc, buffered, point) {
        Ok(checkpoint) => Ok(checkpoint),
        Err(error) => Err(Failure::open(alloc, path.as_str(), error)),
    }
}

/// Returns the path of the snapshot of a checkpoint.
pub fn path_of(alloc: Global, folder: &str, checkpoint: &Checkpoint) -> Result<String, AllocError> {
    let count = checkpoint.count;
    format!(in alloc; "{folder}/{count}.snap")
}
