//! The index of a folder of snapshots.

use crate::checkpoint::Checkpoint;
use crate::lines::Lines;
use itch_day::{DayCursor, Limit};
use std::alloc::Global;
use std::io::{self, BufRead};

/// Reads the checkpoints of an index. Lines that do not describe a checkpoint are skipped.
#[derive(Drop)]
pub struct IndexReader<R> {
    alloc: Global,
    lines: Lines<R>,
}

impl<R: BufRead> IndexReader<R> {
    pub fn new(alloc: Global, reader: R) -> IndexReader<R> {
        IndexReader {
            alloc,
            lines: Lines::new(alloc, reader),
        }
    }

    /// Returns the next checkpoint, or `None` after the last one.
    ///
    /// # Errors
    ///
    /// A read failed, or memory ran out.
    pub fn next(&mut self) -> io::Result<Option<Checkpoint>> {
        for _ in 0..u64::MAX {
            let Some(line) = self.lines.next()? else {
                break;
            };
            if let Some(checkpoint) = Checkpoint::read(self.alloc, line)? {
                return Ok(Some(checkpoint));
            }
        }
        Ok(None)
    }
}

/// Returns the checkpoint of an index with the most messages that is not beyond a point, or the beginning of the day.
pub fn nearest<R: BufRead + Drop>(alloc: Global, index: R, point: Limit) -> io::Result<Checkpoint> {
    let mut reader = IndexReader::new(alloc, index);
    let mut nearest = Checkpoint::beginning();
    let mut cursor = DayCursor::new();
    for _ in 0..u64::MAX {
        let Some(checkpoint) = reader.next()? else {
            break;
        };
        if let Some(found) = checkpoint.cursor(point)
            && found.is_nearer(&cursor, point)
        {
            cursor = found;
            nearest = checkpoint;
        }
    }
    Ok(nearest)
}
