//! Reads an index.
ghost use Rattle.std.specs.Prelude.{◌≡◌, take};

use crate::directory::block_of;
use crate::row::IndexRow;
use itch_checkpoints::{Lines, first_digits};
use sha2::{Digest, Sha256};
use std::alloc::{AllocError, Global};
use std::io::{self, BufRead};

/// The rows of an index in ascending order, and the blocks of the Stock Directory messages before the last row.
#[derive(Drop)]
pub struct DayIndex {
    rows: Vec<IndexRow, Global>,
    directory: Vec<u8, Global>,
}

// The use of a line.
enum LineKind {
    Used,
    /// The last line, with the digits of a digest.
    End([u8; 16]),
    Invalid,
}

impl DayIndex {
    /// Reads an index to its end. Returns `None` if it is not a complete and unchanged index.
    pub fn read<R: BufRead + Drop>(alloc: Global, index: R) -> io::Result<Option<DayIndex>> {
        let mut lines = Lines::new(alloc, index);
        let mut hasher = Sha256::new();
        let mut read = DayIndex {
            rows: Vec::new(alloc),
            directory: Vec::new(alloc),
        };
        for _ in 0..u64::MAX {
            let Some(line) = lines.next()? else {
                break;
            };
            match read.take(alloc, line)? {
                LineKind::Used => {
                    hasher.update(line);
                    hasher.update(b"\n");
                }
                LineKind::End(digits) => {
                    let is_complete = digits == first_digits(hasher) && lines.next()?.is_none();
                    return Ok(if is_complete { Some(read) } else { None });
                }
                LineKind::Invalid => break,
            }
        }
        Ok(None)
    }

    /// Returns the rows.
    pub fn rows(&self) -> &[IndexRow]
        ensures { result.now ≡ self.now.rows.items }
    {
        &self.rows
    }

    /// Returns the blocks of the Stock Directory messages before a row.
    pub fn directory(&self, row: &IndexRow) -> &[u8]
        ensures { result.now ≡ take row.now.listed self.now.directory.items }
    {
        &self.directory[..row.listed.min(self.directory.len())]
    }

    // Takes a line, and returns its use.
    fn take(&mut self, alloc: Global, line: &[u8]) -> Result<LineKind, AllocError> {
        if let Some(block) = block_of(line) {
            self.directory.extend_from_slice(&block)?;
            return Ok(LineKind::Used);
        }
        if let Some(digits) = end_of(line) {
            return Ok(LineKind::End(digits));
        }
        match IndexRow::read(alloc, line, self.directory.len())? {
            Some(row) => {
                self.rows.push(row)?;
                Ok(LineKind::Used)
            }
            None => Ok(LineKind::Invalid),
        }
    }
}

// Returns the digits of the last line, if this is such a line.
fn end_of(line: &[u8]) -> Option<[u8; 16]> {
    let digits = line
        .strip_prefix(b"{\"end\":\"".as_slice())?
        .strip_suffix(b"\"}".as_slice())?;
    <[u8; 16]>::try_from(digits).ok()
}
