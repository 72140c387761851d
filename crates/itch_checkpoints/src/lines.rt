//! Reads the lines of a file.

use std::alloc::Global;
use std::io::{self, BufRead, Read, Take};

/// Longer lines are skipped. The lines of an index are shorter: the longest list of locates has less than half of this length.
const MOST_BYTES: u64 = 1 << 19;

/// The lines of a file, which are read one after another into the same memory.
#[derive(Drop)]
pub struct Lines<R> {
    // Ends before a line is too long.
    reader: Take<R>,
    line: Vec<u8, Global>,
}

impl<R: BufRead> Lines<R> {
    pub fn new(alloc: Global, reader: R) -> Lines<R> {
        Lines {
            reader: Read::take(reader, MOST_BYTES),
            line: Vec::new(alloc),
        }
    }

    /// Returns the next line, without its line feed, or `None` after the last one. A line that is too long is returned as an empty one.
    pub fn next(&mut self) -> io::Result<Option<&[u8]>> {
        self.line.clear();
        self.reader.set_limit(MOST_BYTES);
        if self.reader.read_until(b'\n', &mut self.line)? == 0 {
            return Ok(None);
        }
        if self.line.last() == Some(&b'\n') {
            let _ = self.line.pop();
        } else if self.line.len() as u64 == MOST_BYTES {
            self.line.clear();
            self.reader.set_limit(u64::MAX);
            self.reader.skip_until(b'\n')?;
        }
        Ok(Some(&self.line))
    }
}
