//! The record of a feed: a day file, or none.
ghost use Rattle.std.specs.Prelude.{OnOk};
ghost use Rattle.itch_records.specs.Recordings.{contents_of, failures_of, IsFlushed, IsSame};

use itch_frame::CountedWrite;
use itch_frame::tally::Failures;
use std::alloc::Global;
use std::fs::OpenFile;
use std::io::{self, BufWriter, ErrorKind, Write};

/// The destination of a feed's messages, if they are recorded.
#[derive(Drop)]
pub enum Recording<F: Write + Drop> {
    Nowhere(Failures),
    File {
        file: BufWriter<F, Global>,
        failures: Failures,
        // The number of bytes that were added.
        added: u64,
    },
}

impl<F: Write + Drop> Recording<F> {
    /// Returns the number of bytes that were added.
    pub fn added(&self) -> u64 {
        match self {
            Recording::Nowhere(_) => 0,
            Recording::File { added, .. } => *added,
        }
    }

    /// Flushes the buffered bytes.
    ///
    /// # Errors
    ///
    /// The system's error if this fails.
    pub fn flush(&mut self) -> io::Result<()>
        ensures flushed { OnOk result (IsFlushed self.new) }
        ensures same { IsSame F.contents self.old self.new }
    {
        match self {
            Recording::Nowhere(_) => Ok(()),
            Recording::File { file, .. } => file.flush(),
        }
    }
}

impl<F: Write + OpenFile + Drop> Recording<F> {
    /// Waits until the flushed bytes are on disk.
    ///
    /// # Errors
    ///
    /// The system's error if this fails.
    pub fn sync(&self) -> io::Result<()> {
        match self {
            Recording::Nowhere(_) => Ok(()),
            Recording::File { file, .. } => file.get_ref().sync_data(),
        }
    }
}

impl<F: Write + Drop> CountedWrite for Recording<F> {
    ghost contents = { contents_of F.contents };

    ghost failures = { failures_of };

    fn write_some(&mut self, buf: &[u8]) -> io::Result<usize> {
        match self {
            Recording::Nowhere(_) => Ok(buf.len()),
            Recording::File {
                file,
                failures,
                added,
            } => match file.write(buf) {
                Ok(count) if count > 0 || buf.is_empty() => {
                    *added = added.saturating_add(count as u64);
                    Ok(count)
                }
                Ok(_) => Err(failures.add(io::Error::from(ErrorKind::WriteZero))),
                Err(error) => Err(failures.add(error)),
            },
        }
    }
}
