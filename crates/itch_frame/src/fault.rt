//! Faults of reading and writing blocks.
use std::io;
use thiserror::Error;

/// The reason why a block was not read or not written.
#[derive(Clone, Copy, Debug, Drop, Error)]
pub enum FrameFault {
    /// A read failed. The bytes read so far are kept, and the call may be repeated.
    #[error("read failed")]
    Read(io::Error),
    /// The input ended inside a block. The reader holds `held` bytes of that block.
    #[error("truncated, {held} bytes held")]
    Truncated { held: usize },
    /// A write failed after exactly the first `sent` bytes of the block.
    #[error("write failed")]
    Write { sent: usize, error: io::Error },
    /// The payload is longer than 65,535 bytes. Nothing was written.
    #[error("payload too long")]
    TooLong,
}
