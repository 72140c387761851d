//! The input of a command, a file or standard input, and the progress of reading, shown on standard error.
//!
//! [`InputStream`] is either kind of input. A [`ProgressReader`] reads as its inner reader does. A [`BlockCounter`] counts the bytes that pass through
//! it: the bytes, and the complete messages in them. [`ProgressLine`] sums up all files of a command, and updates its line every 64 MiB.
//! [`ContainerFormat`] recognises a compressed file, or one of captured packets, by its first bytes.
//!
//! ```
//! let mut tally = Tally::new();
//! tally.pass(b"\0\x02hi\0\x02");
//! tally.pass(b"ho");
//! assert_eq!(tally.messages(), 2);
//! ```

mod container;
mod input_stream;
mod messages;
mod progress;

pub use container::{ContainerFormat, MOST_MAGIC};
pub use input_stream::InputStream;
pub use messages::{BlockCounter, BlockPosition};
pub use progress::{Amount, ProgressLine, ProgressReader};
