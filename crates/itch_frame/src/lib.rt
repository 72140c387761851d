//! Blocks: two bytes with a length, and then that number of bytes of payload, as streams and files of market data contain them.
//!
//! A block consists of the length of its payload in two bytes, the high byte first, and of the payload, at most 65,535 bytes. SoupBinTCP 3.00
//! sends its packets in such blocks, and a day file stores its messages in them.
//!
//! - [`Splitter`] cuts a stream that arrives in pieces into blocks. The blocks do not depend on the pieces.
//! - [`BlockReader`] reads blocks or messages one by one, and never reads past the current block.
//! - [`write_block`] writes one block.
//!
//! Readers and writers count their failures ([`CountedRead`], [`CountedWrite`]), so no call can report a failed read or write that did not
//! happen.
//! `laws` states the properties of all streams.
//!
//! ```
//! write_block(&mut out, b"hi")?;
//! assert_eq!(out.written(), b"\0\x02hi");
//!
//! let mut blocks = BlockReader::new(alloc, Counted::new(out.written()))?;
//! assert_eq!(blocks.next_block()?, Some(b"hi".as_slice()));
//! assert_eq!(blocks.next_block()?, None);
//! ```
#![tactic(auto)]

mod consumer;
mod counted;
mod fault;
mod first;
pub mod laws;
mod passing;
mod reader;
mod splitter;
mod status;
pub mod tally;
mod writer;

pub use consumer::Consumer;
pub use counted::{Buffered, Counted, CountedRead, CountedWrite};
pub use fault::FrameFault;
pub use first::{copy_first_block, split_first_block};
pub use reader::BlockReader;
pub use splitter::Splitter;
pub use writer::{write_block, write_part};
