//! Snapshots of a market: the canonical list of messages that rebuilds it, written and read.
//!
//! Two markets are the same if and only if their snapshots, up to End of Snapshot, have the same bytes. The snapshot of a market that was
//! rebuilt from a snapshot is that snapshot again. And from a snapshot on, the rest of a feed results in the market of the complete feed.
//! `laws` states these properties.
//!
//! - [`SnapshotIter`] iterates over the messages, of the complete market or of some locates. [`write_snapshot`], [`write_partial`], and
//!   [`write_snapshot_of`] for either, write them, followed by End of Snapshot (GLIMPSE 5.0).
//! - [`read_snapshot`] reads a snapshot file in any order, [`read_messages`] reads one up to its End of Snapshot, of the complete market or
//!   of some locates, and [`SnapshotReader`] takes a snapshot message by message.
//! - [`same_market`] and [`part_place`] compare markets.
//!
//! ```
//! write_snapshot(&market, next, &mut out)?;
//! let mut blocks = BlockReader::new(alloc, Counted::new(out.written()))?;
//! let (read, number): (Market<IndexedBook>, Seq) = read_snapshot(alloc, &mut blocks)?;
//! assert!(same_market(&market, &read));
//! assert_eq!(number, next);
//! ```
#![tactic(auto)]

mod compare;
mod fault;
mod iter;
pub mod laws;
mod length;
mod messages;
mod named_order;
mod read;
mod reader;
mod sink;
mod states;
mod status;
mod write;

pub use compare::{part_place, same_market};
pub use fault::SnapFault;
pub use iter::SnapshotIter;
pub use length::snapshot_len;
pub use read::{read_messages, read_snapshot};
pub use reader::SnapshotReader;
pub use write::{write_partial, write_snapshot, write_snapshot_of};
