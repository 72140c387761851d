//! Joins a snapshot and the live feed into one market.
//!
//! A receiver that joins an ITCH feed late requests a snapshot, for example over GLIMPSE, and meanwhile receives the live feed. A [`Joiner`]
//! takes both. Messages of the feed wait until the snapshot ends; then those that the snapshot contains are dropped, and the rest are applied
//! in the order of their numbers, even if messages were lost, repeated or out of order on the way.
//!
//! ```
//! let mut joiner: Joiner<IndexedBook> = Joiner::new(alloc, 16);
//! assert_eq!(joiner.live(2, BUY)?, Live::Kept);
//! assert_eq!(joiner.snapshot(AAPL)?, Snap::More);
//! assert_eq!(joiner.snapshot(b"G                   2")?, Snap::Joined { next: 3 });
//! ```
#![tactic(auto)]

mod applying;
mod fault;
mod joiner;
pub mod laws;
mod outcome;
mod position;
mod sink;
mod state;
mod waiting;

pub use fault::{Cause, JoinFault};
pub use joiner::Joiner;
pub use outcome::{Live, Snap};
