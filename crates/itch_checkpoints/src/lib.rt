//! Checkpoints of a day file: snapshots of it in a folder, and the index there with the position of each snapshot in the file.
//!
//! [`index_line`] returns the line of a snapshot, and [`IndexReader`] reads such lines. A [`Fingerprint`] distinguishes the day file of a
//! checkpoint from that of another day.
#![tactic(auto)]

mod checkpoint;
mod fingerprint;
mod index;
mod latest;
mod lines;
mod listing;
mod passed;

pub use checkpoint::Checkpoint;
pub use fingerprint::{Fingerprint, Unfit, fingerprint_before, first_digits, why_unfit};
pub use index::{IndexReader, nearest};
pub use latest::Latest;
pub use lines::Lines;
pub use listing::{index_line, push_fingerprint, push_place};
pub use passed::Passed;
