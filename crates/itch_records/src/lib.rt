//! The files of a live server, and how it continues from them.
//!
//! A [`Record`] contains the day so far, with a session file next to it, and a [`Saver`] writes snapshots during the day. After a restart
//! [`newest`] finds the snapshot to start from, and a [`Replay`] reads the messages of the record after it. A [`LiveFault`] is the reason why
//! a live server has ended, and a [`Step`] is the effect of each piece of news from its feed.
#![tactic(auto)]

mod day_files;
mod fault;
mod ready;
mod record;
mod recording;
mod replay;
mod resuming;
mod saving;
mod session_file;
mod snapshot_folder;
mod step;
mod watch;

pub use day_files::{DayBegun, DayPaths, make_folder, stem_of};
pub use fault::{DayFault, Detail, LiveFault, Names, Owned, RecordFault};
pub use ready::{Ready, is_caught_up};
pub use record::{Record, RecordLoss, RecordOptions, RecordPlace, SyncTime};
pub use recording::Recording;
pub use replay::{Replay, Replaying, next_stop};
pub use resuming::{Replayed, at_the_first, newest};
pub use saving::{RecordPart, Saver, SnapshotOptions};
pub use step::{Step, rejection_ends, step_of};
pub use watch::{FileChange, Seen, change_of};
