//! A live server and a follower, each in a single thread, driven by the readiness of their sockets.
//!
//! [`serve_live`] follows a feed and serves snapshots of its current market to many clients. [`follow_feed`] writes the messages of a feed,
//! starting from a snapshot. `itch_live` decides which bytes each peer receives; it has no sockets and no clock. A turn waits until a socket
//! is ready or something is due, records which sockets are ready, passes on the bytes that have arrived, and writes the pending ones.
#![tactic(auto)]

mod cause;
mod feed_line;
mod feed_side;
mod follow;
mod glance;
mod live;
mod opened;
mod question;
mod scout;
mod start;
mod status;

pub use follow::{Following, follow_feed};
pub use live::{Accounts, Serving, serve_live};
pub use question::asks_session;
