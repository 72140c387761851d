//! The clients of a server, in a single thread, driven by the readiness of their sockets.
//!
//! A [`Reception`] holds the clients that have not logged in yet, [`Clients`] those that receive the snapshot of a market, and [`play_feed`]
//! plays a day file to many clients as a feed. `itch_live` decides which bytes each client receives; it has no sockets and no clock. The code
//! here passes on a limited number of bytes from a socket, writes a limited number of pending bytes, and then turns to the next client.
#![tactic(auto)]

mod budget;
mod client;
mod clients;
mod opening;
mod pace;
mod play;
mod playback;
mod player_side;
mod reception;
mod room;

pub use budget::{Budget, is_slow, may_encode};
pub use clients::Clients;
pub use opening::{FirstBytes, opening_of};
pub use pace::{Pace, is_due};
pub use play::{Playing, play_feed};
pub use reception::Reception;
pub use room::{SnapshotRoom, limit_of};
