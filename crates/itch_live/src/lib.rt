//! The core of a live server: a [`LiveServer`] keeps the current market of a feed, and sends a snapshot of it to each client that logs in.
//!
//! A [`Follower`] is the feed side, over any number of connections, and a [`SnapshotClient`] is one client's session.
//!
//! Nothing here reads a clock or opens a socket. The caller passes in the bytes that arrive and the time, writes the pending bytes as far as
//! the socket accepts them, and reports how many it wrote. The order of the calls is up to the caller: [`laws`] hold for every order.
//!
//! A [`Player`] is one client of a day file that is played as a feed: the caller passes in the file's messages, and the player sends them as
//! a live feed does.
//!
//! The memory is the memory of the market, 65,537 bytes for the feed and for each client, and for each snapshot that is being sent 43 bytes
//! per message and 128 more. Clients that receive the same snapshot share it. All kept snapshots together are within the limit passed to
//! [`LiveServer::answer`], or there is only one. A player has 65,537 bytes for input and 131,076 for output.
#![tactic(auto)]

mod buffer;
mod client;
mod disconnect_cause;
mod encoded;
mod follower;
mod kept;
pub mod laws;
mod login;
mod news;
mod outbox;
mod pending_packet;
mod player;
mod progress;
mod server;
mod sessions;
mod slots;
mod snapshot_answer;

pub use client::SnapshotClient;
pub use disconnect_cause::DisconnectCause;
pub use encoded::{EncodedSnapshot, encode_snapshot, longest_snapshot};
pub use follower::Follower;
pub use news::{News, ServerKind};
pub use pending_packet::PendingPacket;
pub use player::Player;
pub use server::LiveServer;
pub use sessions::Sessions;
