//! SoupBinTCP 3.00: its packets, the server's and the client's side of a session, and functions that serve or fetch one snapshot.
//!
//! This crate does not read clocks or open sockets. Only [`fetch_one`] and [`fetch_rest`] allocate memory, for the market or the bytes that
//! they return.
//!
//! [`serve_one`], [`fetch_one`] and [`fetch_rest`] are complete sessions over a reader and a writer. For any other session, cut the stream
//! into blocks, parse each with [`parse_packet`], pass the packet to [`ServerSession`] or [`ClientSession`], and do what the session answers.
//! Send the packets that the session's functions return, and messages by [`write_data`]. Times are milliseconds since a time of the caller's
//! choice.
//!
//! ```
//! let mut client = ClientSession::new(credentials, 1, 0);
//! assert_eq!(client.login(), *b"Luser  secret                                 1");
//! let accepted = parse_packet(b"A  ITCHSNAP                   1", Origin::Server)?;
//! assert!(matches!(client.on_packet(&accepted, 20), ClientAct::Accepted { .. }));
//! ```
#![tactic(auto)]

mod client;
mod connection;
mod fault;
mod fetch;
mod fields;
pub mod laws;
mod login;
mod origin;
mod packet;
mod packet_types;
mod parsing;
mod payload;
mod reading;
mod sending;
mod serve;
mod server;

pub use client::{ClientAct, ClientSession};
pub use connection::Tick;
pub use fault::SoupFault;
pub use fetch::{Rest, fetch_one, fetch_rest};
pub use login::{Credentials, ServerConfig};
pub use origin::Origin;
pub use packet::{LoginAccepted, LoginRequest, Packet};
pub use parsing::parse_packet;
pub use payload::Payload;
pub use sending::{write_answer, write_data, write_session};
pub use serve::{Served, serve_one};
pub use server::{ServerAct, ServerSession};
