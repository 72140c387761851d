//! The two ends of a SoupBinTCP 3.00 session over sockets: serving a market, and fetching a snapshot. `itch_soup` defines the packets that
//! the two ends exchange.
//!
//! [`serve_market`] serves the snapshot of a market to one connection after another, and writes a line for each. Its clauses state the bytes
//! that are served, and how each connection ended, in terms of the bytes that its socket sent and accepted. No peer keeps the others waiting
//! for longer than [`time_left`] allows. [`fetch`] logs in, receives a snapshot and writes it in canonical form; [`fetch_rest`] writes the
//! messages from a number on, as received. A [`Login`] is the user name and the password of both ends.
//!
//! ```
//! let login = Login::new("server", "secret")?;
//! assert_eq!(login.config(default_session()).session.text(), "ITCHSNAP");
//! assert_eq!(login.credentials(Alpha::from_text("")?).username.text(), "server");
//! ```

mod connection;
mod ending;
mod fetching;
mod login;
mod patient;
mod rest;
mod sending;
mod serve;
mod writing;

pub use connection::{PIECE, serve_peer, serve_stream};
pub use ending::{Ending, write_ending};
pub use fetching::fetch;
pub use login::{Login, current_session, default_session, first_line, without_return};
pub use patient::{Patient, time_left};
pub use rest::fetch_rest;
pub use sending::Sending;
pub use serve::{Listening, serve_market, serve_on};
pub use writing::{write_closed, write_text};
