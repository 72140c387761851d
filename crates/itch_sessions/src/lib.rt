//! Sessions over sockets, and the parts that servers with many of them share.
//!
//! [`sessions`] contains both ends of a single session: serving a market, and fetching a snapshot. [`ClientPort`], [`Socket`] and [`PollLoop`] are
//! for sockets that do not block. A [`SocketLink`] is the connection of one client, [`Servers`] are the servers of a feed, which are tried in turn,
//! and [`Logins`] are the users who may log in. A [`SessionFault`] is the reason why a session failed, a [`SessionOutcome`] is the way in which a
//! client's connection ended, and [`log`] writes the events.
//!
//! The contracts cannot say anything about the bytes that a peer sends or accepts. They state the effect of these bytes.
#![tactic(auto)]

mod client_port;
mod follow_form;
mod line;
mod link;
pub mod log;
mod login_file;
mod logins;
mod outcome;
mod places;
mod poll_loop;
mod read_buffer;
mod refusals;
mod route;
mod session_fault;
mod session_name;
pub mod sessions;
mod slot_addresses;
mod socket;
mod spare;
mod spot;
mod users;
mod utc;
mod version;
mod who;

pub use client_port::{ClientPort, IncomingClient};
pub use follow_form::FollowForm;
pub use link::SocketLink;
pub use login_file::{Look, Sight, Version, look_of};
pub use logins::{LoginSource, Logins, LoginsFault};
pub use outcome::{SessionOutcome, outcome_of, write_outcome};
pub use places::{Feeds, MOST_FEEDS, ServerAddress};
pub use poll_loop::{PollLoop, called};
pub use read_buffer::ReadBuffer;
pub use refusals::Refusals;
pub use route::{Route, Servers};
pub use session_fault::{SessionCause, SessionDevice, SessionFault};
pub use session_name::{is_another, name_of};
pub use slot_addresses::SlotAddresses;
pub use socket::{Got, Socket};
pub use spare::{SPARED, Spare};
pub use spot::{Pause, Spot, pause_after, spot_after, wait_after};
pub use users::{LineFault, Verdict, read_user, user_of, verdict_of};
pub use utc::date;
pub use version::VERSION;
pub use who::{Happening, User, Visit, Who};
