//! The reading of a day: the only place that iterates over the messages of a day file.
//!
//! [`read_part`] passes the messages to a [`Sink`], up to the first one that is not taken, and returns the reason ([`PartStop`]); that message is
//! left for the next call. A [`DayCursor`] records how far the day was read. A [`Limit`] ends the requested part, so several points of a day need
//! one pass, with one call for each point.
#![tactic(auto)]

mod batch;
mod cursor;
mod limit;
mod not_taken;
mod passing;
mod reading;
mod sink;
mod stop;
mod tracked;

pub use cursor::DayCursor;
pub use limit::Limit;
pub use passing::pass_stop;
pub use reading::{read_further, read_part};
pub use sink::Sink;
pub use stop::PartStop;
pub use tracked::Tracked;
