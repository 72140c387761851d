//! The status of a live server over HTTP/1.1: the page for a request, and the bytes of each response as a function of the server's figures.
//!
//! This crate uses neither sockets nor clocks. [`answer_to`] reads a request, [`respond`] builds the response from [`Figures`], and
//! [`Minute`] counts messages per second. Requests follow the grammar of `httparse`.
#![tactic(auto)]

mod cause;
mod chart;
mod figure;
mod figures;
mod html;
mod json;
mod line;
mod lines;
mod metrics;
mod page;
mod plain;
mod rate;
mod reading;
mod refusal;
mod request;
mod response;
mod shown;
mod state;
mod tally;
mod time;

pub use cause::LossCause;
pub use figures::{Figures, Recorded};
pub use page::{StatusPage, page_of};
pub use rate::{Minute, SECONDS};
pub use reading::{body_of, is_ready};
pub use refusal::RequestRefusal;
pub use request::{LONGEST, StatusAnswer, answer_to, refused};
pub use response::{refuse, respond};
pub use state::FeedState;
pub use tally::FeedTally;
pub use time::{UTC, utc};
