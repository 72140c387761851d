//! The market of a feed: the directory of its securities, their trading states and live orders, and the order rules.
//!
//! [`Market::apply`] applies a message that follows the order rules; otherwise it returns the reason for the refusal, and the market does not
//! change. [`replay`] applies the messages of a day file, up to its end or to the first message that is refused. A [`LocateSet`] is a set of
//! locates to keep. `laws` states the properties of all markets.
//!
//! ```
//! let mut market: Market<IndexedBook> = Market::new(alloc);
//! market.apply(&decode(AAPL)?)?;
//! market.apply(&decode(BUY)?)?;
//! assert_eq!(market.best(1, Side::Buy).map(|order| order.shares), Some(100));
//! assert_eq!(market.apply(&decode(BUY)?), Err(Refusal::DuplicateRef));
//! ```
#![tactic(auto)]

mod ahead;
mod equality;
mod halts;
pub mod laws;
mod locate_set;
mod locates;
mod market;
mod named_slots;
mod positions;
mod refusal;
mod refused;
mod replaying;
mod securities;
mod security;
mod sink;
mod status;
mod stop;

pub use equality::same_message;
pub use halts::Halts;
pub use locate_set::LocateSet;
pub use locates::Locates;
pub use market::Market;
pub use positions::Positions;
pub use refusal::Refusal;
pub use refused::Refused;
pub use replaying::{reason_of, replay, replay_first, replay_part};
pub use security::{Action, Security};
pub use stop::{ReplayEnd, Stop};
