//! The history of an order: its messages, those of the orders that it replaced, and those of the orders that replaced it.
//!
//! [`first_reference`] reads a day up to the first message that names an order, and goes back over the replacements before it to the
//! order's first number. Following that number from the beginning of the day gives the complete history.
#![tactic(auto)]

mod chain;
mod fault;
mod finder;
pub mod laws;
mod search;

pub use fault::SearchFault;
pub use search::first_reference;
