//! The live orders of a day as one list in snapshot order, which contains all order books.
//!
//! An [`OrderBook`] adds, takes, deletes and replaces orders, and returns the best order of a side, the next price and the total of a price
//! level. Its contracts refer only to the list of live orders, so they are the same for every book. [`ListBook`] stores exactly that list.
//! Use [`IndexedBook`] by default; [`SettledBook`] is faster if you only look at the final state. Only `add`, `replace` and `settle` allocate
//! memory; if an allocation fails, no order changes. `laws` states the properties of all books, and `table` is the map that the last two
//! books use to find an order by its reference.
//!
//! ```
//! let mut book = IndexedBook::new(alloc);
//! book.add(Order { reference: 1, locate: 1, side: Side::Buy, shares: 100, price: 1_500_000, mpid: None })?;
//! assert_eq!(book.front(1, Side::Buy).map(|order| order.reference), Some(1));
//! assert_eq!(book.level_total(1, Side::Buy, 1_500_000), (100, 1));
//! ```
#![tactic(auto)]

mod ahead;
mod arrivals;
mod arrived;
mod book;
mod changes;
mod hints;
mod index;
mod indexed_book;
pub mod laws;
mod level_lines;
mod line;
mod link;
mod list_book;
mod order;
mod prices;
mod priority;
mod queues;
mod references;
mod settled_book;
mod side_levels;
pub mod table;
mod tree;

pub use book::OrderBook;
pub use indexed_book::IndexedBook;
pub use list_book::ListBook;
pub use order::{Order, Placed, Taken};
pub use settled_book::SettledBook;
