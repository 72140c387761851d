//! A book for orders that are looked at by price now and then, or often.
//!
//! An [`AdaptiveBook`] keeps its orders in one kind of book while such look-ups are rare, and in another from when they are frequent. With a
//! `SettledBook` as the first kind and an `IndexedBook` as the second, the changes between rare look-ups are as fast as in a `SettledBook`,
//! and a look-up after every change is as fast as in an `IndexedBook`.
//!
//! ```
//! let mut book: AdaptiveBook<SettledBook, IndexedBook> = AdaptiveBook::new(alloc);
//! book.add(Order { reference: 1, locate: 1, side: Side::Buy, shares: 100, price: 1_500_000, mpid: None })?;
//! book.settle();
//! assert_eq!(book.front(1, Side::Buy).map(|order| order.reference), Some(1));
//! ```
#![tactic(auto)]

mod adaptive_book;
mod copying;
mod held;

pub use adaptive_book::AdaptiveBook;
