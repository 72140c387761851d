//! The books of a day file over time, in one pass over the file: at given times, at every multiple of a duration, or after each change.
//!
//! [`books_at`] and [`books_every`] write for each time what `book` writes for the part of the file before it, with the time at the
//! beginning of each line. [`book_changes`] writes the best prices of one stock after each message that changes them. All work over any
//! book of orders; the books of selected locates at several times, and those after each change, are in a market of their own. The definitions
//! are in `specs/Timed.antt`, the lines, in `specs/Series.antt`, the times, in `specs/Own.antt`, that market, and in `specs/Changes.antt` and
//! `specs/Following.antt`, the changes.
//!
//! ```
//! let request = BookRequest { selection: Selection::Stocks("AAPL"), depth: Some(1), form: BookForm::Csv };
//! books_every::<_, _, Book<_>, _>(alloc, request, None, 60_000_000_000, reader, &mut out)?;
//! ```
#![tactic(auto)]

mod at;
mod changes;
mod every;
pub mod laws;
mod listing;
mod own;
mod pass;
mod request;
mod timed;

pub use at::books_at;
pub use changes::{ChangesRequest, OneStock, book_changes};
pub use every::books_every;
pub use request::BookRequest;
