//! The commands over files: each is a public function over readers and a writer.
//!
//! Each command has a module of its own, with two functions. One takes a reader of bytes and makes the reader of their blocks, which
//! allocates memory; the other, with `_blocks` in its name, takes the readers of blocks, and works over any book of orders. Both return
//! true, except that `compare` and `compare_first` return false for two markets that differ, and `canon` for a file that is not canonical.
//! [`perform`] and [`perform_pair`] execute a [`Command`]. A [`ToolFault`] is the reason why a command failed, with the line for standard
//! error and the exit status.
//!
//! ```
//! let file = b"\0\x0cS\0\0\0\0\0\0\0\0\0\0O";
//! let mut out = FuseWriter::new(alloc, 64, None);
//! assert!(check(alloc, Counted::new(&file[..]), &mut out)?);
//! assert_eq!(out.written(), b"ok 1 messages\n");
//! ```
#![tactic(auto)]

mod begun;
pub mod book;
pub mod canon;
pub mod check;
mod choice;
pub mod compare;
mod cut;
mod dispatch;
mod expected;
mod fault;
mod feed_part;
mod filters;
mod form;
pub mod info;
pub mod join;
mod kind;
pub mod laws;
mod line;
mod locates;
mod lookup;
mod order_book;
mod reading;
mod request;
mod runs;
mod selection;
pub mod show;
pub mod snap;
mod start;
mod stock_names;
mod stocks;
mod writing;

pub use begun::Begun;
pub use choice::Choice;
pub use cut::cut_after;
pub use dispatch::{perform, perform_pair};
pub use expected::{Expectations, UnmetExpectation};
pub use fault::{Source, ToolFault, status, system_fault};
pub use feed_part::{FeedMismatch, FeedPart};
pub use filters::Filters;
pub use form::{BookForm, OrderForm, ReportForm, ShowForm};
pub use itch_day::Limit;
pub use kind::{FileKind, file_market};
pub use line::Line;
pub use locates::{insert_locates, list_file, read_locates};
pub use order_book::Book;
pub use reading::read_market;
pub use request::{Command, PairCommand, Request, path_of};
pub use runs::write_locates;
pub use selection::Selection;
pub use start::Start;
pub use stocks::stock_locates;
pub use writing::{write_closed, write_text};
