//! Test doubles: a reader and a writer in memory, each of which fails once, and an allocator that refuses one allocation.
//!
//! A `&Refusing<B>` is an allocator too:
//!
//! ```
//! let alloc = Refusing::new(rt.alloc(), 0);
//! let mut list: Vec<u8, &Refusing<Global>> = Vec::new(&alloc);
//! assert!(list.push(1).is_err());
//! assert!(list.push(1).is_ok());
//! ```
//!
//! `payloads` and `messages` contain the messages of the tests' tables, as bytes and as values, and `days` is built from them. A library may
//! not end the process, so the comparisons are in the test crates.
#![tactic(auto)]

pub mod days;
mod devices;
pub mod messages;
pub mod payloads;
mod refusing;

pub use devices::{FuseWriter, PieceReader};
pub use refusing::{Refusing, one_refusal};
