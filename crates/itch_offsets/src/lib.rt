//! The index of a day file: offsets at which the file can be read from a message on.
//!
//! [`IndexPass`] reads a day file, and gives a row for every 65,536 messages and one for the last; [`IndexWriter`] turns the rows into the
//! lines of an index. [`DayIndex::read`] reads an index. [`begin_from`] returns the row from which a range of the day can be read, and
//! [`why_unfit`] the reason why an index is not used for a day file.
#![tactic(auto)]

mod begin;
mod directory;
mod fit;
pub mod laws;
mod pass;
mod reading;
mod row;
mod writing;

pub use begin::{Range, begin_from, may_begin, range_of};
pub use fit::{IndexUnfit, why_unfit};
pub use pass::IndexPass;
pub use reading::DayIndex;
pub use row::IndexRow;
pub use writing::IndexWriter;
