//! What to write of the books.

use itch_commands::{BookForm, Selection};

/// The locates whose books are written, how many prices of each side at most, and the form of the lines.
#[derive(Clone, Copy, Debug, PartialEq, Eq)]
pub struct BookRequest<'a> {
    pub selection: Selection<'a>,
    pub depth: Option<u64>,
    pub form: BookForm,
}
