//! What to write of the changes of a book.

use itch_commands::BookForm;

/// The one stock whose book is followed.
#[derive(Clone, Copy, Debug, PartialEq, Eq)]
pub enum OneStock<'a> {
    /// The stock at this locate.
    Locate(u16),
    /// The stock with this name.
    Named(&'a str),
}

/// The stock whose book is followed, how many prices of each side, and the form of the lines.
#[derive(Clone, Copy, Debug, PartialEq, Eq)]
pub struct ChangesRequest<'a> {
    pub stock: OneStock<'a>,
    pub depth: usize,
    pub form: BookForm,
}
