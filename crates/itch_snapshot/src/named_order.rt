//! An order of a snapshot.

use itch_book::Order;
use itch_codec::Alpha;

/// An order, with the stock of its locate from the directory, and its place in the book.
#[derive(Clone, Copy)]
pub(crate) struct NamedOrder {
    pub(crate) stock: Alpha<8>,
    pub(crate) order: Order,
    pub(crate) place: usize,
}
