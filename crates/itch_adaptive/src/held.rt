//! The two kinds of book.

/// The live orders, in one of two kinds of book.
#[derive(Drop)]
pub(crate) enum Held<S: Drop, T: Drop> {
    /// Look-ups by price are rare.
    Rare(S),
    /// They are frequent.
    Frequent(T),
}
