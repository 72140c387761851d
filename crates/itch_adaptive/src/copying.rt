//! Copies a book into one of another kind.
ghost use Rattle.std.specs.Prelude.{◌≡◌, ◌++◌, IfOk, OnOk};
ghost use Rattle.itch_book.specs.Orders.{queues_below, sides};

use itch_book::OrderBook;
use std::alloc::AllocError;

/// Returns a book of another kind with the same orders.
///
/// They are added in snapshot order, so each one is the last of the new book.
pub(crate) fn copy_of<S: OrderBook, T: OrderBook>(
    alloc: T::Alloc,
    book: &S,
) -> Result<T, AllocError>
    ensures { IfOk result (λ copy. T.orders copy ≡ S.orders book.now) }
{
    let mut copy = T::new(alloc);
    for locate in 0..=u16::MAX {
        if copy.len() == book.len() {
            return Ok(copy);
        }
        copy_locate(book, locate, &mut copy)?;
    }
    Ok(copy)
}

// Adds the orders of a locate to a copy of those at lower locates.
fn copy_locate<S: OrderBook, T: OrderBook>(
    book: &S,
    locate: u16,
    copy: &mut T,
) -> Result<(), AllocError>
    requires { T.orders copy.old ≡ queues_below locate (S.orders book.now) }
    ensures { OnOk result (T.orders copy.new ≡ queues_below locate (S.orders book.now) ++ sides (S.orders book.now) locate) }
{
    book.walk_ahead(locate);
    let mut next = book.first(locate);
    while let Some(placed) = next {
        copy.add(*placed.order)?;
        next = book.after(placed.order.reference, placed.place);
    }
    Ok(())
}
