//! A book that becomes one of another kind when look-ups are frequent.
ghost use Rattle.std.specs.Prelude.{◌≡◌};
ghost use Rattle.itch_adaptive.specs.Held.{book_of, orders_of};

use crate::copying::copy_of;
use crate::held::Held;
use itch_book::{Order, OrderBook, Placed, Taken};
use itch_codec::Side;
use std::alloc::AllocError;
use std::mem::replace;

/// The live orders, in a book of the first kind while look-ups by price are rare, and from then on in one of the second kind.
///
/// Call `settle` before such a look-up. If there were at least as many changes as there are orders since the last call, it settles the book
/// of the first kind, which then took little time per change. Otherwise look-ups are frequent, and it copies the orders into a book of the
/// second kind. During the copy there are two books in memory; if an allocation fails, the orders stay where they are, settled.
#[derive(Drop)]
pub struct AdaptiveBook<S: OrderBook, T: OrderBook> {
    alloc: T::Alloc,
    held: Held<S, T>,
    // The number of changes since the last call of `settle`, in a book of the first kind.
    changes: u64,
}

impl<S: OrderBook, T: OrderBook> AdaptiveBook<S, T> {
    // Counts a change.
    #[inline(always)]
    fn count_change(&mut self)
        ensures { self.new.held ≡ self.old.held }
    {
        self.changes = self.changes.saturating_add(1);
    }
}

impl<S: OrderBook, T: OrderBook<Alloc = S::Alloc>> OrderBook for AdaptiveBook<S, T> {
    type Alloc = S::Alloc;

    ghost orders = { λ b. orders_of S.orders T.orders b.held };

    fn new(alloc: S::Alloc) -> Self {
        AdaptiveBook {
            alloc,
            held: Held::Rare(S::new(alloc)),
            changes: 0,
        }
    }

    #[inline(always)]
    fn len(&self) -> usize {
        match &self.held {
            Held::Rare(book) => book.len(),
            Held::Frequent(book) => book.len(),
        }
    }

    #[inline(always)]
    fn get(&self, reference: u64) -> Option<&Order> {
        match &self.held {
            Held::Rare(book) => book.get(reference),
            Held::Frequent(book) => book.get(reference),
        }
    }

    #[inline(always)]
    fn find(&self, reference: u64) -> Option<Placed<'_>> {
        match &self.held {
            Held::Rare(book) => book.find(reference),
            Held::Frequent(book) => book.find(reference),
        }
    }

    fn first(&self, locate: u16) -> Option<Placed<'_>> {
        match &self.held {
            Held::Rare(book) => book.first(locate),
            Held::Frequent(book) => book.first(locate),
        }
    }

    #[inline(always)]
    fn after(&self, reference: u64, place: usize) -> Option<Placed<'_>> {
        match &self.held {
            Held::Rare(book) => book.after(reference, place),
            Held::Frequent(book) => book.after(reference, place),
        }
    }

    fn front(&self, locate: u16, side: Side) -> Option<&Order> {
        match &self.held {
            Held::Rare(book) => book.front(locate, side),
            Held::Frequent(book) => book.front(locate, side),
        }
    }

    fn next_price(&self, locate: u16, side: Side, last: Option<u32>) -> Option<u32> {
        match &self.held {
            Held::Rare(book) => book.next_price(locate, side, last),
            Held::Frequent(book) => book.next_price(locate, side, last),
        }
    }

    fn level_total(&self, locate: u16, side: Side, price: u32) -> (u128, u64) {
        match &self.held {
            Held::Rare(book) => book.level_total(locate, side, price),
            Held::Frequent(book) => book.level_total(locate, side, price),
        }
    }

    #[inline(always)]
    fn add(&mut self, order: Order) -> Result<(), AllocError> {
        self.count_change();
        match &mut self.held {
            Held::Rare(book) => book.add(order),
            Held::Frequent(book) => book.add(order),
        }
    }

    #[inline(always)]
    fn take(&mut self, reference: u64, place: usize, shares: u32) -> Taken {
        self.count_change();
        match &mut self.held {
            Held::Rare(book) => book.take(reference, place, shares),
            Held::Frequent(book) => book.take(reference, place, shares),
        }
    }

    #[inline(always)]
    fn delete(&mut self, reference: u64, place: usize) -> Order {
        self.count_change();
        match &mut self.held {
            Held::Rare(book) => book.delete(reference, place),
            Held::Frequent(book) => book.delete(reference, place),
        }
    }

    #[inline(always)]
    fn replace(
        &mut self,
        original: u64,
        place: usize,
        reference: u64,
        shares: u32,
        price: u32,
    ) -> Result<(), AllocError> {
        self.count_change();
        match &mut self.held {
            Held::Rare(book) => book.replace(original, place, reference, shares, price),
            Held::Frequent(book) => book.replace(original, place, reference, shares, price),
        }
    }

    #[inline(always)]
    fn has_room(&self, reference: u64) -> bool {
        match &self.held {
            Held::Rare(book) => book.has_room(reference),
            Held::Frequent(book) => book.has_room(reference),
        }
    }

    fn settle(&mut self) {
        let changes = replace(&mut self.changes, 0);
        if changes == 0 {
            return;
        }
        match &mut self.held {
            Held::Rare(book) => {
                book.settle();
                if changes < book.len() as u64 {
                    if let Ok(copy) = copy_of(self.alloc, book) {
                        self.held = Held::Frequent(copy);
                    }
                }
            }
            Held::Frequent(book) => book.settle(),
        }
    }

    #[inline(always)]
    fn look_ahead(&mut self, references: &[u64]) {
        match &mut self.held {
            Held::Rare(book) => book.look_ahead(references),
            Held::Frequent(book) => book.look_ahead(references),
        }
    }

    fn walk_ahead(&self, locate: u16) {
        match &self.held {
            Held::Rare(book) => book.walk_ahead(locate),
            Held::Frequent(book) => book.walk_ahead(locate),
        }
    }

    ghost is_book = { λ b. book_of S.orders T.orders S.is_book T.is_book b.held };
}
