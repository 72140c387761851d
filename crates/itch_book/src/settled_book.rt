//! A book that stores orders in order of arrival, and sorts them into snapshot order on request.
ghost use Rattle.std.specs.Prelude.{◌≡◌, true};
ghost use Rattle.itch_book.specs.Orders.{IsBook};
ghost use Rattle.itch_book.specs.BookLists.{IsBook-prop};

use crate::arrivals::Arrivals;
use crate::book::OrderBook;
use crate::order::{Order, Placed, Taken};
use itch_codec::Side;
use std::alloc::{AllocError, Allocator, Global};

/// The live orders by reference, each with its arrival number.
///
/// Use it if you only look at the final state: `settle` sorts the orders, and until the next change they are found by binary search. Without
/// `settle`, each look-up except by reference scans all orders.
#[derive(Drop)]
pub struct SettledBook<A: Allocator = Global> {
    arrivals: Arrivals<A>,
    ghost is_kept: { IsBook arrivals.orders } by { IsBook-prop arrivals.orders },
}

impl<A: Allocator + Copy> OrderBook for SettledBook<A> {
    type Alloc = A;

    ghost orders = { λ b. b.arrivals.orders };

    fn new(alloc: A) -> Self {
        SettledBook {
            arrivals: Arrivals::new(alloc),
        }
    }

    fn len(&self) -> usize {
        self.arrivals.len()
    }

    #[inline(always)]
    fn get(&self, reference: u64) -> Option<&Order> {
        self.arrivals.get(reference)
    }

    #[inline(always)]
    fn find(&self, reference: u64) -> Option<Placed<'_>> {
        self.arrivals.find(reference)
    }

    fn first(&self, locate: u16) -> Option<Placed<'_>> {
        self.arrivals.first(locate)
    }

    #[inline(always)]
    fn after(&self, reference: u64, place: usize) -> Option<Placed<'_>> {
        self.arrivals.after(reference, place)
    }

    fn front(&self, locate: u16, side: Side) -> Option<&Order> {
        self.arrivals.front(locate, side)
    }

    fn next_price(&self, locate: u16, side: Side, last: Option<u32>) -> Option<u32> {
        self.arrivals.next_price(locate, side, last)
    }

    fn level_total(&self, locate: u16, side: Side, price: u32) -> (u128, u64) {
        self.arrivals.level_total(locate, side, price)
    }

    // Also fails when all arrival numbers are used up.
    #[inline(always)]
    fn add(&mut self, order: Order) -> Result<(), AllocError> {
        self.arrivals.add(order)
    }

    #[inline(always)]
    fn take(&mut self, reference: u64, place: usize, shares: u32) -> Taken {
        self.arrivals.take(reference, place, shares)
    }

    // Removing the order from the table gives its place.
    #[inline(always)]
    fn delete(&mut self, reference: u64, _place: usize) -> Order {
        self.arrivals.delete(reference)
    }

    // Also fails when all arrival numbers are used up, since a replacement is a new arrival.
    #[inline(always)]
    fn replace(
        &mut self,
        original: u64,
        place: usize,
        reference: u64,
        shares: u32,
        price: u32,
    ) -> Result<(), AllocError> {
        self.arrivals
            .replace(original, place, reference, shares, price)
    }

    #[inline(always)]
    fn has_room(&self, reference: u64) -> bool {
        self.arrivals.has_room(reference)
    }

    // Reads the orders of the references into the processor's cache, if there are many.
    #[inline(always)]
    fn look_ahead(&mut self, references: &[u64])
        ensures orders { self.new.arrivals.orders ≡ self.old.arrivals.orders }
        ensures settled { self.new.arrivals.is_settled ≡ self.old.arrivals.is_settled }
    {
        self.arrivals.look_ahead(references)
    }

    // Sorts the orders into snapshot order.
    fn settle(&mut self)
        ensures orders { self.new.arrivals.orders ≡ self.old.arrivals.orders }
        ensures settled { self.new.arrivals.is_settled ≡ true }
    {
        self.arrivals.settle()
    }

    ghost is_book = { λ b. b.is_kept };
}

impl<A: Allocator + Copy> SettledBook<A> {
    /// Returns whether the book is settled, so that orders are found by binary search.
    pub fn is_settled(&self) -> bool
        ensures { result ≡ self.now.arrivals.is_settled }
    {
        self.arrivals.is_settled()
    }
}
