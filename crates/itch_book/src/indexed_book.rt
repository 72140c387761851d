//! A book with an index: a table of references, and queues of orders under ordered prices.
ghost use Rattle.itch_book.specs.Orders.{IsBook};
ghost use Rattle.itch_book.specs.BookLists.{IsBook-prop};

use crate::book::OrderBook;
use crate::index::Index;
use crate::order::{Order, Placed, Taken, unplaced};
use itch_codec::Side;
use std::alloc::{AllocError, Allocator, Global};

/// The live orders as one queue per price.
///
/// The first 256 prices of a side of a locate are in a sorted line with the best price last, and others are in a tree. So the time of a call
/// grows with the logarithm of the number of prices.
#[derive(Drop)]
pub struct IndexedBook<A: Allocator = Global> {
    index: Index<A>,
    ghost is_kept: { IsBook index } by { IsBook-prop index },
}

impl<A: Allocator + Copy> OrderBook for IndexedBook<A> {
    type Alloc = A;

    ghost orders = { λ b. b.index };

    fn new(alloc: A) -> Self {
        IndexedBook {
            index: Index::new(alloc),
        }
    }

    fn len(&self) -> usize {
        self.index.len()
    }

    fn get(&self, reference: u64) -> Option<&Order> {
        self.index.get(reference)
    }

    fn find(&self, reference: u64) -> Option<Placed<'_>> {
        unplaced(self.index.get(reference))
    }

    fn first(&self, locate: u16) -> Option<Placed<'_>> {
        self.index.first(locate)
    }

    fn after(&self, reference: u64, place: usize) -> Option<Placed<'_>> {
        self.index.after(reference, place)
    }

    fn front(&self, locate: u16, side: Side) -> Option<&Order> {
        self.index.front(locate, side)
    }

    fn next_price(&self, locate: u16, side: Side, last: Option<u32>) -> Option<u32> {
        self.index.next_price(locate, side, last)
    }

    fn level_total(&self, locate: u16, side: Side, price: u32) -> (u128, u64) {
        self.index.level_total(locate, side, price)
    }

    fn add(&mut self, order: Order) -> Result<(), AllocError> {
        self.index.add(order)
    }

    fn take(&mut self, reference: u64, _place: usize, shares: u32) -> Taken {
        self.index.take(reference, shares)
    }

    fn delete(&mut self, reference: u64, _place: usize) -> Order {
        self.index.delete(reference)
    }

    fn replace(
        &mut self,
        original: u64,
        _place: usize,
        reference: u64,
        shares: u32,
        price: u32,
    ) -> Result<(), AllocError> {
        self.index.replace(original, reference, shares, price)
    }

    fn look_ahead(&mut self, references: &[u64]) {
        self.index.look_ahead(references);
    }

    fn walk_ahead(&self, locate: u16) {
        self.index.walk_ahead(locate);
    }

    // The index is up to date after each change.
    fn settle(&mut self) {}

    ghost is_book = { λ b. b.is_kept };
}
