//! A book that is a single list.
ghost use Rattle.std.specs.Prelude.{◌≡◌, ◌<◌, None, IsSome, IsOk, OnOk, OnErr, vec_len, vec_capacity};
ghost use Rattle.itch_book.specs.Orders.{IsBook, get, lay, added, replaced};
ghost use Rattle.itch_book.specs.BookLists.{IsBook-prop};

use crate::book::OrderBook;
use crate::changes::{exchange, put_in, take_from, take_out};
use crate::order::{Order, Placed, Taken, unplaced};
use crate::priority::{first_in, first_of, next_of, price_after, total_at};
use itch_codec::Side;
use std::alloc::{AllocError, Allocator, Global};

/// The live orders as one list in snapshot order.
///
/// Each call scans the list, so the time of a call grows with the number of live orders.
#[derive(Drop)]
pub struct ListBook<A: Allocator = Global> {
    orders: Vec<Order, A>,
    ghost is_kept: { IsBook orders.items } by { IsBook-prop orders.items },
}

impl<A: Allocator + Copy> OrderBook for ListBook<A> {
    type Alloc = A;

    ghost orders = { λ b. b.orders.items };

    fn new(alloc: A) -> Self {
        ListBook {
            orders: Vec::new(alloc),
        }
    }

    fn len(&self) -> usize {
        self.orders.len()
    }

    fn get(&self, reference: u64) -> Option<&Order> {
        self.orders
            .iter()
            .find(|order| order.reference == reference)
    }

    fn find(&self, reference: u64) -> Option<Placed<'_>> {
        unplaced(self.get(reference))
    }

    fn first(&self, locate: u16) -> Option<Placed<'_>> {
        unplaced(first_in(&self.orders, locate))
    }

    fn after(&self, reference: u64, _place: usize) -> Option<Placed<'_>> {
        unplaced(next_of(&self.orders, reference))
    }

    fn front(&self, locate: u16, side: Side) -> Option<&Order> {
        first_of(&self.orders, locate, side)
    }

    fn next_price(&self, locate: u16, side: Side, last: Option<u32>) -> Option<u32> {
        price_after(&self.orders, locate, side, last)
    }

    fn level_total(&self, locate: u16, side: Side, price: u32) -> (u128, u64) {
        total_at(&self.orders, locate, side, price)
    }

    fn add(&mut self, order: Order) -> Result<(), AllocError>
        requires some_shares { 0 < order.shares }
        requires new_reference { get self.old.orders.items order.reference ≡ None }
        ensures ok { OnOk result (self.new.orders.items ≡ lay (added order self.old.orders.items)) }
        ensures err { OnErr result (self.new.orders.items ≡ self.old.orders.items) }
        ensures room { vec_len self.old.orders < vec_capacity self.old.orders → IsOk result }
    {
        put_in(&mut self.orders, order)
    }

    fn take(&mut self, reference: u64, _place: usize, shares: u32) -> Taken {
        take_from(&mut self.orders, reference, shares)
    }

    fn delete(&mut self, reference: u64, _place: usize) -> Order {
        take_out(&mut self.orders, reference)
    }

    // Allocates nothing, since the removed order leaves room.
    fn replace(
        &mut self,
        original: u64,
        _place: usize,
        reference: u64,
        shares: u32,
        price: u32,
    ) -> Result<(), AllocError>
        requires live { IsSome (get self.old.orders.items original) }
        requires some_shares { 0 < shares }
        requires new_reference { get self.old.orders.items reference ≡ None }
        ensures ok { IsOk result }
        ensures orders { self.new.orders.items ≡ lay (replaced original reference shares price self.old.orders.items) }
    {
        exchange(&mut self.orders, original, reference, shares, price);
        Ok(())
    }

    // The list is always in snapshot order.
    fn settle(&mut self) {}

    ghost is_book = { λ b. b.is_kept };
}
