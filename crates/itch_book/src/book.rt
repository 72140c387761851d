//! The interface of all order books.
ghost use Rattle.std.specs.Prelude.{◌≡◌, ◌-◌, ◌<◌, ◌≤◌, List, [], length, Option, Some, None, IsSome, IsSomeAnd, IfSome, OnOk, OnErr, find, option_map};
ghost use Rattle.std.specs.Option.{option_copied};
ghost use Rattle.itch_book.specs.declared.order.Order.{Order};
ghost use Rattle.itch_book.specs.Orders.{IsBook, get, is_in, is_of, after, next_price, level_total, lay, added, taken, without, replaced};
ghost use Rattle.itch_book.specs.TakenShares.{IsLeft};

use crate::order::{Order, Placed, Taken};
use itch_codec::Side;
use std::alloc::{AllocError, Allocator};

/// The live orders of all locates, in snapshot order: by ascending locate, bids before asks, bids from the highest price, asks from the
/// lowest, and at one price in time priority.
pub trait OrderBook: Drop {
    /// The allocator of the book's memory.
    type Alloc: Allocator + Copy;

    // The orders in snapshot order, for any internal representation of the book.
    ghost orders: { Self → List Order };

    /// Creates a book with no orders, without allocating.
    fn new(alloc: Self::Alloc) -> Self
        ensures { orders result ≡ [] };

    /// Returns the number of orders.
    fn len(&self) -> usize
        ensures { result ≡ length (orders self.now) };

    /// Returns the order with a reference.
    fn get(&self, reference: u64) -> Option<&Order>
        ensures { option_copied result ≡ get (orders self.now) reference };

    /// Returns the order with a reference, and its place.
    fn find(&self, reference: u64) -> Option<Placed<'_>>
        ensures { option_map (λ p. p.order.now) result ≡ get (orders self.now) reference };

    /// Returns the first order of a locate.
    fn first(&self, locate: u16) -> Option<Placed<'_>>
        ensures { option_map (λ p. p.order.now) result ≡ find (is_in locate) (orders self.now) };

    /// Returns the order after the one with a reference, among those of its locate.
    ///
    /// `place` is the place returned with that order. Any other number gives the same result, but may take longer.
    fn after(&self, reference: u64, place: usize) -> Option<Placed<'_>>
        requires { IsSome (get (orders self.now) reference) }
        ensures { option_map (λ p. p.order.now) result ≡ after (orders self.now) reference };

    /// Returns the order of a locate and side with the highest priority.
    fn front(&self, locate: u16, side: Side) -> Option<&Order>
        ensures { option_copied result ≡ find (is_of locate side) (orders self.now) };

    /// Returns the best price of a side, or the best one worse than `last`.
    fn next_price(&self, locate: u16, side: Side, last: Option<u32>) -> Option<u32>
        ensures { result ≡ next_price (orders self.now) locate side last };

    /// Returns the total shares at a price, and the number of orders.
    fn level_total(&self, locate: u16, side: Side, price: u32) -> (u128, u64)
        ensures { result ≡ level_total (orders self.now) locate side price };

    /// Adds an order, last at its price (TotalView-ITCH 5.0, "Add Order Message").
    /// If an allocation fails, the book does not change.
    fn add(&mut self, order: Order) -> Result<(), AllocError>
        requires some_shares { 0 < order.shares }
        requires new_reference { get (orders self.old) order.reference ≡ None }
        ensures ok { OnOk result (orders self.new ≡ lay (added order (orders self.old))) }
        ensures err { OnErr result (orders self.new ≡ orders self.old) };

    /// Takes shares from an order, which keeps its place, and removes it if no shares remain (TotalView-ITCH 5.0, "Order Executed Message",
    /// "Order Cancel Message").
    ///
    /// `place` is the place returned with that order. Any other number gives the same result, but may take longer.
    fn take(&mut self, reference: u64, place: usize, shares: u32) -> Taken
        requires { IsSomeAnd (get (orders self.old) reference) (λ x. shares ≤ x.shares) }
        ensures orders { orders self.new ≡ lay (taken reference shares (orders self.old)) }
        ensures left { IfSome (get (orders self.old) reference) (λ x. IsLeft (x.shares - shares) result) };

    /// Removes an order, and returns it (TotalView-ITCH 5.0, "Order Delete Message").
    ///
    /// `place` is the place returned with that order. Any other number gives the same result, but may take longer.
    fn delete(&mut self, reference: u64, place: usize) -> Order
        requires { IsSome (get (orders self.old) reference) }
        ensures orders { orders self.new ≡ lay (without reference (orders self.old)) }
        ensures order { get (orders self.old) reference ≡ Some result };

    /// Replaces an order by a new one, last at its price, with the side, locate and attribution of the original (TotalView-ITCH 5.0, "Order
    /// Replace Message").
    /// If an allocation fails, the book does not change.
    ///
    /// `place` is the place returned with the original. Any other number gives the same result, but may take longer.
    fn replace(
        &mut self,
        original: u64,
        place: usize,
        reference: u64,
        shares: u32,
        price: u32,
    ) -> Result<(), AllocError>
        requires live { IsSome (get (orders self.old) original) }
        requires some_shares { 0 < shares }
        requires new_reference { get (orders self.old) reference ≡ None }
        ensures ok { OnOk result (orders self.new ≡ lay (replaced original reference shares price (orders self.old))) }
        ensures err { OnErr result (orders self.new ≡ orders self.old) };

    /// Returns whether an order with this reference, which is not in the book, probably needs no allocation. It is a hint for a caller that
    /// handles possible allocations separately; a book may always return false.
    fn has_room(&self, reference: u64) -> bool {
        let _reference = reference;
        false
    }

    /// Prepares the book for look-ups, so that they can be fast. No order changes. Where a book needs memory for this and is refused it,
    /// look-ups are slower.
    fn settle(&mut self)
        ensures { orders self.new ≡ orders self.old };

    /// Announces that these references are needed next, so that the book can read their orders ahead. No order changes, and no memory is
    /// allocated.
    fn look_ahead(&mut self, references: &[u64])
        ensures { orders self.new ≡ orders self.old }
    {
        let _references = references;
    }

    /// Announces that the orders of a locate are needed next, from first to last, so that the book can read them ahead.
    fn walk_ahead(&self, locate: u16) {
        let _locate = locate;
    }

    // The list is in snapshot order, and each order has a unique reference, shares, and a valid locate.
    ghost is_book: { (b : Self) → IsBook (orders b) };
}
