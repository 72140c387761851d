//! Orders in any order, or in snapshot order between a `settle` and the next change.
ghost use Rattle.std.specs.Prelude.{◌≡◌, ◌<◌, ◌≤◌, ◌-◌, [], length, None, Some, OnOk, OnErr, IsSome, IsSomeAnd, IfSome, find, true, false, option_map};
ghost use Rattle.std.specs.Map.{values_of};
ghost use Rattle.std.specs.Option.{option_copied};
ghost use Rattle.itch_book.specs.StableLists.{in_order};
ghost use Rattle.itch_book.specs.Orders.{get, is_in, is_of, after, next_price, level_total, lay, added, taken, without, replaced, IsBook};
ghost use Rattle.itch_book.specs.Settled.{comes_before, its_order, settled, wants, IsLineOr};
ghost use Rattle.itch_book.specs.TakenShares.{IsLeft};

use crate::arrived::{Arrived, Wanted, its_order, locate_of};
use crate::line::{first_in_part, level_in_line, next_in_line, part_of, stands_at};
use crate::order::{Order, Placed, Taken, order_of, unplaced};
use crate::references::{References, cut, known, least, put, swap, total_of, write};
use itch_codec::Side;
use std::alloc::{AllocError, Allocator, Global};
use std::marker::Model;

/// The live orders, which contracts describe as the list in snapshot order, and whether they are stored in that order.
#[derive(Drop)]
pub(crate) struct Arrivals<A: Allocator = Global> {
    references: References<A>,
    // The arrival number of the next order.
    next: u64,
    // Whether the orders are stored in snapshot order.
    is_settled: bool,
}

impl<A: Allocator> Model for Arrivals<A> {
    ghost use Rattle.std.specs.Map.{values_of};
    ghost use Rattle.itch_book.specs.Settled.{Held, settled, IsHeld};

    ghost Value = { Held };

    ghost view = { λ b. record { orders = settled (values_of b.references.entries); is_settled = b.is_settled } };

    ghost invariant = { λ b. IsHeld b.references.entries b.next b.is_settled };
}

impl<A: Allocator + Copy> Arrivals<A> {
    /// Creates an empty collection.
    pub(crate) fn new(alloc: A) -> Self
        ensures orders { result.orders ≡ [] }
        ensures settled { result.is_settled ≡ false }
    {
        Arrivals {
            references: References::new(alloc),
            next: 0,
            is_settled: false,
        }
    }

    /// Returns whether the orders are stored in snapshot order, so that they are found by binary search.
    pub(crate) fn is_settled(&self) -> bool
        ensures { result ≡ self.now.is_settled }
    {
        self.is_settled
    }

    /// Sorts the orders into snapshot order, so that until the next change they are found by binary search.
    pub(crate) fn settle(&mut self)
        ensures orders { self.new.orders ≡ self.old.orders }
        ensures settled { self.new.is_settled ≡ true }
    {
        if self.is_settled {
            return;
        }
        self.references.settle();
        self.is_settled = true;
    }

    /// Reads the orders of these references into the processor's cache, if there are many orders.
    #[inline(always)]
    pub(crate) fn look_ahead(&mut self, references: &[u64])
        ensures { self.new ≡ self.old }
    {
        self.references.look_ahead(references);
    }

    /// Returns whether an order with a new reference probably needs no allocation.
    #[inline(always)]
    pub(crate) fn has_room(&self, reference: u64) -> bool {
        self.references.has_room(reference)
    }

    /// Returns the number of orders.
    #[inline(always)]
    pub(crate) fn len(&self) -> usize
        ensures { result ≡ length self.now.orders }
    {
        self.references.len()
    }

    /// Returns the order with a reference.
    #[inline(always)]
    pub(crate) fn get(&self, reference: u64) -> Option<&Order>
        ensures { option_copied result ≡ get self.now.orders reference }
    {
        order_of(self.find(reference))
    }

    /// Returns the order with a reference, and its place.
    #[inline(always)]
    pub(crate) fn find(&self, reference: u64) -> Option<Placed<'_>>
        ensures { option_map (λ p. p.order.now) result ≡ get self.now.orders reference }
    {
        self.references.find(reference)
    }

    /// Returns the first order of a locate.
    pub(crate) fn first(&self, locate: u16) -> Option<Placed<'_>>
        ensures { option_map (λ p. p.order.now) result ≡ find (is_in locate) self.now.orders }
    {
        let line = self.references.line_if(self.is_settled);
        sought(&self.references, line, Wanted::In(locate))
    }

    /// Returns the order of a locate and side with the highest priority.
    pub(crate) fn front(&self, locate: u16, side: Side) -> Option<&Order>
        ensures { option_copied result ≡ find (is_of locate side) self.now.orders }
    {
        let line = self.references.line_if(self.is_settled);
        order_of(sought(&self.references, line, Wanted::Next(locate, side, None)))
    }

    /// Returns the best price of a side, or the best one worse than the last.
    pub(crate) fn next_price(&self, locate: u16, side: Side, last: Option<u32>) -> Option<u32>
        ensures { result ≡ next_price self.now.orders locate side last }
    {
        let line = self.references.line_if(self.is_settled);
        let placed = sought(&self.references, line, Wanted::Next(locate, side, last))?;
        Some(placed.order.price)
    }

    /// Returns the order after the one with a reference, among those of its locate. If that order is at this place in the sorted line, it is
    /// the next one there.
    #[inline(always)]
    pub(crate) fn after(&self, reference: u64, place: usize) -> Option<Placed<'_>>
        requires { IsSome (get self.now.orders reference) }
        ensures { option_map (λ p. p.order.now) result ≡ after self.now.orders reference }
    {
        let line = self.references.line_if(self.is_settled);
        if let Some(line) = line {
            if stands_at(line, reference, place) {
                return next_in_line(line, place);
            }
        }
        let (_, this) = known(&self.references, reference, place);
        sought(&self.references, line, Wanted::After(this))
    }

    /// Returns the total shares at a price, and the number of orders.
    pub(crate) fn level_total(&self, locate: u16, side: Side, price: u32) -> (u128, u64)
        ensures { result ≡ level_total self.now.orders locate side price }
    {
        match self.references.line_if(self.is_settled) {
            Some(line) => {
                let part = part_of(line, locate, self.references.hint(locate));
                level_in_line(part.orders, locate, side, price)
            }
            None => total_of(&self.references, locate, side, price),
        }
    }

    /// Adds an order, last at its price. If an allocation fails, or if there is no arrival number left, no order changes.
    #[inline(always)]
    pub(crate) fn add(&mut self, order: Order) -> Result<(), AllocError>
        requires some_shares { 0 < order.shares }
        requires new_reference { get self.old.orders order.reference ≡ None }
        ensures ok { OnOk result (self.new.orders ≡ lay (added order self.old.orders)) }
        ensures err { OnErr result (self.new.orders ≡ self.old.orders) }
    {
        let arrival = self.next;
        if arrival == u64::MAX {
            return Err(AllocError);
        }
        let stored = put(&mut self.references, Arrived { order, arrival });
        self.is_settled = false;
        stored?;
        self.next = arrival + 1;
        Ok(())
    }

    /// Takes shares from an order, which keeps its place, and removes it if no shares remain. It is not searched for if it is at this place.
    #[inline(always)]
    pub(crate) fn take(&mut self, reference: u64, place: usize, shares: u32) -> Taken
        requires { IsSomeAnd (get self.old.orders reference) (λ x. shares ≤ x.shares) }
        ensures orders { self.new.orders ≡ lay (taken reference shares self.old.orders) }
        ensures left { IfSome (get self.old.orders reference) (λ x. IsLeft (x.shares - shares) result) }
    {
        let (place, arrived) = known(&self.references, reference, place);
        let left = arrived.order.shares - shares;
        if left == 0 {
            cut(&mut self.references, reference);
            self.is_settled = false;
            return Taken::Gone;
        }
        let order = Order {
            shares: left,
            ..arrived.order
        };
        write(&mut self.references, place, Arrived { order, ..arrived });
        self.is_settled = false;
        Taken::Left(left)
    }

    /// Removes an order, and returns it.
    #[inline(always)]
    pub(crate) fn delete(&mut self, reference: u64) -> Order
        requires { IsSome (get self.old.orders reference) }
        ensures orders { self.new.orders ≡ lay (without reference self.old.orders) }
        ensures order { get self.old.orders reference ≡ Some result }
    {
        let removed = cut(&mut self.references, reference);
        self.is_settled = false;
        removed.order
    }

    /// Replaces an order by a new one, last at its price, with the side, locate and attribution of the original. The original is not searched
    /// for if it is at this place.
    ///
    /// If an allocation fails, or if there is no arrival number left, no order changes.
    #[inline(always)]
    pub(crate) fn replace(
        &mut self,
        original: u64,
        place: usize,
        reference: u64,
        shares: u32,
        price: u32,
    ) -> Result<(), AllocError>
        requires live { IsSome (get self.old.orders original) }
        requires some_shares { 0 < shares }
        requires new_reference { get self.old.orders reference ≡ None }
        ensures ok { OnOk result (self.new.orders ≡ lay (replaced original reference shares price self.old.orders)) }
        ensures err { OnErr result (self.new.orders ≡ self.old.orders) }
    {
        let arrival = self.next;
        if arrival == u64::MAX {
            return Err(AllocError);
        }
        let (at, old) = known(&self.references, original, place);
        let order = Order {
            reference,
            shares,
            price,
            ..old.order
        };
        let stored = swap(
            &mut self.references,
            at,
            original,
            Arrived { order, arrival },
        );
        self.is_settled = false;
        stored?;
        self.next = arrival + 1;
        Ok(())
    }
}

// Returns the first wanted order in snapshot order: by binary search in the sorted line, or by a scan over all orders if they are not sorted.
fn sought<'a, A: Allocator>(
    references: &'a References<A>,
    line: Option<&'a [Arrived]>,
    wanted: Wanted,
) -> Option<Placed<'a>>
    requires { IsLineOr (values_of references.now.entries) (option_copied line) }
    ensures { option_map (λ p. p.order.now) result ≡ option_map its_order (find (wants wanted) (in_order comes_before (values_of references.now.entries))) }
{
    match line {
        Some(line) => {
            let locate = locate_of(&wanted);
            let part = part_of(line, locate, references.hint(locate));
            first_in_part(part.orders, part.start, wanted)
        }
        None => unplaced(its_order(least(references, wanted))),
    }
}
