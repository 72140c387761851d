//! Orders by reference, stored in order of arrival or in snapshot order.
ghost use Rattle.std.specs.Prelude.{◌≡◌, ◌<◌, ◌^◌, ◌∷◌, [], eqb, length, None, Some, OnOk, OnErr, IsSome, IsPermutation, find, option_map};
ghost use Rattle.std.specs.Map.{lookup, values_of, set_value, remove_entry};
ghost use Rattle.std.specs.Option.{option_copied};
ghost use Rattle.std.specs.Ordering.{is_lt};
ghost use Rattle.itch_book.specs.StableLists.{in_order};
ghost use Rattle.itch_book.specs.Orders.{level_total};
ghost use Rattle.itch_book.specs.Settled.{comes_before, its_order, settled, wants, line_if, IsApart};
ghost use Rattle.itch_book.specs.Referred.{references_of, IsAt, IsKnown, IsPlaced};
ghost use Rattle.itch_book.specs.Table.{at};

use crate::ahead::{AHEAD, MANY, links_of};
use crate::arrived::{Arrived, Wanted, comes_before, sooner, wants};
use crate::hints::Hints;
use crate::line::{stands_at, total_in};
use crate::order::Placed;
use crate::table::Table;
use itch_codec::Side;
use std::alloc::{AllocError, Allocator, Global};
use std::cmp::Ordering;
use std::marker::Model;
use std::mem::size_of;
use std::ops::Range;

// Two orders fit into a cache line of 64 bytes.
const _: () = prove!(size_of::<Arrived>() == 32);

/// The orders by reference.
///
/// They are stored contiguously, and a table contains the place of each. So a look-up reads one entry of the table and the order, and a scan
/// over all orders reads nothing else.
#[derive(Drop)]
pub(crate) struct References<A: Allocator = Global> {
    places: Table<A>,
    orders: Vec<Arrived, A>,
    // Where the orders of each locate were after the last `settle`.
    hints: Hints<A>,
    // The data last read ahead. Nothing uses it, but the compiler may omit a read whose result is not stored.
    seen: u64,
}

impl<A: Allocator> Model for References<A> {
    ghost use Rattle.itch_book.specs.Referred.{Referred, under_references, IsReferred};

    ghost Value = { Referred };

    ghost view = { λ r. record { entries = under_references r.orders.items } };

    ghost invariant = { λ r. IsReferred r.places r.orders.items };
}

impl<A: Allocator> References<A> {
    /// Creates an empty collection.
    pub(crate) fn new(alloc: A) -> Self
    where
        A: Copy,
        ensures { result.entries ≡ [] }
    {
        References {
            places: Table::new(alloc),
            orders: Vec::new(alloc),
            hints: Hints::new(alloc),
            seen: 0,
        }
    }

    /// Returns the number of orders.
    #[inline(always)]
    pub(crate) fn len(&self) -> usize
        ensures { result ≡ length self.now.entries }
    {
        self.orders.len()
    }

    /// Returns whether an order with a new reference probably needs no allocation.
    #[inline(always)]
    pub(crate) fn has_room(&self, reference: u64) -> bool {
        self.orders.len() < self.orders.capacity() && self.places.has_room(reference)
    }

    /// Returns the order with a reference, and its place.
    #[inline(always)]
    pub(crate) fn find(&self, reference: u64) -> Option<Placed<'_>>
        ensures { option_map (λ p. p.order.now) result ≡ option_map its_order (lookup (eqb reference) self.now.entries) }
    {
        match self.places.get(reference) {
            Some(place) => Some(Placed {
                order: &self.orders[place as usize].order,
                place: place as usize,
            }),
            None => None,
        }
    }

    /// Returns the orders as a line, if they are settled.
    #[inline(always)]
    pub(crate) fn line_if(&self, is_settled: bool) -> Option<&[Arrived]>
        ensures { option_copied result ≡ line_if is_settled (values_of self.now.entries) }
    {
        if is_settled {
            Some(self.orders.as_slice())
        } else {
            None
        }
    }

    /// Reads the orders of the first of these references into the processor's cache, if there are more orders than fit there anyway. So the
    /// program waits for memory once instead of once per message that changes one of them.
    #[inline(always)]
    pub(crate) fn look_ahead(&mut self, references: &[u64])
        ensures { self.new ≡ self.old }
    {
        if self.orders.len() >= MANY {
            let (places, seen) = links_of(&self.places, references);
            self.seen = seen_at(&self.orders, &places) ^ seen as u64;
        }
    }

    /// Returns where the orders of a locate probably are in the sorted line.
    pub(crate) fn hint(&self, locate: u16) -> Range<usize> {
        self.hints.hint(locate, self.orders.len())
    }

    /// Sorts the orders into snapshot order in place.
    pub(crate) fn settle(&mut self)
        requires { IsApart (values_of self.old.entries) }
        ensures line { values_of self.new.entries ≡ in_order comes_before (values_of self.old.entries) }
        ensures entries { IsPermutation self.old.entries self.new.entries }
    {
        sort(&mut self.orders);
        write_places(&mut self.places, &self.orders);
        self.hints.write(&self.orders);
    }
}

// Returns a number that depends on each order at these places, so that all of them have to be read.
#[inline(always)]
fn seen_at(orders: &[Arrived], places: &[u32; AHEAD]) -> u64 {
    let mut seen = 0;
    for place in places {
        if let Some(arrived) = orders.get(*place as usize) {
            // An order may extend over two cache lines, so both ends are read.
            seen ^= arrived.order.reference ^ arrived.arrival;
        }
    }
    seen
}

// Returns the order of a known reference, and its place: the given one, if the order is there.
#[inline(always)]
pub(crate) fn known<A: Allocator>(
    references: &References<A>,
    reference: u64,
    place: usize,
) -> (usize, Arrived)
    requires { IsSome (lookup (eqb reference) references.now.entries) }
    ensures order { lookup (eqb reference) references.now.entries ≡ Some result.1 }
    ensures place { IsAt references.now.entries reference result.0 }
{
    let place = place_of(references, reference, place);
    (place, references.orders[place])
}

// Returns the place of a known reference: the given one if the order is there, and otherwise the place in the table.
#[inline(always)]
fn place_of<A: Allocator>(references: &References<A>, reference: u64, place: usize) -> usize
    requires { IsSome (lookup (eqb reference) references.now.entries) }
    ensures { IsAt references.now.entries reference result }
{
    if stands_at(&references.orders, reference, place) {
        return place;
    }
    references.places.get(reference).unwrap() as usize
}

// Inserts an order under its reference. If an allocation fails, or if there are 2^32 - 1 orders, nothing changes.
#[inline(always)]
pub(crate) fn put<A: Allocator + Copy>(
    references: &mut References<A>,
    arrived: Arrived,
) -> Result<(), AllocError>
    requires { lookup (eqb arrived.order.reference) references.old.entries ≡ None }
    ensures ok { OnOk result (IsPermutation ((arrived.order.reference, arrived) ∷ references.old.entries) references.new.entries) }
    ensures err { OnErr result (references.new.entries ≡ references.old.entries) }
{
    let place = references.orders.len();
    if place >= u32::MAX as usize {
        return Err(AllocError);
    }
    references.orders.reserve(1)?;
    references
        .places
        .insert(arrived.order.reference, place as u32)?;
    references.orders.push_reserved(arrived);
    Ok(())
}

// Stores an order in place of the one with another reference, which is at this place. If an allocation fails, nothing changes.
#[inline(always)]
pub(crate) fn swap<A: Allocator + Copy>(
    references: &mut References<A>,
    place: usize,
    old: u64,
    replacement: Arrived,
) -> Result<(), AllocError>
    requires place { IsAt references.old.entries old place }
    requires new_reference { lookup (eqb replacement.order.reference) references.old.entries ≡ None }
    ensures ok { OnOk result (IsPermutation ((replacement.order.reference, replacement) ∷ remove_entry (eqb old) references.old.entries) references.new.entries) }
    ensures err { OnErr result (references.new.entries ≡ references.old.entries) }
{
    references
        .places
        .insert(replacement.order.reference, place as u32)?;
    references.places.remove(old);
    references.orders[place] = replacement;
    Ok(())
}

// Removes the order with a reference. The last order moves to its place.
#[inline(always)]
pub(crate) fn cut<A: Allocator>(references: &mut References<A>, reference: u64) -> Arrived
    requires { IsSome (lookup (eqb reference) references.old.entries) }
    ensures found { lookup (eqb reference) references.old.entries ≡ Some result }
    ensures entries { IsPermutation (remove_entry (eqb reference) references.old.entries) references.new.entries }
{
    let place = references.places.remove(reference);
    let arrived = references.orders.swap_remove(place as usize);
    if (place as usize) < references.orders.len() {
        let moved = references.orders[place as usize].order.reference;
        references.places.set(moved, place);
    }
    arrived
}

// Stores an order in place of the one with the same reference, which is at this place.
#[inline(always)]
pub(crate) fn write<A: Allocator>(references: &mut References<A>, place: usize, arrived: Arrived)
    requires { IsAt references.old.entries arrived.order.reference place }
    ensures { references.new.entries ≡ set_value (eqb arrived.order.reference) references.old.entries arrived }
{
    references.orders[place] = arrived;
}

// Sorts the orders into snapshot order. Arrival numbers are distinct, so there is only one sorted line.
fn sort<A: Allocator>(orders: &mut Vec<Arrived, A>)
    requires { IsApart orders.old.items }
    ensures line { orders.new.items ≡ in_order comes_before orders.old.items }
    ensures moved { IsPermutation orders.old.items orders.new.items }
{
    orders.sort_unstable_by(
        |one: &Arrived, other: &Arrived| -> Ordering
            ensures { is_lt result ≡ comes_before one.now other.now }
        {
            if comes_before(one, other) {
                Ordering::Less
            } else {
                Ordering::Greater
            }
        },
    );
}

// Writes the new place of each order. The table already contains their references, so no memory is allocated.
fn write_places<A: Allocator>(places: &mut Table<A>, orders: &[Arrived])
    requires few { length orders.now < 2 ^ 32 }
    requires known { IsKnown (at places.old) (references_of orders.now) }
    ensures { IsPlaced (at places.new) (references_of orders.now) }
{
    for (place, arrived) in orders.iter().enumerate() {
        places.set(arrived.order.reference, place as u32);
    }
}

// Returns the first wanted order in snapshot order, by a scan over all orders.
pub(crate) fn least<A: Allocator>(references: &References<A>, wanted: Wanted) -> Option<&Arrived>
    ensures { option_copied result ≡ find (wants wanted) (in_order comes_before (values_of references.now.entries)) }
{
    let mut least: Option<&Arrived> = None;
    for arrived in &references.orders {
        if wants(&wanted, arrived) {
            least = sooner(arrived, least);
        }
    }
    least
}

// Returns the total shares at a price, and the number of orders, by a scan over all orders.
pub(crate) fn total_of<A: Allocator>(
    references: &References<A>,
    locate: u16,
    side: Side,
    price: u32,
) -> (u128, u64)
    ensures { result ≡ level_total (settled (values_of references.now.entries)) locate side price }
{
    total_in(&references.orders, locate, side, price)
}
