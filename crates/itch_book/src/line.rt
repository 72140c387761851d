//! A line: orders in snapshot order, which are found by binary search, or from one to the next.
ghost use Rattle.std.specs.Prelude.{◌≡◌, ◌+◌, ◌<◌, ◌≤◌, ◌^◌, ◌↔◌, IsTrue, IsSomeAnd, IfSome, length, take, drop, map, find, option_map, slice_get};
ghost use Rattle.std.specs.List.{filter, list_all};
ghost use Rattle.itch_book.specs.StableLists.{IsInOrder};
ghost use Rattle.itch_book.specs.Orders.{is_in, level_total};
ghost use Rattle.itch_book.specs.Settled.{comes_before, its_order, is_of_locate, is_lower, is_higher, wants};

use crate::arrived::{Arrived, Wanted, begins, wants};
use crate::order::{Order, Placed};
use crate::priority::{is_level, stands_before};
use itch_codec::Side;
use std::ops::Range;

/// A part of a line, which begins at a place.
#[derive(Clone, Copy)]
pub(crate) struct Part<'a> {
    pub(crate) start: usize,
    pub(crate) orders: &'a [Arrived],
}

// Returns a part of a line that contains all orders of a locate: the part that a hint gives, if it contains them, and otherwise the line.
pub(crate) fn part_of(line: &[Arrived], locate: u16, hint: Range<usize>) -> Part<'_>
    requires { IsInOrder comes_before line.now }
    ensures order { IsInOrder comes_before result.orders.now }
    ensures all { filter (is_of_locate locate) result.orders.now ≡ filter (is_of_locate locate) line.now }
    ensures within { result.start + length result.orders.now ≤ length line.now }
{
    let Range { start, end } = hint;
    if start <= end && end <= line.len() {
        if all_lower_before(line, start, locate) && all_higher_from(line, end, locate) {
            return Part {
                start,
                orders: &line[start..end],
            };
        }
    }
    Part {
        start: 0,
        orders: line,
    }
}

// Returns whether all orders before a place are of lower locates.
fn all_lower_before(line: &[Arrived], place: usize, locate: u16) -> bool
    requires order { IsInOrder comes_before line.now }
    requires within { place ≤ length line.now }
    ensures { result ≡ list_all (is_lower locate) (take place line.now) }
{
    if place == 0 {
        return true;
    }
    line[place - 1].order.locate < locate
}

// Returns whether all orders from a place on are of higher locates.
fn all_higher_from(line: &[Arrived], place: usize, locate: u16) -> bool
    requires { IsInOrder comes_before line.now }
    ensures { result ≡ list_all (is_higher locate) (drop place line.now) }
{
    match line.get(place) {
        Some(one) => one.order.locate > locate,
        None => true,
    }
}

// Returns the first wanted order of the part of a line that begins at a place.
pub(crate) fn first_in_part(orders: &[Arrived], start: usize, wanted: Wanted) -> Option<Placed<'_>>
    requires order { IsInOrder comes_before orders.now }
    requires within { start + length orders.now < 2 ^ 64 }
    ensures { option_map (λ p. p.order.now) result ≡ option_map its_order (find (wants wanted) orders.now) }
{
    let place = orders.partition_point(|one| !begins(&wanted, one));
    let one = orders.get(place)?;
    if wants(&wanted, one) {
        Some(Placed {
            order: &one.order,
            place: start + place,
        })
    } else {
        None
    }
}

// Returns whether the order with a reference is at a place.
#[inline(always)]
pub(crate) fn stands_at(line: &[Arrived], reference: u64, place: usize) -> bool
    ensures { IsTrue result ↔ IsSomeAnd (slice_get line.now place) (λ x. x.order.reference ≡ reference) }
{
    match line.get(place) {
        Some(one) => one.order.reference == reference,
        None => false,
    }
}

// Returns the next order with the same locate as the one at a place.
pub(crate) fn next_in_line(line: &[Arrived], place: usize) -> Option<Placed<'_>>
    requires order { IsInOrder comes_before line.now }
    requires within { place < length line.now }
    ensures { IfSome (slice_get line.now place) (λ x. option_map (λ p. p.order.now) result ≡ find (is_in x.order.locate) (map its_order (drop (place + 1) line.now))) }
{
    let here = &line[place];
    let place = place + 1;
    // The orders of a locate are contiguous.
    let next = line.get(place)?;
    if next.order.locate == here.order.locate {
        Some(Placed {
            order: &next.order,
            place,
        })
    } else {
        None
    }
}

// Returns the total shares at a price, and the number of orders.
pub(crate) fn level_in_line(line: &[Arrived], locate: u16, side: Side, price: u32) -> (u128, u64)
    requires { IsInOrder comes_before line.now }
    ensures { result ≡ level_total (map its_order line.now) locate side price }
{
    // Only the position of this order matters.
    let there = Order {
        reference: 0,
        shares: 0,
        price,
        locate,
        side,
        mpid: None,
    };
    let start = line.partition_point(|one| stands_before(&one.order, &there));
    let end = line.partition_point(|one| !stands_before(&there, &one.order));
    total_in(&line[start..end], locate, side, price)
}

// Returns the total shares at a price, and the number of orders, by a scan over all of these orders.
pub(crate) fn total_in(orders: &[Arrived], locate: u16, side: Side, price: u32) -> (u128, u64)
    ensures { result ≡ level_total (map its_order orders.now) locate side price }
{
    let mut shares = 0u128;
    let mut count = 0u64;
    for one in orders {
        if is_level(&one.order, locate, side, price) {
            shares += u128::from(one.order.shares);
            count += 1;
        }
    }
    (shares, count)
}
