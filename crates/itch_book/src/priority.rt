//! The places of orders in a list in snapshot order.
ghost use Rattle.std.specs.Prelude.{◌≡◌, ◌<◌, ◌≤◌, ◌&&◌, length, Option, IsSome, find};
ghost use Rattle.std.specs.List.{position, position_or_len};
ghost use Rattle.std.specs.Option.{option_copied};
ghost use Rattle.itch_book.specs.declared.order.Order.{Order};
ghost use Rattle.itch_book.specs.StableLists.{IsInOrder};
ghost use Rattle.itch_book.specs.Orders.{stands_before, has_reference, is_better, is_worse, get, after, is_in, is_of, is_level, next_price, level_total};

use crate::order::Order;
use itch_codec::Side;

// Returns whether the first price is better than the second.
pub(crate) fn is_better(side: Side, price: u32, other: u32) -> bool
    ensures { result ≡ is_better side price other }
{
    match side {
        Side::Buy => price > other,
        Side::Sell => price < other,
    }
}

// Returns whether one order comes before another in the list, for any order of arrival.
pub(crate) fn stands_before(one: &Order, other: &Order) -> bool
    ensures { result ≡ stands_before one.now other.now }
{
    if one.locate != other.locate {
        return one.locate < other.locate;
    }
    match (one.side, other.side) {
        (Side::Buy, Side::Buy) => one.price > other.price,
        (Side::Buy, Side::Sell) => true,
        (Side::Sell, Side::Buy) => false,
        (Side::Sell, Side::Sell) => one.price < other.price,
    }
}

// Returns the place for an order that arrived last: before the first order that it precedes.
pub(crate) fn place_of(orders: &[Order], order: &Order) -> usize
    requires { IsInOrder stands_before orders.now }
    ensures place { result ≡ position_or_len (stands_before order.now) orders.now }
    ensures within { result ≤ length orders.now }
{
    orders.partition_point(|other| !stands_before(order, other))
}

// Returns the place of the order with a reference, if it is in the list.
pub(crate) fn place_in(orders: &[Order], reference: u64) -> Option<usize>
    ensures { result ≡ position (has_reference reference) orders.now }
{
    orders.iter().position(|order| order.reference == reference)
}

// Returns the place of an order that is in the list.
pub(crate) fn index_of(orders: &[Order], reference: u64) -> usize
    requires { IsSome (get orders.now reference) }
    ensures place { result ≡ position_or_len (has_reference reference) orders.now }
    ensures within { result < length orders.now }
{
    place_in(orders, reference).unwrap()
}

// Returns the first order of a locate.
pub(crate) fn first_in(orders: &[Order], locate: u16) -> Option<&Order>
    ensures { option_copied result ≡ find (is_in locate) orders.now }
{
    orders.iter().find(|order| order.locate == locate)
}

// Returns whether an order is of this locate and side.
pub(crate) fn is_of(order: &Order, locate: u16, side: Side) -> bool
    ensures { result ≡ is_of locate side order.now }
{
    order.locate == locate && order.side == side
}

// Returns the first order of a locate and side.
pub(crate) fn first_of(orders: &[Order], locate: u16, side: Side) -> Option<&Order>
    ensures { option_copied result ≡ find (is_of locate side) orders.now }
{
    orders.iter().find(|order| is_of(order, locate, side))
}

// Returns the order after the one with a reference, among those of its locate.
pub(crate) fn next_of(orders: &[Order], reference: u64) -> Option<&Order>
    requires { IsSome (get orders.now reference) }
    ensures { option_copied result ≡ after orders.now reference }
{
    let index = index_of(orders, reference);
    first_in(&orders[index + 1..], orders[index].locate)
}

// Returns whether a price is worse than the last, if there is a last one.
pub(crate) fn is_worse(side: Side, last: Option<u32>, price: u32) -> bool
    ensures { result ≡ is_worse side last price }
{
    match last {
        None => true,
        Some(last) => is_better(side, last, price),
    }
}

// Returns the best price of a side, or the best one worse than the last.
pub(crate) fn price_after(
    orders: &[Order],
    locate: u16,
    side: Side,
    last: Option<u32>,
) -> Option<u32>
    ensures { result ≡ next_price orders.now locate side last }
{
    orders
        .iter()
        .find(|order| is_of(order, locate, side) && is_worse(side, last, order.price))
        .map(|order| order.price)
}

// Returns whether an order is at a price.
pub(crate) fn is_level(order: &Order, locate: u16, side: Side, price: u32) -> bool
    ensures { result ≡ is_level locate side price order.now }
{
    is_of(order, locate, side) && order.price == price
}

// Returns the total shares at a price, and the number of orders.
pub(crate) fn total_at(orders: &[Order], locate: u16, side: Side, price: u32) -> (u128, u64)
    ensures { result ≡ level_total orders.now locate side price }
{
    let mut shares = 0u128;
    let mut count = 0u64;
    for order in orders {
        if is_level(order, locate, side, price) {
            shares += u128::from(order.shares);
            count += 1;
        }
    }
    (shares, count)
}
