//! Orders with their arrival numbers, and their positions in snapshot order.
ghost use Rattle.std.specs.Prelude.{◌≡◌, ◌<◌, ◌^◌, option_map};
ghost use Rattle.std.specs.Option.{option_copied};
ghost use Rattle.itch_book.specs.Settled.{comes_before, price_rank, rank, its_order, locate_of, wants, is_from, begins, sooner, HasRank};

use crate::order::Order;
use crate::priority::{is_of, is_worse};
use itch_codec::Side;

/// An order and its arrival number, which is unique among live orders.
#[derive(Clone, Copy)]
pub(crate) struct Arrived {
    pub(crate) order: Order,
    pub(crate) arrival: u64,
}

/// A description of the wanted orders.
#[derive(Clone, Copy)]
pub(crate) enum Wanted {
    /// An order of a locate.
    In(u16),
    /// An order of a locate and side. If there is a last price, its price is worse than that.
    Next(u16, Side, Option<u32>),
    /// An order of the same locate as another one, and after it.
    After(Arrived),
}

// Returns a side and price as a number: bids before asks, and the better price first.
fn price_rank(side: Side, price: u32) -> u64
    ensures rank { result ≡ price_rank side price }
    ensures fits { (result < 2 ^ 33) × (price < 2 ^ 32) }
{
    match side {
        Side::Buy => u64::from(u32::MAX - price),
        Side::Sell => (1 << 32) + u64::from(price),
    }
}

// Returns the position of an order as a number: by locate, side and price, and at one price by arrival.
fn rank(one: Arrived) -> u128
    ensures rank { result ≡ rank one }
    ensures fits { HasRank one }
{
    let order = one.order;
    let place = (u64::from(order.locate) << 33) + price_rank(order.side, order.price);
    (u128::from(place) << 64) + u128::from(one.arrival)
}

// Returns whether one order comes before another in snapshot order.
pub(crate) fn comes_before(one: &Arrived, other: &Arrived) -> bool
    ensures { result ≡ comes_before one.now other.now }
{
    // A single comparison without a branch, since a sort executes this for each pair.
    rank(*one) < rank(*other)
}

// Returns the locate of the wanted orders.
pub(crate) fn locate_of(wanted: &Wanted) -> u16
    ensures { result ≡ locate_of wanted.now }
{
    match *wanted {
        Wanted::In(locate) => locate,
        Wanted::Next(locate, _, _) => locate,
        Wanted::After(this) => this.order.locate,
    }
}

// Returns whether an order is wanted.
pub(crate) fn wants(wanted: &Wanted, one: &Arrived) -> bool
    ensures { result ≡ wants wanted.now one.now }
{
    match *wanted {
        Wanted::In(locate) => one.order.locate == locate,
        Wanted::Next(locate, side, last) => {
            is_of(&one.order, locate, side) && is_worse(side, last, one.order.price)
        }
        Wanted::After(this) => { one.order.locate == this.order.locate && comes_before(&this, one) }
    }
}

// Returns whether an order is of this locate and side, or comes after those orders.
fn is_from(order: &Order, locate: u16, side: Side) -> bool
    ensures { result ≡ is_from locate side order.now }
{
    order.locate > locate
        || (order.locate == locate && (side == Side::Buy || order.side == Side::Sell))
}

// Returns whether all wanted orders are at this order or after it, so that a binary search can end here.
pub(crate) fn begins(wanted: &Wanted, one: &Arrived) -> bool
    ensures { result ≡ begins wanted.now one.now }
{
    match *wanted {
        Wanted::In(locate) => one.order.locate >= locate,
        Wanted::Next(locate, side, last) => {
            is_from(&one.order, locate, side)
                && (!is_of(&one.order, locate, side) || is_worse(side, last, one.order.price))
        }
        Wanted::After(this) => comes_before(&this, one),
    }
}

// Returns the earlier of two orders in snapshot order, if there is a second one.
pub(crate) fn sooner<'a>(one: &'a Arrived, other: Option<&'a Arrived>) -> Option<&'a Arrived>
    ensures { option_copied result ≡ sooner one.now (option_copied other.entry) }
{
    match other {
        Some(other) => {
            if comes_before(one, other) {
                Some(one)
            } else {
                Some(other)
            }
        }
        None => Some(one),
    }
}

// Returns the order without its arrival number.
pub(crate) fn its_order(arrived: Option<&Arrived>) -> Option<&Order>
    ensures { option_copied result ≡ option_map its_order (option_copied arrived.entry) }
{
    let arrived = arrived?;
    Some(&arrived.order)
}
