//! Live orders, their places, and the remaining shares of an order.
ghost use Rattle.std.specs.Prelude.{◌≡◌, option_map};
ghost use Rattle.std.specs.Option.{option_copied};

use itch_codec::{Alpha, Side};

/// A live order: it has shares left.
// Fields are stored in this order: with the wide fields first there is no padding.
#[derive(Clone, Copy, Debug, PartialEq, Eq)]
pub struct Order {
    /// The order reference number, which is unique among live orders.
    pub reference: u64,
    /// The remaining shares, at least 1.
    pub shares: u32,
    /// The price with four implied decimals.
    pub price: u32,
    /// The locate of the security.
    pub locate: u16,
    pub side: Side,
    /// The market participant to whom the order is attributed, if the order has an attribution.
    pub mpid: Option<Alpha<4>>,
}

/// An order of a book, and its place there.
///
/// The place is an internal number of the book, from which [`OrderBook::after`](crate::OrderBook::after) continues without searching for the
/// order.
#[derive(Clone, Copy, Debug)]
pub struct Placed<'a> {
    pub order: &'a Order,
    pub place: usize,
}

/// The result of taking shares from an order.
#[derive(Clone, Copy, Debug, PartialEq, Eq)]
pub enum Taken {
    /// This number of shares remains.
    Left(u32),
    /// No shares remain, and the order was removed.
    Gone,
}

// Returns an order whose place is not known.
pub(crate) fn unplaced(order: Option<&Order>) -> Option<Placed<'_>>
    ensures { option_map (λ p. p.order.now) result ≡ option_copied order.entry }
{
    let order = order?;
    Some(Placed { order, place: 0 })
}

// Returns the order without its place.
pub(crate) fn order_of(placed: Option<Placed<'_>>) -> Option<&Order>
    ensures { option_copied result ≡ option_map (λ p. p.order.now) placed.entry }
{
    let placed = placed?;
    Some(placed.order)
}
