//! The best prices of a book, as they were last looked at.
ghost use Rattle.std.specs.Prelude.{◌≡◌, ◌≤◌, List, not, length, IfOk};
ghost use Rattle.itch_book.specs.declared.order.Order.{Order as AnyOrder};
ghost use Rattle.itch_book.specs.Orders.{IsBook, queue};
ghost use Rattle.itch_depth.specs.Changes.{best_of, levels, nothing, same_levels, same_sides};
ghost use Rattle.itch_depth.specs.ChangedPrices.{AreSameElsewhere, is_behind};
ghost use Rattle.itch_depth.specs.Following.{was_other, with_level};

use super::changed_price::{ChangedPrice, is_better};
use itch_book::OrderBook;
use itch_codec::Side;
use std::alloc::{AllocError, Allocator};
use std::marker::Model;

/// A price of a side: all shares at it, and the number of its orders.
#[derive(Clone, Copy, Debug, PartialEq, Eq)]
pub struct DepthLevel {
    pub price: u32,
    pub shares: u128,
    pub orders: u64,
}

/// The best prices of each side of a book, the best one first.
#[derive(Drop)]
pub struct Best<A: Allocator> {
    bids: Vec<DepthLevel, A>,
    asks: Vec<DepthLevel, A>,
}

impl<A: Allocator> Model for Best<A> {
    ghost use Rattle.itch_depth.specs.Changes.{Sides};

    ghost Value = { Sides };

    ghost view = { λ b. record { bids = b.bids.items; asks = b.asks.items } };
}

impl<A: Allocator> Best<A> {
    /// Creates the best prices of an empty book, without allocating.
    pub fn new(alloc: A) -> Best<A>
    where
        A: Copy,
        ensures { result ≡ nothing }
    {
        Best {
            bids: Vec::new(alloc),
            asks: Vec::new(alloc),
        }
    }

    /// Returns the bids.
    pub fn bids(&self) -> &[DepthLevel]
        ensures { result.now ≡ self.now.bids }
    {
        self.bids.as_slice()
    }

    /// Returns the asks.
    pub fn asks(&self) -> &[DepthLevel]
        ensures { result.now ≡ self.now.asks }
    {
        self.asks.as_slice()
    }

    /// Looks at the best prices of a locate, as many of each side as requested, and returns whether they have changed. If memory runs out,
    /// they are unknown.
    pub fn renew<B: OrderBook>(
        &mut self,
        book: &B,
        locate: u16,
        depth: usize,
    ) -> Result<bool, AllocError>
        ensures renewed { IfOk result (λ _. self.new ≡ best_of depth (B.orders book.now) locate) }
        ensures changed { IfOk result (λ changed. changed ≡ not (same_sides self.old self.new)) }
    {
        let bids = renew_side(&mut self.bids, book, locate, Side::Buy, depth)?;
        let asks = renew_side(&mut self.asks, book, locate, Side::Sell, depth)?;
        Ok(bids || asks)
    }

    /// Does the same after a change of orders at this price and at worse ones of its side: looks at this side only, and at nothing if as many
    /// prices as requested are better.
    pub fn renew_at<B: OrderBook>(
        &mut self,
        book: &B,
        changed: ChangedPrice,
        depth: usize,
    ) -> Result<bool, AllocError>
        ensures renewed { (orders : List AnyOrder) → IsBook orders → AreSameElsewhere changed orders (B.orders book.now) → self.old ≡ best_of depth orders changed.locate
            → IfOk result (λ _. self.new ≡ best_of depth (B.orders book.now) changed.locate) }
        ensures changed { IfOk result (λ is_other. is_other ≡ not (same_sides self.old self.new)) }
    {
        match changed.side {
            Side::Buy => renew_changed(&mut self.bids, book, changed, depth),
            Side::Sell => renew_changed(&mut self.asks, book, changed, depth),
        }
    }
}

// Looks at the best prices of the side on which orders have changed, unless their price is behind, and returns whether they have changed.
fn renew_changed<B: OrderBook, A: Allocator>(
    known: &mut Vec<DepthLevel, A>,
    book: &B,
    changed: ChangedPrice,
    depth: usize,
) -> Result<bool, AllocError>
    ensures renewed { (orders : List AnyOrder) → IsBook orders → AreSameElsewhere changed orders (B.orders book.now) → known.old.items ≡ levels depth (queue orders changed.locate changed.side)
        → IfOk result (λ _. known.new.items ≡ levels depth (queue (B.orders book.now) changed.locate changed.side)) }
    ensures changed { IfOk result (λ is_other. is_other ≡ not (same_levels known.old.items known.new.items)) }
{
    if is_behind(known.as_slice(), changed.side, changed.price, depth) {
        return Ok(false);
    }
    renew_side(known, book, changed.locate, changed.side, depth)
}

// Returns whether as many prices as requested are known, and all are better than this price.
fn is_behind(known: &[DepthLevel], side: Side, price: u32, depth: usize) -> bool
    ensures { result ≡ is_behind depth side price known.now }
{
    match known.last() {
        Some(worst) if known.len() == depth => is_better(side, worst.price, price),
        _ => false,
    }
}

// Looks at the best prices of a side, and returns whether they have changed.
fn renew_side<B: OrderBook, A: Allocator>(
    known: &mut Vec<DepthLevel, A>,
    book: &B,
    locate: u16,
    side: Side,
    depth: usize,
) -> Result<bool, AllocError>
    ensures renewed { IfOk result (λ _. known.new.items ≡ levels depth (queue (B.orders book.now) locate side)) }
    ensures changed { IfOk result (λ changed. changed ≡ not (same_levels known.old.items known.new.items)) }
{
    let (mut last, mut changed, mut count) = (None, false, 0);
    for place in 0..depth {
        let Some(price) = book.next_price(locate, side, last) else {
            break;
        };
        let (shares, orders) = book.level_total(locate, side, price);
        let level = DepthLevel {
            price,
            shares,
            orders,
        };
        changed |= put_level(known, place, level)?;
        last = Some(price);
        count = place + 1;
    }
    changed |= count < known.len();
    known.truncate(count);
    Ok(changed)
}

// Puts a level at a place, or at the end. Returns whether another level or none was there.
fn put_level<A: Allocator>(
    levels: &mut Vec<DepthLevel, A>,
    place: usize,
    level: DepthLevel,
) -> Result<bool, AllocError>
    requires { place ≤ length levels.old.items }
    ensures put { IfOk result (λ _. levels.new.items ≡ with_level place level levels.old.items) }
    ensures other { IfOk result (λ is_other. is_other ≡ was_other place level levels.old.items) }
{
    match levels.get_mut(place) {
        Some(there) => {
            let is_other = *there != level;
            *there = level;
            Ok(is_other)
        }
        None => {
            levels.push(level)?;
            Ok(true)
        }
    }
}
