//! The queues of the price levels of both sides.
ghost use Rattle.std.specs.Prelude.{◌≡◌, ℕ, [], Some, None, cond, OnErr, IfOk, Ok, ◌<◌};
ghost use Rattle.std.specs.BTreeMap.{is_at};
ghost use Rattle.itch_codec.specs.declared.orders.Side.{Side};
ghost use Rattle.itch_book.specs.Links.{at_key};
ghost use Rattle.itch_book.specs.Queued.{Opens, keys_at};
ghost use Rattle.itch_book.specs.Indexed.{queue_of_side, is_there, place_cmp, IsNextOr, AreApart};
ghost use Rattle.itch_book.specs.SideLevels.{queue_on, levels_on, IsSideLevels};

use crate::level_lines::{Level, line_of};
use crate::queues::Queues;
use crate::side_levels::{SideLevels, cut_on, next_on, no_levels, put_on, queue_on};
use itch_codec::Side;
use std::alloc::{AllocError, Allocator, Global};
use std::marker::Model;

/// The queue of each price level.
#[derive(Drop)]
pub(crate) struct Prices<A: Allocator = Global> {
    bids: SideLevels<A>,
    asks: SideLevels<A>,
}

impl<A: Allocator> Model for Prices<A> {
    ghost use Rattle.itch_codec.specs.declared.orders.Side.TheVariants.{Buy, Sell};
    ghost use Rattle.itch_book.specs.SideLevels.{Priced, levels_on, IsSideLevels};

    ghost Value = { Priced };

    ghost view = { λ p. record { bids = levels_on p.bids; asks = levels_on p.asks } };

    ghost invariant = { λ p. IsSideLevels Buy p.bids × IsSideLevels Sell p.asks };
}

impl<A: Allocator> Prices<A> {
    /// Returns the levels in the line of a locate and side.
    pub(crate) fn line(&self, locate: u16, side: Side) -> &[Level] {
        match side {
            Side::Buy => line_of(&self.bids.lines, locate),
            Side::Sell => line_of(&self.asks.lines, locate),
        }
    }
}

impl<A: Allocator + Copy> Prices<A> {
    /// Returns a collection without price levels.
    pub(crate) fn new(alloc: A) -> Self
        ensures bids { result.bids ≡ [] }
        ensures asks { result.asks ≡ [] }
    {
        Prices {
            bids: no_levels(Side::Buy, alloc),
            asks: no_levels(Side::Sell, alloc),
        }
    }

    /// Returns the queue at a price of a side.
    pub(crate) fn queue_at(&self, locate: u16, side: Side, price: u32) -> Option<usize>
        ensures { result ≡ queue_of_side side self.now.bids self.now.asks locate price }
    {
        match side {
            Side::Buy => queue_on(&self.bids, Side::Buy, locate, price),
            Side::Sell => queue_on(&self.asks, Side::Sell, locate, price),
        }
    }

    /// Returns the best price of a side, or the best one worse than the last, and its queue.
    pub(crate) fn next_level(
        &self,
        locate: u16,
        side: Side,
        last: Option<u32>,
    ) -> Option<(u32, usize)>
        ensures { IsNextOr (queue_of_side side self.now.bids self.now.asks locate) side last result }
    {
        match side {
            Side::Buy => next_on(&self.bids, Side::Buy, locate, last),
            Side::Sell => next_on(&self.asks, Side::Sell, locate, last),
        }
    }

    /// Returns the queue at a price of a side, and opens it if there is none. If an allocation fails, nothing changes.
    pub(crate) fn level(
        &mut self,
        queues: &mut Queues<A>,
        locate: u16,
        side: Side,
        price: u32,
    ) -> Result<usize, AllocError>
        requires { 0 < queues.old.queue_room }
        ensures known { (q : ℕ) → queue_of_side side self.old.bids self.old.asks locate price ≡ Some q → (result ≡ Ok q) × (self.new.bids ≡ self.old.bids) × (self.new.asks ≡ self.old.asks) × (queues.new ≡ queues.old) }
        ensures opened { queue_of_side side self.old.bids self.old.asks locate price ≡ None → IfOk result (λ q. Opens q queues.old queues.new) }
        ensures placed { queue_of_side side self.old.bids self.old.asks locate price ≡ None → IfOk result (λ q. (s : Side) → (l p : ℕ) → queue_of_side s self.new.bids self.new.asks l p ≡ cond (is_there side locate price s l p) (Some q) (queue_of_side s self.old.bids self.old.asks l p)) }
        ensures bids { AreApart self.new.bids }
        ensures asks { AreApart self.new.asks }
        ensures kept { OnErr result ((self.new.bids ≡ self.old.bids) × (self.new.asks ≡ self.old.asks) × (queues.new ≡ queues.old)) }
    {
        match side {
            Side::Buy => level_on(&mut self.bids, queues, Side::Buy, locate, price),
            Side::Sell => level_on(&mut self.asks, queues, Side::Sell, locate, price),
        }
    }

    /// Removes an empty queue from a price of a side, and closes it.
    pub(crate) fn close_level(
        &mut self,
        queues: &mut Queues<A>,
        queue: usize,
        locate: u16,
        side: Side,
        price: u32,
    )
        requires { keys_at queues.old queue ≡ Some [] }
        ensures keys { (q : ℕ) → keys_at queues.new q ≡ at_key queue None (keys_at queues.old) q }
        ensures orders { queues.new.orders ≡ queues.old.orders }
        ensures placed { (s : Side) → (l p : ℕ) → queue_of_side s self.new.bids self.new.asks l p ≡ cond (is_there side locate price s l p) None (queue_of_side s self.old.bids self.old.asks l p) }
        ensures bids { AreApart self.new.bids }
        ensures asks { AreApart self.new.asks }
    {
        queues.close(queue);
        match side {
            Side::Buy => cut_on(&mut self.bids, Side::Buy, locate, price),
            Side::Sell => cut_on(&mut self.asks, Side::Sell, locate, price),
        }
    }
}

// Returns the queue at a place, and opens it if there is none. If an allocation fails, nothing changes.
fn level_on<A: Allocator + Copy>(
    side_levels: &mut SideLevels<A>,
    queues: &mut Queues<A>,
    side: Side,
    locate: u16,
    price: u32,
) -> Result<usize, AllocError>
    requires side_levels { IsSideLevels side side_levels.old }
    requires room { 0 < queues.old.queue_room }
    ensures side_levels { IsSideLevels side side_levels.new }
    ensures known { (q : ℕ) → queue_on side_levels.old locate price ≡ Some q → (result ≡ Ok q) × (levels_on side_levels.new ≡ levels_on side_levels.old) × (queues.new ≡ queues.old) }
    ensures opened { queue_on side_levels.old locate price ≡ None → IfOk result (λ q. Opens q queues.old queues.new) }
    ensures placed { queue_on side_levels.old locate price ≡ None → IfOk result (λ q. (l p : ℕ) → queue_on side_levels.new l p ≡ cond (is_at (place_cmp (locate, price)) (l, p)) (Some q) (queue_on side_levels.old l p)) }
    ensures kept { OnErr result ((levels_on side_levels.new ≡ levels_on side_levels.old) × (queues.new ≡ queues.old)) }
{
    if let Some(queue) = queue_on(side_levels, side, locate, price) {
        return Ok(queue);
    }
    let queue = queues.next_queue();
    put_on(side_levels, side, locate, Level { price, queue })?;
    queues.open();
    Ok(queue)
}
