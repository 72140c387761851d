//! Sets of locates.
ghost use Rattle.std.specs.Prelude.{◌≡◌, ◌==◌, ◌||◌, ℕ, true, false, OnOk, OnErr};
ghost use Rattle.itch_market.specs.Wanted.{has};
ghost use Rattle.itch_market.specs.Partial.{skips};

use itch_codec::Message;
use std::alloc::{AllocError, Allocator};
use std::collections::BTreeSet;
use std::marker::Model;

/// A set of locates: all of them, or those that were inserted.
#[derive(Drop)]
pub struct LocateSet<A: Allocator> {
    all: bool,
    listed: BTreeSet<u16, A>,
}

impl<A: Allocator> Model for LocateSet<A> {
    ghost use Rattle.itch_market.specs.Wanted.{Wanted};

    ghost Value = { Wanted };

    ghost view = { λ s. record { all = s.all; listed = s.listed.keys } };
}

impl<A: Allocator> LocateSet<A> {
    /// Creates the empty set, without allocating.
    pub fn new(alloc: A) -> Self
        ensures { (locate : ℕ) → has result locate ≡ false }
    {
        LocateSet {
            all: false,
            listed: BTreeSet::new(alloc),
        }
    }

    /// Creates the set of all locates, without allocating.
    pub fn all(alloc: A) -> Self
        ensures { (locate : ℕ) → has result locate ≡ true }
    {
        LocateSet {
            all: true,
            listed: BTreeSet::new(alloc),
        }
    }

    /// Inserts a locate. Only a locate that the set does not contain may need an allocation; if that fails, the set does not change.
    pub fn insert(&mut self, locate: u16) -> Result<(), AllocError>
    where
        A: Clone,
        ensures ok { OnOk result ((other : ℕ) → has self.new other ≡ (other == locate || has self.old other)) }
        ensures err { OnErr result (self.new ≡ self.old) }
        ensures memory { OnErr result (has self.old locate ≡ false) }
    {
        if self.all {
            return Ok(());
        }
        let _is_new = self.listed.insert(locate)?;
        Ok(())
    }

    /// Returns whether the set contains a locate.
    pub fn contains(&self, locate: u16) -> bool
        ensures { result ≡ has self.now locate }
    {
        self.all || self.listed.contains(&locate)
    }

    /// Returns whether a message is about a security or an order at a locate that is not in the set. System events and messages that do not
    /// change the market are never skipped.
    pub fn skips(&self, message: &Message<'_>) -> bool
        ensures { result ≡ skips (has self.now) message.now }
    {
        let locate = match message {
            Message::StockDirectory(x) => x.header.locate,
            Message::TradingAction(x) => x.header.locate,
            Message::RegSho(x) => x.header.locate,
            Message::Halt(x) => x.header.locate,
            Message::Position(x) => x.header.locate,
            Message::AddOrder(x) => x.header.locate,
            Message::AttributedAddOrder(x) => x.order.header.locate,
            Message::OrderExecuted(x) => x.header.locate,
            Message::OrderExecutedWithPrice(x) => x.execution.header.locate,
            Message::OrderCancel(x) => x.header.locate,
            Message::OrderDelete(x) => x.header.locate,
            Message::OrderReplace(x) => x.header.locate,
            Message::SystemEvent(_)
            | Message::Trade(_)
            | Message::CrossTrade(_)
            | Message::BrokenTrade(_)
            | Message::End { .. }
            | Message::Other(_) => return false,
        };
        !self.contains(locate)
    }
}
