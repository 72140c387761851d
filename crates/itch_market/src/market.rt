//! The market of a feed.
ghost use Rattle.std.specs.Prelude.{◌≡◌, IfSome, IfNone, IsTrue, OnOk, OnErr, IsOkUnless};
ghost use Rattle.std.specs.Option.{option_copied};
ghost use Rattle.std.specs.FinMap as map;
ghost use Rattle.itch_book.specs.Orders as book;
ghost use Rattle.itch_market.specs.Content.{empty, laid};
ghost use Rattle.itch_market.specs.Reasons.{reason};
ghost use Rattle.itch_market.specs.Effects.{effect, takes_memory};
ghost use Rattle.itch_market.specs.GoodMarkets.{IsGood};

mod actions;
mod at_hand;
mod plain;
mod rules;

use crate::ahead::{MOST_ORDERS, note_orders};
use crate::locates::Locates;
use crate::refusal::Refusal;
use crate::securities::Securities;
use crate::security::Security;
use itch_book::{Order, OrderBook};
use itch_codec::{Message, Side};
use std::marker::Model;

/// The market of a feed: the last event, the directory with each security's trading states, halts and positions, and the live
/// orders.
#[derive(Drop)]
pub struct Market<B: OrderBook> {
    event: Option<u8>,
    securities: Securities<B::Alloc>,
    book: B,
}

impl<B: OrderBook> Model for Market<B> {
    ghost use Rattle.std.specs.FinMap as map;
    ghost use Rattle.itch_market.specs.Content.{Content};
    ghost use Rattle.itch_market.specs.GoodMarkets.{IsGood};
    ghost use Rattle.std.specs.Coded.{codes};

    ghost Value = { Content };

    ghost coded = { Prim.hlevel (codes, map.code) };

    ghost view = { λ m. record { event = m.event; securities = m.securities; orders = B.orders m.book } };

    ghost invariant = { λ m. IsGood (record { event = m.event; securities = m.securities; orders = B.orders m.book }) };
}

impl<B: OrderBook> Market<B> {
    /// Creates the market before any message, without allocating.
    pub fn new(alloc: B::Alloc) -> Self
        ensures { result ≡ empty }
    {
        Market {
            event: None,
            securities: Securities::new(alloc),
            book: B::new(alloc),
        }
    }

    /// Returns the phase of the day, which is the code of the last System Event message, if there was one.
    pub fn phase(&self) -> Option<u8>
        ensures { result ≡ self.now.event }
    {
        self.event
    }

    /// Returns the data of the security at a locate, if the locate is in the directory.
    pub fn security(&self, locate: u16) -> Option<&Security<B::Alloc>>
        ensures { option_copied result ≡ map.get self.now.securities locate }
    {
        self.securities.get(locate)
    }

    /// Returns the locates of the directory, in ascending order.
    pub fn locates(&self) -> Locates<'_, B::Alloc>
        ensures { result ≡ map.keys self.now.securities }
    {
        self.securities.locates()
    }

    /// Returns the order of a locate and side with the highest priority, if there is one.
    pub fn best(&self, locate: u16, side: Side) -> Option<&Order>
        ensures { option_copied result ≡ book.first (book.queue self.now.orders locate side) }
    {
        self.book.front(locate, side)
    }

    /// Applies a message, or returns the reason why it is refused.
    ///
    /// A refused message does not change the market. [`Refusal::OutOfMemory`] is returned only for a message that no rule refuses and that
    /// adds an order, a directory entry, a halt's market code or a market participant, and only if an allocation failed.
    #[inline(always)]
    pub fn apply(&mut self, message: &Message<'_>) -> Result<(), Refusal>
        ensures refused { IfSome (reason self.old message.now) (λ why. result ≡ Err why) }
        ensures accepted { IfNone (reason self.old message.now) (IsOkUnless result Refusal.OutOfMemory) }
        ensures ok { OnOk result (self.new ≡ laid (effect self.old message.now)) }
        ensures err { OnErr result (self.new ≡ self.old) }
        ensures memory { result ≡ Err Refusal.OutOfMemory → IsTrue (takes_memory self.old message.now) }
    {
        let place = self.check(message)?;
        self.act(message, place)?;
        Ok(())
    }

    /// Prepares the market's book for look-ups, so that they can be fast. Nothing changes. Where the book needs memory for this and is refused
    /// it, look-ups are slower.
    pub fn settle(&mut self)
        ensures { self.new ≡ self.old }
    {
        self.book.settle();
    }

    /// Announces the blocks of the next messages to the market's book, so that it can read their orders ahead, and returns the number of
    /// messages that were looked at. Nothing changes, and no memory is allocated.
    pub fn look_ahead(&mut self, blocks: &[u8]) -> u64
        ensures { self.new ≡ self.old }
    {
        let mut references = [0; MOST_ORDERS];
        let (orders, messages) = note_orders(blocks, &mut references);
        self.book.look_ahead(&references[..orders.min(MOST_ORDERS)]);
        messages
    }

    /// Returns the live orders.
    pub fn book(&self) -> &B
        ensures orders { B.orders result.now ≡ self.now.orders }
        ensures good { IsGood self.now }
        ensures in_order { laid self.now ≡ self.now }
    {
        &self.book
    }

    /// Does nothing at run time. It states for a proof that the market is good, and that its orders are in snapshot order.
    pub fn recall_invariant(&self)
        ensures good { IsGood self.now }
        ensures in_order { laid self.now ≡ self.now }
    {
        let _book = &self.book;
    }
}
