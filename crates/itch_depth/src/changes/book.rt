//! The market of a day, and the book of one stock in it.
ghost use Rattle.std.specs.Prelude.{◌≡◌, List, IfOk, None, Some};
ghost use Rattle.itch_market.specs.Content.{Content as AnyMarket, empty, laid};
ghost use Rattle.itch_market.specs.Effects.{effect};
ghost use Rattle.itch_market.specs.GoodMarkets.{IsGood};
ghost use Rattle.itch_market.specs.Reasons.{reason};
ghost use Rattle.itch_book.specs.Orders.{IsBook};
ghost use Rattle.itch_book.specs.declared.order.Order.{Order as AnyOrder};
ghost use Rattle.itch_depth.specs.Changes.{best_at, lines_of};
ghost use Rattle.itch_depth.specs.ChangedPrices.{AreSameElsewhere};
ghost use Rattle.itch_depth.specs.declared.changes.request.ChangesRequest.{ChangesRequest as AnyRequest};
ghost use Rattle.itch_depth.specs.Following.{FollowsOne, IsFollowing, PassesOne, Renews, WritesLines, found_by, wants};
ghost use Rattle.itch_depth.specs.Own.{concerns, may_concern};

use super::best::Best;
use super::changed_price::{ChangedPrice, changed_price};
use super::lines::{Change, write_change};
use super::request::{ChangesRequest, OneStock};
use crate::own::{is_located, may_concern};
use itch_book::{IndexedBook, OrderBook};
use itch_codec::{Message, StockDirectory};
use itch_commands::ToolFault;
use itch_frame::CountedWrite;
use itch_market::{Market, Refused};
use std::io::Error;

/// The reason why a message is not followed.
#[derive(Drop)]
pub enum Unfollowed {
    /// The market refuses it.
    Refused(Refused),
    /// The market took it, and its lines could not be written.
    Write(Error),
    /// The market took it, and memory ran out for the market of the stock.
    OutOfMemory,
}

/// The market of a day, and the best prices of one stock in it.
///
/// A market of the stock alone holds its price levels. So the book of the whole market needs none, and only the messages about the stock
/// take more time.
#[derive(Drop)]
pub struct Followed<B: OrderBook> {
    pub market: Market<B>,
    // The market after the messages about the locates that have the stock.
    own: Market<IndexedBook<B::Alloc>>,
    // The first of these locates.
    locate: Option<u16>,
    best: Best<B::Alloc>,
}

impl<B: OrderBook> Followed<B> {
    /// Creates the empty market, without allocating.
    pub fn new(alloc: B::Alloc) -> Followed<B>
        ensures market { result.market ≡ empty }
        ensures following { (request : AnyRequest) → IsFollowing request result.market result.own result.locate result.best }
    {
        Followed {
            market: Market::new(alloc),
            own: Market::new(alloc),
            locate: None,
            best: Best::new(alloc),
        }
    }

    /// Returns whether the message of a payload may be about the stock. Any entry of the directory may be.
    #[inline(always)]
    pub fn may_concern(&self, payload: &[u8]) -> bool
        ensures { result ≡ may_concern self.now.own payload.now }
    {
        may_concern(&self.own, payload)
    }

    /// Applies a message, and returns whether the best prices of the stock have changed. After a fault nothing more can be followed.
    #[inline(always)]
    pub fn pass(
        &mut self,
        request: ChangesRequest<'_>,
        message: &Message<'_>,
    ) -> Result<bool, Unfollowed>
        requires { IsFollowing request self.old.market self.old.own self.old.locate self.old.best }
        ensures passes { PassesOne request.entry message.now self.old.market result self.new.market }
        ensures following { IfOk result (λ _. IsFollowing request.entry self.new.market self.new.own self.new.locate self.new.best) }
    {
        self.market.recall_invariant();
        match self.market.apply(message) {
            Ok(()) => self.follow(request, message),
            Err(why) => Err(Unfollowed::Refused(Refused::Rule(why))),
        }
    }

    // Follows a message that the market took.
    fn follow(
        &mut self,
        request: ChangesRequest<'_>,
        message: &Message<'_>,
    ) -> Result<bool, Unfollowed>
        ensures follows { (before : AnyMarket) → IsFollowing request.entry before self.old.own self.old.locate self.old.best
            → IsGood before → laid before ≡ before → reason before message.now ≡ None → self.old.market ≡ laid (effect before message.now)
            → FollowsOne request.entry before self.old.market result self.new.own self.new.locate self.new.best }
        ensures market { self.new.market ≡ self.old.market }
    {
        if !self.concerns(request.stock, message) {
            return Ok(false);
        }
        let changed = changed_price(self.own.book(), message);
        if self.own.apply(message).is_err() {
            // The whole market took the message, so only memory can be lacking.
            return Err(Unfollowed::OutOfMemory);
        }
        if let Message::StockDirectory(_) = message {
            self.locate = self.own.locates().next();
            return self.renew(request.depth);
        }
        match changed {
            Some(changed) => self.renew_at(request.depth, changed),
            None => Ok(false),
        }
    }

    // Looks at the best prices of the stock, and returns whether they have changed.
    fn renew(&mut self, depth: usize) -> Result<bool, Unfollowed>
        ensures renewed { Renews depth self.old.own self.old.locate self.old.best result self.new.best }
        ensures kept { (self.new.own ≡ self.old.own) × (self.new.locate ≡ self.old.locate) }
        ensures market { self.new.market ≡ self.old.market }
    {
        let Some(locate) = self.locate else {
            return Ok(false);
        };
        match self.best.renew(self.own.book(), locate, depth) {
            Ok(changed) => Ok(changed),
            Err(_error) => Err(Unfollowed::OutOfMemory),
        }
    }

    // Does the same after a change of orders at this price and at worse ones of its side.
    fn renew_at(&mut self, depth: usize, changed: ChangedPrice) -> Result<bool, Unfollowed>
        ensures renewed { (orders : List AnyOrder) → IsBook orders → AreSameElsewhere changed orders self.old.own.orders → self.old.best ≡ best_at depth orders self.old.locate
            → Renews depth self.old.own self.old.locate self.old.best result self.new.best }
        ensures kept { (self.new.own ≡ self.old.own) × (self.new.locate ≡ self.old.locate) }
        ensures market { self.new.market ≡ self.old.market }
    {
        self.own.recall_invariant();
        let Some(locate) = self.locate else {
            return Ok(false);
        };
        if locate != changed.locate {
            return Ok(false);
        }
        match self.best.renew_at(self.own.book(), changed, depth) {
            Ok(is_other) => Ok(is_other),
            Err(_error) => Err(Unfollowed::OutOfMemory),
        }
    }

    // Returns whether a message is about a locate that has the stock, or that gets it.
    fn concerns(&self, stock: OneStock<'_>, message: &Message<'_>) -> bool
        ensures { result ≡ concerns (wants stock.entry) self.now.own message.now }
    {
        match message {
            Message::StockDirectory(x) => enters(stock, x),
            _ => is_located(&self.own, message),
        }
    }

    /// Writes the best prices of the stock after the message with this number, which has this time.
    pub fn write<W: CountedWrite>(
        &self,
        request: ChangesRequest<'_>,
        number: u64,
        time: u64,
        out: &mut W,
    ) -> Result<(), Unfollowed>
        requires { IsFollowing request self.now.market self.now.own self.now.locate self.now.best }
        ensures { WritesLines W.contents W.failures (lines_of request.entry number time self.now.market) out.old result out.new }
    {
        let Some(locate) = self.locate else {
            return Ok(());
        };
        let Some(security) = self.own.security(locate) else {
            return Ok(());
        };
        let stock = security.entry.stock;
        let change = Change {
            number,
            time,
            locate,
            stock: stock.text(),
            bids: self.best.bids(),
            asks: self.best.asks(),
        };
        match write_change(request.form, request.depth, &change, out) {
            Ok(()) => Ok(()),
            Err(ToolFault::Write(error)) => Err(Unfollowed::Write(error)),
            Err(_) => unreachable!(),
        }
    }

    /// Returns true if the directory has the stock, and otherwise its fault.
    pub fn found(&self, stock: OneStock<'_>) -> Result<bool, ToolFault>
        ensures { result ≡ found_by stock.entry self.now.locate }
    {
        match (self.locate, stock) {
            (Some(_), _) => Ok(true),
            (None, OneStock::Locate(_)) => Err(ToolFault::UnknownLocate),
            (None, OneStock::Named(_)) => Err(ToolFault::UnknownStock),
        }
    }
}

// Returns whether an entry of the directory has the stock.
fn enters(stock: OneStock<'_>, x: &StockDirectory) -> bool
    ensures { result ≡ wants stock.entry x.now.header.locate (Some x.now.entry.stock) }
{
    match stock {
        OneStock::Locate(locate) => x.header.locate == locate,
        OneStock::Named(name) => x.entry.stock.text() == name,
    }
}
