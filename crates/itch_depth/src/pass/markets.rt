//! The market of a day up to a time, and beside it that of some of its locates.
ghost use Rattle.std.specs.Prelude.{◌≡◌, None, OnOk, MatchResult};
ghost use Rattle.itch_day.specs.Limits.{is_late};
ghost use Rattle.itch_market.specs.Content.{Content as AnyMarket, empty, laid};
ghost use Rattle.itch_market.specs.Effects.{effect};
ghost use Rattle.itch_market.specs.GoodMarkets.{IsGood};
ghost use Rattle.itch_market.specs.Reasons.{reason};
ghost use Rattle.itch_depth.specs.Own.{IsApart, Keeps, PassesTimed, are_none, concerns, is_own, may_be_late};

use super::locates::OwnLocates;
use crate::own::{is_located, may_concern};
use itch_book::{IndexedBook, OrderBook};
use itch_codec::{CodecFault, Message, Stamp};
use itch_commands::Limit;
use itch_day::Sink;
use itch_market::{Market, Refused};

/// The reason why a message before a time is not taken.
#[derive(Drop)]
pub enum Untaken {
    /// It is at that time or later.
    Late,
    /// The market refuses it.
    Refused(Refused),
}

/// The market of a day up to a time, and beside it the market of some of its locates.
///
/// The latter holds its price levels. So the book of the whole market needs none, and only the messages about these locates take more time.
/// The time is examined here, since the reader would decode each message for it.
#[derive(Drop)]
pub struct OwnMarkets<'a, B: OrderBook> {
    pub market: Market<B>,
    pub own: Market<IndexedBook<B::Alloc>>,
    pub locates: OwnLocates<'a, B::Alloc>,
    pub until: Option<u64>,
}

impl<'a, B: OrderBook> OwnMarkets<'a, B> {
    /// Creates the empty markets, without allocating.
    pub fn new(alloc: B::Alloc, locates: OwnLocates<'a, B::Alloc>) -> OwnMarkets<'a, B>
        ensures market { result.market ≡ empty }
        ensures apart { IsApart result.locates result.market result.own }
        ensures locates { result.locates ≡ locates.entry }
    {
        OwnMarkets {
            market: Market::new(alloc),
            own: Market::new(alloc),
            locates,
            until: None,
        }
    }

    /// Prepares the whole market for look-ups, if no books are kept apart.
    pub fn settle(&mut self)
        ensures { self.new ≡ self.old }
    {
        if self.locates.are_none() {
            self.market.settle();
        }
    }

    // Applies a message, unless it is late.
    #[inline(always)]
    fn pass(&mut self, message: &Message<'_>) -> Result<(), Untaken>
        requires { IsApart self.old.locates self.old.market self.old.own }
        ensures passes { PassesTimed self.old.until message.now self.old.market result self.new.market }
        ensures apart { OnOk result (IsApart self.new.locates self.new.market self.new.own) }
        ensures kept { MatchResult result (λ _. (self.new.until ≡ self.old.until) × Keeps self.old.locates self.new.locates) (λ _. self.new ≡ self.old) }
    {
        let limit = Limit {
            after: None,
            until: self.until,
        };
        if limit.is_late(message) {
            return Err(Untaken::Late);
        }
        self.market.recall_invariant();
        match self.market.apply(message) {
            Ok(()) => {
                self.follow(message);
                Ok(())
            }
            Err(why) => Err(Untaken::Refused(Refused::Rule(why))),
        }
    }

    // Follows a message that the market took.
    fn follow(&mut self, message: &Message<'_>)
        ensures apart { (before : AnyMarket) → IsApart self.old.locates before self.old.own → IsGood before → laid before ≡ before
            → reason before message.now ≡ None → self.old.market ≡ laid (effect before message.now) → IsApart self.new.locates self.new.market self.new.own }
        ensures kept { (self.new.market ≡ self.old.market) × (self.new.until ≡ self.old.until) × Keeps self.old.locates self.new.locates }
    {
        if !self.concerns(message) {
            return;
        }
        if self.own.apply(message).is_ok() {
            return;
        }
        // The market took the message, so only memory can be lacking. From now on all books are looked at.
        self.locates = OwnLocates::none();
    }

    // Returns whether a message is about one of the locates, or makes a locate one of them.
    fn concerns(&self, message: &Message<'_>) -> bool
        ensures { result ≡ concerns (is_own self.now.locates) self.now.own message.now }
    {
        match message {
            Message::StockDirectory(x) => self.locates.have(x),
            _ => is_located(&self.own, message),
        }
    }
}

impl<'a, B: OrderBook> Sink for OwnMarkets<'a, B> {
    ghost use Rattle.std.specs.Prelude.{◌≡◌};
    ghost use Rattle.itch_day.specs.Limits.{IsNotLate};
    ghost use Rattle.itch_market.specs.Takings.{TakesMessage};
    ghost use Rattle.itch_depth.specs.Own.{IsApart, Keeps, before_time, Untakes};

    type Fault = Untaken;

    ghost is_ready = { λ s _. IsApart s.locates s.market s.own };

    ghost takes = { λ s number payload t. (t.until ≡ s.until) × Keeps s.locates t.locates × TakesMessage s.market number payload t.market
        × IsNotLate (before_time s.until) payload };

    ghost refuses = { λ s number payload why t. (t ≡ s) × Untakes s.until s.market number payload why × IsApart s.locates s.market s.own };

    #[inline(always)]
    fn take(
        &mut self,
        number: u64,
        payload: &[u8],
        message: &Result<Message<'_>, CodecFault>,
    ) -> Result<(), Untaken> {
        let _number = number;
        let _payload = payload;
        match message {
            Ok(decoded) => self.pass(decoded),
            Err(fault) => Err(Untaken::Refused(Refused::Codec(*fault))),
        }
    }

    #[inline(always)]
    fn take_payload(&mut self, number: u64, payload: &[u8]) -> bool {
        self.market.recall_invariant();
        if may_concern(&self.own, payload) {
            return false;
        }
        if may_be_late(self.until, payload) {
            return false;
        }
        self.market.take_payload(number, payload)
    }

    #[inline(always)]
    fn look_ahead(&mut self, blocks: &[u8]) -> u64 {
        self.market.look_ahead(blocks)
    }
}

// Returns whether the message of a payload may be at this time or later, if there is a time.
#[inline(always)]
fn may_be_late(until: Option<u64>, payload: &[u8]) -> bool
    ensures { result ≡ may_be_late until payload.now }
{
    let Some(until) = until else {
        return false;
    };
    match Stamp::of_payload(payload) {
        Some(stamp) => until <= stamp.value(),
        None => true,
    }
}
