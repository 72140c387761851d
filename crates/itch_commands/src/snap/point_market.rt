//! The market of a day that is read from point to point, and beside it that of some of its locates.
ghost use Rattle.std.specs.Prelude.{◌≡◌, ◌<◌, ◌^◌, ◌++◌, None, length, true};
ghost use Rattle.std.specs.Option.{option_copied};
ghost use Rattle.itch_codec.specs.Widths.{IsMessage};
ghost use Rattle.itch_market.specs.Content.{Content as AnyMarket, empty, laid};
ghost use Rattle.itch_market.specs.Effects.{effect};
ghost use Rattle.itch_market.specs.GoodMarkets.{IsGood};
ghost use Rattle.itch_market.specs.Partial.{only};
ghost use Rattle.itch_market.specs.Reasons.{reason};
ghost use Rattle.itch_market.specs.Wanted.{has};
ghost use Rattle.itch_snapshot.specs.Bytes.{canon, closing};
ghost use Rattle.itch_snapshot.specs.Cursor.{cut_to};
ghost use Rattle.itch_snapshot.specs.Snapshot.{snap as snapshot_list};
ghost use Rattle.itch_commands.specs.Outputs.{WritesOutput};
ghost use Rattle.itch_commands.specs.PointMarkets.{IsCutDown};

use crate::fault::ToolFault;
use crate::stock_names::StockNames;
use crate::writing::write_closed_of;
use itch_book::OrderBook;
use itch_codec::{CodecFault, Message, Seq};
use itch_day::Sink;
use itch_frame::CountedWrite;
use itch_market::{LocateSet, Market, Refused};
use std::alloc::{AllocError, Allocator};
use std::marker::Model;

/// The locates whose snapshots take the time of their own orders, however many others are live.
#[derive(Drop)]
pub enum Followed<'a, A: Allocator> {
    /// None in particular.
    Nothing,
    /// Those of a set.
    Locates(&'a LocateSet<A>),
    /// Those of the stocks with these names, which are separated by commas.
    Stocks(&'a str),
}

/// The market of a day, and beside it the market of the followed locates.
///
/// Only the latter is prepared for look-ups. So a snapshot of few locates takes the time of their orders, however many others are live.
#[derive(Drop)]
pub struct PointMarket<'a, B: OrderBook> {
    whole: Market<B>,
    // The market of the followed locates, if there are any.
    part: Market<B>,
    // It is `None` once memory has run out for the part.
    followed: Option<LocateSet<B::Alloc>>,
    // The stocks whose locates are followed as they come.
    stocks: Option<StockNames<'a, B::Alloc>>,
}

impl<'a, B: OrderBook> Model for PointMarket<'a, B> {
    ghost use Rattle.std.specs.Coded.{codes};
    ghost use Rattle.std.specs.FinMap as map;
    ghost use Rattle.itch_market.specs.Content.{Content};
    ghost use Rattle.itch_commands.specs.PointMarkets.{IsCutDown};

    ghost Value = { Content };

    ghost coded = { Prim.hlevel (codes, map.code) };

    ghost view = { λ s. s.whole };

    ghost invariant = { λ s. IsCutDown s.followed s.whole s.part };
}

impl<'a, B: OrderBook> PointMarket<'a, B> {
    /// Creates the empty market. If there is no memory for following these locates, it follows none.
    pub fn new(alloc: B::Alloc, followed: Followed<'a, B::Alloc>) -> PointMarket<'a, B>
        ensures { result ≡ empty }
    {
        let (followed, stocks) = match followed {
            Followed::Nothing => (None, None),
            Followed::Locates(set) => (copy_of(alloc, set).ok(), None),
            Followed::Stocks(names) => match StockNames::new(alloc, names) {
                Ok(stocks) => (Some(LocateSet::new(alloc)), Some(stocks)),
                Err(_) => (None, None),
            },
        };
        PointMarket {
            whole: Market::new(alloc),
            part: Market::new(alloc),
            followed,
            stocks,
        }
    }

    /// Returns the market of the day.
    pub fn whole(&self) -> &Market<B>
        ensures { result.now ≡ self.now }
    {
        &self.whole
    }

    /// Prepares the market for a snapshot of the followed locates, or of all locates if none are followed, so that it can be fast.
    pub fn settle(&mut self)
        ensures { self.new ≡ self.old }
    {
        if self.followed.is_some() {
            self.part.settle();
        } else {
            self.whole.settle();
        }
    }

    /// Writes the snapshot of the market, restricted to the locates of a set if there is one, and closed with this number.
    pub fn write<W: CountedWrite>(
        &self,
        set: Option<&LocateSet<B::Alloc>>,
        next: Seq,
        out: &mut W,
    ) -> Result<bool, ToolFault>
        requires { length (snapshot_list (cut_to set self.now)) < 10 ^ 19 }
        ensures { WritesOutput W.contents W.failures (canon (cut_to set.entry self.now) ++ closing next) true out.old result out.new }
    {
        self.whole.recall_invariant();
        if follows_all(&self.whole, self.followed.as_ref(), set) {
            write_closed_of(&self.part, set, next, out)
        } else {
            write_closed_of(&self.whole, set, next, out)
        }
    }
}

impl<'a, B: OrderBook> Sink for PointMarket<'a, B> {
    ghost use Rattle.itch_market.specs.Takings.{RefusesMessage, TakesMessage};

    type Fault = Refused;

    ghost is_ready = { λ _ _. Unit {0} };

    ghost takes = { TakesMessage };

    ghost refuses = { RefusesMessage };

    #[inline(always)]
    fn take(
        &mut self,
        number: u64,
        payload: &[u8],
        message: &Result<Message<'_>, CodecFault>,
    ) -> Result<(), Refused> {
        let Ok(decoded) = message else {
            return self.whole.take(number, payload, message);
        };
        self.whole.recall_invariant();
        admit(
            &self.whole,
            &mut self.followed,
            self.stocks.as_ref(),
            decoded,
        );
        self.whole.take(number, payload, message)?;
        follow(&mut self.part, &mut self.followed, decoded);
        Ok(())
    }

    #[inline(always)]
    fn look_ahead(&mut self, blocks: &[u8]) -> u64 {
        self.whole.look_ahead(blocks)
    }
}

// Returns a set with the same locates.
fn copy_of<A: Allocator + Copy>(alloc: A, set: &LocateSet<A>) -> Result<LocateSet<A>, AllocError> {
    let mut copy = LocateSet::new(alloc);
    for locate in 0..=u16::MAX {
        if set.contains(locate) {
            copy.insert(locate)?;
        }
    }
    Ok(copy)
}

// Returns whether a set is given, and each of its locates that is in the directory is followed.
fn follows_all<B: OrderBook>(
    whole: &Market<B>,
    followed: Option<&LocateSet<B::Alloc>>,
    set: Option<&LocateSet<B::Alloc>>,
) -> bool
    ensures { (part : AnyMarket) → IsGood whole.now → IsCutDown (option_copied followed.entry) whole.now part → result ≡ true
        → cut_to set.entry part ≡ cut_to set.entry whole.now }
{
    let (Some(followed), Some(set)) = (followed, set) else {
        return false;
    };
    for locate in whole.locates() {
        if set.contains(locate) && !followed.contains(locate) {
            return false;
        }
    }
    true
}

// Follows the locate of a Stock Directory message from now on if it is of one of the stocks.
#[inline(always)]
fn admit<B: OrderBook>(
    whole: &Market<B>,
    followed: &mut Option<LocateSet<B::Alloc>>,
    stocks: Option<&StockNames<'_, B::Alloc>>,
    message: &Message<'_>,
)
    ensures { (part : AnyMarket) → IsGood whole.now → IsCutDown followed.old whole.now part → IsCutDown followed.new whole.now part }
{
    let (Some(stocks), Message::StockDirectory(directory)) = (stocks, message) else {
        return;
    };
    let Some(set) = followed else {
        return;
    };
    let stock = directory.entry.stock;
    if stocks.have(stock.text()) && !insert_new(whole, set, directory.header.locate) {
        *followed = None;
    }
}

// Inserts a locate into the set of those that are followed. Returns false if that is too late, since the market has the locate already, or if
// memory runs out.
fn insert_new<B: OrderBook>(whole: &Market<B>, set: &mut LocateSet<B::Alloc>, locate: u16) -> bool
    ensures { IsGood whole.now → result ≡ true → only (has set.new) whole.now ≡ only (has set.old) whole.now }
{
    set.contains(locate) || (whole.security(locate).is_none() && set.insert(locate).is_ok())
}

// Follows a message that the whole market took, if it is about a followed locate. If memory runs out for it, none is followed any longer.
#[inline(always)]
fn follow<B: OrderBook>(
    part: &mut Market<B>,
    followed: &mut Option<LocateSet<B::Alloc>>,
    message: &Message<'_>,
)
    ensures { (before : AnyMarket) → IsGood before → laid before ≡ before → IsMessage message.now → reason before message.now ≡ None
        → IsCutDown followed.old before part.old → IsCutDown followed.new (laid (effect before message.now)) part.new }
{
    let Some(set) = followed else {
        return;
    };
    if !set.skips(message) && part.apply(message).is_err() {
        *followed = None;
    }
}
