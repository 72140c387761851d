//! The choice of messages.
ghost use Rattle.std.specs.Prelude.{◌≡◌, IsSome, MatchResult, option_map};
ghost use Rattle.std.specs.Option.{option_copied};
ghost use Rattle.itch_commands.specs.Choices.{everything, chosen_by, is_located, is_typed, is_about, is_chosen, renamed, chosen_after, chosen_listing, chosen_past_cursor};
ghost use Rattle.itch_commands.specs.Cuts.{Skips, has_stock, is_in, is_kept, is_of_stocks, stock_of};
ghost use Rattle.itch_commands.specs.Lookup.{are_found, is_sought, lookup};
ghost use Rattle.itch_commands.specs.Stocks.{names_of};

use crate::cut::order_at;
use crate::fault::ToolFault;
use crate::filters::Filters;
use crate::lookup::StockLookup;
use crate::start::Start;
use itch_codec::Message;
use itch_day::DayCursor;
use itch_market::LocateSet;
use std::alloc::Allocator;
use std::marker::Model;

/// The criteria for choosing messages: a message is shown if it meets all that are given, from the first one of a range on. An order is
/// followed through its replacements, and stocks are looked up in the Stock Directory messages up to the message.
#[derive(Drop)]
pub struct Choice<'a, A: Allocator> {
    // The beginning of the range in the messages to come.
    start: Start,
    only: Option<&'a LocateSet<A>>,
    stocks: Option<StockLookup<'a, A>>,
    types: Option<&'a str>,
    // The present reference number of the order.
    reference: Option<u64>,
}

impl<'a, A: Allocator> Model for Choice<'a, A> {
    ghost use Rattle.std.specs.Prelude.{option_map};
    ghost use Rattle.std.specs.Option.{option_copied};
    ghost use Rattle.itch_commands.specs.Choices.{Chosen};

    ghost Value = { Chosen };

    ghost view = { λ c. record { start = c.start; only = option_copied c.only; stocks = c.stocks; types = option_map (λ types. types.now) c.types; reference = c.reference } };
}

impl<'a, A: Allocator> Choice<'a, A> {
    /// Chooses every message.
    pub fn everything() -> Self
        ensures { result ≡ everything }
    {
        Choice {
            start: Start::first(),
            only: None,
            stocks: None,
            types: None,
            reference: None,
        }
    }

    /// Creates the choice for these filters, with the set of their list of locates. Only the names of stocks need memory.
    ///
    /// # Faults
    ///
    /// `OutOfMemory` if memory runs out.
    pub fn new(
        alloc: A,
        only: Option<&'a LocateSet<A>>,
        filters: Filters<'a>,
    ) -> Result<Self, ToolFault>
    where
        A: Copy,
        ensures { MatchResult result (λ choice. choice ≡ chosen_by (option_copied only.entry) filters.entry) (λ fault. (fault ≡ ToolFault.OutOfMemory) × IsSome filters.entry.stocks) }
    {
        Ok(Choice {
            start: filters.start,
            only,
            stocks: look_for(alloc, filters.stocks)?,
            types: filters.types,
            reference: filters.reference,
        })
    }

    /// Returns whether a message is shown.
    pub fn is_chosen(&self, message: &Message<'_>) -> bool
        ensures { result ≡ is_chosen self.now message.now }
    {
        self.start.is_begun(message.time())
            && is_located(self.only, message)
            && is_sought(self.stocks.as_ref(), message)
            && is_typed(self.types, message)
            && is_about(self.reference, message)
    }

    /// Returns whether `cut` keeps a message: a message about no stock counts as one of the chosen stocks.
    pub fn keeps(&self, message: &Message<'_>) -> bool
        ensures { result ≡ is_kept self.now message.now }
    {
        self.start.is_begun(message.time())
            && self.is_of_stocks(message)
            && is_typed(self.types, message)
            && is_about(self.reference, message)
    }

    // Returns whether a message is about one of the chosen stocks.
    fn is_of_stocks(&self, message: &Message<'_>) -> bool
        ensures { result ≡ is_of_stocks self.now message.now (stock_of message.now) }
    {
        match stock_of(message) {
            None => true,
            Some(_) => is_located(self.only, message) && is_sought(self.stocks.as_ref(), message),
        }
    }

    /// Passes the message of a payload and returns true, if its first bytes show that it is not kept. Otherwise it returns false, and
    /// nothing changes.
    #[inline(always)]
    pub fn skip(&mut self, payload: &[u8]) -> bool
        ensures { Skips self.old payload.now result self.new }
    {
        if self.start.since.is_some() || self.reference.is_some() {
            return false;
        }
        let Some(locate) = order_at(payload) else {
            return false;
        };
        if self.start.before == 0
            && is_in(self.only, locate)
            && has_stock(self.stocks.as_ref(), locate)
        {
            return false;
        }
        self.start = self.start.after(None);
        true
    }

    /// Passes a message. After it a range may begin, the order that is followed may have another reference number, and a locate another
    /// stock.
    pub fn follow(&mut self, message: &Message<'_>)
        ensures { self.new ≡ chosen_after self.old message.now }
    {
        self.start = self.start.after(message.time());
        if let Some(stocks) = &mut self.stocks {
            stocks.pass(message);
        }
        if let Some(reference) = self.reference {
            self.reference = Some(renamed(message, reference));
        }
    }

    /// Passes the messages before a cursor, all of which are before the range. Their Stock Directory messages are passed by [`Choice::list`], and no
    /// order is followed through them.
    pub fn pass_cursor(&mut self, cursor: DayCursor)
        ensures { self.new ≡ chosen_past_cursor self.old cursor }
    {
        self.start = self.start.past(cursor);
    }

    /// Looks up stocks in a message before the range, which [`Choice::pass_cursor`] has passed.
    pub fn list(&mut self, message: &Message<'_>)
        ensures { self.new ≡ chosen_listing self.old message.now }
    {
        if let Some(lookup) = &mut self.stocks {
            lookup.pass(message);
        }
    }

    /// Returns whether each of the stocks searched for has come in a Stock Directory message.
    pub fn has_found_all(&self) -> bool
        ensures { result ≡ are_found self.now.stocks }
    {
        match &self.stocks {
            Some(stocks) => stocks.are_found(),
            None => true,
        }
    }
}

// Returns a search for the stocks with these names, before any message.
fn look_for<'a, A: Allocator + Copy>(
    alloc: A,
    names: Option<&'a str>,
) -> Result<Option<StockLookup<'a, A>>, ToolFault>
    ensures { MatchResult result (λ stocks. stocks ≡ option_map (λ names. lookup (names_of names.now)) names.entry) (λ fault. (fault ≡ ToolFault.OutOfMemory) × IsSome names.entry) }
{
    match names {
        Some(names) => Ok(Some(StockLookup::new(alloc, names)?)),
        None => Ok(None),
    }
}

// Returns whether a message has a locate of the set, if there is one.
fn is_located<A: Allocator>(only: Option<&LocateSet<A>>, message: &Message<'_>) -> bool
    ensures { result ≡ is_located (option_copied only.entry) message.now }
{
    match only {
        None => true,
        Some(set) => match message.header() {
            Some(header) => set.contains(header.locate),
            None => false,
        },
    }
}

// Returns whether a message is about one of the stocks searched for, if there are any.
fn is_sought<A: Allocator>(stocks: Option<&StockLookup<'_, A>>, message: &Message<'_>) -> bool
    ensures { result ≡ is_sought (option_copied stocks.entry) message.now }
{
    match stocks {
        Some(stocks) => stocks.is_about_one(message),
        None => true,
    }
}

// Returns whether a message has one of these types, if any are given.
fn is_typed(types: Option<&str>, message: &Message<'_>) -> bool
    ensures { result ≡ is_typed (option_map (λ types. types.now) types.entry) message.now }
{
    match types {
        None => true,
        Some(types) => types.as_bytes().contains(&message.kind()),
    }
}

// Returns whether a message is about the order with this reference number, if one is given.
fn is_about(reference: Option<u64>, message: &Message<'_>) -> bool
    ensures { result ≡ is_about reference message.now }
{
    match reference {
        None => true,
        Some(_) => message.reference() == reference,
    }
}

// Returns the reference number of an order after a message.
fn renamed(message: &Message<'_>, reference: u64) -> u64
    ensures { result ≡ renamed message.now reference }
{
    match message {
        Message::OrderReplace(replace) if replace.original == reference => replace.reference,
        _ => reference,
    }
}

// Returns the locate of the stock that a message is about, if it is about one; unknown for a message without a header.
fn stock_of(message: &Message<'_>) -> Option<u16>
    ensures { result ≡ stock_of message.now }
{
    match message {
        Message::SystemEvent(_) => None,
        _ => match message.header() {
            Some(header) => Some(header.locate),
            None => None,
        },
    }
}

// Returns whether a locate is in the set, if there is one.
#[inline(always)]
fn is_in<A: Allocator>(only: Option<&LocateSet<A>>, locate: u16) -> bool
    ensures { result ≡ is_in (option_copied only.entry) locate }
{
    match only {
        None => true,
        Some(set) => set.contains(locate),
    }
}

// Returns whether a locate has one of the stocks searched for, if there are any.
#[inline(always)]
fn has_stock<A: Allocator>(stocks: Option<&StockLookup<'_, A>>, locate: u16) -> bool
    ensures { result ≡ has_stock (option_copied stocks.entry) locate }
{
    match stocks {
        None => true,
        Some(stocks) => stocks.has(locate),
    }
}
