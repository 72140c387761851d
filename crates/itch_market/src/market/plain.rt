//! The plainest message that changes the market as another one does.
ghost use Rattle.std.specs.Prelude.{◌≡◌};
ghost use Rattle.std.specs.FinMap as map;
ghost use Rattle.itch_book.specs.Orders as book;
ghost use Rattle.itch_codec.specs.declared.message.Message.TheVariants as is;
ghost use Rattle.itch_market.specs.Effects.{action_of, position_of};
ghost use Rattle.itch_market.specs.Plain.{plain, plain_header, nothing, plain_take, same_entry, is_action, is_number, is_text, has_entry, has_action, has_sho, has_halt, has_position};

use super::Market;
use crate::security::Action;
use itch_book::OrderBook;
use itch_codec::{
    AddOrder, AttributedAddOrder, BrokenTrade, Directory, Header, Message, OperationalHalt,
    OrderCancel, OrderDelete, OrderReplace, ParticipantPosition, RegSho, Stamp, StockDirectory,
    SystemEvent, TradingAction,
};

impl<B: OrderBook> Market<B> {
    /// Returns the plainest message that changes the market as this one does, if no rule refuses it.
    ///
    /// Its tracking number and timestamp are 0. All messages that change nothing have the same Broken Trade, and an execution or a cancel
    /// becomes a delete if it takes all shares, and otherwise a cancel. `laws::plain_acts_alike` states that it has the same effect: so if
    /// two messages have the same plainest message, they change two markets that are the same in the same way. It looks up at most one order
    /// or security.
    pub fn plain(&self, message: &Message<'_>) -> Message<'static>
        ensures { result ≡ plain self.now message.now }
    {
        match *message {
            Message::SystemEvent(x) => self.plain_event(x),
            Message::StockDirectory(x) => self.plain_entry(x),
            Message::TradingAction(x) => self.plain_action(x),
            Message::RegSho(x) => self.plain_sho(x),
            Message::Halt(x) => self.plain_halt(x),
            Message::Position(x) => self.plain_position(x),
            Message::AddOrder(x) => plain_order(x),
            Message::AttributedAddOrder(x) => plain_attributed_order(x),
            Message::OrderExecuted(x) => self.plain_take(x.header.locate, x.reference, x.shares),
            Message::OrderExecutedWithPrice(x) => self.plain_take(
                x.execution.header.locate,
                x.execution.reference,
                x.execution.shares,
            ),
            Message::OrderCancel(x) => self.plain_take(x.header.locate, x.reference, x.shares),
            Message::OrderDelete(x) => plain_delete(x.header.locate, x.reference),
            Message::OrderReplace(x) => plain_replacement(x),
            Message::Trade(_)
            | Message::CrossTrade(_)
            | Message::BrokenTrade(_)
            | Message::End { .. }
            | Message::Other(_) => nothing(),
        }
    }

    fn plain_event(&self, x: SystemEvent) -> Message<'static>
        ensures { result ≡ plain self.now (is.SystemEvent x) }
    {
        if is_number(self.event, x.code) {
            return nothing();
        }
        Message::SystemEvent(SystemEvent {
            header: plain_header(0),
            code: x.code,
        })
    }

    fn plain_entry(&self, x: StockDirectory) -> Message<'static>
        ensures { result ≡ plain self.now (is.StockDirectory x) }
    {
        if self.has_entry(&x) {
            return nothing();
        }
        Message::StockDirectory(StockDirectory {
            header: plain_header(x.header.locate),
            ..x
        })
    }

    fn plain_action(&self, x: TradingAction) -> Message<'static>
        ensures { result ≡ plain self.now (is.TradingAction x) }
    {
        if self.has_action(&x) {
            return nothing();
        }
        Message::TradingAction(TradingAction {
            header: plain_header(x.header.locate),
            reserved: 0,
            ..x
        })
    }

    fn plain_sho(&self, x: RegSho) -> Message<'static>
        ensures { result ≡ plain self.now (is.RegSho x) }
    {
        if self.has_sho(&x) {
            return nothing();
        }
        Message::RegSho(RegSho {
            header: plain_header(x.header.locate),
            ..x
        })
    }

    fn plain_halt(&self, x: OperationalHalt) -> Message<'static>
        ensures { result ≡ plain self.now (is.Halt x) }
    {
        if self.has_halt(&x) {
            return nothing();
        }
        Message::Halt(OperationalHalt {
            header: plain_header(x.header.locate),
            ..x
        })
    }

    fn plain_position(&self, x: ParticipantPosition) -> Message<'static>
        ensures { result ≡ plain self.now (is.Position x) }
    {
        if self.has_position(&x) {
            return nothing();
        }
        Message::Position(ParticipantPosition {
            header: plain_header(x.header.locate),
            ..x
        })
    }

    // Returns whether the security of the locate already has this directory entry.
    fn has_entry(&self, x: &StockDirectory) -> bool
        ensures { result ≡ has_entry (map.get self.now.securities x.now.header.locate) x.now.entry }
    {
        match self.security(x.header.locate) {
            Some(security) => same_entry(&security.entry, &x.entry),
            None => false,
        }
    }

    fn has_action(&self, x: &TradingAction) -> bool
        ensures { result ≡ has_action (map.get self.now.securities x.now.header.locate) (action_of x.now) }
    {
        match self.security(x.header.locate) {
            Some(security) => is_action(security.action, x),
            None => false,
        }
    }

    fn has_sho(&self, x: &RegSho) -> bool
        ensures { result ≡ has_sho (map.get self.now.securities x.now.header.locate) x.now.action }
    {
        match self.security(x.header.locate) {
            Some(security) => is_number(security.sho, x.action),
            None => false,
        }
    }

    fn has_halt(&self, x: &OperationalHalt) -> bool
        ensures { result ≡ has_halt (map.get self.now.securities x.now.header.locate) x.now.market_code x.now.action }
    {
        match self.security(x.header.locate) {
            Some(security) => is_number(security.halt(x.market_code), x.action),
            None => false,
        }
    }

    fn has_position(&self, x: &ParticipantPosition) -> bool
        ensures { result ≡ has_position (map.get self.now.securities x.now.header.locate) x.now.mpid (position_of x.now) }
    {
        match self.security(x.header.locate) {
            Some(security) => is_position(security.position(&x.mpid), x),
            None => false,
        }
    }

    // Returns the message that takes shares from an order: none, all or some of them.
    fn plain_take(&self, locate: u16, reference: u64, shares: u32) -> Message<'static>
        ensures { result ≡ plain_take (book.get self.now.orders reference) locate reference shares }
    {
        if shares == 0 {
            return nothing();
        }
        match self.book.get(reference) {
            Some(order) if order.shares == shares => plain_delete(locate, reference),
            _ => Message::OrderCancel(OrderCancel {
                header: plain_header(locate),
                reference,
                shares,
            }),
        }
    }
}

/// Returns a header that has only a locate.
fn plain_header(locate: u16) -> Header
    ensures { result ≡ plain_header locate }
{
    Header {
        locate,
        tracking: 0,
        stamp: Stamp::new(0).unwrap(),
    }
}

/// Returns the plainest message that changes nothing.
fn nothing() -> Message<'static>
    ensures { result ≡ nothing }
{
    Message::BrokenTrade(BrokenTrade {
        header: plain_header(0),
        match_number: 0,
    })
}

fn plain_order(x: AddOrder) -> Message<'static>
    ensures { result ≡ is.AddOrder (record x { header = plain_header x.header.locate }) }
{
    Message::AddOrder(AddOrder {
        header: plain_header(x.header.locate),
        ..x
    })
}

fn plain_attributed_order(x: AttributedAddOrder) -> Message<'static>
    ensures { result ≡ is.AttributedAddOrder (record x { order = record x.order { header = plain_header x.order.header.locate } }) }
{
    let order = AddOrder {
        header: plain_header(x.order.header.locate),
        ..x.order
    };
    Message::AttributedAddOrder(AttributedAddOrder { order, ..x })
}

fn plain_delete(locate: u16, reference: u64) -> Message<'static>
    ensures { result ≡ is.OrderDelete (record { header = plain_header locate; reference = reference }) }
{
    Message::OrderDelete(OrderDelete {
        header: plain_header(locate),
        reference,
    })
}

fn plain_replacement(x: OrderReplace) -> Message<'static>
    ensures { result ≡ is.OrderReplace (record x { header = plain_header x.header.locate }) }
{
    Message::OrderReplace(OrderReplace {
        header: plain_header(x.header.locate),
        ..x
    })
}

fn is_number(kept: Option<u8>, number: u8) -> bool
    ensures { result ≡ is_number kept number }
{
    kept == Some(number)
}

fn is_action(kept: Option<Action>, x: &TradingAction) -> bool
    ensures { result ≡ is_action kept (action_of x.now) }
{
    let state = x.state;
    let reason = x.reason;
    kept == Some(Action { state, reason })
}

fn is_position(kept: Option<[u8; 3]>, x: &ParticipantPosition) -> bool
    ensures { result ≡ is_text kept (position_of x.now) }
{
    kept == Some([x.primary_market_maker, x.mode, x.state])
}

fn same_entry(a: &Directory, b: &Directory) -> bool
    ensures { result ≡ same_entry a.now b.now }
{
    a == b
}
