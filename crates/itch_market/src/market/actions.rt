//! The effects of messages that are not refused.
ghost use Rattle.std.specs.Prelude.{◌≡◌, ◌<◌, ◌≤◌, Some, None, IsTrue, IsErr, OnOk, OnErr, IsSome, IsSomeAnd};
ghost use Rattle.std.specs.FinMap as map;
ghost use Rattle.itch_book.specs.Orders as book;
ghost use Rattle.itch_market.specs.Content.{laid};
ghost use Rattle.itch_codec.specs.Widths.{IsDirectory};
ghost use Rattle.itch_market.specs.Widths.{IsOrder, IsPosition};
ghost use Rattle.itch_market.specs.Reasons.{reason, add_reason};
ghost use Rattle.itch_market.specs.Effects.{effect, takes_memory, order_of, position_of};

use super::Market;
use crate::security::Action;
use itch_book::{Order, OrderBook};
use itch_codec::{
    AddOrder, Alpha, Directory, Message, OperationalHalt, OrderReplace, ParticipantPosition,
    RegSho, StockDirectory, SystemEvent, TradingAction,
};
use std::alloc::AllocError;

/// Returns the entry of a directory message.
fn entry_of(x: StockDirectory) -> Directory
    ensures entry { result ≡ x.entry }
    ensures fits { IsDirectory result }
{
    x.entry.stock.recall_invariant();
    x.entry
}

/// Returns the position of a market participant: primary market maker, mode and state.
fn position_of(x: ParticipantPosition) -> [u8; 3]
    ensures position { result ≡ position_of x }
    ensures fits { IsPosition x.mpid result }
{
    x.mpid.recall_invariant();
    [x.primary_market_maker, x.mode, x.state]
}

/// Returns the live order that a message adds.
#[inline(always)]
fn order_of(x: AddOrder, mpid: Option<Alpha<4>>) -> Order
    ensures order { result ≡ order_of x mpid }
    ensures fits { IsOrder result }
{
    if let Some(text) = &mpid {
        text.recall_invariant();
    }
    Order {
        reference: x.reference,
        locate: x.header.locate,
        side: x.side,
        shares: x.shares,
        price: x.price,
        mpid,
    }
}

impl<B: OrderBook> Market<B> {
    /// Changes the market by a message that is not refused. The order that it changes is probably at this place in the book.
    #[inline(always)]
    pub(super) fn act(&mut self, message: &Message<'_>, place: usize) -> Result<(), AllocError>
        requires { reason self.old message.now ≡ None }
        ensures ok { OnOk result (self.new ≡ laid (effect self.old message.now)) }
        ensures err { OnErr result (self.new ≡ self.old) }
        ensures memory { IsErr result → IsTrue (takes_memory self.old message.now) }
    {
        match *message {
            Message::SystemEvent(x) => self.set_event(x),
            Message::StockDirectory(x) => self.enter(x)?,
            Message::TradingAction(x) => self.set_action(x),
            Message::RegSho(x) => self.set_sho(x),
            Message::Halt(x) => self.set_halt(x)?,
            Message::Position(x) => self.set_position(x)?,
            Message::AddOrder(x) => self.add(x, None)?,
            Message::AttributedAddOrder(x) => self.add(x.order, Some(x.attribution))?,
            Message::OrderExecuted(x) => self.take(x.reference, place, x.shares),
            Message::OrderExecutedWithPrice(x) => {
                self.take(x.execution.reference, place, x.execution.shares)
            }
            Message::OrderCancel(x) => self.take(x.reference, place, x.shares),
            Message::OrderDelete(x) => self.delete(x.reference, place),
            Message::OrderReplace(x) => self.replace(x, place)?,
            Message::Trade(_)
            | Message::CrossTrade(_)
            | Message::BrokenTrade(_)
            | Message::End { .. }
            | Message::Other(_) => self.recall_invariant(),
        }
        Ok(())
    }

    fn set_event(&mut self, x: SystemEvent)
        ensures { self.new ≡ laid (effect self.old (Message.SystemEvent x)) }
    {
        self.event = Some(x.code);
    }

    fn enter(&mut self, x: StockDirectory) -> Result<(), AllocError>
        requires { reason self.old (Message.StockDirectory x) ≡ None }
        ensures ok { OnOk result (self.new ≡ laid (effect self.old (Message.StockDirectory x))) }
        ensures err { OnErr result (self.new ≡ self.old) }
        ensures memory { IsErr result → IsTrue (takes_memory self.old (Message.StockDirectory x)) }
    {
        let locate = x.header.locate;
        let entry = entry_of(x);
        self.securities.enter(locate, entry)?;
        Ok(())
    }

    fn set_action(&mut self, x: TradingAction)
        ensures { self.new ≡ laid (effect self.old (Message.TradingAction x)) }
    {
        let reason = x.reason;
        let action = Action {
            state: x.state,
            reason,
        };
        self.securities.set_action(x.header.locate, action);
    }

    fn set_sho(&mut self, x: RegSho)
        ensures { self.new ≡ laid (effect self.old (Message.RegSho x)) }
    {
        self.securities.set_sho(x.header.locate, x.action);
    }

    fn set_halt(&mut self, x: OperationalHalt) -> Result<(), AllocError>
        ensures ok { OnOk result (self.new ≡ laid (effect self.old (Message.Halt x))) }
        ensures err { OnErr result (self.new ≡ self.old) }
        ensures memory { IsErr result → IsTrue (takes_memory self.old (Message.Halt x)) }
    {
        self.securities
            .set_halt(x.header.locate, x.market_code, x.action)?;
        Ok(())
    }

    fn set_position(&mut self, x: ParticipantPosition) -> Result<(), AllocError>
        ensures ok { OnOk result (self.new ≡ laid (effect self.old (Message.Position x))) }
        ensures err { OnErr result (self.new ≡ self.old) }
        ensures memory { IsErr result → IsTrue (takes_memory self.old (Message.Position x)) }
    {
        let locate = x.header.locate;
        let mpid = x.mpid;
        let position = position_of(x);
        self.securities.set_position(locate, mpid, position)?;
        Ok(())
    }

    #[inline(always)]
    pub(super) fn add(&mut self, x: AddOrder, mpid: Option<Alpha<4>>) -> Result<(), AllocError>
        requires { add_reason self.old x ≡ None }
        ensures ok { OnOk result (self.new ≡ laid (record self.old { orders = book.added (order_of x mpid) self.old.orders })) }
        ensures err { OnErr result (self.new ≡ self.old) }
    {
        self.book.add(order_of(x, mpid))
    }

    #[inline(always)]
    pub(super) fn take(&mut self, reference: u64, place: usize, shares: u32)
        requires { IsSomeAnd (book.get self.old.orders reference) (λ x. shares ≤ x.shares) }
        ensures { self.new ≡ laid (record self.old { orders = book.taken reference shares self.old.orders }) }
    {
        let _left = self.book.take(reference, place, shares);
    }

    #[inline(always)]
    pub(super) fn delete(&mut self, reference: u64, place: usize)
        requires { IsSome (book.get self.old.orders reference) }
        ensures { self.new ≡ laid (record self.old { orders = book.without reference self.old.orders }) }
    {
        let _order = self.book.delete(reference, place);
    }

    #[inline(always)]
    pub(super) fn replace(&mut self, x: OrderReplace, place: usize) -> Result<(), AllocError>
        requires { reason self.old (Message.OrderReplace x) ≡ None }
        ensures ok { OnOk result (self.new ≡ laid (effect self.old (Message.OrderReplace x))) }
        ensures err { OnErr result (self.new ≡ self.old) }
    {
        self.book
            .replace(x.original, place, x.reference, x.shares, x.price)
    }
}
