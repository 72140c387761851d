//! The order rules: the reasons why a message is refused.
ghost use Rattle.std.specs.Prelude.{◌≡◌};
ghost use Rattle.std.specs.Result.{result_err};
ghost use Rattle.std.specs.FinMap as map;
ghost use Rattle.itch_market.specs.Reasons.{reason, directory_reason, security_reason, add_reason, take_reason, is_other_stock};

use super::Market;
use crate::refusal::Refusal;
use crate::security::Security;
use itch_book::OrderBook;
use itch_codec::{AddOrder, Alpha, Message, OrderDelete, OrderReplace};
use std::alloc::Allocator;

/// Returns whether the directory has another stock, by its eight bytes.
fn is_other_stock<A: Allocator>(security: &Security<A>, stock: Alpha<8>) -> bool
    ensures { result ≡ is_other_stock security.now stock }
{
    security.entry.stock.bytes() != stock.bytes()
}

/// Returns the result for a message that changes no order, with an arbitrary place.
fn no_order(refusal: Option<Refusal>) -> Result<usize, Refusal>
    ensures { result_err result ≡ refusal }
{
    match refusal {
        Some(why) => Err(why),
        None => Ok(0),
    }
}

impl<B: OrderBook> Market<B> {
    /// Returns the place of the order that a message changes, or the reason why the message is refused: the first check of its rules that
    /// fails.
    #[inline(always)]
    pub(super) fn check(&self, message: &Message<'_>) -> Result<usize, Refusal>
        ensures { result_err result ≡ reason self.now message.now }
    {
        match *message {
            Message::StockDirectory(x) => {
                no_order(self.directory_refusal(x.header.locate, x.entry.stock))
            }
            Message::TradingAction(x) => no_order(self.security_refusal(x.header.locate, x.stock)),
            Message::RegSho(x) => no_order(self.security_refusal(x.header.locate, x.stock)),
            Message::Halt(x) => no_order(self.security_refusal(x.header.locate, x.stock)),
            Message::Position(x) => no_order(self.security_refusal(x.header.locate, x.stock)),
            Message::AddOrder(x) => no_order(self.add_refusal(x)),
            Message::AttributedAddOrder(x) => no_order(self.add_refusal(x.order)),
            Message::OrderExecuted(x) => self.check_take(x.header.locate, x.reference, x.shares),
            Message::OrderExecutedWithPrice(x) => self.check_take(
                x.execution.header.locate,
                x.execution.reference,
                x.execution.shares,
            ),
            Message::OrderCancel(x) => self.check_take(x.header.locate, x.reference, x.shares),
            Message::OrderDelete(x) => self.check_delete(x),
            Message::OrderReplace(x) => self.check_replace(x),
            Message::End { .. } => Err(Refusal::UnexpectedEnd),
            Message::SystemEvent(_)
            | Message::Trade(_)
            | Message::CrossTrade(_)
            | Message::BrokenTrade(_)
            | Message::Other(_) => Ok(0),
        }
    }

    fn directory_refusal(&self, locate: u16, stock: Alpha<8>) -> Option<Refusal>
        ensures { result ≡ directory_reason (map.get self.now.securities locate) stock }
    {
        match self.security(locate) {
            Some(security) if is_other_stock(security, stock) => Some(Refusal::StockMismatch),
            _ => None,
        }
    }

    #[inline(always)]
    fn security_refusal(&self, locate: u16, stock: Alpha<8>) -> Option<Refusal>
        ensures { result ≡ security_reason (map.get self.now.securities locate) stock None }
    {
        if self.securities.has_stock(locate, stock) {
            return None;
        }
        match self.security(locate) {
            None => Some(Refusal::UnknownLocate),
            Some(_) => Some(Refusal::StockMismatch),
        }
    }

    #[inline(always)]
    pub(super) fn add_refusal(&self, x: AddOrder) -> Option<Refusal>
        ensures { result ≡ add_reason self.now x }
    {
        match self.security_refusal(x.header.locate, x.stock) {
            Some(why) => Some(why),
            None if x.shares == 0 => Some(Refusal::ZeroShares),
            None if self.book.get(x.reference).is_some() => Some(Refusal::DuplicateRef),
            None => None,
        }
    }

    #[inline(always)]
    pub(super) fn check_take(
        &self,
        locate: u16,
        reference: u64,
        shares: u32,
    ) -> Result<usize, Refusal>
        ensures { result_err result ≡ take_reason self.now locate reference shares }
    {
        match self.book.find(reference) {
            None => Err(Refusal::UnknownRef),
            Some(found) if found.order.locate != locate => Err(Refusal::LocateMismatch),
            Some(found) if found.order.shares < shares => Err(Refusal::TooManyShares {
                remain: found.order.shares,
            }),
            Some(found) => Ok(found.place),
        }
    }

    #[inline(always)]
    pub(super) fn check_delete(&self, x: OrderDelete) -> Result<usize, Refusal>
        ensures { result_err result ≡ reason self.now (Message.OrderDelete x) }
    {
        match self.book.find(x.reference) {
            None => Err(Refusal::UnknownRef),
            Some(found) if found.order.locate != x.header.locate => Err(Refusal::LocateMismatch),
            Some(found) => Ok(found.place),
        }
    }

    #[inline(always)]
    pub(super) fn check_replace(&self, x: OrderReplace) -> Result<usize, Refusal>
        ensures { result_err result ≡ reason self.now (Message.OrderReplace x) }
    {
        match self.book.find(x.original) {
            None => Err(Refusal::UnknownRef),
            Some(found) if found.order.locate != x.header.locate => Err(Refusal::LocateMismatch),
            Some(_) if x.shares == 0 => Err(Refusal::ZeroShares),
            Some(_) if self.book.get(x.reference).is_some() => Err(Refusal::DuplicateRef),
            Some(found) => Ok(found.place),
        }
    }
}
