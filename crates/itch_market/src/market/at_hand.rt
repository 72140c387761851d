//! Applies messages about orders directly from their payloads, if nothing prevents it.
ghost use Rattle.std.specs.Prelude.{◌≡◌};
ghost use Rattle.itch_codec.specs.declared.message.Message.TheVariants as is;
ghost use Rattle.itch_market.specs.AtHand.{IsTried, IsTaken, IsApplied};

use super::Market;
use itch_book::OrderBook;
use itch_codec::{
    AddOrder, AttributedAddOrder, OrderCancel, OrderDelete, OrderExecuted, OrderExecutedWithPrice,
    OrderReplace,
};

impl<B: OrderBook> Market<B> {
    /// Applies the message of a payload and returns true, if it is about an order, no rule refuses it, and it probably needs no allocation.
    ///
    /// Otherwise it returns false, and nothing changes: then [`decode`](itch_codec::decode) and [`Market::apply`] apply it or return the
    /// reason. Without a [`Message`](itch_codec::Message) this is faster than those two.
    #[inline(always)]
    pub(crate) fn apply_at_hand(&mut self, payload: &[u8]) -> bool
        ensures { IsApplied self.old payload.now result self.new }
    {
        match payload.first() {
            Some(b'A') => match AddOrder::from_payload(payload) {
                Some(x) => self.try_add(x),
                None => false,
            },
            Some(b'F') => match AttributedAddOrder::from_payload(payload) {
                Some(x) => self.try_attributed_add(x),
                None => false,
            },
            Some(b'E') => match OrderExecuted::from_payload(payload) {
                Some(x) => self.try_take(x.header.locate, x.reference, x.shares),
                None => false,
            },
            Some(b'C') => match OrderExecutedWithPrice::from_payload(payload) {
                Some(x) => {
                    let x = x.execution;
                    self.try_take(x.header.locate, x.reference, x.shares)
                }
                None => false,
            },
            Some(b'X') => match OrderCancel::from_payload(payload) {
                Some(x) => self.try_take(x.header.locate, x.reference, x.shares),
                None => false,
            },
            Some(b'D') => match OrderDelete::from_payload(payload) {
                Some(x) => self.try_delete(x),
                None => false,
            },
            Some(b'U') => match OrderReplace::from_payload(payload) {
                Some(x) => self.try_replace(x),
                None => false,
            },
            _ => false,
        }
    }

    #[inline(always)]
    fn try_add(&mut self, x: AddOrder) -> bool
        ensures { IsTried self.old (is.AddOrder x) result self.new }
    {
        let again = x;
        if self.add_refusal(x).is_some() || !self.book.has_room(again.reference) {
            return false;
        }
        self.add(again, None).is_ok()
    }

    #[inline(always)]
    fn try_attributed_add(&mut self, x: AttributedAddOrder) -> bool
        ensures { IsTried self.old (is.AttributedAddOrder x) result self.new }
    {
        let order = x.order;
        if self.add_refusal(x.order).is_some() || !self.book.has_room(order.reference) {
            return false;
        }
        self.add(order, Some(x.attribution)).is_ok()
    }

    // Takes shares from an order, as an execution or a cancel does.
    #[inline(always)]
    fn try_take(&mut self, locate: u16, reference: u64, shares: u32) -> bool
        ensures { IsTaken self.old locate reference shares result self.new }
    {
        match self.check_take(locate, reference, shares) {
            Ok(place) => {
                self.take(reference, place, shares);
                true
            }
            Err(_) => false,
        }
    }

    #[inline(always)]
    fn try_delete(&mut self, x: OrderDelete) -> bool
        ensures { IsTried self.old (is.OrderDelete x) result self.new }
    {
        let reference = x.reference;
        match self.check_delete(x) {
            Ok(place) => {
                self.delete(reference, place);
                true
            }
            Err(_) => false,
        }
    }

    #[inline(always)]
    fn try_replace(&mut self, x: OrderReplace) -> bool
        ensures { IsTried self.old (is.OrderReplace x) result self.new }
    {
        let again = x;
        match self.check_replace(x) {
            Ok(place) if self.book.has_room(again.reference) => self.replace(again, place).is_ok(),
            _ => false,
        }
    }
}
