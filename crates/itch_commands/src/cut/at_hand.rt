//! The part of a message that `cut` reads without decoding it.
ghost use Rattle.std.specs.Prelude.{◌≡◌, Some, IfSome};
ghost use Rattle.itch_codec.specs.Messages.{message_of};
ghost use Rattle.itch_commands.specs.Cuts.{order_at};
ghost use Rattle.itch_commands.specs.Showing.{IsClean};

use itch_codec::{
    AddOrder, AttributedAddOrder, OrderCancel, OrderDelete, OrderExecuted, OrderExecutedWithPrice,
    OrderReplace,
};

/// Returns the locate of the message in a payload, if the message adds, changes or ends an order.
#[inline(always)]
pub(crate) fn order_at(payload: &[u8]) -> Option<u16>
    ensures { IfSome result (λ locate. IsClean payload.now × (order_at (message_of payload.now) ≡ Some locate)) }
{
    match payload.first() {
        Some(b'A') => match AddOrder::from_payload(payload) {
            Some(x) => Some(x.header.locate),
            None => None,
        },
        Some(b'F') => match AttributedAddOrder::from_payload(payload) {
            Some(x) => Some(x.order.header.locate),
            None => None,
        },
        Some(b'E') => match OrderExecuted::from_payload(payload) {
            Some(x) => Some(x.header.locate),
            None => None,
        },
        Some(b'C') => match OrderExecutedWithPrice::from_payload(payload) {
            Some(x) => Some(x.execution.header.locate),
            None => None,
        },
        Some(b'X') => match OrderCancel::from_payload(payload) {
            Some(x) => Some(x.header.locate),
            None => None,
        },
        Some(b'D') => match OrderDelete::from_payload(payload) {
            Some(x) => Some(x.header.locate),
            None => None,
        },
        Some(b'U') => match OrderReplace::from_payload(payload) {
            Some(x) => Some(x.header.locate),
            None => None,
        },
        _ => None,
    }
}
