//! Decodes a payload as a message of one type, for a caller who knows the type.
ghost use Rattle.std.specs.Prelude.{◌≡◌, ◌<◌, ◌↔◌, IsTrue, length};
ghost use Rattle.itch_codec.specs.declared.message.Message.TheVariants as is;
ghost use Rattle.itch_codec.specs.Numbers.{byte_at};
ghost use Rattle.itch_codec.specs.Typed.{IsTyped};

use crate::orders::{
    AddOrder, AttributedAddOrder, OrderCancel, OrderDelete, OrderExecuted, OrderExecutedWithPrice,
    OrderReplace,
};

// Returns whether a payload has this first byte and this length.
#[inline(always)]
fn has_type(payload: &[u8], kind: u8, size: usize) -> bool
    requires { 0 < size }
    ensures { IsTrue result ↔ ((byte_at 0 payload.now ≡ kind) × (length payload.now ≡ size)) }
{
    payload.len() == size && payload[0] == kind
}

impl AddOrder {
    /// Returns the message of a payload, if it is a valid Add Order without attribution.
    #[inline(always)]
    pub fn from_payload(payload: &[u8]) -> Option<AddOrder>
        ensures { IsTyped is.AddOrder payload.now result }
    {
        if !has_type(payload, b'A', 36) {
            return None;
        }
        match AddOrder::decode(payload) {
            Ok(message) => Some(message),
            Err(_) => None,
        }
    }
}

impl AttributedAddOrder {
    /// Returns the message of a payload, if it is a valid Add Order with attribution.
    #[inline(always)]
    pub fn from_payload(payload: &[u8]) -> Option<AttributedAddOrder>
        ensures { IsTyped is.AttributedAddOrder payload.now result }
    {
        if !has_type(payload, b'F', 40) {
            return None;
        }
        match AttributedAddOrder::decode(payload) {
            Ok(message) => Some(message),
            Err(_) => None,
        }
    }
}

impl OrderExecuted {
    /// Returns the message of a payload, if it is a valid Order Executed.
    #[inline(always)]
    pub fn from_payload(payload: &[u8]) -> Option<OrderExecuted>
        ensures { IsTyped is.OrderExecuted payload.now result }
    {
        if !has_type(payload, b'E', 31) {
            return None;
        }
        Some(OrderExecuted::decode(payload))
    }
}

impl OrderExecutedWithPrice {
    /// Returns the message of a payload, if it is a valid Order Executed With Price.
    #[inline(always)]
    pub fn from_payload(payload: &[u8]) -> Option<OrderExecutedWithPrice>
        ensures { IsTyped is.OrderExecutedWithPrice payload.now result }
    {
        if !has_type(payload, b'C', 36) {
            return None;
        }
        Some(OrderExecutedWithPrice::decode(payload))
    }
}

impl OrderCancel {
    /// Returns the message of a payload, if it is a valid Order Cancel.
    #[inline(always)]
    pub fn from_payload(payload: &[u8]) -> Option<OrderCancel>
        ensures { IsTyped is.OrderCancel payload.now result }
    {
        if !has_type(payload, b'X', 23) {
            return None;
        }
        Some(OrderCancel::decode(payload))
    }
}

impl OrderDelete {
    /// Returns the message of a payload, if it is a valid Order Delete.
    #[inline(always)]
    pub fn from_payload(payload: &[u8]) -> Option<OrderDelete>
        ensures { IsTyped is.OrderDelete payload.now result }
    {
        if !has_type(payload, b'D', 19) {
            return None;
        }
        Some(OrderDelete::decode(payload))
    }
}

impl OrderReplace {
    /// Returns the message of a payload, if it is a valid Order Replace.
    #[inline(always)]
    pub fn from_payload(payload: &[u8]) -> Option<OrderReplace>
        ensures { IsTyped is.OrderReplace payload.now result }
    {
        if !has_type(payload, b'U', 35) {
            return None;
        }
        Some(OrderReplace::decode(payload))
    }
}
