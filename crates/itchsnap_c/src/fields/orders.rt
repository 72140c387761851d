//! The fields of the messages that make, change and end live orders.
ghost use Rattle.std.specs.Prelude.{◌≡◌};
ghost use Rattle.itchsnap_c.specs.Fields.{add_order, attributed_add_order, order_of, order_executed, order_executed_with_price, execution_of, order_cancel, order_delete, order_replace};

use crate::fields::{Fields, headed};
use itch_codec::{
    AddOrder, AttributedAddOrder, OrderCancel, OrderDelete, OrderExecuted, OrderExecutedWithPrice,
    OrderReplace,
};

pub(crate) fn add_order(message: &AddOrder) -> Fields
    ensures { result ≡ add_order message.now }
{
    order_of(b'A', message)
}

pub(crate) fn attributed_add_order(message: &AttributedAddOrder) -> Fields
    ensures { result ≡ attributed_add_order message.now }
{
    Fields {
        attribution: *message.attribution.bytes(),
        ..order_of(b'F', &message.order)
    }
}

// The fields of a new order, in a message of this type.
fn order_of(message_type: u8, order: &AddOrder) -> Fields
    ensures { result ≡ order_of message_type order.now }
{
    Fields {
        order_reference_number: order.reference,
        buy_sell_indicator: u8::from(order.side),
        shares: u64::from(order.shares),
        stock: *order.stock.bytes(),
        price: order.price,
        ..headed(message_type, &order.header)
    }
}

pub(crate) fn order_executed(message: &OrderExecuted) -> Fields
    ensures { result ≡ order_executed message.now }
{
    execution_of(b'E', message)
}

pub(crate) fn order_executed_with_price(message: &OrderExecutedWithPrice) -> Fields
    ensures { result ≡ order_executed_with_price message.now }
{
    Fields {
        printable: message.printable,
        execution_price: message.price,
        ..execution_of(b'C', &message.execution)
    }
}

// The fields of an execution, in a message of this type.
fn execution_of(message_type: u8, execution: &OrderExecuted) -> Fields
    ensures { result ≡ execution_of message_type execution.now }
{
    Fields {
        order_reference_number: execution.reference,
        executed_shares: execution.shares,
        match_number: execution.match_number,
        ..headed(message_type, &execution.header)
    }
}

pub(crate) fn order_cancel(message: &OrderCancel) -> Fields
    ensures { result ≡ order_cancel message.now }
{
    Fields {
        order_reference_number: message.reference,
        cancelled_shares: message.shares,
        ..headed(b'X', &message.header)
    }
}

pub(crate) fn order_delete(message: &OrderDelete) -> Fields
    ensures { result ≡ order_delete message.now }
{
    Fields {
        order_reference_number: message.reference,
        ..headed(b'D', &message.header)
    }
}

pub(crate) fn order_replace(message: &OrderReplace) -> Fields
    ensures { result ≡ order_replace message.now }
{
    Fields {
        original_order_reference_number: message.original,
        new_order_reference_number: message.reference,
        shares: u64::from(message.shares),
        price: message.price,
        ..headed(b'U', &message.header)
    }
}
