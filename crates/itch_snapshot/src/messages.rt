//! The messages of a snapshot.
ghost use Rattle.std.specs.Prelude.{◌≡◌};
ghost use Rattle.itch_book.specs.declared.order.Order.{Order};
ghost use Rattle.itch_snapshot.specs.declared.named_order.NamedOrder.{NamedOrder};
ghost use Rattle.itch_snapshot.specs.Snapshot.{header_at, order_part};
ghost use Rattle.itch_snapshot.specs.Cursor.{named};

use crate::named_order::NamedOrder;
use itch_book::Placed;
use itch_codec::{AddOrder, Alpha, AttributedAddOrder, Header, Message, Stamp};

// Returns the header of a snapshot message.
#[inline(always)]
pub(crate) fn header_at(locate: u16) -> Header
    ensures { result ≡ header_at locate }
{
    Header {
        locate,
        tracking: 0,
        stamp: Stamp::new(0).unwrap(),
    }
}

// Returns the order with the stock of its locate.
#[inline(always)]
pub(crate) fn named(stock: Alpha<8>, placed: Option<Placed<'_>>) -> Option<NamedOrder>
    ensures { result ≡ named stock placed.entry }
{
    let placed = placed?;
    Some(NamedOrder {
        stock,
        order: *placed.order,
        place: placed.place,
    })
}

// Returns the message of a live order.
#[inline(always)]
pub(crate) fn order_message<'a>(named: NamedOrder) -> Message<'a>
    ensures { result ≡ order_part named.stock named.order }
{
    let order = named.order;
    let add = AddOrder {
        header: header_at(order.locate),
        reference: order.reference,
        side: order.side,
        shares: order.shares,
        stock: named.stock,
        price: order.price,
    };
    match order.mpid {
        None => Message::AddOrder(add),
        Some(attribution) => Message::AttributedAddOrder(AttributedAddOrder {
            order: add,
            attribution,
        }),
    }
}
