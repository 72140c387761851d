//! The price at which a message changes the orders of a book.
ghost use Rattle.std.specs.Prelude.{◌≡◌};
ghost use Rattle.itch_book.specs.Orders.{is_better};
ghost use Rattle.itch_depth.specs.ChangedPrices.{better_of, changed_price, price_of_add, price_of_order};

use itch_book::{Order, OrderBook};
use itch_codec::{AddOrder, Message, Side};

/// The best price at which a message changes orders, and the side and the locate of these orders.
#[derive(Clone, Copy, Debug, PartialEq, Eq)]
pub struct ChangedPrice {
    pub locate: u16,
    pub side: Side,
    pub price: u32,
}

/// Returns the best price at which a message that a book takes will change its orders; `None` if it changes no order.
pub fn changed_price<B: OrderBook>(book: &B, message: &Message<'_>) -> Option<ChangedPrice>
    ensures { result ≡ changed_price (B.orders book.now) message.now }
{
    match message {
        Message::AddOrder(x) => Some(price_of_add(x)),
        Message::AttributedAddOrder(x) => Some(price_of_add(&x.order)),
        Message::OrderReplace(x) => {
            let replaced = price_of_order(book.get(x.original)?);
            Some(ChangedPrice {
                price: better_of(replaced.side, replaced.price, x.price),
                ..replaced
            })
        }
        _ => Some(price_of_order(book.get(message.reference()?)?)),
    }
}

fn price_of_add(x: &AddOrder) -> ChangedPrice
    ensures { result ≡ price_of_add x.now }
{
    ChangedPrice {
        locate: x.header.locate,
        side: x.side,
        price: x.price,
    }
}

fn price_of_order(order: &Order) -> ChangedPrice
    ensures { result ≡ price_of_order order.now }
{
    ChangedPrice {
        locate: order.locate,
        side: order.side,
        price: order.price,
    }
}

// Returns the better of two prices.
fn better_of(side: Side, price: u32, other: u32) -> u32
    ensures { result ≡ better_of side price other }
{
    if is_better(side, other, price) {
        other
    } else {
        price
    }
}

/// Returns whether a price is better than another one.
pub fn is_better(side: Side, price: u32, other: u32) -> bool
    ensures { result ≡ is_better side price other }
{
    match side {
        Side::Buy => price > other,
        Side::Sell => price < other,
    }
}
