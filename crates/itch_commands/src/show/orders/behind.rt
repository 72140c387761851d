//! The order behind a message.
ghost use Rattle.std.specs.Prelude.{◌≡◌, IfSome};
ghost use Rattle.itch_commands.specs.OrdersBehind.{behind, left_of, order_behind, stock_at};

use itch_book::{Order, OrderBook};
use itch_codec::{Alpha, Message};
use itch_market::Market;

/// A live order to which a message refers, as it was before the message.
#[derive(Clone, Copy, Debug, PartialEq, Eq)]
pub struct Behind {
    pub order: Order,
    /// The stock of its locate, which the directory always has.
    pub stock: Option<Alpha<8>>,
    /// The shares that are left of it after the message.
    pub left: u32,
}

impl Behind {
    /// Returns the order behind a message in the market before it: for an execution or a cancel the order that loses shares, for a delete
    /// the one that ends, and for a replace the original one.
    pub fn of<B: OrderBook>(market: &Market<B>, message: &Message<'_>) -> Option<Behind>
        ensures { result ≡ behind market.now message.now }
    {
        match message {
            Message::OrderExecuted(x) => order_behind(market, x.reference, Some(x.shares)),
            Message::OrderExecutedWithPrice(x) => {
                order_behind(market, x.execution.reference, Some(x.execution.shares))
            }
            Message::OrderCancel(x) => order_behind(market, x.reference, Some(x.shares)),
            Message::OrderDelete(x) => order_behind(market, x.reference, None),
            Message::OrderReplace(x) => order_behind(market, x.original, None),
            _ => None,
        }
    }
}

// Returns the order of a reference, from which these shares are taken; without a number the order ends.
fn order_behind<B: OrderBook>(
    market: &Market<B>,
    reference: u64,
    taken: Option<u32>,
) -> Option<Behind>
    ensures { result ≡ order_behind market.now reference taken }
{
    let order = *market.book().get(reference)?;
    Some(Behind {
        order,
        stock: stock_at(market, order.locate),
        left: left_of(taken, order.shares),
    })
}

// Returns the stock of a locate, if the directory has one.
fn stock_at<B: OrderBook>(market: &Market<B>, locate: u16) -> Option<Alpha<8>>
    ensures { result ≡ stock_at market.now locate }
{
    match market.security(locate) {
        Some(security) => Some(security.entry.stock),
        None => None,
    }
}

// Returns the remaining shares of an order from which these are taken, or which ends.
fn left_of(taken: Option<u32>, shares: u32) -> u32
    ensures { result ≡ left_of taken shares }
{
    match taken {
        Some(taken) => shares.saturating_sub(taken),
        None => 0,
    }
}
