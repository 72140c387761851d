//! Look-ups in the market of a handle.
ghost use Rattle.std.specs.Prelude.{◌≡◌, Option, Some, None};
ghost use Rattle.std.specs.Option.{option_copied};
ghost use Rattle.itchsnap_c.specs.Objects.{held_market};
ghost use Rattle.itchsnap_c.specs.Lookups.{side_of, no_order, order_answer, best_in, order_in, level_answer, level_in, price_answer, price_in, count_in};

use crate::answers::{BookOrder, Count, LevelTotal, Price};
use crate::codes::{ABSENT, WRONG_HANDLE, counted, no_count};
use crate::handle::Handle;
use itch_book::{Order, OrderBook};
use itch_codec::Side;
use std::alloc::Global;

/// Returns the order that has priority at a locate and side.
#[unsafe(no_mangle)]
pub extern "C" fn itchsnap_best(
    alloc: Global,
    handle: &mut Handle,
    locate: u16,
    buy: bool,
) -> BookOrder
    ensures best { result ≡ best_in (held_market handle.old.kept.object) locate buy }
    ensures same { handle.new.kept.object ≡ handle.old.kept.object }
{
    handle.look_up_by_price(alloc, no_order(WRONG_HANDLE), |market| {
        order_answer(market.best(locate, side_of(buy)))
    })
}

/// Returns the live order with this reference.
#[unsafe(no_mangle)]
pub extern "C" fn itchsnap_order_by(alloc: Global, handle: &mut Handle, reference: u64) -> BookOrder
    ensures order { result ≡ order_in (held_market handle.old.kept.object) reference }
    ensures same { handle.new.kept.object ≡ handle.old.kept.object }
{
    handle.look_up(alloc, no_order(WRONG_HANDLE), |market| {
        order_answer(market.book().get(reference))
    })
}

/// Returns the shares and the number of orders at a price of a locate and side: 0 if no order has the price.
#[unsafe(no_mangle)]
pub extern "C" fn itchsnap_level(
    alloc: Global,
    handle: &mut Handle,
    locate: u16,
    buy: bool,
    price: u32,
) -> LevelTotal
    ensures level { result ≡ level_in (held_market handle.old.kept.object) locate buy price }
    ensures same { handle.new.kept.object ≡ handle.old.kept.object }
{
    handle.look_up_by_price(alloc, NO_LEVEL, |market| {
        level_answer(market.book().level_total(locate, side_of(buy), price))
    })
}

/// Returns the best price of a locate and side, or with `after` the best one that is worse than `last`.
#[unsafe(no_mangle)]
pub extern "C" fn itchsnap_next_price(
    alloc: Global,
    handle: &mut Handle,
    locate: u16,
    buy: bool,
    after: bool,
    last: u32,
) -> Price
    ensures price { result ≡ price_in (held_market handle.old.kept.object) locate buy after last }
    ensures same { handle.new.kept.object ≡ handle.old.kept.object }
{
    let last = if after { Some(last) } else { None };
    handle.look_up_by_price(alloc, no_price(WRONG_HANDLE), |market| {
        price_answer(market.book().next_price(locate, side_of(buy), last))
    })
}

/// Returns the number of live orders.
#[unsafe(no_mangle)]
pub extern "C" fn itchsnap_order_count(alloc: Global, handle: &mut Handle) -> Count
    ensures count { result ≡ count_in (held_market handle.old.kept.object) }
    ensures same { handle.new.kept.object ≡ handle.old.kept.object }
{
    handle.look_up(alloc, no_count(WRONG_HANDLE), |market| {
        counted(market.book().len() as u64)
    })
}

pub(crate) fn side_of(buy: bool) -> Side
    ensures { result ≡ side_of buy }
{
    if buy { Side::Buy } else { Side::Sell }
}

pub(crate) fn order_answer(order: Option<&Order>) -> BookOrder
    ensures { result ≡ order_answer (option_copied order.entry) }
{
    let Some(order) = order else {
        return no_order(ABSENT);
    };
    BookOrder {
        reference: order.reference,
        price: order.price,
        shares: order.shares,
        locate: order.locate,
        buy: matches!(order.side, Side::Buy),
        attributed: order.mpid.is_some(),
        mpid: match order.mpid {
            Some(mpid) => *mpid.bytes(),
            None => [0; 4],
        },
        code: 0,
    }
}

fn no_order(code: u32) -> BookOrder
    ensures { result ≡ no_order code }
{
    BookOrder {
        reference: 0,
        price: 0,
        shares: 0,
        locate: 0,
        buy: false,
        attributed: false,
        mpid: [0; 4],
        code,
    }
}

fn price_answer(price: Option<u32>) -> Price
    ensures { result ≡ price_answer price }
{
    match price {
        Some(price) => Price { price, code: 0 },
        None => no_price(ABSENT),
    }
}

fn no_price(code: u32) -> Price
    ensures { result ≡ record { price = 0; code = code } }
{
    Price { price: 0, code }
}

fn level_answer(total: (u128, u64)) -> LevelTotal
    ensures { result ≡ level_answer total }
{
    let (shares, orders) = total;
    LevelTotal {
        shares_low: (shares % (1 << 64)) as u64,
        shares_high: (shares / (1 << 64)) as u64,
        orders,
        code: 0,
    }
}

// The result if a handle holds no market.
const NO_LEVEL: LevelTotal = LevelTotal {
    shares_low: 0,
    shares_high: 0,
    orders: 0,
    code: WRONG_HANDLE,
};
