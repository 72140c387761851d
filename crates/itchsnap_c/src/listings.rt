//! Lists of the market of a handle: the locates and the stocks of its directory, the orders of a locate, the price levels of a side.
ghost use Rattle.std.specs.Prelude.{◌≡◌};
ghost use Rattle.std.specs.Option.{option_copied};
ghost use Rattle.itchsnap_c.specs.Objects.{held_market};
ghost use Rattle.itchsnap_c.specs.Lookups.{side_of};
ghost use Rattle.itchsnap_c.specs.Listings.{locates_of, orders_at, orders_of, levels_at, levels_of, level_row, no_stock, stock_answer, stock_in, Lists, Gathers};

use crate::answers::{BookOrder, PriceLevel, Stock, Written};
use crate::codes::{ABSENT, OUT_OF_MEMORY, WRONG_HANDLE};
use crate::handle::Handle;
use crate::lookups::{order_answer, side_of};
use crate::object::HandleBook;
use crate::snapshots::put;
use itch_book::OrderBook;
use itch_codec::Side;
use itch_market::{Market, Security};
use std::alloc::Global;

/// Writes the locates of the directory to the front of `out`, in ascending order. If there is no room for them, `out` is unchanged.
#[unsafe(no_mangle)]
pub extern "C" fn itchsnap_locates(alloc: Global, handle: &mut Handle, out: &mut [u16]) -> Written
    ensures listed { Lists locates_of (held_market handle.old.kept.object) out.old result out.new }
    ensures same { handle.new.kept.object ≡ handle.old.kept.object }
{
    let items = handle.look_up(alloc, Err(WRONG_HANDLE), |market| locates_of(alloc, market));
    put(&items, out)
}

/// Returns the stock of a locate in the directory.
#[unsafe(no_mangle)]
pub extern "C" fn itchsnap_stock(alloc: Global, handle: &mut Handle, locate: u16) -> Stock
    ensures stock { result ≡ stock_in (held_market handle.old.kept.object) locate }
    ensures same { handle.new.kept.object ≡ handle.old.kept.object }
{
    handle.look_up(alloc, no_stock(WRONG_HANDLE), |market| {
        stock_answer(market.security(locate))
    })
}

/// Writes the live orders of a locate to the front of `out`: bids before asks, each side by priority.
#[unsafe(no_mangle)]
pub extern "C" fn itchsnap_orders(
    alloc: Global,
    handle: &mut Handle,
    locate: u16,
    out: &mut [BookOrder],
) -> Written
    ensures listed { Lists (orders_at locate) (held_market handle.old.kept.object) out.old result out.new }
    ensures same { handle.new.kept.object ≡ handle.old.kept.object }
{
    let items = handle.look_up_by_price(alloc, Err(WRONG_HANDLE), |market| {
        orders_at(alloc, market, locate)
    });
    put(&items, out)
}

/// Writes the price levels of a locate and side to the front of `out`, the best price first.
#[unsafe(no_mangle)]
pub extern "C" fn itchsnap_levels(
    alloc: Global,
    handle: &mut Handle,
    locate: u16,
    buy: bool,
    out: &mut [PriceLevel],
) -> Written
    ensures listed { Lists (levels_at locate buy) (held_market handle.old.kept.object) out.old result out.new }
    ensures same { handle.new.kept.object ≡ handle.old.kept.object }
{
    let items = handle.look_up_by_price(alloc, Err(WRONG_HANDLE), |market| {
        levels_at(alloc, market, locate, buy)
    });
    put(&items, out)
}

fn locates_of(alloc: Global, market: &Market<HandleBook>) -> Result<Vec<u16>, u32>
    ensures { Gathers (locates_of market.now) result }
{
    market.locates().collect(alloc).map_err(|_| OUT_OF_MEMORY)
}

fn orders_at(alloc: Global, market: &Market<HandleBook>, locate: u16) -> Result<Vec<BookOrder>, u32>
    ensures { Gathers (orders_at locate market.now) result }
{
    orders_of(alloc, market.book(), locate)
}

fn orders_of<B: OrderBook>(alloc: Global, book: &B, locate: u16) -> Result<Vec<BookOrder>, u32>
    ensures { Gathers (orders_of (B.orders book.now) locate) result }
{
    let mut items = Vec::new(alloc);
    let mut next = book.first(locate);
    while let Some(placed) = next {
        items
            .push(order_answer(Some(placed.order)))
            .map_err(|_| OUT_OF_MEMORY)?;
        next = book.after(placed.order.reference, placed.place);
    }
    Ok(items)
}

fn levels_at(
    alloc: Global,
    market: &Market<HandleBook>,
    locate: u16,
    buy: bool,
) -> Result<Vec<PriceLevel>, u32>
    ensures { Gathers (levels_at locate buy market.now) result }
{
    levels_of(alloc, market.book(), locate, side_of(buy))
}

fn levels_of<B: OrderBook>(
    alloc: Global,
    book: &B,
    locate: u16,
    side: Side,
) -> Result<Vec<PriceLevel>, u32>
    ensures { Gathers (levels_of (B.orders book.now) locate side) result }
{
    let mut items = Vec::new(alloc);
    let mut last = None;
    while let Some(price) = book.next_price(locate, side, last) {
        let total = book.level_total(locate, side, price);
        items
            .push(level_row(price, total))
            .map_err(|_| OUT_OF_MEMORY)?;
        last = Some(price);
    }
    Ok(items)
}

fn level_row(price: u32, total: (u128, u64)) -> PriceLevel
    ensures { result ≡ level_row price total }
{
    let (shares, orders) = total;
    PriceLevel {
        shares_low: (shares % (1 << 64)) as u64,
        shares_high: (shares / (1 << 64)) as u64,
        orders,
        price,
    }
}

fn stock_answer(security: Option<&Security<Global>>) -> Stock
    ensures { result ≡ stock_answer (option_copied security.entry) }
{
    match security {
        Some(security) => Stock {
            stock: *security.entry.stock.bytes(),
            code: 0,
        },
        None => no_stock(ABSENT),
    }
}

fn no_stock(code: u32) -> Stock
    ensures { result ≡ no_stock code }
{
    Stock {
        stock: [0; 8],
        code,
    }
}
