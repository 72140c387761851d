//! A side with many more prices than fit one line of an indexed book. The prices come from worst to best and from best to worst, some of them
//! leave and return, and then all leave in the same order and in the reverse order.
use super::{add, delete, has_len, order};
use crate::equal::{Host, TestResult, same};
use itch_book::{IndexedBook, ListBook, Order, OrderBook, SettledBook};
use itch_codec::Side;
use std::alloc::AllocError;

const PRICES: u32 = 1000;

// Returns the order with a number. Its price is higher, or lower, the greater the number.
fn order_of(side: Side, rises: bool, number: u32) -> Order {
    let price = if rises {
        1000000u32.wrapping_add(number)
    } else {
        1000000u32.wrapping_sub(number)
    };
    order(u64::from(number), side, 10, price)
}

// Adds the order to both books.
fn add_both<B: OrderBook, C: OrderBook>(
    rt: &impl Host,
    one: &mut B,
    other: &mut C,
    order: &Order,
) -> Result<(), AllocError> {
    add(rt, one, *order)?;
    add(rt, other, *order)?;
    check_front(rt, one, other, order.side);
    Ok(())
}

// Deletes the order from both books.
fn delete_both<B: OrderBook, C: OrderBook>(
    rt: &impl Host,
    one: &mut B,
    other: &mut C,
    order: &Order,
) {
    same(rt, delete(rt, one, order.reference), *order);
    same(rt, delete(rt, other, order.reference), *order);
    check_front(rt, one, other, order.side);
}

fn check_front<B: OrderBook, C: OrderBook>(rt: &impl Host, one: &B, other: &C, side: Side) {
    same(
        rt,
        other.front(1, side).copied(),
        one.front(1, side).copied(),
    );
}

// Checks that both books have the same prices and totals.
fn check_prices<B: OrderBook, C: OrderBook>(rt: &impl Host, one: &B, other: &C, side: Side) {
    same(rt, other.len(), one.len());
    let mut last = None;
    for _ in 0..one.len() {
        let price = one.next_price(1, side, last);
        same(rt, other.next_price(1, side, last), price);
        let Some(price) = price else { break };
        same(
            rt,
            other.level_total(1, side, price),
            one.level_total(1, side, price),
        );
        last = Some(price);
    }
    same(rt, other.next_price(1, side, last), None);
}

// Adds an order at each price.
fn fill<B: OrderBook, C: OrderBook>(
    rt: &impl Host,
    one: &mut B,
    other: &mut C,
    side: Side,
    rises: bool,
) -> Result<(), AllocError> {
    for number in 0..PRICES {
        add_both(rt, one, other, &order_of(side, rises, number))?;
    }
    check_prices(rt, one, other, side);
    Ok(())
}

// Deletes two out of three orders, and adds half of them again.
fn thin<B: OrderBook, C: OrderBook>(
    rt: &impl Host,
    one: &mut B,
    other: &mut C,
    side: Side,
    rises: bool,
) -> Result<(), AllocError> {
    for number in 0..PRICES {
        if number % 3 > 0 {
            delete_both(rt, one, other, &order_of(side, rises, number));
        }
    }
    check_prices(rt, one, other, side);
    for number in 0..PRICES {
        if number % 3 == 2 {
            add_both(rt, one, other, &order_of(side, rises, number))?;
        }
    }
    check_prices(rt, one, other, side);
    Ok(())
}

// Deletes the rest, in the order of arrival or in the reverse order.
fn clear<B: OrderBook, C: OrderBook>(
    rt: &impl Host,
    one: &mut B,
    other: &mut C,
    side: Side,
    (rises, turns): (bool, bool),
) {
    for step in 0..PRICES {
        let number = if turns { PRICES - 1 - step } else { step };
        if number % 3 != 1 {
            delete_both(rt, one, other, &order_of(side, rises, number));
        }
    }
    has_len(rt, one, 0);
    has_len(rt, other, 0);
    same(rt, other.next_price(1, side, None), None);
}

// Checks two new books in their own memory, for each side and order.
fn check_ladders<B: OrderBook, C: OrderBook>(
    rt: &impl Host,
    memory: B::Alloc,
    other: C::Alloc,
) -> Result<(), AllocError> {
    let mut one = B::new(memory);
    let mut other = C::new(other);
    for side in [Side::Buy, Side::Sell] {
        for (rises, turns) in [(true, true), (true, false), (false, true), (false, false)] {
            fill(rt, &mut one, &mut other, side, rises)?;
            thin(rt, &mut one, &mut other, side, rises)?;
            clear(rt, &mut one, &mut other, side, (rises, turns));
        }
    }
    Ok(())
}

#[test]
fn an_indexed_book_has_the_prices_of_a_list(rt: HostRuntime) -> TestResult {
    Ok(check_ladders::<ListBook, IndexedBook>(&rt, rt.alloc(), rt.alloc())?)
}

#[test]
fn a_settled_book_has_the_prices_of_an_indexed_one(rt: HostRuntime) -> TestResult {
    Ok(check_ladders::<IndexedBook, SettledBook>(&rt, rt.alloc(), rt.alloc())?)
}
