//! A book of more than a hundred thousand orders: with ample memory, no order and no replacement is refused.
//!
//! The clauses of the list book state when it refuses an order. It would take too long here.
use super::{add, has_len, order, reference, replace, total};
use crate::equal::{Host, TestResult, same};
use itch_book::{IndexedBook, OrderBook, SettledBook};
use itch_codec::Side;
use std::alloc::AllocError;

const MANY: u32 = 110_000;

// Adds many orders, each at its own price and after all others.
fn fill<B: OrderBook>(rt: &impl Host, book: &mut B) -> Result<(), AllocError> {
    for number in 0..MANY {
        let added = order(u64::from(number), Side::Sell, 10, 1000000 + number);
        add(rt, book, added)?;
    }
    Ok(())
}

// Replaces the first hundred orders by new ones, each at its own price.
fn replace_first<B: OrderBook>(rt: &impl Host, book: &mut B) -> Result<(), AllocError> {
    for number in 0..100u32 {
        let original = u64::from(number);
        replace(rt, book, original, 1000000 + original, 5, 2000000 + number)?;
    }
    Ok(())
}

fn check_changed<B: OrderBook>(rt: &impl Host, book: &B) {
    has_len(rt, book, MANY as usize);
    same(rt, reference(book.front(1, Side::Sell)), 100);
    same(rt, total(book, 1, Side::Sell, 2000099), (5, 1));
}

fn check_many<B: OrderBook>(rt: &impl Host, memory: B::Alloc) -> Result<(), AllocError> {
    let mut book = B::new(memory);
    fill(rt, &mut book)?;
    replace_first(rt, &mut book)?;
    check_changed(rt, &book);
    Ok(())
}

#[test]
fn indexed_book_of_many_orders(rt: HostRuntime) -> TestResult {
    Ok(check_many::<IndexedBook>(&rt, rt.alloc())?)
}

// The same for a settled book, before and after it is settled.
#[test]
fn settled_book_of_many_orders(rt: HostRuntime) -> TestResult {
    let mut book: SettledBook = SettledBook::new(rt.alloc());
    fill(&rt, &mut book)?;
    replace_first(&rt, &mut book)?;
    check_changed(&rt, &book);
    book.settle();
    assert!(rt; book.is_settled());
    check_changed(&rt, &book);
    Ok(())
}
