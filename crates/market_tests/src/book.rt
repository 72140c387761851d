//! Books, by the results of their calls. The helpers take any book.
use crate::equal::{Host, TestResult, same, same_in};
use itch_book::{IndexedBook, ListBook, Order, OrderBook, Placed, Taken};
use itch_codec::Side;
use std::alloc::AllocError;

// Returns an order at locate 1.
pub(super) fn order(reference: u64, side: Side, shares: u32, price: u32) -> Order {
    Order {
        reference,
        locate: 1,
        side,
        shares,
        price,
        mpid: None,
    }
}

pub(super) fn add<B: OrderBook>(
    rt: &impl Host,
    book: &mut B,
    order: Order,
) -> Result<(), AllocError> {
    assert!(rt; order.shares > 0);
    assert!(rt; book.get(order.reference).is_none());
    book.add(order)
}

// Returns the place of an order, or 0.
fn place_of<B: OrderBook>(book: &B, reference: u64) -> usize {
    match book.find(reference) {
        Some(found) => found.place,
        None => 0,
    }
}

// Takes shares from an order, by a place that may not be its own.
fn take_at<B: OrderBook>(
    rt: &impl Host,
    book: &mut B,
    reference: u64,
    place: usize,
    shares: u32,
) -> Taken {
    let Some(order) = book.get(reference).copied() else {
        panic!(rt; "{reference} is not live");
    };
    assert!(rt; shares <= order.shares);
    book.take(reference, place, shares)
}

pub(super) fn take<B: OrderBook>(
    rt: &impl Host,
    book: &mut B,
    reference: u64,
    shares: u32,
) -> Taken {
    let place = place_of(book, reference);
    take_at(rt, book, reference, place, shares)
}

// Deletes an order, by a place that may not be its own.
fn delete_at<B: OrderBook>(rt: &impl Host, book: &mut B, reference: u64, place: usize) -> Order {
    assert!(rt; book.get(reference).is_some());
    book.delete(reference, place)
}

pub(super) fn delete<B: OrderBook>(rt: &impl Host, book: &mut B, reference: u64) -> Order {
    let place = place_of(book, reference);
    delete_at(rt, book, reference, place)
}

// Replaces an order, by a place that may not be its own.
pub(super) fn replace_at<B: OrderBook>(
    rt: &impl Host,
    book: &mut B,
    original: u64,
    place: usize,
    reference: u64,
    shares: u32,
    price: u32,
) -> Result<(), AllocError> {
    assert!(rt; book.get(original).is_some());
    assert!(rt; shares > 0);
    assert!(rt; book.get(reference).is_none());
    book.replace(original, place, reference, shares, price)
}

pub(super) fn replace<B: OrderBook>(
    rt: &impl Host,
    book: &mut B,
    original: u64,
    reference: u64,
    shares: u32,
    price: u32,
) -> Result<(), AllocError> {
    let place = place_of(book, original);
    replace_at(rt, book, original, place, reference, shares, price)
}

// Returns the order with this reference.
pub(super) fn live<B: OrderBook>(book: &B, reference: u64) -> Option<Order> {
    book.get(reference).copied()
}

// Returns the first order at a locate.
pub(super) fn first<B: OrderBook>(book: &B, locate: u16) -> Option<Order> {
    unplaced(book.first(locate))
}

// Returns the order without its place.
fn unplaced(placed: Option<Placed<'_>>) -> Option<Order> {
    let placed = placed?;
    Some(*placed.order)
}

// Returns the next order at the same locate, from a place that may not come from the book.
fn after_at<'a, B: OrderBook>(
    rt: &impl Host,
    book: &'a B,
    reference: u64,
    place: usize,
) -> Option<Placed<'a>> {
    assert!(rt; book.get(reference).is_some());
    book.after(reference, place)
}

// Returns the next order at the same locate.
pub(super) fn after<B: OrderBook>(rt: &impl Host, book: &B, reference: u64) -> Option<Order> {
    unplaced(after_at(rt, book, reference, 0))
}

// Checks that these are the orders at a locate, each from the place of the one before.
fn check_walk<B: OrderBook>(rt: &impl Host, book: &B, locate: u16, want: &[u64]) {
    let mut next = book.first(locate);
    for number in want {
        same(rt, reference(unplaced(next).as_ref()), *number);
        let Some(placed) = next else { return };
        next = after_at(rt, book, *number, placed.place);
    }
    assert!(rt; next.is_none());
}

// Checks that the next order is the same from any place.
fn check_places<B: OrderBook>(rt: &impl Host, book: &B, number: u64, want: u64) {
    for place in [0, 1, 2, 3, 4, 5, 6, 7, usize::MAX] {
        let next = unplaced(after_at(rt, book, number, place));
        same_in(rt, (number, place), reference(next.as_ref()), want);
    }
}

// Returns the reference of the next order at the same locate, or 0.
fn next<B: OrderBook>(rt: &impl Host, book: &B, number: u64) -> u64 {
    reference(after(rt, book, number).as_ref())
}

// Returns the best price of a side at locate 1, or the best one worse than `last`.
pub(super) fn next_price<B: OrderBook>(book: &B, side: Side, last: Option<u32>) -> Option<u32> {
    book.next_price(1, side, last)
}

// Returns the shares at a price, and the number of orders.
pub(super) fn total<B: OrderBook>(book: &B, locate: u16, side: Side, price: u32) -> (u128, u64) {
    book.level_total(locate, side, price)
}

// Checks the number of orders of the book.
pub(super) fn has_len<B: OrderBook>(rt: &impl Host, book: &B, want: usize) {
    same(rt, book.len(), want);
}

// Returns the reference of an order, or 0.
pub(super) fn reference(order: Option<&Order>) -> u64 {
    match order {
        Some(order) => order.reference,
        None => 0,
    }
}

// Adds two levels to buy, two to sell, and the greatest order at another locate.
fn fill<B: OrderBook>(rt: &impl Host, book: &mut B) -> Result<(), AllocError> {
    has_len(rt, book, 0);
    for (locate, number, side, shares, price) in [
        (1, 1, Side::Buy, 100, 1500000),
        (1, 2, Side::Buy, 200, 1500100),
        (1, 3, Side::Buy, 300, 1500000),
        (1, 4, Side::Buy, 400, 1500100),
        (1, 5, Side::Sell, 500, 1500300),
        (1, 6, Side::Sell, 600, 1500200),
        (u16::MAX, u64::MAX, Side::Sell, u32::MAX, u32::MAX),
    ] {
        let order = order(number, side, shares, price);
        add(rt, book, Order { locate, ..order })?;
    }
    has_len(rt, book, 7);
    Ok(())
}

// Checks the priority of the orders.
fn check_order<B: OrderBook>(rt: &impl Host, book: &B) {
    same(rt, reference(first(book, 1).as_ref()), 2);
    for (number, want) in [
        (2, 4),
        (4, 1),
        (1, 3),
        (3, 6),
        (6, 5),
        (5, 0),
        (u64::MAX, 0),
    ] {
        check_places(rt, book, number, want);
    }
    check_walk(rt, book, 1, &[2, 4, 1, 3, 6, 5]);
    check_walk(rt, book, 2, &[]);
    check_walk(rt, book, u16::MAX, &[u64::MAX]);
    same(rt, reference(book.front(1, Side::Buy)), 2);
    same(rt, reference(book.front(1, Side::Sell)), 6);
    same(rt, reference(book.front(u16::MAX, Side::Buy)), 0);
}

// Checks the prices of the levels.
fn check_prices<B: OrderBook>(rt: &impl Host, book: &B) {
    for (side, last, want) in [
        (Side::Buy, None, Some(1500100)),
        (Side::Buy, Some(1500100), Some(1500000)),
        (Side::Buy, Some(1500000), None),
        (Side::Sell, None, Some(1500200)),
        (Side::Sell, Some(1500200), Some(1500300)),
        (Side::Sell, Some(1500300), None),
    ] {
        same_in(rt, ("after", last), next_price(book, side, last), want);
    }
}

// Checks the totals of the levels.
fn check_totals<B: OrderBook>(rt: &impl Host, book: &B) {
    for (locate, side, price, want) in [
        (1, Side::Buy, 1500100, (600, 2)),
        (1, Side::Buy, 1500000, (400, 2)),
        (1, Side::Sell, 1500000, (0, 0)),
        (u16::MAX, Side::Sell, u32::MAX, (4294967295, 1)),
    ] {
        same(rt, total(book, locate, side, price), want);
    }
}

// Takes shares from orders 1 and 3.
fn check_takes<B: OrderBook>(rt: &impl Host, book: &mut B) {
    same(rt, take(rt, book, 1, 40), Taken::Left(60));
    same(rt, total(book, 1, Side::Buy, 1500000), (360, 2));
    same(rt, next(rt, book, 4), 1);
    same(rt, take(rt, book, 1, 60), Taken::Gone);
    assert!(rt; live(book, 1).is_none());
    same(rt, take(rt, book, 3, 0), Taken::Left(300));
}

fn check_delete<B: OrderBook>(rt: &impl Host, book: &mut B) {
    same(rt, delete(rt, book, 6), order(6, Side::Sell, 600, 1500200));
    same(rt, next_price(book, Side::Sell, None), Some(1500300));
}

// Replaces order 2 by order 7, which comes after order 3.
fn check_replace<B: OrderBook>(rt: &impl Host, book: &mut B) -> Result<(), AllocError> {
    replace(rt, book, 2, 7, 50, 1500000)?;
    assert!(rt; live(book, 2).is_none());
    let replacement = order(7, Side::Buy, 50, 1500000);
    same(rt, live(book, 7), Some(replacement));
    same(rt, next(rt, book, 3), 7);
    same(rt, total(book, 1, Side::Buy, 1500100), (400, 1));
    has_len(rt, book, 5);
    Ok(())
}

// Changes a filled book by the given place, or by the place of each order, and checks the rest.
fn check_changes<B: OrderBook>(
    rt: &impl Host,
    memory: B::Alloc,
    given: Option<usize>,
) -> Result<(), AllocError> {
    let mut book = B::new(memory);
    fill(rt, &mut book)?;
    let place = given.unwrap_or(place_of(&book, 3));
    same(rt, take_at(rt, &mut book, 3, place, 100), Taken::Left(200));
    let place = given.unwrap_or(place_of(&book, 5));
    same(rt, take_at(rt, &mut book, 5, place, 500), Taken::Gone);
    let place = given.unwrap_or(place_of(&book, 4));
    same(rt, delete_at(rt, &mut book, 4, place).reference, 4);
    let place = given.unwrap_or(place_of(&book, 2));
    replace_at(rt, &mut book, 2, place, 8, 50, 1500000)?;
    check_walk(rt, &book, 1, &[1, 3, 8, 6]);
    same(rt, total(&book, 1, Side::Buy, 1500000), (350, 3));
    Ok(())
}

// Checks that changes are the same by any place.
fn check_given<B: OrderBook>(rt: &impl Host, memory: B::Alloc) -> Result<(), AllocError> {
    check_changes::<B>(rt, memory, None)?;
    for place in [0, 1, 2, 3, 4, 5, 6, 7, usize::MAX] {
        check_changes::<B>(rt, memory, Some(place))?;
    }
    Ok(())
}

// Checks each call of an empty book.
fn check_each_call<B: OrderBook>(rt: &impl Host, book: &mut B) -> Result<(), AllocError> {
    fill(rt, book)?;
    check_order(rt, book);
    check_prices(rt, book);
    check_totals(rt, book);
    check_takes(rt, book);
    check_delete(rt, book);
    check_replace(rt, book)
}

// Checks each call of a new book in this memory.
fn check_calls<B: OrderBook>(rt: &impl Host, memory: B::Alloc) -> Result<(), AllocError> {
    let mut book = B::new(memory);
    check_each_call(rt, &mut book)?;
    check_given::<B>(rt, memory)
}

// Adds a level of a thousand orders.
fn fill_level<B: OrderBook>(rt: &impl Host, book: &mut B) -> Result<(), AllocError> {
    for number in 1..1001 {
        add(rt, book, order(number, Side::Buy, 10, 1500000))?;
    }
    Ok(())
}

// Deletes an order in the middle of the level, takes all shares of the first, and replaces the last.
fn change_level<B: OrderBook>(rt: &impl Host, book: &mut B) -> Result<(), AllocError> {
    delete(rt, book, 500);
    same(rt, take(rt, book, 1, 10), Taken::Gone);
    replace(rt, book, 1000, 2000, 5, 1500000)
}

// Checks the level after these changes.
fn check_level<B: OrderBook>(rt: &impl Host, book: &B) {
    same(rt, total(book, 1, Side::Buy, 1500000), (9975, 998));
    same(rt, reference(book.front(1, Side::Buy)), 2);
    for (number, want) in [(499, 501), (999, 2000), (2000, 0)] {
        same(rt, next(rt, book, number), want);
    }
}

// Checks a level of a thousand orders in a new book in this memory, after three changes.
fn check_priority<B: OrderBook>(rt: &impl Host, memory: B::Alloc) -> Result<(), AllocError> {
    let mut book = B::new(memory);
    fill_level(rt, &mut book)?;
    change_level(rt, &mut book)?;
    check_level(rt, &book);
    Ok(())
}

#[test]
fn list_book_calls(rt: HostRuntime) -> TestResult {
    Ok(check_calls::<ListBook>(&rt, rt.alloc())?)
}

#[test]
fn indexed_book_calls(rt: HostRuntime) -> TestResult {
    Ok(check_calls::<IndexedBook>(&rt, rt.alloc())?)
}

#[test]
fn list_book_keeps_priority(rt: HostRuntime) -> TestResult {
    Ok(check_priority::<ListBook>(&rt, rt.alloc())?)
}

#[test]
fn indexed_book_keeps_priority(rt: HostRuntime) -> TestResult {
    Ok(check_priority::<IndexedBook>(&rt, rt.alloc())?)
}

mod adaptive;
mod ladders;
mod many;
mod settled;
mod side_by_side;
