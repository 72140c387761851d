//! Orders added and replaced.
use crate::book::{add, has_len, live, next_price, order, replace_at, total};
use crate::equal::{Host, TestResult, same};
use crate::market::content::push_orders;
use itch_book::{IndexedBook, ListBook, Order, OrderBook, SettledBook};
use itch_codec::Side;
use std::alloc::{AllocError, Global};
use test_doubles::Refusing;

// Makes a call that may grow a book: it adds an order, or replaces another one by it.
fn call<B: OrderBook>(
    rt: &impl Host,
    book: &mut B,
    original: Option<u64>,
    order: Order,
) -> Result<(), AllocError> {
    match original {
        None => add(rt, book, order),
        Some(original) => {
            let (shares, price) = (order.shares, order.price);
            replace_at(rt, book, original, 0, order.reference, shares, price)
        }
    }
}

// Returns the orders at locate 1, in snapshot order.
fn listed<B: OrderBook>(rt: &impl Host, book: &B) -> Result<Vec<Order>, AllocError> {
    let mut orders = Vec::new(rt.alloc());
    push_orders(rt, book, 1, &mut orders)?;
    Ok(orders)
}

// Returns the best price on the side of an order, and the total at its price.
fn level<B: OrderBook>(book: &B, order: &Order) -> (Option<u32>, (u128, u64)) {
    (
        next_price(book, order.side, None),
        total(book, 1, order.side, order.price),
    )
}

// Checks that these are the orders at locate 1.
fn has_orders<B: OrderBook>(rt: &impl Host, book: &B, want: &[Order]) -> Result<(), AllocError> {
    same(rt, listed(rt, book)?.as_slice(), want);
    Ok(())
}

// Makes a call with this allocation refused. Returns whether it was refused.
fn refuse_one<B: OrderBook>(
    rt: &impl Host,
    refusing: &Refusing<Global>,
    book: &mut B,
    original: Option<u64>,
    order: Order,
    nth: u64,
) -> bool {
    let again = order;
    let reference = order.reference;
    refusing.arm(nth);
    let is_done = call(rt, book, original, order).is_ok();
    same(rt, refusing.has_refused(), !is_done);
    let want = if is_done { Some(again) } else { None };
    same(rt, live(book, reference), want);
    !is_done
}

// Makes a call with each of its allocations refused in turn, and then with memory. Returns how many were refused.
fn refuse_each<B: OrderBook>(
    rt: &impl Host,
    refusing: &Refusing<Global>,
    book: &mut B,
    original: Option<u64>,
    order: Order,
) -> Result<u64, AllocError> {
    let orders = listed(rt, book)?;
    let before = level(book, &order);
    for nth in 0..16 {
        if !refuse_one(rt, refusing, book, original, order, nth) {
            return Ok(nth);
        }
        has_orders(rt, book, &orders)?;
        same(rt, &level(book, &order), &before);
    }
    panic!(rt; "more than 16 allocations")
}

// Adds forty orders, each `2 * step` above the one before, and replaces every `every`-th by one that is `step` above it. Returns how many
// allocations of the additions and of the replacements were refused.
fn grow<B: OrderBook>(
    rt: &impl Host,
    refusing: &Refusing<Global>,
    book: &mut B,
    (step, every): (u32, u64),
) -> Result<(u64, u64), AllocError> {
    let mut additions = 0u64;
    let mut replacements = 0u64;
    for number in 1..41u64 {
        let price = 1500000u32.wrapping_add(step.wrapping_mul(2 * number as u32));
        let reference = number * 4;
        let added = order(reference, Side::Buy, 10, price);
        let refused = refuse_each(rt, refusing, book, None, added)?;
        additions = additions.saturating_add(refused);
        if number.checked_rem(every) == Some(0) {
            let replacement = order(reference + 400, Side::Buy, 20, price.wrapping_add(step));
            let refused = refuse_each(rt, refusing, book, Some(reference), replacement)?;
            replacements = replacements.saturating_add(refused);
            assert!(rt; live(book, reference).is_none());
        }
    }
    has_len(rt, book, 40);
    Ok((additions, replacements))
}

// The distance of the prices, and which orders are replaced.
const WAYS: [(u32, u64); 4] = [(0, 1), (0, 3), (100, 1), (100, 3)];

#[test]
fn a_list_book_stays_as_it_was(rt: HostRuntime) -> TestResult {
    for (step, every) in WAYS {
        let refusing = Refusing::new(rt.alloc(), 0);
        let mut book: ListBook<&Refusing<Global>> = ListBook::new(&refusing);
        let (additions, replacements) = grow(&rt, &refusing, &mut book, (step, every))?;
        assert!(rt; additions > 1);
        // The replaced order leaves room.
        same(&rt, replacements, 0);
    }
    Ok(())
}

// A refused call keeps the room that it made, so three calls for the first order are refused. A replacement of every order makes the
// allocations that follow; a replacement of every third leaves them to the additions.
#[test]
fn an_indexed_book_stays_as_it_was(rt: HostRuntime) -> TestResult {
    for (step, every) in WAYS {
        let refusing = Refusing::new(rt.alloc(), 0);
        let mut book: IndexedBook<&Refusing<Global>> = IndexedBook::new(&refusing);
        let (additions, replacements) = grow(&rt, &refusing, &mut book, (step, every))?;
        assert!(rt; additions >= 3);
        assert!(rt; additions > 3 || every == 1);
        assert!(rt; replacements > 3 || every == 3);
    }
    Ok(())
}

// Adds three hundred levels, more than fit one line of an indexed book.
fn fill_line<B: OrderBook>(rt: &impl Host, book: &mut B) -> Result<(), AllocError> {
    for number in 1000..1300u32 {
        add(
            rt,
            book,
            order(u64::from(number), Side::Buy, 10, 1000000 + number),
        )?;
    }
    Ok(())
}

// Calls for new levels are refused in turn when their line is full, above and below the existing levels.
#[test]
fn an_indexed_book_with_a_full_line_stays_as_it_was(rt: HostRuntime) -> TestResult {
    let refusing = Refusing::new(rt.alloc(), u64::MAX);
    let mut book: IndexedBook<&Refusing<Global>> = IndexedBook::new(&refusing);
    fill_line(&rt, &mut book)?;
    let mut refused = 0u64;
    for number in 1..21u32 {
        for price in [1000000 + number, 1002000 + number] {
            let added = order(u64::from(price), Side::Buy, 10, price);
            let added = refuse_each(&rt, &refusing, &mut book, None, added)?;
            refused = refused.saturating_add(added);
        }
    }
    assert!(rt; refused > 3);
    has_len(&rt, &book, 340);
    Ok(())
}

#[test]
fn a_settled_book_stays_as_it_was(rt: HostRuntime) -> TestResult {
    for (step, every) in WAYS {
        let refusing = Refusing::new(rt.alloc(), 0);
        let mut book: SettledBook<&Refusing<Global>> = SettledBook::new(&refusing);
        let (additions, replacements) = grow(&rt, &refusing, &mut book, (step, every))?;
        assert!(rt; additions > 1);
        assert!(rt; replacements > 0 || every == 3);
    }
    Ok(())
}

// Orders are sorted in place. A book that is refused memory for its hints does without them.
#[test]
fn a_book_is_settled_without_memory(rt: HostRuntime) -> TestResult {
    let refusing = Refusing::new(rt.alloc(), 0);
    let mut book: SettledBook<&Refusing<Global>> = SettledBook::new(&refusing);
    grow(&rt, &refusing, &mut book, (100, 3))?;
    let orders = listed(&rt, &book)?;
    refusing.arm(0);
    book.settle();
    assert!(rt; refusing.has_refused());
    assert!(rt; book.is_settled());
    has_orders(&rt, &book, &orders)?;
    Ok(())
}
