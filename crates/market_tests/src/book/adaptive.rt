//! Adaptive books with the rows of the others, and beside a list with look-ups after each change, after some, and after many.
use super::side_by_side::check_turns;
use super::{check_calls, check_priority};
use crate::equal::TestResult;
use itch_adaptive::AdaptiveBook;
use itch_book::{IndexedBook, ListBook, OrderBook, SettledBook};

type Adaptive = AdaptiveBook<SettledBook, IndexedBook>;

#[test]
fn adaptive_book_calls(rt: HostRuntime) -> TestResult {
    Ok(check_calls::<Adaptive>(&rt, rt.alloc())?)
}

#[test]
fn adaptive_book_keeps_priority(rt: HostRuntime) -> TestResult {
    Ok(check_priority::<Adaptive>(&rt, rt.alloc())?)
}

#[test]
fn an_adaptive_book_stays_the_same(rt: HostRuntime) -> TestResult {
    for every in [1, 7, 100] {
        let mut one: ListBook = ListBook::new(rt.alloc());
        let mut other: Adaptive = AdaptiveBook::new(rt.alloc());
        check_turns(&rt, &mut one, &mut other, every)?;
    }
    Ok(())
}
