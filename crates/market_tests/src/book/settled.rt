//! Settled books with the rows of the others: one that is never settled, and one that is settled after each change.
use super::{add, check_calls, check_priority, first, order};
use crate::equal::TestResult;
use itch_book::{Order, OrderBook, Placed, SettledBook, Taken};
use itch_codec::Side;
use std::alloc::{AllocError, Allocator, Global};

/// A book that is settled after each change, so that each look-up is a search.
#[derive(Drop)]
pub(super) struct Settling<A: Allocator = Global> {
    book: SettledBook<A>,
}

impl<A: Allocator + Copy> OrderBook for Settling<A> {
    type Alloc = A;

    ghost orders = { λ b. b.book.arrivals.orders };

    fn new(alloc: A) -> Self {
        Settling {
            book: SettledBook::new(alloc),
        }
    }

    fn len(&self) -> usize {
        self.book.len()
    }

    fn get(&self, reference: u64) -> Option<&Order> {
        self.book.get(reference)
    }

    fn find(&self, reference: u64) -> Option<Placed<'_>> {
        self.book.find(reference)
    }

    fn first(&self, locate: u16) -> Option<Placed<'_>> {
        self.book.first(locate)
    }

    fn after(&self, reference: u64, place: usize) -> Option<Placed<'_>> {
        self.book.after(reference, place)
    }

    fn front(&self, locate: u16, side: Side) -> Option<&Order> {
        self.book.front(locate, side)
    }

    fn next_price(&self, locate: u16, side: Side, last: Option<u32>) -> Option<u32> {
        self.book.next_price(locate, side, last)
    }

    fn level_total(&self, locate: u16, side: Side, price: u32) -> (u128, u64) {
        self.book.level_total(locate, side, price)
    }

    fn add(&mut self, order: Order) -> Result<(), AllocError> {
        self.book.add(order)?;
        self.book.settle();
        Ok(())
    }

    fn take(&mut self, reference: u64, place: usize, shares: u32) -> Taken {
        let left = self.book.take(reference, place, shares);
        self.book.settle();
        left
    }

    fn delete(&mut self, reference: u64, place: usize) -> Order {
        let order = self.book.delete(reference, place);
        self.book.settle();
        order
    }

    fn replace(
        &mut self,
        original: u64,
        place: usize,
        reference: u64,
        shares: u32,
        price: u32,
    ) -> Result<(), AllocError> {
        self.book
            .replace(original, place, reference, shares, price)?;
        self.book.settle();
        Ok(())
    }

    fn settle(&mut self) {
        self.book.settle();
    }

    ghost is_book = { λ b. b.book.is_kept };
}

#[test]
fn settled_book_calls(rt: HostRuntime) -> TestResult {
    check_calls::<SettledBook>(&rt, rt.alloc())?;
    Ok(check_calls::<Settling>(&rt, rt.alloc())?)
}

#[test]
fn settled_book_keeps_priority(rt: HostRuntime) -> TestResult {
    check_priority::<SettledBook>(&rt, rt.alloc())?;
    Ok(check_priority::<Settling>(&rt, rt.alloc())?)
}

// After a change, a settled book is no longer settled.
#[test]
fn settled_until_a_change(rt: HostRuntime) -> TestResult {
    let mut book: SettledBook = SettledBook::new(rt.alloc());
    assert!(rt; !book.is_settled());
    book.settle();
    assert!(rt; book.is_settled());
    add(&rt, &mut book, order(1, Side::Buy, 10, 1500000))?;
    assert!(rt; !book.is_settled());
    book.settle();
    assert!(rt; book.is_settled());
    assert!(rt; first(&book, 1).is_some());
    Ok(())
}
