//! An allocator that refuses one allocation.

ghost use Rattle.std.specs.Prelude.{◌≡◌, ◌≢◌, ℕ, true, false, Some};
ghost use Rattle.std.specs.Fn.{iterate};
ghost use Rattle.test_doubles.specs.Countdown.{goes_through, after_one};

use std::alloc::{AllocError, Allocator};
use std::cell::Cell;

/// Passes each call on to another allocator, except for one allocation, which it refuses.
///
/// A `&Refusing<B>` is an allocator too, and `Copy`: a test keeps the allocator, and lends it to the code under test.
pub struct Refusing<B: Allocator> {
    inner: B,
    // The number of allocations before the one that is refused, or `None` after the refusal.
    before: Cell<Option<u64>>,
}

impl<B: Allocator> Refusing<B> {
    /// Creates one that lets `nth` allocations through, refuses the next one, and lets all later ones through.
    pub fn new(inner: B, nth: u64) -> Refusing<B> {
        Refusing {
            inner,
            before: Cell::new(Some(nth)),
        }
    }

    /// Starts again: `nth` more allocations go through, and the next one is refused.
    pub fn arm(&self, nth: u64) {
        self.before.set(Some(nth));
    }

    /// Returns whether the allocation was refused. After `arm(0)`: whether there was any allocation.
    pub fn has_refused(&self) -> bool {
        self.before.get().is_none()
    }
}

impl<B: Allocator> Drop for Refusing<B> {
    fn drop(self) {
        let Self {
            inner: _,
            before: _,
        } = self;
    }
}

/// Of allocations counted from 0, only the `nth` is refused.
///
/// This function does nothing; its clauses are the law.
#[tactic(auto, using(crate::proofs::OneRefusal::refused_there, crate::proofs::OneRefusal::granted_elsewhere))]
pub fn one_refusal()
    ensures refused { (nth : ℕ) → goes_through (iterate after_one nth (Some nth)) ≡ false }
    ensures others { (nth place : ℕ) → place ≢ nth → goes_through (iterate after_one place (Some nth)) ≡ true }
{}

// Returns whether the next allocation goes through, from the number of allocations before the refusal.
fn goes_through(before: Option<u64>) -> bool
    ensures { result ≡ goes_through before }
{
    before != Some(0)
}

// Returns the number before the refusal after one more allocation, or `None` if there is no refusal to come.
fn after_one(before: Option<u64>) -> Option<u64>
    ensures { result ≡ after_one before }
{
    before?.checked_sub(1)
}

// Counts an allocation, and returns whether it goes through.
fn admits(before: &Cell<Option<u64>>) -> bool {
    let now = before.get();
    before.set(after_one(now));
    goes_through(now)
}

unsafe impl<B: Allocator> Allocator for Refusing<B> {
    ghost dealloc_token = { λ heap ty ptr. B.dealloc_token heap.inner ty ptr };

    fn allocate(&self, size: usize, align: usize) -> Result<*mut u8, AllocError> {
        if !admits(&self.before) {
            return Err(AllocError);
        }
        self.inner.allocate(size, align)
    }

    unsafe fn deallocate(&self, ptr: *mut u8, size: usize, align: usize) {
        self.inner.deallocate(ptr, size, align);
    }
}

#[cfg(test)]
mod tests {
    use super::*;
    use std::test::Fail;

    // Returns which of eight allocations are refused.
    fn refusals<A: Allocator>(alloc: A) -> [bool; 8] {
        let mut refused = [false; 8];
        for at in 0..8 {
            let mut list: Vec<u8, &A> = Vec::new(&alloc);
            refused[at] = list.push(1).is_err();
        }
        refused
    }

    // Returns whether only the allocation at this place is refused, or none of the eight if the place is beyond them.
    fn is_at(refused: [bool; 8], nth: u64) -> bool {
        let mut place = 0u64;
        for one in refused {
            if one != (place == nth) {
                return false;
            }
            place = place.saturating_add(1);
        }
        true
    }

    #[test]
    fn refuses_one_allocation(rt: HostRuntime) -> Result<(), Fail> {
        let alloc = Refusing::new(rt.alloc(), 2);
        assert!(rt; is_at(refusals(&alloc), 2));
        assert!(rt; alloc.has_refused());
        for nth in 0..12u64 {
            alloc.arm(nth);
            assert!(rt; !alloc.has_refused());
            assert!(rt; is_at(refusals(&alloc), nth));
            assert!(rt; alloc.has_refused() == (nth < 8));
        }
        // Eight of the eleven allocations before the last refusal have gone through.
        assert!(rt; is_at(refusals(&alloc), 3));
        assert!(rt; is_at(refusals(alloc), 8));
        Ok(())
    }

    // A refusal by the inner allocator is passed on and not counted; a refused allocation does not reach the inner allocator.
    #[test]
    fn passes_a_refusal_on(rt: HostRuntime) -> Result<(), Fail> {
        let inner = Refusing::new(rt.alloc(), 1);
        let alloc = Refusing::new(&inner, 8);
        assert!(rt; is_at(refusals(&alloc), 1));
        assert!(rt; inner.has_refused());
        assert!(rt; !alloc.has_refused());
        inner.arm(7);
        assert!(rt; is_at(refusals(&alloc), 0));
        assert!(rt; alloc.has_refused());
        assert!(rt; !inner.has_refused());
        assert!(rt; is_at(refusals(&inner), 0));
        Ok(())
    }
}
