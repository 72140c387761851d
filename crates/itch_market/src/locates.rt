//! The locates of the directory.
ghost use Rattle.std.specs.Prelude.{◌≡◌, ◌≤◌, List, ℕ, length, ⊤};
ghost use Rattle.std.specs.Iterator.{YieldsFirst, item_count};
ghost use Rattle.itch_market.specs.Slots.{locates_from, IsFirstFrom};

use crate::security::Security;
use std::alloc::{AllocError, Allocator};
use std::marker::Model;

/// Iterates over the locates of the directory, in ascending order.
#[derive(Drop)]
pub struct Locates<'a, A: Allocator> {
    slots: &'a [Option<Security<A>>],
    // The first locate that was not visited yet.
    next: usize,
}

impl<'a, A: Allocator> Model for Locates<'a, A> {
    ghost use Rattle.std.specs.Prelude.{◌≤◌, List, ℕ, length};
    ghost use Rattle.itch_market.specs.Slots.{locates_from};

    ghost Value = { List ℕ };

    ghost view = { λ l. locates_from l.next l.slots.now };

    ghost invariant = { λ l. length l.slots.now ≤ 65536 };
}

impl<'a, A: Allocator> Locates<'a, A> {
    /// Creates an iterator over the locates whose slots have a security.
    pub(crate) fn new(slots: &'a [Option<Security<A>>]) -> Locates<'a, A>
        requires { length slots.now ≤ 65536 }
        ensures { result ≡ locates_from 0 slots.now }
    {
        Locates { slots, next: 0 }
    }
}

/// Returns a second iterator over the remaining locates. It allocates nothing.
impl<A: Allocator> Clone for Locates<'_, A> {
    ghost is_clone = { λ locates copy. copy ≡ locates };

    ghost is_infallible = { λ _. ⊤ };

    fn clone(&self) -> Result<Self, AllocError> {
        Ok(Locates {
            slots: self.slots,
            next: self.next,
        })
    }
}

impl<A: Allocator> Iterator for Locates<'_, A> {
    type Item = u16;

    ghost next_gives = { YieldsFirst (λ l. l) };

    ghost remaining = { item_count (λ l. l) };

    fn next(&mut self) -> Option<u16> {
        let locate = first_from(self.slots, self.next)?;
        self.next = locate + 1;
        Some(locate as u16)
    }
}

// Returns the first locate with a security, from `from` on.
fn first_from<A: Allocator>(slots: &[Option<Security<A>>], from: usize) -> Option<usize>
    ensures { IsFirstFrom from slots.now result }
{
    for locate in from..slots.len() {
        if slots[locate].is_some() {
            return Some(locate);
        }
    }
    None
}
