//! Slots for securities.
ghost use Rattle.std.specs.Prelude.{◌≡◌, ◌<◌, ◌≤◌, Some, IsSome, IsNone, OnOk, OnErr, length, set};
ghost use Rattle.std.specs.FinMap as map;
ghost use Rattle.itch_market.specs.Content.{Listing};
ghost use Rattle.std.specs.Str.{bytes_eq};
ghost use Rattle.itch_market.specs.Slots.{directory, slot, has_stock};

use crate::security::Security;
use itch_codec::Alpha;
use std::alloc::{AllocError, Allocator, Global};
use std::marker::Model;

/// Slots by locate, each with a security or empty.
///
/// The stocks of the securities are stored contiguously, so that comparing one reads eight bytes and no other part of its security.
#[derive(Drop)]
pub(crate) struct NamedSlots<A: Allocator = Global> {
    slots: Vec<Option<Security<A>>, A>,
    // The stock of each security, or zeros for an empty slot.
    stocks: Vec<[u8; 8], A>,
}

impl<A: Allocator> Model for NamedSlots<A> {
    ghost use Rattle.std.specs.Prelude.{◌≡◌, List, Option, map};
    ghost use Rattle.std.specs.FinMap as fin;
    ghost use Rattle.std.specs.Coded.{codes};
    ghost use Rattle.itch_market.specs.Content.{Listing};
    ghost use Rattle.itch_market.specs.Slots.{stock_in};

    ghost Value = { List (Option Listing) };

    ghost coded = { Prim.hlevel (codes, fin.code) };

    ghost view = { λ s. s.slots.items };

    ghost invariant = { λ s. s.stocks.items ≡ map stock_in s.slots.items };
}

impl<A: Allocator + Copy> NamedSlots<A> {
    /// Creates a collection without slots, without allocating.
    pub(crate) fn new(alloc: A) -> Self
        ensures { length result ≡ 0 }
    {
        NamedSlots {
            slots: Vec::new(alloc),
            stocks: Vec::new(alloc),
        }
    }

    /// Returns all slots, from locate 0 on.
    pub(crate) fn all(&self) -> &[Option<Security<A>>]
        ensures { result.now ≡ self.now }
    {
        &self.slots
    }

    /// Returns whether a slot has a security with this stock.
    #[inline(always)]
    pub(crate) fn has_stock(&self, at: usize, stock: Alpha<8>) -> bool
        ensures { result ≡ has_stock (slot self.now at) stock }
    {
        match self.stocks.get(at) {
            Some(known) => are_same(*known, *stock.bytes()),
            None => false,
        }
    }

    /// Returns the allocator of the slots' memory.
    pub(crate) fn allocator(&self) -> A {
        *self.slots.allocator()
    }

    /// Takes the security out of a slot. The caller puts it back there.
    pub(crate) fn take(&mut self, at: usize) -> Option<Security<A>>
        ensures security { result ≡ map.get (directory self.old) at }
        ensures none { IsNone result → directory self.new ≡ directory self.old }
        ensures some { IsSome result → at < length self.new }
        ensures again { IsSome result → (s : Listing) → directory (set self.new at (Some s)) ≡ map.insert (directory self.old) at s }
        ensures len { length self.new ≡ length self.old }
    {
        if at < self.slots.len() {
            self.stocks[at] = [0; 8];
            self.slots[at].take()
        } else {
            None
        }
    }

    /// Extends the slots to this length, if they are shorter. If an allocation fails, nothing changes.
    pub(crate) fn grow_to(&mut self, len: usize) -> Result<(), AllocError>
        requires { len ≤ 65536 }
        ensures directory { directory self.new ≡ directory self.old }
        ensures most { length self.old ≤ 65536 → length self.new ≤ 65536 }
        ensures len { OnOk result (len ≤ length self.new) }
        ensures full { OnErr result (length self.old < len) }
    {
        if self.slots.len() < len {
            let more = len - self.slots.len();
            self.slots.reserve(more)?;
            self.stocks.reserve(more)?;
            while self.slots.len() < len {
                self.slots.push_reserved(None);
                self.stocks.push_reserved([0; 8]);
            }
        }
        Ok(())
    }

    /// Fills a slot.
    pub(crate) fn put(&mut self, at: usize, security: Security<A>)
        requires { at < length self.old }
        ensures filled { self.new ≡ set self.old at (Some security) }
        ensures len { length self.new ≡ length self.old }
    {
        self.stocks[at] = *security.entry.stock.bytes();
        self.slots[at] = Some(security);
    }
}

// Returns whether two stocks are the same. They are compared as numbers, and not byte by byte.
#[inline(always)]
fn are_same(one: [u8; 8], other: [u8; 8]) -> bool
    ensures { result ≡ bytes_eq one other }
{
    u64::from_be_bytes(one) == u64::from_be_bytes(other)
}
