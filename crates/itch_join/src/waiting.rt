//! The waiting messages.
ghost use Rattle.std.specs.Prelude.{◌≡◌, ◌<◌, ◌^◌, Some, None, is_some, not, nat_lt, MatchOption, OnOk, OnErr};
ghost use Rattle.std.specs.FinMap as map;
ghost use Rattle.itch_join.specs.Waits.{AreNumbers};

use std::alloc::{AllocError, Allocator};
use std::collections::BTreeMap;
use std::marker::Model;

/// The waiting messages, by number.
#[derive(Drop)]
pub struct Waiting<A: Allocator + Copy> {
    alloc: A,
    messages: BTreeMap<u64, Vec<u8, A>, A>,
}

impl<A: Allocator + Copy> Model for Waiting<A> {
    ghost use Rattle.std.specs.Prelude.{List, ℕ};
    ghost use Rattle.std.specs.Ordering.{nat_cmp};
    ghost use Rattle.std.specs.FinMap as map;
    ghost use Rattle.std.specs.Coded.{codes};
    ghost use Rattle.itch_join.specs.Waits.{waits_of, AreNumbers};

    ghost Value = { map.FinMap nat_cmp (List ℕ) };

    ghost coded = { Prim.hlevel (codes, map.code) };

    ghost view = { λ w. waits_of w.messages };

    ghost invariant = { λ w. AreNumbers (waits_of w.messages) };
}

impl<A: Allocator + Copy> Waiting<A> {
    /// Creates a collection without messages. It allocates no memory.
    pub fn new(alloc: A) -> Self
        ensures { result ≡ map.empty }
    {
        Waiting {
            alloc,
            messages: BTreeMap::new(alloc),
        }
    }

    /// Returns the number of waiting messages.
    pub fn len(&self) -> usize
        ensures { result ≡ map.len self.now }
    {
        self.messages.len()
    }

    /// Returns the payload that is waiting under a number.
    pub fn get(&self, number: u64) -> Option<&[u8]>
        ensures found { MatchOption result (map.get self.now number ≡ None) (λ p. map.get self.now number ≡ Some p.now) }
        ensures numbers { AreNumbers self.now }
    {
        let payload = self.messages.get(&number)?;
        Some(payload.as_slice())
    }

    /// Returns whether a message is waiting under a number.
    pub fn has(&self, number: u64) -> bool
        ensures { result ≡ is_some (map.get self.now number) }
    {
        self.get(number).is_some()
    }

    /// Stores a copy of a payload under a number, in place of any other payload there.
    pub fn insert(&mut self, number: u64, payload: &[u8]) -> Result<(), AllocError>
        requires { number < 10 ^ 19 }
        ensures ok { OnOk result (self.new ≡ map.insert self.old number payload.now) }
        ensures err { OnErr result (self.new ≡ self.old) }
    {
        let mut bytes = Vec::new(self.alloc);
        bytes.extend_from_slice(payload)?;
        self.messages.insert(number, bytes)?;
        Ok(())
    }

    /// Drops the message that is waiting under a number, if there is one.
    pub fn remove(&mut self, number: u64)
        ensures { self.new ≡ map.remove self.old number }
    {
        self.messages.remove(&number);
    }

    /// Drops the messages with numbers below `next`.
    pub fn keep_from(&mut self, next: u64)
        ensures { self.new ≡ map.retain_keys self.old (λ i. not (nat_lt i next)) }
    {
        while let Some((number, _)) = self.messages.first_key_value() {
            if *number >= next {
                return;
            }
            self.messages.pop_first();
        }
    }
}
