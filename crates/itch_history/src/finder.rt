//! Passes the messages of a day up to the first that names an order.
ghost use Rattle.std.specs.Prelude.{◌≡◌, ◌++◌, ◌∷◌, [], IfOk, MatchResult, false, true, IsSome};
ghost use Rattle.itch_history.specs.Histories.{listed, names, number_before, replacement_of};
ghost use Rattle.itch_history.specs.Searches.{Collects};

use crate::chain::{Replacement, before_replacement, names};
use itch_codec::{CodecFault, Message};
use itch_day::Sink;
use std::alloc::{AllocError, Allocator};

/// Looks for the first message that names an order, and collects the replacements before it.
#[derive(Drop)]
pub struct Finder<A: Allocator> {
    pub number: u64,
    pub replacements: Vec<Replacement, A>,
}

/// The reason why a message is not passed.
#[derive(Drop)]
pub enum NotPassed {
    /// It is the first to name the order, which had this number before it.
    Found(u64),
    /// Its payload is not a valid message.
    Codec(CodecFault),
    /// Memory ran out for a replacement.
    OutOfMemory,
}

impl<A: Allocator> Finder<A> {
    /// Creates a finder of the order with this number, before any message.
    pub fn new(alloc: A, number: u64) -> Finder<A>
        ensures number { result.number ≡ number }
        ensures replacements { result.replacements.items ≡ [] }
    {
        Finder {
            number,
            replacements: Vec::new(alloc),
        }
    }

    // Passes a message, or returns why it does not.
    #[inline(always)]
    fn pass(&mut self, message: &Message<'_>) -> Result<(), NotPassed>
        ensures number { self.new.number ≡ self.old.number }
        ensures collects { Collects self.old.number message.now self.old.replacements.items result self.new.replacements.items }
    {
        let replacement = Replacement::of(message);
        if names(self.number, message) {
            return Err(NotPassed::Found(before_replacement(replacement, self.number)));
        }
        match replacement {
            Some(replacement) => self.push(replacement),
            None => Ok(()),
        }
    }

    // Adds a replacement to the list.
    #[cold]
    #[inline(never)]
    fn push(&mut self, replacement: Replacement) -> Result<(), NotPassed>
        ensures number { self.new.number ≡ self.old.number }
        ensures pushed { MatchResult result (λ _. self.new.replacements.items ≡ self.old.replacements.items ++ replacement ∷ [])
            (λ why. why ≡ NotPassed.OutOfMemory) }
    {
        match self.replacements.push(replacement) {
            Ok(()) => Ok(()),
            Err(_error) => Err(NotPassed::OutOfMemory),
        }
    }
}

impl<A: Allocator> Sink for Finder<A> {
    ghost use Rattle.std.specs.Prelude.{◌≡◌};
    ghost use Rattle.itch_history.specs.Searches.{Finds, PassesMessage};

    type Fault = NotPassed;

    ghost is_ready = { λ _ _. Unit {0} };

    ghost takes = { λ s number payload t. (t.number ≡ s.number) × PassesMessage s.number payload s.replacements.items t.replacements.items };

    ghost refuses = { λ s number payload why t. Finds s.number payload s.replacements.items why t.replacements.items };

    #[inline(always)]
    fn take(
        &mut self,
        number: u64,
        payload: &[u8],
        message: &Result<Message<'_>, CodecFault>,
    ) -> Result<(), NotPassed> {
        let _number = number;
        let _payload = payload;
        match message {
            Ok(message) => self.pass(message),
            Err(fault) => Err(NotPassed::Codec(*fault)),
        }
    }
}
