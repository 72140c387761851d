//! The operational halts of a security.
ghost use Rattle.std.specs.Prelude.{◌≡◌, List, ℕ, ⊤};
ghost use Rattle.std.specs.Iterator.{YieldsFirst, item_count};

use std::alloc::AllocError;
use std::collections::btree_map::Iter;
use std::marker::Model;

/// Iterates over the market codes of a security's operational halts, in ascending order, each with its last action.
#[derive(Drop)]
pub struct Halts<'a> {
    pub(crate) entries: Iter<'a, u8, u8>,
}

impl<'a> Model for Halts<'a> {
    ghost Value = { List (ℕ × ℕ) };

    ghost view = { λ h. h.entries };
}

/// Returns a second iterator over the remaining halts. It allocates nothing.
impl Clone for Halts<'_> {
    ghost is_clone = { λ halts copy. copy ≡ halts };

    ghost is_infallible = { λ _. ⊤ };

    fn clone(&self) -> Result<Self, AllocError> {
        Ok(Halts {
            entries: self.entries.clone()?,
        })
    }
}

impl Iterator for Halts<'_> {
    type Item = (u8, u8);

    ghost next_gives = { YieldsFirst (λ h. h) };

    ghost remaining = { item_count (λ h. h) };

    fn next(&mut self) -> Option<(u8, u8)> {
        let (market_code, action) = self.entries.next()?;
        Some((*market_code, *action))
    }
}
