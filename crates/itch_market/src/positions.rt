//! The market participants' positions in a security.
ghost use Rattle.std.specs.Prelude.{◌≡◌, List, ℕ, ⊤};
ghost use Rattle.std.specs.Iterator.{YieldsFirst, item_count};

use itch_codec::Alpha;
use std::alloc::AllocError;
use std::collections::btree_map::Iter;
use std::marker::Model;

/// Iterates over the market participants of a security, in ascending order of their bytes, each with its primary market maker, mode and
/// state.
#[derive(Drop)]
pub struct Positions<'a> {
    pub(crate) entries: Iter<'a, Alpha<4>, [u8; 3]>,
}

impl<'a> Model for Positions<'a> {
    ghost Value = { List (List ℕ × List ℕ) };

    ghost view = { λ p. p.entries };
}

/// Returns a second iterator over the remaining positions. It allocates nothing.
impl Clone for Positions<'_> {
    ghost is_clone = { λ positions copy. copy ≡ positions };

    ghost is_infallible = { λ _. ⊤ };

    fn clone(&self) -> Result<Self, AllocError> {
        Ok(Positions {
            entries: self.entries.clone()?,
        })
    }
}

impl Iterator for Positions<'_> {
    type Item = (Alpha<4>, [u8; 3]);

    ghost next_gives = { YieldsFirst (λ p. p) };

    ghost remaining = { item_count (λ p. p) };

    fn next(&mut self) -> Option<(Alpha<4>, [u8; 3])> {
        let (mpid, position) = self.entries.next()?;
        Some((*mpid, *position))
    }
}
