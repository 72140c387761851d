//! Links to places of a vector or a slab, of half a machine word each.
ghost use Rattle.std.specs.Prelude.{◌≡◌, ℕ, ◌<◌, Option, Some, None};
ghost use Rattle.itch_book.specs.Link.{place_of, word_of, word_of-place_of};

use std::marker::Model;

/// A place, or no place.
#[derive(Clone, Copy)]
pub(crate) struct Link {
    // The largest number means no place: every place is below it.
    word: u32,
}

impl Model for Link {
    ghost Value = { Option ℕ };

    ghost view = { λ link. place_of link.word };

    ghost inverse = { λ place. record { word = word_of place } };

    ghost inverse_ok = { λ link h i. record { word = word_of-place_of link.word i } };
}

impl Link {
    /// Returns a link to no place.
    #[inline(always)]
    pub(crate) fn none() -> Link
        ensures { result ≡ None }
    {
        Link { word: u32::MAX }
    }

    /// Returns a link to a place.
    #[inline(always)]
    pub(crate) fn to(place: u32) -> Link
        requires { place < 4294967295 }
        ensures { result ≡ Some place }
    {
        Link { word: place }
    }

    /// Returns the place.
    #[inline(always)]
    pub(crate) fn place(self) -> Option<u32>
        ensures { result ≡ self }
    {
        if self.word == u32::MAX {
            return None;
        }
        Some(self.word)
    }

    /// Returns the place, as the key of a slab.
    pub(crate) fn key(self) -> Option<usize>
        ensures { result ≡ self }
    {
        match self.place() {
            Some(place) => Some(place as usize),
            None => None,
        }
    }
}
