//! Where the orders of each locate probably are in the sorted line.
ghost use Rattle.std.specs.Prelude.{◌<◌, ◌^◌, length};

use crate::arrived::Arrived;
use std::alloc::{AllocError, Allocator, Global};
use std::ops::Range;

// The maximum number of hints per order, so that writing them always takes less time than sorting the orders.
const SPREAD: usize = 8;

/// The place of each locate's first order, or of the next order if the locate has none.
///
/// Nothing relies on these places: a look-up verifies those that it uses. They may be missing, since `settle` cannot fail if there is no memory
/// for them.
#[derive(Drop)]
pub(crate) struct Hints<A: Allocator = Global> {
    places: Vec<u32, A>,
}

impl<A: Allocator> Hints<A> {
    /// Creates a collection without hints.
    pub(crate) fn new(alloc: A) -> Self {
        Hints {
            places: Vec::new(alloc),
        }
    }

    /// Replaces the hints by those of a line.
    pub(crate) fn write(&mut self, line: &[Arrived])
        requires { length line.now < 2 ^ 32 }
    {
        self.places.clear();
        if let Some(last) = line.last() {
            let locates = last.order.locate as usize + 1;
            if locates / SPREAD <= line.len()
                && write_places(&mut self.places, line, locates).is_err()
            {
                self.places.clear();
            }
        }
    }

    /// Returns where the orders of a locate probably begin and end in a line of this length.
    pub(crate) fn hint(&self, locate: u16, length: usize) -> Range<usize> {
        let locate = locate as usize;
        place_or(&self.places, locate, length)..place_or(&self.places, locate + 1, length)
    }
}

// Returns the place of a locate, or another one.
fn place_or(places: &[u32], locate: usize, other: usize) -> usize {
    match places.get(locate) {
        Some(place) => *place as usize,
        None => other,
    }
}

// Writes the place of each locate up to the last one of a line.
fn write_places<A: Allocator>(
    places: &mut Vec<u32, A>,
    line: &[Arrived],
    locates: usize,
) -> Result<(), AllocError>
    requires { length line.now < 2 ^ 32 }
{
    places.reserve(locates)?;
    for (place, one) in line.iter().enumerate() {
        for _locate in places.len()..one.order.locate as usize + 1 {
            places.push(place as u32)?;
        }
    }
    Ok(())
}
