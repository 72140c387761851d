//! Reads orders before they are needed: many at once, so that the program waits for memory once instead of once per order.

use crate::table::Table;
use std::alloc::Allocator;

/// The number of orders that are read ahead at once.
pub(crate) const AHEAD: usize = 32;

/// Fewer orders than this are in the processor's cache anyway.
pub(crate) const MANY: usize = 1 << 14;

/// Returns the links of the first references in a table, and a number that depends on what else a removal of them reads there. A reference that
/// is not in the table gets link 0.
#[inline(always)]
pub(crate) fn links_of<A: Allocator>(
    table: &Table<A>,
    references: &[u64],
) -> ([u32; AHEAD], usize) {
    let mut links = [0; AHEAD];
    let mut seen = 0;
    for (link, reference) in links.iter_mut().zip(references) {
        let (found, neighbours) = table.read(*reference);
        *link = found.unwrap_or(0);
        seen ^= neighbours;
    }
    (links, seen)
}
