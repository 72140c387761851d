//! Checks that a checkpoint has the requested locates.
ghost use Rattle.std.specs.Prelude.{◌≡◌, ◌<◌, ℕ, true, false};
ghost use Rattle.itch_market.specs.Wanted.{has};

use itch_market::LocateSet;
use std::alloc::Allocator;

/// Returns whether a snapshot that is restricted to a set has each requested locate.
pub fn has_each<A: Allocator>(kept: &LocateSet<A>, wanted: &LocateSet<A>) -> bool
    ensures all { result ≡ true → (locate : ℕ) → locate < 65536 → has wanted.now locate ≡ true → has kept.now locate ≡ true }
    ensures lacks { result ≡ false → (locate : ℕ) × (locate < 65536) × (has wanted.now locate ≡ true) × (has kept.now locate ≡ false) }
{
    for locate in 0..=u16::MAX {
        if wanted.contains(locate) && !kept.contains(locate) {
            return false;
        }
    }
    true
}
