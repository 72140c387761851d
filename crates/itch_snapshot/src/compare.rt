//! Compares markets.
ghost use Rattle.std.specs.Prelude.{◌≡◌, ◌<◌, ◌-◌, ◌^◌, ◌↔◌, length, IfSome, IfNone, IsNone, IsTrue};
ghost use Rattle.itch_market.specs.SameMarkets.{Same};
ghost use Rattle.itch_snapshot.specs.Snapshot.{snap};
ghost use Rattle.itch_snapshot.specs.Parting.{IsParting};

use crate::iter::SnapshotIter;
use itch_book::OrderBook;
use itch_codec::Message;
use itch_market::Market;

/// Returns the position, counted from 1, of the first message in which the snapshots of two markets differ. If one snapshot is a prefix of
/// the other, the position is its length plus 1. Returns `None` if the markets are the same.
pub fn part_place<A: OrderBook, B: OrderBook>(one: &Market<A>, other: &Market<B>) -> Option<u64>
    requires { length (snap one.now) < 10 ^ 19 }
    ensures place { IfSome result (λ place. (0 < place) × IsParting (snap one.now) (snap other.now) (place - 1)) }
    ensures none { IsNone result ↔ Same one.now other.now }
{
    one.recall_invariant();
    other.recall_invariant();
    first_difference(SnapshotIter::new(one), SnapshotIter::new(other))
}

/// Returns whether two markets are the same: the same last event, the same directory with its trading states, and the same queue for each
/// locate and side.
pub fn same_market<A: OrderBook, B: OrderBook>(one: &Market<A>, other: &Market<B>) -> bool
    requires { length (snap one.now) < 10 ^ 19 }
    ensures { IsTrue result ↔ Same one.now other.now }
{
    part_place(one, other).is_none()
}

// Returns the position, counted from 1, of the first message in which two snapshots differ, or the length of the shorter one plus 1.
fn first_difference<A: OrderBook, B: OrderBook>(
    one: SnapshotIter<'_, A>,
    mut other: SnapshotIter<'_, B>,
) -> Option<u64>
    requires { length one < 10 ^ 19 }
    ensures place { IfSome result (λ place. (0 < place) × IsParting one.entry other.entry (place - 1)) }
    ensures none { IfNone result (one.entry ≡ other.entry) }
{
    let mut place = 1u64;
    for message in one {
        match other.next() {
            Some(next) if is_same(&message, &next) => place += 1,
            _ => return Some(place),
        }
    }
    match other.next() {
        Some(_) => Some(place),
        None => None,
    }
}

fn is_same(one: &Message<'_>, other: &Message<'_>) -> bool
    ensures { IsTrue result ↔ one.now ≡ other.now }
{
    *one == *other
}
