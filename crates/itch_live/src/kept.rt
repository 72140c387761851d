//! The snapshots that are kept for clients.
ghost use Rattle.std.specs.Prelude.{◌≡◌, ◌-◌, ◌^◌, min, option_map};
ghost use Rattle.std.specs.Option.{option_copied};
ghost use Rattle.itch_live.specs.Kept as kept;

use crate::encoded::{EncodedSnapshot, longest_snapshot};
use crate::slots::Slot;
use itch_book::OrderBook;
use itch_market::Market;
use std::alloc::Allocator;

/// Returns the number of the next message at which the snapshot of the client at a place was encoded.
fn number_of<A: Allocator>(slot: &Slot<A>) -> Option<u64>
    ensures { result ≡ kept.number_of slot.now }
{
    match slot {
        Some(client) => client.snapshot(),
        None => None,
    }
}

/// Returns the snapshot of the client at a place, if it has this number.
fn encoded_at<A: Allocator>(slot: &Slot<A>, number: u64) -> Option<&EncodedSnapshot<A>>
    ensures { option_map (λ encoded. encoded.value.items) (option_copied result) ≡ kept.bytes_at slot.now number }
{
    match slot {
        Some(client) => client.encoded(number),
        None => None,
    }
}

/// Returns the snapshot with this number, if it is kept for a client.
pub(crate) fn kept_encoded<A: Allocator>(
    slots: &[Slot<A>],
    number: u64,
) -> Option<&EncodedSnapshot<A>>
    ensures { option_map (λ encoded. encoded.value.items) (option_copied result) ≡ kept.kept_bytes slots.now number }
{
    for place in 0..slots.len() {
        if let Some(encoded) = encoded_at(&slots[place], number) {
            return Some(encoded);
        }
    }
    None
}

/// Returns whether the snapshot of a market may be encoded, with a limit of `limit` bytes for all kept snapshots together.
pub(crate) fn has_room<B: OrderBook>(
    limit: u64,
    slots: &[Slot<B::Alloc>],
    market: &Market<B>,
) -> bool
    ensures { result ≡ kept.has_room limit slots.now market.now }
{
    fits(limit, snapshot_bytes(slots), longest_snapshot(market))
}

/// Returns whether `more` bytes may be added to those in use: either the total is within the limit, or none are in use. The second case lets
/// a market be served whose snapshot is larger than the limit.
fn fits(limit: u64, used: u64, more: u64) -> bool
    ensures { result ≡ kept.fits limit used more }
{
    used == 0 || u128::from(used) + u128::from(more) <= u128::from(limit)
}

/// Returns the total size in bytes of the kept snapshots. Each is counted once. The result is at most `u64::MAX`.
pub(crate) fn snapshot_bytes<A: Allocator>(slots: &[Slot<A>]) -> u64
    ensures { result ≡ min (kept.snapshot_bytes slots.now) (2 ^ 64 - 1) }
{
    let mut total: u64 = 0;
    let len = slots.len();
    for place in 0..len {
        let number = number_alone(&slots[place], &slots[place + 1..]);
        total = total.saturating_add(bytes_under(slots, number));
    }
    total
}

// Returns the number of the snapshot of the client at a place, if it is kept for none of the others.
fn number_alone<A: Allocator>(slot: &Slot<A>, others: &[Slot<A>]) -> Option<u64>
    ensures { result ≡ kept.number_alone (kept.number_of slot.now) others.now }
{
    if keeps_alone(slot, others) {
        number_of(slot)
    } else {
        None
    }
}

// Returns the size in bytes of the snapshot with this number, or 0 if it is not kept.
fn bytes_under<A: Allocator>(slots: &[Slot<A>], number: Option<u64>) -> u64
    ensures { result ≡ kept.bytes_under slots.now number }
{
    let Some(number) = number else {
        return 0;
    };
    match kept_encoded(slots, number) {
        Some(encoded) => encoded.len() as u64,
        None => 0,
    }
}

// Returns whether a snapshot is kept for a client, and for none of the others.
fn keeps_alone<A: Allocator>(slot: &Slot<A>, others: &[Slot<A>]) -> bool
    ensures { result ≡ kept.keeps_alone (kept.number_of slot.now) others.now }
{
    match number_of(slot) {
        Some(number) => !is_kept(others, number),
        None => false,
    }
}

fn is_kept<A: Allocator>(slots: &[Slot<A>], number: u64) -> bool
    ensures { result ≡ kept.is_kept slots.now number }
{
    slots.iter().any(|slot| is_sent(slot, number))
}

fn is_sent<A: Allocator>(slot: &Slot<A>, number: u64) -> bool
    ensures { result ≡ kept.is_sent slot.now number }
{
    match number_of(slot) {
        Some(next) => next == number,
        None => false,
    }
}
