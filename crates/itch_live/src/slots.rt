//! The places of clients.
ghost use Rattle.std.specs.Prelude.{◌≡◌, ℕ, ◌≤◌, length, MatchOption, OnOk, OnErr, option_map};
ghost use Rattle.std.specs.List.{list_any};
ghost use Rattle.std.specs.Option.{option_copied};
ghost use Rattle.itch_live.specs.Slots as places;

use crate::client::SnapshotClient;
use crate::encoded::EncodedSnapshot;
use std::alloc::{AllocError, Allocator};

/// A place, which is free or has a client.
pub(crate) type Slot<A> = Option<SnapshotClient<A>>;

/// Returns the first free place, if there is one.
pub(crate) fn free_slot<A: Allocator>(slots: &[Slot<A>]) -> Option<usize>
    ensures { MatchOption result (places.AreTaken slots.now) (places.IsFree slots.now) }
{
    for place in 0..slots.len() {
        if slots[place].is_none() {
            return Some(place);
        }
    }
    None
}

/// Returns the client at a place, if there is one.
pub(crate) fn client_at<A: Allocator>(slots: &[Slot<A>], place: usize) -> Option<&SnapshotClient<A>>
    ensures { option_copied result ≡ places.client_at slots.now place }
{
    match slots.get(place) {
        Some(slot) => slot.as_ref(),
        None => None,
    }
}

/// Passes bytes of a piece to the client at a place, and returns how many were consumed.
pub(crate) fn hear_at<A: Allocator>(
    slots: &mut [Slot<A>],
    place: usize,
    piece: &[u8],
    now_ms: u64,
) -> usize
    ensures { places.HearsAt slots.old place piece.now now_ms result slots.new }
{
    if place < slots.len() {
        if let Some(client) = &mut slots[place] {
            return client.hear(piece, now_ms);
        }
    }
    piece.len()
}

/// Records that the socket of the client at a place accepted the next bytes.
pub(crate) fn took_at<A: Allocator>(slots: &mut [Slot<A>], place: usize, count: usize, now_ms: u64)
    requires { count ≤ length (places.pending_of (places.client_at slots.old place)) }
    ensures { slots.new ≡ places.took_at slots.old place count now_ms }
{
    if place < slots.len() {
        if let Some(client) = &mut slots[place] {
            client.took(count, now_ms);
        }
    }
}

/// Checks the timeouts of each client.
pub(crate) fn tick_all<A: Allocator>(slots: &mut [Slot<A>], now_ms: u64)
    ensures { slots.new ≡ places.ticked now_ms slots.old }
{
    for place in 0..slots.len() {
        tick_one(&mut slots[place], now_ms);
    }
}

fn tick_one<A: Allocator>(slot: &mut Slot<A>, now_ms: u64)
    ensures { slot.new ≡ places.ticked_slot now_ms slot.old }
{
    if let Some(client) = slot {
        client.tick(now_ms);
    }
}

/// Returns whether any client waits.
pub(crate) fn any_waits<A: Allocator>(slots: &[Slot<A>]) -> bool
    ensures { result ≡ list_any places.waits slots.now }
{
    slots.iter().any(|slot| waits(slot))
}

fn waits<A: Allocator>(slot: &Slot<A>) -> bool
    ensures { result ≡ places.waits slot.now }
{
    match slot {
        Some(client) => client.is_waiting(),
        None => false,
    }
}

/// Passes a snapshot with this number to all waiting clients, if there is one.
pub(crate) fn hand_in<A: Allocator>(
    slots: &mut [Slot<A>],
    encoded: Option<EncodedSnapshot<A>>,
    next: u64,
    now_ms: u64,
) -> Result<(), AllocError>
    ensures { (count : ℕ) × OnOk result (length slots.old ≤ count) × (slots.new ≡ places.handed (option_map (λ s. s.value.items) encoded) next now_ms count slots.old) }
{
    match encoded {
        Some(encoded) => answer_all(slots, &encoded, next, now_ms),
        None => Ok(()),
    }
}

/// Answers all waiting clients with a snapshot of this number. If the `Rc` cannot have more owners, the remaining clients continue to wait.
fn answer_all<A: Allocator>(
    slots: &mut [Slot<A>],
    encoded: &EncodedSnapshot<A>,
    next: u64,
    now_ms: u64,
) -> Result<(), AllocError>
    ensures { (count : ℕ) × OnOk result (length slots.old ≤ count) × (slots.new ≡ places.answered encoded.now.value.items next now_ms count slots.old) }
{
    for place in 0..slots.len() {
        answer_one(&mut slots[place], encoded, next, now_ms)?;
    }
    Ok(())
}

fn answer_one<A: Allocator>(
    slot: &mut Slot<A>,
    encoded: &EncodedSnapshot<A>,
    next: u64,
    now_ms: u64,
) -> Result<(), AllocError>
    ensures ok { OnOk result (slot.new ≡ places.answered_slot encoded.now.value.items next now_ms slot.old) }
    ensures err { OnErr result (slot.new ≡ slot.old) }
{
    if let Some(client) = slot {
        if client.is_waiting() {
            client.answer(encoded.clone()?, next, now_ms);
        }
    }
    Ok(())
}
