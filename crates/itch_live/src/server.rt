//! A follower of a feed, with its clients.
ghost use Rattle.std.specs.Prelude.{◌≡◌, ℕ, ◌≤◌, ◌-◌, ◌^◌, None, IfOk, OnOk, OnErr, true, length, min, option_map, replicate, slice_set};
ghost use Rattle.std.specs.Option.{option_copied};
ghost use Rattle.std.specs.List.{list_any};
ghost use Rattle.std.specs.Borrow.{Lends, sem};
ghost use Rattle.itch_live.specs.contracts.server.LiveServer.{the_row};
ghost use Rattle.itch_live.specs.contracts.follower.Follower.{the_row as follower_row};
ghost use Rattle.itch_live.specs.Slots as places;
ghost use Rattle.itch_live.specs.Kept as kept;
ghost use Rattle.itch_live.specs.LiveServers as servers;

use crate::client::SnapshotClient;
use crate::encoded::{EncodedSnapshot, encode_snapshot};
use crate::follower::Follower;
use crate::kept::{has_room, kept_encoded, snapshot_bytes};
use crate::slots::{Slot, any_waits, client_at, free_slot, hand_in, hear_at, tick_all, took_at};
use itch_book::OrderBook;
use itch_codec::Seq;
use itch_market::Market;
use itch_soup::ServerConfig;
use std::alloc::{AllocError, Allocator};
use std::marker::Model;
use std::rc::Rc;

/// A live server without its sockets: it follows a feed, and has a fixed number of places for clients.
///
/// The caller passes in the bytes that arrive, writes [`LiveServer::pending`] as far as each socket accepts it, and calls [`LiveServer::took`] with the
/// number of bytes written. A call for one client does not affect the others.
#[derive(Drop)]
pub struct LiveServer<B: OrderBook> {
    alloc: B::Alloc,
    follower: Follower<B>,
    slots: Vec<Slot<B::Alloc>, B::Alloc>,
}

impl<B: OrderBook> Model for LiveServer<B> {
    ghost use Rattle.std.specs.FinMap as map;
    ghost use Rattle.std.specs.Coded.{codes};
    ghost use Rattle.itch_live.specs.LiveServers as servers;

    ghost Value = { servers.LiveServer };

    ghost coded = { Prim.hlevel (codes, map.code) };

    ghost view = { λ d. record { following = d.follower; slots = d.slots.items } };
}

impl<B: OrderBook> LiveServer<B> {
    /// Creates a server with this number of places, all of them free. The memory of the places is allocated here; [`LiveServer::admit`] allocates the
    /// memory of a client.
    ///
    /// # Errors
    ///
    /// [`AllocError`] if there is no memory for the places.
    pub fn new(
        alloc: B::Alloc,
        follower: Follower<B>,
        clients: usize,
    ) -> Result<LiveServer<B>, AllocError>
        ensures { IfOk result (λ d. d ≡ servers.new_live_server follower clients) }
    {
        Ok(LiveServer {
            alloc,
            follower,
            slots: free_slots(alloc, clients)?,
        })
    }

    /// Returns the follower of the feed.
    pub fn follower(&self) -> &Follower<B>
        ensures { result.now ≡ self.now.following }
    {
        &self.follower
    }

    /// Returns the follower of the feed, to connect it and to pass in the bytes that the feed sends.
    pub fn follower_mut(&mut self) -> &mut Follower<B>
        ensures* writes_back { sem 𝓛 (Lends (the_row B.row B.Alloc.row B.OrderBook B.Alloc.Allocator) (follower_row B.row B.Alloc.row B.OrderBook B.Alloc.Allocator) self.entry result (λ w. record self.old { following = w })) }
        ensures value { result.now ≡ self.old.following }
    {
        &mut self.follower
    }

    /// Gives a new client a free place and returns its number, or `None` if all places are taken. The client's login will be judged by this
    /// configuration.
    ///
    /// # Errors
    ///
    /// [`AllocError`] if there is no memory for the client. Nothing changes then.
    pub fn admit(&mut self, config: ServerConfig, now_ms: u64) -> Result<Option<usize>, AllocError>
        ensures accepts { servers.Accepts config self.old now_ms result self.new }
        ensures refused { OnErr result ((place : ℕ) × places.IsFree self.old.slots place) }
    {
        let Some(place) = free_slot(&self.slots) else {
            return Ok(None);
        };
        let client = SnapshotClient::new(self.alloc, config, now_ms)?;
        self.slots[place] = Some(client);
        Ok(Some(place))
    }

    /// Passes in bytes from the client at a place and returns how many were consumed, as [`SnapshotClient::hear`] does. If the place is free, all
    /// bytes are ignored.
    pub fn hear(&mut self, place: usize, piece: &[u8], now_ms: u64) -> usize
        ensures slots { places.HearsAt self.old.slots place piece.now now_ms result self.new.slots }
        ensures rest { self.new ≡ record self.old { slots = self.new.slots } }
    {
        hear_at(&mut self.slots, place, piece, now_ms)
    }

    /// Answers all waiting clients with the snapshot of the current market, if there is one yet. The snapshot is encoded once for all clients
    /// that receive it, and kept while one of them has its place.
    ///
    /// All kept snapshots together may have `limit` bytes. If a new one could exceed this limit, it is not encoded, and the clients continue
    /// to wait. If no snapshot is kept, one is encoded regardless of the limit.
    ///
    /// # Errors
    ///
    /// [`AllocError`] if there is no memory for the snapshot. Some of the clients may have been answered then; the others continue to wait,
    /// and the call can be repeated.
    pub fn answer(&mut self, limit: u64, now_ms: u64) -> Result<(), AllocError>
        ensures after { (count : ℕ) × OnOk result (length self.old.slots ≤ count) × (self.new ≡ servers.answered self.old limit count now_ms) }
        ensures refused { OnErr result (list_any places.waits self.old.slots ≡ true) }
    {
        if !any_waits(&self.slots) {
            return Ok(());
        }
        let (Some(next), Some(market)) = (self.follower.next(), self.follower.market()) else {
            return Ok(());
        };
        // No End of Snapshot can contain a number outside the range of `Seq`. The joiner's contract does not exclude one.
        let Some(next) = Seq::new(next) else {
            return Err(AllocError);
        };
        let encoded = encoded_for(self.alloc, limit, &self.slots, market, next)?;
        hand_in(&mut self.slots, encoded, next.value(), now_ms)
    }

    /// Returns the total size in bytes of the snapshots that are kept for clients. Each is counted once. The result is at most `u64::MAX`.
    pub fn snapshot_bytes(&self) -> u64
        ensures { result ≡ min (kept.snapshot_bytes self.now.slots) (2 ^ 64 - 1) }
    {
        snapshot_bytes(&self.slots)
    }

    /// Returns the bytes still to be written to the client at a place; none if the place is free.
    pub fn pending(&self, place: usize) -> &[u8]
        ensures { result.now ≡ places.pending_of (places.client_at self.now.slots place) }
    {
        match client_at(&self.slots, place) {
            Some(client) => client.pending(),
            None => &[],
        }
    }

    /// Records that the socket of the client at a place accepted the first `count` of the pending bytes at this time.
    pub fn took(&mut self, place: usize, count: usize, now_ms: u64)
        requires { count ≤ length (places.pending_of (places.client_at self.old.slots place)) }
        ensures { self.new ≡ record self.old { slots = places.took_at self.old.slots place count now_ms } }
    {
        took_at(&mut self.slots, place, count, now_ms)
    }

    /// Checks the timeouts of all clients at this time. A client without progress for 15 seconds is disconnected; see [`SnapshotClient::tick`].
    pub fn tick(&mut self, now_ms: u64)
        ensures { self.new ≡ record self.old { slots = places.ticked now_ms self.old.slots } }
    {
        tick_all(&mut self.slots, now_ms)
    }

    /// Frees a place. Call this once the connection of its client is closed.
    pub fn leave(&mut self, place: usize)
        ensures { self.new ≡ record self.old { slots = slice_set self.old.slots place None } }
    {
        if place < self.slots.len() {
            self.slots[place] = None;
        }
    }

    /// Returns the client at a place, if there is one. The client reports whether its connection is closing, or must be closed.
    pub fn client(&self, place: usize) -> Option<&SnapshotClient<B::Alloc>>
        ensures { option_copied result ≡ places.client_at self.now.slots place }
    {
        client_at(&self.slots, place)
    }
}

// Returns the snapshot for the waiting clients: the kept one with this number, or else a new one of this market. Returns `None` if there is
// no room for a new one.
fn encoded_for<B: OrderBook>(
    alloc: B::Alloc,
    limit: u64,
    slots: &[Slot<B::Alloc>],
    market: &Market<B>,
    next: Seq,
) -> Result<Option<EncodedSnapshot<B::Alloc>>, AllocError>
    ensures { IfOk result (λ encoded. option_map (λ s. s.value.items) encoded ≡ servers.encoded_for limit slots.now market.now next) }
{
    if let Some(encoded) = kept_encoded(slots, next.value()) {
        return Ok(Some(encoded.clone()?));
    }
    if !has_room(limit, slots, market) {
        return Ok(None);
    }
    let bytes = encode_snapshot(alloc, market, next)?;
    Ok(Some(Rc::new(alloc, bytes)?))
}

// Returns this number of free places.
fn free_slots<A: Allocator>(alloc: A, count: usize) -> Result<Vec<Slot<A>, A>, AllocError>
    ensures { IfOk result (λ slots. slots.items ≡ replicate count None) }
{
    let mut slots = Vec::with_capacity(alloc, count)?;
    for _place in 0..count {
        slots.push(None)?;
    }
    Ok(slots)
}
