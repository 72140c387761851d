//! The clients that receive snapshots.

use crate::client::{ClientSide, hand_on};
use crate::reception::{Arrival, Reception};
use crate::room::SnapshotRoom;
use itch_book::OrderBook;
use itch_live::{LiveServer, longest_snapshot};
use itch_sessions::sessions::PIECE;
use itch_sessions::{Happening, SessionOutcome, SlotAddresses};
use itch_snapshot::snapshot_len;
use mio::Registry;
use mio::event::Event;
use std::alloc::{AllocError, Global};

/// When a client has waited this long for room for its snapshot, the slowest client is disconnected.
const ROOM_MS: u64 = 500;

/// The interval in milliseconds at which writing to full sockets is tried.
const TRY_MS: u64 = 100;

/// The connections of a server's clients, one at each of its places.
#[derive(Drop)]
pub struct Clients {
    slots: Vec<Option<ClientSide>>,
    addresses: SlotAddresses,
    // The most clients from one address.
    per_address: usize,
    // The limit of the snapshots in bytes.
    room: SnapshotRoom,
    // The number of the socket at the first place.
    first_token: usize,
    // Since when a client has been waiting for room for a snapshot.
    crowded_ms: Option<u64>,
    // When writing to full sockets was last tried.
    tried_ms: u64,
    // The number of snapshots that were encoded, and the number of bytes sent.
    encoded: u64,
    sent: u64,
    buffer: Vec<u8>,
}

impl Clients {
    /// Creates `places` free places. Their sockets will be registered from the number `first_token` on.
    ///
    /// # Errors
    ///
    /// [`AllocError`] if memory is refused.
    pub fn new(
        alloc: Global,
        places: usize,
        per_address: usize,
        room: SnapshotRoom,
        first_token: usize,
    ) -> Result<Clients, AllocError> {
        Ok(Clients {
            slots: free_slots(alloc, places)?,
            addresses: SlotAddresses::new(alloc, places)?,
            per_address,
            room,
            first_token,
            crowded_ms: None,
            tried_ms: 0,
            encoded: 0,
            sent: 0,
            buffer: vec![in alloc; 0; PIECE]?,
        })
    }

    /// Returns the number of snapshots that were encoded, and the number of bytes sent.
    pub fn totals(&self) -> (u64, u64) {
        (self.encoded, self.sent)
    }

    /// Returns the number of clients that wait for a snapshot, and of those that receive one.
    pub fn counts<B: OrderBook>(&self, live_server: &LiveServer<B>) -> (u64, u64) {
        let (mut waiting, mut served) = (0u64, 0u64);
        for place in 0..self.slots.len() {
            match live_server.client(place) {
                Some(state) if state.is_waiting() => waiting = waiting.saturating_add(1),
                Some(_) => served = served.saturating_add(1),
                None => {}
            }
        }
        (waiting, served)
    }

    /// Returns whether there are no clients.
    pub fn is_empty(&self) -> bool {
        self.slots.iter().all(|slot| slot.is_none())
    }

    /// Returns the buffer into which bytes from connections are read.
    pub fn buffer(&mut self) -> &mut [u8] {
        self.buffer.as_mut_slice()
    }

    fn has_room(&self) -> bool {
        self.slots.iter().any(|slot| slot.is_none())
    }

    /// Returns whether there may be bytes to read, or room to write pending ones, without waiting for another event.
    pub fn is_busy<B: OrderBook>(&self, live_server: &LiveServer<B>) -> bool {
        for (place, slot) in self.slots.iter().enumerate() {
            if let Some(client) = slot
                && client.is_busy(live_server, place)
            {
                return true;
            }
        }
        false
    }

    /// Returns whether bytes are pending for any client, whether or not its socket accepts them now.
    pub fn is_telling<B: OrderBook>(&self, live_server: &LiveServer<B>) -> bool {
        (0..self.slots.len()).any(|place| !live_server.pending(place).is_empty())
    }

    /// Records that the socket with this number is ready.
    pub fn note(&mut self, token: usize, event: &Event) {
        let place = token.saturating_sub(self.first_token);
        if let Some(Some(client)) = self.slots.get_mut(place) {
            client.note(event);
        }
    }

    /// Gives places to clients with valid logins, in the order of their arrival, while there are free ones.
    pub fn slot<B: OrderBook>(
        &mut self,
        reception: &mut Reception,
        registry: &Registry,
        live_server: &mut LiveServer<B>,
        now_ms: u64,
    ) {
        for _ in 0..self.slots.len() {
            if !self.has_room() {
                return;
            }
            let Some(arrival) = reception.next_arrival(&self.addresses, self.per_address) else {
                return;
            };
            self.admit_one(arrival, reception, registry, live_server, now_ms);
        }
    }

    // Gives a client a place. The client is rejected if its memory is refused, or if its socket cannot be registered.
    fn admit_one<B: OrderBook>(
        &mut self,
        arrival: Arrival,
        reception: &mut Reception,
        registry: &Registry,
        live_server: &mut LiveServer<B>,
        now_ms: u64,
    ) {
        let Arrival {
            link,
            address,
            config,
            words,
        } = arrival;
        let mut link = link;
        let Ok(Some(place)) = live_server.admit(config, now_ms) else {
            return reception.write_down(&link.who(), SessionOutcome::Fault);
        };
        if link
            .move_to(registry, place.saturating_add(self.first_token))
            .is_err()
        {
            live_server.leave(place);
            return reception.write_down(&link.who(), SessionOutcome::Fault);
        }
        hand_on(live_server, place, words.as_slice(), now_ms);
        self.set(place, Some(ClientSide::new(link)));
        self.addresses.set(place, Some(address));
    }

    // Puts a client at a place, or frees the place, which closes the connection.
    fn set(&mut self, place: usize, client: Option<ClientSide>) {
        if let Some(slot) = self.slots.get_mut(place) {
            *slot = client;
        }
    }

    /// Passes the bytes from all clients to the server.
    pub fn hear<B: OrderBook>(&mut self, live_server: &mut LiveServer<B>, now_ms: u64) {
        for (place, slot) in self.slots.iter_mut().enumerate() {
            if let Some(client) = slot {
                client.hear(live_server, place, now_ms, self.buffer.as_mut_slice());
            }
        }
    }

    /// Answers waiting clients with the snapshot of the current market. If there is no room for it in addition to the others, or its memory
    /// is refused, they continue to wait.
    pub fn answer<B: OrderBook>(&mut self, live_server: &mut LiveServer<B>, now_ms: u64) {
        let follower = live_server.follower();
        let (Some(next), Some(market)) = (follower.next(), follower.market()) else {
            return;
        };
        let messages = u64::try_from(snapshot_len(market)).unwrap_or(u64::MAX);
        let limit = self.room.limit(longest_snapshot(market));
        let kept = live_server.snapshot_bytes();
        // Even if it ends with an error, some clients were answered.
        let _ = live_server.answer(limit, now_ms);
        if live_server.snapshot_bytes() > kept {
            self.encoded = self.encoded.saturating_add(1);
        }
        self.note_answers(live_server, next, messages.saturating_add(1), now_ms);
    }

    /// Returns whether any client waits for a snapshot.
    pub fn any_waits<B: OrderBook>(&self, live_server: &LiveServer<B>) -> bool {
        for place in 0..self.slots.len() {
            if let Some(state) = live_server.client(place)
                && state.is_waiting()
            {
                return true;
            }
        }
        false
    }

    /// Returns whether any client waits for a snapshot. If none does, perhaps because it has left, the waiting time starts again.
    pub fn somebody_waits<B: OrderBook>(&mut self, live_server: &LiveServer<B>) -> bool {
        let waits = self.any_waits(live_server);
        if !waits {
            self.crowded_ms = None;
        }
        waits
    }

    // Records for its line that a client receives the snapshot with this number, and the number of its packets.
    fn note_answers<B: OrderBook>(
        &mut self,
        live_server: &LiveServer<B>,
        next: u64,
        packets: u64,
        now_ms: u64,
    ) {
        for (place, slot) in self.slots.iter_mut().enumerate() {
            if let (Some(client), Some(state)) = (slot, live_server.client(place))
                && state.snapshot() == Some(next)
            {
                client.note_answer(next, packets, now_ms);
            }
        }
    }

    /// Makes room for clients that still wait after the others were answered. If one has waited for half a second, this disconnects the
    /// client that has been receiving its snapshot for longest at less than a megabyte per second, and all others that receive the same
    /// snapshot as slowly.
    pub fn make_room<B: OrderBook>(
        &mut self,
        reception: &mut Reception,
        live_server: &mut LiveServer<B>,
        now_ms: u64,
    ) {
        if !self.somebody_waits(live_server) {
            return;
        }
        let since_ms = *self.crowded_ms.get_or_insert(now_ms);
        if now_ms.saturating_sub(since_ms) < ROOM_MS {
            return;
        }
        let Some(snapshot) = self.slowest(now_ms) else {
            return;
        };
        for place in 0..self.slots.len() {
            if self.is_slow_at(place, snapshot, now_ms) {
                self.free(place, SessionOutcome::Slowest, reception, live_server);
            }
        }
    }

    // Returns the number of the snapshot of the client that has been slow for longest.
    fn slowest(&self, now_ms: u64) -> Option<u64> {
        let mut found: Option<(u64, u64)> = None;
        for slot in self.slots.iter() {
            if let Some(client) = slot
                && let Some((snapshot, since_ms)) = client.slow_since(now_ms)
                && found.is_none_or(|(_, first_ms)| since_ms < first_ms)
            {
                found = Some((snapshot, since_ms));
            }
        }
        Some(found?.0)
    }

    // Returns whether the client at a place receives this snapshot slowly.
    fn is_slow_at(&self, place: usize, snapshot: u64, now_ms: u64) -> bool {
        match self.slots.get(place) {
            Some(Some(client)) => match client.slow_since(now_ms) {
                Some((taken, _)) => taken == snapshot,
                None => false,
            },
            _ => false,
        }
    }

    /// Writes pending bytes. Full sockets are also tried ten times per second, because the system reports room only when a third of a buffer
    /// is free.
    pub fn tell<B: OrderBook>(
        &mut self,
        reception: &mut Reception,
        live_server: &mut LiveServer<B>,
        now_ms: u64,
    ) {
        let tries = now_ms.saturating_sub(self.tried_ms) >= TRY_MS;
        if tries {
            self.tried_ms = now_ms;
        }
        for (place, slot) in self.slots.iter_mut().enumerate() {
            if let Some(client) = slot {
                if tries {
                    client.try_to_write();
                }
                let had_none = client.has_none();
                let sent = client.tell(live_server, place, now_ms);
                if had_none && !client.has_none() {
                    reception.happens(&client.who(), Happening::FirstByte);
                }
                self.sent = self.sent.saturating_add(sent);
            }
        }
    }

    /// Disconnects silent clients, closes the connection of each client that is gone, and frees the place of each client that has received
    /// everything.
    pub fn close<B: OrderBook>(
        &mut self,
        reception: &mut Reception,
        registry: &Registry,
        live_server: &mut LiveServer<B>,
        now_ms: u64,
    ) {
        live_server.tick(now_ms);
        for place in 0..self.slots.len() {
            if let Some(outcome) = self.served_at(place) {
                self.see_off(place, outcome, reception, registry, now_ms);
                live_server.leave(place);
            } else if let Some(outcome) = self.outcome(live_server, place) {
                self.free(place, outcome, reception, live_server);
            }
        }
    }

    /// Disconnects all remaining clients.
    pub fn cut_off<B: OrderBook>(
        &mut self,
        reception: &mut Reception,
        live_server: &mut LiveServer<B>,
    ) {
        for place in 0..self.slots.len() {
            self.free(place, SessionOutcome::CutOff, reception, live_server);
        }
    }

    // Returns how the connection of the client at a place has ended, if it has received everything.
    fn served_at(&self, place: usize) -> Option<SessionOutcome> {
        match self.slots.get(place) {
            Some(Some(client)) => client.served(),
            _ => None,
        }
    }

    // Returns how the connection of the client at a place ended, if it is to be closed.
    fn outcome<B: OrderBook>(
        &self,
        live_server: &LiveServer<B>,
        place: usize,
    ) -> Option<SessionOutcome> {
        match self.slots.get(place) {
            Some(Some(client)) => client.outcome(live_server, place),
            _ => None,
        }
    }

    // Leaves the closing of a connection to the reception, after its client has received everything.
    fn see_off(
        &mut self,
        place: usize,
        outcome: SessionOutcome,
        reception: &mut Reception,
        registry: &Registry,
        now_ms: u64,
    ) {
        let address = self.addresses.at(place);
        self.addresses.set(place, None);
        if let Some(slot) = self.slots.get_mut(place)
            && let (Some(client), Some(address)) = (slot.take(), address)
        {
            reception.see_off(client.into_link(), address, outcome, registry, now_ms);
        }
    }

    // Closes the connection of the client at a place, which has ended in this way, and frees the place.
    fn free<B: OrderBook>(
        &mut self,
        place: usize,
        outcome: SessionOutcome,
        reception: &mut Reception,
        live_server: &mut LiveServer<B>,
    ) {
        if let Some(Some(client)) = self.slots.get(place) {
            reception.write_down(&client.who(), outcome);
        }
        self.set(place, None);
        self.addresses.set(place, None);
        live_server.leave(place);
    }
}

// Returns this number of free places.
fn free_slots(alloc: Global, count: usize) -> Result<Vec<Option<ClientSide>>, AllocError> {
    let mut slots = Vec::with_capacity(alloc, count)?;
    for _place in 0..count {
        slots.push(None)?;
    }
    Ok(slots)
}
