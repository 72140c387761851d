//! A client that receives a snapshot.

use crate::budget::is_slow;
use itch_book::OrderBook;
use itch_live::LiveServer;
use itch_sessions::{SessionOutcome, SocketLink, Who, outcome_of};
use mio::event::Event;

/// The most bytes written to one client per turn.
const SHARE: usize = 1 << 20;

/// No client counts as slow before this many milliseconds: the first bytes that a socket accepts say little about its speed.
const FAIR_MS: u64 = 1_000;

/// The connection of the client at a place of a server.
#[derive(Drop)]
pub struct ClientSide {
    link: SocketLink,
    // How its connection will have ended once it has received the complete snapshot, since when it receives this snapshot, and how many bytes
    // of it the socket has accepted.
    answer: Option<SessionOutcome>,
    since_ms: u64,
    taken: u64,
}

impl ClientSide {
    /// Creates a client whose login is valid.
    pub fn new(link: SocketLink) -> ClientSide {
        ClientSide {
            link,
            answer: None,
            since_ms: 0,
            taken: 0,
        }
    }

    /// Returns the client of the connection.
    pub fn who(&self) -> Who {
        self.link.who()
    }

    /// Returns whether nothing was sent of its snapshot.
    pub fn has_none(&self) -> bool {
        self.taken == 0
    }

    /// Returns its connection.
    pub fn into_link(self) -> SocketLink {
        self.link
    }

    /// Records the readiness reported by an event.
    pub fn note(&mut self, event: &Event) {
        self.link.note(event);
    }

    /// Returns whether there may be bytes to read, or room to write pending ones, without waiting for another event.
    pub fn is_busy<B: OrderBook>(&self, live_server: &LiveServer<B>, place: usize) -> bool {
        self.link.is_busy(!live_server.pending(place).is_empty())
    }

    /// Records that it is answered at this time with a snapshot of `packets` packets, whose End of Snapshot has this number.
    pub fn note_answer(&mut self, next: u64, packets: u64, now_ms: u64) {
        if self.answer.is_none() {
            self.answer = Some(SessionOutcome::Answered { next, packets });
            self.since_ms = now_ms;
        }
    }

    /// Returns the number of its snapshot and the time since when it receives it, if it is slow.
    pub fn slow_since(&self, now_ms: u64) -> Option<(u64, u64)> {
        let Some(SessionOutcome::Answered { next, .. }) = self.answer else {
            return None;
        };
        let passed_ms = now_ms.saturating_sub(self.since_ms);
        if self.link.has_all() || passed_ms < FAIR_MS || !is_slow(self.taken, passed_ms) {
            return None;
        }
        Some((next, self.since_ms))
    }

    /// Reads bytes from the client, as many as fit the buffer, and passes them to the server.
    pub fn hear<B: OrderBook>(
        &mut self,
        live_server: &mut LiveServer<B>,
        place: usize,
        now_ms: u64,
        buffer: &mut [u8],
    ) {
        let count = self.link.read(buffer);
        hand_on(live_server, place, &buffer[..count], now_ms);
    }

    /// Makes the next write try the socket, even if the system has not reported room.
    pub fn try_to_write(&mut self) {
        self.link.try_to_write();
    }

    /// Writes pending bytes, up to 1 MiB, and returns how many were written. When the client has received everything, the sending half of the
    /// connection is shut down.
    pub fn tell<B: OrderBook>(
        &mut self,
        live_server: &mut LiveServer<B>,
        place: usize,
        now_ms: u64,
    ) -> u64 {
        let mut sent = 0u64;
        for _ in 0..SHARE {
            let pending = live_server.pending(place);
            let most = pending.len().min(SHARE);
            let count = self.link.write(&pending[..most]);
            live_server.took(place, count, now_ms);
            sent = sent.saturating_add(count as u64);
            if self.answer.is_some() {
                self.taken = self.taken.saturating_add(count as u64);
            }
            // The packets of the login come first, and the snapshot after them.
            if count == 0 || count == SHARE || live_server.pending(place).is_empty() {
                break;
            }
        }
        if let Some(client) = live_server.client(place)
            && client.is_closing()
        {
            self.link.end_sending();
        }
        sent
    }

    /// Returns how its connection has ended, if it has received everything.
    pub fn served(&self) -> Option<SessionOutcome> {
        if self.link.has_all() {
            return self.answer;
        }
        None
    }

    /// Returns how its connection ended, if it is to be closed. A client that has closed its sending half still receives everything that it
    /// requested before.
    pub fn outcome<B: OrderBook>(
        &self,
        live_server: &LiveServer<B>,
        place: usize,
    ) -> Option<SessionOutcome> {
        let Some(client) = live_server.client(place) else {
            return Some(SessionOutcome::Fault);
        };
        let waits = client.is_waiting() || !client.pending().is_empty();
        let gone = self.link.ending(client.why_gone(), waits)?;
        Some(outcome_of(client.rejection_code(), self.served(), gone))
    }
}

/// Passes all bytes of a piece to the server.
pub fn hand_on<B: OrderBook>(
    live_server: &mut LiveServer<B>,
    place: usize,
    piece: &[u8],
    now_ms: u64,
) {
    let mut from = 0;
    for _ in 0..piece.len() {
        if from < piece.len() {
            from += live_server.hear(place, &piece[from..], now_ms);
        }
    }
}
