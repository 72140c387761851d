//! The clients of a live server.

use super::{FIRST_CLIENT, Serving};
use itch_book::OrderBook;
use itch_clients::{Budget, Clients, Reception, SnapshotRoom};
use itch_codec::{Alpha, Seq};
use itch_live::LiveServer;
use itch_sessions::{ClientPort, Logins, Spare};
use mio::Registry;
use mio::event::Event;
use std::alloc::{AllocError, Global};
use std::fs::File;
use std::rt::Files;

/// The clients of a live server, its users, its port, and the time budget for snapshots.
#[derive(Drop)]
pub(super) struct ServingSide<'a> {
    pub users: Logins<'a>,
    pub port: ClientPort,
    pub reception: Reception,
    pub clients: Clients,
    pub budget: Budget,
}

impl<'a> ServingSide<'a> {
    /// Creates one without clients. Logins are for this session.
    pub(super) fn new(
        alloc: Global,
        serving: &Serving<'_>,
        users: Logins<'a>,
        port: ClientPort,
        session: Alpha<10>,
    ) -> Result<ServingSide<'a>, AllocError> {
        let first_token = FIRST_CLIENT.saturating_add(serving.clients);
        let reception = Reception::new(alloc, session, Seq::new(1).unwrap(), first_token)?;
        Ok(ServingSide {
            users,
            port,
            reception,
            clients: free_places(alloc, serving)?,
            budget: Budget::new(),
        })
    }

    /// Returns whether there are no connections.
    pub(super) fn is_empty(&self) -> bool {
        self.clients.is_empty() && self.reception.is_empty()
    }

    /// Returns whether there are no clients with a valid login.
    pub(super) fn has_no_client(&self) -> bool {
        let (_opening, ready) = self.reception.counts();
        self.clients.is_empty() && ready == 0
    }

    /// Returns whether there may be bytes to read, or room to write pending ones, without waiting for another event.
    pub(super) fn is_busy<B: OrderBook>(&self, live_server: &LiveServer<B>) -> bool {
        self.clients.is_busy(live_server) || self.reception.is_busy()
    }

    /// Records that the socket with this number is ready. It belongs to a client if the number is below those of the reception.
    pub(super) fn note(&mut self, token: usize, is_client: bool, event: &Event) {
        if is_client {
            self.clients.note(token, event);
        } else {
            self.reception.note(token, event);
        }
    }

    /// Accepts new connections.
    pub(super) fn accept<R: Files<File = File>>(
        &mut self,
        rt: &R,
        spare: &mut Spare,
        registry: &Registry,
        now_ms: u64,
    ) {
        self.reception
            .accept(rt, &mut self.port, spare, registry, now_ms);
    }

    /// Passes on the bytes that have arrived, and gives places to clients that have logged in.
    pub(super) fn hear<B: OrderBook>(
        &mut self,
        registry: &Registry,
        live_server: &mut LiveServer<B>,
        now_ms: u64,
    ) {
        self.reception
            .turn(self.users.list(), now_ms, self.clients.buffer());
        self.clients
            .slot(&mut self.reception, registry, live_server, now_ms);
        self.clients.hear(live_server, now_ms);
    }

    /// Returns whether a snapshot may be encoded now for a waiting client. `reads` means that the feed has more bytes to read.
    pub(super) fn may_answer<B: OrderBook>(
        &mut self,
        live_server: &LiveServer<B>,
        reads: bool,
        now_ms: u64,
    ) -> bool {
        if !self.clients.somebody_waits(live_server) {
            return false;
        }
        let idle = !reads && !self.clients.is_telling(live_server);
        self.budget.allows(now_ms, idle)
    }

    /// Records how long the snapshot took, and makes room for clients that still wait.
    pub(super) fn spend<B: OrderBook>(
        &mut self,
        live_server: &mut LiveServer<B>,
        begun_ms: u64,
        ended_ms: u64,
        now_ms: u64,
    ) {
        self.budget.spend(begun_ms, ended_ms);
        self.clients
            .make_room(&mut self.reception, live_server, now_ms);
    }

    /// Writes pending bytes, and closes connections that have ended.
    pub(super) fn tell<B: OrderBook>(
        &mut self,
        registry: &Registry,
        live_server: &mut LiveServer<B>,
        now_ms: u64,
    ) {
        self.clients.tell(&mut self.reception, live_server, now_ms);
        self.clients
            .close(&mut self.reception, registry, live_server, now_ms);
    }

    /// Disconnects all clients with a valid login, because their session is over.
    pub(super) fn cut_off<B: OrderBook>(&mut self, live_server: &mut LiveServer<B>) {
        self.clients.cut_off(&mut self.reception, live_server);
        self.reception.cut_off_ready();
    }

    /// Begins a session, with all places free.
    pub(super) fn begin_day(
        &mut self,
        alloc: Global,
        serving: &Serving<'_>,
        session: Alpha<10>,
    ) -> Result<(), AllocError> {
        self.clients = free_places(alloc, serving)?;
        self.reception.begin(session);
        Ok(())
    }
}

// Returns free places for clients.
fn free_places(alloc: Global, serving: &Serving<'_>) -> Result<Clients, AllocError> {
    let room = SnapshotRoom::new(serving.snapshot_memory);
    Clients::new(
        alloc,
        serving.clients,
        serving.clients_per_address,
        room,
        FIRST_CLIENT,
    )
}
