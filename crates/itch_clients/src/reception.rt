//! Connections without a place: those that have not logged in yet, and those that receive nothing more.

mod visitor;

use crate::opening::FirstBytes;
use arrayvec::ArrayVec;
use itch_codec::{Alpha, Seq};
use itch_sessions::sessions::Login;
use itch_sessions::{
    ClientPort, Happening, IncomingClient, Refusals, SessionOutcome, SlotAddresses, Socket,
    SocketLink, Spare, Who,
};
use itch_soup::ServerConfig;
use mio::Registry;
use mio::event::Event;
use mio::net::TcpStream;
use std::alloc::{AllocError, Global};
use std::fs::File;
use std::net::IpAddr;
use std::rt::Files;
use visitor::{KEPT, ServedSession, Visitor, VisitorStage};

/// The most connections without a place.
const ROOM: usize = 1_000;

/// The most connections accepted per turn.
const MOST_ACCEPTED: usize = 64;

/// When there is no room, a connection without a login gives way after this many milliseconds.
const GRACE_MS: u64 = 1_000;

/// A connection with a valid login, the configuration that accepts it, and the bytes received so far: the login, and perhaps some after it.
#[derive(Drop)]
pub struct Arrival {
    pub link: SocketLink,
    pub address: IpAddr,
    pub config: ServerConfig,
    pub words: ArrayVec<u8, KEPT>,
}

/// The connections without a place.
#[derive(Drop)]
pub struct Reception {
    // The session that is served, and the number after its last message that a login may ask for.
    session: Alpha<10>,
    end_number: Seq,
    rooms: Vec<Option<Visitor>>,
    // The number of the socket in the first room.
    first_token: usize,
    // The number of connections so far, the number of present ones, and the first room after the last occupied one.
    connected: u64,
    present: usize,
    end: usize,
    refusals: Refusals,
    // The events of connections that were not reported yet.
    happened: Vec<(Who, Happening)>,
}

impl Reception {
    /// Creates an empty reception. Sockets will be registered from the number `first_token` on. Logins are for this session, for the messages
    /// before `end_number`.
    ///
    /// # Errors
    ///
    /// [`AllocError`] if memory is refused.
    pub fn new(
        alloc: Global,
        session: Alpha<10>,
        end_number: Seq,
        first_token: usize,
    ) -> Result<Reception, AllocError> {
        let mut rooms = Vec::with_capacity(alloc, ROOM)?;
        for _room in 0..ROOM {
            rooms.push(None)?;
        }
        Ok(Reception {
            session,
            end_number,
            rooms,
            first_token,
            connected: 0,
            present: 0,
            end: 0,
            refusals: Refusals::new(alloc)?,
            happened: Vec::with_capacity(alloc, 2 * ROOM)?,
        })
    }

    /// Sets the session of all later logins.
    pub fn begin(&mut self, session: Alpha<10>) {
        self.session = session;
    }

    /// Returns the number of connections so far.
    pub fn connected(&self) -> u64 {
        self.connected
    }

    /// Returns the number of present connections that have not logged in, and of those that wait for a place.
    pub fn counts(&self) -> (u64, u64) {
        let (mut opening, mut ready) = (0u64, 0u64);
        for room in self.rooms.iter().take(self.end) {
            if let Some(visitor) = room {
                match visitor.stage {
                    VisitorStage::Opening => opening = opening.saturating_add(1),
                    VisitorStage::Ready(_) => ready = ready.saturating_add(1),
                    VisitorStage::Rejected { .. } | VisitorStage::Over(_) => {}
                }
            }
        }
        (opening, ready)
    }

    /// Returns whether there are no connections.
    pub fn is_empty(&self) -> bool {
        self.present == 0
    }

    /// Returns whether there may be bytes to read without waiting for another event.
    pub fn is_busy(&self) -> bool {
        self.rooms.iter().take(self.end).any(|room| match room {
            Some(visitor) => visitor.is_busy(),
            None => false,
        })
    }

    /// Records that the socket with this number is ready.
    pub fn note(&mut self, token: usize, event: &Event) {
        let place = token.saturating_sub(self.first_token);
        if let Some(Some(visitor)) = self.rooms.get_mut(place) {
            visitor.link.note(event);
        }
    }

    /// Accepts new connections. If there is no room, or no descriptor except the spare ones, a connection that has been present for a second
    /// without a login is closed to make room.
    pub fn accept<R: Files<File = File>>(
        &mut self,
        rt: &R,
        port: &mut ClientPort,
        spare: &mut Spare,
        registry: &Registry,
        now_ms: u64,
    ) {
        for _ in 0..MOST_ACCEPTED {
            if !port.are_waiting() {
                return;
            }
            let room = self.free_room();
            let (Some(place), true) = (room, room.is_some() && spare.hold(rt)) else {
                if self.make_room(now_ms) {
                    continue;
                }
                return;
            };
            match port.next() {
                IncomingClient::Stream(stream, address) => self.admit(
                    place, stream, address, registry, now_ms,
                ),
                IncomingClient::Nobody => return,
                IncomingClient::NoDescriptor => {
                    if !self.make_room(now_ms) {
                        return;
                    }
                }
            }
        }
    }

    fn free_room(&self) -> Option<usize> {
        if self.present >= self.rooms.len() {
            return None;
        }
        self.rooms.iter().position(|room| room.is_none())
    }

    // Closes the connection that has been present for longest without a login, if this is at least a second.
    fn make_room(&mut self, now_ms: u64) -> bool {
        let mut oldest: Option<(usize, u64)> = None;
        for (place, room) in self.rooms.iter().enumerate() {
            if let Some(visitor) = room
                && matches!(visitor.stage, VisitorStage::Opening)
                && oldest.is_none_or(|(_, since_ms)| visitor.since_ms < since_ms)
            {
                oldest = Some((place, visitor.since_ms));
            }
        }
        match oldest {
            Some((place, since_ms)) if now_ms.saturating_sub(since_ms) >= GRACE_MS => {
                self.end(place, SessionOutcome::CutOff);
                true
            }
            _ => false,
        }
    }

    fn admit(
        &mut self,
        place: usize,
        stream: TcpStream,
        address: IpAddr,
        registry: &Registry,
        now_ms: u64,
    ) {
        self.connected = self.connected.saturating_add(1);
        let token = place.saturating_add(self.first_token);
        let who = Who::new(self.connected, address, now_ms);
        self.happens(&who, Happening::Connected);
        match Socket::register(registry, stream, token, true) {
            Ok(socket) => {
                let link = SocketLink::new(socket, who);
                self.put(place, Visitor::new(link, address, now_ms));
            }
            Err(_) => self.write_down(&who, SessionOutcome::Fault),
        }
    }

    /// Disconnects clients with valid logins, because their session is no longer served.
    pub fn cut_off_ready(&mut self) {
        for place in 0..self.end {
            if let Some(Some(visitor)) = self.rooms.get(place)
                && matches!(visitor.stage, VisitorStage::Ready(_))
            {
                self.end(place, SessionOutcome::CutOff);
            }
        }
    }

    fn put(&mut self, place: usize, visitor: Visitor) {
        if let Some(room) = self.rooms.get_mut(place) {
            *room = Some(visitor);
            self.present = self.present.saturating_add(1);
            self.end = self.end.max(place.saturating_add(1));
        }
    }

    fn take(&mut self, place: usize) -> Option<Visitor> {
        let visitor = self.rooms.get_mut(place)?.take()?;
        self.present = self.present.saturating_sub(1);
        if self.present == 0 {
            self.end = 0;
        }
        Some(visitor)
    }

    // Closes a connection, which has ended in this way.
    fn end(&mut self, place: usize, outcome: SessionOutcome) {
        if let Some(visitor) = self.take(place) {
            self.write_down(&visitor.link.who(), outcome);
        }
    }

    /// Records how a connection has ended, for its line.
    pub fn write_down(&mut self, who: &Who, outcome: SessionOutcome) {
        self.happens(who, Happening::Ended(outcome));
    }

    /// Records an event of a connection.
    pub fn happens(&mut self, who: &Who, happening: Happening) {
        let _ = self.happened.push((*who, happening));
    }

    /// Takes over a connection whose client receives nothing more. It is closed when the client closes it.
    pub fn see_off(
        &mut self,
        link: SocketLink,
        address: IpAddr,
        outcome: SessionOutcome,
        registry: &Registry,
        now_ms: u64,
    ) {
        let who = link.who();
        let Some(place) = self.free_room() else {
            return self.write_down(&who, outcome);
        };
        let mut link = link;
        if link
            .move_to(registry, place.saturating_add(self.first_token))
            .is_err()
        {
            return self.write_down(&who, outcome);
        }
        let mut visitor = Visitor::new(link, address, now_ms);
        visitor.stage = VisitorStage::Over(outcome);
        self.put(place, visitor);
    }

    /// Handles the bytes of all connections, and closes those that have ended. These users may log in.
    pub fn turn(&mut self, users: &[Login], now_ms: u64, buffer: &mut [u8]) {
        let served = ServedSession {
            users,
            session: self.session,
            end_number: self.end_number,
        };
        for place in 0..self.end {
            self.turn_at(place, &served, now_ms, buffer);
        }
    }

    fn turn_at(
        &mut self,
        place: usize,
        served: &ServedSession<'_>,
        now_ms: u64,
        buffer: &mut [u8],
    ) {
        let Some(Some(visitor)) = self.rooms.get_mut(place) else {
            return;
        };
        let was_opening = matches!(visitor.stage, VisitorStage::Opening);
        visitor.turn(served, now_ms, buffer);
        if was_opening && let VisitorStage::Rejected { code, .. } = visitor.stage {
            let at_ms = now_ms.saturating_add(self.refusals.delay_of(visitor.address, now_ms));
            visitor.stage = VisitorStage::Rejected { code, at_ms };
        }
        let who = visitor.who();
        let has_logged_in = was_opening && matches!(visitor.stage, VisitorStage::Ready(_));
        let outcome = visitor.outcome(now_ms);
        if has_logged_in {
            self.happens(&who, Happening::LoggedIn);
        }
        if let Some(outcome) = outcome {
            self.end(place, outcome);
        }
    }

    /// Removes and returns the earliest connection with a valid login, from an address with fewer than `most` clients.
    pub fn next_arrival(&mut self, addresses: &SlotAddresses, most: usize) -> Option<Arrival> {
        let mut first: Option<(usize, u64)> = None;
        for (place, room) in self.rooms.iter().take(self.end).enumerate() {
            if let Some(visitor) = room
                && matches!(visitor.stage, VisitorStage::Ready(_))
                && first.is_none_or(|(_, number)| visitor.link.number() < number)
                && addresses.of(visitor.address) < most
            {
                first = Some((place, visitor.link.number()));
            }
        }
        let visitor = self.take(first?.0)?;
        let config = visitor.accepted_by()?;
        Some(Arrival {
            link: visitor.link,
            address: visitor.address,
            config,
            words: visitor.words,
        })
    }

    /// Returns the next event and its client. Each event is returned once.
    pub fn next_happening(&mut self) -> Option<(Who, Happening)> {
        if self.happened.is_empty() {
            return None;
        }
        Some(self.happened.remove(0))
    }
}
