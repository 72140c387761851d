//! The connection of a client.
ghost use Rattle.std.specs.Prelude.{◌≡◌, ◌≤◌, ◌&&◌, ◌||◌, not, length};
ghost use Rattle.itch_sessions.specs.SessionOutcomes.{ending};

use crate::socket::{Got, Socket};
use crate::who::{User, Who};
use itch_live::DisconnectCause;
use mio::Registry;
use mio::event::Event;
use std::io;

/// The connection of a client, and how much of it has ended.
#[derive(Drop)]
pub struct SocketLink {
    socket: Socket,
    who: Who,
    // Whether the client has closed its sending half, whether the server has closed its own, and whether a read or a write has failed.
    has_ended: bool,
    has_all: bool,
    has_failed: bool,
}

impl SocketLink {
    /// Creates the connection of this client.
    pub fn new(socket: Socket, who: Who) -> SocketLink {
        SocketLink {
            socket,
            who,
            has_ended: false,
            has_all: false,
            has_failed: false,
        }
    }

    pub fn number(&self) -> u64 {
        self.who.number
    }

    /// Returns the identity of the client.
    pub fn who(&self) -> Who {
        self.who
    }

    /// Records the user name of a login.
    pub fn set_user(&mut self, user: User) {
        self.who.user = Some(user);
    }

    /// Records the readiness reported by an event.
    pub fn note(&mut self, event: &Event) {
        self.socket.note(event);
    }

    /// Returns whether there may be bytes to read, or room to write pending ones, without waiting for another event.
    pub fn is_busy(&self, is_pending: bool) -> bool {
        self.socket.is_readable() || (is_pending && self.socket.is_writable())
    }

    /// Registers its socket under another number.
    pub fn move_to(&mut self, registry: &Registry, token: usize) -> io::Result<()> {
        self.socket.move_to(registry, token)
    }

    /// Makes the next write try the socket, even if the system has not reported room.
    pub fn try_to_write(&mut self) {
        self.socket.try_to_write();
    }

    /// Reads bytes from the client into the front of a buffer that is not empty, and returns how many were read.
    pub fn read(&mut self, buffer: &mut [u8]) -> usize
        ensures { result ≤ length buffer.new }
    {
        match self.socket.read(buffer) {
            Ok(Got::Bytes(count)) => count,
            Ok(Got::Nothing) => 0,
            Ok(Got::Ended) => {
                self.has_ended = true;
                0
            }
            Err(_) => {
                self.has_failed = true;
                0
            }
        }
    }

    /// Writes as many of these bytes as the socket accepts now, and returns how many it accepted.
    pub fn write(&mut self, bytes: &[u8]) -> usize
        ensures { result ≤ length bytes.now }
    {
        match self.socket.write(bytes) {
            Ok(count) => {
                self.who.sent = self.who.sent.saturating_add(count as u64);
                count
            }
            Err(_) => {
                self.has_failed = true;
                0
            }
        }
    }

    /// Shuts down the sending half, once.
    pub fn end_sending(&mut self) {
        if !self.has_all {
            self.has_all = true;
            self.socket.end_sending();
        }
    }

    /// Returns whether the sending half is shut down, because the client has received everything.
    pub fn has_all(&self) -> bool {
        self.has_all
    }

    /// Returns the reason to close the connection, if there is one: its client is gone, its socket has failed, or the client has closed its
    /// sending half and waits for nothing. A client that has closed its sending half counts as [`DisconnectCause::Left`], even if its socket fails
    /// afterwards.
    pub fn ending(&self, gone: Option<DisconnectCause>, waits: bool) -> Option<DisconnectCause>
        ensures { result ≡ ending gone self.now.has_ended (self.now.has_failed || (self.now.has_ended && not waits)) }
    {
        let is_over = self.has_failed || (self.has_ended && !waits);
        match gone {
            Some(gone) => Some(gone),
            None if !is_over => None,
            None if self.has_ended => Some(DisconnectCause::Left),
            None => Some(DisconnectCause::Fault),
        }
    }
}
