//! The status port: answers requests for the figures of a live server, without delaying its feed and its clients.

mod connection;

use connection::StatusConnection;
use itch_records::LiveFault;
use itch_sessions::log::Log;
use itch_sessions::log::lines::StatusOn;
use itch_sessions::{
    ClientPort, IncomingClient, ServerAddress, Socket, SocketLink, Spare, VERSION, Who, date,
};
use itch_status::{Figures, LONGEST, StatusAnswer, refuse, respond};
use mio::Registry;
use mio::event::Event;
use mio::net::TcpStream;
use std::alloc::{AllocError, Global};
use std::fs::File;
use std::io::{self, ErrorKind};
use std::net::{IpAddr, Net, SocketAddr, ToSocketAddrs};
use std::rt::{Clock, Files};

/// The number of the port's socket, followed by those of its connections. No client has such a number.
pub(crate) const STATUS: usize = 1 << 20;

/// The most connections at a time.
const MOST: usize = 16;

/// The most connections accepted, and the most requests answered, per turn.
const SHARE: usize = 4;

/// A listening port for requests, and its connections.
#[derive(Drop)]
pub(crate) struct StatusPort {
    port: ClientPort,
    connections: Vec<Option<StatusConnection>>,
    buffer: Vec<u8>,
}

impl StatusPort {
    /// Listens on the first address of this name, and reports it on standard error.
    ///
    /// # Errors
    ///
    /// [`LiveFault::StatusPort`] if the port cannot be bound.
    pub(crate) fn open<R: Net + Clock + Eprint + AllocGlobal>(
        log: &mut Log<'_, R>,
        registry: &Registry,
        place: ServerAddress<'_>,
    ) -> Result<StatusPort, LiveFault> {
        let rt = log.runtime();
        let (port, address) = match listen(rt, registry, place) {
            Ok(listening) => listening,
            Err(error) => return Err(LiveFault::StatusPort(error)),
        };
        log.say(&StatusOn(address));
        Ok(StatusPort::new(rt.alloc(), port)?)
    }

    fn new(alloc: Global, port: ClientPort) -> Result<StatusPort, AllocError> {
        let mut connections = Vec::with_capacity(alloc, MOST)?;
        for _place in 0..MOST {
            connections.push(None)?;
        }
        let mut port = port;
        port.note();
        Ok(StatusPort {
            port,
            connections,
            buffer: vec![in alloc; 0; LONGEST]?,
        })
    }

    /// Records that the socket with this number is ready.
    pub(crate) fn note(&mut self, token: usize, event: &Event) {
        if token == STATUS {
            return self.port.note();
        }
        let place = token.saturating_sub(STATUS + 1);
        if let Some(Some(connection)) = self.connections.get_mut(place) {
            connection.note(event);
        }
    }

    /// Returns whether there may be something to do without waiting for another event.
    pub(crate) fn is_busy(&self) -> bool {
        self.connections.iter().any(|connection| match connection {
            Some(connection) => connection.is_busy(),
            None => false,
        })
    }

    /// Accepts connections, while there are room and descriptors other than the spare ones, and reads the requests.
    pub(crate) fn hear<R: Files<File = File> + AllocGlobal>(
        &mut self,
        rt: &R,
        registry: &Registry,
        spare: &mut Spare,
        now_ms: u64,
    ) {
        for _ in 0..SHARE {
            let (true, Some(place)) = (self.port.are_waiting(), self.free_place()) else {
                break;
            };
            if !spare.hold(rt) {
                break;
            }
            let IncomingClient::Stream(stream, address) = self.port.next() else {
                break;
            };
            self.admit(rt.alloc(), place, stream, address, registry, now_ms);
        }
        for connection in self.connections.iter_mut() {
            if let Some(connection) = connection {
                connection.hear(self.buffer.as_mut_slice(), now_ms);
            }
        }
    }

    fn free_place(&self) -> Option<usize> {
        self.connections
            .iter()
            .position(|connection| connection.is_none())
    }

    // Adds a connection. It is closed if it cannot be registered, or memory is refused for it.
    fn admit(
        &mut self,
        alloc: Global,
        place: usize,
        stream: TcpStream,
        address: IpAddr,
        registry: &Registry,
        now_ms: u64,
    ) {
        let token = place.saturating_add(STATUS + 1);
        let Ok(socket) = Socket::register(registry, stream, token, true) else {
            return;
        };
        let link = SocketLink::new(socket, Who::new(0, address, now_ms));
        if let (Ok(connection), Some(free)) = (
            StatusConnection::new(alloc, link, now_ms),
            self.connections.get_mut(place),
        ) {
            *free = Some(connection);
        }
    }

    /// Returns whether there are requests to be answered.
    pub(crate) fn is_asked(&self) -> bool {
        self.connections.iter().any(|connection| match connection {
            Some(connection) => connection.asked().is_some(),
            None => false,
        })
    }

    /// Answers requests with these figures.
    pub(crate) fn answer<R: Clock + AllocGlobal>(&mut self, rt: &R, figures: &Figures) {
        let mut left = SHARE;
        for connection in self.connections.iter_mut() {
            if left > 0
                && let Some(connection) = connection
                && let Some(asked) = connection.asked()
            {
                left -= 1;
                connection.tell(response(rt, asked, figures));
            }
        }
    }

    /// Writes the answers, and closes connections that have ended.
    pub(crate) fn tell(&mut self, now_ms: u64) {
        for connection in self.connections.iter_mut() {
            if let Some(some) = connection
                && some.write(now_ms)
            {
                *connection = None;
            }
        }
    }
}

// Returns the response to a request, or `None` if memory is refused for it.
fn response<R: Clock + AllocGlobal>(
    rt: &R,
    asked: StatusAnswer,
    figures: &Figures,
) -> Option<Vec<u8>> {
    let made = match asked {
        StatusAnswer::More => return None,
        StatusAnswer::Page { page, has_body } => respond(
            rt.alloc(),
            page,
            has_body,
            figures,
            VERSION,
            date(rt),
        ),
        StatusAnswer::Refused { refusal, has_body } => {
            refuse(rt.alloc(), refusal, has_body, date(rt))
        }
    };
    made.ok()
}

fn listen<N: Net>(
    net: &N,
    registry: &Registry,
    place: ServerAddress<'_>,
) -> io::Result<(ClientPort, SocketAddr)> {
    ClientPort::open(net, registry, address_of(net, place)?, STATUS)
}

fn address_of<N: Net>(net: &N, place: ServerAddress<'_>) -> io::Result<SocketAddr> {
    let mut addresses = (place.host, place.port).to_socket_addrs(net)?;
    match addresses.next() {
        Some(address) => Ok(address),
        None => Err(io::Error::from(ErrorKind::NotFound)),
    }
}
