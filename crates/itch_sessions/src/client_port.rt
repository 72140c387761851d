//! Incoming connections of a listening port.

use crate::sessions::Listening;
use mio::net::{TcpListener, TcpStream};
use mio::{Interest, Registry, Token};
use std::io::{self, ErrorKind};
use std::net::{IpAddr, Net, SocketAddr};

/// An incoming connection, or the reason why there is none.
#[derive(Drop)]
pub enum IncomingClient {
    /// A client that has connected from this address.
    Stream(TcpStream, IpAddr),
    /// No client at the moment.
    Nobody,
    /// A client may be waiting, but the system cannot provide a socket at the moment.
    NoDescriptor,
}

/// A listening port, and whether clients may be waiting there.
#[derive(Drop)]
pub struct ClientPort {
    listener: TcpListener,
    are_waiting: bool,
}

impl ClientPort {
    /// Listens on an address, and prints the actual address to standard error: port 0 is replaced by a free one.
    ///
    /// # Errors
    ///
    /// The system's error if the port cannot be bound or registered.
    pub fn listen<R: Net + Eprint>(
        rt: &R,
        registry: &Registry,
        address: SocketAddr,
        token: usize,
    ) -> io::Result<ClientPort> {
        let (client_port, address) = ClientPort::open(rt, registry, address, token)?;
        // A failure to print the line is not a reason to stop.
        let _ = rt.eprintln(&Listening(address));
        Ok(client_port)
    }

    /// Listens on an address, and returns the actual one: port 0 is replaced by a free one.
    ///
    /// # Errors
    ///
    /// The system's error if the port cannot be bound or registered.
    pub fn open<N: Net>(
        net: &N,
        registry: &Registry,
        address: SocketAddr,
        token: usize,
    ) -> io::Result<(ClientPort, SocketAddr)> {
        let mut listener = TcpListener::bind(net, address)?;
        let address = listener.local_addr()?;
        registry.register(&mut listener, Token(token), Interest::READABLE)?;
        let client_port = ClientPort {
            listener,
            are_waiting: false,
        };
        Ok((client_port, address))
    }

    /// Notes that clients are waiting.
    pub fn note(&mut self) {
        self.are_waiting = true;
    }

    /// Returns whether clients may be waiting.
    pub fn are_waiting(&self) -> bool {
        self.are_waiting
    }

    /// Returns the next client that has connected, if there is one.
    pub fn next(&mut self) -> IncomingClient {
        if !self.are_waiting {
            return IncomingClient::Nobody;
        }
        match self.listener.accept() {
            Ok((stream, address)) => {
                // Every write is as large as possible already, so the system need not hold back data to merge it with later data.
                let _ = stream.set_nodelay(true);
                IncomingClient::Stream(stream, address.ip())
            }
            Err(error) => {
                // If the system has no more sockets, the next turn tries again.
                self.are_waiting = !matches!(error.kind(), ErrorKind::WouldBlock);
                if self.are_waiting {
                    IncomingClient::NoDescriptor
                } else {
                    IncomingClient::Nobody
                }
            }
        }
    }
}
