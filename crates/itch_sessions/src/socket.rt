//! A socket that does not block, and its readiness.
ghost use Rattle.std.specs.Prelude.{◌≤◌, length, IfOk};
ghost use Rattle.itch_sessions.specs.Sockets.{IsWithin};

use mio::event::Event;
use mio::net::TcpStream;
use mio::{Interest, Registry, Token};
use std::io::{self, ErrorKind, Read, Write};
use std::net::Shutdown;

/// The outcome of a read.
#[derive(Clone, Copy, Debug, PartialEq, Eq)]
pub enum Got {
    /// This number of bytes, at least one.
    Bytes(usize),
    /// No bytes at the moment.
    Nothing,
    /// The peer has closed its sending half.
    Ended,
}

/// A socket, and whether it can be read and written without blocking. The system reports readiness once per change, so both flags are kept
/// until a call would block.
#[derive(Drop)]
pub struct Socket {
    stream: TcpStream,
    readable: bool,
    writable: bool,
}

impl Socket {
    /// Registers a socket under this number. A connected socket is assumed to be ready.
    ///
    /// # Errors
    ///
    /// The system's error if it cannot be registered.
    pub fn register(
        registry: &Registry,
        stream: TcpStream,
        token: usize,
        connected: bool,
    ) -> io::Result<Socket> {
        let mut stream = stream;
        registry.register(
            &mut stream,
            Token(token),
            Interest::READABLE | Interest::WRITABLE,
        )?;
        Ok(Socket {
            stream,
            readable: connected,
            writable: connected,
        })
    }

    /// Records the readiness reported by an event.
    pub fn note(&mut self, event: &Event) {
        let over = event.is_error() || event.is_read_closed();
        self.readable = self.readable || event.is_readable() || over;
        self.writable = self.writable || event.is_writable() || over;
    }

    pub fn is_readable(&self) -> bool {
        self.readable
    }

    pub fn is_writable(&self) -> bool {
        self.writable
    }

    /// Registers it under another number. The system then reports its readiness again.
    ///
    /// # Errors
    ///
    /// The system's error if it cannot be registered.
    pub fn move_to(&mut self, registry: &Registry, token: usize) -> io::Result<()> {
        registry.reregister(
            &mut self.stream,
            Token(token),
            Interest::READABLE | Interest::WRITABLE,
        )
    }

    /// Makes the next write try the socket, even if the system has not reported room. The system does so only when a third of its buffer is
    /// free.
    pub fn try_to_write(&mut self) {
        self.writable = true;
    }

    /// Reads the available bytes into the front of a buffer that is not empty.
    ///
    /// # Errors
    ///
    /// The system's error if the read fails.
    pub fn read(&mut self, buffer: &mut [u8]) -> io::Result<Got>
        ensures { IfOk result (IsWithin (length buffer.new)) }
    {
        if !self.readable {
            return Ok(Got::Nothing);
        }
        match self.stream.read(buffer) {
            Ok(0) => {
                self.readable = false;
                Ok(Got::Ended)
            }
            Ok(count) => Ok(Got::Bytes(count)),
            Err(error) => match error.kind() {
                ErrorKind::WouldBlock => {
                    self.readable = false;
                    Ok(Got::Nothing)
                }
                ErrorKind::Interrupted => Ok(Got::Nothing),
                _ => Err(error),
            },
        }
    }

    /// Writes as many of these bytes as the socket accepts now, and returns how many it accepted.
    ///
    /// # Errors
    ///
    /// The system's error if the write fails.
    pub fn write(&mut self, bytes: &[u8]) -> io::Result<usize>
        ensures { IfOk result (λ count. count ≤ length bytes.now) }
    {
        if !self.writable || bytes.is_empty() {
            return Ok(0);
        }
        match self.stream.write(bytes) {
            Ok(count) => Ok(count),
            Err(error) => match error.kind() {
                ErrorKind::WouldBlock => {
                    self.writable = false;
                    Ok(0)
                }
                ErrorKind::Interrupted => Ok(0),
                _ => Err(error),
            },
        }
    }

    /// Shuts down the sending half.
    pub fn end_sending(&mut self) {
        let _ = self.stream.shutdown(Shutdown::Write);
    }
}
