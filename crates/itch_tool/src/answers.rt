//! Reads what a server sends, with a time limit per read.

use std::io::{self, ErrorKind, Read};
use std::net::TcpStream;
use std::rt::Clock;
use std::time::{Duration, Instant};

/// The least time limit of a read that is repeated: bytes may have arrived while the process was stopped.
const LEAST_MS: u64 = 1;

/// Reads from a socket. Each read fails after the time limit, if there is one.
#[derive(Drop)]
pub struct Answers<'a, C> {
    stream: &'a TcpStream,
    limit: Option<Duration>,
    clock: &'a C,
}

impl<'a, C: Clock> Answers<'a, C> {
    /// Creates a reader of a socket.
    pub fn new(stream: &'a TcpStream, limit: Option<Duration>, clock: &'a C) -> Answers<'a, C> {
        Answers {
            stream,
            limit,
            clock,
        }
    }

    // Limits the next read of the socket to the time that is left of a read that began at this time.
    fn set_time_left(&self, begun: Instant) -> io::Result<()> {
        let Some(limit) = self.limit else {
            return Ok(());
        };
        let left = limit.saturating_sub(begun.elapsed(self.clock)?);
        let least = Duration::from_millis(LEAST_MS);
        self.stream.set_read_timeout(Some(left.max(least)))
    }
}

impl<C: Clock> Read for Answers<'_, C> {
    // A read with a time limit ends with `Interrupted` if the process is stopped and continued. It is repeated with the remaining time.
    fn read(&mut self, buf: &mut [u8]) -> io::Result<usize> {
        let begun = Instant::now(self.clock)?;
        for _ in 0..u64::MAX {
            self.set_time_left(begun)?;
            match self.stream.read(buf) {
                Err(error) if matches!(error.kind(), ErrorKind::Interrupted) => {}
                read => return read,
            }
        }
        Err(io::Error::from(ErrorKind::TimedOut))
    }
}
