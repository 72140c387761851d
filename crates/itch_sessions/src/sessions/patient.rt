//! Sockets with a deadline: a peer that is silent, or accepts little, cannot block the server for long.
ghost use Rattle.std.specs.Prelude.{◌≡◌, ◌+◌, ◌≤◌, ◌<◌, MatchOption};
ghost use Rattle.std.specs.Duration.{as_nanos};
ghost use Rattle.itch_sessions.specs.Patience.{patience};

use std::io::{self, ErrorKind, Read, Write};
use std::net::{OpenStream, Shutdown};
use std::rt::Clock;
use std::time::{Duration, Instant};

// SoupBinTCP considers a peer lost after this many seconds of silence.
const FIRST_SECONDS: u64 = 15;

// A peer that accepts fewer bytes of a long answer per second is disconnected.
const BYTES_A_SECOND: u64 = 1 << 16;

/// Returns how much more time a peer has that has accepted this many bytes of its answer in this time, or `None` if its time is over.
///
/// It has 15 seconds, and one more for each 64 KiB.
pub fn time_left(taken: u64, spent: Duration) -> Option<Duration>
    ensures { MatchOption result (patience taken ≤ as_nanos spent)
        (λ left. (0 < as_nanos left) × (as_nanos left + as_nanos spent ≡ patience taken)) }
{
    let allowed = Duration::from_secs(FIRST_SECONDS + taken / BYTES_A_SECOND);
    let left = allowed.saturating_sub(spent);
    if left.is_zero() { None } else { Some(left) }
}

/// Reads or writes a socket while its peer has time left. A call that would wait longer fails.
///
/// The time begins with the first call. All reads together have 15 seconds. Writes have more time, the more bytes the system has accepted.
#[derive(Drop)]
pub struct Patient<'a, S, C> {
    stream: S,
    clock: &'a C,
    begun: Option<Instant>,
    taken: u64,
}

impl<'a, S, C: Clock> Patient<'a, S, C> {
    /// Creates one before the first call.
    pub fn new(stream: S, clock: &'a C) -> Patient<'a, S, C>
        ensures { result.stream ≡ stream }
    {
        Patient {
            stream,
            clock,
            begun: None,
            taken: 0,
        }
    }

    // Returns how long the next call may wait.
    fn left(&mut self) -> io::Result<Duration>
        ensures { self.new.stream ≡ self.old.stream }
    {
        let now = Instant::now(self.clock)?;
        let begun = *self.begun.get_or_insert(now);
        time_left(self.taken, now.duration_since(begun)).ok_or(io::Error::from(ErrorKind::TimedOut))
    }
}

impl<S: Read + OpenStream, C: Clock> Read for Patient<'_, S, C> {
    ghost remaining = { λ p. S.remaining p.stream };

    // A read with a time limit ends with `Interrupted` if the process is stopped and continued. It is repeated with the remaining time.
    fn read(&mut self, buf: &mut [u8]) -> io::Result<usize> {
        for _ in 0..u64::MAX {
            let left = self.left()?;
            self.stream.set_read_timeout(Some(left))?;
            match self.stream.read(buf) {
                Err(error) if matches!(error.kind(), ErrorKind::Interrupted) => {}
                read => return read,
            }
        }
        Err(io::Error::from(ErrorKind::TimedOut))
    }
}

impl<S: Write + OpenStream, C: Clock> Write for Patient<'_, S, C> {
    ghost contents = { λ p. S.contents p.stream };

    fn write(&mut self, buf: &[u8]) -> io::Result<usize> {
        let left = self.left()?;
        self.stream.set_write_timeout(Some(left))?;
        let count = self.stream.write(buf)?;
        self.taken = self.taken.saturating_add(count as u64);
        Ok(count)
    }

    fn flush(&mut self) -> io::Result<()> {
        self.stream.flush()
    }
}

impl<S: Read + OpenStream, C: Clock> Patient<'_, S, C> {
    /// Shuts down the sending half, and ignores further bytes from the peer until the peer has closed its half too, or its time is over. It
    /// does not wait for a peer that has accepted nothing.
    ///
    /// If a socket is closed with unread bytes, or if bytes arrive later, its connection is reset, and the peer may lose the end of its
    /// answer.
    pub fn hang_up(&mut self) {
        let _ = self.stream.shutdown(Shutdown::Write);
        if self.taken == 0 {
            return;
        }
        let mut bytes = [0; 4096];
        for _ in 0..u64::MAX {
            match self.read(&mut bytes) {
                Ok(count) if count > 0 => {}
                _ => return,
            }
        }
    }
}
