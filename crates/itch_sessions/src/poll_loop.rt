//! The turns of a server: which sockets are ready, and the time.

use crate::session_fault::SessionFault;
use mio::{Events, Poll, Registry};
use std::alloc::Global;
use std::io;
use std::net::Net;
use std::rt::Clock;
use std::time::{Duration, Instant};

/// The sockets that a server waits for, and the time at which it began.
#[derive(Drop)]
pub struct PollLoop<'a, C> {
    clock: &'a C,
    begun: Instant,
    poll: Poll,
    events: Events<Global>,
}

impl<'a, C: Clock> PollLoop<'a, C> {
    /// Begins now, without sockets. At most `events` sockets are reported per wait.
    ///
    /// # Errors
    ///
    /// [`SessionFault::Socket`] if the clock or the system fails, [`SessionFault::OutOfMemory`] if memory is refused.
    pub fn begin<R: Net + AllocGlobal>(
        rt: &R,
        clock: &'a C,
        events: usize,
    ) -> Result<PollLoop<'a, C>, SessionFault> {
        Ok(PollLoop {
            clock,
            begun: called(Instant::now(clock))?,
            poll: called(Poll::new(rt))?,
            events: Events::with_capacity(rt.alloc(), events)?,
        })
    }

    /// Returns the registry of the sockets.
    pub fn registry(&self) -> &Registry {
        self.poll.registry()
    }

    /// Waits until a socket is ready, at most this long, and returns the milliseconds since the beginning.
    ///
    /// # Errors
    ///
    /// [`SessionFault::Socket`] if the system fails.
    pub fn wait(&mut self, most_ms: u64) -> Result<u64, SessionFault> {
        self.poll(most_ms)?;
        if self.events.is_empty() {
            // A signal also ends a wait early. The process may have been stopped meanwhile, so a client counts as silent only if its socket
            // was checked.
            self.poll(0)?;
        }
        self.now()
    }

    /// Returns the milliseconds since the beginning.
    ///
    /// # Errors
    ///
    /// [`SessionFault::Socket`] if the clock fails.
    pub fn now(&self) -> Result<u64, SessionFault> {
        let passed = called(self.begun.elapsed(self.clock))?;
        Ok(u64::try_from(passed.as_millis()).unwrap_or(u64::MAX))
    }

    /// Returns whether this number of milliseconds has passed, or the clock fails.
    pub fn is_past(&self, most_ms: u64) -> bool {
        match self.now() {
            Ok(now_ms) => now_ms >= most_ms,
            Err(_) => true,
        }
    }

    fn poll(&mut self, most_ms: u64) -> Result<(), SessionFault> {
        let most = Duration::from_millis(most_ms);
        called(self.poll.poll(&mut self.events, Some(most)))
    }

    /// Returns the events of the last wait.
    pub fn events(&self) -> &Events<Global> {
        &self.events
    }
}

/// Returns the result of a system call about sockets or the clock, or its fault.
pub fn called<T>(done: io::Result<T>) -> Result<T, SessionFault> {
    match done {
        Ok(value) => Ok(value),
        Err(error) => Err(SessionFault::of_system(error, SessionFault::Socket(error))),
    }
}
