//! The lines of a server. Writing them never blocks: if a pipe is full or closed, lines are lost, and nothing else happens.

pub mod entry;
pub mod form;
pub mod lines;

use crate::outcome::write_outcome;
use crate::utc::unix_ms;
use crate::who::{Happening, Visit};
use entry::{LogEvent, LogLine};
use form::LogForm;
use itch_frame::CountedWrite;
use itch_status::{UTC, utc};
use lines::LinesLost;
use mio::unix::SourceFd;
use mio::{Events, Interest, Poll, Token};
use std::alloc::{AllocError, Global};
use std::io;
use std::net::Net;
use std::os::fd::RawFd;
use std::rt::Clock;
use std::time::Duration;

const OUTPUT: RawFd = 1;

const ERROR: RawFd = 2;

/// The interval in milliseconds at which a line reports the number of lost lines.
const REPORT_MS: u64 = 60_000;

/// Standard error for the events of a server, and standard output for the line of each client.
#[derive(Drop)]
pub struct Log<'a, R> {
    rt: &'a R,
    form: LogForm,
    // The time of this turn in milliseconds since 1970, if the clock provides it.
    time: Option<u64>,
    output: Outlet,
    error: Outlet,
    is_mute: bool,
    lost: u64,
    // The lost lines that were reported already.
    lost_before: u64,
    reported_ms: u64,
}

impl<'a, R: Eprint> Log<'a, R> {
    pub fn new(rt: &'a R, form: LogForm) -> Result<Log<'a, R>, AllocError>
    where
        R: Net + Clock + AllocGlobal,
    {
        Ok(Log {
            rt,
            form,
            time: unix_ms(rt),
            output: Outlet::new(rt, OUTPUT)?,
            error: Outlet::new(rt, ERROR)?,
            is_mute: false,
            lost: 0,
            lost_before: 0,
            reported_ms: 0,
        })
    }

    /// Creates another log with the same form, to the same streams.
    ///
    /// # Errors
    ///
    /// [`AllocError`] if memory is refused.
    pub fn another(&self) -> Result<Log<'a, R>, AllocError>
    where
        R: Net + Clock + AllocGlobal,
    {
        Log::new(self.rt, self.form)
    }

    /// Returns the number of lost lines.
    pub fn lost(&self) -> u64 {
        self.lost_before.saturating_add(self.lost)
    }

    /// Returns whether the lines include the cause of a loss.
    pub fn has_causes(&self) -> bool {
        !matches!(self.form, LogForm::Plain)
    }

    /// Returns the runtime that it writes with.
    pub fn runtime(&self) -> &'a R {
        self.rt
    }

    /// Reads the clock. Lines until the next call carry this time.
    pub fn look_at_clock(&mut self)
    where
        R: Clock,
    {
        if !matches!(self.form, LogForm::Plain) {
            self.time = unix_ms(self.rt);
        }
    }

    /// Suppresses all further events on standard error.
    pub fn mute(&mut self) {
        self.is_mute = true;
    }

    /// Writes a line to standard error.
    pub fn say<L: LogEvent>(&mut self, line: &L) {
        if !self.is_mute && !self.says(line) {
            self.lost = self.lost.saturating_add(1);
        }
    }

    fn says<L: LogEvent>(&mut self, line: &L) -> bool {
        if !self.error.has_room() {
            return false;
        }
        let said = match self.form {
            LogForm::Plain => self.rt.eprintln(line),
            form => self.rt.eprintln(&LogLine {
                time: self.time(),
                form,
                event: line,
            }),
        };
        said.is_ok()
    }

    // Returns the time of this turn as text.
    fn time(&self) -> Option<[u8; UTC]> {
        utc(self.time?)
    }

    /// Writes an event of a client's connection. In plain form only the end of the connection is written, to standard output.
    pub fn tell<W: CountedWrite>(&mut self, out: &mut W, visit: &Visit) {
        match (self.form, visit.happening) {
            (LogForm::Plain, Happening::Ended(outcome)) => {
                let number = visit.who.number;
                if !self.output.has_room() || write_outcome(out, number, outcome).is_err() {
                    self.lost = self.lost.saturating_add(1);
                }
            }
            (LogForm::Plain, _) => {}
            _ => self.say(visit),
        }
    }

    /// Reports the number of lost lines, at most once per minute.
    pub fn report(&mut self, now_ms: u64) {
        if self.lost == 0 || now_ms < self.reported_ms.saturating_add(REPORT_MS) {
            return;
        }
        self.reported_ms = now_ms;
        if self.says(&LinesLost(self.lost)) {
            self.lost_before = self.lost();
            self.lost = 0;
        }
    }
}

// A stream to which lines are written.
#[derive(Drop)]
struct Outlet {
    fd: RawFd,
    // `None` if it is a file, which never blocks.
    poll: Option<Poll>,
    events: Events<Global>,
}

impl Outlet {
    fn new<R: Net + AllocGlobal>(rt: &R, fd: RawFd) -> Result<Outlet, AllocError> {
        Ok(Outlet {
            fd,
            poll: watched(rt, fd).ok(),
            events: Events::with_capacity(rt.alloc(), 1)?,
        })
    }

    // Returns whether a line of less than a page can be written without blocking. A fault of the stream shows when it is written.
    fn has_room(&mut self) -> bool {
        let Some(poll) = &mut self.poll else {
            return true;
        };
        let fd = self.fd;
        let again = poll
            .registry()
            .reregister(&mut SourceFd(&fd), Token(0), Interest::WRITABLE);
        if again.is_err() || poll.poll(&mut self.events, Some(Duration::ZERO)).is_err() {
            return true;
        }
        !self.events.is_empty()
    }
}

fn watched<N: Net>(net: &N, fd: RawFd) -> io::Result<Poll> {
    let poll = Poll::new(net)?;
    poll.registry()
        .register(&mut SourceFd(&fd), Token(0), Interest::WRITABLE)?;
    Ok(poll)
}
