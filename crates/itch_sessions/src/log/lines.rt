//! The lines of a server other than those of its feed and its clients.

use crate::log::entry::{LogEvent, LogLevel, write_number, write_shown};
use crate::log::form::LogForm;
use crate::sessions::Listening;
use std::fmt::{self, Display, Formatter};
use std::net::SocketAddr;

impl LogEvent for Listening {
    fn level(&self) -> LogLevel {
        LogLevel::Info
    }

    fn name(&self) -> &'static str {
        "listening"
    }

    fn write_fields<W: fmt::Write>(&self, f: &mut Formatter<W>, form: LogForm) -> fmt::Result {
        write_shown(f, form, "on", &self.0)
    }
}

/// The status port listens on this address.
#[derive(Drop)]
pub struct StatusOn(pub SocketAddr);

impl Display for StatusOn {
    fn fmt<W: fmt::Write>(&self, f: &mut Formatter<W>) -> fmt::Result {
        let address = &self.0;
        write!(f, "status on {address}")
    }
}

impl LogEvent for StatusOn {
    fn level(&self) -> LogLevel {
        LogLevel::Info
    }

    fn name(&self) -> &'static str {
        "status"
    }

    fn write_fields<W: fmt::Write>(&self, f: &mut Formatter<W>, form: LogForm) -> fmt::Result {
        write_shown(f, form, "on", &self.0)
    }
}

/// The number of lines of the log that were lost.
#[derive(Drop)]
pub struct LinesLost(pub u64);

impl Display for LinesLost {
    fn fmt<W: fmt::Write>(&self, f: &mut Formatter<W>) -> fmt::Result {
        let lost = self.0;
        write!(f, "log: {lost} lines were lost")
    }
}

impl LogEvent for LinesLost {
    fn level(&self) -> LogLevel {
        LogLevel::Warn
    }

    fn name(&self) -> &'static str {
        "lines_lost"
    }

    fn write_fields<W: fmt::Write>(&self, f: &mut Formatter<W>, form: LogForm) -> fmt::Result {
        write_number(f, form, "count", self.0)
    }
}

/// The number of bytes after the last complete message of a record, which were dropped, and the number of its messages.
#[derive(Drop)]
pub struct Dropped {
    pub bytes: u64,
    pub messages: u64,
}

impl Display for Dropped {
    fn fmt<W: fmt::Write>(&self, f: &mut Formatter<W>) -> fmt::Result {
        let Dropped { bytes, messages } = self;
        write!(f, "record: dropped {bytes} bytes after message {messages}")
    }
}

impl LogEvent for Dropped {
    fn level(&self) -> LogLevel {
        LogLevel::Warn
    }

    fn name(&self) -> &'static str {
        "record_cut"
    }

    fn write_fields<W: fmt::Write>(&self, f: &mut Formatter<W>, form: LogForm) -> fmt::Result {
        write_number(f, form, "bytes", self.bytes)?;
        write_number(f, form, "messages", self.messages)
    }
}
