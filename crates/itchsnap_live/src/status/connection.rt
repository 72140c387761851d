//! A connection to the status port: one request, and its answer.
ghost use Rattle.std.specs.Prelude.{◌≡◌, ◌-◌, nat_le};

use itch_sessions::SocketLink;
use itch_status::{LONGEST, RequestRefusal, StatusAnswer, answer_to, refused};
use mio::event::Event;
use std::alloc::{AllocError, Global};

/// How many milliseconds a connection may be open.
const PATIENCE_MS: u64 = 5_000;

// The state of a connection.
#[derive(Drop)]
enum RequestStage {
    // Its request is not complete.
    Begun,
    // Its request waits for an answer.
    Asked(StatusAnswer),
    // It is answered with these bytes, of which `written` were written.
    Answered { response: Vec<u8>, written: usize },
    // It is to be closed.
    Over,
}

/// A connection to the status port.
#[derive(Drop)]
pub(crate) struct StatusConnection {
    link: SocketLink,
    since_ms: u64,
    request: Vec<u8>,
    stage: RequestStage,
}

impl StatusConnection {
    /// Creates a connection that was accepted at this time.
    ///
    /// # Errors
    ///
    /// [`AllocError`] if memory is refused.
    pub(crate) fn new(
        alloc: Global,
        link: SocketLink,
        now_ms: u64,
    ) -> Result<StatusConnection, AllocError> {
        Ok(StatusConnection {
            link,
            since_ms: now_ms,
            request: Vec::with_capacity(alloc, LONGEST)?,
            stage: RequestStage::Begun,
        })
    }

    /// Records the readiness reported by an event.
    pub(crate) fn note(&mut self, event: &Event) {
        self.link.note(event);
    }

    /// Returns whether there may be something to do without waiting for another event.
    pub(crate) fn is_busy(&self) -> bool {
        match &self.stage {
            RequestStage::Begun => self.link.is_busy(false),
            RequestStage::Asked(_) | RequestStage::Over => true,
            RequestStage::Answered { response, written } => {
                self.link.is_busy(*written < response.len())
            }
        }
    }

    /// Reads bytes, and determines the answer to the request. Bytes after the request are ignored.
    pub(crate) fn hear(&mut self, buffer: &mut [u8], now_ms: u64) {
        match self.stage {
            RequestStage::Begun => self.read(buffer, now_ms),
            RequestStage::Answered { .. } => {
                self.link.read(buffer);
            }
            RequestStage::Asked(_) | RequestStage::Over => {}
        }
    }

    fn read(&mut self, buffer: &mut [u8], now_ms: u64) {
        let most = LONGEST.saturating_sub(self.request.len()).min(buffer.len());
        let count = self.link.read(&mut buffer[..most]).min(most);
        if self.request.extend_from_slice(&buffer[..count]).is_err() {
            self.stage = RequestStage::Over;
        } else if count > 0 {
            self.look(now_ms);
        } else if self.link.ending(None, false).is_some() {
            self.stage = RequestStage::Over;
        } else {
            self.time_out(now_ms);
        }
    }

    // Determines the answer to the bytes so far.
    fn look(&mut self, now_ms: u64) {
        match answer_to(self.request.as_slice()) {
            StatusAnswer::More => self.time_out(now_ms),
            answer => self.stage = RequestStage::Asked(answer),
        }
    }

    fn time_out(&mut self, now_ms: u64) {
        if self.is_late(now_ms) {
            self.stage = RequestStage::Asked(refused(RequestRefusal::TimedOut));
        }
    }

    // Returns whether its five seconds are over.
    fn is_late(&self, now_ms: u64) -> bool
        ensures { result ≡ nat_le 5000 (now_ms - self.now.since_ms) }
    {
        now_ms.saturating_sub(self.since_ms) >= PATIENCE_MS
    }

    /// Returns the answer that is due, if there is one.
    pub(crate) fn asked(&self) -> Option<StatusAnswer> {
        match self.stage {
            RequestStage::Asked(answer) => Some(answer),
            _ => None,
        }
    }

    /// Answers it, or closes it if there is no response.
    pub(crate) fn tell(&mut self, response: Option<Vec<u8>>) {
        self.stage = match response {
            Some(response) => RequestStage::Answered {
                response,
                written: 0,
            },
            None => RequestStage::Over,
        };
    }

    /// Writes as much of the answer as the socket accepts. Returns whether the connection is to be closed, because the peer has closed it or
    /// its time is over.
    pub(crate) fn write(&mut self, now_ms: u64) -> bool {
        let RequestStage::Answered { response, written } = &mut self.stage else {
            return matches!(self.stage, RequestStage::Over);
        };
        let from = (*written).min(response.len());
        *written = from.saturating_add(self.link.write(&response[from..]));
        let is_pending = *written < response.len();
        if !is_pending {
            self.link.end_sending();
        }
        self.link.ending(None, is_pending).is_some() || self.is_late(now_ms)
    }
}
