//! One connection without a place: its packets up to the login, and its end.

use crate::opening::{FirstBytes, opening_of};
use arrayvec::ArrayVec;
use itch_codec::{Alpha, Seq};
use itch_live::{DisconnectCause, PendingPacket};
use itch_sessions::sessions::Login;
use itch_sessions::{SessionOutcome, SocketLink, User, Verdict, Who, outcome_of, verdict_of};
use itch_soup::{Origin, Packet, ServerConfig, ServerSession, parse_packet};
use std::net::IpAddr;

/// How long a connection has to log in, or to close after it receives nothing more.
const PATIENCE_MS: u64 = 15_000;

/// The number of bytes kept from a connection: a login with its length, and some more.
pub(super) const KEPT: usize = 64;

// The state of a connection.
#[derive(Clone, Copy)]
pub(super) enum VisitorStage {
    // It has not sent a complete login.
    Opening,
    // Its login is valid for this configuration, and it waits for a place.
    Ready(ServerConfig),
    // Its login was rejected, and the rejection is sent at this time.
    Rejected { code: u8, at_ms: u64 },
    // It receives nothing more, and has ended in this way.
    Over(SessionOutcome),
}

// The data that logins are judged by.
#[derive(Clone, Copy)]
pub(super) struct ServedSession<'a> {
    pub users: &'a [Login],
    pub session: Alpha<10>,
    pub end_number: Seq,
}

/// A connection without a place.
#[derive(Drop)]
pub(super) struct Visitor {
    pub link: SocketLink,
    pub address: IpAddr,
    pub since_ms: u64,
    pub stage: VisitorStage,
    pub words: ArrayVec<u8, KEPT>,
    // The number of bytes of a skipped packet that have not arrived yet.
    skipped: usize,
}

impl Visitor {
    /// Returns whether there may be bytes to read without waiting for another event.
    pub(super) fn is_busy(&self) -> bool {
        match self.stage {
            VisitorStage::Opening | VisitorStage::Over(_) => self.link.is_busy(false),
            VisitorStage::Ready(_) => {
                self.words.remaining_capacity() > 0 && self.link.is_busy(false)
            }
            VisitorStage::Rejected { .. } => false,
        }
    }

    pub(super) fn who(&self) -> Who {
        self.link.who()
    }

    pub(super) fn new(link: SocketLink, address: IpAddr, now_ms: u64) -> Visitor {
        Visitor {
            link,
            address,
            since_ms: now_ms,
            stage: VisitorStage::Opening,
            words: ArrayVec::new(),
            skipped: 0,
        }
    }

    /// Reads bytes of the connection, as far as they are kept, and acts on them.
    pub(super) fn turn(&mut self, served: &ServedSession<'_>, now_ms: u64, buffer: &mut [u8]) {
        match self.stage {
            VisitorStage::Opening => {
                self.read(buffer);
                self.hear(served, now_ms);
            }
            VisitorStage::Ready(_) => self.read(buffer),
            VisitorStage::Rejected { code, at_ms } if now_ms >= at_ms => {
                let rejection = PendingPacket::of(&ServerSession::rejected(code));
                self.link.write(rejection.bytes());
                self.link.end_sending();
                self.stage = VisitorStage::Over(SessionOutcome::Rejected(code));
            }
            VisitorStage::Rejected { .. } => {}
            VisitorStage::Over(_) => {
                self.link.read(buffer);
            }
        }
    }

    // Reads as many bytes as there is room for, or bytes that are skipped.
    fn read(&mut self, buffer: &mut [u8]) {
        if self.skipped > 0 {
            let most = self.skipped.min(buffer.len());
            let count = self.link.read(&mut buffer[..most]);
            self.skipped = self.skipped.saturating_sub(count);
            return;
        }
        let most = self.words.remaining_capacity().min(buffer.len());
        if most == 0 {
            return;
        }
        let count = self.link.read(&mut buffer[..most]);
        let _ = self.words.try_extend_from_slice(&buffer[..count.min(most)]);
    }

    // Handles its packets up to its login. Bytes after the login are kept.
    fn hear(&mut self, served: &ServedSession<'_>, now_ms: u64) {
        for _ in 0..KEPT {
            match opening_of(self.words.as_slice()) {
                FirstBytes::Begun => return,
                FirstBytes::Packet(length) => {
                    if self.hear_packet(length, served, now_ms) {
                        return;
                    }
                    self.pass(length.saturating_add(2));
                }
                FirstBytes::Passed(length) => {
                    self.pass(length);
                    return;
                }
                FirstBytes::Broken => {
                    self.stage = VisitorStage::Over(SessionOutcome::Fault);
                    return;
                }
            }
        }
    }

    // Acts on a packet, and returns whether it was the last one to handle here.
    fn hear_packet(&mut self, length: usize, served: &ServedSession<'_>, now_ms: u64) -> bool {
        let end = length.saturating_add(2).min(self.words.len());
        let payload = &self.words[end.min(2)..end];
        let Ok(packet) = parse_packet(payload, Origin::Client) else {
            self.stage = VisitorStage::Over(SessionOutcome::Fault);
            return true;
        };
        if let Packet::LoginRequest(login) = &packet {
            self.link.set_user(User::new(login.username.text()));
        }
        let messages = served.end_number.value() - 1;
        self.stage = match verdict_of(served.users, &served.session, messages, &packet) {
            Verdict::Waits => return false,
            Verdict::Accepted(config) => VisitorStage::Ready(config),
            Verdict::Rejected(code) => VisitorStage::Rejected {
                code,
                at_ms: now_ms,
            },
            Verdict::Left => VisitorStage::Over(SessionOutcome::Left),
            Verdict::Fault => VisitorStage::Over(SessionOutcome::Fault),
        };
        true
    }

    // Skips bytes, some of which may not have arrived yet.
    fn pass(&mut self, count: usize) {
        let here = count.min(self.words.len());
        self.skipped = count.saturating_sub(here);
        self.words.drain(..here);
    }

    /// Returns the configuration that accepts its login, if it is valid.
    pub(super) fn accepted_by(&self) -> Option<ServerConfig> {
        match &self.stage {
            VisitorStage::Ready(config) => Some(*config),
            _ => None,
        }
    }

    /// Returns how its connection ended, if it is to be closed. A connection whose login has arrived receives the answer, even if it has
    /// closed its sending half.
    pub(super) fn outcome(&self, now_ms: u64) -> Option<SessionOutcome> {
        let waits = matches!(
            self.stage,
            VisitorStage::Ready(_) | VisitorStage::Rejected { .. }
        );
        let gone = self.link.ending(None, waits);
        let is_late = now_ms.saturating_sub(self.since_ms) >= PATIENCE_MS;
        match self.stage {
            VisitorStage::Over(outcome @ (SessionOutcome::Left | SessionOutcome::Fault)) => Some(
                outcome,
            ),
            VisitorStage::Over(outcome) if gone.is_some() || is_late => Some(outcome),
            VisitorStage::Over(_) => None,
            VisitorStage::Rejected { code, .. } if gone.is_some() || is_late => {
                Some(SessionOutcome::Rejected(code))
            }
            VisitorStage::Rejected { .. } => None,
            VisitorStage::Opening if is_late => Some(outcome_of(
                None,
                None,
                DisconnectCause::Silent,
            )),
            VisitorStage::Opening | VisitorStage::Ready(_) => Some(outcome_of(None, None, gone?)),
        }
    }
}
