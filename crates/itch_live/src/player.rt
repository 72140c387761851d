//! One client of a played feed.
ghost use Rattle.std.specs.Prelude.{◌≡◌, ◌≤◌, ◌<◌, ◌^◌, length, IfOk, IsSome};
ghost use Rattle.itch_live.specs.Players as players;

use crate::client::hear_payload;
use crate::disconnect_cause::DisconnectCause;
use crate::outbox::Outbox;
use crate::progress::Progress;
use itch_frame::Splitter;
use itch_soup::{ServerAct, ServerConfig, ServerSession};
use std::alloc::{AllocError, Allocator};
use std::marker::Model;

/// A client that sends nothing and accepts nothing for this long is disconnected.
const SILENCE_MS: u64 = 15_000;

/// A server that has been silent for longer than this sends a heartbeat.
const IDLE_MS: u64 = 1_000;

/// One client of a live feed (SoupBinTCP 3.00): it receives the messages of a day, starting at the number in its login.
///
/// The caller passes in message n while [`Player::wanted`] returns n, writes [`Player::pending`] as far as the socket accepts it, and calls
/// [`Player::took`] with the number of bytes written. [`Player::new`] allocates all memory: 65,537 bytes for input and 131,076 for output.
#[derive(Drop)]
pub struct Player<A: Allocator> {
    total: u64,
    splitter: Splitter<A>,
    session: ServerSession,
    progress: Progress,
    next: u64,
    outbox: Outbox<A>,
    gone: Option<DisconnectCause>,
    moved: u64,
    sent: u64,
}

impl<A: Allocator> Model for Player<A> {
    ghost use Rattle.std.specs.Prelude.{◌≡◌, ◌≤◌, ◌<◌, ◌^◌, length};
    ghost use Rattle.itch_live.specs.Players as players;

    ghost Value = { players.Player };

    ghost view = { λ p. record { held = p.splitter; session = p.session; progress = p.progress; next = p.next; outbox = p.outbox; gone = p.gone; moved = p.moved; sent = p.sent } };

    ghost invariant = { λ p. (p.session.total ≡ p.total) × (p.total < 10 ^ 19) × (length p.outbox ≤ players.most_pending p.progress) };
}

impl<A: Allocator + Copy> Player<A> {
    /// Creates a client that has connected at this time, in milliseconds, to a feed of `total` messages. Its login is judged as in
    /// [`ServerSession::on_packet`]: it may ask for any of the messages, or for the one after the last.
    ///
    /// `total` must be at most 10^19 - 1.
    ///
    /// # Errors
    ///
    /// [`AllocError`] if there is no memory for the input and the output.
    pub fn new(
        alloc: A,
        config: ServerConfig,
        total: u64,
        now_ms: u64,
    ) -> Result<Player<A>, AllocError>
        requires { total < 10 ^ 19 }
        ensures { IfOk result (λ p. p ≡ players.new_player config total now_ms) }
    {
        Ok(Player {
            total,
            splitter: Splitter::new(alloc)?,
            session: ServerSession::new(config, total, now_ms),
            progress: Progress::Waiting,
            next: 0,
            outbox: Outbox::new(alloc)?,
            gone: None,
            moved: now_ms,
            sent: now_ms,
        })
    }
}

impl<A: Allocator> Player<A> {
    /// Passes in bytes that have arrived at this time, up to the end of the current packet, and returns how many were consumed.
    ///
    /// Bytes from a client that is gone, was rejected, or has received all messages and the end of the session are ignored: all of them count
    /// as consumed.
    pub fn hear(&mut self, piece: &[u8], now_ms: u64) -> usize
        ensures { players.Hears self.old piece.now now_ms result self.new }
    {
        if self.is_deaf() {
            return piece.len();
        }
        let count = self.splitter.take(piece);
        let Some(payload) = self.splitter.ready() else {
            return count;
        };
        let (act, _login) = hear_payload(&mut self.session, payload, now_ms);
        self.splitter.clear();
        self.moved = now_ms;
        self.turn(act, now_ms);
        count
    }

    fn turn(&mut self, act: ServerAct, now_ms: u64)
        ensures { self.new ≡ players.after_act act now_ms self.old }
    {
        match act {
            ServerAct::Accept { next } => {
                let packet = self.session.accepted(next);
                let first = next.value();
                self.tell(Progress::Playing { first }, &packet, now_ms);
                self.next = first;
            }
            ServerAct::Reject(code) => {
                let packet = ServerSession::rejected(code);
                self.tell(Progress::Refused { code }, &packet, now_ms);
            }
            ServerAct::Nothing => {}
            ServerAct::Close => self.go(DisconnectCause::Left),
            ServerAct::Fault(_) => self.go(DisconnectCause::Fault),
        }
    }

    // Queues the answer to a login, ahead of everything else.
    fn tell(&mut self, progress: Progress, packet: &[u8], now_ms: u64)
        requires { length packet.now < 65536 }
        ensures { self.new ≡ players.told self.old progress packet.now now_ms }
    {
        self.progress = progress;
        self.outbox.clear();
        self.outbox.push(packet);
        self.sent = now_ms;
    }

    /// Returns the number of the message to pass in next. Returns `None` if no login was accepted, all messages were passed in, more than
    /// 65,536 bytes are pending, or the client is gone.
    pub fn wanted(&self) -> Option<u64>
        ensures { result ≡ players.wanted self.now }
    {
        if self.is_playing() && self.next <= self.total && self.outbox.has_room() {
            Some(self.next)
        } else {
            None
        }
    }

    /// Passes in the requested message at this time. It must have at most 65,534 bytes.
    pub fn play(&mut self, message: &[u8], now_ms: u64)
        requires wanted { IsSome (players.wanted self.old) }
        requires fits { length message.now < 65535 }
        ensures { self.new ≡ players.played self.old message.now now_ms }
    {
        self.outbox.push_message(message);
        self.next += 1;
        self.sent = now_ms;
    }

    /// Ends the session, if all messages were passed in and the client is not gone. Otherwise does nothing.
    pub fn end(&mut self, now_ms: u64)
        ensures { self.new ≡ players.ended self.old now_ms }
    {
        if self.is_playing() && self.next > self.total {
            self.outbox.push(&ServerSession::end());
            self.progress = after_end(self.progress);
            self.sent = now_ms;
        }
    }

    /// Checks the timeouts at this time. A client that has sent nothing and accepted nothing for 15 seconds is disconnected. Any other client
    /// is sent a heartbeat if nothing is pending and nothing was sent for more than a second.
    pub fn tick(&mut self, now_ms: u64)
        ensures { self.new ≡ players.ticked self.old now_ms }
    {
        if now_ms.saturating_sub(self.moved) >= SILENCE_MS {
            self.go(DisconnectCause::Silent);
        } else if self.is_idle(now_ms) {
            self.outbox.push(&ServerSession::heartbeat());
            self.sent = now_ms;
        }
    }

    /// Returns the bytes still to be written to the client.
    pub fn pending(&self) -> &[u8]
        ensures { result.now ≡ players.pending self.now }
    {
        if self.is_gone() {
            return &[];
        }
        self.outbox.bytes()
    }

    /// Records that the client's socket accepted the first `count` of the pending bytes at this time.
    pub fn took(&mut self, count: usize, now_ms: u64)
        requires { count ≤ length (players.pending self.old) }
        ensures { self.new ≡ players.took self.old count now_ms }
    {
        if count > 0 {
            self.outbox.took(count);
            self.moved = now_ms;
            self.sent = now_ms;
        }
    }

    /// Records that the client is gone. The reason is [`DisconnectCause::Left`], unless it was gone before.
    pub fn leave(&mut self)
        ensures { self.new ≡ players.left self.old }
    {
        self.go(DisconnectCause::Left);
    }

    // Marks the client as gone for this reason, unless it was gone before.
    fn go(&mut self, reason: DisconnectCause)
        ensures { self.new ≡ players.gone_for reason self.old }
    {
        if self.gone.is_none() {
            self.gone = Some(reason);
        }
    }

    /// Returns whether the client has received its rejection, or all messages and the end of the session. The caller then shuts down the
    /// sending half of the connection, and continues to read until the client closes its half or [`Player::is_gone`].
    pub fn is_closing(&self) -> bool
        ensures { result ≡ players.is_closing self.now }
    {
        !self.is_gone() && self.has_all()
    }

    /// Returns whether the client is gone. The caller then closes its connection.
    pub fn is_gone(&self) -> bool
        ensures { result ≡ players.is_gone self.now }
    {
        self.why_gone().is_some()
    }

    /// Returns why the client is gone, if it is: the first reason that occurred.
    pub fn why_gone(&self) -> Option<DisconnectCause>
        ensures { result ≡ self.now.gone }
    {
        self.gone
    }

    /// Returns the code of the Login Rejected packet (SoupBinTCP 3.00) for the client, if its login was rejected: `A` if it is not
    /// authorised, `S` if the requested session or message is not available.
    pub fn rejection_code(&self) -> Option<u8>
        ensures { result ≡ players.rejection_of self.now.progress }
    {
        match self.progress {
            Progress::Refused { code } => Some(code),
            _ => None,
        }
    }

    /// Returns the number of the first message for the client, if its login was accepted: the number in the login.
    pub fn played_from(&self) -> Option<u64>
        ensures { result ≡ players.first_of self.now.progress }
    {
        match self.progress {
            Progress::Playing { first } | Progress::Ended { first } => Some(first),
            _ => None,
        }
    }

    fn is_playing(&self) -> bool
        ensures { result ≡ players.is_playing self.now }
    {
        matches!(self.progress, Progress::Playing { .. }) && !self.is_gone()
    }

    // Returns whether a heartbeat is due.
    fn is_idle(&self, now_ms: u64) -> bool
        ensures { result ≡ players.is_idle self.now now_ms }
    {
        self.is_playing() && self.outbox.is_empty() && now_ms.saturating_sub(self.sent) > IDLE_MS
    }

    fn has_all(&self) -> bool
        ensures { result ≡ players.has_all self.now }
    {
        matches!(
            self.progress,
            Progress::Refused { .. } | Progress::Ended { .. }
        ) && self.outbox.is_empty()
    }

    // Returns whether bytes from the client are ignored.
    fn is_deaf(&self) -> bool
        ensures { result ≡ players.is_deaf self.now }
    {
        self.is_gone() || matches!(self.progress, Progress::Refused { .. }) || self.has_all()
    }
}

// Returns the progress after the end of the session was queued.
fn after_end(progress: Progress) -> Progress
    ensures { result ≡ players.after_end progress }
{
    match progress {
        Progress::Playing { first } => Progress::Ended { first },
        other => other,
    }
}
