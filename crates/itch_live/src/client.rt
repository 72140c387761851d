//! One client of a live server.
ghost use Rattle.std.specs.Prelude.{◌≡◌, ◌≤◌, None, true, length, IfOk, option_map};
ghost use Rattle.std.specs.Option.{option_copied};
ghost use Rattle.itch_frame.specs.Blocks.{block};
ghost use Rattle.itch_live.specs.SnapshotClients as clients;

use crate::disconnect_cause::DisconnectCause;
use crate::encoded::EncodedSnapshot;
use crate::login::LoginState;
use crate::pending_packet::PendingPacket;
use crate::snapshot_answer::SnapshotAnswer;
use itch_frame::Splitter;
use itch_soup::{
    LoginRequest, Origin, Packet, ServerAct, ServerConfig, ServerSession, parse_packet,
};
use std::alloc::{AllocError, Allocator};
use std::marker::Model;

/// A client without progress for this long is disconnected.
const SILENCE_MS: u64 = 15_000;

/// A server that has been silent for longer than this sends a heartbeat.
const IDLE_MS: u64 = 1_000;

/// Accepting this many bytes, or all remaining ones, counts as progress.
const SHARE: usize = 65_536;

/// One client of a live server: what it has sent, and what it is to receive.
///
/// Its login is judged as if the server had no messages yet: it must ask for all of them. The login is accepted or rejected at once. An
/// accepted client waits until [`SnapshotClient::answer`] passes in the snapshot, and receives one heartbeat per second meanwhile. The memory of a
/// client is the memory allocated by [`SnapshotClient::new`], and its share of that snapshot.
#[derive(Drop)]
pub struct SnapshotClient<A: Allocator> {
    splitter: Splitter<A>,
    session: ServerSession,
    login: LoginState,
    note: PendingPacket,
    told: SnapshotAnswer<A>,
    taken: usize,
    gone: Option<DisconnectCause>,
    moved: u64,
    marked: usize,
    sent: u64,
}

impl<A: Allocator> Model for SnapshotClient<A> {
    ghost use Rattle.std.specs.Prelude.{◌≤◌, length};
    ghost use Rattle.itch_live.specs.SnapshotClients as clients;

    ghost Value = { clients.SnapshotClient };

    ghost view = { λ g. record { held = g.splitter; session = g.session; asked = clients.asked_of g.login; notes = g.note; rejection = clients.rejection_of g.login; told = clients.told_of g.told; snapshot = clients.snapshot_of g.told; taken = g.taken; gone = g.gone; moved = g.moved; marked = g.marked; sent = g.sent } };

    ghost invariant = { λ g. (g.taken ≤ length (clients.bytes_of (clients.told_of g.told))) × clients.IsOneRefusal (clients.rejection_of g.login) g.note };
}

impl<A: Allocator> SnapshotClient<A> {
    /// Creates a client that has connected at this time, in milliseconds. All its own memory is allocated here.
    ///
    /// # Errors
    ///
    /// [`AllocError`] if there is no memory for a packet.
    pub fn new(alloc: A, config: ServerConfig, now_ms: u64) -> Result<SnapshotClient<A>, AllocError>
        ensures { IfOk result (λ g. g ≡ clients.new_snapshot_client config now_ms) }
    {
        Ok(SnapshotClient {
            splitter: Splitter::new(alloc)?,
            session: ServerSession::new(config, 0, now_ms),
            login: LoginState::Awaited,
            note: PendingPacket::none(),
            told: SnapshotAnswer::Nothing,
            taken: 0,
            gone: None,
            moved: now_ms,
            marked: 0,
            sent: now_ms,
        })
    }
}

impl<A: Allocator> SnapshotClient<A> {
    /// Passes in bytes that have arrived at this time, up to the end of the current packet, and returns how many were consumed.
    ///
    /// Bytes from a client that is gone, was rejected or has received everything are ignored: all of them count as consumed.
    pub fn hear(&mut self, piece: &[u8], now_ms: u64) -> usize
        ensures { clients.Hears self.old piece.now now_ms result self.new }
    {
        if self.is_deaf() {
            return piece.len();
        }
        let moved = self.moved_by_words(now_ms);
        let count = self.splitter.take(piece);
        let Some(payload) = self.splitter.ready() else {
            return count;
        };
        let (act, login) = hear_payload(&mut self.session, payload, now_ms);
        self.splitter.clear();
        self.moved = moved;
        self.turn(act, login, now_ms);
        count
    }

    // Returns the time of its last progress, if it sends a packet at this time.
    fn moved_by_words(&self, now_ms: u64) -> u64
        ensures { result ≡ clients.moved_by_words self.now now_ms }
    {
        if self.login.is_accepted() {
            self.moved
        } else {
            now_ms
        }
    }

    fn turn(&mut self, act: ServerAct, login: Option<LoginRequest>, now_ms: u64)
        requires { self.old.rejection ≡ None }
        ensures { self.new ≡ clients.after_act act login now_ms self.old }
    {
        match act {
            ServerAct::Accept { next } => {
                let packet = self.session.accepted(next);
                self.note(&packet, now_ms);
                self.login = LoginState::accepted(login);
            }
            ServerAct::Reject(code) => {
                let packet = ServerSession::rejected(code);
                self.note(&packet, now_ms);
                self.login = LoginState::Rejected { code };
            }
            ServerAct::Nothing => {}
            ServerAct::Close => self.go(DisconnectCause::Left),
            ServerAct::Fault(_) => self.go(DisconnectCause::Fault),
        }
    }

    // Queues this packet for the client's socket, ahead of everything else.
    fn note(&mut self, packet: &[u8], now_ms: u64)
        requires fits { length packet.now ≤ 31 }
        requires open { self.old.rejection ≡ None }
        ensures { self.new ≡ record self.old { notes = block packet.now; sent = now_ms } }
    {
        self.note = PendingPacket::of(packet);
        self.sent = now_ms;
    }

    /// Returns whether a login was accepted and the client is not gone.
    pub fn is_accepted(&self) -> bool
        ensures { result ≡ clients.is_accepted self.now }
    {
        self.login.is_accepted() && !self.is_gone()
    }

    /// Returns whether a login was accepted and its snapshot has not been passed in yet.
    pub fn is_waiting(&self) -> bool
        ensures { result ≡ clients.is_waiting self.now }
    {
        self.login.is_accepted() && matches!(self.told, SnapshotAnswer::Nothing) && !self.is_gone()
    }

    /// Passes in the snapshot that answers the login, at this time: the bytes of the snapshot of the market before the message with number
    /// `next`.
    pub fn answer(&mut self, encoded: EncodedSnapshot<A>, next: u64, now_ms: u64)
        requires { clients.is_waiting self.old ≡ true }
        ensures { self.new ≡ clients.answered self.old encoded.value.items next now_ms }
    {
        self.told = SnapshotAnswer::Whole { encoded, next };
        self.moved = now_ms;
    }

    /// Returns the bytes to be written to the client next. There may be more after them.
    pub fn pending(&self) -> &[u8]
        ensures { result.now ≡ clients.pending self.now }
    {
        if self.is_gone() {
            return &[];
        }
        if self.note.is_empty() {
            return &self.told.bytes()[self.taken..];
        }
        self.note.bytes()
    }

    /// Records that the client's socket accepted the first `count` of the pending bytes at this time.
    pub fn took(&mut self, count: usize, now_ms: u64)
        requires { count ≤ length (clients.pending self.old) }
        ensures { self.new ≡ clients.took self.old count now_ms }
    {
        if !self.note.is_empty() {
            self.note.took(count);
            if count > 0 {
                self.moved = now_ms;
            }
            return;
        }
        self.taken += count;
        let share = self.taken.saturating_sub(self.marked) >= SHARE;
        if count > 0 && (share || self.taken == self.told.bytes().len()) {
            self.moved = now_ms;
            self.marked = self.taken;
        }
    }

    /// Checks the timeouts at this time. A client without progress for 15 seconds is disconnected. A client that waits for its snapshot and
    /// was sent nothing for more than a second is sent a heartbeat.
    ///
    /// Until the login is accepted, each packet from the client is progress. A waiting client is disconnected only if its socket accepts
    /// nothing of the Login Accepted packet or of a heartbeat for 15 seconds. After that, progress means that the socket accepted another
    /// 65,536 bytes of the snapshot, or its last byte.
    pub fn tick(&mut self, now_ms: u64)
        ensures { self.new ≡ clients.ticked self.old now_ms }
    {
        if !self.is_patient() && now_ms.saturating_sub(self.moved) >= SILENCE_MS {
            self.go(DisconnectCause::Silent);
        } else if self.is_idle(now_ms) {
            self.note(&ServerSession::heartbeat(), now_ms);
            self.moved = now_ms;
        }
    }

    // Returns whether it waits, and its socket has accepted everything sent so far.
    fn is_patient(&self) -> bool
        ensures { result ≡ clients.is_patient self.now }
    {
        self.is_waiting() && self.note.is_empty()
    }

    // Returns whether a heartbeat is due.
    fn is_idle(&self, now_ms: u64) -> bool
        ensures { result ≡ clients.is_idle self.now now_ms }
    {
        self.note.is_empty() && self.is_waiting() && now_ms.saturating_sub(self.sent) > IDLE_MS
    }

    /// Records that the client is gone. The reason is [`DisconnectCause::Left`], unless it was gone before.
    pub fn leave(&mut self)
        ensures { self.new ≡ clients.left self.old }
    {
        self.go(DisconnectCause::Left);
    }

    // Marks the client as gone for this reason, unless it was gone before.
    fn go(&mut self, reason: DisconnectCause)
        ensures { self.new ≡ clients.gone_for reason self.old }
    {
        if self.gone.is_none() {
            self.gone = Some(reason);
        }
    }

    /// Returns whether the client has received everything. The caller then shuts down the sending half of the connection, and continues to
    /// read until the client closes its half or [`SnapshotClient::is_gone`].
    pub fn is_closing(&self) -> bool
        ensures { result ≡ clients.is_closing self.now }
    {
        !self.is_gone() && self.has_all()
    }

    /// Returns whether the client is gone. The caller then closes its connection.
    pub fn is_gone(&self) -> bool
        ensures { result ≡ clients.is_gone self.now }
    {
        self.why_gone().is_some()
    }

    /// Returns why the client is gone, if it is: the first reason that occurred.
    pub fn why_gone(&self) -> Option<DisconnectCause>
        ensures { result ≡ self.now.gone }
    {
        self.gone
    }

    /// Returns the code of the Login Rejected packet (SoupBinTCP 3.00) for the client, if its login was rejected: `A` if it is not
    /// authorised, `S` if the requested session or message is not available.
    pub fn rejection_code(&self) -> Option<u8>
        ensures code { result ≡ self.now.rejection }
        ensures told { clients.IsOneRefusal result self.now.notes }
    {
        self.login.rejection()
    }

    /// Returns the number of the next message at which the client's snapshot was encoded.
    pub fn snapshot(&self) -> Option<u64>
        ensures { result ≡ self.now.snapshot }
    {
        self.told.snapshot()
    }

    /// Returns the client's snapshot, if it has this number.
    pub(crate) fn encoded(&self, number: u64) -> Option<&EncodedSnapshot<A>>
        ensures { option_map (λ encoded. encoded.value.items) (option_copied result) ≡ clients.encoded_in self.now.snapshot self.now.told number }
    {
        self.told.encoded(number)
    }

    fn has_all(&self) -> bool
        ensures { result ≡ clients.has_all self.now }
    {
        self.note.is_empty() && self.is_last()
    }

    // Returns whether bytes from the client are ignored.
    fn is_deaf(&self) -> bool
        ensures { result ≡ clients.is_deaf self.now }
    {
        self.is_gone() || self.login.rejection().is_some() || self.has_all()
    }

    // Returns whether nothing follows the queued packet.
    fn is_last(&self) -> bool
        ensures { result ≡ clients.is_last self.now }
    {
        self.login.rejection().is_some()
            || !matches!(self.told, SnapshotAnswer::Nothing)
                && self.taken == self.told.bytes().len()
    }
}

/// Returns the answer of the session to a payload, and its login, if it is a Login Request.
pub(crate) fn hear_payload(
    session: &mut ServerSession,
    payload: &[u8],
    now_ms: u64,
) -> (ServerAct, Option<LoginRequest>)
    ensures { clients.Judges session.old payload.now now_ms result session.new }
{
    match parse_packet(payload, Origin::Client) {
        Ok(packet) => {
            let act = session.on_packet(&packet, now_ms);
            (act, login_in(&packet))
        }
        Err(fault) => (ServerAct::Fault(fault), None),
    }
}

// Returns the login of a packet, if it is a Login Request.
fn login_in(packet: &Packet<'_>) -> Option<LoginRequest>
    ensures { result ≡ clients.login_in packet.now }
{
    match packet {
        Packet::LoginRequest(login) => Some(*login),
        _ => None,
    }
}
