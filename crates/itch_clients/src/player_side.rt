//! A client to which a day file is played.
ghost use Rattle.std.specs.Prelude.{◌≡◌, Some, OnOk};
ghost use Rattle.itch_frame.specs.Reading.{Reading};
ghost use Rattle.itch_clients.specs.Playbacks.{Stands};
ghost use Rattle.itch_clients.specs.Playings.{PlaysNext, is_due_from, start_of};

use crate::pace::{Pace, is_due};
use crate::playback::Playback;
use itch_frame::CountedRead;
use itch_live::{DisconnectCause, Player};
use itch_sessions::{SessionFault, SessionOutcome, SocketLink, Who, outcome_of};
use mio::event::Event;
use std::alloc::Global;

/// The most messages played to one client per turn.
const MESSAGES: usize = 4_096;

/// The most bytes written to one client per turn.
const SHARE: usize = 1 << 18;

/// The length of the longest message that fits a packet.
const LONGEST: usize = 65_534;

/// The start of a client: its first message, with its timestamp, and when it was read.
#[derive(Clone, Copy)]
struct PlayStart {
    number: u64,
    time: u64,
    at_ms: u64,
}

/// The outcome of playing to a client in a turn.
#[derive(Clone, Copy, PartialEq, Eq)]
enum Played {
    /// As many messages were passed in as there was room for, or as one turn allows.
    Due,
    /// The next message is not due yet.
    Early,
    /// The file cannot be read any further.
    Failed,
}

/// A client to which a day file is played.
#[derive(Drop)]
pub struct PlayerSide<S: CountedRead + Drop> {
    link: SocketLink,
    player: Player<Global>,
    playback: Playback<S>,
    start: Option<PlayStart>,
    // The number of messages that were passed in, and the outcome of the last turn.
    count: u64,
    played: Played,
}

impl<S: CountedRead + Drop> PlayerSide<S> {
    /// Creates a client that has connected.
    pub fn new(link: SocketLink, player: Player<Global>, playback: Playback<S>) -> PlayerSide<S> {
        PlayerSide {
            link,
            player,
            playback,
            start: None,
            count: 0,
            played: Played::Due,
        }
    }

    pub fn who(&self) -> Who {
        self.link.who()
    }

    /// Records the readiness reported by an event.
    pub fn note(&mut self, event: &Event) {
        self.link.note(event);
    }

    /// Returns whether there may be something to do without waiting for another event: to read, to write, or to pass in messages, because
    /// earlier ones may have been sent meanwhile.
    pub fn is_busy(&self) -> bool {
        let wants = self.player.wanted().is_some() && !self.is_early();
        wants || self.link.is_busy(!self.player.pending().is_empty())
    }

    /// Returns whether the current message is not due yet.
    pub fn is_early(&self) -> bool {
        matches!(self.played, Played::Early)
    }

    /// Handles the bytes of the client, passes in the messages that are due, and writes pending bytes. The session ends after the last
    /// message, unless `stay` is set.
    pub fn turn(&mut self, pace: Pace, stay: bool, now_ms: u64, buffer: &mut [u8]) {
        self.hear(now_ms, buffer);
        self.played = match self.play(pace, now_ms) {
            Ok(played) => played,
            Err(_) => Played::Failed,
        };
        if !stay {
            self.player.end(now_ms);
        }
        self.tell(now_ms);
        self.player.tick(now_ms);
    }

    // Reads bytes from the client, as many as fit the buffer, and passes them on.
    fn hear(&mut self, now_ms: u64, buffer: &mut [u8]) {
        let count = self.link.read(buffer);
        hand_on(&mut self.player, &buffer[..count], now_ms);
    }

    // Passes in the messages that are due.
    fn play(&mut self, pace: Pace, now_ms: u64) -> Result<Played, SessionFault> {
        for _ in 0..MESSAGES {
            let (player, playback) = (&mut self.player, &mut self.playback);
            if let Some(why) = play_next(player, playback, &mut self.start, pace, now_ms)? {
                return Ok(why);
            }
            self.count = self.count.saturating_add(1);
        }
        Ok(Played::Due)
    }

    // Writes pending bytes, up to `SHARE`. When the client has received everything, the sending half of the connection is shut down.
    fn tell(&mut self, now_ms: u64) {
        let pending = self.player.pending();
        let count = self.link.write(&pending[..pending.len().min(SHARE)]);
        self.player.took(count, now_ms);
        if self.player.is_closing() {
            self.link.end_sending();
        }
    }

    /// Returns how its connection ended, if it is to be closed. A client that has closed its sending half still receives messages while it
    /// accepts them.
    pub fn outcome(&self) -> Option<SessionOutcome> {
        if matches!(self.played, Played::Failed) {
            return Some(SessionOutcome::Fault);
        }
        let waits = self.player.wanted().is_some() || !self.player.pending().is_empty();
        let gone = self.link.ending(self.player.why_gone(), waits)?;
        let code = self.player.rejection_code();
        Some(outcome_of(code, self.served(), gone))
    }

    // Returns how its connection ended, if it received messages for as long as it wished. A client whose socket has failed has closed the
    // connection before it had read everything.
    fn served(&self) -> Option<SessionOutcome> {
        let wished = match self.player.why_gone() {
            Some(DisconnectCause::Fault | DisconnectCause::Silent) => self.link.has_all(),
            Some(DisconnectCause::Left) | None => true,
        };
        match self.player.played_from() {
            Some(from) if wished => Some(SessionOutcome::Played {
                from,
                packets: self.count,
            }),
            _ => None,
        }
    }
}

/// Passes on all bytes of a piece.
pub fn hand_on(player: &mut Player<Global>, piece: &[u8], now_ms: u64) {
    let mut from = 0;
    for _ in 0..piece.len() {
        if from < piece.len() {
            from += player.hear(&piece[from..], now_ms);
        }
    }
}

// Passes in the message that a client wants, and returns `None`; or returns why none is passed in: the client wants none, the file must first
// be read on to it, or it is not due yet.
fn play_next<S: CountedRead + Drop>(
    player: &mut Player<Global>,
    playback: &mut Playback<S>,
    start: &mut Option<PlayStart>,
    pace: Pace,
    now_ms: u64,
) -> Result<Option<Played>, SessionFault>
    ensures plays { (first : Reading S) → Stands S.remaining S.failures first playback.old.number playback.old.message.items playback.old.blocks
        → PlaysNext S.remaining S.failures first pace now_ms result player.old start.new playback.new.blocks player.new }
    ensures stands { (first : Reading S) → Stands S.remaining S.failures first playback.old.number playback.old.message.items playback.old.blocks
        → OnOk result (Stands S.remaining S.failures first playback.new.number playback.new.message.items playback.new.blocks) }
{
    let Some(number) = player.wanted() else {
        return Ok(Some(Played::Due));
    };
    if !playback.move_to(number, MESSAGES)? {
        return Ok(Some(Played::Due));
    }
    if !is_due_from(start, pace, number, playback.time(), now_ms) {
        return Ok(Some(Played::Early));
    }
    let message = playback.message();
    if message.len() > LONGEST {
        return Err(SessionFault::TooMany);
    }
    player.play(message, now_ms);
    Ok(None)
}

// Returns whether a message is due, counted from the first message that was read, which is always due.
fn is_due_from(
    start: &mut Option<PlayStart>,
    pace: Pace,
    number: u64,
    time: u64,
    now_ms: u64,
) -> bool
    ensures start { start.new ≡ Some (start_of start.old number time now_ms) }
    ensures due { result ≡ is_due_from (start_of start.old number time now_ms) pace number time now_ms }
{
    let first = start.unwrap_or(PlayStart {
        number,
        time,
        at_ms: now_ms,
    });
    *start = Some(first);
    is_due(
        pace,
        now_ms.saturating_sub(first.at_ms),
        number.saturating_sub(first.number),
        time.saturating_sub(first.time),
    )
}
