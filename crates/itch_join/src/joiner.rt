//! Joins a snapshot and the live feed.
ghost use Rattle.std.specs.Prelude.{◌≡◌, ℕ, ◌<◌, ◌^◌, List, true, Some, None, MatchResult, option_map};
ghost use Rattle.std.specs.Option.{option_copied};
ghost use Rattle.std.specs.FinMap as map;
ghost use Rattle.itch_frame.specs.Reading.{bytes_left};
ghost use Rattle.itch_day.specs.Sinks.{Decodes};
ghost use Rattle.itch_market.specs.Wanted.{has};
ghost use Rattle.itch_snapshot.specs.AsRead.{ReadsMarket, as_read};
ghost use Rattle.itch_snapshot.specs.Reads.{CountsFault};
ghost use Rattle.itch_join.specs.Rules.{rules_of};
ghost use Rattle.itch_join.specs.States.{new, unread};
ghost use Rattle.itch_join.specs.Applying.{CatchesUp, at_hand, halt_of, fault_of};
ghost use Rattle.itch_join.specs.Steps.{Step, CallLive, CallSnapshot, CallRestart, CallResume, live_case, Stores, started, NextBy};
ghost use Rattle.itch_join.specs.HalfReads.{IsOfMessage, JoinsAt, join_fault_of};
ghost use Rattle.itch_join.specs.Takings.{MayTake};

use crate::fault::{Cause, JoinFault};
use crate::outcome::{Live, Snap};
use crate::position::{Position, advance, drain};
use crate::state::{Halt, LiveCase, Stopped};
use crate::waiting::Waiting;
use itch_book::OrderBook;
use itch_codec::{CodecFault, GREATEST_SEQ, MOST_MESSAGES, Message, decode};
use itch_frame::{BlockReader, CountedRead};
use itch_market::{LocateSet, Market, Refusal};
use itch_snapshot::{SnapFault, SnapshotReader, read_messages};
use std::alloc::Allocator;
use std::marker::Model;
use std::mem::replace;

/// Joins a snapshot and the live feed: it takes the snapshot's messages in order and the feed's messages in any order, and keeps the market
/// after the feed's messages before [`Joiner::next`].
///
/// With a set of locates it keeps the market restricted to them: messages at other locates, of the snapshot and of the feed, are decoded and
/// counted, but no rule is checked, and they change nothing.
///
/// The feed's first message has the number 1. Memory is allocated only for a message of the feed that has to wait, and for a market that
/// grows.
#[derive(Drop)]
pub struct Joiner<B: OrderBook> {
    alloc: B::Alloc,
    cap: usize,
    set: LocateSet<B::Alloc>,
    wait: Waiting<B::Alloc>,
    half: SnapshotReader<B>,
    joined: Option<Position<B>>,
    halt: Option<Halt>,
}

impl<B: OrderBook> Model for Joiner<B> {
    ghost use Rattle.std.specs.FinMap as map;
    ghost use Rattle.std.specs.Coded.{codes};
    ghost use Rattle.itch_join.specs.States.{Joining};
    ghost use Rattle.itch_join.specs.HalfReads.{half_of, IsOpen};

    ghost Value = { Joining };

    ghost coded = { Prim.hlevel (codes, map.code) };

    ghost view = { λ j. record { cap = j.cap; set = j.set; state = record { wait = j.wait; half = half_of j.half; joined = j.joined; halt = j.halt } } };

    ghost invariant = { λ j. IsOpen j.half };
}

// Returns the fault of a call that stopped at the message with this number.
fn fault_of(taken: bool, stopped: Stopped, next: u64) -> JoinFault
    ensures { result ≡ fault_of taken stopped next }
{
    match stopped {
        Stopped::Refused(cause) => JoinFault::Halted {
            number: next,
            cause,
        },
        Stopped::NoMemory => JoinFault::OutOfMemory { taken },
    }
}

// Returns the halt of the joiner after a refused message.
fn halt_of(ended: Result<(), Stopped>, next: u64) -> Option<Halt>
    ensures { result ≡ halt_of ended next }
{
    match ended {
        Err(Stopped::Refused(cause)) => Some(Halt {
            number: next,
            cause,
        }),
        _ => None,
    }
}

// Returns the fault for a message of the snapshot that was not taken.
fn join_fault_of(fault: SnapFault) -> JoinFault
    requires { IsOfMessage fault }
    ensures { result ≡ join_fault_of fault }
{
    match fault {
        SnapFault::Codec { place, fault } => JoinFault::BadSnapshot {
            place,
            cause: Cause::Codec(fault),
        },
        SnapFault::Rule {
            place: _,
            reason: Refusal::OutOfMemory,
        } => JoinFault::OutOfMemory { taken: false },
        SnapFault::Rule { place, reason } => JoinFault::BadSnapshot {
            place,
            cause: Cause::Rule(reason),
        },
        SnapFault::TooManyMessages => JoinFault::BadSnapshot {
            place: GREATEST_SEQ,
            cause: Cause::TooMany,
        },
        SnapFault::NoEnd | SnapFault::Frame(_) | SnapFault::AfterEnd => unreachable!(),
    }
}

impl<B: OrderBook> Joiner<B> {
    /// Creates a joiner without waiting messages, of which there may be at most `cap`. It allocates no memory.
    pub fn new(alloc: B::Alloc, cap: usize) -> Self
        ensures cap { result.cap ≡ cap }
        ensures set { (locate : ℕ) → has result.set locate ≡ true }
        ensures state { result.state ≡ new }
    {
        Joiner::only(alloc, cap, LocateSet::all(alloc))
    }

    /// Creates the same, restricted to the locates of a set.
    pub fn only(alloc: B::Alloc, cap: usize, set: LocateSet<B::Alloc>) -> Self
        ensures { result ≡ record { cap = cap; set = set; state = new } }
    {
        Joiner {
            alloc,
            cap,
            set,
            wait: Waiting::new(alloc),
            half: SnapshotReader::new(alloc),
            joined: None,
            halt: None,
        }
    }

    /// Returns the number of the next message to apply, after joining.
    pub fn next(&self) -> Option<u64>
        ensures { result ≡ option_map (λ j. j.next) self.now.state.joined }
    {
        let position = self.joined.as_ref()?;
        Some(position.next)
    }

    /// Returns the market of the feed's messages before the next one, after joining.
    pub fn market(&self) -> Option<&Market<B>>
        ensures { option_copied result ≡ option_map (λ j. j.market) self.now.state.joined }
    {
        let position = self.joined.as_ref()?;
        Some(&position.market)
    }

    /// Prepares the market for look-ups, as [`Market::settle`] does. Nothing changes.
    pub fn settle_market(&mut self)
        ensures { self.new ≡ self.old }
    {
        if let Some(position) = &mut self.joined {
            position.market.settle();
        }
    }

    /// Returns whether the joiner can take the messages of a day from this one on as a sink: it has joined, no messages are waiting, no
    /// message was refused, and its market contains the messages before this one.
    pub fn may_take(&self, number: u64) -> bool
        ensures { result ≡ true → MayTake self.now number }
    {
        let Some(next) = self.next() else {
            return false;
        };
        if self.halt.is_some() {
            return false;
        }
        if self.waiting() > 0 {
            return false;
        }
        number <= next
    }

    /// Returns the number of waiting messages.
    pub fn waiting(&self) -> usize
        ensures { result ≡ map.len self.now.state.wait }
    {
        self.wait.len()
    }

    // Returns the case of a delivery of the live feed.
    fn live_case(&self, number: u64, payload: &[u8]) -> LiveCase
        ensures { result ≡ live_case self.now.cap self.now.state number payload.now }
    {
        if let Some(halt) = self.halt {
            return LiveCase::Halted(halt);
        }
        if number == 0 || number > MOST_MESSAGES {
            return LiveCase::BadNumber;
        }
        let next = self.next();
        if let Some(next) = next {
            if number < next {
                return LiveCase::Old;
            }
        }
        let waits = self.wait.get(number);
        if let Some(bytes) = waits {
            if bytes != payload {
                return LiveCase::Conflict;
            }
        }
        if let Some(next) = next {
            if number == next {
                return LiveCase::Next;
            }
        }
        if waits.is_some() {
            return LiveCase::Kept;
        }
        if self.wait.len() < self.cap {
            return LiveCase::Stored;
        }
        LiveCase::Full
    }

    fn store(&mut self, number: u64, payload: &[u8]) -> Result<Live, JoinFault>
        requires { number < 10 ^ 19 }
        ensures stores { Stores self.old.state number payload.now result self.new.state }
        ensures cap { self.new.cap ≡ self.old.cap }
        ensures set { self.new.set ≡ self.old.set }
    {
        match self.wait.insert(number, payload) {
            Ok(()) => Ok(Live::Kept),
            Err(_) => Err(JoinFault::OutOfMemory { taken: false }),
        }
    }

    // Applies the message with the next number, and then the waiting messages after it.
    fn apply_next(
        &mut self,
        number: u64,
        message: &Result<Message<'_>, CodecFault>,
    ) -> Result<Live, JoinFault>
        requires joined { option_map (λ j. j.next) self.old.state.joined ≡ Some number }
        requires fits { number < 10 ^ 19 }
        requires running { self.old.state.halt ≡ None }
        ensures goes { (payload : List ℕ) → Decodes payload message.now → NextBy (rules_of (has self.old.set)) self.old.state number payload self.old.state.joined result self.new.state }
        ensures cap { self.new.cap ≡ self.old.cap }
        ensures set { self.new.set ≡ self.old.set }
    {
        let Some(position) = &mut self.joined else {
            unreachable!()
        };
        let waits = self.wait.has(number);
        let ended = advance(&mut self.wait, &self.set, position, message);
        let next = position.next;
        self.halt = halt_of(ended, next);
        match ended {
            Ok(()) => Ok(Live::Applied { next }),
            Err(stopped) => {
                let taken = waits || next != number;
                Err(fault_of(taken, stopped, next))
            }
        }
    }

    /// Takes the live feed's message with this number. The first case that applies decides the result:
    ///
    /// 1. a message was refused before: `Halted`, as it was then;
    /// 2. no message has this number: `BadNumber`;
    /// 3. the joiner has joined, and its market contains the message: `Old`;
    /// 4. other bytes are waiting under this number: `Conflict`;
    /// 5. the joiner has joined, and the message is the next: it is applied, without being copied, and then the waiting messages, up to the
    ///    first number that is missing: `Applied`;
    /// 6. the message is already waiting: `Kept`;
    /// 7. `cap` messages are waiting: `Full`;
    /// 8. a copy of it is stored: `Kept`.
    ///
    /// A message that is refused when it is to be applied is `Halted`. Memory may run out in case 5, at a message that adds to the market,
    /// and in case 8: `OutOfMemory`.
    pub fn live(&mut self, number: u64, payload: &[u8]) -> Result<Live, JoinFault>
        ensures step { Step (rules_of (has self.old.set)) self.old.cap self.old.state (CallLive number payload.now result) self.new.state }
        ensures cap { self.new.cap ≡ self.old.cap }
        ensures set { self.new.set ≡ self.old.set }
    {
        self.live_decoded(number, payload, &decode(payload))
    }

    /// Does the same for a caller that has decoded the payload.
    pub fn live_decoded(
        &mut self,
        number: u64,
        payload: &[u8],
        message: &Result<Message<'_>, CodecFault>,
    ) -> Result<Live, JoinFault>
        requires decoded { Decodes payload.now message.now }
        ensures step { Step (rules_of (has self.old.set)) self.old.cap self.old.state (CallLive number payload.now result) self.new.state }
        ensures cap { self.new.cap ≡ self.old.cap }
        ensures set { self.new.set ≡ self.old.set }
    {
        match self.live_case(number, payload) {
            LiveCase::Halted(halt) => Err(JoinFault::Halted {
                number: halt.number,
                cause: halt.cause,
            }),
            LiveCase::BadNumber => Err(JoinFault::BadNumber),
            LiveCase::Old => Ok(Live::Old),
            LiveCase::Conflict => Err(JoinFault::Conflict { number }),
            LiveCase::Next => self.apply_next(number, message),
            LiveCase::Kept => Ok(Live::Kept),
            LiveCase::Full => Err(JoinFault::Full { cap: self.cap }),
            LiveCase::Stored => self.store(number, payload),
        }
    }

    // Joins at the End of Snapshot, with the snapshot's number and market.
    fn start(&mut self, next: u64, market: Market<B>) -> Result<Snap, JoinFault>
        requires half { self.old.state.half ≡ unread }
        requires running { self.old.state.halt ≡ None }
        ensures goes { CatchesUp (rules_of (has self.old.set)) unread (started self.old.state next market) (at_hand (started self.old.state next market)) Snap.Joined (λ any. true) result self.new.state }
        ensures cap { self.new.cap ≡ self.old.cap }
        ensures set { self.new.set ≡ self.old.set }
    {
        self.wait.keep_from(next);
        let mut position = Position { next, market };
        let ended = drain(&mut self.wait, &self.set, &mut position);
        let next = position.next;
        self.joined = Some(position);
        self.halt = halt_of(ended, next);
        match ended {
            Ok(()) => Ok(Snap::Joined { next }),
            Err(stopped) => Err(fault_of(true, stopped, next)),
        }
    }

    /// Takes the snapshot's next message.
    ///
    /// At End of Snapshot the joiner has the snapshot's market, and its next number is the one in End of Snapshot. Waiting messages below
    /// that number are dropped, and then the other waiting messages are applied, up to the first number that is missing: `Joined`. A message
    /// that is refused breaks the snapshot: `BadSnapshot` until `restart`. After joining the result is the fault `Joined`, and after a
    /// refused message of the feed `Halted`. If memory runs out for a message of the snapshot, the result is `OutOfMemory` with `taken`
    /// false, and the same message may be passed again.
    pub fn snapshot(&mut self, payload: &[u8]) -> Result<Snap, JoinFault>
        ensures step { Step (rules_of (has self.old.set)) self.old.cap self.old.state (CallSnapshot payload.now result) self.new.state }
        ensures cap { self.new.cap ≡ self.old.cap }
        ensures set { self.new.set ≡ self.old.set }
    {
        if let Some(halt) = self.halt {
            return Err(JoinFault::Halted {
                number: halt.number,
                cause: halt.cause,
            });
        }
        if self.joined.is_some() {
            return Err(JoinFault::Joined);
        }
        self.half.market().recall_invariant();
        match self.half.message_only(&self.set, payload) {
            Ok(None) => Ok(Snap::More),
            Ok(Some(_)) => {
                let half = replace(&mut self.half, SnapshotReader::new(self.alloc));
                let (market, next) = half.finish().unwrap();
                self.start(next.value(), market)
            }
            Err(fault) => Err(join_fault_of(fault)),
        }
    }

    /// Reads a snapshot file, up to its End of Snapshot, and joins there: the market and the next number are then those after taking the
    /// file's messages one by one. The rest of the file is left in the reader.
    ///
    /// Call it only for a joiner that has not taken any message yet. A fault does not change the joiner.
    pub fn read_snapshot<R: CountedRead, A: Allocator>(
        &mut self,
        reader: &mut BlockReader<R, A>,
    ) -> Result<(), SnapFault>
        requires { self.old.state ≡ new }
        ensures joins { JoinsAt (ReadsMarket (as_read (has self.old.set)) (bytes_left R.remaining reader.old) (bytes_left R.remaining reader.new)) result self.new.state }
        ensures cap { self.new.cap ≡ self.old.cap }
        ensures set { self.new.set ≡ self.old.set }
        ensures failures { MatchResult result (λ _. R.failures reader.new.reader ≡ R.failures reader.old.reader)
            (λ fault. CountsFault fault (R.failures reader.old.reader) (R.failures reader.new.reader)) }
    {
        match read_messages(self.alloc, reader, Some(&self.set)) {
            Ok((market, next)) => {
                self.joined = Some(Position {
                    next: next.value(),
                    market,
                });
                Ok(())
            }
            Err(fault) => Err(fault),
        }
    }

    /// Drops an unfinished or broken snapshot, and keeps the waiting messages. After joining it changes nothing. It allocates no memory.
    pub fn restart(&mut self)
        ensures step { Step (rules_of (has self.old.set)) self.old.cap self.old.state CallRestart self.new.state }
        ensures cap { self.new.cap ≡ self.old.cap }
        ensures set { self.new.set ≡ self.old.set }
    {
        if self.joined.is_none() {
            self.half = SnapshotReader::new(self.alloc);
        }
    }

    /// Applies the waiting messages, up to the first number that is missing, which may be needed after `OutOfMemory`. It returns the number
    /// of the next message, or `None` before joining.
    pub fn resume(&mut self) -> Result<Option<u64>, JoinFault>
        ensures step { Step (rules_of (has self.old.set)) self.old.cap self.old.state (CallResume result) self.new.state }
        ensures cap { self.new.cap ≡ self.old.cap }
        ensures set { self.new.set ≡ self.old.set }
    {
        if let Some(halt) = self.halt {
            return Err(JoinFault::Halted {
                number: halt.number,
                cause: halt.cause,
            });
        }
        let Some(position) = &mut self.joined else {
            return Ok(None);
        };
        let ended = drain(&mut self.wait, &self.set, position);
        let next = position.next;
        self.halt = halt_of(ended, next);
        match ended {
            Ok(()) => Ok(Some(next)),
            Err(stopped) => Err(fault_of(false, stopped, next)),
        }
    }
}
