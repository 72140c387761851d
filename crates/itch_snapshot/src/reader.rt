//! Reads snapshots message by message.
ghost use Rattle.std.specs.Prelude.{◌≡◌, ℕ, ◌<◌, ◌≤◌, ◌-◌, ◌^◌, List, IfOk, IfNone};
ghost use Rattle.itch_day.specs.Sinks.{Decodes};
ghost use Rattle.itch_market.specs.Wanted.{has};
ghost use Rattle.itch_snapshot.specs.TakenMessages.{TakesNext, TakesNextOnly, is_skipped};
ghost use Rattle.itch_snapshot.specs.Stages.{opened};

use crate::fault::SnapFault;
use itch_book::OrderBook;
use itch_codec::{CodecFault, MOST_MESSAGES, Message, Seq, decode};
use itch_market::{LocateSet, Market, Refusal};
use std::alloc::Allocator;
use std::marker::Model;

// The stage of reading a snapshot.
#[derive(Clone, Copy)]
pub(crate) enum SnapshotStage {
    // Further messages are taken.
    Taking,
    // A message was not taken. Every further one has the same fault.
    Broken(SnapFault),
    // The End of Snapshot came, with the number of the first message that the snapshot does not contain.
    Closed(Seq),
}

impl SnapshotStage {
    // Returns `Ok` if a further message can be taken, and otherwise its fault.
    pub(crate) fn open(&self) -> Result<(), SnapFault>
        ensures { result ≡ opened self.now }
    {
        match self {
            SnapshotStage::Taking => Ok(()),
            SnapshotStage::Broken(fault) => Err(*fault),
            SnapshotStage::Closed(_) => Err(SnapFault::AfterEnd),
        }
    }
}

/// Takes the messages of a snapshot one by one, and returns their market after the End of Snapshot.
#[derive(Drop)]
pub struct SnapshotReader<B: OrderBook> {
    market: Market<B>,
    taken: u64,
    stage: SnapshotStage,
}

impl<B: OrderBook> Model for SnapshotReader<B> {
    ghost use Rattle.std.specs.Prelude.{◌≤◌, ◌-◌, ◌^◌};
    ghost use Rattle.std.specs.FinMap as map;
    ghost use Rattle.std.specs.Coded.{codes};
    ghost use Rattle.itch_snapshot.specs.TakenMessages.{Load};

    ghost Value = { Load };

    ghost coded = { Prim.hlevel (codes, map.code) };

    ghost view = { λ s. record { taken = s.taken; market = s.market; stage = s.stage } };

    ghost invariant = { λ s. s.taken ≤ 10 ^ 19 - 1 };
}

impl<B: OrderBook> SnapshotReader<B> {
    ghost use Rattle.itch_snapshot.specs.declared.reader.SnapshotStage.TheVariants.{Taking};
    ghost use Rattle.itch_snapshot.specs.TakenMessages.{begun, taken_after, stage_after, Loads, LoadsOnly, Finishes};

    /// Creates a reader that has taken no messages yet. It allocates no memory.
    pub fn new(alloc: B::Alloc) -> Self
        ensures { result ≡ begun }
    {
        SnapshotReader {
            market: Market::new(alloc),
            taken: 0,
            stage: SnapshotStage::Taking,
        }
    }

    /// Takes the message of a payload. Returns `None` for a message that was applied, and `Some(next)` for the End of Snapshot.
    ///
    /// A message that is refused has the fault `Codec`, `Rule` or `TooManyMessages`, and every later call returns the same. If memory runs
    /// out, the fault is `Rule` with the reason `OutOfMemory`; then nothing has changed, and the call may be repeated. After the End of
    /// Snapshot every call returns `AfterEnd`.
    pub fn message(&mut self, payload: &[u8]) -> Result<Option<Seq>, SnapFault>
        ensures { Loads self.old payload.now result self.new }
    {
        let stage = self.stage;
        stage.open()?;
        let taken = take(&mut self.market, &decode(payload), self.taken);
        self.settle(taken)
    }

    /// Does the same, restricted to a set of locates: a message about a security or an order at another locate is decoded and counted, but no
    /// rule is checked, and nothing else changes.
    pub fn message_only(
        &mut self,
        set: &LocateSet<B::Alloc>,
        payload: &[u8],
    ) -> Result<Option<Seq>, SnapFault>
        ensures { LoadsOnly (has set.now) self.old payload.now result self.new }
    {
        let stage = self.stage;
        stage.open()?;
        let taken = take_only(&mut self.market, set, &decode(payload), self.taken);
        self.settle(taken)
    }

    // Counts a message that was taken, updates the stage, and returns the same result.
    fn settle(&mut self, taken: Result<Option<Seq>, SnapFault>) -> Result<Option<Seq>, SnapFault>
        requires room { IfOk taken (λ next. IfNone next (self.old.taken < 10 ^ 19 - 1)) }
        requires taking { self.old.stage ≡ Taking }
        ensures left { self.new ≡ record self.old { taken = taken_after self.old.taken taken; stage = stage_after taken } }
        ensures same { result ≡ taken }
    {
        match taken {
            Ok(None) => self.taken += 1,
            Ok(Some(next)) => self.stage = SnapshotStage::Closed(next),
            Err(
                SnapFault::Rule {
                    place: _,
                    reason: Refusal::OutOfMemory,
                },
            ) => {}
            Err(fault) => self.stage = SnapshotStage::Broken(fault),
        }
        taken
    }

    /// Returns the number of messages taken, without the End of Snapshot.
    pub fn taken(&self) -> u64
        ensures taken { result ≡ self.now.taken }
        ensures few { self.now.taken ≤ 10 ^ 19 - 1 }
    {
        self.taken
    }

    /// Returns the market of the messages taken so far.
    pub fn market(&self) -> &Market<B>
        ensures { result.now ≡ self.now.market }
    {
        &self.market
    }

    /// Prepares the market for look-ups, as [`Market::settle`] does. Nothing changes.
    pub fn settle_market(&mut self)
        ensures { self.new ≡ self.old }
    {
        self.market.settle();
    }

    /// Returns, after the End of Snapshot, the market and the number of the first message that it does not contain. Before the End of
    /// Snapshot it returns the reader itself.
    pub fn finish(self) -> Result<(Market<B>, Seq), SnapshotReader<B>>
        ensures { Finishes self result }
    {
        if let SnapshotStage::Closed(next) = &self.stage {
            let next = *next;
            return Ok((self.market, next));
        }
        Err(self)
    }
}

// Takes the decoded message of a payload, after `taken` others.
pub(crate) fn take<B: OrderBook>(
    market: &mut Market<B>,
    message: &Result<Message<'_>, CodecFault>,
    taken: u64,
) -> Result<Option<Seq>, SnapFault>
    requires { taken ≤ 10 ^ 19 - 1 }
    ensures { (payload : List ℕ) → Decodes payload message.now → TakesNext taken market.old payload result market.new }
{
    if let Ok(Message::End { next }) = message {
        return Ok(Some(*next));
    }
    if taken == MOST_MESSAGES {
        return Err(SnapFault::TooManyMessages);
    }
    let place = taken + 1;
    match message {
        Err(fault) => Err(SnapFault::Codec {
            place,
            fault: *fault,
        }),
        Ok(message) => match market.apply(message) {
            Ok(()) => Ok(None),
            Err(reason) => Err(SnapFault::Rule { place, reason }),
        },
    }
}

// Does the same, but a message at a locate that is not in the set changes nothing.
pub(crate) fn take_only<B: OrderBook>(
    market: &mut Market<B>,
    set: &LocateSet<B::Alloc>,
    message: &Result<Message<'_>, CodecFault>,
    taken: u64,
) -> Result<Option<Seq>, SnapFault>
    requires { taken ≤ 10 ^ 19 - 1 }
    ensures { (payload : List ℕ) → Decodes payload message.now → TakesNextOnly (has set.now) taken market.old payload result market.new }
{
    if taken == MOST_MESSAGES {
        return take(market, message, taken);
    }
    if is_skipped(set, message) {
        return Ok(None);
    }
    take(market, message, taken)
}

// Returns whether a decoded message is at a locate that is not in the set.
fn is_skipped<A: Allocator>(set: &LocateSet<A>, message: &Result<Message<'_>, CodecFault>) -> bool
    ensures { (payload : List ℕ) → Decodes payload message.now → result ≡ is_skipped (has set.now) payload }
{
    match message {
        Ok(message) => set.skips(message),
        Err(_fault) => false,
    }
}
