//! A market that is built from the messages of a snapshot file.
ghost use Rattle.std.specs.Prelude.{◌≡◌, ℕ, ◌≤◌, ◌-◌, ◌^◌, List};
ghost use Rattle.itch_day.specs.Sinks.{Decodes};
ghost use Rattle.itch_snapshot.specs.TakenMessages.{TakesFor};

use crate::fault::SnapFault;
use crate::reader::{take, take_only};
use itch_book::OrderBook;
use itch_codec::{CodecFault, Message, Seq};
use itch_day::Sink;
use itch_market::{LocateSet, Market};

/// The reason why no further message of a snapshot file is applied.
#[derive(Clone, Copy, Debug)]
pub enum SnapshotEnd {
    /// The End of Snapshot came, with the number of the first message that the snapshot does not contain.
    Closed(Seq),
    /// A message was refused.
    Broken(SnapFault),
}

/// Applies the messages before the End of Snapshot, of all locates or of those in a set.
#[derive(Drop)]
pub struct SnapshotSink<'a, B: OrderBook> {
    pub market: Market<B>,
    pub set: Option<&'a LocateSet<B::Alloc>>,
}

impl<'a, B: OrderBook> SnapshotSink<'a, B> {
    /// Takes a decoded message, after `taken` others.
    #[inline(always)]
    pub fn apply(
        &mut self,
        message: &Result<Message<'_>, CodecFault>,
        taken: u64,
    ) -> Result<Option<Seq>, SnapFault>
        requires { taken ≤ 10 ^ 19 - 1 }
        ensures takes { (payload : List ℕ) → Decodes payload message.now → TakesFor self.old.set taken self.old.market payload result self.new.market }
        ensures set { self.new.set ≡ self.old.set }
    {
        match self.set {
            Some(set) => take_only(&mut self.market, set, message, taken),
            None => take(&mut self.market, message, taken),
        }
    }
}

impl<'a, B: OrderBook> Sink for SnapshotSink<'a, B> {
    ghost use Rattle.std.specs.Prelude.{◌≡◌};
    ghost use Rattle.itch_snapshot.specs.SnapshotSinks.{EndsSnapshot, TakesOfSnapshot};

    type Fault = SnapshotEnd;

    ghost is_ready = { λ _ _. Unit {0} };

    ghost takes = { λ s number payload t. (t.set ≡ s.set) × TakesOfSnapshot s.set s.market number payload t.market };

    ghost refuses = { λ s number payload why t. (t.set ≡ s.set) × EndsSnapshot s.set s.market number payload why t.market };

    #[inline(always)]
    fn take(
        &mut self,
        number: u64,
        payload: &[u8],
        message: &Result<Message<'_>, CodecFault>,
    ) -> Result<(), SnapshotEnd> {
        let _payload = payload;
        match self.apply(message, number - 1) {
            Ok(None) => Ok(()),
            Ok(Some(next)) => Err(SnapshotEnd::Closed(next)),
            Err(fault) => Err(SnapshotEnd::Broken(fault)),
        }
    }
}
