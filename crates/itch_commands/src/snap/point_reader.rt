//! Writes several snapshots of a day file in one pass.
ghost use Rattle.std.specs.Prelude.{◌≡◌, ◌≤◌, ◌-◌, ◌^◌, length};
ghost use Rattle.itch_snapshot.specs.Snapshot.{snap};

use crate::fault::{Source, ToolFault};
use crate::reading::stopped;
use crate::snap::point_market::{Followed, PointMarket};
use itch_book::OrderBook;
use itch_codec::Seq;
use itch_day::{DayCursor, Limit, PartStop, Tracked, read_further};
use itch_frame::{BlockReader, CountedRead, CountedWrite};
use itch_market::{LocateSet, Market, Refused, reason_of};
use std::alloc::Allocator;
use std::snapshot::Snapshot;

/// A day file that is read on from point to point, and its market at the present point.
#[derive(Drop)]
pub struct PointReader<'a, R: CountedRead, A: Allocator, B: OrderBook> {
    reader: BlockReader<R, A>,
    tracked: Tracked<PointMarket<'a, B>>,
    // Only contracts see these three: the reader at the beginning of the pass, the part that was requested last, and why its reading stopped.
    first: Snapshot<BlockReader<R, A>>,
    limit: Snapshot<Limit>,
    stop: Snapshot<PartStop<Refused>>,
    ghost few: { tracked.cursor.count ≤ 10 ^ 19 - 1 },
    ghost short: { length (snap tracked.sink) ≤ tracked.cursor.count },
}

impl<'a, R: CountedRead, A: Allocator, B: OrderBook> PointReader<'a, R, A, B> {
    ghost use Rattle.std.specs.Prelude.{◌≡◌, ◌+◌, ◌-◌, ◌^◌, ◌<◌, min};
    ghost use Rattle.std.specs.Option.{option_copied};
    ghost use Rattle.itch_day.specs.Parts.{GoesOn, GoesOnTo};
    ghost use Rattle.itch_day.specs.Passing.{left_by};
    ghost use Rattle.itch_day.specs.declared.stop.PartStop.TheVariants.{Full};
    ghost use Rattle.itch_commands.specs.Commands.{Snaps};
    ghost use Rattle.itch_commands.specs.Points.{IsRead, ReadsMore, ReadsTo, Stands, at_first};
    ghost use Rattle.itch_commands.specs.Readings.{FromBlocks};

    /// Creates a pass that begins at this reader's position.
    pub fn new(
        alloc: B::Alloc,
        reader: BlockReader<R, A>,
        followed: Followed<'a, B::Alloc>,
    ) -> PointReader<'a, R, A, B>
        ensures first { result.first.value ≡ reader }
        ensures limit { result.limit.value ≡ at_first }
        ensures stop { result.stop.value ≡ Full }
        ensures stands { Stands R.remaining R.failures result.limit.value result.first.value result.reader result.tracked result.stop.value }
    {
        let first = Snapshot::of(&reader);
        PointReader {
            reader,
            tracked: Tracked {
                sink: PointMarket::new(alloc, followed),
                cursor: DayCursor::new(),
            },
            first,
            limit: Snapshot::of(&Limit {
                after: Some(0),
                until: Some(0),
            }),
            stop: Snapshot::of(&PartStop::Full),
        }
    }

    /// Returns the cursor after the messages read so far.
    pub fn cursor(&self) -> DayCursor
        ensures { result ≡ self.now.tracked.cursor }
    {
        self.tracked.cursor
    }

    /// Returns the market after the messages read so far.
    pub fn market(&self) -> &Market<B>
        ensures { result.now ≡ self.now.tracked.sink }
    {
        self.tracked.sink.whole()
    }

    /// Reads on to the end of the requested part of the file, and returns the number of messages in the part.
    ///
    /// The result is the same as that of one reading of that part, from the beginning of the pass. No part may be smaller than the one
    /// before. After `Short` the pass has read the whole file, and can be asked for that part.
    pub fn read_to(&mut self, limit: Limit) -> Result<u64, ToolFault>
        requires stands { Stands R.remaining R.failures self.old.limit.value self.old.first.value self.old.reader self.old.tracked self.old.stop.value }
        requires goes_on { GoesOnTo self.old.limit.value self.old.stop.value self.old.tracked.cursor.count limit }
        ensures first { self.new.first.value ≡ self.old.first.value }
        ensures limit { self.new.limit.value ≡ limit }
        ensures stands { Stands R.remaining R.failures limit self.new.first.value self.new.reader self.new.tracked self.new.stop.value }
        ensures reads { ReadsTo R.remaining R.failures limit self.new.first.value self.new.reader self.new.stop.value result self.new.tracked }
    {
        self.tracked.sink.whole().recall_invariant();
        let mut count = self.tracked.cursor.count;
        let stop = read_further(&mut self.reader, &mut count, &mut self.tracked, limit);
        self.tracked.sink.settle();
        self.limit = Snapshot::of(&limit);
        self.stop = Snapshot::of(&stop);
        match reason_of(stop) {
            None => Ok(count),
            Some(stop) => stopped(stop, limit.after, Source::Only, count),
        }
    }

    /// Reads that many more messages, and returns true; or all remaining ones, if there are fewer, and returns false.
    pub fn read_more(&mut self, count: u64) -> Result<bool, ToolFault>
        requires stands { Stands R.remaining R.failures self.old.limit.value self.old.first.value self.old.reader self.old.tracked self.old.stop.value }
        requires goes_on { GoesOn self.old.stop.value }
        requires some { 0 < count }
        ensures first { self.new.first.value ≡ self.old.first.value }
        ensures stands { Stands R.remaining R.failures self.new.limit.value self.new.first.value self.new.reader self.new.tracked self.new.stop.value }
        ensures reads { ReadsMore R.remaining R.failures (min (self.old.tracked.cursor.count + count) (2 ^ 64 - 1)) self.new.limit.value self.new.first.value
            self.new.reader self.new.stop.value result self.new.tracked }
    {
        let most = self.tracked.cursor.count.saturating_add(count);
        match self.read_to(Limit::counted(Some(most))) {
            Ok(_count) => Ok(true),
            Err(ToolFault::Short { .. }) => {
                // The pass has read the complete file.
                self.limit = Snapshot::of(&Limit::whole());
                Ok(false)
            }
            Err(fault) => Err(fault),
        }
    }

    /// Writes the canonical snapshot at the end of the part that was read, restricted to the locates of a set if there is one: the output and
    /// the result are those of `snap` for that part of the file. If all its locates are followed, this takes the time of their orders.
    pub fn write<W: CountedWrite>(
        &self,
        only: Option<&LocateSet<B::Alloc>>,
        out: &mut W,
    ) -> Result<bool, ToolFault>
        requires { IsRead R.remaining R.failures self.now.limit.value self.now.first.value (left_by self.now.stop.value self.now.reader)
            self.now.tracked.sink self.now.tracked.cursor }
        ensures { Snaps R.remaining R.failures W.contents W.failures self.now.limit.value (option_copied only.entry)
            (FromBlocks self.now.first.value (left_by self.now.stop.value self.now.reader)) out.old result out.new }
    {
        let next = Seq::new(self.tracked.cursor.count + 1).unwrap();
        self.tracked.sink.write(only, next, out)
    }
}
