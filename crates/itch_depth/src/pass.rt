//! Reads a day file on from time to time.
ghost use Rattle.std.specs.Prelude.{◌≡◌, ◌≤◌, ◌-◌, ◌^◌, OnOk, IfErr, Err, None, false};
ghost use Rattle.std.specs.Option.{option_copied};
ghost use Rattle.itch_frame.specs.Reading.{Reading};
ghost use Rattle.itch_day.specs.Limits.{counted};
ghost use Rattle.itch_day.specs.Parts.{GoesOnTo};
ghost use Rattle.itch_day.specs.declared.limit.Limit.{Limit as AnyLimit};
ghost use Rattle.itch_day.specs.declared.tracked.Tracked.{Tracked};
ghost use Rattle.itch_day.specs.declared.stop.PartStop.{PartStop as AnyStop};
ghost use Rattle.itch_market.specs.Content.{Content as AnyMarket, empty};
ghost use Rattle.itch_market.specs.Takings.{reason_of};
ghost use Rattle.itch_market.specs.declared.refused.Refused.{Refused as AnyRefused};
ghost use Rattle.itch_commands.specs.Points.{Stands, up_to};
ghost use Rattle.itch_commands.specs.Readings.{stopped};
ghost use Rattle.itch_depth.specs.Own.{Fits, IsApart, Keeps, before_time, stop_by};
ghost use Rattle.itch_depth.specs.Series.{Checks, IsAt, ListsMarket, ReadsRest, ReadsTime, StopsSo, UnlessStopped, continues};

mod locates;
mod markets;

use crate::listing::{check_listed, list_market};
use crate::request::BookRequest;
use itch_book::OrderBook;
use itch_commands::{Limit, Source, ToolFault};
use itch_day::{PartStop, read_part};
use itch_frame::{BlockReader, CountedRead, CountedWrite};
use itch_market::{LocateSet, Refused, ReplayEnd, Stop};
pub use locates::OwnLocates;
use markets::{OwnMarkets, Untaken};
use std::alloc::Allocator;

/// A day file that is read on from time to time, and its markets at the present time.
#[derive(Drop)]
pub struct TimedPass<'a, R: CountedRead, A: Allocator, B: OrderBook> {
    reader: BlockReader<R, A>,
    count: u64,
    markets: OwnMarkets<'a, B>,
    ghost few: { count ≤ 10 ^ 19 - 1 },
}

impl<'a, R: CountedRead, A: Allocator, B: OrderBook> TimedPass<'a, R, A, B> {
    /// Creates a pass that begins at this reader's position, and keeps the books of these locates apart.
    pub fn new(
        alloc: B::Alloc,
        locates: OwnLocates<'a, B::Alloc>,
        reader: BlockReader<R, A>,
    ) -> TimedPass<'a, R, A, B>
        ensures reader { result.reader ≡ reader }
        ensures count { result.count ≡ 0 }
        ensures market { result.markets.market ≡ empty }
        ensures apart { IsApart result.markets.locates result.markets.market result.markets.own }
        ensures locates { result.markets.locates ≡ locates.entry }
    {
        TimedPass {
            reader,
            count: 0,
            markets: OwnMarkets::new(alloc, locates),
        }
    }

    /// Returns the number of messages read so far.
    pub fn count(&self) -> u64
        ensures { result ≡ self.now.count }
    {
        self.count
    }

    /// Reads on up to the first message at this time or later, and returns true; or to the end of the file if there is none, and returns
    /// false. No time may be earlier than the one before.
    pub fn read_until(&mut self, time: u64) -> Result<bool, ToolFault>
        requires { IsApart self.old.markets.locates self.old.markets.market self.old.markets.own }
        ensures reads { (first : Reading R) → (before : AnyLimit) → (stop : AnyStop AnyRefused) → (tracked : Tracked AnyMarket)
            → Stands R.remaining R.failures before first self.old.reader tracked stop → IsAt tracked self.old.markets.market self.old.count
            → GoesOnTo before stop tracked.cursor.count (up_to time)
            → ReadsTime R.remaining R.failures time first self.new.reader result self.new.markets.market self.new.count }
        ensures apart { OnOk result (IsApart self.new.markets.locates self.new.markets.market self.new.markets.own) }
        ensures stops { IfErr result (λ fault. continues (Err fault) ≡ false) }
        ensures kept { Keeps self.old.markets.locates self.new.markets.locates }
    {
        match self.read_on(Some(time)) {
            None => Ok(true),
            Some(stop) => match self.ended(stop) {
                Ok(_count) => Ok(false),
                Err(fault) => Err(fault),
            },
        }
    }

    /// Reads the rest of the file, and returns the number of its messages.
    pub fn read_rest(&mut self) -> Result<u64, ToolFault>
        requires { IsApart self.old.markets.locates self.old.markets.market self.old.markets.own }
        ensures reads { (first : Reading R) → (before : AnyLimit) → (stop : AnyStop AnyRefused) → (tracked : Tracked AnyMarket)
            → Stands R.remaining R.failures before first self.old.reader tracked stop → IsAt tracked self.old.markets.market self.old.count
            → GoesOnTo before stop tracked.cursor.count (counted None)
            → ReadsRest R.remaining R.failures first self.new.reader result self.new.markets.market self.new.count }
        ensures apart { OnOk result (IsApart self.new.markets.locates self.new.markets.market self.new.markets.own) }
        ensures kept { Keeps self.old.markets.locates self.new.markets.locates }
    {
        match self.read_on(None) {
            None => Ok(self.count),
            Some(stop) => self.ended(stop),
        }
    }

    // Reads on up to the first message at this time or later, if there is a time, and returns the reason if it stops before.
    fn read_on(&mut self, until: Option<u64>) -> Option<Stop>
        requires { IsApart self.old.markets.locates self.old.markets.market self.old.markets.own }
        ensures reads { (first : Reading R) → (before : AnyLimit) → (stop : AnyStop AnyRefused) → (tracked : Tracked AnyMarket)
            → Stands R.remaining R.failures before first self.old.reader tracked stop → IsAt tracked self.old.markets.market self.old.count
            → GoesOnTo before stop tracked.cursor.count (before_time until)
            → StopsSo R.remaining R.failures (before_time until) first self.new.reader result self.new.markets.market self.new.count }
        ensures apart { UnlessStopped result (IsApart self.new.markets.locates self.new.markets.market self.new.markets.own) }
        ensures kept { Keeps self.old.markets.locates self.new.markets.locates }
    {
        self.markets.until = until;
        let stop = read_part(
            &mut self.reader,
            &mut self.count,
            &mut self.markets,
            Limit::whole(),
        );
        self.markets.settle();
        reason_of(stop)
    }

    // Returns the result of a stop after the messages read so far: the end of the file is not a fault.
    fn ended(&self, stop: Stop) -> Result<u64, ToolFault>
        ensures { result ≡ stopped stop None Source.Only self.now.count }
    {
        match stop {
            Stop::End => Ok(self.count),
            _ => Err(ToolFault::Stopped {
                file: Source::Only,
                end: ReplayEnd {
                    count: self.count,
                    stop,
                },
            }),
        }
    }

    /// Writes the selected books at the present time.
    pub fn list<W: CountedWrite>(
        &self,
        alloc: B::Alloc,
        request: BookRequest<'_>,
        only: Option<&LocateSet<B::Alloc>>,
        time: u64,
        out: &mut W,
    ) -> Result<bool, ToolFault>
        requires apart { IsApart self.now.markets.locates self.now.markets.market self.now.markets.own }
        requires fits { Fits self.now.markets.locates request.selection (option_copied only) }
        ensures { ListsMarket W.contents W.failures request.entry (option_copied only.entry) self.now.markets.market time out.old result out.new }
    {
        let markets = &self.markets;
        if markets.locates.are_none() {
            list_market(alloc, &markets.market, request, only, time, out)
        } else {
            list_market(alloc, &markets.own, request, only, time, out)
        }
    }

    /// Checks that the directory has each selected locate or stock.
    pub fn check(
        &self,
        alloc: B::Alloc,
        request: BookRequest<'_>,
        only: Option<&LocateSet<B::Alloc>>,
    ) -> Result<(), ToolFault>
        ensures { Checks request.entry.selection (option_copied only.entry) self.now.markets.market result }
    {
        check_listed(alloc, &self.markets.market, request.selection, only)
    }
}

// Returns the reason why the reading of the messages before a time stopped, unless one at that time or later did.
fn reason_of(stop: PartStop<Untaken>) -> Option<Stop>
    ensures { result ≡ reason_of (stop_by stop) }
{
    match stop {
        PartStop::Full | PartStop::Late | PartStop::Refused(Untaken::Late) => None,
        PartStop::End => Some(Stop::End),
        PartStop::Frame(fault) => Some(Stop::Frame(fault)),
        PartStop::TooMany => Some(Stop::TooManyMessages),
        PartStop::Refused(Untaken::Refused(Refused::Codec(fault))) => Some(Stop::Codec(fault)),
        PartStop::Refused(Untaken::Refused(Refused::Rule(why))) => Some(Stop::Rule(why)),
    }
}
