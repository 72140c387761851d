//! Reads the feed that continues after a snapshot.
ghost use Rattle.std.specs.Prelude.{◌≡◌, ◌<◌, ◌≤◌, ◌+◌, ◌^◌, IfSome, MatchResult};
ghost use Rattle.itch_market.specs.Wanted.{has};
ghost use Rattle.itch_join.specs.Takings.{IsJoined, position_of};
ghost use Rattle.itch_snapshot.specs.AsRead.{as_read};
ghost use Rattle.itch_commands.specs.FeedParts.{of_day};
ghost use Rattle.itch_commands.specs.Joiners.{FeedsJoiner, IsStart, ended_feed, start_of};
ghost use Rattle.itch_commands.specs.Joining.{ReadsFeed};

use crate::fault::{Source, ToolFault};
use crate::feed_part::{FeedMismatch, FeedPart};
use crate::reading::stopped;
use itch_book::OrderBook;
use itch_day::{Limit, PartStop, pass_stop, read_part};
use itch_frame::{BlockReader, CountedRead};
use itch_join::Joiner;
use itch_market::{Stop, reason_of};
use std::alloc::Allocator;

/// Delivers the requested messages of a feed to a joiner that has joined, up to the first that is not taken.
pub fn read_feed<R: CountedRead, A: Allocator, B: OrderBook>(
    reader: &mut BlockReader<R, A>,
    joiner: &mut Joiner<B>,
    part: FeedPart,
) -> Result<(), ToolFault>
    requires joined { IsJoined joiner.old.state }
    requires start { IsStart (start_of (position_of joiner.old.state)) }
    ensures { FeedsJoiner part.before (ReadsFeed (as_read (has joiner.old.set)) R.remaining R.failures part reader.old reader.new) (position_of joiner.old.state) result joiner.new.state }
{
    let next = joiner.next().unwrap();
    if let Some(mismatch) = part.mismatch(next) {
        return Err(ToolFault::FeedMismatch(mismatch));
    }
    let limit = of_day(part.before, part.wanted(next));
    let mut count = part.before;
    let stop = read_part(reader, &mut count, joiner, limit);
    pass_stop(reader, &stop);
    match stop {
        PartStop::Late => late_at(count + 1, joiner.next().unwrap()),
        stop => ended(reason_of(stop), limit.after, count),
    }
}

// Returns a part of a feed, counted from the first message of the day.
fn of_day(before: u64, limit: Limit) -> Limit
    requires { IfSome limit.after (λ most. before + most < 2 ^ 64) }
    ensures { result ≡ of_day before limit }
{
    Limit {
        after: limit.after.map(|most| before + most),
        until: limit.until,
    }
}

// Returns the result for a late message with this number: a fault, if the snapshot contains it, since it is below the joiner's next one.
fn late_at(number: u64, next: u64) -> Result<(), ToolFault>
    ensures { MatchResult result (λ _. next ≤ number) (λ fault. (fault ≡ ToolFault.FeedMismatch (FeedMismatch.Late number)) × (number < next)) }
{
    if number < next {
        Err(ToolFault::FeedMismatch(FeedMismatch::Late { number }))
    } else {
        Ok(())
    }
}

// Returns the result if this ends the feed, or nothing does, after that many messages of the day.
fn ended(stop: Option<Stop>, wanted: Option<u64>, count: u64) -> Result<(), ToolFault>
    ensures { result ≡ ended_feed stop wanted count }
{
    let Some(stop) = stop else {
        return Ok(());
    };
    match stopped(stop, wanted, Source::Only, count) {
        Ok(_count) => Ok(()),
        Err(fault) => Err(fault),
    }
}
