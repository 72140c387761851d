//! Applies day files to a market, message by message.
ghost use Rattle.std.specs.Prelude.{◌≡◌, ℕ, List, map, take, Some, IfSome};
ghost use Rattle.itch_codec.specs.Messages.{message_of};
ghost use Rattle.itch_frame.specs.Blocks.{Day};
ghost use Rattle.itch_frame.specs.Reading.{bytes_left};
ghost use Rattle.itch_market.specs.Content.{laid};
ghost use Rattle.itch_market.specs.Runs.{after};
ghost use Rattle.itch_market.specs.Stops.{Stops};
ghost use Rattle.itch_market.specs.Replays.{Counts, CountsFirst, LeavesReader, LeavesReaderFirst, StopsAgain, Replays, ReplaysFirst, IsDecided};
ghost use Rattle.itch_market.specs.DayParts.{LeavesPartOf, PartOf};
ghost use Rattle.itch_market.specs.Takings.{reason_of};
ghost use Rattle.itch_day.specs.declared.stop.PartStop.TheVariants as part;

use crate::market::Market;
use crate::refused::Refused;
use crate::stop::{ReplayEnd, Stop};
use itch_book::OrderBook;
use itch_day::{Limit, PartStop, pass_stop, read_part};
use itch_frame::{BlockReader, CountedRead};
use std::alloc::Allocator;

/// Applies the messages of a day file, up to the first one that is not taken, and returns their number and the reason for the stop.
///
/// The market afterwards is that of the messages before the stop. The block of a refused message has been read, and nothing after an empty
/// block is read. After `Frame(Read)` a second call continues where the first stopped. After the end of input, or a block truncated there, a
/// second call stops in the same way and reads nothing.
pub fn replay<R: CountedRead, A: Allocator, B: OrderBook>(
    reader: &mut BlockReader<R, A>,
    market: &mut Market<B>,
) -> ReplayEnd
    // The place of the stop depends only on the file, unless a read or an allocation failed.
    ensures stops { IfSome (bytes_left R.remaining reader.old) (λ bytes. IsDecided result.stop → Stops market.old bytes result.count result.stop) }
    // The market afterwards is that of the file's first messages.
    ensures content { IfSome (bytes_left R.remaining reader.old) (λ bytes. (payloads : List (List ℕ)) → (rest : List ℕ) → Day bytes payloads rest
        → market.new ≡ laid (after market.old (map message_of (take result.count payloads)))) }
    // The bytes that were read and those that were not, and the meaning of each stop.
    ensures steps { Replays market.old (bytes_left R.remaining reader.old) (bytes_left R.remaining reader.new) result.count result.stop market.new }
    ensures failures { Counts result.stop (R.failures reader.old.reader) (R.failures reader.new.reader) }
    ensures reader { LeavesReader result.stop reader.new }
    ensures again { StopsAgain reader.old result.count result.stop reader.new }
{
    // There is always a stop: a replay applies fewer messages than this.
    let (count, stop) = replay_first(reader, market, u64::MAX);
    ReplayEnd {
        count,
        stop: stop.unwrap(),
    }
}

/// Applies the first `most` messages of a day file and reads no further, or stops before that and returns the reason.
pub fn replay_first<R: CountedRead, A: Allocator, B: OrderBook>(
    reader: &mut BlockReader<R, A>,
    market: &mut Market<B>,
    most: u64,
) -> (u64, Option<Stop>)
    ensures steps { ReplaysFirst most market.old (bytes_left R.remaining reader.old) (bytes_left R.remaining reader.new) result.0 result.1 market.new }
    ensures failures { CountsFirst result.1 (R.failures reader.old.reader) (R.failures reader.new.reader) }
    ensures reader { LeavesReaderFirst reader.old result.0 result.1 reader.new }
{
    replay_part(reader, market, Limit::counted(Some(most)))
}

/// Applies the messages of the requested part of a day file, and returns their number and the reason why it stopped earlier, if it did.
///
/// The block at which it stopped has been read.
pub fn replay_part<R: CountedRead, A: Allocator, B: OrderBook>(
    reader: &mut BlockReader<R, A>,
    market: &mut Market<B>,
    limit: Limit,
) -> (u64, Option<Stop>)
    ensures part { PartOf limit market.old (bytes_left R.remaining reader.old) (bytes_left R.remaining reader.new) result.0 result.1 market.new }
    ensures failures { CountsFirst result.1 (R.failures reader.old.reader) (R.failures reader.new.reader) }
    ensures reader { LeavesPartOf limit reader.old result.0 result.1 reader.new }
{
    market.recall_invariant();
    let mut count = 0;
    let stop = read_part(reader, &mut count, market, limit);
    pass_stop(reader, &stop);
    (count, reason_of(stop))
}

/// Returns the reason why a replay stops when a part of a day stops, or `None` if it has all requested messages.
pub fn reason_of(stop: PartStop<Refused>) -> Option<Stop>
    ensures { result ≡ reason_of stop }
{
    match stop {
        PartStop::Full | PartStop::Late => None,
        PartStop::End => Some(Stop::End),
        PartStop::Frame(fault) => Some(Stop::Frame(fault)),
        PartStop::TooMany => Some(Stop::TooManyMessages),
        PartStop::Refused(why) => Some(Stop::from(why)),
    }
}

impl From<Refused> for Stop {
    ghost from_gives = { λ why stop. Some stop ≡ reason_of (part.Refused why) };

    fn from(why: Refused) -> Stop {
        match why {
            Refused::Codec(fault) => Stop::Codec(fault),
            Refused::Rule(why) => Stop::Rule(why),
        }
    }
}
