//! Reads a day file, or the requested part of it, into a market.
ghost use Rattle.std.specs.Prelude.{◌≡◌};
ghost use Rattle.itch_frame.specs.Reading.{bytes_left};
ghost use Rattle.itch_commands.specs.Readings.{ReadsMarket, CountsRead, LeavesDay, stopped};

use crate::fault::{Source, ToolFault};
use itch_book::OrderBook;
use itch_day::Limit;
use itch_frame::{BlockReader, CountedRead};
use itch_market::{Market, ReplayEnd, Stop, replay_part};
use std::alloc::Allocator;

/// Applies the messages of a day file, or of the requested part of it, to a market, and returns their number.
///
/// Nothing is read after them, except the message at the end time of the part. A fault before that is returned as it is, and an end of the
/// file before as many messages as requested as `Short`.
pub fn read_market<R: CountedRead, A: Allocator, B: OrderBook>(
    reader: &mut BlockReader<R, A>,
    market: &mut Market<B>,
    limit: Limit,
    file: Source,
) -> Result<u64, ToolFault>
    ensures reads { ReadsMarket file limit market.old (bytes_left R.remaining reader.old) (bytes_left R.remaining reader.new) result market.new }
    ensures failures { CountsRead result (R.failures reader.old.reader) (R.failures reader.new.reader) }
    ensures reader { LeavesDay result limit reader.old reader.new }
{
    let (count, stop) = replay_part(reader, market, limit);
    match stop {
        None => Ok(count),
        Some(stop) => stopped(stop, limit.after, file, count),
    }
}

/// Does the same for a market that is only looked at afterwards: it is settled.
pub(crate) fn read_settled<R: CountedRead, A: Allocator, B: OrderBook>(
    reader: &mut BlockReader<R, A>,
    market: &mut Market<B>,
    limit: Limit,
    file: Source,
) -> Result<u64, ToolFault>
    ensures reads { ReadsMarket file limit market.old (bytes_left R.remaining reader.old) (bytes_left R.remaining reader.new) result market.new }
    ensures failures { CountsRead result (R.failures reader.old.reader) (R.failures reader.new.reader) }
    ensures reader { LeavesDay result limit reader.old reader.new }
{
    let read = read_market(reader, market, limit, file);
    market.settle();
    read
}

// Returns the result of a stop after this many messages: the end of the file is not a fault, unless more messages were requested.
pub(crate) fn stopped(
    stop: Stop,
    wanted: Option<u64>,
    file: Source,
    count: u64,
) -> Result<u64, ToolFault>
    ensures { result ≡ stopped stop wanted file count }
{
    match (stop, wanted) {
        (Stop::End, None) => Ok(count),
        (Stop::End, Some(_)) => Err(ToolFault::Short { file, count }),
        _ => Err(ToolFault::Stopped {
            file,
            end: ReplayEnd { count, stop },
        }),
    }
}
