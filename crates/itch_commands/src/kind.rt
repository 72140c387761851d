//! A file of either kind, and its market.
ghost use Rattle.std.specs.Prelude.{◌≡◌, ◌<◌, ◌^◌, length, IfOk};
ghost use Rattle.itch_snapshot.specs.Snapshot.{snap};
ghost use Rattle.itch_commands.specs.Files.{LeavesFile, ReadsFile};
ghost use Rattle.itch_commands.specs.Readings.{ReadsSnap};
ghost use Rattle.itch_commands.specs.declared.kind.FileKind.TheVariants.{Day, Snapshot};

use crate::fault::{Source, ToolFault};
use crate::reading::read_settled;
use itch_book::OrderBook;
use itch_codec::Seq;
use itch_day::Limit;
use itch_frame::{BlockReader, CountedRead};
use itch_market::Market;
use itch_snapshot::read_snapshot;
use std::alloc::Allocator;

/// The kind of a file, and the part of it to read.
#[derive(Clone, Copy, Debug, PartialEq, Eq)]
pub enum FileKind {
    /// A day file, or a part of one.
    Day(Limit),
    /// A snapshot file, whose messages may be in any order.
    Snapshot,
}

/// Returns the market after a file, and the number of the first message that it does not contain.
///
/// A day file is refused as by [`read_market`](crate::read_market), and a snapshot file as by `canon`.
pub fn file_market<R: CountedRead, A: Allocator, B: OrderBook>(
    alloc: B::Alloc,
    reader: &mut BlockReader<R, A>,
    kind: FileKind,
    file: Source,
) -> Result<(Market<B>, Seq), ToolFault>
    ensures { LeavesFile (ReadsFile R.remaining R.failures file kind reader.old reader.new) result }
{
    match kind {
        FileKind::Day(limit) => day_market(alloc, reader, limit, file),
        FileKind::Snapshot => recorded_market(alloc, reader, file),
    }
}

fn day_market<R: CountedRead, A: Allocator, B: OrderBook>(
    alloc: B::Alloc,
    reader: &mut BlockReader<R, A>,
    limit: Limit,
    file: Source,
) -> Result<(Market<B>, Seq), ToolFault>
    ensures { LeavesFile (ReadsFile R.remaining R.failures file (Day limit) reader.old reader.new) result }
{
    let mut market = Market::new(alloc);
    let count = read_settled(reader, &mut market, limit, file)?;
    let next = Seq::new(count + 1).unwrap();
    Ok((market, next))
}

fn recorded_market<R: CountedRead, A: Allocator, B: OrderBook>(
    alloc: B::Alloc,
    reader: &mut BlockReader<R, A>,
    file: Source,
) -> Result<(Market<B>, Seq), ToolFault>
    ensures { LeavesFile (ReadsFile R.remaining R.failures file Snapshot reader.old reader.new) result }
{
    let (market, next): (Market<B>, Seq) = snapshot_market(alloc, reader, file)?;
    market.recall_invariant();
    Ok((market, next))
}

/// Returns the market and the number of a snapshot file.
pub fn snapshot_market<R: CountedRead, A: Allocator, B: OrderBook>(
    alloc: B::Alloc,
    reader: &mut BlockReader<R, A>,
    file: Source,
) -> Result<(Market<B>, Seq), ToolFault>
    ensures reads { ReadsSnap R.remaining R.failures file reader.old reader.new result }
    ensures few { IfOk result (λ done. length (snap done.0) < 10 ^ 19) }
{
    match read_snapshot(alloc, reader) {
        Ok((market, next)) => Ok((settled(market), next)),
        Err(fault) => Err(ToolFault::Snap { file, fault }),
    }
}

// Settles a market that is only looked at from here on.
fn settled<B: OrderBook>(mut market: Market<B>) -> Market<B>
    ensures { result ≡ market }
{
    market.settle();
    market
}
