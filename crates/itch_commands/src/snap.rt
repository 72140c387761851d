//! `snap`: writes the canonical snapshot of a file.
ghost use Rattle.std.specs.Option.{option_copied};
ghost use Rattle.itch_commands.specs.Commands.{Snaps};
ghost use Rattle.itch_day.specs.Limits.{counted};
ghost use Rattle.itch_commands.specs.Readings.{FromBlocks, FromReader};

mod checkpoint;
mod point_market;
mod point_reader;
mod points;
mod saving;
mod stocks;

use crate::fault::{Source, ToolFault};
use crate::order_book::Book;
use crate::reading::read_settled;
use crate::writing::write_closed_of;
pub use checkpoint::has_each;
use itch_book::OrderBook;
use itch_codec::Seq;
pub use itch_day::DayCursor;
use itch_day::Limit;
use itch_frame::{BlockReader, CountedRead, CountedWrite};
use itch_market::{LocateSet, Market};
pub use point_market::Followed;
pub use point_reader::PointReader;
pub use points::{PointLimits, Points, is_longer};
pub use saving::{PointSaver, save_points};
use std::alloc::Allocator;
pub use stocks::snap_stocks;

/// Writes the canonical snapshot after a day file's messages, or after its first ones: the canonical bytes of the market after them, and an
/// End of Snapshot with the number of the first message that it does not contain.
///
/// With `after`, reading stops after that many messages. A fault before that is returned as it is, and an earlier end as `Short`.
///
/// With a set, the snapshot is restricted to its locates. Every message must still follow the order rules.
pub fn snap<R: CountedRead + Drop, A: Allocator + Copy, W: CountedWrite>(
    alloc: A,
    reader: R,
    after: Option<u64>,
    only: Option<&LocateSet<A>>,
    out: &mut W,
) -> Result<bool, ToolFault>
    ensures { Snaps R.remaining R.failures W.contents W.failures (counted after) (option_copied only.entry) (FromReader reader) out.old result out.new }
{
    let mut reader = BlockReader::new(alloc, reader)?;
    snap_blocks::<_, _, Book<A>, _>(alloc, &mut reader, Limit::counted(after), only, out)
}

/// Does the same over a reader of blocks, and for any part of the file. The reader is left where the reading ended.
pub fn snap_blocks<R: CountedRead, A: Allocator, B: OrderBook, W: CountedWrite>(
    alloc: B::Alloc,
    reader: &mut BlockReader<R, A>,
    limit: Limit,
    only: Option<&LocateSet<B::Alloc>>,
    out: &mut W,
) -> Result<bool, ToolFault>
    ensures { Snaps R.remaining R.failures W.contents W.failures limit (option_copied only.entry) (FromBlocks reader.old reader.new) out.old result out.new }
{
    let mut market: Market<B> = Market::new(alloc);
    let count = read_settled(reader, &mut market, limit, Source::Only)?;
    let next = Seq::new(count + 1).unwrap();
    write_closed_of(&market, only, next, out)
}
