//! The canonical snapshot of a file, for the locates of some stocks.
ghost use Rattle.itch_commands.specs.Commands.{SnapsStocks};
ghost use Rattle.itch_commands.specs.Readings.{FromBlocks};
ghost use Rattle.itch_commands.specs.Stocks.{names_of};

use crate::fault::{Source, ToolFault};
use crate::reading::read_settled;
use crate::stocks::stock_locates;
use crate::writing::write_closed_of;
use itch_book::OrderBook;
use itch_codec::Seq;
use itch_day::Limit;
use itch_frame::{BlockReader, CountedRead, CountedWrite};
use itch_market::Market;
use std::alloc::Allocator;

/// Writes the snapshot that `snap` writes, restricted to the locates that have one of these stocks, according to the directory after the
/// messages. The names are separated by commas.
///
/// `UnknownStock` if the directory has no entry with the stock of a name: then nothing is written.
pub fn snap_stocks<R: CountedRead, A: Allocator, B: OrderBook, W: CountedWrite>(
    alloc: B::Alloc,
    reader: &mut BlockReader<R, A>,
    limit: Limit,
    names: &str,
    out: &mut W,
) -> Result<bool, ToolFault>
    ensures { SnapsStocks R.remaining R.failures W.contents W.failures limit (names_of names.now) (FromBlocks reader.old reader.new) out.old result out.new }
{
    let mut market: Market<B> = Market::new(alloc);
    let count = read_settled(reader, &mut market, limit, Source::Only)?;
    let next = Seq::new(count + 1).unwrap();
    let set = stock_locates(alloc, &market, names)?;
    write_closed_of(&market, Some(&set), next, out)
}
