//! The book of one locate.
ghost use Rattle.std.specs.Prelude.{None};
ghost use Rattle.itch_commands.specs.Commands.{ListsBook};
ghost use Rattle.itch_day.specs.Limits.{counted};
ghost use Rattle.itch_commands.specs.Readings.{FromBlocks, FromReader};
ghost use Rattle.itch_commands.specs.declared.kind.FileKind.TheVariants.{Day};

use crate::book::listed::write_listed;
use crate::fault::{Source, ToolFault};
use crate::form::BookForm;
use crate::kind::{FileKind, file_market};
use crate::order_book::Book;
use itch_book::OrderBook;
use itch_codec::Seq;
use itch_day::Limit;
use itch_frame::{BlockReader, CountedRead, CountedWrite};
use itch_market::Market;
use std::alloc::Allocator;

/// Writes the price levels of a locate after a day file's messages: a line `LOCATE STOCK`, and then a line
/// `SIDE PRICE SHARES ORDERS` for each price, bids before asks, the best price first. A price has four decimals.
///
/// `UnknownLocate` if the directory has no such locate: then nothing is written.
pub fn book<R: CountedRead + Drop, A: Allocator + Copy, W: CountedWrite>(
    alloc: A,
    locate: u16,
    reader: R,
    out: &mut W,
) -> Result<bool, ToolFault>
    ensures { ListsBook R.remaining R.failures W.contents W.failures locate (Day (counted None)) (FromReader reader) out.old result out.new }
{
    let mut reader = BlockReader::new(alloc, reader)?;
    let kind = FileKind::Day(Limit::whole());
    one_blocks::<_, _, Book<A>, _>(alloc, locate, &mut reader, kind, out)
}

// Writes the price levels of a locate as [`book`] does, over a reader of blocks, for a file of either kind, with any book of orders.
fn one_blocks<R: CountedRead, A: Allocator, B: OrderBook, W: CountedWrite>(
    alloc: B::Alloc,
    locate: u16,
    reader: &mut BlockReader<R, A>,
    kind: FileKind,
    out: &mut W,
) -> Result<bool, ToolFault>
    ensures { ListsBook R.remaining R.failures W.contents W.failures locate kind (FromBlocks reader.old reader.new) out.old result out.new }
{
    let (market, _): (Market<B>, Seq) = file_market(alloc, reader, kind, Source::Only)?;
    let Some(_security) = market.security(locate) else {
        return Err(ToolFault::UnknownLocate);
    };
    write_listed(&market, locate, None, BookForm::Text, out)?;
    Ok(true)
}
