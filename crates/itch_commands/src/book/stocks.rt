//! The books of some stocks.
ghost use Rattle.itch_commands.specs.Commands.{ListsStocks};
ghost use Rattle.itch_commands.specs.Readings.{FromBlocks};
ghost use Rattle.itch_commands.specs.Stocks.{names_of};

use crate::book::listed::write_books;
use crate::fault::{Source, ToolFault};
use crate::form::BookForm;
use crate::kind::{FileKind, file_market};
use crate::stocks::stock_locates;
use itch_book::OrderBook;
use itch_codec::Seq;
use itch_frame::{BlockReader, CountedRead, CountedWrite};
use itch_market::Market;
use std::alloc::Allocator;

/// Writes the books of the locates that have one of these stocks, according to the directory after the file, as `book_blocks` does. The
/// names are separated by commas.
///
/// `UnknownStock` if the directory has no entry with the stock of a name: then nothing is written.
pub fn book_stocks<R: CountedRead, A: Allocator, B: OrderBook, W: CountedWrite>(
    alloc: B::Alloc,
    names: &str,
    depth: Option<u64>,
    reader: &mut BlockReader<R, A>,
    kind: FileKind,
    form: BookForm,
    out: &mut W,
) -> Result<bool, ToolFault>
    ensures { ListsStocks R.remaining R.failures W.contents W.failures form (names_of names.now) depth kind (FromBlocks reader.old reader.new) out.old result out.new }
{
    let (market, _): (Market<B>, Seq) = file_market(alloc, reader, kind, Source::Only)?;
    let set = stock_locates(alloc, &market, names)?;
    write_books(&market, Some(&set), depth, form, out)?;
    Ok(true)
}
