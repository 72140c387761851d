//! `book`: writes the prices of locates.
ghost use Rattle.std.specs.Prelude.{◌≡◌, ◌≤◌, ◌-◌, length, option_map};
ghost use Rattle.std.specs.Option.{option_copied};
ghost use Rattle.itch_book.specs.Orders.{queue, next_price};
ghost use Rattle.itch_commands.specs.Books.{next_wanted, side_lines, book_lines};
ghost use Rattle.itch_commands.specs.Commands.{ListsBooks};
ghost use Rattle.itch_commands.specs.Forms.{row};
ghost use Rattle.itch_commands.specs.Outputs.{WritesText};
ghost use Rattle.itch_commands.specs.Readings.{FromBlocks};

mod listed;
mod one;
mod rows;
mod stocks;

use crate::book::listed::write_books;
use crate::fault::{Source, ToolFault};
use crate::form::BookForm;
use crate::kind::{FileKind, file_market};
use crate::writing::write_text;
use itch_book::OrderBook;
use itch_codec::{Seq, Side};
use itch_frame::{BlockReader, CountedRead, CountedWrite};
use itch_market::{LocateSet, Market};
pub use listed::{all_listed, is_wanted};
pub use one::book;
pub use rows::Rows;
use std::alloc::Allocator;
pub use stocks::book_stocks;

/// Writes the price levels of the locates of a set, or of all locates of the directory, after a file of either kind, in any form. For each
/// locate, in ascending order, it writes the title, and then a line for each price: bids before asks, the best price first, and with
/// `depth` at most that many prices of each side. The reader is left where the reading ended.
///
/// `UnknownLocate` if the directory lacks a locate of the set: then nothing is written.
pub fn book_blocks<R: CountedRead, A: Allocator, B: OrderBook, W: CountedWrite>(
    alloc: B::Alloc,
    only: Option<&LocateSet<B::Alloc>>,
    depth: Option<u64>,
    reader: &mut BlockReader<R, A>,
    kind: FileKind,
    form: BookForm,
    out: &mut W,
) -> Result<bool, ToolFault>
    ensures { ListsBooks R.remaining R.failures W.contents W.failures form (option_copied only.entry) depth kind (FromBlocks reader.old reader.new) out.old result out.new }
{
    let (market, _): (Market<B>, Seq) = file_market(alloc, reader, kind, Source::Only)?;
    all_listed(&market, only)?;
    write_books(&market, only, depth, form, out)?;
    Ok(true)
}

// Writes the title of a book and its prices.
fn write_book<B: OrderBook, W: CountedWrite>(
    book: &B,
    depth: Option<u64>,
    rows: &Rows<'_>,
    out: &mut W,
) -> Result<(), ToolFault>
    requires { length rows.now.stock.now ≤ 8 }
    ensures { WritesText W.contents W.failures (book_lines rows.now.form rows.now.locate depth rows.now.stock.now (B.orders book.now)) out.old result out.new }
{
    write_text(rows.title().as_bytes(), out)?;
    write_side(book, depth, rows, Side::Buy, out)?;
    write_side(book, depth, rows, Side::Sell, out)
}

// Writes the line of each requested price of a side, the best price first.
fn write_side<B: OrderBook, W: CountedWrite>(
    book: &B,
    depth: Option<u64>,
    rows: &Rows<'_>,
    side: Side,
    out: &mut W,
) -> Result<(), ToolFault>
    requires { length rows.now.stock.now ≤ 8 }
    ensures { WritesText W.contents W.failures (side_lines (row rows.now.form rows.now.locate rows.now.stock.now) depth side (queue (B.orders book.now) rows.now.locate side)) out.old result out.new }
{
    let locate = rows.locate;
    let (mut last, mut left) = (None, depth);
    while let Some(price) = next_wanted(book, locate, left, side, last) {
        let (shares, orders) = book.level_total(locate, side, price);
        write_text(rows.row(side, price, shares, orders).as_bytes(), out)?;
        last = Some(price);
        left = one_fewer(left);
    }
    Ok(())
}

/// Returns the price after this one, unless no more are requested.
pub fn next_wanted<B: OrderBook>(
    book: &B,
    locate: u16,
    left: Option<u64>,
    side: Side,
    last: Option<u32>,
) -> Option<u32>
    ensures { result ≡ next_wanted left (next_price (B.orders book.now) locate side last) }
{
    match left {
        Some(0) => None,
        _ => book.next_price(locate, side, last),
    }
}

/// Returns the number of prices that are still requested after one more.
pub fn one_fewer(left: Option<u64>) -> Option<u64>
    ensures { result ≡ option_map (λ more. more - 1) left }
{
    match left {
        Some(more) => Some(more.saturating_sub(1)),
        None => None,
    }
}
