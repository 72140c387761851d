//! The books of a market at a time.
ghost use Rattle.std.specs.Prelude.{◌≡◌, true};
ghost use Rattle.std.specs.Option.{option_copied};
ghost use Rattle.itch_market.specs.Content.{Content};
ghost use Rattle.itch_commands.specs.Books.{wanted_by};
ghost use Rattle.itch_commands.specs.Outputs.{Outputs};
ghost use Rattle.itch_commands.specs.Stocks.{has_one_of, names_of};
ghost use Rattle.itch_depth.specs.Series.{Checks, ChecksStocks, ListsMarket, ListsSelected, SelectsSet, SelectsStocks, continues};
ghost use Rattle.itch_depth.specs.Timed.{timed_books};

use crate::request::BookRequest;
use crate::timed::write_timed_books;
use itch_book::OrderBook;
use itch_commands::book::all_listed;
use itch_commands::{BookForm, Selection, ToolFault, stock_locates};
use itch_frame::CountedWrite;
use itch_market::{LocateSet, Market};

/// Writes the selected books of a market, with this time.
///
/// `UnknownLocate` or `UnknownStock` if the directory lacks a selected locate or stock: then nothing is written.
pub fn list_market<B: OrderBook, W: CountedWrite>(
    alloc: B::Alloc,
    market: &Market<B>,
    request: BookRequest<'_>,
    only: Option<&LocateSet<B::Alloc>>,
    time: u64,
    out: &mut W,
) -> Result<bool, ToolFault>
    ensures { ListsMarket W.contents W.failures request.entry (option_copied only.entry) market.now time out.old result out.new }
{
    let BookRequest {
        selection,
        depth,
        form,
    } = request;
    list_selected(alloc, market, selection, only, depth, time, form, out)
}

fn list_selected<B: OrderBook, W: CountedWrite>(
    alloc: B::Alloc,
    market: &Market<B>,
    selection: Selection<'_>,
    only: Option<&LocateSet<B::Alloc>>,
    depth: Option<u64>,
    time: u64,
    form: BookForm,
    out: &mut W,
) -> Result<bool, ToolFault>
    ensures { ListsSelected W.contents W.failures selection.entry (option_copied only.entry) depth form market.now time out.old result out.new }
{
    match selection {
        Selection::Stocks(names) => list_stocks(alloc, market, names, depth, time, form, out),
        Selection::All => list_set(market, only, depth, time, form, out),
        Selection::Locates(_) => list_set(market, only, depth, time, form, out),
    }
}

// Writes the books of the locates that have one of these stocks.
fn list_stocks<B: OrderBook, W: CountedWrite>(
    alloc: B::Alloc,
    market: &Market<B>,
    names: &str,
    depth: Option<u64>,
    time: u64,
    form: BookForm,
    out: &mut W,
) -> Result<bool, ToolFault>
    ensures { Outputs W.contents W.failures (SelectsStocks (names_of names.now) market.now)
        (λ m. timed_books form time depth (has_one_of (Content.securities m) (names_of names.now)) m) (λ _. true) out.old result out.new }
{
    let set = stock_locates(alloc, market, names)?;
    write_timed_books(market, Some(&set), depth, time, form, out)?;
    Ok(true)
}

// Writes the books of the locates of a set, or of all locates of the directory.
fn list_set<B: OrderBook, W: CountedWrite>(
    market: &Market<B>,
    only: Option<&LocateSet<B::Alloc>>,
    depth: Option<u64>,
    time: u64,
    form: BookForm,
    out: &mut W,
) -> Result<bool, ToolFault>
    ensures { Outputs W.contents W.failures (SelectsSet (option_copied only.entry) market.now)
        (λ m. timed_books form time depth (wanted_by (option_copied only.entry)) m) (λ _. true) out.old result out.new }
{
    all_listed(market, only)?;
    write_timed_books(market, only, depth, time, form, out)?;
    Ok(true)
}

/// Checks that the directory has each selected locate or stock.
pub fn check_listed<B: OrderBook>(
    alloc: B::Alloc,
    market: &Market<B>,
    selection: Selection<'_>,
    only: Option<&LocateSet<B::Alloc>>,
) -> Result<(), ToolFault>
    ensures { Checks selection.entry (option_copied only.entry) market.now result }
{
    match selection {
        Selection::Stocks(names) => check_stocks(alloc, market, names),
        Selection::All => all_listed(market, only),
        Selection::Locates(_) => all_listed(market, only),
    }
}

fn check_stocks<B: OrderBook>(
    alloc: B::Alloc,
    market: &Market<B>,
    names: &str,
) -> Result<(), ToolFault>
    ensures { ChecksStocks (names_of names.now) market.now result }
{
    let _set = stock_locates(alloc, market, names)?;
    Ok(())
}

/// Returns whether later times follow: the books were written, or the directory still lacks a selected locate or stock.
pub fn continues(answer: &Result<bool, ToolFault>) -> bool
    ensures { result ≡ continues answer.now }
{
    match answer {
        Ok(_) => true,
        Err(fault) => matches!(fault, ToolFault::UnknownLocate | ToolFault::UnknownStock),
    }
}
