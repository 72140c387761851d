//! Stocks by their names, looked up in the directory of a market.
ghost use Rattle.std.specs.Prelude.{◌≡◌};
ghost use Rattle.itch_commands.specs.Stocks.{FindsStocks, has_one_of, names_of, passed_at};

use crate::fault::ToolFault;
use crate::stock_names::StockNames;
use itch_book::OrderBook;
use itch_market::{LocateSet, Market};

/// Returns the locates whose directory entry has one of these stocks. The names are separated by commas, and are the stocks' bytes without
/// the padding. Several locates may have the same stock.
///
/// It goes through the directory once, for any number of names.
///
/// # Faults
///
/// `UnknownStock` if no entry has the stock of a name, and `OutOfMemory` if memory runs out before that is known.
pub fn stock_locates<B: OrderBook>(
    alloc: B::Alloc,
    market: &Market<B>,
    names: &str,
) -> Result<LocateSet<B::Alloc>, ToolFault>
    ensures { FindsStocks market.now.securities (names_of names.now) result }
{
    let mut stocks = StockNames::new(alloc, names)?;
    let mut set = LocateSet::new(alloc);
    for locate in market.locates() {
        if pass_locate(market, &mut stocks, locate) {
            set.insert(locate)?;
        }
    }
    if stocks.have_all_come() {
        Ok(set)
    } else {
        Err(ToolFault::UnknownStock)
    }
}

// Passes the stock of a locate, if it has one. Returns whether it has one of the names.
fn pass_locate<B: OrderBook>(
    market: &Market<B>,
    stocks: &mut StockNames<'_, B::Alloc>,
    locate: u16,
) -> bool
    ensures one { result ≡ has_one_of market.now.securities stocks.old.names locate }
    ensures passed { stocks.new ≡ passed_at market.now.securities locate stocks.old }
{
    match market.security(locate) {
        Some(security) => {
            let stock = security.entry.stock;
            stocks.pass(stock.text())
        }
        None => false,
    }
}
