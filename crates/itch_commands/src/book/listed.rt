//! The books of several locates of the directory, one after another.
ghost use Rattle.std.specs.Prelude.{◌≡◌, MatchResult};
ghost use Rattle.std.specs.Option.{option_copied};
ghost use Rattle.itch_commands.specs.Books.{AreListed, IsUnlisted, books_of, lines_at, wanted_by};
ghost use Rattle.itch_commands.specs.Outputs.{WritesText};

use crate::book::rows::{Rows, head};
use crate::book::write_book;
use crate::fault::ToolFault;
use crate::form::BookForm;
use crate::writing::write_text;
use itch_book::OrderBook;
use itch_frame::CountedWrite;
use itch_market::{LocateSet, Market};
use std::alloc::Allocator;

/// Refuses a set with a locate that the directory does not have.
pub fn all_listed<B: OrderBook>(
    market: &Market<B>,
    only: Option<&LocateSet<B::Alloc>>,
) -> Result<(), ToolFault>
    ensures { MatchResult result (λ _. AreListed (option_copied only.entry) market.now.securities)
        (λ fault. (fault ≡ ToolFault.UnknownLocate) × IsUnlisted (option_copied only.entry) market.now.securities) }
{
    match only {
        Some(set) => set_listed(market, set),
        None => Ok(()),
    }
}

fn set_listed<B: OrderBook>(market: &Market<B>, set: &LocateSet<B::Alloc>) -> Result<(), ToolFault>
    ensures { MatchResult result (λ _. AreListed (Some set.now) market.now.securities)
        (λ fault. (fault ≡ ToolFault.UnknownLocate) × IsUnlisted (Some set.now) market.now.securities) }
{
    for locate in 0..=u16::MAX {
        if set.contains(locate) && market.security(locate).is_none() {
            return Err(ToolFault::UnknownLocate);
        }
    }
    Ok(())
}

/// Writes the heading, and below it the books of the requested locates, in ascending order.
pub fn write_books<B: OrderBook, W: CountedWrite>(
    market: &Market<B>,
    only: Option<&LocateSet<B::Alloc>>,
    depth: Option<u64>,
    form: BookForm,
    out: &mut W,
) -> Result<(), ToolFault>
    ensures { WritesText W.contents W.failures (books_of form depth (wanted_by (option_copied only.entry)) market.now) out.old result out.new }
{
    write_text(head(form).as_bytes(), out)?;
    for locate in market.locates() {
        if is_wanted(only, locate) {
            write_listed(market, locate, depth, form, out)?;
        }
    }
    Ok(())
}

/// Returns whether a locate is requested: it is in the set, or there is no set.
pub fn is_wanted<A: Allocator>(only: Option<&LocateSet<A>>, locate: u16) -> bool
    ensures { result ≡ wanted_by (option_copied only.entry) locate }
{
    match only {
        Some(set) => set.contains(locate),
        None => true,
    }
}

/// Writes the book of a locate, if the directory has it.
pub fn write_listed<B: OrderBook, W: CountedWrite>(
    market: &Market<B>,
    locate: u16,
    depth: Option<u64>,
    form: BookForm,
    out: &mut W,
) -> Result<(), ToolFault>
    ensures { WritesText W.contents W.failures (lines_at form depth market.now locate) out.old result out.new }
{
    let Some(security) = market.security(locate) else {
        return Ok(());
    };
    let stock = security.entry.stock;
    stock.recall_invariant();
    let rows = Rows {
        form,
        locate,
        stock: stock.text(),
    };
    write_book(market.book(), depth, &rows, out)
}
