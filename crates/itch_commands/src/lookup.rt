//! Searches for stocks by their names while the messages of a file pass.
ghost use Rattle.std.specs.Prelude.{◌≡◌, ◌==◌, IfOk, length, replicate, false};
ghost use Rattle.itch_commands.specs.Lookup.{lookup, lookup_after, is_about_one, is_found};
ghost use Rattle.itch_commands.specs.Stocks.{names_of};

use crate::stock_names::StockNames;
use itch_codec::Message;
use std::alloc::{AllocError, Allocator};
use std::marker::Model;

/// Names of stocks, and the locates that have one of them according to the Stock Directory messages so far.
#[derive(Drop)]
pub struct StockLookup<'a, A: Allocator> {
    stocks: StockNames<'a, A>,
    // For each locate whether its last Stock Directory message has one of the names.
    found: Vec<bool, A>,
}

impl<'a, A: Allocator> Model for StockLookup<'a, A> {
    ghost use Rattle.std.specs.Prelude.{◌≡◌, length};
    ghost use Rattle.itch_commands.specs.Lookup.{Lookup};

    ghost Value = { Lookup };

    ghost view = { λ s. record { names = s.stocks.names; missing = s.stocks.missing; found = s.found.items } };

    ghost invariant = { λ s. length s.found.items ≡ 65536 };
}

impl<'a, A: Allocator + Copy> StockLookup<'a, A> {
    /// Creates a search for the stocks with these names, which are separated by commas, before any message. It allocates all its memory
    /// here: for the names, and a byte for each locate.
    pub fn new(alloc: A, names: &'a str) -> Result<Self, AllocError>
        ensures { IfOk result (λ s. s ≡ lookup (names_of names.now)) }
    {
        Ok(StockLookup {
            stocks: StockNames::new(alloc, names)?,
            found: none_found(alloc)?,
        })
    }
}

impl<A: Allocator> StockLookup<'_, A> {
    /// Returns whether a message is about one of the stocks.
    pub fn is_about_one(&self, message: &Message<'_>) -> bool
        ensures { result ≡ is_about_one self.now message.now }
    {
        match message {
            Message::StockDirectory(directory) => {
                let stock = directory.entry.stock;
                self.stocks.have(stock.text())
            }
            _ => match message.header() {
                Some(header) => self.has(header.locate),
                None => false,
            },
        }
    }

    /// Returns whether a locate has one of the stocks, according to the messages so far.
    #[inline(always)]
    pub fn has(&self, locate: u16) -> bool
        ensures { result ≡ is_found self.now locate }
    {
        self.found[usize::from(locate)]
    }

    /// Passes a message, after which its locate may have another stock.
    pub fn pass(&mut self, message: &Message<'_>)
        ensures { self.new ≡ lookup_after message.now self.old }
    {
        if let Message::StockDirectory(directory) = message {
            let stock = directory.entry.stock;
            self.found[usize::from(directory.header.locate)] = self.stocks.pass(stock.text());
        }
    }

    /// Returns whether each of the stocks has come.
    pub fn are_found(&self) -> bool
        ensures { result ≡ (length self.now.missing == 0) }
    {
        self.stocks.have_all_come()
    }
}

// Returns the table of locates before any of them has a stock.
fn none_found<A: Allocator>(alloc: A) -> Result<Vec<bool, A>, AllocError>
    ensures { IfOk result (λ found. found.items ≡ replicate 65536 false) }
{
    let found = vec![in alloc; false; 65536]?;
    Ok(found)
}
