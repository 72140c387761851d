//! The locates whose books are kept apart.
ghost use Rattle.std.specs.Prelude.{◌≡◌, Some};
ghost use Rattle.std.specs.Option.{option_copied};
ghost use Rattle.itch_commands.specs.Stocks.{names_of};
ghost use Rattle.itch_depth.specs.Own.{Fits, are_none, has_name, is_own, none_apart};

use itch_codec::StockDirectory;
use itch_commands::Selection;
use itch_market::LocateSet;
use std::alloc::Allocator;
use std::marker::Model;

/// The locates whose books are kept apart from those of the whole market: those whose stock has one of these names, which are separated by
/// commas, or else those of the set. None, if there is neither.
#[derive(Drop)]
pub struct OwnLocates<'a, A: Allocator> {
    names: Option<&'a str>,
    set: Option<&'a LocateSet<A>>,
}

impl<'a, A: Allocator> Model for OwnLocates<'a, A> {
    ghost use Rattle.std.specs.Option.{option_copied};
    ghost use Rattle.itch_depth.specs.Own.{Apart};

    ghost Value = { Apart };

    ghost view = { λ s. record { names = option_copied s.names; set = option_copied s.set } };
}

impl<'a, A: Allocator> OwnLocates<'a, A> {
    /// Returns no locates.
    pub fn none() -> OwnLocates<'a, A>
        ensures { result ≡ none_apart }
    {
        OwnLocates {
            names: None,
            set: None,
        }
    }

    /// Returns the selected locates, or none if all are selected.
    pub fn of(selection: Selection<'a>, only: Option<&'a LocateSet<A>>) -> OwnLocates<'a, A>
        ensures { Fits result selection.entry (option_copied only.entry) }
    {
        match selection {
            Selection::Stocks(names) => OwnLocates {
                names: Some(names),
                set: None,
            },
            Selection::All | Selection::Locates(_) => OwnLocates {
                names: None,
                set: only,
            },
        }
    }

    /// Returns whether no books are kept apart.
    pub fn are_none(&self) -> bool
        ensures { result ≡ are_none self.now }
    {
        self.names.is_none() && self.set.is_none()
    }

    /// Returns whether an entry of the directory has one of these locates or stocks.
    pub fn have(&self, x: &StockDirectory) -> bool
        ensures { result ≡ is_own self.now x.now.header.locate (Some x.now.entry.stock) }
    {
        match (self.names, self.set) {
            (Some(names), _) => has_name(names, x.entry.stock.text()),
            (None, Some(set)) => set.contains(x.header.locate),
            (None, None) => false,
        }
    }
}

// Returns whether a stock has one of these names, which are separated by commas.
fn has_name(names: &str, stock: &str) -> bool
    ensures { result ≡ has_name (names_of names.now) stock.now }
{
    let mut rest = names;
    while let Some((name, more)) = rest.split_once(',') {
        if stock == name {
            return true;
        }
        rest = more;
    }
    stock == rest
}
