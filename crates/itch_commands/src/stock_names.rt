//! The names of stocks in a search, and which of them have come.
ghost use Rattle.std.specs.Prelude.{◌≡◌, ◌==◌, ℕ, List, IfOk, Some, None, cond, map, length, bytes_eq, false};
ghost use Rattle.std.specs.List.{list_all, list_any};
ghost use Rattle.std.specs.HashMap.{get_by};
ghost use Rattle.itch_commands.specs.Lookup.{has_come, is_one_of, others};
ghost use Rattle.itch_commands.specs.Stocks.{names_of};

use std::alloc::{AllocError, Allocator};
use std::collections::HashMap;
use std::hash::{BuildHasherDefault, FoldHasher};
use std::marker::Model;

// For each name whether it has come.
type Arrivals<'a, A> = HashMap<&'a str, bool, BuildHasherDefault<FoldHasher>, A>;

/// The names of stocks in a search, and which of them have come. Each is found by its hash, so their number does not matter.
#[derive(Drop)]
pub struct StockNames<'a, A: Allocator> {
    names: Vec<&'a str, A>,
    come: Arrivals<'a, A>,
}

impl<'a, A: Allocator> Model for StockNames<'a, A> {
    ghost use Rattle.std.specs.Prelude.{◌≡◌, ℕ, List, is_some, map, not, bytes_eq};
    ghost use Rattle.std.specs.List.{filter, list_any};
    ghost use Rattle.std.specs.HashMap.{get_by};
    ghost use Rattle.itch_commands.specs.Lookup.{Names, has_come};

    ghost Value = { Names };

    ghost view = { λ s. record { names = map (λ n. n.now) s.names.items; missing = filter (λ name. not (has_come (get_by (λ k. bytes_eq name k.now) s.come))) (map (λ n. n.now) s.names.items) } };

    ghost invariant = { λ s. (name : List ℕ) → is_some (get_by (λ k. bytes_eq name k.now) s.come) ≡ list_any (λ n. bytes_eq name n.now) s.names.items };
}

impl<'a, A: Allocator + Copy> StockNames<'a, A> {
    /// Creates the names of a list, which are separated by commas; none has come yet. It allocates all its memory here.
    pub fn new(alloc: A, names: &'a str) -> Result<Self, AllocError>
        ensures { IfOk result (λ s. s ≡ record { names = names_of names.now; missing = names_of names.now }) }
    {
        let names = names_in(alloc, names)?;
        let come = none_come(alloc, &names)?;
        Ok(StockNames { names, come })
    }
}

impl<A: Allocator> StockNames<'_, A> {
    /// Returns whether a stock has one of the names.
    pub fn have(&self, stock: &str) -> bool
        ensures { result ≡ is_one_of self.now.names stock.now }
    {
        self.come.contains_key(stock)
    }

    /// Marks the name of a stock as come. Returns whether it is one of the names.
    pub fn pass(&mut self, stock: &str) -> bool
        ensures is { result ≡ is_one_of self.old.names stock.now }
        ensures passed { self.new ≡ record { names = self.old.names; missing = others self.old.missing stock.now } }
    {
        let Some(has_come) = self.come.get_mut(stock) else {
            return false;
        };
        *has_come = true;
        true
    }

    /// Returns whether all of them have come.
    pub fn have_all_come(&self) -> bool
        ensures { result ≡ (length self.now.missing == 0) }
    {
        all_come(&self.come, &self.names)
    }
}

// Returns whether all of these names have come.
fn all_come<A: Allocator>(come: &Arrivals<'_, A>, names: &[&str]) -> bool
    ensures { result ≡ list_all (λ name. has_come (get_by (λ k. bytes_eq name.now k.now) come.now)) names.now }
{
    names.iter().all(|name| has_come(come, name))
}

fn has_come<A: Allocator>(come: &Arrivals<'_, A>, name: &str) -> bool
    ensures { result ≡ has_come (get_by (λ k. bytes_eq name.now k.now) come.now) }
{
    match come.get(name) {
        Some(has_come) => *has_come,
        None => false,
    }
}

// Returns the names of a list.
fn names_in<'a, A: Allocator>(alloc: A, text: &'a str) -> Result<Vec<&'a str, A>, AllocError>
    ensures { IfOk result (λ names. map (λ n. n.now) names.items ≡ names_of text.now) }
{
    let mut names = Vec::new(alloc);
    let mut rest = text;
    while let Some((name, more)) = rest.split_once(',') {
        names.push(name)?;
        rest = more;
    }
    names.push(rest)?;
    Ok(names)
}

// Returns the names, none of which has come yet.
fn none_come<'a, A: Allocator + Copy>(
    alloc: A,
    names: &[&'a str],
) -> Result<Arrivals<'a, A>, AllocError>
    ensures { IfOk result (λ come. (name : List ℕ) → get_by (λ k. bytes_eq name k.now) come ≡ cond (list_any (λ n. bytes_eq name n.now) names.now) (Some false) None) }
{
    let mut come = HashMap::new(alloc);
    for name in names {
        come.insert(*name, false)?;
    }
    Ok(come)
}
