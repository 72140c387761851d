//! The price levels of one side, in one line per locate. The best price is last, where most changes occur.
ghost use Rattle.std.specs.Prelude.{◌≡◌, ℕ, ◌<◌, ◌≤◌, not, cond, eqb, length, None, Some, is_some, OnOk, OnErr};
ghost use Rattle.std.specs.List.{position_or_len};
ghost use Rattle.std.specs.BTreeMap.{is_at};
ghost use Rattle.itch_book.specs.Orders.{is_better, is_worse};
ghost use Rattle.itch_book.specs.Indexed.{place_cmp, IsNextOr};
ghost use Rattle.itch_book.specs.SideLevels.{as_lines, line_of, queue_in, places_from, IsRising};

use crate::priority::is_better;
use itch_codec::Side;
use std::alloc::{AllocError, Allocator};

/// A price, and the key of its queue.
#[derive(Clone, Copy, Drop)]
pub(crate) struct Level {
    pub(crate) price: u32,
    pub(crate) queue: usize,
}

// Returns the number of levels that are worse than a price.
fn place_of(levels: &[Level], side: Side, price: u32) -> usize
    requires { IsRising side levels.now }
    ensures place { result ≡ position_or_len (λ x. not (is_better side price x.price)) levels.now }
    ensures within { result ≤ length levels.now }
{
    levels.partition_point(|level| is_better(side, price, level.price))
}

// Returns the number of levels that are worse than the last price, if there is one.
fn end_of(levels: &[Level], side: Side, last: Option<u32>) -> usize
    requires { IsRising side levels.now }
    ensures end { result ≡ position_or_len (λ x. not (is_worse side last x.price)) levels.now }
    ensures within { result ≤ length levels.now }
{
    match last {
        None => levels.len(),
        Some(last) => place_of(levels, side, last),
    }
}

/// Returns the queue at a price.
pub(crate) fn queue_in(levels: &[Level], side: Side, price: u32) -> Option<usize>
    requires { IsRising side levels.now }
    ensures { result ≡ queue_in levels.now price }
{
    let level = levels.get(place_of(levels, side, price))?;
    if level.price == price {
        Some(level.queue)
    } else {
        None
    }
}

/// Returns the best price, or the best one worse than the last, and its queue.
pub(crate) fn next_in(levels: &[Level], side: Side, last: Option<u32>) -> Option<(u32, usize)>
    requires { IsRising side levels.now }
    ensures { IsNextOr (queue_in levels.now) side last result }
{
    let end = end_of(levels, side, last);
    if end == 0 {
        return None;
    }
    let place = end - 1;
    let level = &levels[place];
    Some((level.price, level.queue))
}

// Inserts a level at a price without a level. If the allocation fails, nothing changes.
fn put_in<A: Allocator>(
    levels: &mut Vec<Level, A>,
    side: Side,
    level: Level,
) -> Result<(), AllocError>
    requires rising { IsRising side levels.old.items }
    requires new_price { queue_in levels.old.items level.price ≡ None }
    ensures rising { IsRising side levels.new.items }
    ensures ok { OnOk result ((p : ℕ) → queue_in levels.new.items p ≡ cond (eqb level.price p) (Some level.queue) (queue_in levels.old.items p)) }
    ensures err { OnErr result (levels.new.items ≡ levels.old.items) }
{
    let place = place_of(levels, side, level.price);
    levels.insert(place, level)?;
    Ok(())
}

// Removes the level at a price. Returns whether there was one.
fn cut_from<A: Allocator>(levels: &mut Vec<Level, A>, side: Side, price: u32) -> bool
    requires { IsRising side levels.old.items }
    ensures rising { IsRising side levels.new.items }
    ensures cut { (p : ℕ) → queue_in levels.new.items p ≡ cond (eqb price p) None (queue_in levels.old.items p) }
    ensures had { result ≡ is_some (queue_in levels.old.items price) }
{
    let place = place_of(levels, side, price);
    let Some(level) = levels.get(place) else {
        return false;
    };
    if level.price != price {
        return false;
    }
    levels.remove(place);
    true
}

/// Returns the line of a locate.
pub(crate) fn line_of<A: Allocator>(lines: &[Vec<Level, A>], locate: u16) -> &[Level]
    ensures { result.now ≡ line_of (as_lines lines.now) locate }
{
    match lines.get(locate as usize) {
        Some(levels) => levels.as_slice(),
        None => &[],
    }
}

/// Extends the lines up to a locate. If an allocation fails, no level changes.
pub(crate) fn reach<A: Allocator + Copy>(
    lines: &mut Vec<Vec<Level, A>, A>,
    locate: u16,
) -> Result<(), AllocError>
    ensures lines { (l : ℕ) → line_of (as_lines lines.new.items) l ≡ line_of (as_lines lines.old.items) l }
    ensures places { places_from 0 (as_lines lines.new.items) ≡ places_from 0 (as_lines lines.old.items) }
    ensures ok { OnOk result (locate < length lines.new.items) }
{
    let alloc = *lines.allocator();
    for _more in lines.len()..locate as usize + 1 {
        lines.push(Vec::new(alloc))?;
    }
    Ok(())
}

/// Inserts a level at a price without a level. If the allocation fails, nothing changes.
pub(crate) fn put_in_line<A: Allocator>(
    lines: &mut Vec<Vec<Level, A>, A>,
    side: Side,
    locate: u16,
    level: Level,
) -> Result<(), AllocError>
    requires reached { locate < length lines.old.items }
    requires rising { (l : ℕ) → IsRising side (line_of (as_lines lines.old.items) l) }
    requires new_price { queue_in (line_of (as_lines lines.old.items) locate) level.price ≡ None }
    ensures rising { (l : ℕ) → IsRising side (line_of (as_lines lines.new.items) l) }
    ensures ok { OnOk result ((l p : ℕ) → queue_in (line_of (as_lines lines.new.items) l) p ≡ cond (is_at (place_cmp (locate, level.price)) (l, p)) (Some level.queue) (queue_in (line_of (as_lines lines.old.items) l) p)) }
    ensures err { OnErr result (as_lines lines.new.items ≡ as_lines lines.old.items) }
{
    put_in(&mut lines[locate as usize], side, level)
}

/// Removes the level at a price. Returns whether there was one.
pub(crate) fn cut_from_line<A: Allocator>(
    lines: &mut Vec<Vec<Level, A>, A>,
    side: Side,
    locate: u16,
    price: u32,
) -> bool
    requires { (l : ℕ) → IsRising side (line_of (as_lines lines.old.items) l) }
    ensures rising { (l : ℕ) → IsRising side (line_of (as_lines lines.new.items) l) }
    ensures cut { (l p : ℕ) → queue_in (line_of (as_lines lines.new.items) l) p ≡ cond (is_at (place_cmp (locate, price)) (l, p)) None (queue_in (line_of (as_lines lines.old.items) l) p) }
    ensures had { result ≡ is_some (queue_in (line_of (as_lines lines.old.items) locate) price) }
{
    if (locate as usize) < lines.len() {
        return cut_from(&mut lines[locate as usize], side, price);
    }
    false
}
