//! The queues of one side's price levels: most are in lines, and those whose line was full are in a tree.
ghost use Rattle.std.specs.Prelude.{◌≡◌, ℕ, [], Some, None, cond, OnOk, OnErr};
ghost use Rattle.std.specs.BTreeMap.{is_at};
ghost use Rattle.itch_book.specs.Indexed.{place_cmp, IsNextOr};
ghost use Rattle.itch_book.specs.SideLevels.{queue_on, levels_on, better_of, IsSideLevels};

use crate::level_lines::{Level, cut_from_line, line_of, next_in, put_in_line, queue_in, reach};
use crate::priority::is_better;
use crate::tree::{Places, next_in_tree};
use itch_codec::Side;
use std::alloc::{AllocError, Allocator, Global};
use std::collections::BTreeMap;

// The maximum number of levels of a line: moving all of them takes about as long as a search in the tree.
const LINE: usize = 256;

/// The queue of each locate and price of a side.
#[derive(Drop)]
pub(crate) struct SideLevels<A: Allocator = Global> {
    // The levels of each locate, with the best level last.
    pub(crate) lines: Vec<Vec<Level, A>, A>,
    // The levels whose line was full.
    pub(crate) overflow: Places<A>,
}

/// Returns the levels of a side without prices.
pub(crate) fn no_levels<A: Allocator + Copy>(side: Side, alloc: A) -> SideLevels<A>
    ensures levels { levels_on result ≡ [] }
    ensures side_levels { IsSideLevels side result }
{
    SideLevels {
        lines: Vec::new(alloc),
        overflow: BTreeMap::new(alloc),
    }
}

/// Returns the queue at a place.
pub(crate) fn queue_on<A: Allocator>(
    side_levels: &SideLevels<A>,
    side: Side,
    locate: u16,
    price: u32,
) -> Option<usize>
    requires { IsSideLevels side side_levels.now }
    ensures { result ≡ queue_on side_levels.now locate price }
{
    let queue = queue_in(line_of(&side_levels.lines, locate), side, price);
    if queue.is_some() || side_levels.overflow.is_empty() {
        return queue;
    }
    side_levels.overflow.get(&(locate, price)).copied()
}

// Returns the better of two levels, if there are two.
fn better_of(
    side: Side,
    one: Option<(u32, usize)>,
    other: Option<(u32, usize)>,
) -> Option<(u32, usize)>
    ensures { result ≡ better_of side one other }
{
    match (one, other) {
        (None, level) => level,
        (level, None) => level,
        (Some(one), Some(other)) => {
            if is_better(side, other.0, one.0) {
                Some(other)
            } else {
                Some(one)
            }
        }
    }
}

/// Returns the best price of a locate, or the best one worse than the last, and its queue.
pub(crate) fn next_on<A: Allocator>(
    side_levels: &SideLevels<A>,
    side: Side,
    locate: u16,
    last: Option<u32>,
) -> Option<(u32, usize)>
    requires { IsSideLevels side side_levels.now }
    ensures { IsNextOr (queue_on side_levels.now locate) side last result }
{
    let in_line = next_in(line_of(&side_levels.lines, locate), side, last);
    if side_levels.overflow.is_empty() {
        return in_line;
    }
    better_of(
        side,
        in_line,
        next_in_tree(&side_levels.overflow, side, locate, last),
    )
}

/// Puts a queue at a place without a queue. If an allocation fails, no level changes.
pub(crate) fn put_on<A: Allocator + Copy>(
    side_levels: &mut SideLevels<A>,
    side: Side,
    locate: u16,
    level: Level,
) -> Result<(), AllocError>
    requires side_levels { IsSideLevels side side_levels.old }
    requires new_price { queue_on side_levels.old locate level.price ≡ None }
    ensures side_levels { IsSideLevels side side_levels.new }
    ensures ok { OnOk result ((l p : ℕ) → queue_on side_levels.new l p ≡ cond (is_at (place_cmp (locate, level.price)) (l, p)) (Some level.queue) (queue_on side_levels.old l p)) }
    ensures err { OnErr result (levels_on side_levels.new ≡ levels_on side_levels.old) }
{
    reach(&mut side_levels.lines, locate)?;
    if side_levels.lines[locate as usize].len() < LINE {
        return put_in_line(&mut side_levels.lines, side, locate, level);
    }
    match side_levels
        .overflow
        .insert((locate, level.price), level.queue)
    {
        Ok(_) => Ok(()),
        Err(_) => Err(AllocError),
    }
}

/// Removes the queue from a place.
pub(crate) fn cut_on<A: Allocator + Copy>(
    side_levels: &mut SideLevels<A>,
    side: Side,
    locate: u16,
    price: u32,
)
    requires { IsSideLevels side side_levels.old }
    ensures side_levels { IsSideLevels side side_levels.new }
    ensures cut { (l p : ℕ) → queue_on side_levels.new l p ≡ cond (is_at (place_cmp (locate, price)) (l, p)) None (queue_on side_levels.old l p) }
{
    if !cut_from_line(&mut side_levels.lines, side, locate, price) {
        side_levels.overflow.remove(&(locate, price));
    }
}
