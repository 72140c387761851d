//! Price levels in a tree, ordered by locate and price.
ghost use Rattle.std.specs.Prelude.{◌≡◌, Some, None, option_map};
ghost use Rattle.std.specs.Map.Iter.{deref_pair};
ghost use Rattle.itch_codec.specs.declared.orders.Side.TheVariants.{Buy, Sell};
ghost use Rattle.itch_book.specs.Indexed.{queue_at, IsNextOr, level_entry};

use itch_codec::Side;
use std::alloc::Allocator;
use std::collections::BTreeMap;
use std::ops::Bound;

/// The queue of each locate and price.
pub(crate) type Places<A> = BTreeMap<(u16, u32), usize, A>;

// Returns the price of an entry, and its queue.
fn level_of(entry: Option<(&(u16, u32), &usize)>) -> Option<(u32, usize)>
    ensures { result ≡ option_map level_entry (option_map deref_pair entry.entry) }
{
    let (place, queue) = entry?;
    Some((place.1, *queue))
}

// Returns the highest price of a locate below the last, and its queue.
fn highest<A: Allocator>(places: &Places<A>, locate: u16, last: Option<u32>) -> Option<(u32, usize)>
    ensures { IsNextOr (queue_at places.now.entries locate) Buy last result }
{
    let lowest = Bound::Included((locate, 0));
    match last {
        None => level_of(
            places
                .range((lowest, Bound::Included((locate, u32::MAX))))
                .next_back(),
        ),
        Some(last) => level_of(
            places
                .range((lowest, Bound::Excluded((locate, last))))
                .next_back(),
        ),
    }
}

// Returns the lowest price of a locate above the last, and its queue.
fn lowest<A: Allocator>(places: &Places<A>, locate: u16, last: Option<u32>) -> Option<(u32, usize)>
    ensures { IsNextOr (queue_at places.now.entries locate) Sell last result }
{
    let highest = Bound::Included((locate, u32::MAX));
    match last {
        None => level_of(places.range((Bound::Included((locate, 0)), highest)).next()),
        Some(last) => level_of(
            places
                .range((Bound::Excluded((locate, last)), highest))
                .next(),
        ),
    }
}

/// Returns the best price of a locate, or the best one worse than the last, and its queue.
pub(crate) fn next_in_tree<A: Allocator>(
    places: &Places<A>,
    side: Side,
    locate: u16,
    last: Option<u32>,
) -> Option<(u32, usize)>
    ensures { IsNextOr (queue_at places.now.entries locate) side last result }
{
    match side {
        Side::Buy => highest(places, locate, last),
        Side::Sell => lowest(places, locate, last),
    }
}
