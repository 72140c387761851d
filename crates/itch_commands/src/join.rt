//! `join`: joins a feed to a snapshot.
ghost use Rattle.std.specs.Prelude.{◌≡◌};
ghost use Rattle.itch_codec.specs.Widths.{IsSequence};
ghost use Rattle.itch_market.specs.Wanted.{has};
ghost use Rattle.itch_join.specs.Positions.{Position};
ghost use Rattle.itch_join.specs.States.{new as fresh};
ghost use Rattle.itch_snapshot.specs.AsRead.{as_read, read_by};
ghost use Rattle.itch_commands.specs.Commands.{Joins};
ghost use Rattle.itch_commands.specs.FeedParts.{whole};
ghost use Rattle.itch_join.specs.Takings.{IsJoined, position_of};
ghost use Rattle.itch_commands.specs.Joiners.{WritesRoom};
ghost use Rattle.itch_commands.specs.Readings.{FromBlocks, FromReader};

mod feed;
mod start;
mod stocks;

use crate::fault::ToolFault;
use crate::feed_part::FeedPart;
use crate::order_book::Book;
use crate::writing::write_closed;
use feed::read_feed;
use itch_book::OrderBook;
use itch_codec::{MOST_MESSAGES, Seq};
use itch_frame::{BlockReader, CountedRead, CountedWrite};
use itch_join::Joiner;
use itch_market::LocateSet;
use itch_snapshot::snapshot_len;
use start::read_start;
use std::alloc::Allocator;
pub use stocks::join_stocks;

/// Joins a feed to a snapshot, and writes the snapshot after both: the canonical bytes of the market after the snapshot's messages and the
/// feed's from the snapshot's number on, and an End of Snapshot with the number of the first message that it does not contain.
///
/// The snapshot is read up to its End of Snapshot, before any of the feed. The feed's messages are numbered from 1, and those below the
/// snapshot's number may be anything. If the feed ends before that number, the snapshot is the result.
///
/// With a set, messages at locates that it does not contain are decoded, in both files, but no rule is applied to them and they change
/// nothing: the output is the snapshot restricted to the set.
///
/// # Faults
///
/// `Snap` for the snapshot; `Stopped` for the feed, with the number of messages before the stop. In both, out of memory at a message is the
/// rule `OutOfMemory`. `TooMany` if the market has more than 10^19 - 1 messages. `OutOfMemory` if there is no memory for a block of each
/// file.
pub fn join<R: CountedRead + Drop, S: CountedRead + Drop, A: Allocator + Copy, W: CountedWrite>(
    alloc: A,
    snapshot: R,
    feed: S,
    only: Option<LocateSet<A>>,
    out: &mut W,
) -> Result<bool, ToolFault>
    ensures { Joins R.remaining R.failures S.remaining S.failures W.contents W.failures (read_by only) whole (FromReader snapshot) (FromReader feed) out.old result out.new }
{
    let mut snapshot = BlockReader::new(alloc, snapshot)?;
    let mut feed = BlockReader::new(alloc, feed)?;
    join_blocks::<_, _, _, _, Book<A>, _>(
        alloc,
        &mut snapshot,
        &mut feed,
        FeedPart::whole(),
        only,
        out,
    )
}

/// Does the same over readers of blocks, which are left where the reading ended: that of the snapshot after its End of Snapshot. If the
/// snapshot is refused, nothing is read of the feed.
///
/// The feed may begin later in its day, and the join may end before the feed does: a [`FeedPart`] gives the number of messages of the day
/// before the feed's first one, and the messages of the day that the resulting snapshot has. All numbers are those of the day.
///
/// # Faults
///
/// Those of `join`. `FeedMismatch` if the snapshot and the part do not match: before anything is read of the feed if the numbers alone decide it,
/// and otherwise at a message of the feed that the snapshot contains although it is at the end time of the join, or later. `Short`, with
/// the number of the day's last message, if the feed ends before as many messages as requested.
pub fn join_blocks<
    R: CountedRead,
    S: CountedRead,
    A: Allocator,
    C: Allocator,
    B: OrderBook,
    W: CountedWrite,
>(
    alloc: B::Alloc,
    snapshot: &mut BlockReader<R, A>,
    feed: &mut BlockReader<S, C>,
    part: FeedPart,
    only: Option<LocateSet<B::Alloc>>,
    out: &mut W,
) -> Result<bool, ToolFault>
    ensures { Joins R.remaining R.failures S.remaining S.failures W.contents W.failures (read_by only) part (FromBlocks snapshot.old snapshot.new) (FromBlocks feed.old feed.new)
        out.old result out.new }
{
    let mut joiner: Joiner<B> = new_joiner(alloc, only);
    join_with(&mut joiner, snapshot, feed, part, out)
}

// Creates a joiner without room for waiting messages.
fn new_joiner<B: OrderBook>(alloc: B::Alloc, only: Option<LocateSet<B::Alloc>>) -> Joiner<B>
    ensures state { result.state ≡ fresh }
    ensures read { as_read (has result.set) ≡ read_by only }
{
    match only {
        Some(set) => Joiner::only(alloc, 0, set),
        None => Joiner::new(alloc, 0),
    }
}

// Does the same with a joiner that has taken nothing.
fn join_with<
    R: CountedRead,
    S: CountedRead,
    B: Allocator,
    C: Allocator,
    D: OrderBook,
    W: CountedWrite,
>(
    joiner: &mut Joiner<D>,
    snapshot: &mut BlockReader<R, B>,
    feed: &mut BlockReader<S, C>,
    part: FeedPart,
    out: &mut W,
) -> Result<bool, ToolFault>
    requires { joiner.old.state ≡ fresh }
    ensures { Joins R.remaining R.failures S.remaining S.failures W.contents W.failures (as_read (has joiner.old.set)) part (FromBlocks snapshot.old snapshot.new)
        (FromBlocks feed.old feed.new) out.old result out.new }
{
    read_start(snapshot, joiner)?;
    read_feed(feed, joiner, part)?;
    joiner.settle_market();
    write_joined(joiner, out)
}

// Writes the snapshot of a joiner's market, if it is one.
fn write_joined<B: OrderBook, W: CountedWrite>(
    joiner: &Joiner<B>,
    out: &mut W,
) -> Result<bool, ToolFault>
    requires joined { IsJoined joiner.now.state }
    requires number { IsSequence (Position.next (position_of joiner.now.state)) }
    ensures { WritesRoom W.contents W.failures (position_of joiner.now.state) out.old result out.new }
{
    let market = joiner.market().unwrap();
    if snapshot_len(market) > u128::from(MOST_MESSAGES) {
        return Err(ToolFault::TooMany);
    }
    let next = Seq::new(joiner.next().unwrap()).unwrap();
    write_closed(market, next, out)
}
