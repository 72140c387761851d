//! A feed joined to a snapshot, for the locates of some stocks.
ghost use Rattle.std.specs.Prelude.{◌≡◌, None};
ghost use Rattle.itch_codec.specs.Widths.{IsSequence};
ghost use Rattle.itch_market.specs.Wanted.{has};
ghost use Rattle.itch_join.specs.Positions.{Position};
ghost use Rattle.itch_join.specs.States.{new as fresh};
ghost use Rattle.itch_snapshot.specs.AsRead.{as_read, read_by};
ghost use Rattle.itch_commands.specs.Commands.{JoinsStocks};
ghost use Rattle.itch_join.specs.Takings.{IsJoined, position_of};
ghost use Rattle.itch_commands.specs.Joiners.{WritesStocks};
ghost use Rattle.itch_commands.specs.Readings.{FromBlocks};
ghost use Rattle.itch_commands.specs.Stocks.{names_of};

use crate::fault::ToolFault;
use crate::feed_part::FeedPart;
use crate::join::feed::read_feed;
use crate::join::new_joiner;
use crate::join::start::read_start;
use crate::stocks::stock_locates;
use crate::writing::write_closed_of;
use itch_book::OrderBook;
use itch_codec::{MOST_MESSAGES, Seq};
use itch_frame::{BlockReader, CountedRead, CountedWrite};
use itch_join::Joiner;
use itch_snapshot::snapshot_len;
use std::alloc::Allocator;

/// Joins all of a part of a feed to the whole snapshot, and writes the output of [`join_blocks`](crate::join::join_blocks), restricted to
/// the locates that have one of these stocks, according to the final directory. The names are separated by commas.
///
/// So each message of both must follow the rules, while `join_blocks` skips some for a set.
///
/// # Faults
///
/// Those of `join_blocks`, and `UnknownStock` if the directory has no entry with the stock of a name: then nothing is written.
pub fn join_stocks<
    R: CountedRead,
    S: CountedRead,
    A: Allocator,
    C: Allocator,
    B: OrderBook,
    W: CountedWrite,
>(
    alloc: B::Alloc,
    snapshot: &mut BlockReader<R, A>,
    feed: &mut BlockReader<S, C>,
    part: FeedPart,
    names: &str,
    out: &mut W,
) -> Result<bool, ToolFault>
    ensures { JoinsStocks R.remaining R.failures S.remaining S.failures W.contents W.failures (read_by None) part (names_of names.now) (FromBlocks snapshot.old snapshot.new)
        (FromBlocks feed.old feed.new) out.old result out.new }
{
    let mut joiner: Joiner<B> = new_joiner(alloc, None);
    join_with(alloc, &mut joiner, snapshot, feed, part, names, out)
}

// Does the same with a joiner that has taken nothing.
fn join_with<
    R: CountedRead,
    S: CountedRead,
    B: Allocator,
    C: Allocator,
    D: OrderBook,
    W: CountedWrite,
>(
    alloc: D::Alloc,
    joiner: &mut Joiner<D>,
    snapshot: &mut BlockReader<R, B>,
    feed: &mut BlockReader<S, C>,
    part: FeedPart,
    names: &str,
    out: &mut W,
) -> Result<bool, ToolFault>
    requires { joiner.old.state ≡ fresh }
    ensures { JoinsStocks R.remaining R.failures S.remaining S.failures W.contents W.failures (as_read (has joiner.old.set)) part (names_of names.now) (FromBlocks snapshot.old snapshot.new)
        (FromBlocks feed.old feed.new) out.old result out.new }
{
    read_start(snapshot, joiner)?;
    read_feed(feed, joiner, part)?;
    joiner.settle_market();
    write_stocks(alloc, joiner, names, out)
}

// Writes the snapshot of a joiner's market, if it is one, restricted to the locates of these stocks.
fn write_stocks<B: OrderBook, W: CountedWrite>(
    alloc: B::Alloc,
    joiner: &Joiner<B>,
    names: &str,
    out: &mut W,
) -> Result<bool, ToolFault>
    requires joined { IsJoined joiner.now.state }
    requires number { IsSequence (Position.next (position_of joiner.now.state)) }
    ensures { WritesStocks W.contents W.failures (names_of names.now) (position_of joiner.now.state) out.old result out.new }
{
    let market = joiner.market().unwrap();
    if snapshot_len(market) > u128::from(MOST_MESSAGES) {
        return Err(ToolFault::TooMany);
    }
    let next = Seq::new(joiner.next().unwrap()).unwrap();
    let set = stock_locates(alloc, market, names)?;
    write_closed_of(market, Some(&set), next, out)
}
