//! `canon`: writes a snapshot in canonical form.
ghost use Rattle.std.specs.Prelude.{◌≡◌, true, false};
ghost use Rattle.itch_commands.specs.Canons.{ChecksSnap, canonical_line};
ghost use Rattle.itch_commands.specs.Commands.{ChecksCanon, WritesCanon};
ghost use Rattle.itch_commands.specs.Outputs.{WritesOutput};
ghost use Rattle.itch_commands.specs.Readings.{FromBlocks, FromReader};

mod canonical;
mod copying;

use crate::fault::{Source, ToolFault};
use crate::kind::snapshot_market;
use crate::order_book::Book;
use crate::writing::{write_closed, write_text};
use canonical::is_closed;
use copying::{copy_snapshot, read_end};
use itch_book::OrderBook;
use itch_codec::Seq;
use itch_frame::{BlockReader, CountedRead, CountedWrite};
use itch_market::Market;
use itch_snapshot::SnapshotReader;
use std::alloc::Allocator;

/// Writes a snapshot file in canonical form: the canonical bytes of its market, and an End of Snapshot with the file's number.
///
/// With `check` it only reports whether the file is already in this form: if the file's bytes are exactly these, it writes `canonical` and
/// returns true; otherwise, also for a file with an empty block at its end, it writes `not canonical` and returns false. For this it holds
/// the bytes of the file up to its End of Snapshot.
pub fn canon<R: CountedRead + Drop, A: Allocator + Copy, W: CountedWrite>(
    alloc: A,
    reader: R,
    check: bool,
    out: &mut W,
) -> Result<bool, ToolFault>
    ensures writes { check ≡ false → WritesCanon R.remaining R.failures W.contents W.failures (FromReader reader) out.old result out.new }
    ensures checks { check ≡ true → ChecksCanon R.remaining R.failures W.contents W.failures (FromReader reader) out.old result out.new }
{
    let mut reader = BlockReader::new(alloc, reader)?;
    canon_blocks::<_, _, Book<A>, _>(alloc, &mut reader, check, out)
}

/// Does the same over a reader of blocks, which is left where the reading ended.
pub fn canon_blocks<R: CountedRead, A: Allocator, B: OrderBook, W: CountedWrite>(
    alloc: B::Alloc,
    reader: &mut BlockReader<R, A>,
    check: bool,
    out: &mut W,
) -> Result<bool, ToolFault>
    ensures writes { check ≡ false → WritesCanon R.remaining R.failures W.contents W.failures (FromBlocks reader.old reader.new) out.old result out.new }
    ensures checks { check ≡ true → ChecksCanon R.remaining R.failures W.contents W.failures (FromBlocks reader.old reader.new) out.old result out.new }
{
    if check {
        return check_canon::<R, A, B, W>(alloc, reader, out);
    }
    write_canon::<R, A, B, W>(alloc, reader, out)
}

fn write_canon<R: CountedRead, A: Allocator, B: OrderBook, W: CountedWrite>(
    alloc: B::Alloc,
    reader: &mut BlockReader<R, A>,
    out: &mut W,
) -> Result<bool, ToolFault>
    ensures { WritesCanon R.remaining R.failures W.contents W.failures (FromBlocks reader.old reader.new) out.old result out.new }
{
    let (market, next): (Market<B>, Seq) = snapshot_market(alloc, reader, Source::Only)?;
    write_closed(&market, next, out)
}

fn check_canon<R: CountedRead, A: Allocator, B: OrderBook, W: CountedWrite>(
    alloc: B::Alloc,
    reader: &mut BlockReader<R, A>,
    out: &mut W,
) -> Result<bool, ToolFault>
    ensures { ChecksCanon R.remaining R.failures W.contents W.failures (FromBlocks reader.old reader.new) out.old result out.new }
{
    let canonical = is_canonical::<R, A, B>(alloc, reader)?;
    write_verdict(canonical, out)
}

// Returns whether all of a snapshot file's bytes are the canonical bytes of its market and the closing block of its number.
fn is_canonical<R: CountedRead, A: Allocator, B: OrderBook>(
    alloc: B::Alloc,
    reader: &mut BlockReader<R, A>,
) -> Result<bool, ToolFault>
    ensures { ChecksSnap R.remaining R.failures reader.old reader.new result }
{
    let mut loader: SnapshotReader<B> = SnapshotReader::new(alloc);
    let mut copy = Vec::new(alloc);
    let next = copy_snapshot(reader, &mut loader, &mut copy)?;
    if !read_end(reader)? {
        return Ok(false);
    }
    loader.settle_market();
    Ok(is_closed(copy.as_slice(), loader.market(), next))
}

fn write_verdict<W: CountedWrite>(canonical: bool, out: &mut W) -> Result<bool, ToolFault>
    ensures { WritesOutput W.contents W.failures (canonical_line canonical) canonical out.old result out.new }
{
    let line = match canonical {
        true => "canonical\n",
        false => "not canonical\n",
    };
    write_text(line.as_bytes(), out)?;
    Ok(canonical)
}
