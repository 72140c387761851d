//! Writes text, and the snapshot of a market, to the output.
ghost use Rattle.std.specs.Prelude.{◌<◌, ◌^◌, ◌++◌, length, true};
ghost use Rattle.itch_snapshot.specs.Bytes.{canon, closing};
ghost use Rattle.itch_snapshot.specs.Cursor.{cut_to};
ghost use Rattle.itch_snapshot.specs.Snapshot.{snap as snapshot_list};
ghost use Rattle.itch_commands.specs.Outputs.{WritesText, WritesOutput};

use crate::fault::ToolFault;
use itch_book::OrderBook;
use itch_codec::Seq;
use itch_frame::{CountedWrite, FrameFault, write_part};
use itch_market::{LocateSet, Market};
use itch_snapshot::write_snapshot_of;

/// Writes the snapshot of a market, closed with this number.
pub fn write_closed<B: OrderBook, W: CountedWrite>(
    market: &Market<B>,
    next: Seq,
    out: &mut W,
) -> Result<bool, ToolFault>
    requires { length (snapshot_list market.now) < 10 ^ 19 }
    ensures { WritesOutput W.contents W.failures (canon market.now ++ closing next) true out.old result out.new }
{
    write_closed_of(market, None, next, out)
}

/// Does the same for the market restricted to the locates of a set if there is one.
pub fn write_closed_of<'a, B: OrderBook, W: CountedWrite>(
    market: &'a Market<B>,
    set: Option<&'a LocateSet<B::Alloc>>,
    next: Seq,
    out: &mut W,
) -> Result<bool, ToolFault>
    requires { length (snapshot_list (cut_to set market.now)) < 10 ^ 19 }
    ensures { WritesOutput W.contents W.failures (canon (cut_to set.entry market.now) ++ closing next) true out.old result out.new }
{
    match write_snapshot_of(market, set, next, out) {
        Ok(_) => Ok(true),
        Err(FrameFault::Write { error, .. }) => Err(ToolFault::Write(error)),
        Err(_) => unreachable!(),
    }
}

/// Writes a text as it is.
pub fn write_text<W: CountedWrite>(text: &[u8], out: &mut W) -> Result<(), ToolFault>
    requires { length text.now < 65538 }
    ensures { WritesText W.contents W.failures text.now out.old result out.new }
{
    match write_part(out, text, 0) {
        Ok(()) => Ok(()),
        Err(FrameFault::Write { error, .. }) => Err(ToolFault::Write(error)),
        Err(_) => unreachable!(),
    }
}
