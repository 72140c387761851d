//! Text, and the snapshot of a market, on the output of a session.
ghost use Rattle.std.specs.Prelude.{◌<◌, ◌^◌, ◌++◌, length, true};
ghost use Rattle.itch_snapshot.specs.Bytes.{canon, closing};
ghost use Rattle.itch_snapshot.specs.Snapshot.{snap};
ghost use Rattle.itch_sessions.specs.Outputs.{WritesOutput, WritesText};

use crate::session_fault::SessionFault;
use itch_book::OrderBook;
use itch_codec::Seq;
use itch_frame::{CountedWrite, FrameFault, write_part};
use itch_market::Market;
use itch_snapshot::write_snapshot_of;

/// Writes the snapshot of a market, closed with this number.
///
/// # Errors
///
/// [`SessionFault::Write`] if the output fails.
pub fn write_closed<B: OrderBook, W: CountedWrite>(
    market: &Market<B>,
    next: Seq,
    out: &mut W,
) -> Result<bool, SessionFault>
    requires { length (snap market.now) < 10 ^ 19 }
    ensures { WritesOutput W.contents W.failures (canon market.now ++ closing next) true out.old result out.new }
{
    match write_snapshot_of(market, None, next, out) {
        Ok(_) => Ok(true),
        Err(FrameFault::Write { error, .. }) => Err(SessionFault::Write(error)),
        Err(_) => unreachable!(),
    }
}

/// Writes a text as it is.
///
/// # Errors
///
/// [`SessionFault::Write`] if the output fails.
pub fn write_text<W: CountedWrite>(text: &[u8], out: &mut W) -> Result<(), SessionFault>
    requires { length text.now < 65538 }
    ensures { WritesText W.contents W.failures text.now out.old result out.new }
{
    match write_part(out, text, 0) {
        Ok(()) => Ok(()),
        Err(FrameFault::Write { error, .. }) => Err(SessionFault::Write(error)),
        Err(_) => unreachable!(),
    }
}
