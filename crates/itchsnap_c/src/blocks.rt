//! Applies blocks of a day file to a market in C's handle.
ghost use Rattle.std.specs.Prelude.{◌≡◌};
ghost use Rattle.itchsnap_c.specs.Blocks.{AppliesBlocks, applied, unapplied};
ghost use Rattle.itchsnap_c.specs.Objects.{OnHandle, AtMarket};

use crate::answers::{Answer, Applied};
use crate::codes::{OUT_OF_MEMORY, WRONG_HANDLE, stop_answer};
use crate::handle::Handle;
use crate::object::{HandleBook, Object};
use crate::slice::SliceReader;
use itch_frame::BlockReader;
use itch_market::{Market, replay};
use std::alloc::Global;

/// Applies the messages of blocks to a market, in order, up to the first that is not taken; an empty block ends them.
///
/// The blocks may be a piece of a day file: if it ends inside a block, the answer is that of an unfinished block and `detail` counts the
/// bytes left over; pass them again at the front of the next piece.
#[unsafe(no_mangle)]
pub extern "C" fn itchsnap_market_apply_blocks(
    alloc: Global,
    handle: &mut Handle,
    blocks: &[u8],
) -> Applied
    ensures { OnHandle (unapplied 50) (AtMarket (unapplied 50) (AppliesBlocks blocks.now)) handle.old.kept.object result handle.new.kept.object }
{
    handle.with(alloc, unapplied(WRONG_HANDLE), |object| {
        apply(alloc, object, blocks)
    })
}

fn apply(alloc: Global, object: &mut Object, blocks: &[u8]) -> Applied
    ensures { AtMarket (unapplied 50) (AppliesBlocks blocks.now) object.old result object.new }
{
    match object {
        Object::Market(market) => apply_all(alloc, market, blocks),
        Object::Joiner(_) | Object::Client(_) | Object::Server(_) => unapplied(WRONG_HANDLE),
    }
}

// Applies the messages of blocks.
fn apply_all(alloc: Global, market: &mut Market<HandleBook>, blocks: &[u8]) -> Applied
    ensures { AppliesBlocks blocks.now market.old result market.new }
{
    let Ok(mut reader) = BlockReader::new(alloc, SliceReader { rest: blocks }) else {
        return unapplied(OUT_OF_MEMORY);
    };
    let end = replay(&mut reader, market);
    applied(end.count, stop_answer(&end.stop))
}

// Returns the result after that many applied messages, with this answer for the stop.
fn applied(count: u64, answer: Answer) -> Applied
    ensures { result ≡ applied count answer }
{
    Applied {
        count,
        detail: answer.detail,
        code: answer.code,
    }
}

// Returns the result without an applied message, for this reason.
fn unapplied(code: u32) -> Applied
    ensures { result ≡ unapplied code }
{
    Applied {
        count: 0,
        detail: 0,
        code,
    }
}
