//! Markets in C's handles.
ghost use Rattle.std.specs.Prelude.{◌≡◌, None, IfOk, IfErr};
ghost use Rattle.itch_market.specs.Content as content;
ghost use Rattle.itch_market.specs.Replays.{TakesOne};
ghost use Rattle.itchsnap_c.specs.Codes.{wrong};
ghost use Rattle.itchsnap_c.specs.Objects.{OnHandle, AtMarket, Fills};
ghost use Rattle.itchsnap_c.specs.Markets.{Applies, Loads, LoadsNew, HasMarketOf, IsRefusedFor};

use crate::answers::{Answer, Loaded};
use crate::codes::{IN_USE, WRONG, not_loaded, outcome_answer, snapshot_answer};
use crate::handle::Handle;
use crate::object::{HandleBook, Object};
use crate::slice::SliceReader;
use itch_codec::{Seq, decode};
use itch_frame::BlockReader;
use itch_market::{Market, Refusal, Stop};
use itch_snapshot::{SnapFault, read_snapshot};
use std::alloc::Global;

/// Puts an empty market into an empty handle.
#[unsafe(no_mangle)]
pub extern "C" fn itchsnap_market_new(alloc: Global, handle: &mut Handle) -> Answer
    ensures { Fills handle.old.kept.object (Object.Market content.empty) result handle.new.kept.object }
{
    handle.fill(alloc, Object::Market(Market::new(alloc)))
}

/// Puts the market of a snapshot file into an empty handle. The messages of the file may be in any sequence that follows the order rules.
#[unsafe(no_mangle)]
pub extern "C" fn itchsnap_market_load(
    alloc: Global,
    handle: &mut Handle,
    snapshot: &[u8],
) -> Loaded
    ensures { Loads snapshot.now handle.old.kept.object result handle.new.kept.object }
{
    if handle.is_live() {
        return not_loaded(IN_USE);
    }
    load(alloc, handle, snapshot)
}

/// Applies the message of a payload to a market, or returns the reason why it is not applied; then the market is unchanged.
#[unsafe(no_mangle)]
pub extern "C" fn itchsnap_market_apply(
    alloc: Global,
    handle: &mut Handle,
    payload: &[u8],
) -> Answer
    ensures { OnHandle wrong (AtMarket wrong (Applies payload.now)) handle.old.kept.object result handle.new.kept.object }
{
    handle.with(alloc, WRONG, |object| apply(object, payload))
}

fn apply(object: &mut Object, payload: &[u8]) -> Answer
    ensures { AtMarket wrong (Applies payload.now) object.old result object.new }
{
    match object {
        Object::Market(market) => outcome_answer(&take_payload(market, payload)),
        Object::Joiner(_) | Object::Client(_) | Object::Server(_) => WRONG,
    }
}

// Applies the message of a payload.
fn take_payload(market: &mut Market<HandleBook>, payload: &[u8]) -> Result<(), Stop>
    ensures { TakesOne market.old payload.now result market.new }
{
    let message = decode(payload).map_err(Stop::Codec)?;
    market.apply(&message).map_err(Stop::Rule)
}

// Fills an empty handle with the market of a snapshot file.
fn load(alloc: Global, handle: &mut Handle, snapshot: &[u8]) -> Loaded
    requires { handle.old.kept.object ≡ None }
    ensures { LoadsNew snapshot.now result handle.new.kept.object }
{
    match read(alloc, snapshot) {
        Ok((object, next)) => {
            handle.put(object);
            Loaded {
                next: next.value(),
                place: 0,
                detail: 0,
                code: 0,
            }
        }
        Err(fault) => snapshot_answer(&fault),
    }
}

// Returns the market of a snapshot file, boxed, and the number of the next message.
fn read(alloc: Global, snapshot: &[u8]) -> Result<(Box<Object>, Seq), SnapFault>
    ensures market { IfOk result (λ done. HasMarketOf snapshot.now done.0.value done.1) }
    ensures fault { IfErr result (λ fault. IsRefusedFor snapshot.now fault) }
{
    let Ok(mut reader) = BlockReader::new(alloc, SliceReader { rest: snapshot }) else {
        return Err(MEMORY_REFUSED);
    };
    let (market, next) = read_snapshot(alloc, &mut reader)?;
    match Box::new(alloc, Object::Market(market)) {
        Ok(object) => Ok((object, next)),
        Err(_) => Err(MEMORY_REFUSED),
    }
}

// The fault if memory runs out before the first message, or after the last.
const MEMORY_REFUSED: SnapFault = SnapFault::Rule {
    place: 0,
    reason: Refusal::OutOfMemory,
};
