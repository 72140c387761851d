//! Reads a snapshot file and copies its bytes.
ghost use Rattle.std.specs.Prelude.{◌≡◌, ◌++◌, [], OnOk, IfOk, Ok};
ghost use Rattle.itch_frame.specs.Blocks.{IsPayload, block};
ghost use Rattle.itch_frame.specs.Reading.{bytes_left};
ghost use Rattle.itch_snapshot.specs.TakenMessages.{begun, taken_after, stage_after};
ghost use Rattle.itch_snapshot.specs.declared.reader.SnapshotStage.TheVariants.{Taking};
ghost use Rattle.itch_commands.specs.Canons.{CopiesNext, CopiesAll, EndsFile, CountsSnap};
ghost use Rattle.itch_commands.specs.declared.fault.Source.TheVariants.{Only};
ghost use Rattle.itch_commands.specs.declared.fault.ToolFault.TheVariants.{Snap};

use crate::fault::{Source, ToolFault};
use itch_book::OrderBook;
use itch_codec::Seq;
use itch_frame::{BlockReader, CountedRead};
use itch_snapshot::{SnapFault, SnapshotReader};
use std::alloc::{AllocError, Allocator};

/// Reads a snapshot file up to its End of Snapshot, copies the bytes that it reads, and returns the number in the End of Snapshot.
///
/// A message is taken before its bytes are copied, so that a fault in it is returned even if there is no memory for them.
pub fn copy_snapshot<R: CountedRead, C: Allocator, B: OrderBook, A: Allocator>(
    reader: &mut BlockReader<R, C>,
    loader: &mut SnapshotReader<B>,
    copy: &mut Vec<u8, A>,
) -> Result<Seq, ToolFault>
    requires first { loader.old ≡ begun }
    requires none { copy.old.items ≡ [] }
    ensures steps { CopiesAll (bytes_left R.remaining reader.old) (bytes_left R.remaining reader.new) result loader.new.market copy.new.items }
    ensures failures { CountsSnap result (R.failures reader.old.reader) (R.failures reader.new.reader) }
{
    loader.market().recall_invariant();
    for taken in 0..u64::MAX {
        if let Some(next) = copy_next(reader, loader, copy)? {
            return Ok(next);
        }
    }
    unreachable!()
}

// Takes the next message, and copies the bytes of its block.
fn copy_next<R: CountedRead, C: Allocator, B: OrderBook, A: Allocator>(
    reader: &mut BlockReader<R, C>,
    loader: &mut SnapshotReader<B>,
    copy: &mut Vec<u8, A>,
) -> Result<Option<Seq>, ToolFault>
    requires { loader.old.stage ≡ Taking }
    ensures step { CopiesNext loader.old.taken loader.old.market (bytes_left R.remaining reader.old) (bytes_left R.remaining reader.new) copy.old.items result loader.new.market copy.new.items }
    ensures loader { IfOk result (λ found. (loader.new.taken ≡ taken_after loader.old.taken (Ok found)) × (loader.new.stage ≡ stage_after (Ok found))) }
    ensures failures { CountsSnap result (R.failures reader.old.reader) (R.failures reader.new.reader) }
{
    match reader.next_message() {
        Ok(Some(payload)) => {
            let found = loader.message(payload).map_err(refused)?;
            copy_block(copy, payload)?;
            Ok(found)
        }
        Ok(None) => Err(refused(SnapFault::NoEnd)),
        Err(fault) => Err(refused(SnapFault::Frame(fault))),
    }
}

// Appends the block of a payload to the copy.
fn copy_block<A: Allocator>(copy: &mut Vec<u8, A>, payload: &[u8]) -> Result<(), AllocError>
    requires { IsPayload payload.now }
    ensures { OnOk result (copy.new.items ≡ copy.old.items ++ block payload.now) }
{
    let len = payload.len() as u16;
    copy.extend_from_slice(&len.to_be_bytes())?;
    copy.extend_from_slice(payload)
}

/// Reads the rest after an End of Snapshot. Returns true at the end of the input, and false at an empty block.
pub fn read_end<R: CountedRead, C: Allocator>(
    reader: &mut BlockReader<R, C>,
) -> Result<bool, ToolFault>
    ensures step { EndsFile (bytes_left R.remaining reader.old) (bytes_left R.remaining reader.new) result }
    ensures failures { CountsSnap result (R.failures reader.old.reader) (R.failures reader.new.reader) }
{
    match reader.next_block() {
        Ok(Some(payload)) => {
            if payload.is_empty() {
                return Ok(false);
            }
            Err(refused(SnapFault::AfterEnd))
        }
        Ok(None) => Ok(true),
        Err(fault) => Err(refused(SnapFault::Frame(fault))),
    }
}

fn refused(fault: SnapFault) -> ToolFault
    ensures { result ≡ Snap Only fault }
{
    ToolFault::Snap {
        file: Source::Only,
        fault,
    }
}
