//! Reads the snapshot from which a joiner starts.
ghost use Rattle.std.specs.Prelude.{◌≡◌};
ghost use Rattle.itch_market.specs.Wanted.{has};
ghost use Rattle.itch_snapshot.specs.AsRead.{as_read};
ghost use Rattle.itch_join.specs.States.{new as fresh};
ghost use Rattle.itch_commands.specs.Joiners.{StartsJoiner};
ghost use Rattle.itch_commands.specs.Joining.{ReadsStart};

use crate::fault::{Source, ToolFault};
use itch_book::OrderBook;
use itch_frame::{BlockReader, CountedRead};
use itch_join::Joiner;
use std::alloc::Allocator;

/// Gives a joiner the messages of a snapshot, up to its End of Snapshot. The joiner skips those at locates that its set does not have.
pub fn read_start<R: CountedRead, A: Allocator, B: OrderBook>(
    reader: &mut BlockReader<R, A>,
    joiner: &mut Joiner<B>,
) -> Result<(), ToolFault>
    requires { joiner.old.state ≡ fresh }
    ensures start { StartsJoiner (ReadsStart (as_read (has joiner.old.set)) R.remaining R.failures reader.old reader.new) result joiner.new.state }
    ensures set { joiner.new.set ≡ joiner.old.set }
{
    match joiner.read_snapshot(reader) {
        Ok(()) => Ok(()),
        Err(fault) => Err(ToolFault::Snap {
            file: Source::Snapshot,
            fault,
        }),
    }
}
