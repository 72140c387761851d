//! Reads the next packet of a connection.
ghost use types.Logic.{sem};
ghost use Rattle.std.specs.Prelude.{◌≡◌};
ghost use Rattle.std.specs.Io.BufRead.{Rests};
ghost use Rattle.itch_frame.specs.contracts.reader.BlockReader.{the_row as reader_row};
ghost use Rattle.itch_soup.specs.declared.reading.ReadFault.TheVariants.{Frame};
ghost use Rattle.itch_soup.specs.NextPackets.{NextPacket, ends_session};

use crate::fault::SoupFault;
use itch_codec::GREATEST_SEQ;
use itch_frame::{BlockReader, CountedRead, FrameFault};
use std::alloc::Allocator;

/// The maximum number of packets of a session: 10^19.
pub(crate) const MOST_PACKETS: u64 = GREATEST_SEQ;

/// The reason why a packet was not read.
#[derive(Clone, Copy)]
pub(crate) enum ReadFault {
    /// The maximum number of packets was read before.
    TooMany,
    /// Its block could not be read.
    Frame(FrameFault),
}

impl From<FrameFault> for ReadFault {
    ghost from_gives = { λ fault made. made ≡ Frame fault };

    fn from(fault: FrameFault) -> ReadFault {
        ReadFault::Frame(fault)
    }
}

impl From<ReadFault> for SoupFault {
    ghost from_gives = { λ fault made. made ≡ ends_session fault };

    fn from(fault: ReadFault) -> SoupFault {
        match fault {
            ReadFault::TooMany => SoupFault::TooManyMessages,
            ReadFault::Frame(fault) => SoupFault::Frame(fault),
        }
    }
}

/// Returns the bytes of the next packet, or `None` at the end of the input. After `MOST_PACKETS` packets (`enough`), any further packet is
/// one too many.
pub(crate) fn next_packet<R: CountedRead, A: Allocator>(
    reader: &mut BlockReader<R, A>,
    enough: bool,
) -> Result<Option<&[u8]>, ReadFault>
    ensures* next { sem 𝓛 (Rests (reader_row R.row A.row R.CountedRead A.Allocator) reader.entry (λ new.
        NextPacket R.remaining R.failures enough reader.old result new)) }
{
    let Some(packet) = reader.next_block()? else {
        return Ok(None);
    };
    if enough {
        return Err(ReadFault::TooMany);
    }
    Ok(Some(packet))
}
