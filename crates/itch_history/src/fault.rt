//! The reasons why a search failed.

use itch_codec::CodecFault;
use itch_frame::FrameFault;

/// The reason why a search ended before the first message that names the order, and before the end of the requested part. `count` is the
/// number of messages before.
#[derive(Debug, Drop)]
pub enum SearchFault {
    /// The file has fewer messages than requested.
    Short { count: u64 },
    /// A read failed, or the file ends in an unfinished block.
    Frame { count: u64, fault: FrameFault },
    /// A block is not a valid message.
    Codec { count: u64, fault: CodecFault },
    /// There is a message after 10^19 - 1 others.
    TooMany { count: u64 },
    /// Memory ran out.
    OutOfMemory,
}
