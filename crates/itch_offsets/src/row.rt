//! The rows of an index.
ghost use Rattle.std.specs.Prelude.{◌≡◌};
ghost use Rattle.itch_offsets.specs.Rows.{row_of};

use itch_checkpoints::{Checkpoint, Fingerprint, Latest};
use itch_codec::MOST_MESSAGES;
use itch_day::DayCursor;
use std::alloc::{AllocError, Global};

/// A place in a day file at which a message begins.
#[derive(Clone, Copy, Debug, PartialEq, Eq)]
pub struct IndexRow {
    /// The cursor of the messages before it.
    pub cursor: DayCursor,
    /// The fingerprint of the file's bytes before it.
    pub fingerprint: Fingerprint,
    /// The number of bytes of the blocks of the Stock Directory messages before it.
    pub listed: usize,
}

impl IndexRow {
    /// Returns the row of a line, after this many bytes of Stock Directory blocks; `None` if the line is not that of a row.
    pub(crate) fn read(
        alloc: Global,
        line: &[u8],
        listed: usize,
    ) -> Result<Option<IndexRow>, AllocError> {
        match Checkpoint::read(alloc, line)? {
            Some(checkpoint) if checkpoint.only.is_none() => Ok(row_of(
                checkpoint.count,
                checkpoint.offset,
                checkpoint.latest,
                checkpoint.fingerprint,
                listed,
            )),
            _ => Ok(None),
        }
    }
}

// Returns the row at a checkpoint of all locates, whose line states the latest timestamp and the fingerprint.
fn row_of(
    count: u64,
    offset: u64,
    latest: Latest,
    fingerprint: Option<Fingerprint>,
    listed: usize,
) -> Option<IndexRow>
    ensures { result ≡ row_of count offset latest fingerprint listed }
{
    match (latest, fingerprint) {
        (Latest::Known(latest), Some(fingerprint)) if count <= MOST_MESSAGES => Some(IndexRow {
            cursor: DayCursor {
                count,
                offset,
                latest,
            },
            fingerprint,
            listed,
        }),
        _ => None,
    }
}
