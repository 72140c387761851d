//! Finds the place where a time of the day begins in the blocks of a day file.
ghost use Rattle.std.specs.Prelude.{IfOk};
ghost use Rattle.itchsnap_c.specs.Times.{FindsTime, Finds, before};

use crate::answers::Count;
use crate::codes::{ABSENT, OUT_OF_MEMORY, counted, no_count};
use crate::slice::SliceReader;
use itch_codec::{CodecFault, Message};
use itch_day::{DayCursor, Limit, PartStop, Sink, Tracked, read_part};
use itch_frame::BlockReader;
use std::alloc::{AllocError, Global};

/// Returns the number of bytes before the block of the first message whose timestamp is `time` or later, in nanoseconds since midnight; or
/// that there is none before the blocks end.
///
/// Timestamps need not be in order, so each message up to that one is decoded. A block that is not a valid message, or a message without a
/// timestamp, is skipped. An empty block ends the blocks, and so does an unfinished one.
#[unsafe(no_mangle)]
pub extern "C" fn itchsnap_first_at(alloc: Global, blocks: &[u8], time: u64) -> Count
    ensures { FindsTime blocks.now time result }
{
    match bytes_before(alloc, blocks, time) {
        Ok(Some(count)) => counted(count),
        Ok(None) => no_count(ABSENT),
        Err(AllocError) => no_count(OUT_OF_MEMORY),
    }
}

// Returns the number of bytes before the block of the first message at a time or later, if there is one.
fn bytes_before(alloc: Global, blocks: &[u8], time: u64) -> Result<Option<u64>, AllocError>
    ensures { IfOk result (λ count. Finds (before time) blocks.now count) }
{
    let mut reader = BlockReader::new(alloc, SliceReader { rest: blocks })?;
    let mut passed = Tracked {
        sink: Anything,
        cursor: DayCursor::new(),
    };
    let limit = Limit {
        after: None,
        until: Some(time),
    };
    let mut count = 0;
    match read_part(&mut reader, &mut count, &mut passed, limit) {
        PartStop::Late => Ok(Some(passed.cursor.offset)),
        _ => Ok(None),
    }
}

// Takes every payload, including one that is not a valid message.
#[derive(Drop)]
struct Anything;

impl Sink for Anything {
    type Fault = ();

    ghost is_ready = { λ _ _. Unit {0} };

    ghost takes = { λ _ _ _ _. Unit {0} };

    ghost refuses = { λ _ _ _ _ _. ⊥ };

    #[inline(always)]
    fn take(
        &mut self,
        number: u64,
        payload: &[u8],
        message: &Result<Message<'_>, CodecFault>,
    ) -> Result<(), ()> {
        let _number = number;
        let _payload = payload;
        let _message = message;
        Ok(())
    }
}
