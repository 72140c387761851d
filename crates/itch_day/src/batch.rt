//! Takes several messages at once from the bytes in memory.
ghost use Rattle.std.specs.Prelude.{◌≡◌, ℕ, ◌+◌, ◌-◌, ◌^◌, ◌<◌, ◌≤◌, ◌++◌, List, IfSome, MatchOption};
ghost use Rattle.itch_frame.specs.Blocks.{block, IsFull};

use crate::sink::Sink;
use itch_frame::{Consumer, split_first_block};

/// A consumer that gives its sink the messages of the bytes in memory, as long as the sink accepts their payloads undecoded.
#[derive(Drop)]
pub(crate) struct Batch<'s, T> {
    pub(crate) sink: &'s mut T,
    // The number of messages taken.
    pub(crate) count: u64,
    // The maximum of `count`.
    pub(crate) most: u64,
    // The number of messages that the sink has looked at.
    pub(crate) seen: u64,
}

impl<'s, T: Sink> Consumer for Batch<'s, T> {
    ghost use Rattle.std.specs.Prelude.{◌≡◌, ◌+◌, ◌-◌, ◌^◌, ◌≤◌};
    ghost use Rattle.itch_day.specs.Batches.{TakesBlocks};

    ghost is_ready = { λ b. T.is_ready b.sink.now (b.count + 1) × (b.count ≤ b.most) × (b.most ≤ 10 ^ 19 - 1) };

    ghost uses = { λ b bytes c. (c.sink.ghost_name ≡ b.sink.ghost_name) × TakesBlocks T.takes b.count c.count b.sink.now c.sink.now bytes
        × T.is_ready c.sink.now (c.count + 1) × (c.count ≤ b.most) };

    #[inline(always)]
    fn consume(&mut self, bytes: &[u8]) -> usize {
        let mut rest = bytes;
        for at in self.count..self.most {
            look_ahead(self.sink, at, &mut self.seen, rest);
            match take_first(self.sink, at + 1, rest) {
                Some(after) => {
                    rest = after;
                    self.count = at + 1;
                }
                None => break,
            }
        }
        bytes.len() - rest.len()
    }
}

// Takes the message of the first block, if the sink accepts its payload undecoded, and returns the bytes after the block. Otherwise nothing
// changes.
#[inline(always)]
fn take_first<'a, T: Sink>(sink: &mut T, number: u64, blocks: &'a [u8]) -> Option<&'a [u8]>
    requires ready { T.is_ready sink.old number }
    requires first { 0 < number }
    requires last { number ≤ 10 ^ 19 - 1 }
    ensures takes { MatchOption result (sink.new ≡ sink.old)
        (λ after. (payload : List ℕ) × (IsFull payload × (blocks.now ≡ block payload ++ after.now) × T.takes sink.old number payload sink.new)) }
    ensures ready { IfSome result (λ after. T.is_ready sink.new (number + 1)) }
{
    let (payload, after) = split_first_block(blocks)?;
    if payload.is_empty() || !sink.take_payload(number, payload) {
        return None;
    }
    Some(after)
}

// Returns the number of messages after which a sink first sees the bytes ahead, for a part that begins after `count` messages. With parts of
// a single message it sees them only every sixteen messages.
#[inline(always)]
pub(crate) fn first_look(count: u64) -> u64 {
    count.saturating_add(15) / 16 * 16
}

// Shows a sink the bytes ahead, if it has looked at no more messages than were taken. Nothing changes.
#[inline(always)]
pub(crate) fn look_ahead<T: Sink>(sink: &mut T, count: u64, seen: &mut u64, blocks: &[u8])
    ensures { sink.new ≡ sink.old }
{
    if *seen <= count {
        *seen = count.saturating_add(sink.look_ahead(blocks));
    }
}
