//! Checks whether bytes are those of a market's snapshot.
ghost use Rattle.std.specs.Prelude.{◌≡◌, ◌↔◌, ◌<◌, ◌++◌, true};
ghost use Rattle.itch_codec.specs.Messages.{spelling};
ghost use Rattle.itch_codec.specs.Widths.{IsMessage};
ghost use Rattle.itch_frame.specs.Blocks.{IsPayload, block};
ghost use Rattle.itch_snapshot.specs.Bytes.{canon, closing};
ghost use Rattle.itch_commands.specs.Canons.{StripsFront};

use itch_book::OrderBook;
use itch_codec::{Message, Seq, encode};
use itch_market::Market;
use itch_snapshot::SnapshotIter;

/// Returns whether bytes are exactly the canonical bytes of a market and the block of an End of Snapshot with this number.
///
/// It builds no snapshot: it encodes each message and compares it with the bytes at its place.
pub fn is_closed<B: OrderBook>(bytes: &[u8], market: &Market<B>, next: Seq) -> bool
    ensures { (result ≡ true) ↔ (bytes.now ≡ canon market.now ++ closing next) }
{
    market.recall_invariant();
    let mut rest = bytes;
    for message in SnapshotIter::new(market) {
        match after_message(rest, &message) {
            Some(more) => rest = more,
            None => return false,
        }
    }
    match after_message(rest, &Message::End { next }) {
        Some(more) => more.is_empty(),
        None => false,
    }
}

// Returns the bytes after the block of a message, if they begin with it.
fn after_message<'a>(bytes: &'a [u8], message: &Message<'_>) -> Option<&'a [u8]>
    ensures strips { IsPayload (spelling message.now) → StripsFront bytes.now (block (spelling message.now)) result }
    ensures fits { IsMessage message.now }
{
    let payload = encode(message);
    after_block(bytes, payload.bytes())
}

// Returns the bytes after the block of a payload, if they begin with it.
fn after_block<'a>(bytes: &'a [u8], payload: &[u8]) -> Option<&'a [u8]>
    ensures { IsPayload payload.now → StripsFront bytes.now (block payload.now) result }
{
    let len = u16::try_from(payload.len()).ok()?;
    let rest = after_front(bytes, &len.to_be_bytes())?;
    after_front(rest, payload)
}

fn after_front<'a>(bytes: &'a [u8], front: &[u8]) -> Option<&'a [u8]>
    ensures { StripsFront bytes.now front.now result }
{
    bytes.strip_prefix(front)
}
