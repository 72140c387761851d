//! The packets of a snapshot, encoded once for all clients that receive it.
ghost use Rattle.std.specs.Prelude.{◌≡◌, ◌<◌, ◌≤◌, ◌+◌, ◌-◌, ◌*◌, ◌^◌, [], length, min, IfOk};
ghost use Rattle.itch_snapshot.specs.Snapshot.{snap};
ghost use Rattle.itch_live.specs.SnapshotClients.{session_bytes};

use crate::buffer::FixedBuffer;
use itch_book::OrderBook;
use itch_codec::Seq;
use itch_market::Market;
use itch_snapshot::snapshot_len;
use itch_soup::write_answer;
use std::alloc::AllocError;
use std::rc::Rc;

/// The encoded packets of a snapshot, shared by the clients that receive it.
pub type EncodedSnapshot<A> = Rc<Vec<u8, A>, A>;

/// The longest packet of a message in a snapshot: two bytes of length, the packet type, and an order with attribution.
const LONGEST: u128 = 43;

/// Enough for the packets after those messages: the End of Snapshot and the end of the session.
const AROUND: u128 = 128;

/// Returns the number of bytes that [`encode_snapshot`] allocates for the snapshot of this market, which is also its greatest possible size. The result
/// is at most `u64::MAX`.
pub fn longest_snapshot<B: OrderBook>(market: &Market<B>) -> u64
    ensures { result ≡ min (43 * length (snap market.now) + 128) (2 ^ 64 - 1) }
{
    let messages = snapshot_len(market).min(1 << 64);
    u64::try_from(LONGEST * messages + AROUND).unwrap_or(u64::MAX)
}

/// Returns the bytes that a client receives after the Login Accepted packet: the market's snapshot with its End of Snapshot, and the end of
/// the session.
///
/// The memory is allocated at once, 43 bytes per message and 128 more, which is always enough.
///
/// # Errors
///
/// [`AllocError`] if this number of bytes exceeds `usize`, or there is no memory for them.
pub fn encode_snapshot<B: OrderBook>(
    alloc: B::Alloc,
    market: &Market<B>,
    next: Seq,
) -> Result<Vec<u8, B::Alloc>, AllocError>
    ensures bytes { IfOk result (λ bytes. bytes.items ≡ session_bytes market.now next) }
    ensures room { IfOk result (λ bytes. length bytes.items ≤ 43 * length (snap market.now) + 128) }
{
    recall_length(market, next);
    let messages = snapshot_len(market).min(1 << 64);
    let Ok(room) = usize::try_from(LONGEST * messages + AROUND) else {
        return Err(AllocError);
    };
    let buffer = FixedBuffer::new(alloc, room)?;
    Ok(fill(buffer, market, next))
}

// Does nothing at run time. It recalls the greatest number of bytes for a proof.
#[tactic(auto, using(crate::proofs::Lengths::session_within))]
fn recall_length<B: OrderBook>(market: &Market<B>, next: Seq)
    ensures { length (session_bytes market.now next) ≤ 43 * length (snap market.now) + 128 }
{
    market.recall_invariant();
    let _number = next.value();
}

// Fills a buffer that has room for all packets.
fn fill<B: OrderBook>(
    mut buffer: FixedBuffer<B::Alloc>,
    market: &Market<B>,
    next: Seq,
) -> Vec<u8, B::Alloc>
    requires empty { buffer.bytes.items ≡ [] }
    requires room { length (session_bytes market.now next) ≤ buffer.room }
    requires few { length (snap market.now) < 10 ^ 19 - 1 }
    ensures { result.items ≡ session_bytes market.now next }
{
    let Some(first) = Seq::new(1) else {
        unreachable!()
    };
    match write_answer(&mut buffer, market, next, first) {
        Ok(_) => buffer.into_bytes(),
        Err(_) => unreachable!(),
    }
}
