//! Days in memory.
use crate::payloads::{AAPL, ADD_2, NAMED_1, REPLACE_1};
use crate::{FuseWriter, PieceReader};
use itch_book::OrderBook;
use itch_frame::{BlockReader, write_block};
use itch_market::{Market, Stop, replay};
use std::alloc::Global;
use std::test::Fail;

/// A day whose last message replaces an order with attribution, of 158 bytes.
pub const REPLACED: &[&[u8]] = &[AAPL, NAMED_1, ADD_2, REPLACE_1];

/// A reader of blocks in memory.
pub type Blocks<'a> = BlockReader<PieceReader<'a>, Global>;

/// Returns the blocks of these payloads.
pub fn blocks(alloc: Global, payloads: &[&[u8]]) -> Result<FuseWriter, Fail> {
    let mut writer = FuseWriter::new(alloc, 64, None);
    for payload in payloads {
        write_block(&mut writer, payload)?;
    }
    Ok(writer)
}

/// Replays the rest of a reader. Returns how many messages were applied, and why the replay stopped.
pub fn replayed<B: OrderBook>(reader: &mut Blocks<'_>, market: &mut Market<B>) -> (u64, Stop) {
    let end = replay(reader, market);
    (end.count, end.stop)
}
