//! The day files, snapshots and markets of the tables.
use crate::equal::{Host, same};
use itch_book::OrderBook;
use itch_codec::Seq;
use itch_frame::{BlockReader, CountedRead, CountedWrite, FrameFault};
use itch_market::{Market, ReplayEnd, replay};
use itch_snapshot::{
    SnapFault, SnapshotReader, read_snapshot, same_market, snapshot_len, write_snapshot,
};
use std::alloc::{Allocator, Global};
use std::test::Fail;
use test_doubles::days::blocks;
use test_doubles::payloads::*;
use test_doubles::{FuseWriter, PieceReader};

/// A day with one order, of 93 bytes, and its snapshot, of 116.
pub(crate) const ONE_ORDER: &[&[u8]] = &[EVENT, AAPL, ADD_1];

pub(crate) const ONE_ORDER_SNAPSHOT: &[&[u8]] = &[EVENT, AAPL, ADD_1, END_4];

/// The snapshot of `REPLACED`.
pub(crate) const REPLACED_SNAPSHOT: &[&[u8]] = &[AAPL, ADD_2, NAMED_3, END_5];

/// Returns the market after a day with these payloads.
pub(crate) fn market<B: OrderBook>(
    alloc: Global,
    memory: B::Alloc,
    payloads: &[&[u8]],
) -> Result<Market<B>, Fail> {
    let day = blocks(alloc, payloads)?;
    let mut market = Market::new(memory);
    replay_from(
        alloc,
        PieceReader::new(day.written(), 64, None),
        &mut market,
    )?;
    Ok(market)
}

/// Replays the bytes of this reader. This helper and those below have no contract, so that a proof of a test does not have to know the effect
/// of the call.
pub(crate) fn replay_from<B: OrderBook>(
    alloc: Global,
    reader: PieceReader<'_>,
    market: &mut Market<B>,
) -> Result<ReplayEnd, Fail> {
    let mut reader = BlockReader::new(alloc, reader)?;
    Ok(replay(&mut reader, market))
}

/// Writes the snapshot of a small market, closed with this number.
pub(crate) fn write<W: CountedWrite, B: OrderBook>(
    rt: &impl Host,
    market: &Market<B>,
    next: Seq,
    writer: &mut W,
) -> Result<u64, SnapFault> {
    assert!(rt; snapshot_len(market) < 9);
    write_snapshot(market, next, writer)
}

/// Returns the result of reading a snapshot from this reader.
pub(crate) fn read_from<B: OrderBook>(
    alloc: Global,
    memory: B::Alloc,
    reader: PieceReader<'_>,
) -> Result<Result<(Market<B>, Seq), SnapFault>, Fail> {
    let mut reader = BlockReader::new(alloc, reader)?;
    Ok(read_snapshot(memory, &mut reader))
}

/// Returns the market and the number of a snapshot.
pub(crate) fn read<B: OrderBook>(
    alloc: Global,
    memory: B::Alloc,
    bytes: &[u8],
) -> Result<(Market<B>, Seq), Fail> {
    Ok(read_from(alloc, memory, PieceReader::new(bytes, 5, None))??)
}

/// Returns the market and the number of a snapshot whose end was read.
pub(crate) fn finished<B: OrderBook>(
    rt: &impl Host,
    snapshot: SnapshotReader<B>,
) -> (Market<B>, Seq) {
    match snapshot.finish() {
        Ok(finished) => finished,
        Err(_) => panic!(rt; "kept after its end"),
    }
}

/// Returns whether two small markets are the same.
pub(crate) fn are_same<A: OrderBook, B: OrderBook>(
    rt: &impl Host,
    one: &Market<A>,
    other: &Market<B>,
) -> bool {
    assert!(rt; snapshot_len(one) < 9);
    same_market(one, other)
}

pub(crate) fn seq(rt: &impl Host, number: u64) -> Seq {
    Seq::new(number).expect(rt, "a sequence number")
}

/// Checks that the next block of a reader is this one.
pub(crate) fn gives<R: CountedRead, A: Allocator>(
    rt: &impl Host,
    reader: &mut BlockReader<R, A>,
    want: Option<&[u8]>,
) -> Result<(), FrameFault> {
    same(rt, reader.next_block()?, want);
    Ok(())
}
