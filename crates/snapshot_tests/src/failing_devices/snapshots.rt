//! Snapshots written to failing devices.
use crate::equal::{Host, TestResult, holds_in, same};
use crate::files::{ONE_ORDER, ONE_ORDER_SNAPSHOT, market, seq, write};
use itch_book::{IndexedBook, OrderBook};
use itch_frame::FrameFault;
use itch_market::Market;
use itch_snapshot::SnapFault;
use test_doubles::FuseWriter;
use test_doubles::days::blocks;

// The first bytes of the four blocks.
const STARTS: [usize; 4] = [0, 14, 55, 93];

// Returns whether the fault reports how much of the current block was written, after `written` bytes in total.
fn says_its_block(fault: &SnapFault, written: usize) -> bool {
    let start = STARTS.iter().rfind(|start| **start <= written).copied();
    match fault {
        SnapFault::Frame(FrameFault::Write { sent, .. }) => start == written.checked_sub(*sent),
        _ => false,
    }
}

// Checks the market's snapshot with each write of one byte failing in turn, counted from 1.
fn fails_at_each<B: OrderBook>(rt: &impl Host, market: &Market<B>, whole: &[u8]) {
    same(rt, whole.len(), 116);
    for nth in 1..=116u64 {
        let mut writer = FuseWriter::new(rt.alloc(), 1, Some(nth));
        let fault = write(rt, market, seq(rt, 4), &mut writer).err();
        let written = writer.written();
        same(rt, written.len() as u64, nth.saturating_sub(1));
        assert!(rt; whole.starts_with(written));
        let fault = fault.expect(rt, "a failed write");
        holds_in(rt, ("write", nth), says_its_block(&fault, written.len()));
    }
}

#[test]
fn a_beginning_is_written(rt: HostRuntime) -> TestResult {
    let market: Market<IndexedBook> = market(rt.alloc(), rt.alloc(), ONE_ORDER)?;
    let whole = blocks(rt.alloc(), ONE_ORDER_SNAPSHOT)?;
    fails_at_each(&rt, &market, whole.written());
    Ok(())
}

// Checks the snapshot if only the write after the last one would fail.
fn is_written<B: OrderBook>(rt: &impl Host, market: &Market<B>, whole: &[u8]) {
    let mut writer = FuseWriter::new(rt.alloc(), 1, Some(117));
    let count = write(rt, market, seq(rt, 4), &mut writer);
    same(rt, count.expect(rt, "a snapshot"), 4);
    same(rt, writer.written(), whole);
}

#[test]
fn the_whole_is_written(rt: HostRuntime) -> TestResult {
    let market: Market<IndexedBook> = market(rt.alloc(), rt.alloc(), ONE_ORDER)?;
    let whole = blocks(rt.alloc(), ONE_ORDER_SNAPSHOT)?;
    is_written(&rt, &market, whole.written());
    Ok(())
}
