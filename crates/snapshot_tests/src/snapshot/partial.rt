//! Snapshots restricted to sets of locates, written and read.
ghost use Rattle.std.specs.Prelude.{◌<◌, ◌^◌, length};
ghost use Rattle.itch_snapshot.specs.Snapshot.{snap};

use super::{blocks, market};
use crate::equal::{Host, TestResult, same, same_words};
use itch_book::{ListBook, OrderBook};
use itch_codec::Seq;
use itch_market::{LocateSet, Market};
use itch_snapshot::{SnapFault, SnapshotIter, SnapshotReader, laws, snapshot_len, write_partial};
use std::alloc::{AllocError, Allocator};
use std::test::Fail;
use test_doubles::FuseWriter;
use test_doubles::payloads::*;

const WHOLE: &[&[u8]] = &[EVENT, AAPL, ADD_1, MSFT, ADD_2_OF_MSFT];

fn set_of<A: Allocator + Copy>(alloc: A, locates: &[u16]) -> Result<LocateSet<A>, AllocError> {
    let mut set = LocateSet::new(alloc);
    for locate in locates {
        set.insert(*locate)?;
    }
    Ok(set)
}

// Returns the number of messages of a market's snapshot restricted to a set.
fn count<B: OrderBook>(market: &Market<B>, set: &LocateSet<B::Alloc>) -> usize {
    let mut count = 0usize;
    for _message in SnapshotIter::only(market, set) {
        count = count.saturating_add(1);
    }
    count
}

// Writes the snapshot of a market restricted to a set, closed with the number 6.
fn write<B: OrderBook>(
    market: &Market<B>,
    set: &LocateSet<B::Alloc>,
    writer: &mut FuseWriter,
) -> Result<u64, Fail>
    requires { length (snap market.now) < 10 ^ 19 }
{
    let next = Seq::new(6).ok_or("a sequence number")?;
    Ok(write_partial(market, set, next, writer)?)
}

// Checks that the snapshot of a small market restricted to a set has these payloads.
fn check_partial<B: OrderBook>(
    rt: &impl Host,
    market: &Market<B>,
    set: &LocateSet<B::Alloc>,
    want: &[&[u8]],
) -> TestResult {
    assert!(rt; snapshot_len(market) < 9);
    same(rt, count(market, set).saturating_add(1), want.len());
    let mut writer = FuseWriter::new(rt.alloc(), 1, None);
    same(rt, write(market, set, &mut writer)?, want.len() as u64);
    same(rt, writer.written(), blocks(rt.alloc(), want)?.written());
    Ok(())
}

#[test]
fn the_laws_of_parts() {
    laws::parts_of_a_market();
}

fn check_parts<B: OrderBook>(rt: &impl Host, memory: B::Alloc) -> TestResult {
    let both: &[&[u8]] = &[EVENT, AAPL, ADD_1, MSFT, ADD_2_OF_MSFT, END_6];
    let rows: [(&[u16], &[&[u8]]); 5] = [
        (&[], &[EVENT, END_6]),
        (&[7], &[EVENT, END_6]),
        (&[1], &[EVENT, AAPL, ADD_1, END_6]),
        (&[2], &[EVENT, MSFT, ADD_2_OF_MSFT, END_6]),
        (&[2, 1], both),
    ];
    let market: Market<B> = market(rt.alloc(), memory, WHOLE)?;
    for (locates, want) in rows {
        let set = set_of(memory, locates)?;
        check_partial(rt, &market, &set, want)?;
    }
    check_partial(rt, &market, &LocateSet::all(memory), both)
}

#[test]
fn writes_the_locates_of_a_set(rt: HostRuntime) -> TestResult {
    check_parts::<ListBook>(&rt, rt.alloc())
}

// Reads payloads of a snapshot restricted to a set, before its end.
fn check_more<B: OrderBook>(
    rt: &impl Host,
    snapshot: &mut SnapshotReader<B>,
    set: &LocateSet<B::Alloc>,
    payloads: &[&[u8]],
) {
    for payload in payloads {
        assert!(rt; matches!(snapshot.message_only(set, payload), Ok(None)));
    }
}

// Checks that messages at other locates are decoded and counted, but that no rule applies to them.
fn check_read<B: OrderBook>(rt: &impl Host, memory: B::Alloc) -> TestResult {
    let set = set_of(memory, &[2])?;
    let mut snapshot: SnapshotReader<B> = SnapshotReader::new(memory);
    let payloads = [ADD_1, AAPL, MSFT_AT_1, MSFT, REPLACE_1, ADD_2_OF_MSFT];
    check_more(rt, &mut snapshot, &set, &payloads);
    same(rt, snapshot.taken(), 6);
    same(rt, snapshot_len(snapshot.market()), 2);
    same(rt, snapshot.message_only(&set, END_4)?, Seq::new(4));
    assert!(rt; matches!(snapshot.message_only(&set, END_4), Err(SnapFault::AfterEnd)));
    Ok(())
}

#[test]
fn reads_the_locates_of_a_set(rt: HostRuntime) -> TestResult {
    check_read::<ListBook>(&rt, rt.alloc())
}

// Checks that, after a skipped message, this payload is refused, and every later one too.
fn check_fault<B: OrderBook>(
    rt: &impl Host,
    snapshot: &mut SnapshotReader<B>,
    set: &LocateSet<B::Alloc>,
    payload: &[u8],
    want: &str,
) -> TestResult {
    check_more(rt, snapshot, set, &[ADD_1]);
    for payload in [payload, END_3] {
        let fault = snapshot.message_only(set, payload).err();
        same_words(rt, &fault.expect(rt, "a fault"), want)?;
    }
    Ok(())
}

// Checks this with a new snapshot.
fn check_refused<B: OrderBook>(
    rt: &impl Host,
    memory: B::Alloc,
    payload: &[u8],
    want: &str,
) -> TestResult {
    let set = set_of(memory, &[2])?;
    let mut snapshot: SnapshotReader<B> = SnapshotReader::new(memory);
    check_fault(rt, &mut snapshot, &set, payload, want)
}

#[test]
fn refuses_what_is_not_skipped(rt: HostRuntime) -> TestResult {
    for (payload, want) in [
        (ADD_2_OF_MSFT, "message 2: unknown locate"),
        (b"", "message 2: empty message"),
    ] {
        check_refused::<ListBook>(&rt, rt.alloc(), payload, want)?;
    }
    Ok(())
}
