//! Worked days and snapshots: how each is written, read and refused.
use crate::equal::{Host, TestResult, same, same_words};
use crate::files::{REPLACED_SNAPSHOT, are_same, finished, market, read_from, seq, write};
use itch_book::{ListBook, OrderBook};
use itch_codec::CodecFault;
use itch_frame::FrameFault;
use itch_market::{Market, Refusal};
use itch_snapshot::{
    SnapFault, SnapshotIter, SnapshotReader, laws, part_place, same_market, snapshot_len,
};
use std::alloc::Global;
use std::test::Fail;
use test_doubles::days::{REPLACED, blocks};
use test_doubles::payloads::*;
use test_doubles::{FuseWriter, PieceReader};

mod again;
mod books;
mod partial;

#[test]
fn the_laws_of_snapshots() {
    laws::snapshot_replays();
    laws::late_start();
    laws::one_snapshot();
    laws::short_snapshot();
    laws::canonical();
    laws::whole_snapshot();
    laws::headline();
}

// Checks that the snapshot of a market, closed with the number `next` and written to an empty writer, has these payloads.
fn check_snapshot<B: OrderBook>(
    rt: &impl Host,
    market: &Market<B>,
    next: u64,
    mut writer: FuseWriter,
    want: &[&[u8]],
) -> TestResult {
    let len = snapshot_len(market).saturating_add(1);
    same(rt, len, want.len() as u128);
    let count = write(rt, market, seq(rt, next), &mut writer);
    same(rt, count.expect(rt, "a snapshot"), want.len() as u64);
    same(rt, writer.written(), blocks(rt.alloc(), want)?.written());
    Ok(())
}

// Checks that `remaining` counts down to zero with the messages of a market's snapshot.
fn check_counts<B: OrderBook>(rt: &impl Host, market: &Market<B>, wants: &[u64]) {
    assert!(rt; snapshot_len(market) < 9);
    let mut messages = SnapshotIter::new(market);
    for want in wants {
        same(rt, messages.remaining(), *want);
        assert!(rt; messages.next().is_some());
    }
    same(rt, messages.remaining(), 0);
    assert!(rt; messages.next().is_none());
}

// Checks this for the market after a day.
fn counts_down<B: OrderBook>(
    rt: &impl Host,
    memory: B::Alloc,
    day: &[&[u8]],
    wants: &[u64],
) -> TestResult {
    let market: Market<B> = market(rt.alloc(), memory, day)?;
    check_counts(rt, &market, wants);
    Ok(())
}

#[test]
fn counts_what_is_still_to_come(rt: HostRuntime) -> TestResult {
    counts_down::<ListBook>(&rt, rt.alloc(), &[], &[])?;
    counts_down::<ListBook>(&rt, rt.alloc(), REPLACED, &[3, 2, 1])
}

// Checks the place at which the snapshots after two days begin to differ.
fn check_days<B: OrderBook>(
    rt: &impl Host,
    memory: B::Alloc,
    (one, other, want): (&[&[u8]], &[&[u8]], Option<u64>),
) -> TestResult {
    let one: Market<B> = market(rt.alloc(), memory, one)?;
    let other: Market<B> = market(rt.alloc(), memory, other)?;
    assert!(rt; snapshot_len(&one) < 9);
    same(rt, part_place(&one, &other), want);
    same(rt, same_market(&one, &other), want.is_none());
    Ok(())
}

#[test]
fn says_where_snapshots_part(rt: HostRuntime) -> TestResult {
    let pairs: [(&[&[u8]], &[&[u8]], Option<u64>); 5] = [
        (
            &[AAPL, ADD_1, ADD_2_OF_100],
            &[AAPL, ADD_2_OF_100, ADD_1],
            Some(2),
        ),
        (
            &[AAPL, ADD_1, ADD_2_HIGHER, ADD_3, ADD_4_HIGHER],
            &[AAPL, ADD_2_HIGHER, ADD_4_HIGHER, ADD_1, ADD_3],
            None,
        ),
        (
            &[AAPL, TRADES_0, ADD_7, EXECUTE_7, CANCEL_7],
            &[AAPL_LATER, TRADES_X, ADD_7_OF_150],
            None,
        ),
        (&[AAPL, ADD_1], &[AAPL], Some(2)),
        (&[], &[AAPL], Some(1)),
    ];
    for pair in pairs {
        check_days::<ListBook>(&rt, rt.alloc(), pair)?;
    }
    Ok(())
}

// Returns the result of reading these bytes: the number of messages in the market's snapshot and the number in End of Snapshot, or a fault.
fn outcome<B: OrderBook>(
    alloc: Global,
    memory: B::Alloc,
    bytes: &[u8],
) -> Result<Result<(u128, u64), SnapFault>, Fail> {
    match read_from::<B>(alloc, memory, PieceReader::new(bytes, 1, None))? {
        Ok((market, next)) => Ok(Ok((snapshot_len(&market), next.value()))),
        Err(fault) => Ok(Err(fault)),
    }
}

// Returns the blocks of these payloads, followed by the bytes in `rest`.
fn file_of(alloc: Global, payloads: &[&[u8]], rest: &[u8]) -> Result<Vec<u8>, Fail> {
    let front = blocks(alloc, payloads)?;
    let mut file = Vec::from_slice(alloc, front.written())?;
    file.extend_from_slice(rest)?;
    Ok(file)
}

// Checks that this was read, or that a fault has this debug output.
fn check_outcome(
    rt: &impl Host,
    found: Result<(u128, u64), SnapFault>,
    want: Result<(u128, u64), &str>,
) -> TestResult {
    match (found, want) {
        (Ok(read), Ok(want)) => same(rt, read, want),
        (Err(fault), Err(want)) => same(rt, format!(in rt.alloc(); "{fault:?}")?.as_str(), want),
        _ => panic!(rt; "read or refused by mistake"),
    }
    Ok(())
}

#[test]
fn reads_snapshots(rt: HostRuntime) -> TestResult {
    let files: [(&[&[u8]], &[u8], Result<(u128, u64), &str>); 7] = [
        (&[AAPL], b"", Err("NoEnd")),
        (&[END_1, EVENT], b"", Err("AfterEnd")),
        (&[END_1], b"\0", Err("Frame(Truncated { held: 1 })")),
        (&[END_1], b"\0\0\xff", Ok((0, 1))),
        (
            &[AAPL, MSFT_AT_1, END_3],
            b"",
            Err("Rule { place: 2, reason: StockMismatch }"),
        ),
        (
            &[AAPL, b"G"],
            b"",
            Err("Codec { place: 2, fault: WrongLength { kind: 71, want: 21, got: 1 } }"),
        ),
        (REPLACED_SNAPSHOT, b"", Ok((3, 5))),
    ];
    for (payloads, rest, want) in files {
        let file = file_of(rt.alloc(), payloads, rest)?;
        let found = outcome::<ListBook>(rt.alloc(), rt.alloc(), &file)?;
        check_outcome(&rt, found, want)?;
    }
    Ok(())
}

// Reads payloads of a snapshot before its end.
fn check_more<B: OrderBook>(rt: &impl Host, snapshot: &mut SnapshotReader<B>, payloads: &[&[u8]]) {
    for payload in payloads {
        assert!(rt; matches!(snapshot.message(payload), Ok(None)));
    }
}

// Checks that a snapshot whose end was not read is returned.
fn unfinished<B: OrderBook>(rt: &impl Host, snapshot: SnapshotReader<B>) -> SnapshotReader<B> {
    match snapshot.finish() {
        Ok(_) => panic!(rt; "handed out before its end"),
        Err(snapshot) => snapshot,
    }
}

// Checks that the market is returned after its End of Snapshot and not before, and that it is the expected one.
fn check_finish<B: OrderBook>(rt: &impl Host, memory: B::Alloc) -> TestResult {
    let want: Market<B> = market(rt.alloc(), memory, REPLACED)?;
    let mut snapshot: SnapshotReader<B> = SnapshotReader::new(memory);
    check_more(rt, &mut snapshot, &[AAPL, ADD_2, NAMED_3]);
    assert!(rt; are_same(rt, &want, snapshot.market()));
    let mut snapshot = unfinished(rt, snapshot);
    assert!(rt; matches!(snapshot.message(END_5), Ok(Some(_))));
    assert!(rt; matches!(snapshot.message(END_5), Err(SnapFault::AfterEnd)));
    let (handed_out, next) = finished(rt, snapshot);
    same(rt, next.value(), 5);
    assert!(rt; are_same(rt, &want, &handed_out));
    Ok(())
}

#[test]
fn hands_a_market_out_at_its_end(rt: HostRuntime) -> TestResult {
    check_finish::<ListBook>(&rt, rt.alloc())
}

#[test]
fn says_what_failed(rt: HostRuntime) -> TestResult {
    let rule = |reason| SnapFault::Rule { place: 2, reason };
    let most = Refusal::TooManyShares { remain: 60 };
    let fault = CodecFault::BadSide { offset: 19 };
    let bad_side = SnapFault::Codec { place: 3, fault };
    let truncated = SnapFault::Frame(FrameFault::Truncated { held: 1 });
    for (fault, want) in [
        (SnapFault::NoEnd, "no end of snapshot"),
        (truncated, "truncated, 1 bytes held"),
        (bad_side, "message 3: bad side at 19"),
        (rule(most), "message 2: too many shares, 60 remain"),
        (rule(Refusal::OutOfMemory), "out of memory"),
        (SnapFault::AfterEnd, "message after end of snapshot"),
        (SnapFault::TooManyMessages, "too many messages"),
    ] {
        same_words(&rt, &fault, want)?;
    }
    Ok(())
}
