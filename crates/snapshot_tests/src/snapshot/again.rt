//! Snapshots written, read and written again, and a day cut at each of its messages.
use super::{REPLACED_SNAPSHOT, are_same, blocks, market, seq, write};
use crate::equal::{Host, TestResult, same};
use crate::files::{read, replay_from};
use itch_book::{ListBook, OrderBook};
use itch_codec::Seq;
use itch_market::{Market, Stop};
use itch_snapshot::laws;
use std::test::Fail;
use test_doubles::payloads::*;
use test_doubles::{FuseWriter, PieceReader};

#[test]
fn the_laws_of_files() {
    laws::written_snapshot();
    laws::rewritten_snapshot();
    laws::one_file();
    laws::two_day_files();
    laws::cut_day_file();
}

// Returns the snapshot of a small market, closed with this number.
fn written<B: OrderBook>(
    rt: &impl Host,
    market: &Market<B>,
    next: Seq,
) -> Result<FuseWriter, Fail> {
    let mut writer = FuseWriter::new(rt.alloc(), 3, None);
    write(rt, market, next, &mut writer)?;
    Ok(writer)
}

// Checks that the market of the payloads in `file` is written as those in `want`, and that these are read and written as they are.
fn check_file<B: OrderBook>(
    rt: &impl Host,
    memory: B::Alloc,
    file: &[&[u8]],
    want: &[&[u8]],
) -> TestResult {
    let (file, want) = (blocks(rt.alloc(), file)?, blocks(rt.alloc(), want)?);
    let (market, next): (Market<B>, Seq) = read(rt.alloc(), memory, file.written())?;
    same(rt, written(rt, &market, next)?.written(), want.written());
    let (again, number): (Market<B>, Seq) = read(rt.alloc(), memory, want.written())?;
    assert!(rt; are_same(rt, &market, &again));
    same(rt, number.value(), next.value());
    same(rt, written(rt, &again, number)?.written(), want.written());
    Ok(())
}

#[test]
fn written_again_all_bytes_are_equal(rt: HostRuntime) -> TestResult {
    let files: [(&[&[u8]], &[&[u8]]); 4] = [
        (&[END_1], &[END_1]),
        (REPLACED_SNAPSHOT, REPLACED_SNAPSHOT),
        (
            &[AAPL_LATER, TRADES_X, ADD_7_OF_150, END_4],
            &[AAPL, TRADES, ADD_7_OF_150, END_4],
        ),
        (
            &[MSFT, EVENT, AAPL, RESTRICTS, TRADES, END_6],
            &[EVENT, AAPL, TRADES, RESTRICTS, MSFT, END_6],
        ),
    ];
    for (file, want) in files {
        check_file::<ListBook>(&rt, rt.alloc(), file, want)?;
    }
    Ok(())
}

// Returns the market read from the snapshot of the first messages of a day.
fn late_start<B: OrderBook>(
    rt: &impl Host,
    memory: B::Alloc,
    early: &[&[u8]],
) -> Result<Market<B>, Fail> {
    let next = seq(rt, (early.len() as u64).saturating_add(1));
    let early: Market<B> = market(rt.alloc(), memory, early)?;
    let snapshot = written(rt, &early, next)?;
    let (late, _next) = read(rt.alloc(), memory, snapshot.written())?;
    Ok(late)
}

// Checks that the snapshot of a day's first messages and the other messages lead to the same market as the day.
fn check_cut<B: OrderBook>(
    rt: &impl Host,
    memory: B::Alloc,
    (early, rest): (&[&[u8]], &[&[u8]]),
    whole: &Market<B>,
) -> TestResult {
    let mut late: Market<B> = late_start(rt, memory, early)?;
    let bytes = blocks(rt.alloc(), rest)?;
    let reader = PieceReader::new(bytes.written(), 7, None);
    let end = replay_from(rt.alloc(), reader, &mut late)?;
    same(rt, end.count, rest.len() as u64);
    assert!(rt; matches!(end.stop, Stop::End));
    assert!(rt; are_same(rt, whole, &late));
    Ok(())
}

fn check_cuts<B: OrderBook>(rt: &impl Host, memory: B::Alloc, day: &[&[u8]]) -> TestResult {
    let whole: Market<B> = market(rt.alloc(), memory, day)?;
    for cut in 0..=day.len() {
        check_cut(rt, memory, day.split_at(cut), &whole)?;
    }
    Ok(())
}

const DAY: &[&[u8]] = &[
    EVENT, AAPL, NAMED_1, ADD_2, REPLACE_1, RESTRICTS, TRADES, MSFT,
];

#[test]
fn a_snapshot_stands_for_the_messages_before_it(rt: HostRuntime) -> TestResult {
    check_cuts::<ListBook>(&rt, rt.alloc(), DAY)
}
