//! The worked files with both books: the result of replaying each, and the snapshot of the final market.

use super::{check_snapshot, file_of};
use crate::equal::{Host, TestResult, same, same_words};
use crate::files::{REPLACED_SNAPSHOT, replay_from};
use itch_book::{IndexedBook, ListBook, OrderBook};
use itch_market::Market;
use test_doubles::days::REPLACED;
use test_doubles::payloads::*;
use test_doubles::{FuseWriter, PieceReader};

// A file, the result of its replay, and the snapshot of the final market.
#[derive(Clone, Copy)]
struct File<'a> {
    payloads: &'a [&'a [u8]],
    // The bytes after their blocks.
    rest: &'a [u8],
    // Why the replay stops, and how many messages of the file are not applied.
    stop: &'a str,
    left: u64,
    snapshot: &'a [&'a [u8]],
}

// Checks the effect of a file on an empty market.
fn check_market<B: OrderBook>(
    rt: &impl Host,
    market: &mut Market<B>,
    file: File<'_>,
) -> TestResult {
    let bytes = file_of(rt.alloc(), file.payloads, file.rest)?;
    let end = replay_from(rt.alloc(), PieceReader::new(&bytes, 1, None), market)?;
    same(
        rt,
        end.count,
        (file.payloads.len() as u64).saturating_sub(file.left),
    );
    same_words(rt, &end.stop, file.stop)?;
    for piece in [1, 64] {
        let writer = FuseWriter::new(rt.alloc(), piece, None);
        check_snapshot(
            rt,
            market,
            end.count.saturating_add(1),
            writer,
            file.snapshot,
        )?;
    }
    Ok(())
}

// Checks a file with a book in this memory.
fn check<B: OrderBook>(rt: &impl Host, memory: B::Alloc, file: File<'_>) -> TestResult {
    let mut market: Market<B> = Market::new(memory);
    check_market(rt, &mut market, file)
}

// Files that are replayed to their end, and their snapshots.
const WHOLE: [(&[&[u8]], &[&[u8]]); 13] = [
    (&[], &[END_1]),
    (&[EVENT, AAPL, ADD_1], &[EVENT, AAPL, ADD_1, END_4]),
    (&[MAX, SELL_MAX], &[MAX, SELL_MAX, END_3]),
    (
        &[AAPL, ADD_1, ADD_2_HIGHER, ADD_3, ADD_4_HIGHER],
        &[AAPL, ADD_2_HIGHER, ADD_4_HIGHER, ADD_1, ADD_3, END_6],
    ),
    (
        &[AAPL, ADD_2_HIGHER, ADD_4_HIGHER, ADD_1, ADD_3],
        &[AAPL, ADD_2_HIGHER, ADD_4_HIGHER, ADD_1, ADD_3, END_6],
    ),
    (
        &[AAPL, TRADES_0, ADD_7, EXECUTE_7, CANCEL_7],
        &[AAPL, TRADES, ADD_7_OF_150, END_6],
    ),
    (
        &[AAPL_LATER, TRADES_X, ADD_7_OF_150],
        &[AAPL, TRADES, ADD_7_OF_150, END_4],
    ),
    (REPLACED, REPLACED_SNAPSHOT),
    (&[AAPL, ADD_1, DELETE_1, ADD_1], &[AAPL, ADD_1, END_5]),
    (&[AAPL, ADD_1, EXECUTE_0], &[AAPL, ADD_1, END_4]),
    (&[AAPL, ADD_1, EXECUTE_100], &[AAPL, END_4]),
    (&[AAPL, ADD_1, AAPL_OF_200], &[AAPL_OF_200, ADD_1, END_4]),
    (
        &[MSFT, EVENT, AAPL, RESTRICTS, TRADES],
        &[EVENT, AAPL, TRADES, RESTRICTS, MSFT, END_6],
    ),
];

// Checks the files that are replayed to their end, and bytes after the end.
fn check_whole<B: OrderBook>(rt: &impl Host, memory: B::Alloc) -> TestResult {
    let mut file = File {
        payloads: &[EVENT, AAPL, ADD_1],
        rest: b"\0\0\xde\xad\xbe\xef\x01",
        stop: "end of input",
        left: 0,
        snapshot: &[EVENT, AAPL, ADD_1, END_4],
    };
    check::<B>(rt, memory, file)?;
    file.rest = b"";
    for (payloads, snapshot) in WHOLE {
        file.payloads = payloads;
        file.snapshot = snapshot;
        check::<B>(rt, memory, file)?;
    }
    Ok(())
}

// Files whose last message is refused or invalid, the reason, and the snapshots of the messages before it.
const REFUSED: [(&str, &[&[u8]], &[&[u8]]); 13] = [
    ("duplicate reference", &[AAPL, ADD_1, ADD_1], ONE_ORDER_3),
    (
        "unknown reference",
        &[AAPL, ADD_1, EXECUTE_100, DELETE_1],
        &[AAPL, END_4],
    ),
    (
        "too many shares, 100 remain",
        &[AAPL, ADD_1, EXECUTE_101],
        ONE_ORDER_3,
    ),
    (
        "too many shares, 60 remain",
        &[AAPL, ADD_1, CANCEL_40, PRICED_61],
        &[AAPL, ADD_1_OF_60, END_4],
    ),
    ("stock mismatch", &[AAPL, MSFT_AT_1], &[AAPL, END_2]),
    (
        "locate mismatch",
        &[AAPL, MSFT, ADD_1, EXECUTE_AT_2],
        TWO_STOCKS,
    ),
    (
        "duplicate reference",
        &[AAPL, MSFT, ADD_1, REPLACE_BY_ITSELF],
        TWO_STOCKS,
    ),
    (
        "zero shares",
        &[AAPL, MSFT, ADD_1, REPLACE_BY_0],
        TWO_STOCKS,
    ),
    (
        "locate mismatch",
        &[AAPL, MSFT, ADD_1, REPLACE_AT_2],
        TWO_STOCKS,
    ),
    ("zero shares", &[AAPL, MSFT, ADD_1, ADD_0], TWO_STOCKS),
    (
        "unknown locate",
        &[AAPL, MSFT, ADD_1, ADD_9_AT_3],
        TWO_STOCKS,
    ),
    (
        "unknown reference",
        &[AAPL, MSFT, ADD_1, DELETE_9],
        TWO_STOCKS,
    ),
    ("unexpected end", &[AAPL, MSFT, ADD_1, END_4], TWO_STOCKS),
];

const ONE_ORDER_3: &[&[u8]] = &[AAPL, ADD_1, END_3];

const TWO_STOCKS: &[&[u8]] = &[AAPL, ADD_1, MSFT, END_4];

// Checks the files whose last message is refused.
fn check_refused<B: OrderBook>(rt: &impl Host, memory: B::Alloc) -> TestResult {
    for (stop, payloads, snapshot) in REFUSED {
        let file = File {
            payloads,
            rest: b"",
            stop,
            left: 1,
            snapshot,
        };
        check::<B>(rt, memory, file)?;
    }
    Ok(())
}

#[test]
fn the_list_book_gives_the_worked_files(rt: HostRuntime) -> TestResult {
    check_whole::<ListBook>(&rt, rt.alloc())?;
    check_refused::<ListBook>(&rt, rt.alloc())
}

#[test]
fn the_indexed_book_gives_the_worked_files(rt: HostRuntime) -> TestResult {
    check_whole::<IndexedBook>(&rt, rt.alloc())?;
    check_refused::<IndexedBook>(&rt, rt.alloc())
}
