//! One session served and fetched.
use crate::equal::{Host, TestResult, same};
use crate::sessions::{
    FROM_1, FROM_3, LOGIN_1, LOGIN_3, fetch, fetch_fault, serve, serve_from, served_market,
    third_fetched,
};
use itch_book::{ListBook, OrderBook};
use itch_frame::{BlockReader, FrameFault};
use itch_market::Market;
use itch_soup::{Served, SoupFault};
use test_doubles::days::Blocks;
use test_doubles::{FuseWriter, PieceReader};

// A login is read as the length and, in pieces of seven bytes, the 47 bytes.
const LOGIN_READS: u64 = 1 + 7;

// Serves a login, where one read may fail. If it fails, nothing was written, and a second call continues.
fn serve_again<B: OrderBook>(
    rt: &impl Host,
    reader: &mut Blocks<'_>,
    writer: &mut FuseWriter,
    market: &Market<B>,
    nth: u64,
) {
    let mut served = serve(rt, reader, writer, market);
    same(rt, served.is_err(), nth <= LOGIN_READS);
    if served.is_err() {
        assert!(rt; matches!(served, Err(SoupFault::Frame(FrameFault::Read(_)))));
        assert!(rt; writer.written().is_empty());
        served = serve(rt, reader, writer, market);
    }
    assert!(rt; matches!(served, Ok(Served::Accepted { packets: 3, .. })));
}

fn each_is_served_again<B: OrderBook>(rt: &impl Host, market: &Market<B>) -> TestResult {
    for nth in 1..20 {
        let reader = PieceReader::new(LOGIN_3, 7, Some(nth));
        let mut reader = BlockReader::new(rt.alloc(), reader)?;
        let mut writer = FuseWriter::new(rt.alloc(), 64, None);
        serve_again(rt, &mut reader, &mut writer, market, nth);
        same(rt, writer.written(), FROM_3);
    }
    Ok(())
}

#[test]
fn a_login_is_read_again(rt: HostRuntime) -> TestResult {
    each_is_served_again(&rt, &served_market(rt.alloc())?)
}

// The length of each packet, and in pieces of seven its 31, 13, 40, 37, 37 and 22 bytes.
const ANSWER_READS: u64 = 6 + 5 + 2 + 6 + 6 + 6 + 4;

// The length of each packet, and in pieces of seven its 31, 37, 37 and 22 bytes.
const REST_READS: u64 = 4 + 5 + 6 + 6 + 4;

// Checks that a fetch fails if one of its reads fails.
fn has_failed(rt: &impl Host, fault: Option<SoupFault>, nth: u64, reads: u64) {
    let has_failed = matches!(fault, Some(SoupFault::Frame(FrameFault::Read(_))));
    same(rt, has_failed, nth <= reads);
    same(rt, fault.is_some(), has_failed);
}

#[test]
fn an_answer_is_not_read(rt: HostRuntime) -> TestResult {
    for nth in 1..60 {
        let reader = PieceReader::new(FROM_1, 7, Some(nth));
        has_failed(&rt, fetch_fault(&rt, reader)?, nth, ANSWER_READS);
    }
    Ok(())
}

#[test]
fn a_rest_is_not_read(rt: HostRuntime) -> TestResult {
    for nth in 1..40 {
        let reader = PieceReader::new(FROM_3, 7, Some(nth));
        let fault = third_fetched(&rt, rt.alloc(), reader)?.err();
        has_failed(&rt, fault, nth, REST_READS);
    }
    Ok(())
}

// Checks that a proper prefix of these bytes was written.
fn is_cut(rt: &impl Host, written: &[u8], whole: &[u8]) {
    assert!(rt; written.len() < whole.len());
    assert!(rt; whole.starts_with(written));
}

// An answer is written, in pieces of seven, as 2 and 31 bytes, two orders of 3 and 36, 3 and 20, and 2 and 1.
const ANSWER_WRITES: u64 = (1 + 5) + (1 + 6) + (1 + 6) + (1 + 3) + (1 + 1);

// Checks that the complete answer was written, or a prefix if a write failed.
fn is_written_up_to(rt: &impl Host, fault: Option<SoupFault>, written: &[u8]) {
    match fault {
        None => same(rt, written, FROM_3),
        Some(fault) => {
            assert!(rt; matches!(fault, SoupFault::Frame(FrameFault::Write { .. })));
            is_cut(rt, written, FROM_3);
        }
    }
}

fn each_is_served_in_part<B: OrderBook>(rt: &impl Host, market: &Market<B>) -> TestResult {
    for nth in 1..50 {
        let mut writer = FuseWriter::new(rt.alloc(), 7, Some(nth));
        let reader = PieceReader::new(LOGIN_3, 64, None);
        let served = serve_from(rt, reader, &mut writer, market)?;
        same(rt, served.is_err(), nth <= ANSWER_WRITES);
        is_written_up_to(rt, served.err(), writer.written());
    }
    Ok(())
}

#[test]
fn an_answer_is_written_in_part(rt: HostRuntime) -> TestResult {
    each_is_served_in_part(&rt, &served_market(rt.alloc())?)
}

// Returns the length of the next block.
fn next_len(rt: &impl Host, reader: &mut Blocks<'_>) -> Result<usize, FrameFault> {
    Ok(reader.next_block()?.expect(rt, "a block").len())
}

// Checks a login, which is written as the length and, in pieces of seven, the 47 bytes. If it is not written completely, nothing is read.
fn logged_in_in_part<B: OrderBook>(rt: &impl Host, memory: B::Alloc, nth: u64) -> TestResult {
    let mut reader = BlockReader::new(rt.alloc(), PieceReader::new(FROM_1, 64, None))?;
    let mut writer = FuseWriter::new(rt.alloc(), 7, Some(nth));
    let fault = fetch::<B>(rt, memory, &mut reader, &mut writer).err();
    same(rt, fault.is_some(), nth <= LOGIN_READS);
    if fault.is_some() {
        assert!(rt; matches!(fault, Some(SoupFault::Frame(FrameFault::Write { .. }))));
        is_cut(rt, writer.written(), LOGIN_1);
        same(rt, next_len(rt, &mut reader)?, 31);
    }
    Ok(())
}

#[test]
fn a_login_is_written_in_part(rt: HostRuntime) -> TestResult {
    for nth in 1..20 {
        logged_in_in_part::<ListBook>(&rt, rt.alloc(), nth)?;
    }
    Ok(())
}
