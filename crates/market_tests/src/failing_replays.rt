//! Replays of a day file in which a read fails.
use crate::book::has_len;
use crate::equal::{Host, TestResult, holds_in, same_in};
use itch_book::{IndexedBook, ListBook, OrderBook};
use itch_frame::{BlockReader, FrameFault};
use itch_market::{Market, Stop};
use test_doubles::PieceReader;
use test_doubles::days::{Blocks, REPLACED, blocks, replayed};

// The ends of the four blocks of the day.
const ENDS: [usize; 4] = [41, 83, 121, 158];

// Returns how many blocks of the day end in its first `at` bytes.
fn whole_blocks(at: usize) -> u64 {
    ENDS.iter().filter(|end| **end <= at).count() as u64
}

// Checks that, if the read of the byte after the first `at` fails, the messages before it are counted, and a second replay continues.
fn goes_on<B: OrderBook>(
    rt: &impl Host,
    reader: &mut Blocks<'_>,
    market: &mut Market<B>,
    at: usize,
) {
    let (first, stop) = replayed(reader, market);
    let has_failed = matches!(stop, Stop::Frame(FrameFault::Read(_)));
    holds_in(rt, ("byte", at), has_failed);
    same_in(rt, ("byte", at), first, whole_blocks(at));
    let (second, stop) = replayed(reader, market);
    holds_in(rt, ("byte", at), matches!(stop, Stop::End));
    same_in(rt, ("byte", at), first.saturating_add(second), 4);
    has_len(rt, market.book(), 2);
}

// Checks this for each byte of the day, with a market in this memory.
fn check_each<B: OrderBook>(rt: &impl Host, memory: B::Alloc) -> TestResult {
    let day = blocks(rt.alloc(), REPLACED)?;
    for at in 0..158usize {
        let bytes = PieceReader::new(day.written(), 1, Some(at as u64 + 1));
        let mut reader = BlockReader::new(rt.alloc(), bytes)?;
        let mut market: Market<B> = Market::new(memory);
        goes_on(rt, &mut reader, &mut market, at);
    }
    Ok(())
}

#[test]
fn a_replay_goes_on(rt: HostRuntime) -> TestResult {
    check_each::<IndexedBook>(&rt, rt.alloc())
}

#[test]
fn a_replay_over_a_list_goes_on(rt: HostRuntime) -> TestResult {
    check_each::<ListBook>(&rt, rt.alloc())
}
