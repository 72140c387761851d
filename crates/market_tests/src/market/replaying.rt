//! Replays that fail in the middle, and continue.
use crate::equal::{Host, TestResult, same};
use itch_book::{ListBook, OrderBook};
use itch_frame::BlockReader;
use itch_market::{Market, Refusal, Stop, replay_first};
use test_doubles::PieceReader;
use test_doubles::days::{Blocks, blocks, replayed};
use test_doubles::payloads::{AAPL, ADD_2};

// Applies the first two messages.
fn replay_two<B: OrderBook>(rt: &impl Host, reader: &mut Blocks<'_>, market: &mut Market<B>) {
    let (count, stop) = replay_first(reader, market, 2);
    same(rt, count, 2);
    assert!(rt; stop.is_none());
}

// Checks that a refused message ends a replay, and that the next replay begins after it.
fn goes_on<B: OrderBook>(rt: &impl Host, reader: &mut Blocks<'_>, market: &mut Market<B>) {
    let (count, stop) = replayed(reader, market);
    same(rt, count, 2);
    assert!(rt; matches!(stop, Stop::Rule(Refusal::DuplicateRef)));
    let (count, stop) = replayed(reader, market);
    same(rt, count, 1);
    assert!(rt; matches!(stop, Stop::End));
}

// Replays the first two messages only, or all: then the third one is refused, and the fourth is applied.
fn check<B: OrderBook>(rt: &impl Host, memory: B::Alloc, is_whole: bool) -> TestResult {
    let day = blocks(rt.alloc(), &[AAPL, ADD_2, ADD_2, AAPL])?;
    let mut reader = BlockReader::new(rt.alloc(), PieceReader::new(day.written(), 64, None))?;
    let mut market: Market<B> = Market::new(memory);
    if is_whole {
        goes_on(rt, &mut reader, &mut market);
    } else {
        replay_two(rt, &mut reader, &mut market);
    }
    Ok(())
}

#[test]
fn a_refused_message_is_read_and_not_counted(rt: HostRuntime) -> TestResult {
    check::<ListBook>(&rt, rt.alloc(), true)?;
    check::<ListBook>(&rt, rt.alloc(), false)
}
