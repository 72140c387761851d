//! Joiners that take the messages of a day.
use super::{BEFORE_6, check_market, joiner, read, snapshot, stands};
use crate::equal::{Host, TestResult, same};
use itch_book::{IndexedBook, OrderBook};
use itch_day::{Limit, PartStop, read_part};
use itch_frame::BlockReader;
use itch_join::{Joiner, Snap};
use itch_market::{Refusal, Refused};
use test_doubles::PieceReader;
use test_doubles::days::{Blocks, blocks};
use test_doubles::payloads::*;

// An Add Order without its fields, which is not a valid message.
const NOTHING: &[u8] = b"A";

// Returns a word for a stop.
fn word(stop: &PartStop<Refused>) -> &'static str {
    match stop {
        PartStop::Full => "full",
        PartStop::Late => "late",
        PartStop::End => "end",
        PartStop::Frame(_) => "frame",
        PartStop::TooMany => "too many",
        PartStop::Refused(Refused::Codec(_)) => "undecoded",
        PartStop::Refused(Refused::Rule(Refusal::UnknownLocate)) => "unknown locate",
        PartStop::Refused(Refused::Rule(_)) => "another rule",
    }
}

// Passes the messages of a day to a joiner from the first one on, if it is ready. Returns what stops it, and after how many messages.
fn take_part<B: OrderBook>(
    reader: &mut Blocks<'_>,
    joiner: &mut Joiner<B>,
    limit: Limit,
) -> (&'static str, u64) {
    if !joiner.may_take(1) {
        return ("not ready", 0);
    }
    let mut count = 0;
    let stop = read_part(reader, &mut count, joiner, limit);
    (word(&stop), count)
}

// Checks how much of a day with these payloads a joiner takes.
fn takes<B: OrderBook>(
    rt: &impl Host,
    joiner: &mut Joiner<B>,
    day: &[&[u8]],
    limit: Limit,
    want: (&'static str, u64),
) -> TestResult {
    let day = blocks(rt.alloc(), day)?;
    let mut reader = BlockReader::new(rt.alloc(), PieceReader::new(day.written(), 64, None))?;
    let taken = take_part(&mut reader, joiner, limit);
    same(rt, taken.0, want.0);
    same(rt, taken.1, want.1);
    Ok(())
}

// Checks a joiner that has joined at the sixth message, with a day whose earlier messages are invalid.
fn check_from_6<B: OrderBook>(rt: &impl Host, memory: B::Alloc) -> TestResult {
    let mut joiner: Joiner<B> = joiner(memory, 0);
    read(rt, &mut joiner, BEFORE_6);
    takes(rt, &mut joiner, &[EVENT], Limit::whole(), ("not ready", 0))?;
    snapshot(rt, &mut joiner, END_6, Ok(Snap::Joined { next: 6 }));
    let day = [
        NOTHING, NOTHING, NOTHING, NOTHING, NOTHING, DELETE_3, CLOSES,
    ];
    takes(rt, &mut joiner, &day, Limit::counted(Some(6)), ("full", 6))?;
    stands(rt, &joiner, Some(7), 0);
    check_market(rt, &joiner, &[EVENT, AAPL, ADD_1, ADD_2])?;
    takes(rt, &mut joiner, &day, Limit::whole(), ("end", 7))?;
    stands(rt, &joiner, Some(8), 0);
    Ok(())
}

#[test]
fn takes_a_day_from_its_next_message(rt: HostRuntime) -> TestResult {
    check_from_6::<IndexedBook>(&rt, rt.alloc())
}

// Checks that a joiner that has joined at the third message is stopped by this one, and takes nothing afterwards.
fn check_third<B: OrderBook>(
    rt: &impl Host,
    memory: B::Alloc,
    payload: &[u8],
    stop: &'static str,
) -> TestResult {
    let mut joiner: Joiner<B> = joiner(memory, 0);
    read(rt, &mut joiner, &[EVENT, AAPL]);
    snapshot(rt, &mut joiner, END_3, Ok(Snap::Joined { next: 3 }));
    let day = [EVENT, AAPL, payload, ADD_1];
    takes(rt, &mut joiner, &day, Limit::whole(), (stop, 2))?;
    stands(rt, &joiner, Some(3), 0);
    takes(rt, &mut joiner, &day, Limit::whole(), ("not ready", 0))?;
    check_market(rt, &joiner, &[EVENT, AAPL])
}

#[test]
fn stops_at_a_message_that_is_refused(rt: HostRuntime) -> TestResult {
    for (payload, stop) in [(ADD_1_AT_9, "unknown locate"), (NOTHING, "undecoded")] {
        check_third::<IndexedBook>(&rt, rt.alloc(), payload, stop)?;
    }
    Ok(())
}
