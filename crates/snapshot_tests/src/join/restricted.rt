//! Joiners restricted to a set of locates.
use super::{JoinStep, take_steps};
use crate::equal::{Host, TestResult};
use itch_book::{IndexedBook, OrderBook};
use itch_codec::CodecFault;
use itch_join::{Cause, JoinFault, Joiner, Live, Snap};
use itch_market::{LocateSet, Refusal};
use test_doubles::payloads::*;

// Takes a joiner of locate 1 for which `cap` messages may wait through these steps.
fn check<B: OrderBook>(
    rt: &impl Host,
    memory: B::Alloc,
    cap: usize,
    steps: &[JoinStep<'_>],
) -> TestResult {
    let mut set = LocateSet::new(memory);
    set.insert(1)?;
    let mut joiner: Joiner<B> = Joiner::only(memory, cap, set);
    take_steps(rt, &mut joiner, steps)
}

// Messages at other locates are counted in the snapshot and in the feed, but no rule applies to them.
#[test]
fn counts_what_it_skips(rt: HostRuntime) -> TestResult {
    let steps = [
        JoinStep::Live(8, ADD_2, Ok(Live::Kept)),
        JoinStep::Read(&[EVENT, ADD_1_AT_9, AAPL, MSFT]),
        JoinStep::Snapshot(END_6, Ok(Snap::Joined { next: 6 })),
        JoinStep::Live(7, ADD_1_AT_9, Ok(Live::Kept)),
        JoinStep::Live(6, ADD_1, Ok(Live::Applied { next: 9 })),
        JoinStep::Live(9, ADD_1_AT_9, Ok(Live::Applied { next: 10 })),
        JoinStep::Stands(Some(10), 0),
        JoinStep::Market(&[EVENT, AAPL, ADD_1, ADD_2]),
    ];
    check::<IndexedBook>(&rt, rt.alloc(), 2, &steps)
}

// Checks that this payload of message 4 halts the joiner.
fn check_halt(rt: &impl Host, payload: &[u8], cause: Cause) -> TestResult {
    let halted = JoinFault::Halted { number: 4, cause };
    let steps = [
        JoinStep::Read(&[EVENT, MSFT]),
        JoinStep::Snapshot(END_3, Ok(Snap::Joined { next: 3 })),
        JoinStep::Live(3, ADD_1_AT_9, Ok(Live::Applied { next: 4 })),
        JoinStep::Live(4, payload, Err(halted)),
        JoinStep::Stands(Some(4), 0),
        JoinStep::Market(&[EVENT]),
    ];
    check::<IndexedBook>(rt, rt.alloc(), 0, &steps)
}

// A payload that is not a message halts it, for any set, and so does a rule broken at its own locate.
#[test]
fn is_halted_by_what_it_does_not_skip(rt: HostRuntime) -> TestResult {
    for (payload, cause) in [
        (b"" as &[u8], Cause::Codec(CodecFault::Empty)),
        (ADD_1, Cause::Rule(Refusal::UnknownLocate)),
    ] {
        check_halt(&rt, payload, cause)?;
    }
    Ok(())
}
