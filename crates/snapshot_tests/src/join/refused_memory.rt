//! Each growth of a joiner refused in turn, and the calls that allocate no memory.
use super::{
    BEFORE_6, JOINED_AT_3, JoinStep, READ_2, check_market, joiner, live, read, snapshot, stands,
    take_steps,
};
use crate::equal::{Host, TestResult, same};
use itch_book::{IndexedBook, OrderBook};
use itch_join::{Cause, JoinFault, Joiner, Live, Snap};
use itch_market::Refusal;
use std::alloc::Global;
use std::test::Fail;
use test_doubles::Refusing;
use test_doubles::payloads::*;

type Index<'a> = IndexedBook<&'a Refusing<Global>>;

const NOT_TAKEN: JoinFault = JoinFault::OutOfMemory { taken: false };

const TAKEN: JoinFault = JoinFault::OutOfMemory { taken: true };

const HALTED_AT_5: JoinFault = JoinFault::Halted {
    number: 5,
    cause: Cause::Rule(Refusal::UnknownLocate),
};

// More allocations than any test makes: none is refused.
const NONE: u64 = 1_000_000;

// Delivers a message of the live feed with its nth allocation refused, if it makes that many. Returns whether memory was refused.
fn live_short<B: OrderBook>(
    rt: &impl Host,
    refusing: &Refusing<Global>,
    nth: u64,
    joiner: &mut Joiner<B>,
    (number, payload): (u64, &[u8]),
    [done, refused]: [Result<Live, JoinFault>; 2],
) -> bool {
    refusing.arm(nth);
    let result = joiner.live(number, payload);
    let is_refused = refusing.has_refused();
    same(rt, result, if is_refused { refused } else { done });
    is_refused
}

// Delivers a message that must wait with each of its allocations refused in turn, and then with memory. Returns how many were refused.
fn refuse_to_keep<B: OrderBook>(
    rt: &impl Host,
    refusing: &Refusing<Global>,
    joiner: &mut Joiner<B>,
    number: u64,
    waiting: usize,
) -> u64 {
    let results = [Ok(Live::Kept), Err(NOT_TAKEN)];
    for nth in 0..16 {
        if !live_short(rt, refusing, nth, joiner, (number, BROKEN_TRADE), results) {
            stands(rt, joiner, None, waiting.saturating_add(1));
            return nth;
        }
        stands(rt, joiner, None, waiting);
    }
    panic!(rt; "more than 16 allocations")
}

fn check_keeping<B: OrderBook>(rt: &impl Host, refusing: &Refusing<Global>, memory: B::Alloc) {
    let mut joiner: Joiner<B> = joiner(memory, 100);
    for waiting in 0..40usize {
        let number = waiting as u64 + 1;
        assert!(rt; refuse_to_keep(rt, refusing, &mut joiner, number, waiting) > 0);
    }
}

#[test]
fn a_message_that_would_wait(rt: HostRuntime) {
    let refusing = Refusing::new(rt.alloc(), 0);
    check_keeping::<Index<'_>>(&rt, &refusing, &refusing);
}

// Takes a message of the snapshot with each of its allocations refused in turn, and then with memory. Returns how many were refused.
fn refuse_to_read<B: OrderBook>(
    rt: &impl Host,
    refusing: &Refusing<Global>,
    joiner: &mut Joiner<B>,
    payload: &[u8],
) -> u64 {
    for nth in 0..16 {
        refusing.arm(nth);
        let result = joiner.snapshot(payload);
        if !refusing.has_refused() {
            same(rt, result, Ok(Snap::More));
            return nth;
        }
        same(rt, result, Err(NOT_TAKEN));
    }
    panic!(rt; "more than 16 allocations")
}

fn check_reading<B: OrderBook>(
    rt: &impl Host,
    refusing: &Refusing<Global>,
    memory: B::Alloc,
) -> TestResult {
    let mut joiner: Joiner<B> = joiner(memory, 2);
    let mut refused = 0u64;
    for payload in BEFORE_6 {
        refused = refused.saturating_add(refuse_to_read(rt, refusing, &mut joiner, payload));
    }
    assert!(rt; refused > 0);
    refusing.arm(0);
    snapshot(rt, &mut joiner, END_6, Ok(Snap::Joined { next: 6 }));
    assert!(rt; !refusing.has_refused());
    check_market(rt, &joiner, BEFORE_6)
}

#[test]
fn a_message_of_the_snapshot(rt: HostRuntime) -> TestResult {
    let refusing = Refusing::new(rt.alloc(), 0);
    check_reading::<Index<'_>>(&rt, &refusing, &refusing)
}

// As many orders as there is room for, so that the replacement needs memory.
const FOUR_ORDERS: &[&[u8]] = &[AAPL, ADD_1, ADD_2, SELL_3, NAMED_5];

const LEFT: &[&[u8]] = &[AAPL, ADD_2, ADD_4, NAMED_5];

// Messages 7 and 8 wait, and the snapshot contains the first five.
const JOINED_AT_6: &[JoinStep<'static>] = &[
    JoinStep::Live(8, DELETE_3, Ok(Live::Kept)),
    JoinStep::Live(7, REPLACE_1_BY_4, Ok(Live::Kept)),
    JoinStep::Read(FOUR_ORDERS),
    JoinStep::Snapshot(END_6, Ok(Snap::Joined { next: 6 })),
];

// Message 7, which waits already, is refused when it is delivered again, and then applied by `resume`.
const REFUSED_AT_7: &[JoinStep<'static>] = &[
    JoinStep::Live(7, REPLACE_1_BY_4, Err(TAKEN)),
    JoinStep::Stands(Some(7), 2),
];

const RESUMED_AT_7: &[JoinStep<'static>] = &[
    JoinStep::Resume(Err(NOT_TAKEN)),
    JoinStep::Stands(Some(7), 2),
    JoinStep::Resume(Ok(Some(9))),
    JoinStep::Stands(Some(9), 0),
];

fn resume_at_7<B: OrderBook>(
    rt: &impl Host,
    refusing: &Refusing<Global>,
    nth: u64,
    joiner: &mut Joiner<B>,
) -> TestResult {
    stands(rt, joiner, Some(7), 2);
    refusing.arm(nth);
    take_steps(rt, joiner, REFUSED_AT_7)?;
    refusing.arm(nth);
    take_steps(rt, joiner, RESUMED_AT_7)
}

// Applies message 6, with memory refused at message 7, which waits like message 8. Returns whether memory was refused.
fn refuse_at_7<B: OrderBook>(
    rt: &impl Host,
    refusing: &Refusing<Global>,
    nth: u64,
    joiner: &mut Joiner<B>,
) -> Result<bool, Fail> {
    refusing.arm(NONE);
    take_steps(rt, joiner, JOINED_AT_6)?;
    let results = [Ok(Live::Applied { next: 9 }), Err(TAKEN)];
    let is_refused = live_short(rt, refusing, nth, joiner, (6, EXECUTE_1), results);
    if is_refused {
        resume_at_7(rt, refusing, nth, joiner)?;
    }
    check_market(rt, joiner, LEFT)?;
    Ok(is_refused)
}

// Does this with a new joiner for each allocation. Returns how many were refused.
fn refuse_waiting<B: OrderBook>(
    rt: &impl Host,
    memory: B::Alloc,
    refusing: &Refusing<Global>,
) -> Result<u64, Fail> {
    for nth in 0..16 {
        let mut joiner: Joiner<B> = joiner(memory, 2);
        if !refuse_at_7(rt, refusing, nth, &mut joiner)? {
            return Ok(nth);
        }
    }
    panic!(rt; "more than 16 allocations")
}

#[test]
fn a_waiting_message(rt: HostRuntime) -> TestResult {
    let refusing = Refusing::new(rt.alloc(), NONE);
    let refused = refuse_waiting::<Index<'_>>(&rt, &refusing, &refusing)?;
    assert!(rt; refused > 0);
    Ok(())
}

// Delivers the next message, which does not wait, with each of its allocations refused in turn. It is not taken, and is delivered again.
// Returns how many were refused.
fn refuse_at_3<B: OrderBook>(
    rt: &impl Host,
    refusing: &Refusing<Global>,
    joiner: &mut Joiner<B>,
) -> Result<u64, Fail> {
    let results = [Ok(Live::Applied { next: 4 }), Err(NOT_TAKEN)];
    for nth in 0..16 {
        if !live_short(rt, refusing, nth, joiner, (3, ADD_1), results) {
            return Ok(nth);
        }
        stands(rt, joiner, Some(3), 0);
        check_market(rt, joiner, &[EVENT, AAPL])?;
    }
    panic!(rt; "more than 16 allocations")
}

fn check_next<B: OrderBook>(
    rt: &impl Host,
    refusing: &Refusing<Global>,
    memory: B::Alloc,
) -> TestResult {
    let mut joiner: Joiner<B> = joiner(memory, 2);
    take_steps(rt, &mut joiner, &[READ_2, JOINED_AT_3])?;
    assert!(rt; refuse_at_3(rt, refusing, &mut joiner)? > 0);
    check_market(rt, &joiner, &[EVENT, AAPL, ADD_1])
}

#[test]
fn the_next_message(rt: HostRuntime) -> TestResult {
    let refusing = Refusing::new(rt.alloc(), NONE);
    check_next::<Index<'_>>(&rt, &refusing, &refusing)
}

// Checks that the joiner has joined in spite of this, and continues.
fn check_end<B: OrderBook>(
    rt: &impl Host,
    refusing: &Refusing<Global>,
    memory: B::Alloc,
) -> TestResult {
    let mut joiner: Joiner<B> = joiner(memory, 2);
    live(rt, &mut joiner, 3, ADD_1, Ok(Live::Kept));
    read(rt, &mut joiner, &[EVENT, AAPL]);
    refusing.arm(0);
    let steps = [
        JoinStep::Snapshot(END_3, Err(TAKEN)),
        JoinStep::Stands(Some(3), 1),
        JoinStep::Snapshot(END_3, Err(JoinFault::Joined)),
        JoinStep::Resume(Ok(Some(4))),
        JoinStep::Market(&[EVENT, AAPL, ADD_1]),
    ];
    take_steps(rt, &mut joiner, &steps)
}

#[test]
fn the_end_of_the_snapshot(rt: HostRuntime) -> TestResult {
    let refusing = Refusing::new(rt.alloc(), NONE);
    check_end::<Index<'_>>(&rt, &refusing, &refusing)
}

// No call allocates memory before the second message.
const BEFORE_MEMORY: &[JoinStep<'static>] = &[
    JoinStep::Restart,
    JoinStep::Resume(Ok(None)),
    JoinStep::Stands(None, 0),
    JoinStep::Live(0, EVENT, Err(JoinFault::BadNumber)),
    JoinStep::Snapshot(EVENT, Ok(Snap::More)),
];

// The second message, and the fourth, which waits.
const WITH_MEMORY: &[JoinStep<'static>] = &[
    JoinStep::Snapshot(AAPL, Ok(Snap::More)),
    JoinStep::Live(4, CLOSES, Ok(Live::Kept)),
];

// No call allocates memory after that.
const AFTER_MEMORY: &[JoinStep<'static>] = &[
    JoinStep::Live(4, CLOSES, Ok(Live::Kept)),
    JoinStep::Live(4, EVENT, Err(JoinFault::Conflict { number: 4 })),
    JoinStep::Live(5, EVENT, Err(JoinFault::Full { cap: 1 })),
    JoinStep::Snapshot(END_3, Ok(Snap::Joined { next: 3 })),
    JoinStep::Live(1, EVENT, Ok(Live::Old)),
    JoinStep::Live(3, EVENT, Ok(Live::Applied { next: 5 })),
    JoinStep::Live(5, ADD_1_AT_9, Err(HALTED_AT_5)),
    JoinStep::Resume(Err(HALTED_AT_5)),
];

fn check_without_memory<B: OrderBook>(
    rt: &impl Host,
    refusing: &Refusing<Global>,
    memory: B::Alloc,
) -> TestResult {
    let mut joiner: Joiner<B> = joiner(memory, 1);
    take_steps(rt, &mut joiner, BEFORE_MEMORY)?;
    assert!(rt; !refusing.has_refused());
    refusing.arm(NONE);
    take_steps(rt, &mut joiner, WITH_MEMORY)?;
    refusing.arm(0);
    take_steps(rt, &mut joiner, AFTER_MEMORY)?;
    assert!(rt; !refusing.has_refused());
    Ok(())
}

#[test]
fn calls_that_take_no_memory(rt: HostRuntime) -> TestResult {
    let refusing = Refusing::new(rt.alloc(), 0);
    check_without_memory::<Index<'_>>(&rt, &refusing, &refusing)
}
