//! Joins, by the results of their calls and the markets that they lead to. The helpers take a joiner with any book.
use crate::equal::{Host, TestResult, same, same_in, same_words};
use itch_book::{IndexedBook, ListBook, OrderBook};
use itch_codec::{CodecFault, Message, encode};
use itch_join::{Cause, JoinFault, Joiner, Live, Snap, laws};
use itch_market::{Market, Refusal};
use itch_snapshot::SnapshotIter;
use std::alloc::{AllocError, Global};
use test_doubles::payloads::*;

mod refused_memory;
mod restricted;
mod sink;

// The snapshot of the messages before the sixth, without its End of Snapshot.
const BEFORE_6: &[&[u8]] = &[EVENT, AAPL, ADD_1, ADD_2, SELL_3];

// Returns a joiner for which `cap` messages may wait. This helper and those for one call and its result have no contract, so that a proof of
// a test does not have to know the effect of each call.
fn joiner<B: OrderBook>(memory: B::Alloc, cap: usize) -> Joiner<B> {
    Joiner::new(memory, cap)
}

fn live<B: OrderBook>(
    rt: &impl Host,
    joiner: &mut Joiner<B>,
    number: u64,
    payload: &[u8],
    want: Result<Live, JoinFault>,
) {
    same_in(rt, ("message", number), joiner.live(number, payload), want);
}

fn snapshot<B: OrderBook>(
    rt: &impl Host,
    joiner: &mut Joiner<B>,
    payload: &[u8],
    want: Result<Snap, JoinFault>,
) {
    same(rt, joiner.snapshot(payload), want);
}

// Checks the next number, which exists if there is a market, and how many messages wait.
fn stands<B: OrderBook>(rt: &impl Host, joiner: &Joiner<B>, next: Option<u64>, waiting: usize) {
    same(rt, joiner.next(), next);
    same(rt, joiner.market().is_some(), next.is_some());
    same(rt, joiner.waiting(), waiting);
}

// Takes messages of a snapshot before its end.
fn read<B: OrderBook>(rt: &impl Host, joiner: &mut Joiner<B>, payloads: &[&[u8]]) {
    for payload in payloads {
        snapshot(rt, joiner, payload, Ok(Snap::More));
    }
}

// Returns the payloads of a market's snapshot, one after another.
fn spelled<B: OrderBook>(alloc: Global, market: &Market<B>) -> Result<Vec<u8>, AllocError> {
    let mut bytes = Vec::new(alloc);
    for message in SnapshotIter::new(market) {
        push(&mut bytes, &message)?;
    }
    Ok(bytes)
}

fn push(bytes: &mut Vec<u8>, message: &Message<'_>) -> Result<(), AllocError> {
    bytes.extend_from_slice(encode(message).bytes())
}

// Checks that the snapshot of the joiner's market consists of these messages.
fn check_market<B: OrderBook>(rt: &impl Host, joiner: &Joiner<B>, want: &[&[u8]]) -> TestResult {
    let market = joiner.market().ok_or("a market")?;
    let found = spelled(rt.alloc(), market)?;
    let mut bytes = Vec::new(rt.alloc());
    for payload in want {
        bytes.extend_from_slice(payload)?;
    }
    same(rt, found.as_slice(), bytes.as_slice());
    Ok(())
}

// A call of a joiner with its result, or the state expected at that point.
#[derive(Clone, Copy)]
enum JoinStep<'a> {
    Live(u64, &'a [u8], Result<Live, JoinFault>),
    Snapshot(&'a [u8], Result<Snap, JoinFault>),
    // Messages of a snapshot before its end.
    Read(&'a [&'a [u8]]),
    Resume(Result<Option<u64>, JoinFault>),
    Restart,
    // The next number, if there is a market, and how many messages wait.
    Stands(Option<u64>, usize),
    Waiting(usize),
    // The snapshot of the market consists of these messages.
    Market(&'a [&'a [u8]]),
}

fn take_step<B: OrderBook>(
    rt: &impl Host,
    joiner: &mut Joiner<B>,
    step: JoinStep<'_>,
) -> TestResult {
    match step {
        JoinStep::Live(number, payload, want) => live(rt, joiner, number, payload, want),
        JoinStep::Snapshot(payload, want) => snapshot(rt, joiner, payload, want),
        JoinStep::Read(payloads) => read(rt, joiner, payloads),
        JoinStep::Resume(want) => same(rt, joiner.resume(), want),
        JoinStep::Restart => joiner.restart(),
        JoinStep::Stands(next, waiting) => stands(rt, joiner, next, waiting),
        JoinStep::Waiting(want) => same(rt, joiner.waiting(), want),
        JoinStep::Market(want) => check_market(rt, joiner, want)?,
    }
    Ok(())
}

fn take_steps<B: OrderBook>(
    rt: &impl Host,
    joiner: &mut Joiner<B>,
    steps: &[JoinStep<'_>],
) -> TestResult {
    for step in steps {
        take_step(rt, joiner, *step)?;
    }
    Ok(())
}

// Takes a joiner for which `cap` messages may wait through these steps.
fn check<B: OrderBook>(
    rt: &impl Host,
    memory: B::Alloc,
    cap: usize,
    steps: &[JoinStep<'_>],
) -> TestResult {
    let mut joiner: Joiner<B> = joiner(memory, cap);
    take_steps(rt, &mut joiner, steps)
}

// Takes the program's joiner through these steps.
fn check_indexed(rt: &impl Host, cap: usize, steps: &[JoinStep<'_>]) -> TestResult {
    check::<IndexedBook>(rt, rt.alloc(), cap, steps)
}

// Messages 7 and 8 arrive before the snapshot of the first five, and message 9 when there is room for it.
const JOINS_LATE: &[JoinStep<'static>] = &[
    JoinStep::Live(8, DELETE_3, Ok(Live::Kept)),
    JoinStep::Live(7, REPLACE_1_BY_4, Ok(Live::Kept)),
    JoinStep::Live(9, NAMED_5, Err(JoinFault::Full { cap: 2 })),
    JoinStep::Read(BEFORE_6),
    JoinStep::Stands(None, 2),
    JoinStep::Resume(Ok(None)),
    JoinStep::Snapshot(END_6, Ok(Snap::Joined { next: 6 })),
    JoinStep::Live(6, EXECUTE_1, Ok(Live::Applied { next: 9 })),
    JoinStep::Live(6, EXECUTE_1, Ok(Live::Old)),
    JoinStep::Live(9, NAMED_5, Ok(Live::Applied { next: 10 })),
    JoinStep::Stands(Some(10), 0),
    JoinStep::Market(&[EVENT, AAPL, ADD_2, ADD_4, NAMED_5]),
];

#[test]
fn joins_late(rt: HostRuntime) -> TestResult {
    check::<IndexedBook>(&rt, rt.alloc(), 2, JOINS_LATE)?;
    check::<ListBook>(&rt, rt.alloc(), 2, JOINS_LATE)
}

#[test]
fn the_laws_of_joins() {
    laws::lawful_market();
    laws::late_joiner();
    laws::at_most_cap_wait();
    laws::last_result();
    laws::snapshot_of_feed();
    laws::whole_feed();
    laws::restricted_feed();
    laws::snapshot_for_a_set();
    laws::any_snapshot_for_a_set();
}

// The snapshot of the first two messages.
const READ_2: JoinStep<'static> = JoinStep::Read(&[EVENT, AAPL]);

const JOINED_AT_3: JoinStep<'static> = JoinStep::Snapshot(END_3, Ok(Snap::Joined { next: 3 }));

#[test]
fn a_refused_message_halts_for_good(rt: HostRuntime) -> TestResult {
    let halted = JoinFault::Halted {
        number: 3,
        cause: Cause::Rule(Refusal::UnknownLocate),
    };
    let steps = [
        READ_2,
        JOINED_AT_3,
        JoinStep::Live(4, ADD_2, Ok(Live::Kept)),
        JoinStep::Live(3, ADD_1_AT_9, Err(halted)),
        JoinStep::Live(3, ADD_1, Err(halted)),
        JoinStep::Live(0, ADD_1, Err(halted)),
        JoinStep::Live(1, EVENT, Err(halted)),
        JoinStep::Snapshot(END_3, Err(halted)),
        JoinStep::Resume(Err(halted)),
        JoinStep::Restart,
        JoinStep::Resume(Err(halted)),
        JoinStep::Stands(Some(3), 1),
        JoinStep::Market(&[EVENT, AAPL]),
    ];
    check_indexed(&rt, 1, &steps)
}

// The refused message waits, and is reached when the one before it is delivered.
#[test]
fn a_waiting_message_halts(rt: HostRuntime) -> TestResult {
    let halted = JoinFault::Halted {
        number: 4,
        cause: Cause::Codec(CodecFault::Empty),
    };
    let steps = [
        READ_2,
        JOINED_AT_3,
        JoinStep::Live(4, b"", Ok(Live::Kept)),
        JoinStep::Live(5, ADD_2, Ok(Live::Kept)),
        JoinStep::Live(3, ADD_1, Err(halted)),
        JoinStep::Stands(Some(4), 2),
        JoinStep::Market(&[EVENT, AAPL, ADD_1]),
    ];
    check_indexed(&rt, 2, &steps)
}

#[test]
fn a_broken_snapshot_is_restarted(rt: HostRuntime) -> TestResult {
    let broken = JoinFault::BadSnapshot {
        place: 1,
        cause: Cause::Rule(Refusal::UnknownLocate),
    };
    let bad = Err(JoinFault::BadNumber);
    let steps = [
        JoinStep::Snapshot(ADD_1, Err(broken)),
        JoinStep::Snapshot(END_1, Err(broken)),
        JoinStep::Live(1, EVENT, Ok(Live::Kept)),
        JoinStep::Live(1, EVENT, Ok(Live::Kept)),
        JoinStep::Live(1, CLOSES, Err(JoinFault::Conflict { number: 1 })),
        JoinStep::Live(2, AAPL, Err(JoinFault::Full { cap: 1 })),
        JoinStep::Live(0, AAPL, bad),
        JoinStep::Live(10_000_000_000_000_000_000, AAPL, bad),
        JoinStep::Restart,
        JoinStep::Waiting(1),
        JoinStep::Snapshot(END_1, Ok(Snap::Joined { next: 2 })),
        JoinStep::Waiting(0),
        JoinStep::Snapshot(END_1, Err(JoinFault::Joined)),
        JoinStep::Restart,
        JoinStep::Resume(Ok(Some(2))),
        JoinStep::Market(&[EVENT]),
    ];
    check_indexed(&rt, 1, &steps)
}

// Checks that a thousand messages wait for a joiner, delivered from the last to the first.
fn check_thousand<B: OrderBook>(rt: &impl Host, memory: B::Alloc) {
    let mut joiner: Joiner<B> = joiner(memory, 1000);
    for back in 0..1000u64 {
        live(rt, &mut joiner, 1000 - back, BROKEN_TRADE, Ok(Live::Kept));
    }
    snapshot(rt, &mut joiner, END_1, Ok(Snap::Joined { next: 1001 }));
    same(rt, joiner.waiting(), 0);
}

#[test]
fn a_thousand_messages_wait(rt: HostRuntime) {
    check_thousand::<IndexedBook>(&rt, rt.alloc());
}

// No message may wait: a feed in order from its first message on.
#[test]
fn joins_a_feed_in_order(rt: HostRuntime) -> TestResult {
    let steps = [
        READ_2,
        JOINED_AT_3,
        JoinStep::Live(1, EVENT, Ok(Live::Old)),
        JoinStep::Live(2, AAPL, Ok(Live::Old)),
        JoinStep::Live(4, ADD_2, Err(JoinFault::Full { cap: 0 })),
        JoinStep::Live(3, ADD_1, Ok(Live::Applied { next: 4 })),
        JoinStep::Market(&[EVENT, AAPL, ADD_1]),
    ];
    check_indexed(&rt, 0, &steps)
}

#[test]
fn a_feed_with_nothing_new(rt: HostRuntime) -> TestResult {
    let steps = [
        READ_2,
        JOINED_AT_3,
        JoinStep::Live(1, EVENT, Ok(Live::Old)),
        JoinStep::Stands(Some(3), 0),
        JoinStep::Market(&[EVENT, AAPL]),
    ];
    check_indexed(&rt, 0, &steps)
}

#[test]
fn a_snapshot_without_its_end(rt: HostRuntime) -> TestResult {
    let steps = [JoinStep::Read(&[AAPL]), JoinStep::Stands(None, 0)];
    check_indexed(&rt, 0, &steps)
}

#[test]
fn faults_have_words(rt: HostRuntime) -> TestResult {
    let cause = Cause::Rule(Refusal::StockMismatch);
    let bad = |place, cause| JoinFault::BadSnapshot { place, cause };
    let (number, taken) = (3, true);
    for (fault, words) in [
        (JoinFault::Full { cap: 2 }, "2 messages wait already"),
        (
            JoinFault::Conflict { number: 7 },
            "message 7 waits with other bytes",
        ),
        (JoinFault::BadNumber, "bad message number"),
        (
            JoinFault::Halted { number, cause },
            "message 3: stock mismatch",
        ),
        (JoinFault::OutOfMemory { taken }, "out of memory"),
        (JoinFault::Joined, "joined already"),
        (
            bad(1, Cause::Codec(CodecFault::Empty)),
            "snapshot message 1: empty message",
        ),
        (
            bad(2, Cause::TooMany),
            "snapshot message 2: too many messages",
        ),
    ] {
        same_words(&rt, &fault, words)?;
    }
    Ok(())
}
