//! Each allocation refused in turn: the state is unchanged, and the same call succeeds with memory.
use super::messages::{AAPL, ADD_1, EVENT, LOGIN, SNAPSHOT_2, WELCOME};
use super::steps::{Brought, LiveServerStep, Standing, config, live_server, take_steps};
use crate::equal::{Host, TestResult, holds_in, same_in};
use itch_book::{IndexedBook, OrderBook};
use itch_live::LiveServer;
use std::alloc::Global;
use test_doubles::{FuseWriter, Refusing};

type Index<'a> = IndexedBook<&'a Refusing<Global>>;

// More allocations than any test makes: none is refused.
const NONE: u64 = 1_000_000;

const TWO_MESSAGES: &[LiveServerStep<'static>] = &[
    LiveServerStep::Begin,
    LiveServerStep::Feed(EVENT, Brought::Taken(2)),
    LiveServerStep::Feed(AAPL, Brought::Taken(3)),
];

// Creates a server with each of its allocations refused in turn. Returns how many were refused.
fn refuse_live_server<B: OrderBook>(
    rt: &impl Host,
    memory: B::Alloc,
    refusing: &Refusing<Global>,
) -> u64 {
    for nth in 0..16 {
        refusing.arm(nth);
        let made = live_server::<B>(rt, memory, false).is_ok();
        holds_in(rt, 0, made != refusing.has_refused());
        if made {
            return nth;
        }
    }
    panic!(rt; "more than 16 allocations")
}

// Admits a client in the same way.
fn refuse_client<B: OrderBook>(
    rt: &impl Host,
    refusing: &Refusing<Global>,
    live_server: &mut LiveServer<B>,
) -> u64 {
    for nth in 0..16 {
        refusing.arm(nth);
        let place = live_server.admit(config(rt), 0);
        if !refusing.has_refused() {
            same_in(rt, 1, place, Ok(Some(0)));
            return nth;
        }
        holds_in(rt, 1, place.is_err() && live_server.client(0).is_none());
    }
    panic!(rt; "more than 16 allocations")
}

// Answers it in the same way.
fn refuse_answer<B: OrderBook>(
    rt: &impl Host,
    refusing: &Refusing<Global>,
    live_server: &mut LiveServer<B>,
) -> u64 {
    for nth in 0..16 {
        refusing.arm(nth);
        let answered = live_server.answer(u64::MAX, 0);
        if !refusing.has_refused() {
            holds_in(rt, 2, answered.is_ok());
            return nth;
        }
        holds_in(rt, 2, answered.is_err());
        same_in(rt, 2, live_server.pending(0), WELCOME);
    }
    panic!(rt; "more than 16 allocations")
}

fn check_clients<B: OrderBook>(
    rt: &impl Host,
    memory: B::Alloc,
    refusing: &Refusing<Global>,
) -> TestResult {
    let mut live_server: LiveServer<B> = live_server(rt, memory, false)?;
    let mut record = FuseWriter::new(rt.alloc(), 5, None);
    take_steps(rt, &mut live_server, &mut record, TWO_MESSAGES)?;
    holds_in(rt, 3, refuse_client(rt, refusing, &mut live_server) > 0);
    refusing.arm(0);
    take_steps(
        rt,
        &mut live_server,
        &mut record,
        &[LiveServerStep::Hear(0, LOGIN)],
    )?;
    holds_in(rt, 4, !refusing.has_refused());
    holds_in(rt, 5, refuse_answer(rt, refusing, &mut live_server) > 1);
    refusing.arm(0);
    let rest = [
        LiveServerStep::Take(0, 33),
        LiveServerStep::Pending(0, SNAPSHOT_2),
        LiveServerStep::Take(0, 84),
        LiveServerStep::Stands(0, Standing::Closing),
        LiveServerStep::Tick,
        LiveServerStep::Leave(0),
        LiveServerStep::Answer,
    ];
    take_steps(rt, &mut live_server, &mut record, &rest)?;
    holds_in(rt, 6, !refusing.has_refused());
    Ok(())
}

#[test]
fn a_live_server_and_its_clients(rt: HostRuntime) -> TestResult {
    let refusing = Refusing::new(rt.alloc(), NONE);
    assert!(rt; refuse_live_server::<Index<'_>>(&rt, &refusing, &refusing) > 1);
    refusing.arm(NONE);
    check_clients::<Index<'_>>(&rt, &refusing, &refusing)
}

// A message for which memory is refused is requested again.
const REFUSED_AT_3: &[LiveServerStep<'static>] = &[
    LiveServerStep::Feed(ADD_1, Brought::NoMemory),
    LiveServerStep::Next(Some(3)),
    LiveServerStep::GoOn,
    LiveServerStep::Feed(ADD_1, Brought::Taken(4)),
    LiveServerStep::Next(Some(4)),
];

fn check_feed<B: OrderBook>(
    rt: &impl Host,
    memory: B::Alloc,
    refusing: &Refusing<Global>,
) -> TestResult {
    let mut live_server: LiveServer<B> = live_server(rt, memory, false)?;
    let mut record = FuseWriter::new(rt.alloc(), 5, None);
    take_steps(rt, &mut live_server, &mut record, TWO_MESSAGES)?;
    refusing.arm(0);
    take_steps(rt, &mut live_server, &mut record, REFUSED_AT_3)
}

#[test]
fn a_message_of_the_feed(rt: HostRuntime) -> TestResult {
    let refusing = Refusing::new(rt.alloc(), NONE);
    check_feed::<Index<'_>>(&rt, &refusing, &refusing)
}
