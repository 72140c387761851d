//! Clients: the bytes sent to each, next to the others, and when it is cut off.
use super::messages::{
    AAPL, ADD_1, ADD_2, CLIENT_HEARTBEAT, END_3, EVENT, HEARTBEAT, LOGIN, LOGIN_2, LOGIN_BLANK,
    LOGIN_OTHER, LOGIN_WRONG, LOGOUT, REFUSED_SESSION, REFUSED_USER, SNAPSHOT_2, SNAPSHOT_4,
    WELCOME,
};
use super::steps::{Brought, LiveServerStep, Standing, UNKNOWN, check, live_server_of, take_steps};
use crate::equal::TestResult;
use itch_book::IndexedBook;
use itch_live::{DisconnectCause, LiveServer, laws};
use std::alloc::Global;
use test_doubles::FuseWriter;

type Index = IndexedBook<Global>;

// Two messages of the feed come, and a client; two more come, and another client. Each is accepted at once, and gets the snapshot of that
// time.
const TWO_CLIENTS: &[LiveServerStep<'static>] = &[
    LiveServerStep::Begin,
    LiveServerStep::Feed(EVENT, Brought::Taken(2)),
    LiveServerStep::Feed(AAPL, Brought::Taken(3)),
    LiveServerStep::Admit(Some(0)),
    LiveServerStep::Admit(Some(1)),
    LiveServerStep::Admit(None),
    LiveServerStep::Answer,
    LiveServerStep::Pending(0, b""),
    LiveServerStep::Hear(0, CLIENT_HEARTBEAT),
    LiveServerStep::Accepted(0, false),
    LiveServerStep::Hear(0, LOGIN),
    LiveServerStep::Accepted(0, true),
    LiveServerStep::Pending(0, WELCOME),
    LiveServerStep::Answer,
    LiveServerStep::Pending(0, WELCOME),
    LiveServerStep::Take(0, 33),
    LiveServerStep::Pending(0, SNAPSHOT_2),
    LiveServerStep::Pending(1, b""),
    LiveServerStep::Feed(ADD_1, Brought::Taken(4)),
    LiveServerStep::Feed(ADD_2, Brought::Taken(5)),
    LiveServerStep::Hear(1, LOGIN_BLANK),
    LiveServerStep::Take(1, 33),
    LiveServerStep::Answer,
    LiveServerStep::Pending(1, SNAPSHOT_4),
    LiveServerStep::Pending(0, SNAPSHOT_2),
    LiveServerStep::Take(0, 15),
    LiveServerStep::Pending(
        0,
        b"\0\x28SR\0\x01\0\0\0\0\0\0\0\0AAPL    QN\0\0\0dNCZ PNN1N\0\0\0\0N\
        \0\x16SG                   3\0\x01Z",
    ),
    LiveServerStep::Hear(0, LOGOUT),
    LiveServerStep::Stands(0, Standing::DisconnectCause(DisconnectCause::Left)),
    LiveServerStep::Accepted(0, false),
    LiveServerStep::Pending(0, b""),
    LiveServerStep::Stands(1, Standing::There),
    LiveServerStep::Leave(0),
    LiveServerStep::Stands(0, Standing::Free),
    LiveServerStep::Hear(0, LOGIN),
    LiveServerStep::Admit(Some(0)),
    LiveServerStep::Take(1, 162),
    LiveServerStep::Pending(1, b""),
    LiveServerStep::Stands(1, Standing::Closing),
    LiveServerStep::Hear(1, CLIENT_HEARTBEAT),
    LiveServerStep::Hear(1, LOGIN),
    LiveServerStep::Stands(1, Standing::Closing),
    LiveServerStep::Leave(1),
    LiveServerStep::Stands(1, Standing::Free),
    LiveServerStep::Stands(0, Standing::There),
];

#[test]
fn two_clients(rt: HostRuntime) -> TestResult {
    check::<Index>(&rt, rt.alloc(), false, TWO_CLIENTS)
}

// A login waits until there is a market.
const EARLY: &[LiveServerStep<'static>] = &[
    LiveServerStep::Admit(Some(0)),
    LiveServerStep::Hear(0, LOGIN),
    LiveServerStep::Answer,
    LiveServerStep::Pending(0, WELCOME),
    LiveServerStep::Take(0, 33),
    LiveServerStep::Begin,
    LiveServerStep::Feed(EVENT, Brought::Nothing),
    LiveServerStep::Feed(AAPL, Brought::Nothing),
    LiveServerStep::Answer,
    LiveServerStep::Pending(0, b""),
    LiveServerStep::Feed(END_3, Brought::Joined(3)),
    LiveServerStep::Answer,
    LiveServerStep::Pending(0, SNAPSHOT_2),
];

#[test]
fn before_the_market(rt: HostRuntime) -> TestResult {
    check::<Index>(&rt, rt.alloc(), true, EARLY)
}

// While a login waits, its client gets a heartbeat per second, and is not cut off while it takes them, even if no time was passed in for
// long; the other client takes none. No heartbeat comes between the packets of the answer.
const WAITING: &[LiveServerStep<'static>] = &[
    LiveServerStep::Admit(Some(0)),
    LiveServerStep::Admit(Some(1)),
    LiveServerStep::Hear(0, LOGIN),
    LiveServerStep::Hear(1, LOGIN),
    LiveServerStep::Take(0, 33),
    LiveServerStep::Take(1, 33),
    LiveServerStep::TickAt(1_000),
    LiveServerStep::Pending(0, b""),
    LiveServerStep::TickAt(1_001),
    LiveServerStep::Pending(0, HEARTBEAT),
    LiveServerStep::Pending(1, HEARTBEAT),
    LiveServerStep::TickAt(3_000),
    LiveServerStep::Pending(0, HEARTBEAT),
    LiveServerStep::Take(0, 3),
    LiveServerStep::TickAt(14_999),
    LiveServerStep::Pending(0, HEARTBEAT),
    LiveServerStep::Take(0, 3),
    LiveServerStep::TickAt(16_000),
    LiveServerStep::Pending(0, HEARTBEAT),
    LiveServerStep::Take(0, 3),
    LiveServerStep::Stands(1, Standing::There),
    LiveServerStep::TickAt(16_001),
    LiveServerStep::Stands(1, Standing::DisconnectCause(DisconnectCause::Silent)),
    LiveServerStep::TickAt(60_000),
    LiveServerStep::Pending(0, HEARTBEAT),
    LiveServerStep::TickAt(60_001),
    LiveServerStep::Stands(0, Standing::There),
    LiveServerStep::Take(0, 1),
    LiveServerStep::Begin,
    LiveServerStep::Feed(EVENT, Brought::Nothing),
    LiveServerStep::Feed(AAPL, Brought::Nothing),
    LiveServerStep::Feed(END_3, Brought::Joined(3)),
    LiveServerStep::Answer,
    LiveServerStep::Pending(0, b"\x01H"),
    LiveServerStep::Take(0, 2),
    LiveServerStep::Pending(0, SNAPSHOT_2),
    LiveServerStep::TickAt(70_000),
    LiveServerStep::Pending(0, SNAPSHOT_2),
    LiveServerStep::TickAt(75_001),
    LiveServerStep::Stands(0, Standing::DisconnectCause(DisconnectCause::Silent)),
];

#[test]
fn heartbeats_while_waiting(rt: HostRuntime) -> TestResult {
    check::<Index>(&rt, rt.alloc(), true, WAITING)
}

// A login that is rejected gets a rejection, whatever follows it, and a packet that is not a login cuts the client off.
const REFUSED: &[LiveServerStep<'static>] = &[
    LiveServerStep::Admit(Some(0)),
    LiveServerStep::Hear(0, LOGIN_WRONG),
    LiveServerStep::Hear(0, CLIENT_HEARTBEAT),
    LiveServerStep::Answer,
    LiveServerStep::Pending(0, REFUSED_USER),
    LiveServerStep::Rejected(0, Some(b'A')),
    LiveServerStep::Take(0, 4),
    LiveServerStep::Stands(0, Standing::Closing),
    LiveServerStep::Rejected(0, Some(b'A')),
    LiveServerStep::Leave(0),
    LiveServerStep::Rejected(0, None),
    LiveServerStep::Admit(Some(0)),
    LiveServerStep::Hear(0, LOGIN_2),
    LiveServerStep::Answer,
    LiveServerStep::Pending(0, REFUSED_SESSION),
    LiveServerStep::Rejected(0, Some(b'S')),
    LiveServerStep::Admit(Some(1)),
    LiveServerStep::Rejected(1, None),
    LiveServerStep::Hear(1, LOGIN_OTHER),
    LiveServerStep::Pending(1, REFUSED_SESSION),
    LiveServerStep::Leave(1),
    LiveServerStep::Admit(Some(1)),
    LiveServerStep::Hear(1, b"\0\x01Q"),
    LiveServerStep::Stands(1, Standing::DisconnectCause(DisconnectCause::Fault)),
    LiveServerStep::Leave(1),
    LiveServerStep::Admit(Some(1)),
    LiveServerStep::Hear(1, LOGIN),
    LiveServerStep::Hear(1, LOGIN),
    LiveServerStep::Stands(1, Standing::DisconnectCause(DisconnectCause::Fault)),
    LiveServerStep::Rejected(1, None),
    LiveServerStep::Answer,
    LiveServerStep::Pending(1, b""),
    LiveServerStep::Leave(1),
    LiveServerStep::Admit(Some(1)),
    LiveServerStep::Hear(1, LOGOUT),
    LiveServerStep::Stands(1, Standing::DisconnectCause(DisconnectCause::Left)),
    LiveServerStep::Pending(0, REFUSED_SESSION),
    LiveServerStep::TickAt(15_000),
    LiveServerStep::Stands(1, Standing::DisconnectCause(DisconnectCause::Left)),
    LiveServerStep::Stands(0, Standing::DisconnectCause(DisconnectCause::Silent)),
    LiveServerStep::Rejected(0, Some(b'S')),
];

#[test]
fn refused(rt: HostRuntime) -> TestResult {
    check::<Index>(&rt, rt.alloc(), false, REFUSED)
}

// Cut off after 15 seconds without a packet before the login, without taking the answer, and after the last byte of it. Heartbeats do not
// help a client that takes nothing, and neither does a byte now and then.
const CUT_OFF: &[LiveServerStep<'static>] = &[
    LiveServerStep::Admit(Some(0)),
    LiveServerStep::Admit(Some(1)),
    LiveServerStep::At(14_000),
    LiveServerStep::Login(1),
    LiveServerStep::TickAt(14_999),
    LiveServerStep::Stands(0, Standing::There),
    LiveServerStep::TickAt(15_000),
    LiveServerStep::Stands(0, Standing::DisconnectCause(DisconnectCause::Silent)),
    LiveServerStep::Leave(0),
    LiveServerStep::Answer,
    LiveServerStep::TickAt(29_999),
    LiveServerStep::Stands(1, Standing::There),
    LiveServerStep::Take(1, 1),
    LiveServerStep::Hear(1, CLIENT_HEARTBEAT),
    LiveServerStep::TickAt(30_000),
    LiveServerStep::Stands(1, Standing::DisconnectCause(DisconnectCause::Silent)),
    LiveServerStep::Leave(1),
    LiveServerStep::Admit(Some(0)),
    LiveServerStep::Login(0),
    LiveServerStep::Answer,
    LiveServerStep::At(40_000),
    LiveServerStep::Take(0, 27),
    LiveServerStep::Stands(0, Standing::Closing),
    LiveServerStep::At(54_999),
    LiveServerStep::Hear(0, CLIENT_HEARTBEAT),
    LiveServerStep::Tick,
    LiveServerStep::Stands(0, Standing::Closing),
    LiveServerStep::TickAt(55_000),
    LiveServerStep::Stands(0, Standing::DisconnectCause(DisconnectCause::Silent)),
];

#[test]
fn cut_off(rt: HostRuntime) -> TestResult {
    check::<Index>(&rt, rt.alloc(), false, CUT_OFF)
}

// The snapshot after two system events.
const SNAPSHOT_3: &[u8] = b"\0\x0dSS\0\0\0\0\0\0\0\0\0\0O\0\x16SG                   3\0\x01Z";

// A snapshot of no message has 27 bytes, and one of a system event 42, for which 171 might be needed. The first is sent whatever the limit
// is, since none is in use; the others once they fit next to those in use, to the byte; and one that is in use always.
const WITHIN: &[LiveServerStep<'static>] = &[
    LiveServerStep::Begin,
    LiveServerStep::Admit(Some(0)),
    LiveServerStep::Hear(0, LOGIN),
    LiveServerStep::AnswerWithin(0),
    LiveServerStep::Take(0, 33),
    LiveServerStep::Kept(27),
    LiveServerStep::Feed(EVENT, Brought::Taken(2)),
    LiveServerStep::Admit(Some(1)),
    LiveServerStep::Login(1),
    LiveServerStep::AnswerWithin(27 + 170),
    LiveServerStep::Pending(1, b""),
    LiveServerStep::Stands(1, Standing::There),
    LiveServerStep::AnswerWithin(27 + 171),
    LiveServerStep::Kept(27 + 42),
    LiveServerStep::Feed(EVENT, Brought::Taken(3)),
    LiveServerStep::Admit(Some(2)),
    LiveServerStep::Login(2),
    LiveServerStep::AnswerWithin(69 + 170),
    LiveServerStep::Pending(2, b""),
    LiveServerStep::Leave(0),
    LiveServerStep::Kept(42),
    LiveServerStep::AnswerWithin(42 + 170),
    LiveServerStep::Pending(2, b""),
    LiveServerStep::AnswerWithin(42 + 171),
    LiveServerStep::Pending(2, SNAPSHOT_3),
    LiveServerStep::Kept(42 + 42),
    LiveServerStep::Admit(Some(0)),
    LiveServerStep::Login(0),
    LiveServerStep::AnswerWithin(0),
    LiveServerStep::Pending(0, SNAPSHOT_3),
    LiveServerStep::Kept(42 + 42),
    LiveServerStep::Take(0, 42),
    LiveServerStep::Stands(0, Standing::Closing),
];

#[test]
fn snapshots_within_a_limit(rt: HostRuntime) -> TestResult {
    let mut live_server: LiveServer<Index> = live_server_of(&rt, rt.alloc(), UNKNOWN, false, 3)?;
    let mut record = FuseWriter::new(rt.alloc(), 5, None);
    take_steps(&rt, &mut live_server, &mut record, WITHIN)
}

#[test]
fn the_laws() {
    laws::sent_in_order();
    laws::waiting_goes_on();
    laws::only_the_silent_are_cut_off();
    laws::same_answers();
}
