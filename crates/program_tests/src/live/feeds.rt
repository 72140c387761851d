//! The feed: its logins, its loss in the middle of a message, its end, and its record.
use super::messages::{
    AAPL, ACCEPTED_1, ACCEPTED_3, ADD_1, ADD_2, ADD_AT_9, DAY, DAY_FROM_3, END_3, ENDED, EVENT,
    FEED_FROM_1, FEED_FROM_3, FEED_FROM_5, HEARTBEAT, MONDAY_FROM_1, REJECTED,
};
use super::steps::{Brought, LiveServerStep, check, live_server, take_steps};
use crate::equal::TestResult;
use itch_book::IndexedBook;
use itch_live::LiveServer;
use itch_soup::Tick;
use std::alloc::Global;
use test_doubles::FuseWriter;

type Index = IndexedBook<Global>;

// The connection ends in the middle of message 3, which is requested again, in the session that was named first.
const LOST: &[LiveServerStep<'static>] = &[
    LiveServerStep::Begin,
    LiveServerStep::Feed(EVENT, Brought::Taken(2)),
    LiveServerStep::Feed(HEARTBEAT, Brought::Nothing),
    LiveServerStep::Feed(AAPL, Brought::Taken(3)),
    LiveServerStep::Feed(b"\0\x25SA\0\x01\0\0\0", Brought::Nothing),
    LiveServerStep::Next(Some(3)),
    LiveServerStep::At(2_000),
    LiveServerStep::GoOn,
    LiveServerStep::Feed(ADD_1, Brought::Taken(4)),
    LiveServerStep::Feed(ADD_2, Brought::Taken(5)),
    LiveServerStep::Feed(ENDED, Brought::Ended),
    LiveServerStep::Recorded(DAY),
    LiveServerStep::Connect(FEED_FROM_5),
    LiveServerStep::Feed(REJECTED, Brought::Rejected(b'S')),
    LiveServerStep::Next(Some(5)),
];

#[test]
fn lost_in_a_message(rt: HostRuntime) -> TestResult {
    check::<Index>(&rt, rt.alloc(), false, LOST)
}

// The next day's server accepts the login in its own name: nothing of that connection is taken, though its numbers would fit. The same name
// with other padding is the same.
const NEXT_DAY: &[LiveServerStep<'static>] = &[
    LiveServerStep::Begin,
    LiveServerStep::Feed(EVENT, Brought::Taken(2)),
    LiveServerStep::Feed(AAPL, Brought::Taken(3)),
    LiveServerStep::Connect(FEED_FROM_3),
    LiveServerStep::Feed(
        b"\0\x1fA   TUESDAY                   3",
        Brought::OtherSession(*b"   TUESDAY"),
    ),
    LiveServerStep::Feed(ADD_1, Brought::Broken),
    LiveServerStep::Feed(ACCEPTED_3, Brought::Broken),
    LiveServerStep::Feed(ADD_1, Brought::Broken),
    LiveServerStep::Next(Some(3)),
    LiveServerStep::Connect(FEED_FROM_3),
    LiveServerStep::Feed(
        b"\0\x1fAMONDAY                       3",
        Brought::Accepted(3),
    ),
    LiveServerStep::Feed(ADD_1, Brought::Taken(4)),
    LiveServerStep::Feed(ADD_2, Brought::Taken(5)),
    LiveServerStep::Recorded(DAY),
    LiveServerStep::Connect(FEED_FROM_5),
];

#[test]
fn the_next_day(rt: HostRuntime) -> TestResult {
    check::<Index>(&rt, rt.alloc(), false, NEXT_DAY)
}

// A feed that begins with an earlier message than requested repeats messages, and a feed that begins with a later one is not taken.
const ELSEWHERE: &[LiveServerStep<'static>] = &[
    LiveServerStep::Begin,
    LiveServerStep::Feed(EVENT, Brought::Taken(2)),
    LiveServerStep::Feed(AAPL, Brought::Taken(3)),
    LiveServerStep::Connect(FEED_FROM_3),
    LiveServerStep::Feed(ACCEPTED_1, Brought::Accepted(1)),
    LiveServerStep::Feed(EVENT, Brought::Nothing),
    LiveServerStep::Feed(AAPL, Brought::Nothing),
    LiveServerStep::Feed(ADD_1, Brought::Taken(4)),
    LiveServerStep::Feed(ADD_2, Brought::Taken(5)),
    LiveServerStep::Recorded(DAY),
    LiveServerStep::Connect(FEED_FROM_5),
    LiveServerStep::Feed(
        b"\0\x1fA    MONDAY                   7",
        Brought::Accepted(7),
    ),
    LiveServerStep::Feed(ADD_1, Brought::OutOfOrder),
    LiveServerStep::Next(Some(5)),
    LiveServerStep::Recorded(DAY),
];

#[test]
fn begun_elsewhere(rt: HostRuntime) -> TestResult {
    check::<Index>(&rt, rt.alloc(), false, ELSEWHERE)
}

// The snapshot of a GLIMPSE server, lost once, and then the feed from its number on, in the session that the GLIMPSE server named.
const GLIMPSE: &[LiveServerStep<'static>] = &[
    LiveServerStep::Next(None),
    LiveServerStep::Begin,
    LiveServerStep::Feed(EVENT, Brought::Nothing),
    LiveServerStep::Connect(MONDAY_FROM_1),
    LiveServerStep::Feed(ACCEPTED_1, Brought::Accepted(1)),
    LiveServerStep::Feed(EVENT, Brought::Nothing),
    LiveServerStep::Feed(AAPL, Brought::Nothing),
    LiveServerStep::Feed(END_3, Brought::Joined(3)),
    LiveServerStep::Next(Some(3)),
    LiveServerStep::GoOn,
    LiveServerStep::Feed(ADD_1, Brought::Taken(4)),
    LiveServerStep::Feed(ADD_2, Brought::Taken(5)),
    LiveServerStep::Recorded(DAY_FROM_3),
    LiveServerStep::Connect(FEED_FROM_5),
];

#[test]
fn begun_with_a_snapshot(rt: HostRuntime) -> TestResult {
    check::<Index>(&rt, rt.alloc(), true, GLIMPSE)
}

const SILENT: &[LiveServerStep<'static>] = &[
    LiveServerStep::Connect(FEED_FROM_1),
    LiveServerStep::FeedTick(Tick::Nothing),
    LiveServerStep::Feed(ACCEPTED_1, Brought::Accepted(1)),
    LiveServerStep::FeedTickAt(1_000, Tick::Nothing),
    LiveServerStep::FeedTickAt(1_001, Tick::Heartbeat),
    LiveServerStep::FeedTickAt(14_999, Tick::Heartbeat),
    LiveServerStep::FeedTickAt(15_000, Tick::Lost),
];

#[test]
fn silent(rt: HostRuntime) -> TestResult {
    check::<Index>(&rt, rt.alloc(), false, SILENT)
}

// A packet of an unknown type, and an order at a locate that the feed has not named: the joiner refuses it permanently.
const BROKEN: &[LiveServerStep<'static>] = &[
    LiveServerStep::Connect(FEED_FROM_1),
    LiveServerStep::Feed(b"\0\x01Q", Brought::Broken),
    LiveServerStep::Begin,
    LiveServerStep::Feed(ADD_AT_9, Brought::Refused),
    LiveServerStep::Next(Some(1)),
    LiveServerStep::Recorded(b""),
];

#[test]
fn broken(rt: HostRuntime) -> TestResult {
    check::<Index>(&rt, rt.alloc(), false, BROKEN)
}

// The second write fails, which is that of the payload: the market has the message, and the record only its length.
const UNRECORDED: &[LiveServerStep<'static>] = &[
    LiveServerStep::Begin,
    LiveServerStep::Feed(EVENT, Brought::Unrecorded),
    LiveServerStep::Next(Some(2)),
    LiveServerStep::Recorded(b"\0\x0c"),
];

#[test]
fn unrecorded(rt: HostRuntime) -> TestResult {
    let mut live_server: LiveServer<Index> = live_server(&rt, rt.alloc(), false)?;
    let mut record = FuseWriter::new(rt.alloc(), 5, Some(2));
    take_steps(&rt, &mut live_server, &mut record, UNRECORDED)
}
