//! The session of the feed: known beforehand, or first named by the feed or by a snapshot server, and kept.
use super::messages::{
    AAPL, ACCEPTED_1, ACCEPTED_3, ADD_1, ADD_2, DAY, END_3, EVENT, FEED_FROM_1, FEED_FROM_3,
    FEED_FROM_3_BLANK, MONDAY_FROM_1, SNAPSHOTS_1, SNAPSHOTS_FROM_1, TUESDAY_1, TUESDAY_3,
};
use super::steps::{
    Brought, LiveServerStep, UNKNOWN, credentials, feed, follower_of, known, live_server_of,
    take_steps,
};
use crate::equal::{Host, TestResult, same_in};
use itch_book::{IndexedBook, OrderBook};
use itch_live::{Follower, LiveServer};
use std::alloc::Global;
use test_doubles::FuseWriter;

type Index = IndexedBook<Global>;

const TUESDAY: Brought = Brought::OtherSession(*b"   TUESDAY");

fn check<B: OrderBook>(
    rt: &impl Host,
    memory: B::Alloc,
    (feed, glimpse): (Option<&str>, Option<&str>),
    has_glimpse: bool,
    steps: &[LiveServerStep<'_>],
) -> TestResult {
    let sessions = known(rt, feed, glimpse);
    let mut live_server: LiveServer<B> = live_server_of(rt, memory, sessions, has_glimpse, 1)?;
    let mut record = FuseWriter::new(rt.alloc(), 5, None);
    take_steps(rt, &mut live_server, &mut record, steps)
}

// The first login is for the known session, and nothing is taken from a server that accepts it in another name.
const BEFOREHAND: &[LiveServerStep<'static>] = &[
    LiveServerStep::Session(Some(b"MONDAY    ")),
    LiveServerStep::Connect(MONDAY_FROM_1),
    LiveServerStep::Feed(TUESDAY_1, TUESDAY),
    LiveServerStep::Feed(EVENT, Brought::Broken),
    LiveServerStep::Next(Some(1)),
    LiveServerStep::Connect(MONDAY_FROM_1),
    LiveServerStep::Feed(ACCEPTED_1, Brought::Accepted(1)),
    LiveServerStep::Feed(EVENT, Brought::Taken(2)),
    LiveServerStep::Feed(AAPL, Brought::Taken(3)),
    LiveServerStep::Feed(ADD_1, Brought::Taken(4)),
    LiveServerStep::Feed(ADD_2, Brought::Taken(5)),
    LiveServerStep::Session(Some(b"MONDAY    ")),
    LiveServerStep::Recorded(DAY),
];

#[test]
fn known_beforehand(rt: HostRuntime) -> TestResult {
    check::<Index>(&rt, rt.alloc(), (Some("MONDAY"), None), false, BEFOREHAND)
}

// The session that a snapshot server names first is the feed's: a feed of another day is not joined to the snapshot.
const NAMED: &[LiveServerStep<'static>] = &[
    LiveServerStep::Session(None),
    LiveServerStep::Begin,
    LiveServerStep::Session(Some(b"    MONDAY")),
    LiveServerStep::Feed(EVENT, Brought::Nothing),
    LiveServerStep::Feed(AAPL, Brought::Nothing),
    LiveServerStep::Feed(END_3, Brought::Joined(3)),
    LiveServerStep::Connect(FEED_FROM_3),
    LiveServerStep::Feed(TUESDAY_3, TUESDAY),
    LiveServerStep::Feed(ADD_1, Brought::Broken),
    LiveServerStep::Next(Some(3)),
    LiveServerStep::Recorded(b""),
];

#[test]
fn named_by_the_snapshot(rt: HostRuntime) -> TestResult {
    check::<Index>(&rt, rt.alloc(), (None, None), true, NAMED)
}

// A snapshot of another day than the known one is not taken.
const ANOTHER_DAY: &[LiveServerStep<'static>] = &[
    LiveServerStep::Connect(MONDAY_FROM_1),
    LiveServerStep::Feed(TUESDAY_1, TUESDAY),
    LiveServerStep::Feed(EVENT, Brought::Broken),
    LiveServerStep::Connect(MONDAY_FROM_1),
    LiveServerStep::Feed(ACCEPTED_1, Brought::Accepted(1)),
    LiveServerStep::Feed(EVENT, Brought::Nothing),
    LiveServerStep::Feed(AAPL, Brought::Nothing),
    LiveServerStep::Feed(END_3, Brought::Joined(3)),
];

#[test]
fn a_snapshot_of_another_day(rt: HostRuntime) -> TestResult {
    check::<Index>(&rt, rt.alloc(), (Some("MONDAY"), None), true, ANOTHER_DAY)
}

// A snapshot server with its own name for the session must accept in that name, which does not name the feed's session.
const TWO_NAMES: &[LiveServerStep<'static>] = &[
    LiveServerStep::Connect(SNAPSHOTS_FROM_1),
    LiveServerStep::Feed(ACCEPTED_1, Brought::OtherSession(*b"    MONDAY")),
    LiveServerStep::Connect(SNAPSHOTS_FROM_1),
    LiveServerStep::Feed(SNAPSHOTS_1, Brought::Accepted(1)),
    LiveServerStep::Session(None),
    LiveServerStep::Feed(EVENT, Brought::Nothing),
    LiveServerStep::Feed(AAPL, Brought::Nothing),
    LiveServerStep::Feed(END_3, Brought::Joined(3)),
    LiveServerStep::Connect(FEED_FROM_3_BLANK),
    LiveServerStep::Feed(ACCEPTED_3, Brought::Accepted(3)),
    LiveServerStep::Session(Some(b"    MONDAY")),
    LiveServerStep::Feed(ADD_1, Brought::Taken(4)),
];

#[test]
fn two_names(rt: HostRuntime) -> TestResult {
    check::<Index>(&rt, rt.alloc(), (None, Some("SNAPSHOTS")), true, TWO_NAMES)
}

const GONE_ON: &[LiveServerStep<'static>] = &[
    LiveServerStep::Session(Some(b"    MONDAY")),
    LiveServerStep::Next(Some(3)),
    LiveServerStep::Admit(Some(0)),
    LiveServerStep::Feed(ADD_1, Brought::Taken(4)),
    LiveServerStep::Feed(ADD_2, Brought::Taken(5)),
    LiveServerStep::Recorded(DAY),
];

fn check_connected<B: OrderBook>(rt: &impl Host, memory: B::Alloc) -> TestResult {
    let mut follower: Follower<B> = follower_of(rt, memory, UNKNOWN, false)?;
    let mut record = FuseWriter::new(rt.alloc(), 5, None);
    same_in(
        rt,
        0,
        &follower.connect(credentials(rt), 0)[..],
        FEED_FROM_1,
    );
    feed(&mut follower, ACCEPTED_1, 7, 0, &mut record);
    feed(&mut follower, EVENT, 7, 0, &mut record);
    feed(&mut follower, AAPL, 7, 0, &mut record);
    let mut live_server = LiveServer::new(memory, follower, 1)?;
    take_steps(rt, &mut live_server, &mut record, GONE_ON)
}

// A server whose follower is already connected continues with that connection.
#[test]
fn connected_before(rt: HostRuntime) -> TestResult {
    check_connected::<Index>(&rt, rt.alloc())
}
