//! Takes a server through steps, each at its time.
use super::messages::{ACCEPTED_1, ACCEPTED_3, FEED_FROM_1, FEED_FROM_3, LOGIN, WELCOME};
use crate::equal::{Host, TestResult, holds_in, same_in};
use itch_book::OrderBook;
use itch_codec::Alpha;
use itch_join::{JoinFault, Joiner};
use itch_live::{DisconnectCause, Follower, LiveServer, News, Sessions};
use itch_soup::{Credentials, ServerConfig, Tick};
use std::alloc::AllocError;
use std::test::Fail;
use test_doubles::FuseWriter;

/// An action, or an expected result.
#[derive(Clone, Copy)]
pub(crate) enum LiveServerStep<'a> {
    /// Sets the time.
    At(u64),
    /// A connection to the feed begins with this login.
    Connect(&'a [u8]),
    /// A connection to the feed begins with the first message, and is accepted from there.
    Begin,
    /// The same with the third message.
    GoOn,
    /// The feed sends this, in one piece and in pieces of one byte, and the last news is this one.
    Feed(&'a [u8], Brought),
    /// The action due towards the feed.
    FeedTick(Tick),
    /// The same after setting the time.
    FeedTickAt(u64, Tick),
    /// The number of the next message.
    Next(Option<u64>),
    /// The feed's session, as a server writes it.
    Session(Option<&'a [u8]>),
    /// A client connects, and gets this place.
    Admit(Option<usize>),
    /// A client sends this, and all of it is taken.
    Hear(usize, &'a [u8]),
    /// A client logs in for all messages, and takes the answer to that.
    Login(usize),
    /// All waiting clients are answered.
    Answer,
    /// They are answered, with that many bytes as the limit of all snapshots.
    AnswerWithin(u64),
    /// The kept snapshots have that many bytes.
    Kept(u64),
    /// Exactly this is pending for a client.
    Pending(usize, &'a [u8]),
    /// The socket of a client takes that many bytes.
    Take(usize, usize),
    /// The clients get the time.
    Tick,
    /// The same after setting the time.
    TickAt(u64),
    /// A client is in this state.
    Stands(usize, Standing),
    /// The login of a client was accepted, or was not.
    Accepted(usize, bool),
    /// The login of a client was rejected with this code, or with none.
    Rejected(usize, Option<u8>),
    /// The connection of a client is closed.
    Leave(usize),
    /// Exactly this was recorded.
    Recorded(&'a [u8]),
}

/// The news from the feed.
#[derive(Clone, Copy, Debug, PartialEq, Eq)]
pub(crate) enum Brought {
    Nothing,
    Accepted(u64),
    Joined(u64),
    Taken(u64),
    Ended,
    Rejected(u8),
    OtherSession([u8; 10]),
    Broken,
    OutOfOrder,
    NoMemory,
    Refused,
    Unrecorded,
}

#[derive(Clone, Copy, Debug, PartialEq, Eq)]
pub(crate) enum Standing {
    Free,
    There,
    Closing,
    DisconnectCause(DisconnectCause),
}

/// Returns the kind of a piece of news.
pub(crate) fn what_came(news: &News) -> Brought {
    match news {
        News::Nothing => Brought::Nothing,
        News::Accepted { next } => Brought::Accepted(*next),
        News::Joined { next } => Brought::Joined(*next),
        News::Taken { next } => Brought::Taken(*next),
        News::Ended => Brought::Ended,
        News::Rejected(code) => Brought::Rejected(*code),
        News::OtherSession { named } => Brought::OtherSession(*named.bytes()),
        News::Broken(_) => Brought::Broken,
        News::Refused(JoinFault::Full { .. }) => Brought::OutOfOrder,
        News::Refused(JoinFault::OutOfMemory { .. }) => Brought::NoMemory,
        News::Refused(_) => Brought::Refused,
        News::Unrecorded(_) => Brought::Unrecorded,
    }
}

fn alpha<const N: usize>(rt: &impl Host, text: &str) -> Alpha<N> {
    Alpha::from_text(text).expect(rt, "a text that fits")
}

pub(crate) fn config(rt: &impl Host) -> ServerConfig {
    ServerConfig {
        username: alpha(rt, "user"),
        password: alpha(rt, "secret"),
        session: alpha(rt, "ITCHSNAP"),
    }
}

pub(crate) fn credentials(rt: &impl Host) -> Credentials {
    Credentials {
        username: alpha(rt, "user"),
        password: alpha(rt, "secret"),
        session: alpha(rt, ""),
    }
}

/// No session is known beforehand.
pub(crate) const UNKNOWN: Sessions = Sessions {
    feed: None,
    glimpse: None,
};

/// Returns these sessions, known beforehand.
pub(crate) fn known(rt: &impl Host, feed: Option<&str>, glimpse: Option<&str>) -> Sessions {
    Sessions {
        feed: feed.map(|name| alpha(rt, name)),
        glimpse: glimpse.map(|name| alpha(rt, name)),
    }
}

/// Creates a server with two places, whose market is that of no messages, or which has none yet if it begins with a GLIMPSE server.
pub(crate) fn live_server<B: OrderBook>(
    rt: &impl Host,
    memory: B::Alloc,
    glimpse: bool,
) -> Result<LiveServer<B>, AllocError> {
    live_server_of(rt, memory, UNKNOWN, glimpse, 2)
}

/// Creates a server with that many places, and with these sessions.
pub(crate) fn live_server_of<B: OrderBook>(
    rt: &impl Host,
    memory: B::Alloc,
    sessions: Sessions,
    glimpse: bool,
    places: usize,
) -> Result<LiveServer<B>, AllocError> {
    let follower = follower_of(rt, memory, sessions, glimpse)?;
    LiveServer::new(memory, follower, places)
}

/// Creates a follower of a feed with these sessions, whose market is that of no messages, or which has none yet.
pub(crate) fn follower_of<B: OrderBook>(
    rt: &impl Host,
    memory: B::Alloc,
    sessions: Sessions,
    glimpse: bool,
) -> Result<Follower<B>, AllocError> {
    let mut joiner: Joiner<B> = Joiner::new(memory, 0);
    if !glimpse {
        let joined = joiner.snapshot(b"G                   1");
        assert!(rt; joined.is_ok());
    }
    Follower::new(memory, credentials(rt), sessions, joiner, 0)
}

/// Returns the state of a client that has its place.
pub(crate) fn how_it_stands(
    is_gone: bool,
    why: Option<DisconnectCause>,
    is_closing: bool,
) -> Standing {
    match why {
        Some(reason) if is_gone => Standing::DisconnectCause(reason),
        None if is_closing => Standing::Closing,
        _ => Standing::There,
    }
}

fn stands_at<B: OrderBook>(live_server: &LiveServer<B>, place: usize) -> Standing {
    match live_server.client(place) {
        None => Standing::Free,
        Some(client) => how_it_stands(client.is_gone(), client.why_gone(), client.is_closing()),
    }
}

fn is_accepted_at<B: OrderBook>(live_server: &LiveServer<B>, place: usize) -> bool {
    live_server
        .client(place)
        .is_some_and(|client| client.is_accepted())
}

// Returns whether the feed's session is this one.
fn is_session<B: OrderBook>(live_server: &LiveServer<B>, want: Option<&[u8]>) -> bool {
    match (live_server.follower().session(), want) {
        (Some(session), Some(want)) => &session.bytes()[..] == want,
        (None, None) => true,
        _ => false,
    }
}

fn rejection_at<B: OrderBook>(live_server: &LiveServer<B>, place: usize) -> Option<u8> {
    live_server.client(place)?.rejection_code()
}

/// The feed sends this in pieces of that many bytes. Returns the last news.
pub(crate) fn feed<B: OrderBook>(
    follower: &mut Follower<B>,
    bytes: &[u8],
    piece: usize,
    now: u64,
    record: &mut FuseWriter,
) -> Brought {
    let mut last = Brought::Nothing;
    let mut from = 0usize;
    for _call in 0..bytes.len() {
        let to = from.saturating_add(piece).min(bytes.len());
        if from < to {
            let (count, news) = follower.hear(&bytes[from..to], now, record);
            from = from.saturating_add(count);
            last = what_came(&news);
        }
    }
    last
}

// A client sends this. Returns how many bytes were taken.
fn hear<B: OrderBook>(
    live_server: &mut LiveServer<B>,
    place: usize,
    bytes: &[u8],
    now: u64,
) -> usize {
    let mut from = 0usize;
    for _call in 0..bytes.len() {
        if from < bytes.len() {
            from = from.saturating_add(live_server.hear(place, &bytes[from..], now));
        }
    }
    from
}

fn take<B: OrderBook>(
    live_server: &mut LiveServer<B>,
    place: usize,
    count: usize,
    now: u64,
) -> bool {
    let fits = count <= live_server.pending(place).len();
    if fits {
        live_server.took(place, count, now);
    }
    fits
}

// A server sends this login to the feed, which accepts it from this message on.
fn begin<B: OrderBook>(
    rt: &impl Host,
    live_server: &mut LiveServer<B>,
    record: &mut FuseWriter,
    (at, now): (usize, u64),
    (login, accepted, next): (&[u8], &[u8], u64),
) {
    same_in(
        rt,
        at,
        &live_server.follower_mut().connect(credentials(rt), now)[..],
        login,
    );
    let news = feed(live_server.follower_mut(), accepted, 7, now, record);
    same_in(rt, at, news, Brought::Accepted(next));
}

/// Takes a step of a server at this time. Returns the time afterwards.
pub(crate) fn take_step<B: OrderBook>(
    rt: &impl Host,
    live_server: &mut LiveServer<B>,
    record: &mut FuseWriter,
    (at, now): (usize, u64),
    step: LiveServerStep<'_>,
) -> Result<u64, Fail> {
    match step {
        LiveServerStep::At(now) => return Ok(now),
        LiveServerStep::Connect(login) => same_in(
            rt,
            at,
            &live_server.follower_mut().connect(credentials(rt), now)[..],
            login,
        ),
        LiveServerStep::Begin => begin(
            rt,
            live_server,
            record,
            (at, now),
            (FEED_FROM_1, ACCEPTED_1, 1),
        ),
        LiveServerStep::GoOn => begin(
            rt,
            live_server,
            record,
            (at, now),
            (FEED_FROM_3, ACCEPTED_3, 3),
        ),
        LiveServerStep::Feed(bytes, want) => {
            let brought = feed(live_server.follower_mut(), bytes, 7, now, record);
            same_in(rt, at, brought, want);
        }
        LiveServerStep::FeedTick(want) => same_in(
            rt,
            at,
            live_server.follower_mut().tick(now),
            want,
        ),
        LiveServerStep::FeedTickAt(now, want) => {
            same_in(rt, at, live_server.follower_mut().tick(now), want);
            return Ok(now);
        }
        LiveServerStep::Next(want) => same_in(rt, at, live_server.follower().next(), want),
        LiveServerStep::Session(want) => holds_in(rt, at, is_session(live_server, want)),
        LiveServerStep::Recorded(want) => same_in(rt, at, record.written(), want),
        LiveServerStep::TickAt(now) => {
            live_server.tick(now);
            return Ok(now);
        }
        step => take_client_step(rt, live_server, (at, now), step)?,
    }
    Ok(now)
}

// Takes a step of the clients.
fn take_client_step<B: OrderBook>(
    rt: &impl Host,
    live_server: &mut LiveServer<B>,
    (at, now): (usize, u64),
    step: LiveServerStep<'_>,
) -> TestResult {
    match step {
        LiveServerStep::Admit(want) => same_in(rt, at, live_server.admit(config(rt), now)?, want),
        LiveServerStep::Hear(place, bytes) => same_in(
            rt,
            at,
            hear(live_server, place, bytes, now),
            bytes.len(),
        ),
        LiveServerStep::Login(place) => {
            same_in(rt, at, hear(live_server, place, LOGIN, now), LOGIN.len());
            holds_in(rt, at, take(live_server, place, WELCOME.len(), now));
        }
        LiveServerStep::Answer => live_server.answer(u64::MAX, now)?,
        LiveServerStep::AnswerWithin(limit) => live_server.answer(limit, now)?,
        LiveServerStep::Kept(want) => same_in(rt, at, live_server.snapshot_bytes(), want),
        LiveServerStep::Pending(place, want) => same_in(rt, at, live_server.pending(place), want),
        LiveServerStep::Take(place, count) => holds_in(
            rt,
            at,
            take(live_server, place, count, now),
        ),
        LiveServerStep::Tick => live_server.tick(now),
        LiveServerStep::Stands(place, want) => same_in(rt, at, stands_at(live_server, place), want),
        LiveServerStep::Accepted(place, want) => same_in(
            rt,
            at,
            is_accepted_at(live_server, place),
            want,
        ),
        LiveServerStep::Rejected(place, want) => same_in(
            rt,
            at,
            rejection_at(live_server, place),
            want,
        ),
        LiveServerStep::Leave(place) => live_server.leave(place),
        _ => panic!(rt; "step {at} is not of a client"),
    }
    Ok(())
}

/// Takes a server through these steps, from time 0 on.
pub(crate) fn take_steps<B: OrderBook>(
    rt: &impl Host,
    live_server: &mut LiveServer<B>,
    record: &mut FuseWriter,
    steps: &[LiveServerStep<'_>],
) -> TestResult {
    let mut now = 0;
    for at in 0..steps.len() {
        now = take_step(rt, live_server, record, (at, now), steps[at])?;
    }
    Ok(())
}

/// Takes a new server through these steps.
pub(crate) fn check<B: OrderBook>(
    rt: &impl Host,
    memory: B::Alloc,
    glimpse: bool,
    steps: &[LiveServerStep<'_>],
) -> TestResult {
    let mut live_server: LiveServer<B> = live_server(rt, memory, glimpse)?;
    let mut record = FuseWriter::new(rt.alloc(), 5, None);
    take_steps(rt, &mut live_server, &mut record, steps)
}
