//! A client of a played feed: the bytes sent to it, and when it is cut off.
use super::messages::{CLIENT_HEARTBEAT, LOGIN, LOGIN_2, LOGIN_OTHER, LOGIN_WRONG, LOGOUT};
use super::steps::{Standing, config, how_it_stands};
use crate::equal::{Host, TestResult, holds_in, same_in};
use itch_live::{DisconnectCause, Player, laws};
use std::alloc::{Allocator, Global};
use test_doubles::Refusing;

/// An action, or an expected result.
#[derive(Clone, Copy)]
enum Turn<'a> {
    /// Sets the time.
    At(u64),
    /// The client sends this, in pieces of seven bytes, and all of it is taken.
    Hear(&'a [u8]),
    /// The message with this number is wanted, or none.
    Wanted(Option<u64>),
    /// Passes in the wanted message: this one, or one of that many bytes.
    Play(&'a [u8]),
    PlayLong(usize),
    End,
    Tick,
    /// The same after setting the time.
    TickAt(u64),
    /// Exactly this is pending.
    Pending(&'a [u8]),
    /// This many bytes are pending.
    Waits(usize),
    /// The socket takes that many bytes.
    Take(usize),
    Stands(Standing),
    /// Its login was rejected with this code, or with none.
    Rejected(Option<u8>),
    /// It is played to from this number on, or not at all.
    From(Option<u64>),
    Leave,
}

static LONG: [u8; 65_534] = [b'x'; 65_534];

// The client sends this. Returns how many bytes were taken.
fn hear<A: Allocator>(player: &mut Player<A>, bytes: &[u8], now: u64) -> usize {
    let mut from = 0usize;
    for _call in 0..bytes.len() {
        let to = from.saturating_add(7).min(bytes.len());
        if from < to {
            from = from.saturating_add(player.hear(&bytes[from..to], now));
        }
    }
    from
}

// Passes in the wanted message, if there is one and this fits a packet.
fn play<A: Allocator>(player: &mut Player<A>, message: &[u8], now: u64) -> bool {
    let fits = player.wanted().is_some() && message.len() < 65_535;
    if fits {
        player.play(message, now);
    }
    fits
}

fn take<A: Allocator>(player: &mut Player<A>, count: usize, now: u64) -> bool {
    let fits = count <= player.pending().len();
    if fits {
        player.took(count, now);
    }
    fits
}

fn take_turn<A: Allocator>(
    rt: &impl Host,
    player: &mut Player<A>,
    (at, now): (usize, u64),
    turn: Turn<'_>,
) -> u64 {
    match turn {
        Turn::At(now) => return now,
        Turn::Hear(bytes) => same_in(rt, at, hear(player, bytes, now), bytes.len()),
        Turn::Wanted(want) => same_in(rt, at, player.wanted(), want),
        Turn::Play(message) => holds_in(rt, at, play(player, message, now)),
        Turn::PlayLong(count) => holds_in(rt, at, play(player, &LONG[..count.min(65_534)], now)),
        Turn::End => player.end(now),
        Turn::Tick => player.tick(now),
        Turn::TickAt(now) => {
            player.tick(now);
            return now;
        }
        Turn::Pending(want) => same_in(rt, at, player.pending(), want),
        Turn::Waits(want) => same_in(rt, at, player.pending().len(), want),
        Turn::Take(count) => holds_in(rt, at, take(player, count, now)),
        Turn::Stands(want) => {
            let stands = how_it_stands(player.is_gone(), player.why_gone(), player.is_closing());
            same_in(rt, at, stands, want);
        }
        Turn::Rejected(want) => same_in(rt, at, player.rejection_code(), want),
        Turn::From(want) => same_in(rt, at, player.played_from(), want),
        Turn::Leave => player.leave(),
    }
    now
}

fn take_turns<A: Allocator>(rt: &impl Host, player: &mut Player<A>, turns: &[Turn<'_>]) {
    let mut now = 0;
    for at in 0..turns.len() {
        now = take_turn(rt, player, (at, now), turns[at]);
    }
}

// Takes a client of a feed of three messages through these turns.
fn check<A: Allocator + Copy>(rt: &impl Host, memory: A, turns: &[Turn<'_>]) -> TestResult {
    let mut player = Player::new(memory, config(rt), 3, 0)?;
    take_turns(rt, &mut player, turns);
    Ok(())
}

// All three messages, a heartbeat among them, and the end.
const ALL: &[Turn<'static>] = &[
    Turn::Wanted(None),
    Turn::Hear(CLIENT_HEARTBEAT),
    Turn::From(None),
    Turn::Hear(LOGIN),
    Turn::From(Some(1)),
    Turn::Pending(b"\0\x1fA  ITCHSNAP                   1"),
    Turn::Wanted(Some(1)),
    Turn::Play(b"one"),
    Turn::Wanted(Some(2)),
    Turn::Pending(b"\0\x1fA  ITCHSNAP                   1\0\x04Sone"),
    Turn::Take(34),
    Turn::Pending(b"\x04Sone"),
    Turn::TickAt(2_000),
    Turn::Pending(b"\x04Sone"),
    Turn::Take(5),
    Turn::TickAt(3_000),
    Turn::Pending(b""),
    Turn::TickAt(3_001),
    Turn::Pending(b"\0\x01H"),
    Turn::Play(b""),
    Turn::End,
    Turn::Pending(b"\0\x01H\0\x01S"),
    Turn::Play(b"three"),
    Turn::Wanted(None),
    Turn::Stands(Standing::There),
    Turn::End,
    Turn::End,
    Turn::Pending(b"\0\x01H\0\x01S\0\x06Sthree\0\x01Z"),
    Turn::Take(17),
    Turn::Stands(Standing::Closing),
    Turn::From(Some(1)),
    Turn::TickAt(9_000),
    Turn::Hear(LOGIN),
    Turn::Pending(b""),
    Turn::Stands(Standing::Closing),
    Turn::TickAt(18_000),
    Turn::Stands(Standing::Closing),
    Turn::TickAt(18_001),
    Turn::Stands(Standing::DisconnectCause(DisconnectCause::Silent)),
];

#[test]
fn all_messages(rt: HostRuntime) -> TestResult {
    check(&rt, rt.alloc(), ALL)
}

const LOGIN_3: &[u8] = b"\0\x2fLuser  secret                                 3";

const LOGIN_4: &[u8] = b"\0\x2fLuser  secret                                 4";

const LOGIN_5: &[u8] = b"\0\x2fLuser  secret                                 5";

// From the third message on, and from the one after the last, with a feed that has no end.
const FROM_3: &[Turn<'static>] = &[
    Turn::Hear(LOGIN_3),
    Turn::Take(33),
    Turn::Wanted(Some(3)),
    Turn::Play(b"three"),
    Turn::Pending(b"\0\x06Sthree"),
    Turn::Hear(LOGOUT),
    Turn::Stands(Standing::DisconnectCause(DisconnectCause::Left)),
    Turn::From(Some(3)),
    Turn::Pending(b""),
    Turn::End,
    Turn::Pending(b""),
];

const FROM_4: &[Turn<'static>] = &[
    Turn::Hear(LOGIN_4),
    Turn::From(Some(4)),
    Turn::Rejected(None),
    Turn::Pending(b"\0\x1fA  ITCHSNAP                   4"),
    Turn::Wanted(None),
    Turn::Take(33),
    Turn::TickAt(1_001),
    Turn::Pending(b"\0\x01H"),
    Turn::Tick,
    Turn::Pending(b"\0\x01H"),
    Turn::Take(3),
    Turn::TickAt(2_002),
    Turn::Pending(b"\0\x01H"),
    Turn::Hear(LOGIN),
    Turn::Stands(Standing::DisconnectCause(DisconnectCause::Fault)),
];

#[test]
fn from_a_number_on(rt: HostRuntime) -> TestResult {
    check(&rt, rt.alloc(), FROM_3)?;
    check(&rt, rt.alloc(), FROM_4)
}

// A rejection, and nothing after it.
const WRONG: &[Turn<'static>] = &[
    Turn::Hear(LOGIN_WRONG),
    Turn::Pending(b"\0\x02JA"),
    Turn::Hear(LOGIN),
    Turn::Wanted(None),
    Turn::End,
    Turn::TickAt(1_001),
    Turn::Pending(b"\0\x02JA"),
    Turn::Take(4),
    Turn::Stands(Standing::Closing),
    Turn::Rejected(Some(b'A')),
    Turn::From(None),
    Turn::TickAt(3_000),
    Turn::Pending(b""),
];

const BEYOND: &[Turn<'static>] = &[
    Turn::Rejected(None),
    Turn::Hear(LOGIN_5),
    Turn::Pending(b"\0\x02JS"),
    Turn::Rejected(Some(b'S')),
];

const OTHER: &[Turn<'static>] = &[Turn::Hear(LOGIN_OTHER), Turn::Pending(b"\0\x02JS")];

const NONSENSE: &[Turn<'static>] = &[
    Turn::Hear(b"\0\x01Q"),
    Turn::Stands(Standing::DisconnectCause(DisconnectCause::Fault)),
    Turn::Hear(LOGIN),
    Turn::Pending(b""),
    Turn::Wanted(None),
];

#[test]
fn refused(rt: HostRuntime) -> TestResult {
    check(&rt, rt.alloc(), WRONG)?;
    check(&rt, rt.alloc(), BEYOND)?;
    check(&rt, rt.alloc(), OTHER)?;
    check(&rt, rt.alloc(), NONSENSE)
}

// 15 seconds without a packet before the login; then with neither a packet nor a byte taken. Each of these is a sign of life.
const SILENT: &[Turn<'static>] = &[
    Turn::TickAt(14_999),
    Turn::Hear(LOGIN_2),
    Turn::TickAt(29_998),
    Turn::Stands(Standing::There),
    Turn::Take(1),
    Turn::TickAt(44_997),
    Turn::Stands(Standing::There),
    Turn::Hear(CLIENT_HEARTBEAT),
    Turn::TickAt(59_996),
    Turn::Stands(Standing::There),
    Turn::TickAt(59_997),
    Turn::Stands(Standing::DisconnectCause(DisconnectCause::Silent)),
    Turn::Leave,
    Turn::Stands(Standing::DisconnectCause(DisconnectCause::Silent)),
    Turn::Wanted(None),
];

const NO_LOGIN: &[Turn<'static>] = &[
    Turn::TickAt(15_000),
    Turn::Stands(Standing::DisconnectCause(DisconnectCause::Silent)),
];

const LEFT: &[Turn<'static>] = &[
    Turn::Hear(LOGIN),
    Turn::Leave,
    Turn::Stands(Standing::DisconnectCause(DisconnectCause::Left)),
    Turn::TickAt(15_000),
    Turn::Stands(Standing::DisconnectCause(DisconnectCause::Left)),
    Turn::Wanted(None),
    Turn::Pending(b""),
];

#[test]
fn cut_off(rt: HostRuntime) -> TestResult {
    check(&rt, rt.alloc(), SILENT)?;
    check(&rt, rt.alloc(), NO_LOGIN)?;
    check(&rt, rt.alloc(), LEFT)
}

// 65,536 pending bytes still leave room for the longest message and the end; one more does not.
const FULL: &[Turn<'static>] = &[
    Turn::Hear(LOGIN),
    Turn::PlayLong(65_500),
    Turn::Waits(65_536),
    Turn::Wanted(Some(2)),
    Turn::PlayLong(65_534),
    Turn::Waits(131_073),
    Turn::Wanted(None),
    Turn::Take(65_536),
    Turn::Waits(65_537),
    Turn::Wanted(None),
    Turn::Take(1),
    Turn::Wanted(Some(3)),
    Turn::PlayLong(65_534),
    Turn::End,
    Turn::Waits(131_076),
];

#[test]
fn full(rt: HostRuntime) -> TestResult {
    check(&rt, rt.alloc(), FULL)
}

#[test]
fn played_in_order() {
    laws::played_in_order();
}

// Refuses each allocation of a client in turn; with memory it allocates nothing later.
fn refuse<A: Allocator + Copy>(rt: &impl Host, memory: A, refusing: &Refusing<Global>) -> u64 {
    for nth in 0..16 {
        refusing.arm(nth);
        let made = Player::new(memory, config(rt), 3, 0);
        holds_in(rt, 0, made.is_ok() != refusing.has_refused());
        if let Ok(mut player) = made {
            refusing.arm(0);
            take_turns(rt, &mut player, ALL);
            holds_in(rt, 1, !refusing.has_refused());
            return nth;
        }
    }
    panic!(rt; "more than 16 allocations")
}

#[test]
fn refused_memory(rt: HostRuntime) {
    let refusing = Refusing::new(rt.alloc(), 1_000_000);
    assert!(rt; refuse(&rt, &refusing, &refusing) == 2);
}
