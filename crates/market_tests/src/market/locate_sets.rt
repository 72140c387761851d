//! Sets of locates, and the messages that they skip.
use crate::equal::{Host, TestResult};
use itch_codec::{Message, Side, decode};
use itch_market::LocateSet;
use std::alloc::{AllocError, Allocator, Global};
use test_doubles::messages::*;

// Checks that a locate is in a set only after it was inserted, once or twice.
fn insert_twice<A: Allocator + Copy>(
    rt: &impl Host,
    set: &mut LocateSet<A>,
    locate: u16,
) -> Result<(), AllocError> {
    assert!(rt; !set.contains(locate));
    for _ in 0..2 {
        set.insert(locate)?;
        assert!(rt; set.contains(locate));
    }
    Ok(())
}

#[test]
fn contains_what_was_inserted(rt: HostRuntime) -> TestResult {
    let mut set = LocateSet::new(rt.alloc());
    for locate in [0u16, 2, 65535] {
        insert_twice(&rt, &mut set, locate)?;
    }
    for locate in [1u16, 65534] {
        assert!(rt; !set.contains(locate));
    }
    let mut all = LocateSet::all(rt.alloc());
    all.insert(7)?;
    for locate in [0u16, 1, 7, 65535] {
        assert!(rt; all.contains(locate));
    }
    Ok(())
}

// Returns whether a set of one locate skips a message.
fn skipped_by(alloc: Global, locate: u16, message: &Message<'_>) -> Result<bool, AllocError> {
    let mut set = LocateSet::new(alloc);
    set.insert(locate)?;
    Ok(set.skips(message))
}

// Checks that a message about a security or an order at locate 1 is skipped by the sets without it.
fn check_skipped(rt: &impl Host, message: &Message<'_>) -> Result<(), AllocError> {
    assert!(rt; !skipped_by(rt.alloc(), 1, message)?);
    assert!(rt; skipped_by(rt.alloc(), 2, message)?);
    assert!(rt; LocateSet::new(rt.alloc()).skips(message));
    assert!(rt; !LocateSet::all(rt.alloc()).skips(message));
    Ok(())
}

#[test]
fn skips_the_messages_of_other_locates(rt: HostRuntime) -> TestResult {
    let messages = [
        directory(1, "AAPL", 100),
        trading_action(1, "AAPL", b'T'),
        reg_sho(1, "AAPL", b'0'),
        halt(1, "AAPL", b'Q', b'H'),
        position(1, "ABCD", "AAPL", b'A'),
        add(1, 1, Side::Buy, 100, "AAPL", 1500000),
        attributed(2, 100, 1500000),
        executed(1, 1, 10),
        executed_with_price(1, 1, 10, 1500000),
        cancel(1, 1, 10),
        delete(1, 1),
        replace(1, 1, 3, 10, 1500000),
    ];
    for message in &messages {
        check_skipped(&rt, made(message)?)?;
    }
    Ok(())
}

// Trades, and messages that do not change a market, each with locate 1.
const OTHERS: &[&[u8]] = &[
    b"P\0\x01\0\0\0\0\0\0\0\0\0\0\0\0\0\0\0\0B\0\0\0dAAPL    \0\x16\xe3\x60\0\0\0\0\0\0\0\x01",
    b"Q\0\x01\0\0\0\0\0\0\0\0\0\0\0\0\0\0\0dAAPL    \0\x16\xe3\x60\0\0\0\0\0\0\0\x01O",
    b"B\0\x01\0\0\0\0\0\0\0\0\0\0\0\0\0\0\0\x01",
    b"N\0\x01\0\0\0\0\0\0\0\0AAPL    N",
];

// Checks that the empty set does not skip this message.
fn is_kept(rt: &impl Host, message: &Message<'_>) {
    assert!(rt; !LocateSet::new(rt.alloc()).skips(message));
}

#[test]
fn skips_nothing_else(rt: HostRuntime) -> TestResult {
    for message in &[event(b'O'), end(4)] {
        is_kept(&rt, made(message)?);
    }
    for payload in OTHERS {
        is_kept(&rt, &decode(payload)?);
    }
    Ok(())
}
