//! The plainest message for each type of message, written out by hand.
use super::market_of;
use crate::equal::{Host, TestResult, same_in};
use itch_book::{ListBook, OrderBook};
use itch_codec::{Message, Side, TradingAction, decode, encode};
use itch_market::{Market, same_message};
use std::alloc::{AllocError, Global};
use std::test::Fail;
use test_doubles::messages::*;

// A message, and its plainest form.
type MadePair = (Made, Made);

// Returns a market with AAPL at locate 1, all its data set, and a bid for 100 shares with reference 1.
fn begun<B: OrderBook>(alloc: B::Alloc) -> Result<Market<B>, Fail> {
    let messages = [
        event(b'O'),
        directory(1, "AAPL", 100),
        trading_action(1, "AAPL", b'T'),
        reg_sho(1, "AAPL", b'0'),
        halt(1, "AAPL", b'Q', b'H'),
        position(1, "ABCD", "AAPL", b'A'),
        add(1, 1, Side::Buy, 100, "AAPL", 1500000),
    ];
    market_of(alloc, &messages)
}

// Returns the message that represents all messages without an effect.
fn nothing() -> Made {
    broken_trade(0, 0)
}

// Returns a halt of AAPL without its reserved byte.
fn halted() -> Made {
    Some(Message::TradingAction(TradingAction {
        header: header(1)?,
        stock: stock("AAPL")?,
        state: b'H',
        reserved: 0,
        reason: *b"    ",
    }))
}

// Returns the bytes of a message with a tracking number and a timestamp, which are eight bytes from the fourth on.
fn stamped(alloc: Global, message: &Message<'_>) -> Result<Vec<u8>, AllocError> {
    let encoded = encode(message);
    let mut bytes = encoded.bytes().to_vec(alloc)?;
    for byte in bytes.iter_mut().skip(3).take(8) {
        *byte = 1;
    }
    Ok(bytes)
}

fn check_plain<B: OrderBook>(
    rt: &impl Host,
    market: &Market<B>,
    row: usize,
    message: &Message<'_>,
    want: &Message<'static>,
) {
    same_in(rt, row, &market.plain(message), want);
}

// Checks the plainest form of each message, also with another tracking number and timestamp.
fn check_rows<B: OrderBook>(rt: &impl Host, memory: B::Alloc, rows: &[MadePair]) -> TestResult {
    let market: Market<B> = begun(memory)?;
    for (row, (message, want)) in rows.iter().enumerate() {
        let message = made(message)?;
        let bytes = stamped(rt.alloc(), message)?;
        check_plain(rt, &market, row, message, made(want)?);
        check_plain(rt, &market, row, &decode(&bytes)?, made(want)?);
    }
    Ok(())
}

#[test]
fn plain_messages_of_securities(rt: HostRuntime) -> TestResult {
    let no_more = || position(1, "ABCD", "AAPL", b'D');
    let other = || position(1, "ZZZZ", "AAPL", b'A');
    let rows = [
        (event(b'O'), nothing()),
        (event(b'S'), event(b'S')),
        (directory(1, "AAPL", 100), nothing()),
        (directory(1, "AAPL", 200), directory(1, "AAPL", 200)),
        (directory(2, "MSFT", 100), directory(2, "MSFT", 100)),
        (trading_action(1, "AAPL", b'T'), nothing()),
        (trading_action(1, "AAPL", b'H'), halted()),
        (reg_sho(1, "AAPL", b'0'), nothing()),
        (reg_sho(1, "AAPL", b'1'), reg_sho(1, "AAPL", b'1')),
        (halt(1, "AAPL", b'Q', b'H'), nothing()),
        (halt(1, "AAPL", b'Q', b'T'), halt(1, "AAPL", b'Q', b'T')),
        (halt(1, "AAPL", b'X', b'H'), halt(1, "AAPL", b'X', b'H')),
        (position(1, "ABCD", "AAPL", b'A'), nothing()),
        (no_more(), no_more()),
        (other(), other()),
    ];
    check_rows::<ListBook>(&rt, rt.alloc(), &rows)
}

#[test]
fn plain_messages_of_orders(rt: HostRuntime) -> TestResult {
    let sale = || add(1, 9, Side::Sell, 5, "AAPL", 1500100);
    let rows = [
        (sale(), sale()),
        (attributed(9, 5, 1500000), attributed(9, 5, 1500000)),
        (executed(1, 1, 0), nothing()),
        (executed(1, 1, 40), cancel(1, 1, 40)),
        (executed(1, 1, 100), delete(1, 1)),
        (executed_with_price(1, 1, 0, 1500100), nothing()),
        (executed_with_price(1, 1, 40, 1500100), cancel(1, 1, 40)),
        (executed_with_price(1, 1, 100, 1500100), delete(1, 1)),
        (cancel(1, 1, 0), nothing()),
        (cancel(1, 1, 99), cancel(1, 1, 99)),
        (cancel(1, 1, 100), delete(1, 1)),
        (delete(1, 1), delete(1, 1)),
        (replace(1, 1, 9, 5, 1500100), replace(1, 1, 9, 5, 1500100)),
    ];
    check_rows::<ListBook>(&rt, rt.alloc(), &rows)
}

// Trades, and a message that is not decoded, each with locate 1.
const OTHERS: &[&[u8]] = &[
    b"P\0\x01\0\x02\0\0\0\0\0\x03\0\0\0\0\0\0\0\0B\0\0\0dAAPL    \0\x16\xe3\x60\0\0\0\0\0\0\0\x01",
    b"Q\0\x01\0\x02\0\0\0\0\0\x03\0\0\0\0\0\0\0dAAPL    \0\x16\xe3\x60\0\0\0\0\0\0\0\x01O",
    b"B\0\x01\0\x02\0\0\0\0\0\x03\0\0\0\0\0\0\0\x01",
    b"N\0\x01\0\x02\0\0\0\0\0\x03AAPL    N",
];

fn check_others<B: OrderBook>(rt: &impl Host, memory: B::Alloc) -> TestResult {
    let market: Market<B> = begun(memory)?;
    let nothing = nothing();
    let want = made(&nothing)?;
    for (row, payload) in OTHERS.iter().enumerate() {
        check_plain(rt, &market, row, &decode(payload)?, want);
    }
    check_plain(rt, &market, 4, made(&end(4))?, want);
    Ok(())
}

#[test]
fn trades_change_nothing(rt: HostRuntime) -> TestResult {
    check_others::<ListBook>(&rt, rt.alloc())
}

#[test]
fn messages_are_compared_by_type_and_fields(rt: HostRuntime) -> TestResult {
    let all = [
        delete(1, 1),
        delete(1, 2),
        cancel(1, 1, 5),
        event(b'O'),
        end(4),
    ];
    for (i, one) in all.iter().enumerate() {
        for (j, other) in all.iter().enumerate() {
            same_in(&rt, (i, j), same_message(made(one)?, made(other)?), i == j);
        }
    }
    Ok(())
}
