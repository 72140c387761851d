//! Markets, by the results of their calls. The helpers take a market with any book.
pub(super) mod content;
mod locate_sets;
mod plain;
mod replaying;

use self::content::references;
use crate::book::{has_len, live, next_price, order, reference, total};
use crate::equal::{Host, TestResult, same, same_words};
use itch_book::{ListBook, Order, OrderBook};
use itch_codec::{Alpha, Message, Side};
use itch_market::{Action, Market, Refusal, Security};
use std::alloc::{AllocError, Allocator, Global};
use std::test::Fail;
use test_doubles::messages::*;

// Applies a message, or returns why it is refused.
fn apply<B: OrderBook>(market: &mut Market<B>, message: &Message<'_>) -> Result<(), Refusal> {
    market.apply(message)
}

// Applies messages. A message that is refused, or cannot be built, ends the test.
fn apply_all<B: OrderBook>(market: &mut Market<B>, messages: &[Made]) -> TestResult {
    for message in messages {
        apply(market, made(message)?)?;
    }
    Ok(())
}

// Returns a market that has taken these messages.
fn market_of<B: OrderBook>(alloc: B::Alloc, messages: &[Made]) -> Result<Market<B>, Fail> {
    let mut market = Market::new(alloc);
    apply_all(&mut market, messages)?;
    Ok(market)
}

// Returns the data of the security at a locate.
fn security<B: OrderBook>(market: &Market<B>, locate: u16) -> Option<&Security<B::Alloc>> {
    market.security(locate)
}

// Returns the order with the highest priority on this side at a locate.
fn best<B: OrderBook>(market: &Market<B>, locate: u16, side: Side) -> Option<Order> {
    market.best(locate, side).copied()
}

fn check_largest<B: OrderBook>(rt: &impl Host, memory: B::Alloc) -> TestResult {
    let messages = [
        directory(65535, "MAX", 100),
        add(65535, u64::MAX, Side::Sell, u32::MAX, "MAX", u32::MAX),
    ];
    let market: Market<B> = market_of(memory, &messages)?;
    let last = security(&market, 65535).ok_or("a security")?;
    same(rt, Some(last.entry.stock), stock("MAX"));
    assert!(rt; security(&market, 0).is_none());
    let largest = Order {
        locate: 65535,
        ..order(u64::MAX, Side::Sell, u32::MAX, u32::MAX)
    };
    same(rt, best(&market, 65535, Side::Sell), Some(largest));
    assert!(rt; best(&market, 65535, Side::Buy).is_none());
    let level = total(market.book(), 65535, Side::Sell, u32::MAX);
    same(rt, level, (4294967295, 1));
    Ok(())
}

#[test]
fn takes_the_largest_values(rt: HostRuntime) -> TestResult {
    check_largest::<ListBook>(&rt, rt.alloc())
}

// Checks that the orders have these references, in snapshot order.
fn check_references<B: OrderBook>(rt: &impl Host, market: &Market<B>, want: &[u64]) -> TestResult {
    same(rt, references(rt, market)?.as_slice(), want);
    Ok(())
}

fn check_levels<B: OrderBook>(rt: &impl Host, book: &B) {
    for (last, want) in [
        (None, Some(1500100)),
        (Some(1500100), Some(1500000)),
        (Some(1500000), None),
    ] {
        same(rt, next_price(book, Side::Buy, last), want);
    }
    for (price, want) in [(1500100, (600, 2)), (1500000, (400, 2))] {
        same(rt, total(book, 1, Side::Buy, price), want);
    }
}

// Checks orders at two prices, which are added in the order of their references.
fn check_priority<B: OrderBook>(rt: &impl Host, memory: B::Alloc) -> TestResult {
    let messages = [
        directory(1, "AAPL", 100),
        add(1, 1, Side::Buy, 100, "AAPL", 1500000),
        add(1, 2, Side::Buy, 200, "AAPL", 1500100),
        add(1, 3, Side::Buy, 300, "AAPL", 1500000),
        add(1, 4, Side::Buy, 400, "AAPL", 1500100),
    ];
    let market: Market<B> = market_of(memory, &messages)?;
    same(rt, reference(best(&market, 1, Side::Buy).as_ref()), 2);
    check_levels(rt, market.book());
    check_references(rt, &market, &[2, 4, 1, 3])
}

#[test]
fn keeps_price_and_time_priority(rt: HostRuntime) -> TestResult {
    check_priority::<ListBook>(&rt, rt.alloc())
}

// Checks that order 3 replaces an attributed order, and comes after order 2.
fn check_replacement<B: OrderBook>(rt: &impl Host, memory: B::Alloc) -> TestResult {
    let messages = [
        directory(1, "AAPL", 100),
        attributed(1, 100, 1500000),
        add(1, 2, Side::Buy, 200, "AAPL", 1500000),
        replace(1, 1, 3, 100, 1500000),
    ];
    let market: Market<B> = market_of(memory, &messages)?;
    let replaced = live(market.book(), 3).ok_or("the replacement")?;
    same(rt, replaced.mpid, Alpha::from_text("ABCD").ok());
    same(rt, replaced.shares, 100);
    check_references(rt, &market, &[2, 3])
}

#[test]
fn replaces_an_attributed_order(rt: HostRuntime) -> TestResult {
    check_replacement::<ListBook>(&rt, rt.alloc())
}

fn locates_of<B: OrderBook>(alloc: Global, market: &Market<B>) -> Result<Vec<u16>, AllocError> {
    market.locates().clone()?.collect(alloc)
}

fn check_states<A: Allocator>(rt: &impl Host, security: &Security<A>) {
    let action = Action {
        state: b'T',
        reason: *b"    ",
    };
    same(rt, security.entry.round_lot_size, 200);
    same(rt, security.action, Some(action));
    same(rt, security.sho, Some(b'0'));
}

fn check_phase<B: OrderBook>(rt: &impl Host, market: &Market<B>, want: Option<u8>) {
    same(rt, market.phase(), want);
}

fn check_empty<B: OrderBook>(rt: &impl Host, memory: B::Alloc) {
    let empty: Market<B> = Market::new(memory);
    check_phase(rt, &empty, None);
}

#[test]
fn an_empty_market_has_no_phase(rt: HostRuntime) {
    check_empty::<ListBook>(&rt, rt.alloc());
}

// Checks a market with the trading states of a security and an order, after two directory messages.
fn check_states_and_orders<B: OrderBook>(rt: &impl Host, memory: B::Alloc) -> TestResult {
    let messages = [
        directory(2, "MSFT", 100),
        event(b'O'),
        directory(1, "AAPL", 100),
        reg_sho(1, "AAPL", b'0'),
        trading_action(1, "AAPL", b'T'),
        add(1, 1, Side::Buy, 100, "AAPL", 1500000),
        directory(1, "AAPL", 200),
    ];
    let market: Market<B> = market_of(memory, &messages)?;
    check_phase(rt, &market, Some(b'O'));
    has_len(rt, market.book(), 1);
    check_states(rt, security(&market, 1).ok_or("a security")?);
    let locates = locates_of(rt.alloc(), &market)?;
    same(rt, locates.as_slice(), [1, 2].as_slice());
    Ok(())
}

// A second directory message at a locate sets only the entry.
#[test]
fn keeps_states_and_orders(rt: HostRuntime) -> TestResult {
    check_states_and_orders::<ListBook>(&rt, rt.alloc())
}

fn check_halts<A: Allocator>(rt: &impl Host, security: &Security<A>) -> TestResult {
    same(rt, security.halts_len(), 2);
    let halts: Vec<(u8, u8)> = security.halts().clone()?.collect(rt.alloc())?;
    let want = [(b'Q', b'H'), (b'X', b'T')];
    same(rt, halts.as_slice(), want.as_slice());
    Ok(())
}

fn check_positions<A: Allocator>(rt: &impl Host, security: &Security<A>) -> TestResult {
    same(rt, security.positions_len(), 2);
    let (first, last) = (Alpha::from_text("ABCD")?, Alpha::from_text("ZZZZ")?);
    let positions: Vec<(Alpha<4>, [u8; 3])> = security.positions().clone()?.collect(rt.alloc())?;
    let want = [(first, *b"NNS"), (last, *b"NND")];
    same(rt, positions.as_slice(), want.as_slice());
    Ok(())
}

// Checks a market of one security with halts and positions, after two directory messages.
fn check_halts_and_positions<B: OrderBook>(rt: &impl Host, memory: B::Alloc) -> TestResult {
    let messages = [
        directory(1, "AAPL", 100),
        position(1, "ZZZZ", "AAPL", b'A'),
        halt(1, "AAPL", b'X', b'H'),
        position(1, "ABCD", "AAPL", b'S'),
        halt(1, "AAPL", b'Q', b'H'),
        halt(1, "AAPL", b'X', b'T'),
        position(1, "ZZZZ", "AAPL", b'D'),
        directory(1, "AAPL", 200),
    ];
    let market: Market<B> = market_of(memory, &messages)?;
    let security = security(&market, 1).ok_or("a security")?;
    check_halts(rt, security)?;
    check_positions(rt, security)
}

// An action that ends a halt is kept, and a second directory message at a locate changes neither halts nor positions.
#[test]
fn keeps_halts_and_positions(rt: HostRuntime) -> TestResult {
    check_halts_and_positions::<ListBook>(&rt, rt.alloc())
}

// Returns a market with AAPL at locate 1, a bid for 100 shares with reference 1, and MSFT at locate 2.
fn begun<B: OrderBook>(alloc: B::Alloc) -> Result<Market<B>, Fail> {
    let messages = [
        directory(1, "AAPL", 100),
        directory(2, "MSFT", 100),
        add(1, 1, Side::Buy, 100, "AAPL", 1500000),
    ];
    market_of(alloc, &messages)
}

// Checks that this market refuses a message for this reason, and does not change.
fn check_refusal<B: OrderBook>(
    rt: &impl Host,
    memory: B::Alloc,
    message: &Message<'_>,
    want: &str,
) -> TestResult {
    let mut market: Market<B> = begun(memory)?;
    let why = apply(&mut market, message).err().ok_or("a refusal")?;
    same_words(rt, &why, want)?;
    has_len(rt, market.book(), 1);
    Ok(())
}

fn check_refusals<B: OrderBook>(
    rt: &impl Host,
    memory: B::Alloc,
    rows: &[(Made, &str)],
) -> TestResult {
    for (message, want) in rows {
        check_refusal::<B>(rt, memory, made(message)?, want)?;
    }
    Ok(())
}

// The first check that fails determines the reason.
#[test]
fn refuses_by_the_first_rule_of_securities(rt: HostRuntime) -> TestResult {
    let rows = [
        (add(3, 9, Side::Buy, 1, "AAPL", 1), "unknown locate"),
        (trading_action(3, "AAPL", b'T'), "unknown locate"),
        (reg_sho(3, "AAPL", b'0'), "unknown locate"),
        (halt(3, "AAPL", b'Q', b'H'), "unknown locate"),
        (position(3, "ABCD", "AAPL", b'A'), "unknown locate"),
        (halt(1, "MSFT", b'Q', b'H'), "stock mismatch"),
        (position(1, "ABCD", "MSFT", b'A'), "stock mismatch"),
        (directory(1, "MSFT", 100), "stock mismatch"),
        (end(4), "unexpected end"),
    ];
    check_refusals::<ListBook>(&rt, rt.alloc(), &rows)
}

#[test]
fn refuses_by_the_first_rule_of_orders(rt: HostRuntime) -> TestResult {
    let rows = [
        (add(1, 9, Side::Buy, 0, "MSFT", 1), "stock mismatch"),
        (add(1, 1, Side::Buy, 0, "AAPL", 1500000), "zero shares"),
        (replace(1, 1, 1, 0, 1500000), "zero shares"),
        (attributed(1, 100, 1500000), "duplicate reference"),
        (replace(1, 1, 1, 50, 1500000), "duplicate reference"),
        (delete(1, 9), "unknown reference"),
        (executed(7, 9, 10), "unknown reference"),
        (executed(2, 1, 10), "locate mismatch"),
        (replace(2, 1, 5, 0, 1500000), "locate mismatch"),
        (delete(2, 1), "locate mismatch"),
        (executed(1, 1, 101), "too many shares, 100 remain"),
    ];
    check_refusals::<ListBook>(&rt, rt.alloc(), &rows)
}

#[test]
fn want_of_memory_has_words(rt: HostRuntime) -> TestResult {
    same_words(&rt, &Refusal::OutOfMemory, "out of memory")?;
    Ok(())
}

// Checks that the market refuses a message for this reason.
fn refuses<B: OrderBook>(
    rt: &impl Host,
    market: &mut Market<B>,
    message: Made,
    want: Refusal,
) -> TestResult {
    same(rt, apply(market, made(&message)?), Err(want));
    Ok(())
}

// Checks that an order keeps its price, at any execution price, and is gone with its last share.
fn take_shares<B: OrderBook>(rt: &impl Host, market: &mut Market<B>) -> TestResult {
    apply_all(market, &[executed(1, 1, 0), cancel(1, 1, 40)])?;
    let most = Refusal::TooManyShares { remain: 60 };
    refuses(rt, market, executed_with_price(1, 1, 61, 1500100), most)?;
    apply_all(market, &[executed_with_price(1, 1, 20, 1500100)])?;
    same(rt, total(market.book(), 1, Side::Buy, 1500000), (40, 1));
    apply_all(market, &[executed(1, 1, 40)])?;
    refuses(rt, market, delete(1, 1), Refusal::UnknownRef)?;
    let sale = add(1, 1, Side::Sell, 5, "AAPL", 1500000);
    apply_all(market, &[sale, delete(1, 1)])?;
    has_len(rt, market.book(), 0);
    Ok(())
}

fn check_shares<B: OrderBook>(rt: &impl Host, memory: B::Alloc) -> TestResult {
    let mut market: Market<B> = begun(memory)?;
    take_shares(rt, &mut market)
}

#[test]
fn takes_shares(rt: HostRuntime) -> TestResult {
    check_shares::<ListBook>(&rt, rt.alloc())
}
