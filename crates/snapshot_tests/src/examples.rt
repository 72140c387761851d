//! The examples of the crates' pages and of the guide. Those that own a market take any book, and call the helpers without contract of the
//! other modules, so that their proofs do not have to know the effect of each call.
mod best;

use crate::equal::{Host, TestResult, same};
use crate::files::{are_same, market, read, write};
use itch_book::{IndexedBook, ListBook, Order, OrderBook};
use itch_codec::{Alpha, Message, Seq, Side, decode, encode};
use itch_frame::{BlockReader, Counted, write_block};
use itch_join::{Joiner, Live, Snap};
use itch_market::{Market, Refusal};
use itch_soup::{ClientAct, ClientSession, Credentials, Origin, parse_packet};
use std::test::Fail;
use test_doubles::FuseWriter;
use test_doubles::payloads::*;

#[test]
fn blocks_are_written_and_read(rt: HostRuntime) -> TestResult {
    let mut out = FuseWriter::new(rt.alloc(), 64, None);
    write_block(&mut out, b"hi")?;
    same(&rt, out.written(), b"\0\x02hi".as_slice());
    let mut blocks = BlockReader::new(rt.alloc(), Counted::new(out.written()))?;
    same(&rt, blocks.next_block()?, Some(b"hi".as_slice()));
    same(&rt, blocks.next_block()?, None);
    Ok(())
}

#[test]
fn a_message_is_decoded_and_encoded(rt: HostRuntime) -> TestResult {
    let message = decode(ADD_1)?;
    if let Message::AddOrder(order) = &message {
        same(&rt, order.reference, 1);
        same(&rt, (order.side, order.shares), (Side::Buy, 100));
        same(&rt, (order.stock.text(), order.price), ("AAPL", 1_500_000));
    }
    same(&rt, encode(&message).bytes(), ADD_1);
    Ok(())
}

fn book_example<B: OrderBook>(rt: &impl Host, alloc: B::Alloc) -> TestResult {
    let mut book = B::new(alloc);
    assert!(rt; book.get(1).is_none());
    book.add(Order {
        reference: 1,
        locate: 1,
        side: Side::Buy,
        shares: 100,
        price: 1_500_000,
        mpid: None,
    })?;
    let front = book.front(1, Side::Buy);
    same(rt, front.map(|order| order.reference), Some(1));
    same(rt, book.level_total(1, Side::Buy, 1_500_000), (100, 1));
    Ok(())
}

#[test]
fn a_book_knows_its_best_order(rt: HostRuntime) -> TestResult {
    book_example::<IndexedBook>(&rt, rt.alloc())
}

// Applies the message of a payload.
fn apply<B: OrderBook>(
    market: &mut Market<B>,
    payload: &[u8],
) -> Result<Result<(), Refusal>, Fail> {
    Ok(market.apply(&decode(payload)?))
}

// Returns the shares of the best order to buy.
fn best_shares<B: OrderBook>(market: &Market<B>) -> Option<u32> {
    Some(market.best(1, Side::Buy)?.shares)
}

fn market_example<B: OrderBook>(rt: &impl Host, memory: B::Alloc) -> TestResult {
    let mut market: Market<B> = Market::new(memory);
    apply(&mut market, AAPL)??;
    apply(&mut market, ADD_1)??;
    same(rt, best_shares(&market), Some(100));
    same(rt, apply(&mut market, ADD_1)?, Err(Refusal::DuplicateRef));
    Ok(())
}

#[test]
fn a_market_follows_its_messages(rt: HostRuntime) -> TestResult {
    market_example::<ListBook>(&rt, rt.alloc())
}

fn snapshot_example<B: OrderBook>(rt: &impl Host, memory: B::Alloc) -> TestResult {
    let market: Market<B> = market(rt.alloc(), memory, &[AAPL])?;
    let next = Seq::new(2).ok_or("a number")?;
    let mut out = FuseWriter::new(rt.alloc(), 64, None);
    write(rt, &market, next, &mut out)?;
    let (found, number): (Market<B>, Seq) = read(rt.alloc(), memory, out.written())?;
    assert!(rt; are_same(rt, &market, &found));
    same(rt, number, next);
    Ok(())
}

#[test]
fn a_snapshot_is_read_as_its_market(rt: HostRuntime) -> TestResult {
    snapshot_example::<ListBook>(&rt, rt.alloc())
}

#[test]
fn a_client_is_let_in(rt: HostRuntime) -> TestResult {
    let credentials = Credentials {
        username: Alpha::from_text("user")?,
        password: Alpha::from_text("secret")?,
        session: Alpha::from_text("")?,
    };
    let mut client = ClientSession::new(credentials, 1, 0);
    let login = *b"Luser  secret                                 1";
    same(&rt, client.login(), login);
    let accepted = parse_packet(b"A  ITCHSNAP                   1", Origin::Server)?;
    let act = client.on_packet(&accepted, 20);
    assert!(rt; matches!(act, ClientAct::Accepted { next } if next.value() == 1));
    Ok(())
}

fn join_example<B: OrderBook>(rt: &impl Host, memory: B::Alloc) -> TestResult {
    let mut joiner: Joiner<B> = Joiner::new(memory, 16);
    same(rt, joiner.live(2, ADD_1)?, Live::Kept);
    same(rt, joiner.snapshot(AAPL)?, Snap::More);
    let end = b"G                   2";
    same(rt, joiner.snapshot(end)?, Snap::Joined { next: 3 });
    let market = joiner.market().ok_or("a market")?;
    same(rt, best_shares(market), Some(100));
    Ok(())
}

#[test]
fn a_feed_is_joined_to_a_snapshot(rt: HostRuntime) -> TestResult {
    join_example::<ListBook>(&rt, rt.alloc())
}
