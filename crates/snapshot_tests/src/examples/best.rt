//! The example of the guide: the best bid and the best offer of a symbol, whenever a message of a day file changes them. The messages are
//! those of `examples/quotes.itch`.
use crate::equal::{TestResult, same};
use itch_book::{IndexedBook, Order, OrderBook};
use itch_codec::{Side, decode};
use itch_frame::{BlockReader, CountedRead};
use itch_market::Market;
use std::alloc::Global;
use std::test::Fail;
use test_doubles::PieceReader;
use test_doubles::days::blocks;

const QUOTES: &[&[u8]] = &[
    b"S\0\0\0\0\0\0\0\0\0\x01O",
    b"R\0\x01\0\0\0\0\0\0\0\x02AAPL    QN\0\0\0dNCZ PNN1N\0\0\0\0N",
    b"R\0\x02\0\0\0\0\0\0\0\x03MSFT    QN\0\0\0dNCZ PNN1N\0\0\0\0N",
    b"A\0\x01\0\0\0\0\0\0\0\x04\0\0\0\0\0\0\0\x01B\0\0\0dAAPL    \0\x16\xe3`",
    b"A\0\x01\0\0\0\0\0\0\0\x05\0\0\0\0\0\0\0\x02S\0\0\0dAAPL    \0\x16\xe7H",
    b"A\0\x01\0\0\0\0\0\0\0\x06\0\0\0\0\0\0\0\x03B\0\0\02AAPL    \0\x16\xe5T",
    b"A\0\x02\0\0\0\0\0\0\0\x07\0\0\0\0\0\0\0\x04S\0\0\x01,MSFT    \0@\x16@",
    b"X\0\x01\0\0\0\0\0\0\0\x08\0\0\0\0\0\0\0\x03\0\0\0\x14",
    b"E\0\x01\0\0\0\0\0\0\0\x09\0\0\0\0\0\0\0\x03\0\0\0\x1e\0\0\0\0\0\0\0\x01",
    b"U\0\x01\0\0\0\0\0\0\0\x0a\0\0\0\0\0\0\0\x02\0\0\0\0\0\0\0\x05\0\0\0d\0\x16\xe6\x80",
    b"D\0\x01\0\0\0\0\0\0\0\x0b\0\0\0\0\0\0\0\x01",
];

// A bid and an offer.
type BestPrices = (Option<u32>, Option<u32>);

const CHANGES: [(u64, BestPrices); 6] = [
    (4, (Some(1_500_000), None)),
    (5, (Some(1_500_000), Some(1_501_000))),
    (6, (Some(1_500_500), Some(1_501_000))),
    (9, (Some(1_500_000), Some(1_501_000))),
    (10, (Some(1_500_000), Some(1_500_800))),
    (11, (None, Some(1_500_800))),
];

fn price(best: Option<&Order>) -> Option<u32> {
    best.map(|order| order.price)
}

// Returns the best prices at a locate after each message that changes them.
fn follow<R: CountedRead + Drop, B: OrderBook>(
    alloc: Global,
    memory: B::Alloc,
    reader: R,
    locate: u16,
) -> Result<Vec<(u64, BestPrices)>, Fail> {
    let mut blocks = BlockReader::new(alloc, reader)?;
    let mut market: Market<B> = Market::new(memory);
    let mut changes = Vec::new(alloc);
    let mut before = (None, None);
    for number in 1..u64::MAX {
        let Some(payload) = blocks.next_message()? else {
            break;
        };
        market.apply(&decode(payload)?)?;
        let bid = price(market.best(locate, Side::Buy));
        let offer = price(market.best(locate, Side::Sell));
        if (bid, offer) != before {
            before = (bid, offer);
            changes.push((number, before))?;
        }
    }
    Ok(changes)
}

#[test]
fn the_best_prices_are_followed(rt: HostRuntime) -> TestResult {
    let alloc = rt.alloc();
    let day = blocks(alloc, QUOTES)?;
    let reader = PieceReader::new(day.written(), 64, None);
    let changes = follow::<_, IndexedBook>(alloc, alloc, reader, 1)?;
    same(&rt, changes.as_slice(), CHANGES.as_slice());
    Ok(())
}
