//! The served session of the tables: its login, its answers, and both of its ends in memory.
use crate::equal::{Host, TestResult, same};
use crate::files::{are_same, market, seq};
use itch_book::{ListBook, OrderBook};
use itch_codec::{Alpha, Seq};
use itch_frame::{BlockReader, CountedRead, CountedWrite};
use itch_market::Market;
use itch_snapshot::snapshot_len;
use itch_soup::{
    Credentials, Rest, Served, ServerConfig, SoupFault, fetch_one, fetch_rest, serve_one,
};
use std::alloc::{Allocator, Global};
use std::test::Fail;
use test_doubles::days::Blocks;
use test_doubles::payloads::*;
use test_doubles::{FuseWriter, PieceReader};

/// Logins for all messages, and for those from the third on.
pub(crate) const LOGIN_1: &[u8] = b"\0\x2fLuser  secret                                 1";

pub(crate) const LOGIN_3: &[u8] = b"\0\x2fLuser  secret                                 3";

/// Their answers: the acceptance, the messages, End of Snapshot, and the end of the session.
pub(crate) const FROM_1: &[u8] = b"\0\x1fA  ITCHSNAP                   1\
    \0\x0dSS\0\0\0\0\0\0\0\0\0\0O\
    \0\x28SR\0\x01\0\0\0\0\0\0\0\0AAPL    QN\0\0\0dNCZ PNN1N\0\0\0\0N\
    \0\x25SA\0\x01\0\0\0\0\0\0\0\0\0\0\0\0\0\0\0\x01B\0\0\0dAAPL    \0\x16\xe3\x60\
    \0\x25SA\0\x01\0\0\0\0\0\0\0\0\0\0\0\0\0\0\0\x02B\0\0\0\xc8AAPL    \0\x16\xe3\x60\
    \0\x16SG                   5\0\x01Z";

pub(crate) const FROM_3: &[u8] = b"\0\x1fA  ITCHSNAP                   3\
    \0\x25SA\0\x01\0\0\0\0\0\0\0\0\0\0\0\0\0\0\0\x01B\0\0\0dAAPL    \0\x16\xe3\x60\
    \0\x25SA\0\x01\0\0\0\0\0\0\0\0\0\0\0\0\0\0\0\x02B\0\0\0\xc8AAPL    \0\x16\xe3\x60\
    \0\x16SG                   5\0\x01Z";

/// The blocks of the messages from the third on.
pub(crate) const REST_3: &[u8] =
    b"\0\x24A\0\x01\0\0\0\0\0\0\0\0\0\0\0\0\0\0\0\x01B\0\0\0dAAPL    \0\x16\xe3\x60\
    \0\x24A\0\x01\0\0\0\0\0\0\0\0\0\0\0\0\0\0\0\x02B\0\0\0\xc8AAPL    \0\x16\xe3\x60\
    \0\x15G                   5";

/// The served messages: four, and then End of Snapshot with number 5.
pub(crate) const SERVED: &[&[u8]] = &[EVENT, AAPL, ADD_1, ADD_2];

pub(crate) fn alpha<const N: usize>(rt: &impl Host, text: &str) -> Alpha<N> {
    Alpha::from_text(text).expect(rt, "a text that fits")
}

pub(crate) fn config(rt: &impl Host) -> ServerConfig {
    ServerConfig {
        username: alpha(rt, "user"),
        password: alpha(rt, "secret"),
        session: alpha(rt, "ITCHSNAP"),
    }
}

pub(crate) fn credentials(rt: &impl Host) -> Credentials {
    Credentials {
        username: alpha(rt, "user"),
        password: alpha(rt, "secret"),
        session: alpha(rt, ""),
    }
}

/// Returns the served market.
pub(crate) fn served_market(alloc: Global) -> Result<Market<ListBook>, Fail> {
    market(alloc, alloc, SERVED)
}

/// Serves one session of a market, with 5 in its End of Snapshot. This helper and those below have no contract, so that a proof of a test
/// does not have to know the effect of the call.
pub(crate) fn serve<R: CountedRead, A: Allocator, W: CountedWrite, B: OrderBook>(
    rt: &impl Host,
    reader: &mut BlockReader<R, A>,
    writer: &mut W,
    market: &Market<B>,
) -> Result<Served, SoupFault> {
    assert!(rt; snapshot_len(market) < 10);
    serve_one(reader, writer, market, seq(rt, 5), &config(rt))
}

/// Serves one session with the bytes of this reader.
pub(crate) fn serve_from<B: OrderBook>(
    rt: &impl Host,
    reader: PieceReader<'_>,
    writer: &mut FuseWriter,
    market: &Market<B>,
) -> Result<Result<Served, SoupFault>, Fail> {
    let mut reader = BlockReader::new(rt.alloc(), reader)?;
    Ok(serve(rt, &mut reader, writer, market))
}

/// Fetches through a reader and a writer, with a login for all messages.
pub(crate) fn fetch<B: OrderBook>(
    rt: &impl Host,
    memory: B::Alloc,
    reader: &mut Blocks<'_>,
    writer: &mut FuseWriter,
) -> Result<(Market<B>, Seq), SoupFault> {
    fetch_one(memory, reader, writer, &credentials(rt))
}

/// The result of a fetch.
pub(crate) type Fetched<B> = Result<(Market<B>, Seq), SoupFault>;

/// Fetches from this reader, with a login for all messages.
pub(crate) fn fetched<B: OrderBook>(
    rt: &impl Host,
    memory: B::Alloc,
    reader: PieceReader<'_>,
) -> Result<Fetched<B>, Fail> {
    let mut reader = BlockReader::new(rt.alloc(), reader)?;
    let mut writer = FuseWriter::new(rt.alloc(), 64, None);
    let result = fetch(rt, memory, &mut reader, &mut writer);
    same(rt, writer.written(), LOGIN_1);
    Ok(result)
}

/// Returns the fault of a fetch, if it has one.
pub(crate) fn fetch_fault(
    rt: &impl Host,
    reader: PieceReader<'_>,
) -> Result<Option<SoupFault>, Fail> {
    Ok(fetched::<ListBook>(rt, rt.alloc(), reader)?.err())
}

/// Fetches the messages from the third on through a reader and a writer.
pub(crate) fn fetch_third<M: Allocator>(
    rt: &impl Host,
    memory: M,
    reader: &mut Blocks<'_>,
    writer: &mut FuseWriter,
) -> Result<Rest<M>, SoupFault> {
    fetch_rest(memory, reader, writer, &credentials(rt), seq(rt, 3))
}

/// Fetches the messages from the third on from this reader, and checks the login.
pub(crate) fn third_fetched<M: Allocator>(
    rt: &impl Host,
    memory: M,
    reader: PieceReader<'_>,
) -> Result<Result<Rest<M>, SoupFault>, Fail> {
    let mut reader = BlockReader::new(rt.alloc(), reader)?;
    let mut writer = FuseWriter::new(rt.alloc(), 64, None);
    let result = fetch_third(rt, memory, &mut reader, &mut writer);
    same(rt, writer.written(), LOGIN_3);
    Ok(result)
}

/// Checks that this market is the served one, and the number of its End of Snapshot.
pub(crate) fn is_served_market<B: OrderBook>(
    rt: &impl Host,
    market: &Market<B>,
    next: Seq,
) -> TestResult {
    assert!(rt; are_same(rt, &served_market(rt.alloc())?, market));
    same(rt, next.value(), 5);
    Ok(())
}
