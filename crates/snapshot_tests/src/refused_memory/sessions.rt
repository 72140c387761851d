//! A session fetched, and one served, which allocates no memory.
use crate::equal::{Host, TestResult, same};
use crate::files::market;
use crate::sessions::{
    FROM_1, FROM_3, LOGIN_1, LOGIN_3, REST_3, SERVED, fetched, is_served_market, serve,
    third_fetched,
};
use itch_book::{IndexedBook, ListBook, OrderBook};
use itch_frame::{BlockReader, Counted, CountedRead};
use itch_market::{Market, Refusal};
use itch_snapshot::SnapFault;
use itch_soup::SoupFault;
use std::alloc::{Allocator, Global};
use std::test::Fail;
use test_doubles::{PieceReader, Refusing};

type RefusingMemory<'a> = &'a Refusing<Global>;

// Returns whether memory was refused for a message of the snapshot.
fn wants_memory(fault: &SoupFault) -> bool {
    matches!(
        fault,
        SoupFault::Snapshot(SnapFault::Rule {
            reason: Refusal::OutOfMemory,
            ..
        })
    )
}

// Fetches with one allocation refused. Returns whether it was refused.
fn refuse_to_fetch<B: OrderBook>(
    rt: &impl Host,
    refusing: &Refusing<Global>,
    memory: B::Alloc,
) -> Result<bool, Fail> {
    match fetched::<B>(rt, memory, PieceReader::new(FROM_1, 64, None))? {
        Ok((found, next)) => is_served_market(rt, &found, next)?,
        Err(fault) => assert!(rt; refusing.has_refused() && wants_memory(&fault)),
    }
    Ok(refusing.has_refused())
}

// Refuses each allocation of a fetch in turn.
fn refuse_each_fetch<B: OrderBook>(
    rt: &impl Host,
    refusing: &Refusing<Global>,
    memory: B::Alloc,
) -> TestResult {
    for nth in 0..16 {
        refusing.arm(nth);
        if !refuse_to_fetch::<B>(rt, refusing, memory)? {
            assert!(rt; nth > 1);
            return Ok(());
        }
    }
    panic!(rt; "more than 16 allocations")
}

#[test]
fn no_market_is_fetched(rt: HostRuntime) -> TestResult {
    let refusing = Refusing::new(rt.alloc(), 0);
    refuse_each_fetch::<IndexedBook<RefusingMemory<'_>>>(&rt, &refusing, &refusing)
}

#[test]
fn no_market_is_fetched_over_a_list(rt: HostRuntime) -> TestResult {
    let refusing = Refusing::new(rt.alloc(), 0);
    refuse_each_fetch::<ListBook<RefusingMemory<'_>>>(&rt, &refusing, &refusing)
}

// Fetches a rest with one allocation refused. Returns whether it was refused.
fn refuse_a_rest(rt: &impl Host, refusing: &Refusing<Global>) -> Result<bool, Fail> {
    match third_fetched(rt, refusing, PieceReader::new(FROM_3, 64, None))? {
        Ok(rest) => same(rt, rest.bytes(), REST_3),
        Err(fault) => assert!(rt; refusing.has_refused() && wants_memory(&fault)),
    }
    Ok(refusing.has_refused())
}

#[test]
fn no_rest_is_fetched(rt: HostRuntime) -> TestResult {
    for nth in 0..16 {
        let refusing = Refusing::new(rt.alloc(), nth);
        if !refuse_a_rest(&rt, &refusing)? {
            assert!(rt; nth > 1);
            return Ok(());
        }
    }
    panic!(rt; "more than 16 allocations")
}

// Serves into this memory with every allocation refused. Returns how many bytes of it are left.
fn serve_into<R: CountedRead, A: Allocator, B: OrderBook>(
    rt: &impl Host,
    refusing: &Refusing<Global>,
    reader: &mut BlockReader<R, A>,
    market: &Market<B>,
    memory: &mut [u8],
) -> usize {
    let mut writer = Counted::new(memory);
    refusing.arm(0);
    let served = serve(rt, reader, &mut writer, market);
    assert!(rt; served.is_ok() && !refusing.has_refused());
    writer.into_inner().len()
}

// Serves a login in fixed memory with every allocation refused.
fn serve_without_memory<B: OrderBook>(
    rt: &impl Host,
    refusing: &Refusing<Global>,
    market: &Market<B>,
    login: &[u8],
    answer: &[u8],
) -> TestResult {
    refusing.arm(1000);
    let mut reader = BlockReader::new(refusing, PieceReader::new(login, 64, None))?;
    let mut memory = [0; 256];
    let left = serve_into(rt, refusing, &mut reader, market, &mut memory);
    assert!(rt; left <= 256);
    same(rt, &memory[..256 - left], answer);
    Ok(())
}

fn serve_each<B: OrderBook>(
    rt: &impl Host,
    refusing: &Refusing<Global>,
    memory: B::Alloc,
) -> TestResult {
    let market: Market<B> = market(rt.alloc(), memory, SERVED)?;
    for (login, answer) in [
        (LOGIN_1, FROM_1),
        (LOGIN_3, FROM_3),
        (b"\0\x01O", b"" as &[u8]),
    ] {
        serve_without_memory(rt, refusing, &market, login, answer)?;
    }
    Ok(())
}

#[test]
fn serving_takes_no_memory(rt: HostRuntime) -> TestResult {
    let refusing = Refusing::new(rt.alloc(), 1000);
    serve_each::<IndexedBook<RefusingMemory<'_>>>(&rt, &refusing, &refusing)
}
