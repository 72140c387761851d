//! The messages of a snapshot taken one by one, a snapshot file read, and calls that allocate no memory.
use crate::equal::{Host, TestResult, same};
use crate::files::{REPLACED_SNAPSHOT, are_same, finished, market, read_from, seq, write};
use itch_book::{IndexedBook, ListBook, OrderBook};
use itch_frame::Counted;
use itch_market::{Market, Refusal};
use itch_snapshot::{SnapFault, SnapshotReader, part_place, snapshot_len};
use std::alloc::Global;
use std::test::Fail;
use test_doubles::days::{REPLACED, blocks};
use test_doubles::{PieceReader, Refusing};

type RefusingMemory<'a> = &'a Refusing<Global>;

// Returns whether memory was refused for the message at this place.
fn wants_memory(fault: &SnapFault, at: u64) -> bool {
    matches!(fault, SnapFault::Rule { place, reason: Refusal::OutOfMemory } if *place == at)
}

// Takes a message with each of its allocations refused in turn, and then with memory. Returns how many were refused.
fn refuse_to_take<B: OrderBook>(
    rt: &impl Host,
    refusing: &Refusing<Global>,
    reader: &mut SnapshotReader<B>,
    payload: &[u8],
) -> u64 {
    let taken = reader.taken();
    for nth in 0..16 {
        refusing.arm(nth);
        let fault = reader.message(payload).err();
        same(rt, refusing.has_refused(), fault.is_some());
        let Some(fault) = fault else { return nth };
        assert!(rt; wants_memory(&fault, taken.saturating_add(1)));
        same(rt, reader.taken(), taken);
    }
    panic!(rt; "more than 16 allocations")
}

fn is_replaced<B: OrderBook>(rt: &impl Host, found: &Market<B>) -> TestResult {
    let want: Market<ListBook> = market(rt.alloc(), rt.alloc(), REPLACED)?;
    assert!(rt; are_same(rt, &want, found));
    Ok(())
}

// Takes each message in this way, and checks the resulting market.
fn refuse_each<B: OrderBook>(
    rt: &impl Host,
    refusing: &Refusing<Global>,
    memory: B::Alloc,
) -> TestResult {
    let mut reader: SnapshotReader<B> = SnapshotReader::new(memory);
    let mut refused = 0u64;
    for payload in REPLACED_SNAPSHOT {
        refused = refused.saturating_add(refuse_to_take(rt, refusing, &mut reader, payload));
    }
    assert!(rt; refused > 1);
    let (found, next) = finished(rt, reader);
    same(rt, next.value(), 5);
    is_replaced(rt, &found)
}

#[test]
fn a_message_may_follow_again(rt: HostRuntime) -> TestResult {
    let refusing = Refusing::new(rt.alloc(), 0);
    refuse_each::<IndexedBook<RefusingMemory<'_>>>(&rt, &refusing, &refusing)
}

#[test]
fn a_message_may_follow_again_over_a_list(rt: HostRuntime) -> TestResult {
    let refusing = Refusing::new(rt.alloc(), 0);
    refuse_each::<ListBook<RefusingMemory<'_>>>(&rt, &refusing, &refusing)
}

// Reads a snapshot file with one allocation refused. Returns whether it was refused.
fn refuse_to_read<B: OrderBook>(
    rt: &impl Host,
    refusing: &Refusing<Global>,
    memory: B::Alloc,
) -> Result<bool, Fail> {
    let file = blocks(rt.alloc(), REPLACED_SNAPSHOT)?;
    let reader = PieceReader::new(file.written(), 64, None);
    let read = read_from::<B>(rt.alloc(), memory, reader)?;
    same(rt, read.is_err(), refusing.has_refused());
    match read {
        Ok((market, next)) => {
            assert!(rt; snapshot_len(&market) < 10);
            same(rt, next.value(), 5);
        }
        Err(SnapFault::Rule { reason, .. }) => same(rt, reason, Refusal::OutOfMemory),
        Err(_) => panic!(rt; "another fault"),
    }
    Ok(refusing.has_refused())
}

// Refuses each allocation of a read in turn.
fn refuse_each_read<B: OrderBook>(
    rt: &impl Host,
    refusing: &Refusing<Global>,
    memory: B::Alloc,
) -> TestResult {
    for nth in 0..16 {
        refusing.arm(nth);
        if !refuse_to_read::<B>(rt, refusing, memory)? {
            assert!(rt; nth > 1);
            return Ok(());
        }
    }
    panic!(rt; "more than 16 allocations")
}

#[test]
fn no_market_is_handed_out(rt: HostRuntime) -> TestResult {
    let refusing = Refusing::new(rt.alloc(), 0);
    refuse_each_read::<IndexedBook<RefusingMemory<'_>>>(&rt, &refusing, &refusing)
}

#[test]
fn no_market_is_handed_out_over_a_list(rt: HostRuntime) -> TestResult {
    let refusing = Refusing::new(rt.alloc(), 0);
    refuse_each_read::<ListBook<RefusingMemory<'_>>>(&rt, &refusing, &refusing)
}

// Writes a snapshot into this memory, and compares the market with itself, with every allocation refused.
fn write_into<B: OrderBook>(
    rt: &impl Host,
    refusing: &Refusing<Global>,
    market: &Market<B>,
    memory: &mut [u8],
) {
    assert!(rt; snapshot_len(market) < 10);
    let mut writer = Counted::new(memory);
    refusing.arm(0);
    let count = write(rt, market, seq(rt, 5), &mut writer);
    same(rt, count.expect(rt, "a snapshot"), 4);
    same(rt, part_place(market, market), None);
    assert!(rt; !refusing.has_refused());
}

fn write_without_memory<B: OrderBook>(
    rt: &impl Host,
    refusing: &Refusing<Global>,
    memory: B::Alloc,
) -> TestResult {
    let market: Market<B> = market(rt.alloc(), memory, REPLACED)?;
    let mut written = [0; 144];
    write_into(rt, refusing, &market, &mut written);
    let want = blocks(rt.alloc(), REPLACED_SNAPSHOT)?;
    same(rt, written.as_slice(), want.written());
    Ok(())
}

#[test]
fn writing_and_comparing_take_no_memory(rt: HostRuntime) -> TestResult {
    let refusing = Refusing::new(rt.alloc(), 1000);
    write_without_memory::<IndexedBook<RefusingMemory<'_>>>(&rt, &refusing, &refusing)
}
