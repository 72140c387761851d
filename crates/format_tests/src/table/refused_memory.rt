//! Keys inserted with each allocation refused in turn: those of the directory, the pages and the hash map.
use super::calls::{has, put, take};
use crate::equal::{Host, TestResult};
use itch_book::table::Table;
use std::alloc::{Allocator, Global};
use test_doubles::Refusing;

// Checks that the keys of the first `count` numbers, `step` apart, have their own numbers as links, and that no others have any.
fn has_first<A: Allocator>(rt: &impl Host, table: &Table<A>, step: u64, count: u32) {
    for number in 0..count {
        let key = u64::from(number).wrapping_mul(step);
        has(rt, table, key, Some(number));
        let next = number.wrapping_add(1);
        let is_there = step == 1 && next < count;
        let want = if is_there { Some(next) } else { None };
        has(rt, table, key.wrapping_add(1), want);
    }
}

// Inserts a key with each of its allocations refused in turn, and then with memory. Returns how many were refused.
fn refuse_each(
    rt: &impl Host,
    refusing: &Refusing<Global>,
    table: &mut Table<&Refusing<Global>>,
    step: u64,
    number: u32,
) -> u64 {
    let key = u64::from(number).wrapping_mul(step);
    for nth in 0..16 {
        refusing.arm(nth);
        if put(rt, table, key, number).is_ok() {
            assert!(rt; !refusing.has_refused());
            return nth;
        }
        assert!(rt; refusing.has_refused());
        has(rt, table, key, None);
        has_first(rt, table, step, number);
    }
    panic!(rt; "more than 16 allocations")
}

// Dense keys, keys with a page each, and keys beyond the pages.
#[test]
fn a_table_stays_as_it_was(rt: HostRuntime) -> TestResult {
    for (step, count, least) in [
        (1, 800, 4),
        (128, 200, 10),
        (4_000, 200, 10),
        (0x0fed_cba9_8765_4321, 200, 4),
    ] {
        let refusing = Refusing::new(rt.alloc(), 0);
        let mut table: Table<&Refusing<Global>> = Table::new(&refusing);
        let mut refused = 0u64;
        for number in 0..count {
            refused = refused.saturating_add(refuse_each(&rt, &refusing, &mut table, step, number));
        }
        assert!(rt; refused >= least, "{refused} refusals of keys {step} apart");
        has_first(&rt, &table, step, count);
    }
    Ok(())
}

// A key is removed, and inserted again at its place, without an allocation.
#[test]
fn a_key_goes_and_comes_without_memory(rt: HostRuntime) -> TestResult {
    let refusing = Refusing::new(rt.alloc(), 0);
    let mut table: Table<&Refusing<Global>> = Table::new(&refusing);
    refusing.arm(100);
    for number in 0..3 {
        put(&rt, &mut table, u64::from(number).wrapping_mul(100), number)?;
    }
    refusing.arm(0);
    for key in [0, 100, 200, 100, 0] {
        let link = take(&rt, &mut table, key);
        has(&rt, &table, key, None);
        put(&rt, &mut table, key, link)?;
    }
    assert!(rt; !refusing.has_refused());
    Ok(())
}
