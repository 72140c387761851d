//! Keys chosen to use as much memory as possible, and the memory that they use.
use super::calls::{has, put, take};
use crate::equal::{Host, TestResult};
use itch_book::table::Table;
use linked_list_allocator::LocalHeap;
use std::alloc::AllocError;

// Twice the initial memory of the pages of any keys, and of the heap itself. Vectors double as they grow, hence the factor.
const START: usize = 8_500_000;
// Twice the memory per key.
const FOR_KEY: usize = 128;

// Inserts `count` keys, `step` apart, and checks the memory that they use.
fn fill(
    rt: &impl Host,
    heap: &LocalHeap,
    table: &mut Table<&LocalHeap>,
    step: u64,
    count: u32,
) -> Result<(), AllocError> {
    for number in 0..count {
        put(rt, table, u64::from(number).wrapping_mul(step), number)?;
    }
    for number in 0..count {
        let key = u64::from(number).wrapping_mul(step);
        has(rt, table, key, Some(number));
    }
    let bound = START.saturating_add(FOR_KEY.saturating_mul(count as usize));
    assert!(rt; heap.used() <= bound, "{count} keys {step} apart");
    Ok(())
}

// Removes all of them.
fn empty(rt: &impl Host, table: &mut Table<&LocalHeap>, step: u64, count: u32) {
    for number in 0..count {
        let key = u64::from(number).wrapping_mul(step);
        assert!(rt; take(rt, table, key) == number);
        has(rt, table, key, None);
    }
}

// Keys with a page for eight keys or for each; keys so far apart that hardly any gets a page; and keys spread over all numbers.
#[test]
fn sparse_keys_take_bounded_memory(rt: HostRuntime) -> TestResult {
    for step in [
        16,
        128,
        129,
        1_024,
        40_000,
        1_000_000_007,
        0x0000_1234_5678_9abd,
    ] {
        let heap = LocalHeap::new(rt.alloc(), 128 << 20)?;
        let mut table: Table<&LocalHeap> = Table::new(&heap);
        fill(&rt, &heap, &mut table, step, 20_000)?;
        let used = heap.used();
        empty(&rt, &mut table, step, 20_000);
        fill(&rt, &heap, &mut table, step, 20_000)?;
        // A hash map may grow once as keys come and go.
        let most = used.saturating_add(used / 8);
        assert!(rt; heap.used() <= most, "keys {step} apart, again");
    }
    Ok(())
}

// So many keys that the pages of the first ones hardly count, with one key per page, or up to sixteen.
#[test]
fn many_sparse_keys_take_little_more_than_a_map(rt: HostRuntime) -> TestResult {
    for step in [
        8,
        16,
        32,
        64,
        128,
        400,
        1_024,
        1 << 20,
        0x0000_1234_5678_9abd,
    ] {
        let heap = LocalHeap::new(rt.alloc(), 64 << 20)?;
        let mut table: Table<&LocalHeap> = Table::new(&heap);
        fill(&rt, &heap, &mut table, step, 140_000)?;
    }
    Ok(())
}

// Adjacent keys use a few bytes each, even after so many keys with a page each that no more of those get one.
#[test]
fn dense_keys_after_sparse_ones_get_pages(rt: HostRuntime) -> TestResult {
    let heap = LocalHeap::new(rt.alloc(), 64 << 20)?;
    let mut table: Table<&LocalHeap> = Table::new(&heap);
    fill(&rt, &heap, &mut table, 128, 100_000)?;
    let used = heap.used();
    for key in 16_000_000..16_400_000u64 {
        put(&rt, &mut table, key, 1)?;
    }
    let more = heap.used().saturating_sub(used);
    assert!(rt; more <= 9_600_000, "{more} bytes, {used} before");
    Ok(())
}

// The greatest keys, and those at the ends of pages.
#[test]
fn keys_at_the_ends(rt: HostRuntime) -> TestResult {
    let heap = LocalHeap::new(rt.alloc(), 1 << 20)?;
    let mut table: Table<&LocalHeap> = Table::new(&heap);
    let keys = [
        0,
        127,
        128,
        255,
        256,
        u64::MAX,
        u64::MAX - 127,
        u64::MAX - 128,
        1 << 32,
        1 << 63,
    ];
    for (key, link) in keys.iter().zip(1..) {
        put(&rt, &mut table, *key, link)?;
    }
    for (key, link) in keys.iter().zip(1..) {
        has(&rt, &table, *key, Some(link));
        has(&rt, &table, *key ^ 7, None);
    }
    Ok(())
}

// A key that is inserted and removed a million times allocates memory once.
#[test]
fn a_key_used_again(rt: HostRuntime) -> TestResult {
    let heap = LocalHeap::new(rt.alloc(), 1 << 20)?;
    let mut table: Table<&LocalHeap> = Table::new(&heap);
    for key in [7, u64::MAX] {
        put(&rt, &mut table, key, 1)?;
        let used = heap.used();
        for _ in 0..500_000 {
            assert!(rt; take(&rt, &mut table, key) == 1);
            put(&rt, &mut table, key, 1)?;
        }
        assert!(rt; heap.used() == used);
    }
    Ok(())
}

// Of a million ascending keys a hundred are present at a time: a few pages suffice, and the directory has a word per page.
#[test]
fn rising_keys_use_pages_again(rt: HostRuntime) -> TestResult {
    let heap = LocalHeap::new(rt.alloc(), 4 << 20)?;
    let mut table: Table<&LocalHeap> = Table::new(&heap);
    for key in 0..1_000_000u64 {
        put(&rt, &mut table, key, 1)?;
        if key >= 100 {
            assert!(rt; take(&rt, &mut table, key - 100) == 1);
        }
    }
    assert!(rt; heap.used() <= 300_000);
    has(&rt, &table, 999_900, Some(1));
    has(&rt, &table, 999_899, None);
    Ok(())
}
