//! A hundred thousand calls, each compared with the same call of a hash map.
use super::calls::{has, put, set, take};
use crate::equal::{Host, TestResult};
use itch_book::table::Table;
use std::alloc::{AllocError, Global};
use std::collections::HashMap;
use std::hash::{BuildHasherDefault, FoldHasher};

type Map = HashMap<u64, u32, BuildHasherDefault<FoldHasher>, Global>;

// Returns the next number, in no apparent order.
fn next(number: u64) -> u64 {
    let number = number ^ (number << 13);
    let number = number ^ (number >> 7);
    number ^ (number << 17)
}

// Returns one of a few dense keys, of many dense keys, of some keys with a page each, or of keys far from all others.
fn key_of(number: u64) -> u64 {
    let choice = number >> 8;
    match number % 4 {
        0 => choice % 500,
        1 => 10_000 + choice % 20_000,
        2 => (choice % 3_000).wrapping_mul(1_000),
        _ => (choice % 300).wrapping_mul(0x0fed_cba9_8765_4321),
    }
}

// Makes one call on both: a new key is inserted, and a known one gets another link or is removed.
fn call_both(
    rt: &impl Host,
    table: &mut Table,
    map: &mut Map,
    number: u64,
) -> Result<(), AllocError> {
    let key = key_of(number);
    let link = (number >> 33) as u32;
    has(rt, table, key, map.get(&key).copied());
    if table.get(key).is_none() {
        put(rt, table, key, link)?;
        assert!(rt; map.insert(key, link).is_ok());
    } else if number & 64 == 0 {
        set(rt, table, key, link);
        assert!(rt; map.insert(key, link).is_ok());
    } else {
        let taken = take(rt, table, key);
        assert!(rt; map.remove(&key) == Some(taken));
    }
    has(rt, table, key, map.get(&key).copied());
    Ok(())
}

// Checks that each key of the map has its link.
fn agree(rt: &impl Host, table: &Table, map: &Map) {
    for (key, link) in map.iter() {
        has(rt, table, *key, Some(*link));
    }
}

#[test]
fn calls_beside_a_map(rt: HostRuntime) -> TestResult {
    let mut table: Table = Table::new(rt.alloc());
    let mut map: Map = HashMap::new(rt.alloc());
    let mut number = 88_172_645_463_325_252u64;
    for _ in 0..100_000 {
        number = next(number);
        call_both(&rt, &mut table, &mut map, number)?;
    }
    assert!(rt; map.len() > 5_000);
    agree(&rt, &table, &map);
    Ok(())
}
