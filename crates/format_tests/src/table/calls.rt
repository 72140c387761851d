//! Calls that first check the conditions of their contracts, for a table in any memory.
use crate::equal::Host;
use itch_book::table::Table;
use std::alloc::{AllocError, Allocator};

/// Inserts a link under a key that has none.
pub(crate) fn put<A: Allocator + Copy>(
    rt: &impl Host,
    table: &mut Table<A>,
    key: u64,
    link: u32,
) -> Result<(), AllocError> {
    assert!(rt; link < u32::MAX);
    assert!(rt; table.get(key).is_none());
    table.insert(key, link)
}

/// Sets another link under a key that has one.
pub(crate) fn set<A: Allocator>(rt: &impl Host, table: &mut Table<A>, key: u64, link: u32) {
    assert!(rt; link < u32::MAX);
    assert!(rt; table.get(key).is_some());
    table.set(key, link);
}

/// Removes the link of a key that has one.
pub(crate) fn take<A: Allocator>(rt: &impl Host, table: &mut Table<A>, key: u64) -> u32 {
    assert!(rt; table.get(key).is_some());
    table.remove(key)
}

/// Checks that the key has this link.
pub(crate) fn has<A: Allocator>(rt: &impl Host, table: &Table<A>, key: u64, want: Option<u32>) {
    let link = table.get(key);
    assert!(rt; link == want, "key {key}");
}
