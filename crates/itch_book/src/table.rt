//! A map from nearly dense numbers, such as the order references of a day, to small numbers: links.
//!
//! A look-up reads one entry of a directory, which is indexed by the key's page, and one link of that page, without hashing. A page has 128
//! keys, and exists only while one of them has a link; then it is reused.
//!
//! A page takes 528 bytes, and its row of the directory four. A key that goes into an existing page earns 64 bytes. A new page and the rows
//! up to it have to be paid from the bytes earned so far, and a key that cannot pay goes into a hash map. The directory has at most 2^18
//! rows, plus 16 for each key that has a link. So keys that stay take at most 64 bytes each in pages, or 16 bytes and their share of the hash
//! map, and four megabytes together. If keys fill pages and then all but one key of each page are removed, each remaining key keeps its page
//! and takes up to 528 bytes, and 64 for its share of the directory. These numbers double while vectors grow.
ghost use Rattle.std.specs.Prelude.{◌≡◌, ℕ, ◌<◌, Some, None, OnOk, OnErr, IsSome, eqb, is_some, ◌/◌};
ghost use Rattle.itch_book.specs.Pages.{place_at};
ghost use Rattle.itch_book.specs.Table.{at, Updates, IsSame, IsCount};

mod credit;
mod pages;

use credit::Credit;
use pages::{KEYS, Pages};
use std::alloc::{AllocError, Allocator, Global};
use std::collections::HashMap;
use std::hash::{BuildHasherDefault, FoldHasher};
use std::marker::Model;

/// A map from some keys to links.
#[derive(Drop)]
pub struct Table<A: Allocator = Global> {
    near: Pages<A>,
    // The links of keys that got no page.
    far: HashMap<u64, u32, BuildHasherDefault<FoldHasher>, A>,
    // The number of keys.
    len: usize,
    // The bytes that pages for new keys may take.
    credit: Credit,
}

impl<A: Allocator> Model for Table<A> {
    ghost use Rattle.itch_book.specs.Table.{Links, IsTable};

    ghost Value = { Links };

    ghost view = { λ t. record { near = t.near; far = t.far.entries } };

    ghost invariant = { λ t. IsTable t.near t.far.entries t.len };
}

impl<A: Allocator> Table<A> {
    /// Creates an empty table.
    pub fn new(alloc: A) -> Self
    where
        A: Copy,
        ensures { (k : ℕ) → at result k ≡ None }
    {
        Table {
            near: Pages::new(alloc),
            far: HashMap::new(alloc),
            len: 0,
            credit: Credit::new(),
        }
    }

    /// Returns the number of keys.
    #[inline(always)]
    pub fn len(&self) -> usize
        ensures { IsCount (at self.now) result }
    {
        self.len
    }

    /// Returns the link of a key.
    #[inline(always)]
    pub fn get(&self, key: u64) -> Option<u32>
        ensures { result ≡ at self.now key }
    {
        let link = self.near.get(key);
        if link.is_some() || self.far.is_empty() {
            return link;
        }
        self.far.get(&key).copied()
    }

    /// Returns the link of a key, and the number of keys of its page that have a link: so it reads everything that removing the key reads.
    #[inline(always)]
    pub(crate) fn read(&self, key: u64) -> (Option<u32>, usize) {
        let (link, live) = self.near.read(key);
        if link.is_some() || self.far.is_empty() {
            return (link, live);
        }
        (self.far.get(&key).copied(), live)
    }

    /// Returns whether the page of a key exists: then inserting a link for the key allocates no memory.
    #[inline(always)]
    pub fn has_room(&self, key: u64) -> bool
        ensures { result ≡ is_some (place_at self.now.near.directory (key / 128)) }
    {
        self.near.has_page(key)
    }

    /// Replaces the link of a key.
    #[inline(always)]
    pub fn set(&mut self, key: u64, link: u32)
        requires link { link < 4294967295 }
        requires known { IsSome (at self.old key) }
        ensures { Updates self.old self.new key (Some link) }
    {
        if self.far.is_empty() || self.near.get(key).is_some() {
            self.near.set(key, link);
        } else {
            *self.far.get_mut(&key).unwrap() = link;
        }
    }

    /// Inserts a link for a new key. If an allocation fails, or if there are 2^64 - 1 keys, no link changes.
    #[inline(always)]
    pub fn insert(&mut self, key: u64, link: u32) -> Result<(), AllocError>
    where
        A: Copy,
        requires link { link < 4294967295 }
        requires new_key { at self.old key ≡ None }
        ensures ok { OnOk result (Updates self.old self.new key (Some link)) }
        ensures err { OnErr result (IsSame self.old self.new) }
    {
        if self.len == usize::MAX {
            return Err(AllocError);
        }
        let cost = self.near.cost(key, self.len);
        let credit = self.credit.after(key / KEYS, cost, self.len);
        if self.credit.pays(cost) {
            self.near.insert(key, link)?;
            self.credit = credit;
            self.len += 1;
            return Ok(());
        }
        match self.far.insert(key, link) {
            Ok(_) => {
                self.credit = credit;
                self.len += 1;
                Ok(())
            }
            Err(_) => Err(AllocError),
        }
    }

    /// Removes the link of a key.
    #[inline(always)]
    pub fn remove(&mut self, key: u64) -> u32
        requires { IsSome (at self.old key) }
        ensures link { at self.old key ≡ Some result }
        ensures updates { Updates self.old self.new key None }
    {
        match self.near.remove(key) {
            Some(link) => {
                self.len -= 1;
                link
            }
            None => {
                let link = self.far.remove(&key).unwrap();
                self.len -= 1;
                link
            }
        }
    }
}
