//! Links by key, in pages of neighbouring keys. A look-up reads one entry of the directory and one link.
ghost use Rattle.std.specs.Prelude.{◌≡◌, ℕ, ◌+◌, ◌*◌, max, ◌/◌, ◌%◌, ◌<◌, ◌≤◌, ◌^◌, ◌++◌, ◌-◌, [], ◌∷◌, Some, None, Option, OnOk, OnErr, IfOk, IsSome, false, is_some, is_ok, count_by, length, eqb, cond, replicate, slice_index_or, slice_set, if◌then◌else◌};
ghost use Rattle.std.specs.Map.{update};
ghost use Rattle.itch_book.specs.Credit.{is_nothing, OnBytes};
ghost use Rattle.itch_book.specs.Pages.{place_at, link_at, one_if, IsOpened};

use super::credit::Cost;
use crate::link::Link;
use std::alloc::{AllocError, Allocator, Global};
use std::marker::Model;

/// The number of keys of a page.
pub(crate) const KEYS: u64 = 128;

// The number of bytes of a page and of its row of the directory.
const PAGE: u64 = 528;

const ROW: u64 = 4;

const _: () = prove!(size_of::<Page>() == 528);

// The directory may grow to this many rows, and by `ROWS_FOR_KEY` more for each key.
const ROWS: u64 = 1 << 18;

const ROWS_FOR_KEY: u64 = 16;

// The links of neighbouring keys.
#[derive(Drop)]
struct Page {
    // The number of keys that have a link.
    live: usize,
    // The number of the page, or if no key has a link, the next page without links.
    number: usize,
    links: [Link; KEYS as usize],
}

/// Links by key, for nearly dense keys.
#[derive(Drop)]
pub(crate) struct Pages<A: Allocator = Global> {
    // The place of the page with each number.
    directory: Vec<Link, A>,
    pages: Vec<Page, A>,
    // The first page without links, if there is one: it is reused before a new page is added.
    free: usize,
}

impl<A: Allocator> Model for Pages<A> {
    ghost use Rattle.itch_book.specs.Pages.{Paged, IsPaged};

    ghost Value = { Paged };

    ghost view = { λ t. record { directory = t.directory.items; pages = t.pages.items } };

    ghost invariant = { λ t. IsPaged t.directory.items t.pages.items };
}

impl<A: Allocator> Pages<A> {
    /// Creates an empty collection.
    pub(crate) fn new(alloc: A) -> Self
    where
        A: Copy,
        ensures { (k : ℕ) → link_at result k ≡ None }
    {
        Pages {
            directory: Vec::new(alloc),
            pages: Vec::new(alloc),
            free: usize::MAX,
        }
    }

    /// Returns whether the page of a key exists.
    #[inline(always)]
    pub(crate) fn has_page(&self, key: u64) -> bool
        ensures { result ≡ is_some (place_at self.now.directory (key / 128)) }
    {
        place_at(&self.directory, (key / KEYS) as usize).is_some()
    }

    /// Returns the cost of a page for a key, if `keys` keys have a link.
    #[inline(always)]
    pub(crate) fn cost(&self, key: u64, keys: usize) -> Cost
        ensures nothing { is_nothing result ≡ is_some (place_at self.now.directory (key / 128)) }
        ensures reach { OnBytes result (key / 128 < max (length self.now.directory) (262144 + 16 * keys)) }
    {
        if self.has_page(key) {
            Cost::Nothing
        } else {
            self.cost_of_new(key / KEYS, keys)
        }
    }

    // Returns the cost of a page with this number that does not exist. Few keys need a new page, so this is kept out of line.
    #[cold]
    #[inline(never)]
    fn cost_of_new(&self, number: u64, keys: usize) -> Cost
        requires { number < 2 ^ 57 }
        ensures nothing { is_nothing result ≡ false }
        ensures reach { OnBytes result (number < max (length self.now.directory) (262144 + 16 * keys)) }
    {
        let page = if self.free < self.pages.len() {
            0
        } else {
            PAGE
        };
        let rows = self.directory.len() as u64;
        if number < rows {
            return Cost::Bytes(page);
        }
        if number >= ROWS.saturating_add((keys as u64).saturating_mul(ROWS_FOR_KEY)) {
            return Cost::Beyond;
        }
        Cost::Bytes(page + (number + 1 - rows) * ROW)
    }

    /// Returns the link of a key.
    #[inline(always)]
    pub(crate) fn get(&self, key: u64) -> Option<u32>
        ensures { result ≡ link_at self.now key }
    {
        match place_at(&self.directory, (key / KEYS) as usize) {
            Some(place) => link_of(&self.pages[place as usize], (key % KEYS) as usize),
            None => None,
        }
    }

    /// Returns the link of a key, and the number of keys of its page that have a link.
    #[inline(always)]
    pub(crate) fn read(&self, key: u64) -> (Option<u32>, usize) {
        match place_at(&self.directory, (key / KEYS) as usize) {
            Some(place) => {
                let page = &self.pages[place as usize];
                (link_of(page, (key % KEYS) as usize), page.live)
            }
            None => (None, 0),
        }
    }

    /// Replaces the link of a key.
    #[inline(always)]
    pub(crate) fn set(&mut self, key: u64, link: u32)
        requires link { link < 4294967295 }
        requires known { IsSome (link_at self.old key) }
        ensures { (q : ℕ) → link_at self.new q ≡ update eqb (link_at self.old) key (Some link) q }
    {
        let place = place_at(&self.directory, (key / KEYS) as usize).unwrap();
        let page = &mut self.pages[place as usize];
        page.links[(key % KEYS) as usize] = Link::to(link);
    }

    /// Inserts a link for a key. If an allocation fails, or if there are 2^32 - 1 pages, no link changes.
    #[inline(always)]
    pub(crate) fn insert(&mut self, key: u64, link: u32) -> Result<(), AllocError>
        requires { link < 4294967295 }
        ensures ok { OnOk result ((q : ℕ) → link_at self.new q ≡ update eqb (link_at self.old) key (Some link) q) }
        ensures err { OnErr result ((q : ℕ) → link_at self.new q ≡ link_at self.old q) }
    {
        let number = (key / KEYS) as usize;
        let offset = (key % KEYS) as usize;
        if let Some(place) = place_at(&self.directory, number) {
            let page = &mut self.pages[place as usize];
            write(page, offset, Link::to(link));
            return Ok(());
        }
        reach(&mut self.directory, number)?;
        let page = page_of(number, offset, link);
        let place = open(&mut self.pages, &mut self.free, page)?;
        self.directory[number] = Link::to(place);
        Ok(())
    }

    /// Removes the link of a key. A page without links is reused.
    #[inline(always)]
    pub(crate) fn remove(&mut self, key: u64) -> Option<u32>
        ensures link { result ≡ link_at self.old key }
        ensures updates { (q : ℕ) → link_at self.new q ≡ update eqb (link_at self.old) key None q }
    {
        let number = (key / KEYS) as usize;
        let Some(place) = place_at(&self.directory, number) else {
            return None;
        };
        let page = &mut self.pages[place as usize];
        let (was, live) = write(page, (key % KEYS) as usize, Link::none());
        if live == 0 {
            page.number = self.free;
            self.free = place as usize;
            self.directory[number] = Link::none();
        }
        was
    }
}

// Returns the place of the page with a number.
#[inline(always)]
fn place_at(directory: &[Link], number: usize) -> Option<u32>
    ensures { result ≡ place_at directory.now number }
{
    match directory.get(number) {
        Some(link) => link.place(),
        None => None,
    }
}

// Extends the directory to a number. If the allocation fails, it does not change.
fn reach<A: Allocator>(directory: &mut Vec<Link, A>, number: usize) -> Result<(), AllocError>
    requires { number < 2 ^ 59 }
    ensures places { (n : ℕ) → place_at directory.new.items n ≡ place_at directory.old.items n }
    ensures ok { OnOk result (number < length directory.new.items) }
{
    if number < directory.len() {
        return Ok(());
    }
    directory.resize(number + 1, Link::none())
}

// Returns a link of a page.
#[inline(always)]
fn link_of(page: &Page, offset: usize) -> Option<u32>
    requires { offset < length page.now.links }
    ensures { result ≡ slice_index_or page.now.links offset None }
{
    page.links[offset].place()
}

// Returns links that are all equal.
fn all_of(link: Link) -> [Link; KEYS as usize]
    ensures { result ≡ replicate 128 link }
{
    [link; KEYS as usize]
}

// Returns a page with one link.
fn page_of(number: usize, offset: usize, link: u32) -> Page
    requires offset { offset < 128 }
    requires link { link < 4294967295 }
    ensures number { result.number ≡ number }
    ensures links { result.links ≡ slice_set (replicate 128 None) offset (Some link) }
    ensures live { result.live ≡ 1 }
{
    let mut links = all_of(Link::none());
    links[offset] = Link::to(link);
    Page {
        live: 1,
        number,
        links,
    }
}

// Writes a link of a page, and returns the old link and the number of keys that now have one.
#[inline(always)]
fn write(page: &mut Page, offset: usize, link: Link) -> (Option<u32>, usize)
    requires offset { offset < length page.old.links }
    requires live { page.old.live ≡ count_by is_some page.old.links }
    ensures was { result.0 ≡ slice_index_or page.old.links offset None }
    ensures page { page.new ≡ record { live = result.1; number = page.old.number; links = slice_set page.old.links offset link } }
    ensures live { result.1 + one_if result.0 ≡ page.old.live + one_if link }
{
    let was = page.links[offset].place();
    if was.is_some() {
        page.live -= 1;
    }
    if link.place().is_some() {
        page.live += 1;
    }
    page.links[offset] = link;
    (was, page.live)
}

// Stores a page in place of one without links, or last, and returns its place.
fn open<A: Allocator>(
    pages: &mut Vec<Page, A>,
    free: &mut usize,
    page: Page,
) -> Result<u32, AllocError>
    requires { length pages.old.items < 2 ^ 32 }
    ensures place { IfOk result (λ p. p < 4294967295) }
    ensures ok { IfOk result (λ p. IsOpened pages.old.items p page pages.new.items) }
    ensures err { OnErr result (pages.new.items ≡ pages.old.items) }
{
    let place = *free;
    if place < pages.len() && place < u32::MAX as usize && pages[place].live == 0 {
        *free = pages[place].number;
        pages[place] = page;
        return Ok(place as u32);
    }
    let last = pages.len();
    if last >= u32::MAX as usize {
        return Err(AllocError);
    }
    pages.push(page)?;
    Ok(last as u32)
}
