//! Keeps the bytes of a day file that a fingerprint needs, as they are read.
ghost use Rattle.std.specs.Prelude.{◌≡◌, ◌≤◌, ◌+◌, ◌++◌, ℕ, List, [], drop, length, take, IfOk, IfSome, OnOk};
ghost use Rattle.itch_checkpoints.specs.Fingerprints.{HavePassed, fingerprint as fingerprint_of};

use crate::fingerprint::{Fingerprint, MOST_FIRST, MOST_LAST};
use std::alloc::{AllocError, Allocator};
use std::mem;

/// The number of bytes of each half of the recent bytes. A position is behind the last byte read by at most the size of a file's buffer and
/// two blocks.
const HALF: usize = 1 << 18;

/// The first bytes and some recent bytes of a day file, as it is read.
#[derive(Drop)]
pub struct Passed<A: Allocator> {
    first: Vec<u8, A>,
    older: Vec<u8, A>,
    newer: Vec<u8, A>,
    // The number of bytes that were read. It remains at its maximum, 2^64 - 1.
    count: u64,
}

impl<A: Allocator + Copy> Passed<A> {
    /// Creates a value that holds no bytes. It allocates all of its memory here, for pieces no longer than a half.
    pub fn new(alloc: A) -> Result<Self, AllocError>
        ensures { IfOk result (λ p. HavePassed p.first.items p.older.items p.newer.items p.count []) }
    {
        Ok(Passed {
            first: Vec::with_capacity(alloc, MOST_FIRST)?,
            older: Vec::with_capacity(alloc, HALF)?,
            newer: Vec::with_capacity(alloc, HALF)?,
            count: 0,
        })
    }
}

impl<A: Allocator> Passed<A> {
    /// Records the next piece of the file.
    pub fn pass(&mut self, piece: &[u8]) -> Result<(), AllocError>
        ensures { OnOk result ((bytes : List ℕ) → HavePassed self.old.first.items self.old.older.items self.old.newer.items self.old.count bytes
            → HavePassed self.new.first.items self.new.older.items self.new.newer.items self.new.count (bytes ++ piece.now)) }
    {
        keep_first(&mut self.first, piece)?;
        keep_recent(&mut self.older, &mut self.newer, piece)?;
        self.count = self.count.saturating_add(piece.len() as u64);
        Ok(())
    }

    /// Returns the fingerprint of the bytes before a position, if the position was passed and is not too far behind.
    pub fn fingerprint(&self, place: u64) -> Option<Fingerprint>
        ensures { IfSome result (λ found. (bytes : List ℕ) → HavePassed self.now.first.items self.now.older.items self.now.newer.items self.now.count bytes
            → found ≡ fingerprint_of place bytes) }
    {
        if self.count == u64::MAX {
            return None;
        }
        let behind = self.count.checked_sub(place)? as usize;
        let place = place as usize;
        let kept = place.min(MOST_FIRST);
        if self.first.len() < kept {
            return None;
        }
        let recent = self.older.len().checked_add(self.newer.len())?;
        let end = recent.checked_sub(behind)?;
        let begin = end.checked_sub(place.min(MOST_LAST))?;
        let (last, rest) = part(&self.older, &self.newer, begin, end);
        Some(Fingerprint::of(&self.first[..kept], last, rest))
    }
}

// Keeps the part of a piece that belongs to the first bytes.
fn keep_first<A: Allocator>(first: &mut Vec<u8, A>, piece: &[u8]) -> Result<(), AllocError>
    ensures { OnOk result ((bytes : List ℕ) → first.old.items ≡ take 65536 bytes → first.new.items ≡ take 65536 (bytes ++ piece.now)) }
{
    let room = MOST_FIRST.saturating_sub(first.len());
    first.extend_from_slice(&piece[..room.min(piece.len())])?;
    Ok(())
}

// Keeps a piece behind the recent bytes, and drops the older ones if there is no room.
fn keep_recent<A: Allocator>(
    older: &mut Vec<u8, A>,
    newer: &mut Vec<u8, A>,
    piece: &[u8],
) -> Result<(), AllocError>
    ensures { OnOk result ((before : List ℕ) × (older.old.items ++ newer.old.items) ++ piece.now ≡ before ++ (older.new.items ++ newer.new.items)) }
{
    if piece.len() > HALF.saturating_sub(newer.len()) {
        mem::swap(older, newer);
        newer.clear();
        newer.extend_from_slice(piece)?;
        return Ok(());
    }
    newer.extend_from_slice(piece)?;
    Ok(())
}

// Returns the part of two lists, one after the other, from one position to another.
fn part<'a>(older: &'a [u8], newer: &'a [u8], begin: usize, end: usize) -> (&'a [u8], &'a [u8])
    requires order { begin ≤ end }
    requires within { end ≤ length older.now + length newer.now }
    ensures { result.0.now ++ result.1.now ≡ drop begin (take end (older.now ++ newer.now)) }
{
    let whole = older.len();
    (
        &older[begin.min(whole)..end.min(whole)],
        &newer[begin.saturating_sub(whole)..end.saturating_sub(whole)],
    )
}
