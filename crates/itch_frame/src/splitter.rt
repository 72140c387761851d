//! Cuts a stream that arrives in pieces into blocks.
ghost use Rattle.std.specs.Prelude.{◌≡◌, ℕ, ◌+◌, ◌-◌, ◌<◌, ◌≤◌, min, List, [], ◌++◌, length, take, slice_index, vec_capacity, IfOk, IfSome, IfNone};
ghost use Rattle.itch_frame.specs.Blocks.{IsBlock, IsBlockOf};
ghost use Rattle.itch_frame.specs.Cuts.{IsTake};
ghost use Rattle.itch_frame.specs.Needs.{need};

use byteorder::{BigEndian, ByteOrder};
use std::alloc::{AllocError, Allocator, Global};
use std::marker::Model;

/// The length of the longest block: two length bytes and 65,535 bytes of payload.
pub(crate) const LONGEST: usize = 65_537;

/// Cuts a stream that arrives in pieces into blocks.
#[derive(Drop)]
pub struct Splitter<A: Allocator = Global> {
    held: Vec<u8, A>,
}

impl<A: Allocator> Model for Splitter<A> {
    ghost Value = { List ℕ };

    ghost view = { λ s. s.held.items };

    ghost invariant = { λ s. (65537 ≤ vec_capacity s.held) × (length s.held.items ≤ need s.held.items) × (length s.held.items ≤ 65537) };
}

impl<A: Allocator> Splitter<A> {
    /// Creates a splitter that holds nothing. It allocates all of its memory here, exactly 65,537 bytes.
    pub fn new(alloc: A) -> Result<Splitter<A>, AllocError>
        ensures { IfOk result (λ s. s ≡ []) }
    {
        Ok(Splitter { held: room(alloc)? })
    }

    /// Takes bytes from the front of `piece`, up to the end of the current block, and returns their number. While a block is ready, it
    /// returns 0.
    pub fn take(&mut self, piece: &[u8]) -> usize
        ensures { IsTake self.old piece.now result self.new }
    {
        let first = fill(&mut self.held, piece);
        first + fill(&mut self.held, &piece[first..])
    }

    /// Returns the payload if the block is complete. A block of length 0 has an empty payload.
    pub fn ready(&self) -> Option<&[u8]>
        ensures some { IfSome result (λ payload. IsBlockOf payload.now self.now) }
        ensures none { IfNone result (¬ IsBlock self.now) }
    {
        let held = self.held.as_slice();
        if held.len() >= 2 && lacking(held) == 0 {
            Some(&held[2..])
        } else {
            None
        }
    }

    /// Drops all bytes that the splitter holds.
    pub fn clear(&mut self)
        ensures { self.new ≡ [] }
    {
        self.held.clear();
    }

    /// Returns the number of bytes that the splitter holds, including the length bytes.
    pub fn held(&self) -> usize
        ensures count { result ≡ length self.now }
        ensures bound { result ≤ 65537 }
    {
        self.held.len()
    }
}

// Allocates room for exactly the longest block.
fn room<A: Allocator>(alloc: A) -> Result<Vec<u8, A>, AllocError>
    ensures { IfOk result (λ held. (held.items ≡ []) × (vec_capacity held ≡ 65537)) }
{
    Vec::with_capacity(alloc, LONGEST)
}

/// Returns how many more bytes the current block needs, according to the bytes so far: the two length bytes come first.
pub(crate) fn lacking(held: &[u8]) -> usize
    ensures count { result ≡ need held.now - length held.now }
    ensures bound { need held.now ≤ 65537 }
    ensures bytes { (k : ℕ) → slice_index held.now k < 256 }
{
    let len = held.len();
    if len < 2 {
        2 - len
    } else {
        needed(held).saturating_sub(len)
    }
}

/// Returns the length of the current block, once its length bytes are complete.
#[inline(always)]
pub(crate) fn needed(held: &[u8]) -> usize
    requires { 2 ≤ length held.now }
    ensures count { result ≡ need held.now }
    ensures bound { result ≤ 65537 }
    ensures bytes { (k : ℕ) → slice_index held.now k < 256 }
{
    2 + usize::from(BigEndian::read_u16(held))
}

/// Moves bytes of the piece that the current block needs, and returns their number.
fn fill<A: Allocator>(held: &mut Vec<u8, A>, piece: &[u8]) -> usize
    requires room { 65537 ≤ vec_capacity held.old }
    requires begun { length held.old.items ≤ need held.old.items }
    ensures count { result ≡ min (need held.old.items - length held.old.items) (length piece.now) }
    ensures items { held.new.items ≡ held.old.items ++ take result piece.now }
    ensures room { 65537 ≤ vec_capacity held.new }
    ensures bound { length held.new.items ≤ 65537 }
    ensures bytes { (k : ℕ) → slice_index held.old.items k < 256 }
{
    let count = lacking(held.as_slice()).min(piece.len());
    held.extend_from_slice(&piece[..count]).unwrap();
    count
}
