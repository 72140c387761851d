//! Reads blocks from a reader.
ghost use Rattle.std.specs.Prelude.{◌≡◌, ℕ, ◌+◌, ◌-◌, ◌<◌, ◌≤◌, List, [], ◌++◌, length, take, drop, vec_len, IfOk, IfSome, true, false};
ghost use Rattle.std.specs.Io.KnownBytes.{prepend_known, Keeps, Consumes, IsAtEnd};
ghost use Rattle.itch_frame.specs.Blocks.{IsBlockOf};
ghost use Rattle.itch_frame.specs.Counting.{CountsErr};
ghost use Rattle.itch_frame.specs.Needs.{need};

use crate::consumer::Consumer;
use crate::counted::CountedRead;
use crate::fault::FrameFault;
use crate::splitter::{LONGEST, lacking};
use std::alloc::{AllocError, Allocator, Global};
use std::io;
use std::marker::Model;

// The stage of a reader of blocks.
#[derive(Clone, Copy)]
pub(crate) enum BlockStage {
    // The next block has not been read, or only a part of it.
    Going,
    // A block was returned. The next call drops it.
    Given,
    // The input ended before the first byte of a block.
    Ended,
    // The input ended inside a block.
    Cut,
}

/// Reads blocks one by one. It never requests more bytes from its reader than the current block still needs.
#[derive(Drop)]
pub struct BlockReader<R: CountedRead, A: Allocator = Global> {
    reader: R,
    // Has the length of the longest block. The first `len` bytes belong to the current block.
    buffer: Vec<u8, A>,
    len: usize,
    stage: BlockStage,
}

impl<R: CountedRead, A: Allocator> Model for BlockReader<R, A> {
    ghost use Rattle.std.specs.Prelude.{◌≡◌, ◌<◌, ◌≤◌, length, take, vec_len, []};
    ghost use Rattle.std.specs.Io.KnownBytes.{IsAtEnd};
    ghost use Rattle.itch_frame.specs.Needs.{need};
    ghost use Rattle.itch_frame.specs.Reading.{Reading, held_of};
    ghost use Rattle.itch_frame.specs.declared.reader.BlockStage.TheVariants.{Ended, Cut};

    ghost Value = { Reading R };

    ghost view = { λ r. record { reader = r.reader; held = held_of r.stage (take r.len r.buffer.items); stage = r.stage } };

    ghost invariant = { λ r. (vec_len r.buffer ≡ 65537) × (r.len ≤ 65537) × (r.len ≤ need (take r.len r.buffer.items))
        × (r.stage ≡ Ended → (r.len ≡ 0) × IsAtEnd (R.remaining r.reader))
        × (r.stage ≡ Cut → (0 < r.len) × (r.len < need (take r.len r.buffer.items)) × IsAtEnd (R.remaining r.reader)) };
}

impl<R: CountedRead, A: Allocator> BlockReader<R, A> {
    ghost use types.Logic.{sem};
    ghost use Rattle.std.specs.Prelude.{◌≡◌, [], IfOk};
    ghost use Rattle.std.specs.Io.BufRead.{Rests};
    ghost use Rattle.itch_frame.specs.Reading.{NextBlock, NextAtHand, NextMessage, StaysEnded};
    ghost use Rattle.itch_frame.specs.contracts.reader.BlockReader.{the_row as reader_row};

    /// Creates a reader of blocks, from the first byte of `reader` on. It allocates all of its memory here, 65,537 bytes.
    pub fn new(alloc: A, reader: R) -> Result<BlockReader<R, A>, AllocError>
    where
        R: Drop,
        ensures { IfOk result (λ r. (r.reader ≡ reader) × (r.held ≡ []) × (r.stage ≡ BlockStage.Going)) }
    {
        Ok(BlockReader {
            reader,
            buffer: zeros(alloc, LONGEST)?,
            len: 0,
            stage: BlockStage::Going,
        })
    }

    /// Returns the payload of the next block, or `None` at the end of input. The block returned before is dropped.
    ///
    /// After `Read`, the bytes read so far are kept, and the call may be repeated. After `None` or `Truncated`, each call returns the same
    /// result, and nothing more is read.
    #[inline(always)]
    pub fn next_block(&mut self) -> Result<Option<&[u8]>, FrameFault>
        ensures* next { sem 𝓛 (Rests (reader_row R.row A.row R.CountedRead A.Allocator) self.entry (λ new.
            NextBlock R.remaining R.failures self.old result new × StaysEnded self.old result new)) }
    {
        if !self.load()? {
            return Ok(None);
        }
        self.stage = BlockStage::Given;
        Ok(Some(&self.buffer[2..self.len]))
    }

    /// Returns the payload of the next block, if the complete block is already in memory and no part of it was read before. Then the block
    /// returned before is dropped; `None` changes nothing.
    ///
    /// This reads nothing, so it has no faults. In a hot loop, call this first and fall back to [`BlockReader::next_block`].
    #[inline(always)]
    pub fn next_at_hand(&mut self) -> Option<&[u8]>
        ensures* next { sem 𝓛 (Rests (reader_row R.row A.row R.CountedRead A.Allocator) self.entry (λ new.
            NextAtHand R.remaining R.failures self.old result new)) }
    {
        if !self.load_at_hand() {
            return None;
        }
        self.stage = BlockStage::Given;
        Some(&self.buffer[2..self.len])
    }

    /// Returns the payload of the next message, or `None` where the messages end: at the end of input, or at an empty block, which is read
    /// too. The message returned before is dropped.
    ///
    /// The faults, and the state after them, are those of [`BlockReader::next_block`]. After the end of input each call returns `None`; after
    /// an empty block the next call reads on.
    #[inline(always)]
    pub fn next_message(&mut self) -> Result<Option<&[u8]>, FrameFault>
        ensures* next { sem 𝓛 (Rests (reader_row R.row A.row R.CountedRead A.Allocator) self.entry (λ new.
            NextMessage R.remaining R.failures self.old result new × StaysEnded self.old result new)) }
    {
        match self.next_block()? {
            Some(payload) if !payload.is_empty() => Ok(Some(payload)),
            _ => Ok(None),
        }
    }
}

impl<R: CountedRead, A: Allocator> BlockReader<R, A> {
    ghost use Rattle.std.specs.Prelude.{[]};
    ghost use Rattle.itch_frame.specs.Blocks.{IsBlock, IsBlockOf};
    ghost use Rattle.itch_frame.specs.Offers.{Offers};
    ghost use Rattle.itch_frame.specs.Reading.{Loads, LoadsAtHand, StaysAsEnded, bytes_left, passed};

    /// Reads until the next block is complete and returns true, or returns false if the input ends before its first byte. The block remains
    /// the next one until [`BlockReader::pass`]; [`BlockReader::payload`] returns its payload.
    ///
    /// The faults, and the state after them, are those of [`BlockReader::next_block`].
    #[inline(always)]
    pub fn load(&mut self) -> Result<bool, FrameFault>
        ensures loads { Loads R.remaining R.failures self.old result self.new }
        ensures again { StaysAsEnded self.old self.new }
    {
        match self.stage {
            BlockStage::Ended => return Ok(false),
            BlockStage::Cut => return Err(FrameFault::Truncated { held: self.len }),
            BlockStage::Given => self.len = 0,
            BlockStage::Going => {}
        }
        self.stage = BlockStage::Going;
        match fill_block(&mut self.reader, &mut self.buffer, &mut self.len) {
            Err(error) => Err(FrameFault::Read(error)),
            Ok(true) => Ok(true),
            Ok(false) => {
                if self.len == 0 {
                    self.stage = BlockStage::Ended;
                    return Ok(false);
                }
                self.stage = BlockStage::Cut;
                Err(FrameFault::Truncated { held: self.len })
            }
        }
    }

    /// Does the same and returns true, if the complete next block is already in memory and no part of it was read before. Otherwise it
    /// changes nothing.
    #[inline(always)]
    pub fn load_at_hand(&mut self) -> bool
        ensures { LoadsAtHand R.remaining R.failures self.old result self.new }
    {
        match self.stage {
            BlockStage::Ended | BlockStage::Cut => return false,
            BlockStage::Given => self.len = 0,
            BlockStage::Going => {}
        }
        if !take_block(&mut self.reader, &mut self.buffer, &mut self.len) {
            return false;
        }
        self.stage = BlockStage::Going;
        true
    }

    /// Returns the payload of the loaded block.
    #[inline(always)]
    pub fn payload(&self) -> &[u8]
        requires { IsBlock self.now.held }
        ensures { IsBlockOf result.now self.now.held }
    {
        &self.buffer[2..self.len]
    }

    /// Passes the loaded block: the block after it becomes the next one.
    #[inline(always)]
    pub fn pass(&mut self)
        requires { IsBlock self.old.held }
        ensures { self.new ≡ record { reader = self.old.reader; held = []; stage = BlockStage.Given } }
    {
        self.stage = BlockStage::Given;
    }

    /// Passes the loaded block if there is one; otherwise it changes nothing.
    pub fn pass_held(&mut self)
        requires { self.old.stage ≡ BlockStage.Going → IsBlock self.old.held }
        ensures { self.new ≡ passed self.old }
    {
        if let BlockStage::Going = self.stage {
            self.stage = BlockStage::Given;
        }
    }

    /// Offers the bytes in memory to a consumer, if the next block begins with them, moves past those that the consumer uses, and returns
    /// their number. A consumer uses complete blocks.
    ///
    /// This reads nothing, so it has no faults. It offers nothing before the first block, after a block that has not been passed, and after
    /// the end of the input.
    #[inline(always)]
    pub fn offer<C: Consumer>(&mut self, consumer: &mut C) -> usize
        requires { C.is_ready consumer.old }
        ensures offers { Offers (bytes_left R.remaining) C.uses self.old result self.new consumer.old consumer.new }
        ensures between { 0 < result → (self.old.stage ≡ BlockStage.Given) × (self.new.stage ≡ BlockStage.Given) × (self.new.held ≡ []) }
        ensures count { R.failures self.new.reader ≡ R.failures self.old.reader }
    {
        match self.stage {
            BlockStage::Given => self.reader.offer(consumer),
            BlockStage::Going | BlockStage::Ended | BlockStage::Cut => 0,
        }
    }

    /// Returns the bytes that the reader holds in memory: those after the block in memory.
    #[inline(always)]
    pub fn at_hand(&self) -> &[u8]
        ensures { IfSome (R.remaining self.now.reader) (λ rest. take (length result.now) rest ≡ result.now) }
    {
        self.reader.at_hand()
    }
}

/// Returns `len` bytes, all zero.
fn zeros<A: Allocator>(alloc: A, len: usize) -> Result<Vec<u8, A>, AllocError>
    ensures { IfOk result (λ bytes. vec_len bytes ≡ len) }
{
    vec![in alloc; 0; len]
}

/// Completes the current block, the first `len` bytes of `buffer`, and returns true, or returns false if the input ends first.
#[inline(always)]
fn fill_block<R: CountedRead>(
    reader: &mut R,
    buffer: &mut [u8],
    len: &mut usize,
) -> io::Result<bool>
    requires room { length buffer.old ≡ 65537 }
    requires begun { len.old ≤ need (take len.old buffer.old) }
    requires within { len.old ≤ 65537 }
    ensures begun { len.new ≤ need (take len.new buffer.new) }
    ensures within { len.new ≤ 65537 }
    ensures kept { Keeps (prepend_known (take len.old buffer.old) (R.remaining reader.old)) (prepend_known (take len.new buffer.new) (R.remaining reader.new)) }
    ensures front { (more : List ℕ) × (take len.new buffer.new ≡ take len.old buffer.old ++ more) }
    ensures whole { result ≡ Ok true → IsBlockOf (take (len.new - 2) (drop 2 buffer.new)) (take len.new buffer.new) }
    ensures ended { result ≡ Ok false → (len.new < need (take len.new buffer.new)) × IsAtEnd (R.remaining reader.new) }
    ensures count { CountsErr result (R.failures reader.old) (R.failures reader.new) }
{
    if take_block(reader, buffer, len) {
        return Ok(true);
    }
    read_block(reader, buffer, len)
}

/// Takes the current block at once, if no part of it was read before and the complete block is already in memory.
#[inline(always)]
fn take_block<R: CountedRead>(reader: &mut R, buffer: &mut [u8], len: &mut usize) -> bool
    ensures room { length buffer.new ≡ length buffer.old }
    ensures begun { result ≡ true → len.old ≡ 0 }
    ensures within { result ≡ true → len.new ≤ length buffer.new }
    ensures whole { result ≡ true → IsBlockOf (take (len.new - 2) (drop 2 buffer.new)) (take len.new buffer.new) }
    ensures needed { result ≡ true → len.new ≤ need (take len.new buffer.new) }
    ensures bytes { result ≡ true → Consumes (R.remaining reader.old) (R.remaining reader.new) (take len.new buffer.new) }
    ensures none { result ≡ false → (reader.new ≡ reader.old) × (buffer.new ≡ buffer.old) × (len.new ≡ len.old) }
    ensures count { R.failures reader.new ≡ R.failures reader.old }
{
    if *len > 0 {
        return false;
    }
    match reader.take_block(buffer) {
        Some(size) => {
            *len = size;
            true
        }
        None => false,
    }
}

/// Reads until the current block is complete (true) or the input ends (false).
#[inline(never)]
fn read_block<R: CountedRead>(
    reader: &mut R,
    buffer: &mut [u8],
    len: &mut usize,
) -> io::Result<bool>
    requires room { length buffer.old ≡ 65537 }
    requires begun { len.old ≤ need (take len.old buffer.old) }
    requires within { len.old ≤ 65537 }
    ensures begun { len.new ≤ need (take len.new buffer.new) }
    ensures within { len.new ≤ 65537 }
    ensures kept { Keeps (prepend_known (take len.old buffer.old) (R.remaining reader.old)) (prepend_known (take len.new buffer.new) (R.remaining reader.new)) }
    ensures front { (more : List ℕ) × (take len.new buffer.new ≡ take len.old buffer.old ++ more) }
    ensures whole { result ≡ Ok true → IsBlockOf (take (len.new - 2) (drop 2 buffer.new)) (take len.new buffer.new) }
    ensures ended { result ≡ Ok false → (len.new < need (take len.new buffer.new)) × IsAtEnd (R.remaining reader.new) }
    ensures count { CountsErr result (R.failures reader.old) (R.failures reader.new) }
{
    loop {
        let lacks = lacking(&buffer[..*len]);
        if lacks == 0 {
            return Ok(true);
        }
        let count = reader.read_some(&mut buffer[*len..*len + lacks])?;
        if count == 0 {
            return Ok(false);
        }
        *len += count;
    }
}
