//! A reader and a writer in memory, each of which fails once, at a given call.
ghost use Rattle.std.specs.Prelude.{◌≡◌, ◌≢◌, ◌+◌, ◌-◌, ◌^◌, ◌≤◌, ◌⊎◌, min, [], length, Option, Some, MatchResult};
ghost use Rattle.std.specs.IoError.{error_kind};
ghost use Rattle.std.specs.declared.io.ErrorKind.TheVariants.{Other, OutOfMemory};
ghost use Rattle.std.specs.Io.{ReadsAtMost, WritesAtMost};
ghost use Rattle.std.specs.Io.KnownBytes.{ReadConsumes};
ghost use Rattle.itch_frame.specs.Counting.{CountsErr, Takes};

use itch_frame::tally::Failures;
use itch_frame::{CountedRead, CountedWrite};
use std::alloc::{Allocator, Global};
use std::io::{self, Read};

/// Returns at most `piece` bytes per read. Read number `fail_at`, counted from 1, fails and consumes nothing.
#[derive(Drop)]
pub struct PieceReader<'a> {
    bytes: &'a [u8],
    piece: usize,
    fail_at: Option<u64>,
    reads: u64,
    failures: Failures,
    ghost some: { 1 ≤ piece },
}

impl<'a> PieceReader<'a> {
    /// Creates a reader of these bytes. `piece` must be at least 1.
    pub fn new(bytes: &'a [u8], piece: usize, fail_at: Option<u64>) -> PieceReader<'a>
        requires { 1 ≤ piece }
        ensures bytes { result.bytes.now ≡ bytes.entry.now }
        ensures plan { (result.piece ≡ piece) × (result.fail_at ≡ fail_at) }
        ensures counts { (result.reads ≡ 0) × (result.failures.count ≡ 0) × (result.failures.last ≡ None) }
    {
        PieceReader {
            bytes,
            piece,
            fail_at,
            reads: 0,
            failures: Failures::none(),
        }
    }
}

impl CountedRead for PieceReader<'_> {
    ghost remaining = { λ r. Some r.bytes.now };

    ghost failures = { λ r. r.failures };

    fn read_some(&mut self, buf: &mut [u8]) -> io::Result<usize>
        ensures bound { ReadsAtMost result buf.new }
        ensures bytes { ReadConsumes (Some self.old.bytes.now) (Some self.new.bytes.now) result buf.new }
        ensures count { CountsErr result self.old.failures self.new.failures }
        // Only the given read fails. The others return as many bytes as the piece, the buffer and the rest allow.
        ensures answer { MatchResult result
            (λ count. (self.old.fail_at ≢ Some self.new.reads) × (count ≡ min (min self.old.piece (length buf.new)) (length self.old.bytes.now)))
            (λ error. (self.old.fail_at ≡ Some self.new.reads) × (error_kind error ≡ Other)) }
        ensures reads { self.new.reads ≡ min (self.old.reads + 1) (2 ^ 64 - 1) }
        ensures plan { (self.new.piece ≡ self.old.piece) × (self.new.fail_at ≡ self.old.fail_at) }
    {
        self.reads = self.reads.saturating_add(1);
        if self.fail_at == Some(self.reads) {
            return Err(self.failures.add(io::Error::from(io::ErrorKind::Other)));
        }
        let count = self.piece.min(buf.len()).min(self.bytes.len());
        let (given, rest) = self.bytes.split_at(count);
        buf[..count].copy_from_slice(given);
        self.bytes = rest;
        Ok(count)
    }
}

/// The same for code that expects a standard reader, such as a buffer.
impl Read for PieceReader<'_> {
    ghost remaining = { λ r. Some r.bytes.now };

    fn read(&mut self, buf: &mut [u8]) -> io::Result<usize>
        ensures bound { ReadsAtMost result buf.new }
        ensures bytes { ReadConsumes (Some self.old.bytes.now) (Some self.new.bytes.now) result buf.new }
        ensures answer { MatchResult result
            (λ count. (self.old.fail_at ≢ Some self.new.reads) × (count ≡ min (min self.old.piece (length buf.new)) (length self.old.bytes.now)))
            (λ error. (self.old.fail_at ≡ Some self.new.reads) × (error_kind error ≡ Other)) }
        ensures reads { self.new.reads ≡ min (self.old.reads + 1) (2 ^ 64 - 1) }
        ensures plan { (self.new.piece ≡ self.old.piece) × (self.new.fail_at ≡ self.old.fail_at) }
    {
        self.read_some(buf)
    }
}

/// Accepts at most `piece` bytes per write. Write number `fail_at`, counted from 1, fails and accepts nothing, and so does a write that runs
/// out of memory.
#[derive(Drop)]
pub struct FuseWriter<A: Allocator = Global> {
    written: Vec<u8, A>,
    piece: usize,
    fail_at: Option<u64>,
    writes: u64,
    failures: Failures,
    ghost some: { 1 ≤ piece },
}

impl<A: Allocator> FuseWriter<A> {
    /// Creates an empty writer. `piece` must be at least 1.
    pub fn new(alloc: A, piece: usize, fail_at: Option<u64>) -> FuseWriter<A>
        requires { 1 ≤ piece }
        ensures written { result.written.items ≡ [] }
        ensures plan { (result.piece ≡ piece) × (result.fail_at ≡ fail_at) }
        ensures counts { (result.writes ≡ 0) × (result.failures.count ≡ 0) × (result.failures.last ≡ None) }
    {
        FuseWriter {
            written: Vec::new(alloc),
            piece,
            fail_at,
            writes: 0,
            failures: Failures::none(),
        }
    }

    /// Returns the bytes written so far.
    pub fn written(&self) -> &[u8]
        ensures { result.now ≡ self.now.written.items }
    {
        self.written.as_slice()
    }
}

impl<A: Allocator> CountedWrite for FuseWriter<A> {
    ghost contents = { λ w. Some w.written.items };

    ghost failures = { λ w. w.failures };

    fn write_some(&mut self, buf: &[u8]) -> io::Result<usize>
        ensures bound { WritesAtMost result buf.now }
        ensures bytes { Takes (Some self.old.written.items) (Some self.new.written.items) result buf.now }
        ensures count { CountsErr result self.old.failures self.new.failures }
        // Only the given write fails, unless memory runs out. The others accept as many bytes as the piece and the buffer allow.
        ensures answer { MatchResult result
            (λ count. (self.old.fail_at ≢ Some self.new.writes) × (count ≡ min self.old.piece (length buf.now)))
            (λ error. (self.new.written.items ≡ self.old.written.items)
            × (((self.old.fail_at ≡ Some self.new.writes) × (error_kind error ≡ Other)) ⊎ ((self.old.fail_at ≢ Some self.new.writes) × (error_kind error ≡ OutOfMemory)))) }
        ensures writes { self.new.writes ≡ min (self.old.writes + 1) (2 ^ 64 - 1) }
        ensures plan { (self.new.piece ≡ self.old.piece) × (self.new.fail_at ≡ self.old.fail_at) }
    {
        self.writes = self.writes.saturating_add(1);
        if self.fail_at == Some(self.writes) {
            return Err(self.failures.add(io::Error::from(io::ErrorKind::Other)));
        }
        let count = self.piece.min(buf.len());
        match self.written.extend_from_slice(&buf[..count]) {
            Ok(()) => Ok(count),
            Err(_) => Err(self.failures.add(out_of_memory())),
        }
    }
}

fn out_of_memory() -> io::Error
    ensures { error_kind result ≡ OutOfMemory }
{
    io::Error::from(io::ErrorKind::OutOfMemory)
}
