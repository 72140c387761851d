//! Blocks that are in a buffer already.
use super::{STREAM, copies_through};
use crate::equal::{Host, TestResult, same};
use itch_frame::{BlockReader, Buffered, Consumer, Counted, CountedRead, split_first_block};
use std::alloc::Global;
use std::io::BufReader;
use std::test::Fail;
use test_doubles::PieceReader;

// Takes a block from the buffer, and checks that it is this one, or that there is none.
fn takes<R: CountedRead>(rt: &impl Host, reader: &mut R, room: usize, want: Option<&[u8]>) {
    let mut buf = [0; 8];
    let size = reader.take_block(&mut buf[..room.min(8)]);
    same(rt, size.is_some(), want.is_some());
    if let Some(block) = want {
        same(rt, size, Some(block.len()));
        assert!(rt; buf.starts_with(block));
    }
}

// A consumer that uses a given number of the offered bytes, and records how many were offered.
#[derive(Drop)]
struct Eater {
    wanted: usize,
    offered: usize,
}

impl Consumer for Eater {
    ghost is_ready = { λ _. Unit {0} };

    ghost uses = { λ _ _ _. Unit {0} };

    fn consume(&mut self, bytes: &[u8]) -> usize {
        self.offered = bytes.len();
        self.wanted.min(bytes.len())
    }
}

impl Eater {
    fn of(wanted: usize) -> Eater {
        Eater { wanted, offered: 0 }
    }
}

// Returns a reader that has read its first byte and holds all others in its buffer. Its second read would fail.
fn ahead(alloc: Global, bytes: &[u8]) -> Result<Buffered<PieceReader<'_>>, Fail> {
    let source = PieceReader::new(bytes, 16, Some(2));
    let mut reader = Buffered::new(BufReader::with_capacity(alloc, 16, source)?);
    reader.read_some(&mut [0])?;
    Ok(reader)
}

#[test]
fn a_block_is_taken_if_all_of_it_lies_at_hand(rt: HostRuntime) -> TestResult {
    for (bytes, want) in [
        (b"z".as_slice(), None),
        (b"z\x00", None),
        (b"z\x00\x02", None),
        (b"z\x00\x02a", None),
        (b"z\x00\x02ab", Some(b"\x00\x02ab".as_slice())),
        (b"z\x00\x02abc", Some(b"\x00\x02ab")),
        (b"z\x00\x00\x00", Some(b"\x00\x00")),
        (b"z\x01\x00abcdef", None),
    ] {
        takes(&rt, &mut ahead(rt.alloc(), bytes)?, 8, want);
    }
    Ok(())
}

#[test]
fn blocks_at_hand_are_taken_one_by_one(rt: HostRuntime) -> TestResult {
    let mut reader = ahead(rt.alloc(), b"z\x00\x01a\x00\x00\x00\x02bc\x00")?;
    takes(&rt, &mut reader, 2, None);
    for want in [
        Some(b"\x00\x01a".as_slice()),
        Some(b"\x00\x00"),
        Some(b"\x00\x02bc"),
        None,
    ] {
        takes(&rt, &mut reader, 8, want);
    }
    same(&rt, reader.failures().count(), 0);
    Ok(())
}

#[test]
fn what_lies_at_hand_is_offered(rt: HostRuntime) -> TestResult {
    let mut reader = ahead(rt.alloc(), b"z\x00\x01a\x00\x02bc")?;
    for (wanted, offered) in [(0, 7), (3, 7), (0, 4)] {
        let mut eater = Eater::of(wanted);
        same(&rt, reader.offer(&mut eater), wanted);
        same(&rt, eater.offered, offered);
    }
    takes(&rt, &mut reader, 8, Some(b"\x00\x02bc"));
    let mut unbuffered = Counted::new(STREAM);
    let mut eater = Eater::of(1);
    same(&rt, unbuffered.offer(&mut eater), 0);
    same(&rt, eater.offered, 0);
    Ok(())
}

#[test]
fn nothing_is_offered_but_between_blocks(rt: HostRuntime) -> TestResult {
    let source = BufReader::with_capacity(rt.alloc(), 64, PieceReader::new(STREAM, 64, None))?;
    let mut blocks = BlockReader::new(rt.alloc(), Buffered::new(source))?;
    let mut eater = Eater::of(3);
    same(&rt, blocks.offer(&mut eater), 0);
    assert!(rt; blocks.load()?);
    same(&rt, blocks.offer(&mut eater), 0);
    blocks.pass_held();
    same(&rt, blocks.offer(&mut eater), 3.min(STREAM.len() - 3));
    same(&rt, eater.offered, STREAM.len() - 3);
    Ok(())
}

#[test]
fn bytes_are_split_after_their_first_block(rt: HostRuntime) -> TestResult {
    for bytes in [b"".as_slice(), b"\x00", b"\x00\x02a", b"\x01\x00abc"] {
        assert!(rt; split_first_block(bytes).is_none());
    }
    for (bytes, payload, rest) in [
        (b"\x00\x02ab".as_slice(), b"ab".as_slice(), b"".as_slice()),
        (b"\x00\x00x", b"", b"x"),
        (b"\x00\x01abc", b"a", b"bc"),
    ] {
        let Some((one, other)) = split_first_block(bytes) else {
            panic!(rt; "no block");
        };
        same(&rt, one, payload);
        same(&rt, other, rest);
    }
    Ok(())
}

#[test]
fn nothing_lies_at_hand_without_a_buffer(rt: HostRuntime) -> TestResult {
    let mut reader = Counted::new(STREAM);
    takes(&rt, &mut reader, 8, None);
    let mut bytes = [0; 3];
    same(&rt, reader.read_some(&mut bytes)?, 3);
    same(&rt, bytes, *b"\x00\x01S");
    Ok(())
}

// Pieces of all sizes, so that blocks are in the buffer completely, in part or not at all.
#[test]
fn blocks_are_the_same_whatever_lies_at_hand(rt: HostRuntime) -> TestResult {
    for piece in 1..=STREAM.len() {
        for capacity in [8, 19, 64] {
            let source = PieceReader::new(STREAM, piece, Some(3));
            let source = BufReader::with_capacity(rt.alloc(), capacity, source)?;
            let case = (piece as u64, capacity);
            copies_through(&rt, Buffered::new(source), case)?;
        }
    }
    Ok(())
}
