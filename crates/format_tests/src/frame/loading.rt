//! Blocks that are looked at before they are passed.
use super::STREAM;
use crate::equal::{Host, TestResult, same};
use itch_frame::{BlockReader, FrameFault};
use test_doubles::PieceReader;
use test_doubles::days::Blocks;

// Checks that the next block is this one, in repeated looks too, and passes it.
fn passes(rt: &impl Host, reader: &mut Blocks<'_>, payload: &[u8]) -> Result<(), FrameFault> {
    for _ in 0..2 {
        if !reader.load()? {
            same(rt, payload, b"a block");
            return Ok(());
        }
        same(rt, reader.payload(), payload);
    }
    if reader.load()? {
        reader.pass();
    }
    Ok(())
}

// Checks that the blocks of the stream are passed, that none is left then, and that the end is not passed.
fn passes_all(rt: &impl Host, reader: &mut Blocks<'_>) -> Result<(), FrameFault> {
    for payload in [b"S".as_slice(), b"RR", b"", b"AAAAA", b"D"] {
        passes(rt, reader, payload)?;
    }
    for _ in 0..2 {
        same(rt, reader.load()?, false);
        reader.pass_held();
    }
    same(rt, reader.next_block()?, None);
    Ok(())
}

#[test]
fn a_block_stays_the_next_one_until_it_is_passed(rt: HostRuntime) -> TestResult {
    for piece in [1, 3, 40] {
        let mut reader = BlockReader::new(rt.alloc(), PieceReader::new(STREAM, piece, None))?;
        passes_all(&rt, &mut reader)?;
    }
    Ok(())
}

// Checks that a block that was looked at is the next one.
fn is_next(rt: &impl Host, reader: &mut Blocks<'_>) -> Result<(), FrameFault> {
    same(rt, reader.load_at_hand(), false);
    same(rt, reader.load()?, true);
    same(rt, reader.next_block()?, Some(b"S".as_slice()));
    Ok(())
}

#[test]
fn a_block_that_was_looked_at_is_the_next(rt: HostRuntime) -> TestResult {
    let mut reader = BlockReader::new(rt.alloc(), PieceReader::new(STREAM, 40, None))?;
    is_next(&rt, &mut reader)?;
    Ok(())
}
