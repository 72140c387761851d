//! Worked cases, and each failure in turn.
use crate::equal::{Host, TestResult, holds_in, same, same_in, same_words};
use itch_frame::{
    BlockReader, Buffered, Counted, CountedRead, CountedWrite, FrameFault, Splitter, laws,
    write_block,
};
use std::alloc::Allocator;
use std::fs::File;
use std::io::BufReader;
use test_doubles::days::Blocks;
use test_doubles::{FuseWriter, PieceReader};

mod at_hand;
mod devices;
mod loading;
mod memory;

// Five blocks, one of them empty.
const STREAM: &[u8] = b"\x00\x01S\x00\x02RR\x00\x00\x00\x05AAAAA\x00\x01D";

// Checks that the splitter consumes `taken` of these bytes, then holds `held` bytes of its block, and whether the block is complete. This
// helper and those below have no contract, so that a proof of a test does not have to know the effect of each call.
fn takes<A: Allocator>(
    rt: &impl Host,
    splitter: &mut Splitter<A>,
    bytes: &[u8],
    (taken, held): (usize, usize),
    ready: Option<&[u8]>,
) {
    same(rt, splitter.take(bytes), taken);
    same(rt, splitter.ready(), ready);
    same(rt, splitter.held(), held);
}

#[test]
fn takes_up_to_the_end_of_a_block(rt: HostRuntime) -> TestResult {
    let mut splitter = Splitter::new(rt.alloc())?;
    takes(&rt, &mut splitter, &[0], (1, 1), None);
    takes(&rt, &mut splitter, &[1, 0x7a, 0, 0], (2, 3), Some(&[0x7a]));
    takes(&rt, &mut splitter, &[0, 0], (0, 3), Some(&[0x7a]));
    splitter.clear();
    takes(&rt, &mut splitter, &[0, 0], (2, 2), Some(&[]));
    Ok(())
}

#[test]
fn the_laws_of_streams() {
    laws::any_cut();
    laws::one_block();
    laws::one_reading();
    laws::one_day();
}

// Splits a piece into at most eight blocks, and writes them again.
fn copy_piece<A: Allocator, W: CountedWrite>(
    splitter: &mut Splitter<A>,
    writer: &mut W,
    piece: &[u8],
) -> Result<(), FrameFault> {
    let mut rest = piece;
    for _ in 0..8 {
        let taken = splitter.take(rest).min(rest.len());
        rest = &rest[taken..];
        if let Some(payload) = splitter.ready() {
            write_block(writer, payload)?;
            splitter.clear();
        }
    }
    Ok(())
}

#[test]
fn cuts_a_stream_the_same_in_any_pieces(rt: HostRuntime) -> TestResult {
    for size in 1..=STREAM.len() {
        let mut splitter = Splitter::new(rt.alloc())?;
        let mut writer = FuseWriter::new(rt.alloc(), 64, None);
        for piece in STREAM.chunks(size) {
            copy_piece(&mut splitter, &mut writer, piece)?;
        }
        same_in(&rt, ("in pieces of", size), writer.written(), STREAM);
        same(&rt, splitter.held(), 0);
    }
    Ok(())
}

// Checks that the next block is this one, or that there is none.
fn gives<R: CountedRead, A: Allocator>(
    rt: &impl Host,
    reader: &mut BlockReader<R, A>,
    want: Option<&[u8]>,
) -> Result<(), FrameFault> {
    same(rt, reader.next_block()?, want);
    Ok(())
}

fn fails<R: CountedRead, A: Allocator>(rt: &impl Host, reader: &mut BlockReader<R, A>) {
    assert!(rt; matches!(reader.next_block(), Err(FrameFault::Read(_))));
}

// Checks that the input ends inside a block with this number of bytes held, in repeated calls too.
fn is_truncated<R: CountedRead, A: Allocator>(
    rt: &impl Host,
    reader: &mut BlockReader<R, A>,
    want: usize,
) {
    for _ in 0..2 {
        assert!(rt;
            matches!(reader.next_block(), Err(FrameFault::Truncated { held }) if held == want)
        );
    }
}

fn write<W: CountedWrite>(writer: &mut W, payload: &[u8]) -> Result<(), FrameFault> {
    write_block(writer, payload)
}

// Checks that exactly this block was written.
fn holds_block(rt: &impl Host, written: &[u8], payload: &[u8]) -> TestResult {
    let mut reader = BlockReader::new(rt.alloc(), PieceReader::new(written, 1000, None))?;
    for want in [Some(payload), None] {
        gives(rt, &mut reader, want)?;
    }
    Ok(())
}

// Writes the longest block, and checks that a longer payload is refused.
fn writes_longest(rt: &impl Host, longest: &[u8], long: &[u8]) -> TestResult {
    let mut writer = FuseWriter::new(rt.alloc(), 70_000, None);
    write(&mut writer, longest)?;
    same(rt, writer.written().len(), 65_537);
    assert!(rt; writer.written().starts_with(&[0xff, 0xff, 0x7a]));
    assert!(rt; matches!(write_block(&mut writer, long), Err(FrameFault::TooLong)));
    same(rt, writer.written().len(), 65_537);
    holds_block(rt, writer.written(), longest)
}

#[test]
fn writes_the_longest_block_and_none_longer(rt: HostRuntime) -> TestResult {
    let long = vec![in rt.alloc(); 0x7a; 65_536]?;
    writes_longest(&rt, &long[..65_535], &long)
}

#[test]
fn says_how_much_of_a_block_was_sent(rt: HostRuntime) -> TestResult {
    let whole = b"\x00\x05zzzzz";
    for fail_at in 1..=8 {
        let mut writer = FuseWriter::new(rt.alloc(), 1, Some(fail_at));
        let outcome = write_block(&mut writer, b"zzzzz");
        let sent = writer.written().len();
        same(&rt, sent as u64, fail_at.min(8) - 1);
        assert!(rt; whole.starts_with(writer.written()));
        match outcome {
            Ok(()) => same(&rt, fail_at, 8),
            Err(fault) => assert!(rt;
                matches!(fault, FrameFault::Write { sent: count, .. } if count == sent)
            ),
        }
    }
    Ok(())
}

#[test]
fn reads_on_after_a_failure(rt: HostRuntime) -> TestResult {
    let mut reader = BlockReader::new(rt.alloc(), PieceReader::new(b"\x00\x01z", 1, Some(2)))?;
    fails(&rt, &mut reader);
    for want in [Some(b"z".as_slice()), None, None] {
        gives(&rt, &mut reader, want)?;
    }
    Ok(())
}

// Checks the messages of the stream, which ends twice. An empty row means no message.
fn gives_messages(rt: &impl Host, reader: &mut Blocks<'_>) -> Result<(), FrameFault> {
    for want in [b"S".as_slice(), b"RR", b"", b"AAAAA", b"D", b"", b""] {
        let want = if want.is_empty() { None } else { Some(want) };
        same(rt, reader.next_message()?, want);
    }
    Ok(())
}

#[test]
fn messages_end_at_an_empty_block_and_at_the_end(rt: HostRuntime) -> TestResult {
    let mut reader = BlockReader::new(rt.alloc(), PieceReader::new(STREAM, 3, None))?;
    gives_messages(&rt, &mut reader)?;
    Ok(())
}

// Checks a failed read, then a message, and then a truncated block.
fn gives_one_message(rt: &impl Host, reader: &mut Blocks<'_>) -> Result<(), FrameFault> {
    assert!(rt; matches!(reader.next_message(), Err(FrameFault::Read(_))));
    same(rt, reader.next_message()?, Some(b"z".as_slice()));
    let end = reader.next_message();
    assert!(rt; matches!(end, Err(FrameFault::Truncated { held: 1 })));
    is_truncated(rt, reader, 1);
    Ok(())
}

#[test]
fn a_message_comes_after_a_failed_read(rt: HostRuntime) -> TestResult {
    let source = PieceReader::new(b"\x00\x01z\x00", 1, Some(2));
    let mut reader = BlockReader::new(rt.alloc(), source)?;
    gives_one_message(&rt, &mut reader)?;
    Ok(())
}

// Reads blocks and writes them again, continuing after each failed read, and returns how many reads failed.
fn copy_blocks<R: CountedRead, W: CountedWrite, A: Allocator>(
    reader: &mut BlockReader<R, A>,
    writer: &mut W,
) -> Result<u64, FrameFault> {
    let mut failures = 0u64;
    for _ in 0..64 {
        match reader.next_block() {
            Ok(Some(payload)) => write_block(writer, payload)?,
            Ok(None) => return Ok(failures),
            Err(FrameFault::Read(_)) => failures = failures.saturating_add(1),
            Err(fault) => return Err(fault),
        }
    }
    Ok(failures)
}

// Copies the stream through a reader, checks that it is complete whichever read fails, and returns how many reads failed.
fn copies_stream<R: CountedRead, A: Allocator>(
    rt: &impl Host,
    reader: &mut BlockReader<R, A>,
    case: (u64, usize),
) -> Result<u64, FrameFault> {
    let mut writer = FuseWriter::new(rt.alloc(), 64, None);
    let failures = copy_blocks(reader, &mut writer)?;
    same_in(rt, case, writer.written(), STREAM);
    Ok(failures)
}

#[test]
fn loses_nothing_whichever_read_fails(rt: HostRuntime) -> TestResult {
    for (piece, reads) in [(1, 20), (2, 12), (7, 10)] {
        for fail_at in 1..=24 {
            let source = PieceReader::new(STREAM, piece, Some(fail_at));
            let mut reader = BlockReader::new(rt.alloc(), source)?;
            let failures = copies_stream(&rt, &mut reader, (fail_at, piece))?;
            same_in(&rt, (fail_at, piece), failures == 1, fail_at <= reads);
        }
    }
    Ok(())
}

// Copies the stream through a new reader of this source.
fn copies_through<R: CountedRead + Drop>(
    rt: &impl Host,
    source: R,
    case: (u64, usize),
) -> TestResult {
    let mut reader = BlockReader::new(rt.alloc(), source)?;
    let failures = copies_stream(rt, &mut reader, case)?;
    holds_in(rt, case, failures <= 1);
    Ok(())
}

#[test]
fn blocks_are_the_same_through_any_buffer(rt: HostRuntime) -> TestResult {
    for capacity in 1..=STREAM.len() + 1 {
        for fail_at in 1..=24 {
            let source = PieceReader::new(STREAM, 5, Some(fail_at));
            let source = BufReader::with_capacity(rt.alloc(), capacity, source)?;
            copies_through(&rt, Buffered::new(source), (fail_at, capacity))?;
        }
    }
    Ok(())
}

// Checks a block, then a failed read, and then a truncated block.
fn gives_one_block<R: CountedRead, A: Allocator>(
    rt: &impl Host,
    reader: &mut BlockReader<R, A>,
) -> Result<(), FrameFault> {
    gives(rt, reader, Some(b"z"))?;
    fails(rt, reader);
    is_truncated(rt, reader, 1);
    Ok(())
}

#[test]
fn a_failed_read_below_a_buffer_is_counted(rt: HostRuntime) -> TestResult {
    let source = PieceReader::new(b"\x00\x01z\x00", 4, Some(2));
    let source = Buffered::new(BufReader::with_capacity(rt.alloc(), 8, source)?);
    let mut reader = BlockReader::new(rt.alloc(), source)?;
    gives_one_block(&rt, &mut reader)?;
    Ok(())
}

#[test]
fn says_how_much_of_a_block_is_held(rt: HostRuntime) -> TestResult {
    for (bytes, want) in [
        (b"\x00".as_slice(), 1),
        (b"\x00\x03", 2),
        (b"\x00\x03ab", 4),
    ] {
        let mut reader = BlockReader::new(rt.alloc(), PieceReader::new(bytes, 7, None))?;
        is_truncated(&rt, &mut reader, want);
    }
    Ok(())
}

// Checks that a writer without more room fails, and reports how much of a block was sent.
fn has_no_room<W: CountedWrite>(rt: &impl Host, writer: &mut W, want: usize) {
    assert!(rt;
        matches!(write_block(writer, b"abc"), Err(FrameFault::Write { sent, .. }) if sent == want)
    );
}

#[test]
fn counts_the_failures_of_standard_writers(rt: HostRuntime) {
    let mut room = [0; 4];
    let mut writer = Counted::new(&mut room[..]);
    has_no_room(&rt, &mut writer, 4);
    same(&rt, writer.get().len(), 0);
    same(&rt, writer.into_inner().len(), 0);
    same(&rt, room, *b"\x00\x03ab");
}

// Checks that a reader begins with this block, or with a failure.
fn begins<R: CountedRead + Drop>(rt: &impl Host, source: R, block: Option<&[u8]>) -> TestResult {
    let mut reader = BlockReader::new(rt.alloc(), source)?;
    match block {
        Some(_) => gives(rt, &mut reader, block)?,
        None => fails(rt, &mut reader),
    }
    Ok(())
}

#[test]
fn counts_the_failures_of_standard_readers(rt: HostRuntime) -> TestResult {
    begins(&rt, Counted::new(STREAM), Some(b"S"))?;
    let folder = File::open(&rt, "/")?;
    begins(&rt, Counted::new(folder), None)
}

#[test]
fn says_what_failed(rt: HostRuntime) -> TestResult {
    let error = std::io::Error::from(std::io::ErrorKind::Other);
    for (fault, want) in [
        (FrameFault::Read(error), "read failed"),
        (
            FrameFault::Truncated { held: 17 },
            "truncated, 17 bytes held",
        ),
        (FrameFault::Write { sent: 5, error }, "write failed"),
        (FrameFault::TooLong, "payload too long"),
    ] {
        same_words(&rt, &fault, want)?;
    }
    Ok(())
}
