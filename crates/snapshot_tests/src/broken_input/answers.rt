//! Broken answers to a fetch: each prefix of a served session, and each of its bytes at each value.
use crate::equal::{Host, TestResult, same};
use crate::files::{are_same, read};
use crate::sessions::{FROM_1, fetch_fault, fetched};
use itch_book::{ListBook, OrderBook};
use itch_codec::Seq;
use itch_frame::{BlockReader, FrameFault, write_block};
use itch_market::Market;
use itch_soup::SoupFault;
use std::alloc::Global;
use std::test::Fail;
use test_doubles::days::Blocks;
use test_doubles::{FuseWriter, PieceReader};

// Where the blocks of the answer begin, and where the last block that is read ends.
const STARTS: [usize; 6] = [0, 33, 48, 90, 129, 168];

const READ: usize = 192;

fn fault(rt: &impl Host, answer: &[u8]) -> Result<Option<SoupFault>, Fail> {
    fetch_fault(rt, PieceReader::new(answer, 64, None))
}

// Checks that a fetch of `len` bytes, whose last block begins at `start`, is truncated or ends early.
fn is_cut(rt: &impl Host, fault: Option<SoupFault>, start: usize, len: usize) {
    match fault {
        Some(SoupFault::EndedEarly) => same(rt, start, len),
        Some(SoupFault::Frame(FrameFault::Truncated { held })) => {
            assert!(rt; held > 0);
            same(rt, start.saturating_add(held), len);
        }
        _ => panic!(rt; "{len} bytes are neither cut nor ended"),
    }
}

// Returns the start of the block in which these bytes end.
fn start_of(rt: &impl Host, len: usize) -> usize {
    let start = STARTS.iter().rfind(|start| **start <= len);
    *start.expect(rt, "a block")
}

#[test]
fn each_beginning_of_an_answer(rt: HostRuntime) -> TestResult {
    for len in 0..READ {
        let found = fault(&rt, &FROM_1[..len])?;
        is_cut(&rt, found, start_of(&rt, len), len);
    }
    for len in READ..=FROM_1.len() {
        assert!(rt; fault(&rt, &FROM_1[..len])?.is_none());
    }
    Ok(())
}

// Writes the payload of each packet of sequenced data in a block.
fn copy_payloads(
    reader: &mut Blocks<'_>,
    file: &mut FuseWriter,
    packets: usize,
) -> Result<(), FrameFault> {
    for _packet in 0..packets {
        if let Some([b'S', payload @ ..]) = reader.next_block()? {
            write_block(file, payload)?;
        }
    }
    Ok(())
}

// Returns the snapshot file of an answer: the payload of each sequenced data packet in a block.
fn snapshot_file(alloc: Global, answer: &[u8]) -> Result<FuseWriter, Fail> {
    let mut reader = BlockReader::new(alloc, PieceReader::new(answer, 64, None))?;
    let mut file = FuseWriter::new(alloc, 64, None);
    copy_payloads(&mut reader, &mut file, answer.len())?;
    Ok(file)
}

// Returns whether these bytes result in a market, and checks that it is the one that they encode. Otherwise there is a fault.
fn gives_market<B: OrderBook>(
    rt: &impl Host,
    memory: B::Alloc,
    answer: &[u8],
) -> Result<bool, Fail> {
    let reader = PieceReader::new(answer, 64, None);
    let Ok((market, next)) = fetched::<B>(rt, memory, reader)? else {
        return Ok(false);
    };
    let file = snapshot_file(rt.alloc(), answer)?;
    let (spelled, number): (Market<B>, Seq) = read(rt.alloc(), memory, file.written())?;
    assert!(rt; are_same(rt, &market, &spelled));
    same(rt, next.value(), number.value());
    Ok(true)
}

// Sets one byte to each value. Returns how many of the results are markets.
fn with_byte_changed(rt: &impl Host, at: usize) -> Result<usize, Fail> {
    assert!(rt; at < READ);
    let mut answer = [0; READ];
    answer.copy_from_slice(&FROM_1[..READ]);
    let mut markets = 0usize;
    for byte in 0..=255u8 {
        answer[at] = byte;
        if gives_market::<ListBook>(rt, rt.alloc(), &answer)? {
            markets = markets.saturating_add(1);
        }
    }
    Ok(markets)
}

#[test]
fn each_byte_of_an_answer(rt: HostRuntime) -> TestResult {
    for at in 0..READ {
        assert!(rt; with_byte_changed(&rt, at)? >= 1);
    }
    Ok(())
}
