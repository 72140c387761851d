//! Refused memory, and calls that allocate none.
use super::{STREAM, copy_blocks, has_no_room, takes, write};
use crate::equal::{Host, TestResult, same};
use itch_frame::{BlockReader, Counted, CountedRead, FrameFault, Splitter};
use linked_list_allocator::LocalHeap;
use std::alloc::Allocator;
use test_doubles::{FuseWriter, PieceReader, Refusing};

// Returns whether a splitter can be created.
fn has_splitter<A: Allocator>(alloc: A) -> bool {
    Splitter::new(alloc).is_ok()
}

// Returns whether a reader can be created.
fn has_reader<A: Allocator>(alloc: A) -> bool {
    BlockReader::new(alloc, Counted::new(STREAM)).is_ok()
}

// Checks that a splitter and a reader each make one allocation.
fn takes_one_allocation<A: Allocator + Copy>(rt: &impl Host, alloc: &Refusing<A>, nth: u64) {
    alloc.arm(nth);
    same(rt, has_splitter(alloc), nth == 1);
    same(rt, alloc.has_refused(), nth == 0);
    alloc.arm(nth);
    same(rt, has_reader(alloc), nth == 1);
    same(rt, alloc.has_refused(), nth == 0);
}

#[test]
fn each_allocation_may_be_refused(rt: HostRuntime) {
    let alloc = Refusing::new(rt.alloc(), 0);
    for nth in 0..2 {
        takes_one_allocation(&rt, &alloc, nth);
    }
}

// Checks that a writer in memory that is refused once writes the next block completely.
fn goes_on<A: Allocator + Copy>(rt: &impl Host, alloc: &Refusing<A>) -> Result<(), FrameFault> {
    let mut writer = FuseWriter::new(alloc, 64, None);
    has_no_room(rt, &mut writer, 0);
    assert!(rt; alloc.has_refused());
    write(&mut writer, b"z")?;
    same(rt, writer.written(), b"\x00\x01z".as_slice());
    Ok(())
}

#[test]
fn a_writer_goes_on_after_want_of_memory(rt: HostRuntime) -> TestResult {
    let alloc = Refusing::new(rt.alloc(), 0);
    goes_on(&rt, &alloc)?;
    Ok(())
}

// Checks that there is room for one splitter and not for a second one.
fn has_room_for_one<A: Allocator + Copy>(rt: &impl Host, memory: A) -> TestResult {
    let splitter = Splitter::new(memory)?;
    same(rt, splitter.held(), 0);
    assert!(rt; !has_splitter(memory));
    Ok(())
}

// A splitter allocates its 65,537 bytes and no more, apart from the heap's own use.
#[test]
fn a_splitter_takes_room_for_the_longest_block_alone(rt: HostRuntime) -> TestResult {
    let heap = LocalHeap::new(rt.alloc(), 66_000)?;
    has_room_for_one(&rt, &heap)
}

// Takes a block, and drops it.
fn takes_block<A: Allocator>(rt: &impl Host, splitter: &mut Splitter<A>) {
    takes(rt, splitter, STREAM, (3, 3), Some(b"S"));
    splitter.clear();
    same(rt, splitter.held(), 0);
}

// Reads the stream with a reader and a splitter, where only the writer allocates memory.
fn goes_through<R: CountedRead, A: Allocator>(
    rt: &impl Host,
    reader: &mut BlockReader<R, A>,
    splitter: &mut Splitter<A>,
) -> Result<(), FrameFault> {
    let mut writer = FuseWriter::new(rt.alloc(), 2, None);
    same(rt, copy_blocks(reader, &mut writer)?, 1);
    takes_block(rt, splitter);
    Ok(())
}

#[test]
fn blocks_take_no_memory(rt: HostRuntime) -> TestResult {
    let alloc = Refusing::new(rt.alloc(), 9);
    let mut splitter = Splitter::new(&alloc)?;
    let mut reader = BlockReader::new(&alloc, PieceReader::new(STREAM, 3, Some(2)))?;
    alloc.arm(0);
    goes_through(&rt, &mut reader, &mut splitter)?;
    assert!(rt; !alloc.has_refused());
    Ok(())
}
