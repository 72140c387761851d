//! The messages of some types in the blocks of a day file, as rows in C's memory.
ghost use Rattle.std.specs.Prelude.{◌≡◌, ◌+◌, ◌<◌, ◌≤◌, ◌^◌, ℕ, length, IfSome};
ghost use Rattle.itch_codec.specs.Headers.{header};
ghost use Rattle.itch_market.specs.Wanted.{has};
ghost use Rattle.itchsnap_c.specs.Rows.{CopiesRows, Fills, Makes, PutsRow, TakesBlock, end_of, is_at, is_chosen, not_begun, row_bytes, stopped};

use crate::answers::Answer;
use crate::codes::{DONE, NO_ROOM, OUT_OF_MEMORY, TOO_MANY_MESSAGES, codec_answer, coded};
use crate::snapshots::set_of;
use itch_codec::{CodecFault, MOST_MESSAGES, Message, decode};
use itch_frame::split_first_block;
use itch_market::LocateSet;
use std::alloc::Global;

// As many bytes of a payload as a row has.
const ROOM: usize = 48;

/// A message of blocks.
#[repr(C)]
#[derive(Clone, Copy, Drop)]
pub struct Row {
    /// Its number.
    pub number: u64,
    /// Where its payload begins in the blocks.
    pub offset: u64,
    /// Its timestamp, in nanoseconds since midnight; 0 if it has none.
    pub timestamp: u64,
    /// The first bytes of its payload, and zeros after the last. Only a message that is not decoded may have more bytes.
    pub payload: [u8; 48],
}

/// How the messages of blocks were copied.
#[repr(C)]
#[derive(Clone, Copy, Drop)]
pub struct Decoded {
    /// The number of the last message that was passed.
    pub count: u64,
    /// How many rows were written.
    pub rows: usize,
    /// How many bytes the blocks have that were passed.
    pub len: usize,
    /// As in `Answer`, for the block after them.
    pub detail: u64,
    pub code: u32,
}

/// Writes the messages of blocks that are of the listed types, and at the listed locates, to the front of `out`. Without locates it
/// does not matter where a message is.
///
/// It ends before the first message for which there is no room, at the first that spells none though its type is listed, and at the end
/// of the blocks, an empty block or an unfinished one. What was passed may be cut off the front for the next call, and `before` is the
/// number of the last message before the blocks.
#[unsafe(no_mangle)]
pub extern "C" fn itchsnap_decode_blocks(
    alloc: Global,
    blocks: &[u8],
    before: u64,
    types: &[u8],
    locates: &[u16],
    out: &mut [Row],
) -> Decoded
    ensures { CopiesRows types.now locates.now before blocks.now out.old result out.new }
{
    match chosen(alloc, locates) {
        Some(set) => fill(
            RowFilter {
                types,
                locates,
                set: &set,
            },
            before,
            blocks,
            out,
        ),
        None => not_begun(before, OUT_OF_MEMORY),
    }
}

// Which messages are wanted: those of these types and at these locates, which are those of the set. Without locates the set has all.
#[derive(Clone, Copy)]
struct RowFilter<'a> {
    types: &'a [u8],
    locates: &'a [u16],
    set: &'a LocateSet<Global>,
}

// The set of the locates of a list, or of all locates if there are none in it.
fn chosen(alloc: Global, locates: &[u16]) -> Option<LocateSet<Global>>
    ensures { IfSome result (λ set. (locate : ℕ) → has set locate ≡ is_chosen locates.now locate) }
{
    if locates.is_empty() {
        return Some(LocateSet::all(alloc));
    }
    set_of(alloc, locates)
}

// Fills C's memory with the messages that are wanted.
fn fill(wanted: RowFilter<'_>, before: u64, blocks: &[u8], out: &mut [Row]) -> Decoded
    requires { (locate : ℕ) → has wanted.set.now locate ≡ is_chosen wanted.locates.now locate }
    ensures { Fills wanted.entry.types.now wanted.entry.locates.now before blocks.now out.old result out.new }
{
    let mut rest = blocks;
    let mut count = before;
    let mut rows = 0;
    while let Some((payload, after)) = split_first_block(rest) {
        let passed = blocks.len() - rest.len();
        match take(wanted, count, passed, payload, &mut rows, out) {
            Ok(()) => {}
            Err(answer) => return stopped(count, rows, passed, answer),
        }
        count += 1;
        rest = after;
    }
    stopped(count, rows, blocks.len() - rest.len(), end_of(rest))
}

// Takes the next message: its row is written if it is wanted. Or why it is not taken.
fn take(
    wanted: RowFilter<'_>,
    count: u64,
    passed: usize,
    payload: &[u8],
    rows: &mut usize,
    out: &mut [Row],
) -> Result<(), Answer>
    requires set { (locate : ℕ) → has wanted.set.now locate ≡ is_chosen wanted.locates.now locate }
    requires passed { passed + 2 < 2 ^ 64 }
    requires room { rows.old ≤ length out.old }
    ensures { TakesBlock wanted.entry.types.now wanted.entry.locates.now count passed payload.now rows.old out.old result rows.new out.new }
{
    if payload.is_empty() {
        return Err(DONE);
    }
    if count >= MOST_MESSAGES {
        return Err(coded(TOO_MANY_MESSAGES, 0));
    }
    match row_of(wanted, count + 1, passed as u64 + 2, payload) {
        Ok(Some(row)) => put_row(row, rows, out),
        Ok(None) => Ok(()),
        Err(fault) => Err(codec_answer(&fault)),
    }
}

// The row of a message, if it is wanted; or the fault of a payload whose type is.
#[inline(always)]
fn row_of(
    wanted: RowFilter<'_>,
    number: u64,
    offset: u64,
    payload: &[u8],
) -> Result<Option<Row>, CodecFault>
    requires set { (locate : ℕ) → has wanted.set.now locate ≡ is_chosen wanted.locates.now locate }
    requires full { 0 < length payload.now }
    ensures { Makes wanted.entry.types.now wanted.entry.locates.now number offset payload.now result }
{
    if !wanted.types.contains(&payload[0]) {
        return Ok(None);
    }
    let message = decode(payload)?;
    if !is_at(wanted, &message) {
        return Ok(None);
    }
    Ok(Some(Row {
        number,
        offset,
        timestamp: message.time().unwrap_or(0),
        payload: row_bytes(payload),
    }))
}

// Whether a message is at a locate that is wanted.
#[inline(always)]
fn is_at(wanted: RowFilter<'_>, message: &Message<'_>) -> bool
    requires { (locate : ℕ) → has wanted.set.now locate ≡ is_chosen wanted.locates.now locate }
    ensures { result ≡ is_at wanted.entry.locates.now (header message.now) }
{
    match message.header() {
        Some(header) => wanted.set.contains(header.locate),
        None => wanted.locates.is_empty(),
    }
}

// The first bytes of a payload, with zeros after the last.
#[inline(always)]
fn row_bytes(payload: &[u8]) -> [u8; 48]
    ensures { result ≡ row_bytes payload.now }
{
    let mut bytes = [0; ROOM];
    let size = payload.len().min(ROOM);
    bytes[..size].copy_from_slice(&payload[..size]);
    bytes
}

// Writes a row behind those that are there, if there is room for it.
#[inline(always)]
fn put_row(row: Row, rows: &mut usize, out: &mut [Row]) -> Result<(), Answer>
    requires { rows.old ≤ length out.old }
    ensures { PutsRow row rows.old out.old result rows.new out.new }
{
    if *rows == out.len() {
        return Err(coded(NO_ROOM, 0));
    }
    out[*rows] = row;
    *rows += 1;
    Ok(())
}

// Why no block begins where the blocks end.
fn end_of(rest: &[u8]) -> Answer
    ensures { result ≡ end_of rest.now }
{
    if rest.is_empty() {
        DONE
    } else {
        coded(32, rest.len() as u64)
    }
}

// So much was copied, and this came after it.
fn stopped(count: u64, rows: usize, len: usize, answer: Answer) -> Decoded
    ensures { result ≡ stopped count rows len answer }
{
    Decoded {
        count,
        rows,
        len,
        detail: answer.detail,
        code: answer.code,
    }
}

// Nothing was copied, for this reason.
fn not_begun(before: u64, code: u32) -> Decoded
    ensures { result ≡ not_begun before code }
{
    Decoded {
        count: before,
        rows: 0,
        len: 0,
        detail: 0,
        code,
    }
}
