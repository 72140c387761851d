//! Calls over whole files in C's memory.
ghost use Rattle.std.specs.Prelude.{◌≡◌, IfOk, IfErr};
ghost use Rattle.itchsnap_c.specs.Codes.{stop_answer};
ghost use Rattle.itchsnap_c.specs.Files.{outcome, part_of, wanted, Checks, Snaps, Compares, ReadsDay, RefusesDay, parted, refused_in};
ghost use Rattle.itchsnap_c.specs.Snapshots.{is_listed};
ghost use Rattle.itch_market.specs.Partial.{only};

use crate::answers::{Comparison, Outcome, Written};
use crate::codes::{OUT_OF_MEMORY, stop_answer};
use crate::slice::SliceReader;
use crate::snapshots::{put_partial, put_whole};
use itch_book::SettledBook;
use itch_day::Limit;
use itch_frame::BlockReader;
use itch_market::{Market, Stop, replay_part};
use itch_snapshot::part_place;
use std::alloc::Global;

/// A file has fewer messages than requested.
const SHORT: u32 = 37;

/// The market of a day file, which is only looked at once all messages are read.
type DayMarket = Market<SettledBook<Global>>;

/// As a number of messages or as a time, this requests all messages of a file.
const ALL: u64 = u64::MAX;

/// All messages.
const WHOLE: Limit = Limit {
    after: None,
    until: None,
};

/// Checks that a day file follows the order rules. Returns its number of messages, or where and why the first one is refused.
#[unsafe(no_mangle)]
pub extern "C" fn itchsnap_check(alloc: Global, day: &[u8]) -> Outcome
    ensures { Checks day.now result }
{
    match read_messages(alloc, day, WHOLE) {
        Ok((_market, count)) => outcome(count, 0, 0, 0),
        Err(outcome) => outcome,
    }
}

/// Writes the canonical snapshot of a part of a day file to the front of `out`: of its first `after` messages, or of those before the first
/// at the time `until` or later, whichever comes first.
#[unsafe(no_mangle)]
pub extern "C" fn itchsnap_snap(
    alloc: Global,
    day: &[u8],
    after: u64,
    until: u64,
    out: &mut [u8],
) -> Outcome
    ensures { Snaps (λ m. m) day.now (part_of after until) out.old result out.new }
{
    match read_day(alloc, day, part_of(after, until)) {
        Ok((market, count)) => written(count, put_whole(alloc, &market, count + 1, out)),
        Err(outcome) => outcome,
    }
}

/// Does the same for the market restricted to the locates of a list. Every message must still follow the order rules.
#[unsafe(no_mangle)]
pub extern "C" fn itchsnap_snap_only(
    alloc: Global,
    day: &[u8],
    after: u64,
    until: u64,
    locates: &[u16],
    out: &mut [u8],
) -> Outcome
    ensures { Snaps (only (is_listed locates.now)) day.now (part_of after until) out.old result out.new }
{
    match read_day(alloc, day, part_of(after, until)) {
        Ok((market, count)) => {
            written(count, put_partial(alloc, &market, count + 1, locates, out))
        }
        Err(outcome) => outcome,
    }
}

/// Compares the markets of two day files. Returns 0 if they are the same, or the place of the first message, counted from 1, in which the
/// snapshots of the two markets differ.
#[unsafe(no_mangle)]
pub extern "C" fn itchsnap_compare(alloc: Global, first: &[u8], second: &[u8]) -> Comparison
    ensures { Compares first.now second.now result }
{
    let one = match read_day(alloc, first, WHOLE) {
        Ok((market, _count)) => market,
        Err(outcome) => return refused(1, outcome),
    };
    match read_day(alloc, second, WHOLE) {
        Ok((other, _count)) => same_or_not(part_place(&one, &other)),
        Err(outcome) => refused(2, outcome),
    }
}

// Returns the settled market after a day file, or a part of it, and the number of messages.
fn read_day(alloc: Global, day: &[u8], limit: Limit) -> Result<(DayMarket, u64), Outcome>
    ensures read { IfOk result (λ done. ReadsDay day.now limit done.0 done.1) }
    ensures refused { IfErr result (λ outcome. RefusesDay day.now limit outcome) }
{
    let (mut market, count) = read_messages(alloc, day, limit)?;
    market.settle();
    Ok((market, count))
}

// Returns the same without settling the market.
fn read_messages(alloc: Global, day: &[u8], limit: Limit) -> Result<(DayMarket, u64), Outcome>
    ensures read { IfOk result (λ done. ReadsDay day.now limit done.0 done.1) }
    ensures refused { IfErr result (λ outcome. RefusesDay day.now limit outcome) }
{
    let Ok(mut reader) = BlockReader::new(alloc, SliceReader { rest: day }) else {
        return Err(outcome(0, 0, 0, OUT_OF_MEMORY));
    };
    let mut market = Market::new(alloc);
    let (count, stop) = replay_part(&mut reader, &mut market, limit);
    let Some(stop) = stop else {
        return Ok((market, count));
    };
    match (stop, limit.after) {
        (Stop::End, None) => Ok((market, count)),
        (Stop::End, Some(_)) => Err(outcome(count, 0, 0, SHORT)),
        _ => Err(stopped(count, &stop)),
    }
}

// Returns the result of a call over a day file with this stop, after that many messages.
fn stopped(count: u64, stop: &Stop) -> Outcome
    ensures { result ≡ outcome count 0 (stop_answer stop.now).detail (stop_answer stop.now).code }
{
    let answer = stop_answer(stop);
    outcome(count, 0, answer.detail, answer.code)
}

// Returns the requested part of a file.
fn part_of(after: u64, until: u64) -> Limit
    ensures { result ≡ part_of after until }
{
    Limit {
        after: wanted(after),
        until: wanted(until),
    }
}

fn wanted(number: u64) -> Option<u64>
    ensures { result ≡ wanted number }
{
    if number == ALL { None } else { Some(number) }
}

fn written(count: u64, written: Written) -> Outcome
    ensures { result ≡ record { count = count; len = written.len; detail = 0; code = written.code } }
{
    outcome(count, written.len, 0, written.code)
}

fn same_or_not(place: Option<u64>) -> Comparison
    ensures { result ≡ parted place }
{
    let place = match place {
        Some(place) => place,
        None => 0,
    };
    Comparison {
        place,
        count: 0,
        detail: 0,
        code: 0,
        file: 0,
    }
}

fn refused(file: u32, outcome: Outcome) -> Comparison
    ensures { result ≡ refused_in file outcome }
{
    Comparison {
        place: 0,
        count: outcome.count,
        detail: outcome.detail,
        code: outcome.code,
        file,
    }
}

fn outcome(count: u64, len: usize, detail: u64, code: u32) -> Outcome
    ensures { result ≡ record { count = count; len = len; detail = detail; code = code } }
{
    Outcome {
        count,
        len,
        detail,
        code,
    }
}
