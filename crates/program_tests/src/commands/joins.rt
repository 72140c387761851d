//! Feeds joined to snapshots for the set of all locates, which no command line requests, and parts of feeds.

use super::blocks::file;
use crate::equal::{Host, TestResult, holds_in, same_in};
use itch_commands::join::{join, join_blocks};
use itch_commands::{Book, FeedPart, Limit, laws};
use itch_frame::{BlockReader, CountedRead, CountedWrite};
use itch_market::LocateSet;
use std::alloc::Global;
use std::test::Fail;
use test_doubles::{FuseWriter, PieceReader};

// The part of a feed to join.
#[derive(Clone, Copy)]
enum Part {
    // All of the feed, for all locates.
    Whole,
    // The feed begins with the third message of its day, and is joined up to the fourth.
    Third,
}

// Returns whether the feed is joined to the snapshot for all locates; without a contract.
fn is_joined<R: CountedRead + Drop, S: CountedRead + Drop, W: CountedWrite>(
    alloc: Global,
    snapshot: R,
    feed: S,
    out: &mut W,
) -> bool {
    let all = LocateSet::all(alloc);
    matches!(join(alloc, snapshot, feed, Some(all), out), Ok(true))
}

// Returns the same for a part of a day.
fn is_joined_in_part<R: CountedRead + Drop, S: CountedRead + Drop, W: CountedWrite>(
    alloc: Global,
    snapshot: R,
    feed: S,
    out: &mut W,
) -> Result<bool, Fail> {
    let limit = Limit::counted(Some(4));
    let part = FeedPart { before: 2, limit };
    let mut one = BlockReader::new(alloc, snapshot)?;
    let mut two = BlockReader::new(alloc, feed)?;
    let done = join_blocks::<_, _, _, _, Book<Global>, _>(
        alloc, &mut one, &mut two, part, None, out,
    );
    Ok(matches!(done, Ok(true)))
}

// Checks a row: a snapshot, a feed, and the snapshot after both.
fn check(rt: &impl Host, part: Part, row: &str) -> TestResult {
    let (files, wanted) = row.split_once(" => ").ok_or("a snapshot after all")?;
    let (snapshot, feed) = files.split_once(" + ").ok_or("two files")?;
    let snapshot = file(rt.alloc(), snapshot)?;
    let feed = file(rt.alloc(), feed)?;
    let wanted = file(rt.alloc(), wanted)?;
    let snapshot = PieceReader::new(snapshot.as_slice(), 3, None);
    let feed = PieceReader::new(feed.as_slice(), 5, None);
    let mut out = FuseWriter::new(rt.alloc(), 7, None);
    let is_joined = match part {
        Part::Whole => is_joined(rt.alloc(), snapshot, feed, &mut out),
        Part::Third => is_joined_in_part(rt.alloc(), snapshot, feed, &mut out)?,
    };
    holds_in(rt, row, is_joined);
    same_in(rt, row, out.written(), wanted.as_slice());
    Ok(())
}

#[test]
fn the_laws_of_what_is_read_with_a_set() {
    laws::reading_for_a_set();
    laws::restricted_reading();
    laws::joined_day();
}

// Nothing is read after End of Snapshot, and messages that the snapshot contains are not decoded.
#[test]
fn join_goes_on_after_a_snapshot(rt: HostRuntime) -> TestResult {
    for row in [
        "START AAPL END_3 + START_STAMPED AAPL_STAMPED BUY_1_STAMPED => START AAPL BUY_1 END_4",
        "START AAPL BUY_1 END_4 + START AAPL BUY_1 BUY_2_OF_200 EXECUTE_100 => START AAPL BUY_2_OF_200 END_6",
        "START AAPL END_3 + START => START AAPL END_3",
        "START AAPL END_3 +  => START AAPL END_3",
        "START AAPL END_3 00 +  => START AAPL END_3",
        "AAPL END_3 + SHORT_AAPL MSFT_AT_1 BUY_1 0000 ff => AAPL BUY_1 END_4",
    ] {
        check(&rt, Part::Whole, row)?;
    }
    Ok(())
}

#[test]
fn join_goes_to_a_message_of_the_day(rt: HostRuntime) -> TestResult {
    for row in [
        "START AAPL END_3 + BUY_1 BUY_2_OF_200 BUY_1 => START AAPL BUY_1 BUY_2_OF_200 END_5",
        "START AAPL BUY_1 END_4 + SHORT_AAPL BUY_2_OF_200 00 => START AAPL BUY_1 BUY_2_OF_200 END_5",
        "START AAPL BUY_1 BUY_2_OF_200 END_5 + 00 => START AAPL BUY_1 BUY_2_OF_200 END_5",
    ] {
        check(&rt, Part::Third, row)?;
    }
    Ok(())
}
