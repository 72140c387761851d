//! The line and the exit status of each fault.

use crate::equal::{Host, TestResult, same, same_in};
use itch_checkpoints::Latest;
use itch_codec::CodecFault;
use itch_commands::snap::DayCursor;
use itch_commands::{
    Expectations, FeedMismatch, FeedPart, Limit, Source, ToolFault, UnmetExpectation, status,
    system_fault,
};
use itch_frame::FrameFault;
use itch_market::{Refusal, ReplayEnd, Stop};
use itch_snapshot::SnapFault;
use std::io;

// A fault has this exit status and, after it, this line.
fn is_told(rt: &impl Host, fault: &ToolFault, wanted: &str) -> TestResult {
    let told = format!(in rt.alloc(); "{} {fault}", fault.status())?;
    same(rt, told.as_str(), wanted);
    Ok(())
}

#[test]
fn every_fault_has_its_line_and_status(rt: HostRuntime) -> TestResult {
    let error = io::Error::from(io::ErrorKind::Other);
    let stopped = |file, count, stop| ToolFault::Stopped {
        file,
        end: ReplayEnd { count, stop },
    };
    let most = 9_999_999_999_999_999_999;
    let short = |file, count| ToolFault::Short { file, count };
    let gap = |next, before| ToolFault::FeedMismatch(FeedMismatch::Gap { next, before });
    let beyond = FeedMismatch::Beyond { held: 4, wanted: 3 };
    let (file, number) = (Source::Second, 2);
    let faults = [
        stopped(Source::Only, 1, Stop::Rule(Refusal::OutOfMemory)),
        stopped(Source::First, most, Stop::TooManyMessages),
        short(Source::Only, 3),
        short(Source::Second, 0),
        ToolFault::UnmetExpectation(UnmetExpectation::More { expected: 2 }),
        ToolFault::UnmetExpectation(UnmetExpectation::NoEnd),
        gap(5, u64::MAX),
        ToolFault::FeedMismatch(beyond),
        ToolFault::FeedMismatch(FeedMismatch::Late { number }),
        ToolFault::Write(error),
        ToolFault::OutOfMemory,
        ToolFault::Open { file, error },
    ];
    let lines = [
        "4 itchsnap: message 2: out of memory",
        "1 itchsnap: first: message 10000000000000000000: too many messages",
        "1 itchsnap: only 3 messages",
        "1 itchsnap: second: only 0 messages",
        "1 itchsnap: more than 2 messages",
        "1 itchsnap: no end of messages",
        "1 itchsnap: gap: message 5 is next, and the feed begins with 18446744073709551616",
        "1 itchsnap: snapshot: 4 messages, more than 3",
        "1 itchsnap: snapshot: message 2 is too late",
        "3 itchsnap: write failed",
        "4 itchsnap: out of memory",
        "3 itchsnap: cannot open",
    ];
    for (fault, line) in faults.iter().zip(lines.iter()) {
        is_told(&rt, fault, line)?;
    }
    same(&rt, status(&Err(ToolFault::Write(error))), 3);
    same(&rt, status(&Ok(true)), 0);
    same(&rt, status(&Ok(false)), 1);
    Ok(())
}

// Returns how a file of that many messages, with this last system event, differs from the expected one.
fn differs(
    rt: &impl Host,
    (count, end): (Option<u64>, bool),
    found: u64,
    event: Option<u8>,
    wanted: &str,
) -> TestResult {
    match (Expectations { count, end }).check(found, event) {
        Ok(()) => same(rt, "none", wanted),
        Err(fault) => is_told(rt, &fault, wanted)?,
    }
    Ok(())
}

#[test]
fn a_file_is_as_expected_or_not(rt: HostRuntime) -> TestResult {
    let no_end = "1 itchsnap: no end of messages";
    let less = "1 itchsnap: only 7 messages";
    let more = "1 itchsnap: more than 6 messages";
    for (expected, count, event, wanted) in [
        ((None, false), 0, None, "none"),
        ((None, true), 7, Some(b'C'), "none"),
        ((None, true), 7, Some(b'M'), no_end),
        ((None, true), 7, None, no_end),
        ((Some(7), false), 7, None, "none"),
        ((Some(7), true), 7, Some(b'C'), "none"),
        ((Some(8), false), 7, Some(b'C'), less),
        ((Some(6), false), 7, Some(b'C'), more),
        ((Some(6), true), 7, None, more),
        ((Some(7), true), 7, Some(b'E'), no_end),
    ] {
        differs(&rt, expected, count, event, wanted)?;
    }
    Ok(())
}

#[test]
fn want_of_memory_has_its_own_fault(rt: HostRuntime) {
    let refused = io::Error::from(io::ErrorKind::OutOfMemory);
    let missing = io::Error::from(io::ErrorKind::NotFound);
    let fault = system_fault(refused, ToolFault::Write(refused));
    assert!(rt; matches!(fault, ToolFault::OutOfMemory));
    let fault = system_fault(missing, ToolFault::Write(missing));
    assert!(rt; matches!(fault, ToolFault::Write(_)));
}

#[test]
fn faults_of_snapshots_have_their_lines_and_statuses(rt: HostRuntime) -> TestResult {
    let error = io::Error::from(io::ErrorKind::Other);
    let (place, reason) = (2, Refusal::OutOfMemory);
    let (seventh, bad) = (7, CodecFault::BadNumber);
    for (fault, status, words) in [
        (SnapFault::Frame(FrameFault::Read(error)), 3, "read failed"),
        (SnapFault::Rule { place, reason }, 4, "out of memory"),
        (
            SnapFault::Codec {
                place: seventh,
                fault: bad,
            },
            1,
            "message 7: bad number",
        ),
        (SnapFault::TooManyMessages, 1, "too many messages"),
    ] {
        for (file, before) in [(Source::Only, ""), (Source::Snapshot, "snapshot: ")] {
            let wanted = format!(in rt.alloc(); "{status} itchsnap: {before}{words}")?;
            is_told(&rt, &ToolFault::Snap { file, fault }, wanted.as_str())?;
        }
    }
    Ok(())
}

#[test]
fn a_feed_fits_to_a_snapshot_or_not(rt: HostRuntime) {
    let part = FeedPart {
        before: 4,
        limit: Limit::counted(Some(6)),
    };
    let cases = [
        (1, Some(FeedMismatch::Gap { next: 1, before: 4 })),
        (4, Some(FeedMismatch::Gap { next: 4, before: 4 })),
        (5, None),
        (7, None),
        (8, Some(FeedMismatch::Beyond { held: 7, wanted: 6 })),
    ];
    for (next, wanted) in cases {
        same_in(&rt, next, part.mismatch(next), wanted);
    }
    same(&rt, part.wanted(5).after, Some(2));
    same(&rt, part.wanted(7).after, Some(0));
    same(&rt, FeedPart::whole().mismatch(u64::MAX), None);
    same(&rt, FeedPart::whole().wanted(1), Limit::whole());
}

#[test]
fn the_nearest_checkpoint_is_not_beyond(rt: HostRuntime) {
    let at = |count, latest| DayCursor {
        count,
        offset: 100 * count,
        latest,
    };
    let after = |count| Limit::counted(Some(count));
    let before = |time| Limit {
        after: None,
        until: Some(time),
    };
    let cases = [
        (at(2, Some(5)), after(3), true),
        (at(3, Some(5)), after(3), true),
        (at(4, Some(5)), after(3), false),
        (at(1, Some(5)), after(3), false),
        (at(2, Some(5)), before(6), true),
        (at(2, Some(6)), before(6), false),
        (at(2, None), before(0), true),
    ];
    for (cursor, limit, wanted) in cases {
        same_in(&rt, cursor, cursor.is_nearer(&at(1, None), limit), wanted);
    }
    let read = |latest: Latest, limit| latest.cursor(2, 200, limit);
    let known = read(Latest::Known(Some(5)), before(6));
    same(&rt, known, Some(at(2, Some(5))));
    same(&rt, read(Latest::Known(None), before(6)), Some(at(2, None)));
    same(&rt, read(Latest::Unknown, before(6)), None);
    same(&rt, read(Latest::Unknown, after(3)), Some(at(2, None)));
    same(&rt, DayCursor::new().count, 0);
}
