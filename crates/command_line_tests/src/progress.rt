//! The bytes that pass through a reader with progress reports.

use crate::equal::{TestResult, same, same_in};
use itchsnap_cli::input::{Amount, BlockCounter, ProgressLine, ProgressReader};
use std::io::Read;
use std::time::Duration;

#[test]
fn whole_messages_are_counted(rt: HostRuntime) -> TestResult {
    let mut tally = BlockCounter::new();
    tally.pass(b"\0\x02hi\0\x02");
    tally.pass(b"ho");
    assert_eq!(rt; tally.messages(), 2);
    Ok(())
}

#[test]
fn messages_are_counted_in_pieces(rt: HostRuntime) -> TestResult {
    let stream = [0, 2, 7, 7, 0, 0, 0, 1, 9, 1, 0];
    for length in 1..stream.len() {
        let mut tally = BlockCounter::new();
        for piece in stream.chunks(length) {
            tally.pass(piece);
        }
        same_in(&rt, ("in pieces of", length), tally.messages(), 3);
    }
    Ok(())
}

#[test]
fn a_progress_reader_reads_what_is_inside(rt: HostRuntime) -> TestResult {
    let stream = [0, 1, 9, 0];
    let progress = ProgressLine::begin(&rt);
    let mut reader = ProgressReader::new(&stream[..], progress.as_ref());
    let mut bytes = [0; 3];
    assert!(rt; matches!(reader.read(&mut bytes), Ok(3)));
    assert!(rt; bytes == [0, 1, 9]);
    assert!(rt; matches!(reader.read(&mut bytes), Ok(1)));
    assert!(rt; matches!(reader.read(&mut bytes), Ok(0)));
    Ok(())
}

#[test]
fn an_amount_has_its_line(rt: HostRuntime) -> TestResult {
    let alloc = rt.alloc();
    let amounts = [
        (67_108_864, 2_127_521, 1_300_000, None),
        (134_217_728, 1, 1_000_000, None),
        (67_108_864, 0, 100_000_000, None),
        (67_108_864, 7, 0, None),
        (67_108_864, 9, 2_000_000, Some(671_088_640)),
        (67_108_864, 9, 2_999_999, Some(201_326_592)),
        (67_108_864, 9, 1_000_000, Some(67_108_864)),
        // A file that has grown meanwhile.
        (67_108_864, 9, 1_000_000, Some(67_108_863)),
        (u64::MAX, 9, 1_000_000, Some(u64::MAX)),
        (0, 0, 0, Some(0)),
    ];
    let lines = [
        "67108864 bytes, 2127521 messages,    51 MB/s",
        "134217728 bytes, 1 messages,   134 MB/s",
        "67108864 bytes, 0 messages,     0 MB/s",
        "67108864 bytes, 7 messages, 67108864 MB/s",
        "67108864 bytes, 9 messages,    33 MB/s,  10 %, 18 s left",
        "67108864 bytes, 9 messages,    22 MB/s,  33 %, 5 s left",
        "67108864 bytes, 9 messages,    67 MB/s, 100 %, 0 s left",
        "67108864 bytes, 9 messages,    67 MB/s",
        "18446744073709551615 bytes, 9 messages, 18446744073709 MB/s, 100 %, 0 s left",
        "0 bytes, 0 messages,     0 MB/s,   0 %, 0 s left",
    ];
    for (amount, line) in amounts.iter().zip(lines.iter()) {
        let (bytes, messages, micros, total) = *amount;
        let elapsed = Duration::from_micros(micros);
        let amount = Amount {
            bytes,
            messages,
            elapsed,
            total,
        };
        same(&rt, format!(in alloc; "{amount}")?.as_str(), *line);
    }
    Ok(())
}
