//! The write of each byte of each command's output fails: the bytes before it were written, and nothing after it. A run of the program does
//! not show that, since its output is buffered.
use super::blocks::file;
use super::cases::{
    CommandResult, DAY, Double, SNAPSHOT, Single, perform_double, perform_single, wanted,
};
use crate::equal::{Host, TestResult, holds_in, same_in};
use itch_commands::ToolFault;
use std::alloc::Global;
use std::test::Fail;
use test_doubles::FuseWriter;

// The write of this byte of the output failed.
fn is_cut(rt: &impl Host, at: usize, answer: CommandResult, written: &[u8], wanted: &[u8]) {
    let has_failed = matches!(answer, Err(ToolFault::Write(_)));
    holds_in(rt, ("write", at), has_failed);
    same_in(rt, ("write", at), Some(written), wanted.get(..at));
}

fn fail_single(rt: &impl Host, command: Single, bytes: &[u8]) -> TestResult {
    let wanted = wanted(rt.alloc(), command)?;
    for at in 0..wanted.len() {
        let mut out = FuseWriter::new(rt.alloc(), 1, Some((at as u64).saturating_add(1)));
        let answer = perform_single(command, rt.alloc(), bytes, &mut out);
        is_cut(rt, at, answer, out.written(), wanted.as_slice());
    }
    Ok(())
}

fn fail_double(rt: &impl Host, command: Double, files: (&[u8], &[u8]), wanted: &[u8]) {
    for at in 0..wanted.len() {
        let mut out = FuseWriter::new(rt.alloc(), 1, Some((at as u64).saturating_add(1)));
        let answer = perform_double(command, rt.alloc(), files, &mut out);
        is_cut(rt, at, answer, out.written(), wanted);
    }
}

// Returns the file for a command over one.
fn bytes_of(alloc: Global, command: Single) -> Result<Vec<u8>, Fail> {
    match command {
        Single::Canon | Single::CanonCheck | Single::ShowSnapshot => file(alloc, SNAPSHOT),
        _ => file(alloc, DAY),
    }
}

#[test]
fn writes_of_lines(rt: HostRuntime) -> TestResult {
    let alloc = rt.alloc();
    for command in [
        Single::Check,
        Single::CanonCheck,
        Single::Show,
        Single::ShowChosen,
        Single::ShowColumns,
        Single::ShowSnapshot,
        Single::ShowOrders,
        Single::Book,
        Single::BookLocates,
        Single::BookStocks,
    ] {
        let bytes = bytes_of(alloc, command)?;
        fail_single(&rt, command, bytes.as_slice())?;
    }
    let (day, other) = (file(alloc, DAY)?, file(alloc, "AAPL BUY_1")?);
    let files = (day.as_slice(), other.as_slice());
    fail_double(&rt, Double::Compare, files, b"different at 2\n");
    let after = b"different after 2\n";
    fail_double(&rt, Double::CompareFirst, files, after);
    Ok(())
}

#[test]
fn writes_of_blocks(rt: HostRuntime) -> TestResult {
    let alloc = rt.alloc();
    for command in [Single::Snap, Single::SnapStocks, Single::Canon, Single::Cut] {
        let bytes = bytes_of(alloc, command)?;
        fail_single(&rt, command, bytes.as_slice())?;
    }
    let snapshot = file(alloc, "AAPL ATTRIBUTED_1 END_3")?;
    let (day, wanted) = (file(alloc, DAY)?, file(alloc, SNAPSHOT)?);
    let files = (snapshot.as_slice(), day.as_slice());
    fail_double(&rt, Double::Join, files, wanted.as_slice());
    fail_double(&rt, Double::JoinStocks, files, wanted.as_slice());
    Ok(())
}
