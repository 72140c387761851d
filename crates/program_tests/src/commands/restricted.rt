//! Lists of locates, and `snap` for the set of all.

use super::blocks::file;
use crate::equal::{TestResult, holds_in, same, same_in};
use itch_commands::read_locates;
use itch_commands::snap::snap;
use itch_frame::{CountedRead, CountedWrite};
use itch_market::LocateSet;
use std::alloc::Global;
use std::test::Fail;
use test_doubles::{FuseWriter, PieceReader, Refusing};

// Files, and their snapshots.
const ROWS: [&str; 16] = [
    " => END_1",
    "AAPL POSITION_ZZZZ HALT_X POSITION_ABCD HALT_Q RESUME_X => AAPL HALT_Q RESUME_X POSITION_ABCD POSITION_ZZZZ END_7",
    "START_STAMPED AAPL_STAMPED BUY_1_STAMPED => START AAPL BUY_1 END_4",
    "START_STAMPED AAPL_STAMPED BUY_1_STAMPED 0000deadbeef01 => START AAPL BUY_1 END_4",
    "MAX SELL_MAX => MAX SELL_MAX END_3",
    "AAPL BUY_1 BUY_2_HIGH BUY_3_OF_300 BUY_4_HIGH => AAPL BUY_2_HIGH BUY_4_HIGH BUY_1 BUY_3_OF_300 END_6",
    "AAPL BUY_2_HIGH BUY_4_HIGH BUY_1 BUY_3_OF_300 => AAPL BUY_2_HIGH BUY_4_HIGH BUY_1 BUY_3_OF_300 END_6",
    "AAPL TRADING_RESERVED_0 BUY_7_OF_300 EXECUTE_7 CANCEL_7 => AAPL TRADING BUY_7_OF_150 END_6",
    "AAPL_LATE TRADING_RESERVED_58 BUY_7_OF_150 => AAPL TRADING BUY_7_OF_150 END_4",
    "AAPL ATTRIBUTED_1 BUY_2_OF_200 REPLACE_1_BY_3 => AAPL BUY_2_OF_200 ATTRIBUTED_3 END_5",
    "AAPL BUY_1 EXECUTE_0 => AAPL BUY_1 END_4",
    "AAPL BUY_1 AAPL_LOT_200 => AAPL_LOT_200 BUY_1 END_4",
    "AAPL BROKEN => AAPL END_3",
    "AAPL BUY_1 EXECUTE_100 => AAPL END_4",
    "MSFT START AAPL UNRESTRICTED TRADING => START AAPL TRADING UNRESTRICTED MSFT END_6",
    "MSFT START AAPL UNRESTRICTED TRADING 0000ff => START AAPL TRADING UNRESTRICTED MSFT END_6",
];

// Returns whether the snapshot of this file for these locates is written; without a contract.
fn is_snapped<R: CountedRead + Drop, W: CountedWrite>(
    alloc: Global,
    only: &LocateSet<Global>,
    reader: R,
    out: &mut W,
) -> bool {
    matches!(snap(alloc, reader, None, Some(only), out), Ok(true))
}

#[test]
fn snap_of_all_locates_is_the_whole(rt: HostRuntime) -> TestResult {
    let alloc = rt.alloc();
    let all = LocateSet::all(alloc);
    for case in ROWS {
        let (day, wanted) = case.split_once(" => ").ok_or("two files")?;
        let day = file(alloc, day)?;
        let wanted = file(alloc, wanted)?;
        let reader = PieceReader::new(day.as_slice(), 7, None);
        let mut out = FuseWriter::new(alloc, 4096, None);
        holds_in(&rt, case, is_snapped(alloc, &all, reader, &mut out));
        same_in(&rt, case, out.written(), wanted.as_slice());
    }
    Ok(())
}

#[test]
fn lists_are_read(rt: HostRuntime) -> TestResult {
    let cases: [(&str, &[u16], u16); 5] = [
        ("1", &[1], 0),
        ("0", &[0], 1),
        ("1,2", &[1, 2], 3),
        ("65535,0,007", &[0, 7, 65535], 70),
        ("40,40", &[40], 4),
    ];
    for (text, contained, other) in cases {
        let set = read_locates(rt.alloc(), text)?;
        for locate in contained {
            holds_in(&rt, text, set.contains(*locate));
        }
        holds_in(&rt, text, !set.contains(other));
    }
    Ok(())
}

// Each allocation of reading a list is refused in turn.
#[test]
fn list_without_memory(rt: HostRuntime) -> TestResult {
    for nth in 0..64 {
        let refusing = Refusing::new(rt.alloc(), nth);
        let set = read_locates(
            &refusing,
            "1,2,3,4,5,6,7,8,9,10,11,12,13,14,15,16,17,18,19,20",
        );
        if !refusing.has_refused() {
            assert!(rt; nth >= 1);
            assert!(rt; set?.contains(20));
            return Ok(());
        }
        let fault = set.err().ok_or("a refusal")?;
        same(&rt, fault.status(), 4);
    }
    Err(Fail::from("more than 64 allocations"))
}
