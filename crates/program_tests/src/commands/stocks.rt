//! Stocks that are looked up by their names.

use super::blocks::file;
use crate::equal::{TestResult, holds_in, same, same_in};
use itch_codec::Seq;
use itch_commands::{Book, FileKind, Limit, Source, ToolFault, file_market, stock_locates};
use itch_frame::BlockReader;
use itch_market::{LocateSet, Market};
use std::alloc::Allocator;
use std::test::Fail;
use test_doubles::{PieceReader, Refusing};

// Looks up the locates of the directory of a day file that have one of these stocks.
fn looked_up<A: Allocator + Copy>(
    alloc: A,
    day: &[u8],
    names: &str,
) -> Result<LocateSet<A>, ToolFault> {
    let mut reader = BlockReader::new(alloc, PieceReader::new(day, 64, None))?;
    let kind = FileKind::Day(Limit::whole());
    let (market, _): (Market<Book<A>>, Seq) = file_market(alloc, &mut reader, kind, Source::Only)?;
    stock_locates(alloc, &market, names)
}

#[test]
fn stocks_are_looked_up(rt: HostRuntime) -> TestResult {
    let alloc = rt.alloc();
    let day = file(alloc, "AAPL MSFT MAX AAPL_AT_3")?;
    let cases: [(&str, &[u16], &[u16]); 5] = [
        ("AAPL", &[1, 3], &[0, 2, 65535]),
        ("MSFT", &[2], &[1, 3]),
        ("MAX,MSFT", &[2, 65535], &[1, 3]),
        ("MSFT,AAPL,MAX", &[1, 2, 3, 65535], &[0, 4]),
        ("AAPL,AAPL", &[1, 3], &[2]),
    ];
    for (names, contained, others) in cases {
        let set = looked_up(alloc, day.as_slice(), names)?;
        for locate in contained {
            holds_in(&rt, names, set.contains(*locate));
        }
        for locate in others {
            holds_in(&rt, names, !set.contains(*locate));
        }
    }
    Ok(())
}

#[test]
fn other_names_are_unknown(rt: HostRuntime) -> TestResult {
    let alloc = rt.alloc();
    let day = file(alloc, "AAPL MSFT")?;
    for names in [
        "",
        ",",
        "AAPL,",
        ",AAPL",
        "AAP",
        "AAPLE",
        "aapl",
        "AAPL ",
        "AAPL    ",
        "AAPL     ",
        "MSFT,GOOG",
        "GOOG,MSFT",
        "AAPL;MSFT",
    ] {
        let fault = looked_up(alloc, day.as_slice(), names).err();
        let fault = fault.ok_or("a refusal")?;
        holds_in(&rt, names, matches!(fault, ToolFault::UnknownStock));
        same_in(&rt, names, fault.status(), 1);
        same_in(
            &rt,
            names,
            format!(in alloc; "{fault}")?.as_str(),
            "itchsnap: unknown stock",
        );
    }
    Ok(())
}

// Each allocation is refused in turn: of the file's blocks and market, and of the set.
#[test]
fn stocks_without_memory(rt: HostRuntime) -> TestResult {
    let alloc = rt.alloc();
    let day = file(alloc, "AAPL MSFT MAX")?;
    for nth in 0..64 {
        let refusing = Refusing::new(alloc, nth);
        let set = looked_up(&refusing, day.as_slice(), "MSFT,AAPL,MAX");
        if !refusing.has_refused() {
            assert!(rt; nth >= 3);
            assert!(rt; set?.contains(65535));
            return Ok(());
        }
        let fault = set.err().ok_or("a refusal")?;
        same(&rt, fault.status(), 4);
    }
    Err(Fail::from("more than 64 allocations"))
}
