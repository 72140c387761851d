//! Blocks that are not packets.
use crate::equal::{Host, TestResult, same_shown};
use itch_soup::{Origin, SoupFault, parse_packet};

// Checks that a block from this side has this fault.
fn is_fault(rt: &impl Host, from: Origin, block: &[u8], want: SoupFault) -> TestResult {
    let found = parse_packet(block, from).err().expect(rt, "a fault");
    same_shown(rt, block, &found, &want)?;
    Ok(())
}

// Login requests with a byte of the user name that is not printable, with a letter in the number, and with a number that is too great.
const UNPRINTABLE: &[u8] = b"L\0ser  secret                                 3";

const LETTER: &[u8] = b"Luser  secret                                 x";

const NINES: &[u8] = b"Luser  secret              99999999999999999999";

fn wrong_length(kind: u8, want: usize, got: usize) -> SoupFault {
    SoupFault::WrongLength { kind, want, got }
}

#[test]
fn from_a_client(rt: HostRuntime) -> TestResult {
    let rows: [(&[u8], SoupFault); 5] = [
        (b"", SoupFault::EmptyPacket),
        (b"*", SoupFault::UnknownType(42)),
        (b"S", SoupFault::WrongSide(83)),
        (b"L", wrong_length(b'L', 47, 1)),
        (b"RR", wrong_length(b'R', 1, 2)),
    ];
    for (block, fault) in rows {
        is_fault(&rt, Origin::Client, block, fault)?;
    }
    Ok(())
}

#[test]
fn logins_from_a_client(rt: HostRuntime) -> TestResult {
    for (login, fault) in [
        (UNPRINTABLE, SoupFault::BadText { offset: 1 }),
        (LETTER, SoupFault::BadNumber { offset: 27 }),
        (NINES, SoupFault::BadNumber { offset: 27 }),
    ] {
        is_fault(&rt, Origin::Client, login, fault)?;
    }
    Ok(())
}

#[test]
fn from_a_server(rt: HostRuntime) -> TestResult {
    let from = Origin::Server;
    is_fault(&rt, from, b"R", SoupFault::WrongSide(82))?;
    is_fault(&rt, from, b"J  ", wrong_length(b'J', 2, 3))?;
    let zero = b"A  ITCHSNAP                   0";
    is_fault(&rt, from, zero, SoupFault::BadNumber { offset: 11 })?;
    let tab = b"A\t ITCHSNAP                   x";
    is_fault(&rt, from, tab, SoupFault::BadText { offset: 1 })?;
    assert!(rt; parse_packet(b"UA", from).is_ok());
    Ok(())
}
