//! Broken logins: each prefix of a login, each of its bytes at each value, and packets before it.
use crate::equal::{Host, TestResult, same, same_shown};
use crate::files::seq;
use crate::sessions::{FROM_3, LOGIN_3, serve_from, served_market};
use itch_book::OrderBook;
use itch_frame::FrameFault;
use itch_market::Market;
use itch_soup::{Served, SoupFault};
use std::alloc::{AllocError, Global};
use test_doubles::{FuseWriter, PieceReader};

// Checks that a server with five messages gives this result for these bytes. Only the answer to a login is written.
fn is_answered<B: OrderBook>(
    rt: &impl Host,
    market: &Market<B>,
    input: &[u8],
    want: &Result<Served, SoupFault>,
) -> TestResult {
    let mut writer = FuseWriter::new(rt.alloc(), 64, None);
    let reader = PieceReader::new(input, 64, None);
    let served = serve_from(rt, reader, &mut writer, market)?;
    let is_silent = !matches!(served, Ok(Served::Accepted { .. } | Served::Rejected(_)));
    same(rt, writer.written().is_empty(), is_silent);
    same_shown(rt, input, &served, want)?;
    Ok(())
}

fn accepted(rt: &impl Host, from: u64) -> Result<Served, SoupFault> {
    Ok(Served::Accepted {
        from: seq(rt, from),
        packets: 6u64.saturating_sub(from),
    })
}

fn truncated(held: usize) -> Result<Served, SoupFault> {
    Err(SoupFault::Frame(FrameFault::Truncated { held }))
}

// Returns the result for a login of which only this many bytes arrive.
fn cut(rt: &impl Host, len: usize) -> Result<Served, SoupFault> {
    if len == 0 {
        Ok(Served::Left)
    } else if len < LOGIN_3.len() {
        truncated(len)
    } else {
        accepted(rt, 3)
    }
}

fn check_beginnings<B: OrderBook>(rt: &impl Host, market: &Market<B>) -> TestResult {
    for len in 0..=LOGIN_3.len() {
        is_answered(rt, market, &LOGIN_3[..len], &cut(rt, len))?;
    }
    Ok(())
}

#[test]
fn each_beginning_of_a_login(rt: HostRuntime) -> TestResult {
    check_beginnings(&rt, &served_market(rt.alloc())?)
}

// Returns the result for a login with another length: with fewer bytes it is not a login, and no more bytes arrive.
fn of_length(byte: u8) -> Result<Served, SoupFault> {
    match byte {
        0 => Err(SoupFault::EmptyPacket),
        1..47 => Err(SoupFault::WrongLength {
            kind: b'L',
            want: 47,
            got: usize::from(byte),
        }),
        _ => truncated(LOGIN_3.len()),
    }
}

// Returns the result for a packet of 47 bytes of this type.
fn of_type(byte: u8) -> Result<Served, SoupFault> {
    match byte {
        b'+' | b'U' => Ok(Served::Left),
        b'O' | b'R' => Err(SoupFault::WrongLength {
            kind: byte,
            want: 1,
            got: 47,
        }),
        b'A' | b'J' | b'S' | b'H' | b'Z' => Err(SoupFault::WrongSide(byte)),
        _ => Err(SoupFault::UnknownType(byte)),
    }
}

// Returns the result for a login with another byte at this place of a text. The names do not match then, except if only the case of a letter
// differs.
fn of_text(
    rt: &impl Host,
    offset: usize,
    byte: u8,
    own: u8,
    code: u8,
) -> Result<Served, SoupFault> {
    if !matches!(byte, b' '..=b'~') {
        Err(SoupFault::BadText { offset })
    } else if code == b'A' && byte.eq_ignore_ascii_case(&own) {
        accepted(rt, 3)
    } else {
        Ok(Served::Rejected(code))
    }
}

// Returns the result for a login that asks for a number with these last two digits, which may be blank.
fn of_number(rt: &impl Host, tens: u8, ones: u8) -> Result<Served, SoupFault> {
    match (tens, ones) {
        (b' ', b' ') | (b' ' | b'0', b'0') => accepted(rt, 1),
        (b' ' | b'0', b'1'..=b'6') => accepted(rt, u64::from(ones - b'0')),
        (b' ' | b'0'..=b'9', b'0'..=b'9') => Ok(Served::Rejected(b'S')),
        _ => Err(SoupFault::BadNumber { offset: 27 }),
    }
}

// Returns the result for a login with another byte at this place, counted with the length.
fn wanted(rt: &impl Host, at: usize, byte: u8, own: u8) -> Result<Served, SoupFault> {
    match at {
        0 => truncated(LOGIN_3.len()),
        1 => of_length(byte),
        2 => of_type(byte),
        3..19 => of_text(rt, at - 2, byte, own, b'A'),
        19..29 => of_text(rt, at - 2, byte, own, b'S'),
        // Before and after the digits only spaces are valid.
        29..47 => Err(SoupFault::BadNumber { offset: 27 }),
        47 => of_number(rt, byte, b'3'),
        _ => of_number(rt, b' ', byte),
    }
}

// Checks the result of the login with each other byte at this place.
fn check_byte<B: OrderBook>(rt: &impl Host, market: &Market<B>, at: usize) -> TestResult {
    assert!(rt; at < 49);
    let mut login = [0; 49];
    login.copy_from_slice(LOGIN_3);
    let own = login[at];
    for byte in 0..=255u8 {
        if byte != own {
            login[at] = byte;
            is_answered(rt, market, &login, &wanted(rt, at, byte, own))?;
        }
    }
    Ok(())
}

fn check_bytes<B: OrderBook>(rt: &impl Host, market: &Market<B>) -> TestResult {
    for at in 0..49 {
        check_byte(rt, market, at)?;
    }
    Ok(())
}

#[test]
fn each_byte_of_a_login(rt: HostRuntime) -> TestResult {
    check_bytes(&rt, &served_market(rt.alloc())?)
}

// Returns ten thousand debug packets, followed by these bytes.
fn after_debug_packets(alloc: Global, rest: &[u8]) -> Result<Vec<u8>, AllocError> {
    let mut input = Vec::new(alloc);
    for _packet in 0..10_000 {
        input.extend_from_slice(b"\0\x03+up")?;
    }
    input.extend_from_slice(rest)?;
    Ok(input)
}

// Checks packets that a server ignores.
fn check_debug_packets<B: OrderBook>(rt: &impl Host, market: &Market<B>) -> TestResult {
    for (rest, want) in [(b"" as &[u8], Ok(Served::Left)), (LOGIN_3, accepted(rt, 3))] {
        let input = after_debug_packets(rt.alloc(), rest)?;
        is_answered(rt, market, &input, &want)?;
    }
    Ok(())
}

#[test]
fn ten_thousand_debug_packets_before_a_login(rt: HostRuntime) -> TestResult {
    check_debug_packets(&rt, &served_market(rt.alloc())?)
}

// Checks the answer to a login whose bytes arrive one at a time.
fn is_answered_in_pieces<B: OrderBook>(rt: &impl Host, market: &Market<B>) -> TestResult {
    let mut writer = FuseWriter::new(rt.alloc(), 1, None);
    let reader = PieceReader::new(LOGIN_3, 1, None);
    serve_from(rt, reader, &mut writer, market)?.expect(rt, "an answer");
    same(rt, writer.written(), FROM_3);
    Ok(())
}

#[test]
fn a_login_in_pieces_of_one_byte(rt: HostRuntime) -> TestResult {
    is_answered_in_pieces(&rt, &served_market(rt.alloc())?)
}
