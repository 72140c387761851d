//! Sessions served and fetched in memory, row by row.
use crate::equal::{Host, TestResult, same, same_in, same_words};
use crate::files::{gives, seq};
use crate::sessions::{
    FROM_1, FROM_3, LOGIN_1, LOGIN_3, fetch, fetch_fault, fetched, is_served_market, serve,
    serve_from, served_market,
};
use itch_book::{ListBook, OrderBook};
use itch_frame::{BlockReader, FrameFault};
use itch_market::Market;
use itch_soup::{Served, SoupFault, laws, write_data};
use test_doubles::days::Blocks;
use test_doubles::{FuseWriter, PieceReader};

// Logins for the message with this number: blank, in capitals and with the session name, after other packets, for another session, and with
// another password.
const LOGIN_0: &[u8] = b"\0\x2fLuser  secret                                 0";

const LOGIN_BLANK: &[u8] = b"\0\x2fLuser  secret                                  ";

const CAPITALS_3: &[u8] = b"\0\x2fLUSER  secret    ITCHSNAP                     3";

const LATE_6: &[u8] = b"\0\x01R\0\x01U\0\x01+\0\x2fLuser  secret                                 6";

const LOGIN_7: &[u8] = b"\0\x2fLuser  secret                                 7";

const OTHER_3: &[u8] = b"\0\x2fLuser  secret    OTHER                        3";

const WRONG_3: &[u8] = b"\0\x2fLuser  wrong                                  3";

// The answer to a login for the number after the last message.
const FROM_6: &[u8] = b"\0\x1fA  ITCHSNAP                   6\0\x01Z";

#[test]
fn the_laws_of_sessions() {
    laws::served_is_fetched();
    laws::one_wait();
    laws::some_wait();
    laws::one_fetch();
    laws::some_fetch();
    laws::waits_by_the_table();
}

// Checks the result of serving a login, in pieces of any length, and the bytes of the answer.
fn check_login<B: OrderBook>(
    rt: &impl Host,
    market: &Market<B>,
    input: &[u8],
    want: &Served,
    bytes: &[u8],
) -> TestResult {
    for piece in [1, 64] {
        let mut writer = FuseWriter::new(rt.alloc(), piece, None);
        let reader = PieceReader::new(input, piece, None);
        let served = serve_from(rt, reader, &mut writer, market)?;
        same_in(rt, input, &served.expect(rt, "an answer"), want);
        same(rt, writer.written(), bytes);
    }
    Ok(())
}

// Checks logins that are accepted from this message on. Packets before them have no effect, and the case of a user name does not count.
fn check_accepted<B: OrderBook>(rt: &impl Host, market: &Market<B>) -> TestResult {
    let rows: [(u64, u64, &[u8], &[&[u8]]); 3] = [
        (1, 5, FROM_1, &[LOGIN_1, LOGIN_0, LOGIN_BLANK]),
        (3, 3, FROM_3, &[LOGIN_3, CAPITALS_3]),
        (6, 0, FROM_6, &[LATE_6]),
    ];
    for (from, packets, answer, logins) in rows {
        let from = seq(rt, from);
        let want = Served::Accepted { from, packets };
        for login in logins {
            check_login(rt, market, login, &want, answer)?;
        }
    }
    Ok(())
}

// Checks other input before a login or in its place.
fn check_not_accepted<B: OrderBook>(rt: &impl Host, market: &Market<B>) -> TestResult {
    let rows: [(Served, &[u8], &[&[u8]]); 3] = [
        (Served::Rejected(b'S'), b"\0\x02JS", &[LOGIN_7, OTHER_3]),
        (Served::Rejected(b'A'), b"\0\x02JA", &[WRONG_3]),
        (
            Served::Left,
            b"",
            &[b"\0\x01O", b"\0\x01R\0\x01O", b"\0\x01R"],
        ),
    ];
    for (want, answer, inputs) in rows {
        for input in inputs {
            check_login(rt, market, input, &want, answer)?;
        }
    }
    Ok(())
}

#[test]
fn logins_are_served(rt: HostRuntime) -> TestResult {
    check_accepted(&rt, &served_market(rt.alloc())?)
}

#[test]
fn other_logins_are_not_served(rt: HostRuntime) -> TestResult {
    check_not_accepted(&rt, &served_market(rt.alloc())?)
}

// Checks that there is a fault with this text.
pub(super) fn same_text(rt: &impl Host, fault: Option<SoupFault>, want: &str) -> TestResult {
    same_words(rt, &fault.expect(rt, "a fault"), want)?;
    Ok(())
}

// Checks input with a fault, which is not answered.
fn check_faults<B: OrderBook>(rt: &impl Host, market: &Market<B>) -> TestResult {
    let rows: [(&[u8], &str); 5] = [
        (b"\0\0", "empty packet"),
        (b"\0\x01R\0\x01*", "unknown packet type 0x2a"),
        (b"\0\x01S", "packet S from the wrong side"),
        (b"\0\x01L", "wrong length for packet L: want 47, got 1"),
        (b"\0\x01R\0\x2fLuser", "truncated, 7 bytes held"),
    ];
    for (input, want) in rows {
        let mut writer = FuseWriter::new(rt.alloc(), 64, None);
        let reader = PieceReader::new(input, 5, None);
        let fault = serve_from(rt, reader, &mut writer, market)?.err();
        same(rt, writer.written(), b"".as_slice());
        same_text(rt, fault, want)?;
    }
    Ok(())
}

#[test]
fn faults_before_a_login_are_not_answered(rt: HostRuntime) -> TestResult {
    check_faults(&rt, &served_market(rt.alloc())?)
}

// Serves the login of this input, and checks the next block.
fn check_after_login<B: OrderBook>(
    rt: &impl Host,
    market: &Market<B>,
    input: &[u8],
    want: &[u8],
) -> TestResult {
    let mut reader = BlockReader::new(rt.alloc(), PieceReader::new(input, 64, None))?;
    let mut writer = FuseWriter::new(rt.alloc(), 64, None);
    serve(rt, &mut reader, &mut writer, market).expect(rt, "an answer");
    gives(rt, &mut reader, Some(want))?;
    Ok(())
}

#[test]
fn nothing_is_read_after_the_login(rt: HostRuntime) -> TestResult {
    let input = b"\0\x2fLuser  secret                                 3\0\x01O";
    let market = served_market(rt.alloc())?;
    check_after_login(&rt, &market, input, b"O")
}

// Checks that the served market is fetched from this reader.
fn check_fetched<B: OrderBook>(
    rt: &impl Host,
    memory: B::Alloc,
    reader: PieceReader<'_>,
) -> TestResult {
    match fetched::<B>(rt, memory, reader)? {
        Ok((found, next)) => is_served_market(rt, &found, next),
        Err(fault) => panic!(rt; "{fault}"),
    }
}

#[test]
fn answers_are_fetched(rt: HostRuntime) -> TestResult {
    for piece in [1, 64] {
        let reader = PieceReader::new(FROM_1, piece, None);
        check_fetched::<ListBook>(&rt, rt.alloc(), reader)?;
    }
    Ok(())
}

// Fetches a market, and checks the next block.
fn check_after_fetch<B: OrderBook>(
    rt: &impl Host,
    memory: B::Alloc,
    reader: &mut Blocks<'_>,
    writer: &mut FuseWriter,
    want: &[u8],
) -> Result<(), FrameFault> {
    match fetch::<B>(rt, memory, reader, writer) {
        Ok(_) => gives(rt, reader, Some(want)),
        Err(fault) => panic!(rt; "{fault}"),
    }
}

#[test]
fn nothing_is_read_after_the_end_of_snapshot(rt: HostRuntime) -> TestResult {
    let mut reader = BlockReader::new(rt.alloc(), PieceReader::new(FROM_1, 64, None))?;
    let mut writer = FuseWriter::new(rt.alloc(), 64, None);
    check_after_fetch::<ListBook>(&rt, rt.alloc(), &mut reader, &mut writer, b"Z")?;
    Ok(())
}

#[test]
fn other_answers_are_faults(rt: HostRuntime) -> TestResult {
    let fault = fetch_fault(&rt, PieceReader::new(FROM_3, 5, None))?;
    same_text(&rt, fault, "accepted from 3, not from 1")?;
    for row in [
        "\0\x02JA => login rejected with A",
        "\0\x1fA  ITCHSNAP                   1\0\x01Z => ended early",
        "\0\x01H\0\x01Z => ended early",
        "\0\x1fA  ITCHSNAP                   1 => ended early",
        "\0\x1fA  ITCHSNAP => truncated, 13 bytes held",
        "\0\x01S => packet S before the login was accepted",
        "\0\x01R => packet R from the wrong side",
        "\0\x1fA  ITCHSNAP                   1\0\x02JA => second login",
        "\0\x1fA  ITCHSNAP                   1\0\x14SD\0\x01\0\0\0\0\0\0\0\0\0\0\0\0\0\0\0\x01 => message 1: unknown reference",
    ] {
        let (input, want) = row.split_once(" => ").ok_or("two columns")?;
        let fault = fetch_fault(&rt, PieceReader::new(input.as_bytes(), 5, None))?;
        same_text(&rt, fault, want)?;
    }
    Ok(())
}

#[test]
fn data_is_written(rt: HostRuntime) -> TestResult {
    let mut writer = FuseWriter::new(rt.alloc(), 64, None);
    write_data(&mut writer, b"GG")?;
    write_data(&mut writer, b"")?;
    same(&rt, writer.written(), b"\0\x03SGG\0\x01S".as_slice());
    let longest = vec![in rt.alloc(); 7; 65_535]?;
    assert!(rt; matches!(write_data(&mut writer, &longest), Err(FrameFault::TooLong)));
    same(&rt, writer.written().len(), 8);
    write_data(&mut writer, &longest[1..])?;
    same(&rt, writer.written().len(), 8 + 65_537);
    Ok(())
}
