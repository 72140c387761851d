//! The rest of a served session fetched in memory, row by row.
use super::served::same_text;
use crate::equal::{Host, TestResult, same};
use crate::files::gives;
use crate::sessions::{FROM_1, FROM_3, REST_3, fetch_third, third_fetched};
use itch_frame::BlockReader;
use test_doubles::{FuseWriter, PieceReader};

// Checks the blocks that this reader provides from the third message on.
fn check_rest(rt: &impl Host, reader: PieceReader<'_>, want: &[u8]) -> TestResult {
    match third_fetched(rt, rt.alloc(), reader)? {
        Ok(rest) => same(rt, rest.bytes(), want),
        Err(fault) => panic!(rt; "{fault}"),
    }
    Ok(())
}

#[test]
fn a_rest_is_fetched(rt: HostRuntime) -> TestResult {
    for piece in [1, 64] {
        check_rest(&rt, PieceReader::new(FROM_3, piece, None), REST_3)?;
    }
    Ok(())
}

// A nonexistent order is deleted, and a message of an undecoded type follows. Packets without an effect come between them, and nothing after
// the End of Snapshot is read.
#[test]
fn a_rest_follows_no_rule(rt: HostRuntime) -> TestResult {
    let answer = b"\0\x03+up\0\x1fA  ITCHSNAP                   3\
        \0\x14SD\0\x01\0\0\0\0\0\0\0\0\0\0\0\0\0\0\0\x01\0\x01H\0\x02Sx\
        \0\x16SG                   9\0\0";
    let want = b"\0\x13D\0\x01\0\0\0\0\0\0\0\0\0\0\0\0\0\0\0\x01\0\x01x\
        \0\x15G                   9";
    check_rest(&rt, PieceReader::new(answer, 7, None), want)
}

#[test]
fn nothing_is_read_after_the_end_of_a_rest(rt: HostRuntime) -> TestResult {
    let mut reader = BlockReader::new(rt.alloc(), PieceReader::new(FROM_3, 64, None))?;
    let mut writer = FuseWriter::new(rt.alloc(), 64, None);
    if let Err(fault) = fetch_third(&rt, rt.alloc(), &mut reader, &mut writer) {
        panic!(&rt; "{fault}");
    }
    gives(&rt, &mut reader, Some(b"Z"))?;
    Ok(())
}

#[test]
fn other_answers_to_a_third_are_faults(rt: HostRuntime) -> TestResult {
    let fault = third_fetched(&rt, rt.alloc(), PieceReader::new(FROM_1, 5, None))?.err();
    same_text(&rt, fault, "accepted from 1, not from 3")?;
    for row in [
        "\0\x02JS => login rejected with S",
        "\0\x1fA  ITCHSNAP                   3\0\x01Z => ended early",
        "\0\x1fA  ITCHSNAP                   3 => ended early",
        "\0\x1fA  ITCHSNAP => truncated, 13 bytes held",
        "\0\x02SG => packet S before the login was accepted",
        "\0\x1fA  ITCHSNAP                   3\0\x03SGG => message 3: wrong length for G: want 21, got 2",
        "\0\x1fA  ITCHSNAP                   3\0\x02Sx\0\x01S => message 4: empty message",
    ] {
        let (input, want) = row.split_once(" => ").ok_or("two columns")?;
        let reader = PieceReader::new(input.as_bytes(), 5, None);
        same_text(&rt, third_fetched(&rt, rt.alloc(), reader)?.err(), want)?;
    }
    Ok(())
}
