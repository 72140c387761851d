//! Vectors of the public standard's layouts, in both directions, and behaviour that no contract states.
use crate::equal::{Host, TestResult, holds_in, same, same_words};
use itch_codec::{
    Alpha, AlphaFault, CodecFault, Encoder, Message, Seq, Side, Stamp, Undecoded, decode, encode,
    number20, read_number20,
};
use test_doubles::messages::*;

mod broken_input;
mod conversions;
mod json;
mod lines;
mod vectors;

use vectors::VECTORS;

// Checks that the message is encoded as these bytes, and decoded from them.
fn agree(rt: &impl Host, bytes: &[u8], message: &Message<'_>) {
    same(rt, encode(message).bytes(), bytes);
    same(rt, Encoder::new().encode(message), bytes);
    is_read(rt, bytes, Ok(message));
}

// Checks the result of decoding these bytes.
fn is_read(rt: &impl Host, bytes: &[u8], want: Result<&Message<'_>, &CodecFault>) {
    same(rt, decode(bytes).as_ref(), want);
}

#[test]
fn messages_of_each_type(rt: HostRuntime) -> TestResult {
    let messages = [
        event(b'O'),
        directory(1, "AAPL", 100),
        trading_action(1, "AAPL", b'T'),
        reg_sho(1, "AAPL", b'0'),
        halt(1, "AAPL", b'Q', b'H'),
        position(1, "ABCD", "AAPL", b'A'),
        add(1, 1, Side::Buy, 100, "AAPL", 1_500_000),
        add(u16::MAX, u64::MAX, Side::Sell, u32::MAX, "MAX", u32::MAX),
        attributed(3, 100, 1_500_000),
        executed(1, 1, 100),
        executed_with_price(1, 1, 100, 1_500_000),
        cancel(1, 1, 50),
        delete(1, 1),
        replace(1, 1, 4, 70, 1_500_000),
        trade(),
        cross_trade(),
        broken_trade(1, 1),
        end(4),
        Undecoded::new(VECTORS[18]).map(Message::Other),
    ];
    for (bytes, message) in VECTORS.iter().zip(messages.iter()) {
        agree(&rt, bytes, made(message)?);
    }
    is_read(&rt, b"G  0004              ", Ok(made(&end(4))?));
    Ok(())
}

#[test]
fn undecoded(rt: HostRuntime) {
    let bytes = VECTORS[18];
    let other = Undecoded::new(bytes).expect(&rt, "a type that is not decoded");
    same(&rt, (other.kind(), other.payload()), (b'N', bytes));
    for kind in b"SRHYhLAFECXDUPQBG" {
        holds_in(&rt, kind, Undecoded::new(&[*kind]).is_none());
    }
    assert!(rt; Undecoded::new(b"").is_none());
}

fn wrong_length(kind: u8, want: usize, got: usize) -> CodecFault {
    CodecFault::WrongLength { kind, want, got }
}

#[test]
fn faults(rt: HostRuntime) {
    let rows: [(&[u8], CodecFault); 12] = [
        (b"", CodecFault::Empty),
        (
            b"A\x00\x01\x00\x00\x00\x00\x00\x00\x00\x00\x00\x00\x00\x00\x00\x00\x00\x01B\x00\x00\x00dAAPL    \x00\x16\xe3",
            wrong_length(b'A', 36, 35),
        ),
        (
            b"A\x00\x01\x00\x00\x00\x00\x00\x00\x00\x00\x00\x00\x00\x00\x00\x00\x00\x01B\x00\x00\x00dAAPL    \x00\x16\xe3``",
            wrong_length(b'A', 36, 37),
        ),
        (
            b"R\x00\x01\x00\x00\x00\x00\x00\x00\x00\x00AAPL    QN\x00\x00\x00dNCZ PNN1N\x00\x00\x00\x00",
            wrong_length(b'R', 39, 38),
        ),
        (
            b"h\x00\x01\x00\x00\x00\x00\x00\x00\x00\x00AAPL    Q",
            wrong_length(b'h', 21, 20),
        ),
        (
            b"L\x00\x01\x00\x00\x00\x00\x00\x00\x00\x00AB\x7fDAAPL    NNA",
            CodecFault::BadText { offset: 13 },
        ),
        (
            b"A\x00\x01\x00\x00\x00\x00\x00\x00\x00\x00\x00\x00\x00\x00\x00\x00\x00\x01b\x00\x00\x00dAAPL    \x00\x16\xe3`",
            CodecFault::BadSide { offset: 19 },
        ),
        (
            b"A\x00\x01\x00\x00\x00\x00\x00\x00\x00\x00\x00\x00\x00\x00\x00\x00\x00\x01B\x00\x00\x00dAA\x7fL    \x00\x16\xe3`",
            CodecFault::BadText { offset: 26 },
        ),
        (
            b"A\x00\x01\x00\x00\x00\x00\x00\x00\x00\x00\x00\x00\x00\x00\x00\x00\x00\x01b\x00\x00\x00dAA\x7fL    \x00\x16\xe3`",
            CodecFault::BadSide { offset: 19 },
        ),
        (b"G                    ", CodecFault::BadNumber),
        (b"G                   0", CodecFault::BadNumber),
        (b"G10000000000000000001", CodecFault::BadNumber),
    ];
    for (bytes, fault) in rows {
        is_read(&rt, bytes, Err(&fault));
    }
}

// Checks that a text is converted to these bytes and back, or has this fault.
fn check_text(rt: &impl Host, text: &str, want: Result<&[u8; 4], AlphaFault>) {
    match (Alpha::<4>::from_text(text), want) {
        (Ok(alpha), Ok(bytes)) => {
            same(rt, alpha.bytes(), bytes);
            same(rt, alpha.text(), text);
            same(rt, Alpha::from_bytes(bytes), Ok(alpha));
        }
        (Err(fault), Err(want)) => same(rt, fault, want),
        _ => holds_in(rt, text, false),
    }
}

#[test]
fn texts(rt: HostRuntime) {
    let rows: [(&str, Result<&[u8; 4], AlphaFault>); 6] = [
        ("", Ok(b"    ")),
        ("AB", Ok(b"AB  ")),
        (" A~", Ok(b" A~ ")),
        ("ABCDE", Err(AlphaFault::TooLong)),
        ("A\x7f\n", Err(AlphaFault::NotPrintable { at: 1 })),
        ("\x7f\n\x7f\n\x7f", Err(AlphaFault::TooLong)),
    ];
    for (text, want) in rows {
        check_text(&rt, text, want);
    }
    let bad = Alpha::from_bytes(b"AB\x1f\x80");
    same(&rt, bad, Err(AlphaFault::NotPrintable { at: 2 }));
}

#[test]
fn numbers_are_written(rt: HostRuntime) {
    let written: [(u64, &[u8; 20]); 4] = [
        (0, b"                   0"),
        (7, b"                   7"),
        (10_000_000_000_000_000_000, b"10000000000000000000"),
        (u64::MAX, b"18446744073709551615"),
    ];
    for (number, field) in written {
        same(&rt, number20(number), *field);
    }
}

#[test]
fn numbers_are_read(rt: HostRuntime) {
    let read: [(&[u8; 20], Option<u64>); 9] = [
        (b"                   0", Some(0)),
        (b"00000000000000000012", Some(12)),
        (b"  012               ", Some(12)),
        (b"10000000000000000000", Some(10_000_000_000_000_000_000)),
        (b"10000000000000000001", None),
        (b"99999999999999999999", None),
        (b"                    ", None),
        (b"1 2                 ", None),
        (b"                  +1", None),
    ];
    for (field, number) in read {
        same(&rt, read_number20(field), number);
    }
}

#[test]
fn sequence_numbers_and_timestamps_have_limits(rt: HostRuntime) {
    same(&rt, Seq::new(0), None);
    same(&rt, Seq::new(10_000_000_000_000_000_001), None);
    same(
        &rt,
        Seq::new(10_000_000_000_000_000_000).map(Seq::value),
        Some(10_000_000_000_000_000_000),
    );
    same(&rt, Stamp::new(1 << 48), None);
    same(
        &rt,
        Stamp::new((1 << 48) - 1).map(Stamp::value),
        Some((1 << 48) - 1),
    );
}

#[test]
fn a_payload_with_a_header_has_a_timestamp(rt: HostRuntime) -> TestResult {
    let payload = b"D\0\x01\0\0\0\0\0\0\x01\x02";
    same(&rt, Stamp::of_payload(payload).map(Stamp::value), Some(258));
    same(&rt, Stamp::of_payload(&payload[..10]), None);
    Ok(())
}

#[test]
fn faults_have_words(rt: HostRuntime) -> TestResult {
    for (fault, text) in [
        (CodecFault::Empty, "empty message"),
        (
            wrong_length(b'R', 39, 38),
            "wrong length for R: want 39, got 38",
        ),
        (CodecFault::BadText { offset: 26 }, "bad text at 26"),
        (CodecFault::BadSide { offset: 19 }, "bad side at 19"),
        (CodecFault::BadNumber, "bad number"),
    ] {
        same_words(&rt, &fault, text)?;
    }
    same_words(&rt, &AlphaFault::TooLong, "the text is too long")?;
    same_words(
        &rt,
        &AlphaFault::NotPrintable { at: 3 },
        "byte 3 is not printable",
    )?;
    Ok(())
}
