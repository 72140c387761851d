//! Lines of messages, written out by hand.
use crate::equal::{Host, TestResult, same};
use itch_codec::{Message, Side, decode, line, show};
use std::alloc::{AllocError, Allocator, Global};
use test_doubles::Refusing;
use test_doubles::messages::{add, end, executed, made};

// The layout of each type: `t` is a byte of a text, `s` is the side, and a dot is a byte of a number or a code.
const LAYOUTS: [&str; 16] = [
    "S...........",
    "R..........tttttttt....................",
    "H..........tttttttt......",
    "Y..........tttttttt.",
    "h..........tttttttt..",
    "L..........tttttttttttt...",
    "A..................s....tttttttt....",
    "F..................s....tttttttt....tttt",
    "E..............................",
    "C...................................",
    "X......................",
    "D..................",
    "U..................................",
    "P..................s....tttttttt............",
    "Q..................tttttttt.............",
    "B..................",
];

// The messages of these layouts with the number 0: with zeros, blank texts, and to buy.
const LEAST: [&str; 16] = [
    "0 S 0 0 0 00\n",
    "0 R 0 0 0 [] 00 00 0 00 00 0000 00 00 00 00 00 0 00\n",
    "0 H 0 0 0 [] 00 00 00000000\n",
    "0 Y 0 0 0 [] 00\n",
    "0 h 0 0 0 [] 00 00\n",
    "0 L 0 0 0 [] [] 00 00 00\n",
    "0 A 0 0 0 0 B 0 [] 0.0000\n",
    "0 F 0 0 0 0 B 0 [] 0.0000 []\n",
    "0 E 0 0 0 0 0 0\n",
    "0 C 0 0 0 0 0 0 00 0.0000\n",
    "0 X 0 0 0 0 0\n",
    "0 D 0 0 0 0\n",
    "0 U 0 0 0 0 0 0 0.0000\n",
    "0 P 0 0 0 0 B 0 [] 0.0000 0\n",
    "0 Q 0 0 0 0 [] 0.0000 0 00\n",
    "0 B 0 0 0 0\n",
];

// The same with the greatest number, and each byte at its greatest value.
const GREATEST: [&str; 16] = [
    "18446744073709551615 S 65535 65535 281474976710655 ff\n",
    "18446744073709551615 R 65535 65535 281474976710655 [~~~~~~~~] ff ff 4294967295 ff ff ffff ff ff ff ff ff 4294967295 ff\n",
    "18446744073709551615 H 65535 65535 281474976710655 [~~~~~~~~] ff ff ffffffff\n",
    "18446744073709551615 Y 65535 65535 281474976710655 [~~~~~~~~] ff\n",
    "18446744073709551615 h 65535 65535 281474976710655 [~~~~~~~~] ff ff\n",
    "18446744073709551615 L 65535 65535 281474976710655 [~~~~] [~~~~~~~~] ff ff ff\n",
    "18446744073709551615 A 65535 65535 281474976710655 18446744073709551615 S 4294967295 [~~~~~~~~] 429496.7295\n",
    "18446744073709551615 F 65535 65535 281474976710655 18446744073709551615 S 4294967295 [~~~~~~~~] 429496.7295 [~~~~]\n",
    "18446744073709551615 E 65535 65535 281474976710655 18446744073709551615 4294967295 18446744073709551615\n",
    "18446744073709551615 C 65535 65535 281474976710655 18446744073709551615 4294967295 18446744073709551615 ff 429496.7295\n",
    "18446744073709551615 X 65535 65535 281474976710655 18446744073709551615 4294967295\n",
    "18446744073709551615 D 65535 65535 281474976710655 18446744073709551615\n",
    "18446744073709551615 U 65535 65535 281474976710655 18446744073709551615 18446744073709551615 4294967295 429496.7295\n",
    "18446744073709551615 P 65535 65535 281474976710655 18446744073709551615 S 4294967295 [~~~~~~~~] 429496.7295 18446744073709551615\n",
    "18446744073709551615 Q 65535 65535 281474976710655 18446744073709551615 [~~~~~~~~] 429496.7295 18446744073709551615 ff\n",
    "18446744073709551615 B 65535 65535 281474976710655 18446744073709551615\n",
];

// Returns a payload of this layout.
fn filled(
    alloc: Global,
    layout: &str,
    number: u8,
    text: u8,
    side: u8,
) -> Result<Vec<u8>, AllocError> {
    let mut payload = Vec::new(alloc);
    for cursor in layout.bytes() {
        payload.push(match cursor {
            b'.' => number,
            b't' => text,
            b's' => side,
            kind => kind,
        })?;
    }
    Ok(payload)
}

// Checks the line of a message, as a string in this memory.
fn has_line(rt: &impl Host, alloc: impl Allocator, number: u64, message: &Message<'_>, want: &str) {
    let text = line(alloc, number, message).expect(rt, "memory");
    same(rt, text.as_str(), want);
}

// Checks the line of a message, both in a fixed buffer and as a string.
fn shown(rt: &impl Host, number: u64, message: &Message<'_>, want: &str) {
    same(rt, show(number, message).as_str(), want);
    has_line(rt, rt.alloc(), number, message, want);
}

#[test]
fn smallest_values(rt: HostRuntime) -> TestResult {
    for (layout, want) in LAYOUTS.iter().zip(LEAST.iter()) {
        let payload = filled(rt.alloc(), layout, 0, b' ', b'B')?;
        shown(&rt, 0, &decode(&payload)?, want);
    }
    Ok(())
}

#[test]
fn largest_values(rt: HostRuntime) -> TestResult {
    for (layout, want) in LAYOUTS.iter().zip(GREATEST.iter()) {
        let payload = filled(rt.alloc(), layout, 0xff, b'~', b'S')?;
        shown(&rt, u64::MAX, &decode(&payload)?, want);
    }
    Ok(())
}

#[test]
fn ends_and_undecoded_messages(rt: HostRuntime) -> TestResult {
    shown(&rt, 5, made(&end(1))?, "5 G 1\n");
    let last = end(10_000_000_000_000_000_000);
    shown(&rt, 5, made(&last)?, "5 G 10000000000000000000\n");
    shown(&rt, 1, &decode(&[b'I'; 50])?, "1 other 49 50\n");
    shown(&rt, 2, &decode(b"z")?, "2 other 7a 1\n");
    Ok(())
}

#[test]
fn prices_and_texts(rt: HostRuntime) -> TestResult {
    for (price, stock, want) in [
        (1, "AAPL", "1 A 1 0 0 7 B 100 [AAPL] 0.0001\n"),
        (9_999, "AAPL", "1 A 1 0 0 7 B 100 [AAPL] 0.9999\n"),
        (10_000, "AAPL", "1 A 1 0 0 7 B 100 [AAPL] 1.0000\n"),
        (1_500_000, "AAPL", "1 A 1 0 0 7 B 100 [AAPL] 150.0000\n"),
        (12_345_678, "AAPL", "1 A 1 0 0 7 B 100 [AAPL] 1234.5678\n"),
        (1_500_000, " A B  ", "1 A 1 0 0 7 B 100 [ A B] 150.0000\n"),
    ] {
        let order = add(1, 7, Side::Buy, 100, stock, price);
        shown(&rt, 1, made(&order)?, want);
    }
    shown(&rt, 3, made(&executed(1, 1, 100))?, "3 E 1 0 0 1 100 1\n");
    Ok(())
}

// Returns whether there is memory for the line of a message.
fn can_be_shown(alloc: impl Allocator, number: u64, message: &Message<'_>) -> bool {
    line(alloc, number, message).is_ok()
}

#[test]
fn memory_refused(rt: HostRuntime) -> TestResult {
    let refusing = Refusing::new(rt.alloc(), 0);
    let order = add(1, 1, Side::Buy, 100, "AAPL", 1_500_000);
    let message = made(&order)?;
    assert!(rt; !can_be_shown(&refusing, 3, message));
    let want = "3 A 1 0 0 1 B 100 [AAPL] 150.0000\n";
    has_line(&rt, &refusing, 3, message, want);
    Ok(())
}
