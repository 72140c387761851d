//! Pieces of text, built in place.
ghost use Rattle.std.specs.Prelude.{◌≡◌, ◌+◌, ◌*◌, ◌≤◌, ◌++◌, length, decimal};
ghost use Rattle.std.specs.List.{flat_map};
ghost use Rattle.arrayvec.specs.ArrayVec.{array_vec_len};
ghost use Rattle.itch_status.specs.Texts.{digit, escaped, html_escaped, nanoseconds, thousandths};

use arrayvec::ArrayVec;
use itoa::Buffer;

/// Appends bytes to a line that has room for them.
pub(crate) fn push<const N: usize>(line: &mut ArrayVec<u8, N>, bytes: &[u8])
    requires { array_vec_len line.old + length bytes.now ≤ N }
    ensures items { line.new.items ≡ line.old.items ++ bytes.now }
    ensures len { array_vec_len line.new ≡ array_vec_len line.old + length bytes.now }
{
    line.try_extend_from_slice(bytes).unwrap();
}

/// Appends a number in decimal digits, at most twenty.
pub(crate) fn push_number<const N: usize>(line: &mut ArrayVec<u8, N>, number: u64)
    requires { array_vec_len line.old + 20 ≤ N }
    ensures items { line.new.items ≡ line.old.items ++ decimal number }
    ensures len { array_vec_len line.new ≤ array_vec_len line.old + 20 }
{
    push(line, Buffer::new().format(number).as_bytes());
}

/// Appends a number of thousandths with its three decimals.
pub(crate) fn push_thousandths<const N: usize>(line: &mut ArrayVec<u8, N>, number: u64)
    requires { array_vec_len line.old + 24 ≤ N }
    ensures items { line.new.items ≡ line.old.items ++ thousandths number }
    ensures len { array_vec_len line.new ≤ array_vec_len line.old + 24 }
{
    push_number(line, number / 1_000);
    push(
        line,
        &[b'.', digit(number / 100), digit(number / 10), digit(number)],
    );
}

/// Appends nanoseconds as seconds with nine decimals.
pub(crate) fn push_nanoseconds<const N: usize>(line: &mut ArrayVec<u8, N>, number: u64)
    requires { array_vec_len line.old + 30 ≤ N }
    ensures items { line.new.items ≡ line.old.items ++ nanoseconds number }
    ensures len { array_vec_len line.new ≤ array_vec_len line.old + 30 }
{
    push_number(line, number / 1_000_000_000);
    push(
        line,
        &[
            b'.',
            digit(number / 100_000_000),
            digit(number / 10_000_000),
            digit(number / 1_000_000),
            digit(number / 100_000),
            digit(number / 10_000),
            digit(number / 1_000),
            digit(number / 100),
            digit(number / 10),
            digit(number),
        ],
    );
}

/// Returns the last decimal digit of a number.
pub(crate) fn digit(number: u64) -> u8
    ensures { result ≡ digit number }
{
    b'0' + (number % 10) as u8
}

/// Appends bytes, with a backslash before each quotation mark and each backslash.
pub(crate) fn push_escaped<const N: usize>(line: &mut ArrayVec<u8, N>, bytes: &[u8])
    requires { array_vec_len line.old + 2 * length bytes.now ≤ N }
    ensures items { line.new.items ≡ line.old.items ++ flat_map escaped bytes.now }
    ensures len { array_vec_len line.new ≤ array_vec_len line.old + 2 * length bytes.now }
{
    for &byte in bytes {
        push_escaped_byte(line, byte);
    }
}

fn push_escaped_byte<const N: usize>(line: &mut ArrayVec<u8, N>, byte: u8)
    requires { array_vec_len line.old + 2 ≤ N }
    ensures items { line.new.items ≡ line.old.items ++ escaped byte }
    ensures len { array_vec_len line.new ≤ array_vec_len line.old + 2 }
{
    if byte == b'"' || byte == b'\\' {
        push(line, &[b'\\', byte]);
    } else {
        push(line, &[byte]);
    }
}

/// Appends bytes as the text of an HTML document.
pub(crate) fn push_html<const N: usize>(line: &mut ArrayVec<u8, N>, bytes: &[u8])
    requires { array_vec_len line.old + 5 * length bytes.now ≤ N }
    ensures items { line.new.items ≡ line.old.items ++ flat_map html_escaped bytes.now }
    ensures len { array_vec_len line.new ≤ array_vec_len line.old + 5 * length bytes.now }
{
    for &byte in bytes {
        push_html_byte(line, byte);
    }
}

fn push_html_byte<const N: usize>(line: &mut ArrayVec<u8, N>, byte: u8)
    requires { array_vec_len line.old + 5 ≤ N }
    ensures items { line.new.items ≡ line.old.items ++ html_escaped byte }
    ensures len { array_vec_len line.new ≤ array_vec_len line.old + 5 }
{
    match byte {
        b'&' => push(line, b"&amp;"),
        b'<' => push(line, b"&lt;"),
        b'>' => push(line, b"&gt;"),
        _ => push(line, &[byte]),
    }
}
