//! The first bytes of a connection, before its login.
ghost use Rattle.std.specs.Prelude.{◌≡◌};
ghost use Rattle.itch_clients.specs.Openings.{opening_of};

/// The length of the longest packet that is read before a login. A login has 47 bytes.
const LONGEST: usize = 62;

/// The kinds of first bytes.
#[derive(Clone, Copy, Debug, PartialEq, Eq)]
pub enum FirstBytes {
    /// An incomplete packet: more bytes must arrive.
    Begun,
    /// A complete packet of this length, after two bytes of length.
    Packet(usize),
    /// The beginning of debug text or of unsequenced data, which is skipped: this many bytes in total.
    Passed(usize),
    /// The beginning of a packet that is longer than any of its type.
    Broken,
}

/// Returns the kind of the first bytes of a connection.
pub fn opening_of(bytes: &[u8]) -> FirstBytes
    ensures { result ≡ opening_of bytes.now }
{
    let [high, low, rest @ ..] = bytes else {
        return FirstBytes::Begun;
    };
    let length = usize::from(*high) * 256 + usize::from(*low);
    match rest.first() {
        _ if length <= rest.len() && length <= LONGEST => FirstBytes::Packet(length),
        Some(b'+' | b'U') if length > LONGEST => FirstBytes::Passed(length + 2),
        Some(_) if length > LONGEST => FirstBytes::Broken,
        _ => FirstBytes::Begun,
    }
}
