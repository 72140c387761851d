//! The lengths of the message types.
ghost use Rattle.std.specs.Prelude.{◌≡◌, option_map};
ghost use Rattle.itch_codec.specs.Layouts.{layout_of};

/// Returns the length in bytes of a message with this first byte, if it is a type of the table.
pub(crate) fn size_of_type(kind: u8) -> Option<usize>
    ensures { result ≡ option_map (λ layout. layout.size) (layout_of kind) }
{
    let size = match kind {
        b'S' => 12,
        b'R' => 39,
        b'H' => 25,
        b'Y' => 20,
        b'h' => 21,
        b'L' => 26,
        b'A' => 36,
        b'F' => 40,
        b'E' => 31,
        b'C' => 36,
        b'X' => 23,
        b'D' => 19,
        b'U' => 35,
        b'P' => 44,
        b'Q' => 40,
        b'B' => 19,
        b'G' => 21,
        _ => return None,
    };
    Some(size)
}
