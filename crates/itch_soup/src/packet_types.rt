//! The packet types: their senders and their lengths.
ghost use Rattle.std.specs.Prelude.{◌≡◌, option_map, option_and_then};
ghost use Rattle.itch_soup.specs.PacketTable.{type_of, sends};

use crate::origin::Origin;

/// The senders of packets of a type.
#[derive(Clone, Copy)]
pub(crate) enum Sender {
    Only(Origin),
    Either,
}

impl Sender {
    pub(crate) fn includes(self, side: Origin) -> bool
        ensures { result ≡ sends self side }
    {
        match (self, side) {
            (Sender::Either, _) => true,
            (Sender::Only(Origin::Client), Origin::Client) => true,
            (Sender::Only(Origin::Server), Origin::Server) => true,
            _ => false,
        }
    }
}

/// Returns the sender of packets with this type byte, if there is such a type.
pub(crate) fn sender_of_type(kind: u8) -> Option<Sender>
    ensures { result ≡ option_map (λ t. t.sender) (type_of kind) }
{
    match kind {
        b'+' | b'U' => Some(Sender::Either),
        b'A' | b'J' | b'S' | b'H' | b'Z' => Some(Sender::Only(Origin::Server)),
        b'L' | b'R' | b'O' => Some(Sender::Only(Origin::Client)),
        _ => None,
    }
}

/// Returns the number of bytes of a packet with this type byte, if its type has a fixed length.
pub(crate) fn size_of_type(kind: u8) -> Option<usize>
    ensures { result ≡ option_and_then (λ t. t.size) (type_of kind) }
{
    match kind {
        b'A' => Some(31),
        b'J' => Some(2),
        b'L' => Some(47),
        b'H' | b'Z' | b'R' | b'O' => Some(1),
        _ => None,
    }
}
