//! Parses packets from blocks.
ghost use Rattle.std.specs.Prelude.{◌≡◌, Some, Ok, IfOk, IfErr};
ghost use Rattle.itch_codec.specs.Fields.{Reads};
ghost use Rattle.itch_soup.specs.declared.packet.Packet.{Packet as PacketValue};
ghost use Rattle.itch_soup.specs.Packets.{PacketSpells, packet_fault};

use crate::fault::SoupFault;
use crate::origin::Origin;
use crate::packet::{LoginAccepted, LoginRequest, Packet};
use crate::packet_types::{sender_of_type, size_of_type};
use crate::payload::Payload;

/// Parses a packet from that side: the type byte and the bytes after it, without the length in front.
///
/// # Errors
///
/// The first fault that applies: no bytes, an unknown type, a type that only the other side sends, a length that is not the type's, and then
/// the fields in order.
pub fn parse_packet(block: &[u8], from: Origin) -> Result<Packet<'_>, SoupFault>
    ensures spelled { IfOk result (λ packet. PacketSpells packet block.entry.now from) }
    ensures only { (packet : PacketValue) → PacketSpells packet block.entry.now from → result ≡ Ok packet }
    ensures fault { IfErr result (λ fault. packet_fault block.entry.now from ≡ Some fault) }
{
    read(block, from)
}

// Returns the packet of the block, or the block's fault.
fn read(block: &[u8], from: Origin) -> Result<Packet<'_>, SoupFault>
    ensures { Reads (λ packet. PacketSpells packet block.entry.now from) (packet_fault block.entry.now from) result }
{
    let Some(&kind) = block.first() else {
        return Err(SoupFault::EmptyPacket);
    };
    let Some(sender) = sender_of_type(kind) else {
        return Err(SoupFault::UnknownType(kind));
    };
    if !sender.includes(from) {
        return Err(SoupFault::WrongSide(kind));
    }
    if let Some(want) = size_of_type(kind)
        && block.len() != want
    {
        return Err(SoupFault::WrongLength {
            kind,
            want,
            got: block.len(),
        });
    }
    match kind {
        b'+' => Ok(Packet::Debug(Payload::after_type(block))),
        b'A' => Ok(Packet::LoginAccepted(LoginAccepted::parse(block)?)),
        b'J' => Ok(Packet::LoginRejected { code: block[1] }),
        b'S' => Ok(Packet::SequencedData(Payload::after_type(block))),
        b'H' => Ok(Packet::ServerHeartbeat),
        b'Z' => Ok(Packet::EndOfSession),
        b'L' => Ok(Packet::LoginRequest(LoginRequest::parse(block)?)),
        b'U' => Ok(Packet::UnsequencedData(Payload::after_type(block))),
        b'R' => Ok(Packet::ClientHeartbeat),
        b'O' => Ok(Packet::LogoutRequest),
        _ => unreachable!(),
    }
}
