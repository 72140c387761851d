//! A packet that waits for a socket.
ghost use Rattle.std.specs.Prelude.{◌≡◌, ◌+◌, ◌++◌, ◌≤◌, [], length, drop};
ghost use Rattle.arrayvec.specs.ArrayVec.{array_vec_len};
ghost use Rattle.itch_frame.specs.Blocks.{block};
ghost use Rattle.itch_live.specs.SnapshotClients as clients;

use arrayvec::ArrayVec;
use byteorder::{BigEndian, ByteOrder};
use std::marker::Model;

/// The longest packet is a login: 47 bytes, after two bytes of length.
const LONGEST: usize = 49;

/// A packet that waits for a socket, with its two bytes of length: a login, the answer to one, or a heartbeat. It is empty once the socket
/// has accepted all of it.
#[derive(Drop)]
pub struct PendingPacket {
    bytes: ArrayVec<u8, LONGEST>,
    sent: usize,
}

impl Model for PendingPacket {
    ghost use Rattle.std.specs.Prelude.{ℕ, ◌≤◌, List, drop};
    ghost use Rattle.arrayvec.specs.ArrayVec.{array_vec_len};

    ghost Value = { List ℕ };

    ghost view = { λ n. drop n.sent n.bytes.items };

    ghost invariant = { λ n. (n.sent ≤ array_vec_len n.bytes) × (array_vec_len n.bytes ≤ 49) };
}

impl PendingPacket {
    /// Creates an empty one.
    pub fn none() -> PendingPacket
        ensures { result ≡ [] }
    {
        PendingPacket {
            bytes: ArrayVec::new(),
            sent: 0,
        }
    }

    /// Creates one with this packet, which is passed without its length.
    pub fn of(packet: &[u8]) -> PendingPacket
        requires { length packet.now ≤ 47 }
        ensures { result ≡ block packet.now }
    {
        let mut header = [0u8; 2];
        BigEndian::write_u16(&mut header, packet.len() as u16);
        let mut bytes = ArrayVec::new();
        push(&mut bytes, &header);
        push(&mut bytes, packet);
        PendingPacket { bytes, sent: 0 }
    }

    /// Returns whether no bytes wait.
    pub fn is_empty(&self) -> bool
        ensures { result ≡ clients.is_none self.now }
    {
        self.bytes().is_empty()
    }

    /// Returns the bytes still to be written.
    pub fn bytes(&self) -> &[u8]
        ensures { result.now ≡ self.now }
    {
        &self.bytes[self.sent..]
    }

    /// Records that the socket accepted the first `count` of these bytes.
    pub fn took(&mut self, count: usize)
        requires { count ≤ length self.old }
        ensures { self.new ≡ drop count self.old }
    {
        self.sent += count;
    }
}

// Appends bytes for which there is room.
fn push(bytes: &mut ArrayVec<u8, LONGEST>, part: &[u8])
    requires { array_vec_len bytes.old + length part.now ≤ 49 }
    ensures { bytes.new.items ≡ bytes.old.items ++ part.now }
{
    bytes.try_extend_from_slice(part).unwrap();
}
