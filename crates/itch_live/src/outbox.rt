//! Bytes that wait for a client's socket.
ghost use Rattle.std.specs.Prelude.{◌≡◌, ◌+◌, ◌<◌, ◌≤◌, ◌++◌, [], drop, length, vec_len, vec_capacity, IfOk};
ghost use Rattle.itch_frame.specs.Blocks.{block};
ghost use Rattle.itch_soup.specs.declared.packet.Packet.TheVariants as is;
ghost use Rattle.itch_soup.specs.Packets.{packet_spelling};
ghost use Rattle.itch_live.specs.Players as players;

use byteorder::{BigEndian, ByteOrder};
use std::alloc::{AllocError, Allocator};
use std::marker::Model;

/// An outbox with at most this many bytes has room for any packet.
const HALF: usize = 65_536;

/// The capacity of an outbox: the bytes above, the longest packet of 65,537 bytes, and the end of a session.
const ROOM: usize = 131_076;

/// Bytes that wait for a client's socket, in memory that is allocated once.
#[derive(Drop)]
pub(crate) struct Outbox<A: Allocator> {
    bytes: Vec<u8, A>,
}

impl<A: Allocator> Model for Outbox<A> {
    ghost use Rattle.std.specs.Prelude.{ℕ, List, ◌≤◌, vec_capacity};

    ghost Value = { List ℕ };

    ghost view = { λ o. o.bytes.items };

    ghost invariant = { λ o. 131076 ≤ vec_capacity o.bytes };
}

impl<A: Allocator> Outbox<A> {
    /// Creates an empty outbox. It allocates all its memory here: at least 131,076 bytes.
    pub(crate) fn new(alloc: A) -> Result<Outbox<A>, AllocError>
        ensures { IfOk result (λ o. o ≡ []) }
    {
        Ok(Outbox {
            bytes: Vec::with_capacity(alloc, ROOM)?,
        })
    }

    /// Returns whether there is room for any packet.
    pub(crate) fn has_room(&self) -> bool
        ensures { result ≡ players.has_room self.now }
    {
        self.bytes.len() <= HALF
    }

    pub(crate) fn is_empty(&self) -> bool
        ensures { result ≡ players.is_empty self.now }
    {
        self.bytes.is_empty()
    }

    pub(crate) fn bytes(&self) -> &[u8]
        ensures { result.now ≡ self.now }
    {
        self.bytes.as_slice()
    }

    /// Drops all bytes.
    pub(crate) fn clear(&mut self)
        ensures { self.new ≡ [] }
    {
        self.bytes.clear();
    }

    /// Appends the block of a packet.
    pub(crate) fn push(&mut self, packet: &[u8])
        requires fits { length packet.now < 65536 }
        requires room { length self.old + (2 + length packet.now) ≤ 131076 }
        ensures { self.new ≡ self.old ++ block packet.now }
    {
        let mut header = [0u8; 2];
        BigEndian::write_u16(&mut header, packet.len() as u16);
        append(&mut self.bytes, &header);
        append(&mut self.bytes, packet);
    }

    /// Appends the sequenced data packet of a message.
    pub(crate) fn push_message(&mut self, message: &[u8])
        requires fits { length message.now < 65535 }
        requires room { length self.old + (3 + length message.now) ≤ 131076 }
        ensures { self.new ≡ self.old ++ block (packet_spelling (is.SequencedData message.now)) }
    {
        let mut header = [b'S'; 3];
        BigEndian::write_u16(&mut header[..2], (message.len() + 1) as u16);
        append(&mut self.bytes, &header);
        append(&mut self.bytes, message);
    }

    /// Drops the first `count` bytes.
    pub(crate) fn took(&mut self, count: usize)
        requires { count ≤ length self.old }
        ensures { self.new ≡ drop count self.old }
    {
        remove_front(&mut self.bytes, count);
    }
}

// Appends bytes for which there is room.
pub(crate) fn append<A: Allocator>(bytes: &mut Vec<u8, A>, part: &[u8])
    requires { vec_len bytes.old + length part.now ≤ vec_capacity bytes.old }
    ensures items { bytes.new.items ≡ bytes.old.items ++ part.now }
    ensures capacity { vec_capacity bytes.old ≤ vec_capacity bytes.new }
{
    bytes.extend_from_slice(part).unwrap();
}

// Moves the bytes after the first `count` to the front.
fn remove_front<A: Allocator>(bytes: &mut Vec<u8, A>, count: usize)
    requires { count ≤ vec_len bytes.old }
    ensures items { bytes.new.items ≡ drop count bytes.old.items }
    ensures capacity { vec_capacity bytes.new ≡ vec_capacity bytes.old }
{
    let len = bytes.len();
    bytes.as_mut_slice().copy_within(count..len, 0);
    bytes.truncate(len - count);
}
