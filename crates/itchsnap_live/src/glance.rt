//! Finds the timestamp of each message of a feed in the pieces of its packets.

use arrayvec::ArrayVec;
use itch_codec::Stamp;

/// The length of the head of a packet with a message: its length, its type, and the message up to its timestamp.
const HEAD: usize = 14;

/// The number of bytes before the message.
const BEFORE: usize = 3;

/// The head of the latest packet, as far as it has arrived.
#[derive(Drop)]
pub(crate) struct Glance {
    head: ArrayVec<u8, HEAD>,
    // The number of bytes of the packet that have arrived.
    count: usize,
}

impl Glance {
    /// Creates one before the first packet.
    pub(crate) fn new() -> Glance {
        Glance {
            head: ArrayVec::new(),
            count: 0,
        }
    }

    /// Reads bytes of one packet. If the last packet is complete, they belong to the next one.
    pub(crate) fn read(&mut self, bytes: &[u8]) {
        if self.is_complete() {
            self.clear();
        }
        let here = bytes.len().min(self.head.remaining_capacity());
        let _ = self.head.try_extend_from_slice(&bytes[..here]);
        self.count = self.count.saturating_add(bytes.len());
    }

    fn is_complete(&self) -> bool {
        match self.head.as_slice() {
            [high, low, ..] => self.count >= usize::from(*high) * 256 + usize::from(*low) + 2,
            _ => false,
        }
    }

    /// Returns the timestamp of the message in the packet, in nanoseconds since midnight, if it has one.
    pub(crate) fn stamp(&self) -> Option<u64> {
        let message = self.head.as_slice().get(BEFORE..)?;
        Some(Stamp::of_payload(message)?.value())
    }

    /// Forgets the packet.
    pub(crate) fn clear(&mut self) {
        self.head.clear();
        self.count = 0;
    }
}
