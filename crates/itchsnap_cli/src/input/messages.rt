//! Counts the messages in a stream of blocks that arrives in pieces.
ghost use Rattle.std.specs.Prelude.{◌≡◌, ℕ, List, [], ◌∷◌, ◌++◌};
ghost use Rattle.itchsnap_cli.specs.Tallies.{IsWholeAfter, IsAt, Reaches, Counts, CountsOn};

/// The place where a stream of blocks is cut, which is enough to find the end of its last block.
#[derive(Clone, Copy, Debug, PartialEq, Eq)]
pub enum BlockPosition {
    /// Between two blocks.
    Border,
    /// After the first of two length bytes, which is this one.
    Length(u8),
    /// Within a payload, with this many bytes still to come.
    Payload(u16),
}

impl BlockPosition {
    // Returns the place after one more byte.
    fn after(self, byte: u8) -> BlockPosition
        ensures { (bytes : List ℕ) → IsAt self bytes → Reaches result (bytes ++ byte ∷ []) }
    {
        match self {
            BlockPosition::Border => BlockPosition::Length(byte),
            BlockPosition::Length(high) => BlockPosition::in_payload(u16::from_be_bytes([
                high, byte,
            ])),
            BlockPosition::Payload(count) => BlockPosition::in_payload(count.saturating_sub(1)),
        }
    }

    // Returns the place in a payload with this many bytes still to come.
    fn in_payload(count: u16) -> BlockPosition
        ensures { (bytes : List ℕ) → IsWholeAfter count bytes → Reaches result bytes }
    {
        if count > 0 {
            BlockPosition::Payload(count)
        } else {
            BlockPosition::Border
        }
    }
}

/// Counts the complete blocks of a stream.
#[derive(Clone, Copy, Debug, PartialEq, Eq)]
pub struct BlockCounter {
    place: BlockPosition,
    messages: u64,
}

impl BlockCounter {
    /// Starts before any bytes.
    pub fn new() -> BlockCounter
        ensures { Counts result [] }
    {
        BlockCounter {
            place: BlockPosition::Border,
            messages: 0,
        }
    }

    /// Returns the number of complete blocks, capped at 2^64 - 1.
    pub fn messages(&self) -> u64
        ensures { result ≡ self.now.messages }
    {
        self.messages
    }

    /// Counts the next piece of the stream.
    pub fn pass(&mut self, piece: &[u8])
        ensures { CountsOn self.old piece.now self.new }
    {
        for byte in piece {
            self.step(*byte);
        }
    }

    fn step(&mut self, byte: u8)
        ensures { CountsOn self.old (byte ∷ []) self.new }
    {
        self.place = self.place.after(byte);
        if matches!(self.place, BlockPosition::Border) {
            self.messages = self.messages.saturating_add(1);
        }
    }
}
