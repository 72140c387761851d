//! The reasons why a part of a day stops.

use itch_frame::FrameFault;

/// The reason why the next message of a day is not taken. That message is left in the reader.
#[derive(Drop)]
pub enum PartStop<F> {
    /// The requested number of messages was taken. Nothing after them was read.
    Full,
    /// The next message is at the time where the part ends, or later.
    Late,
    /// The messages end: the input ends, or the next block is empty.
    End,
    /// A read failed, or the input ends inside a block.
    Frame(FrameFault),
    /// There is a message after 10^19 - 1 others.
    TooMany,
    /// The sink refused the next message, or the next block is not a valid message.
    Refused(F),
}
