//! Passes over messages and only counts them.
ghost use Rattle.itch_frame.specs.Passing.{PassesAtHand, PassesMessage, PassesMessages};

use crate::counted::CountedRead;
use crate::fault::FrameFault;
use crate::reader::BlockReader;
use std::alloc::Allocator;

// The part of the bytes in memory that was passed.
#[derive(Clone, Copy)]
enum AtHand {
    // A message.
    Message,
    // An empty block, which ends the messages.
    End,
    // Nothing: there is no complete block in memory.
    Nothing,
}

impl<R: CountedRead, A: Allocator> BlockReader<R, A> {
    /// Passes over at most `most` messages. Returns their number, and true if it is `most`, or false if the messages end after them.
    ///
    /// The messages end, and the faults occur, as for [`BlockReader::next_message`].
    pub fn pass_messages(&mut self, most: u64) -> (u64, Result<bool, FrameFault>)
        ensures { PassesMessages R.remaining R.failures most self.old result.0 result.1 self.new }
    {
        for count in 0..most {
            match pass_at_hand(self) {
                AtHand::Message => {}
                AtHand::End => return (count, Ok(false)),
                AtHand::Nothing => match pass_message(self) {
                    Ok(true) => {}
                    Ok(false) => return (count, Ok(false)),
                    Err(fault) => return (count, Err(fault)),
                },
            }
        }
        (most, Ok(true))
    }
}

// Passes over the next message if it is already in memory, which is the usual case.
#[inline(always)]
fn pass_at_hand<R: CountedRead, A: Allocator>(reader: &mut BlockReader<R, A>) -> AtHand
    ensures { PassesAtHand R.remaining R.failures reader.old result reader.new }
{
    match reader.next_at_hand() {
        Some(payload) if payload.is_empty() => AtHand::End,
        Some(_) => AtHand::Message,
        None => AtHand::Nothing,
    }
}

// Passes over the next message and returns true, or returns false if the messages end here.
#[inline(never)]
fn pass_message<R: CountedRead, A: Allocator>(
    reader: &mut BlockReader<R, A>,
) -> Result<bool, FrameFault>
    ensures { PassesMessage R.remaining R.failures reader.old result reader.new }
{
    match reader.next_message() {
        Ok(Some(_)) => Ok(true),
        Ok(None) => Ok(false),
        Err(fault) => Err(fault),
    }
}
