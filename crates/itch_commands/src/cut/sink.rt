//! Writes the blocks of a day's messages that are kept, one after another.
ghost use Rattle.std.specs.Prelude.{◌≡◌, ◌<◌};
ghost use Rattle.itch_commands.specs.Choices.{Chosen};
ghost use Rattle.itch_commands.specs.Cuts.{WritesBlock};
ghost use Rattle.itch_commands.specs.Lookup.{are_found};

use crate::choice::Choice;
use crate::fault::ToolFault;
use crate::show::stopped;
use itch_codec::{CodecFault, Message};
use itch_day::Sink;
use itch_frame::{CountedWrite, FrameFault, write_block};
use itch_market::Stop;
use std::alloc::Allocator;

/// Writes the blocks of those messages that are kept.
#[derive(Drop)]
pub struct KeptBlocks<'a, 'b, 'c, A: Allocator, W: CountedWrite> {
    pub out: &'b mut W,
    pub choice: &'c mut Choice<'a, A>,
}

impl<'a, 'b, 'c, A: Allocator, W: CountedWrite> KeptBlocks<'a, 'b, 'c, A, W> {
    /// Returns whether each of the stocks searched for has come.
    pub fn has_found_all(&self) -> bool
        ensures { result ≡ are_found (Chosen.stocks self.now.choice.now) }
    {
        self.choice.has_found_all()
    }
}

impl<'a, 'b, 'c, A: Allocator, W: CountedWrite> Sink for KeptBlocks<'a, 'b, 'c, A, W> {
    ghost use Rattle.std.specs.Prelude.{◌≡◌, ◌⊎◌, ◌<◌, length};
    ghost use Rattle.itch_commands.specs.Cuts.{CutsMessage, HoldsBack};

    type Fault = ToolFault;

    ghost is_ready = { λ _ _. Unit {0} };

    ghost takes = { λ s number payload t. (t.out.ghost_name ≡ s.out.ghost_name) × (t.choice.ghost_name ≡ s.choice.ghost_name)
        × CutsMessage W.contents W.failures payload s.choice.now s.out.now t.choice.now t.out.now };

    ghost refuses = { λ s number payload why t. (t.out.ghost_name ≡ s.out.ghost_name)
        × (t.choice.ghost_name ≡ s.choice.ghost_name)
        × ((65535 < length payload) ⊎ HoldsBack W.contents W.failures s.choice.now s.out.now number payload why t.out.now) };

    #[inline(always)]
    fn take(
        &mut self,
        number: u64,
        payload: &[u8],
        message: &Result<Message<'_>, CodecFault>,
    ) -> Result<(), ToolFault> {
        match message {
            Ok(message) => {
                let kept = self.choice.keeps(message);
                self.choice.follow(message);
                if kept {
                    write_payload(number, payload, self.out)
                } else {
                    Ok(())
                }
            }
            Err(fault) => Err(stopped(number - 1, Stop::Codec(*fault))),
        }
    }

    #[inline(always)]
    fn take_payload(&mut self, number: u64, payload: &[u8]) -> bool {
        let _number = number;
        self.choice.skip(payload)
    }
}

// Writes the block of the payload with this number.
fn write_payload<W: CountedWrite>(number: u64, payload: &[u8], out: &mut W) -> Result<(), ToolFault>
    requires { 0 < number }
    ensures { WritesBlock W.contents W.failures payload.now out.old result out.new }
{
    match write_block(out, payload) {
        Ok(()) => Ok(()),
        Err(FrameFault::Write { error, .. }) => Err(ToolFault::Write(error)),
        Err(fault) => Err(stopped(number - 1, Stop::Frame(fault))),
    }
}
