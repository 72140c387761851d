//! Writes the lines of a day's messages, one after another.

ghost use Rattle.std.specs.Prelude.{◌≡◌};
ghost use Rattle.itch_commands.specs.Choices.{Chosen};
ghost use Rattle.itch_commands.specs.Lookup.{are_found};
ghost use Rattle.itch_commands.specs.declared.fault.Source.TheVariants.{Only};
ghost use Rattle.itch_commands.specs.declared.fault.ToolFault.TheVariants.{Stopped};

use super::lines::write_chosen;
use crate::choice::Choice;
use crate::fault::{Source, ToolFault};
use crate::form::ShowForm;
use itch_codec::{CodecFault, Message};
use itch_day::Sink;
use itch_frame::CountedWrite;
use itch_market::{ReplayEnd, Stop};
use std::alloc::Allocator;

/// Writes the lines of the messages that are chosen.
#[derive(Drop)]
pub struct ShownLines<'a, 'b, 'c, A: Allocator, W: CountedWrite> {
    pub out: &'b mut W,
    pub form: ShowForm,
    pub choice: &'c mut Choice<'a, A>,
}

impl<'a, 'b, 'c, A: Allocator, W: CountedWrite> ShownLines<'a, 'b, 'c, A, W> {
    /// Returns whether each of the stocks searched for has come.
    pub fn has_found_all(&self) -> bool
        ensures { result ≡ are_found (Chosen.stocks self.now.choice.now) }
    {
        self.choice.has_found_all()
    }
}

impl<'a, 'b, 'c, A: Allocator, W: CountedWrite> Sink for ShownLines<'a, 'b, 'c, A, W> {
    ghost use Rattle.std.specs.Prelude.{◌≡◌};
    ghost use Rattle.itch_commands.specs.Showing.{ShowsMessage, WithholdsMessage};

    type Fault = ToolFault;

    ghost is_ready = { λ _ _. Unit {0} };

    ghost takes = { λ s number payload t. (t.out.ghost_name ≡ s.out.ghost_name) × (t.choice.ghost_name ≡ s.choice.ghost_name) × (t.form ≡ s.form)
        × ShowsMessage W.contents W.failures s.form number payload s.choice.now s.out.now t.choice.now t.out.now };

    ghost refuses = { λ s number payload why t. (t.out.ghost_name ≡ s.out.ghost_name)
        × (t.choice.ghost_name ≡ s.choice.ghost_name)
        × WithholdsMessage W.contents W.failures s.form number payload s.choice.now s.out.now why t.out.now };

    #[inline(always)]
    fn take(
        &mut self,
        number: u64,
        payload: &[u8],
        message: &Result<Message<'_>, CodecFault>,
    ) -> Result<(), ToolFault> {
        let _payload = payload;
        match message {
            Ok(message) => write_chosen(self.form, self.choice, number, message, self.out),
            Err(fault) => Err(stopped(number - 1, Stop::Codec(*fault))),
        }
    }
}

/// Returns the fault of a file that stops after this many messages.
pub fn stopped(count: u64, stop: Stop) -> ToolFault
    ensures { result ≡ Stopped Only (record { count = count; stop = stop }) }
{
    ToolFault::Stopped {
        file: Source::Only,
        end: ReplayEnd { count, stop },
    }
}
