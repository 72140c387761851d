//! Writes the line of a message, if it is chosen.
ghost use Rattle.std.specs.Prelude.{◌≡◌};
ghost use Rattle.itch_commands.specs.Choices.{chosen_after, chosen_line, line_in};
ghost use Rattle.itch_commands.specs.Outputs.{WritesText};

use super::rows::write_row_of;
use crate::choice::Choice;
use crate::fault::ToolFault;
use crate::form::ShowForm;
use crate::writing::write_text;
use itch_codec::{Message, json, show as show_message, show_named};
use itch_frame::CountedWrite;
use std::alloc::Allocator;

/// Writes the line of a message with this number if it is chosen, and passes the message.
pub fn write_chosen<A: Allocator, W: CountedWrite>(
    form: ShowForm,
    choice: &mut Choice<'_, A>,
    number: u64,
    message: &Message<'_>,
    out: &mut W,
) -> Result<(), ToolFault>
    ensures line { WritesText W.contents W.failures (chosen_line form choice.old number message.now) out.old result out.new }
    ensures passed { choice.new ≡ chosen_after choice.old message.now }
{
    let chosen = choice.is_chosen(message);
    choice.follow(message);
    if chosen {
        write_line(form, number, message, out)
    } else {
        Ok(())
    }
}

// Writes the line of a message in a form.
fn write_line<W: CountedWrite>(
    form: ShowForm,
    number: u64,
    message: &Message<'_>,
    out: &mut W,
) -> Result<(), ToolFault>
    ensures { WritesText W.contents W.failures (line_in form number message.now) out.old result out.new }
{
    match form {
        ShowForm::Text => write_text(show_message(number, message).as_str().as_bytes(), out),
        ShowForm::Named => write_text(show_named(number, message).as_str().as_bytes(), out),
        ShowForm::Json => write_text(json(number, message).as_str().as_bytes(), out),
        ShowForm::Csv { kind } => write_row_of(kind, number, message, out),
    }
}
