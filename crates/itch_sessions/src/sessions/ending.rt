//! The end of a served connection, and its line.
ghost use Rattle.std.specs.Prelude.{◌≡◌};
ghost use Rattle.itch_sessions.specs.Outputs.{WritesText};
ghost use Rattle.itch_sessions.specs.Sessions.{connection_line, outcome_after};

use crate::outcome::{SessionOutcome, write_outcome};
use crate::session_fault::SessionFault;
use itch_frame::CountedWrite;
use itch_soup::Served;

/// How a connection ended, or `None` if it had a fault.
pub type Ending = Option<Served>;

/// Writes the line of a connection.
///
/// # Errors
///
/// [`SessionFault::Write`] if the output fails.
pub fn write_ending<W: CountedWrite>(
    out: &mut W,
    number: u64,
    ending: &Ending,
) -> Result<(), SessionFault>
    ensures { WritesText W.contents W.failures (connection_line number ending.now) out.old result out.new }
{
    write_outcome(out, number, outcome_after(ending))
}

// Returns the same as the end of any client's connection.
fn outcome_after(ending: &Ending) -> SessionOutcome
    ensures { result ≡ outcome_after ending.now }
{
    match ending {
        Some(Served::Accepted { from, packets }) => SessionOutcome::Played {
            from: from.value(),
            packets: *packets,
        },
        Some(Served::Rejected(code)) => SessionOutcome::Rejected(*code),
        Some(Served::Left) => SessionOutcome::Left,
        None => SessionOutcome::Fault,
    }
}
