//! The end of a client's connection, and its line.
ghost use Rattle.std.specs.Prelude.{◌≡◌, ◌≤◌, ◌++◌, length, codes, decimal};
ghost use Rattle.arrayvec.specs.ArrayVec.{array_vec_len};
ghost use Rattle.itch_sessions.specs.Outputs.{WritesText};
ghost use Rattle.itch_sessions.specs.SessionOutcomes.{outcome_line, outcome_of, outcome_words};

use crate::line::{push, push_number};
use crate::session_fault::SessionFault;
use crate::sessions::write_text;
use arrayvec::ArrayVec;
use itch_frame::CountedWrite;
use itch_live::DisconnectCause;

/// How a client's connection ended.
#[derive(Clone, Copy, Debug, PartialEq, Eq)]
pub enum SessionOutcome {
    /// The client received the complete snapshot: `packets` packets with messages. The last one is the End of Snapshot with the number
    /// `next`.
    Answered { next: u64, packets: u64 },
    /// The login was accepted from this number on, and `packets` messages were played to the client.
    Played { from: u64, packets: u64 },
    /// The login was rejected with this code.
    Rejected(u8),
    /// The client logged out, or closed its sending half, before it had received everything.
    Left,
    /// The client broke the protocol, or its socket failed.
    Fault,
    /// The client was silent, or accepted too little, for 15 seconds.
    CutOff,
    /// The client was the slowest when another one waited for room.
    Slowest,
}

impl From<DisconnectCause> for SessionOutcome {
    ghost use Rattle.itch_sessions.specs.SessionOutcomes.{of_gone};

    ghost from_gives = { λ gone outcome. outcome ≡ of_gone gone };

    fn from(gone: DisconnectCause) -> SessionOutcome {
        match gone {
            DisconnectCause::Left => SessionOutcome::Left,
            DisconnectCause::Fault => SessionOutcome::Fault,
            DisconnectCause::Silent => SessionOutcome::CutOff,
        }
    }
}

/// Returns how a client's connection ended if the client is gone for this reason. A rejection takes precedence, and then a complete answer,
/// whatever happened later.
pub fn outcome_of(
    code: Option<u8>,
    served: Option<SessionOutcome>,
    gone: DisconnectCause,
) -> SessionOutcome
    ensures { result ≡ outcome_of code served gone }
{
    match (code, served) {
        (Some(code), _) => SessionOutcome::Rejected(code),
        (None, Some(served)) => served,
        (None, None) => SessionOutcome::from(gone),
    }
}

/// Writes the line of a connection.
///
/// # Errors
///
/// [`SessionFault::Write`] if the output fails.
pub fn write_outcome<W: CountedWrite>(
    out: &mut W,
    number: u64,
    outcome: SessionOutcome,
) -> Result<(), SessionFault>
    ensures { WritesText W.contents W.failures (outcome_line number outcome) out.old result out.new }
{
    write_text(&line(number, outcome), out)
}

fn line(number: u64, outcome: SessionOutcome) -> ArrayVec<u8, 128>
    ensures line { result.items ≡ outcome_line number outcome }
    ensures short { array_vec_len result ≤ 128 }
{
    let mut line = ArrayVec::new();
    push(&mut line, b"connection ");
    push_number(&mut line, number);
    push(&mut line, b": ");
    push(&mut line, &words(outcome));
    push(&mut line, b"\n");
    line
}

fn words(outcome: SessionOutcome) -> ArrayVec<u8, 72>
    ensures words { result.items ≡ outcome_words outcome }
    ensures short { array_vec_len result ≤ 72 }
{
    match outcome {
        SessionOutcome::Answered { next, packets } => accepted(b"accepted at ", next, packets),
        SessionOutcome::Played { from, packets } => accepted(b"accepted from ", from, packets),
        SessionOutcome::Rejected(code) => {
            let mut words = ArrayVec::new();
            push(&mut words, b"rejected ");
            push(&mut words, &[code]);
            words
        }
        SessionOutcome::Left => plain(b"left"),
        SessionOutcome::Fault => plain(b"fault"),
        SessionOutcome::CutOff => plain(b"cut off"),
        SessionOutcome::Slowest => plain(b"cut off as the slowest"),
    }
}

fn accepted(how: &[u8], number: u64, packets: u64) -> ArrayVec<u8, 72>
    requires { length how.now ≤ 14 }
    ensures words { result.items ≡ how.now ++ decimal number ++ codes ", " ++ decimal packets ++ codes " packets" }
    ensures short { array_vec_len result ≤ 72 }
{
    let mut words = ArrayVec::new();
    push(&mut words, how);
    push_number(&mut words, number);
    push(&mut words, b", ");
    push_number(&mut words, packets);
    push(&mut words, b" packets");
    words
}

fn plain(text: &[u8]) -> ArrayVec<u8, 72>
    requires { length text.now ≤ 72 }
    ensures words { result.items ≡ text.now }
    ensures short { array_vec_len result ≤ 72 }
{
    let mut words = ArrayVec::new();
    push(&mut words, text);
    words
}
