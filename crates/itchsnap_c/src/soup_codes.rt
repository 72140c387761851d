//! The numbers of a session's actions.
ghost use Rattle.std.specs.Prelude.{◌≡◌};
ghost use Rattle.itchsnap_c.specs.SoupCodes.{act, client_act, server_act, soup_fault_act, tick_answer};

use crate::answers::{Act, Answer};
use crate::codes::{
    BAD_NUMBER, BAD_TEXT, DONE, EMPTY, TOO_MANY_MESSAGES, WRONG_HANDLE, WRONG_LENGTH, coded,
};
use itch_soup::{ClientAct, ServerAct, SoupFault, Tick};

// The login is accepted.
const ACCEPTED: u32 = 80;

// The login is rejected.
const REJECTED: u32 = 81;

/// The answer of a call on a handle that holds no such session.
pub(crate) const WRONG_ACT: Act = Act {
    number: 0,
    detail: 0,
    code: WRONG_HANDLE,
};

/// Returns the action for the meaning of a packet for a client.
pub(crate) fn client_act(learned: &ClientAct<'_>) -> Act
    ensures { result ≡ client_act learned.now }
{
    match learned {
        ClientAct::Accepted { next } => act(ACCEPTED, next.value(), 0),
        ClientAct::Rejected(code) => act(REJECTED, 0, u64::from(*code)),
        ClientAct::Data { number, .. } => act(82, *number, 0),
        ClientAct::Nothing => act(0, 0, 0),
        ClientAct::Ended => act(83, 0, 0),
        ClientAct::Fault(fault) => soup_fault_act(fault),
    }
}

/// Returns the action of a server.
pub(crate) fn server_act(done: &ServerAct) -> Act
    ensures { result ≡ server_act done.now }
{
    match done {
        ServerAct::Accept { next } => act(ACCEPTED, next.value(), 0),
        ServerAct::Reject(code) => act(REJECTED, 0, u64::from(*code)),
        ServerAct::Nothing => act(0, 0, 0),
        ServerAct::Close => act(84, 0, 0),
        ServerAct::Fault(fault) => soup_fault_act(fault),
    }
}

/// Returns the action for a packet that breaks the protocol.
pub(crate) fn soup_fault_act(fault: &SoupFault) -> Act
    ensures { result ≡ soup_fault_act fault.now }
{
    match fault {
        SoupFault::EmptyPacket => act(EMPTY, 0, 0),
        SoupFault::WrongLength { want, .. } => act(WRONG_LENGTH, 0, *want as u64),
        SoupFault::BadText { offset } => act(BAD_TEXT, 0, *offset as u64),
        SoupFault::BadNumber { offset } => act(BAD_NUMBER, 0, *offset as u64),
        SoupFault::TooManyMessages => act(TOO_MANY_MESSAGES, 0, 0),
        SoupFault::UnknownType(kind) => act(96, 0, u64::from(*kind)),
        SoupFault::WrongSide(kind) => act(97, 0, u64::from(*kind)),
        SoupFault::SecondLogin => act(98, 0, 0),
        SoupFault::Early(kind) => act(99, 0, u64::from(*kind)),
        SoupFault::Closed => act(100, 0, 0),
        SoupFault::Frame(_)
        | SoupFault::Rejected(_)
        | SoupFault::WrongStart { .. }
        | SoupFault::EndedEarly
        | SoupFault::Snapshot(_) => act(101, 0, 0),
    }
}

/// Returns the answer for the action due.
pub(crate) fn tick_answer(tick: Tick) -> Answer
    ensures { result ≡ tick_answer tick }
{
    match tick {
        Tick::Nothing => DONE,
        Tick::Heartbeat => coded(85, 0),
        Tick::Lost => coded(86, 0),
    }
}

fn act(code: u32, number: u64, detail: u64) -> Act
    ensures { result ≡ act code number detail }
{
    Act {
        number,
        detail,
        code,
    }
}
