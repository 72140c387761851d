//! The numbers of a joiner's results.
ghost use Rattle.std.specs.Prelude.{◌≡◌};
ghost use Rattle.itchsnap_c.specs.JoinCodes.{coded_number, cause_answer, caused, join_fault_answer, live_answer, snap_answer, resumed_answer};

use crate::answers::{Answer, Joined};
use crate::codes::{
    NOT_JOINED, OUT_OF_MEMORY, TOO_MANY_MESSAGES, WRONG_HANDLE, codec_answer, coded, refusal_answer,
};
use itch_join::{Cause, JoinFault, Live, Snap};

// Messages were applied.
const APPLIED: u32 = 65;

/// The answer of a call on a handle that holds no joiner.
pub(crate) const WRONG_JOINED: Joined = Joined {
    number: 0,
    detail: 0,
    code: WRONG_HANDLE,
    cause: 0,
};

/// Returns the result for a message of the live feed.
pub(crate) fn live_answer(taken: &Result<Live, JoinFault>) -> Joined
    ensures { result ≡ live_answer taken.now }
{
    match taken {
        Ok(Live::Kept) => numbered(64, 0),
        Ok(Live::Applied { next }) => numbered(APPLIED, *next),
        Ok(Live::Old) => numbered(66, 0),
        Err(fault) => join_fault_answer(fault),
    }
}

/// Returns the result for a message of the snapshot.
pub(crate) fn snap_answer(taken: &Result<Snap, JoinFault>) -> Joined
    ensures { result ≡ snap_answer taken.now }
{
    match taken {
        Ok(Snap::More) => numbered(67, 0),
        Ok(Snap::Joined { next }) => numbered(68, *next),
        Err(fault) => join_fault_answer(fault),
    }
}

/// Returns the result after a resume.
pub(crate) fn resumed_answer(taken: &Result<Option<u64>, JoinFault>) -> Joined
    ensures { result ≡ resumed_answer taken.now }
{
    match taken {
        Ok(Some(next)) => numbered(APPLIED, *next),
        Ok(None) => numbered(NOT_JOINED, 0),
        Err(fault) => join_fault_answer(fault),
    }
}

fn join_fault_answer(fault: &JoinFault) -> Joined
    ensures { result ≡ join_fault_answer fault.now }
{
    match fault {
        JoinFault::Full { cap } => numbered(72, *cap as u64),
        JoinFault::Conflict { number } => numbered(73, *number),
        JoinFault::BadNumber => numbered(74, 0),
        JoinFault::Halted { number, cause } => caused(75, *number, cause),
        JoinFault::OutOfMemory { taken: false } => numbered(OUT_OF_MEMORY, 0),
        JoinFault::OutOfMemory { taken: true } => numbered(77, 0),
        JoinFault::Joined => numbered(76, 0),
        JoinFault::BadSnapshot { place, cause } => caused(78, *place, cause),
    }
}

fn numbered(code: u32, number: u64) -> Joined
    ensures { result ≡ coded_number code number }
{
    Joined {
        number,
        detail: 0,
        code,
        cause: 0,
    }
}

fn caused(code: u32, number: u64, cause: &Cause) -> Joined
    ensures { result ≡ caused code number cause.now }
{
    let why = cause_answer(cause);
    Joined {
        number,
        detail: why.detail,
        code,
        cause: why.code,
    }
}

fn cause_answer(cause: &Cause) -> Answer
    ensures { result ≡ cause_answer cause.now }
{
    match cause {
        Cause::Codec(fault) => codec_answer(fault),
        Cause::Rule(why) => refusal_answer(why),
        Cause::TooMany => coded(TOO_MANY_MESSAGES, 0),
    }
}
