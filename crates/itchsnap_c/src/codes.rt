//! The numbers of refusals.
ghost use Rattle.std.specs.Prelude.{◌≡◌};
ghost use Rattle.itchsnap_c.specs.Codes.{coded, counted, no_count, codec_answer, refusal_answer, stop_answer, outcome_answer, not_loaded, refused_at, snapshot_answer};

use crate::answers::{Answer, Count, Loaded};
use itch_codec::CodecFault;
use itch_frame::FrameFault;
use itch_market::{Refusal, Stop};
use itch_snapshot::SnapFault;

/// There are no bytes.
pub(crate) const EMPTY: u32 = 1;

/// The length is not that of the type.
pub(crate) const WRONG_LENGTH: u32 = 2;

/// A byte of a text is not printable.
pub(crate) const BAD_TEXT: u32 = 3;

/// A field has no number.
pub(crate) const BAD_NUMBER: u32 = 5;

/// A market has more messages than a snapshot may have.
pub(crate) const TOO_MANY_MESSAGES: u32 = 33;

/// A block was not read.
pub(crate) const UNREAD: u32 = 34;

/// Memory ran out.
pub(crate) const OUT_OF_MEMORY: u32 = 48;

/// The caller's memory is too short.
pub(crate) const NO_ROOM: u32 = 49;

/// The handle does not hold an object of the right kind.
pub(crate) const WRONG_HANDLE: u32 = 50;

/// The handle already holds an object.
pub(crate) const IN_USE: u32 = 51;

/// There is no such order, price, stock or message.
pub(crate) const ABSENT: u32 = 52;

/// The joiner has not joined.
pub(crate) const NOT_JOINED: u32 = 53;

/// The number is not from 1 to 10^19.
pub(crate) const NO_NUMBER: u32 = 54;

/// The call succeeded.
pub(crate) const DONE: Answer = Answer { detail: 0, code: 0 };

/// The answer of a call on a handle that does not hold an object of the right kind.
pub(crate) const WRONG: Answer = Answer {
    detail: 0,
    code: WRONG_HANDLE,
};

/// The answer if memory ran out.
pub(crate) const NO_MEMORY: Answer = Answer {
    detail: 0,
    code: OUT_OF_MEMORY,
};

/// The answer of a call that would fill a handle that holds an object.
pub(crate) const TAKEN: Answer = Answer {
    detail: 0,
    code: IN_USE,
};

/// Returns a code and its detail.
pub(crate) fn coded(code: u32, detail: u64) -> Answer
    ensures { result ≡ coded code detail }
{
    Answer { detail, code }
}

/// Returns a number.
pub(crate) fn counted(count: u64) -> Count
    ensures { result ≡ counted count }
{
    Count { count, code: 0 }
}

/// Returns no number, for this reason.
pub(crate) fn no_count(code: u32) -> Count
    ensures { result ≡ no_count code }
{
    Count { count: 0, code }
}

/// Returns the answer for a message that was taken or not.
pub(crate) fn outcome_answer(outcome: &Result<(), Stop>) -> Answer
    ensures { result ≡ outcome_answer outcome.now }
{
    match outcome {
        Ok(()) => DONE,
        Err(stop) => stop_answer(stop),
    }
}

/// Returns the answer for a payload that is not a valid message.
pub(crate) fn codec_answer(fault: &CodecFault) -> Answer
    ensures { result ≡ codec_answer fault.now }
{
    match fault {
        CodecFault::Empty => coded(EMPTY, 0),
        CodecFault::WrongLength { want, .. } => coded(WRONG_LENGTH, *want as u64),
        CodecFault::BadText { offset } => coded(BAD_TEXT, *offset as u64),
        CodecFault::BadSide { offset } => coded(4, *offset as u64),
        CodecFault::BadNumber => coded(BAD_NUMBER, 0),
    }
}

/// Returns the answer for the end of a replay.
pub(crate) fn stop_answer(stop: &Stop) -> Answer
    ensures { result ≡ stop_answer stop.now }
{
    match stop {
        Stop::End => DONE,
        Stop::Frame(FrameFault::Truncated { held }) => coded(32, *held as u64),
        Stop::Frame(_) => coded(UNREAD, 0),
        Stop::Codec(fault) => codec_answer(fault),
        Stop::Rule(why) => refusal_answer(why),
        Stop::TooManyMessages => coded(TOO_MANY_MESSAGES, 0),
    }
}

/// Returns the answer for a message that a market refuses.
pub(crate) fn refusal_answer(why: &Refusal) -> Answer
    ensures { result ≡ refusal_answer why.now }
{
    match why {
        Refusal::UnknownLocate => coded(16, 0),
        Refusal::StockMismatch => coded(17, 0),
        Refusal::ZeroShares => coded(18, 0),
        Refusal::DuplicateRef => coded(19, 0),
        Refusal::UnknownRef => coded(20, 0),
        Refusal::LocateMismatch => coded(21, 0),
        Refusal::TooManyShares { remain } => coded(22, u64::from(*remain)),
        Refusal::UnexpectedEnd => coded(23, 0),
        Refusal::OutOfMemory => NO_MEMORY,
    }
}

/// Returns the result if no snapshot was read.
pub(crate) fn not_loaded(code: u32) -> Loaded
    ensures { result ≡ not_loaded code }
{
    Loaded {
        next: 0,
        place: 0,
        detail: 0,
        code,
    }
}

// Returns the result for a message of a snapshot that is refused.
fn refused_at(place: u64, answer: Answer) -> Loaded
    ensures { result ≡ refused_at place answer }
{
    Loaded {
        next: 0,
        place,
        detail: answer.detail,
        code: answer.code,
    }
}

/// Returns the result for a snapshot file that is refused.
pub(crate) fn snapshot_answer(fault: &SnapFault) -> Loaded
    ensures { result ≡ snapshot_answer fault.now }
{
    match fault {
        SnapFault::NoEnd => not_loaded(35),
        SnapFault::Frame(fault) => refused_at(0, stop_answer(&Stop::Frame(*fault))),
        SnapFault::Codec { place, fault } => refused_at(*place, codec_answer(fault)),
        SnapFault::Rule { place, reason } => refused_at(*place, refusal_answer(reason)),
        SnapFault::AfterEnd => not_loaded(36),
        SnapFault::TooManyMessages => not_loaded(TOO_MANY_MESSAGES),
    }
}
