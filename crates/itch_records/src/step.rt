//! The effects of news from a feed on a follower.
ghost use Rattle.std.specs.Prelude.{◌≡◌};
ghost use Rattle.itch_records.specs.Steps.{record_fault, refusal_of, rejection_ends, snapshot_fault_of, step_of, stop_of, unrecorded};

use itch_codec::Alpha;
use itch_frame::FrameFault;
use itch_join::{Cause, JoinFault};
use itch_live::News;
use itch_market::{ReplayEnd, Stop};
use itch_sessions::SessionFault;
use itch_snapshot::SnapFault;

/// The next step of a follower.
#[derive(Clone, Copy, Debug)]
pub enum Step {
    /// Continue.
    On,
    /// The login was accepted from this number on.
    Accepted(u64),
    /// The snapshot is complete up to this number; connect to the live feed.
    Joined(u64),
    /// The message before this number was applied.
    Taken(u64),
    /// The server ended its session.
    Ended,
    /// The server rejected the login with this code.
    Rejected(u8),
    /// The server is in this session instead of the requested one.
    OtherSession(Alpha<10>),
    /// Memory was refused for a message, which was not applied.
    NoMemory,
    /// The connection is of no further use: connect again.
    Lost,
}

/// Returns the next step of a follower after a piece of news, or the fault that ends it.
///
/// # Faults
///
/// A message of the feed that is invalid or breaks an order rule (`Stopped`), or a message of the snapshot (`Snapshot`); and a message that
/// could not be recorded. A new connection remedies everything else.
pub fn step_of(news: News) -> Result<Step, SessionFault>
    ensures { result ≡ step_of news }
{
    match news {
        News::Nothing => Ok(Step::On),
        News::Accepted { next } => Ok(Step::Accepted(next)),
        News::Joined { next } => Ok(Step::Joined(next)),
        News::Taken { next } => Ok(Step::Taken(next)),
        News::Ended => Ok(Step::Ended),
        News::Broken(_) => Ok(Step::Lost),
        News::OtherSession { named } => Ok(Step::OtherSession(named)),
        News::Rejected(code) => Ok(Step::Rejected(code)),
        News::Refused(fault) => refusal_of(fault),
        News::Unrecorded(fault) => Err(unrecorded(fault)),
    }
}

// Returns the next step of a follower after a message that its joiner did not accept.
fn refusal_of(fault: JoinFault) -> Result<Step, SessionFault>
    ensures { result ≡ refusal_of fault }
{
    match fault {
        JoinFault::Halted { number, cause } => Err(SessionFault::Stopped(ReplayEnd {
            count: number.saturating_sub(1),
            stop: stop_of(cause),
        })),
        JoinFault::BadSnapshot { place, cause } => Err(SessionFault::Snapshot(snapshot_fault_of(
            place, cause,
        ))),
        // The message was applied, but not recorded, and no connection would send it again.
        JoinFault::OutOfMemory { taken: true } => Err(SessionFault::OutOfMemory),
        JoinFault::OutOfMemory { taken: false } => Ok(Step::NoMemory),
        JoinFault::Full { .. }
        | JoinFault::Conflict { .. }
        | JoinFault::BadNumber
        | JoinFault::Joined => Ok(Step::Lost),
    }
}

/// Returns whether a rejection ends the follower: a wrong user name or password in its first login. If the server has accepted the login
/// before, or the session or the number is not available at the moment, the follower tries again.
pub fn rejection_ends(code: u8, was_accepted: bool) -> bool
    ensures { result ≡ rejection_ends code was_accepted }
{
    code == b'A' && !was_accepted
}

// Returns the fault for a message that could not be recorded.
fn unrecorded(fault: FrameFault) -> SessionFault
    ensures { result ≡ unrecorded fault }
{
    match fault {
        FrameFault::Write { error, .. } => SessionFault::Write(error),
        _ => SessionFault::Stopped(ReplayEnd {
            count: 0,
            stop: Stop::Frame(fault),
        }),
    }
}

/// Returns the fault of a follower that keeps a record. A failed write is attributed to the last message applied; `next` is the number after
/// it.
pub fn record_fault(fault: SessionFault, next: Option<u64>) -> SessionFault
    ensures { result ≡ record_fault fault next }
{
    match fault {
        SessionFault::Write(error) => SessionFault::Stopped(ReplayEnd {
            count: next.unwrap_or(0).saturating_sub(2),
            stop: Stop::Frame(FrameFault::Write { sent: 0, error }),
        }),
        _ => fault,
    }
}

/// Returns the reason why a message of the feed is refused, as a replay reports it.
pub fn stop_of(cause: Cause) -> Stop
    ensures { result ≡ stop_of cause }
{
    match cause {
        Cause::Codec(fault) => Stop::Codec(fault),
        Cause::Rule(refusal) => Stop::Rule(refusal),
        Cause::TooMany => Stop::TooManyMessages,
    }
}

// Returns the reason why a message of the snapshot is refused, as a reader of snapshots reports it.
fn snapshot_fault_of(place: u64, cause: Cause) -> SnapFault
    ensures { result ≡ snapshot_fault_of place cause }
{
    match cause {
        Cause::Codec(fault) => SnapFault::Codec { place, fault },
        Cause::Rule(reason) => SnapFault::Rule { place, reason },
        Cause::TooMany => SnapFault::TooManyMessages,
    }
}
