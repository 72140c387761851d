//! The messages of a day in a feed, and the end of a join.
ghost use Rattle.std.specs.Prelude.{◌≡◌, ◌<◌, ◌≤◌};
ghost use Rattle.itch_commands.specs.FeedParts.{beyond, mismatch_of, part_of, wanted_of, whole};

use itch_day::Limit;
use std::fmt;

/// The messages of a day in a feed, and the end of a join. Messages are counted from the first of the day.
#[derive(Clone, Copy, Debug, PartialEq, Eq)]
pub struct FeedPart {
    /// The number of messages of the day before the feed's first one.
    pub before: u64,
    /// The messages of the day in the resulting snapshot.
    pub limit: Limit,
}

/// The reason why a snapshot and a feed are not joined.
#[derive(Clone, Copy, Debug, PartialEq, Eq)]
pub enum FeedMismatch {
    /// The message with the number `next`, the first that the snapshot lacks, is among the `before` messages before the feed's first one.
    Gap { next: u64, before: u64 },
    /// The snapshot has `held` messages, more than the `wanted` ones.
    Beyond { held: u64, wanted: u64 },
    /// The snapshot contains the message with this number, which is at the end time of the join, or later.
    Late { number: u64 },
}

impl fmt::Display for FeedMismatch {
    fn fmt<W: fmt::Write>(&self, f: &mut fmt::Formatter<W>) -> fmt::Result {
        match self {
            FeedMismatch::Gap { next, before } => {
                let first = u128::from(*before) + 1;
                write!(
                    f,
                    "gap: message {next} is next, and the feed begins with {first}"
                )
            }
            FeedMismatch::Beyond { held, wanted } => {
                write!(f, "snapshot: {held} messages, more than {wanted}")
            }
            FeedMismatch::Late { number } => write!(f, "snapshot: message {number} is too late"),
        }
    }
}

impl FeedPart {
    /// Returns the whole of a feed that begins with the first message of its day.
    pub fn whole() -> FeedPart
        ensures { result ≡ whole }
    {
        FeedPart {
            before: 0,
            limit: Limit::whole(),
        }
    }

    /// Returns the reason why no feed of this kind is joined to a snapshot whose next message has this number, if there is one.
    pub fn mismatch(&self, next: u64) -> Option<FeedMismatch>
        ensures { result ≡ mismatch_of self.now next }
    {
        if next <= self.before {
            return Some(FeedMismatch::Gap {
                next,
                before: self.before,
            });
        }
        beyond(self.limit.after, next - 1)
    }

    /// Returns the requested part of the feed after such a snapshot, counted from the feed's first message.
    pub fn wanted(&self, next: u64) -> Limit
        requires { self.now.before < next }
        ensures { result ≡ part_of self.now next }
    {
        Limit {
            after: wanted_after(self.limit.after, self.before, next - 1),
            until: self.limit.until,
        }
    }
}

// Returns the mismatch of a snapshot that has more messages than requested.
fn beyond(wanted: Option<u64>, held: u64) -> Option<FeedMismatch>
    ensures { result ≡ beyond wanted held }
{
    let wanted = wanted?;
    if wanted < held {
        Some(FeedMismatch::Beyond { held, wanted })
    } else {
        None
    }
}

// Returns how many messages are requested of a feed that begins after `before` others: none, if a snapshot contains them all.
fn wanted_after(wanted: Option<u64>, before: u64, held: u64) -> Option<u64>
    requires { before ≤ held }
    ensures { result ≡ wanted_of wanted before held }
{
    let wanted = wanted?;
    if wanted <= held {
        Some(0)
    } else {
        Some(wanted - before)
    }
}
