//! The points of a day file at which `snap` writes snapshots.
ghost use Rattle.std.specs.Prelude.{◌≡◌, ◌&&◌, false, List, [], ◌∷◌, Some, IfOk, IfSome, IfNone, IsTrue};
ghost use Rattle.itch_day.specs.declared.limit.Limit.{Limit as AnyLimit};
ghost use Rattle.itch_commands.specs.Ascending.{ascend, ascend_after, ends_by, is_longer, is_within};

use itch_day::Limit;
use std::alloc::{AllocError, Global};
use std::fmt::{self, Debug, Formatter};

/// The points of a day file at which snapshots are requested.
#[derive(Debug, Drop)]
pub enum Points {
    /// At the ends of these parts of it.
    At(PointLimits),
    /// One per that many messages, and one at its end.
    Every(u64),
}

/// The limits of parts of a day file. Each part is longer than the one before.
#[derive(Drop)]
pub struct PointLimits {
    limits: Vec<Limit>,
    ghost rising: { IsTrue (ascend limits.items) },
}

impl PointLimits {
    /// Returns this limit alone.
    pub fn one(alloc: Global, limit: Limit) -> Result<PointLimits, AllocError>
        ensures { IfOk result (λ parts. parts.limits.items ≡ limit ∷ []) }
    {
        let limits = vec![in alloc; limit]?;
        Ok(PointLimits { limits })
    }

    /// Returns these limits, or `None` unless each part is longer than the one before.
    pub fn of(limits: Vec<Limit>) -> Option<PointLimits>
        ensures some { IfSome result (λ parts. parts.limits ≡ limits) }
        ensures none { IfNone result (ascend limits.items ≡ false) }
    {
        if !ascend(limits.as_slice()) {
            return None;
        }
        Some(PointLimits { limits })
    }

    /// Returns the limits, in ascending order.
    pub fn as_slice(&self) -> &[Limit]
        ensures limits { result.now ≡ self.now.limits.items }
        ensures rising { IsTrue (ascend result.now) }
    {
        self.limits.as_slice()
    }
}

impl Debug for PointLimits {
    fn fmt<W: fmt::Write>(&self, f: &mut Formatter<W>) -> fmt::Result {
        self.limits.fmt(f)
    }
}

// Returns whether each part is longer than the one before.
fn ascend(limits: &[Limit]) -> bool
    ensures { result ≡ ascend limits.now }
{
    let mut before = None;
    for &limit in limits {
        if !follows(before, limit) {
            return false;
        }
        before = Some(limit);
    }
    true
}

// Returns whether a part is the first one, or longer than the one before.
fn follows(before: Option<Limit>, limit: Limit) -> bool
    ensures { (rest : List AnyLimit) → ascend_after before (limit ∷ rest) ≡ (result && ascend_after (Some limit) rest) }
{
    match before {
        Some(before) => is_longer(before, limit),
        None => true,
    }
}

/// Returns whether a part of a file is longer than another one: neither of its ends comes earlier, and one comes later.
pub fn is_longer(before: Limit, limit: Limit) -> bool
    ensures { result ≡ is_longer before limit }
{
    is_within(before, limit) && !is_within(limit, before)
}

// Returns whether neither end of a part comes later than that of another part.
fn is_within(limit: Limit, other: Limit) -> bool
    ensures { result ≡ is_within limit other }
{
    ends_by(limit.after, other.after) && ends_by(limit.until, other.until)
}

// Returns whether an end of a part comes no later than another one. Without an end, a part ends with the file.
fn ends_by(end: Option<u64>, other: Option<u64>) -> bool
    ensures { result ≡ ends_by end other }
{
    match (end, other) {
        (_, None) => true,
        (None, Some(_)) => false,
        (Some(end), Some(other)) => end <= other,
    }
}
