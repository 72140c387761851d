//! The beginning of a range in the messages of a file.
ghost use Rattle.std.specs.Prelude.{◌≡◌};
ghost use Rattle.itch_commands.specs.Starts.{first, is_begun, is_beyond, is_since, since_after, start_after, start_past};

use itch_day::DayCursor;

/// The beginning of a range in the messages of a file: the later of the two. The range ends with the file, or with the part that is read.
#[derive(Clone, Copy, Debug, PartialEq, Eq)]
pub struct Start {
    /// The number of messages before the range.
    pub before: u64,
    /// The messages before the first with this timestamp or a later one, in nanoseconds since midnight, are before the range too.
    pub since: Option<u64>,
}

impl Start {
    /// Returns a range that begins with the first message.
    pub fn first() -> Start
        ensures { result ≡ first }
    {
        Start {
            before: 0,
            since: None,
        }
    }

    /// Returns whether a message with this time is in the range, once the messages before it have passed.
    #[inline(always)]
    pub fn is_begun(&self, time: Option<u64>) -> bool
        ensures { result ≡ is_begun self.now time }
    {
        self.before == 0 && is_since(self.since, time)
    }

    /// Returns the beginning of the range in the messages after one with this time.
    #[inline(always)]
    pub fn after(self, time: Option<u64>) -> Start
        ensures { result ≡ start_after self time }
    {
        Start {
            before: self.before.saturating_sub(1),
            since: since_after(self.since, time),
        }
    }

    /// Returns whether all messages before a cursor are before the range: there are no more of them than messages before the range, or none of them
    /// is at the time where the range begins, or later.
    pub fn is_beyond(&self, cursor: &DayCursor) -> bool
        ensures { result ≡ is_beyond self.now cursor.now }
    {
        cursor.count <= self.before || !is_since(self.since, cursor.latest)
    }

    /// Returns the beginning of the range in the messages after a cursor.
    pub fn past(self, cursor: DayCursor) -> Start
        ensures { result ≡ start_past self cursor }
    {
        Start {
            before: self.before.saturating_sub(cursor.count),
            since: since_after(self.since, cursor.latest),
        }
    }
}

// Returns whether a message with this time is at the time where a range begins, or later, if the range begins at a time.
#[inline(always)]
fn is_since(since: Option<u64>, time: Option<u64>) -> bool
    ensures { result ≡ is_since since time }
{
    match (since, time) {
        (Some(since), Some(time)) => since <= time,
        (Some(_), None) => false,
        (None, _) => true,
    }
}

// Returns the time still to be reached after a message with this time, if there is one.
#[inline(always)]
fn since_after(since: Option<u64>, time: Option<u64>) -> Option<u64>
    ensures { result ≡ since_after since time }
{
    if is_since(since, time) { None } else { since }
}
