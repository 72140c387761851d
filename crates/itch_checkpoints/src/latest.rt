//! The latest timestamp before a checkpoint, as an index states it.
ghost use Rattle.std.specs.Prelude.{◌≡◌};
ghost use Rattle.itch_checkpoints.specs.Checkpoints.{cursor_for};

use itch_day::{DayCursor, Limit};

/// The latest timestamp of a line's messages, as the line states it.
#[derive(Clone, Copy, Debug, PartialEq, Eq)]
pub enum Latest {
    /// This timestamp, or `None` if none of the messages has one.
    Known(Option<u64>),
    /// The line states no valid timestamp.
    Unknown,
}

impl Latest {
    /// Returns the cursor that a line of an index describes, for a point of the day. If the timestamp is unknown and the point is a time, there
    /// is no cursor.
    pub fn cursor(self, count: u64, offset: u64, point: Limit) -> Option<DayCursor>
        ensures { result ≡ cursor_for point count offset self }
    {
        let latest = match self {
            Latest::Known(latest) => latest,
            Latest::Unknown if point.until.is_some() => return None,
            Latest::Unknown => None,
        };
        Some(DayCursor {
            count,
            offset,
            latest,
        })
    }
}
