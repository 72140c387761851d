//! The outcome of a message.

/// The outcome of a message of the live feed.
#[derive(Clone, Copy, Debug, PartialEq, Eq)]
pub enum Live {
    /// It is waiting.
    Kept,
    /// It was applied, and then the waiting messages, up to the message before `next`.
    Applied { next: u64 },
    /// The market already contains it.
    Old,
}

/// The outcome of a message of the snapshot.
#[derive(Clone, Copy, Debug, PartialEq, Eq)]
pub enum Snap {
    /// It was taken, and the snapshot continues.
    More,
    /// It was the End of Snapshot, and then the waiting messages were applied, up to the message before `next`.
    Joined { next: u64 },
}
