//! The output form of a follower.

/// The form in which a follower writes messages.
#[derive(Clone, Copy, Debug, PartialEq, Eq)]
pub enum FollowForm {
    /// The blocks of a day file.
    Blocks,
    /// The same, after the messages of the snapshot.
    Whole,
    /// JSON, one object per line.
    Json,
}
