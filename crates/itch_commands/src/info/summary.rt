//! The numbers of a day.

/// The summary of a day, without its types and events.
#[derive(Clone, Copy)]
pub struct Summary {
    /// The number of messages.
    pub count: u64,
    /// The bytes of their blocks, capped at 2^64 - 1.
    pub bytes: u64,
    /// The earliest and the latest time, in nanoseconds since midnight, if a message has a time.
    pub first: Option<u64>,
    pub last: Option<u64>,
    /// The number of stocks in the directory.
    pub stocks: u64,
    /// The number of live orders at the end, and the greatest number.
    pub live: u64,
    pub peak: u64,
    /// Whether the last system event is End of Messages.
    pub is_ended: bool,
}
