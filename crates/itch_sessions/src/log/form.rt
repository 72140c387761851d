//! The form of the log.

/// The form of the log of a live server.
#[derive(Clone, Copy, Debug, PartialEq, Eq)]
pub enum LogForm {
    /// Plain lines: those of connections on standard output, all others on standard error.
    Plain,
    /// Lines with the time, the level, the event and its fields, all on standard error.
    Text,
    /// The same as JSON objects.
    Json,
}
