//! The two sides of a connection.

/// The side of a connection that sends a packet.
#[derive(Clone, Copy, Debug, PartialEq, Eq)]
pub enum Origin {
    /// The side that requests messages.
    Client,
    /// The side that has the messages.
    Server,
}
