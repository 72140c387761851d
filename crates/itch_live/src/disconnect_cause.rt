//! The reasons why a client is gone.

/// The reason why a client is gone. If there are several, the first one counts.
#[derive(Clone, Copy, Debug, PartialEq, Eq)]
pub enum DisconnectCause {
    /// The client sent a Logout Request (SoupBinTCP 3.00), or the caller reported that it is gone.
    Left,
    /// The client broke the protocol: it sent an invalid packet, or a packet that a client may not send at that point.
    Fault,
    /// The client was disconnected because it made no progress for 15 seconds.
    Silent,
}
