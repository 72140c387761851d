//! The reasons why a feed is not followed.
ghost use Rattle.std.specs.Prelude.{◌≡◌, ◌≤◌, length};
ghost use Rattle.itch_status.specs.States.{cause_words};

/// The reason why the last connection to a feed ended, or failed.
#[derive(Clone, Copy, Debug, PartialEq, Eq)]
pub enum LossCause {
    /// No address was found for the server's name.
    NotFound,
    /// The server's machine refused the connection.
    Refused,
    /// No route leads to the server.
    Unreachable,
    /// The server reset the connection.
    Reset,
    /// The system gave up on the connection.
    TimedOut,
    /// The server closed the connection, or ended its session before any message.
    Closed,
    /// The server sent nothing for 15 seconds.
    Silent,
    /// Another system call failed.
    Failed,
    /// The user name or the password is wrong.
    WrongLogin,
    /// The server does not have the session or the message.
    NoSession,
    /// The server rejected the login with another code.
    Rejected,
    /// The server accepted the login for another session.
    OtherSession,
    /// The server starts with a later message than the next one.
    Gap,
    /// Memory ran out for a message.
    NoMemory,
    /// The server violated the protocol.
    Broken,
}

impl LossCause {
    /// Returns the text of the cause.
    pub fn words(self) -> &'static str
        ensures words { result.now ≡ cause_words self }
        ensures short { length result.now ≤ 20 }
    {
        match self {
            LossCause::NotFound => "not found",
            LossCause::Refused => "refused",
            LossCause::Unreachable => "unreachable",
            LossCause::Reset => "reset",
            LossCause::TimedOut => "timed out",
            LossCause::Closed => "closed by the server",
            LossCause::Silent => "silent",
            LossCause::Failed => "socket failed",
            LossCause::WrongLogin => "rejected A",
            LossCause::NoSession => "rejected S",
            LossCause::Rejected => "rejected",
            LossCause::OtherSession => "in another session",
            LossCause::Gap => "gap",
            LossCause::NoMemory => "out of memory",
            LossCause::Broken => "broke the protocol",
        }
    }
}
