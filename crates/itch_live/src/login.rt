//! The state of a client's login.
ghost use Rattle.std.specs.Prelude.{◌≡◌, None, is_some};
ghost use Rattle.itch_live.specs.SnapshotClients as clients;

use itch_soup::LoginRequest;

/// The state of a client's login.
#[derive(Clone, Copy)]
pub(crate) enum LoginState {
    /// No login was answered yet.
    Awaited,
    /// The login was accepted.
    Accepted(LoginRequest),
    /// The login was rejected with this code.
    Rejected { code: u8 },
}

impl LoginState {
    /// Returns the state after this login was accepted, if there is one.
    pub(crate) fn accepted(login: Option<LoginRequest>) -> LoginState
        ensures asked { clients.asked_of result ≡ login }
        ensures rejection { clients.rejection_of result ≡ None }
    {
        match login {
            Some(login) => LoginState::Accepted(login),
            None => LoginState::Awaited,
        }
    }

    pub(crate) fn is_accepted(&self) -> bool
        ensures { result ≡ is_some (clients.asked_of self.now) }
    {
        matches!(self, LoginState::Accepted(_))
    }

    pub(crate) fn rejection(&self) -> Option<u8>
        ensures { result ≡ clients.rejection_of self.now }
    {
        match self {
            LoginState::Rejected { code } => Some(*code),
            _ => None,
        }
    }
}
