//! The causes of a lost feed.
ghost use Rattle.std.specs.Prelude.{◌≡◌};
ghost use Rattle.std.specs.IoError.{error_kind};
ghost use Rattle.itchsnap_live.specs.Losses.{code_cause, kind_cause};

use itch_status::LossCause;
use std::io::{self, ErrorKind};

/// Returns the cause for an error of a socket.
pub(crate) fn cause_of(error: io::Error) -> LossCause
    ensures { result ≡ kind_cause (error_kind error) }
{
    match error.kind() {
        ErrorKind::ConnectionRefused => LossCause::Refused,
        ErrorKind::ConnectionReset | ErrorKind::BrokenPipe => LossCause::Reset,
        ErrorKind::TimedOut => LossCause::TimedOut,
        ErrorKind::HostUnreachable | ErrorKind::NetworkUnreachable | ErrorKind::NetworkDown => {
            LossCause::Unreachable
        }
        _ => LossCause::Failed,
    }
}

/// Returns the cause for the code of a rejection.
pub(crate) fn cause_of_code(code: u8) -> LossCause
    ensures { result ≡ code_cause code }
{
    match code {
        b'A' => LossCause::WrongLogin,
        b'S' => LossCause::NoSession,
        _ => LossCause::Rejected,
    }
}
