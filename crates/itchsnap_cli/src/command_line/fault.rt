//! Usage faults that a reader of the options finds, before the usage of the command is added to them.
ghost use Rattle.std.specs.Prelude.{◌≡◌, IfOk};
ghost use Rattle.clap.specs.Values.{kind_of};
ghost use Rattle.itchsnap_cli.specs.UsageFaults.{fault_kind};

use crate::command_line::commands::entry_command;
use clap::Error;
use clap::error::ErrorKind;
use std::alloc::{AllocError, AllocFailed, Global};

/// The reason why the options of a command are refused.
#[derive(Drop)]
pub enum Fault {
    /// The command line is wrong, as this message says.
    Usage(String),
    OutOfMemory,
}

impl Fault {
    /// Returns the error of the command with this name, with its usage.
    pub fn error(&self, alloc: Global, name: &str) -> Result<Error, AllocError>
        ensures { IfOk result (λ error. kind_of error ≡ fault_kind self.now) }
    {
        match self {
            Fault::Usage(message) => entry_command(alloc, name)?.error(
                ErrorKind::ValueValidation,
                message.as_str(),
            ),
            Fault::OutOfMemory => Ok(Error::from(AllocError)),
        }
    }
}

/// Returns the usage fault with this message.
pub fn usage_fault(alloc: Global, message: &str) -> Result<Fault, AllocError> {
    Ok(Fault::Usage(String::from_str(alloc, message)?))
}

impl From<AllocError> for Fault {
    ghost use Rattle.itchsnap_cli.specs.declared.command_line.fault.Fault.TheVariants.{OutOfMemory};

    ghost from_gives = { λ _ fault. fault ≡ OutOfMemory };

    fn from(_error: AllocError) -> Fault {
        Fault::OutOfMemory
    }
}

impl<T: Drop> From<AllocFailed<T>> for Fault {
    ghost use Rattle.itchsnap_cli.specs.declared.command_line.fault.Fault.TheVariants.{OutOfMemory};

    ghost from_gives = { λ _ fault. fault ≡ OutOfMemory };

    fn from(_error: AllocFailed<T>) -> Fault {
        Fault::OutOfMemory
    }
}
