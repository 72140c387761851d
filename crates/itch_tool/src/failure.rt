//! The reasons why a job failed, for commands, sessions and their files, with the exit status.
ghost use Rattle.std.specs.Prelude.{◌≡◌};
ghost use Rattle.itch_tool.specs.Endings.{failure_status};

use itch_checkpoints::Unfit;
use itch_commands::ToolFault;
use itch_offsets::IndexUnfit;
use itch_sessions::{LoginsFault, SessionFault};
use std::alloc::{AllocError, Global};
use std::io::{self, ErrorKind};

/// The reason why a job failed.
#[derive(Drop)]
pub enum Failure {
    /// A command failed, in the checkpoint at this path if the command line does not name it.
    Command {
        fault: ToolFault,
        checkpoint: Option<String>,
    },
    /// A session over sockets, a live server or a follower failed.
    Session(SessionFault),
    /// The file or the folder at this path cannot be opened or written, or a server with this name is not found.
    Open {
        name: String,
        error: io::Error,
    },
    /// No message of the requested part names this order.
    NoOrder {
        reference: u64,
    },
    /// The input at this path can be read only once: it is a pipe or a device.
    OnlyOnce {
        path: String,
    },
    /// The checkpoint nearest to a point of the day does not fit.
    Checkpoint {
        why: Unfit,
        detail: String,
    },
    /// The file at this path cannot be read from any place: it is a pipe or a device.
    NotPlaced {
        path: String,
    },
    /// The index of a day file does not fit.
    Index {
        why: IndexUnfit,
        detail: String,
    },
    /// The output, or its temporary file, would be written to the input file at this path.
    SameFile {
        path: String,
    },
    /// The users file at this path is invalid.
    Users {
        path: String,
        fault: LoginsFault,
    },
    /// A live server or a follower has ended with this exit status, and its messages were written.
    Said {
        status: u8,
    },
}

impl Failure {
    /// Returns the failure for something with this name that cannot be opened: out of memory, if the system had none for it.
    pub fn open(alloc: Global, name: &str, error: io::Error) -> Failure {
        if matches!(error.kind(), ErrorKind::OutOfMemory) {
            return Failure::from(ToolFault::OutOfMemory);
        }
        match String::from_str(alloc, name) {
            Ok(name) => Failure::Open { name, error },
            Err(error) => Failure::from(error),
        }
    }

    /// Returns the exit status: 1 refused, 2 usage, 3 read, write, file or socket, 4 memory.
    pub fn status(&self) -> u8
        ensures { result ≡ failure_status self.now }
    {
        match self {
            Failure::Command { fault, .. } => fault.status(),
            Failure::Session(fault) => fault.status(),
            Failure::Open { .. } => 3,
            Failure::NoOrder { .. } => 1,
            Failure::OnlyOnce { .. } => 3,
            Failure::Checkpoint { .. } => 1,
            Failure::NotPlaced { .. } => 3,
            Failure::Index { .. } => 1,
            Failure::SameFile { .. } => 3,
            Failure::Users { .. } => 2,
            Failure::Said { status } => *status,
        }
    }
}

impl From<ToolFault> for Failure {
    ghost use Rattle.std.specs.Prelude.{None};
    ghost use Rattle.itch_tool.specs.declared.failure.Failure.TheVariants.{Command};

    ghost from_gives = { λ fault failure. failure ≡ Command fault None };

    fn from(fault: ToolFault) -> Failure {
        Failure::Command {
            fault,
            checkpoint: None,
        }
    }
}

impl From<SessionFault> for Failure {
    ghost use Rattle.itch_tool.specs.declared.failure.Failure.TheVariants.{Session};

    ghost from_gives = { λ fault failure. failure ≡ Session fault };

    fn from(fault: SessionFault) -> Failure {
        Failure::Session(fault)
    }
}

impl From<AllocError> for Failure {
    fn from(_error: AllocError) -> Failure {
        Failure::from(ToolFault::OutOfMemory)
    }
}
