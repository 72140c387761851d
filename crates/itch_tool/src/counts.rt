//! The numbers of messages that a command requests.
ghost use Rattle.std.specs.Prelude.{◌<◌, IfSome};

use itch_commands::snap::Points;
use itch_commands::{Command, FileKind, PairCommand, Request};
use itchsnap_cli::command_line::{IndexedWork, Job, PointArguments};

/// The number of messages after which a command stops, and the number that it expects.
#[derive(Clone, Copy)]
pub struct Counts {
    after: Option<u64>,
    expected: Option<u64>,
}

impl Counts {
    pub fn of(job: &Job<'_>) -> Counts {
        match job {
            Job::Files { request, .. } => Counts::of_request(*request),
            Job::Index(arguments) => Counts::after(arguments.limit.after),
            Job::Indexed(arguments) => match &arguments.work {
                IndexedWork::Command(command) => Counts::of_command(*command),
                IndexedWork::History(arguments) => Counts::after(arguments.limit.after),
            },
            Job::History(arguments) => Counts::after(arguments.limit.after),
            Job::Points(PointArguments { points, .. }) => Counts::of_points(points),
            Job::Serve { kind, .. } => Counts::of_kind(*kind),
            _ => Counts::nothing(),
        }
    }

    pub fn nothing() -> Counts {
        Counts::after(None)
    }

    /// Returns a requested number that is greater than the number of messages of a file.
    pub fn beyond(&self, count: u64) -> Option<u64>
        ensures { IfSome result (λ wanted. count < wanted) }
    {
        if let Some(after) = self.after {
            if after > count {
                return Some(after);
            }
        }
        if let Some(expected) = self.expected {
            if expected > count {
                return Some(expected);
            }
        }
        None
    }

    fn after(after: Option<u64>) -> Counts {
        Counts {
            after,
            expected: None,
        }
    }

    fn of_kind(kind: FileKind) -> Counts {
        match kind {
            FileKind::Day(limit) => Counts::after(limit.after),
            FileKind::Snapshot => Counts::nothing(),
        }
    }

    // The last of several numbers is the greatest.
    fn of_points(points: &Points) -> Counts {
        match points {
            Points::At(limits) => match limits.as_slice().last() {
                Some(limit) => Counts::after(limit.after),
                None => Counts::nothing(),
            },
            Points::Every(_) => Counts::nothing(),
        }
    }

    fn of_request(request: Request<'_>) -> Counts {
        match request {
            Request::One { command, .. } => Counts::of_command(command),
            Request::Two { command, .. } => match command {
                PairCommand::Compare { kind, .. } => Counts::of_kind(kind),
                PairCommand::CompareFirst { limit, .. } => Counts::after(limit.after),
                PairCommand::Join { part, .. } => Counts::after(part.limit.after),
            },
            Request::At { point, .. } => Counts::after(point.after),
        }
    }

    fn of_command(command: Command<'_>) -> Counts {
        match command {
            Command::Check {
                limit,
                expected,
                ..
            } => Counts {
                after: limit.after,
                expected: expected.count,
            },
            Command::Snap { limit, .. }
            | Command::Info { limit, .. }
            | Command::ShowOrders { limit, .. }
            | Command::Cut { limit, .. } => Counts::after(limit.after),
            Command::Show { kind, .. } | Command::Book { kind, .. } => Counts::of_kind(kind),
            Command::Canon { .. } => Counts::nothing(),
        }
    }
}
