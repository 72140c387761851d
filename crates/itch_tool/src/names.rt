//! The subject of a failure, and its name in the second line.
ghost use Rattle.std.specs.Prelude.{◌≡◌, Some, None};
ghost use Rattle.itch_tool.specs.Names.{first_path, input_name, last_path, name_of, output_name, subject_of};

use crate::counts::Counts;
use crate::selected::Selected;
use itch_commands::{Command, FileKind, PairCommand, Request, Source};
use itch_sessions::{SessionDevice, SessionFault};
use itchsnap_cli::command_line::{
    FeedArguments, FetchServer, FollowArguments, HistoryArguments, IndexArguments,
    IndexedArguments, IndexedWork, Job, LiveArguments, PointArguments, StatusArguments,
};
use std::fmt;
use std::net::SocketAddr;

/// The name of a file, a standard stream, an address or a server.
#[derive(Clone, Copy)]
pub enum Name<'a> {
    Path(&'a str),
    Input,
    Output,
    /// The address on which a server listens.
    Address(SocketAddr),
    /// The host and the port of the server of a client.
    Server(&'a str, u16),
}

impl<'a> Name<'a> {
    pub fn of_input(path: Option<&'a str>) -> Name<'a>
        ensures { result ≡ input_name path.entry }
    {
        match path {
            Some(path) => Name::Path(path),
            None => Name::Input,
        }
    }

    fn of_output(path: Option<&'a str>) -> Name<'a>
        ensures { result ≡ output_name path.entry }
    {
        match path {
            Some(path) => Name::Path(path),
            None => Name::Output,
        }
    }
}

impl fmt::Display for Name<'_> {
    fn fmt<W: fmt::Write>(&self, f: &mut fmt::Formatter<W>) -> fmt::Result {
        match self {
            Name::Path(path) => f.write_str(path),
            Name::Input => f.write_str("standard input"),
            Name::Output => f.write_str("standard output"),
            Name::Address(address) => write!(f, "{address}"),
            // An IPv6 address is written in brackets.
            Name::Server(host, port) if host.contains(':') => write!(f, "[{host}]:{port}"),
            Name::Server(host, port) => write!(f, "{host}:{port}"),
        }
    }
}

/// The subject of a command's fault.
#[derive(Clone, Copy)]
pub enum Subject<'a> {
    Input(InputFile<'a>),
    /// The file of a checkpoint, with its path.
    Checkpoint(&'a str),
    /// The output, to the file or the folder at a path, or to standard output.
    Output(Option<&'a str>),
}

impl<'a> Subject<'a> {
    pub fn name(self) -> Name<'a> {
        match self {
            Subject::Input(file) => Name::of_input(file.path),
            Subject::Checkpoint(path) => Name::Path(path),
            Subject::Output(path) => Name::of_output(path),
        }
    }
}

/// An input file of a command: its path, or `None` for standard input, the words of a command that reads it from there, and whether that
/// takes `--snapshot`. The words are empty for a command that reads no pipe.
#[derive(Clone, Copy)]
pub struct InputFile<'a> {
    pub path: Option<&'a str>,
    pub arguments: &'static str,
    pub flag: SnapshotFlag,
}

/// Whether a command takes `--snapshot`, and was given it.
#[derive(Clone, Copy, Debug, PartialEq, Eq)]
pub enum SnapshotFlag {
    NotTaken,
    Omitted,
    Given,
}

impl SnapshotFlag {
    fn of_kind(kind: FileKind) -> SnapshotFlag {
        match kind {
            FileKind::Day(_) => SnapshotFlag::Omitted,
            FileKind::Snapshot => SnapshotFlag::Given,
        }
    }
}

/// The files of a command, one of which is in its fault.
#[derive(Clone, Copy)]
pub struct CommandFiles<'a> {
    /// The first of two files, or the snapshot to which a feed is joined.
    first: InputFile<'a>,
    /// The only file, the second of two, or the feed.
    last: InputFile<'a>,
    /// The path of the output file or folder, if it is not standard output.
    output: Option<&'a str>,
}

impl<'a> CommandFiles<'a> {
    fn of_one(
        path: Option<&'a str>,
        arguments: &'static str,
        flag: SnapshotFlag,
        output: Option<&'a str>,
    ) -> Self
        ensures first { result.first.path ≡ path.entry }
        ensures last { result.last.path ≡ path.entry }
        ensures output { result.output ≡ output.entry }
    {
        let file = InputFile {
            path,
            arguments,
            flag,
        };
        CommandFiles {
            first: file,
            last: file,
            output,
        }
    }

    pub fn of_request(request: &Request<'a>, output: Option<&'a str>) -> Self
        ensures first { result.first.path ≡ first_path request.now }
        ensures last { result.last.path ≡ last_path request.now }
        ensures output { result.output ≡ output.entry }
    {
        match request {
            Request::One { file, command } => CommandFiles::of_one(
                *file,
                arguments_of(command),
                flag_of(command),
                output,
            ),
            Request::Two {
                first,
                second,
                command,
            } => {
                let (first_arguments, second_arguments) = arguments_of_pair(command);
                let flag = flag_of_pair(command);
                CommandFiles {
                    first: InputFile {
                        path: *first,
                        arguments: first_arguments,
                        flag,
                    },
                    last: InputFile {
                        path: *second,
                        arguments: second_arguments,
                        flag,
                    },
                    output,
                }
            }
            Request::At { feed, .. } => CommandFiles::of_one(
                *feed,
                "at .. - ..",
                SnapshotFlag::NotTaken,
                output,
            ),
        }
    }

    pub fn of_history(arguments: &HistoryArguments<'a>) -> Self
        ensures { result.last.path ≡ Some arguments.now.file }
    {
        CommandFiles::of_one(Some(arguments.file), "", SnapshotFlag::NotTaken, None)
    }

    pub fn of_index(arguments: &IndexArguments<'a>) -> Self
        ensures file { result.last.path ≡ arguments.now.file }
        ensures output { result.output ≡ arguments.now.output }
    {
        CommandFiles::of_one(
            arguments.file,
            "index",
            SnapshotFlag::NotTaken,
            arguments.output,
        )
    }

    pub fn of_indexed(arguments: &IndexedArguments<'a>) -> Self
        ensures file { result.last.path ≡ Some arguments.now.file }
        ensures output { result.output ≡ arguments.now.output }
    {
        let (standard, flag) = match &arguments.work {
            IndexedWork::Command(command) => (arguments_of(command), flag_of(command)),
            IndexedWork::History(_) => ("", SnapshotFlag::NotTaken),
        };
        CommandFiles::of_one(Some(arguments.file), standard, flag, arguments.output)
    }

    pub fn of_points(arguments: &PointArguments<'a>) -> Self
        ensures file { result.last.path ≡ arguments.now.file }
        ensures folder { result.output ≡ Some arguments.now.folder }
    {
        let folder = Some(arguments.folder);
        CommandFiles::of_one(
            arguments.file,
            "snap --to ..",
            SnapshotFlag::NotTaken,
            folder,
        )
    }

    pub fn of_books(path: Option<&'a str>) -> Self
        ensures { result.last.path ≡ path.entry }
    {
        CommandFiles::of_one(path, "book ..", SnapshotFlag::NotTaken, None)
    }

    pub fn of_served(path: Option<&'a str>, kind: FileKind) -> Self
        ensures { result.last.path ≡ path.entry }
    {
        CommandFiles::of_one(path, "serve - ..", SnapshotFlag::of_kind(kind), None)
    }

    /// Returns the path of the output, if it is not standard output.
    pub fn output(&self) -> Option<&'a str> {
        self.output
    }

    /// Returns a path of each input, which may be one and the same.
    pub fn input_paths(&self) -> (&'a str, &'a str) {
        let standard = "/dev/stdin";
        (
            self.first.path.unwrap_or(standard),
            self.last.path.unwrap_or(standard),
        )
    }

    /// Returns the only file, the second of two, or the feed.
    pub fn last(&self) -> InputFile<'a> {
        self.last
    }

    pub fn subject(&self, source: Source) -> Subject<'a>
        ensures { result ≡ subject_of self.now source }
    {
        match source {
            Source::First | Source::Snapshot => Subject::Input(self.first),
            Source::Only | Source::Second => Subject::Input(self.last),
            Source::Output => Subject::Output(self.output),
        }
    }
}

// Returns the words of a command that reads its file from standard input.
fn arguments_of(command: &Command<'_>) -> &'static str {
    match command {
        Command::Snap { .. } => "snap",
        Command::Check { .. } => "check",
        Command::Info { .. } => "info",
        Command::Show { .. } | Command::ShowOrders { .. } => "show",
        Command::Cut { .. } => "cut",
        Command::Canon { check: true } => "canon --check",
        Command::Canon { check: false } => "canon",
        Command::Book { .. } => "book ..",
    }
}

// Returns whether a command takes `--snapshot`, and was given it. `show` prints the messages of a snapshot in a day file without it.
fn flag_of(command: &Command<'_>) -> SnapshotFlag {
    match command {
        Command::Book { kind, .. } | Command::Show { kind, .. } => SnapshotFlag::of_kind(*kind),
        _ => SnapshotFlag::NotTaken,
    }
}

fn flag_of_pair(command: &PairCommand<'_>) -> SnapshotFlag {
    match command {
        PairCommand::Compare { kind, .. } => SnapshotFlag::of_kind(*kind),
        _ => SnapshotFlag::NotTaken,
    }
}

// Returns the words for the first file, and for the second.
fn arguments_of_pair(command: &PairCommand<'_>) -> (&'static str, &'static str) {
    match command {
        PairCommand::Compare { .. } => ("compare - ..", "compare .. -"),
        PairCommand::CompareFirst { .. } => ("compare --first - ..", "compare --first .. -"),
        PairCommand::Join { .. } => ("join - ..", "join .. -"),
    }
}

/// The names of the devices of a session.
#[derive(Clone, Copy)]
pub struct SessionNames<'a> {
    // The address on which it listens, or the server to which it connects.
    peer: Name<'a>,
    // The day file to play, or the record of a feed.
    day_file: Option<&'a str>,
    // The folder of snapshots.
    folder: Option<&'a str>,
    // The output file, if it is not standard output.
    output: Option<&'a str>,
}

impl<'a> SessionNames<'a> {
    // Returns the names for a session that reads no file.
    fn of_peer(peer: Name<'a>, output: Option<&'a str>) -> Self {
        SessionNames {
            peer,
            day_file: None,
            folder: None,
            output,
        }
    }

    pub fn of_served(address: SocketAddr) -> Self {
        SessionNames::of_peer(Name::Address(address), None)
    }

    pub fn of_fetched(server: &FetchServer<'a>, output: Option<&'a str>) -> Self {
        SessionNames::of_peer(Name::Server(server.host, server.port), output)
    }

    pub fn of_live(arguments: &LiveArguments<'a>) -> Self {
        SessionNames {
            peer: Name::Address(arguments.address),
            day_file: arguments.record.map(|record| record.place.path()),
            folder: arguments.snapshots.map(|snapshots| snapshots.folder),
            output: None,
        }
    }

    pub fn of_follow(arguments: &FollowArguments<'a>) -> Self {
        let feed = arguments.feeds.first;
        SessionNames::of_peer(Name::Server(feed.host, feed.port), None)
    }

    pub fn of_feed(arguments: &FeedArguments<'a>) -> Self {
        SessionNames {
            peer: Name::Address(arguments.address),
            day_file: Some(arguments.file),
            folder: None,
            output: None,
        }
    }

    pub fn of_status(arguments: &StatusArguments<'a>) -> Self {
        SessionNames::of_peer(
            Name::Server(arguments.place.host, arguments.place.port),
            None,
        )
    }

    /// Returns the name of the device that failed in a session, or of its peer.
    pub fn name(&self, fault: &SessionFault) -> Name<'a> {
        match fault.cause() {
            Some(cause) => self.name_of(cause.device),
            None => self.peer,
        }
    }

    fn name_of(&self, device: SessionDevice) -> Name<'a>
        ensures { result ≡ name_of self.now device }
    {
        match device {
            SessionDevice::DayFile => Name::of_input(self.day_file),
            SessionDevice::Folder => Name::of_input(self.folder),
            SessionDevice::Output => Name::of_output(self.output),
            SessionDevice::Socket => self.peer,
        }
    }
}

/// The names for a job.
#[derive(Clone, Copy)]
pub struct JobNames<'a> {
    pub files: CommandFiles<'a>,
    pub selected: Selected<'a>,
    pub counts: Counts,
    pub session: SessionNames<'a>,
}

impl<'a> JobNames<'a> {
    pub fn of(job: &Job<'a>) -> JobNames<'a> {
        JobNames {
            selected: Selected::of(job),
            counts: Counts::of(job),
            ..JobNames::named(job)
        }
    }

    fn named(job: &Job<'a>) -> JobNames<'a> {
        match job {
            Job::Files {
                request,
                output,
                ..
            } => JobNames::of_files(CommandFiles::of_request(request, *output)),
            Job::Index(arguments) => JobNames::of_files(CommandFiles::of_index(arguments)),
            Job::Indexed(arguments) => JobNames::of_files(CommandFiles::of_indexed(arguments)),
            Job::History(arguments) => JobNames::of_files(CommandFiles::of_history(arguments)),
            Job::Points(arguments) => JobNames::of_files(CommandFiles::of_points(arguments)),
            Job::Books(arguments) => JobNames::of_files(CommandFiles::of_books(arguments.file)),
            Job::Changes(arguments) => JobNames::of_files(CommandFiles::of_books(arguments.file)),
            Job::Serve {
                file,
                kind,
                address,
                ..
            } => JobNames {
                files: CommandFiles::of_served(*file, *kind),
                session: SessionNames::of_served(*address),
                ..JobNames::none()
            },
            Job::Fetch { server, output, .. } => {
                JobNames::of_session(SessionNames::of_fetched(server, *output))
            }
            Job::Live(arguments) => JobNames::of_session(SessionNames::of_live(arguments)),
            Job::Follow(arguments) => JobNames::of_session(SessionNames::of_follow(arguments)),
            Job::Feed(arguments) => JobNames::of_session(SessionNames::of_feed(arguments)),
            Job::Status(arguments) => JobNames::of_session(SessionNames::of_status(arguments)),
            Job::Completions(_) => JobNames::none(),
        }
    }

    /// Returns no names, for a job in which only standard output can fail.
    pub fn none() -> JobNames<'a> {
        JobNames {
            files: CommandFiles::of_one(None, "", SnapshotFlag::NotTaken, None),
            selected: Selected::nothing(),
            counts: Counts::nothing(),
            session: SessionNames::of_peer(Name::Output, None),
        }
    }

    fn of_files(files: CommandFiles<'a>) -> JobNames<'a> {
        JobNames {
            files,
            ..JobNames::none()
        }
    }

    fn of_session(session: SessionNames<'a>) -> JobNames<'a> {
        JobNames {
            session,
            ..JobNames::none()
        }
    }
}
