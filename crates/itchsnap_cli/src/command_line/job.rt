//! The jobs of the program: a request over files, one end of a session, or the completions of a shell.
ghost use Rattle.std.specs.Prelude.{◌≡◌, option_map};
ghost use Rattle.itchsnap_cli.specs.Jobs.{output_of, writes_snapshot};

use crate::command_line::books::{BookArguments, read_book_arguments};
use crate::command_line::changes::{ChangeArguments, read_changes};
use crate::command_line::commands::command;
use crate::command_line::completions::Shell;
use crate::command_line::fault::{Fault, usage_fault};
use crate::command_line::help::with_program_help;
use crate::command_line::history::{HistoryArguments, read_history};
use crate::command_line::indexed::{
    IndexArguments, IndexedArguments, IndexedWork, read_index_arguments, read_indexed,
};
use crate::command_line::live::{
    FeedArguments, FollowArguments, LiveArguments, read_feed, read_follow, read_live,
};
use crate::command_line::points::{PointArguments, SnapArguments, read_snap_arguments};
use crate::command_line::request::{read_kind, read_output, read_path, read_request, read_snap};
use crate::command_line::session::{
    FetchServer, LoginArguments, read_address, read_from, read_login, read_number, read_server,
    read_session,
};
use crate::command_line::status::{StatusArguments, read_status_arguments};
use clap::{ArgMatches, Error};
use itch_codec::{Alpha, Seq};
use itch_commands::{Command, FileKind, Request};
use itch_sessions::FollowForm;
use std::alloc::Global;
use std::net::SocketAddr;

/// The job of a command line. With `progress`, standard error shows how much was read so far; with `output`, a snapshot is written to the
/// file at that path, and otherwise to standard output.
#[derive(Debug, Drop)]
pub enum Job<'a> {
    /// A request over files and standard streams.
    Files {
        request: Request<'a>,
        progress: bool,
        output: Option<&'a str>,
    },
    /// Write the index of a day file.
    Index(IndexArguments<'a>),
    /// Show or cut a day file with its index.
    Indexed(IndexedArguments<'a>),
    /// Show the complete history of an order.
    History(HistoryArguments<'a>),
    /// Write the snapshots of several points of a day file into a folder.
    Points(PointArguments<'a>),
    /// Write the books of a day file at several times.
    Books(BookArguments<'a>),
    /// Write the best prices of one stock after each message that changes them.
    Changes(ChangeArguments<'a>),
    /// Serve the market of a file, or of standard input if none is named, to `count` connections. Port 0 means a free port.
    Serve {
        file: Option<&'a str>,
        kind: FileKind,
        address: SocketAddr,
        login: LoginArguments<'a>,
        /// The session of the logins, if it is named.
        session: Option<Alpha<10>>,
        count: u64,
        progress: bool,
    },
    /// Fetch the snapshot of a server, or its messages from a number on.
    Fetch {
        server: FetchServer<'a>,
        login: LoginArguments<'a>,
        from: Option<Seq>,
        output: Option<&'a str>,
    },
    /// Follow a live feed, and serve snapshots of its current market.
    Live(LiveArguments<'a>),
    /// Fetch a snapshot, join a live feed, and write its messages from there on.
    Follow(FollowArguments<'a>),
    /// Play a day file as a live feed.
    Feed(FeedArguments<'a>),
    /// Print the status of a live server.
    Status(StatusArguments<'a>),
    /// Print the completions of a shell.
    Completions(Shell),
}

impl<'a> Job<'a> {
    /// Returns the path of the output file for a snapshot, or of the folder for several, if one is named.
    pub fn output(&self) -> Option<&'a str>
        ensures { option_map (λ path. path.now) result ≡ output_of self.now }
    {
        match self {
            Job::Files { output, .. } | Job::Fetch { output, .. } => *output,
            Job::Index(arguments) => arguments.output,
            Job::Indexed(arguments) => arguments.output,
            Job::Points(arguments) => Some(arguments.folder),
            _ => None,
        }
    }
}

// Returns whether the output is a snapshot or blocks of messages, which are not text.
fn writes_snapshot(job: &Job<'_>) -> bool
    ensures { result ≡ writes_snapshot job.now }
{
    match job {
        Job::Files { request, .. } => request.is_binary(),
        Job::Indexed(arguments) => arguments.work.is_binary(),
        Job::Index(_)
        | Job::History(_)
        | Job::Points(_)
        | Job::Books(_)
        | Job::Changes(_)
        | Job::Serve { .. }
        | Job::Live(_)
        | Job::Feed(_)
        | Job::Status(_)
        | Job::Completions(_) => false,
        Job::Fetch { .. } => true,
        Job::Follow(follow) => !matches!(follow.form, FollowForm::Json),
    }
}

/// Parses the command line; the first word is the program's name. A command that writes a snapshot is refused if standard output is a
/// terminal. `password` is used for a login without one.
///
/// An error is a usage fault, a request for help, or out of memory: its kind tells which. A usage fault has the usage of its command.
pub fn read_job<'a>(
    alloc: Global,
    arguments: &'a [String],
    terminal: bool,
    password: Option<&'a str>,
) -> Result<Job<'a>, Error> {
    let matches = match command(alloc)?.try_get_matches_from(arguments) {
        Ok(matches) => matches,
        Err(error) => return Err(with_program_help(alloc, arguments, error)?),
    };
    match read_allowed(alloc, &matches, terminal, password) {
        Ok(job) => Ok(job),
        Err(fault) => Err(fault.error(alloc, matches.subcommand_name().unwrap_or(""))?),
    }
}

// Returns the job of the matched words, unless it would write a snapshot to a terminal.
fn read_allowed<'a>(
    alloc: Global,
    matches: &ArgMatches<'a>,
    terminal: bool,
    password: Option<&'a str>,
) -> Result<Job<'a>, Fault> {
    let job = read_matched(alloc, matches, password)?;
    if terminal && needs_a_file(&job) {
        return Err(usage_fault(alloc, terminal_fault(&job))?);
    }
    Ok(job)
}

// Returns the job of the matched words.
fn read_matched<'a>(
    alloc: Global,
    matches: &ArgMatches<'a>,
    password: Option<&'a str>,
) -> Result<Job<'a>, Fault> {
    match matches.subcommand() {
        Some(("serve", options)) => read_serve(alloc, options, password),
        Some(("fetch", options)) => read_fetch(alloc, options, password),
        Some(("live", options)) => Ok(Job::Live(read_live(alloc, options, password)?)),
        Some(("follow", options)) => Ok(Job::Follow(read_follow(alloc, options, password)?)),
        Some(("feed", options)) => Ok(Job::Feed(read_feed(alloc, options, password)?)),
        Some(("status", options)) => Ok(Job::Status(read_status_arguments(alloc, options)?)),
        Some(("completions", options)) => Ok(Job::Completions(read_shell(alloc, options)?)),
        Some(("snap", options)) => match read_snap_arguments(alloc, options)? {
            SnapArguments::Several(arguments) => Ok(Job::Points(arguments)),
            SnapArguments::One(limit) => files(alloc, options, read_snap(alloc, options, limit)?),
        },
        Some(("index", options)) => Ok(Job::Index(read_index_arguments(alloc, options)?)),
        Some(("show", options)) | Some(("cut", options)) => read_shown(alloc, matches, options),
        Some(("book", options)) if options.get_flag("changes") => {
            Ok(Job::Changes(read_changes(alloc, options)?))
        }
        Some(("book", options)) => match read_book_arguments(alloc, options)? {
            Some(arguments) => Ok(Job::Books(arguments)),
            None => files(alloc, options, read_request(alloc, matches)?),
        },
        Some((_, options)) => files(alloc, options, read_request(alloc, matches)?),
        None => Err(usage_fault(alloc, "a command is missing")?),
    }
}

// Returns the job of `show` or `cut`.
fn read_shown<'a>(
    alloc: Global,
    matches: &ArgMatches<'a>,
    options: &ArgMatches<'a>,
) -> Result<Job<'a>, Fault> {
    if let Some(arguments) = read_indexed(alloc, matches, options)? {
        return Ok(Job::Indexed(arguments));
    }
    if options.get_flag("history") {
        return Ok(Job::History(read_history(alloc, options)?));
    }
    files(alloc, options, read_request(alloc, matches)?)
}

// Returns whether standard output would get a snapshot or a day file, which are not shown on a terminal.
fn needs_a_file(job: &Job<'_>) -> bool {
    job.output().is_none() && writes_snapshot(job)
}

fn terminal_fault(job: &Job<'_>) -> &'static str {
    match job {
        Job::Follow(_) => {
            "messages are not written to a terminal: redirect the output, or give --json"
        }
        Job::Files {
            request: Request::One {
                command: Command::Cut { .. },
                ..
            },
            ..
        }
        | Job::Indexed(
            IndexedArguments {
                work: IndexedWork::Command(_),
                ..
            },
        ) => "messages are not written to a terminal: redirect the output, or give --output",
        _ => "a snapshot is not written to a terminal: redirect the output, or give --output",
    }
}

fn files<'a>(
    alloc: Global,
    options: &ArgMatches<'a>,
    request: Request<'a>,
) -> Result<Job<'a>, Fault> {
    Ok(Job::Files {
        request,
        progress: options.get_flag("progress"),
        output: read_output(alloc, options)?,
    })
}

fn read_fetch<'a>(
    alloc: Global,
    options: &ArgMatches<'a>,
    password: Option<&'a str>,
) -> Result<Job<'a>, Fault> {
    Ok(Job::Fetch {
        server: read_server(alloc, options)?,
        login: read_login(alloc, options, password)?,
        from: read_from(alloc, options)?,
        output: read_output(alloc, options)?,
    })
}

fn read_serve<'a>(
    alloc: Global,
    options: &ArgMatches<'a>,
    password: Option<&'a str>,
) -> Result<Job<'a>, Fault> {
    Ok(Job::Serve {
        file: read_path(options, "FILE"),
        kind: read_kind(alloc, options)?,
        address: read_address(alloc, options)?,
        login: read_login(alloc, options, password)?,
        session: read_session(alloc, options, "session")?,
        count: read_number(alloc, options, "count")?,
        progress: options.get_flag("progress"),
    })
}

fn read_shell<'a>(alloc: Global, options: &ArgMatches<'a>) -> Result<Shell, Fault> {
    match options.get_str("SHELL") {
        Some("bash") => Ok(Shell::Bash),
        Some("zsh") => Ok(Shell::Zsh),
        Some("fish") => Ok(Shell::Fish),
        _ => Err(usage_fault(alloc, "completions are for bash, zsh and fish")?),
    }
}
