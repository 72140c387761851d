//! Runs the commands over files and standard streams.

use crate::at::join_at;
use crate::beginning::Beginning;
use crate::books::run_books;
use crate::changes::run_changes;
use crate::failure::Failure;
use crate::history::run_history;
use crate::indexed::run_indexed;
use crate::indexing::run_index;
use crate::live::{run_feed, run_follow, run_live};
use crate::locate_list::read_only;
use crate::names::JobNames;
use crate::opened::open;
use crate::output::Output;
use crate::points::run_points;
use crate::same_file::check_output;
use crate::sockets::{run_fetch, run_serve};
use crate::status::run_status;
use itch_commands::{
    Book, Command, PairCommand, Request, Source, ToolFault, perform, perform_pair, system_fault,
};
use itch_frame::{BlockReader, Buffered, Counted, CountedWrite};
use itch_market::LocateSet;
use itch_sessions::sessions::{PIECE, default_session};
use itchsnap_cli::command_line::{Completions, Job, Shell};
use itchsnap_cli::input::ProgressLine;
use std::alloc::{Allocator, Global};
use std::fs::File;
use std::io::{self, BufReader, BufWriter, Read, Write};
use std::net::{Net, TcpListener, TcpStream};
use std::rt::{Clock, Files};

/// Performs the job, with its output on standard output. True is exit status 0, and false is exit status 1 with the output written.
/// `beginning` notes the first bytes of standard input.
pub fn run<R>(rt: &R, job: &Job<'_>, beginning: &Beginning) -> Result<bool, Failure>
where
    R: Files<File = File> + Input + Print + Eprint + AllocGlobal + Clock,
    R: Net<Listener = TcpListener, Stream = TcpStream>,
{
    if reads_files(job) {
        check_output(rt, &JobNames::of(job).files)?;
    }
    match job {
        Job::Files {
            request,
            progress,
            output,
        } => run_request(rt, *request, *progress, beginning, *output),
        Job::Index(arguments) => run_index(rt, arguments, beginning),
        Job::Indexed(arguments) => run_indexed(rt, arguments, beginning),
        Job::History(arguments) => run_history(rt, arguments, beginning),
        Job::Points(arguments) => run_points(rt, arguments, beginning),
        Job::Books(arguments) => run_books(rt, arguments, beginning),
        Job::Changes(arguments) => run_changes(rt, arguments, beginning),
        Job::Serve {
            file,
            kind,
            address,
            login,
            session,
            count,
            progress,
        } => {
            let session = session.unwrap_or(default_session());
            run_serve(
                rt, *file, *kind, *address, login, session, *count, *progress, beginning,
            )
        }
        Job::Fetch {
            server,
            login,
            from,
            output,
        } => run_fetch(rt, server, login, *from, *output),
        Job::Live(arguments) => run_live(rt, arguments),
        Job::Follow(arguments) => run_follow(rt, arguments),
        Job::Feed(arguments) => run_feed(rt, arguments),
        Job::Status(arguments) => run_status(rt, arguments),
        Job::Completions(shell) => Ok(print_completions(rt, *shell)?),
    }
}

// Returns whether a job reads files, and writes to one output.
fn reads_files(job: &Job<'_>) -> bool {
    match job {
        Job::Files { .. }
        | Job::Index(_)
        | Job::Indexed(_)
        | Job::History(_)
        | Job::Books(_)
        | Job::Changes(_) => true,
        Job::Points(_)
        | Job::Serve { .. }
        | Job::Fetch { .. }
        | Job::Live(_)
        | Job::Follow(_)
        | Job::Feed(_)
        | Job::Status(_)
        | Job::Completions(_) => false,
    }
}

fn print_completions<R: Print + AllocGlobal>(rt: &R, shell: Shell) -> Result<bool, ToolFault> {
    let completions = Completions::new(shell);
    let script = format!(in rt.alloc(); "{completions}")?;
    match rt.print(script.as_str()) {
        Ok(()) => Ok(true),
        Err(error) => Err(system_fault(error, ToolFault::Write(error))),
    }
}

// Performs a request, with its output in the file at a path, or on standard output. It reads its arguments first, and then opens files.
fn run_request<R: Files<File = File> + Input + Print + Eprint + AllocGlobal + Clock>(
    rt: &R,
    request: Request<'_>,
    progress: bool,
    beginning: &Beginning,
    output: Option<&str>,
) -> Result<bool, Failure> {
    let only = match request.only() {
        Some(arguments) => Some(read_only(rt, arguments)?),
        None => None,
    };
    let Some(path) = output else {
        return request_to(rt, request, progress, beginning, only, io::writer(rt));
    };
    let (output, file) = Output::create(rt, path)?;
    let outcome = request_to(rt, request, progress, beginning, only, file);
    output.finish(rt, outcome)
}

/// Performs a request with the set of its list of locates, and writes its output to a writer.
pub fn request_to<R: Files + Input + Eprint + AllocGlobal + Clock, W: Write + Drop>(
    rt: &R,
    request: Request<'_>,
    progress: bool,
    beginning: &Beginning,
    only: Option<LocateSet<Global>>,
    writer: W,
) -> Result<bool, Failure> {
    let Ok(buffered) = BufWriter::with_capacity(rt.alloc(), PIECE, writer) else {
        return Err(Failure::from(ToolFault::OutOfMemory));
    };
    let mut out = Counted::new(buffered);
    let progress = if progress {
        ProgressLine::begin(rt)
    } else {
        None
    };
    let answer = answer(rt, request, progress.as_ref(), beginning, only, &mut out)?;
    match out.into_inner().flush() {
        Ok(()) => Ok(answer),
        Err(error) => Err(Failure::from(ToolFault::Write(error))),
    }
}

// Opens the input of a request, and performs it.
fn answer<R: Files + Input + Eprint + AllocGlobal + Clock, W: CountedWrite>(
    rt: &R,
    request: Request<'_>,
    progress: Option<&ProgressLine<'_, R>>,
    beginning: &Beginning,
    only: Option<LocateSet<Global>>,
    out: &mut W,
) -> Result<bool, Failure> {
    let alloc = rt.alloc();
    match request {
        Request::One { file, command } => {
            let file = open(rt, file, Source::Only, progress, beginning)?;
            Ok(perform_over(alloc, command, only.as_ref(), file, out)?)
        }
        Request::Two {
            first,
            second,
            command,
        } => {
            let (first_source, second_source) = sources(&command);
            let first = open(rt, first, first_source, progress, beginning)?;
            let second = open(rt, second, second_source, progress, beginning)?;
            Ok(perform_pair_over(alloc, command, only, first, second, out)?)
        }
        Request::At {
            folder,
            feed,
            point,
            selection,
        } => join_at(
            rt, folder, feed, point, selection, progress, beginning, only, out,
        ),
    }
}

// Returns the roles in faults of the two files of a command.
fn sources(command: &PairCommand<'_>) -> (Source, Source) {
    match command {
        PairCommand::Compare { .. } | PairCommand::CompareFirst { .. } => {
            (Source::First, Source::Second)
        }
        PairCommand::Join { .. } => (Source::Snapshot, Source::Only),
    }
}

/// Performs a command over the bytes of its file.
pub fn perform_over<A: Allocator + Copy, R: Read + Drop, W: CountedWrite>(
    alloc: A,
    command: Command<'_>,
    only: Option<&LocateSet<A>>,
    file: R,
    out: &mut W,
) -> Result<bool, ToolFault> {
    let mut reader = blocks(alloc, file)?;
    perform::<_, _, Book<A>, _>(alloc, command, only, &mut reader, out)
}

/// Performs a command over the bytes of its two files.
pub fn perform_pair_over<A: Allocator + Copy, R: Read + Drop, S: Read + Drop, W: CountedWrite>(
    alloc: A,
    command: PairCommand<'_>,
    only: Option<LocateSet<A>>,
    first: R,
    second: S,
    out: &mut W,
) -> Result<bool, ToolFault> {
    let mut first = blocks(alloc, first)?;
    let mut second = blocks(alloc, second)?;
    perform_pair::<_, _, _, _, Book<A>, _>(alloc, command, only, &mut first, &mut second, out)
}

/// Creates a reader of the blocks of a file.
pub fn blocks<A: Allocator + Copy, R: Read + Drop>(
    alloc: A,
    reader: R,
) -> Result<BlockReader<Buffered<R, A>, A>, ToolFault> {
    match BufReader::with_capacity(alloc, PIECE, reader) {
        Ok(buffered) => Ok(BlockReader::new(alloc, Buffered::new(buffered))?),
        Err(_) => Err(ToolFault::OutOfMemory),
    }
}
