//! Runs the two ends of a session over sockets.

use crate::answers::Answers;
use crate::beginning::Beginning;
use crate::failure::Failure;
use crate::opened::open;
use crate::output::Output;
use crate::password::read_password;
use crate::run::blocks;
use crate::serving::serve_file;
use itch_codec::{Alpha, Seq};
use itch_commands::{Book, FileKind, Source};
use itch_frame::{BlockReader, Buffered, Counted};
use itch_sessions::SessionFault;
use itch_sessions::sessions::{Login, PIECE, fetch, fetch_rest};
use itchsnap_cli::command_line::{FetchServer, LoginArguments};
use itchsnap_cli::input::ProgressLine;
use std::alloc::Global;
use std::fs::File;
use std::io::{self, BufReader, BufWriter, Write};
use std::net::{Net, SocketAddr, TcpListener, TcpStream, ToSocketAddrs};
use std::rt::{Clock, Files};
use std::time::Duration;

/// Serves the market of a file, or of standard input, on a port of this machine. The line of each connection is written once it has ended.
pub fn run_serve<R>(
    rt: &R,
    file: Option<&str>,
    kind: FileKind,
    address: SocketAddr,
    login: &LoginArguments<'_>,
    session: Alpha<10>,
    count: u64,
    progress: bool,
    beginning: &Beginning,
) -> Result<bool, Failure>
where
    R: Files + Input + Print + Eprint + AllocGlobal + Clock,
    R: Net<Listener = TcpListener, Stream = TcpStream>,
{
    let login = read_login(rt, login)?;
    let progress = if progress {
        ProgressLine::begin(rt)
    } else {
        None
    };
    let file = open(rt, file, Source::Only, progress.as_ref(), beginning)?;
    let alloc = rt.alloc();
    let mut reader = blocks(alloc, file)?;
    let mut out = Counted::new(io::writer(rt));
    let config = login.config(session);
    serve_file::<R, _, _, Book<Global>, _>(
        rt,
        alloc,
        &mut reader,
        kind,
        address,
        &config,
        count,
        &mut out,
    )
}

/// Fetches the snapshot of a server, or its messages from a number on. It waits until the server answers, unless there is a time limit. The
/// output is written to the file at a path, or to standard output.
pub fn run_fetch<R>(
    rt: &R,
    server: &FetchServer<'_>,
    login: &LoginArguments<'_>,
    from: Option<Seq>,
    output: Option<&str>,
) -> Result<bool, Failure>
where
    R: Files<File = File> + Print + AllocGlobal + Clock + Net<Stream = TcpStream>,
{
    let login = read_login(rt, login)?;
    let Some(path) = output else {
        return Ok(fetch_to(rt, server, &login, from, io::writer(rt))?);
    };
    let (output, file) = Output::create(rt, path)?;
    let outcome = match fetch_to(rt, server, &login, from, file) {
        Ok(answer) => Ok(answer),
        Err(fault) => Err(Failure::Session(fault)),
    };
    output.finish(rt, outcome)
}

fn fetch_to<R, W: Write + Drop>(
    rt: &R,
    server: &FetchServer<'_>,
    login: &Login,
    from: Option<Seq>,
    writer: W,
) -> Result<bool, SessionFault>
where
    R: Files + AllocGlobal + Clock + Net<Stream = TcpStream>,
{
    let stream = connect(rt, server)?;
    let answers = Answers::new(&stream, limit_of(server), rt);
    let Ok(buffered) = BufReader::with_capacity(rt.alloc(), PIECE, answers) else {
        return Err(SessionFault::OutOfMemory);
    };
    let mut reader = BlockReader::new(rt.alloc(), Buffered::new(buffered))?;
    let Ok(buffered) = BufWriter::with_capacity(rt.alloc(), PIECE, writer) else {
        return Err(SessionFault::OutOfMemory);
    };
    let mut out = Counted::new(buffered);
    let mut writer = Counted::new(&stream);
    let credentials = login.credentials(server.session);
    let alloc = rt.alloc();
    let answer = match from {
        Some(from) => fetch_rest(
            alloc,
            &mut reader,
            &mut writer,
            &credentials,
            from,
            &mut out,
        )?,
        None => fetch(alloc, &mut reader, &mut writer, &credentials, &mut out)?,
    };
    match out.into_inner().flush() {
        Ok(()) => Ok(answer),
        Err(error) => Err(SessionFault::Write(error)),
    }
}

/// Reads the login of the command line.
pub fn read_login<R: Files + AllocGlobal>(
    rt: &R,
    login: &LoginArguments<'_>,
) -> Result<Login, Failure> {
    let password = read_password(rt, login.password)?;
    Ok(Login::new(login.user, password.as_str())?)
}

fn connect<N: Net<Stream = TcpStream>>(
    net: &N,
    server: &FetchServer<'_>,
) -> Result<TcpStream, SessionFault> {
    match connect_as_told(net, server) {
        Ok(stream) => Ok(stream),
        Err(error) => Err(SessionFault::of_system(error, SessionFault::Socket(error))),
    }
}

// Connects to a server, for a login that is sent at once, because no further data follows for which it could wait.
fn connect_as_told<N: Net<Stream = TcpStream>>(
    net: &N,
    server: &FetchServer<'_>,
) -> io::Result<TcpStream> {
    let address = (server.host, server.port);
    let Some(limit) = limit_of(server) else {
        let stream = TcpStream::connect(net, address)?;
        stream.set_nodelay(true)?;
        return Ok(stream);
    };
    let stream = connect_within(net, address, limit)?;
    stream.set_nodelay(true)?;
    stream.set_write_timeout(Some(limit))?;
    Ok(stream)
}

// Returns how long a server may be silent, if there is a time limit.
fn limit_of(server: &FetchServer<'_>) -> Option<Duration> {
    server.timeout.map(Duration::from_secs)
}

// Tries each address of a host in turn, for the given time each. Returns the last error if none answers.
pub fn connect_within<N: Net<Stream = TcpStream>>(
    net: &N,
    address: (&str, u16),
    limit: Duration,
) -> io::Result<TcpStream> {
    let mut last = io::Error::from(io::ErrorKind::NotFound);
    for address in address.to_socket_addrs(net)? {
        match TcpStream::connect_timeout(net, &address, limit) {
            Ok(stream) => return Ok(stream),
            Err(error) => last = error,
        }
    }
    Err(last)
}
