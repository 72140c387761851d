//! Requests the status of a live server, over HTTP.

use crate::failure::Failure;
use crate::sockets::connect_within;
use itch_commands::{ToolFault, system_fault};
use itch_sessions::{ServerAddress, SessionFault};
use itch_status::{body_of, is_ready};
use itchsnap_cli::command_line::StatusArguments;
use std::io::{self, ErrorKind, Read, Write};
use std::net::{Net, TcpStream};
use std::rt::Clock;
use std::thread;
use std::time::{Duration, Instant};

/// How long a server may take to connect, and to send any bytes.
const PATIENCE_S: u64 = 5;

/// How long to wait between two requests.
const PAUSE_MS: u64 = 200;

/// The longest response that is read.
const LONGEST: u64 = 1 << 20;

/// Prints the status of a live server, and returns whether it is ready. For that many seconds it asks again until the server is ready.
pub fn run_status<R>(rt: &R, arguments: &StatusArguments<'_>) -> Result<bool, Failure>
where
    R: Print + AllocGlobal + Clock + Net<Stream = TcpStream>,
{
    let patience = Duration::from_secs(arguments.wait);
    let begun = called(Instant::now(rt))?;
    for _request in 0..u64::MAX {
        let answer = ask(rt, arguments);
        let is_over = called(begun.elapsed(rt))? >= patience;
        match answer {
            Ok(response) if is_over || says_ready(&response) => return print(rt, &response),
            Err(error) if is_over => return Err(fault_of(error)),
            _ => thread::sleep(rt, Duration::from_millis(PAUSE_MS)),
        }
    }
    Ok(false)
}

// Sends one request, and returns the complete response.
fn ask<R>(rt: &R, arguments: &StatusArguments<'_>) -> io::Result<Vec<u8>>
where
    R: AllocGlobal + Net<Stream = TcpStream>,
{
    let ServerAddress { host, port, .. } = arguments.place;
    let patience = Duration::from_secs(PATIENCE_S);
    let mut stream = connect_within(rt, (host, port), patience)?;
    stream.set_read_timeout(Some(patience))?;
    stream.set_write_timeout(Some(patience))?;
    stream.write_all(request_of(arguments.json))?;
    let mut response = Vec::new(rt.alloc());
    (&stream).take(LONGEST).read_to_end(&mut response)?;
    match body_of(response.as_slice()) {
        Some(_) => Ok(response),
        None => Err(io::Error::from(ErrorKind::InvalidData)),
    }
}

fn request_of(json: bool) -> &'static [u8] {
    if json {
        b"GET /status HTTP/1.1\r\nHost: itchsnap\r\nConnection: close\r\n\r\n"
    } else {
        b"GET /status.txt HTTP/1.1\r\nHost: itchsnap\r\nConnection: close\r\n\r\n"
    }
}

fn says_ready(response: &Vec<u8>) -> bool {
    match body_of(response.as_slice()) {
        Some(body) => is_ready(body),
        None => false,
    }
}

// Prints the server's response, and returns whether it is ready.
fn print<R: Print + AllocGlobal>(rt: &R, response: &Vec<u8>) -> Result<bool, Failure> {
    let Some(body) = body_of(response.as_slice()) else {
        return Ok(false);
    };
    match io::writer(rt).write_all(body) {
        Ok(()) => Ok(is_ready(body)),
        Err(error) => Err(Failure::from(system_fault(error, ToolFault::Write(error)))),
    }
}

fn called<T>(done: io::Result<T>) -> Result<T, Failure> {
    match done {
        Ok(value) => Ok(value),
        Err(error) => Err(fault_of(error)),
    }
}

fn fault_of(error: io::Error) -> Failure {
    Failure::Session(SessionFault::of_system(error, SessionFault::Socket(error)))
}
