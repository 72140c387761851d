//! The two ends of a session on the command line: the address of the server, and the login to it.

use crate::command_line::fault::{Fault, usage_fault};
use crate::command_line::places::read_place_if_any;
use crate::command_line::request::read_count;
use crate::command_line::time::read_digits;
use clap::ArgMatches;
use itch_codec::{Alpha, MOST_MESSAGES, Seq};
use itch_sessions::sessions::{current_session, default_session};
use std::alloc::Global;
use std::fmt::{self, Debug, Formatter};
use std::net::{IpAddr, Ipv4Addr, SocketAddr};

/// The source of a password.
#[derive(Clone, Copy, PartialEq, Eq)]
pub enum Password<'a> {
    /// This argument.
    Word(&'a str),
    /// The first line of the file at this path.
    File(&'a str),
}

/// The user name of a login, and the source of its password.
///
/// `{:?}` leaves the password out.
#[derive(Clone, Copy, PartialEq, Eq)]
pub struct LoginArguments<'a> {
    pub user: &'a str,
    pub password: Password<'a>,
}

impl Debug for LoginArguments<'_> {
    fn fmt<W: fmt::Write>(&self, f: &mut Formatter<W>) -> fmt::Result {
        f.debug_struct("LoginArguments")
            .field("user", &self.user)
            .finish_non_exhaustive()
    }
}

/// The users that may log in to a server.
#[derive(Clone, Copy, Debug, PartialEq, Eq)]
pub enum UserArguments<'a> {
    /// One user.
    One(LoginArguments<'a>),
    /// The users that the file at this path lists.
    Listed(&'a str),
}

/// The server of a fetch.
#[derive(Clone, Copy, Debug, PartialEq, Eq)]
pub struct FetchServer<'a> {
    /// The name or the address of the server.
    pub host: &'a str,
    pub port: u16,
    /// The requested session; blank for the current one.
    pub session: Alpha<10>,
    /// The time limit for its silence in seconds, if there is one.
    pub timeout: Option<u64>,
}

/// Reads the address and the port after `--bind` and `--port`.
pub fn read_address<'a>(alloc: Global, options: &ArgMatches<'a>) -> Result<SocketAddr, Fault> {
    let port = read_port(alloc, options)?;
    let Some(text) = options.get_str("bind") else {
        return Ok(SocketAddr::new(IpAddr::V4(Ipv4Addr::LOCALHOST), port));
    };
    match text.parse::<IpAddr>() {
        Ok(address) => Ok(SocketAddr::new(address, port)),
        Err(_) => Err(usage_fault(alloc, "--bind takes an IPv4 or IPv6 address")?),
    }
}

/// Reads the server of a fetch, as HOST:PORT or after `--host` and `--port`, and `--session` and `--timeout`.
pub fn read_server<'a>(alloc: Global, options: &ArgMatches<'a>) -> Result<FetchServer<'a>, Fault> {
    let (host, port) = match read_place_if_any(alloc, options, "HOST:PORT")? {
        Some(place) => (place.host, place.port),
        None => (
            options.get_str("host").unwrap_or("127.0.0.1"),
            read_port(alloc, options)?,
        ),
    };
    Ok(FetchServer {
        host,
        port,
        session: read_session(alloc, options, "session")?.unwrap_or(current_session()),
        timeout: read_count(alloc, options, "timeout", "--timeout takes decimal digits")?,
    })
}

/// Reads the number after `--from`, if it is given: that of the first message to fetch.
pub fn read_from<'a>(alloc: Global, options: &ArgMatches<'a>) -> Result<Option<Seq>, Fault> {
    let Some(text) = options.get_str("from") else {
        return Ok(None);
    };
    match read_digits(text).and_then(Seq::new) {
        Some(from) if from.value() <= MOST_MESSAGES => Ok(Some(from)),
        _ => Err(usage_fault(alloc, "--from takes a number from 1 to 9999999999999999999")?),
    }
}

/// Reads the login after `--user` and `--pass` or `--pass-file`; `environment` is the password without either.
pub fn read_login<'a>(
    alloc: Global,
    options: &ArgMatches<'a>,
    environment: Option<&'a str>,
) -> Result<LoginArguments<'a>, Fault> {
    let Some(user) = options.get_str("user") else {
        return Err(usage_fault(alloc, "a user name is missing")?);
    };
    let password = match (
        options.get_str("pass"),
        options.get_str("pass-file"),
        environment,
    ) {
        (Some(_), Some(_), _) => {
            return Err(usage_fault(
                alloc,
                "the argument '--pass <PASSWORD>' cannot be used with '--pass-file <FILE>'",
            )?);
        }
        (Some(word), None, _) | (None, None, Some(word)) => Password::Word(word),
        (None, Some(path), _) => Password::File(path),
        (None, None, None) => {
            return Err(usage_fault(
                alloc,
                "a password is missing: give --pass or --pass-file, or set ITCHSNAP_PASS",
            )?);
        }
    };
    Ok(LoginArguments { user, password })
}

/// Reads the users after `--users`, or the one after `--user`.
pub fn read_users<'a>(
    alloc: Global,
    options: &ArgMatches<'a>,
    environment: Option<&'a str>,
) -> Result<UserArguments<'a>, Fault> {
    let Some(path) = options.get_str("users") else {
        return Ok(UserArguments::One(read_login(alloc, options, environment)?));
    };
    for other in ["user", "pass", "pass-file"] {
        if options.get_str(other).is_some() {
            return Err(usage_fault(
                alloc,
                "the argument '--users <FILE>' cannot be used with a user or a password",
            )?);
        }
    }
    Ok(UserArguments::Listed(path))
}

/// Reads the number after an option, in decimal digits only.
pub fn read_number<'a>(alloc: Global, options: &ArgMatches<'a>, name: &str) -> Result<u64, Fault> {
    let fault = "a number must have decimal digits only";
    match read_count(alloc, options, name, fault)? {
        Some(number) => Ok(number),
        None => Err(usage_fault(alloc, fault)?),
    }
}

fn read_port<'a>(alloc: Global, options: &ArgMatches<'a>) -> Result<u16, Fault> {
    match u16::try_from(read_number(alloc, options, "port")?) {
        Ok(port) => Ok(port),
        Err(_) => Err(usage_fault(alloc, "a port is at most 65535")?),
    }
}

/// Reads the session after an option, if it is given.
pub fn read_session<'a>(
    alloc: Global,
    options: &ArgMatches<'a>,
    option: &str,
) -> Result<Option<Alpha<10>>, Fault> {
    let Some(name) = options.get_str(option) else {
        return Ok(None);
    };
    match Alpha::from_text(name) {
        Ok(session) if !name.is_empty() => Ok(Some(session)),
        _ => Err(usage_fault(alloc, "a session has 1 to 10 printable characters")?),
    }
}

/// Returns the session of a played day file: its name up to the first dot, or the last ten characters of that; `ITCHSNAP` if these are not
/// printable.
pub fn session_of_file(path: &str) -> Alpha<10> {
    let name = match path.rsplit_once('/') {
        Some((_, name)) => name,
        None => path,
    };
    let stem = match name.split_once('.') {
        Some((stem, _)) => stem,
        None => name,
    };
    let from = stem.len().saturating_sub(10);
    match stem.get(from..).map(Alpha::from_text) {
        Some(Ok(session)) if !stem.is_empty() => session,
        _ => default_session(),
    }
}
