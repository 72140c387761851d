//! The servers to which a live server or a follower connects, on the command line.

use crate::command_line::fault::{Fault, usage_fault};
use crate::command_line::time::read_digits;
use clap::ArgMatches;
use itch_sessions::{Feeds, ServerAddress};
use std::alloc::Global;

/// Reads the servers after `--feed`.
pub fn read_feeds<'a>(alloc: Global, options: &ArgMatches<'a>) -> Result<Feeds<'a>, Fault> {
    let text = options.get_strs("feed").unwrap_or(&[]);
    let [first, rest @ ..] = text else {
        return Err(usage_fault(alloc, "a server is missing")?);
    };
    let mut feeds = Feeds::one(read_address(alloc, first)?);
    for (at, text) in rest.iter().enumerate() {
        let place = read_address(alloc, text)?;
        match feeds.others.get_mut(at) {
            Some(other) => *other = Some(place),
            None => return Err(usage_fault(alloc, "--feed is given at most 8 times")?),
        }
    }
    Ok(feeds)
}

/// Reads the server after an option.
pub fn read_place<'a>(
    alloc: Global,
    options: &ArgMatches<'a>,
    name: &str,
) -> Result<ServerAddress<'a>, Fault> {
    match read_place_if_any(alloc, options, name)? {
        Some(place) => Ok(place),
        None => Err(usage_fault(alloc, "a server is missing")?),
    }
}

/// Reads the server after an option, if it is given.
pub fn read_place_if_any<'a>(
    alloc: Global,
    options: &ArgMatches<'a>,
    name: &str,
) -> Result<Option<ServerAddress<'a>>, Fault> {
    let Some(text) = options.get_str(name) else {
        return Ok(None);
    };
    Ok(Some(read_address(alloc, text)?))
}

/// Reads the status port after an option, if it is given. Without a host it is on this machine; port 0 means a free port.
pub fn read_status<'a>(
    alloc: Global,
    options: &ArgMatches<'a>,
    name: &str,
) -> Result<Option<ServerAddress<'a>>, Fault> {
    let Some(text) = options.get_str(name) else {
        return Ok(None);
    };
    match status_place_of(text) {
        Some(place) => Ok(Some(place)),
        None => Err(usage_fault(
            alloc,
            "a status port is HOST:PORT or PORT, with an IPv6 address in brackets and a port to 65535",
        )?),
    }
}

/// Parses a host and a port, or a port of this machine.
pub fn status_place_of(text: &str) -> Option<ServerAddress<'_>> {
    if text.contains(':') {
        place_of(text)
    } else {
        port_of(text)
    }
}

// Parses a port of this machine.
fn port_of(text: &str) -> Option<ServerAddress<'_>> {
    let port = u16::try_from(read_digits(text)?).ok()?;
    Some(ServerAddress {
        text,
        host: "127.0.0.1",
        port,
    })
}

fn read_address<'a>(alloc: Global, text: &'a str) -> Result<ServerAddress<'a>, Fault> {
    match place_of(text) {
        Some(place) if place.port > 0 => Ok(place),
        _ => Err(usage_fault(
            alloc,
            "a server is HOST:PORT, with an IPv6 address in brackets and a port from 1 to 65535",
        )?),
    }
}

// Parses a host and a port. An IPv6 address is written in brackets.
fn place_of(text: &str) -> Option<ServerAddress<'_>> {
    let (host, port) = text.rsplit_once(':')?;
    let port = u16::try_from(read_digits(port)?).ok()?;
    let host = match host.strip_prefix('[') {
        Some(rest) => rest.strip_suffix(']')?,
        None if host.contains(':') => return None,
        None => host,
    };
    if host.is_empty() {
        return None;
    }
    Some(ServerAddress { text, host, port })
}
