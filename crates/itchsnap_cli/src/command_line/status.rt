//! The options of `status`.

use crate::command_line::fault::{Fault, usage_fault};
use crate::command_line::places::status_place_of;
use crate::command_line::request::read_count;
use clap::ArgMatches;
use itch_sessions::ServerAddress;
use std::alloc::Global;

/// The options of `status`.
#[derive(Clone, Copy, Debug, PartialEq, Eq)]
pub struct StatusArguments<'a> {
    /// The status port.
    pub place: ServerAddress<'a>,
    /// For how many seconds the server is asked again until it is ready.
    pub wait: u64,
    /// Whether to print the status as JSON.
    pub json: bool,
}

/// Reads the options of `status`.
pub fn read_status_arguments<'a>(
    alloc: Global,
    options: &ArgMatches<'a>,
) -> Result<StatusArguments<'a>, Fault> {
    let place = options
        .get_str("SERVER")
        .and_then(status_place_of)
        .filter(|place| place.port > 0);
    let Some(place) = place else {
        return Err(usage_fault(
            alloc,
            "a status port is HOST:PORT or PORT, with an IPv6 address in brackets and a port to 65535",
        )?);
    };
    let wait = read_count(alloc, options, "wait", "--wait takes decimal digits")?;
    Ok(StatusArguments {
        place,
        wait: wait.unwrap_or(0),
        json: options.get_flag("json"),
    })
}
