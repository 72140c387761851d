//! The times of a day file at which `book` prints books.

use crate::command_line::duration::read_duration;
use crate::command_line::fault::{Fault, usage_fault};
use crate::command_line::request::{read_book_form, read_booked, read_depth};
use crate::command_line::time::read_time;
use clap::ArgMatches;
use itch_depth::BookRequest;
use std::alloc::{AllocError, Global};

/// The greatest timestamp of a message: it has 48 bits.
const LATEST: u64 = (1 << 48) - 1;

/// The times of a day file at which books are requested, in nanoseconds since midnight.
#[derive(Debug, Drop)]
pub enum Times {
    /// At these times. Each is later than the one before.
    At(Vec<u64>),
    /// At every multiple of a duration.
    Every(u64),
}

/// The requested books of a day file, and their times.
#[derive(Debug, Drop)]
pub struct BookArguments<'a> {
    /// The path of the day file, or none for standard input.
    pub file: Option<&'a str>,
    pub request: BookRequest<'a>,
    pub times: Times,
    /// Whether standard error shows how much was read so far.
    pub progress: bool,
}

/// Reads the options of `book`, if they name times.
///
/// An error is a usage fault or out of memory: its kind tells which.
pub fn read_book_arguments<'a>(
    alloc: Global,
    options: &ArgMatches<'a>,
) -> Result<Option<BookArguments<'a>>, Fault> {
    let Some(times) = read_times(alloc, options)? else {
        return Ok(None);
    };
    if has_one_part(options) {
        return Err(usage_fault(
            alloc,
            "the argument '--at' or '--every' cannot be used with '--after', '--until' or '--snapshot'",
        )?);
    }
    let (selection, file) = read_booked(alloc, options)?;
    let request = BookRequest {
        selection,
        depth: read_depth(alloc, options)?,
        form: read_book_form(alloc, options)?,
    };
    Ok(Some(BookArguments {
        file,
        request,
        times,
        progress: options.get_flag("progress"),
    }))
}

// Returns whether the options name one part of a file.
fn has_one_part(options: &ArgMatches<'_>) -> bool {
    options.get_str("after").is_some()
        || options.get_str("until").is_some()
        || options.get_flag("snapshot")
}

// Reads the times after `--at` or `--every`.
fn read_times<'a>(alloc: Global, options: &ArgMatches<'a>) -> Result<Option<Times>, Fault> {
    match (options.get_str("at"), options.get_str("every")) {
        (None, None) => Ok(None),
        (Some(list), None) => match rising(alloc, list)? {
            Some(times) => Ok(Some(Times::At(times))),
            None => Err(usage_fault(
                alloc,
                "--at takes times in ascending order, such as 9:30,10:30:00.000000001, or nanoseconds since midnight",
            )?),
        },
        (None, Some(text)) => match read_duration(text) {
            Some(duration) => Ok(Some(Times::Every(duration))),
            None => Err(usage_fault(
                alloc,
                "--every takes a duration such as 1h, 5m, 30s or 500ms, from 1ms to 24h",
            )?),
        },
        (Some(_), Some(_)) => Err(usage_fault(
            alloc,
            "the argument '--at' cannot be used with '--every'",
        )?),
    }
}

// Returns the times of a list; `None` unless each is later than the one before, and none is later than any timestamp.
fn rising(alloc: Global, list: &str) -> Result<Option<Vec<u64>>, AllocError> {
    let mut times = Vec::new(alloc);
    let mut before = None;
    for text in list.split(',') {
        let Some(time) = read_time(text) else {
            return Ok(None);
        };
        if Some(time) <= before || time > LATEST {
            return Ok(None);
        }
        before = Some(time);
        times.push(time)?;
    }
    Ok(Some(times))
}
