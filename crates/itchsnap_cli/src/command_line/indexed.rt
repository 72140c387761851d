//! The words of `index`, and of `show` and `cut` with an index.
ghost use Rattle.std.specs.Prelude.{◌≡◌};
ghost use Rattle.itchsnap_cli.specs.Jobs.{cuts};

use crate::command_line::fault::{Fault, usage_fault};
use crate::command_line::history::{HistoryArguments, read_history};
use crate::command_line::request::{read_limit, read_output, read_path, read_request};
use clap::ArgMatches;
use itch_commands::{Command, Limit, Request};
use std::alloc::Global;

/// A request for the index of a day file.
#[derive(Clone, Copy, Debug, PartialEq, Eq)]
pub struct IndexArguments<'a> {
    /// The path of the day file, or `None` for standard input.
    pub file: Option<&'a str>,
    /// The part of it that the index covers.
    pub limit: Limit,
    /// Whether standard error shows how much was read so far.
    pub progress: bool,
    /// The path of the index, or `None` for standard output.
    pub output: Option<&'a str>,
}

/// The use of a day file with an index.
#[derive(Clone, Copy, Debug, PartialEq, Eq)]
pub enum IndexedWork<'a> {
    /// `show` or `cut`.
    Command(Command<'a>),
    /// `show --history`.
    History(HistoryArguments<'a>),
}

/// A request that reads a day file with an index.
#[derive(Clone, Copy, Debug, PartialEq, Eq)]
pub struct IndexedArguments<'a> {
    /// The path of the day file.
    pub file: &'a str,
    /// The path of its index.
    pub index: &'a str,
    pub work: IndexedWork<'a>,
    /// Whether standard error shows how much was read so far.
    pub progress: bool,
    /// The path of the output file, or `None` for standard output.
    pub output: Option<&'a str>,
}

impl<'a> IndexedArguments<'a> {
    /// Returns the request for a command.
    pub fn request(&self, command: Command<'a>) -> Request<'a> {
        Request::One {
            file: Some(self.file),
            command,
        }
    }
}

/// Reads the options of `index`.
///
/// An error is a usage fault or out of memory: its kind tells which.
pub fn read_index_arguments<'a>(
    alloc: Global,
    options: &ArgMatches<'a>,
) -> Result<IndexArguments<'a>, Fault> {
    Ok(IndexArguments {
        file: read_path(options, "FILE"),
        limit: read_limit(alloc, options)?,
        progress: options.get_flag("progress"),
        output: read_output(alloc, options)?,
    })
}

/// Reads the options of `show` or `cut` with `--index`; `None` without it.
///
/// An error is a usage fault or out of memory: its kind tells which.
pub fn read_indexed<'a>(
    alloc: Global,
    matches: &ArgMatches<'a>,
    options: &ArgMatches<'a>,
) -> Result<Option<IndexedArguments<'a>>, Fault> {
    let Some(index) = options.get_str("index") else {
        return Ok(None);
    };
    if options.get_flag("snapshot") {
        return Err(usage_fault(
            alloc,
            "the argument '--index <PATH>' cannot be used with '--snapshot'",
        )?);
    }
    let work = read_work(alloc, matches, options)?;
    let Some(file) = read_path(options, "FILE") else {
        return Err(usage_fault(
            alloc,
            "--index reads its file from any message on: name a file, not standard input",
        )?);
    };
    Ok(Some(IndexedArguments {
        file,
        index,
        work,
        progress: options.get_flag("progress"),
        output: read_output(alloc, options)?,
    }))
}

fn read_work<'a>(
    alloc: Global,
    matches: &ArgMatches<'a>,
    options: &ArgMatches<'a>,
) -> Result<IndexedWork<'a>, Fault> {
    if options.get_flag("history") {
        return Ok(IndexedWork::History(read_history(alloc, options)?));
    }
    match read_request(alloc, matches)? {
        Request::One { command, .. } => Ok(IndexedWork::Command(command)),
        _ => Err(usage_fault(alloc, "a command is missing")?),
    }
}

impl IndexedWork<'_> {
    /// Returns whether the output is a day file, not text.
    pub fn is_binary(&self) -> bool
        ensures { result ≡ cuts self.now }
    {
        matches!(self, IndexedWork::Command(Command::Cut { .. }))
    }
}
