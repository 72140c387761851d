//! The request for the best prices of one stock after each message that changes them.

use crate::command_line::fault::{Fault, usage_fault};
use crate::command_line::request::{read_book_form, read_booked, read_depth, read_kind};
use clap::ArgMatches;
use itch_commands::{FileKind, Limit, Selection};
use itch_depth::{ChangesRequest, OneStock};
use std::alloc::Global;

/// The maximum number of prices of each side, which `--csv` prints in one line.
const MOST_PRICES: u64 = 1_000;

/// The requested changes of a book, and the part of the day file.
#[derive(Clone, Copy, Debug, PartialEq, Eq)]
pub struct ChangeArguments<'a> {
    /// The path of the day file, or none for standard input.
    pub file: Option<&'a str>,
    /// The requested part of it.
    pub limit: Limit,
    pub request: ChangesRequest<'a>,
    /// The stock, as it was given.
    pub selection: Selection<'a>,
    /// Whether standard error shows how much was read so far.
    pub progress: bool,
}

/// Reads the options of `book --changes`.
///
/// An error is a usage fault or out of memory: its kind tells which.
pub fn read_changes<'a>(
    alloc: Global,
    options: &ArgMatches<'a>,
) -> Result<ChangeArguments<'a>, Fault> {
    let FileKind::Day(limit) = read_kind(alloc, options)? else {
        return Err(usage_fault(
            alloc,
            "the argument '--changes' cannot be used with '--snapshot'",
        )?);
    };
    let (selection, file) = read_booked(alloc, options)?;
    Ok(ChangeArguments {
        file,
        limit,
        request: ChangesRequest {
            stock: read_one(alloc, selection)?,
            depth: read_prices(alloc, options)?,
            form: read_book_form(alloc, options)?,
        },
        selection,
        progress: options.get_flag("progress"),
    })
}

// Reads the one stock of a selection.
fn read_one<'a>(alloc: Global, selection: Selection<'a>) -> Result<OneStock<'a>, Fault> {
    match selection {
        Selection::Stocks(name) if !name.contains(',') => return Ok(OneStock::Named(name)),
        Selection::Locates(text) if text.bytes().all(|byte| byte.is_ascii_digit()) => {
            if let Ok(locate) = text.parse::<u16>() {
                return Ok(OneStock::Locate(locate));
            }
        }
        _ => {}
    }
    Err(usage_fault(
        alloc,
        "--changes takes one stock or one locate, such as --stock AAPL",
    )?)
}

// Reads the number of prices of each side, which defaults to the best one.
fn read_prices<'a>(alloc: Global, options: &ArgMatches<'a>) -> Result<usize, Fault> {
    let depth = read_depth(alloc, options)?.unwrap_or(1);
    if depth < 1 || depth > MOST_PRICES {
        return Err(usage_fault(alloc, "--changes takes --depth from 1 to 1000")?);
    }
    Ok(depth as usize)
}
