//! The points of a day file at which `snap` writes snapshots.

use crate::command_line::arguments::MOST_COUNTED;
use crate::command_line::fault::{Fault, usage_fault};
use crate::command_line::request::{
    read_count, read_output, read_path, read_selection, read_until,
};
use crate::command_line::time::{read_digits, read_time};
use clap::ArgMatches;
use itch_commands::snap::{PointLimits, Points};
use itch_commands::{Limit, Selection};
use std::alloc::{AllocError, Global};

/// The requested snapshots of a day file, and the folder for them.
#[derive(Debug, Drop)]
pub struct PointArguments<'a> {
    /// The path of the day file, or none for standard input.
    pub file: Option<&'a str>,
    pub points: Points,
    /// The locates to keep.
    pub selection: Selection<'a>,
    pub folder: &'a str,
    /// Whether standard error shows how much was read so far.
    pub progress: bool,
}

/// The output of `snap`.
#[derive(Drop)]
pub enum SnapArguments<'a> {
    /// The snapshot after this part of the file.
    One(Limit),
    /// Snapshots in a folder.
    Several(PointArguments<'a>),
}

/// Reads the options of `snap`.
///
/// An error is a usage fault or out of memory: its kind tells which.
pub fn read_snap_arguments<'a>(
    alloc: Global,
    options: &ArgMatches<'a>,
) -> Result<SnapArguments<'a>, Fault> {
    let points = read_list(alloc, options)?;
    let Some(folder) = options.get_str("to") else {
        return Ok(SnapArguments::One(one_part(alloc, options, &points)?));
    };
    if read_output(alloc, options)?.is_some() {
        return Err(usage_fault(
            alloc,
            "the argument '--to <DIR>' cannot be used with '--output <PATH>'",
        )?);
    }
    Ok(SnapArguments::Several(PointArguments {
        file: read_path(options, "FILE"),
        points,
        selection: read_selection(alloc, options)?,
        folder,
        progress: options.get_flag("progress"),
    }))
}

// Reads the one requested part of a file without a folder: up to a number of messages, or a time, whichever comes first.
fn one_part<'a>(alloc: Global, options: &ArgMatches<'a>, points: &Points) -> Result<Limit, Fault> {
    if let Points::At(limits) = points {
        let limits = limits.as_slice();
        if limits.len() == 1 {
            return match limits[0].after {
                Some(_) => Ok(Limit {
                    after: limits[0].after,
                    until: read_until(alloc, options)?,
                }),
                None => Ok(limits[0]),
            };
        }
    }
    Err(usage_fault(
        alloc,
        "several points require '--to <DIR>', a folder for their snapshots",
    )?)
}

// Reads the points after `--after`, `--until` or `--every`.
fn read_list<'a>(alloc: Global, options: &ArgMatches<'a>) -> Result<Points, Fault> {
    let every = read_count(alloc, options, "every", "--every takes decimal digits")?;
    match (options.get_str("after"), options.get_str("until"), every) {
        (None, None, None) => Ok(Points::At(PointLimits::one(alloc, Limit::whole())?)),
        (Some(list), None, None) => read_each(alloc, list, Unit::Messages),
        (None, Some(list), None) => read_each(alloc, list, Unit::Time),
        (None, None, Some(count)) => Ok(Points::Every(count)),
        // Whichever comes first ends the one requested part.
        (Some(list), Some(_), None) if options.get_str("to").is_none() => read_each(
            alloc,
            list,
            Unit::Messages,
        ),
        _ => Err(usage_fault(
            alloc,
            "only one of '--after <N>', '--until <TIME>' and '--every <N>' can be used with '--to <DIR>'",
        )?),
    }
}

// The unit of a list.
#[derive(Clone, Copy)]
enum Unit {
    Messages,
    Time,
}

impl Unit {
    // Returns the part of a file that ends at a point, unless the text is not a point.
    fn limit(self, text: &str) -> Option<Limit> {
        match self {
            Unit::Messages => Some(Limit::counted(Some(read_number(text)?))),
            Unit::Time => Some(Limit {
                after: None,
                until: Some(read_time(text)?),
            }),
        }
    }

    // Returns the fault of a list with an invalid item, or of one that does not ascend.
    fn fault(self) -> &'static str {
        match self {
            Unit::Messages => {
                "--after takes a number of messages, or with --to several in ascending order, such as 1000,2000"
            }
            Unit::Time => {
                "--until takes a time such as 10:30 or 10:30:00.000000001, or nanoseconds since midnight; with --to several in ascending order"
            }
        }
    }
}

fn read_each(alloc: Global, list: &str, unit: Unit) -> Result<Points, Fault> {
    match rising(alloc, list, unit)? {
        Some(limits) => Ok(Points::At(limits)),
        None => Err(usage_fault(alloc, unit.fault())?),
    }
}

// Returns the parts of a file that end at the points of a list; `None` unless each is longer than the one before.
fn rising(alloc: Global, list: &str, unit: Unit) -> Result<Option<PointLimits>, AllocError> {
    let mut limits = Vec::new(alloc);
    for text in list.split(',') {
        let Some(limit) = unit.limit(text) else {
            return Ok(None);
        };
        limits.push(limit)?;
    }
    Ok(PointLimits::of(limits))
}

// Parses a number of messages in decimal digits only.
fn read_number(text: &str) -> Option<u64> {
    let number = read_digits(text)?;
    if number <= MOST_COUNTED as u64 {
        Some(number)
    } else {
        None
    }
}
