//! The list of `--only`: an argument, or a file.

use crate::failure::Failure;
use itch_commands::{ToolFault, insert_locates, list_file, read_locates};
use itch_market::LocateSet;
use std::alloc::Global;
use std::io::{BufReader, Read};
use std::rt::Files;
use std::{fs, str};

/// The greatest length of an item between two commas or ends of lines: a locate has five digits, and zeros may precede them.
const MOST_BYTES: usize = 1 << 16;

/// Returns the locates of a list, or of the file whose path follows an at sign. In a file, commas may also be line breaks.
///
/// An error is `BadLocates`, a fault of the file, or `OutOfMemory`.
pub fn read_only<R: Files + AllocGlobal>(
    rt: &R,
    arguments: &str,
) -> Result<LocateSet<Global>, Failure> {
    let Some(path) = list_file(arguments) else {
        return Ok(read_locates(rt.alloc(), arguments)?);
    };
    match fs::open(rt, path) {
        Ok(file) => read_file(rt.alloc(), path, file),
        Err(error) => Err(Failure::open(rt.alloc(), path, error)),
    }
}

// Reads the list of a file of any size.
fn read_file<F: Read + Drop>(
    alloc: Global,
    path: &str,
    file: F,
) -> Result<LocateSet<Global>, Failure> {
    let Ok(buffered) = BufReader::new(alloc, file) else {
        return Err(Failure::from(ToolFault::OutOfMemory));
    };
    let mut list = List::new(alloc);
    for byte in buffered.bytes() {
        match byte {
            Ok(byte) => list.pass(byte)?,
            Err(error) => return Err(Failure::open(alloc, path, error)),
        }
    }
    Ok(list.end()?)
}

// A list that is read byte by byte.
#[derive(Drop)]
struct List {
    set: LocateSet<Global>,
    has_parts: bool,
    // The bytes since the last comma or line break.
    part: Vec<u8, Global>,
    is_first_in_line: bool,
}

impl List {
    fn new(alloc: Global) -> List {
        List {
            set: LocateSet::new(alloc),
            has_parts: false,
            part: Vec::new(alloc),
            is_first_in_line: true,
        }
    }

    fn pass(&mut self, byte: u8) -> Result<(), ToolFault> {
        match byte {
            b',' => self.end_part(false),
            b'\n' => self.end_part(true),
            _ if self.part.len() < MOST_BYTES => match self.part.push(byte) {
                Ok(()) => Ok(()),
                Err(_) => Err(ToolFault::OutOfMemory),
            },
            _ => Err(ToolFault::BadLocates),
        }
    }

    // Ends a part, and perhaps its line. Spaces at both ends of a line are dropped, and an empty line has no part.
    fn end_part(&mut self, ends_line: bool) -> Result<(), ToolFault> {
        let Ok(mut text) = str::from_utf8(&self.part) else {
            return Err(ToolFault::BadLocates);
        };
        if self.is_first_in_line {
            text = text.trim_start();
        }
        if ends_line {
            text = text.trim_end();
        }
        if !(text.is_empty() && self.is_first_in_line && ends_line) {
            insert_locates(&mut self.set, text)?;
            self.has_parts = true;
        }
        self.part.clear();
        self.is_first_in_line = ends_line;
        Ok(())
    }

    // Returns the set, at the end of the file.
    fn end(mut self) -> Result<LocateSet<Global>, ToolFault> {
        self.end_part(true)?;
        if self.has_parts {
            Ok(self.set)
        } else {
            Err(ToolFault::BadLocates)
        }
    }
}
