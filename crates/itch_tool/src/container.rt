//! Advice for a file that is compressed, or of captured packets.

use crate::beginning::Beginning;
use crate::names::{InputFile, Subject};
use itchsnap_cli::input::{ContainerFormat, MOST_MAGIC};
use std::io::Read;
use std::rt::Files;
use std::{fmt, fs};

/// A file that is not a day file, but may contain one. `Display` writes what it is, and how to read it.
#[derive(Clone, Copy)]
pub struct ContainerFile<'a> {
    // `None` for standard input.
    path: Option<&'a str>,
    container_format: ContainerFormat,
    arguments: &'static str,
}

/// Returns the file that caused a refusal, if its first bytes are those of a packed one. The refused message need not be the first: the
/// first one may be of a type that is not decoded.
pub fn container_file<'a, R: Files>(
    rt: &R,
    subject: Subject<'a>,
    beginning: &Beginning,
) -> Option<ContainerFile<'a>> {
    let Subject::Input(
        InputFile {
            path,
            arguments,
            ..
        },
    ) = subject
    else {
        return None;
    };
    let container_format = match path {
        Some(path) => container_format(rt, path)?,
        None => beginning.container_format()?,
    };
    Some(ContainerFile {
        path,
        container_format,
        arguments,
    })
}

// Returns the form of a file, from its first bytes. A pipe is not opened again.
fn container_format<R: Files>(rt: &R, path: &str) -> Option<ContainerFormat> {
    if !fs::metadata(rt, path).ok()?.is_file() {
        return None;
    }
    let mut bytes = [0; MOST_MAGIC];
    let mut file = fs::open(rt, path).ok()?;
    file.read_exact(&mut bytes).ok()?;
    ContainerFormat::of(&bytes)
}

impl fmt::Display for ContainerFile<'_> {
    fn fmt<W: fmt::Write>(&self, f: &mut fmt::Formatter<W>) -> fmt::Result {
        let name = self.path.unwrap_or("standard input");
        let Some((form, reader)) = form_and_reader(self.container_format, self.path.is_some())
        else {
            return write!(
                f,
                "{name}: this is a file of captured packets: extract its messages first"
            );
        };
        write!(f, "{name}: this is {form} file: {reader}")?;
        if let Some(path) = self.path {
            write!(f, " {}", ShellWord { path })?;
        }
        // A command that reads its file twice takes no pipe.
        match self.arguments {
            "" => f.write_str(" > FILE"),
            arguments => write!(f, " | itchsnap {arguments}"),
        }
    }
}

// Returns the name of a packed form, and the command that unpacks a named file or standard input. Captured packets have no such command.
fn form_and_reader(
    container_format: ContainerFormat,
    is_named: bool,
) -> Option<(&'static str, &'static str)> {
    match container_format {
        ContainerFormat::Gzip => Some(("a gzip", "zcat")),
        ContainerFormat::Bzip2 => Some(("a bzip2", "bzcat")),
        ContainerFormat::Zstd => Some(("a zstd", "zstdcat")),
        ContainerFormat::Xz => Some(("an xz", "xzcat")),
        ContainerFormat::Lz4 => Some(("an lz4", "lz4cat")),
        ContainerFormat::Zip if is_named => Some(("a zip", "unzip -p")),
        ContainerFormat::Zip => Some(("a zip", "funzip")),
        ContainerFormat::Capture => None,
    }
}

// A path as a word of a shell command.
#[derive(Drop)]
struct ShellWord<'a> {
    path: &'a str,
}

impl fmt::Display for ShellWord<'_> {
    fn fmt<W: fmt::Write>(&self, f: &mut fmt::Formatter<W>) -> fmt::Result {
        if self.path.bytes().all(is_plain) {
            return f.write_str(self.path);
        }
        f.write_str("'")?;
        for (index, part) in self.path.split('\'').enumerate() {
            if index > 0 {
                f.write_str("'\\''")?;
            }
            f.write_str(part)?;
        }
        f.write_str("'")
    }
}

// Returns whether a byte needs no quoting in a word of a shell command.
fn is_plain(byte: u8) -> bool {
    byte.is_ascii_alphanumeric() || b"./_-+=:,@%".contains(&byte) || byte >= 128
}
