//! The files of one session of the feed, which is one day.
ghost use Rattle.std.specs.Prelude.{◌≡◌, ◌<◌, ◌++◌, IfOk, OnOk};
ghost use Rattle.itch_records.specs.DayFiles.{digit, file_character, file_stem, is_plain};

use itch_codec::Alpha;
use itch_sessions::log::entry::{LogEvent, LogLevel, write_text};
use itch_sessions::log::form::LogForm;
use itch_sessions::name_of;
use std::alloc::{AllocError, Allocator};
use std::fmt::{self, Display, Formatter};
use std::fs;
use std::io::{self, ErrorKind};
use std::rt::Files;

/// The paths of a day's record and of its folder of snapshots, if there are any.
#[derive(Debug, Drop)]
pub struct DayPaths {
    pub record: Option<String>,
    pub snapshots: Option<String>,
}

impl DayPaths {
    /// Returns paths without any files.
    pub fn none() -> DayPaths {
        DayPaths {
            record: None,
            snapshots: None,
        }
    }
}

/// Creates a folder, unless it exists.
///
/// # Errors
///
/// The system's error if it cannot be created.
pub fn make_folder<R: Files>(rt: &R, path: &str) -> io::Result<()> {
    match fs::create_dir(rt, path) {
        Err(error) if matches!(error.kind(), ErrorKind::AlreadyExists) => Ok(()),
        made => made,
    }
}

/// Returns the name of a session's files, without extensions. Letters, digits, `-` and `_` are kept; any other byte is written as % and two
/// hexadecimal digits. A blank session counts as one space.
///
/// # Errors
///
/// [`AllocError`] if memory is refused.
pub fn stem_of<A: Allocator>(alloc: A, session: &Alpha<10>) -> Result<Vec<u8, A>, AllocError>
    ensures { IfOk result (λ stem. stem.items ≡ file_stem session.now) }
{
    let mut stem = Vec::new(alloc);
    let name = name_of(session);
    if name.is_empty() {
        push_character(&mut stem, b' ')?;
    }
    for &byte in name {
        push_character(&mut stem, byte)?;
    }
    Ok(stem)
}

fn push_character<A: Allocator>(stem: &mut Vec<u8, A>, byte: u8) -> Result<(), AllocError>
    ensures { OnOk result (stem.new.items ≡ stem.old.items ++ file_character byte) }
{
    if is_plain(byte) {
        stem.push(byte)?;
        return Ok(());
    }
    stem.extend_from_slice(&[b'%', digit(byte / 16), digit(byte % 16)])?;
    Ok(())
}

// Returns whether a byte is a letter, a digit, - or _.
fn is_plain(byte: u8) -> bool
    ensures { result ≡ is_plain byte }
{
    matches!(byte, b'0'..=b'9' | b'A'..=b'Z' | b'a'..=b'z' | b'-' | b'_')
}

fn digit(value: u8) -> u8
    requires { value < 16 }
    ensures { result ≡ digit value }
{
    if value < 10 { 48 + value } else { 55 + value }
}

/// The line for the start of a day: its session, and the path of its record.
#[derive(Drop)]
pub struct DayBegun<'a> {
    pub session: Alpha<10>,
    pub record: &'a str,
}

impl Display for DayBegun<'_> {
    fn fmt<W: fmt::Write>(&self, f: &mut Formatter<W>) -> fmt::Result {
        let (session, record) = (self.session.text().trim(), self.record);
        write!(f, "session: {session}, recorded in {record}")
    }
}

impl LogEvent for DayBegun<'_> {
    fn level(&self) -> LogLevel {
        LogLevel::Info
    }

    fn name(&self) -> &'static str {
        "session_begun"
    }

    fn write_fields<W: fmt::Write>(&self, f: &mut Formatter<W>, form: LogForm) -> fmt::Result {
        write_text(f, form, "session", self.session.text().trim())?;
        write_text(f, form, "record", self.record)
    }
}
