//! The lines of the log as events with fields.

use crate::log::form::LogForm;
use itch_status::UTC;
use std::fmt::{self, Display, Formatter};
use std::str;

/// The severity of a line.
#[derive(Clone, Copy, Debug, PartialEq, Eq)]
pub enum LogLevel {
    Info,
    Warn,
    Error,
}

impl LogLevel {
    fn words(self) -> &'static str {
        match self {
            LogLevel::Info => "info",
            LogLevel::Warn => "warn",
            LogLevel::Error => "error",
        }
    }
}

/// A line of the log, which is also an event with fields.
pub trait LogEvent: Display {
    /// Returns its severity.
    fn level(&self) -> LogLevel;

    /// Returns its name.
    fn name(&self) -> &'static str;

    /// Writes its fields.
    fn write_fields<W: fmt::Write>(&self, f: &mut Formatter<W>, form: LogForm) -> fmt::Result;
}

/// Writes a field with a number.
pub fn write_number<W: fmt::Write>(
    f: &mut Formatter<W>,
    form: LogForm,
    key: &str,
    number: u64,
) -> fmt::Result {
    write_key(f, form, key)?;
    write!(f, "{number}")
}

/// Writes a field with milliseconds as seconds with three decimals.
pub fn write_seconds<W: fmt::Write>(
    f: &mut Formatter<W>,
    form: LogForm,
    key: &str,
    ms: u64,
) -> fmt::Result {
    write_key(f, form, key)?;
    let (seconds, rest) = (ms / 1_000, ms % 1_000);
    write!(f, "{seconds}.{rest:03}")
}

/// Writes a field with a text, which may contain any characters.
pub fn write_text<W: fmt::Write>(
    f: &mut Formatter<W>,
    form: LogForm,
    key: &str,
    text: &str,
) -> fmt::Result {
    write_key(f, form, key)?;
    f.write_str("\"")?;
    write_escaped(f, text)?;
    f.write_str("\"")
}

/// Writes a field whose displayed text contains no quotation marks or backslashes.
pub fn write_shown<W: fmt::Write, D: Display>(
    f: &mut Formatter<W>,
    form: LogForm,
    key: &str,
    shown: &D,
) -> fmt::Result {
    write_key(f, form, key)?;
    write!(f, "\"{shown}\"")
}

/// Writes a field with a letter.
pub fn write_letter<W: fmt::Write>(
    f: &mut Formatter<W>,
    form: LogForm,
    key: &str,
    letter: u8,
) -> fmt::Result {
    write_key(f, form, key)?;
    f.write_str("\"")?;
    write_escaped_character(f, char::from(letter))?;
    f.write_str("\"")
}

fn write_key<W: fmt::Write>(f: &mut Formatter<W>, form: LogForm, key: &str) -> fmt::Result {
    match form {
        LogForm::Json => write!(f, ",\"{key}\":"),
        LogForm::Plain | LogForm::Text => write!(f, " {key}="),
    }
}

fn write_escaped<W: fmt::Write>(f: &mut Formatter<W>, text: &str) -> fmt::Result {
    for character in text.chars() {
        write_escaped_character(f, character)?;
    }
    Ok(())
}

// Writes a character, with a backslash before a quotation mark or a backslash, and a control character as its code.
fn write_escaped_character<W: fmt::Write>(f: &mut Formatter<W>, character: char) -> fmt::Result {
    match character {
        '"' => f.write_str("\\\""),
        '\\' => f.write_str("\\\\"),
        _ if character < ' ' => {
            let number = u32::from(character);
            write!(f, "\\u{number:04x}")
        }
        _ => f.write_char(character),
    }
}

/// An event with its time, in a form.
#[derive(Drop)]
pub struct LogLine<'a, E> {
    pub time: Option<[u8; UTC]>,
    pub form: LogForm,
    pub event: &'a E,
}

impl<E: LogEvent> Display for LogLine<'_, E> {
    fn fmt<W: fmt::Write>(&self, f: &mut Formatter<W>) -> fmt::Result {
        let time = match &self.time {
            Some(time) => str::from_utf8(time).unwrap_or("-"),
            None => "-",
        };
        let (level, name) = (self.event.level().words(), self.event.name());
        match self.form {
            LogForm::Json => {
                write!(
                    f,
                    "{{\"time\":\"{time}\",\"level\":\"{level}\",\"event\":\"{name}\""
                )?;
                self.event.write_fields(f, self.form)?;
                f.write_str("}")
            }
            LogForm::Plain | LogForm::Text => {
                write!(f, "{time} {level} {name}")?;
                self.event.write_fields(f, self.form)
            }
        }
    }
}
