//! A checkpoint, described by a line of an index.

use crate::fingerprint::Fingerprint;
use crate::latest::Latest;
use itch_day::{DayCursor, Limit};
use serde_json::Value;
use std::alloc::{AllocError, Global};

/// A snapshot in a folder, as described by a line of the index there.
#[derive(Drop)]
pub struct Checkpoint {
    /// The number of messages before it.
    pub count: u64,
    /// The offset in the day file where the next message begins.
    pub offset: u64,
    pub latest: Latest,
    /// The fingerprint of the day's bytes before its offset, if the line contains it.
    pub fingerprint: Option<Fingerprint>,
    /// The list of its locates, if the snapshot contains only some.
    pub only: Option<String>,
}

impl Checkpoint {
    /// Returns the beginning of a day, where there are no bytes to compare.
    pub fn beginning() -> Checkpoint {
        Checkpoint {
            count: 0,
            offset: 0,
            latest: Latest::Known(None),
            fingerprint: None,
            only: None,
        }
    }

    /// Returns the cursor of its messages, if the checkpoint can be used for a point of the day.
    pub fn cursor(&self, point: Limit) -> Option<DayCursor> {
        self.latest.cursor(self.count, self.offset, point)
    }

    /// Returns the checkpoint of a line, if the line describes one. The last line may be incomplete.
    pub fn read(alloc: Global, line: &[u8]) -> Result<Option<Checkpoint>, AllocError> {
        let Ok(text) = std::str::from_utf8(line) else {
            return Ok(None);
        };
        match Value::from_str(alloc, text) {
            Ok(fields) => of_fields(alloc, &fields),
            Err(error) if error.is_memory() => Err(AllocError),
            Err(_) => Ok(None),
        }
    }
}

fn of_fields(alloc: Global, fields: &Value) -> Result<Option<Checkpoint>, AllocError> {
    let Some((count, offset)) = read_place(fields) else {
        return Ok(None);
    };
    if !is_of_its_file(alloc, fields, count)? {
        return Ok(None);
    }
    let Some(fingerprint) = read_fingerprint(fields) else {
        return Ok(None);
    };
    let only = match fields.get("only") {
        Some(only) => match only.as_str() {
            Some(list) => Some(String::from_str(alloc, list)?),
            None => return Ok(None),
        },
        None => None,
    };
    Ok(Some(Checkpoint {
        count,
        offset,
        latest: read_latest(fields.get("timestamp")),
        fingerprint,
        only,
    }))
}

fn read_place(fields: &Value) -> Option<(u64, u64)> {
    let count = fields.get("messages")?.as_u64()?;
    let offset = fields.get("offset")?.as_u64()?;
    Some((count, offset))
}

// Returns whether the snapshot file that a line with `count` messages names, if it names one, is the one with this number.
fn is_of_its_file(alloc: Global, fields: &Value, count: u64) -> Result<bool, AllocError> {
    let Some(file) = fields.get("file") else {
        return Ok(true);
    };
    let name = format!(in alloc; "{count}.snap")?;
    match file.as_str() {
        Some(file) => Ok(file == name.as_str()),
        None => Ok(false),
    }
}

fn read_latest(timestamp: Option<&Value>) -> Latest {
    match timestamp {
        Some(timestamp) if timestamp.is_null() => Latest::Known(None),
        Some(timestamp) => match timestamp.as_u64() {
            Some(time) => Latest::Known(Some(time)),
            None => Latest::Unknown,
        },
        None => Latest::Unknown,
    }
}

// Returns the fingerprint of a line, if it has one, or `None` if other values are in its place.
fn read_fingerprint(fields: &Value) -> Option<Option<Fingerprint>> {
    match (fields.get("first"), fields.get("last")) {
        (None, None) => Some(None),
        (Some(first), Some(last)) => {
            Some(Some(Fingerprint::read(first.as_str()?, last.as_str()?)?))
        }
        _ => None,
    }
}
