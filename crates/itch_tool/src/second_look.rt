//! Reads the file of a refused command again, to report what it lacks.

use crate::names::{InputFile, Name};
use crate::opened::size;
use crate::run::blocks;
use itch_codec::{Alpha, CodecFault, Message, SystemEvent};
use itch_commands::Limit;
use itch_day::{Sink, read_part};
use std::alloc::{AllocError, Global};
use std::collections::BTreeSet;
use std::rt::Files;
use std::{fmt, fs};
use strsim::osa_distance;

/// The greatest length of a stock.
const MOST_CHARACTERS: usize = 8;

/// The first stock of a list that a file lacks. `Display` writes it, and a similar one.
#[derive(Clone, Copy)]
pub struct LackedStock<'a> {
    file: Name<'a>,
    name: &'a str,
    similar: Option<Alpha<8>>,
}

impl fmt::Display for LackedStock<'_> {
    fn fmt<W: fmt::Write>(&self, f: &mut fmt::Formatter<W>) -> fmt::Result {
        let LackedStock {
            file,
            name,
            similar,
        } = self;
        if name.len() > MOST_CHARACTERS {
            return write!(
                f,
                "{file}: no stock has more than {MOST_CHARACTERS} characters"
            );
        }
        write!(f, "{file}: no stock {name}")?;
        match similar {
            Some(similar) => write!(f, "; a similar one is {}", similar.text()),
            None => Ok(()),
        }
    }
}

/// Returns the first stock of a list that the part of a file lacks. If the file is not read again, that is only known for a list of one.
pub fn lacked_stock<'a, R: Files + AllocGlobal>(
    rt: &R,
    file: InputFile<'a>,
    names: &'a str,
    part: Option<Limit>,
) -> Option<LackedStock<'a>> {
    let alloc = rt.alloc();
    let mut sink = StockSink {
        stocks: BTreeSet::new(alloc),
    };
    if !is_read_again(rt, file, part, &mut sink) && names.contains(',') {
        return None;
    }
    let name = names
        .split(',')
        .find(|name| !has_stock(&sink.stocks, name))?;
    Some(LackedStock {
        file: Name::of_input(file.path),
        name,
        similar: most_similar(alloc, &sink.stocks, name),
    })
}

fn has_stock(stocks: &BTreeSet<Alpha<8>>, name: &str) -> bool {
    match Alpha::from_text(name) {
        Ok(stock) => stocks.contains(&stock),
        Err(_) => false,
    }
}

// Returns the stock with the fewest edits from a name, if those are not too many. Returns `None` without memory.
fn most_similar(alloc: Global, stocks: &BTreeSet<Alpha<8>>, name: &str) -> Option<Alpha<8>> {
    if name.len() > MOST_CHARACTERS {
        return None;
    }
    let mut fewest = name.len() / 2;
    let mut similar = None;
    for stock in stocks.iter() {
        let edits = edits_between(alloc, name, stock.text()).ok()?;
        if edits < fewest || (edits == fewest && similar.is_none()) {
            fewest = edits;
            similar = Some(*stock);
        }
    }
    similar
}

// Returns the number of edits from a name to a stock, ignoring the case of its letters.
fn edits_between(alloc: Global, name: &str, stock: &str) -> Result<usize, AllocError> {
    let upper = name.to_ascii_uppercase(alloc)?;
    osa_distance(alloc, upper.as_str(), stock)
}

/// The last system event of the part of a file. `Display` writes its code, and its time.
#[derive(Clone, Copy)]
pub struct LastEvent<'a> {
    file: Name<'a>,
    last: Option<(u64, SystemEvent)>,
}

impl fmt::Display for LastEvent<'_> {
    fn fmt<W: fmt::Write>(&self, f: &mut fmt::Formatter<W>) -> fmt::Result {
        let file = self.file;
        let Some((number, event)) = &self.last else {
            return write!(f, "{file}: no system event");
        };
        let code = char::from(event.code).escape_default();
        let time = TimeOfDay {
            nanoseconds: event.header.stamp.value(),
        };
        write!(
            f,
            "{file}: the last system event is '{code}' at {time}, message {number}"
        )
    }
}

/// Returns the last system event of the part of a file, unless it is a pipe, which cannot be read again.
pub fn last_event<'a, R: Files + AllocGlobal>(
    rt: &R,
    file: InputFile<'a>,
    part: Option<Limit>,
) -> Option<LastEvent<'a>> {
    let mut events = EventSink { last: None };
    if !is_read_again(rt, file, part, &mut events) {
        return None;
    }
    Some(LastEvent {
        file: Name::of_input(file.path),
        last: events.last,
    })
}

// A time of the day, in nanoseconds since midnight.
#[derive(Clone, Copy)]
struct TimeOfDay {
    nanoseconds: u64,
}

impl fmt::Display for TimeOfDay {
    fn fmt<W: fmt::Write>(&self, f: &mut fmt::Formatter<W>) -> fmt::Result {
        let (seconds, rest) = (
            self.nanoseconds / 1_000_000_000,
            self.nanoseconds % 1_000_000_000,
        );
        let (hours, minutes, seconds) = (seconds / 3_600, seconds / 60 % 60, seconds % 60);
        write!(f, "{hours:02}:{minutes:02}:{seconds:02}.{rest:09}")
    }
}

/// Reads the part of a file again, if it is a file and not a pipe, and returns whether it did. A fault ends it, as it did before.
pub fn is_read_again<R: Files + AllocGlobal, S: Sink>(
    rt: &R,
    file: InputFile<'_>,
    part: Option<Limit>,
    sink: &mut S,
) -> bool
where
    S::Fault: Drop,
    requires { S.is_ready sink.old 1 }
{
    let (Some(path), Some(limit)) = (file.path, part) else {
        return false;
    };
    if size(rt, path).is_none() {
        return false;
    }
    let Ok(opened) = fs::open(rt, path) else {
        return false;
    };
    let Ok(mut reader) = blocks(rt.alloc(), opened) else {
        return false;
    };
    let mut count = 0;
    let _ = read_part(&mut reader, &mut count, sink, limit);
    true
}

// Collects the stocks in Stock Directory messages.
#[derive(Drop)]
struct StockSink {
    stocks: BTreeSet<Alpha<8>>,
}

impl Sink for StockSink {
    type Fault = AllocError;

    ghost is_ready = { λ _ _. Unit {0} };

    ghost takes = { λ _ _ _ _. Unit {0} };

    ghost refuses = { λ _ _ _ _ _. Unit {0} };

    fn take(
        &mut self,
        number: u64,
        payload: &[u8],
        message: &Result<Message<'_>, CodecFault>,
    ) -> Result<(), AllocError> {
        let _number = number;
        let _payload = payload;
        match message {
            Ok(Message::StockDirectory(directory)) => {
                let _is_new = self.stocks.insert(directory.entry.stock)?;
                Ok(())
            }
            _ => Ok(()),
        }
    }
}

// Finds the last system event, with the number of its message.
#[derive(Drop)]
struct EventSink {
    last: Option<(u64, SystemEvent)>,
}

impl Sink for EventSink {
    type Fault = AllocError;

    ghost is_ready = { λ _ _. Unit {0} };

    ghost takes = { λ _ _ _ _. Unit {0} };

    ghost refuses = { λ _ _ _ _ _. Unit {0} };

    fn take(
        &mut self,
        number: u64,
        payload: &[u8],
        message: &Result<Message<'_>, CodecFault>,
    ) -> Result<(), AllocError> {
        let _payload = payload;
        if let Ok(Message::SystemEvent(event)) = message {
            self.last = Some((number, *event));
        }
        Ok(())
    }
}
