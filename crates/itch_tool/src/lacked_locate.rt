//! What is wrong with a list of locates: an item that is not one, or a locate that a file lacks.
ghost use Rattle.std.specs.Prelude.{◌≡◌, true, false, IfSome};
ghost use Rattle.itch_market.specs.Wanted.{has};

use crate::locate_list::read_only;
use crate::names::{InputFile, Name};
use crate::second_look::is_read_again;
use itch_codec::{CodecFault, Message};
use itch_commands::{Limit, ToolFault, list_file, read_locates};
use itch_day::Sink;
use itch_market::LocateSet;
use std::alloc::{AllocError, Global};
use std::fmt;
use std::rt::Files;

/// The greatest length of an item that is quoted.
const MOST_QUOTED: usize = 20;

/// A list that is not one of locates. `Display` writes its first item that is neither a locate nor a range, and what a list is.
#[derive(Clone, Copy)]
pub enum BadList<'a> {
    /// An item that may be a stock.
    Stock(&'a str),
    Item(&'a str),
    File(&'a str),
    Argument,
}

impl fmt::Display for BadList<'_> {
    fn fmt<W: fmt::Write>(&self, f: &mut fmt::Formatter<W>) -> fmt::Result {
        match self {
            BadList::Stock(stock) => write!(f, "{stock}: use --stock to name a stock"),
            BadList::Item(item) => write!(
                f,
                "{item}: not a locate from 0 to 65535, nor an ascending range such as 1-40"
            ),
            BadList::File(path) => write!(
                f,
                "{path}: a list has locates from 0 to 65535 and ascending ranges such as 1-40, one per line or between commas"
            ),
            BadList::Argument => f.write_str(
                "a list has locates from 0 to 65535 and ascending ranges such as 1-40, between commas",
            ),
        }
    }
}

/// Returns what is wrong with a list of locates.
pub fn bad_list(alloc: Global, list: &str) -> BadList<'_> {
    if let Some(path) = list_file(list) {
        return BadList::File(path);
    }
    if let Some(stock) = list.split(',').find(|item| is_like_stock(item)) {
        return BadList::Stock(stock);
    }
    match list.split(',').find(|item| !is_item(alloc, item)) {
        Some(item) if is_quotable(item) => BadList::Item(item),
        _ => BadList::Argument,
    }
}

// Returns whether an item may be a stock: it begins with a capital letter, and has at most 8 characters.
fn is_like_stock(item: &str) -> bool {
    item.len() <= 8
        && item
            .bytes()
            .next()
            .is_some_and(|byte| byte.is_ascii_uppercase())
}

fn is_item(alloc: Global, item: &str) -> bool {
    !matches!(read_locates(alloc, item), Err(ToolFault::BadLocates))
}

fn is_quotable(item: &str) -> bool {
    !item.is_empty()
        && item.len() <= MOST_QUOTED
        && item.bytes().all(|byte| byte.is_ascii_graphic())
}

/// The lowest locate of a list that a file lacks. `Display` writes it.
#[derive(Clone, Copy)]
pub struct LackedLocate<'a> {
    file: Name<'a>,
    locate: u16,
}

impl fmt::Display for LackedLocate<'_> {
    fn fmt<W: fmt::Write>(&self, f: &mut fmt::Formatter<W>) -> fmt::Result {
        let LackedLocate { file, locate } = self;
        write!(f, "{file}: no locate {locate}")
    }
}

/// Returns the lowest locate of a list that the part of a file lacks. If the file is not read again, that is only known for a list of one.
pub fn lacked_locate<'a, R: Files + AllocGlobal>(
    rt: &R,
    file: InputFile<'a>,
    list: &str,
    part: Option<Limit>,
) -> Option<LackedLocate<'a>> {
    let mut sink = LocateSink {
        known: LocateSet::new(rt.alloc()),
    };
    if !is_read_again(rt, file, part, &mut sink) && has_several(list) {
        return None;
    }
    let wanted = read_only(rt, list).ok()?;
    Some(LackedLocate {
        file: Name::of_input(file.path),
        locate: lowest_lacked(&wanted, &sink.known)?,
    })
}

// Returns whether a list may have more than one locate.
fn has_several(list: &str) -> bool {
    !list.bytes().all(|byte| byte.is_ascii_digit())
}

// Returns the lowest locate that is in one set and not in another.
fn lowest_lacked(wanted: &LocateSet<Global>, known: &LocateSet<Global>) -> Option<u16>
    ensures wanted { IfSome result (λ locate. has wanted.now locate ≡ true) }
    ensures lacked { IfSome result (λ locate. has known.now locate ≡ false) }
{
    for locate in 0..=u16::MAX {
        if wanted.contains(locate) && !known.contains(locate) {
            return Some(locate);
        }
    }
    None
}

// Collects the locates of Stock Directory messages.
#[derive(Drop)]
struct LocateSink {
    known: LocateSet<Global>,
}

impl Sink for LocateSink {
    type Fault = AllocError;

    ghost is_ready = { λ _ _. Unit {0} };

    ghost takes = { λ _ _ _ _. Unit {0} };

    ghost refuses = { λ _ _ _ _ _. Unit {0} };

    fn take(
        &mut self,
        number: u64,
        payload: &[u8],
        message: &Result<Message<'_>, CodecFault>,
    ) -> Result<(), AllocError> {
        let _number = number;
        let _payload = payload;
        match message {
            Ok(Message::StockDirectory(directory)) => self.known.insert(directory.header.locate),
            _ => Ok(()),
        }
    }
}
