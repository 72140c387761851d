//! Writes the list of a set of locates, as text.
ghost use Rattle.std.specs.Prelude.{◌≡◌, ◌+◌, ◌++◌, ◌∷◌, [], true, false, if◌then◌else◌, IfOk, OnOk, Some, None};
ghost use Rattle.std.specs.String.{string_bytes};
ghost use Rattle.itch_market.specs.Wanted.{Wanted, has};
ghost use Rattle.itch_commands.specs.Locates.{IsListText, range_text};
ghost use Rattle.itch_commands.specs.Runs.{IsWritten};

use itch_market::LocateSet;
use itoa::Buffer;
use std::alloc::{AllocError, Allocator};

/// Returns the list of a set's locates, with one range for each run of them, in ascending order.
pub fn write_locates<A: Allocator + Copy>(
    alloc: A,
    set: &LocateSet<A>,
) -> Result<String<A>, AllocError>
    ensures { IfOk result (λ list. IsListText set.now (string_bytes list)) }
{
    let mut runs = Runs::new(alloc);
    for locate in 0..=u16::MAX {
        runs.pass(locate, set.contains(locate))?;
    }
    runs.end()
}

// The list of the locates of a set below the next one.
#[derive(Drop)]
struct Runs<A: Allocator> {
    list: String<A>,
    is_first: bool,
    // The beginning of a run that has not ended, and is not in the list yet.
    begun: Option<u16>,
}

impl<A: Allocator> Runs<A> {
    fn new(alloc: A) -> Runs<A>
        ensures { (set : Wanted) → IsWritten set (string_bytes result.list) result.is_first result.begun 0 }
    {
        Runs {
            list: String::new(alloc),
            is_first: true,
            begun: None,
        }
    }

    // Passes the next locate, which is in the set or not.
    fn pass(&mut self, locate: u16, is_in: bool) -> Result<(), AllocError>
        ensures { OnOk result ((set : Wanted) → IsWritten set (string_bytes self.old.list) self.old.is_first self.old.begun locate → is_in ≡ has set locate
            → IsWritten set (string_bytes self.new.list) self.new.is_first self.new.begun (locate + 1)) }
    {
        match (self.begun, is_in) {
            (None, false) => Ok(()),
            (None, true) => {
                self.begun = Some(locate);
                Ok(())
            }
            (Some(_), true) => Ok(()),
            (Some(begin), false) => {
                self.push(begin, locate.saturating_sub(1))?;
                self.begun = None;
                Ok(())
            }
        }
    }

    // Returns the complete list.
    fn end(mut self) -> Result<String<A>, AllocError>
        ensures { IfOk result (λ list. (set : Wanted) → IsWritten set (string_bytes self.list) self.is_first self.begun 65536 → IsListText set (string_bytes list)) }
    {
        if let Some(begin) = self.begun {
            self.push(begin, u16::MAX)?;
            return Ok(self.list);
        }
        Ok(self.list)
    }

    // Appends a range, after a comma unless it is the first.
    fn push(&mut self, first: u16, last: u16) -> Result<(), AllocError>
        ensures text { OnOk result (string_bytes self.new.list ≡ string_bytes self.old.list ++ ((if self.old.is_first then [] else 44 ∷ []) ++ range_text (first, last))) }
        ensures is_first { OnOk result (self.new.is_first ≡ false) }
        ensures begun { self.new.begun ≡ self.old.begun }
    {
        if !self.is_first {
            self.list.push(',')?;
        }
        push_range(&mut self.list, first, last)?;
        self.is_first = false;
        Ok(())
    }
}

fn push_range<A: Allocator>(list: &mut String<A>, first: u16, last: u16) -> Result<(), AllocError>
    ensures { OnOk result (string_bytes list.new ≡ string_bytes list.old ++ range_text (first, last)) }
{
    list.push_str(Buffer::new().format(first))?;
    if first < last {
        list.push('-')?;
        list.push_str(Buffer::new().format(last))?;
    }
    Ok(())
}
