//! The search for the first number of an order's history.
ghost use Rattle.std.specs.Prelude.{◌≡◌};
ghost use Rattle.itch_history.specs.Histories.{first_by};
ghost use Rattle.itch_history.specs.Searches.{Searches, answer_of};

use crate::chain::{Replacement, first_number};
use crate::fault::SearchFault;
use crate::finder::{Finder, NotPassed};
use itch_day::{Limit, PartStop, read_part};
use itch_frame::{BlockReader, CountedRead};
use std::alloc::Allocator;

/// Returns the first number of an order's history in a part of a day file, by one of its numbers; `None` if no message of the part names
/// the order. No order rule is applied, and nothing is read after the first message that names the order, which is left for the next
/// reading.
///
/// It allocates memory for the replacements before that message.
pub fn first_reference<R: CountedRead, A: Allocator, B: Allocator>(
    alloc: B,
    reader: &mut BlockReader<R, A>,
    limit: Limit,
    number: u64,
) -> Result<Option<u64>, SearchFault>
    ensures { Searches R.remaining R.failures number limit reader.old reader.new result }
{
    let mut finder = Finder::new(alloc, number);
    let mut count = 0;
    let stop = read_part(reader, &mut count, &mut finder, limit);
    answer(stop, limit.after, count, &finder.replacements)
}

// Returns the result of a search that stops after this many messages. The end of the file is not a fault, unless more were requested.
fn answer(
    stop: PartStop<NotPassed>,
    wanted: Option<u64>,
    count: u64,
    replacements: &[Replacement],
) -> Result<Option<u64>, SearchFault>
    ensures { result ≡ answer_of (first_by replacements.now) wanted count stop }
{
    match stop {
        PartStop::Full | PartStop::Late => Ok(None),
        PartStop::End => match wanted {
            None => Ok(None),
            Some(_) => Err(SearchFault::Short { count }),
        },
        PartStop::Frame(fault) => Err(SearchFault::Frame { count, fault }),
        PartStop::TooMany => Err(SearchFault::TooMany { count }),
        PartStop::Refused(NotPassed::Found(number)) => Ok(Some(first_number(replacements, number))),
        PartStop::Refused(NotPassed::Codec(fault)) => Err(SearchFault::Codec { count, fault }),
        PartStop::Refused(NotPassed::OutOfMemory) => Err(SearchFault::OutOfMemory),
    }
}
