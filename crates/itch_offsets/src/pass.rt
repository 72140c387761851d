//! Reads a day file from row to row.
ghost use Rattle.std.specs.Prelude.{◌≡◌, ◌≤◌, ◌-◌, ◌^◌};
ghost use Rattle.itch_offsets.specs.Passes.{row_answer, row_part};

use crate::directory::{DirectoryBlocks, stopped};
use itch_commands::{Limit, Source, ToolFault};
use itch_day::{DayCursor, PartStop, Tracked, read_part};
use itch_frame::{BlockReader, CountedRead};
use itch_market::Stop;
use std::alloc::Allocator;

/// The number of messages between two rows.
const ROW: u64 = 65_536;

/// A day file that is read on from row to row, with the Stock Directory messages since the last row.
#[derive(Drop)]
pub struct IndexPass<R: CountedRead, A: Allocator, B: Allocator> {
    reader: BlockReader<R, A>,
    tracked: Tracked<DirectoryBlocks<B>>,
    ghost few: { tracked.cursor.count ≤ 10 ^ 19 - 1 },
}

impl<R: CountedRead, A: Allocator, B: Allocator> IndexPass<R, A, B> {
    ghost use Rattle.std.specs.Prelude.{◌≡◌, []};
    ghost use Rattle.itch_day.specs.DayCursors.{first_cursor};
    ghost use Rattle.itch_offsets.specs.Passes.{ReadsRow};

    /// Creates a pass that begins at this reader's position, the beginning of a day file.
    pub fn new(alloc: B, reader: BlockReader<R, A>) -> IndexPass<R, A, B>
        ensures reader { result.reader ≡ reader }
        ensures tracked { result.tracked ≡ record { sink = []; cursor = first_cursor } }
    {
        IndexPass {
            reader,
            tracked: Tracked {
                sink: DirectoryBlocks::new(alloc),
                cursor: DayCursor::new(),
            },
        }
    }

    /// Returns the cursor after the messages read so far.
    pub fn cursor(&self) -> DayCursor
        ensures { result ≡ self.now.tracked.cursor }
    {
        self.tracked.cursor
    }

    /// Returns the blocks of the Stock Directory messages since the last row, one after another.
    pub fn directory(&self) -> &[u8]
        ensures { result.now ≡ self.now.tracked.sink }
    {
        self.tracked.sink.blocks()
    }

    /// Reads on to the next row of a part of the file, and returns true; or to the end of the part, and returns false.
    ///
    /// The faults are those of `show` for this part.
    pub fn read_row(&mut self, limit: Limit) -> Result<bool, ToolFault>
        ensures { ReadsRow R.remaining R.failures limit self.old.reader self.new.reader self.old.tracked.cursor self.new.tracked result }
    {
        self.tracked.sink.clear();
        let mut count = self.tracked.cursor.count;
        let part = row_part(limit, count);
        let stop = read_part(&mut self.reader, &mut count, &mut self.tracked, part);
        answer(stop, limit, count)
    }
}

// Returns the messages of a part up to the next row after this many messages.
fn row_part(limit: Limit, count: u64) -> Limit
    ensures { result ≡ row_part limit count }
{
    Limit {
        after: Some(count.saturating_add(ROW).min(limit.most())),
        until: limit.until,
    }
}

// Returns whether a part goes on after a stop of the reading after this many messages, at a row or before.
fn answer(stop: PartStop<ToolFault>, limit: Limit, count: u64) -> Result<bool, ToolFault>
    ensures { result ≡ row_answer limit count stop }
{
    match stop {
        PartStop::Full => Ok(count < limit.most()),
        PartStop::Late => Ok(false),
        PartStop::End => match limit.after {
            None => Ok(false),
            Some(_) => Err(ToolFault::Short {
                file: Source::Only,
                count,
            }),
        },
        PartStop::Frame(fault) => Err(stopped(count, Stop::Frame(fault))),
        PartStop::TooMany => Err(stopped(count, Stop::TooManyMessages)),
        PartStop::Refused(fault) => Err(fault),
    }
}
