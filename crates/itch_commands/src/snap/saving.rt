//! Saves the snapshots at several points of a day file, in one pass.
ghost use Rattle.std.specs.Prelude.{◌≡◌, ℕ, ◌+◌, ◌-◌, ◌^◌, ◌<◌, min, OnOk, IfOk, Result, true};
ghost use Rattle.itch_frame.specs.Reading.{Reading};
ghost use Rattle.itch_day.specs.Parts.{GoesOn, GoesOnTo};
ghost use Rattle.itch_day.specs.Passing.{left_by};
ghost use Rattle.itch_day.specs.declared.cursor.DayCursor.{DayCursor as AnyCursor};
ghost use Rattle.itch_day.specs.declared.limit.Limit.{Limit as AnyLimit};
ghost use Rattle.itch_day.specs.declared.stop.PartStop.TheVariants.{Full};
ghost use Rattle.itch_commands.specs.Points.{IsRead, Reaches, Stands, at_first};
ghost use Rattle.itch_commands.specs.SavedPoints.{SavesAt, SavesEach, SavesEvery, SavesNext, SavesPoints};

use crate::fault::ToolFault;
use crate::snap::point_market::Followed;
use crate::snap::point_reader::PointReader;
use crate::snap::points::{PointLimits, Points};
use itch_book::OrderBook;
use itch_day::Limit;
use itch_frame::{BlockReader, CountedRead};
use std::alloc::Allocator;

/// Saves the snapshots at the points of a day file, for example as files of a folder.
pub trait PointSaver<R: CountedRead, A: Allocator, B: OrderBook> {
    /// The reason why a snapshot is not saved, or why the file is refused.
    type Fault: From<ToolFault>;

    // States the result of saving the snapshot of a part, and the state afterwards. The part was read from one reader of blocks to another, up
    // to this cursor.
    ghost saves: { Self → AnyLimit → Reading R → Reading R → AnyCursor → Result (Unit {0}) Self.Fault → Self → Type 0 };

    /// Saves the snapshot at the end of the part that was read last.
    fn save(&mut self, pass: &PointReader<'_, R, A, B>) -> Result<(), Self::Fault>
        requires { IsRead R.remaining R.failures pass.now.limit.value pass.now.first.value (left_by pass.now.stop.value pass.now.reader)
            pass.now.tracked.sink pass.now.tracked.cursor }
        ensures { saves self.old pass.now.limit.value pass.now.first.value (left_by pass.now.stop.value pass.now.reader) pass.now.tracked.cursor
            result self.new };
}

/// Saves the snapshots at these points of a day file, in one pass over it, up to the first fault: each is that of one reading of its part.
/// The snapshots of the followed locates are fast.
///
/// One per 0 messages are one per message.
pub fn save_points<R: CountedRead + Drop, A: Allocator, B: OrderBook, S: PointSaver<R, A, B>>(
    alloc: B::Alloc,
    reader: BlockReader<R, A>,
    followed: Followed<'_, B::Alloc>,
    points: &Points,
    saver: &mut S,
) -> Result<bool, S::Fault>
    ensures { SavesPoints R.remaining R.failures S.Fault.from_gives S.saves points.now reader saver.old result saver.new }
{
    let mut pass: PointReader<'_, R, A, B> = PointReader::new(alloc, reader, followed);
    match points {
        Points::At(limits) => save_each(&mut pass, limits, saver),
        Points::Every(step) => save_every(&mut pass, (*step).max(1), saver),
    }
}

// Saves the snapshots at the ends of these parts.
fn save_each<R: CountedRead, A: Allocator, B: OrderBook, S: PointSaver<R, A, B>>(
    pass: &mut PointReader<'_, R, A, B>,
    limits: &PointLimits,
    saver: &mut S,
) -> Result<bool, S::Fault>
    requires stands { Stands R.remaining R.failures pass.old.limit.value pass.old.first.value pass.old.reader pass.old.tracked pass.old.stop.value }
    requires begins { pass.old.limit.value ≡ at_first }
    requires unread { pass.old.stop.value ≡ Full }
    ensures { SavesEach R.remaining R.failures S.Fault.from_gives S.saves pass.old.first.value limits.now.limits.items saver.old result saver.new }
{
    let parts = limits.as_slice();
    for &limit in parts {
        save_at(pass, limit, saver)?;
    }
    Ok(true)
}

// Reads on to the end of a part, and saves the snapshot there.
fn save_at<R: CountedRead, A: Allocator, B: OrderBook, S: PointSaver<R, A, B>>(
    pass: &mut PointReader<'_, R, A, B>,
    limit: Limit,
    saver: &mut S,
) -> Result<(), S::Fault>
    requires stands { Stands R.remaining R.failures pass.old.limit.value pass.old.first.value pass.old.reader pass.old.tracked pass.old.stop.value }
    requires goes_on { GoesOnTo pass.old.limit.value pass.old.stop.value pass.old.tracked.cursor.count limit }
    ensures saves { SavesAt R.remaining R.failures S.Fault.from_gives S.saves limit pass.old.first.value saver.old result saver.new }
    ensures first { pass.new.first.value ≡ pass.old.first.value }
    ensures limit { pass.new.limit.value ≡ limit }
    ensures stands { Stands R.remaining R.failures limit pass.new.first.value pass.new.reader pass.new.tracked pass.new.stop.value }
    ensures reaches { OnOk result (Reaches limit pass.new.stop.value) }
{
    pass.read_to(limit)?;
    saver.save(pass)
}

// Saves one snapshot per that many messages, and one at the end.
fn save_every<R: CountedRead, A: Allocator, B: OrderBook, S: PointSaver<R, A, B>>(
    pass: &mut PointReader<'_, R, A, B>,
    step: u64,
    saver: &mut S,
) -> Result<bool, S::Fault>
    requires some { 0 < step }
    requires stands { Stands R.remaining R.failures pass.old.limit.value pass.old.first.value pass.old.reader pass.old.tracked pass.old.stop.value }
    requires begins { pass.old.limit.value ≡ at_first }
    requires unread { pass.old.stop.value ≡ Full }
    ensures { (points : ℕ) × SavesEvery R.remaining R.failures S.Fault.from_gives S.saves step points pass.old.first.value 0 saver.old result saver.new }
{
    for _ in 0..u64::MAX {
        if !save_next(pass, step, saver)? {
            return Ok(true);
        }
    }
    unreachable!()
}

// Reads that many more messages, or all remaining ones if there are fewer, and saves the snapshot there. Returns false at the end of the file.
fn save_next<R: CountedRead, A: Allocator, B: OrderBook, S: PointSaver<R, A, B>>(
    pass: &mut PointReader<'_, R, A, B>,
    count: u64,
    saver: &mut S,
) -> Result<bool, S::Fault>
    requires some { 0 < count }
    requires stands { Stands R.remaining R.failures pass.old.limit.value pass.old.first.value pass.old.reader pass.old.tracked pass.old.stop.value }
    requires goes_on { GoesOn pass.old.stop.value }
    ensures saves { SavesNext R.remaining R.failures S.Fault.from_gives S.saves (min (pass.old.tracked.cursor.count + count) (2 ^ 64 - 1)) pass.old.first.value
        saver.old result saver.new }
    ensures first { pass.new.first.value ≡ pass.old.first.value }
    ensures stands { Stands R.remaining R.failures pass.new.limit.value pass.new.first.value pass.new.reader pass.new.tracked pass.new.stop.value }
    ensures goes_on { OnOk result (GoesOn pass.new.stop.value) }
    ensures count { IfOk result (λ more. more ≡ true → pass.new.tracked.cursor.count ≡ min (pass.old.tracked.cursor.count + count) (2 ^ 64 - 1)) }
{
    let is_more = pass.read_more(count)?;
    saver.save(pass)?;
    Ok(is_more)
}
