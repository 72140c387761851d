//! A pass over a day file, with a snapshot at each of its points.
use super::blocks::file;
use crate::equal::{TestResult, holds_in};
use itch_commands::snap::{
    DayCursor, Followed, PointLimits, PointReader, PointSaver, Points, is_longer, save_points,
};
use itch_commands::{Book, Limit};
use itch_frame::{BlockReader, Counted, CountedRead};
use std::alloc::{Allocator, Global};
use std::test::Fail;
use test_doubles::FuseWriter;

// Compares the snapshots at the points with the expected ones.
#[derive(Drop)]
struct Expected<'a> {
    alloc: Global,
    // The blocks of each snapshot.
    snapshots: &'a [&'a str],
    // The number of snapshots so far.
    count: usize,
    // Whether each of them was the expected one.
    are_met: bool,
    last: DayCursor,
}

impl<'a> Expected<'a> {
    fn of(alloc: Global, snapshots: &'a [&'a str]) -> Self {
        Expected {
            alloc,
            snapshots,
            count: 0,
            are_met: true,
            last: DayCursor::new(),
        }
    }
}

impl<'a, R: CountedRead, A: Allocator> PointSaver<R, A, Book<Global>> for Expected<'a> {
    type Fault = Fail;

    ghost saves = { λ _ _ _ _ _ _ _. Unit {0} };

    fn save(&mut self, pass: &PointReader<'_, R, A, Book<Global>>) -> Result<(), Fail> {
        let mut out = FuseWriter::new(self.alloc, 512, None);
        pass.write(None, &mut out)?;
        self.last = pass.cursor();
        let is_met = match self.snapshots.get(self.count) {
            Some(blocks) => out.written() == file(self.alloc, blocks)?.as_slice(),
            None => false,
        };
        self.are_met = self.are_met && is_met;
        self.count = self.count.saturating_add(1);
        Ok(())
    }
}

const END: DayCursor = DayCursor {
    count: 3,
    offset: 93,
    latest: Some(9),
};

// Returns whether a pass over a day of three messages saves these snapshots at these points, up to the end of the file.
fn saves(alloc: Global, points: &Points, snapshots: &[&str]) -> Result<bool, Fail> {
    let day = file(alloc, "START_STAMPED AAPL_LATE BUY_1_STAMPED")?;
    let reader = BlockReader::new(alloc, Counted::new(day.as_slice()))?;
    let mut expected = Expected::of(alloc, snapshots);
    let done = save_points::<_, _, Book<Global>, _>(
        alloc,
        reader,
        Followed::Nothing,
        points,
        &mut expected,
    )?;
    Ok(done && expected.are_met && expected.count == snapshots.len() && expected.last == END)
}

fn before(time: u64) -> Limit {
    Limit {
        after: None,
        until: Some(time),
    }
}

#[test]
fn a_snapshot_is_saved_at_each_point(rt: HostRuntime) -> TestResult {
    let alloc = rt.alloc();
    let Some(limits) = PointLimits::of(vec![in alloc; before(5), Limit::whole()]?) else {
        holds_in(&rt, "rising limits", false);
        return Ok(());
    };
    let whole = "START AAPL BUY_1 END_4";
    holds_in(
        &rt,
        "times",
        saves(alloc, &Points::At(limits), &["START END_2", whole])?,
    );
    let each = ["START END_2", "START AAPL END_3", whole, whole];
    holds_in(&rt, 1, saves(alloc, &Points::Every(1), &each)?);
    holds_in(
        &rt,
        2,
        saves(alloc, &Points::Every(2), &["START AAPL END_3", whole])?,
    );
    Ok(())
}

#[test]
fn parts_are_longer_than_those_before(rt: HostRuntime) -> TestResult {
    let alloc = rt.alloc();
    holds_in(
        &rt,
        "number",
        is_longer(Limit::counted(Some(1)), Limit::counted(Some(2))),
    );
    holds_in(&rt, "time", is_longer(before(5), before(6)));
    holds_in(&rt, "end", is_longer(before(5), Limit::whole()));
    holds_in(&rt, "same", !is_longer(before(5), before(5)));
    holds_in(
        &rt,
        "either",
        !is_longer(before(5), Limit::counted(Some(9))),
    );
    let falling = vec![in alloc; Limit::counted(Some(2)), Limit::counted(Some(1))]?;
    holds_in(&rt, "falling", PointLimits::of(falling).is_none());
    Ok(())
}
