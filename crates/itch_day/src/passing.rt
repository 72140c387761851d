//! Passes the message that was not taken.
ghost use Rattle.std.specs.Prelude.{◌≡◌};
ghost use Rattle.itch_day.specs.Passing.{IsLeft, left_by};

use crate::stop::PartStop;
use itch_frame::{BlockReader, CountedRead};
use std::alloc::Allocator;

/// Passes the block at which a part of a day stopped, if there is one: the block after it becomes the next.
pub fn pass_stop<R: CountedRead, A: Allocator, F>(
    reader: &mut BlockReader<R, A>,
    stop: &PartStop<F>,
)
    requires { IsLeft stop.now reader.old }
    ensures { reader.new ≡ left_by stop.now reader.old }
{
    match stop {
        PartStop::Full | PartStop::Frame(_) => {}
        PartStop::Late | PartStop::End | PartStop::TooMany | PartStop::Refused(_) =>
            reader.pass_held(),
    }
}
