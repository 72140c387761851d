//! The reasons why the message of a block is not taken.
ghost use Rattle.std.specs.Prelude.{◌≡◌};
ghost use Rattle.itch_day.specs.Parts.{stop_of};

use crate::stop::PartStop;

/// The reason why the message of a loaded block is not taken. It is small, unlike a [`PartStop`], which has room for the fault of a read.
pub(crate) enum NotTaken<F> {
    Ended,
    Late,
    TooMany,
    Refused(F),
}

// Converts the reason into the stop of a part.
#[inline(always)]
pub(crate) fn stop_of<F>(why: NotTaken<F>) -> PartStop<F>
    ensures { result ≡ stop_of why }
{
    match why {
        NotTaken::Ended => PartStop::End,
        NotTaken::Late => PartStop::Late,
        NotTaken::TooMany => PartStop::TooMany,
        NotTaken::Refused(why) => PartStop::Refused(why),
    }
}
