//! The values of figures.
ghost use Rattle.std.specs.Prelude.{◌≡◌, ◌≤◌, length};
ghost use Rattle.itch_status.specs.Texts.{session_name};

use crate::cause::LossCause;
use crate::state::FeedState;
use itch_codec::Alpha;
use itch_codec::spaces::after_spaces;

/// A value in its form of output.
#[derive(Clone, Copy, Debug, PartialEq, Eq)]
pub(crate) enum Shown {
    /// There is no value now.
    Nothing,
    Count(u64),
    /// A number of thousandths, with three decimals.
    Thousandths(u64),
    /// Nanoseconds since midnight.
    Clock(u64),
    Yes(bool),
    State(FeedState),
    Cause(LossCause),
    Session(Alpha<10>),
}

/// Returns a session's name without the spaces at both ends.
pub(crate) fn session_name(session: &Alpha<10>) -> &[u8]
    ensures name { result.now ≡ session_name session.entry.now }
    ensures short { length result.now ≤ 10 }
{
    after_spaces(session.text().as_bytes())
}
