//! Names of sessions, which may be padded at either end.
ghost use Rattle.std.specs.Prelude.{◌≡◌};
ghost use Rattle.itch_sessions.specs.Padding.{is_another};
ghost use Rattle.itch_soup.specs.Names.{session_name};

use itch_codec::Alpha;
use itch_codec::spaces::after_spaces;

/// Returns whether these are different sessions. A name may be padded at either end.
pub fn is_another(session: &Alpha<10>, named: &Alpha<10>) -> bool
    ensures { result ≡ is_another session.now named.now }
{
    name_of(session) != name_of(named)
}

/// Returns a session's name without the spaces at both ends.
pub fn name_of(session: &Alpha<10>) -> &[u8]
    ensures { result.now ≡ session_name session.entry.now }
{
    after_spaces(session.text().as_bytes())
}
