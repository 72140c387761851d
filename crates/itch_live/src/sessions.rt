//! The sessions that a follower accepts.
ghost use Rattle.std.specs.Prelude.{◌≡◌};
ghost use Rattle.std.specs.Str.{bytes_eq};
ghost use Rattle.itch_soup.specs.Names.{session_name};
ghost use Rattle.itch_live.specs.Sessions as sessions;

use crate::news::ServerKind;
use itch_codec::Alpha;
use itch_codec::spaces::after_spaces;

/// The sessions that are known by name.
///
/// A market belongs to one session of its feed, because another day has different messages under the same numbers. A blank field does not
/// name a session: pass `None` for it.
#[derive(Clone, Copy)]
pub struct Sessions {
    /// The feed's session. It does not change once it is known.
    pub feed: Option<Alpha<10>>,
    /// The snapshot server's name for the session, if it differs from the feed's name. In this case, the Login Accepted packet of that server
    /// does not reveal the feed's session.
    pub glimpse: Option<Alpha<10>>,
}

impl Sessions {
    /// Returns the session that a server must serve, if it is known.
    pub(crate) fn expected(&self, source: ServerKind) -> Option<Alpha<10>>
        ensures { result ≡ sessions.expected self.now source }
    {
        match source {
            ServerKind::Live => self.feed,
            ServerKind::Glimpse => self.glimpse.or(self.feed),
        }
    }

    // Returns whether a server uses the feed's name for the session.
    fn names_feed(&self, source: ServerKind) -> bool
        ensures { result ≡ sessions.names_feed self.now source }
    {
        match source {
            ServerKind::Live => true,
            ServerKind::Glimpse => self.glimpse.is_none(),
        }
    }

    /// Learns the feed's session from the name under which a server accepted a login, if it did.
    pub(crate) fn learn(&mut self, source: ServerKind, named: Option<Alpha<10>>)
        ensures { self.new ≡ sessions.known_after self.old source named }
    {
        if self.names_feed(source) {
            self.feed = self.feed.or(named);
        }
    }
}

/// Returns the name under which a login was accepted, if another one was expected.
pub(crate) fn other_name(wanted: &Option<Alpha<10>>, named: &Option<Alpha<10>>) -> Option<Alpha<10>>
    ensures { result ≡ sessions.other_name wanted.now named.now }
{
    match (wanted, named) {
        (Some(wanted), Some(named)) if !is_same_session(wanted, named) => Some(*named),
        _ => None,
    }
}

// Returns whether these are the same session. A name may be padded at either end.
fn is_same_session(session: &Alpha<10>, other: &Alpha<10>) -> bool
    ensures { result ≡ bytes_eq (session_name session.now) (session_name other.now) }
{
    trimmed(session) == trimmed(other)
}

// Returns a session's name without the spaces at both ends.
fn trimmed(session: &Alpha<10>) -> &[u8]
    ensures { result.now ≡ session_name session.entry.now }
{
    after_spaces(session.text().as_bytes())
}
