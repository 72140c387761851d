//! Equality of messages.
ghost use Rattle.std.specs.Prelude.{◌≡◌, ◌↔◌, IsTrue};

use itch_codec::Message;

/// Returns whether two messages have the same type and equal fields, or equal bytes if they are undecoded.
pub fn same_message(a: &Message<'_>, b: &Message<'_>) -> bool
    ensures { IsTrue result ↔ (a.now ≡ b.now) }
{
    a == b
}
