//! The bytes after a packet's type.
ghost use Rattle.std.specs.Prelude.{◌≡◌, ◌≤◌, ℕ, List, length, drop, nat_eq};
ghost use Rattle.std.specs.Cmp.Lexicographic.{pointwise};
ghost use Rattle.std.specs.Cmp.Rules.{comparing};
ghost use Rattle.std.proofs.Common.{rules};

use std::marker::Model;

/// The bytes after the type of a packet with a message or a text. There may be none.
///
/// Equality is that of the bytes.
#[derive(Debug, Drop)]
pub struct Payload<'a> {
    bytes: &'a [u8],
}

impl<'a> Model for Payload<'a> {
    ghost Value = { List ℕ };

    ghost view = { λ p. p.bytes.now };
}

impl<'a> Payload<'a> {
    /// Returns these bytes as a payload.
    pub fn new(bytes: &'a [u8]) -> Payload<'a>
        ensures { result ≡ bytes.entry.now }
    {
        Payload { bytes }
    }

    /// Returns the bytes.
    pub fn bytes(&self) -> &'a [u8]
        ensures { result.now ≡ self.now }
    {
        self.bytes
    }

    // Returns the bytes after the type byte of a block.
    pub(crate) fn after_type(block: &'a [u8]) -> Payload<'a>
        requires { 1 ≤ length block.now }
        ensures { result ≡ drop 1 block.entry.now }
    {
        Payload { bytes: &block[1..] }
    }
}

impl PartialEq for Payload<'_> {
    ghost eq = { λ a b. pointwise nat_eq a b };

    ghost laws = { Prim.search (comparing, rules) };

    fn eq(&self, other: &Self) -> bool {
        self.bytes == other.bytes
    }
}

impl Eq for Payload<'_> {
    ghost laws = { Prim.search (comparing, rules) };
}
