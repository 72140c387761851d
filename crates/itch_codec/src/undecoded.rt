//! Messages of types that are not decoded.
ghost use Rattle.std.specs.Prelude.{◌≡◌, ℕ, ◌↔◌, List, nat_eq, IsSome, IfSome};
ghost use Rattle.std.specs.Cmp.Lexicographic.{pointwise};
ghost use Rattle.std.specs.Cmp.Rules.{comparing};
ghost use Rattle.std.proofs.Common.{rules};
ghost use Rattle.itch_codec.specs.Numbers.{byte_at};
ghost use Rattle.itch_codec.specs.Layouts.{IsUndecoded};

use crate::names::Key;
use crate::sink::{Field, FieldSink};
use crate::sizes::size_of_type;
use std::marker::Model;

/// A message of a type that is not decoded: a non-empty payload whose first byte is not a type of the table.
#[derive(Debug, Drop)]
pub struct Undecoded<'a> {
    payload: &'a [u8],
}

impl<'a> Model for Undecoded<'a> {
    ghost Value = { List ℕ };

    ghost view = { λ u. u.payload.now };

    ghost invariant = { λ u. IsUndecoded u.payload.now };
}

impl<'a> Undecoded<'a> {
    ghost use Rattle.std.specs.Prelude.{◌+◌, ◌≤◌, [], ◌++◌};
    ghost use Rattle.itch_codec.specs.Messages.{Payload};
    ghost use Rattle.itch_codec.specs.Rooms.{most_as};
    ghost use Rattle.itch_codec.specs.Shown.{shown_as};

    /// Returns the payload as an undecoded message, if it is not empty and its first byte is not a type of the table.
    pub fn new(payload: &'a [u8]) -> Option<Undecoded<'a>>
        ensures accepts { IsSome result ↔ IsUndecoded payload.entry.now }
        ensures payload { IfSome result (λ message. message ≡ payload.entry.now) }
    {
        match payload.first() {
            Some(&kind) if size_of_type(kind).is_none() => Some(Undecoded { payload }),
            _ => None,
        }
    }

    pub(crate) fn kept(payload: &'a [u8]) -> Undecoded<'a>
        requires { IsUndecoded payload.now }
        ensures { result ≡ payload.entry.now }
    {
        Undecoded { payload }
    }

    /// Returns the first byte of the payload, which is the message type.
    pub fn kind(&self) -> u8
        ensures { result ≡ byte_at 0 self.now }
    {
        self.payload[0]
    }

    /// Returns the complete payload.
    pub fn payload(&self) -> &'a [u8]
        ensures payload { result.now ≡ self.now }
        ensures undecoded { IsUndecoded self.now }
    {
        self.payload
    }

    /// Writes the type and the length to a sink.
    #[tactic(auto, using(crate::proofs::Joining::joining))]
    pub(crate) fn write<S: FieldSink>(&self, sink: &mut S)
        requires room { S.len sink.old + most_as S.most [] (Payload self.now) ≤ S.capacity }
        ensures bytes { S.text sink.new ≡ S.text sink.old ++ shown_as S.form [] (Payload self.now) }
        ensures len { S.len sink.new ≤ S.len sink.old + most_as S.most [] (Payload self.now) }
    {
        sink.begin_undecoded();
        sink.put(Key::Kind, Field::Code(self.kind()));
        sink.put(Key::Length, Field::U64(self.payload.len() as u64));
    }
}

impl PartialEq for Undecoded<'_> {
    ghost eq = { λ a b. pointwise nat_eq a b };

    ghost laws = { Prim.search (comparing, rules) };

    fn eq(&self, other: &Self) -> bool {
        self.payload == other.payload
    }
}

impl Eq for Undecoded<'_> {
    ghost laws = { Prim.search (comparing, rules) };
}
