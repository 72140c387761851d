//! The header, which precedes the fields of every message except End of Snapshot.
ghost use Rattle.std.specs.Prelude.{◌≡◌, ℕ, ◌<◌, ◌≤◌, ◌^◌, ◌↔◌, IsSome, IfSome};

use crate::fields::{Buffer, put_u16, put_u48, u16_at, u48_at};
use crate::names::Key;
use crate::sink::{Field, FieldSink};
use std::marker::Model;

/// Nanoseconds since midnight, below 2^48.
#[derive(Clone, Copy, Debug, PartialEq, Eq, PartialOrd, Ord, Hash)]
pub struct Stamp {
    value: u64,
}

impl Model for Stamp {
    ghost Value = { ℕ };

    ghost view = { λ s. s.value };

    ghost invariant = { λ s. s.value < 2 ^ 48 };

    ghost inverse = { λ n. record { value = n } };
}

impl Stamp {
    ghost use Rattle.itch_codec.specs.Headers.{stamp_in};

    /// Returns the number as a timestamp, if it is below 2^48.
    pub fn new(value: u64) -> Option<Stamp>
        ensures accepts { IsSome result ↔ (value < 2 ^ 48) }
        ensures stamp { IfSome result (λ stamp. stamp ≡ value) }
    {
        if value < 1 << 48 {
            Some(Stamp { value })
        } else {
            None
        }
    }

    /// Returns the timestamp of a payload, for a caller who needs no other field, or `None` if the payload is too short for a header.
    pub fn of_payload(payload: &[u8]) -> Option<Stamp>
        ensures { result ≡ stamp_in payload.now }
    {
        if payload.len() < 11 {
            None
        } else {
            Some(Header::decode(payload).stamp)
        }
    }

    /// Returns the number.
    pub fn value(self) -> u64
        ensures value { result ≡ self }
        ensures small { self < 2 ^ 48 }
    {
        self.value
    }
}

/// Stock locate, tracking number and timestamp.
#[derive(Clone, Copy, Debug, PartialEq, Eq)]
pub struct Header {
    /// The stock locate: the security's number for the day.
    pub locate: u16,
    /// The exchange's internal tracking number.
    pub tracking: u16,
    /// The timestamp of the message.
    pub stamp: Stamp,
}

impl Header {
    ghost use Rattle.std.specs.Prelude.{◌+◌, [], ◌∷◌, ◌++◌, length};
    ghost use Rattle.arrayvec.specs.ArrayVec.{array_vec_len};
    ghost use Rattle.itch_codec.specs.Layouts.{with_header};
    ghost use Rattle.itch_codec.specs.Fields.{HasAll, joined};
    ghost use Rattle.itch_codec.specs.Names.{header_keys};
    ghost use Rattle.itch_codec.specs.Rooms.{most_fields};
    ghost use Rattle.itch_codec.specs.Shown.{fields};
    ghost use Rattle.itch_codec.specs.Values.{header_values};
    ghost use Rattle.itch_codec.specs.Widths.{IsHeader};

    #[inline(always)]
    pub(crate) fn decode(payload: &[u8]) -> Header
        requires { 11 ≤ length payload.now }
        ensures { HasAll payload.now (with_header []) (header_values result []) }
    {
        Header {
            locate: u16_at(payload, 1),
            tracking: u16_at(payload, 3),
            stamp: Stamp {
                value: u48_at(payload, 5),
            },
        }
    }

    // Appends the message's first byte and its header.
    #[inline(always)]
    #[tactic(auto, using(crate::proofs::Joining::joining), unfolding(crate::specs::Fields::joined))]
    pub(crate) fn begin(&self, kind: u8, out: &mut Buffer)
        ensures bytes { out.new.items ≡ kind ∷ joined (with_header []) (header_values self.now []) }
        ensures len { array_vec_len out.new ≡ 11 }
        ensures fits { IsHeader self.now }
    {
        out.clear();
        out.push(kind);
        put_u16(out, self.locate);
        put_u16(out, self.tracking);
        put_u48(out, self.stamp.value());
    }

    /// Writes a message's type and its header to a sink.
    #[tactic(auto, using(crate::proofs::Joining::joining), unfolding(crate::specs::Shown::fields, crate::specs::Rooms::most_fields))]
    pub(crate) fn write_as<S: FieldSink>(&self, kind: u8, sink: &mut S)
        requires ascii { kind < 128 }
        requires room { S.len sink.old + (S.most.start + most_fields S.most (header_keys []) (with_header [])) ≤ S.capacity }
        ensures bytes { S.text sink.new ≡ S.text sink.old ++ S.form.kind kind ++ fields S.form (header_keys []) (with_header []) (header_values self.now []) }
        ensures len { S.len sink.new ≤ S.len sink.old + (S.most.start + most_fields S.most (header_keys []) (with_header [])) }
    {
        sink.begin(kind);
        sink.put(Key::StockLocate, Field::U16(self.locate));
        sink.put(Key::TrackingNumber, Field::U16(self.tracking));
        sink.put(Key::Time, Field::Time(self.stamp.value()));
    }
}
