//! The fields of a message, and the sinks to which they are written.
ghost use Rattle.std.specs.Prelude.{◌≡◌, ℕ, ◌+◌, ◌<◌, ◌≤◌, List, ◌++◌};
ghost use Rattle.itch_codec.specs.Rooms.{Most};
ghost use Rattle.itch_codec.specs.Shown.{Form};
ghost use Rattle.itch_codec.specs.Sinks.{at_field};

use crate::names::Key;
use crate::orders::Side;
use crate::text::Alpha;

/// A field of a message: one variant for each class and width.
#[derive(Clone, Copy)]
pub(crate) enum Field<'a> {
    U16(u16),
    U32(u32),
    U64(u64),
    /// Nanoseconds since midnight, in six bytes.
    Time(u64),
    /// A price with four implied decimals.
    Price(u32),
    Mpid(&'a Alpha<4>),
    Stock(&'a Alpha<8>),
    Side(Side),
    Code(u8),
    TwoCodes(&'a [u8; 2]),
    FourCodes(&'a [u8; 4]),
    /// A number in decimal digits.
    Digits(u64),
}

/// A form of output for messages: the type of a message, and then its fields in the order of its layout.
pub(crate) trait FieldSink {
    // The form of the output.
    ghost form: { Form };

    // The bytes written so far.
    ghost text: { Self → List ℕ };

    // The number of bytes written so far.
    ghost len: { Self → ℕ };

    // The maximum number of bytes.
    ghost capacity: { ℕ };

    // The maximum number of bytes of each part of a message.
    ghost most: { Most };

    /// Writes the type of a decoded message.
    fn begin(&mut self, kind: u8)
        requires ascii { kind < 128 }
        requires room { len self.old + most.start ≤ capacity }
        ensures bytes { text self.new ≡ text self.old ++ form.kind kind }
        ensures len { len self.new ≤ len self.old + most.start };

    /// Writes the text before the type of an undecoded message.
    fn begin_undecoded(&mut self)
        requires room { len self.old + most.start ≤ capacity }
        ensures bytes { text self.new ≡ text self.old ++ form.undecoded }
        ensures len { len self.new ≤ len self.old + most.start };

    /// Writes a field with its key.
    fn put(&mut self, key: Key, field: Field<'_>)
        requires room { len self.old + at_field (λ class width value. most.field key class width) field ≤ capacity }
        ensures bytes { text self.new ≡ text self.old ++ at_field (form.field key) field.entry }
        ensures len { len self.new ≤ len self.old + at_field (λ class width value. most.field key class width) field.entry };
}
