//! The bytes of an encoded message.
ghost use Rattle.std.specs.Prelude.{◌≡◌};

use crate::fields::Buffer;
use std::marker::Model;

/// The bytes of an encoded message. They need no allocation: they are built in place, or are the payload of an undecoded message.
#[derive(Debug, Drop)]
pub struct Encoded<'a> {
    form: Form<'a>,
}

#[derive(Debug, Drop)]
enum Form<'a> {
    Built(Buffer),
    Kept(&'a [u8]),
}

impl<'a> Model for Encoded<'a> {
    ghost use Rattle.std.specs.Prelude.{ℕ, List};

    ghost Value = { List ℕ };

    ghost use Rattle.itch_codec.specs.Encoded.{bytes_of};

    ghost view = { λ e. bytes_of e.form };
}

impl<'a> Encoded<'a> {
    /// Returns the bytes, from the message type on.
    pub fn bytes(&self) -> &[u8]
        ensures { result.now ≡ self.now }
    {
        match &self.form {
            Form::Built(bytes) => bytes.as_slice(),
            Form::Kept(payload) => payload,
        }
    }

    pub(crate) fn built(bytes: Buffer) -> Encoded<'a>
        ensures { result ≡ bytes.items }
    {
        Encoded {
            form: Form::Built(bytes),
        }
    }

    pub(crate) fn kept(payload: &'a [u8]) -> Encoded<'a>
        ensures { result ≡ payload.entry.now }
    {
        Encoded {
            form: Form::Kept(payload),
        }
    }
}
