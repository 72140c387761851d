//! Conversions from and to plain values, and their text for `{}`.
ghost use Rattle.std.specs.Prelude.{◌≡◌, ◌≢◌, ◌≤◌, ◌<◌, ◌^◌, ◌↔◌, [], ◌∷◌, Some, length, IfOk, IfErr, IsOk, MatchResult};
ghost use Rattle.std.specs.Fmt.{padded, decimal, styled_decimal};
ghost use Rattle.std.specs.Result.{OkIff};
ghost use Rattle.itch_codec.specs.AlphaFaults.{bytes_fault, text_fault};
ghost use Rattle.itch_codec.specs.Fields.{side_byte};
ghost use Rattle.itch_codec.specs.Text.{IsPrintable, before_spaces, padded_to};

use crate::header::Stamp;
use crate::number::Seq;
use crate::orders::Side;
use crate::text::{Alpha, AlphaFault};
use std::fmt::{self, Display, Formatter, Write};
use thiserror::Error;

/// The error for a number that is too small or too large for a [`Seq`] or a [`Stamp`].
#[derive(Clone, Copy, Debug, PartialEq, Eq, Error)]
#[error("out of range")]
pub struct OutOfRange;

/// The error for a byte that is neither `B` nor `S`.
#[derive(Clone, Copy, Debug, PartialEq, Eq, Error)]
#[error("{0:#04x} is no side")]
pub struct UnknownSide(pub u8);

/// Converts as [`Seq::new`] does.
impl TryFrom<u64> for Seq {
    type Error = OutOfRange;

    ghost try_from_gives = { λ value result. OkIff result ((1 ≤ value) × (value ≤ 10 ^ 19)) value };

    fn try_from(value: u64) -> Result<Seq, OutOfRange> {
        Seq::new(value).ok_or(OutOfRange)
    }
}

impl From<Seq> for u64 {
    ghost from_gives = { λ number value. value ≡ number };

    fn from(number: Seq) -> u64 {
        number.value()
    }
}

/// Writes the number in decimal digits.
impl Display for Seq {
    ghost output = { λ number. Some (decimal number) };

    ghost styled_output = { λ number style. Some (styled_decimal style number) };

    fn fmt<W: Write>(&self, f: &mut Formatter<W>) -> fmt::Result {
        self.value().fmt(f)
    }
}

/// Converts as [`Stamp::new`] does.
impl TryFrom<u64> for Stamp {
    type Error = OutOfRange;

    ghost try_from_gives = { λ value result. OkIff result (value < 2 ^ 48) value };

    fn try_from(value: u64) -> Result<Stamp, OutOfRange> {
        Stamp::new(value).ok_or(OutOfRange)
    }
}

impl From<Stamp> for u64 {
    ghost from_gives = { λ stamp value. value ≡ stamp };

    fn from(stamp: Stamp) -> u64 {
        stamp.value()
    }
}

/// Writes the nanoseconds since midnight in decimal digits, as in the line of a message.
impl Display for Stamp {
    ghost output = { λ stamp. Some (decimal stamp) };

    ghost styled_output = { λ stamp style. Some (styled_decimal style stamp) };

    fn fmt<W: Write>(&self, f: &mut Formatter<W>) -> fmt::Result {
        self.value().fmt(f)
    }
}

/// Converts the byte of a message into a side.
impl TryFrom<u8> for Side {
    type Error = UnknownSide;

    ghost try_from_gives = { λ byte result. MatchResult result (λ side. byte ≡ side_byte side)
        (λ unknown. (unknown.0 ≡ byte) × (byte ≢ 66) × (byte ≢ 83)) };

    fn try_from(byte: u8) -> Result<Side, UnknownSide> {
        match byte {
            b'B' => Ok(Side::Buy),
            b'S' => Ok(Side::Sell),
            _ => Err(UnknownSide(byte)),
        }
    }
}

/// Converts a side into its byte in a message: `B` or `S`.
impl From<Side> for u8 {
    ghost from_gives = { λ side byte. byte ≡ side_byte side };

    fn from(side: Side) -> u8 {
        match side {
            Side::Buy => b'B',
            Side::Sell => b'S',
        }
    }
}

/// Writes `B` or `S`, as in a message.
impl Display for Side {
    ghost output = { λ side. Some (side_byte side ∷ []) };

    ghost styled_output = { λ side style. Some (padded style (side_byte side ∷ [])) };

    fn fmt<W: Write>(&self, f: &mut Formatter<W>) -> fmt::Result {
        f.pad(match self {
            Side::Buy => "B",
            Side::Sell => "S",
        })
    }
}

/// Converts as [`Alpha::from_text`] does.
impl<const N: usize> TryFrom<&str> for Alpha<N> {
    type Error = AlphaFault;

    ghost try_from_gives = { λ text result. IfOk result (λ alpha. alpha ≡ padded_to N text.now)
        × (IsOk result ↔ ((length text.now ≤ N) × IsPrintable text.now))
        × IfErr result (λ fault. text_fault N text.now ≡ Some fault) };

    fn try_from(text: &str) -> Result<Alpha<N>, AlphaFault> {
        Alpha::from_text(text)
    }
}

/// Converts as [`Alpha::from_bytes`] does.
impl<const N: usize> TryFrom<[u8; N]> for Alpha<N> {
    type Error = AlphaFault;

    ghost try_from_gives = { λ bytes result. IfOk result (λ alpha. alpha ≡ bytes) × (IsOk result ↔ IsPrintable bytes)
        × IfErr result (λ fault. bytes_fault bytes ≡ Some fault) };

    fn try_from(bytes: [u8; N]) -> Result<Alpha<N>, AlphaFault> {
        Alpha::from_bytes(&bytes)
    }
}

/// Writes the text without the spaces at its end.
impl<const N: usize> Display for Alpha<N> {
    ghost output = { λ alpha. Some (before_spaces alpha) };

    ghost styled_output = { λ alpha style. Some (padded style (before_spaces alpha)) };

    fn fmt<W: Write>(&self, f: &mut Formatter<W>) -> fmt::Result {
        f.pad(self.text())
    }
}
