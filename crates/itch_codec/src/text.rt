//! Texts of a fixed width.
ghost use Rattle.std.specs.Prelude.{◌≡◌, not, ℕ, ◌-◌, ◌<◌, ◌≤◌, ◌↔◌, List, length, Option, None, Some, true, IfOk, IfErr, IfSome, IsOk, OnOk, slice_index, ◌≢◌};
ghost use Rattle.std.specs.Str.{IsUtf8};
ghost use Rattle.itch_codec.specs.Text.{IsPrintable, IsTextOf, before_spaces, first_unprintable, is_unprintable, padded_to};

use std::marker::Model;
use std::str;
use thiserror::Error;

/// A text of `N` printable characters, left-justified and padded on the right with spaces.
///
/// Equality, order and hash are those of its bytes.
#[derive(Clone, Copy, Debug, PartialEq, Eq, PartialOrd, Ord, Hash)]
pub struct Alpha<const N: usize> {
    bytes: [u8; N],
}

impl<const N: usize> Model for Alpha<N> {
    ghost Value = { List ℕ };

    ghost view = { λ a. a.bytes };

    ghost invariant = { λ a. IsPrintable a.bytes };

    ghost inverse = { λ bytes. record { bytes = bytes } };
}

/// The reason why a text was not accepted.
#[derive(Clone, Copy, Debug, PartialEq, Eq, Error)]
pub enum AlphaFault {
    /// The text has more bytes than the field.
    #[error("the text is too long")]
    TooLong,
    /// The byte at this position, counted from 0, is not printable.
    #[error("byte {at} is not printable")]
    NotPrintable { at: usize },
}

impl<const N: usize> Alpha<N> {
    ghost use Rattle.itch_codec.specs.AlphaFaults.{bytes_fault, text_fault};

    /// Pads `text` on the right with spaces.
    ///
    /// # Errors
    ///
    /// `TooLong` if the text has more than `N` bytes, and otherwise `NotPrintable` if one of its bytes is not printable.
    pub fn from_text(text: &str) -> Result<Alpha<N>, AlphaFault>
        ensures taken { IfOk result (λ alpha. alpha ≡ padded_to N text.now) }
        ensures accepts { IsOk result ↔ ((length text.now ≤ N) × IsPrintable text.now) }
        ensures refused { IfErr result (λ fault. text_fault N text.now ≡ Some fault) }
    {
        let text = text.as_bytes();
        if text.len() > N {
            return Err(AlphaFault::TooLong);
        }
        if let Some(at) = unprintable(text) {
            return Err(AlphaFault::NotPrintable { at });
        }
        Ok(Alpha {
            bytes: padded(text),
        })
    }

    /// Creates a text from its bytes, with its padding.
    ///
    /// # Errors
    ///
    /// `NotPrintable` with the position of the first byte that is not printable.
    pub fn from_bytes(bytes: &[u8; N]) -> Result<Alpha<N>, AlphaFault>
        ensures taken { IfOk result (λ alpha. alpha ≡ bytes.now) }
        ensures accepts { IsOk result ↔ IsPrintable bytes.now }
        ensures refused { IfErr result (λ fault. bytes_fault bytes.now ≡ Some fault) }
    {
        match Alpha::checked(*bytes) {
            Ok(alpha) => Ok(alpha),
            Err(at) => Err(AlphaFault::NotPrintable { at }),
        }
    }

    /// Creates a text from printable bytes.
    #[inline(always)]
    pub(crate) fn known(bytes: [u8; N]) -> Alpha<N>
        requires { IsPrintable bytes }
        ensures { result ≡ bytes.entry }
    {
        Alpha { bytes }
    }

    // Returns the text of these bytes, or the position of the first byte that is not printable.
    pub(crate) fn checked(bytes: [u8; N]) -> Result<Alpha<N>, usize>
        ensures taken { IfOk result (λ alpha. alpha ≡ bytes.entry) }
        ensures accepts { IsOk result ↔ IsPrintable bytes.entry }
        ensures no_place { OnOk result (first_unprintable bytes.entry ≡ None) }
        ensures place { IfErr result (λ at. first_unprintable bytes.entry ≡ Some at) }
        ensures within { IfErr result (λ at. at < N) }
    {
        match unprintable(&bytes) {
            None => Ok(Alpha { bytes }),
            Some(at) => Err(at),
        }
    }

    /// Returns the characters without the spaces at the end.
    #[tactic(auto, using(crate::proofs::Trimming::texts))]
    pub fn text(&self) -> &str
        ensures text { IsTextOf self.now result.now }
        ensures trimmed { result.now ≡ before_spaces self.now }
        ensures within { length result.now ≤ N }
        ensures printable { IsPrintable self.now }
    {
        str::from_utf8(trimmed(&self.bytes)).unwrap()
    }

    /// Returns the characters and the spaces after them.
    pub fn bytes(&self) -> &[u8; N]
        ensures bytes { result.now ≡ self.now }
        ensures printable { IsPrintable self.now }
        ensures width { length self.now ≡ N }
    {
        &self.bytes
    }

    /// Does nothing at run time. It states for a proof that there are `N` characters, and that all are printable.
    pub fn recall_invariant(&self)
        ensures printable { IsPrintable self.now }
        ensures width { length self.now ≡ N }
    {
        let _bytes = &self.bytes;
    }
}

/// Returns whether all bytes are printable. It looks at every byte, so that the processor compares several at once.
#[inline(always)]
pub(crate) fn are_printable(bytes: &[u8]) -> bool
    ensures { (result ≡ true) ↔ IsPrintable bytes.now }
{
    let mut are = true;
    for byte in bytes {
        are &= is_printable(*byte);
    }
    are
}

#[inline(always)]
fn is_printable(byte: u8) -> bool
    ensures { result ≡ not (is_unprintable byte) }
{
    byte >= b' ' && byte <= b'~'
}

/// Returns the position of the first byte that is not printable.
#[tactic(auto, using(crate::proofs::Texts::printing), unfolding(crate::specs::Text::first_unprintable))]
pub(crate) fn unprintable(bytes: &[u8]) -> Option<usize>
    ensures place { result ≡ first_unprintable bytes.now }
    ensures printable { (result ≡ None) ↔ IsPrintable bytes.now }
    ensures within { IfSome result (λ at. at < length bytes.now) }
{
    bytes.iter().position(|byte| *byte < b' ' || *byte > b'~')
}

// Returns the text with spaces after it.
fn padded<const N: usize>(text: &[u8]) -> [u8; N]
    requires { length text.now ≤ N }
    ensures { result ≡ padded_to N text.now }
{
    let mut bytes = [b' '; N];
    bytes[..text.len()].copy_from_slice(text);
    bytes
}

// Returns the bytes without the spaces at the end.
#[tactic(auto, using(crate::proofs::Texts::trimming))]
fn trimmed(bytes: &[u8]) -> &[u8]
    requires { IsPrintable bytes.now }
    ensures text { IsTextOf bytes.entry.now result.now }
    ensures within { length result.now ≤ length bytes.entry.now }
    ensures utf8 { IsUtf8 result.now }
{
    &bytes[..text_len(bytes)]
}

// Returns the number of bytes before the spaces at the end.
fn text_len(bytes: &[u8]) -> usize
    ensures within { result ≤ length bytes.now }
    ensures spaces { (k : ℕ) → result ≤ k → k < length bytes.now → slice_index bytes.now k ≡ 32 }
    ensures last { 0 < result → slice_index bytes.now (result - 1) ≢ 32 }
{
    let mut len = bytes.len();
    while len > 0 && bytes[len - 1] == b' ' {
        len -= 1;
    }
    len
}
