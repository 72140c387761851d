//! Sequence numbers, and numbers in twenty decimal digits.
ghost use Rattle.std.specs.Prelude.{◌≡◌, ℕ, ◌≤◌, ◌<◌, ◌^◌, ◌↔◌, IsTrue, IsSome, IfSome, length, Option, Some, None};
ghost use Rattle.std.specs.Char.{is_ascii_digit};
ghost use Rattle.std.specs.List.{prefix_len};
ghost use Rattle.std.specs.Str.{all_ascii_digits};
ghost use Rattle.itch_codec.specs.Numbers.{dec20, SpellsNumber, read20, digits_in_front, after_digits, number_of_digits};

use crate::fault::CodecFault;
use crate::fields::{Buffer, codes_at, put_codes};
use crate::spaces::{after_spaces, is_blank};
use itoa::write_digits;
use std::marker::Model;

/// The largest sequence number: 10^19.
pub const GREATEST_SEQ: u64 = 10_000_000_000_000_000_000;

/// The maximum number of messages of a feed, a day file or a snapshot: 10^19 - 1, so that the number after the last message is a [`Seq`].
pub const MOST_MESSAGES: u64 = GREATEST_SEQ - 1;

/// A sequence number: 1 to 10^19.
#[derive(Clone, Copy, Debug, PartialEq, Eq, PartialOrd, Ord, Hash)]
pub struct Seq {
    value: u64,
}

impl Model for Seq {
    ghost Value = { ℕ };

    ghost view = { λ s. s.value };

    ghost invariant = { λ s. (1 ≤ s.value) × (s.value ≤ 10 ^ 19) };

    ghost inverse = { λ n. record { value = n } };
}

impl Seq {
    ghost use Rattle.std.specs.Prelude.{[], ◌∷◌};
    ghost use Rattle.itch_codec.specs.Layouts.{end_of_snapshot};
    ghost use Rattle.itch_codec.specs.Fields.{Number, HasAll, joined, first_fault, Reads};
    ghost use Rattle.itch_codec.specs.Widths.{IsSequence};

    /// Returns the number as a sequence number, if it is from 1 to 10^19.
    pub fn new(value: u64) -> Option<Seq>
        ensures accepts { IsSome result ↔ ((1 ≤ value) × (value ≤ 10 ^ 19)) }
        ensures number { IfSome result (λ number. number ≡ value) }
    {
        if (1..=GREATEST_SEQ).contains(&value) {
            Some(Seq { value })
        } else {
            None
        }
    }

    // Returns the number in the twenty digits of an End of Snapshot.
    pub(crate) fn decode(payload: &[u8]) -> Result<Seq, CodecFault>
        requires { length payload.now ≡ 21 }
        ensures { Reads (λ next. HasAll payload.now end_of_snapshot.columns (Number next ∷ [])) (first_fault payload.now end_of_snapshot.columns) result }
    {
        let Some(value) = read(&codes_at(payload, 1)) else {
            return Err(CodecFault::BadNumber);
        };
        Seq::new(value).ok_or(CodecFault::BadNumber)
    }

    // Encodes the End of Snapshot with this number.
    #[inline(always)]
    #[tactic(auto, using(crate::proofs::Joining::joining), unfolding(crate::specs::Fields::joined))]
    pub(crate) fn spell(self, out: &mut Buffer)
        ensures bytes { out.new.items ≡ end_of_snapshot.kind ∷ joined end_of_snapshot.columns (Number self ∷ []) }
        ensures fits { IsSequence self }
    {
        out.clear();
        out.push(b'G');
        put_codes(out, number20(self.value()));
    }

    /// Returns the number.
    pub fn value(self) -> u64
        ensures value { result ≡ self }
        ensures low { 1 ≤ self }
        ensures high { self ≤ 10 ^ 19 }
    {
        self.value
    }
}

/// Returns the decimal digits of a number, right-justified in twenty bytes with spaces on the left.
#[tactic(auto, using(crate::proofs::Numbers::writing), unfolding(crate::specs::Numbers::dec20))]
pub fn number20(number: u64) -> [u8; 20]
    ensures { result ≡ dec20 number }
{
    let mut field = [b' '; 20];
    write_digits(number, &mut field, 20);
    field
}

/// Reads spaces, at least one digit, and spaces. Leading zeros are allowed.
///
/// Returns the number, which is from 0 to 10^19, or `None` for any other field.
pub fn read_number20(field: &[u8; 20]) -> Option<u64>
    ensures value { result ≡ read20 field.now }
    ensures spelled { IfSome result (λ number. SpellsNumber field.now number) }
    ensures complete { (number : ℕ) → SpellsNumber field.now number → result ≡ Some number }
{
    read(field)
}

#[tactic(auto, using(crate::proofs::Numbers::reading))]
pub(crate) fn read(field: &[u8; 20]) -> Option<u64>
    ensures value { result ≡ read20 field.now }
    ensures spelled { IfSome result (λ number. SpellsNumber field.now number) }
    ensures bounded { IfSome result (λ number. number ≤ 10 ^ 19) }
{
    read_parts(field)
}

#[tactic(auto, unfolding(crate::specs::Numbers::read20))]
fn read_parts(field: &[u8; 20]) -> Option<u64>
    ensures { result ≡ read20 field.now }
{
    let text = after_spaces(field);
    let (digits, right) = split_digits(text);
    if digits.is_empty() || !is_blank(right) {
        return None;
    }
    value_of(digits)
}

// Returns the digits at the front of the text, and the rest of the text.
#[tactic(auto, using(crate::proofs::Numbers::fronts), unfolding(crate::specs::Numbers::digits_in_front, crate::specs::Numbers::after_digits))]
fn split_digits(text: &[u8]) -> (&[u8], &[u8])
    ensures digits { result.0.now ≡ digits_in_front text.entry.now }
    ensures right { result.1.now ≡ after_digits text.entry.now }
    ensures all_digits { IsTrue (all_ascii_digits result.0.now) }
    ensures within { length result.0.now ≤ length text.entry.now }
{
    text.split_at(count_digits(text))
}

fn count_digits(text: &[u8]) -> usize
    ensures count { result ≡ prefix_len is_ascii_digit text.now }
    ensures within { result ≤ length text.now }
{
    text.iter().take_while(|byte| byte.is_ascii_digit()).count()
}

// Returns the value of at most twenty digits, if it is at most 10^19.
#[tactic(auto, using(crate::proofs::Numbers::counting))]
fn value_of(digits: &[u8]) -> Option<u64>
    requires digits { IsTrue (all_ascii_digits digits.now) }
    requires few { length digits.now ≤ 20 }
    ensures { result ≡ number_of_digits digits.now }
{
    let mut value = 0;
    for digit in digits {
        value = value * 10 + u128::from(*digit - b'0');
    }
    if value <= u128::from(GREATEST_SEQ) {
        Some(value as u64)
    } else {
        None
    }
}
