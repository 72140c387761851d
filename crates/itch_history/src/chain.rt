//! The numbers of an order, one after another.
ghost use Rattle.std.specs.Prelude.{◌≡◌};
ghost use Rattle.itch_history.specs.Histories.{before_replacement, first_by, names, replacement_of};

use itch_codec::Message;

/// A replacement of an order: its reference number before, and after.
#[derive(Clone, Copy, Debug, PartialEq, Eq)]
pub struct Replacement {
    pub original: u64,
    pub reference: u64,
}

impl Replacement {
    /// Returns the replacement in a message, if it is one.
    #[inline(always)]
    pub fn of(message: &Message<'_>) -> Option<Replacement>
        ensures { result ≡ replacement_of message.now }
    {
        match message {
            Message::OrderReplace(replace) => Some(Replacement {
                original: replace.original,
                reference: replace.reference,
            }),
            _ => None,
        }
    }
}

/// Returns the number that an order had before a replacement, by its number after it.
pub fn before_replacement(replacement: Option<Replacement>, number: u64) -> u64
    ensures { result ≡ before_replacement replacement number }
{
    match replacement {
        Some(replacement) if replacement.reference == number => replacement.original,
        _ => number,
    }
}

/// Returns whether a message is about the order with this number, or gives the order this number.
#[inline(always)]
pub fn names(number: u64, message: &Message<'_>) -> bool
    ensures { result ≡ names number message.now }
{
    message.reference() == Some(number)
        || match Replacement::of(message) {
            Some(replacement) => replacement.reference == number,
            None => false,
        }
}

/// Returns the number that an order had before these replacements.
pub fn first_number(replacements: &[Replacement], number: u64) -> u64
    ensures { result ≡ first_by replacements.now number }
{
    let mut first = number;
    for index in (0..replacements.len()).rev() {
        first = before_replacement(Some(replacements[index]), first);
    }
    first
}
