//! The requested part of a file.
ghost use Rattle.std.specs.Prelude.{◌≡◌};
ghost use Rattle.itch_day.specs.Limits.{counted, is_late, most_of};

use itch_codec::Message;

/// The end of the requested part of a file: the first of its limits that is reached. Without a limit the part is the complete file.
#[derive(Clone, Copy, Debug, PartialEq, Eq)]
pub struct Limit {
    /// Ends the part after this number of messages.
    pub after: Option<u64>,
    /// Ends the part before the first message at this time or later, in nanoseconds since midnight, as in a timestamp.
    pub until: Option<u64>,
}

impl Limit {
    /// Returns the limit of the complete file.
    pub fn whole() -> Limit
        ensures { result ≡ counted None }
    {
        Limit::counted(None)
    }

    /// Returns the limit after this number of messages, or that of the complete file.
    pub fn counted(after: Option<u64>) -> Limit
        ensures { result ≡ counted after }
    {
        Limit { after, until: None }
    }

    /// Returns the maximum number of messages in the part. Without a number it is more than any file can contain.
    pub fn most(&self) -> u64
        ensures { result ≡ most_of self.now.after }
    {
        match self.after {
            Some(most) => most,
            None => u64::MAX,
        }
    }

    /// Returns whether a message is at the time where the part ends, or later.
    pub fn is_late(&self, message: &Message<'_>) -> bool
        ensures { result ≡ is_late self.now.until message.now }
    {
        let Some(until) = self.until else {
            return false;
        };
        match message.time() {
            Some(time) => until <= time,
            None => false,
        }
    }
}
