//! The sinks that take the messages of a day.
ghost use Rattle.std.specs.Prelude.{◌≡◌, ℕ, ◌+◌, ◌-◌, ◌^◌, ◌<◌, ◌≤◌, List, true, OnOk, MatchResult};
ghost use Rattle.itch_day.specs.Sinks.{Decodes, OffersPayload};

use itch_codec::{CodecFault, Message};

/// Takes the messages of a day, one after another, or refuses one.
pub trait Sink {
    /// The reason why a message is refused.
    type Fault;

    // States when a sink may be given the message with this number.
    ghost is_ready: { Self → ℕ → Type 0 };

    // States that the sink took the payload with this number, and is in this state afterwards.
    ghost takes: { Self → ℕ → List ℕ → Self → Type 0 };

    // States that the sink refused it for this reason, and is in this state afterwards.
    ghost refuses: { Self → ℕ → List ℕ → Self.Fault → Self → Type 0 };

    /// Takes the message with this number, counted from 1, or returns the reason why it is refused.
    ///
    /// The message is given as the payload of its block and in decoded form. For a payload that is not a valid message, the decoded form is
    /// its fault, which most sinks return.
    fn take(
        &mut self,
        number: u64,
        payload: &[u8],
        message: &Result<Message<'_>, CodecFault>,
    ) -> Result<(), Self::Fault>
        requires ready { is_ready self.old number }
        requires first { 0 < number }
        requires last { number ≤ 10 ^ 19 - 1 }
        requires decoded { Decodes payload.now message.now }
        ensures takes { MatchResult result (λ _. takes self.old number payload.now self.new) (λ why. refuses self.old number payload.now why self.new) }
        ensures ready { OnOk result (is_ready self.new (number + 1)) };

    /// Takes the message with this number from its payload alone and returns true; or returns false and changes nothing, and then the payload
    /// is decoded for [`Sink::take`]. A sink that can decide from a few bytes of the payload saves the decoding.
    #[inline(always)]
    fn take_payload(&mut self, number: u64, payload: &[u8]) -> bool
        requires ready { is_ready self.old number }
        requires first { 0 < number }
        requires last { number ≤ 10 ^ 19 - 1 }
        ensures takes { OffersPayload takes self.old number payload.now result self.new }
        ensures ready { result ≡ true → is_ready self.new (number + 1) }
    {
        let _number = number;
        let _payload = payload;
        false
    }

    /// Looks at the next bytes, as far as they are in memory, and returns how many of their messages it has looked at: after these it is
    /// called again. Nothing changes.
    fn look_ahead(&mut self, blocks: &[u8]) -> u64
        ensures { self.new ≡ self.old }
    {
        let _blocks = blocks;
        u64::MAX
    }
}
