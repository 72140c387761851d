//! Encodes messages into payloads.
ghost use Rattle.std.specs.Prelude.{◌≡◌, MatchOption};
ghost use Rattle.itch_codec.specs.Fields.{AreBytes};
ghost use Rattle.itch_codec.specs.Widths.{IsMessage};
ghost use Rattle.itch_codec.specs.Messages.{Spells, spelling};

use crate::encoded::Encoded;
use crate::fields::Buffer;
use crate::message::Message;

/// Returns the bytes of a message, as in the feed.
///
/// The number of an End of Snapshot is right-justified in its twenty bytes, with spaces on the left.
#[tactic(auto, using(crate::proofs::Spelling::encoding))]
pub fn encode<'a>(message: &Message<'a>) -> Encoded<'a>
    ensures bytes { result ≡ spelling message.now }
    ensures spells { Spells message.now result }
    ensures fits { IsMessage message.now }
{
    let mut room = Buffer::new();
    match spell(message, &mut room) {
        None => Encoded::built(room),
        Some(payload) => Encoded::kept(payload),
    }
}

/// Encodes messages one after another in the same place, so that their bytes are not moved. It allocates no memory.
#[derive(Drop)]
pub struct Encoder {
    room: Buffer,
}

impl Encoder {
    /// Creates an encoder with room for any decoded message.
    pub fn new() -> Encoder {
        Encoder {
            room: Buffer::new(),
        }
    }

    /// Returns the bytes of a message, as [`encode`] does.
    #[inline(always)]
    pub fn encode<'s, 'a: 's>(&'s mut self, message: &Message<'a>) -> &'s [u8]
        ensures bytes { result.now ≡ spelling message.now }
        ensures fits { IsMessage message.now }
    {
        match spell(message, &mut self.room) {
            None => self.room.as_slice(),
            Some(payload) => payload,
        }
    }
}

// Encodes a message in this place, or returns the payload of an undecoded message.
#[tactic(auto, unfolding(crate::specs::Messages::spelling))]
fn spell<'a>(message: &Message<'a>, out: &mut Buffer) -> Option<&'a [u8]>
    ensures bytes { MatchOption result (out.new.items ≡ spelling message.now) (λ payload. payload.now ≡ spelling message.now) }
    ensures fits { IsMessage message.now }
{
    match message {
        Message::SystemEvent(m) => m.spell(out),
        Message::StockDirectory(m) => m.spell(out),
        Message::TradingAction(m) => m.spell(out),
        Message::RegSho(m) => m.spell(out),
        Message::Halt(m) => m.spell(out),
        Message::Position(m) => m.spell(out),
        Message::AddOrder(m) => m.spell(out),
        Message::AttributedAddOrder(m) => m.spell(out),
        Message::OrderExecuted(m) => m.spell(out),
        Message::OrderExecutedWithPrice(m) => m.spell(out),
        Message::OrderCancel(m) => m.spell(out),
        Message::OrderDelete(m) => m.spell(out),
        Message::OrderReplace(m) => m.spell(out),
        Message::Trade(m) => m.spell(out),
        Message::CrossTrade(m) => m.spell(out),
        Message::BrokenTrade(m) => m.spell(out),
        Message::End { next } => next.spell(out),
        Message::Other(m) => return Some(kept(m.payload())),
    }
    None
}

// Returns a payload unchanged.
fn kept(payload: &[u8]) -> &[u8]
    ensures bytes { result.now ≡ payload.now }
    ensures wide { AreBytes payload.now }
{
    payload
}
