//! A market, and the change by the last message of a day.
ghost use Rattle.std.specs.Prelude.{◌≡◌, ◌↔◌, IsTrue};
ghost use Rattle.itch_market.specs.Content.{Content, empty};
ghost use Rattle.itch_market.specs.Plain.{nothing, plain};
ghost use Rattle.itch_commands.specs.Changes.{plainest};

use itch_book::OrderBook;
use itch_codec::{BrokenTrade, CodecFault, Header, Message, Stamp};
use itch_day::Sink;
use itch_market::{Market, Refused, same_message};

/// A market that takes the messages of a day, and the change by the last of them.
#[derive(Drop)]
pub struct TrackedMarket<B: OrderBook> {
    pub market: Market<B>,
    /// Whether the last message may have changed something, judging by its type.
    pub has_change: bool,
    /// The plainest message with the effect of the last one that may have changed something.
    pub change: Message<'static>,
}

impl<B: OrderBook> TrackedMarket<B> {
    /// Creates the market before any message.
    pub fn new(alloc: B::Alloc) -> TrackedMarket<B>
        ensures { result.market ≡ empty }
    {
        TrackedMarket {
            market: Market::new(alloc),
            has_change: false,
            change: nothing(),
        }
    }

    /// Returns whether the last messages of two markets had the same effect.
    #[inline(always)]
    pub fn changed_as(&self, other: &TrackedMarket<B>) -> bool
        ensures { IsTrue result ↔ (plainest self.now.has_change self.now.change ≡ plainest other.now.has_change other.now.change) }
    {
        match (self.has_change, other.has_change) {
            (false, false) => true,
            (true, true) => same_message(&self.change, &other.change),
            (true, false) => same_message(&self.change, &nothing()),
            (false, true) => same_message(&nothing(), &other.change),
        }
    }
}

impl<B: OrderBook> Sink for TrackedMarket<B> {
    ghost use Rattle.std.specs.Prelude.{◌≡◌};
    ghost use Rattle.itch_codec.specs.Messages.{message_of};
    ghost use Rattle.itch_market.specs.Plain.{plain};
    ghost use Rattle.itch_market.specs.Takings.{TakesMessage, RefusesMessage};
    ghost use Rattle.itch_commands.specs.Changes.{plainest};

    type Fault = Refused;

    ghost is_ready = { λ _ _. Unit {0} };

    ghost takes = { λ s number payload t. TakesMessage s.market number payload t.market × (plainest t.has_change t.change ≡ plain s.market (message_of payload)) };

    ghost refuses = { λ s number payload why t. RefusesMessage s.market number payload why t.market };

    #[inline(always)]
    fn take(
        &mut self,
        number: u64,
        payload: &[u8],
        message: &Result<Message<'_>, CodecFault>,
    ) -> Result<(), Refused> {
        if let Ok(message) = message {
            self.has_change = !changes_nothing(message);
            if self.has_change {
                self.change = plain(&self.market, message);
            }
        }
        self.market.take(number, payload, message)
    }

    #[inline(always)]
    fn look_ahead(&mut self, blocks: &[u8]) -> u64 {
        self.market.look_ahead(blocks)
    }
}

// Returns whether a message never changes a market, judging by its type.
#[inline(always)]
fn changes_nothing(message: &Message<'_>) -> bool
    ensures { IsTrue result → (m : Content) → plain m message.now ≡ nothing }
{
    matches!(
        message,
        Message::Trade(_)
            | Message::CrossTrade(_)
            | Message::BrokenTrade(_)
            | Message::End { .. }
            | Message::Other(_)
    )
}

// This is a function of its own so that the space that each type needs stays out of the loop.
#[inline(never)]
fn plain<B: OrderBook>(market: &Market<B>, message: &Message<'_>) -> Message<'static>
    ensures { result ≡ plain market.now message.now }
{
    market.plain(message)
}

// Returns a message that never changes a market: the plainest one.
fn nothing() -> Message<'static>
    ensures { result ≡ nothing }
{
    Message::BrokenTrade(BrokenTrade {
        header: Header {
            locate: 0,
            tracking: 0,
            stamp: Stamp::new(0).unwrap(),
        },
        match_number: 0,
    })
}
