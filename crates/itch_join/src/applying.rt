//! Applies messages to a market.
ghost use Rattle.std.specs.Prelude.{ℕ, List};
ghost use Rattle.itch_day.specs.Sinks.{Decodes};
ghost use Rattle.itch_market.specs.Wanted.{has};
ghost use Rattle.itch_join.specs.Rules.{rules_of};
ghost use Rattle.itch_join.specs.Applying.{AppliesOne};

use crate::state::Stopped;
use itch_book::OrderBook;
use itch_codec::{CodecFault, Message, decode};
use itch_market::{LocateSet, Market};

// Applies the message of a payload, unless it is at a locate that is not in the set.
pub(crate) fn apply<B: OrderBook>(
    market: &mut Market<B>,
    set: &LocateSet<B::Alloc>,
    payload: &[u8],
) -> Result<(), Stopped>
    ensures { AppliesOne (rules_of (has set.now)) market.old payload.now result market.new }
{
    apply_decoded(market, set, &decode(payload))
}

// Does the same for the decoded form of a payload.
pub(crate) fn apply_decoded<B: OrderBook>(
    market: &mut Market<B>,
    set: &LocateSet<B::Alloc>,
    message: &Result<Message<'_>, CodecFault>,
) -> Result<(), Stopped>
    ensures { (payload : List ℕ) → Decodes payload message.now → AppliesOne (rules_of (has set.now)) market.old payload result market.new }
{
    let message = match message {
        Ok(message) => message,
        Err(fault) => return Err(Stopped::from(*fault)),
    };
    market.recall_invariant();
    if set.skips(message) {
        return Ok(());
    }
    market.apply(message)?;
    Ok(())
}
