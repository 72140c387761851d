//! The position of a joiner after joining.
ghost use Rattle.std.specs.Prelude.{◌<◌, ◌^◌, ℕ, List, Some};
ghost use Rattle.itch_day.specs.Sinks.{Decodes};
ghost use Rattle.itch_market.specs.Wanted.{has};
ghost use Rattle.itch_join.specs.Rules.{rules_of};
ghost use Rattle.itch_join.specs.Applying.{Advances, Drains};

use crate::applying::{apply, apply_decoded};
use crate::state::Stopped;
use crate::waiting::Waiting;
use itch_book::OrderBook;
use itch_codec::{CodecFault, Message};
use itch_market::{LocateSet, Market};
use std::marker::Model;

/// The number of the next message, and the market of the messages before it.
#[derive(Drop)]
pub struct Position<B: OrderBook> {
    pub(crate) next: u64,
    pub(crate) market: Market<B>,
}

impl<B: OrderBook> Model for Position<B> {
    ghost use Rattle.std.specs.FinMap as map;
    ghost use Rattle.std.specs.Coded.{codes};
    ghost use Rattle.itch_join.specs.Positions.{Position as Seen};

    ghost Value = { Seen };

    ghost coded = { Prim.hlevel (codes, map.code) };

    ghost view = { λ j. record { next = j.next; market = j.market } };
}

// Applies the waiting messages, up to the first number that is missing. A message remains in the waiting list until it is applied.
pub(crate) fn drain<B: OrderBook>(
    wait: &mut Waiting<B::Alloc>,
    set: &LocateSet<B::Alloc>,
    position: &mut Position<B>,
) -> Result<(), Stopped>
    ensures { Drains (rules_of (has set.now)) wait.old position.old result wait.new position.new }
{
    while let Some(payload) = wait.get(position.next) {
        apply(&mut position.market, set, payload)?;
        wait.remove(position.next);
        position.next += 1;
    }
    Ok(())
}

// Applies the message with the next number, and then the waiting messages after it.
pub(crate) fn advance<B: OrderBook>(
    wait: &mut Waiting<B::Alloc>,
    set: &LocateSet<B::Alloc>,
    position: &mut Position<B>,
    message: &Result<Message<'_>, CodecFault>,
) -> Result<(), Stopped>
    requires { position.old.next < 10 ^ 19 }
    ensures { (payload : List ℕ) → Decodes payload message.now → Advances (rules_of (has set.now)) wait.old position.old (Some payload) result wait.new position.new }
{
    apply_decoded(&mut position.market, set, message)?;
    wait.remove(position.next);
    position.next += 1;
    drain(wait, set, position)
}
