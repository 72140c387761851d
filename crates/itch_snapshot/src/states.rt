//! The messages of a snapshot about a security between its directory entry and its orders.
ghost use Rattle.std.specs.Prelude.{◌≡◌, List, [], ◌∷◌, MatchOption, ⊤};
ghost use Rattle.itch_snapshot.specs.Snapshot.{states_part};
ghost use Rattle.itch_snapshot.specs.Cursor.{listed};

use crate::messages::header_at;
use itch_codec::{
    Alpha, Header, Message, OperationalHalt, ParticipantPosition, RegSho, TradingAction,
};
use itch_market::{Action, Halts, Positions, Security};
use std::alloc::{AllocError, Allocator};
use std::marker::Model;

/// The remaining messages of a security's trading states, halts and positions.
#[derive(Drop)]
pub(crate) struct States<'a> {
    locate: u16,
    stock: Alpha<8>,
    action: Option<Action>,
    sho: Option<u8>,
    halts: Halts<'a>,
    positions: Positions<'a>,
}

impl<'a> Model for States<'a> {
    ghost use Rattle.std.specs.Prelude.{List};
    ghost use Rattle.itch_codec.specs.declared.message.Message.{Message};
    ghost use Rattle.itch_snapshot.specs.Snapshot.{states_of};

    ghost Value = { List Message };

    ghost view = { λ s. states_of s.locate s.stock s.action s.sho s.halts s.positions };
}

impl Clone for States<'_> {
    ghost is_clone = { λ states copy. copy ≡ states };

    ghost is_infallible = { λ _. ⊤ };

    fn clone(&self) -> Result<Self, AllocError> {
        Ok(States {
            locate: self.locate,
            stock: self.stock,
            action: self.action,
            sho: self.sho,
            halts: self.halts.clone()?,
            positions: self.positions.clone()?,
        })
    }
}

impl<'a> States<'a> {
    /// Creates the list of all of them.
    pub(crate) fn new<A: Allocator>(locate: u16, security: &'a Security<A>) -> States<'a>
        ensures { result ≡ states_part locate security.now }
    {
        States {
            locate,
            stock: security.entry.stock,
            action: security.action,
            sho: security.sho,
            halts: security.halts(),
            positions: security.positions(),
        }
    }

    /// Removes and returns the next message.
    pub(crate) fn take_first<'m>(&mut self) -> Option<Message<'m>>
        ensures { MatchOption result ((self.old ≡ []) × (self.new ≡ [])) (λ x. self.old ≡ x ∷ self.new) }
    {
        let header = header_at(self.locate);
        let stock = self.stock;
        if let Some(action) = self.action.take() {
            return Some(Message::TradingAction(action_message(header, stock, action)));
        }
        if let Some(action) = self.sho.take() {
            return Some(Message::RegSho(RegSho {
                header,
                stock,
                action,
            }));
        }
        if let Some((market_code, action)) = self.halts.next() {
            return Some(Message::Halt(OperationalHalt {
                header,
                stock,
                market_code,
                action,
            }));
        }
        let (mpid, position) = self.positions.next()?;
        Some(Message::Position(ParticipantPosition {
            header,
            mpid,
            stock,
            primary_market_maker: position[0],
            mode: position[1],
            state: position[2],
        }))
    }
}

// Returns the message of a security's trading action.
fn action_message(header: Header, stock: Alpha<8>, action: Action) -> TradingAction
    ensures { result ≡ record { header = header; stock = stock; state = action.state; reserved = 32; reason = action.reason } }
{
    let Action { state, reason } = action;
    TradingAction {
        header,
        stock,
        state,
        reserved: b' ',
        reason,
    }
}

// Removes and returns the next message, if there are any. An empty list is dropped, and not queried again.
pub(crate) fn next_state<'m>(states: &mut Option<States<'_>>) -> Option<Message<'m>>
    ensures { MatchOption result ((listed states.old ≡ []) × (listed states.new ≡ [])) (λ x. listed states.old ≡ x ∷ listed states.new) }
{
    let message = states.as_mut()?.take_first();
    if message.is_none() {
        *states = None;
    }
    message
}
