//! Decodes payloads into messages.
ghost use Rattle.std.specs.Prelude.{◌≡◌, Some, None, Ok, IfOk, IfErr, OnOk};
ghost use Rattle.itch_codec.specs.declared.message.Message.{Message as MessageValue};
ghost use Rattle.itch_codec.specs.Fields.{Reads};
ghost use Rattle.itch_codec.specs.Widths.{IsMessage};
ghost use Rattle.itch_codec.specs.Messages.{Spells, fault, message_of};

use crate::fault::CodecFault;
use crate::message::Message;
use crate::number::Seq;
use crate::orders::{
    AddOrder, AttributedAddOrder, OrderCancel, OrderDelete, OrderExecuted, OrderExecutedWithPrice,
    OrderReplace,
};
use crate::sizes::size_of_type;
use crate::stocks::{
    OperationalHalt, ParticipantPosition, RegSho, StockDirectory, SystemEvent, TradingAction,
};
use crate::trades::{BrokenTrade, CrossTrade, Trade};
use crate::undecoded::Undecoded;

/// Returns the message of a payload.
///
/// If the payload is not a valid message, it returns the payload's fault: its length, or else the fault of the first faulty field.
#[inline(always)]
pub fn decode(payload: &[u8]) -> Result<Message<'_>, CodecFault>
    ensures found { IfOk result (λ m. Spells m payload.entry.now) }
    ensures only { (m : MessageValue) → Spells m payload.entry.now → result ≡ Ok m }
    ensures fault { IfErr result (λ e. fault payload.entry.now ≡ Some e) }
    ensures no_fault { OnOk result (fault payload.entry.now ≡ None) }
    ensures message { IfOk result (λ m. m ≡ message_of payload.entry.now) }
    ensures fits { IfOk result (λ m. IsMessage m) }
{
    read(payload)
}

// Returns the message of the payload, or the payload's fault.
#[inline(always)]
fn read(payload: &[u8]) -> Result<Message<'_>, CodecFault>
    ensures { Reads (λ m. Spells m payload.entry.now) (fault payload.entry.now) result }
{
    let Some(&kind) = payload.first() else {
        return Err(CodecFault::Empty);
    };
    if let Some(want) = size_of_type(kind)
        && payload.len() != want
    {
        return Err(CodecFault::WrongLength {
            kind,
            want,
            got: payload.len(),
        });
    }
    match kind {
        b'S' => Ok(Message::SystemEvent(SystemEvent::decode(payload))),
        b'R' => Ok(Message::StockDirectory(StockDirectory::decode(payload)?)),
        b'H' => Ok(Message::TradingAction(TradingAction::decode(payload)?)),
        b'Y' => Ok(Message::RegSho(RegSho::decode(payload)?)),
        b'h' => Ok(Message::Halt(OperationalHalt::decode(payload)?)),
        b'L' => Ok(Message::Position(ParticipantPosition::decode(payload)?)),
        b'A' => Ok(Message::AddOrder(AddOrder::decode(payload)?)),
        b'F' => Ok(Message::AttributedAddOrder(AttributedAddOrder::decode(payload)?)),
        b'E' => Ok(Message::OrderExecuted(OrderExecuted::decode(payload))),
        b'C' => Ok(Message::OrderExecutedWithPrice(OrderExecutedWithPrice::decode(payload))),
        b'X' => Ok(Message::OrderCancel(OrderCancel::decode(payload))),
        b'D' => Ok(Message::OrderDelete(OrderDelete::decode(payload))),
        b'U' => Ok(Message::OrderReplace(OrderReplace::decode(payload))),
        b'P' => Ok(Message::Trade(Trade::decode(payload)?)),
        b'Q' => Ok(Message::CrossTrade(CrossTrade::decode(payload)?)),
        b'B' => Ok(Message::BrokenTrade(BrokenTrade::decode(payload))),
        b'G' => Ok(Message::End {
            next: Seq::decode(payload)?,
        }),
        _ => Ok(Message::Other(Undecoded::kept(payload))),
    }
}
