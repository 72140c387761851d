//! A message of the feed or of a snapshot.
ghost use Rattle.std.specs.Prelude.{◌≡◌, ◌+◌, ◌≤◌, ◌++◌};
ghost use Rattle.itch_codec.specs.Headers.{header, kind_of, reference_of, time_of};
ghost use Rattle.itch_codec.specs.Rooms.{most_shown};
ghost use Rattle.itch_codec.specs.Shown.{shown};

use crate::header::Header;
use crate::names::Key;
use crate::number::Seq;
use crate::orders::{
    AddOrder, AttributedAddOrder, OrderCancel, OrderDelete, OrderExecuted, OrderExecutedWithPrice,
    OrderReplace,
};
use crate::sink::{Field, FieldSink};
use crate::stocks::{
    OperationalHalt, ParticipantPosition, RegSho, StockDirectory, SystemEvent, TradingAction,
};
use crate::trades::{BrokenTrade, CrossTrade, Trade};
use crate::undecoded::Undecoded;

/// A message of the feed or of a snapshot. Each type has one variant.
#[derive(Debug, Drop, PartialEq, Eq)]
pub enum Message<'a> {
    SystemEvent(SystemEvent),
    StockDirectory(StockDirectory),
    TradingAction(TradingAction),
    RegSho(RegSho),
    Halt(OperationalHalt),
    Position(ParticipantPosition),
    AddOrder(AddOrder),
    AttributedAddOrder(AttributedAddOrder),
    OrderExecuted(OrderExecuted),
    OrderExecutedWithPrice(OrderExecutedWithPrice),
    OrderCancel(OrderCancel),
    OrderDelete(OrderDelete),
    OrderReplace(OrderReplace),
    Trade(Trade),
    CrossTrade(CrossTrade),
    BrokenTrade(BrokenTrade),
    /// End of Snapshot (GLIMPSE 5.0), with the number of the first message that the snapshot does not contain.
    End { next: Seq },
    Other(Undecoded<'a>),
}

impl Message<'_> {
    /// Returns the message type: the first byte of its payload.
    pub fn kind(&self) -> u8
        ensures { result ≡ kind_of self.now }
    {
        match self {
            Message::SystemEvent(_) => b'S',
            Message::StockDirectory(_) => b'R',
            Message::TradingAction(_) => b'H',
            Message::RegSho(_) => b'Y',
            Message::Halt(_) => b'h',
            Message::Position(_) => b'L',
            Message::AddOrder(_) => b'A',
            Message::AttributedAddOrder(_) => b'F',
            Message::OrderExecuted(_) => b'E',
            Message::OrderExecutedWithPrice(_) => b'C',
            Message::OrderCancel(_) => b'X',
            Message::OrderDelete(_) => b'D',
            Message::OrderReplace(_) => b'U',
            Message::Trade(_) => b'P',
            Message::CrossTrade(_) => b'Q',
            Message::BrokenTrade(_) => b'B',
            Message::End { .. } => b'G',
            Message::Other(m) => m.kind(),
        }
    }

    /// Returns the header. An End of Snapshot and an undecoded message have none.
    pub fn header(&self) -> Option<Header>
        ensures { result ≡ header self.now }
    {
        match self {
            Message::SystemEvent(m) => Some(m.header),
            Message::StockDirectory(m) => Some(m.header),
            Message::TradingAction(m) => Some(m.header),
            Message::RegSho(m) => Some(m.header),
            Message::Halt(m) => Some(m.header),
            Message::Position(m) => Some(m.header),
            Message::AddOrder(m) => Some(m.header),
            Message::AttributedAddOrder(m) => Some(m.order.header),
            Message::OrderExecuted(m) => Some(m.header),
            Message::OrderExecutedWithPrice(m) => Some(m.execution.header),
            Message::OrderCancel(m) => Some(m.header),
            Message::OrderDelete(m) => Some(m.header),
            Message::OrderReplace(m) => Some(m.header),
            Message::Trade(m) => Some(m.header),
            Message::CrossTrade(m) => Some(m.header),
            Message::BrokenTrade(m) => Some(m.header),
            Message::End { .. } | Message::Other(_) => None,
        }
    }

    /// Returns the timestamp in nanoseconds since midnight, if the message has a header.
    pub fn time(&self) -> Option<u64>
        ensures { result ≡ time_of self.now }
    {
        match self.header() {
            Some(header) => Some(header.stamp.value()),
            None => None,
        }
    }

    /// Returns the order reference number of the live order that the message adds, changes or ends; of a replace it is the original number.
    ///
    /// A Trade has an order reference number too, but it does not identify an order of the book.
    pub fn reference(&self) -> Option<u64>
        ensures { result ≡ reference_of self.now }
    {
        match self {
            Message::AddOrder(m) => Some(m.reference),
            Message::AttributedAddOrder(m) => Some(m.order.reference),
            Message::OrderExecuted(m) => Some(m.reference),
            Message::OrderExecutedWithPrice(m) => Some(m.execution.reference),
            Message::OrderCancel(m) => Some(m.reference),
            Message::OrderDelete(m) => Some(m.reference),
            Message::OrderReplace(m) => Some(m.original),
            _ => None,
        }
    }

    /// Writes the type and the fields to a sink, in the order of the layout; for an undecoded message, the type and the length.
    #[tactic(auto, using(crate::proofs::Joining::joining), unfolding(crate::specs::Shown::fields, crate::specs::Rooms::most_fields))]
    pub(crate) fn write<S: FieldSink>(&self, sink: &mut S)
        requires room { S.len sink.old + most_shown S.most self.now ≤ S.capacity }
        ensures bytes { S.text sink.new ≡ S.text sink.old ++ shown S.form self.now }
        ensures len { S.len sink.new ≤ S.len sink.old + most_shown S.most self.now }
    {
        match self {
            Message::SystemEvent(m) => m.write(sink),
            Message::StockDirectory(m) => m.write(sink),
            Message::TradingAction(m) => m.write(sink),
            Message::RegSho(m) => m.write(sink),
            Message::Halt(m) => m.write(sink),
            Message::Position(m) => m.write(sink),
            Message::AddOrder(m) => m.write(sink),
            Message::AttributedAddOrder(m) => m.write(sink),
            Message::OrderExecuted(m) => m.write(sink),
            Message::OrderExecutedWithPrice(m) => m.write(sink),
            Message::OrderCancel(m) => m.write(sink),
            Message::OrderDelete(m) => m.write(sink),
            Message::OrderReplace(m) => m.write(sink),
            Message::Trade(m) => m.write(sink),
            Message::CrossTrade(m) => m.write(sink),
            Message::BrokenTrade(m) => m.write(sink),
            Message::End { next } => {
                sink.begin(b'G');
                sink.put(Key::SequenceNumber, Field::Digits(next.value()));
            }
            Message::Other(m) => m.write(sink),
        }
    }
}
