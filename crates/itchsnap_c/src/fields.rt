//! The fields of a message, as C gets them.
ghost use Rattle.std.specs.Prelude.{◌≡◌};
ghost use Rattle.itchsnap_c.specs.Fields.{blank, headed, fields_of};

use itch_codec::{Header, Message};

mod orders;
mod stocks;
mod trades;

use orders::{
    add_order, attributed_add_order, order_cancel, order_delete, order_executed,
    order_executed_with_price, order_replace,
};
use stocks::{
    operational_halt, participant_position, reg_sho, stock_directory, system_event, trading_action,
};
use trades::{broken_trade, cross_trade, trade};

/// The fields of a message, by the standard's names. Those that its type does not have are 0.
///
/// Prices have four implied decimals. Texts are padded with spaces. A code is the byte that the message has.
#[repr(C)]
#[derive(Clone, Copy, Drop)]
pub struct Fields {
    /// Nanoseconds since midnight.
    pub timestamp: u64,
    pub order_reference_number: u64,
    pub original_order_reference_number: u64,
    pub new_order_reference_number: u64,
    pub match_number: u64,
    pub shares: u64,
    /// Of End of Snapshot: the number of the first message that the snapshot does not contain.
    pub sequence_number: u64,
    pub executed_shares: u32,
    pub cancelled_shares: u32,
    pub price: u32,
    pub execution_price: u32,
    pub cross_price: u32,
    pub round_lot_size: u32,
    pub etp_leverage_factor: u32,
    pub stock_locate: u16,
    pub tracking_number: u16,
    pub stock: [u8; 8],
    pub mpid: [u8; 4],
    pub attribution: [u8; 4],
    pub reason: [u8; 4],
    pub issue_sub_type: [u8; 2],
    /// The type: the first byte of the payload.
    pub message_type: u8,
    pub buy_sell_indicator: u8,
    pub printable: u8,
    pub cross_type: u8,
    pub event_code: u8,
    pub market_category: u8,
    pub financial_status_indicator: u8,
    pub round_lots_only: u8,
    pub issue_classification: u8,
    pub authenticity: u8,
    pub short_sale_threshold_indicator: u8,
    pub ipo_flag: u8,
    pub luld_reference_price_tier: u8,
    pub etp_flag: u8,
    pub inverse_indicator: u8,
    pub trading_state: u8,
    pub reserved: u8,
    pub reg_sho_action: u8,
    pub market_code: u8,
    pub operational_halt_action: u8,
    pub primary_market_maker: u8,
    pub market_maker_mode: u8,
    pub market_participant_state: u8,
}

/// The fields of a message. Of one whose type is not decoded, the type alone.
pub(crate) fn fields_of(message: &Message<'_>) -> Fields
    ensures { result ≡ fields_of message.now }
{
    match message {
        Message::SystemEvent(m) => system_event(m),
        Message::StockDirectory(m) => stock_directory(m),
        Message::TradingAction(m) => trading_action(m),
        Message::RegSho(m) => reg_sho(m),
        Message::Halt(m) => operational_halt(m),
        Message::Position(m) => participant_position(m),
        Message::AddOrder(m) => add_order(m),
        Message::AttributedAddOrder(m) => attributed_add_order(m),
        Message::OrderExecuted(m) => order_executed(m),
        Message::OrderExecutedWithPrice(m) => order_executed_with_price(m),
        Message::OrderCancel(m) => order_cancel(m),
        Message::OrderDelete(m) => order_delete(m),
        Message::OrderReplace(m) => order_replace(m),
        Message::Trade(m) => trade(m),
        Message::CrossTrade(m) => cross_trade(m),
        Message::BrokenTrade(m) => broken_trade(m),
        Message::End { next } => Fields {
            sequence_number: next.value(),
            ..blank(b'G')
        },
        Message::Other(m) => blank(m.kind()),
    }
}

// The fields of a header, with the type.
fn headed(message_type: u8, header: &Header) -> Fields
    ensures { result ≡ headed message_type header.now }
{
    Fields {
        stock_locate: header.locate,
        tracking_number: header.tracking,
        timestamp: header.stamp.value(),
        ..blank(message_type)
    }
}

// A type alone.
fn blank(message_type: u8) -> Fields
    ensures { result ≡ blank message_type }
{
    Fields {
        timestamp: 0,
        order_reference_number: 0,
        original_order_reference_number: 0,
        new_order_reference_number: 0,
        match_number: 0,
        shares: 0,
        sequence_number: 0,
        executed_shares: 0,
        cancelled_shares: 0,
        price: 0,
        execution_price: 0,
        cross_price: 0,
        round_lot_size: 0,
        etp_leverage_factor: 0,
        stock_locate: 0,
        tracking_number: 0,
        stock: [0; 8],
        mpid: [0; 4],
        attribution: [0; 4],
        reason: [0; 4],
        issue_sub_type: [0; 2],
        message_type,
        buy_sell_indicator: 0,
        printable: 0,
        cross_type: 0,
        event_code: 0,
        market_category: 0,
        financial_status_indicator: 0,
        round_lots_only: 0,
        issue_classification: 0,
        authenticity: 0,
        short_sale_threshold_indicator: 0,
        ipo_flag: 0,
        luld_reference_price_tier: 0,
        etp_flag: 0,
        inverse_indicator: 0,
        trading_state: 0,
        reserved: 0,
        reg_sho_action: 0,
        market_code: 0,
        operational_halt_action: 0,
        primary_market_maker: 0,
        market_maker_mode: 0,
        market_participant_state: 0,
    }
}
