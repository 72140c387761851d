//! The fields of system events and of the securities' own messages.
ghost use Rattle.std.specs.Prelude.{◌≡◌};
ghost use Rattle.itchsnap_c.specs.Fields.{system_event, stock_directory, trading_action, reg_sho, operational_halt, participant_position};

use crate::fields::{Fields, headed};
use itch_codec::{
    OperationalHalt, ParticipantPosition, RegSho, StockDirectory, SystemEvent, TradingAction,
};

pub(crate) fn system_event(message: &SystemEvent) -> Fields
    ensures { result ≡ system_event message.now }
{
    Fields {
        event_code: message.code,
        ..headed(b'S', &message.header)
    }
}

pub(crate) fn stock_directory(message: &StockDirectory) -> Fields
    ensures { result ≡ stock_directory message.now }
{
    let entry = &message.entry;
    Fields {
        stock: *entry.stock.bytes(),
        market_category: entry.market_category,
        financial_status_indicator: entry.financial_status,
        round_lot_size: entry.round_lot_size,
        round_lots_only: entry.round_lots_only,
        issue_classification: entry.issue_classification,
        issue_sub_type: entry.issue_sub_type,
        authenticity: entry.authenticity,
        short_sale_threshold_indicator: entry.short_sale_threshold,
        ipo_flag: entry.ipo_flag,
        luld_reference_price_tier: entry.luld_price_tier,
        etp_flag: entry.etp_flag,
        etp_leverage_factor: entry.etp_leverage_factor,
        inverse_indicator: entry.inverse_indicator,
        ..headed(b'R', &message.header)
    }
}

pub(crate) fn trading_action(message: &TradingAction) -> Fields
    ensures { result ≡ trading_action message.now }
{
    Fields {
        stock: *message.stock.bytes(),
        trading_state: message.state,
        reserved: message.reserved,
        reason: message.reason,
        ..headed(b'H', &message.header)
    }
}

pub(crate) fn reg_sho(message: &RegSho) -> Fields
    ensures { result ≡ reg_sho message.now }
{
    Fields {
        stock: *message.stock.bytes(),
        reg_sho_action: message.action,
        ..headed(b'Y', &message.header)
    }
}

pub(crate) fn operational_halt(message: &OperationalHalt) -> Fields
    ensures { result ≡ operational_halt message.now }
{
    Fields {
        stock: *message.stock.bytes(),
        market_code: message.market_code,
        operational_halt_action: message.action,
        ..headed(b'h', &message.header)
    }
}

pub(crate) fn participant_position(message: &ParticipantPosition) -> Fields
    ensures { result ≡ participant_position message.now }
{
    Fields {
        mpid: *message.mpid.bytes(),
        stock: *message.stock.bytes(),
        primary_market_maker: message.primary_market_maker,
        market_maker_mode: message.mode,
        market_participant_state: message.state,
        ..headed(b'L', &message.header)
    }
}
