//! The fields of the messages about trades.
ghost use Rattle.std.specs.Prelude.{◌≡◌};
ghost use Rattle.itchsnap_c.specs.Fields.{trade, cross_trade, broken_trade};

use crate::fields::{Fields, headed};
use itch_codec::{BrokenTrade, CrossTrade, Trade};

pub(crate) fn trade(message: &Trade) -> Fields
    ensures { result ≡ trade message.now }
{
    Fields {
        order_reference_number: message.reference,
        buy_sell_indicator: u8::from(message.side),
        shares: u64::from(message.shares),
        stock: *message.stock.bytes(),
        price: message.price,
        match_number: message.match_number,
        ..headed(b'P', &message.header)
    }
}

pub(crate) fn cross_trade(message: &CrossTrade) -> Fields
    ensures { result ≡ cross_trade message.now }
{
    Fields {
        shares: message.shares,
        stock: *message.stock.bytes(),
        cross_price: message.price,
        match_number: message.match_number,
        cross_type: message.cross_type,
        ..headed(b'Q', &message.header)
    }
}

pub(crate) fn broken_trade(message: &BrokenTrade) -> Fields
    ensures { result ≡ broken_trade message.now }
{
    Fields {
        match_number: message.match_number,
        ..headed(b'B', &message.header)
    }
}
