//! The messages about trades, which do not change orders.
ghost use Rattle.std.specs.Prelude.{◌≡◌, ◌+◌, ◌≤◌, ◌∷◌, ◌++◌, length};
ghost use Rattle.itch_codec.specs.Layouts.{trade, cross_trade, broken_trade};
ghost use Rattle.itch_codec.specs.Fields.{HasAll, joined, first_fault, Reads};
ghost use Rattle.itch_codec.specs.Messages.{Fields};
ghost use Rattle.itch_codec.specs.Names.{trade_keys, cross_trade_keys, broken_trade_keys};
ghost use Rattle.itch_codec.specs.Rooms.{most_fields};
ghost use Rattle.itch_codec.specs.Shown.{shown_as};
ghost use Rattle.itch_codec.specs.Values.{trade_values, cross_trade_values, broken_trade_values};
ghost use Rattle.itch_codec.specs.Widths.{IsTrade, IsCrossTrade, IsBrokenTrade};

use crate::fault::CodecFault;
use crate::fields::{
    Buffer, put_code, put_side, put_text, put_u32, put_u64, side_at, text_at, u32_at, u64_at,
};
use crate::header::Header;
use crate::names::Key;
use crate::orders::Side;
use crate::sink::{Field, FieldSink};
use crate::text::Alpha;

/// Trade, non-cross, `P` (TotalView-ITCH 5.0, "Trade Message (Non-Cross)").
#[derive(Clone, Copy, Debug, PartialEq, Eq)]
pub struct Trade {
    pub header: Header,
    pub reference: u64,
    pub side: Side,
    pub shares: u32,
    pub stock: Alpha<8>,
    /// The price with four implied decimals.
    pub price: u32,
    pub match_number: u64,
}

impl Trade {
    pub(crate) fn decode(payload: &[u8]) -> Result<Trade, CodecFault>
        requires { length payload.now ≡ 44 }
        ensures { Reads (λ m. HasAll payload.now trade.columns (trade_values m)) (first_fault payload.now trade.columns) result }
    {
        Ok(Trade {
            header: Header::decode(payload),
            reference: u64_at(payload, 11),
            side: side_at(payload, 19)?,
            shares: u32_at(payload, 20),
            stock: text_at(payload, 24)?,
            price: u32_at(payload, 32),
            match_number: u64_at(payload, 36),
        })
    }

    #[inline(always)]
    #[tactic(auto, using(crate::proofs::Joining::joining), unfolding(crate::specs::Fields::joined))]
    pub(crate) fn spell(&self, out: &mut Buffer)
        ensures bytes { out.new.items ≡ trade.kind ∷ joined trade.columns (trade_values self.now) }
        ensures fits { IsTrade self.now }
    {
        self.header.begin(b'P', out);
        put_u64(out, self.reference);
        put_side(out, self.side);
        put_u32(out, self.shares);
        put_text(out, &self.stock);
        put_u32(out, self.price);
        put_u64(out, self.match_number);
    }

    /// Writes the type and the fields to a sink.
    #[tactic(auto, using(crate::proofs::Joining::joining), unfolding(crate::specs::Shown::fields, crate::specs::Rooms::most_fields))]
    pub(crate) fn write<S: FieldSink>(&self, sink: &mut S)
        requires room { S.len sink.old + (S.most.start + most_fields S.most trade_keys trade.columns) ≤ S.capacity }
        ensures bytes { S.text sink.new ≡ S.text sink.old ++ shown_as S.form trade_keys (Fields trade (trade_values self.now)) }
        ensures len { S.len sink.new ≤ S.len sink.old + (S.most.start + most_fields S.most trade_keys trade.columns) }
    {
        self.header.write_as(b'P', sink);
        sink.put(Key::OrderReferenceNumber, Field::U64(self.reference));
        sink.put(Key::BuySellIndicator, Field::Side(self.side));
        sink.put(Key::Shares, Field::U32(self.shares));
        sink.put(Key::Stock, Field::Stock(&self.stock));
        sink.put(Key::Price, Field::Price(self.price));
        sink.put(Key::MatchNumber, Field::U64(self.match_number));
    }
}

/// Cross Trade, `Q` (TotalView-ITCH 5.0, "Cross Trade Message").
#[derive(Clone, Copy, Debug, PartialEq, Eq)]
pub struct CrossTrade {
    pub header: Header,
    pub shares: u64,
    pub stock: Alpha<8>,
    /// The price of the cross with four implied decimals.
    pub price: u32,
    pub match_number: u64,
    /// The kind of cross. It may be any byte.
    pub cross_type: u8,
}

impl CrossTrade {
    pub(crate) fn decode(payload: &[u8]) -> Result<CrossTrade, CodecFault>
        requires { length payload.now ≡ 40 }
        ensures { Reads (λ m. HasAll payload.now cross_trade.columns (cross_trade_values m)) (first_fault payload.now cross_trade.columns) result }
    {
        Ok(CrossTrade {
            header: Header::decode(payload),
            shares: u64_at(payload, 11),
            stock: text_at(payload, 19)?,
            price: u32_at(payload, 27),
            match_number: u64_at(payload, 31),
            cross_type: payload[39],
        })
    }

    #[inline(always)]
    #[tactic(auto, using(crate::proofs::Joining::joining), unfolding(crate::specs::Fields::joined))]
    pub(crate) fn spell(&self, out: &mut Buffer)
        ensures bytes { out.new.items ≡ cross_trade.kind ∷ joined cross_trade.columns (cross_trade_values self.now) }
        ensures fits { IsCrossTrade self.now }
    {
        self.header.begin(b'Q', out);
        put_u64(out, self.shares);
        put_text(out, &self.stock);
        put_u32(out, self.price);
        put_u64(out, self.match_number);
        put_code(out, self.cross_type);
    }

    /// Writes the type and the fields to a sink.
    #[tactic(auto, using(crate::proofs::Joining::joining), unfolding(crate::specs::Shown::fields, crate::specs::Rooms::most_fields))]
    pub(crate) fn write<S: FieldSink>(&self, sink: &mut S)
        requires room { S.len sink.old + (S.most.start + most_fields S.most cross_trade_keys cross_trade.columns) ≤ S.capacity }
        ensures bytes { S.text sink.new ≡ S.text sink.old ++ shown_as S.form cross_trade_keys (Fields cross_trade (cross_trade_values self.now)) }
        ensures len { S.len sink.new ≤ S.len sink.old + (S.most.start + most_fields S.most cross_trade_keys cross_trade.columns) }
    {
        self.header.write_as(b'Q', sink);
        sink.put(Key::Shares, Field::U64(self.shares));
        sink.put(Key::Stock, Field::Stock(&self.stock));
        sink.put(Key::CrossPrice, Field::Price(self.price));
        sink.put(Key::MatchNumber, Field::U64(self.match_number));
        sink.put(Key::CrossType, Field::Code(self.cross_type));
    }
}

/// Broken Trade, `B` (TotalView-ITCH 5.0, "Broken Trade / Order Execution Message").
#[derive(Clone, Copy, Debug, PartialEq, Eq)]
pub struct BrokenTrade {
    pub header: Header,
    pub match_number: u64,
}

impl BrokenTrade {
    pub(crate) fn decode(payload: &[u8]) -> BrokenTrade
        requires { length payload.now ≡ 19 }
        ensures { HasAll payload.now broken_trade.columns (broken_trade_values result) }
    {
        BrokenTrade {
            header: Header::decode(payload),
            match_number: u64_at(payload, 11),
        }
    }

    #[inline(always)]
    #[tactic(auto, using(crate::proofs::Joining::joining), unfolding(crate::specs::Fields::joined))]
    pub(crate) fn spell(&self, out: &mut Buffer)
        ensures bytes { out.new.items ≡ broken_trade.kind ∷ joined broken_trade.columns (broken_trade_values self.now) }
        ensures fits { IsBrokenTrade self.now }
    {
        self.header.begin(b'B', out);
        put_u64(out, self.match_number);
    }

    /// Writes the type and the fields to a sink.
    #[tactic(auto, using(crate::proofs::Joining::joining), unfolding(crate::specs::Shown::fields, crate::specs::Rooms::most_fields))]
    pub(crate) fn write<S: FieldSink>(&self, sink: &mut S)
        requires room { S.len sink.old + (S.most.start + most_fields S.most broken_trade_keys broken_trade.columns) ≤ S.capacity }
        ensures bytes { S.text sink.new ≡ S.text sink.old ++ shown_as S.form broken_trade_keys (Fields broken_trade (broken_trade_values self.now)) }
        ensures len { S.len sink.new ≤ S.len sink.old + (S.most.start + most_fields S.most broken_trade_keys broken_trade.columns) }
    {
        self.header.write_as(b'B', sink);
        sink.put(Key::MatchNumber, Field::U64(self.match_number));
    }
}
