//! System events, and the messages about one security.
ghost use Rattle.std.specs.Prelude.{◌≡◌, ◌+◌, ◌≤◌, ◌∷◌, ◌++◌, length};
ghost use Rattle.arrayvec.specs.ArrayVec.{array_vec_len};
ghost use Rattle.itch_codec.specs.Layouts.{system_event, directory_columns, stock_directory, trading_action, reg_sho, operational_halt, participant_position};
ghost use Rattle.itch_codec.specs.Fields.{HasAll, joined, first_fault, Reads};
ghost use Rattle.itch_codec.specs.Messages.{Fields};
ghost use Rattle.itch_codec.specs.Names.{directory_keys, system_event_keys, stock_directory_keys, trading_action_keys, reg_sho_keys, operational_halt_keys, participant_position_keys};
ghost use Rattle.itch_codec.specs.Rooms.{most_fields};
ghost use Rattle.itch_codec.specs.Shown.{fields, shown_as};
ghost use Rattle.itch_codec.specs.Values.{system_event_values, directory_values, stock_directory_values, trading_action_values, reg_sho_values, operational_halt_values, participant_position_values};
ghost use Rattle.itch_codec.specs.Widths.{IsSystemEvent, IsDirectory, IsStockDirectory, IsTradingAction, IsRegSho, IsOperationalHalt, IsParticipantPosition};

use crate::fault::CodecFault;
use crate::fields::{Buffer, codes_at, put_code, put_codes, put_text, put_u32, text_at, u32_at};
use crate::header::Header;
use crate::names::Key;
use crate::sink::{Field, FieldSink};
use crate::text::Alpha;

/// System Event, `S` (TotalView-ITCH 5.0, "System Event Message").
#[derive(Clone, Copy, Debug, PartialEq, Eq)]
pub struct SystemEvent {
    pub header: Header,
    /// The event of the day, such as `O` for the start of messages. It may be any byte.
    pub code: u8,
}

impl SystemEvent {
    pub(crate) fn decode(payload: &[u8]) -> SystemEvent
        requires { length payload.now ≡ 12 }
        ensures { HasAll payload.now system_event.columns (system_event_values result) }
    {
        SystemEvent {
            header: Header::decode(payload),
            code: payload[11],
        }
    }

    #[inline(always)]
    #[tactic(auto, using(crate::proofs::Joining::joining), unfolding(crate::specs::Fields::joined))]
    pub(crate) fn spell(&self, out: &mut Buffer)
        ensures bytes { out.new.items ≡ system_event.kind ∷ joined system_event.columns (system_event_values self.now) }
        ensures fits { IsSystemEvent self.now }
    {
        self.header.begin(b'S', out);
        put_code(out, self.code);
    }

    /// Writes the type and the fields to a sink.
    #[tactic(auto, using(crate::proofs::Joining::joining), unfolding(crate::specs::Shown::fields, crate::specs::Rooms::most_fields))]
    pub(crate) fn write<S: FieldSink>(&self, sink: &mut S)
        requires room { S.len sink.old + (S.most.start + most_fields S.most system_event_keys system_event.columns) ≤ S.capacity }
        ensures bytes { S.text sink.new ≡ S.text sink.old ++ shown_as S.form system_event_keys (Fields system_event (system_event_values self.now)) }
        ensures len { S.len sink.new ≤ S.len sink.old + (S.most.start + most_fields S.most system_event_keys system_event.columns) }
    {
        self.header.write_as(b'S', sink);
        sink.put(Key::EventCode, Field::Code(self.code));
    }
}

/// The directory entry of a security: the fields of a Stock Directory message after its header.
///
/// The code fields may hold any byte.
#[derive(Clone, Copy, Debug, PartialEq, Eq)]
pub struct Directory {
    pub stock: Alpha<8>,
    pub market_category: u8,
    pub financial_status: u8,
    /// The number of shares in a round lot.
    pub round_lot_size: u32,
    pub round_lots_only: u8,
    pub issue_classification: u8,
    pub issue_sub_type: [u8; 2],
    pub authenticity: u8,
    pub short_sale_threshold: u8,
    pub ipo_flag: u8,
    pub luld_price_tier: u8,
    pub etp_flag: u8,
    pub etp_leverage_factor: u32,
    pub inverse_indicator: u8,
}

impl Directory {
    pub(crate) fn decode(payload: &[u8]) -> Result<Directory, CodecFault>
        requires { length payload.now ≡ 39 }
        ensures { Reads (λ m. HasAll payload.now directory_columns (directory_values m)) (first_fault payload.now directory_columns) result }
    {
        Ok(Directory {
            stock: text_at(payload, 11)?,
            market_category: payload[19],
            financial_status: payload[20],
            round_lot_size: u32_at(payload, 21),
            round_lots_only: payload[25],
            issue_classification: payload[26],
            issue_sub_type: codes_at(payload, 27),
            authenticity: payload[29],
            short_sale_threshold: payload[30],
            ipo_flag: payload[31],
            luld_price_tier: payload[32],
            etp_flag: payload[33],
            etp_leverage_factor: u32_at(payload, 34),
            inverse_indicator: payload[38],
        })
    }

    #[inline(always)]
    #[tactic(auto, using(crate::proofs::Joining::joining), unfolding(crate::specs::Fields::joined))]
    fn put(&self, out: &mut Buffer)
        requires { array_vec_len out.old ≡ 11 }
        ensures bytes { out.new.items ≡ out.old.items ++ joined directory_columns (directory_values self.now) }
        ensures fits { IsDirectory self.now }
    {
        put_text(out, &self.stock);
        put_code(out, self.market_category);
        put_code(out, self.financial_status);
        put_u32(out, self.round_lot_size);
        put_code(out, self.round_lots_only);
        put_code(out, self.issue_classification);
        put_codes(out, self.issue_sub_type);
        put_code(out, self.authenticity);
        put_code(out, self.short_sale_threshold);
        put_code(out, self.ipo_flag);
        put_code(out, self.luld_price_tier);
        put_code(out, self.etp_flag);
        put_u32(out, self.etp_leverage_factor);
        put_code(out, self.inverse_indicator);
    }

    // Writes the fields of an entry to a sink.
    #[tactic(auto, using(crate::proofs::Joining::joining), unfolding(crate::specs::Shown::fields, crate::specs::Rooms::most_fields))]
    fn write<S: FieldSink>(&self, sink: &mut S)
        requires room { S.len sink.old + most_fields S.most directory_keys directory_columns ≤ S.capacity }
        ensures bytes { S.text sink.new ≡ S.text sink.old ++ fields S.form directory_keys directory_columns (directory_values self.now) }
        ensures len { S.len sink.new ≤ S.len sink.old + most_fields S.most directory_keys directory_columns }
    {
        sink.put(Key::Stock, Field::Stock(&self.stock));
        sink.put(Key::MarketCategory, Field::Code(self.market_category));
        sink.put(
            Key::FinancialStatusIndicator,
            Field::Code(self.financial_status),
        );
        sink.put(Key::RoundLotSize, Field::U32(self.round_lot_size));
        sink.put(Key::RoundLotsOnly, Field::Code(self.round_lots_only));
        sink.put(
            Key::IssueClassification,
            Field::Code(self.issue_classification),
        );
        sink.put(Key::IssueSubType, Field::TwoCodes(&self.issue_sub_type));
        sink.put(Key::Authenticity, Field::Code(self.authenticity));
        sink.put(
            Key::ShortSaleThresholdIndicator,
            Field::Code(self.short_sale_threshold),
        );
        sink.put(Key::IpoFlag, Field::Code(self.ipo_flag));
        sink.put(
            Key::LuldReferencePriceTier,
            Field::Code(self.luld_price_tier),
        );
        sink.put(Key::EtpFlag, Field::Code(self.etp_flag));
        sink.put(Key::EtpLeverageFactor, Field::U32(self.etp_leverage_factor));
        sink.put(Key::InverseIndicator, Field::Code(self.inverse_indicator));
    }
}

/// Stock Directory, `R` (TotalView-ITCH 5.0, "Stock Directory").
#[derive(Clone, Copy, Debug, PartialEq, Eq)]
pub struct StockDirectory {
    pub header: Header,
    pub entry: Directory,
}

impl StockDirectory {
    pub(crate) fn decode(payload: &[u8]) -> Result<StockDirectory, CodecFault>
        requires { length payload.now ≡ 39 }
        ensures { Reads (λ m. HasAll payload.now stock_directory.columns (stock_directory_values m)) (first_fault payload.now stock_directory.columns) result }
    {
        Ok(StockDirectory {
            header: Header::decode(payload),
            entry: Directory::decode(payload)?,
        })
    }

    #[inline(always)]
    #[tactic(auto, using(crate::proofs::Joining::joining), unfolding(crate::specs::Fields::joined))]
    pub(crate) fn spell(&self, out: &mut Buffer)
        ensures bytes { out.new.items ≡ stock_directory.kind ∷ joined stock_directory.columns (stock_directory_values self.now) }
        ensures fits { IsStockDirectory self.now }
    {
        self.header.begin(b'R', out);
        self.entry.put(out);
    }

    /// Writes the type and the fields to a sink.
    #[tactic(auto, using(crate::proofs::Joining::joining), unfolding(crate::specs::Shown::fields, crate::specs::Rooms::most_fields))]
    pub(crate) fn write<S: FieldSink>(&self, sink: &mut S)
        requires room { S.len sink.old + (S.most.start + most_fields S.most stock_directory_keys stock_directory.columns) ≤ S.capacity }
        ensures bytes { S.text sink.new ≡ S.text sink.old ++ shown_as S.form stock_directory_keys (Fields stock_directory (stock_directory_values self.now)) }
        ensures len { S.len sink.new ≤ S.len sink.old + (S.most.start + most_fields S.most stock_directory_keys stock_directory.columns) }
    {
        self.header.write_as(b'R', sink);
        self.entry.write(sink);
    }
}

/// Stock Trading Action, `H` (TotalView-ITCH 5.0, "Stock Trading Action").
#[derive(Clone, Copy, Debug, PartialEq, Eq)]
pub struct TradingAction {
    pub header: Header,
    pub stock: Alpha<8>,
    /// The trading state, such as `T` for trading. It may be any byte.
    pub state: u8,
    /// The reserved byte. It may be any byte.
    pub reserved: u8,
    /// The reason for the state. It may be any four bytes.
    pub reason: [u8; 4],
}

impl TradingAction {
    pub(crate) fn decode(payload: &[u8]) -> Result<TradingAction, CodecFault>
        requires { length payload.now ≡ 25 }
        ensures { Reads (λ m. HasAll payload.now trading_action.columns (trading_action_values m)) (first_fault payload.now trading_action.columns) result }
    {
        Ok(TradingAction {
            header: Header::decode(payload),
            stock: text_at(payload, 11)?,
            state: payload[19],
            reserved: payload[20],
            reason: codes_at(payload, 21),
        })
    }

    #[inline(always)]
    #[tactic(auto, using(crate::proofs::Joining::joining), unfolding(crate::specs::Fields::joined))]
    pub(crate) fn spell(&self, out: &mut Buffer)
        ensures bytes { out.new.items ≡ trading_action.kind ∷ joined trading_action.columns (trading_action_values self.now) }
        ensures fits { IsTradingAction self.now }
    {
        self.header.begin(b'H', out);
        put_text(out, &self.stock);
        put_code(out, self.state);
        put_code(out, self.reserved);
        put_codes(out, self.reason);
    }

    /// Writes the type and the fields to a sink.
    #[tactic(auto, using(crate::proofs::Joining::joining), unfolding(crate::specs::Shown::fields, crate::specs::Rooms::most_fields))]
    pub(crate) fn write<S: FieldSink>(&self, sink: &mut S)
        requires room { S.len sink.old + (S.most.start + most_fields S.most trading_action_keys trading_action.columns) ≤ S.capacity }
        ensures bytes { S.text sink.new ≡ S.text sink.old ++ shown_as S.form trading_action_keys (Fields trading_action (trading_action_values self.now)) }
        ensures len { S.len sink.new ≤ S.len sink.old + (S.most.start + most_fields S.most trading_action_keys trading_action.columns) }
    {
        self.header.write_as(b'H', sink);
        sink.put(Key::Stock, Field::Stock(&self.stock));
        sink.put(Key::TradingState, Field::Code(self.state));
        sink.put(Key::Reserved, Field::Code(self.reserved));
        sink.put(Key::Reason, Field::FourCodes(&self.reason));
    }
}

/// Reg SHO Short Sale Price Test Restricted Indicator, `Y` (TotalView-ITCH 5.0, "Reg SHO Restriction").
#[derive(Clone, Copy, Debug, PartialEq, Eq)]
pub struct RegSho {
    pub header: Header,
    pub stock: Alpha<8>,
    /// The restriction in force, such as `0` for none. It may be any byte.
    pub action: u8,
}

impl RegSho {
    pub(crate) fn decode(payload: &[u8]) -> Result<RegSho, CodecFault>
        requires { length payload.now ≡ 20 }
        ensures { Reads (λ m. HasAll payload.now reg_sho.columns (reg_sho_values m)) (first_fault payload.now reg_sho.columns) result }
    {
        Ok(RegSho {
            header: Header::decode(payload),
            stock: text_at(payload, 11)?,
            action: payload[19],
        })
    }

    #[inline(always)]
    #[tactic(auto, using(crate::proofs::Joining::joining), unfolding(crate::specs::Fields::joined))]
    pub(crate) fn spell(&self, out: &mut Buffer)
        ensures bytes { out.new.items ≡ reg_sho.kind ∷ joined reg_sho.columns (reg_sho_values self.now) }
        ensures fits { IsRegSho self.now }
    {
        self.header.begin(b'Y', out);
        put_text(out, &self.stock);
        put_code(out, self.action);
    }

    /// Writes the type and the fields to a sink.
    #[tactic(auto, using(crate::proofs::Joining::joining), unfolding(crate::specs::Shown::fields, crate::specs::Rooms::most_fields))]
    pub(crate) fn write<S: FieldSink>(&self, sink: &mut S)
        requires room { S.len sink.old + (S.most.start + most_fields S.most reg_sho_keys reg_sho.columns) ≤ S.capacity }
        ensures bytes { S.text sink.new ≡ S.text sink.old ++ shown_as S.form reg_sho_keys (Fields reg_sho (reg_sho_values self.now)) }
        ensures len { S.len sink.new ≤ S.len sink.old + (S.most.start + most_fields S.most reg_sho_keys reg_sho.columns) }
    {
        self.header.write_as(b'Y', sink);
        sink.put(Key::Stock, Field::Stock(&self.stock));
        sink.put(Key::RegShoAction, Field::Code(self.action));
    }
}

/// Operational Halt, `h` (TotalView-ITCH 5.0, "Operational Halt").
#[derive(Clone, Copy, Debug, PartialEq, Eq)]
pub struct OperationalHalt {
    pub header: Header,
    pub stock: Alpha<8>,
    /// The market center that is halted or trades again, such as `Q` for Nasdaq. It may be any byte.
    pub market_code: u8,
    /// `H` for halted, `T` for trading again. It may be any byte.
    pub action: u8,
}

impl OperationalHalt {
    pub(crate) fn decode(payload: &[u8]) -> Result<OperationalHalt, CodecFault>
        requires { length payload.now ≡ 21 }
        ensures { Reads (λ m. HasAll payload.now operational_halt.columns (operational_halt_values m)) (first_fault payload.now operational_halt.columns) result }
    {
        Ok(OperationalHalt {
            header: Header::decode(payload),
            stock: text_at(payload, 11)?,
            market_code: payload[19],
            action: payload[20],
        })
    }

    #[inline(always)]
    #[tactic(auto, using(crate::proofs::Joining::joining), unfolding(crate::specs::Fields::joined))]
    pub(crate) fn spell(&self, out: &mut Buffer)
        ensures bytes { out.new.items ≡ operational_halt.kind ∷ joined operational_halt.columns (operational_halt_values self.now) }
        ensures fits { IsOperationalHalt self.now }
    {
        self.header.begin(b'h', out);
        put_text(out, &self.stock);
        put_code(out, self.market_code);
        put_code(out, self.action);
    }

    /// Writes the type and the fields to a sink.
    #[tactic(auto, using(crate::proofs::Joining::joining), unfolding(crate::specs::Shown::fields, crate::specs::Rooms::most_fields))]
    pub(crate) fn write<S: FieldSink>(&self, sink: &mut S)
        requires room { S.len sink.old + (S.most.start + most_fields S.most operational_halt_keys operational_halt.columns) ≤ S.capacity }
        ensures bytes { S.text sink.new ≡ S.text sink.old ++ shown_as S.form operational_halt_keys (Fields operational_halt (operational_halt_values self.now)) }
        ensures len { S.len sink.new ≤ S.len sink.old + (S.most.start + most_fields S.most operational_halt_keys operational_halt.columns) }
    {
        self.header.write_as(b'h', sink);
        sink.put(Key::Stock, Field::Stock(&self.stock));
        sink.put(Key::MarketCode, Field::Code(self.market_code));
        sink.put(Key::OperationalHaltAction, Field::Code(self.action));
    }
}

/// Market Participant Position, `L` (TotalView-ITCH 5.0, "Market Participant Position").
#[derive(Clone, Copy, Debug, PartialEq, Eq)]
pub struct ParticipantPosition {
    pub header: Header,
    pub mpid: Alpha<4>,
    pub stock: Alpha<8>,
    /// Whether the participant is a primary market maker: `Y`, `N` or any other byte.
    pub primary_market_maker: u8,
    /// The market maker's mode, such as `N` for normal. It may be any byte.
    pub mode: u8,
    /// The participant's state, such as `A` for active. It may be any byte.
    pub state: u8,
}

impl ParticipantPosition {
    pub(crate) fn decode(payload: &[u8]) -> Result<ParticipantPosition, CodecFault>
        requires { length payload.now ≡ 26 }
        ensures { Reads (λ m. HasAll payload.now participant_position.columns (participant_position_values m)) (first_fault payload.now participant_position.columns) result }
    {
        Ok(ParticipantPosition {
            header: Header::decode(payload),
            mpid: text_at(payload, 11)?,
            stock: text_at(payload, 15)?,
            primary_market_maker: payload[23],
            mode: payload[24],
            state: payload[25],
        })
    }

    #[inline(always)]
    #[tactic(auto, using(crate::proofs::Joining::joining), unfolding(crate::specs::Fields::joined))]
    pub(crate) fn spell(&self, out: &mut Buffer)
        ensures bytes { out.new.items ≡ participant_position.kind ∷ joined participant_position.columns (participant_position_values self.now) }
        ensures fits { IsParticipantPosition self.now }
    {
        self.header.begin(b'L', out);
        put_text(out, &self.mpid);
        put_text(out, &self.stock);
        put_code(out, self.primary_market_maker);
        put_code(out, self.mode);
        put_code(out, self.state);
    }

    /// Writes the type and the fields to a sink.
    #[tactic(auto, using(crate::proofs::Joining::joining), unfolding(crate::specs::Shown::fields, crate::specs::Rooms::most_fields))]
    pub(crate) fn write<S: FieldSink>(&self, sink: &mut S)
        requires room { S.len sink.old + (S.most.start + most_fields S.most participant_position_keys participant_position.columns) ≤ S.capacity }
        ensures bytes { S.text sink.new ≡ S.text sink.old ++ shown_as S.form participant_position_keys (Fields participant_position (participant_position_values self.now)) }
        ensures len { S.len sink.new ≤ S.len sink.old + (S.most.start + most_fields S.most participant_position_keys participant_position.columns) }
    {
        self.header.write_as(b'L', sink);
        sink.put(Key::Mpid, Field::Mpid(&self.mpid));
        sink.put(Key::Stock, Field::Stock(&self.stock));
        sink.put(
            Key::PrimaryMarketMaker,
            Field::Code(self.primary_market_maker),
        );
        sink.put(Key::MarketMakerMode, Field::Code(self.mode));
        sink.put(Key::MarketParticipantState, Field::Code(self.state));
    }
}
