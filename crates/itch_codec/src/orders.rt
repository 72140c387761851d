//! The messages that add, change and end live orders.
ghost use Rattle.std.specs.Prelude.{◌≡◌, ◌+◌, ◌<◌, ◌≤◌, [], ◌∷◌, ◌++◌, length};
ghost use Rattle.arrayvec.specs.ArrayVec.{array_vec_len};
ghost use Rattle.itch_codec.specs.Layouts.{with_header, execution_columns, order_columns, add_order, attributed_add_order, order_executed, order_executed_with_price, order_cancel, order_delete, order_replace};
ghost use Rattle.itch_codec.specs.Fields.{HasAll, joined, first_fault, Reads};
ghost use Rattle.itch_codec.specs.Messages.{Fields};
ghost use Rattle.itch_codec.specs.Names.{order_keys, execution_keys, add_order_keys, attributed_add_order_keys, order_executed_keys, order_executed_with_price_keys, order_cancel_keys, order_delete_keys, order_replace_keys};
ghost use Rattle.itch_codec.specs.Rooms.{most_fields};
ghost use Rattle.itch_codec.specs.Shown.{fields, shown_as};
ghost use Rattle.itch_codec.specs.Values.{order_values, execution_values, add_order_values, attributed_add_order_values, order_executed_values, order_executed_with_price_values, order_cancel_values, order_delete_values, order_replace_values};
ghost use Rattle.itch_codec.specs.Widths.{IsAddOrder, IsAttributedAddOrder, IsOrderExecuted, IsOrderExecutedWithPrice, IsOrderCancel, IsOrderDelete, IsOrderReplace};

use crate::fault::CodecFault;
use crate::fields::{
    Buffer, check_text, known_text, put_code, put_side, put_text, put_u32, put_u64, side_at,
    text_at, u32_at, u64_at,
};
use crate::header::Header;
use crate::names::Key;
use crate::sink::{Field, FieldSink};
use crate::text::Alpha;

/// The side of an order.
#[derive(Clone, Copy, Debug, PartialEq, Eq)]
pub enum Side {
    /// A bid, `B` in a message.
    Buy,
    /// An offer, `S` in a message.
    Sell,
}

/// Add Order without attribution, `A` (TotalView-ITCH 5.0, "Add Order Message").
#[derive(Clone, Copy, Debug, PartialEq, Eq)]
pub struct AddOrder {
    pub header: Header,
    /// The order reference number of the new order.
    pub reference: u64,
    pub side: Side,
    pub shares: u32,
    pub stock: Alpha<8>,
    /// The price with four implied decimals.
    pub price: u32,
}

impl AddOrder {
    #[inline(always)]
    pub(crate) fn decode(payload: &[u8]) -> Result<AddOrder, CodecFault>
        requires { 36 ≤ length payload.now }
        ensures { Reads (λ m. HasAll payload.now add_order.columns (add_order_values m)) (first_fault payload.now add_order.columns) result }
    {
        let side = side_at(payload, 19)?;
        check_text::<8>(payload, 24)?;
        Ok(AddOrder {
            header: Header::decode(payload),
            reference: u64_at(payload, 11),
            side,
            shares: u32_at(payload, 20),
            stock: known_text(payload, 24),
            price: u32_at(payload, 32),
        })
    }

    // Appends this first byte and the fields of a new order.
    #[inline(always)]
    #[tactic(auto, using(crate::proofs::Joining::joining), unfolding(crate::specs::Fields::joined))]
    fn begin(&self, kind: u8, out: &mut Buffer)
        ensures bytes { out.new.items ≡ kind ∷ joined (with_header (order_columns [])) (order_values self.now []) }
        ensures len { array_vec_len out.new ≡ 36 }
        ensures fits { IsAddOrder self.now }
    {
        self.header.begin(kind, out);
        put_u64(out, self.reference);
        put_side(out, self.side);
        put_u32(out, self.shares);
        put_text(out, &self.stock);
        put_u32(out, self.price);
    }

    #[inline(always)]
    #[tactic(auto, using(crate::proofs::Joining::joining), unfolding(crate::specs::Fields::joined))]
    pub(crate) fn spell(&self, out: &mut Buffer)
        ensures bytes { out.new.items ≡ add_order.kind ∷ joined add_order.columns (add_order_values self.now) }
        ensures fits { IsAddOrder self.now }
    {
        self.begin(b'A', out);
    }

    // Writes the type and the fields of a new order to a sink.
    #[tactic(auto, using(crate::proofs::Joining::joining), unfolding(crate::specs::Shown::fields, crate::specs::Rooms::most_fields))]
    fn write_as<S: FieldSink>(&self, kind: u8, sink: &mut S)
        requires ascii { kind < 128 }
        requires room { S.len sink.old + (S.most.start + most_fields S.most (order_keys []) (with_header (order_columns []))) ≤ S.capacity }
        ensures bytes { S.text sink.new ≡ S.text sink.old ++ S.form.kind kind ++ fields S.form (order_keys []) (with_header (order_columns [])) (order_values self.now []) }
        ensures len { S.len sink.new ≤ S.len sink.old + (S.most.start + most_fields S.most (order_keys []) (with_header (order_columns []))) }
    {
        self.header.write_as(kind, sink);
        sink.put(Key::OrderReferenceNumber, Field::U64(self.reference));
        sink.put(Key::BuySellIndicator, Field::Side(self.side));
        sink.put(Key::Shares, Field::U32(self.shares));
        sink.put(Key::Stock, Field::Stock(&self.stock));
        sink.put(Key::Price, Field::Price(self.price));
    }

    /// Writes the type and the fields to a sink.
    #[tactic(auto, using(crate::proofs::Joining::joining), unfolding(crate::specs::Shown::fields, crate::specs::Rooms::most_fields))]
    pub(crate) fn write<S: FieldSink>(&self, sink: &mut S)
        requires room { S.len sink.old + (S.most.start + most_fields S.most add_order_keys add_order.columns) ≤ S.capacity }
        ensures bytes { S.text sink.new ≡ S.text sink.old ++ shown_as S.form add_order_keys (Fields add_order (add_order_values self.now)) }
        ensures len { S.len sink.new ≤ S.len sink.old + (S.most.start + most_fields S.most add_order_keys add_order.columns) }
    {
        self.write_as(b'A', sink);
    }
}

/// Add Order with attribution, `F` (TotalView-ITCH 5.0, "Add Order with MPID Attribution Message").
#[derive(Clone, Copy, Debug, PartialEq, Eq)]
pub struct AttributedAddOrder {
    pub order: AddOrder,
    /// The market participant to whom the order is attributed.
    pub attribution: Alpha<4>,
}

impl AttributedAddOrder {
    #[inline(always)]
    pub(crate) fn decode(payload: &[u8]) -> Result<AttributedAddOrder, CodecFault>
        requires { length payload.now ≡ 40 }
        ensures { Reads (λ m. HasAll payload.now attributed_add_order.columns (attributed_add_order_values m)) (first_fault payload.now attributed_add_order.columns) result }
    {
        Ok(AttributedAddOrder {
            order: AddOrder::decode(payload)?,
            attribution: text_at(payload, 36)?,
        })
    }

    #[inline(always)]
    #[tactic(auto, using(crate::proofs::Joining::joining), unfolding(crate::specs::Fields::joined))]
    pub(crate) fn spell(&self, out: &mut Buffer)
        ensures bytes { out.new.items ≡ attributed_add_order.kind ∷ joined attributed_add_order.columns (attributed_add_order_values self.now) }
        ensures fits { IsAttributedAddOrder self.now }
    {
        self.order.begin(b'F', out);
        put_text(out, &self.attribution);
    }

    /// Writes the type and the fields to a sink.
    #[tactic(auto, using(crate::proofs::Joining::joining), unfolding(crate::specs::Shown::fields, crate::specs::Rooms::most_fields))]
    pub(crate) fn write<S: FieldSink>(&self, sink: &mut S)
        requires room { S.len sink.old + (S.most.start + most_fields S.most attributed_add_order_keys attributed_add_order.columns) ≤ S.capacity }
        ensures bytes { S.text sink.new ≡ S.text sink.old ++ shown_as S.form attributed_add_order_keys (Fields attributed_add_order (attributed_add_order_values self.now)) }
        ensures len { S.len sink.new ≤ S.len sink.old + (S.most.start + most_fields S.most attributed_add_order_keys attributed_add_order.columns) }
    {
        self.order.write_as(b'F', sink);
        sink.put(Key::Attribution, Field::Mpid(&self.attribution));
    }
}

/// Order Executed, `E` (TotalView-ITCH 5.0, "Order Executed Message").
#[derive(Clone, Copy, Debug, PartialEq, Eq)]
pub struct OrderExecuted {
    pub header: Header,
    pub reference: u64,
    /// The number of shares executed.
    pub shares: u32,
    pub match_number: u64,
}

impl OrderExecuted {
    #[inline(always)]
    pub(crate) fn decode(payload: &[u8]) -> OrderExecuted
        requires { 31 ≤ length payload.now }
        ensures { HasAll payload.now order_executed.columns (order_executed_values result) }
    {
        OrderExecuted {
            header: Header::decode(payload),
            reference: u64_at(payload, 11),
            shares: u32_at(payload, 19),
            match_number: u64_at(payload, 23),
        }
    }

    // Appends this first byte and the fields of an execution.
    #[inline(always)]
    #[tactic(auto, using(crate::proofs::Joining::joining), unfolding(crate::specs::Fields::joined))]
    fn begin(&self, kind: u8, out: &mut Buffer)
        ensures bytes { out.new.items ≡ kind ∷ joined (with_header (execution_columns [])) (execution_values self.now []) }
        ensures len { array_vec_len out.new ≡ 31 }
        ensures fits { IsOrderExecuted self.now }
    {
        self.header.begin(kind, out);
        put_u64(out, self.reference);
        put_u32(out, self.shares);
        put_u64(out, self.match_number);
    }

    #[inline(always)]
    #[tactic(auto, using(crate::proofs::Joining::joining), unfolding(crate::specs::Fields::joined))]
    pub(crate) fn spell(&self, out: &mut Buffer)
        ensures bytes { out.new.items ≡ order_executed.kind ∷ joined order_executed.columns (order_executed_values self.now) }
        ensures fits { IsOrderExecuted self.now }
    {
        self.begin(b'E', out);
    }

    // Writes the type and the fields of an execution to a sink.
    #[tactic(auto, using(crate::proofs::Joining::joining), unfolding(crate::specs::Shown::fields, crate::specs::Rooms::most_fields))]
    fn write_as<S: FieldSink>(&self, kind: u8, sink: &mut S)
        requires ascii { kind < 128 }
        requires room { S.len sink.old + (S.most.start + most_fields S.most (execution_keys []) (with_header (execution_columns []))) ≤ S.capacity }
        ensures bytes { S.text sink.new ≡ S.text sink.old ++ S.form.kind kind ++ fields S.form (execution_keys []) (with_header (execution_columns [])) (execution_values self.now []) }
        ensures len { S.len sink.new ≤ S.len sink.old + (S.most.start + most_fields S.most (execution_keys []) (with_header (execution_columns []))) }
    {
        self.header.write_as(kind, sink);
        sink.put(Key::OrderReferenceNumber, Field::U64(self.reference));
        sink.put(Key::ExecutedShares, Field::U32(self.shares));
        sink.put(Key::MatchNumber, Field::U64(self.match_number));
    }

    /// Writes the type and the fields to a sink.
    #[tactic(auto, using(crate::proofs::Joining::joining), unfolding(crate::specs::Shown::fields, crate::specs::Rooms::most_fields))]
    pub(crate) fn write<S: FieldSink>(&self, sink: &mut S)
        requires room { S.len sink.old + (S.most.start + most_fields S.most order_executed_keys order_executed.columns) ≤ S.capacity }
        ensures bytes { S.text sink.new ≡ S.text sink.old ++ shown_as S.form order_executed_keys (Fields order_executed (order_executed_values self.now)) }
        ensures len { S.len sink.new ≤ S.len sink.old + (S.most.start + most_fields S.most order_executed_keys order_executed.columns) }
    {
        self.write_as(b'E', sink);
    }
}

/// Order Executed With Price, `C` (TotalView-ITCH 5.0, "Order Executed With Price Message").
#[derive(Clone, Copy, Debug, PartialEq, Eq)]
pub struct OrderExecutedWithPrice {
    pub execution: OrderExecuted,
    /// Whether the execution is included in time and sales. It may be any byte.
    pub printable: u8,
    /// The price of the execution with four implied decimals. It changes nothing in the book.
    pub price: u32,
}

impl OrderExecutedWithPrice {
    #[inline(always)]
    pub(crate) fn decode(payload: &[u8]) -> OrderExecutedWithPrice
        requires { length payload.now ≡ 36 }
        ensures { HasAll payload.now order_executed_with_price.columns (order_executed_with_price_values result) }
    {
        OrderExecutedWithPrice {
            execution: OrderExecuted::decode(payload),
            printable: payload[31],
            price: u32_at(payload, 32),
        }
    }

    #[inline(always)]
    #[tactic(auto, using(crate::proofs::Joining::joining), unfolding(crate::specs::Fields::joined))]
    pub(crate) fn spell(&self, out: &mut Buffer)
        ensures bytes { out.new.items ≡ order_executed_with_price.kind ∷ joined order_executed_with_price.columns (order_executed_with_price_values self.now) }
        ensures fits { IsOrderExecutedWithPrice self.now }
    {
        self.execution.begin(b'C', out);
        put_code(out, self.printable);
        put_u32(out, self.price);
    }

    /// Writes the type and the fields to a sink.
    #[tactic(auto, using(crate::proofs::Joining::joining), unfolding(crate::specs::Shown::fields, crate::specs::Rooms::most_fields))]
    pub(crate) fn write<S: FieldSink>(&self, sink: &mut S)
        requires room { S.len sink.old + (S.most.start + most_fields S.most order_executed_with_price_keys order_executed_with_price.columns) ≤ S.capacity }
        ensures bytes { S.text sink.new ≡ S.text sink.old ++ shown_as S.form order_executed_with_price_keys (Fields order_executed_with_price (order_executed_with_price_values self.now)) }
        ensures len { S.len sink.new ≤ S.len sink.old + (S.most.start + most_fields S.most order_executed_with_price_keys order_executed_with_price.columns) }
    {
        self.execution.write_as(b'C', sink);
        sink.put(Key::Printable, Field::Code(self.printable));
        sink.put(Key::ExecutionPrice, Field::Price(self.price));
    }
}

/// Order Cancel, `X` (TotalView-ITCH 5.0, "Order Cancel Message").
#[derive(Clone, Copy, Debug, PartialEq, Eq)]
pub struct OrderCancel {
    pub header: Header,
    pub reference: u64,
    /// The number of shares cancelled.
    pub shares: u32,
}

impl OrderCancel {
    #[inline(always)]
    pub(crate) fn decode(payload: &[u8]) -> OrderCancel
        requires { length payload.now ≡ 23 }
        ensures { HasAll payload.now order_cancel.columns (order_cancel_values result) }
    {
        OrderCancel {
            header: Header::decode(payload),
            reference: u64_at(payload, 11),
            shares: u32_at(payload, 19),
        }
    }

    #[inline(always)]
    #[tactic(auto, using(crate::proofs::Joining::joining), unfolding(crate::specs::Fields::joined))]
    pub(crate) fn spell(&self, out: &mut Buffer)
        ensures bytes { out.new.items ≡ order_cancel.kind ∷ joined order_cancel.columns (order_cancel_values self.now) }
        ensures fits { IsOrderCancel self.now }
    {
        self.header.begin(b'X', out);
        put_u64(out, self.reference);
        put_u32(out, self.shares);
    }

    /// Writes the type and the fields to a sink.
    #[tactic(auto, using(crate::proofs::Joining::joining), unfolding(crate::specs::Shown::fields, crate::specs::Rooms::most_fields))]
    pub(crate) fn write<S: FieldSink>(&self, sink: &mut S)
        requires room { S.len sink.old + (S.most.start + most_fields S.most order_cancel_keys order_cancel.columns) ≤ S.capacity }
        ensures bytes { S.text sink.new ≡ S.text sink.old ++ shown_as S.form order_cancel_keys (Fields order_cancel (order_cancel_values self.now)) }
        ensures len { S.len sink.new ≤ S.len sink.old + (S.most.start + most_fields S.most order_cancel_keys order_cancel.columns) }
    {
        self.header.write_as(b'X', sink);
        sink.put(Key::OrderReferenceNumber, Field::U64(self.reference));
        sink.put(Key::CancelledShares, Field::U32(self.shares));
    }
}

/// Order Delete, `D` (TotalView-ITCH 5.0, "Order Delete Message").
#[derive(Clone, Copy, Debug, PartialEq, Eq)]
pub struct OrderDelete {
    pub header: Header,
    pub reference: u64,
}

impl OrderDelete {
    #[inline(always)]
    pub(crate) fn decode(payload: &[u8]) -> OrderDelete
        requires { length payload.now ≡ 19 }
        ensures { HasAll payload.now order_delete.columns (order_delete_values result) }
    {
        OrderDelete {
            header: Header::decode(payload),
            reference: u64_at(payload, 11),
        }
    }

    #[inline(always)]
    #[tactic(auto, using(crate::proofs::Joining::joining), unfolding(crate::specs::Fields::joined))]
    pub(crate) fn spell(&self, out: &mut Buffer)
        ensures bytes { out.new.items ≡ order_delete.kind ∷ joined order_delete.columns (order_delete_values self.now) }
        ensures fits { IsOrderDelete self.now }
    {
        self.header.begin(b'D', out);
        put_u64(out, self.reference);
    }

    /// Writes the type and the fields to a sink.
    #[tactic(auto, using(crate::proofs::Joining::joining), unfolding(crate::specs::Shown::fields, crate::specs::Rooms::most_fields))]
    pub(crate) fn write<S: FieldSink>(&self, sink: &mut S)
        requires room { S.len sink.old + (S.most.start + most_fields S.most order_delete_keys order_delete.columns) ≤ S.capacity }
        ensures bytes { S.text sink.new ≡ S.text sink.old ++ shown_as S.form order_delete_keys (Fields order_delete (order_delete_values self.now)) }
        ensures len { S.len sink.new ≤ S.len sink.old + (S.most.start + most_fields S.most order_delete_keys order_delete.columns) }
    {
        self.header.write_as(b'D', sink);
        sink.put(Key::OrderReferenceNumber, Field::U64(self.reference));
    }
}

/// Order Replace, `U` (TotalView-ITCH 5.0, "Order Replace Message").
#[derive(Clone, Copy, Debug, PartialEq, Eq)]
pub struct OrderReplace {
    pub header: Header,
    /// The order reference number of the replaced order.
    pub original: u64,
    /// The order reference number of the new order.
    pub reference: u64,
    pub shares: u32,
    pub price: u32,
}

impl OrderReplace {
    #[inline(always)]
    pub(crate) fn decode(payload: &[u8]) -> OrderReplace
        requires { length payload.now ≡ 35 }
        ensures { HasAll payload.now order_replace.columns (order_replace_values result) }
    {
        OrderReplace {
            header: Header::decode(payload),
            original: u64_at(payload, 11),
            reference: u64_at(payload, 19),
            shares: u32_at(payload, 27),
            price: u32_at(payload, 31),
        }
    }

    #[inline(always)]
    #[tactic(auto, using(crate::proofs::Joining::joining), unfolding(crate::specs::Fields::joined))]
    pub(crate) fn spell(&self, out: &mut Buffer)
        ensures bytes { out.new.items ≡ order_replace.kind ∷ joined order_replace.columns (order_replace_values self.now) }
        ensures fits { IsOrderReplace self.now }
    {
        self.header.begin(b'U', out);
        put_u64(out, self.original);
        put_u64(out, self.reference);
        put_u32(out, self.shares);
        put_u32(out, self.price);
    }

    /// Writes the type and the fields to a sink.
    #[tactic(auto, using(crate::proofs::Joining::joining), unfolding(crate::specs::Shown::fields, crate::specs::Rooms::most_fields))]
    pub(crate) fn write<S: FieldSink>(&self, sink: &mut S)
        requires room { S.len sink.old + (S.most.start + most_fields S.most order_replace_keys order_replace.columns) ≤ S.capacity }
        ensures bytes { S.text sink.new ≡ S.text sink.old ++ shown_as S.form order_replace_keys (Fields order_replace (order_replace_values self.now)) }
        ensures len { S.len sink.new ≤ S.len sink.old + (S.most.start + most_fields S.most order_replace_keys order_replace.columns) }
    {
        self.header.write_as(b'U', sink);
        sink.put(Key::OriginalOrderReferenceNumber, Field::U64(self.original));
        sink.put(Key::NewOrderReferenceNumber, Field::U64(self.reference));
        sink.put(Key::Shares, Field::U32(self.shares));
        sink.put(Key::Price, Field::Price(self.price));
    }
}
