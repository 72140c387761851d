//! Functions that build a message in one line, with tracking number and timestamp 0. They return `None` if a field does not fit.
use itch_codec::{
    AddOrder, Alpha, AttributedAddOrder, BrokenTrade, CrossTrade, Directory, Header, Message,
    OperationalHalt, OrderCancel, OrderDelete, OrderExecuted, OrderExecutedWithPrice, OrderReplace,
    ParticipantPosition, RegSho, Seq, Side, Stamp, StockDirectory, SystemEvent, Trade,
    TradingAction,
};

/// A message, unless a field does not fit.
pub type Made = Option<Message<'static>>;

/// Returns the message, or an error if a field does not fit.
pub fn made(message: &Made) -> Result<&Message<'static>, &'static str> {
    message.as_ref().ok_or("a message that can be made")
}

pub fn stock(text: &str) -> Option<Alpha<8>> {
    Alpha::from_text(text).ok()
}

pub fn header(locate: u16) -> Option<Header> {
    Some(Header {
        locate,
        tracking: 0,
        stamp: Stamp::new(0)?,
    })
}

pub fn event(code: u8) -> Made {
    Some(Message::SystemEvent(SystemEvent {
        header: header(0)?,
        code,
    }))
}

pub fn directory(locate: u16, text: &str, lot: u32) -> Made {
    Some(Message::StockDirectory(StockDirectory {
        header: header(locate)?,
        entry: Directory {
            stock: stock(text)?,
            market_category: b'Q',
            financial_status: b'N',
            round_lot_size: lot,
            round_lots_only: b'N',
            issue_classification: b'C',
            issue_sub_type: *b"Z ",
            authenticity: b'P',
            short_sale_threshold: b'N',
            ipo_flag: b'N',
            luld_price_tier: b'1',
            etp_flag: b'N',
            etp_leverage_factor: 0,
            inverse_indicator: b'N',
        },
    }))
}

pub fn trading_action(locate: u16, text: &str, state: u8) -> Made {
    Some(Message::TradingAction(TradingAction {
        header: header(locate)?,
        stock: stock(text)?,
        state,
        reserved: b' ',
        reason: *b"    ",
    }))
}

pub fn reg_sho(locate: u16, text: &str, action: u8) -> Made {
    Some(Message::RegSho(RegSho {
        header: header(locate)?,
        stock: stock(text)?,
        action,
    }))
}

pub fn halt(locate: u16, text: &str, market_code: u8, action: u8) -> Made {
    Some(Message::Halt(OperationalHalt {
        header: header(locate)?,
        stock: stock(text)?,
        market_code,
        action,
    }))
}

pub fn position(locate: u16, mpid: &str, text: &str, state: u8) -> Made {
    Some(Message::Position(ParticipantPosition {
        header: header(locate)?,
        mpid: Alpha::from_text(mpid).ok()?,
        stock: stock(text)?,
        primary_market_maker: b'N',
        mode: b'N',
        state,
    }))
}

fn add_order(
    locate: u16,
    reference: u64,
    side: Side,
    shares: u32,
    text: &str,
    price: u32,
) -> Option<AddOrder> {
    Some(AddOrder {
        header: header(locate)?,
        reference,
        side,
        shares,
        stock: stock(text)?,
        price,
    })
}

pub fn add(locate: u16, reference: u64, side: Side, shares: u32, text: &str, price: u32) -> Made {
    Some(Message::AddOrder(add_order(locate, reference, side, shares, text, price)?))
}

/// Returns an order attributed to ABCD, to buy AAPL at locate 1.
pub fn attributed(reference: u64, shares: u32, price: u32) -> Made {
    Some(Message::AttributedAddOrder(AttributedAddOrder {
        order: add_order(1, reference, Side::Buy, shares, "AAPL", price)?,
        attribution: Alpha::from_text("ABCD").ok()?,
    }))
}

fn execution(locate: u16, reference: u64, shares: u32) -> Option<OrderExecuted> {
    Some(OrderExecuted {
        header: header(locate)?,
        reference,
        shares,
        match_number: 1,
    })
}

pub fn executed(locate: u16, reference: u64, shares: u32) -> Made {
    Some(Message::OrderExecuted(execution(locate, reference, shares)?))
}

pub fn executed_with_price(locate: u16, reference: u64, shares: u32, price: u32) -> Made {
    Some(Message::OrderExecutedWithPrice(OrderExecutedWithPrice {
        execution: execution(locate, reference, shares)?,
        printable: b'Y',
        price,
    }))
}

pub fn cancel(locate: u16, reference: u64, shares: u32) -> Made {
    Some(Message::OrderCancel(OrderCancel {
        header: header(locate)?,
        reference,
        shares,
    }))
}

pub fn delete(locate: u16, reference: u64) -> Made {
    Some(Message::OrderDelete(OrderDelete {
        header: header(locate)?,
        reference,
    }))
}

pub fn replace(locate: u16, original: u64, reference: u64, shares: u32, price: u32) -> Made {
    Some(Message::OrderReplace(OrderReplace {
        header: header(locate)?,
        original,
        reference,
        shares,
        price,
    }))
}

/// Returns the execution of a hidden order: order 1, to buy 100 of AAPL at locate 1 at 150.0000.
pub fn trade() -> Made {
    Some(Message::Trade(Trade {
        header: header(1)?,
        reference: 1,
        side: Side::Buy,
        shares: 100,
        stock: stock("AAPL")?,
        price: 1_500_000,
        match_number: 1,
    }))
}

/// Returns a cross of 200 of AAPL at locate 1 at 150.0000.
pub fn cross_trade() -> Made {
    Some(Message::CrossTrade(CrossTrade {
        header: header(1)?,
        shares: 200,
        stock: stock("AAPL")?,
        price: 1_500_000,
        match_number: 1,
        cross_type: b'O',
    }))
}

pub fn broken_trade(locate: u16, match_number: u64) -> Made {
    Some(Message::BrokenTrade(BrokenTrade {
        header: header(locate)?,
        match_number,
    }))
}

pub fn end(next: u64) -> Made {
    Some(Message::End {
        next: Seq::new(next)?,
    })
}
