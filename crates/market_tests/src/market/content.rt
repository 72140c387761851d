//! The content of a market, as its calls return it.
use crate::book::{after, first, has_len};
use crate::equal::Host;
use itch_book::{Order, OrderBook};
use itch_codec::{Alpha, Directory};
use itch_market::{Action, Market, Security};
use std::alloc::{AllocError, Allocator, Global};

/// The event, the securities with their locates, and the orders in snapshot order.
#[derive(Debug, Drop, PartialEq)]
pub(crate) struct Content {
    pub(crate) phase: Option<u8>,
    pub(crate) securities: Vec<SecurityContent>,
    pub(crate) orders: Vec<Order>,
}

/// The data of the security at a locate.
#[derive(Debug, Drop, PartialEq)]
pub(crate) struct SecurityContent {
    pub(crate) locate: u16,
    pub(crate) entry: Directory,
    pub(crate) action: Option<Action>,
    pub(crate) sho: Option<u8>,
    pub(crate) halts: Vec<(u8, u8)>,
    pub(crate) positions: Vec<(Alpha<4>, [u8; 3])>,
}

fn kept_at<A: Allocator>(
    alloc: Global,
    locate: u16,
    security: &Security<A>,
) -> Result<SecurityContent, AllocError> {
    let halts = security.halts().collect(alloc)?;
    let positions = security.positions().collect(alloc)?;
    Ok(SecurityContent {
        locate,
        entry: security.entry,
        action: security.action,
        sho: security.sho,
        halts,
        positions,
    })
}

pub(crate) fn push_orders<B: OrderBook>(
    rt: &impl Host,
    book: &B,
    locate: u16,
    orders: &mut Vec<Order>,
) -> Result<(), AllocError> {
    let mut next = first(book, locate);
    for _ in 0..book.len() {
        let Some(order) = next else { return Ok(()) };
        let reference = order.reference;
        orders.push(order)?;
        next = after(rt, book, reference);
    }
    Ok(())
}

fn push_kept<B: OrderBook>(
    alloc: Global,
    market: &Market<B>,
    locate: u16,
    securities: &mut Vec<SecurityContent>,
) -> Result<(), AllocError> {
    if let Some(security) = market.security(locate) {
        securities.push(kept_at(alloc, locate, security)?)?;
    }
    Ok(())
}

pub(crate) fn content_of<B: OrderBook>(
    rt: &impl Host,
    market: &Market<B>,
) -> Result<Content, AllocError> {
    let mut securities = Vec::new(rt.alloc());
    let mut orders = Vec::new(rt.alloc());
    for locate in market.locates() {
        push_kept(rt.alloc(), market, locate, &mut securities)?;
        push_orders(rt, market.book(), locate, &mut orders)?;
    }
    has_len(rt, market.book(), orders.len());
    Ok(Content {
        phase: market.phase(),
        securities,
        orders,
    })
}

/// Returns the references of the orders in snapshot order.
pub(crate) fn references<B: OrderBook>(
    rt: &impl Host,
    market: &Market<B>,
) -> Result<Vec<u64>, AllocError> {
    let content = content_of(rt, market)?;
    let mut references = Vec::new(rt.alloc());
    for order in &content.orders {
        references.push(order.reference)?;
    }
    Ok(references)
}
