//! A market of some of a market's locates, beside that market.
ghost use Rattle.std.specs.Prelude.{◌≡◌};
ghost use Rattle.itch_codec.specs.Headers.{header};
ghost use Rattle.itch_depth.specs.Own.{is_located, may_concern};

use itch_book::OrderBook;
use itch_codec::Message;
use itch_market::Market;

/// Returns whether the message of a payload may be about a locate of the market, or one that it gets. Any entry of the directory may be.
#[inline(always)]
pub fn may_concern<B: OrderBook>(own: &Market<B>, payload: &[u8]) -> bool
    ensures { result ≡ may_concern own.now payload.now }
{
    match payload {
        [kind, high, low, ..] => {
            let locate = u16::from_be_bytes([*high, *low]);
            *kind == b'R' || own.security(locate).is_some()
        }
        _ => false,
    }
}

/// Returns whether the locate of a message's header, if it has one, is in the directory of the market.
pub fn is_located<B: OrderBook>(own: &Market<B>, message: &Message<'_>) -> bool
    ensures { result ≡ is_located own.now (header message.now) }
{
    match message.header() {
        Some(header) => own.security(header.locate).is_some(),
        None => false,
    }
}
