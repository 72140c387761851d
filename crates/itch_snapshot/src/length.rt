//! The length of a snapshot.
ghost use Rattle.std.specs.Prelude.{◌≡◌, ◌<◌, ◌^◌, length};
ghost use Rattle.itch_snapshot.specs.Snapshot.{snap};
ghost use Rattle.itch_snapshot.specs.Lengths.{security_len};

use itch_book::OrderBook;
use itch_market::{Market, Security};
use std::alloc::Allocator;

/// Returns the number of messages of a market's snapshot, without the End of Snapshot.
pub fn snapshot_len<B: OrderBook>(market: &Market<B>) -> u128
    ensures { result ≡ length (snap market.now) }
{
    let mut len = u128::from(market.phase().is_some()) + market.book().len() as u128;
    for locate in market.locates() {
        if let Some(security) = market.security(locate) {
            len += security_len(security);
        }
    }
    len
}

// Returns the number of messages of a security without its orders.
fn security_len<A: Allocator>(security: &Security<A>) -> u128
    ensures len { result ≡ security_len security.now }
    ensures small { security_len security.now < 2 ^ 65 }
{
    1 + u128::from(security.action.is_some())
        + u128::from(security.sho.is_some())
        + security.halts_len() as u128
        + security.positions_len() as u128
}
