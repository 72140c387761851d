//! `fetch`: fetches the snapshot of a server.
ghost use Rattle.std.specs.Prelude.{true};
ghost use Rattle.itch_sessions.specs.Outputs.{Outputs, closed_bytes};
ghost use Rattle.itch_sessions.specs.Sessions.{FetchesMarket};

use crate::session_fault::SessionFault;
use crate::sessions::writing::write_closed;
use itch_book::{OrderBook, SettledBook};
use itch_codec::Seq;
use itch_frame::{BlockReader, CountedRead, CountedWrite};
use itch_market::Market;
use itch_soup::{Credentials, SoupFault, fetch_one};
use std::alloc::Allocator;

/// Logs in for all messages of a server's snapshot, and writes it in canonical form, closed with its number.
///
/// The login is written to `writer`. The answer is read from `reader`, up to the End of Snapshot and no further. The snapshot is written
/// after it was received completely.
///
/// # Errors
///
/// [`SessionFault::Soup`] if the session has a fault; nothing is written to the output then. [`SessionFault::Write`] if the output fails.
pub fn fetch<R: CountedRead, B: Allocator, A: Allocator + Copy, V: CountedWrite, W: CountedWrite>(
    alloc: A,
    reader: &mut BlockReader<R, B>,
    writer: &mut V,
    credentials: &Credentials,
    out: &mut W,
) -> Result<bool, SessionFault>
    ensures { Outputs W.contents W.failures
        (FetchesMarket R.remaining R.failures V.contents V.failures credentials.now reader.old writer.old reader.new writer.new)
        closed_bytes (λ _. true) out.old result out.new }
{
    fetch_over::<R, B, SettledBook<A>, V, W>(alloc, reader, writer, credentials, out)
}

// The same with any type of order book.
fn fetch_over<R: CountedRead, A: Allocator, B: OrderBook, V: CountedWrite, W: CountedWrite>(
    alloc: B::Alloc,
    reader: &mut BlockReader<R, A>,
    writer: &mut V,
    credentials: &Credentials,
    out: &mut W,
) -> Result<bool, SessionFault>
    ensures { Outputs W.contents W.failures
        (FetchesMarket R.remaining R.failures V.contents V.failures credentials.now reader.old writer.old reader.new writer.new)
        closed_bytes (λ _. true) out.old result out.new }
{
    let fetched: Result<(Market<B>, Seq), SoupFault> = fetch_one(
        alloc,
        reader,
        writer,
        credentials,
    );
    match fetched {
        Ok((mut market, next)) => {
            market.settle();
            write_closed(&market, next, out)
        }
        Err(fault) => Err(SessionFault::Soup(fault)),
    }
}
