//! `fetch --from`: fetches the messages of a server's snapshot from a number on.
ghost use Rattle.std.specs.Prelude.{true};
ghost use Rattle.itch_sessions.specs.Outputs.{Outputs, WritesText};
ghost use Rattle.itch_sessions.specs.Sessions.{FetchesBytes};

use crate::session_fault::SessionFault;
use itch_codec::Seq;
use itch_frame::{BlockReader, CountedRead, CountedWrite};
use itch_soup::Credentials;
use std::alloc::Allocator;

/// Logs in for the messages of a server's snapshot from number `from` on, and writes their blocks as received, up to the End of Snapshot.
///
/// The login is written to `writer`. The answer is read from `reader`, up to the End of Snapshot and no further. The blocks are written after
/// all were received.
///
/// # Errors
///
/// [`SessionFault::Soup`] if the session has a fault; nothing is written to the output then. [`SessionFault::Write`] if the output fails.
pub fn fetch_rest<R, B, A, V, W>(
    alloc: A,
    reader: &mut BlockReader<R, B>,
    writer: &mut V,
    credentials: &Credentials,
    from: Seq,
    out: &mut W,
) -> Result<bool, SessionFault>
where
    R: CountedRead,
    B: Allocator,
    A: Allocator,
    V: CountedWrite,
    W: CountedWrite,
    ensures { Outputs W.contents W.failures
        (FetchesBytes R.remaining R.failures V.contents V.failures credentials.now from reader.old writer.old reader.new writer.new)
        (λ bytes. bytes) (λ _. true) out.old result out.new }
{
    match itch_soup::fetch_rest(alloc, reader, writer, credentials, from) {
        Ok(rest) => {
            write_bytes(rest.bytes(), out)?;
            Ok(true)
        }
        Err(fault) => Err(SessionFault::Soup(fault)),
    }
}

// Writes any number of bytes.
fn write_bytes<W: CountedWrite>(bytes: &[u8], out: &mut W) -> Result<(), SessionFault>
    ensures { WritesText W.contents W.failures bytes.now out.old result out.new }
{
    let mut sent = 0;
    while sent < bytes.len() {
        match out.write_some(&bytes[sent..]) {
            Ok(count) => sent += count,
            Err(error) => return Err(SessionFault::Write(error)),
        }
    }
    Ok(())
}
