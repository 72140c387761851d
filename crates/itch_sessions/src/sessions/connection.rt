//! Serves one connection over its socket.
ghost use Rattle.std.specs.Prelude.{◌≡◌, ◌<◌, ◌-◌, ◌^◌, length, IfOk};
ghost use Rattle.itch_snapshot.specs.Snapshot.{snap};
ghost use Rattle.itch_sessions.specs.Sessions.{ServesPeer, ServesFlushed, EndsOver};
ghost use Rattle.itch_sessions.specs.Sides.{sound, unread, side_of, reading_of};

use crate::session_fault::SessionFault;
use crate::sessions::ending::Ending;
use crate::sessions::patient::Patient;
use crate::sessions::sending::Sending;
use itch_book::OrderBook;
use itch_codec::Seq;
use itch_frame::{BlockReader, Buffered, CountedRead};
use itch_market::Market;
use itch_soup::{ServerConfig, serve_one};
use std::alloc::{Alloc, AllocError, Allocator};
use std::io::{BufReader, BufWriter, Read, Write};
use std::net::OpenStream;
use std::rt::Clock;

/// The size in bytes of the pieces in which files, streams and sockets are read and written.
pub const PIECE: usize = 1 << 16;

/// Serves the connection of a socket. `stream` is the handle for reading, `answering` the one for writing.
///
/// # Errors
///
/// [`SessionFault::OutOfMemory`] is the only one.
pub fn serve_stream<R: Clock + Alloc, S: Read + Write + OpenStream + Drop, B: OrderBook>(
    rt: &R,
    stream: S,
    answering: S,
    market: &Market<B>,
    next: Seq,
    config: &ServerConfig,
) -> Result<Ending, SessionFault>
    requires { length (snap market.now) < 10 ^ 19 - 1 }
    ensures { ServesPeer market.now next config.now (S.remaining stream) (S.contents answering) result }
{
    let mut reader = reader_of(rt, stream)?;
    let mut writer = writer_of(rt, answering)?;
    let ending = serve_sides(&mut reader, &mut writer, market, next, config);
    let (mut patient, _) = writer.into_inner().into_parts();
    patient.hang_up();
    Ok(ending)
}

// Returns a reader of the blocks of a socket.
fn reader_of<R: Clock + Alloc, S: Read + OpenStream + Drop>(
    rt: &R,
    stream: S,
) -> Result<BlockReader<Buffered<Patient<'_, S, R>, R::A>, R::A>, AllocError>
    ensures { IfOk result (λ r. reading_of ⟦<Buffered<Patient<'static, S, R>, R::A> as CountedRead>⟧.remaining ⟦<Buffered<Patient<'static, S, R>, R::A> as CountedRead>⟧.failures r
        ≡ unread (S.remaining stream)) }
{
    let Ok(buffered) = BufReader::with_capacity(rt.alloc(), PIECE, Patient::new(stream, rt)) else {
        return Err(AllocError);
    };
    BlockReader::new(rt.alloc(), Buffered::new(buffered))
}

// Returns a writer to a socket.
fn writer_of<R: Clock + Alloc, S: Write + OpenStream + Drop>(
    rt: &R,
    stream: S,
) -> Result<Sending<BufWriter<Patient<'_, S, R>, R::A>>, AllocError>
    ensures { IfOk result (λ w. side_of (λ s. ⟦<BufWriter<Patient<'static, S, R>, R::A> as Write>⟧.contents s.inner) (λ s. s.failures) w ≡ sound (S.contents stream)) }
{
    match BufWriter::with_capacity(rt.alloc(), PIECE, Patient::new(stream, rt)) {
        Ok(buffered) => Ok(Sending::new(buffered)),
        Err(_) => Err(AllocError),
    }
}

// Serves one peer over the two sides of a connection.
fn serve_sides<R: CountedRead, A: Allocator, W: Write, B: OrderBook>(
    reader: &mut BlockReader<R, A>,
    writer: &mut Sending<W>,
    market: &Market<B>,
    next: Seq,
    config: &ServerConfig,
) -> Ending
    requires { length (snap market.now) < 10 ^ 19 - 1 }
    ensures { EndsOver market.now next config.now (reading_of R.remaining R.failures reader.old) (side_of (λ w. W.contents w.inner) (λ w. w.failures) writer.old) result }
{
    serve_peer(reader, writer, market, next, config)
}

/// Serves one peer over any reader and writer, and flushes the writer. Returns `None` if either had a fault.
pub fn serve_peer<R: CountedRead, A: Allocator, W: Write, B: OrderBook>(
    reader: &mut BlockReader<R, A>,
    writer: &mut Sending<W>,
    market: &Market<B>,
    next: Seq,
    config: &ServerConfig,
) -> Ending
    requires { length (snap market.now) < 10 ^ 19 - 1 }
    ensures { ServesFlushed R.remaining R.failures (λ w. W.contents w.inner) (λ w. w.failures) market.now next config.now reader.old writer.old result reader.new writer.new }
{
    match serve_one(reader, writer, market, next, config) {
        Ok(served) => match writer.flush() {
            Ok(()) => Some(served),
            Err(_) => None,
        },
        Err(_) => None,
    }
}
