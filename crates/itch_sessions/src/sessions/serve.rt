//! `serve`: serves a market to one connection after another.
ghost use Rattle.std.specs.Prelude.{◌<◌, ◌-◌, ◌+◌, ◌^◌, length, IfErr};
ghost use Rattle.itch_snapshot.specs.Snapshot.{snap};
ghost use Rattle.itch_sessions.specs.Sessions.{IsUnserved, ServesMarket, ServesNext, ServesOn};

use crate::session_fault::SessionFault;
use crate::sessions::connection::serve_stream;
use crate::sessions::ending::write_ending;
use itch_book::OrderBook;
use itch_codec::{MOST_MESSAGES, Seq};
use itch_frame::CountedWrite;
use itch_market::Market;
use itch_snapshot::snapshot_len;
use itch_soup::ServerConfig;
use std::alloc::Alloc;
use std::fmt::{self, Display, Formatter};
use std::io;
use std::net::{Net, OpenListener, OpenStream, SocketAddr, TcpListener};
use std::rt::Clock;

/// Serves a market with this number on a port of this machine, as [`serve_on`] does. Port 0 is replaced by a free one. A line on standard
/// error reports the address when the port is ready.
///
/// # Faults
///
/// `TooMany` if the snapshot has too many messages: nothing is served then. `Socket` if the port cannot be bound. Otherwise those of
/// [`serve_on`].
pub fn serve_market<R, B: OrderBook, W: CountedWrite>(
    rt: &R,
    market: &Market<B>,
    next: Seq,
    address: SocketAddr,
    config: &ServerConfig,
    count: u64,
    out: &mut W,
) -> Result<bool, SessionFault>
where
    R: Clock + Eprint + Alloc + Net,
    ensures { ServesMarket R.Stream.remaining R.Stream.contents W.contents W.failures market.now next config.now count out.old result out.new }
{
    if snapshot_len(market) >= u128::from(MOST_MESSAGES) {
        return Err(SessionFault::TooMany);
    }
    let listener = listen(rt, address)?;
    serve_on(rt, &listener, market, next, config, count, out)
}

// Listens on a port, and prints its address.
fn listen<N: Net + Eprint>(net: &N, address: SocketAddr) -> Result<N::Listener, SessionFault>
    ensures { IfErr result IsUnserved }
{
    match bind(net, address) {
        Ok((listener, address)) => {
            let _ = net.eprintln(&Listening(address));
            Ok(listener)
        }
        Err(error) => Err(SessionFault::of_system(error, SessionFault::Socket(error))),
    }
}

// Binds a port. Returns its address too, because port 0 is replaced by another one.
fn bind<N: Net>(net: &N, address: SocketAddr) -> io::Result<(N::Listener, SocketAddr)> {
    let listener = TcpListener::bind(net, address)?;
    let address = listener.local_addr()?;
    Ok((listener, address))
}

/// The line that reports the address of a listening server, without its line feed.
#[derive(Clone, Copy, Debug)]
pub struct Listening(pub SocketAddr);

impl Display for Listening {
    fn fmt<W: fmt::Write>(&self, f: &mut Formatter<W>) -> fmt::Result {
        let address = self.0;
        write!(f, "listening on {address}")
    }
}

/// Serves a market to `count` connections, one after another, and writes a line for each: how it was answered, or that it had a fault. A
/// fault ends only that connection. A peer has 15 seconds for its login, and 15 seconds for its answer plus one more second per 64 KiB.
///
/// The caller keeps the snapshot below 10^19 - 1 messages, as counted by `snapshot_len`.
///
/// # Faults
///
/// `Socket` if a connection cannot be accepted, `OutOfMemory` if there is no memory for one, and `Write` if its line cannot be written. The
/// lines of the connections before it were written.
pub fn serve_on<R: Clock + Alloc + Net, B: OrderBook, W: CountedWrite>(
    rt: &R,
    listener: &R::Listener,
    market: &Market<B>,
    next: Seq,
    config: &ServerConfig,
    count: u64,
    out: &mut W,
) -> Result<bool, SessionFault>
    requires { length (snap market.now) < 10 ^ 19 - 1 }
    ensures { ServesOn R.Stream.remaining R.Stream.contents W.contents W.failures market.now next config.now count out.old result out.new }
{
    for before in 0..count {
        serve_next(rt, listener, market, next, config, before + 1, out)?;
    }
    Ok(true)
}

// Serves the next connection, and writes its line.
fn serve_next<R: Clock + Alloc + Net, B: OrderBook, W: CountedWrite>(
    rt: &R,
    listener: &R::Listener,
    market: &Market<B>,
    next: Seq,
    config: &ServerConfig,
    number: u64,
    out: &mut W,
) -> Result<(), SessionFault>
    requires { length (snap market.now) < 10 ^ 19 - 1 }
    ensures { ServesNext R.Stream.remaining R.Stream.contents W.contents W.failures market.now next config.now number out.old result out.new }
{
    let (stream, answering) = match accept::<R>(listener) {
        Ok(handles) => handles,
        Err(error) => return Err(SessionFault::of_system(error, SessionFault::Socket(error))),
    };
    let ending = serve_stream(rt, stream, answering, market, next, config)?;
    write_ending(out, number, &ending)
}

// Accepts the next connection, and returns two handles of its socket.
fn accept<N: Net>(listener: &N::Listener) -> io::Result<(N::Stream, N::Stream)> {
    let (stream, _) = listener.accept()?;
    let answering = stream.try_clone()?;
    Ok((stream, answering))
}
