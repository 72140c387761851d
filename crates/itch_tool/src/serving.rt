//! `serve`: serves the market of a file.
ghost use Rattle.itch_commands.specs.Files.{ReadsFile};
ghost use Rattle.itch_commands.specs.declared.fault.Source.TheVariants.{Only};
ghost use Rattle.itch_tool.specs.Serving.{ServesFile};

use crate::failure::Failure;
use itch_book::OrderBook;
use itch_codec::Seq;
use itch_commands::{FileKind, Source, file_market};
use itch_frame::{BlockReader, CountedRead, CountedWrite};
use itch_market::Market;
use itch_sessions::sessions::serve_market;
use itch_soup::ServerConfig;
use std::alloc::{Alloc, Allocator};
use std::net::{Net, SocketAddr};
use std::rt::Clock;

/// Serves the market after a file on a port of this machine: the snapshot after all of its messages, or that of a snapshot file with its
/// number. Port 0 means a free port. Once the server listens, a line on standard error reports the port.
///
/// If the file is refused, or its snapshot has too many messages (`TooMany`), nothing is served. `Socket` if the server cannot listen on
/// the port.
pub fn serve_file<R, F: CountedRead, D: Allocator, B: OrderBook, W: CountedWrite>(
    rt: &R,
    alloc: B::Alloc,
    reader: &mut BlockReader<F, D>,
    kind: FileKind,
    address: SocketAddr,
    config: &ServerConfig,
    count: u64,
    out: &mut W,
) -> Result<bool, Failure>
where
    R: Clock + Eprint + Alloc + Net,
    ensures { ServesFile R.Stream.remaining R.Stream.contents W.contents W.failures (ReadsFile F.remaining F.failures Only kind reader.old reader.new) config.now count out.old result out.new }
{
    let (market, next): (Market<B>, Seq) = match file_market(alloc, reader, kind, Source::Only) {
        Ok(market) => market,
        Err(fault) => {
            return Err(Failure::Command {
                fault,
                checkpoint: None,
            });
        }
    };
    match serve_market(rt, &market, next, address, config, count, out) {
        Ok(answer) => Ok(answer),
        Err(fault) => Err(Failure::Session(fault)),
    }
}
