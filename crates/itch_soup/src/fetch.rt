//! Fetches a snapshot, or the rest of one, in one session.
ghost use Rattle.std.specs.Prelude.{◌≡◌, [], OnOk};
ghost use Rattle.itch_frame.specs.Reading.{bytes_left};
ghost use Rattle.itch_soup.specs.Serving.{CountsWait};
ghost use Rattle.itch_soup.specs.Fetching.{TakesPacket, Receives, Fetches};

mod rest;

use crate::client::{ClientAct, ClientSession};
use crate::connection::SessionStage;
use crate::fault::SoupFault;
use crate::login::Credentials;
use crate::origin::Origin;
use crate::parsing::parse_packet;
use crate::reading::{MOST_PACKETS, next_packet};
use itch_book::OrderBook;
use itch_codec::Seq;
use itch_frame::{BlockReader, CountedRead, CountedWrite, write_block};
use itch_market::Market;
use itch_snapshot::SnapshotReader;
pub use rest::{Rest, fetch_rest};
use std::alloc::Allocator;

/// Fetches a snapshot: writes a login that requests all messages, and reads up to the End of Snapshot, but no further.
///
/// # Faults
///
/// `Frame(Write)` if the login could not be written; then nothing was read. Otherwise the first of: a fault of a packet, of its block or of
/// the session; `Rejected`; `WrongStart` if the login is accepted from another number than 1; `EndedEarly` if the session or the input ends;
/// `Snapshot` for a message that is refused, also for `OutOfMemory`; and `TooManyMessages` for a packet after 10^19 others.
pub fn fetch_one<R: CountedRead, A: Allocator, W: CountedWrite, B: OrderBook>(
    alloc: B::Alloc,
    reader: &mut BlockReader<R, A>,
    writer: &mut W,
    credentials: &Credentials,
) -> Result<(Market<B>, Seq), SoupFault>
    ensures { Fetches R.remaining R.failures W.contents W.failures credentials.now reader.old writer.old result reader.new writer.new }
{
    let session = ClientSession::new(*credentials, 1, 0);
    write_block(writer, &session.login())?;
    receive(alloc, reader, session)
}

// Reads the answer to a login, up to the End of Snapshot.
fn receive<R: CountedRead, A: Allocator, B: OrderBook>(
    alloc: B::Alloc,
    reader: &mut BlockReader<R, A>,
    mut session: ClientSession,
) -> Result<(Market<B>, Seq), SoupFault>
    requires { session.connection.stage ≡ SessionStage.Before }
    ensures received { Receives session (bytes_left R.remaining reader.old) (bytes_left R.remaining reader.new) result }
    ensures held { OnOk result (reader.new.held ≡ []) }
    ensures failures { CountsWait result (R.failures reader.old.reader) (R.failures reader.new.reader) }
{
    let mut snapshot = SnapshotReader::new(alloc);
    snapshot.market().recall_invariant();
    for count in 0..u64::MAX {
        if take_packet(reader, &mut session, &mut snapshot, count == MOST_PACKETS)? {
            return Ok(snapshot.finish().unwrap());
        }
    }
    unreachable!()
}

// Takes the next packet, unless the maximum number was read (`enough`). Returns true if it closes the snapshot.
fn take_packet<R: CountedRead, A: Allocator, B: OrderBook>(
    reader: &mut BlockReader<R, A>,
    session: &mut ClientSession,
    snapshot: &mut SnapshotReader<B>,
    enough: bool,
) -> Result<bool, SoupFault>
    ensures step { TakesPacket enough session.old snapshot.old (bytes_left R.remaining reader.old) (bytes_left R.remaining reader.new) result session.new snapshot.new }
    ensures held { OnOk result (reader.new.held ≡ []) }
    ensures failures { CountsWait result (R.failures reader.old.reader) (R.failures reader.new.reader) }
{
    let Some(packet) = next_packet(reader, enough)? else {
        return Err(SoupFault::EndedEarly);
    };
    let packet = parse_packet(packet, Origin::Server)?;
    match session.on_packet(&packet, 0) {
        ClientAct::Nothing => Ok(false),
        ClientAct::Accepted { next } => {
            if next.value() != 1 {
                let asked = Seq::new(1).unwrap();
                return Err(SoupFault::WrongStart { next, asked });
            }
            Ok(false)
        }
        ClientAct::Data { payload, .. } => Ok(snapshot.message(payload.bytes())?.is_some()),
        ClientAct::Rejected(code) => Err(SoupFault::Rejected(code)),
        ClientAct::Ended => Err(SoupFault::EndedEarly),
        ClientAct::Fault(fault) => Err(fault),
    }
}
