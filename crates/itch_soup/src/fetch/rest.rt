//! Fetches the rest of a snapshot from a number on.
ghost use Rattle.std.specs.Prelude.{◌≡◌, ℕ, List, [], OnOk};
ghost use Rattle.itch_frame.specs.Blocks.{IsPayload};
ghost use Rattle.itch_frame.specs.Reading.{bytes_left};
ghost use Rattle.itch_soup.specs.Serving.{CountsWait};
ghost use Rattle.itch_soup.specs.FetchingRest.{KeepsMessage, KeepsPacket, ReceivesRest, FetchesRest};

use crate::client::{ClientAct, ClientSession};
use crate::connection::SessionStage;
use crate::fault::SoupFault;
use crate::login::Credentials;
use crate::origin::Origin;
use crate::parsing::parse_packet;
use crate::reading::{MOST_PACKETS, next_packet};
use itch_codec::{Message, Seq, decode};
use itch_frame::{BlockReader, CountedRead, CountedWrite, write_block};
use itch_market::Refusal;
use itch_snapshot::SnapFault;
use std::alloc::{AllocError, Allocator};
use std::marker::Model;

/// The messages of a snapshot from some number on, as the blocks of a file.
#[derive(Drop)]
pub struct Rest<A: Allocator> {
    bytes: Vec<u8, A>,
}

impl<A: Allocator> Model for Rest<A> {
    ghost Value = { List ℕ };

    ghost view = { λ r. r.bytes.items };
}

impl<A: Allocator> Rest<A> {
    ghost use Rattle.std.specs.Prelude.{◌++◌};
    ghost use Rattle.itch_frame.specs.Blocks.{block};

    fn new(alloc: A) -> Rest<A>
        ensures { result ≡ [] }
    {
        Rest {
            bytes: Vec::new(alloc),
        }
    }

    /// Returns the bytes of the blocks, one after another.
    pub fn bytes(&self) -> &[u8]
        ensures { result.now ≡ self.now }
    {
        self.bytes.as_slice()
    }

    // Appends the block of a payload.
    fn push(&mut self, payload: &[u8]) -> Result<(), AllocError>
        requires { IsPayload payload.now }
        ensures { OnOk result (self.new ≡ self.old ++ block payload.now) }
    {
        let len = payload.len() as u16;
        self.bytes.extend_from_slice(&len.to_be_bytes())?;
        self.bytes.extend_from_slice(payload)
    }
}

/// Fetches the rest of a snapshot: writes a login that requests the messages from number `from` on, and reads up to the End of Snapshot, but
/// no further. It returns the blocks of the messages as received, including the End of Snapshot.
///
/// Part of a snapshot is not a market, so no order rule is applied: each payload only has to be a valid message.
///
/// # Faults
///
/// As for [`fetch_one`](crate::fetch_one), with `from` in place of 1. A message is refused, `Snapshot`, if its payload is not a valid
/// message, or if memory runs out for it; its place is its number in the session.
pub fn fetch_rest<R: CountedRead, A: Allocator, W: CountedWrite, B: Allocator>(
    alloc: B,
    reader: &mut BlockReader<R, A>,
    writer: &mut W,
    credentials: &Credentials,
    from: Seq,
) -> Result<Rest<B>, SoupFault>
    ensures { FetchesRest R.remaining R.failures W.contents W.failures credentials.now from reader.old writer.old result reader.new writer.new }
{
    let session = ClientSession::new(*credentials, from.value(), 0);
    write_block(writer, &session.login())?;
    receive(alloc, reader, session, from)
}

// Reads the answer to a login, up to the End of Snapshot.
fn receive<R: CountedRead, A: Allocator, B: Allocator>(
    alloc: B,
    reader: &mut BlockReader<R, A>,
    mut session: ClientSession,
    from: Seq,
) -> Result<Rest<B>, SoupFault>
    requires { session.connection.stage ≡ SessionStage.Before }
    ensures received { ReceivesRest from session (bytes_left R.remaining reader.old) (bytes_left R.remaining reader.new) result }
    ensures held { OnOk result (reader.new.held ≡ []) }
    ensures failures { CountsWait result (R.failures reader.old.reader) (R.failures reader.new.reader) }
{
    let mut rest = Rest::new(alloc);
    for count in 0..u64::MAX {
        if take_packet(reader, &mut session, &mut rest, from, count == MOST_PACKETS)? {
            return Ok(rest);
        }
    }
    unreachable!()
}

// Takes the next packet, unless the maximum number was read (`enough`). Returns true if it closes the snapshot.
fn take_packet<R: CountedRead, A: Allocator, B: Allocator>(
    reader: &mut BlockReader<R, A>,
    session: &mut ClientSession,
    rest: &mut Rest<B>,
    from: Seq,
    enough: bool,
) -> Result<bool, SoupFault>
    ensures step { KeepsPacket from enough session.old rest.old (bytes_left R.remaining reader.old) (bytes_left R.remaining reader.new) result session.new rest.new }
    ensures held { OnOk result (reader.new.held ≡ []) }
    ensures failures { CountsWait result (R.failures reader.old.reader) (R.failures reader.new.reader) }
{
    let Some(packet) = next_packet(reader, enough)? else {
        return Err(SoupFault::EndedEarly);
    };
    let packet = parse_packet(packet, Origin::Server)?;
    match session.on_packet(&packet, 0) {
        ClientAct::Nothing => Ok(false),
        ClientAct::Accepted { next } => {
            if next.value() != from.value() {
                return Err(SoupFault::WrongStart { next, asked: from });
            }
            Ok(false)
        }
        ClientAct::Data { number, payload } => Ok(keep_message(rest, number, payload.bytes())?),
        ClientAct::Rejected(code) => Err(SoupFault::Rejected(code)),
        ClientAct::Ended => Err(SoupFault::EndedEarly),
        ClientAct::Fault(fault) => Err(fault),
    }
}

// Keeps the message with this number. Returns true if it is End of Snapshot.
fn keep_message<A: Allocator>(
    rest: &mut Rest<A>,
    number: u64,
    payload: &[u8],
) -> Result<bool, SnapFault>
    requires { IsPayload payload.now }
    ensures { KeepsMessage number payload.now rest.old result rest.new }
{
    match decode(payload) {
        Ok(message) => {
            if rest.push(payload).is_err() {
                return Err(SnapFault::Rule {
                    place: number,
                    reason: Refusal::OutOfMemory,
                });
            }
            Ok(matches!(message, Message::End { .. }))
        }
        Err(fault) => Err(SnapFault::Codec {
            place: number,
            fault,
        }),
    }
}
