//! Serves a snapshot in one session.
ghost use Rattle.std.specs.Prelude.{◌≡◌, ◌<◌, ◌-◌, ◌^◌, [], length, OnOk};
ghost use Rattle.itch_frame.specs.Reading.{bytes_left};
ghost use Rattle.itch_snapshot.specs.Snapshot.{snap};
ghost use Rattle.itch_soup.specs.Serving.{WaitsOn, WaitsForLogin, CountsWait, AnswersLogin, Serves};

use crate::fault::SoupFault;
use crate::login::ServerConfig;
use crate::origin::Origin;
use crate::packet::{LoginRequest, Packet};
use crate::parsing::parse_packet;
use crate::reading::{MOST_PACKETS, next_packet};
use crate::sending::{messages_before_end, write_session};
use crate::server::{Judgement, ServerSession, judge};
use itch_book::OrderBook;
use itch_codec::Seq;
use itch_frame::{BlockReader, CountedRead, CountedWrite, write_block};
use itch_market::Market;
use std::alloc::Allocator;

/// The end of a served connection.
#[derive(Clone, Copy, Debug, PartialEq, Eq)]
pub enum Served {
    /// The login was accepted, and `packets` messages were sent, the first one with the number `from`.
    Accepted { from: Seq, packets: u64 },
    /// The login was rejected with this code.
    Rejected(u8),
    /// The client left before a login, and nothing was written.
    Left,
}

/// The first action of a client: it logs in, or leaves before that.
#[derive(Clone, Copy)]
pub(crate) enum Opening {
    Login(LoginRequest),
    Leave,
}

/// Serves one connection: reads packets up to a login, writes the answer, and reads no more. It allocates no memory.
///
/// Debug packets, unsequenced data and heartbeats are ignored. A login is judged by its user name and password, then by its session, then by
/// its number. If it is accepted, the answer consists of the acceptance, the messages of the market's snapshot from that number on, the last
/// of which is the End of Snapshot with `next`, and the end of the session. If the client logs out, or its input ends before a login, the
/// result is `Left`, and nothing is written.
///
/// The snapshot must have fewer than 10^19 - 1 messages: `snapshot_len` counts them.
///
/// # Faults
///
/// The fault of the first packet or block that has one, and `TooManyMessages` for a packet after 10^19 others; then nothing was written.
/// After `Frame(Read)` the call may be repeated, and continues where it was. `Frame(Write)` for a failed write: the blocks before it were
/// written completely, and `sent` bytes of the current one.
pub fn serve_one<R: CountedRead, A: Allocator, W: CountedWrite, B: OrderBook>(
    reader: &mut BlockReader<R, A>,
    writer: &mut W,
    market: &Market<B>,
    next: Seq,
    config: &ServerConfig,
) -> Result<Served, SoupFault>
    requires { length (snap market.now) < 10 ^ 19 - 1 }
    ensures { Serves R.remaining R.failures W.contents W.failures market.now next config.now reader.old writer.old result reader.new writer.new }
{
    match read_login(reader)? {
        Opening::Login(login) => answer(writer, market, next, config, &login),
        Opening::Leave => Ok(Served::Left),
    }
}

// Answers a login.
fn answer<W: CountedWrite, B: OrderBook>(
    writer: &mut W,
    market: &Market<B>,
    next: Seq,
    config: &ServerConfig,
    login: &LoginRequest,
) -> Result<Served, SoupFault>
    requires { length (snap market.now) < 10 ^ 19 - 1 }
    ensures { AnswersLogin W.contents W.failures market.now next config.now login.now writer.old result writer.new }
{
    let total = messages_before_end(market) + 1;
    match judge(config, total, login) {
        Judgement::Accepted { next: from } => {
            let packets = write_session(writer, market, next, config, from)?;
            Ok(Served::Accepted { from, packets })
        }
        Judgement::Rejected(code) => {
            write_block(writer, &ServerSession::rejected(code))?;
            Ok(Served::Rejected(code))
        }
    }
}

// Reads packets up to a login, or to a logout, the end of the input or a fault.
fn read_login<R: CountedRead, A: Allocator>(
    reader: &mut BlockReader<R, A>,
) -> Result<Opening, SoupFault>
    ensures wait { WaitsForLogin (bytes_left R.remaining reader.old) (bytes_left R.remaining reader.new) result }
    ensures held { OnOk result (reader.new.held ≡ []) }
    ensures failures { CountsWait result (R.failures reader.old.reader) (R.failures reader.new.reader) }
{
    for count in 0..u64::MAX {
        if let Some(opening) = read_packet(reader, count == MOST_PACKETS)? {
            return Ok(opening);
        }
    }
    unreachable!()
}

// Reads the next packet, unless the maximum number was read (`enough`). Returns `None` if it is ignored.
fn read_packet<R: CountedRead, A: Allocator>(
    reader: &mut BlockReader<R, A>,
    enough: bool,
) -> Result<Option<Opening>, SoupFault>
    ensures step { WaitsOn enough (bytes_left R.remaining reader.old) (bytes_left R.remaining reader.new) result }
    ensures held { OnOk result (reader.new.held ≡ []) }
    ensures failures { CountsWait result (R.failures reader.old.reader) (R.failures reader.new.reader) }
{
    let Some(packet) = next_packet(reader, enough)? else {
        return Ok(Some(Opening::Leave));
    };
    match parse_packet(packet, Origin::Client)? {
        Packet::LoginRequest(login) => Ok(Some(Opening::Login(login))),
        Packet::LogoutRequest => Ok(Some(Opening::Leave)),
        _ => Ok(None),
    }
}
