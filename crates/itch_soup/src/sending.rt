//! Sends packets to a client.
ghost use Rattle.std.specs.Prelude.{◌≡◌, ◌<◌, ◌-◌, ◌^◌, ◌∷◌, [], map, drop, length, IfOk};
ghost use Rattle.itch_codec.specs.Widths.{IsMessage};
ghost use Rattle.itch_frame.specs.Writing.{WriteBlock};
ghost use Rattle.itch_snapshot.specs.Snapshot.{snap};
ghost use Rattle.itch_soup.specs.declared.packet.Packet.TheVariants as is;
ghost use Rattle.itch_soup.specs.Packets.{packet_spelling};
ghost use Rattle.itch_soup.specs.Servers.{acceptance};
ghost use Rattle.itch_soup.specs.Sending.{data_packet, session_packets, messages_from, end_part, FitPackets, SendsPackets};

use crate::login::ServerConfig;
use crate::packet::LoginAccepted;
use crate::server::ServerSession;
use byteorder::{BigEndian, ByteOrder};
use itch_book::OrderBook;
use itch_codec::{Message, Seq, encode};
use itch_frame::{CountedWrite, FrameFault, write_block, write_part};
use itch_market::Market;
use itch_snapshot::{SnapshotIter, snapshot_len};

/// Writes the block of a sequenced data packet: the length, the type byte, and this payload, which is not copied.
///
/// # Faults
///
/// `Write` with the number of bytes of the block that were written. `TooLong` for a payload above 65,534 bytes; then nothing was written.
pub fn write_data<W: CountedWrite>(writer: &mut W, payload: &[u8]) -> Result<(), FrameFault>
    ensures { WriteBlock W.contents W.failures writer.old (packet_spelling (is.SequencedData payload.now)) result writer.new }
{
    let Ok(len) = u16::try_from(payload.len() + 1) else {
        return Err(FrameFault::TooLong);
    };
    let mut header = [b'S'; 3];
    BigEndian::write_u16(&mut header[..2], len);
    write_part(writer, &header, 0)?;
    write_part(writer, payload, 3)
}

// Writes the packet of a message.
fn write_message<W: CountedWrite>(writer: &mut W, message: &Message<'_>) -> Result<(), FrameFault>
    ensures block { WriteBlock W.contents W.failures writer.old (packet_spelling (data_packet message.now)) result writer.new }
    ensures fits { IsMessage message.now }
{
    let payload = encode(message);
    write_data(writer, payload.bytes())
}

// Accepts a login from this number on.
fn write_acceptance<W: CountedWrite>(
    writer: &mut W,
    config: &ServerConfig,
    from: Seq,
) -> Result<(), FrameFault>
    ensures { SendsPackets W.contents W.failures writer.old (is.LoginAccepted (acceptance config.now from) ∷ []) result writer.new }
{
    write_block(writer, &LoginAccepted::spelling(config, from))
}

/// Returns the number of a session's messages before its End of Snapshot, without iterating over them.
pub(crate) fn messages_before_end<B: OrderBook>(market: &Market<B>) -> u64
    requires { length (snap market.now) < 10 ^ 19 - 1 }
    ensures { result ≡ length (snap market.now) }
{
    u64::try_from(snapshot_len(market)).unwrap()
}

// Skips `count` messages of a snapshot, or all of them if it has fewer.
fn pass_over<B: OrderBook>(messages: &mut SnapshotIter<'_, B>, count: u64)
    ensures { messages.new ≡ drop count messages.old }
{
    for _passed in 0..count {
        messages.next();
    }
}

/// Accepts a login, writes the packet of each message from this number on, and ends the session. Returns the number of messages.
pub fn write_session<W: CountedWrite, B: OrderBook>(
    writer: &mut W,
    market: &Market<B>,
    next: Seq,
    config: &ServerConfig,
    from: Seq,
) -> Result<u64, FrameFault>
    requires { length (snap market.now) < 10 ^ 19 - 1 }
    ensures packets { SendsPackets W.contents W.failures writer.old
        (is.LoginAccepted (acceptance config.now from) ∷ session_packets (messages_from from market.now next)) result writer.new }
    ensures count { IfOk result (λ count. count ≡ length (messages_from from market.now next)) }
{
    write_acceptance(writer, config, from)?;
    write_answer(writer, market, next, from)
}

/// Writes the packets after the acceptance of a login: one for each message from this number on, and one for the session's end. Returns the
/// number of messages.
pub fn write_answer<W: CountedWrite, B: OrderBook>(
    writer: &mut W,
    market: &Market<B>,
    next: Seq,
    from: Seq,
) -> Result<u64, FrameFault>
    requires { length (snap market.now) < 10 ^ 19 - 1 }
    ensures packets { SendsPackets W.contents W.failures writer.old (session_packets (messages_from from market.now next)) result writer.new }
    ensures count { IfOk result (λ count. count ≡ length (messages_from from market.now next)) }
{
    market.recall_invariant();
    let mut messages = SnapshotIter::new(market);
    let passed = from.value() - 1;
    let with_end = passed <= messages_before_end(market);
    pass_over(&mut messages, passed);
    let count = write_messages(writer, messages)?;
    let end = write_end(writer, next, with_end)?;
    Ok(count + end)
}

// Writes the packet of the End of Snapshot, if it is requested, and that of the session's end. Returns the number of messages.
fn write_end<W: CountedWrite>(writer: &mut W, next: Seq, with_end: bool) -> Result<u64, FrameFault>
    ensures packets { SendsPackets W.contents W.failures writer.old (session_packets (end_part with_end next)) result writer.new }
    ensures count { IfOk result (λ count. count ≡ length (end_part with_end next)) }
{
    let mut count = 0;
    if with_end {
        write_message(writer, &Message::End { next })?;
        count = 1;
    }
    write_block(writer, &ServerSession::end())?;
    Ok(count)
}

// Writes the packet of each message. Returns the number of messages.
fn write_messages<W: CountedWrite, B: OrderBook>(
    writer: &mut W,
    messages: SnapshotIter<'_, B>,
) -> Result<u64, FrameFault>
    requires fit { FitPackets messages }
    requires few { length messages < 10 ^ 19 }
    ensures packets { SendsPackets W.contents W.failures writer.old (map data_packet messages.entry) result writer.new }
    ensures count { IfOk result (λ count. count ≡ length messages.entry) }
{
    let mut count = 0u64;
    for message in messages {
        write_message(writer, &message)?;
        count += 1;
    }
    Ok(count)
}
