//! The sessions of servers in C's handles.
ghost use Rattle.std.specs.Prelude.{◌≡◌, Some};
ghost use Rattle.itchsnap_c.specs.Objects.{OnHandle, AtServer};
ghost use Rattle.itchsnap_c.specs.Sessions.{FillsServer, ServerHears, held_server, Accepts, no_acceptance, wrong_act};

use crate::answers::{AcceptancePacket, Act, Answer, SessionLogin};
use crate::codes::{BAD_TEXT, NO_NUMBER, TOO_MANY_MESSAGES, WRONG_HANDLE, coded};
use crate::handle::Handle;
use crate::object::Object;
use crate::session::credentials;
use crate::soup_codes::{WRONG_ACT, server_act, soup_fault_act};
use itch_codec::{MOST_MESSAGES, Seq};
use itch_soup::{Origin, ServerConfig, ServerSession, parse_packet};
use std::alloc::Global;

/// Puts a server's session of `total` messages, which begins at `now_ms`, in milliseconds, into an empty handle.
#[unsafe(no_mangle)]
pub extern "C" fn itchsnap_server_new(
    alloc: Global,
    handle: &mut Handle,
    config: &SessionLogin,
    total: u64,
    now_ms: u64,
) -> Answer
    ensures { FillsServer config.now total now_ms handle.old.kept.object result handle.new.kept.object }
{
    let Ok(texts) = credentials(config) else {
        return coded(BAD_TEXT, 0);
    };
    if total > MOST_MESSAGES {
        return coded(TOO_MANY_MESSAGES, 0);
    }
    let config = ServerConfig {
        username: texts.username,
        password: texts.password,
        session: texts.session,
    };
    handle.fill(
        alloc,
        Object::Server(ServerSession::new(config, total, now_ms)),
    )
}

/// Returns the packet to send once a login is accepted from this number on.
#[unsafe(no_mangle)]
pub extern "C" fn itchsnap_server_accepted(
    alloc: Global,
    handle: &mut Handle,
    next: u64,
) -> AcceptancePacket
    ensures packet { Accepts (held_server handle.old.kept.object) next result }
    ensures same { handle.new.kept.object ≡ handle.old.kept.object }
{
    handle.with_server(alloc, no_acceptance(WRONG_HANDLE), |session| {
        accepted(session, next)
    })
}

/// Returns the action after a packet received at `now_ms`, in milliseconds. A block that is not a packet of a client is refused, and the
/// session is unchanged.
#[unsafe(no_mangle)]
pub extern "C" fn itchsnap_server_packet(
    alloc: Global,
    handle: &mut Handle,
    packet: &[u8],
    now_ms: u64,
) -> Act
    ensures { OnHandle wrong_act (AtServer wrong_act (ServerHears packet.now now_ms)) handle.old.kept.object result handle.new.kept.object }
{
    handle.with_server(alloc, WRONG_ACT, |session| hear(session, packet, now_ms))
}

fn hear(session: &mut ServerSession, block: &[u8], now_ms: u64) -> Act
    ensures { ServerHears block.now now_ms session.old result session.new }
{
    match parse_packet(block, Origin::Client) {
        Ok(packet) => server_act(&session.on_packet(&packet, now_ms)),
        Err(fault) => soup_fault_act(&fault),
    }
}

fn accepted(session: &ServerSession, next: u64) -> AcceptancePacket
    ensures { Accepts (Some session.now) next result }
{
    match Seq::new(next) {
        Some(next) => AcceptancePacket {
            bytes: session.accepted(next),
            code: 0,
        },
        None => no_acceptance(NO_NUMBER),
    }
}

fn no_acceptance(code: u32) -> AcceptancePacket
    ensures { result ≡ no_acceptance code }
{
    AcceptancePacket {
        bytes: [0; 31],
        code,
    }
}
