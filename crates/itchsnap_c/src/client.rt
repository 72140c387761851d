//! The sessions of clients in C's handles.
ghost use Rattle.std.specs.Prelude.{◌≡◌};
ghost use Rattle.itchsnap_c.specs.Objects.{OnHandle, AtClient};
ghost use Rattle.itchsnap_c.specs.Sessions.{FillsClient, ClientHears, held_client, login_in, wrong_act};

use crate::answers::{Act, Answer, LoginPacket, SessionLogin};
use crate::codes::{BAD_TEXT, NO_NUMBER, WRONG_HANDLE, coded};
use crate::handle::Handle;
use crate::object::Object;
use crate::session::credentials;
use crate::soup_codes::{WRONG_ACT, client_act, soup_fault_act};
use itch_codec::GREATEST_SEQ;
use itch_soup::{ClientSession, Origin, parse_packet};
use std::alloc::Global;

/// Puts a client's session into an empty handle. It begins at `now_ms`, in milliseconds, and requests the messages from number `from` on; 0
/// requests all of them.
#[unsafe(no_mangle)]
pub extern "C" fn itchsnap_client_new(
    alloc: Global,
    handle: &mut Handle,
    login: &SessionLogin,
    from: u64,
    now_ms: u64,
) -> Answer
    ensures { FillsClient login.now from now_ms handle.old.kept.object result handle.new.kept.object }
{
    let Ok(credentials) = credentials(login) else {
        return coded(BAD_TEXT, 0);
    };
    if from > GREATEST_SEQ {
        return coded(NO_NUMBER, 0);
    }
    handle.fill(
        alloc,
        Object::Client(ClientSession::new(credentials, from, now_ms)),
    )
}

/// Returns the login request to send first.
#[unsafe(no_mangle)]
pub extern "C" fn itchsnap_client_login(alloc: Global, handle: &mut Handle) -> LoginPacket
    ensures login { result ≡ login_in (held_client handle.old.kept.object) }
    ensures same { handle.new.kept.object ≡ handle.old.kept.object }
{
    handle.with_client(
        alloc,
        NO_LOGIN,
        |session| LoginPacket {
            bytes: session.login(),
            code: 0,
        },
    )
}

/// Returns the meaning of a packet received at `now_ms`, in milliseconds. A block that is not a packet of a server is refused, and the
/// session is unchanged.
#[unsafe(no_mangle)]
pub extern "C" fn itchsnap_client_packet(
    alloc: Global,
    handle: &mut Handle,
    packet: &[u8],
    now_ms: u64,
) -> Act
    ensures { OnHandle wrong_act (AtClient wrong_act (ClientHears packet.now now_ms)) handle.old.kept.object result handle.new.kept.object }
{
    handle.with_client(alloc, WRONG_ACT, |session| hear(session, packet, now_ms))
}

fn hear(session: &mut ClientSession, block: &[u8], now_ms: u64) -> Act
    ensures { ClientHears block.now now_ms session.old result session.new }
{
    match parse_packet(block, Origin::Server) {
        Ok(packet) => client_act(&session.on_packet(&packet, now_ms)),
        Err(fault) => soup_fault_act(&fault),
    }
}

// The result if a handle holds no client's session.
const NO_LOGIN: LoginPacket = LoginPacket {
    bytes: [0; 47],
    code: WRONG_HANDLE,
};
