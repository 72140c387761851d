//! Packets byte by byte, and whole sessions.
use crate::equal::{Host, TestResult, same, same_in, same_shown, same_words};
use crate::files::seq;
use crate::sessions::{alpha, config, credentials};
use itch_frame::FrameFault;
use itch_snapshot::SnapFault;
use itch_soup::{
    ClientAct, ClientSession, Credentials, LoginAccepted, LoginRequest, Origin, Packet, Payload,
    ServerAct, ServerConfig, ServerSession, SoupFault, Tick, parse_packet,
};
use std::alloc::AllocError;

mod rest;
mod served;

const LOGIN: &[u8; 47] = b"Luser  secret                                 3";

const ACCEPTED: &[u8; 31] = b"A  ITCHSNAP                   3";

// Returns a login of the user that the servers below accept.
fn login(rt: &impl Host, session: &str, number: u64) -> LoginRequest {
    LoginRequest {
        username: alpha(rt, "user"),
        password: alpha(rt, "secret"),
        session: alpha(rt, session),
        number,
    }
}

fn accepted<'a>(rt: &impl Host, next: u64) -> Packet<'a> {
    Packet::LoginAccepted(LoginAccepted {
        session: alpha(rt, "  ITCHSNAP"),
        next: seq(rt, next),
    })
}

// Returns a server of five messages that begins at time 0.
fn server(rt: &impl Host) -> ServerSession {
    ServerSession::new(config(rt), 5, 0)
}

// Returns a client that begins at time 0, and asks for the messages from 3 on.
fn client(rt: &impl Host) -> ClientSession {
    ClientSession::new(credentials(rt), 3, 0)
}

// Checks the answers of a server to these packets.
fn server_answers(rt: &impl Host, rows: &[(Packet<'_>, ServerAct)]) -> TestResult {
    let mut session = server(rt);
    for (packet, act) in rows {
        same_shown(rt, packet, &session.on_packet(packet, 0), act)?;
    }
    Ok(())
}

// Checks the answers of a client to these packets.
fn client_answers(rt: &impl Host, rows: &[(Packet<'_>, ClientAct<'_>)]) -> TestResult {
    let mut session = client(rt);
    for (packet, act) in rows {
        same_shown(rt, packet, &session.on_packet(packet, 0), act)?;
    }
    Ok(())
}

fn unsequenced(bytes: &[u8]) -> Packet<'_> {
    Packet::UnsequencedData(Payload::new(bytes))
}

fn debug(bytes: &[u8]) -> Packet<'_> {
    Packet::Debug(Payload::new(bytes))
}

#[test]
fn packets_of_a_server(rt: HostRuntime) {
    let rows: [(&[u8], Packet<'_>); 8] = [
        (b"+hi", debug(b"hi")),
        (ACCEPTED, accepted(&rt, 3)),
        (b"JS", Packet::LoginRejected { code: b'S' }),
        (b"J\0", Packet::LoginRejected { code: 0 }),
        (b"SGG", Packet::SequencedData(Payload::new(b"GG"))),
        (b"H", Packet::ServerHeartbeat),
        (b"Z", Packet::EndOfSession),
        (b"UA", unsequenced(b"A")),
    ];
    for (block, packet) in rows {
        same_in(
            &rt,
            block,
            &parse_packet(block, Origin::Server).ok(),
            &Some(packet),
        );
    }
}

#[test]
fn packets_of_a_client(rt: HostRuntime) {
    let rows: [(&[u8], Packet<'_>); 5] = [
        (b"+", debug(b"")),
        (LOGIN, Packet::LoginRequest(login(&rt, "", 3))),
        (b"U", unsequenced(b"")),
        (b"R", Packet::ClientHeartbeat),
        (b"O", Packet::LogoutRequest),
    ];
    for (block, packet) in rows {
        same_in(
            &rt,
            block,
            &parse_packet(block, Origin::Client).ok(),
            &Some(packet),
        );
    }
}

#[test]
fn payloads(rt: HostRuntime) {
    for bytes in [b"GG".as_slice(), b""] {
        same(&rt, Payload::new(bytes).bytes(), bytes);
    }
}

#[test]
fn numbers_of_logins(rt: HostRuntime) {
    let rows: [(&[u8; 20], u64); 4] = [
        (b"                    ", 0),
        (b"0                   ", 0),
        (b"  007               ", 7),
        (b"10000000000000000000", 10_000_000_000_000_000_000),
    ];
    for (field, number) in rows {
        let mut block = *LOGIN;
        block[27..].copy_from_slice(field);
        let packet = Packet::LoginRequest(login(&rt, "", number));
        let found = parse_packet(&block, Origin::Client).ok();
        same_in(&rt, number, &found, &Some(packet));
    }
}

#[test]
fn client_logs_in(rt: HostRuntime) {
    same(&rt, client(&rt).login(), *LOGIN);
}

#[test]
fn session_names_are_padded(rt: HostRuntime) {
    let rows: [(&str, &[u8; 10], &[u8; 10]); 6] = [
        ("ITCHSNAP", b"ITCHSNAP  ", b"  ITCHSNAP"),
        ("  ITCHSNAP", b"ITCHSNAP  ", b"  ITCHSNAP"),
        (" ITCHSNAP ", b"ITCHSNAP  ", b"  ITCHSNAP"),
        (" A B", b"A B       ", b"       A B"),
        ("0123456789", b"0123456789", b"0123456789"),
        ("", b"          ", b"          "),
    ];
    for (session, asked, served) in rows {
        let credentials = Credentials {
            session: alpha(&rt, session),
            ..credentials(&rt)
        };
        let mut login = *LOGIN;
        login[17..27].copy_from_slice(asked);
        let client = ClientSession::new(credentials, 3, 0);
        same_in(&rt, session, client.login(), login);

        let config = ServerConfig {
            session: alpha(&rt, session),
            ..config(&rt)
        };
        let mut accepted = *ACCEPTED;
        accepted[1..11].copy_from_slice(served);
        let server = ServerSession::new(config, 5, 0);
        same_in(&rt, session, server.accepted(seq(&rt, 3)), accepted);
    }
}

#[test]
fn other_packets_of_a_session(rt: HostRuntime) {
    same(&rt, ServerSession::rejected(b'S'), *b"JS");
    same(&rt, ServerSession::heartbeat(), *b"H");
    same(&rt, ServerSession::end(), *b"Z");
    same(&rt, ClientSession::heartbeat(), *b"R");
    same(&rt, ClientSession::logout(), *b"O");
}

#[test]
fn passwords_are_not_shown(rt: HostRuntime) -> TestResult {
    let shown = |password: &str| -> Result<String, AllocError> {
        let login = LoginRequest {
            password: alpha(&rt, password),
            ..login(&rt, "ITCHSNAP", 3)
        };
        let config = ServerConfig {
            username: login.username,
            password: login.password,
            session: login.session,
        };
        let credentials = Credentials {
            username: login.username,
            password: login.password,
            session: login.session,
        };
        let packet = Packet::LoginRequest(login);
        let server = ServerSession::new(config, 5, 0);
        let client = ClientSession::new(credentials, 3, 0);
        format!(in rt.alloc();
            "{login:?} {config:?} {credentials:?} {packet:?} {server:?} {client:?}"
        )
    };
    same(&rt, shown("secret")?.as_str(), shown("another")?.as_str());
    same(&rt, shown("")?.as_str(), shown("0123456789")?.as_str());
    Ok(())
}

fn data<'a>() -> Packet<'a> {
    Packet::SequencedData(Payload::new(b"m"))
}

fn heard<'a>(number: u64) -> ClientAct<'a> {
    ClientAct::Data {
        number,
        payload: Payload::new(b"m"),
    }
}

#[test]
fn a_client_counts_data(rt: HostRuntime) -> TestResult {
    let closed = ClientAct::Fault(SoupFault::Closed);
    let rows = [
        (accepted(&rt, 3), ClientAct::Accepted { next: seq(&rt, 3) }),
        (data(), heard(3)),
        (data(), heard(4)),
        (Packet::ServerHeartbeat, ClientAct::Nothing),
        (Packet::EndOfSession, ClientAct::Ended),
        (Packet::EndOfSession, closed),
    ];
    client_answers(&rt, &rows)?;
    let greatest = 10_000_000_000_000_000_000;
    let next = seq(&rt, greatest);
    let rows = [
        (accepted(&rt, greatest), ClientAct::Accepted { next }),
        (data(), ClientAct::Fault(SoupFault::TooManyMessages)),
    ];
    client_answers(&rt, &rows)
}

#[test]
fn a_client_is_let_in_once(rt: HostRuntime) -> TestResult {
    let rejected = || Packet::LoginRejected { code: b'A' };
    let rows = [
        (data(), ClientAct::Fault(SoupFault::Early(83))),
        (data(), ClientAct::Fault(SoupFault::Closed)),
    ];
    client_answers(&rt, &rows)?;
    let rows = [
        (accepted(&rt, 3), ClientAct::Accepted { next: seq(&rt, 3) }),
        (rejected(), ClientAct::Fault(SoupFault::SecondLogin)),
    ];
    client_answers(&rt, &rows)?;
    let rows = [
        (rejected(), ClientAct::Rejected(b'A')),
        (accepted(&rt, 3), ClientAct::Fault(SoupFault::Closed)),
    ];
    client_answers(&rt, &rows)
}

#[test]
fn server_sessions(rt: HostRuntime) -> TestResult {
    let rows = [
        (unsequenced(b""), ServerAct::Nothing),
        (Packet::ClientHeartbeat, ServerAct::Nothing),
        (debug(b""), ServerAct::Nothing),
        (Packet::LogoutRequest, ServerAct::Close),
        (Packet::ClientHeartbeat, ServerAct::Fault(SoupFault::Closed)),
    ];
    server_answers(&rt, &rows)?;
    let login = || Packet::LoginRequest(login(&rt, "", 3));
    let rows = [
        (login(), ServerAct::Accept { next: seq(&rt, 3) }),
        (login(), ServerAct::Fault(SoupFault::SecondLogin)),
        (Packet::LogoutRequest, ServerAct::Fault(SoupFault::Closed)),
    ];
    server_answers(&rt, &rows)
}

#[test]
fn logins_are_judged(rt: HostRuntime) -> TestResult {
    let accept = |next| ServerAct::Accept {
        next: seq(&rt, next),
    };
    let other_password = LoginRequest {
        password: alpha(&rt, "wrong"),
        ..login(&rt, "OTHER", 3)
    };
    let other_user = LoginRequest {
        username: alpha(&rt, " user"),
        ..login(&rt, "", 3)
    };
    let capitals = LoginRequest {
        username: alpha(&rt, "USER"),
        password: alpha(&rt, "Secret"),
        ..login(&rt, "", 3)
    };
    let rows = [
        (login(&rt, "OTHER", 3), ServerAct::Reject(b'S')),
        (login(&rt, "itchsnap", 3), ServerAct::Reject(b'S')),
        (login(&rt, "  ITCHSNAP", 3), accept(3)),
        (login(&rt, "", 0), accept(1)),
        (login(&rt, "", 6), accept(6)),
        (login(&rt, "", 7), ServerAct::Reject(b'S')),
        (other_password, ServerAct::Reject(b'A')),
        (other_user, ServerAct::Reject(b'A')),
        (capitals, accept(3)),
    ];
    for (login, act) in rows {
        let found = server(&rt).on_packet(&Packet::LoginRequest(login), 0);
        same_shown(&rt, &login, &found, &act)?;
    }
    Ok(())
}

#[test]
fn ticks(rt: HostRuntime) {
    let rows = [
        (1000, Tick::Nothing),
        (1001, Tick::Heartbeat),
        (2001, Tick::Nothing),
        (0, Tick::Nothing),
        (14_999, Tick::Heartbeat),
        (15_000, Tick::Lost),
        (15_001, Tick::Nothing),
    ];
    let mut server = server(&rt);
    let accept = server.on_packet(&Packet::LoginRequest(login(&rt, "", 3)), 0);
    assert!(rt; matches!(accept, ServerAct::Accept { next } if next.value() == 3));
    server.sent(0);
    let mut client = client(&rt);
    client.sent(0);
    let accept = client.on_packet(&accepted(&rt, 3), 0);
    assert!(rt; matches!(accept, ClientAct::Accepted { next } if next.value() == 3));
    for (now, tick) in rows {
        same_in(&rt, ("server at", now), server.tick(now), tick);
        same_in(&rt, ("client at", now), client.tick(now), tick);
    }
    let after = server.on_packet(&Packet::ClientHeartbeat, 15_002);
    assert!(rt; matches!(after, ServerAct::Fault(SoupFault::Closed)));
    let after = client.on_packet(&Packet::ServerHeartbeat, 15_002);
    assert!(rt; matches!(after, ClientAct::Fault(SoupFault::Closed)));
}

#[test]
fn texts(rt: HostRuntime) -> TestResult {
    let (kind, want, got) = (b'L', 47, 1);
    let login_of_1 = SoupFault::WrongLength { kind, want, got };
    let (next, asked) = (seq(&rt, 3), seq(&rt, 2));
    let rows = [
        (SoupFault::EmptyPacket, "empty packet"),
        (SoupFault::UnknownType(42), "unknown packet type 0x2a"),
        (SoupFault::WrongSide(b'S'), "packet S from the wrong side"),
        (login_of_1, "wrong length for packet L: want 47, got 1"),
        (SoupFault::BadText { offset: 1 }, "bad text at 1"),
        (SoupFault::BadNumber { offset: 27 }, "bad number at 27"),
        (SoupFault::SecondLogin, "second login"),
        (
            SoupFault::Early(b'S'),
            "packet S before the login was accepted",
        ),
        (SoupFault::Closed, "the session is closed"),
        (SoupFault::TooManyMessages, "too many messages"),
        (SoupFault::Frame(FrameFault::TooLong), "payload too long"),
        (SoupFault::Rejected(b'S'), "login rejected with S"),
        (
            SoupFault::WrongStart { next, asked },
            "accepted from 3, not from 2",
        ),
        (SoupFault::EndedEarly, "ended early"),
        (SoupFault::Snapshot(SnapFault::NoEnd), "no end of snapshot"),
    ];
    for (fault, text) in rows {
        same_words(&rt, &fault, text)?;
    }
    Ok(())
}
