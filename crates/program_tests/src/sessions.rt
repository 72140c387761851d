//! The time that a peer has, the parsing of credentials, and the faults of sessions.

mod examples;
mod failing_devices;

use crate::equal::{Host, TestResult, holds_in, same, same_in};
use itch_frame::FrameFault;
use itch_market::Refusal;
use itch_sessions::SessionFault;
use itch_sessions::sessions::{Listening, Login, Patient, time_left};
use itch_snapshot::SnapFault;
use itch_soup::SoupFault;
use std::cell::Cell;
use std::io::{self, Read, Write};
use std::net::{IpAddr, Ipv4Addr, Ipv6Addr, SocketAddr, TcpListener, TcpStream};
use std::rt::Clock;
use std::time::Duration;

// A clock that advances by 4 seconds at each reading.
#[derive(Drop)]
struct Ticking(Cell<u64>);

impl Clock for Ticking {
    fn monotonic(&self) -> io::Result<Duration> {
        let seconds = self.0.get();
        self.0.set(seconds.saturating_add(4));
        Ok(Duration::from_secs(seconds))
    }

    fn since_1970(&self) -> io::Result<Duration> {
        self.monotonic()
    }
}

#[test]
fn patience_ends_for_all_reads_together(rt: HostRuntime) -> TestResult {
    let listener = TcpListener::bind(&rt, "127.0.0.1:0")?;
    let mut client = TcpStream::connect(&rt, listener.local_addr()?)?;
    let (stream, _) = listener.accept()?;
    client.write_all(b"12345")?;
    let clock = Ticking(Cell::new(0));
    let mut patient = Patient::new(stream, &clock);
    // The reads come at once and after 4, 8, 12 and 16 seconds, and each finds a byte.
    for _ in 0..4 {
        let mut byte = [0];
        same(&rt, patient.read(&mut byte)?, 1);
    }
    let late = patient.read(&mut [0]);
    let late = late.map_err(|error| error.kind());
    assert!(rt; matches!(late, Err(io::ErrorKind::TimedOut)));
    Ok(())
}

#[test]
fn patience_grows_with_what_was_taken(rt: HostRuntime) -> TestResult {
    let listener = TcpListener::bind(&rt, "127.0.0.1:0")?;
    let _client = TcpStream::connect(&rt, listener.local_addr()?)?;
    let (stream, _) = listener.accept()?;
    let clock = Ticking(Cell::new(0));
    let mut patient = Patient::new(stream, &clock);
    // The writes come like the reads above. The first takes two seconds' worth of bytes, which the fifth write needs.
    patient.write_all(&[0; 1 << 17])?;
    for _ in 0..4 {
        patient.write_all(&[0])?;
    }
    let late = patient.write(&[0]);
    let late = late.map_err(|error| error.kind());
    assert!(rt; matches!(late, Err(io::ErrorKind::TimedOut)));
    Ok(())
}

#[test]
fn a_peer_has_15_seconds_and_one_for_64_kib(rt: HostRuntime) {
    let rows = [
        (0, 0, Some(15_000)),
        (0, 14_999, Some(1)),
        (0, 15_000, None),
        (65_535, 15_000, None),
        (65_536, 15_000, Some(1_000)),
        (65_536, 16_000, None),
        (131_072, 0, Some(17_000)),
        (1 << 30, 16_398_999, Some(1)),
        (1 << 30, 16_399_000, None),
        (1 << 30, u64::MAX, None),
    ];
    for (taken, spent, left) in rows {
        let found = time_left(taken, Duration::from_millis(spent));
        same_in(&rt, (taken, spent), found, left.map(Duration::from_millis));
    }
}

#[test]
fn a_port_that_is_listened_on_has_its_line(rt: HostRuntime) -> TestResult {
    for (address, port, wanted) in [
        (IpAddr::V4(Ipv4Addr::LOCALHOST), 5100, "127.0.0.1:5100"),
        (IpAddr::V6(Ipv6Addr::LOCALHOST), 65_535, "[::1]:65535"),
    ] {
        let listening = Listening(SocketAddr::from((address, port)));
        let line = format!(in rt.alloc(); "{listening}")?;
        let wanted = format!(in rt.alloc(); "listening on {wanted}")?;
        same(&rt, line.as_str(), wanted.as_str());
    }
    Ok(())
}

#[test]
fn a_login_has_short_printable_words(rt: HostRuntime) {
    let cases = [
        ("u", "p", true, true),
        ("abcdef", "abcdefghij", true, true),
        (" ", "~", true, true),
        ("", "", false, true),
        ("abcdefg", "", false, true),
        ("us\ter", "secret", false, true),
        ("us\u{e9}r", "secret", false, true),
        ("user", "", true, false),
        ("user", "abcdefghijk", true, false),
        ("user", "se\u{7f}ret", true, false),
    ];
    for (user, password, user_is_good, password_is_good) in cases {
        let right = match Login::new(user, password) {
            Ok(_) => user_is_good && password_is_good,
            Err(SessionFault::BadUser) => !user_is_good,
            Err(SessionFault::BadPassword) => user_is_good && !password_is_good,
            Err(_) => false,
        };
        holds_in(&rt, (user, password), right);
    }
}

#[test]
fn faults_of_sessions_have_their_line_and_status(rt: HostRuntime) -> TestResult {
    let rule = |reason| SoupFault::Snapshot(SnapFault::Rule { place: 2, reason });
    let error = io::Error::from(io::ErrorKind::Other);
    let write = FrameFault::Write { sent: 0, error };
    let cases = [
        (SessionFault::BadUser, "2 itchsnap: bad user"),
        (SessionFault::BadPassword, "2 itchsnap: bad password"),
        (SessionFault::TooMany, "1 itchsnap: too many messages"),
        (SessionFault::Socket(error), "3 itchsnap: socket failed"),
        (
            SessionFault::Soup(SoupFault::Rejected(b'A')),
            "1 itchsnap: rejected A",
        ),
        (
            SessionFault::Soup(SoupFault::Rejected(b'S')),
            "1 itchsnap: rejected S",
        ),
        (
            SessionFault::Soup(SoupFault::EndedEarly),
            "1 itchsnap: ended early",
        ),
        (
            SessionFault::Soup(SoupFault::SecondLogin),
            "1 itchsnap: session fault",
        ),
        (
            SessionFault::Soup(SoupFault::Frame(FrameFault::Read(error))),
            "3 itchsnap: read failed",
        ),
        (
            SessionFault::Soup(SoupFault::Frame(write)),
            "3 itchsnap: write failed",
        ),
        (
            SessionFault::Soup(rule(Refusal::OutOfMemory)),
            "4 itchsnap: out of memory",
        ),
        (
            SessionFault::Soup(rule(Refusal::StockMismatch)),
            "1 itchsnap: session fault",
        ),
    ];
    for (fault, line) in cases.iter() {
        is_told(&rt, fault, line)?;
    }
    Ok(())
}

// A fault has this exit status and, after it, this line.
fn is_told(rt: &impl Host, fault: &SessionFault, wanted: &str) -> TestResult {
    let told = format!(in rt.alloc(); "{} {fault}", fault.status())?;
    same(rt, told.as_str(), wanted);
    Ok(())
}

#[test]
fn a_password_is_not_shown(rt: HostRuntime) -> TestResult {
    let Ok(login) = Login::new("user", "secret") else {
        panic!(rt; "a login");
    };
    let shown = format!(in rt.alloc(); "{login:?}")?;
    assert!(rt; shown.contains("user"));
    assert!(rt; !shown.contains("secret"));
    Ok(())
}
