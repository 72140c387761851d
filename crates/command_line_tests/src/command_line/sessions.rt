//! The parsing of `serve` and `fetch`.

use super::{arguments, ask_for, asked, columns};
use crate::equal::{TestResult, holds_in, same_in};
use itch_codec::Alpha;
use itchsnap_cli::command_line::{Job, Password, read_job};
use std::alloc::Global;
use std::test::Fail;

// The arguments of `serve` except some, the file and its kind, and the address on which it listens.
const SERVERS: [&str; 5] = [
    "day.itch --port 65535 => file: Some(\"day.itch\"), kind: Day(Limit { after: None, until: None }), address: 127.0.0.1:65535",
    "day.itch --port 00 => file: Some(\"day.itch\"), kind: Day(Limit { after: None, until: None }), address: 127.0.0.1:0",
    "- --progress --port 1 => file: None, kind: Day(Limit { after: None, until: None }), address: 127.0.0.1:1",
    "day.itch --bind 0.0.0.0 --port 1 --until 10 => file: Some(\"day.itch\"), kind: Day(Limit { after: None, until: Some(10) }), address: 0.0.0.0:1",
    "day.itch --bind=::1 --snapshot --port 1 => file: Some(\"day.itch\"), kind: Snapshot, address: [::1]:1",
];

#[test]
fn arguments_of_a_server_are_read(rt: HostRuntime) -> TestResult {
    for row in SERVERS {
        let (some, place) = columns(row)?;
        let progress = some.contains("--progress");
        let line = format!(in rt.alloc();
            "serve --count 01000000 {some} --user user --pass=secret"
        )?;
        let wanted = format!(in rt.alloc();
            "Serve {{ {place}, login: LoginArguments {{ user: \"user\", .. }}, session: None, count: 1000000, progress: {progress} }}"
        )?;
        ask_for(&rt, line.as_str(), wanted.as_str())?;
    }
    Ok(())
}

// Returns the server of a fetch with these arguments: its host, its port, its session and its time limit.
fn server(
    alloc: Global,
    line: &str,
    session: Option<&str>,
) -> Result<(String, u16, Alpha<10>, Option<u64>), Fail> {
    let mut arguments = arguments(alloc, "fetch --user user --pass secret")?;
    for word in line.split_whitespace() {
        arguments.push(String::from_str(alloc, word)?)?;
    }
    if let Some(name) = session {
        arguments.push(format!(in alloc; "--session={name}")?)?;
    }
    let job = read_job(alloc, arguments.as_slice(), false, None);
    match &job {
        Ok(Job::Fetch { server, .. }) => Ok((
            String::from_str(alloc, server.host)?,
            server.port,
            server.session,
            server.timeout,
        )),
        _ => Err(Fail::from("no fetch")),
    }
}

#[test]
fn arguments_of_a_client_are_read(rt: HostRuntime) -> TestResult {
    let cases = [
        ("--port 65535", None, "127.0.0.1", 65_535, None),
        ("--port=01", Some("S"), "127.0.0.1", 1, None),
        (
            "--host glimpse.example --port 1 --timeout 86400",
            Some("GLIMPSE 12"),
            "glimpse.example",
            1,
            Some(86_400),
        ),
        (
            "glimpse.example:17801",
            None,
            "glimpse.example",
            17_801,
            None,
        ),
        ("[::1]:1 --timeout 5", None, "::1", 1, Some(5)),
    ];
    for (line, name, host, port, timeout) in cases {
        let found = server(rt.alloc(), line, name)?;
        same_in(&rt, line, found.0.as_str(), host);
        same_in(&rt, line, found.1, port);
        holds_in(&rt, line, found.2.text() == name.unwrap_or(""));
        same_in(&rt, line, found.3, timeout);
    }
    Ok(())
}

// Returns the number of the first message that a fetch with these arguments requests, if they have one; `None` if they are not a fetch.
fn first_asked(alloc: Global, line: &str) -> Result<Option<Option<u64>>, Fail> {
    let line = format!(in alloc; "fetch --port 1 --user user --pass secret {line}")?;
    let arguments = arguments(alloc, line.as_str())?;
    let job = read_job(alloc, arguments.as_slice(), false, None);
    match &job {
        Ok(Job::Fetch { from, .. }) => Ok(Some(from.map(|from| from.value()))),
        _ => Ok(None),
    }
}

#[test]
fn the_first_message_of_a_fetch_is_read(rt: HostRuntime) -> TestResult {
    for (line, wanted) in [
        ("", Some(None)),
        ("--from 1", Some(Some(1))),
        ("--from=007 --session S", Some(Some(7))),
        (
            "--from 9999999999999999999",
            Some(Some(9_999_999_999_999_999_999)),
        ),
        ("--from 0", None),
        ("--from +1", None),
        ("--from=-1", None),
        ("--from x", None),
        ("--from=", None),
        ("--from 10000000000000000000", None),
        ("--from 99999999999999999999", None),
        ("--from 1 --from 2", None),
    ] {
        same_in(&rt, line, first_asked(rt.alloc(), line)?, wanted);
    }
    Ok(())
}

#[test]
fn a_password_has_three_places(rt: HostRuntime) -> TestResult {
    let rows = [
        ("--pass secret", None, Some(Password::Word("secret"))),
        (
            "--pass secret",
            Some("other"),
            Some(Password::Word("secret")),
        ),
        ("--pass-file p.txt", None, Some(Password::File("p.txt"))),
        (
            "--pass-file p.txt",
            Some("other"),
            Some(Password::File("p.txt")),
        ),
        ("", Some("other"), Some(Password::Word("other"))),
        ("", None, None),
        ("--pass secret --pass-file p.txt", None, None),
    ];
    for (line, environment, wanted) in rows {
        let mut arguments = arguments(rt.alloc(), "fetch --port 1 --user user")?;
        for word in line.split_whitespace() {
            arguments.push(String::from_str(rt.alloc(), word)?)?;
        }
        let found = match read_job(rt.alloc(), arguments.as_slice(), false, environment) {
            Ok(Job::Fetch { login, .. }) => Some(login.password),
            _ => None,
        };
        holds_in(&rt, (line, environment), found == wanted);
    }
    Ok(())
}

#[test]
fn a_password_is_not_shown(rt: HostRuntime) -> TestResult {
    let arguments = arguments(rt.alloc(), "fetch --port 1 --user user --pass secret")?;
    let shown = asked(rt.alloc(), arguments.as_slice())?;
    assert!(rt; shown.contains("user"));
    assert!(rt; !shown.contains("secret"));
    Ok(())
}
