//! The parsing of `live`, `follow` and `feed`.

use super::{arguments, ask_for, asked, columns};
use crate::equal::{TestResult, holds_in, same_in};
use itchsnap_cli::command_line::{Job, Password, UserArguments, read_job};
use std::test::Fail;

const FEED: &str =
    "feeds: Feeds { first: ServerAddress { text: \"h:1\", host: \"h\", port: 1 }, others: [None, None, None, None, None, None, None] }";

const LOGIN: &str = "LoginArguments { user: \"user\", .. }";

// More options of a live server, where it begins, and what it keeps.
const LIVE: [(&str, &str, &str); 4] = [
    (
        "",
        "glimpse: None, address: 127.0.0.1:0",
        "session: None, glimpse_session: None, clients: 64, clients_per_address: None, snapshot_memory: None, record: None, snapshots: None, stay: false, ready: First, status: None, log: Plain",
    ),
    (
        "--record day.itch --stay --clients 007 --clients-per-address 2",
        "glimpse: None, address: 127.0.0.1:0",
        "session: None, glimpse_session: None, clients: 7, clients_per_address: Some(2), snapshot_memory: None, \
             record: Some(RecordOptions { place: File(\"day.itch\"), sync: EverySecond, is_optional: false }), snapshots: None, stay: true, ready: First, status: None, log: Plain",
    ),
    (
        "--record r --sync message --record-optional",
        "glimpse: None, address: 127.0.0.1:0",
        "session: None, glimpse_session: None, clients: 64, clients_per_address: None, snapshot_memory: None, \
             record: Some(RecordOptions { place: File(\"r\"), sync: EveryMessage, is_optional: true }), snapshots: None, stay: false, ready: First, status: None, log: Plain",
    ),
    (
        "--bind ::1 --glimpse [::1]:65535 --snapshots s --every 1000",
        "glimpse: Some(ServerAddress { text: \"[::1]:65535\", host: \"::1\", port: 65535 }), address: [::1]:0",
        "session: None, glimpse_session: None, clients: 64, clients_per_address: None, snapshot_memory: None, record: None, \
             snapshots: Some(SnapshotOptions { folder: \"s\", every: 1000, keep: None }), stay: false, ready: First, status: None, log: Plain",
    ),
];

#[test]
fn arguments_of_a_live_server_are_read(rt: HostRuntime) -> TestResult {
    for (more, place, kept) in LIVE {
        let line = format!(in rt.alloc();
            "live --feed h:1 --port 0 --user user --pass secret {more}"
        )?;
        let wanted = format!(in rt.alloc();
            "Live(LiveArguments {{ {FEED}, {place}, users: One({LOGIN}), feed_login: {LOGIN}, {kept} }})"
        )?;
        ask_for(&rt, line.as_str(), wanted.as_str())?;
    }
    Ok(())
}

// More options of a live server, and a part of the resulting request.
const PARTS: [&str; 17] = [
    "--feed g:2 => others: [Some(ServerAddress { text: \"g:2\", host: \"g\", port: 2 }), None, None, None, None, None, None] }",
    "--feed b:2 --feed c:3 --feed d:4 --feed e:5 --feed f:6 --feed g:7 --feed [::1]:8 => Some(ServerAddress { text: \"[::1]:8\", host: \"::1\", port: 8 })] }",
    "--records days => record: Some(RecordOptions { place: Folder(\"days\"), sync: EverySecond, is_optional: false })",
    "--snapshots s --every 5 --keep 3 => snapshots: Some(SnapshotOptions { folder: \"s\", every: 5, keep: Some(3) })",
    "--to s --every 5 --keep 3 => snapshots: Some(SnapshotOptions { folder: \"s\", every: 5, keep: Some(3) })",
    "--ready first => ready: First,",
    "--ready caught-up => ready: CaughtUp,",
    "--snapshot-memory 1 => snapshot_memory: Some(1),",
    "--snapshot-memory 1000000 => snapshot_memory: Some(1000000),",
    "--snapshot-memory 512K => snapshot_memory: Some(524288),",
    "--snapshot-memory 256M => snapshot_memory: Some(268435456),",
    "--snapshot-memory 2G => snapshot_memory: Some(2147483648),",
    "--status 9100 => status: Some(ServerAddress { text: \"9100\", host: \"127.0.0.1\", port: 9100 })",
    "--status [::1]:0 => status: Some(ServerAddress { text: \"[::1]:0\", host: \"::1\", port: 0 })",
    "--log text => log: Text",
    "--log json => log: Json",
    "--snapshot-memory 17179869183G => snapshot_memory: Some(18446744072635809792),",
];

#[test]
fn several_servers_and_bytes_in_units_are_read(rt: HostRuntime) -> TestResult {
    for row in PARTS {
        let (more, wanted) = columns(row)?;
        let line = format!(in rt.alloc();
            "live --feed h:1 --port 0 --user user --pass secret {more}"
        )?;
        let arguments = arguments(rt.alloc(), line.as_str())?;
        let found = asked(rt.alloc(), arguments.as_slice())?;
        holds_in(&rt, row, found.as_str().contains(wanted));
    }
    Ok(())
}

#[test]
fn arguments_of_a_follower_are_read(rt: HostRuntime) -> TestResult {
    for (more, form) in [("", "Blocks"), ("--whole", "Whole"), ("--json", "Json")] {
        let line = format!(in rt.alloc();
            "follow --feed h:1 --glimpse g.example:2 --user user --pass secret {more}"
        )?;
        let wanted = format!(in rt.alloc();
            "Follow(FollowArguments {{ {FEED}, glimpse: ServerAddress {{ text: \"g.example:2\", host: \"g.example\", port: 2 }}, \
             login: {LOGIN}, session: None, glimpse_session: None, form: {form} }})"
        )?;
        ask_for(&rt, line.as_str(), wanted.as_str())?;
    }
    Ok(())
}

#[test]
fn arguments_of_a_played_feed_are_read(rt: HostRuntime) -> TestResult {
    for row in [
        " => pace: Free, count: None, stay: false",
        "--rate 1000 --stay => pace: Rate(1000), count: None, stay: true",
        "--clock 10 --count 2 => pace: Clock(10), count: Some(2), stay: false",
    ] {
        let (more, rest) = columns(row)?;
        let line = format!(in rt.alloc();
            "feed day.itch --port 5 --user user --pass secret {more}"
        )?;
        let wanted = format!(in rt.alloc();
            "Feed(FeedArguments {{ file: \"day.itch\", address: 127.0.0.1:5, users: One({LOGIN}), session: None, {rest} }})"
        )?;
        ask_for(&rt, line.as_str(), wanted.as_str())?;
    }
    Ok(())
}

#[test]
fn a_live_server_may_have_a_login_of_its_own(rt: HostRuntime) -> TestResult {
    let line =
        "live --feed h:1 --port 0 --user user --pass secret --feed-user other --feed-pass-file p";
    let arguments = arguments(rt.alloc(), line)?;
    let job = read_job(rt.alloc(), arguments.as_slice(), false, None);
    let own = match &job {
        Ok(Job::Live(live)) => live.feed_login,
        _ => return Err(Fail::from("no live server")),
    };
    same_in(&rt, line, own.user, "other");
    holds_in(&rt, line, own.password == Password::File("p"));
    Ok(())
}

#[test]
fn a_live_server_may_have_users_of_a_file(rt: HostRuntime) -> TestResult {
    for (more, password) in [
        ("--feed-pass-file p", Password::File("p")),
        ("", Password::Word("variable")),
    ] {
        let line = format!(in rt.alloc();
            "live --feed h:1 --port 0 --users f --feed-user other {more}"
        )?;
        let arguments = arguments(rt.alloc(), line.as_str())?;
        let job = read_job(rt.alloc(), arguments.as_slice(), false, Some("variable"));
        let (users, own) = match &job {
            Ok(Job::Live(live)) => (live.users, live.feed_login),
            _ => return Err(Fail::from("no live server")),
        };
        holds_in(&rt, more, users == UserArguments::Listed("f"));
        same_in(&rt, more, own.user, "other");
        holds_in(&rt, more, own.password == password);
    }
    Ok(())
}

#[test]
fn sessions_are_named_by_arguments(rt: HostRuntime) -> TestResult {
    let line =
        "live --feed h:1 --glimpse h:2 --port 0 --user user --pass secret --session DAY1 --glimpse-session OTHER";
    let arguments = arguments(rt.alloc(), line)?;
    let job = read_job(rt.alloc(), arguments.as_slice(), false, None);
    let (feed, glimpse) = match &job {
        Ok(Job::Live(live)) => (live.session, live.glimpse_session),
        _ => return Err(Fail::from("no live server")),
    };
    holds_in(&rt, line, feed.is_some_and(|it| it.text() == "DAY1"));
    holds_in(&rt, line, glimpse.is_some_and(|it| it.text() == "OTHER"));
    Ok(())
}
