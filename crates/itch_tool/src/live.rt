//! Runs a live server, a follower, or a played feed, over files and sockets.

use crate::explaining::said;
use crate::failure::Failure;
use crate::password::{read_account, read_users};
use itch_clients::{Playing, play_feed};
use itch_frame::Counted;
use itch_live::Sessions;
use itch_records::{DayFault, DayPaths, Names};
use itch_sessions::sessions::{PIECE, Sending};
use itch_sessions::{ServerAddress, Servers, SessionFault};
use itchsnap_cli::command_line::{FeedArguments, FollowArguments, LiveArguments, session_of_file};
use itchsnap_live::{Accounts, Following, Serving, follow_feed, serve_live};
use std::fs::File;
use std::io::{self, BufWriter};
use std::net::{Net, ToSocketAddrs};
use std::rt::{Clock, Files};

/// Follows a feed, and serves snapshots of its current market. The line of each client is written once it is gone.
pub fn run_live<R>(rt: &R, arguments: &LiveArguments<'_>) -> Result<bool, Failure>
where
    R: Net + Clock + Files<File = File> + Print + Eprint + AllocGlobal,
{
    let accounts = Accounts {
        users: read_users(rt, arguments.users)?,
        own: read_account(rt, arguments.feed_login)?,
    };
    let servers = Servers {
        feeds: arguments.feeds,
        glimpse: arguments.glimpse,
    };
    let serving = Serving {
        address: arguments.address,
        session: arguments.session,
        glimpse_session: arguments.glimpse_session,
        clients: places(arguments.clients),
        clients_per_address: match arguments.clients_per_address {
            Some(count) => places(count),
            None => usize::MAX,
        },
        snapshot_memory: arguments.snapshot_memory,
        from_snapshot: arguments.glimpse.is_some(),
        record: arguments.record,
        snapshots: arguments.snapshots,
        stay: arguments.stay,
        ready: arguments.ready,
        status: arguments.status,
        log: arguments.log,
    };
    let mut out = Counted::new(io::writer(rt));
    match serve_live(rt, servers, &serving, accounts, &mut out) {
        Ok(answer) => Ok(answer),
        Err(DayFault { fault, paths }) => said(rt, live_names(arguments, &paths), Err(fault)),
    }
}

fn places(count: u64) -> usize {
    usize::try_from(count).unwrap_or(usize::MAX)
}

/// Fetches a snapshot, joins a feed to it, and writes the messages of the feed from there on.
pub fn run_follow<R>(rt: &R, arguments: &FollowArguments<'_>) -> Result<bool, Failure>
where
    R: Net + Clock + Files<File = File> + Print + Eprint + AllocGlobal,
{
    let account = read_account(rt, arguments.login)?;
    look_up(rt, arguments.feeds.first)?;
    look_up(rt, arguments.glimpse)?;
    let servers = Servers {
        feeds: arguments.feeds,
        glimpse: Some(arguments.glimpse),
    };
    let following = Following {
        sessions: Sessions {
            feed: arguments.session,
            glimpse: arguments.glimpse_session,
        },
        form: arguments.form,
    };
    let Ok(buffered) = BufWriter::with_capacity(rt.alloc(), PIECE, io::writer(rt)) else {
        return Err(Failure::Session(SessionFault::OutOfMemory));
    };
    let out = &mut Sending::new(buffered);
    let followed = follow_feed(rt, servers, &following, account, out);
    said(rt, follow_names(arguments), followed)
}

/// Plays a day file as a live feed. The line of each client is written once it is gone.
pub fn run_feed<R>(rt: &R, arguments: &FeedArguments<'_>) -> Result<bool, Failure>
where
    R: Net + Clock + Files<File = File> + Print + Eprint + AllocGlobal,
{
    let users = read_users(rt, arguments.users)?;
    let playing = Playing {
        path: arguments.file,
        address: arguments.address,
        session: arguments.session.unwrap_or(session_of_file(arguments.file)),
        pace: arguments.pace,
        count: arguments.count,
        stay: arguments.stay,
    };
    let mut out = Counted::new(io::writer(rt));
    Ok(play_feed(rt, &playing, users, &mut out)?)
}

// Looks up the name of a server: a live server or a follower ends if it cannot be found at the start.
fn look_up<R: Net + AllocGlobal>(rt: &R, place: ServerAddress<'_>) -> Result<(), Failure> {
    match (place.host, place.port).to_socket_addrs(rt) {
        Ok(_) => Ok(()),
        Err(error) => Err(Failure::open(rt.alloc(), place.text, error)),
    }
}

// Returns the names of the files and servers of a live server.
fn live_names<'x>(arguments: &LiveArguments<'x>, paths: &'x DayPaths) -> Names<'x> {
    Names {
        record: match &paths.record {
            Some(path) => path.as_str(),
            None => "",
        },
        snapshots: match &paths.snapshots {
            Some(path) => path.as_str(),
            None => "",
        },
        status: match arguments.status {
            Some(place) => place.text,
            None => "",
        },
        feeds: arguments.feeds,
    }
}

// Returns the names of a follower's servers. It has no file.
fn follow_names<'a>(arguments: &FollowArguments<'a>) -> Names<'a> {
    Names {
        record: "",
        snapshots: "",
        status: "",
        feeds: arguments.feeds,
    }
}
