//! The start of a live server, up to its first turn.

use super::client_side::ServingSide;
use super::day::Day;
use super::{Accounts, FEED, LISTENER, Server, Serving};
use crate::opened::{OpenedDay, follower_of, listen, open_files, open_status};
use crate::question::nameless_follower;
use crate::start::Startup;
use itch_book::OrderBook;
use itch_codec::Alpha;
use itch_join::Joiner;
use itch_live::{Follower, LiveServer};
use itch_records::{DayBegun, DayPaths, LiveFault, RecordPlace, stem_of};
use itch_sessions::log::Log;
use itch_sessions::sessions::{Login, current_session};
use itch_sessions::{ClientPort, Logins, Servers, SessionFault};
use std::alloc::{AllocError, Global};
use std::fs::File;
use std::net::Net;
use std::rt::{Clock, Files};
use std::str;

/// Opens everything that a server works on, and waits until the session of its feed is known. The paths are set as soon as they are known.
///
/// # Errors
///
/// A [`LiveFault`] if a file or a port cannot be opened, or the feed refuses to start.
pub(super) fn opened<'r, 'a, R, B: OrderBook<Alloc = Global>>(
    rt: &'r R,
    servers: Servers<'a>,
    serving: &'a Serving<'a>,
    accounts: Accounts<'a>,
    paths: &mut DayPaths,
) -> Result<Server<'r, 'a, R, B>, LiveFault>
where
    R: Net + Clock + Files<File = File> + Eprint + AllocGlobal,
{
    let mut log = Log::new(rt, serving.log)?;
    let Accounts { users, own } = accounts;
    let login = own.first();
    let known: Option<OpenedDay<B>> = if serving.has_days() && serving.session.is_none() {
        None
    } else {
        Some(open_day(&mut log, serving, serving.session, paths)?)
    };
    let mut start = Startup::new(rt, log, servers, own, serving.glimpse_session, FEED)?;
    open_status(serving, &mut start)?;
    let port = listen(rt, &mut start, serving.address, LISTENER)?;
    let begun = match known {
        Some(begun) => begun,
        None => open_found(&mut start, serving, &login, paths)?,
    };
    begin(rt.alloc(), serving, users, &login, start, port, begun)
}

// Waits until the session of the feed is known, with everything else opened.
fn begin<'r, 'a, R, B: OrderBook<Alloc = Global>>(
    alloc: Global,
    serving: &'a Serving<'a>,
    users: Logins<'a>,
    login: &Login,
    start: Startup<'r, 'a, R>,
    port: ClientPort,
    begun: OpenedDay<B>,
) -> Result<Server<'r, 'a, R, B>, LiveFault>
where
    R: Net + Clock + Files<File = File> + Eprint + AllocGlobal,
{
    let mut start = start;
    let OpenedDay {
        files,
        joiner,
        session,
    } = begun;
    start.note_record(&files.record);
    let mut follower = follower_of(alloc, serving, login, session, joiner)?;
    session_of(&mut start, &mut follower)?;
    let session = follower.session().unwrap_or(current_session());
    let client_side = ServingSide::new(alloc, serving, users, port, session)?;
    let day = Day::new(files, follower.next());
    let live_server = LiveServer::new(alloc, follower, serving.clients)?;
    Ok(server_of(serving, start, live_server, client_side, day))
}

/// Opens the files of a day, and reports them if each session has its own.
///
/// # Errors
///
/// A [`LiveFault`] if a file cannot be opened.
pub(super) fn open_day<R, B: OrderBook<Alloc = Global>>(
    log: &mut Log<'_, R>,
    serving: &Serving<'_>,
    session: Option<Alpha<10>>,
    paths: &mut DayPaths,
) -> Result<OpenedDay<B>, LiveFault>
where
    R: Net + Clock + Files<File = File> + Eprint + AllocGlobal,
{
    let alloc = log.runtime().alloc();
    *paths = paths_of(alloc, serving, session.as_ref())?;
    let begun = open_files(log, serving, paths, session)?;
    if serving.has_days() {
        say_begun(log, &begun, paths);
    }
    Ok(begun)
}

// Reports which session begins, and where it is recorded.
fn say_begun<R: Clock + Eprint, B: OrderBook>(
    log: &mut Log<'_, R>,
    begun: &OpenedDay<B>,
    paths: &DayPaths,
) {
    let Some(session) = begun.session else {
        return;
    };
    if let Some(record) = &paths.record {
        let record = record.as_str();
        log.say(&DayBegun { session, record });
    }
}

// Opens the files of the day with the session that the feed names. The feed is then followed on a connection of its own.
fn open_found<R, B: OrderBook<Alloc = Global>>(
    start: &mut Startup<'_, '_, R>,
    serving: &Serving<'_>,
    login: &Login,
    paths: &mut DayPaths,
) -> Result<OpenedDay<B>, LiveFault>
where
    R: Net + Clock + Files<File = File> + Eprint + AllocGlobal,
{
    let alloc = start.log.runtime().alloc();
    let joiner: Joiner<B> = Joiner::new(alloc, 0);
    let credentials = login.credentials(current_session());
    let mut follower = nameless_follower(alloc, &credentials, joiner)?;
    let session = session_of(start, &mut follower)?;
    start.feed.begin_day(0);
    open_day(&mut start.log, serving, Some(session), paths)
}

// Returns the session that a feed names.
fn session_of<R, B: OrderBook<Alloc = Global>>(
    start: &mut Startup<'_, '_, R>,
    follower: &mut Follower<B>,
) -> Result<Alpha<10>, LiveFault>
where
    R: Net + Clock + Files<File = File> + Eprint + AllocGlobal,
{
    match start.find_session(follower)? {
        Some(session) => Ok(session),
        None => Err(LiveFault::Session(SessionFault::TooMany)),
    }
}

// Creates a server from its parts. The caller sets its paths.
fn server_of<'r, 'a, R: Clock, B: OrderBook>(
    serving: &'a Serving<'a>,
    start: Startup<'r, 'a, R>,
    live_server: LiveServer<B>,
    client_side: ServingSide<'a>,
    day: Day,
) -> Server<'r, 'a, R, B> {
    let Startup {
        log,
        poll_loop,
        feed,
        token: _,
        spare,
        status,
        figures: _,
    } = start;
    Server {
        serving,
        log,
        poll_loop,
        spare,
        status,
        feed,
        live_server,
        client_side,
        paths: DayPaths::none(),
        day,
        scout: None,
    }
}

// Returns the paths of a session's files. If each session has its own files, they are named after it.
fn paths_of(
    alloc: Global,
    serving: &Serving<'_>,
    session: Option<&Alpha<10>>,
) -> Result<DayPaths, AllocError> {
    let stem = match session {
        Some(session) => stem_of(alloc, session)?,
        None => stem_of(alloc, &current_session())?,
    };
    let stem = str::from_utf8(&stem).unwrap_or("");
    let record = match serving.place() {
        Some(RecordPlace::File(path)) => Some(String::from_str(alloc, path)?),
        Some(RecordPlace::Folder(folder)) => Some(format!(in alloc; "{folder}/{stem}.itch")?),
        None => None,
    };
    let snapshots = match serving.snapshots {
        Some(words) if serving.has_days() => {
            let folder = words.folder;
            Some(format!(in alloc; "{folder}/{stem}")?)
        }
        Some(words) => Some(String::from_str(alloc, words.folder)?),
        None => None,
    };
    Ok(DayPaths { record, snapshots })
}
