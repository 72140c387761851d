//! The options of a live server, of a follower, and of a played feed.

use crate::command_line::fault::{Fault, usage_fault};
use crate::command_line::places::{read_feeds, read_place, read_place_if_any, read_status};
use crate::command_line::request::read_count;
use crate::command_line::session::{
    LoginArguments, Password, UserArguments, read_address, read_login, read_session, read_users,
};
use crate::command_line::size::read_size;
use clap::ArgMatches;
use itch_clients::Pace;
use itch_codec::Alpha;
use itch_records::{Ready, RecordOptions, RecordPlace, SnapshotOptions, SyncTime};
use itch_sessions::log::form::LogForm;
use itch_sessions::{Feeds, FollowForm, ServerAddress};
use std::alloc::Global;
use std::net::SocketAddr;

/// The default number of clients of a live server at a time.
const CLIENTS: u64 = 64;

/// The options of a live server.
#[derive(Clone, Copy, Debug, PartialEq, Eq)]
pub struct LiveArguments<'a> {
    pub feeds: Feeds<'a>,
    /// The snapshot server to start from, or `None` to start with the feed's first message.
    pub glimpse: Option<ServerAddress<'a>>,
    pub address: SocketAddr,
    /// The users that may log in.
    pub users: UserArguments<'a>,
    /// The login of the server itself at the feed.
    pub feed_login: LoginArguments<'a>,
    /// The feed's session, if it is named.
    pub session: Option<Alpha<10>>,
    /// The session of the snapshot server, if it is not the feed's.
    pub glimpse_session: Option<Alpha<10>>,
    /// The most clients at a time.
    pub clients: u64,
    /// The most clients from one address, if there is a limit.
    pub clients_per_address: Option<u64>,
    /// The limit in bytes of the snapshots in use, if one is given.
    pub snapshot_memory: Option<u64>,
    pub record: Option<RecordOptions<'a>>,
    pub snapshots: Option<SnapshotOptions<'a>>,
    /// Whether it continues to serve once the feed has ended.
    pub stay: bool,
    /// When it starts to send snapshots.
    pub ready: Ready,
    /// The address of its status port, if it has one.
    pub status: Option<ServerAddress<'a>>,
    pub log: LogForm,
}

/// The options of a follower.
#[derive(Clone, Copy, Debug, PartialEq, Eq)]
pub struct FollowArguments<'a> {
    pub feeds: Feeds<'a>,
    pub glimpse: ServerAddress<'a>,
    pub login: LoginArguments<'a>,
    /// The feed's session, if it is named.
    pub session: Option<Alpha<10>>,
    /// The session of the snapshot server, if it is not the feed's.
    pub glimpse_session: Option<Alpha<10>>,
    pub form: FollowForm,
}

/// The options of a played feed.
#[derive(Clone, Copy, Debug, PartialEq, Eq)]
pub struct FeedArguments<'a> {
    pub file: &'a str,
    pub address: SocketAddr,
    /// The users that may log in.
    pub users: UserArguments<'a>,
    /// The session of the logins, if it is named.
    pub session: Option<Alpha<10>>,
    pub pace: Pace,
    /// The number of connections after which it ends, if it does.
    pub count: Option<u64>,
    /// Whether heartbeats follow the last message, instead of the end of the session.
    pub stay: bool,
}

/// Reads the options of `live`.
pub fn read_live<'a>(
    alloc: Global,
    options: &ArgMatches<'a>,
    password: Option<&'a str>,
) -> Result<LiveArguments<'a>, Fault> {
    let users = read_users(alloc, options, password)?;
    let glimpse = read_place_if_any(alloc, options, "glimpse")?;
    let record = read_record(alloc, options)?;
    if glimpse.is_some() && record.is_some() {
        return Err(usage_fault(
            alloc,
            "a record cannot be used with '--glimpse <HOST:PORT>': a day file begins with the first message",
        )?);
    }
    Ok(LiveArguments {
        feeds: read_feeds(alloc, options)?,
        glimpse,
        address: read_address(alloc, options)?,
        users,
        feed_login: read_feed_login(alloc, options, users, password)?,
        session: read_session(alloc, options, "session")?,
        glimpse_session: read_glimpse_session(alloc, options, glimpse.is_some())?,
        clients: read_counted(alloc, options, "clients")?.unwrap_or(CLIENTS),
        clients_per_address: read_counted(alloc, options, "clients-per-address")?,
        snapshot_memory: read_snapshot_memory(alloc, options)?,
        record,
        snapshots: read_snapshots(alloc, options)?,
        stay: options.get_flag("stay"),
        ready: read_ready(alloc, options)?,
        status: read_status(alloc, options, "status")?,
        log: read_log(alloc, options)?,
    })
}

/// Reads the options of `follow`.
pub fn read_follow<'a>(
    alloc: Global,
    options: &ArgMatches<'a>,
    password: Option<&'a str>,
) -> Result<FollowArguments<'a>, Fault> {
    Ok(FollowArguments {
        feeds: read_feeds(alloc, options)?,
        glimpse: read_place(alloc, options, "glimpse")?,
        login: read_login(alloc, options, password)?,
        session: read_session(alloc, options, "session")?,
        glimpse_session: read_session(alloc, options, "glimpse-session")?,
        form: read_follow_form(alloc, options)?,
    })
}

/// Reads the options of `feed`.
pub fn read_feed<'a>(
    alloc: Global,
    options: &ArgMatches<'a>,
    password: Option<&'a str>,
) -> Result<FeedArguments<'a>, Fault> {
    Ok(FeedArguments {
        file: read_played(alloc, options)?,
        address: read_address(alloc, options)?,
        users: read_users(alloc, options, password)?,
        session: read_session(alloc, options, "session")?,
        pace: read_pace(alloc, options)?,
        count: read_counted(alloc, options, "count")?,
        stay: options.get_flag("stay"),
    })
}

fn read_record<'a>(
    alloc: Global,
    options: &ArgMatches<'a>,
) -> Result<Option<RecordOptions<'a>>, Fault> {
    let sync = read_sync(alloc, options)?;
    let is_optional = options.get_flag("record-optional");
    let place = match (options.get_str("record"), options.get_str("records")) {
        (Some(path), None) => RecordPlace::File(path),
        (None, Some(folder)) => RecordPlace::Folder(folder),
        (Some(_), Some(_)) => {
            return Err(usage_fault(
                alloc,
                "the argument '--record <FILE>' cannot be used with '--records <DIR>'",
            )?);
        }
        (None, None) if sync.is_some() || is_optional => {
            return Err(usage_fault(
                alloc,
                "'--sync <WHEN>' and '--record-optional' require '--record <FILE>' or '--records <DIR>'",
            )?);
        }
        (None, None) => return Ok(None),
    };
    Ok(Some(RecordOptions {
        place,
        sync: sync.unwrap_or(SyncTime::EverySecond),
        is_optional,
    }))
}

fn read_sync<'a>(alloc: Global, options: &ArgMatches<'a>) -> Result<Option<SyncTime>, Fault> {
    match options.get_str("sync") {
        None => Ok(None),
        Some("no") => Ok(Some(SyncTime::Never)),
        Some("second") => Ok(Some(SyncTime::EverySecond)),
        Some("message") => Ok(Some(SyncTime::EveryMessage)),
        Some(_) => Err(usage_fault(alloc, "--sync takes no, second or message")?),
    }
}

fn read_ready<'a>(alloc: Global, options: &ArgMatches<'a>) -> Result<Ready, Fault> {
    match options.get_str("ready") {
        None | Some("first") => Ok(Ready::First),
        Some("caught-up") => Ok(Ready::CaughtUp),
        Some(_) => Err(usage_fault(alloc, "--ready takes first or caught-up")?),
    }
}

fn read_log<'a>(alloc: Global, options: &ArgMatches<'a>) -> Result<LogForm, Fault> {
    match options.get_str("log") {
        None => Ok(LogForm::Plain),
        Some("text") => Ok(LogForm::Text),
        Some("json") => Ok(LogForm::Json),
        Some(_) => Err(usage_fault(alloc, "--log takes text or json")?),
    }
}

fn read_glimpse_session<'a>(
    alloc: Global,
    options: &ArgMatches<'a>,
    has_glimpse: bool,
) -> Result<Option<Alpha<10>>, Fault> {
    match read_session(alloc, options, "glimpse-session")? {
        Some(_) if !has_glimpse => Err(usage_fault(
            alloc,
            "'--glimpse-session <SESSION>' requires '--glimpse <HOST:PORT>'",
        )?),
        session => Ok(session),
    }
}

// Reads the login of a live server at its feed: its own name and password if they are given, and otherwise those of its one user.
fn read_feed_login<'a>(
    alloc: Global,
    options: &ArgMatches<'a>,
    users: UserArguments<'a>,
    environment: Option<&'a str>,
) -> Result<LoginArguments<'a>, Fault> {
    let (user, password) = match users {
        UserArguments::One(login) => (Some(login.user), Some(login.password)),
        UserArguments::Listed(_) => (None, environment.map(|word| Password::Word(word))),
    };
    let user = options.get_str("feed-user").or(user);
    let file = options.get_str("feed-pass-file");
    let password = file.map(|path| Password::File(path)).or(password);
    match (user, password) {
        (Some(user), Some(password)) => Ok(LoginArguments { user, password }),
        _ => Err(usage_fault(
            alloc,
            "'--users <FILE>' requires '--feed-user <USER>', and '--feed-pass-file <FILE>' or ITCHSNAP_PASS",
        )?),
    }
}

fn read_snapshots<'a>(
    alloc: Global,
    options: &ArgMatches<'a>,
) -> Result<Option<SnapshotOptions<'a>>, Fault> {
    let every = read_counted(alloc, options, "every")?;
    let keep = read_counted(alloc, options, "keep")?;
    match (options.get_str("to"), every) {
        (None, None) if keep.is_some() => Err(usage_fault(
            alloc,
            "'--keep <N>' requires '--to <DIR>'",
        )?),
        (None, None) => Ok(None),
        (Some(folder), Some(every)) => Ok(Some(SnapshotOptions {
            folder,
            every,
            keep,
        })),
        _ => Err(usage_fault(alloc, "'--to <DIR>' and '--every <N>' require each other")?),
    }
}

fn read_snapshot_memory<'a>(alloc: Global, options: &ArgMatches<'a>) -> Result<Option<u64>, Fault> {
    let Some(arguments) = options.get_str("snapshot-memory") else {
        return Ok(None);
    };
    match read_size(arguments) {
        Some(bytes) => Ok(Some(bytes)),
        None => Err(usage_fault(
            alloc,
            "--snapshot-memory takes bytes, with K, M or G for KiB, MiB or GiB, such as 256M",
        )?),
    }
}

fn read_follow_form<'a>(alloc: Global, options: &ArgMatches<'a>) -> Result<FollowForm, Fault> {
    match (options.get_flag("whole"), options.get_flag("json")) {
        (false, false) => Ok(FollowForm::Blocks),
        (true, false) => Ok(FollowForm::Whole),
        (false, true) => Ok(FollowForm::Json),
        (true, true) => Err(usage_fault(
            alloc,
            "the argument '--whole' cannot be used with '--json'",
        )?),
    }
}

// Each client reads the file separately, which standard input does not allow.
fn read_played<'a>(alloc: Global, options: &ArgMatches<'a>) -> Result<&'a str, Fault> {
    match options.get_str("FILE") {
        Some(path) if path != "-" => Ok(path),
        _ => Err(usage_fault(
            alloc,
            "a feed is played from a file, not from standard input",
        )?),
    }
}

fn read_pace<'a>(alloc: Global, options: &ArgMatches<'a>) -> Result<Pace, Fault> {
    let rate = read_counted(alloc, options, "rate")?;
    match (rate, read_counted(alloc, options, "clock")?) {
        (None, None) => Ok(Pace::Free),
        (Some(rate), None) => Ok(Pace::Rate(rate)),
        (None, Some(clock)) => Ok(Pace::Clock(clock)),
        (Some(_), Some(_)) => Err(usage_fault(
            alloc,
            "the argument '--rate <N>' cannot be used with '--clock <FACTOR>'",
        )?),
    }
}

fn read_counted<'a>(
    alloc: Global,
    options: &ArgMatches<'a>,
    name: &str,
) -> Result<Option<u64>, Fault> {
    read_count(
        alloc,
        options,
        name,
        "a number must have decimal digits only",
    )
}
