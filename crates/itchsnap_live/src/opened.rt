//! The files and ports that a live server opens before it serves.

use crate::live::Serving;
use crate::start::Startup;
use crate::status::StatusPort;
use itch_book::OrderBook;
use itch_codec::Alpha;
use itch_day::DayCursor;
use itch_join::Joiner;
use itch_live::{Follower, Sessions};
use itch_records::{
    DayPaths, LiveFault, Record, Replay, Replayed, Saver, at_the_first, make_folder, newest,
};
use itch_sessions::log::Log;
use itch_sessions::sessions::{Listening, Login, current_session};
use itch_sessions::{ClientPort, SessionFault, called};
use std::alloc::{AllocError, Global};
use std::fs::File;
use std::net::{Net, SocketAddr};
use std::rt::{Clock, Files};

/// The files of a live server for one day.
#[derive(Drop)]
pub(crate) struct OwnFiles {
    pub record: Record,
    /// The rest of the record, which is still to be replayed.
    pub replay: Option<Replay>,
    pub saver: Option<Saver>,
}

/// The same, with the market to begin with, and the session of the day, if it is known.
#[derive(Drop)]
pub(crate) struct OpenedDay<B: OrderBook> {
    pub files: OwnFiles,
    pub joiner: Joiner<B>,
    pub session: Option<Alpha<10>>,
}

/// Opens the files of a day. The record is replayed from the newest snapshot that fits it, and later ones are removed from the index of the
/// folder. If a session is named, the record must belong to it.
///
/// # Errors
///
/// A [`LiveFault`] if a file cannot be opened, is in use or does not fit.
pub(crate) fn open_files<R, B>(
    log: &mut Log<'_, R>,
    serving: &Serving<'_>,
    paths: &DayPaths,
    session: Option<Alpha<10>>,
) -> Result<OpenedDay<B>, LiveFault>
where
    R: Files<File = File> + Clock + Eprint + AllocGlobal,
    B: OrderBook<Alloc = Global>,
{
    let rt = log.runtime();
    let saver = open_saver(rt, serving, paths)?;
    let record = open_record(rt, serving, paths, session)?;
    let resumed = match &paths.snapshots {
        Some(folder) => newest_of(log, folder.as_str(), &record)?,
        None => None,
    };
    let (joiner, cursor) = match resumed {
        Some(resumed) => resumed,
        None => (first_joiner(rt.alloc(), serving)?, DayCursor::new()),
    };
    if let Some(saver) = &saver {
        saver.forget_after(rt, cursor.count)?;
    }
    let replay = record.replay(rt, cursor)?;
    let session = session.or(record.session());
    let files = OwnFiles {
        record,
        replay,
        saver,
    };
    Ok(OpenedDay {
        files,
        joiner,
        session,
    })
}

fn open_saver<R: Files<File = File> + AllocGlobal>(
    rt: &R,
    serving: &Serving<'_>,
    paths: &DayPaths,
) -> Result<Option<Saver>, LiveFault> {
    let (Some(words), Some(folder)) = (serving.snapshots, &paths.snapshots) else {
        return Ok(None);
    };
    if serving.has_days()
        && let Err(error) = make_folder(rt, folder.as_str())
    {
        return Err(LiveFault::Session(SessionFault::of_system(error, SessionFault::Folder(error))));
    }
    let folder = String::from_str(rt.alloc(), folder.as_str())?;
    Ok(Some(Saver::open(rt, words, folder)?))
}

fn open_record<R: Files<File = File> + AllocGlobal>(
    rt: &R,
    serving: &Serving<'_>,
    paths: &DayPaths,
    session: Option<Alpha<10>>,
) -> Result<Record, LiveFault> {
    match (serving.record, &paths.record) {
        (Some(words), Some(path)) => {
            let path = String::from_str(rt.alloc(), path.as_str())?;
            Record::open(rt, words, path, session)
        }
        _ => Ok(Record::none()),
    }
}

// Returns the market of the newest snapshot that fits the record, if there is one.
fn newest_of<R, B>(
    log: &mut Log<'_, R>,
    folder: &str,
    record: &Record,
) -> Result<Option<(Joiner<B>, DayCursor)>, LiveFault>
where
    R: Files<File = File> + Clock + Eprint + AllocGlobal,
    B: OrderBook<Alloc = Global>,
{
    match record.path() {
        Some(path) if record.length() > 0 => {
            let replayed = Replayed {
                path,
                length: record.length(),
            };
            newest(log, folder, replayed)
        }
        _ => Ok(None),
    }
}

// Returns a joiner with the market before the first message, or without a market if a snapshot comes first.
fn first_joiner<B: OrderBook<Alloc = Global>>(
    alloc: Global,
    serving: &Serving<'_>,
) -> Result<Joiner<B>, SessionFault> {
    let mut joiner: Joiner<B> = Joiner::new(alloc, 0);
    if !serving.from_snapshot {
        at_the_first(&mut joiner)?;
    }
    Ok(joiner)
}

/// Returns the follower of the feed, in the named or recorded session.
pub(crate) fn follower_of<B: OrderBook<Alloc = Global>>(
    alloc: Global,
    serving: &Serving<'_>,
    login: &Login,
    session: Option<Alpha<10>>,
    joiner: Joiner<B>,
) -> Result<Follower<B>, AllocError> {
    let sessions = Sessions {
        feed: session,
        glimpse: serving.glimpse_session,
    };
    let credentials = login.credentials(current_session());
    Follower::new(alloc, credentials, sessions, joiner, 0)
}

/// Listens on the port of a server. Its socket will have this number.
///
/// # Errors
///
/// A [`SessionFault`] if the port cannot be bound.
pub(crate) fn listen<R: Net + Clock + Eprint>(
    rt: &R,
    start: &mut Startup<'_, '_, R>,
    address: SocketAddr,
    token: usize,
) -> Result<ClientPort, SessionFault> {
    let (port, address) = called(ClientPort::open(rt, start.poll_loop.registry(), address, token))?;
    start.log.say(&Listening(address));
    Ok(port)
}

/// Opens the status port, if there is one. It shows no clients until the feed's session is known.
///
/// # Errors
///
/// [`LiveFault::StatusPort`] if the port cannot be bound.
pub(crate) fn open_status<R: Net + Clock + Eprint + AllocGlobal>(
    serving: &Serving<'_>,
    start: &mut Startup<'_, '_, R>,
) -> Result<(), LiveFault> {
    if let Some(place) = serving.status {
        start.status = Some(StatusPort::open(&mut start.log, start.poll_loop.registry(), place)?);
        start.figures.slots = serving.clients as u64;
    }
    Ok(())
}
