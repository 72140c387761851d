//! Writes the messages on standard error, and returns the exit status for them.

use crate::beginning::Beginning;
use crate::container::{ContainerFile, container_file};
use crate::counts::Counts;
use crate::failure::Failure;
use crate::final_status::{ends_by_closed_pipe, final_status};
use crate::hints::{MixedUp, login_hint, mixup_of};
use crate::lacked_locate::{bad_list, lacked_locate};
use crate::names::{CommandFiles, InputFile, JobNames, Name, SessionNames, Subject};
use crate::second_look::{lacked_stock, last_event};
use crate::selected::Selected;
use clap::Error;
use clap::error::ErrorKind;
use itch_checkpoints::Unfit;
use itch_commands::{Source, ToolFault, UnmetExpectation, system_fault};
use itch_offsets::IndexUnfit;
use itch_records::{LiveFault, Names};
use itch_sessions::{SessionCause, SessionDevice, SessionFault};
use itch_soup::SoupFault;
use std::io;
use std::rt::Files;

/// Writes the message of a failure on standard error, and returns the exit status. For a closed pipe it writes nothing.
pub fn finish<R: Files + Eprint + AllocGlobal>(
    rt: &R,
    names: &JobNames<'_>,
    beginning: &Beginning,
    outcome: Result<bool, Failure>,
) -> u8 {
    match &outcome {
        Err(failure) if !ends_by_closed_pipe(&outcome) => match say(rt, names, beginning, failure) {
            Ok(()) => final_status(&outcome),
            Err(error) => final_status(&Err(Failure::from(ToolFault::Write(error)))),
        },
        _ => final_status(&outcome),
    }
}

/// Handles the end of a live server or a follower. Messages that need their names are written here.
pub fn said<R: Eprint>(
    rt: &R,
    names: Names<'_>,
    outcome: Result<bool, LiveFault>,
) -> Result<bool, Failure> {
    match outcome {
        Ok(answer) => Ok(answer),
        Err(LiveFault::Session(fault)) => Err(said_of_day(rt, fault, names)),
        Err(fault) => {
            // If standard error cannot be written, the exit status still tells.
            let _ = say_live(rt, &fault, names);
            Err(Failure::Said {
                status: fault.status(),
            })
        }
    }
}

// Returns the failure of a session. A fault of a file of the day is reported here, since the command line may not name that file.
fn said_of_day<R: Eprint>(rt: &R, fault: SessionFault, names: Names<'_>) -> Failure {
    let Some(cause) = fault.cause() else {
        return Failure::from(fault);
    };
    let path = match cause.device {
        SessionDevice::DayFile => names.record,
        SessionDevice::Folder => names.snapshots,
        SessionDevice::Output | SessionDevice::Socket => "",
    };
    if path.is_empty() {
        return Failure::from(fault);
    }
    // If standard error cannot be written, the exit status still tells.
    let _ = say_session_at(rt, &fault, cause, Name::Path(path));
    Failure::Said {
        status: fault.status(),
    }
}

fn say_session_at<R: Eprint>(
    rt: &R,
    fault: &SessionFault,
    cause: SessionCause,
    name: Name<'_>,
) -> io::Result<()> {
    rt.eprintln(fault)?;
    say_cause(rt, cause, name)
}

fn say_live<R: Eprint>(rt: &R, fault: &LiveFault, names: Names<'_>) -> io::Result<()> {
    rt.eprintln(fault)?;
    match fault.detail(names) {
        Some(detail) => eprintln!(rt; "  {detail}"),
        None => Ok(()),
    }
}

/// Prints the help or the message of a usage fault, and returns the exit status.
pub fn explain<R: Files + Print + Eprint + AllocGlobal>(rt: &R, error: Error) -> u8 {
    if matches!(error.kind(), ErrorKind::OutOfMemory) {
        return finish(
            rt,
            &JobNames::none(),
            &Beginning::new(),
            Err(Failure::from(ToolFault::OutOfMemory)),
        );
    }
    match error.print(rt) {
        Ok(()) => error.exit_code() as u8,
        Err(failed) => finish(
            rt,
            &JobNames::none(),
            &Beginning::new(),
            Err(Failure::from(system_fault(failed, ToolFault::Write(failed)))),
        ),
    }
}

// Writes the line of a failure, and a second one if there is more to report. For a live server or a follower they have already been written.
fn say<R: Files + Eprint + AllocGlobal>(
    rt: &R,
    names: &JobNames<'_>,
    beginning: &Beginning,
    failure: &Failure,
) -> io::Result<()> {
    match failure {
        Failure::Command { fault, checkpoint } => {
            rt.eprintln(fault)?;
            match subject_of(&names.files, fault, checkpoint) {
                Some(subject) => say_subject(rt, fault, subject, names.counts, beginning),
                None => say_lack(rt, fault, names),
            }
        }
        Failure::Session(fault) => say_session(rt, fault, &names.session),
        Failure::Open { name, error } => {
            rt.eprintln("itchsnap: cannot open")?;
            eprintln!(rt; "  {name}: {error}")
        }
        Failure::NoOrder { reference } => eprintln!(rt; "itchsnap: no order {reference}"),
        Failure::OnlyOnce { path } => {
            rt.eprintln("itchsnap: cannot read twice")?;
            eprintln!(rt; "  {path}: --history needs a regular file")
        }
        Failure::NotPlaced { path } => {
            rt.eprintln("itchsnap: cannot seek")?;
            eprintln!(rt; "  {path}: --index needs a regular file")
        }
        Failure::Index { why, detail } => {
            let file = InputFile {
                arguments: "",
                ..names.files.last()
            };
            say_index(rt, *why, detail.as_str(), file, beginning)
        }
        Failure::Checkpoint { why, detail } => {
            let feed = names.files.subject(Source::Only);
            say_unfit(rt, *why, detail.as_str(), feed, beginning)
        }
        Failure::SameFile { path } => {
            rt.eprintln("itchsnap: cannot open")?;
            eprintln!(rt; "  {path}: the output would replace this input file")
        }
        Failure::Users { path, fault } => {
            rt.eprintln("itchsnap: bad users")?;
            eprintln!(rt; "  {path}: {fault}")
        }
        Failure::Said { .. } => Ok(()),
    }
}

// Returns the subject of a command's fault, if it concerns a file.
fn subject_of<'a>(
    files: &CommandFiles<'a>,
    fault: &ToolFault,
    checkpoint: &'a Option<String>,
) -> Option<Subject<'a>> {
    match checkpoint {
        Some(path) => Some(Subject::Checkpoint(path.as_str())),
        None => Some(files.subject(fault.source()?)),
    }
}

// For a command: writes which file failed and the system's error, how many messages it lacks, or the kind of a file that is not a day file.
fn say_subject<R: Files + Eprint>(
    rt: &R,
    fault: &ToolFault,
    subject: Subject<'_>,
    counts: Counts,
    beginning: &Beginning,
) -> io::Result<()> {
    let name = subject.name();
    if let Some(error) = fault.io_error() {
        return eprintln!(rt; "  {name}: {error}");
    }
    if let ToolFault::Short { count, .. } = fault {
        return match counts.beyond(*count) {
            Some(wanted) => eprintln!(rt; "  {name}: {wanted} messages are requested"),
            None => Ok(()),
        };
    }
    if !matches!(fault, ToolFault::Stopped { .. } | ToolFault::Snap { .. }) {
        return Ok(());
    }
    match container_file(rt, subject, beginning) {
        Some(container) => eprintln!(rt; "  {container}"),
        None => say_mixup(rt, fault, subject),
    }
}

// For a command: writes what to do with an input file that may be of the other kind.
fn say_mixup<R: Eprint>(rt: &R, fault: &ToolFault, subject: Subject<'_>) -> io::Result<()> {
    let (Some(mixup), Subject::Input(file)) = (mixup_of(fault), subject) else {
        return Ok(());
    };
    let mixed_up = MixedUp {
        mixup,
        file: Name::of_input(file.path),
        flag: file.flag,
    };
    eprintln!(rt; "  {mixed_up}")
}

// For a command: writes which name on the command line does not exist, or what its file lacks.
fn say_lack<R: Files + Eprint + AllocGlobal>(
    rt: &R,
    fault: &ToolFault,
    names: &JobNames<'_>,
) -> io::Result<()> {
    let Selected {
        locates,
        stocks,
        part,
    } = names.selected;
    let file = names.files.last();
    match (fault, locates, stocks) {
        (ToolFault::BadLocates, Some(list), _) => {
            let bad = bad_list(rt.alloc(), list);
            eprintln!(rt; "  {bad}")
        }
        (ToolFault::UnknownLocate, Some(list), _) => match lacked_locate(rt, file, list, part) {
            Some(lacked) => eprintln!(rt; "  {lacked}"),
            None => Ok(()),
        },
        (ToolFault::UnknownStock, _, Some(stocks)) => match lacked_stock(rt, file, stocks, part) {
            Some(lacked) => eprintln!(rt; "  {lacked}"),
            None => Ok(()),
        },
        (ToolFault::UnmetExpectation(UnmetExpectation::NoEnd), _, _) => match last_event(
            rt, file, part,
        ) {
            Some(event) => eprintln!(rt; "  {event}"),
            None => Ok(()),
        },
        _ => Ok(()),
    }
}

// For a session: writes which device failed and the system's error, how its peer broke the protocol, or what its login must be.
fn say_session<R: Eprint>(
    rt: &R,
    fault: &SessionFault,
    names: &SessionNames<'_>,
) -> io::Result<()> {
    let name = names.name(fault);
    if let Some(cause) = fault.cause() {
        return say_session_at(rt, fault, cause, name);
    }
    rt.eprintln(fault)?;
    match (fault.peer_fault(), login_hint(fault)) {
        (Some(peer), _) => say_peer(rt, &peer, name),
        (None, Some(hint)) => eprintln!(rt; "  {hint}"),
        (None, None) => Ok(()),
    }
}

// Writes why a checkpoint does not fit. A feed may have other bytes there because it is compressed.
fn say_unfit<R: Files + Eprint>(
    rt: &R,
    why: Unfit,
    detail: &str,
    feed: Subject<'_>,
    beginning: &Beginning,
) -> io::Result<()> {
    eprintln!(rt; "itchsnap: {why}")?;
    let container = match why {
        Unfit::Beyond | Unfit::OtherDay => container_file(rt, feed, beginning),
        Unfit::Partial => None,
    };
    say_detail(rt, container, detail)
}

// Writes why an index does not fit. The file may have other bytes because it is compressed.
fn say_index<R: Files + Eprint>(
    rt: &R,
    why: IndexUnfit,
    detail: &str,
    file: InputFile<'_>,
    beginning: &Beginning,
) -> io::Result<()> {
    eprintln!(rt; "itchsnap: {why}")?;
    let container = match why {
        IndexUnfit::Beyond | IndexUnfit::OtherDay => {
            container_file(rt, Subject::Input(file), beginning)
        }
        IndexUnfit::Invalid => None,
    };
    say_detail(rt, container, detail)
}

fn say_detail(
    rt: &impl Eprint,
    container: Option<ContainerFile<'_>>,
    detail: &str,
) -> io::Result<()> {
    match container {
        Some(container) => eprintln!(rt; "  {container}"),
        None => eprintln!(rt; "  {detail}"),
    }
}

fn say_cause(rt: &impl Eprint, cause: SessionCause, name: Name<'_>) -> io::Result<()> {
    let SessionCause { device, error } = cause;
    match (device, error.kind()) {
        // A read from a socket ends with this error after the time of `--timeout`.
        (SessionDevice::Socket, io::ErrorKind::WouldBlock) => {
            eprintln!(rt; "  {name}: no answer in time")
        }
        _ => eprintln!(rt; "  {name}: {error}"),
    }
}

fn say_peer(rt: &impl Eprint, fault: &SoupFault, name: Name<'_>) -> io::Result<()> {
    if is_packet_fault(fault) {
        return eprintln!(rt; "  {name}: no SoupBinTCP packet of a server: {fault}");
    }
    eprintln!(rt; "  {name}: {fault}")
}

// Returns whether the bytes were not a packet at all, or not one that a server sends.
fn is_packet_fault(fault: &SoupFault) -> bool {
    matches!(
        fault,
        SoupFault::EmptyPacket
            | SoupFault::UnknownType(_)
            | SoupFault::WrongSide(_)
            | SoupFault::WrongLength { .. }
            | SoupFault::BadText { .. }
            | SoupFault::BadNumber { .. }
            | SoupFault::Frame(_)
    )
}
