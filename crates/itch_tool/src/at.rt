//! Writes the snapshot at a point of the day, starting from the nearest checkpoint.

use crate::beginning::Beginning;
use crate::checkpoints::{EMPTY_SNAPSHOT, nearest_of, path_of};
use crate::failure::Failure;
use crate::feed::{FeedFault, open_after};
use crate::opened::open;
use crate::run::perform_pair_over;
use itch_checkpoints::{Checkpoint, Unfit};
use itch_commands::snap::has_each;
use itch_commands::{FeedPart, Limit, PairCommand, Selection, Source, ToolFault, read_locates};
use itch_frame::CountedWrite;
use itch_market::LocateSet;
use itchsnap_cli::input::ProgressLine;
use std::alloc::{AllocError, Global};
use std::rt::{Clock, Files};

/// Joins a day file to the checkpoint nearest to a point of the day. The file is read from the checkpoint on.
pub fn join_at<'x, R: Files + Input + Eprint + AllocGlobal + Clock, W: CountedWrite>(
    rt: &R,
    folder: &str,
    feed: Option<&str>,
    point: Limit,
    selection: Selection<'_>,
    progress: Option<&'x ProgressLine<'_, R>>,
    beginning: &'x Beginning,
    only: Option<LocateSet<Global>>,
    out: &mut W,
) -> Result<bool, Failure> {
    let alloc = rt.alloc();
    let checkpoint = nearest_of(rt, folder, point)?;
    if !has_wanted(alloc, &checkpoint, only.as_ref())? {
        return Err(unfit(alloc, Unfit::Partial, folder, feed)?);
    }
    let feed = match open_after(rt, feed, &checkpoint, progress, beginning) {
        Ok(feed) => feed,
        Err(FeedFault::Tool(fault)) => return Err(Failure::from(fault)),
        Err(FeedFault::Unfit(why)) => return Err(unfit(alloc, why, folder, feed)?),
    };
    let part = FeedPart {
        before: checkpoint.count,
        limit: point,
    };
    let join = PairCommand::Join { part, selection };
    if checkpoint.count == 0 {
        return Ok(perform_pair_over(alloc, join, only, EMPTY_SNAPSHOT, feed, out)?);
    }
    let path = path_of(alloc, folder, &checkpoint)?;
    let joined = match open(
        rt,
        Some(path.as_str()),
        Source::Snapshot,
        progress,
        beginning,
    ) {
        Ok(snapshot) => perform_pair_over(alloc, join, only, snapshot, feed, out),
        Err(fault) => Err(fault),
    };
    match joined {
        Ok(answer) => Ok(answer),
        Err(fault) => Err(in_checkpoint(fault, path)),
    }
}

// Returns the failure for a fault that may be in the checkpoint's file.
fn in_checkpoint(fault: ToolFault, path: String) -> Failure {
    let checkpoint = match fault.source() {
        Some(Source::Snapshot) => Some(path),
        _ => None,
    };
    Failure::Command { fault, checkpoint }
}

// Returns whether the snapshot of a checkpoint has each requested locate. Stocks may be at any locate.
fn has_wanted(
    alloc: Global,
    checkpoint: &Checkpoint,
    only: Option<&LocateSet<Global>>,
) -> Result<bool, ToolFault> {
    let (Some(list), Some(wanted)) = (&checkpoint.only, only) else {
        return Ok(checkpoint.only.is_none());
    };
    match read_locates(alloc, list.as_str()) {
        Ok(kept) => Ok(has_each(&kept, wanted)),
        Err(ToolFault::OutOfMemory) => Err(ToolFault::OutOfMemory),
        Err(_) => Ok(false),
    }
}

// Returns the failure for a checkpoint that does not fit, with the details for its message.
fn unfit(
    alloc: Global,
    why: Unfit,
    folder: &str,
    feed: Option<&str>,
) -> Result<Failure, AllocError> {
    let feed = feed.unwrap_or("standard input");
    let detail = match why {
        Unfit::Partial => {
            format!(in alloc; "{folder}: its snapshots were made with --only, of fewer locates")?
        }
        Unfit::Beyond => format!(in alloc; "{feed}: it ends before the checkpoint in {folder}")?,
        Unfit::OtherDay => {
            format!(in alloc; "{folder}: its snapshots are of another day file than {feed}")?
        }
    };
    Ok(Failure::Checkpoint { why, detail })
}
