//! The feed of a checkpoint, opened directly after the checkpoint's messages.

use crate::beginning::{Beginning, BegunInput};
use crate::opened::{read_fault, size};
use itch_checkpoints::{Checkpoint, Fingerprint, Passed, Unfit, fingerprint_before, why_unfit};
use itch_commands::{Source, ToolFault, system_fault};
use itch_sessions::sessions::PIECE;
use itchsnap_cli::input::{InputStream, ProgressLine, ProgressReader};
use std::alloc::{AllocError, Global};
use std::fs;
use std::io::{self, ErrorKind, Read};
use std::rt::{Clock, Files};

/// The reason why a feed is not continued from a checkpoint.
#[derive(Drop)]
pub enum FeedFault {
    Tool(ToolFault),
    Unfit(Unfit),
}

impl From<ToolFault> for FeedFault {
    fn from(fault: ToolFault) -> FeedFault {
        FeedFault::Tool(fault)
    }
}

impl From<AllocError> for FeedFault {
    fn from(_error: AllocError) -> FeedFault {
        FeedFault::Tool(ToolFault::OutOfMemory)
    }
}

/// Opens the feed of a checkpoint, from its offset on. If the index has a fingerprint of the bytes before, the feed must match it: of a
/// file only as many bytes are read as the fingerprint covers, and of a pipe all.
pub fn open_after<'a, R: Files + Input + Eprint + AllocGlobal + Clock>(
    rt: &R,
    path: Option<&str>,
    checkpoint: &Checkpoint,
    progress: Option<&'a ProgressLine<'a, R>>,
    beginning: &'a Beginning,
) -> Result<ProgressReader<'a, InputStream<R::File, BegunInput<'a, R::Reader>>, R>, FeedFault> {
    let offset = checkpoint.offset;
    let Some(path) = path else {
        let standard = BegunInput::new(rt.reader(), beginning);
        return read_after(rt, InputStream::Standard(standard), checkpoint, progress);
    };
    let mut file = match fs::open(rt, path) {
        Ok(file) => file,
        Err(error) => {
            return Err(FeedFault::Tool(system_fault(
                error,
                ToolFault::Open {
                    file: Source::Only,
                    error,
                },
            )));
        }
    };
    let Some(size) = size(rt, path) else {
        return read_after(rt, InputStream::File(file), checkpoint, progress);
    };
    if size < offset {
        return Err(FeedFault::Unfit(Unfit::Beyond));
    }
    let found = found_in(
        fingerprint_before(rt.alloc(), &mut file, offset),
        checkpoint,
    )?;
    refuse(why_unfit(checkpoint.fingerprint, found))?;
    if let Some(progress) = progress {
        progress.add_file(Some(size - offset));
    }
    Ok(ProgressReader::new(InputStream::File(file), progress))
}

// Does the same if the offset can only be reached by reading all bytes before it.
fn read_after<'a, R: Files + Input + Eprint + AllocGlobal + Clock>(
    rt: &R,
    opened: InputStream<R::File, BegunInput<'a, R::Reader>>,
    checkpoint: &Checkpoint,
    progress: Option<&'a ProgressLine<'a, R>>,
) -> Result<ProgressReader<'a, InputStream<R::File, BegunInput<'a, R::Reader>>, R>, FeedFault> {
    if let Some(progress) = progress {
        progress.add_file(None);
    }
    let mut opened = ProgressReader::new(opened, progress);
    let offset = checkpoint.offset;
    let found = found_in(read_before(rt.alloc(), &mut opened, offset), checkpoint)?;
    refuse(why_unfit(checkpoint.fingerprint, found))?;
    Ok(opened)
}

fn refuse(why: Option<Unfit>) -> Result<(), FeedFault> {
    match why {
        Some(why) => Err(FeedFault::Unfit(why)),
        None => Ok(()),
    }
}

// Returns the fingerprint that was found; `None` if the feed ended first.
fn found_in(
    found: io::Result<Fingerprint>,
    checkpoint: &Checkpoint,
) -> Result<Option<Fingerprint>, FeedFault> {
    match found {
        Ok(found) => Ok(Some(found)),
        Err(error) if error.kind() == ErrorKind::UnexpectedEof => Ok(None),
        Err(error) => Err(FeedFault::from(read_fault(checkpoint.count, error))),
    }
}

// Reads up to an offset. Returns the fingerprint of the bytes that were read.
fn read_before<F: Read>(alloc: Global, file: &mut F, offset: u64) -> io::Result<Fingerprint> {
    let mut passed = Passed::new(alloc)?;
    let mut buffer = vec![in alloc; 0; PIECE]?;
    let mut left = offset;
    for _piece in 0..u64::MAX {
        let most = usize::try_from(left).unwrap_or(PIECE).min(buffer.len());
        if most == 0 {
            break;
        }
        let piece = &mut buffer[..most];
        file.read_exact(piece)?;
        passed.pass(piece)?;
        left = left.saturating_sub(most as u64);
    }
    match passed.fingerprint(offset) {
        Some(found) => Ok(found),
        None => Err(io::Error::from(ErrorKind::UnexpectedEof)),
    }
}
