//! Opens the input of a command.

use crate::beginning::{Beginning, BegunInput};
use itch_commands::{Source, ToolFault, system_fault};
use itch_frame::FrameFault;
use itch_market::{ReplayEnd, Stop};
use itchsnap_cli::input::{InputStream, ProgressLine, ProgressReader};
use std::rt::Files;
use std::{fs, io};

/// Opens the file at a path, or standard input without one. `progress` counts the bytes read and gets the file's size, `source` is the
/// file's role in a fault, and `beginning` notes the first bytes of standard input.
///
/// An error is `Open`, or `OutOfMemory` if the system has no memory for it.
pub fn open<'a, R: Files + Input + Eprint>(
    rt: &R,
    path: Option<&str>,
    source: Source,
    progress: Option<&'a ProgressLine<'a, R>>,
    beginning: &'a Beginning,
) -> Result<ProgressReader<'a, InputStream<R::File, BegunInput<'a, R::Reader>>, R>, ToolFault> {
    let Some(path) = path else {
        if let Some(progress) = progress {
            progress.add_file(None);
        }
        let standard = BegunInput::new(rt.reader(), beginning);
        return Ok(ProgressReader::new(InputStream::Standard(standard), progress));
    };
    let file = match fs::open(rt, path) {
        Ok(file) => file,
        Err(error) => {
            return Err(system_fault(
                error,
                ToolFault::Open {
                    file: source,
                    error,
                },
            ));
        }
    };
    if let Some(progress) = progress {
        progress.add_file(size(rt, path));
    }
    Ok(ProgressReader::new(InputStream::File(file), progress))
}

/// Returns the fault for a day file that cannot be read after that many messages.
pub fn read_fault(count: u64, error: io::Error) -> ToolFault {
    let end = ReplayEnd {
        count,
        stop: Stop::Frame(FrameFault::Read(error)),
    };
    system_fault(
        error,
        ToolFault::Stopped {
            file: Source::Only,
            end,
        },
    )
}

/// Returns the size of a file; a pipe or a device has none.
pub fn size<R: Files>(rt: &R, path: &str) -> Option<u64> {
    let metadata = fs::metadata(rt, path).ok()?;
    if metadata.is_file() {
        Some(metadata.len())
    } else {
        None
    }
}
