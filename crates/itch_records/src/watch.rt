//! Checks whether a file that is being written is still the one that was opened, with all bytes that were written.
ghost use Rattle.std.specs.Prelude.{◌≡◌};
ghost use Rattle.itch_records.specs.Watching.{change_of};

use std::fmt::{self, Display, Formatter};
use std::fs::Metadata;
use std::os::unix::fs::MetadataExt;

/// The identity of the file at a path, and its length.
#[derive(Clone, Copy, Debug, PartialEq, Eq)]
pub struct Seen {
    pub device: u64,
    pub inode: u64,
    pub length: u64,
}

impl Seen {
    /// Returns the values in these metadata.
    pub fn of(metadata: &Metadata) -> Seen {
        Seen {
            device: metadata.dev(),
            inode: metadata.ino(),
            length: metadata.len(),
        }
    }
}

/// A change of a file by another process.
#[derive(Clone, Copy, Debug, PartialEq, Eq)]
pub enum FileChange {
    Removed,
    Replaced,
    /// The file is shorter than the bytes written.
    CutShort,
    /// The file is longer than the bytes written.
    Appended,
}

impl Display for FileChange {
    fn fmt<W: fmt::Write>(&self, f: &mut Formatter<W>) -> fmt::Result {
        f.write_str(match self {
            FileChange::Removed => "removed while it was written",
            FileChange::Replaced => "replaced while it was written",
            FileChange::CutShort => "cut short while it was written",
            FileChange::Appended => "appended to by another process",
        })
    }
}

/// Returns the change of a file that is being written, if there is one. `seen` is the file that its path leads to now, if any.
pub fn change_of(written: Seen, seen: Option<Seen>) -> Option<FileChange>
    ensures { result ≡ change_of written seen }
{
    let Some(seen) = seen else {
        return Some(FileChange::Removed);
    };
    if seen.device != written.device || seen.inode != written.inode {
        return Some(FileChange::Replaced);
    }
    if seen.length < written.length {
        return Some(FileChange::CutShort);
    }
    if seen.length > written.length {
        return Some(FileChange::Appended);
    }
    None
}
