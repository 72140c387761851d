//! When a password file is read again.
ghost use Rattle.std.specs.Prelude.{◌≡◌};
ghost use Rattle.itch_sessions.specs.LoginFiles.{is_same_version, look_of};

use std::fs::Metadata;
use std::os::unix::fs::MetadataExt;

/// The identity of a file, its length, and the time of the last change to it or its attributes, in seconds and nanoseconds.
#[derive(Clone, Copy, Debug, PartialEq, Eq)]
pub struct Version {
    pub device: u64,
    pub inode: u64,
    pub length: u64,
    pub seconds: u64,
    pub nanoseconds: u64,
}

impl Version {
    /// Returns the version in these metadata.
    pub fn of(metadata: &Metadata) -> Version {
        Version {
            device: metadata.dev(),
            inode: metadata.ino(),
            length: metadata.len(),
            seconds: u64::try_from(metadata.ctime()).unwrap_or(0),
            nanoseconds: u64::try_from(metadata.ctime_nsec()).unwrap_or(0),
        }
    }
}

/// The last known state of a file.
#[derive(Clone, Copy, Debug, PartialEq, Eq)]
pub enum Sight {
    /// This version was read, whether or not its contents are valid.
    Read(Version),
    /// The file did not exist, or could not be read.
    Lost,
}

/// The action after a look at a file.
#[derive(Clone, Copy, Debug, PartialEq, Eq)]
pub enum Look {
    /// None: the file has not changed.
    Same,
    /// Read the file.
    Read(Version),
    /// The file no longer exists, which is reported once.
    Loses,
}

/// Returns the action for a file that has this version now, if it exists.
pub fn look_of(last: Sight, version: Option<Version>) -> Look
    ensures { result ≡ look_of last version }
{
    match (last, version) {
        (Sight::Lost, None) => Look::Same,
        (Sight::Read(_), None) => Look::Loses,
        (Sight::Lost, Some(version)) => Look::Read(version),
        (Sight::Read(read), Some(version)) => {
            if is_same_version(read, version) {
                return Look::Same;
            }
            Look::Read(version)
        }
    }
}

fn is_same_version(read: Version, version: Version) -> bool
    ensures { result ≡ is_same_version read version }
{
    read.device == version.device
        && read.inode == version.inode
        && read.length == version.length
        && read.seconds == version.seconds
        && read.nanoseconds == version.nanoseconds
}
