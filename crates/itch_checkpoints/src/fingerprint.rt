//! Fingerprints, which distinguish the messages before a position in a day file from those of another day.
ghost use Rattle.std.specs.Prelude.{◌≡◌, ◌++◌, ◌≤◌, ℕ, List, length, IfSome};
ghost use Rattle.itch_checkpoints.specs.Fingerprints.{digits_of, unfit_of};
ghost use Rattle.sha2.specs.Hashers.{Holds256};

use sha2::{Digest, Sha256};
use std::alloc::Global;
use std::fmt;
use std::io::{self, Read, Seek, SeekFrom};

/// The maximum number of bytes from the beginning of a day file in a fingerprint.
pub(crate) const MOST_FIRST: usize = 65_536;

/// The maximum number of bytes right before its position in a fingerprint.
pub(crate) const MOST_LAST: usize = 256;

/// A fingerprint of the bytes of a day file before a position: of the first ones, and of those right before the position. Each part is
/// sixteen hexadecimal digits of a SHA-256 digest.
#[derive(Clone, Copy, Debug, PartialEq, Eq)]
pub struct Fingerprint {
    pub first: [u8; 16],
    pub last: [u8; 16],
}

impl Fingerprint {
    /// Returns the fingerprint of the first bytes, and of the last bytes, which are given in two parts.
    pub fn of(first: &[u8], last: &[u8], rest: &[u8]) -> Fingerprint
        ensures { result ≡ record { first = digits_of first.now; last = digits_of (last.now ++ rest.now) } }
    {
        Fingerprint {
            first: digits_of(first, b""),
            last: digits_of(last, rest),
        }
    }

    /// Returns the fingerprint with these digits, if each part has sixteen.
    pub fn read(first: &str, last: &str) -> Option<Fingerprint>
        ensures { IfSome result (λ f. (f.first ≡ first.now) × (f.last ≡ last.now)) }
    {
        Some(Fingerprint {
            first: <[u8; 16]>::try_from(first.as_bytes()).ok()?,
            last: <[u8; 16]>::try_from(last.as_bytes()).ok()?,
        })
    }
}

// Returns the first hexadecimal digits of the digest of these bytes, which are given in two parts.
fn digits_of(first: &[u8], rest: &[u8]) -> [u8; 16]
    ensures { result ≡ digits_of (first.now ++ rest.now) }
{
    let mut hasher = Sha256::new();
    hasher.update(first);
    hasher.update(rest);
    first_digits(hasher)
}

/// Returns the first hexadecimal digits of the digest of the bytes that a hasher holds.
pub fn first_digits(hasher: Sha256) -> [u8; 16]
    ensures { (bytes : List ℕ) → Holds256 hasher bytes → result ≡ digits_of bytes }
{
    let digest = hasher.finalize();
    let mut digits = [0; 16];
    hex::encode_to_slice(&digest[..8], &mut digits).unwrap();
    digits
}

/// Returns the fingerprint of the bytes of a file before an offset. The file's position afterwards is that offset.
pub fn fingerprint_before<F: Read + Seek>(
    alloc: Global,
    file: &mut F,
    offset: u64,
) -> io::Result<Fingerprint> {
    let most = usize::try_from(offset).unwrap_or(usize::MAX);
    let mut first = vec![in alloc; 0; most.min(MOST_FIRST)]?;
    file.seek(SeekFrom::Start(0))?;
    file.read_exact(&mut first)?;
    let mut last = [0; MOST_LAST];
    let last = &mut last[..most.min(MOST_LAST)];
    file.seek(SeekFrom::Start(offset - last.len() as u64))?;
    file.read_exact(last)?;
    Ok(Fingerprint::of(&first, last, b""))
}

/// The reason why the nearest checkpoint to a point of the day is not used.
#[derive(Clone, Copy, Debug, PartialEq, Eq)]
pub enum Unfit {
    /// Its snapshot contains only some locates, and others are requested.
    Partial,
    /// It is beyond the end of the feed.
    Beyond,
    /// The feed has other bytes before it, so they belong to another day.
    OtherDay,
}

impl fmt::Display for Unfit {
    fn fmt<W: fmt::Write>(&self, f: &mut fmt::Formatter<W>) -> fmt::Result {
        f.write_str(match self {
            Unfit::Partial => "checkpoint: of some locates only",
            Unfit::Beyond => "checkpoint: beyond the end of the feed",
            Unfit::OtherDay => "checkpoint: of another day",
        })
    }
}

/// Returns the reason why a feed cannot be read from a checkpoint on, if there is one. `recorded` is the fingerprint in the index of the
/// bytes before the checkpoint, if the index contains it, and `found` is the fingerprint of the feed's bytes there, if the feed is long
/// enough.
pub fn why_unfit(recorded: Option<Fingerprint>, found: Option<Fingerprint>) -> Option<Unfit>
    ensures { result ≡ unfit_of recorded found }
{
    let Some(found) = found else {
        return Some(Unfit::Beyond);
    };
    match recorded {
        Some(recorded) if recorded != found => Some(Unfit::OtherDay),
        _ => None,
    }
}
