//! The reasons why an index is not used for a day file.
ghost use Rattle.std.specs.Prelude.{◌≡◌};
ghost use Rattle.itch_offsets.specs.Fits.{unfit_of};

use itch_checkpoints::Fingerprint;
use std::fmt;

/// The reason why an index is not used for a day file.
#[derive(Clone, Copy, Debug, PartialEq, Eq)]
pub enum IndexUnfit {
    /// It is not an index of a day file, or it was changed.
    Invalid,
    /// It covers messages beyond the end of the file.
    Beyond,
    /// The file has other bytes before a row, so they belong to another day.
    OtherDay,
}

impl fmt::Display for IndexUnfit {
    fn fmt<W: fmt::Write>(&self, f: &mut fmt::Formatter<W>) -> fmt::Result {
        f.write_str(match self {
            IndexUnfit::Invalid => "index: not of a day file",
            IndexUnfit::Beyond => "index: beyond the end of the file",
            IndexUnfit::OtherDay => "index: of another day",
        })
    }
}

/// Returns the reason why an index is not used for a day file, if there is one. `recorded` is the fingerprint of a row, and `found` that of
/// the file's bytes before the row, if the file is long enough.
pub fn why_unfit(recorded: Fingerprint, found: Option<Fingerprint>) -> Option<IndexUnfit>
    ensures { result ≡ unfit_of recorded found }
{
    match found {
        None => Some(IndexUnfit::Beyond),
        Some(found) if recorded != found => Some(IndexUnfit::OtherDay),
        Some(_) => None,
    }
}
