//! The limit of the snapshots in use: those that are still being sent to a client.
ghost use Rattle.std.specs.Prelude.{◌≡◌, max};
ghost use Rattle.itch_clients.specs.Rooms.{limit_of};

/// The default limit in bytes if no snapshot is long: 256 MiB.
const USUAL: u64 = 1 << 28;

/// The default limit is at least this many times the longest snapshot.
const TIMES: u64 = 4;

/// The given limit, if there is one, and the length of the longest snapshot so far.
#[derive(Clone, Copy, Debug)]
pub struct SnapshotRoom {
    named: Option<u64>,
    longest: u64,
}

impl SnapshotRoom {
    /// Creates one before the first snapshot.
    pub fn new(named: Option<u64>) -> SnapshotRoom
        ensures named { result.named ≡ named }
        ensures longest { result.longest ≡ 0 }
    {
        SnapshotRoom { named, longest: 0 }
    }

    /// Returns the limit in bytes of all snapshots in use, if the next one has at most `most` bytes.
    pub fn limit(&mut self, most: u64) -> u64
        ensures answer { result ≡ limit_of self.old.named (max self.old.longest most) }
        ensures longest { self.new.longest ≡ max self.old.longest most }
        ensures named { self.new.named ≡ self.old.named }
    {
        self.longest = self.longest.max(most);
        limit_of(self.named, self.longest)
    }
}

/// Returns the limit in bytes of all snapshots in use: the given one, or else 256 MiB, or four times the longest snapshot if that is more.
pub fn limit_of(named: Option<u64>, longest: u64) -> u64
    ensures { result ≡ limit_of named longest }
{
    match named {
        Some(bytes) => bytes,
        None => longest.saturating_mul(TIMES).max(USUAL),
    }
}
