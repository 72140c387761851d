//! The answer to a client's login.
ghost use Rattle.std.specs.Prelude.{◌≡◌, option_map};
ghost use Rattle.std.specs.Option.{option_copied};
ghost use Rattle.itch_live.specs.SnapshotClients as clients;

use crate::encoded::EncodedSnapshot;
use std::alloc::Allocator;

/// The answer to a client's login, after its acceptance.
#[derive(Drop)]
pub(crate) enum SnapshotAnswer<A: Allocator> {
    Nothing,
    /// A complete snapshot: of the market before the message with this number.
    Whole {
        encoded: EncodedSnapshot<A>,
        next: u64,
    },
}

impl<A: Allocator> SnapshotAnswer<A> {
    pub(crate) fn bytes(&self) -> &[u8]
        ensures { result.now ≡ clients.bytes_of (clients.told_of self.now) }
    {
        match self {
            SnapshotAnswer::Nothing => &[],
            SnapshotAnswer::Whole { encoded, .. } => encoded.as_slice(),
        }
    }

    /// Returns the number of the next message at which the snapshot was encoded.
    pub(crate) fn snapshot(&self) -> Option<u64>
        ensures { result ≡ clients.snapshot_of self.now }
    {
        match self {
            SnapshotAnswer::Whole { next, .. } => Some(*next),
            SnapshotAnswer::Nothing => None,
        }
    }

    /// Returns the snapshot, if it has this number.
    pub(crate) fn encoded(&self, number: u64) -> Option<&EncodedSnapshot<A>>
        ensures { option_map (λ encoded. encoded.value.items) (option_copied result) ≡ clients.encoded_in (clients.snapshot_of self.now) (clients.told_of self.now) number }
    {
        match self {
            SnapshotAnswer::Whole { encoded, next } if *next == number => Some(encoded),
            _ => None,
        }
    }
}
