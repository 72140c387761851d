//! The reasons why a market refuses a message.
ghost use Rattle.std.specs.Prelude.{◌≡◌};
ghost use Rattle.itch_market.specs.declared.refusal.Refusal.TheVariants.{OutOfMemory};

use std::alloc::AllocError;
use thiserror::Error;

/// The reason why a market refuses a message. A refused message does not change the market.
#[derive(Clone, Copy, Debug, PartialEq, Eq, Error)]
pub enum Refusal {
    /// The locate is not in the directory.
    #[error("unknown locate")]
    UnknownLocate,
    /// The directory has another stock at the locate.
    #[error("stock mismatch")]
    StockMismatch,
    /// The order has no shares.
    #[error("zero shares")]
    ZeroShares,
    /// A live order already has the new order's reference.
    #[error("duplicate reference")]
    DuplicateRef,
    /// No live order has the reference.
    #[error("unknown reference")]
    UnknownRef,
    /// The live order with the reference has another locate.
    #[error("locate mismatch")]
    LocateMismatch,
    /// More shares than the order has left, which is `remain`.
    #[error("too many shares, {remain} remain")]
    TooManyShares { remain: u32 },
    /// End of Snapshot does not belong in a feed.
    #[error("unexpected end")]
    UnexpectedEnd,
    /// An allocation failed.
    #[error("out of memory")]
    OutOfMemory,
}

impl From<AllocError> for Refusal {
    ghost from_gives = { λ _ why. why ≡ OutOfMemory };

    fn from(_error: AllocError) -> Refusal {
        Refusal::OutOfMemory
    }
}
