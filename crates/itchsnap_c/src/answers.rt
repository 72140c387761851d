//! The results for C: small structs, each with a code.
//!
//! A code is 0 if the call succeeded, and else the number of its refusal, as in `c/itchsnap.h`.

/// The result of a call.
#[repr(C)]
#[derive(Clone, Copy, Drop)]
pub struct Answer {
    /// The detail of the refusal, 0 if it has none: the offset of a bad byte, the expected length, the shares that remain, or the number of
    /// bytes of an unfinished block.
    pub detail: u64,
    pub code: u32,
}

/// A live order.
#[repr(C)]
#[derive(Clone, Copy, Drop)]
pub struct BookOrder {
    pub reference: u64,
    /// The price with four implied decimals.
    pub price: u32,
    pub shares: u32,
    pub locate: u16,
    /// True for an order to buy.
    pub buy: bool,
    /// True if the order came with an MPID.
    pub attributed: bool,
    /// The MPID, padded with spaces; zeros if there is none.
    pub mpid: [u8; 4],
    pub code: u32,
}

/// The total of a price level.
#[repr(C)]
#[derive(Clone, Copy, Drop)]
pub struct LevelTotal {
    /// The lower 64 bits of the sum of the shares.
    pub shares_low: u64,
    /// The upper 64 bits of the sum of the shares.
    pub shares_high: u64,
    /// The number of orders.
    pub orders: u64,
    pub code: u32,
}

/// A price.
#[repr(C)]
#[derive(Clone, Copy, Drop)]
pub struct Price {
    /// The price with four implied decimals.
    pub price: u32,
    pub code: u32,
}

/// A number.
#[repr(C)]
#[derive(Clone, Copy, Drop)]
pub struct Count {
    pub count: u64,
    pub code: u32,
}

/// The total of a price level, with its price.
#[repr(C)]
#[derive(Clone, Copy, Drop)]
pub struct PriceLevel {
    /// The lower 64 bits of the sum of the shares.
    pub shares_low: u64,
    /// The upper 64 bits of the sum of the shares.
    pub shares_high: u64,
    /// The number of orders.
    pub orders: u64,
    /// The price with four implied decimals.
    pub price: u32,
}

/// A stock of the directory.
#[repr(C)]
#[derive(Clone, Copy, Drop)]
pub struct Stock {
    /// Its name, padded with spaces.
    pub stock: [u8; 8],
    pub code: u32,
}

/// The result of applying blocks.
#[repr(C)]
#[derive(Clone, Copy, Drop)]
pub struct Applied {
    /// The number of messages that were applied.
    pub count: u64,
    /// As in `Answer`, for the block after them.
    pub detail: u64,
    pub code: u32,
}

/// The result of writing into a caller's memory.
#[repr(C)]
#[derive(Clone, Copy, Drop)]
pub struct Written {
    /// The number of bytes or items, if they were written or there is no room for them.
    pub len: usize,
    pub code: u32,
}

/// The result of reading a snapshot.
#[repr(C)]
#[derive(Clone, Copy, Drop)]
pub struct Loaded {
    /// The number of the first message that the snapshot does not contain.
    pub next: u64,
    /// The place of the message that is refused, or for which memory ran out, counted from 1; 0 if there is none.
    pub place: u64,
    /// As in `Answer`.
    pub detail: u64,
    pub code: u32,
}

/// The result of a joiner's call.
#[repr(C)]
#[derive(Clone, Copy, Drop)]
pub struct Joined {
    /// The number of the next message, of the message that is refused, or of the place in the snapshot; or the greatest number of waiting
    /// messages, if it is reached.
    pub number: u64,
    /// As in `Answer`, for the cause.
    pub detail: u64,
    pub code: u32,
    /// The code of the reason why a message is refused; 0 if none is.
    pub cause: u32,
}

/// The action of a session after a packet.
#[repr(C)]
#[derive(Clone, Copy, Drop)]
pub struct Act {
    /// The number of the message, or of the first one that will come.
    pub number: u64,
    /// The code of a rejection; otherwise as in `Answer`, or the type byte of a packet that is out of place.
    pub detail: u64,
    pub code: u32,
}

/// The credentials of a client, or those that a server accepts and the session that it serves. Each text is padded with spaces.
#[repr(C)]
#[derive(Clone, Copy, Drop)]
pub struct SessionLogin {
    pub username: [u8; 6],
    pub password: [u8; 10],
    pub session: [u8; 10],
}

/// A login request, without the length in front.
#[repr(C)]
#[derive(Clone, Copy, Drop)]
pub struct LoginPacket {
    pub bytes: [u8; 47],
    pub code: u32,
}

/// The acceptance of a login, without the length in front.
#[repr(C)]
#[derive(Clone, Copy, Drop)]
pub struct AcceptancePacket {
    pub bytes: [u8; 31],
    pub code: u32,
}

/// The result of a call over a day file.
#[repr(C)]
#[derive(Clone, Copy, Drop)]
pub struct Outcome {
    /// The number of messages that were taken. The place of the one that is refused, counted from 1, is one more.
    pub count: u64,
    /// The length of the snapshot in bytes, if it was written or there is no room for it.
    pub len: usize,
    /// As in `Answer`.
    pub detail: u64,
    pub code: u32,
}

/// The result of comparing two day files.
#[repr(C)]
#[derive(Clone, Copy, Drop)]
pub struct Comparison {
    /// 0 if the markets are the same, otherwise the place of the first message, counted from 1, in which their snapshots differ.
    pub place: u64,
    /// The number of messages that were taken of the file that is refused.
    pub count: u64,
    /// As in `Answer`.
    pub detail: u64,
    pub code: u32,
    /// The file that is refused: 1 or 2, and 0 if none is.
    pub file: u32,
}
