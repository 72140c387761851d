//! The first block of a slice.
ghost use Rattle.std.specs.Prelude.{◌≡◌, ◌≤◌, ◌++◌, length, take, IfSome, IfNone, MatchOption};
ghost use Rattle.itch_frame.specs.Blocks.{HasNoBlock, IsBlock, IsPayload, block};

use crate::splitter::needed;

// All but the longest blocks have at most this many bytes.
const SHORT: usize = 64;

/// Copies the block at the front of `bytes` to the front of `buf` and returns its length, if the block is complete and fits into `buf`.
/// Otherwise `buf` is unchanged.
#[inline(always)]
pub fn copy_first_block(bytes: &[u8], buf: &mut [u8]) -> Option<usize>
    ensures within { IfSome result (λ size. (size ≤ length bytes.now) × (size ≤ length buf.new)) }
    ensures block { IfSome result (λ size. IsBlock (take size buf.new)) }
    ensures bytes { IfSome result (λ size. take size buf.new ≡ take size bytes.now) }
    ensures none { IfNone result (buf.new ≡ buf.old) }
    ensures room { length buf.new ≡ length buf.old }
{
    let size = first_block(bytes)?;
    if size > buf.len() {
        return None;
    }
    copy_first(bytes, buf, size);
    Some(size)
}

/// Returns the payload of the block at the front of `bytes`, and the bytes after the block, if the block is complete.
#[inline(always)]
pub fn split_first_block(bytes: &[u8]) -> Option<(&[u8], &[u8])>
    ensures { MatchOption result (HasNoBlock bytes.now) (λ split. IsPayload split.0.now × (bytes.now ≡ block split.0.now ++ split.1.now)) }
{
    let size = first_block(bytes)?;
    Some((&bytes[2..size], &bytes[size..]))
}

// Returns the length of the block at the front of `bytes`, if the block is complete.
#[inline(always)]
fn first_block(bytes: &[u8]) -> Option<usize>
    ensures within { IfSome result (λ size. size ≤ length bytes.now) }
    ensures block { IfSome result (λ size. IsBlock (take size bytes.now)) }
    ensures none { IfNone result (HasNoBlock bytes.now) }
{
    if bytes.len() < 2 {
        return None;
    }
    let size = needed(bytes);
    if size > bytes.len() {
        return None;
    }
    Some(size)
}

// Copies the first bytes. For a short block it copies more bytes than needed, if they exist, since moving a fixed number of bytes is cheap.
#[inline(always)]
fn copy_first(from: &[u8], to: &mut [u8], size: usize)
    requires from { size ≤ length from.now }
    requires to { size ≤ length to.old }
    ensures bytes { take size to.new ≡ take size from.now }
    ensures room { length to.new ≡ length to.old }
{
    if size <= SHORT && from.len() >= SHORT && to.len() >= SHORT {
        to[..SHORT].copy_from_slice(&from[..SHORT]);
    } else {
        to[..size].copy_from_slice(&from[..size]);
    }
}
