//! Snapshots of the market of a handle.
ghost use Rattle.std.specs.Prelude.{◌≡◌, ◌<◌, ◌^◌, ◌++◌, ℕ, length, IfSome, IfOk, IfErr};
ghost use Rattle.itch_market.specs.Partial.{only};
ghost use Rattle.itch_market.specs.Wanted.{has};
ghost use Rattle.itch_snapshot.specs.Bytes.{canon, closing};
ghost use Rattle.itch_snapshot.specs.Snapshot.{snap};
ghost use Rattle.itchsnap_c.specs.Objects.{held_market};
ghost use Rattle.itchsnap_c.specs.Snapshots.{is_listed, Closes, Copies, Puts, PutsHeld, Spells, Stores};

use crate::answers::Written;
use crate::codes::{NO_NUMBER, NO_ROOM, OUT_OF_MEMORY, TOO_MANY_MESSAGES, WRONG_HANDLE};
use crate::handle::Handle;
use itch_book::OrderBook;
use itch_codec::{MOST_MESSAGES, Seq};
use itch_frame::Counted;
use itch_market::{LocateSet, Market};
use itch_snapshot::{snapshot_len, write_partial, write_snapshot};
use std::alloc::Global;

/// Writes the canonical snapshot of a market to the front of `out`, closed with this number of the next message. If there is no room for
/// it, `out` is unchanged.
#[unsafe(no_mangle)]
pub extern "C" fn itchsnap_snapshot(
    alloc: Global,
    handle: &mut Handle,
    next: u64,
    out: &mut [u8],
) -> Written
    ensures put { PutsHeld (λ m. m) (held_market handle.old.kept.object) next out.old result out.new }
    ensures same { handle.new.kept.object ≡ handle.old.kept.object }
{
    let bytes = handle.look_up_by_price(alloc, Err(WRONG_HANDLE), |market| {
        whole_bytes(alloc, market, next)
    });
    put(&bytes, out)
}

/// Does the same for the market restricted to the locates of a list.
#[unsafe(no_mangle)]
pub extern "C" fn itchsnap_snapshot_only(
    alloc: Global,
    handle: &mut Handle,
    next: u64,
    locates: &[u16],
    out: &mut [u8],
) -> Written
    ensures put { PutsHeld (only (is_listed locates.now)) (held_market handle.old.kept.object) next out.old result out.new }
    ensures same { handle.new.kept.object ≡ handle.old.kept.object }
{
    let bytes = handle.look_up_by_price(alloc, Err(WRONG_HANDLE), |market| {
        partial_bytes(alloc, market, next, locates)
    });
    put(&bytes, out)
}

/// Writes the snapshot of a market.
pub(crate) fn put_whole<B: OrderBook>(
    alloc: Global,
    market: &Market<B>,
    next: u64,
    out: &mut [u8],
) -> Written
    ensures { Puts market.now market.now next out.old result out.new }
{
    put(&whole_bytes(alloc, market, next), out)
}

/// Writes the snapshot of a market restricted to the locates of a list.
pub(crate) fn put_partial<B: OrderBook<Alloc = Global>>(
    alloc: Global,
    market: &Market<B>,
    next: u64,
    locates: &[u16],
    out: &mut [u8],
) -> Written
    ensures { Puts market.now (only (is_listed locates.now) market.now) next out.old result out.new }
{
    put(&partial_bytes(alloc, market, next, locates), out)
}

// Returns the snapshot of a market, closed with this number, or the code for why there is none.
fn whole_bytes<B: OrderBook>(alloc: Global, market: &Market<B>, next: u64) -> Result<Vec<u8>, u32>
    ensures { Spells market.now market.now next result }
{
    let next = closing_number(market, next)?;
    let mut writer = Counted::new(Vec::new(alloc));
    write_snapshot(market, next, &mut writer).map_err(|_| OUT_OF_MEMORY)?;
    Ok(writer.into_inner())
}

// Returns the same for the market restricted to the locates of a list.
fn partial_bytes<B: OrderBook<Alloc = Global>>(
    alloc: Global,
    market: &Market<B>,
    next: u64,
    locates: &[u16],
) -> Result<Vec<u8>, u32>
    ensures { Spells market.now (only (is_listed locates.now) market.now) next result }
{
    let next = closing_number(market, next)?;
    let Some(set) = set_of(alloc, locates) else {
        return Err(OUT_OF_MEMORY);
    };
    cut_bytes(alloc, market, &set, next)
}

// Returns the same for the market restricted to a set.
fn cut_bytes<B: OrderBook<Alloc = Global>>(
    alloc: Global,
    market: &Market<B>,
    set: &LocateSet<Global>,
    next: Seq,
) -> Result<Vec<u8>, u32>
    requires { length (snap market.now) < 10 ^ 19 }
    ensures bytes { IfOk result (λ bytes. bytes.items ≡ canon (only (has set.now) market.now) ++ closing next) }
    ensures memory { IfErr result (λ code. code ≡ 48) }
{
    let mut writer = Counted::new(Vec::new(alloc));
    write_partial(market, set, next, &mut writer).map_err(|_| OUT_OF_MEMORY)?;
    Ok(writer.into_inner())
}

// Returns the number that closes the snapshot of a market, or the code for why there is none.
fn closing_number<B: OrderBook>(market: &Market<B>, next: u64) -> Result<Seq, u32>
    ensures { Closes market.now next result }
{
    let next = Seq::new(next).ok_or(NO_NUMBER)?;
    if snapshot_len(market) > u128::from(MOST_MESSAGES) {
        return Err(TOO_MANY_MESSAGES);
    }
    Ok(next)
}

/// Returns the set of the locates of a list.
pub(crate) fn set_of(alloc: Global, locates: &[u16]) -> Option<LocateSet<Global>>
    ensures { IfSome result (λ set. (locate : ℕ) → has set locate ≡ is_listed locates.now locate) }
{
    let mut set = LocateSet::new(alloc);
    for locate in locates {
        set.insert(*locate).ok()?;
    }
    Some(set)
}

/// Writes bytes or items to the front of `out`.
pub(crate) fn put<T: Copy>(items: &Result<Vec<T>, u32>, out: &mut [T]) -> Written
    ensures { Stores items.now out.old result out.new }
{
    match items {
        Ok(items) => copy(items.as_slice(), out),
        Err(code) => Written {
            len: 0,
            code: *code,
        },
    }
}

/// The same of items that are there.
pub(crate) fn copy<T: Copy>(items: &[T], out: &mut [T]) -> Written
    ensures { Copies items.now out.old result out.new }
{
    let len = items.len();
    if len > out.len() {
        return Written { len, code: NO_ROOM };
    }
    out[..len].copy_from_slice(items);
    Written { len, code: 0 }
}
