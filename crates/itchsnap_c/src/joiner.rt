//! Joiners in C's handles: they join a snapshot and the live feed into one market.
ghost use Rattle.std.specs.Prelude.{◌≡◌};
ghost use Rattle.itchsnap_c.specs.Codes.{wrong};
ghost use Rattle.itchsnap_c.specs.Objects.{OnHandle, AtJoiner};
ghost use Rattle.itchsnap_c.specs.Joiners.{FillsAll, FillsListed, Delivers, TakesSnapshot, Restarts, Resumes, wrong_joined, held_joiner, next_in, waiting_in};

use crate::answers::{Answer, Count, Joined};
use crate::codes::{DONE, NO_MEMORY, NOT_JOINED, TAKEN, WRONG, WRONG_HANDLE, counted, no_count};
use crate::handle::Handle;
use crate::join_codes::{WRONG_JOINED, live_answer, resumed_answer, snap_answer};
use crate::object::Object;
use crate::snapshots::set_of;
use itch_join::Joiner;
use itch_market::LocateSet;
use std::alloc::Global;

/// Puts a new joiner, with room for `cap` waiting messages, into an empty handle.
#[unsafe(no_mangle)]
pub extern "C" fn itchsnap_joiner_new(alloc: Global, handle: &mut Handle, cap: usize) -> Answer
    ensures { FillsAll cap handle.old.kept.object result handle.new.kept.object }
{
    let joiner = Joiner::only(alloc, cap, LocateSet::all(alloc));
    handle.fill(alloc, Object::Joiner(joiner))
}

/// Does the same for the locates of a list: messages at other locates are decoded and counted, and change nothing else.
#[unsafe(no_mangle)]
pub extern "C" fn itchsnap_joiner_new_only(
    alloc: Global,
    handle: &mut Handle,
    cap: usize,
    locates: &[u16],
) -> Answer
    ensures { FillsListed cap locates.now handle.old.kept.object result handle.new.kept.object }
{
    if handle.is_live() {
        return TAKEN;
    }
    let Some(set) = set_of(alloc, locates) else {
        return NO_MEMORY;
    };
    handle.fill(alloc, Object::Joiner(Joiner::only(alloc, cap, set)))
}

/// Takes the message with this number of the live feed.
#[unsafe(no_mangle)]
pub extern "C" fn itchsnap_joiner_live(
    alloc: Global,
    handle: &mut Handle,
    number: u64,
    payload: &[u8],
) -> Joined
    ensures { OnHandle wrong_joined (AtJoiner wrong_joined (Delivers number payload.now)) handle.old.kept.object result handle.new.kept.object }
{
    handle.with_joiner(alloc, WRONG_JOINED, |joiner| {
        live_answer(&joiner.live(number, payload))
    })
}

/// Takes a message of the snapshot. Messages must come in order, End of Snapshot last.
#[unsafe(no_mangle)]
pub extern "C" fn itchsnap_joiner_snapshot(
    alloc: Global,
    handle: &mut Handle,
    payload: &[u8],
) -> Joined
    ensures { OnHandle wrong_joined (AtJoiner wrong_joined (TakesSnapshot payload.now)) handle.old.kept.object result handle.new.kept.object }
{
    handle.with_joiner(alloc, WRONG_JOINED, |joiner| {
        snap_answer(&joiner.snapshot(payload))
    })
}

/// Drops an unfinished or broken snapshot, and keeps waiting messages. Once joined it changes nothing.
#[unsafe(no_mangle)]
pub extern "C" fn itchsnap_joiner_restart(alloc: Global, handle: &mut Handle) -> Answer
    ensures { OnHandle wrong (AtJoiner wrong Restarts) handle.old.kept.object result handle.new.kept.object }
{
    handle.with_joiner(alloc, WRONG, |joiner| {
        joiner.restart();
        DONE
    })
}

/// Applies waiting messages, up to the first missing number. Use it after memory ran out.
#[unsafe(no_mangle)]
pub extern "C" fn itchsnap_joiner_resume(alloc: Global, handle: &mut Handle) -> Joined
    ensures { OnHandle wrong_joined (AtJoiner wrong_joined Resumes) handle.old.kept.object result handle.new.kept.object }
{
    handle.with_joiner(alloc, WRONG_JOINED, |joiner| {
        resumed_answer(&joiner.resume())
    })
}

/// Returns the number of the next message of the feed, once joined.
#[unsafe(no_mangle)]
pub extern "C" fn itchsnap_joiner_next(alloc: Global, handle: &mut Handle) -> Count
    ensures next { result ≡ next_in (held_joiner handle.old.kept.object) }
    ensures same { handle.new.kept.object ≡ handle.old.kept.object }
{
    handle.with_joiner(
        alloc,
        no_count(WRONG_HANDLE),
        |joiner| match joiner.next() {
            Some(next) => counted(next),
            None => no_count(NOT_JOINED),
        },
    )
}

/// Returns the number of waiting messages.
#[unsafe(no_mangle)]
pub extern "C" fn itchsnap_joiner_waiting(alloc: Global, handle: &mut Handle) -> Count
    ensures waiting { result ≡ waiting_in (held_joiner handle.old.kept.object) }
    ensures same { handle.new.kept.object ≡ handle.old.kept.object }
{
    handle.with_joiner(alloc, no_count(WRONG_HANDLE), |joiner| {
        counted(joiner.waiting() as u64)
    })
}
