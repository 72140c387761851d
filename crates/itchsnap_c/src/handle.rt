//! Handles of objects for C.
ghost use Rattle.std.specs.Prelude.{◌≡◌, IsNone, IsSome, Some, None, true, false, MatchOption};
ghost use Rattle.itchsnap_c.specs.Objects.{Fills};

use crate::answers::Answer;
use crate::codes::{DONE, NO_MEMORY, TAKEN};
use crate::kept::{Kept, empty, seal, unseal};
use crate::loose::Loose;
use crate::object::{HandleBook, Object};
use itch_join::Joiner;
use itch_market::Market;
use itch_soup::{ClientSession, ServerSession};
use std::alloc::Global;
use std::mem::replace;

/// A handle of an object, or an empty one: all zeros mean empty.
#[repr(C)]
#[derive(Drop)]
pub struct Handle {
    kept: Kept,
    live: bool,
    pub ghost held: { live ≡ true → IsSome kept.object },
    pub ghost none: { live ≡ false → IsNone kept.object },
}

impl Handle {
    ghost use Rattle.std.specs.Prelude.{◌≡◌, IsSome, Some, None, true, false, MatchOption};
    ghost use Rattle.std.specs.Fn.{FnOnceReturnsAt, FnOnceReturnsAtMut};
    ghost use Rattle.itchsnap_c.specs.Objects.{Fills, OnHandle, AtJoiner, AtClient, AtServer, held_market};

    /// Returns whether there is an object.
    pub(crate) fn is_live(&self) -> bool
        ensures held { result ≡ true → IsSome self.now.kept.object }
        ensures none { result ≡ false → self.now.kept.object ≡ None }
    {
        self.live
    }

    // Takes the object out, if there is one.
    fn take(&mut self, alloc: Global) -> Option<Box<Object>>
        ensures taken { MatchOption result (self.old.kept.object ≡ None) (λ object. self.old.kept.object ≡ Some object.value) }
        ensures empty { self.new.kept.object ≡ None }
    {
        if !self.live {
            return None;
        }
        self.live = false;
        Some(unseal(alloc, replace(&mut self.kept, empty())).into_box())
    }

    /// Puts an object in, without freeing an earlier one.
    pub(crate) fn put(&mut self, object: Box<Object>)
        ensures { self.new.kept.object ≡ Some object.value }
    {
        self.kept = seal(Loose::of(object));
        self.live = true;
    }

    /// Puts an object into an empty handle.
    pub(crate) fn fill(&mut self, alloc: Global, object: Object) -> Answer
        ensures { Fills self.old.kept.object object result self.new.kept.object }
    {
        if self.live {
            return TAKEN;
        }
        let Ok(object) = Box::new(alloc, object) else {
            return NO_MEMORY;
        };
        self.put(object);
        DONE
    }

    /// Calls a function with the object; if there is none, the answer is `wrong`.
    pub(crate) fn with<R: Copy, F: FnOnce(&mut Object) -> R>(
        &mut self,
        alloc: Global,
        wrong: R,
        call: F,
    ) -> R
        requires { F.IsAlwaysCallable call }
        ensures { OnHandle wrong (FnOnceReturnsAtMut F.FnOnce call) self.old.kept.object result self.new.kept.object }
    {
        let Some(mut object) = self.take(alloc) else {
            return wrong;
        };
        let answer = call(&mut object);
        self.put(object);
        answer
    }

    /// Calls a function with the joiner; if there is none, the answer is `wrong`.
    pub(crate) fn with_joiner<R: Copy, F: FnOnce(&mut Joiner<HandleBook>) -> R>(
        &mut self,
        alloc: Global,
        wrong: R,
        call: F,
    ) -> R
        requires { F.IsAlwaysCallable call }
        ensures { OnHandle wrong (AtJoiner wrong (FnOnceReturnsAtMut F.FnOnce call)) self.old.kept.object result self.new.kept.object }
    {
        self.with(alloc, wrong, |object| object.at_joiner(wrong, call))
    }

    /// Does the same with a client's session.
    pub(crate) fn with_client<R: Copy, F: FnOnce(&mut ClientSession) -> R>(
        &mut self,
        alloc: Global,
        wrong: R,
        call: F,
    ) -> R
        requires { F.IsAlwaysCallable call }
        ensures { OnHandle wrong (AtClient wrong (FnOnceReturnsAtMut F.FnOnce call)) self.old.kept.object result self.new.kept.object }
    {
        self.with(alloc, wrong, |object| object.at_client(wrong, call))
    }

    /// Does the same with a server's session.
    pub(crate) fn with_server<R: Copy, F: FnOnce(&mut ServerSession) -> R>(
        &mut self,
        alloc: Global,
        wrong: R,
        call: F,
    ) -> R
        requires { F.IsAlwaysCallable call }
        ensures { OnHandle wrong (AtServer wrong (FnOnceReturnsAtMut F.FnOnce call)) self.old.kept.object result self.new.kept.object }
    {
        self.with(alloc, wrong, |object| object.at_server(wrong, call))
    }

    /// Calls a function with the market; if there is none, the answer is `wrong`.
    pub(crate) fn look_up<R: Drop, F: FnOnce(&Market<HandleBook>) -> R>(
        &mut self,
        alloc: Global,
        wrong: R,
        call: F,
    ) -> R
        requires { F.IsAlwaysCallable call }
        ensures answer { MatchOption (held_market self.old.kept.object) (result ≡ wrong) (λ market. FnOnceReturnsAt F.FnOnce call market result) }
        ensures same { self.new.kept.object ≡ self.old.kept.object }
    {
        let Some(object) = self.take(alloc) else {
            return wrong;
        };
        let answer = object.market().map_or(wrong, call);
        self.put(object);
        answer
    }

    /// Does the same for a look-up by price, for which it prepares the market's book first.
    pub(crate) fn look_up_by_price<R: Drop, F: FnOnce(&Market<HandleBook>) -> R>(
        &mut self,
        alloc: Global,
        wrong: R,
        call: F,
    ) -> R
        requires { F.IsAlwaysCallable call }
        ensures answer { MatchOption (held_market self.old.kept.object) (result ≡ wrong) (λ market. FnOnceReturnsAt F.FnOnce call market result) }
        ensures same { self.new.kept.object ≡ self.old.kept.object }
    {
        self.settle(alloc);
        self.look_up(alloc, wrong, call)
    }

    // Prepares the market's book for look-ups by price, if there is one. Nothing changes.
    fn settle(&mut self, alloc: Global)
        ensures { self.new.kept.object ≡ self.old.kept.object }
    {
        if let Some(mut object) = self.take(alloc) {
            object.settle();
            self.put(object);
        }
    }
}

/// Frees the object in a handle, if there is one. The handle is then empty.
#[unsafe(no_mangle)]
pub extern "C" fn itchsnap_free(alloc: Global, handle: &mut Handle)
    ensures { handle.new.kept.object ≡ None }
{
    let _object = handle.take(alloc);
}
