//! An object to which C has a pointer.
ghost use Rattle.std.specs.Prelude.{◌≡◌, IsSome, Some, None, Option};
ghost use Rattle.std.specs.Coded.{codes};
ghost use Rattle.std.specs.FinMap as map;
ghost use Rattle.itchsnap_c.specs.declared.object.Object.{Object};
ghost use Rattle.itchsnap_c.specs.Owned.{kept_owns};

use crate::loose::Loose;
use crate::object::Object;
use std::alloc::Global;
use std::marker::Model;

/// The block of an object, or none: one pointer, which is null if there is none.
#[repr(C)]
#[derive(Drop)]
pub struct Kept {
    at: *mut u8,
    pub ghost object: { Option Object } by { Prim.hlevel (codes, map.code) },
}

impl Model for Kept {
    ghost also_owns = { λ k. kept_owns k.at k.object };
}

/// Returns no object.
pub(crate) fn empty() -> Kept
    ensures { result.object ≡ None }
{
    Kept {
        at: std::ptr::null_mut(),
    }
}

/// Returns the block of an object, as a pointer whose type C does not see.
pub(crate) fn seal(loose: Loose<Object, Global>) -> Kept
    ensures { result.object ≡ Some loose.value }
{
    let Loose { at, alloc: _ } = loose;
    Kept { at: at as *mut u8 }
}

/// Returns the block of an object, as a typed pointer again.
pub(crate) fn unseal(alloc: Global, kept: Kept) -> Loose<Object, Global>
    requires { IsSome kept.object }
    ensures { kept.object ≡ Some result.value }
{
    let Kept { at } = kept;
    Loose {
        at: at as *mut Object,
        alloc,
    }
}
