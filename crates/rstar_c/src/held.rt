//! The address of a box, as C holds it.
ghost use Rattle.std.specs.Prelude.{◌≡◌, List, [], ◌∷◌, length};
ghost use Rattle.std.specs.contracts.impls.GlobalAllocator.TheImpl.{ghosts};
ghost use Rattle.rstar_c.specs.Owned.{owned_at};
ghost use Rattle.rstar_c.specs.declared.store.Store.{Store};
ghost use Rattle.rstar_c.specs.contracts.store.Store.{the_row as store_row};

use crate::parts::Parts;
use crate::store::Store;
use std::alloc::Global;
use std::marker::Model;

#[repr(C)]
#[derive(Drop)]
pub struct Held {
    at: *mut u8,
    alloc: Global,
    pub ghost value: { List Store },
}

impl Model for Held {
    ghost also_owns = { λ h. owned_at (ghosts.dealloc_token h.alloc) store_row h.at h.value };
}

impl Held {
    pub(crate) fn none(alloc: Global) -> Held
        ensures { result.value ≡ [] }
    {
        Held {
            at: std::ptr::null_mut(),
            alloc,
        }
    }

    pub(crate) fn of(parts: Parts<Store, Global>) -> Held
        ensures { result.value ≡ parts.value ∷ [] }
    {
        let Parts { ptr, alloc } = parts;
        Held {
            at: ptr.cast::<u8>(),
            alloc,
        }
    }

    pub(crate) fn into_parts(self) -> Parts<Store, Global>
        requires { length self.value ≡ 1 }
        ensures { self.value ≡ result.value ∷ [] }
    {
        let Held { at, alloc } = self;
        Parts {
            ptr: at.cast::<Store>(),
            alloc,
        }
    }
}
