//! What C holds.

ghost use Rattle.std.specs.Prelude.{◌≡◌, [], ◌∷◌, length, IfSome, IfNone};
ghost use Rattle.rstar_c.specs.Owned.{count_of_made};

use crate::held::Held;
use crate::parts::Parts;
use crate::store::Store;
use std::alloc::Global;
use std::mem;

/// A handle: nothing, which is all bytes zero, or the address of a store.
#[repr(C)]
pub struct Index {
    is_made: bool,
    held: Held,
    ghost one: { length held.value ≡ count_of_made is_made },
}

impl Index {
    pub(crate) fn none(alloc: Global) -> Index
        ensures { result.held.value ≡ [] }
    {
        Index {
            is_made: false,
            held: Held::none(alloc),
        }
    }

    pub(crate) fn of(store: Box<Store>) -> Index
        ensures { result.held.value ≡ store.value ∷ [] }
    {
        Index {
            is_made: true,
            held: Held::of(Parts::of(store)),
        }
    }

    pub(crate) fn into_box(self) -> Option<Box<Store>>
        ensures some { IfSome result (λ b. self.held.value ≡ b.value ∷ []) }
        ensures none { IfNone result (self.held.value ≡ []) }
    {
        let Index { is_made, held } = self;
        if is_made {
            Some(held.into_parts().into_box())
        } else {
            None
        }
    }
}

impl Drop for Index {
    fn drop(self) {
        drop(self.into_box());
    }
}

/// The store that a handle holds, if it holds one; it holds none then.
pub(crate) fn taken(alloc: Global, index: &mut Index) -> Option<Box<Store>>
    ensures some { IfSome result (λ store. index.old.held.value ≡ store.value ∷ []) }
    ensures none { IfNone result (index.old.held.value ≡ []) }
    ensures left { index.new.held.value ≡ [] }
{
    mem::replace(index, Index::none(alloc)).into_box()
}
