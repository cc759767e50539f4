//! The memory of an insertion, taken before the first change.

ghost use Rattle.std.specs.Prelude.{◌≡◌, [], max, OnOk, vec_len};
ghost use Rattle.std.specs.List.{AllByRecursion};
ghost use Rattle.rstar.specs.inside.ParentBounds.{IsSpare};

use std::alloc::{AllocError, Global};

/// The memory of the insertions in a tree.
#[derive(Drop)]
pub(crate) struct Reserve<A> {
    // No parent has more children than this, which is at least `MAX_SIZE`.
    pub(crate) widest: usize,
    // Empty child lists, for the parents that an insertion makes.
    pub(crate) spares: Vec<Vec<A>>,
    // An empty list, in which a parent's children are put in order when there is one too many.
    pub(crate) overfull: Vec<A>,
}

impl<A: Drop> Reserve<A> {
    /// Nothing yet. It takes no memory.
    pub(crate) fn new(alloc: Global, widest: usize) -> Self
        ensures widest { result.widest ≡ widest }
        ensures none { result.spares.items ≡ [] }
        ensures none_over { result.overfull.items ≡ [] }
    {
        Reserve {
            widest,
            spares: Vec::new(alloc),
            overfull: Vec::new(alloc),
        }
    }
}

/// Adds spare lists up to this number, each with room for `widest` children.
pub(crate) fn top_up<A: Drop>(
    spares: &mut Vec<Vec<A>>,
    wanted: usize,
    widest: usize,
    alloc: Global,
) -> Result<(), AllocError>
    requires spares { AllByRecursion (IsSpare widest) spares.old.items }
    ensures spares { AllByRecursion (IsSpare widest) spares.new.items }
    ensures count { OnOk result (vec_len spares.new ≡ max (vec_len spares.old) wanted) }
{
    while spares.len() < wanted {
        let list = Vec::with_capacity(alloc, widest)?;
        spares.push(list)?;
    }
    Ok(())
}
