//! Node sizes, insertion strategies and refused insertions.

ghost use Rattle.std.specs.Prelude.{◌≡◌, false};
ghost use Rattle.rstar.specs.Insertions.{Inserts};
ghost use Rattle.rstar.specs.Trees.{IsWholeTree};

use crate::rtree::RTree;
pub use rstar_base::params::{DefaultParams, RTreeParams, verify_parameters};
use rstar_base::{Envelope, RTreeObject};

/// The cause of a refused insertion.
#[derive(Clone, Copy, Debug, PartialEq, Eq, Drop)]
pub enum InsertCause {
    /// The allocator refused memory.
    NoMemory = 1,
    /// `size` is the greatest `usize`, or the spare child lists of the insertion exceed a `usize`. The
    /// second takes a `REINSERTION_COUNT` of some 2^32, so with usual node sizes it does not happen.
    TooMany = 2,
}

/// A refused insertion. The tree has the elements, envelopes and size of before the call.
#[derive(Debug, Drop)]
pub struct InsertError<T> {
    /// The element, handed back.
    pub element: T,
    /// The cause.
    pub cause: InsertCause,
}

/// An insertion strategy.
pub trait InsertionStrategy {
    /// Inserts one element. Its envelope is not empty. Equal elements each count.
    ///
    /// All memory is taken before the first change. A refusal hands the element back and leaves the tree as
    /// it was. `InsertCause` says when each refusal comes.
    fn insert<T: RTreeObject, Params: RTreeParams>(
        tree: &mut RTree<T, Params>,
        t: T,
    ) -> Result<(), InsertError<T>>
        requires whole { IsWholeTree T.Envelope.boxes T.object Params.MAX_SIZE tree.old }
        requires element { T.Envelope.boxes.is_empty (T.object.box_of t) ≡ false }
        ensures { Inserts T.Envelope.boxes T.object Params.MIN_SIZE Params.MAX_SIZE Params.REINSERTION_COUNT
            t tree.old result tree.new };
}
