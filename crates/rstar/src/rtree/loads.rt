//! Bulk loads.

ghost use Rattle.std.specs.Prelude.{◌≢◌, ◌≤◌, [], IfOk};
ghost use Rattle.std.specs.List.Sorted.{IsPermutation};
ghost use Rattle.rstar.specs.Lists.{NoneEmpty};
ghost use Rattle.rstar.specs.Loaded.{IsLoaded};
ghost use Rattle.rstar.specs.Trees.{root_of, elements_in, IsWholeTree};

use crate::algorithm::bulk_load::depth::load_depth;
use crate::algorithm::bulk_load::parts::load_node;
use crate::rtree::RTree;
use rstar_base::{DefaultParams, Envelope, Point, RTreeObject, RTreeParams};
use std::alloc::AllocError;

impl<T: RTreeObject> RTree<T> {
    /// A tree of these elements, by bulk load with the default node sizes (Lee and Lee 2003).
    ///
    /// No element has an empty envelope, and the points have at least two axes; `verify_parameters` tests
    /// that. Its parents usually overlap less than those that insertions make. The cost is that of
    /// `bulk_load_sequential`. A refusal of memory drops the elements.
    ///
    /// ```rust
    /// pub fn points_loaded(alloc: Global, more: [i64; 2]) -> Result<RTree<[i64; 2]>, AllocError>
    ///     ensures { IfOk result (IsWholeTree ⟦<AABB<[i64; 2]> as Envelope>⟧.boxes ⟦<[i64; 2] as RTreeObject>⟧.object
    ///         ⟦<DefaultParams as RTreeParams>⟧.MAX_SIZE) }
    /// {
    ///     RTree::bulk_load(Vec::from_array(alloc, [[0, 0], [5, 5], more])?)
    /// }
    /// ```
    /// *`crates/rstar_vectors/src/loads.rt`*
    pub fn bulk_load(elements: Vec<T>) -> Result<Self, AllocError>
        requires dimensions { 2 ≤ T.Envelope.Point.DIMENSIONS }
        requires elements { NoneEmpty T.Envelope.boxes.is_empty T.object.box_of elements.items }
        ensures same { IfOk result (λ tree. IsPermutation elements.items (elements_in tree)) }
        ensures whole { IfOk result
            (IsWholeTree T.Envelope.boxes T.object ⟦<DefaultParams as RTreeParams>⟧.MAX_SIZE) }
        ensures loaded { elements.items ≢ [] → IfOk result (λ tree. IsLoaded T.Envelope.boxes T.object
            ⟦<DefaultParams as RTreeParams>⟧.MAX_SIZE T.Envelope.Point.DIMENSIONS (root_of tree)) }
    {
        RTree::bulk_load_with_params(elements)
    }
}

impl<T: RTreeObject, Params: RTreeParams> RTree<T, Params> {
    /// The same with chosen node sizes.
    pub fn bulk_load_with_params(mut elements: Vec<T>) -> Result<Self, AllocError>
        requires dimensions { 2 ≤ T.Envelope.Point.DIMENSIONS }
        requires elements { NoneEmpty T.Envelope.boxes.is_empty T.object.box_of elements.items }
        ensures same { IfOk result (λ tree. IsPermutation elements.items (elements_in tree)) }
        ensures whole { IfOk result (IsWholeTree T.Envelope.boxes T.object Params.MAX_SIZE) }
        ensures loaded { elements.items ≢ [] → IfOk result (λ tree. IsLoaded T.Envelope.boxes T.object
            Params.MAX_SIZE T.Envelope.Point.DIMENSIONS (root_of tree)) }
    {
        let alloc = *elements.allocator();
        if elements.is_empty() {
            return Ok(RTree::default(alloc));
        }
        let size = elements.len();
        let levels = load_depth::<T, Params>(size);
        let mut widest = Params::MAX_SIZE;
        let root = load_node::<_, Params>(&mut elements, size, levels, &mut widest)?;
        Ok(RTree::from_root(alloc, root, size, levels, widest))
    }
}
