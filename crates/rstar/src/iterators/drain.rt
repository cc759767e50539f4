//! Iterators that remove elements from a tree.

ghost use Rattle.std.specs.Prelude.{◌≡◌};
ghost use Rattle.std.specs.Iterator.{item_count};
ghost use Rattle.rstar.specs.Drains.{left_in_tree, IsDraining, TakesNext};

use crate::algorithm::removal::Rest;
use crate::rtree::RTree;
use rstar_base::{DefaultParams, Envelope, RTreeObject, RTreeParams, SelectionFunction};

/// A drain: each `next` removes a selected element and yields it. They come in some order.
///
/// With a lawful selection function it removes all selected elements, and never another one. After each
/// `next` the tree is whole. Dropping or forgetting the drain changes nothing more. `next` takes no memory:
/// the path was reserved before. `Path` is the list of that path, which users leave out.
///
/// A `next` merges the children of each parent on its path, up to the first whose envelope stays. So a drain of
/// n parents below one root, of k elements each, merges at most some k * n²/2 envelopes.
pub struct DrainIterator<
    'a,
    T: RTreeObject,
    R: SelectionFunction<T>,
    Params: RTreeParams = DefaultParams,
    Path: Drop = Vec<usize>,
> {
    pub(crate) tree: &'a mut RTree<T, Params>,
    pub(crate) func: R,
    pub(crate) path: Path,
    // What is kept of the node that the last number of the path stands in. It is an `Option`, since with an envelope as
    // a plain field a caller's facts hold the envelope's parts too, and its proofs are no longer found.
    pub(crate) rest: Option<Rest<T::Envelope>>,
}

impl<'a, T: RTreeObject, R: SelectionFunction<T>, Params: RTreeParams, Path: Drop> Drop
    for DrainIterator<'a, T, R, Params, Path> {
    // The tree is left as the last `next` left it.
    fn drop(self)
        ensures { self.exit.0.now ≡ self.entry.tree.now }
    {
        let DrainIterator {
            tree: _,
            func: _,
            path: _,
            rest: _,
        } = self;
    }
}

impl<'a, T: RTreeObject, R: SelectionFunction<T>, Params: RTreeParams> Iterator
    for DrainIterator<'a, T, R, Params> {
    type Item = T;

    ghost can_next = { IsDraining T.Envelope.boxes T.object Params.MAX_SIZE R.accepts R.selects };

    ghost next_gives = { λ s r t. TakesNext T.Envelope.boxes T.object Params.MAX_SIZE R.accepts R.selects s r t
        × (t.tree.ghost_name ≡ s.tree.ghost_name) };

    ghost remaining = { item_count left_in_tree };

    #[tactic(auto, unfolding(crate::specs::Drains::IsDraining))]
    fn next(&mut self) -> Option<T> {
        self.tree
            .take_next(&mut self.path, &mut self.rest, &self.func)
    }
}
