//! Drains, and `into_iter`.

ghost use Rattle.std.specs.Prelude.{◌≡◌, ◌<◌, ◌≤◌, true, pos, int_le, length, vec_capacity, IfOk, IfErr};
ghost use Rattle.std.specs.Borrow.{sem};
ghost use Rattle.std.specs.List.Sorted.{IsPermutation};
ghost use Rattle.rstar_base.specs.Points.{table};
ghost use Rattle.rstar_base.specs.Selections.{IsLawful};
ghost use Rattle.rstar.specs.Drains.{drained, drain_question, DrainsBy, IsDraining, LeavesRefused};
ghost use Rattle.rstar.specs.inside.Gathering.{Gathers};
ghost use Rattle.rstar.specs.IntoIters.{left_to_give, IsGiving};
ghost use Rattle.rstar.specs.Lists.{NoneSelected};
ghost use Rattle.rstar.specs.Trees.{elements_in, IsWholeTree};

use crate::algorithm::gathering::gather_below;
use crate::iterators::{DrainIterator, IntoIter};
use crate::node::ParentNode;
use crate::rtree::RTree;
use crate::visits::enters;
use rstar_base::algorithm::selection_functions::{
    SelectAllFunc, SelectInEnvelopeFuncIntersecting, SelectInEnvelopeFunction,
    SelectWithinDistanceFunction,
};
use rstar_base::{
    Distance, Envelope, Point, PointDistance, PointOf, RTreeNum, RTreeObject, RTreeParams,
    SelectionFunction,
};
use std::alloc::AllocError;

impl<T: RTreeObject, Params: RTreeParams> RTree<T, Params> {
    /// Removes all elements. Each `next` yields one, in some order.
    ///
    /// It takes memory once, for the path. A refusal leaves the tree as it was.
    ///
    /// ```rust
    /// fn one_out<T: RTreeObject>(tree: &mut RTree<T>) -> Result<Option<T>, AllocError>
    ///     requires { IsWholeTree T.Envelope.boxes T.object ⟦<DefaultParams as RTreeParams>⟧.MAX_SIZE tree.old }
    ///     ensures left { IfOk result (λ r. IsWithout (elements_in tree.old) r (elements_in tree.new)) }
    ///     ensures whole { IsWholeTree T.Envelope.boxes T.object ⟦<DefaultParams as RTreeParams>⟧.MAX_SIZE tree.new }
    /// {
    ///     match tree.drain() {
    ///         Ok(mut drain) => Ok(drain.next()),
    ///         Err(refused) => Err(refused),
    ///     }
    /// }
    /// ```
    /// *`crates/rstar_vectors/src/removal.rt`*
    pub fn drain(&mut self) -> Result<DrainIterator<'_, T, SelectAllFunc, Params>, AllocError>
        requires { IsWholeTree T.Envelope.boxes T.object Params.MAX_SIZE self.old }
        ensures* refused { sem 𝓛 (LeavesRefused T.row Params.row T.Envelope.row T.Envelope.Point.row
            T.Envelope.Point.Scalar.row T.Envelope.Point.Scalar.FromStrRadixErr.row self.entry result) }
        ensures same { IfOk result (λ it. (drained it ≡ self.old) × (it.tree.ghost_name ≡ self.entry.ghost_name)) }
        ensures asked { IfOk result (DrainsBy T.Envelope.boxes T.object
            ⟦<SelectAllFunc as SelectionFunction<T>>⟧.accepts ⟦<SelectAllFunc as SelectionFunction<T>>⟧.selects
            (λ t. true)) }
        ensures draining { IfOk result (IsDraining T.Envelope.boxes T.object Params.MAX_SIZE
            ⟦<SelectAllFunc as SelectionFunction<T>>⟧.accepts ⟦<SelectAllFunc as SelectionFunction<T>>⟧.selects) }
    {
        self.drain_with_selection_function(SelectAllFunc)
    }

    /// Removes the elements whose envelopes an envelope contains. Each `next` yields one, in some order.
    ///
    /// It takes memory once, for the path. A refusal leaves the tree as it was.
    pub fn drain_in_envelope(
        &mut self,
        envelope: T::Envelope,
    ) -> Result<DrainIterator<'_, T, SelectInEnvelopeFunction<T>, Params>, AllocError>
        requires { IsWholeTree T.Envelope.boxes T.object Params.MAX_SIZE self.old }
        ensures* refused { sem 𝓛 (LeavesRefused T.row Params.row T.Envelope.row T.Envelope.Point.row
            T.Envelope.Point.Scalar.row T.Envelope.Point.Scalar.FromStrRadixErr.row self.entry result) }
        ensures same { IfOk result (λ it. (drained it ≡ self.old) × (it.tree.ghost_name ≡ self.entry.ghost_name)) }
        ensures asked { IfOk result (DrainsBy T.Envelope.boxes T.object
            ⟦<SelectInEnvelopeFunction<T> as SelectionFunction<T>>⟧.accepts
            ⟦<SelectInEnvelopeFunction<T> as SelectionFunction<T>>⟧.selects
            (λ t. T.Envelope.boxes.contains envelope (T.object.box_of t))) }
        ensures draining { IfOk result (IsDraining T.Envelope.boxes T.object Params.MAX_SIZE
            ⟦<SelectInEnvelopeFunction<T> as SelectionFunction<T>>⟧.accepts
            ⟦<SelectInEnvelopeFunction<T> as SelectionFunction<T>>⟧.selects) }
    {
        self.drain_with_selection_function(SelectInEnvelopeFunction::new(envelope))
    }

    /// Removes the elements whose envelopes an envelope intersects. Touching is enough. Each `next` yields
    /// one, in some order.
    ///
    /// It takes memory once, for the path. A refusal leaves the tree as it was.
    pub fn drain_in_envelope_intersecting(
        &mut self,
        envelope: T::Envelope,
    ) -> Result<DrainIterator<'_, T, SelectInEnvelopeFuncIntersecting<T>, Params>, AllocError>
        requires { IsWholeTree T.Envelope.boxes T.object Params.MAX_SIZE self.old }
        ensures* refused { sem 𝓛 (LeavesRefused T.row Params.row T.Envelope.row T.Envelope.Point.row
            T.Envelope.Point.Scalar.row T.Envelope.Point.Scalar.FromStrRadixErr.row self.entry result) }
        ensures same { IfOk result (λ it. (drained it ≡ self.old) × (it.tree.ghost_name ≡ self.entry.ghost_name)) }
        ensures asked { IfOk result (DrainsBy T.Envelope.boxes T.object
            ⟦<SelectInEnvelopeFuncIntersecting<T> as SelectionFunction<T>>⟧.accepts
            ⟦<SelectInEnvelopeFuncIntersecting<T> as SelectionFunction<T>>⟧.selects
            (λ t. T.Envelope.boxes.intersects envelope (T.object.box_of t))) }
        ensures draining { IfOk result (IsDraining T.Envelope.boxes T.object Params.MAX_SIZE
            ⟦<SelectInEnvelopeFuncIntersecting<T> as SelectionFunction<T>>⟧.accepts
            ⟦<SelectInEnvelopeFuncIntersecting<T> as SelectionFunction<T>>⟧.selects) }
    {
        self.drain_with_selection_function(SelectInEnvelopeFuncIntersecting::new(envelope))
    }

    /// Removes the elements that a function selects. Each `next` yields one, in some order. With a function
    /// that is not lawful it may miss some.
    ///
    /// It takes memory once, for the path. A refusal leaves the tree as it was.
    #[tactic(auto, unfolding(crate::specs::Drains::IsDraining))]
    pub fn drain_with_selection_function<R: SelectionFunction<T>>(
        &mut self,
        func: R,
    ) -> Result<DrainIterator<'_, T, R, Params>, AllocError>
        requires { IsWholeTree T.Envelope.boxes T.object Params.MAX_SIZE self.old }
        ensures* refused { sem 𝓛 (LeavesRefused T.row Params.row T.Envelope.row T.Envelope.Point.row
            T.Envelope.Point.Scalar.row T.Envelope.Point.Scalar.FromStrRadixErr.row self.entry result) }
        ensures same { IfOk result (λ it. (drained it ≡ self.old) × (it.tree.ghost_name ≡ self.entry.ghost_name)) }
        ensures question { IfOk result (λ it. drain_question it ≡ func) }
        ensures draining { IfOk result (IsDraining T.Envelope.boxes T.object Params.MAX_SIZE R.accepts R.selects) }
    {
        let alloc = *self.root.children.allocator();
        let path = vec![in alloc; 0; self.levels.saturating_add(1)]?;
        Ok(DrainIterator {
            tree: self,
            func,
            path,
            rest: None,
        })
    }

    /// Moves elements that a function selects to the end of a list, until the list holds `most` elements or none is
    /// left. With a function that is not lawful it may miss some. It is one pass, and takes no memory.
    pub(crate) fn gather<R: SelectionFunction<T>>(
        &mut self,
        func: &R,
        most: usize,
        taken: &mut Vec<T>,
    )
        requires whole { IsWholeTree T.Envelope.boxes T.object Params.MAX_SIZE self.old }
        requires room { most ≤ vec_capacity taken.old }
        ensures moved { Gathers (R.selects func.now) most (elements_in self.old) taken.old.items
            (elements_in self.new) taken.new.items }
        ensures ended { IsLawful T.Envelope.boxes T.object (R.accepts func.now) (R.selects func.now)
            → length taken.new.items < most → NoneSelected (R.selects func.now) (elements_in self.new) }
        ensures whole { IsWholeTree T.Envelope.boxes T.object Params.MAX_SIZE self.new }
    {
        if !enters(&self.root, func) {
            return;
        }
        let before = taken.len();
        gather_below(&mut self.root, func, most, taken);
        self.size -= taken.len() - before;
        if self.root.children.is_empty() {
            self.levels = 0;
        }
    }

    /// Consumes the tree and yields all its elements, in some order.
    ///
    /// It takes memory once, for the path. A refusal hands the tree back.
    pub fn into_iter(self) -> Result<IntoIter<T>, RTree<T, Params>>
        requires { IsWholeTree T.Envelope.boxes T.object Params.MAX_SIZE self }
        ensures all { IfOk result (λ it. IsPermutation (elements_in self) (left_to_give it)) }
        ensures giving { IfOk result IsGiving }
        ensures handed_back { IfErr result (λ tree. tree ≡ self) }
    {
        let alloc = *self.root.children.allocator();
        let Ok(path) = Vec::with_capacity(alloc, self.levels) else {
            return Err(self);
        };
        let RTree { root, .. } = self;
        let ParentNode { children, .. } = root;
        Ok(IntoIter {
            nodes: children,
            path,
        })
    }
}

impl<T: PointDistance, Params: RTreeParams> RTree<T, Params> {
    /// Removes the elements within a squared distance of a point. Each `next` yields one, in some order.
    ///
    /// It takes memory once, for the path. A refusal leaves the tree as it was.
    pub fn drain_within_distance(
        &mut self,
        query_point: PointOf<T>,
        max_squared_radius: Distance<T>,
    ) -> Result<DrainIterator<'_, T, SelectWithinDistanceFunction<T>, Params>, AllocError>
        requires { IsWholeTree T.Envelope.boxes T.object Params.MAX_SIZE self.old }
        ensures* refused { sem 𝓛 (LeavesRefused T.row Params.row T.Envelope.row T.Envelope.Point.row
            T.Envelope.Point.Scalar.row T.Envelope.Point.Scalar.FromStrRadixErr.row self.entry result) }
        ensures same { IfOk result (λ it. (drained it ≡ self.old) × (it.tree.ghost_name ≡ self.entry.ghost_name)) }
        ensures asked { IfOk result (DrainsBy T.Envelope.boxes T.object
            ⟦<SelectWithinDistanceFunction<T> as SelectionFunction<T>>⟧.accepts
            ⟦<SelectWithinDistanceFunction<T> as SelectionFunction<T>>⟧.selects
            (λ t. int_le (pos (T.distances.distance_2 t
            (table T.Envelope.Point.DIMENSIONS (T.Envelope.Point.coord query_point))))
            (T.Envelope.Point.Scalar.value max_squared_radius))) }
        ensures draining { IfOk result (IsDraining T.Envelope.boxes T.object Params.MAX_SIZE
            ⟦<SelectWithinDistanceFunction<T> as SelectionFunction<T>>⟧.accepts
            ⟦<SelectWithinDistanceFunction<T> as SelectionFunction<T>>⟧.selects) }
    {
        self.drain_with_selection_function(SelectWithinDistanceFunction::new(
            query_point,
            max_squared_radius,
        ))
    }
}
