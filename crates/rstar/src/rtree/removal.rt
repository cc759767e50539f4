//! Removals.

ghost use Rattle.std.specs.Prelude.{◌≡◌, [], ◌∷◌, ◌+◌, true, false, None, IfSome, IfNone};
ghost use Rattle.std.specs.List.{list_any};
ghost use Rattle.std.specs.List.Sorted.{IsPermutation};
ghost use Rattle.rstar_base.specs.Points.{table};
ghost use Rattle.rstar_base.specs.Selections.{IsLawful};
ghost use Rattle.rstar.specs.inside.Earliest.{earliest};
ghost use Rattle.rstar.specs.Lists.{NoneSelected};
ghost use Rattle.rstar.specs.Nodes.{given_of};
ghost use Rattle.rstar.specs.inside.Taking.{Removes};
ghost use Rattle.rstar.specs.Trees.{root_of, size_of, elements_in, IsWholeTree};

use crate::algorithm::removal::earliest::take_earliest;
use crate::algorithm::removal::{Rest, take_below};
use crate::rtree::RTree;
use crate::visits::enters;
use rstar_base::algorithm::selection_functions::{SelectAtPointFunction, SelectEqualsFunction};
use rstar_base::{
    Envelope, EqualEnvelopes, Point, PointDistance, PointOf, RTreeObject, RTreeParams,
    SelectionFunction,
};

impl<T: RTreeObject, Params: RTreeParams> RTree<T, Params> {
    /// Removes one element that a function selects. With a function that is not lawful it may miss some.
    ///
    /// `None` comes, with the tree as it was, where it finds none. It visits the accepted parents until it
    /// finds an element. Envelopes above it are recomputed as far up as one changes, and parents without
    /// children are dropped. It takes no memory.
    pub fn remove_with_selection_function<R: SelectionFunction<T>>(&mut self, func: R) -> Option<T>
        requires { IsWholeTree T.Envelope.boxes T.object Params.MAX_SIZE self.old }
        ensures taken { IfSome result (λ x. IsPermutation (elements_in self.old) (x ∷ elements_in self.new)) }
        ensures counted { IfSome result (λ x. size_of self.old ≡ size_of self.new + 1) }
        ensures selected { IfSome result (λ x. R.selects func x ≡ true) }
        ensures none { IfNone result (IsLawful T.Envelope.boxes T.object (R.accepts func) (R.selects func)
            → NoneSelected (R.selects func) (elements_in self.old)) }
        ensures kept { IfNone result (self.new ≡ self.old) }
        ensures whole { IsWholeTree T.Envelope.boxes T.object Params.MAX_SIZE self.new }
    {
        self.take_next(&mut [], &mut None, &func)
    }

    /// Removes the next selected element from a place on: a number for each level, of the children to the right.
    ///
    /// A wrong place only begins further right or finds less. `rest` is that of the node at the last number;
    /// without it a drain only takes longer.
    #[tactic(auto, unfolding(crate::specs::Trees::IsWholeTree))]
    pub(crate) fn take_next<R: SelectionFunction<T>>(
        &mut self,
        path: &mut [usize],
        rest: &mut Option<Rest<T::Envelope>>,
        func: &R,
    ) -> Option<T>
        requires { IsWholeTree T.Envelope.boxes T.object Params.MAX_SIZE self.old }
        ensures { Removes T.Envelope.boxes T.object Params.MAX_SIZE (R.accepts func.now) (R.selects func.now)
            self.old path.old rest.old result self.new path.new rest.new }
    {
        if !enters(&self.root, func) {
            return None;
        }
        let taken = take_below(&mut self.root, path, rest, &mut false, func);
        if taken.is_some() {
            self.size -= 1;
            if self.root.children.is_empty() {
                self.levels = 0;
            }
        }
        taken
    }
}

impl<T: RTreeObject + Ord, Params: RTreeParams> RTree<T, Params> {
    /// Removes the earliest selected element by `Ord`, where there is one. It takes no memory.
    #[tactic(auto, unfolding(crate::specs::Trees::IsWholeTree))]
    pub(crate) fn take_earliest<R: SelectionFunction<T>>(&mut self, func: &R) -> Option<T>
        requires { IsWholeTree T.Envelope.boxes T.object Params.MAX_SIZE self.old }
        ensures removes { Removes T.Envelope.boxes T.object Params.MAX_SIZE (R.accepts func.now) (R.selects func.now)
            self.old [] None result self.new [] None }
        ensures first { result ≡ earliest T.cmp
            (given_of (R.accepts func.now) (R.selects func.now) (root_of self.old)) }
    {
        if !enters(&self.root, func) {
            return None;
        }
        let taken = take_earliest(&mut self.root, &mut false, func);
        if taken.is_some() {
            self.size -= 1;
            if self.root.children.is_empty() {
                self.levels = 0;
            }
        }
        taken
    }
}

impl<T: EqualEnvelopes, Params: RTreeParams> RTree<T, Params> {
    /// Whether an element equals this one.
    ///
    /// It visits the parents whose envelopes contain the element's until it finds one, and takes no memory.
    pub fn contains(&self, t: &T) -> bool
        requires { IsWholeTree T.Envelope.boxes T.object Params.MAX_SIZE self.now }
        ensures { result ≡ list_any (λ x. T.eq x t.now) (elements_in self.now) }
    {
        self.locate_first(&SelectEqualsFunction::new(t)).is_some()
    }

    /// Removes one element that equals this one.
    ///
    /// `None` comes, with the tree as it was, exactly where none does. It visits the parents whose envelopes
    /// contain the element's until it finds one, and takes no memory.
    ///
    /// ```rust
    /// match tree.remove(element) {
    ///     Some(_) => true,
    ///     None => false,
    /// }
    /// ```
    /// *`crates/rstar_uses/src/geofence.rt`*
    pub fn remove(&mut self, t: &T) -> Option<T>
        requires { IsWholeTree T.Envelope.boxes T.object Params.MAX_SIZE self.old }
        ensures taken { IfSome result (λ x. IsPermutation (elements_in self.old) (x ∷ elements_in self.new)) }
        ensures counted { IfSome result (λ x. size_of self.old ≡ size_of self.new + 1) }
        ensures equal { IfSome result (λ x. T.eq x t.now ≡ true) }
        ensures none { IfNone result (NoneSelected (λ x. T.eq x t.now) (elements_in self.old)) }
        ensures kept { IfNone result (self.new ≡ self.old) }
        ensures whole { IsWholeTree T.Envelope.boxes T.object Params.MAX_SIZE self.new }
    {
        self.remove_with_selection_function(SelectEqualsFunction::new(t))
    }
}

impl<T: PointDistance, Params: RTreeParams> RTree<T, Params> {
    /// Removes one element that contains a point.
    ///
    /// `None` comes, with the tree as it was, exactly where none does. It visits the parents whose envelopes
    /// contain the point until it finds one, and takes no memory.
    pub fn remove_at_point(&mut self, point: PointOf<T>) -> Option<T>
        requires { IsWholeTree T.Envelope.boxes T.object Params.MAX_SIZE self.old }
        ensures taken { IfSome result (λ x. IsPermutation (elements_in self.old) (x ∷ elements_in self.new)) }
        ensures counted { IfSome result (λ x. size_of self.old ≡ size_of self.new + 1) }
        ensures at_point { IfSome result (λ x. T.distances.contains_point x
            (table T.Envelope.Point.DIMENSIONS (T.Envelope.Point.coord point)) ≡ true) }
        ensures none { IfNone result (NoneSelected (λ x. T.distances.contains_point x
            (table T.Envelope.Point.DIMENSIONS (T.Envelope.Point.coord point))) (elements_in self.old)) }
        ensures kept { IfNone result (self.new ≡ self.old) }
        ensures whole { IsWholeTree T.Envelope.boxes T.object Params.MAX_SIZE self.new }
    {
        self.remove_with_selection_function(SelectAtPointFunction::new(point))
    }
}
