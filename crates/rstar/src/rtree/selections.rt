//! Selections and look-ups.

ghost use Rattle.std.specs.Prelude.{◌≡◌, ◌≤◌, true, pos, int_le, IsOk, IfOk, filter};
ghost use Rattle.rstar_base.specs.Points.{table};
ghost use Rattle.rstar_base.specs.Selections.{IsLawful};
ghost use Rattle.rstar.specs.Heights.{height_of};
ghost use Rattle.rstar.specs.Selections.{IsPartOf, to_come, question_of, IsMade, IsWalking};
ghost use Rattle.rstar.specs.Trees.{root_of, elements_in, IsWholeTree};
ghost use Rattle.rstar.specs.Visits.{IsOneOf};

use crate::iterators::{
    LocateAllAtPoint, LocateInEnvelope, LocateInEnvelopeIntersecting, LocateWithinDistanceIterator,
    RTreeIterator, SelectionIterator,
};
use crate::rtree::RTree;
use crate::visits::{enters, first_below};
use rstar_base::algorithm::selection_functions::{
    SelectAllFunc, SelectAtPointFunction, SelectInEnvelopeFuncIntersecting,
    SelectInEnvelopeFunction, SelectWithinDistanceFunction,
};
use rstar_base::{
    Distance, Envelope, Point, PointDistance, PointOf, RTreeNum, RTreeObject, RTreeParams,
    SelectionFunction,
};
use std::alloc::AllocError;

impl<T: RTreeObject, Params: RTreeParams> RTree<T, Params> {
    /// All elements, in some order.
    ///
    /// It takes memory, and may be refused, only where the tree has more than 13 levels of parents.
    pub fn iter(&self) -> Result<RTreeIterator<'_, T>, AllocError>
        requires { IsWholeTree T.Envelope.boxes T.object Params.MAX_SIZE self.now }
        ensures all { IfOk result (λ it. to_come ⟦<SelectAllFunc as SelectionFunction<T>>⟧.accepts
            ⟦<SelectAllFunc as SelectionFunction<T>>⟧.selects it ≡ elements_in self.now) }
        ensures made { IfOk result (λ it. IsMade ⟦<SelectAllFunc as SelectionFunction<T>>⟧.accepts (root_of self.now)
            (λ e. true) it) }
        ensures walking { IfOk result (λ it. IsWalking ⟦<SelectAllFunc as SelectionFunction<T>>⟧.accepts it) }
        ensures near { height_of (root_of self.now) ≤ 13 → IsOk result }
    {
        self.locate_with_selection_function(SelectAllFunc)
    }

    /// The elements whose envelopes an envelope contains, in some order. Borders belong to it.
    ///
    /// It visits the parents whose envelopes intersect it. It takes memory, and may be refused, only where
    /// the tree has more than 13 levels of parents.
    ///
    /// ```rust
    /// let Ok(mut found) = tree.locate_in_envelope(envelope) else {
    ///     return Err(AllocError);
    /// };
    /// let mut count = 0usize;
    /// let mut sum = 0u64;
    /// while let Some(element) = found.next() {
    ///     count = count.saturating_add(1);
    ///     sum = sum.saturating_add(element.data);
    /// }
    /// Ok((count, sum))
    /// ```
    /// *`crates/rstar_uses/src/geofence.rt`*
    pub fn locate_in_envelope(
        &self,
        envelope: T::Envelope,
    ) -> Result<LocateInEnvelope<'_, T>, AllocError>
        requires { IsWholeTree T.Envelope.boxes T.object Params.MAX_SIZE self.now }
        ensures all { IfOk result (λ it. to_come ⟦<SelectInEnvelopeFunction<T> as SelectionFunction<T>>⟧.accepts
            ⟦<SelectInEnvelopeFunction<T> as SelectionFunction<T>>⟧.selects it
            ≡ filter (λ t. T.Envelope.boxes.contains envelope (T.object.box_of t)) (elements_in self.now)) }
        ensures made { IfOk result (λ it. IsMade ⟦<SelectInEnvelopeFunction<T> as SelectionFunction<T>>⟧.accepts
            (root_of self.now) (λ e. T.Envelope.boxes.intersects envelope e) it) }
        ensures walking { IfOk result
            (λ it. IsWalking ⟦<SelectInEnvelopeFunction<T> as SelectionFunction<T>>⟧.accepts it) }
        ensures near { height_of (root_of self.now) ≤ 13 → IsOk result }
    {
        self.locate_with_selection_function(SelectInEnvelopeFunction::new(envelope))
    }

    /// The elements whose envelopes an envelope intersects, in some order. Touching is enough.
    ///
    /// It visits the parents whose envelopes intersect it. It takes memory, and may be refused, only where
    /// the tree has more than 13 levels of parents.
    pub fn locate_in_envelope_intersecting(
        &self,
        envelope: T::Envelope,
    ) -> Result<LocateInEnvelopeIntersecting<'_, T>, AllocError>
        requires { IsWholeTree T.Envelope.boxes T.object Params.MAX_SIZE self.now }
        ensures all { IfOk result (λ it. to_come ⟦<SelectInEnvelopeFuncIntersecting<T> as SelectionFunction<T>>⟧.accepts
            ⟦<SelectInEnvelopeFuncIntersecting<T> as SelectionFunction<T>>⟧.selects it
            ≡ filter (λ t. T.Envelope.boxes.intersects envelope (T.object.box_of t)) (elements_in self.now)) }
        ensures made { IfOk result (λ it. IsMade ⟦<SelectInEnvelopeFuncIntersecting<T> as SelectionFunction<T>>⟧.accepts
            (root_of self.now) (λ e. T.Envelope.boxes.intersects envelope e) it) }
        ensures walking { IfOk result
            (λ it. IsWalking ⟦<SelectInEnvelopeFuncIntersecting<T> as SelectionFunction<T>>⟧.accepts it) }
        ensures near { height_of (root_of self.now) ≤ 13 → IsOk result }
    {
        self.locate_with_selection_function(SelectInEnvelopeFuncIntersecting::new(envelope))
    }

    /// The elements that a function selects, in some order. With a function that is not lawful it may miss some.
    ///
    /// It visits the parents that the function accepts. It takes memory, and may be refused, only where the
    /// tree has more than 13 levels of parents.
    #[tactic(auto, unfolding(crate::specs::Trees::IsWholeTree))]
    pub fn locate_with_selection_function<Func: SelectionFunction<T>>(
        &self,
        func: Func,
    ) -> Result<SelectionIterator<'_, T, Func>, AllocError>
        requires { IsWholeTree T.Envelope.boxes T.object Params.MAX_SIZE self.now }
        ensures all { IfOk result (λ it. IsLawful T.Envelope.boxes T.object (Func.accepts func) (Func.selects func)
            → to_come Func.accepts Func.selects it ≡ filter (Func.selects func) (elements_in self.now)) }
        ensures part { IfOk result (λ it. IsPartOf (to_come Func.accepts Func.selects it)
            (filter (Func.selects func) (elements_in self.now))) }
        ensures question { IfOk result (λ it. question_of it ≡ func) }
        ensures made { IfOk result (λ it. IsMade Func.accepts (root_of self.now) (Func.accepts func) it) }
        ensures walking { IfOk result (λ it. IsWalking Func.accepts it) }
        ensures near { height_of (root_of self.now) ≤ 13 → IsOk result }
    {
        SelectionIterator::new(&self.root, self.levels, func)
    }

    /// An element that a lawful function selects.
    #[tactic(auto, unfolding(crate::specs::Trees::IsWholeTree))]
    pub(super) fn locate_first<Func: SelectionFunction<T>>(&self, func: &Func) -> Option<&T>
        requires { IsWholeTree T.Envelope.boxes T.object Params.MAX_SIZE self.now }
        ensures { IsLawful T.Envelope.boxes T.object (Func.accepts func.now) (Func.selects func.now)
            → IsOneOf (filter (Func.selects func.now) (elements_in self.now)) result }
    {
        if !enters(&self.root, func) {
            return None;
        }
        first_below(self.root.children.as_slice(), func)
    }
}

impl<T: PointDistance, Params: RTreeParams> RTree<T, Params> {
    /// An element that contains a point.
    ///
    /// `None` comes exactly where none does. It visits the parents whose envelopes contain the point until
    /// it finds one, and takes no memory.
    ///
    /// ```rust
    /// let found = tree.locate_at_point(point).is_some();
    /// let _refused = tree.insert(more).is_err();
    /// let count = tree.size();
    /// let_go(tree);
    /// (found, count)
    /// ```
    /// *`crates/rstar_vectors/src/loads.rt`*
    pub fn locate_at_point(&self, point: PointOf<T>) -> Option<&T>
        requires { IsWholeTree T.Envelope.boxes T.object Params.MAX_SIZE self.now }
        ensures { IsOneOf (filter (λ t. T.distances.contains_point t
            (table T.Envelope.Point.DIMENSIONS (T.Envelope.Point.coord point))) (elements_in self.now)) result }
    {
        self.locate_at_point_int(point)
    }

    /// The same as `locate_at_point`. In rstar the two traverse in different ways.
    pub fn locate_at_point_int(&self, point: PointOf<T>) -> Option<&T>
        requires { IsWholeTree T.Envelope.boxes T.object Params.MAX_SIZE self.now }
        ensures { IsOneOf (filter (λ t. T.distances.contains_point t
            (table T.Envelope.Point.DIMENSIONS (T.Envelope.Point.coord point))) (elements_in self.now)) result }
    {
        self.locate_first(&SelectAtPointFunction::new(point))
    }

    /// The elements that contain a point, in some order.
    ///
    /// It visits the parents whose envelopes contain the point. It takes memory, and may be refused, only
    /// where the tree has more than 13 levels of parents.
    pub fn locate_all_at_point(
        &self,
        point: PointOf<T>,
    ) -> Result<LocateAllAtPoint<'_, T>, AllocError>
        requires { IsWholeTree T.Envelope.boxes T.object Params.MAX_SIZE self.now }
        ensures all { IfOk result (λ it. to_come ⟦<SelectAtPointFunction<T> as SelectionFunction<T>>⟧.accepts
            ⟦<SelectAtPointFunction<T> as SelectionFunction<T>>⟧.selects it ≡ filter (λ t. T.distances.contains_point t
            (table T.Envelope.Point.DIMENSIONS (T.Envelope.Point.coord point))) (elements_in self.now)) }
        ensures made { IfOk result (λ it. IsMade ⟦<SelectAtPointFunction<T> as SelectionFunction<T>>⟧.accepts
            (root_of self.now) (λ e. T.Envelope.boxes.contains_point e
            (table T.Envelope.Point.DIMENSIONS (T.Envelope.Point.coord point))) it) }
        ensures walking { IfOk result
            (λ it. IsWalking ⟦<SelectAtPointFunction<T> as SelectionFunction<T>>⟧.accepts it) }
        ensures near { height_of (root_of self.now) ≤ 13 → IsOk result }
    {
        self.locate_with_selection_function(SelectAtPointFunction::new(point))
    }

    /// The elements within a squared distance of a point, in some order.
    ///
    /// It visits the parents whose envelopes are within that distance. It takes memory, and may be refused,
    /// only where the tree has more than 13 levels of parents.
    pub fn locate_within_distance(
        &self,
        query_point: PointOf<T>,
        max_squared_radius: Distance<T>,
    ) -> Result<LocateWithinDistanceIterator<'_, T>, AllocError>
        requires { IsWholeTree T.Envelope.boxes T.object Params.MAX_SIZE self.now }
        ensures all { IfOk result (λ it. to_come ⟦<SelectWithinDistanceFunction<T> as SelectionFunction<T>>⟧.accepts
            ⟦<SelectWithinDistanceFunction<T> as SelectionFunction<T>>⟧.selects it
            ≡ filter (λ t. int_le (pos (T.distances.distance_2 t
            (table T.Envelope.Point.DIMENSIONS (T.Envelope.Point.coord query_point))))
            (T.Envelope.Point.Scalar.value max_squared_radius)) (elements_in self.now)) }
        ensures made { IfOk result (λ it. IsMade ⟦<SelectWithinDistanceFunction<T> as SelectionFunction<T>>⟧.accepts
            (root_of self.now) (λ e. int_le (pos (T.Envelope.boxes.distance_2 e
            (table T.Envelope.Point.DIMENSIONS (T.Envelope.Point.coord query_point))))
            (T.Envelope.Point.Scalar.value max_squared_radius)) it) }
        ensures walking { IfOk result
            (λ it. IsWalking ⟦<SelectWithinDistanceFunction<T> as SelectionFunction<T>>⟧.accepts it) }
        ensures near { height_of (root_of self.now) ≤ 13 → IsOk result }
    {
        self.locate_with_selection_function(SelectWithinDistanceFunction::new(
            query_point,
            max_squared_radius,
        ))
    }
}
