//! Visits: calls of a function at each selected element.

ghost use Rattle.std.specs.Prelude.{filter};
ghost use Rattle.rstar_base.specs.Points.{table};
ghost use Rattle.rstar_base.specs.Selections.{IsLawful};
ghost use Rattle.rstar.specs.Trees.{elements_in, HasSameOutline, IsWholeTree};
ghost use Rattle.rstar.specs.Visits.{IsVisit, IsVisitWithin, IsWritten, IsWrittenWithin, KeepsBoxes, marked_by};

use crate::rtree::RTree;
use crate::visits::{select_nodes, select_nodes_mut};
use rstar_base::algorithm::selection_functions::{
    SelectAtPointFunction, SelectInEnvelopeFuncIntersecting, SelectInEnvelopeFunction,
};
use rstar_base::{
    Envelope, Point, PointDistance, PointOf, RTreeNum, RTreeObject, RTreeParams, SelectionFunction,
};
use std::ops::ControlFlow;

impl<T: RTreeObject, Params: RTreeParams> RTree<T, Params> {
    /// Calls a visitor at each element inside an envelope, until it breaks. It returns the break and takes no memory.
    pub fn locate_in_envelope_int<'a, V: FnMut(&'a T) -> ControlFlow<B>, B: Drop>(
        &'a self,
        envelope: T::Envelope,
        visitor: V,
    ) -> ControlFlow<B>
        requires callable { (state : V) (x : _) → V.pre state x }
        requires whole { IsWholeTree T.Envelope.boxes T.object Params.MAX_SIZE self.now }
        ensures { IsVisit (λ t. t.now) V.step visitor
            (filter (λ t. T.Envelope.boxes.contains envelope (T.object.box_of t)) (elements_in self.now)) result }
    {
        self.locate_with_selection_function_int(SelectInEnvelopeFunction::new(envelope), visitor)
    }

    /// Calls a visitor at each element that an envelope intersects, until it breaks. It returns the break
    /// and takes no memory.
    pub fn locate_in_envelope_intersecting_int<'a, V: FnMut(&'a T) -> ControlFlow<B>, B: Drop>(
        &'a self,
        envelope: T::Envelope,
        visitor: V,
    ) -> ControlFlow<B>
        requires callable { (state : V) (x : _) → V.pre state x }
        requires whole { IsWholeTree T.Envelope.boxes T.object Params.MAX_SIZE self.now }
        ensures { IsVisit (λ t. t.now) V.step visitor
            (filter (λ t. T.Envelope.boxes.intersects envelope (T.object.box_of t)) (elements_in self.now)) result }
    {
        self.locate_with_selection_function_int(
            SelectInEnvelopeFuncIntersecting::new(envelope),
            visitor,
        )
    }

    /// Calls a visitor at each selected element, until it breaks. It returns the break and takes no memory.
    /// With a function that is not lawful it may miss some.
    #[tactic(auto, unfolding(crate::specs::Trees::IsWholeTree))]
    pub fn locate_with_selection_function_int<
        'a,
        F: SelectionFunction<T>,
        V: FnMut(&'a T) -> ControlFlow<B>,
        B: Drop,
    >(&'a self, func: F, mut visitor: V) -> ControlFlow<B>
        requires callable { (state : V) (x : _) → V.pre state x }
        requires whole { IsWholeTree T.Envelope.boxes T.object Params.MAX_SIZE self.now }
        ensures { IsVisitWithin (λ t. t.now) V.step
            (IsLawful T.Envelope.boxes T.object (F.accepts func) (F.selects func))
            visitor (filter (F.selects func) (elements_in self.now)) result }
    {
        select_nodes(&self.root, &func, &mut visitor)
    }

    /// As `locate_in_envelope_int`, to write. The visitor must keep the envelope of the element.
    pub fn locate_in_envelope_int_mut<V: FnMut(&mut T) -> ControlFlow<B>, B: Drop>(
        &mut self,
        envelope: T::Envelope,
        visitor: V,
    ) -> ControlFlow<B>
        requires callable { (state : V) (x : _) → V.pre state x }
        requires keeps { KeepsBoxes T.object V.step }
        requires whole { IsWholeTree T.Envelope.boxes T.object Params.MAX_SIZE self.old }
        ensures written { IsWritten V.step visitor
            (marked_by (λ t. T.Envelope.boxes.contains envelope (T.object.box_of t)) (elements_in self.old))
            result (elements_in self.new) }
        ensures outline { HasSameOutline self.old self.new }
        ensures whole { IsWholeTree T.Envelope.boxes T.object Params.MAX_SIZE self.new }
    {
        let func = SelectInEnvelopeFunction::new(envelope);
        self.locate_with_selection_function_int_mut(func, visitor)
    }

    /// As `locate_in_envelope_intersecting_int`, to write. The visitor must keep the envelope of the element.
    ///
    /// ```rust
    /// let _went_on: ControlFlow<()> = tree.locate_in_envelope_intersecting_int_mut(
    ///     area,
    ///     |one: &mut GeomWithData<R, u64>| {
    ///         one.data = 0;
    ///         ControlFlow::Continue(())
    ///     },
    /// );
    /// ```
    /// *`crates/rstar_vectors/src/visits.rt`*
    pub fn locate_in_envelope_intersecting_int_mut<V: FnMut(&mut T) -> ControlFlow<B>, B: Drop>(
        &mut self,
        envelope: T::Envelope,
        visitor: V,
    ) -> ControlFlow<B>
        requires callable { (state : V) (x : _) → V.pre state x }
        requires keeps { KeepsBoxes T.object V.step }
        requires whole { IsWholeTree T.Envelope.boxes T.object Params.MAX_SIZE self.old }
        ensures written { IsWritten V.step visitor
            (marked_by (λ t. T.Envelope.boxes.intersects envelope (T.object.box_of t)) (elements_in self.old))
            result (elements_in self.new) }
        ensures outline { HasSameOutline self.old self.new }
        ensures whole { IsWholeTree T.Envelope.boxes T.object Params.MAX_SIZE self.new }
    {
        let func = SelectInEnvelopeFuncIntersecting::new(envelope);
        self.locate_with_selection_function_int_mut(func, visitor)
    }

    /// As `locate_with_selection_function_int`, to write. The visitor must keep the envelope of the element.
    pub fn locate_with_selection_function_int_mut<
        F: SelectionFunction<T>,
        V: FnMut(&mut T) -> ControlFlow<B>,
        B: Drop,
    >(&mut self, func: F, mut visitor: V) -> ControlFlow<B>
        requires callable { (state : V) (x : _) → V.pre state x }
        requires keeps { KeepsBoxes T.object V.step }
        requires whole { IsWholeTree T.Envelope.boxes T.object Params.MAX_SIZE self.old }
        ensures written { IsWrittenWithin V.step (IsLawful T.Envelope.boxes T.object (F.accepts func) (F.selects func))
            visitor (F.selects func) (elements_in self.old) result (elements_in self.new) }
        ensures outline { HasSameOutline self.old self.new }
        ensures whole { IsWholeTree T.Envelope.boxes T.object Params.MAX_SIZE self.new }
    {
        select_nodes_mut(&mut self.root, &func, &mut visitor)
    }
}

impl<T: PointDistance, Params: RTreeParams> RTree<T, Params> {
    /// Calls a visitor at each element that contains a point, until it breaks. It returns the break and
    /// takes no memory.
    pub fn locate_all_at_point_int<'a, V: FnMut(&'a T) -> ControlFlow<B>, B: Drop>(
        &'a self,
        point: PointOf<T>,
        visitor: V,
    ) -> ControlFlow<B>
        requires callable { (state : V) (x : _) → V.pre state x }
        requires whole { IsWholeTree T.Envelope.boxes T.object Params.MAX_SIZE self.now }
        ensures { IsVisit (λ t. t.now) V.step visitor (filter (λ t. T.distances.contains_point t
            (table T.Envelope.Point.DIMENSIONS (T.Envelope.Point.coord point))) (elements_in self.now)) result }
    {
        self.locate_with_selection_function_int(SelectAtPointFunction::new(point), visitor)
    }

    /// As `locate_all_at_point_int`, to write. The visitor must keep the envelope of the element.
    pub fn locate_all_at_point_int_mut<V: FnMut(&mut T) -> ControlFlow<B>, B: Drop>(
        &mut self,
        point: PointOf<T>,
        visitor: V,
    ) -> ControlFlow<B>
        requires callable { (state : V) (x : _) → V.pre state x }
        requires keeps { KeepsBoxes T.object V.step }
        requires whole { IsWholeTree T.Envelope.boxes T.object Params.MAX_SIZE self.old }
        ensures written { IsWritten V.step visitor (marked_by (λ t. T.distances.contains_point t
            (table T.Envelope.Point.DIMENSIONS (T.Envelope.Point.coord point))) (elements_in self.old))
            result (elements_in self.new) }
        ensures outline { HasSameOutline self.old self.new }
        ensures whole { IsWholeTree T.Envelope.boxes T.object Params.MAX_SIZE self.new }
    {
        self.locate_with_selection_function_int_mut(SelectAtPointFunction::new(point), visitor)
    }
}
