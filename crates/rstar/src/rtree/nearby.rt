//! Selections by the distance from an envelope.

ghost use Rattle.std.specs.Prelude.{◌≡◌, ◌≤◌, pos, int_le, IsOk, IfOk, filter};
ghost use Rattle.rstar.specs.Heights.{height_of};
ghost use Rattle.rstar.specs.Selections.{to_come, IsMade, IsWalking};
ghost use Rattle.rstar.specs.Trees.{root_of, elements_in, IsWholeTree};

use crate::iterators::LocateWithinDistanceOfEnvelope;
use crate::rtree::RTree;
use rstar_base::algorithm::envelope_selection::SelectWithinDistanceOfEnvelope;
use rstar_base::{
    Distance, Envelope, EnvelopeDistance, Point, RTreeNum, RTreeObject, RTreeParams,
    SelectionFunction,
};
use std::alloc::AllocError;

impl<T: RTreeObject, Params: RTreeParams> RTree<T, Params>
where
    T::Envelope: EnvelopeDistance,
{
    /// The elements at most a distance away from an envelope, in some order. Distances are squared, and taken to the
    /// elements' envelopes.
    ///
    /// It visits the parents whose envelopes are no farther. Memory may be refused for the path of a tree of more than 13
    /// levels of parents.
    pub fn locate_within_distance_of_envelope(
        &self,
        envelope: T::Envelope,
        max_squared_distance: Distance<T>,
    ) -> Result<LocateWithinDistanceOfEnvelope<'_, T>, AllocError>
        requires { IsWholeTree T.Envelope.boxes T.object Params.MAX_SIZE self.now }
        ensures all { IfOk result (λ it. to_come ⟦<SelectWithinDistanceOfEnvelope<T> as SelectionFunction<T>>⟧.accepts
            ⟦<SelectWithinDistanceOfEnvelope<T> as SelectionFunction<T>>⟧.selects it
            ≡ filter (λ t. int_le (pos (T.Envelope.apart envelope (T.object.box_of t)))
            (T.Envelope.Point.Scalar.value max_squared_distance)) (elements_in self.now)) }
        ensures made { IfOk result (λ it. IsMade ⟦<SelectWithinDistanceOfEnvelope<T> as SelectionFunction<T>>⟧.accepts
            (root_of self.now)
            (λ e. int_le (pos (T.Envelope.apart envelope e)) (T.Envelope.Point.Scalar.value max_squared_distance)) it) }
        ensures walking { IfOk result
            (λ it. IsWalking ⟦<SelectWithinDistanceOfEnvelope<T> as SelectionFunction<T>>⟧.accepts it) }
        ensures near { height_of (root_of self.now) ≤ 13 → IsOk result }
    {
        self.locate_with_selection_function(SelectWithinDistanceOfEnvelope::new(
            envelope,
            max_squared_distance,
        ))
    }
}
