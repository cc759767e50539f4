//! Which elements lie near an envelope.

ghost use Rattle.std.specs.Prelude.{pos, int_le};
ghost use Rattle.rstar_base.specs.Selections.{SelectsBy};

use crate::algorithm::selection_functions::SelectionFunction;
use crate::envelope::Envelope;
use crate::gaps::EnvelopeDistance;
use crate::object::{Distance, RTreeObject};
use crate::point::{Point, RTreeNum, not_above};

/// Gives the elements whose envelopes lie within a distance of an envelope.
#[derive(Drop)]
pub struct SelectWithinDistanceOfEnvelope<T: RTreeObject> {
    envelope: T::Envelope,
    squared_max_distance: Distance<T>,
}

impl<T: RTreeObject> SelectWithinDistanceOfEnvelope<T>
where
    T::Envelope: EnvelopeDistance,
{
    /// Selects what has an envelope that is at most `squared_max_distance` away from the envelope, and opens the parents
    /// whose envelopes are. The distance is squared.
    pub fn new(envelope: T::Envelope, squared_max_distance: Distance<T>) -> Self
        ensures { SelectsBy T.Envelope.boxes T.object
            (⟦<SelectWithinDistanceOfEnvelope<T> as SelectionFunction<T>>⟧.accepts result)
            (⟦<SelectWithinDistanceOfEnvelope<T> as SelectionFunction<T>>⟧.selects result)
            (λ e. int_le (pos (T.Envelope.apart envelope e)) (T.Envelope.Point.Scalar.value squared_max_distance))
            (λ t. int_le (pos (T.Envelope.apart envelope (T.object.box_of t)))
            (T.Envelope.Point.Scalar.value squared_max_distance)) }
    {
        // The call only tells the proof that the envelope is a value.
        let _known = envelope.is_empty();
        SelectWithinDistanceOfEnvelope {
            envelope,
            squared_max_distance,
        }
    }
}

impl<T: RTreeObject> SelectionFunction<T> for SelectWithinDistanceOfEnvelope<T>
where
    T::Envelope: EnvelopeDistance,
{
    ghost accepts = { λ f e. int_le (pos (T.Envelope.apart f.envelope e))
        (T.Envelope.Point.Scalar.value f.squared_max_distance) };

    ghost selects = { λ f t. int_le (pos (T.Envelope.apart f.envelope (T.object.box_of t)))
        (T.Envelope.Point.Scalar.value f.squared_max_distance) };

    fn should_unpack_parent(&self, envelope: &T::Envelope) -> bool {
        not_above(
            self.envelope.distance_2_to_envelope(envelope),
            self.squared_max_distance,
        )
    }

    fn should_unpack_leaf(&self, leaf: &T) -> bool {
        not_above(
            self.envelope.distance_2_to_envelope(&leaf.envelope()),
            self.squared_max_distance,
        )
    }
}
