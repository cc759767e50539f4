//! How far envelopes with a count lie apart.

ghost use Rattle.rstar_base.specs.Gaps.{boxes_apart};

use crate::envelope::Counted;
use crate::gaps::EnvelopeDistance;
use crate::point::Point;

impl<P: Point> EnvelopeDistance for Counted<P> {
    ghost use Rattle.rstar_base.specs.BoxData.{box_data};
    ghost use Rattle.rstar_base.specs.Gaps.{boxes_apart};
    ghost use Rattle.rstar_base.specs.laws.GapBoxes.{gap_laws, counted_gap_laws};

    ghost apart = { λ a b. boxes_apart P.Scalar.high a.0 b.0 };

    fn distance_2_to_envelope(&self, other: &Self) -> P::Scalar {
        self.aabb.distance_2_to_envelope(&other.aabb)
    }

    ghost gap_laws = { counted_gap_laws (box_data P.Scalar.low P.Scalar.high P.DIMENSIONS) (boxes_apart P.Scalar.high)
        (gap_laws P.Scalar.low P.Scalar.high P.DIMENSIONS P.Scalar.high_law) };
}
