//! How far boxes lie apart.

ghost use Rattle.std.specs.Prelude.{◌≡◌, pos, min, unsigned_abs, ◌*◌, ◌<◌};
ghost use Rattle.rstar_base.specs.Boxes.{between_corners};
ghost use Rattle.rstar_base.specs.Gaps.{gap, boxes_apart};

use crate::aabb::{AABB, extent_between};
use crate::axes::clamped_sum;
use crate::gaps::EnvelopeDistance;
use crate::point::{Point, RTreeNum, greatest};

/// The clamped square of how far two intervals lie apart.
fn square_of_gap<S: RTreeNum>(lower: S, upper: S, other_lower: S, other_upper: S) -> S
    ensures { let g = gap (S.value lower, S.value upper) (S.value other_lower, S.value other_upper) in
        S.value result ≡ pos (min (g * g) (unsigned_abs S.high)) }
{
    let above = extent_between(upper, other_lower);
    let below = extent_between(other_upper, lower);
    let apart = greatest(above, below);
    apart.clamped_mul(apart)
}

/// The clamped sum of the squares of the gaps between two boxes, each between two corners.
fn squared_gaps<P: Point>(lower: &P, upper: &P, other_lower: &P, other_upper: &P) -> P::Scalar
    ensures { P.Scalar.value result
        ≡ pos (boxes_apart P.Scalar.high (between_corners P.DIMENSIONS (P.coord lower.now) (P.coord upper.now))
        (between_corners P.DIMENSIONS (P.coord other_lower.now) (P.coord other_upper.now))) }
{
    clamped_sum::<P, _>(
        |i: usize| -> P::Scalar
            requires { i < P.DIMENSIONS }
            ensures { let g = gap (P.coord lower.entry.now i, P.coord upper.entry.now i)
                (P.coord other_lower.entry.now i, P.coord other_upper.entry.now i) in
                P.Scalar.value result ≡ pos (min (g * g) (unsigned_abs P.Scalar.high)) }
        {
            square_of_gap(
                lower.nth(i),
                upper.nth(i),
                other_lower.nth(i),
                other_upper.nth(i),
            )
        },
    )
}

impl<P: Point> EnvelopeDistance for AABB<P> {
    ghost use Rattle.rstar_base.specs.Gaps.{boxes_apart};
    ghost use Rattle.rstar_base.specs.laws.GapBoxes.{gap_laws};

    ghost apart = { boxes_apart P.Scalar.high };

    fn distance_2_to_envelope(&self, other: &Self) -> P::Scalar {
        squared_gaps(&self.lower, &self.upper, &other.lower, &other.upper)
    }

    ghost gap_laws = { gap_laws P.Scalar.low P.Scalar.high P.DIMENSIONS P.Scalar.high_law };
}
