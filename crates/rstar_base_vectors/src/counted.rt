//! An element type of one's own whose envelope counts it once.

ghost use Rattle.rstar_base.specs.BoxData.{box_data};
ghost use Rattle.rstar_base.specs.Counts.{counted_objects};
ghost use Rattle.rstar_base.specs.PointElements.{point_object, point_distances};
ghost use Rattle.rstar_base.specs.laws.CountedLaws.{counted_element_laws};
ghost use Rattle.rstar_base.specs.laws.PointElementLaws.{point_distance_laws};
ghost use Rattle.rstar_base_vectors.specs.laws.PlaceLaws.{place_equal};

use rstar_base::{Counted, Envelope, EqualEnvelopes, Point, PointDistance, RTreeObject};

/// A place with a number.
#[derive(Clone, Copy, PartialEq, Drop)]
pub struct Place<P> {
    /// Its number.
    pub number: u64,
    /// Where it is.
    pub at: P,
}

impl<P: Point> RTreeObject for Place<P> {
    type Envelope = Counted<P>;

    ghost object = { counted_objects (box_data P.Scalar.low P.Scalar.high P.DIMENSIONS)
        (point_object P.Scalar.low P.Scalar.high P.DIMENSIONS (λ p. P.coord p.at)) };

    #[tactic(auto, using(crate::specs::laws::PlaceLaws::one_point))]
    fn envelope(&self) -> Counted<P> {
        Counted::new(self.at.envelope())
    }

    ghost object_law = { λ p h. h.1 };
}

impl<P: Point> PointDistance for Place<P> {
    ghost distances = { point_distances P.Scalar.high P.DIMENSIONS (λ p. P.coord p.at) };

    fn distance_2(&self, point: &P) -> P::Scalar {
        self.at.distance_2(point)
    }

    fn contains_point(&self, point: &P) -> bool {
        self.at.contains_point(point)
    }

    fn distance_2_if_less_or_equal(
        &self,
        point: &P,
        max_distance_2: P::Scalar,
    ) -> Option<P::Scalar> {
        self.at.distance_2_if_less_or_equal(point, max_distance_2)
    }

    ghost distance_laws = { counted_element_laws (box_data P.Scalar.low P.Scalar.high P.DIMENSIONS)
        (point_object P.Scalar.low P.Scalar.high P.DIMENSIONS (λ p. P.coord p.at))
        (point_distances P.Scalar.high P.DIMENSIONS (λ p. P.coord p.at))
        (point_distance_laws P.Scalar.low P.Scalar.high P.DIMENSIONS (λ p. P.coord p.at)) };
}

impl<P: Point> EqualEnvelopes for Place<P> {
    ghost equal_law = { λ a b _ _ e. place_equal P.DIMENSIONS P.coord P.eq P.same_law a.number b.number a.at b.at e };
}

#[cfg(test)]
mod tests {
    use super::*;
    use crate::elements::is_so_far;

    // A place lies at its point and counts once; two merged envelopes count both, and two places are equal by number and point.
    #[test]
    fn a_place_counts_once(rt: HostRuntime) {
        let one = Place {
            number: 7,
            at: [3i64, 4],
        };
        let other = Place {
            number: 8,
            at: [3, 4],
        };
        assert!(rt; is_so_far(&one, &[0, 0], 25, false) && is_so_far(&one, &[3, 4], 0, true));
        let both = one.envelope().merged(&other.envelope());
        assert!(rt; one.envelope().count() == 1 && both.count() == 2);
        assert!(rt; one == one && one != other);
    }
}
