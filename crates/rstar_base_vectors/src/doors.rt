//! An element type of one's own: a place with two doors.

ghost use Rattle.rstar_base_vectors.specs.Doors.{doors_objects, doors_distances};
ghost use Rattle.rstar_base_vectors.specs.laws.DoorsLaws.{doors_object_law, doors_laws, doors_equal};

use rstar_base::point::least;
use rstar_base::{AABB, Envelope, EqualEnvelopes, Point, PointDistance, RTreeObject};

/// A place with two doors. Its distance is that of the nearer door, and it contains the points of its doors.
#[derive(PartialEq, Drop)]
pub struct Doors<P> {
    /// The first door.
    pub front: P,
    /// The second door.
    pub back: P,
}

impl<P: Point> RTreeObject for Doors<P> {
    type Envelope = AABB<P>;

    ghost object = { doors_objects P.Scalar.low P.Scalar.high P.DIMENSIONS (λ d. P.coord d.front)
        (λ d. P.coord d.back) };

    fn envelope(&self) -> AABB<P> {
        self.front.envelope().merged(&self.back.envelope())
    }

    ghost object_law = { doors_object_law P.Scalar.low P.Scalar.high P.DIMENSIONS (λ d. P.coord d.front)
        (λ d. P.coord d.back) };
}

impl<P: Point> PointDistance for Doors<P> {
    ghost distances = { doors_distances P.Scalar.high P.DIMENSIONS (λ d. P.coord d.front) (λ d. P.coord d.back) };

    #[tactic(auto, using(crate::specs::laws::DoorsLaws::lesser))]
    fn distance_2(&self, point: &P) -> P::Scalar {
        least(self.front.distance_2(point), self.back.distance_2(point))
    }

    fn contains_point(&self, point: &P) -> bool {
        self.front.contains_point(point) || self.back.contains_point(point)
    }

    ghost distance_laws = { doors_laws P.Scalar.low P.Scalar.high P.DIMENSIONS (λ d. P.coord d.front)
        (λ d. P.coord d.back) P.Scalar.low_law P.Scalar.high_law };
}

impl<P: Point> EqualEnvelopes for Doors<P> {
    ghost equal_law = { λ a b _ _ e. doors_equal P.DIMENSIONS P.coord P.eq P.same_law a.front a.back b.front b.back e };
}

#[cfg(test)]
mod tests {
    use super::*;
    use crate::elements::is_so_far;

    // A point, its squared distance from the nearer door, and whether a door is there. The third lies inside the
    // envelope, and at neither door.
    #[test]
    fn the_nearer_door_counts(rt: HostRuntime) {
        const ROWS: [([i64; 2], i64, bool); 4] = [
            ([1, 0], 1, false),
            ([10, 2], 4, false),
            ([5, 2], 29, false),
            ([10, 4], 0, true),
        ];
        let shop = Doors {
            front: [0, 0],
            back: [10, 4],
        };
        for row in 0..ROWS.len() {
            let &(point, distance, is_there) = &ROWS[row];
            assert!(rt; is_so_far(&shop, &point, distance, is_there), "row {row}");
        }
    }
}
