//! An element type of one's own: the outline of a box.

ghost use Rattle.std.specs.Prelude.{◌≡◌, pos};
ghost use Rattle.rstar_base.specs.Boxes.{merge_boxes};
ghost use Rattle.rstar_base.specs.Points.{table};
ghost use Rattle.rstar_base_vectors.specs.Doors.{corner, doors_objects};
ghost use Rattle.rstar_base_vectors.specs.Frames.{nearest_face, frame_distances};
ghost use Rattle.rstar_base_vectors.specs.laws.DoorsLaws.{doors_object_law};
ghost use Rattle.rstar_base_vectors.specs.laws.FrameLaws.{frame_laws};

use crate::interval::squared_nearer_end;
use num_traits::{Bounded, Zero};
use rstar_base::object::{contains_by_distance, up_to};
use rstar_base::point::least;
use rstar_base::{AABB, Envelope, Point, PointDistance, RTreeObject};

/// The outline of the box between two opposite corners. From a point inside, its distance is that of the
/// nearest face; from a point outside, that of the box.
#[derive(Clone, Copy, PartialEq, Drop)]
pub struct Frame<P> {
    /// The first corner.
    pub one: P,
    /// The opposite corner.
    pub other: P,
}

/// The squared distance from a point inside a box to the nearest face, clamped; 0 without an axis.
fn nearest_face<P: Point>(one: &P, other: &P, point: &P) -> P::Scalar
    ensures { P.Scalar.value result ≡ pos (nearest_face P.Scalar.high
        (merge_boxes (corner P.DIMENSIONS (P.coord one.now)) (corner P.DIMENSIONS (P.coord other.now)))
        (table P.DIMENSIONS (P.coord point.now))) }
{
    let mut nearest = P::Scalar::max_value();
    for axis in 0..P::DIMENSIONS {
        let face = squared_nearer_end(one.nth(axis), other.nth(axis), point.nth(axis));
        nearest = least(nearest, face);
    }
    if P::DIMENSIONS == 0 {
        P::Scalar::zero()
    } else {
        nearest
    }
}

impl<P: Point> RTreeObject for Frame<P> {
    type Envelope = AABB<P>;

    ghost object = { doors_objects P.Scalar.low P.Scalar.high P.DIMENSIONS (λ f. P.coord f.one)
        (λ f. P.coord f.other) };

    fn envelope(&self) -> AABB<P> {
        self.one.envelope().merged(&self.other.envelope())
    }

    ghost object_law = { doors_object_law P.Scalar.low P.Scalar.high P.DIMENSIONS (λ f. P.coord f.one)
        (λ f. P.coord f.other) };
}

impl<P: Point> PointDistance for Frame<P> {
    ghost distances = { frame_distances P.Scalar.high P.DIMENSIONS (λ f. P.coord f.one) (λ f. P.coord f.other) };

    fn distance_2(&self, point: &P) -> P::Scalar {
        let envelope = self.envelope();
        if envelope.contains_point(point) {
            nearest_face(&self.one, &self.other, point)
        } else {
            envelope.distance_2(point)
        }
    }

    fn contains_point(&self, point: &P) -> bool {
        self.envelope().contains_point(point) && contains_by_distance(self.distance_2(point))
    }

    fn distance_2_if_less_or_equal(
        &self,
        point: &P,
        max_distance_2: P::Scalar,
    ) -> Option<P::Scalar> {
        up_to(self.distance_2(point), max_distance_2)
    }

    ghost distance_laws = { frame_laws P.Scalar.low P.Scalar.high P.DIMENSIONS (λ f. P.coord f.one)
        (λ f. P.coord f.other) };
}

#[cfg(test)]
mod tests {
    use super::*;
    use crate::elements::is_so_far;

    // A point, its squared distance from the outline, and whether it lies on it: inside, nearest to a face or in the middle,
    // on a face and at a corner, and outside.
    #[test]
    fn the_nearest_face_counts(rt: HostRuntime) {
        const ROWS: [([i32; 2], i32, bool); 6] = [
            ([5, 5], 25, false),
            ([2, 7], 4, false),
            ([10, 5], 0, true),
            ([0, 10], 0, true),
            ([12, 5], 4, false),
            ([-3, 14], 25, false),
        ];
        let wide = Frame {
            one: [0, 10],
            other: [10, 0],
        };
        for row in 0..ROWS.len() {
            let &(point, distance, is_on) = &ROWS[row];
            assert!(rt; is_so_far(&wide, &point, distance, is_on), "row {row}");
        }
    }
}
