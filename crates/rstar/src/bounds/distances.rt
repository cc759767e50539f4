//! The distances that a search for neighbours needs from its elements and envelopes.

ghost use Rattle.std.specs.Prelude.{◌≡◌, ℤ, List, Some, pos, int_le};
ghost use Rattle.std.specs.Int.{int_min};
ghost use Rattle.std.specs.Ordering.{int_cmp};
ghost use Rattle.rstar_base.specs.Elements.{Distances, DistanceLaws, IsDistanceUpTo};
ghost use Rattle.rstar_base.specs.Points.{table};
ghost use Rattle.rstar_base.specs.Sizes.{IsNarrow};

use crate::bounds::Covered;
use rstar_base::{Distance, Envelope, Point, PointDistance, PointOf, RTreeNum, RTreeObject, point};

/// A squared distance: an ordered number.
pub trait SquaredDistance: Copy + Ord {
    ghost number: { Self → ℤ };

    /// Whether it is at most another.
    fn is_within(self, limit: Self) -> bool
        ensures { result ≡ int_le (number self) (number limit) };

    /// The lesser of two.
    fn lesser(self, other: Self) -> Self
        ensures { number result ≡ int_min (number self) (number other) };

    ghost number_order: { (a b : Self) → Self.partial_cmp a b ≡ Some (int_cmp (number a) (number b)) };

    // It takes little room.
    ghost narrow: { IsNarrow Self.row };
}

impl<S: RTreeNum> SquaredDistance for S {
    ghost number = { S.value };

    fn is_within(self, limit: S) -> bool {
        point::not_above(self, limit)
    }

    fn lesser(self, other: S) -> S {
        point::least(self, other)
    }

    ghost number_order = { λ a b. S.order_law a b S.exact_law };

    ghost narrow = { S.narrow };
}

/// An element with a distance to each point, and envelopes with distances too.
pub trait Measured: Covered {
    /// The point type.
    type Place;

    /// The type of squared distances.
    type Distance: SquaredDistance;

    // The coordinates of a point.
    ghost at: { Self.Place → List ℤ };

    ghost distances: { Distances Self };

    /// Does nothing. Its contract says that the point's coordinates are in the range.
    fn known(place: &Self::Place)
        ensures range { Self.Cover.is_point (at place.now) };

    /// The squared distance to a point.
    fn distance_2(&self, place: &Self::Place) -> Self::Distance
        ensures { Self.Distance.number result ≡ pos (distances.distance_2 self.now (at place.now)) };

    /// The squared distance where it is at most the limit, and `None` elsewhere.
    fn distance_2_if_less_or_equal(
        &self,
        place: &Self::Place,
        limit: Self::Distance,
    ) -> Option<Self::Distance>
        ensures { IsDistanceUpTo Self.Distance.number (Self.Distance.number limit)
            (distances.distance_2 self.now (at place.now)) result };

    /// The squared distance of an envelope.
    fn cover_distance_2(cover: &Self::Cover, place: &Self::Place) -> Self::Distance
        ensures { Self.Distance.number result ≡ pos (Self.Cover.boxes.distance_2 cover.now (at place.now)) };

    /// MINMAXDIST of an envelope: a squared distance within which it has an element.
    fn cover_min_max_dist_2(cover: &Self::Cover, place: &Self::Place) -> Self::Distance
        ensures { Self.Distance.number result ≡ pos (Self.Cover.boxes.min_max_dist_2 cover.now (at place.now)) };

    ghost distance_laws: { DistanceLaws Self.Cover.is_point Self.Cover.boxes Self.object distances };
}

impl<T: PointDistance> Measured for T {
    type Place = PointOf<T>;

    type Distance = Distance<T>;

    ghost at = { λ p. table T.Envelope.Point.DIMENSIONS (T.Envelope.Point.coord p) };

    ghost distances = { T.distances };

    fn known(place: &PointOf<T>) {
        point::known(place);
    }

    fn distance_2(&self, place: &PointOf<T>) -> Distance<T> {
        PointDistance::distance_2(self, place)
    }

    fn distance_2_if_less_or_equal(
        &self,
        place: &PointOf<T>,
        limit: Distance<T>,
    ) -> Option<Distance<T>> {
        PointDistance::distance_2_if_less_or_equal(self, place, limit)
    }

    fn cover_distance_2(cover: &T::Envelope, place: &PointOf<T>) -> Distance<T> {
        cover.distance_2(place)
    }

    fn cover_min_max_dist_2(cover: &T::Envelope, place: &PointOf<T>) -> Distance<T> {
        cover.min_max_dist_2(place)
    }

    ghost distance_laws = { T.distance_laws };
}
