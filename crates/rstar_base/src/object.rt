//! Elements of a tree.

ghost use Rattle.std.specs.Prelude.{◌≡◌, ◌<◌, ◌≤ℤ◌, ◌<ℤ◌, pos, int_le, length, IfSome, IfNone};
ghost use Rattle.std.specs.Ordering.{int_cmp};
ghost use Rattle.std.specs.List.Sorted.{IsPermutation, IsSortedByKey};
ghost use Rattle.std.specs.List.{AllByRecursion};
ghost use Rattle.rstar_base.specs.Points.{table, IsPoint};
ghost use Rattle.rstar_base.specs.Elements.{Objects, Distances, ObjectLaws, DistanceLaws, EqualLaws, IsDistanceUpTo};
ghost use Rattle.rstar_base.specs.Elements.{carried_objects, carried_distances};
ghost use Rattle.rstar_base.specs.PointElements.{point_object};
ghost use Rattle.rstar_base.specs.laws.CarrierLaws.{carried_laws};
ghost use Rattle.rstar_base.specs.Hulls.{hull};
ghost use Rattle.rstar_base.specs.Orders.{IsSplitAt};

use crate::aabb::{AABB, same_coordinates, squared_distance};
use crate::axes::copied_point;
use crate::envelope::Envelope;
use crate::partition::partition_by_selection;
use crate::point::{Point, RTreeNum, known, not_above};
use std::cmp::Ordering;
use std::rc::Rc;

/// The point type of an element type.
pub type PointOf<T> = <<T as RTreeObject>::Envelope as Envelope>::Point;

/// The type of an element's squared distances. It is the scalar of its points.
pub type Distance<T> = <<<T as RTreeObject>::Envelope as Envelope>::Point as Point>::Scalar;

/// An element of a tree: a value with an envelope. A type proves that the envelope is a valid one
/// (`object_law`).
///
/// ```rust
/// impl<P: Point> RTreeObject for Doors<P> {
///     type Envelope = AABB<P>;
///     ghost object = { doors_objects P.Scalar.low P.Scalar.high P.DIMENSIONS (λ d. P.coord d.front)
///         (λ d. P.coord d.back) };
///     fn envelope(&self) -> AABB<P> {
///         self.front.envelope().merged(&self.back.envelope())
///     }
///     ghost object_law = { doors_object_law P.Scalar.low P.Scalar.high P.DIMENSIONS (λ d. P.coord d.front)
///         (λ d. P.coord d.back) };
/// }
/// ```
/// *`crates/rstar_base_vectors/src/doors.rt`*
pub trait RTreeObject: Drop {
    /// The type of the envelopes.
    type Envelope: Envelope;

    // Which are values, and the envelope of each.
    ghost object: { Objects Self Self.Envelope };

    /// The envelope of the element.
    fn envelope(&self) -> Self::Envelope
        ensures value { result ≡ object.box_of self.now }
        ensures own { object.IsValue self.now };

    /// The `axis_key` of the envelope. Loads and splits sort by it. A type may override it to skip making
    /// the envelope.
    fn axis_key(&self, axis: usize) -> <<Self::Envelope as Envelope>::Point as Point>::Scalar
        requires { axis < Self.Envelope.Point.DIMENSIONS }
        ensures { Self.Envelope.Point.Scalar.value result
            ≡ Self.Envelope.boxes.axis_key (object.box_of self.now) axis }
    {
        self.envelope().axis_key(axis)
    }

    ghost object_law: { ObjectLaws Self.Envelope.boxes object };
}

/// An element with a distance to each point. Distances are squared.
///
/// A type proves three laws for elements whose envelopes are not empty (`distance_laws`). The distance is at
/// least that of the envelope. It is at most the envelope's `min_max_dist_2`. Where the element contains a
/// point, its envelope does.
pub trait PointDistance: RTreeObject {
    // The distance to a point, and whether a point is contained.
    ghost distances: { Distances Self };

    /// The squared distance to a point.
    fn distance_2(
        &self,
        point: &<Self::Envelope as Envelope>::Point,
    ) -> <<Self::Envelope as Envelope>::Point as Point>::Scalar
        ensures { Self.Envelope.Point.Scalar.value result
            ≡ pos (distances.distance_2 self.now
            (table Self.Envelope.Point.DIMENSIONS (Self.Envelope.Point.coord point.now))) };

    /// Whether the element contains a point. A type that contains exactly the points at distance 0 calls
    /// `contains_by_distance`.
    fn contains_point(&self, point: &<Self::Envelope as Envelope>::Point) -> bool
        ensures { result
            ≡ distances.contains_point self.now
            (table Self.Envelope.Point.DIMENSIONS (Self.Envelope.Point.coord point.now)) };

    /// The squared distance to a point where it is at most a limit, else `None`.
    ///
    /// The provided body does not compute the distance where the envelope is already farther.
    fn distance_2_if_less_or_equal(
        &self,
        point: &<Self::Envelope as Envelope>::Point,
        max_distance_2: <<Self::Envelope as Envelope>::Point as Point>::Scalar,
    ) -> Option<<<Self::Envelope as Envelope>::Point as Point>::Scalar>
        ensures { IsDistanceUpTo Self.Envelope.Point.Scalar.value (Self.Envelope.Point.Scalar.value max_distance_2)
            (distances.distance_2 self.now (table Self.Envelope.Point.DIMENSIONS (Self.Envelope.Point.coord point.now)))
            result }
    {
        // Does nothing but tell that the point's coordinates are in their range.
        known(point);
        let envelope = self.envelope();
        if !envelope.is_empty() && !not_above(envelope.distance_2(point), max_distance_2) {
            return None;
        }
        let distance_2 = self.distance_2(point);
        up_to(distance_2, max_distance_2)
    }

    ghost distance_laws: { DistanceLaws
        (IsPoint Self.Envelope.Point.Scalar.low Self.Envelope.Point.Scalar.high Self.Envelope.Point.DIMENSIONS)
        Self.Envelope.boxes Self.object distances };
}

/// Elements of which equal ones have equal envelopes. It has no methods: to implement it is to prove that
/// law. Searches for an element prune by it.
pub trait EqualEnvelopes: RTreeObject + PartialEq {
    ghost equal_law: { EqualLaws Self.eq Self.object };
}

/// Whether a squared distance is at most 0. It is the body of `contains_point` for an element that contains
/// exactly the points at distance 0.
pub fn contains_by_distance<S: RTreeNum>(distance_2: S) -> bool
    ensures { result ≡ int_le (S.value distance_2) (pos 0) }
{
    not_above(distance_2, S::zero())
}

/// The distance where it is at most the limit, else `None`.
pub fn up_to<S: RTreeNum>(distance_2: S, max_distance_2: S) -> Option<S>
    ensures some { IfSome result (λ d. (d ≡ distance_2) × (S.value d ≤ℤ S.value max_distance_2)) }
    ensures none { IfNone result (S.value max_distance_2 <ℤ S.value distance_2) }
{
    if not_above(distance_2, max_distance_2) {
        Some(distance_2)
    } else {
        None
    }
}

impl<P: Point> RTreeObject for P {
    type Envelope = AABB<P>;

    ghost object = { point_object P.Scalar.low P.Scalar.high P.DIMENSIONS P.coord };

    fn envelope(&self) -> AABB<P> {
        AABB::from_point(copied_point(self))
    }

    fn axis_key(&self, axis: usize) -> P::Scalar {
        self.nth(axis)
    }

    ghost object_law = { λ p h. h };
}

impl<P: Point> PointDistance for P {
    ghost use Rattle.rstar_base.specs.PointElements.{point_distances};
    ghost use Rattle.rstar_base.specs.laws.PointElementLaws.{point_distance_laws};

    ghost distances = { point_distances P.Scalar.high P.DIMENSIONS P.coord };

    fn distance_2(&self, point: &P) -> P::Scalar {
        squared_distance(self, self, point)
    }

    fn contains_point(&self, point: &P) -> bool {
        same_coordinates(self, point)
    }

    fn distance_2_if_less_or_equal(
        &self,
        point: &P,
        max_distance_2: P::Scalar,
    ) -> Option<P::Scalar> {
        up_to(self.distance_2(point), max_distance_2)
    }

    ghost distance_laws = { point_distance_laws P.Scalar.low P.Scalar.high P.DIMENSIONS P.coord };
}

impl<P: Point> EqualEnvelopes for P {
    ghost use Rattle.rstar_base.specs.laws.EqualElements.{point_equal};

    ghost equal_law = { λ p q _ _ e. point_equal P.DIMENSIONS P.coord P.eq P.same_law p q e };
}

impl<T: RTreeObject> RTreeObject for Rc<T> {
    type Envelope = T::Envelope;

    ghost object = { carried_objects T.object (λ t. t.value) };

    fn envelope(&self) -> T::Envelope {
        (**self).envelope()
    }

    fn axis_key(&self, axis: usize) -> <<T::Envelope as Envelope>::Point as Point>::Scalar {
        (**self).axis_key(axis)
    }

    ghost object_law = { λ t h. T.object_law t.value h };
}

impl<T: PointDistance> PointDistance for Rc<T> {
    ghost distances = { carried_distances T.distances (λ t. t.value) };

    fn distance_2(
        &self,
        point: &<T::Envelope as Envelope>::Point,
    ) -> <<T::Envelope as Envelope>::Point as Point>::Scalar {
        (**self).distance_2(point)
    }

    fn contains_point(&self, point: &<T::Envelope as Envelope>::Point) -> bool {
        (**self).contains_point(point)
    }

    fn distance_2_if_less_or_equal(
        &self,
        point: &<T::Envelope as Envelope>::Point,
        max_distance_2: <<T::Envelope as Envelope>::Point as Point>::Scalar,
    ) -> Option<<<T::Envelope as Envelope>::Point as Point>::Scalar> {
        (**self).distance_2_if_less_or_equal(point, max_distance_2)
    }

    ghost distance_laws = { carried_laws T.Envelope.boxes T.object T.distances (λ t. t.value) T.distance_laws };
}

impl<T: EqualEnvelopes> EqualEnvelopes for Rc<T> {
    ghost equal_law = { λ s t h k e. T.equal_law s.value t.value h k e };
}

/// The merge of the envelopes of all elements. Of none it is the empty envelope.
pub fn envelope_of_all<T: RTreeObject>(list: &[T]) -> T::Envelope
    ensures hull { result ≡ hull T.Envelope.boxes T.object.box_of list.now }
    ensures own { AllByRecursion T.object.IsValue list.now }
{
    let mut all = T::Envelope::new_empty();
    for t in list {
        all.merge(&t.envelope());
    }
    all
}

/// The order of two elements by `axis_key`.
fn compare_on_axis<T: RTreeObject>(axis: usize, a: &T, b: &T) -> Ordering
    requires { axis < T.Envelope.Point.DIMENSIONS }
    ensures { result ≡ int_cmp (T.Envelope.boxes.axis_key (T.object.box_of a.now) axis)
        (T.Envelope.boxes.axis_key (T.object.box_of b.now) axis) }
{
    a.axis_key(axis).cmp(&b.axis_key(axis))
}

/// Sorts the elements by `axis_key`. It takes no memory and about n log n calls of `axis_key`.
pub fn sort_envelopes<T: RTreeObject>(axis: usize, list: &mut [T])
    requires { axis < T.Envelope.Point.DIMENSIONS }
    ensures same { IsPermutation list.old list.new }
    ensures rises { IsSortedByKey (λ t. T.Envelope.boxes.axis_key (T.object.box_of t) axis) int_cmp list.new }
{
    list.sort_unstable_by(
        |a: &T, b: &T| -> Ordering
            requires { axis < T.Envelope.Point.DIMENSIONS }
            ensures { result ≡ int_cmp (T.Envelope.boxes.axis_key (T.object.box_of a.now) axis)
                (T.Envelope.boxes.axis_key (T.object.box_of b.now) axis) }
        { compare_on_axis(axis, a, b) },
    );
}

/// Partitions the elements around place `k`, by `axis_key`. No element before it has a greater key, and none
/// after it a smaller one. It takes no memory.
pub fn partition_envelopes<T: RTreeObject>(axis: usize, list: &mut [T], k: usize)
    requires axis { axis < T.Envelope.Point.DIMENSIONS }
    requires place { k < length list.old }
    ensures same { IsPermutation list.old list.new }
    ensures split { IsSplitAt (λ t. T.Envelope.boxes.axis_key (T.object.box_of t) axis) k list.new }
{
    partition_by_selection(axis, list, k);
}
