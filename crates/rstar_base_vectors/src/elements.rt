//! Tests of elements: the answers on given numbers.

ghost use Rattle.std.specs.Prelude.{◌≤◌};
ghost use Rattle.rstar_base.specs.Elements.{carried_objects};

use crate::boxes::hashed;
use num_traits::One;
use rstar_base::object::{partition_envelopes, sort_envelopes};
use rstar_base::primitives::{
    CachedEnvelope, GeomWithData, Line, ObjectRef, PointWithData, Rectangle,
};
use rstar_base::{AABB, Distance, Envelope, Point, PointDistance, PointOf, RTreeNum, RTreeObject};
use std::alloc::Global;
use std::cell::Cell;
use std::hash::Hash;
use std::rc::Rc;

/// Whether an element has this squared distance from a point, is not within the next lesser one, and
/// contains the point as expected.
pub(crate) fn is_so_far<T: PointDistance>(
    element: &T,
    point: &PointOf<T>,
    distance: Distance<T>,
    contained: bool,
) -> bool {
    let below = distance.clamped_sub(Distance::<T>::one());
    element.contains_point(point) == contained
        && element.distance_2(point) == distance
        && element.distance_2_if_less_or_equal(point, below).is_none()
        && element.distance_2_if_less_or_equal(point, distance) == Some(distance)
}

/// The ends of a line, its squared length, a point, the nearest point of the line, and the squared distance.
type LineRow<P> = (P, P, <P as Point>::Scalar, P, P, <P as Point>::Scalar);

/// Whether a line has this length, nearest point and distance, also with a number and with its envelope kept.
fn line_is_so_far<P: Point + Copy>(row: &LineRow<P>) -> bool {
    let numbered = GeomWithData::new(Line::new(row.0, row.1), 1u64);
    let line = numbered.geom();
    let kept = CachedEnvelope::new(Line::new(row.0, row.1));
    line.length_2() == row.2
        && line.nearest_point(&row.3) == row.4
        && line.distance_2(&row.3) == row.5
        && numbered.distance_2(&row.3) == row.5
        && (*kept).length_2() == row.2
        && kept.distance_2(&row.3) == row.5
}

/// The same of several lines.
fn lines_are_so_far<P: Point + Copy>(rows: &[LineRow<P>]) -> bool {
    for row in rows {
        if !line_is_so_far(row) {
            return false;
        }
    }
    true
}

// The upright line is that of rstar's tests `edge_distance` and `container_edge_distance`, twice as large; the line of
// length 52 that of `length_2` and `container_length_2`. Where its numbers do not fit, a line has its ends alone.
#[test]
fn lines_and_points(rt: HostRuntime) {
    assert!(rt;
        lines_are_so_far(&[
            ([1i64, 1], [1, 4], 9, [1, 1], [1, 1], 0),
            ([1, 1], [1, 4], 9, [0, 1], [1, 1], 1),
            ([1, 1], [1, 4], 9, [1, 2], [1, 2], 0),
            ([1, 1], [1, 4], 9, [0, 0], [1, 1], 2),
            ([1, 1], [1, 4], 9, [0, 2], [1, 2], 1),
            ([1, 1], [1, 4], 9, [2, 2], [1, 2], 1),
            ([1, 1], [1, 4], 9, [2, 6], [1, 4], 5),
            ([3, 3], [7, 6], 25, [3, 3], [3, 3], 0),
            ([1, -1], [5, 5], 52, [5, 5], [5, 5], 0),
            ([0, 0], [10, 0], 100, [9, 0], [9, 0], 0),
            ([3, 3], [3, 3], 0, [0, 0], [3, 3], 18),
            ([0, 0], [2, 2], 8, [2, 0], [1, 1], 2),
            ([0, 0], [2, 2], 8, [20, 24], [2, 2], 808),
        ])
    );
    assert!(rt;
        lines_are_so_far(&[
            ([-100i8, 0], [100, 0], 127, [0, 5], [-100, 0], 127),
            ([0, 0], [10, 0], 100, [9, 0], [10, 0], 1),
        ])
    );
}

#[test]
fn a_distance_is_held_at_the_greatest_number(rt: HostRuntime) {
    assert!(rt; is_so_far(&[-128i8, -128], &[127, 127], 127, false));
}

/// Whether a rectangle has this nearest point and squared distance at each point, and contains the point as
/// expected.
fn rectangle_is_so_far<P: Point + Copy>(
    rectangle: &Rectangle<P>,
    rows: &[(P, P, P::Scalar, bool)],
) -> bool {
    for (point, nearest, distance, contained) in rows {
        if rectangle.nearest_point(point) != *nearest
            || !is_so_far(rectangle, point, *distance, *contained)
        {
            return false;
        }
    }
    true
}

// A point, the nearest point of the rectangle, the squared distance, and whether the rectangle contains the point. The
// rectangle is that of rstar's test `rectangle_distance`, twice as large.
#[test]
fn a_rectangle_and_points(rt: HostRuntime) {
    const ROWS: [([i64; 2], [i64; 2], i64, bool); 9] = [
        ([1, 1], [1, 1], 0, true),
        ([0, 2], [1, 2], 1, false),
        ([0, 0], [1, 1], 2, false),
        ([0, 1], [1, 1], 1, false),
        ([2, 6], [2, 4], 4, false),
        ([0, 6], [1, 4], 5, false),
        ([0, 4], [1, 4], 1, false),
        ([2, 2], [2, 2], 0, true),
        ([1, 4], [1, 4], 0, true),
    ];
    assert!(rt; rectangle_is_so_far(&Rectangle::from_corners([1, 1], [2, 4]), &ROWS));
}

/// Whether an element has an empty envelope and does not contain a point.
fn is_nothing<T: PointDistance>(element: &T, point: &PointOf<T>) -> bool {
    element.envelope().is_empty() && !element.contains_point(point)
}

/// Whether a rectangle has these two corners and is not empty.
fn is_between<P: Point + Copy>(rectangle: &Rectangle<P>, lower: P, upper: P) -> bool {
    *rectangle == Rectangle::from_corners(lower, upper)
        && rectangle.lower() == lower
        && rectangle.upper() == upper
        && !rectangle.envelope().is_empty()
}

#[test]
fn rectangles_of_boxes(rt: HostRuntime) {
    let none: Rectangle<[i64; 2]> = Rectangle::from_aabb(AABB::new_empty());
    assert!(rt; is_nothing(&none, &[0, 0]));
    let same = AABB::from_corners([2i64, 4], [1, 1]).into();
    assert!(rt; is_between(&same, [1, 1], [2, 4]));
}

/// Whether an element and a reference to it are at this squared distance from a point, which they do not
/// contain.
fn lent_is_so_far<T: PointDistance>(
    element: &T,
    point: &PointOf<T>,
    distance: Distance<T>,
) -> bool {
    is_so_far(element, point, distance, false)
        && is_so_far(&ObjectRef::new(element), point, distance, false)
}

/// The same of an element with a payload, whose payload can be written, and of its geometry.
fn carried_is_so_far<R: PointDistance>(
    element: R,
    point: &PointOf<R>,
    distance: Distance<R>,
) -> bool {
    let mut road = GeomWithData::new(element, 7u64);
    road.data = 8;
    ObjectRef::new(&road).data == 8
        && is_so_far(road.geom(), point, distance, false)
        && lent_is_so_far(&road, point, distance)
}

/// Whether a point with a payload has its position and contains it.
fn carried_is_there<P: Point + Copy>(point: P) -> bool {
    let stop = PointWithData::new(7u64, point);
    *stop.position() == point && stop.contains_point(&point)
}

/// Whether a shared element is at this squared distance from a point, which it does not contain.
fn shared_is_so_far<T: PointDistance>(
    alloc: Global,
    element: T,
    point: &PointOf<T>,
    distance: Distance<T>,
) -> bool {
    match Rc::new(alloc, element) {
        Ok(shared) => is_so_far(&shared, point, distance, false),
        Err(_) => false,
    }
}

#[test]
fn carriers_answer_as_what_they_carry(rt: HostRuntime) {
    let line = Line::new([0i64, 0], [10, 0]);
    assert!(rt; carried_is_so_far(line, &[9, 2], 4));
    assert!(rt; carried_is_there([1i64, 2]));
    assert!(rt; shared_is_so_far(rt.alloc(), [1i64, 2], &[1, 5], 9));
}

/// Whether two values differ, and hash apart.
fn are_apart<V: Hash>(one: &V, other: &V) -> bool {
    *one != *other && hashed(one) != hashed(other)
}

// The diagonals of one box, alone, lent and kept; one place with two payloads; two boxes with one lower corner.
#[test]
fn values_that_differ_hash_apart(rt: HostRuntime) {
    let rising = Line::new([0i64, 0], [4, 4]);
    let falling = Line::new([0i64, 4], [4, 0]);
    assert!(rt; are_apart(&rising, &falling));
    assert!(rt; are_apart(&ObjectRef::new(&rising), &ObjectRef::new(&falling)));
    assert!(rt; are_apart(&CachedEnvelope::new(rising), &CachedEnvelope::new(falling)));
    assert!(rt;
        are_apart(
            &PointWithData::new(7u64, [1i64, 2]),
            &PointWithData::new(8, [1, 2])
        )
    );
    let low: Rectangle<[i64; 2]> = Rectangle::from_corners([0, 0], [1, 1]);
    assert!(rt; are_apart(&low, &Rectangle::from_corners([0, 0], [1, 2])));
}

/// Sorts elements on the first axis and partitions them on the second at place 1. Whether both orders are as
/// expected.
fn are_ordered<T: RTreeObject + PartialEq>(elements: &mut [T], sorted: &[T], split: &[T]) -> bool
    requires { 2 ≤ T.Envelope.Point.DIMENSIONS }
{
    sort_envelopes(0, elements);
    if elements.len() < 2 || *elements != *sorted {
        return false;
    }
    partition_envelopes(1, elements, 1);
    elements.starts_with(split)
}

#[test]
fn elements_in_the_order_of_their_keys(rt: HostRuntime) {
    let mut points = [[3i64, 0], [1, 2], [2, 1], [0, 3]];
    let sorted = [[0, 3], [1, 2], [2, 1], [3, 0]];
    assert!(rt; are_ordered(&mut points, &sorted, &[[3, 0], [2, 1]]));
}

// A point that counts how often its envelope is asked for.
#[derive(Drop)]
struct Counting<'a, P> {
    at: P,
    calls: &'a Cell<u32>,
}

impl<'a, P: Point> RTreeObject for Counting<'a, P> {
    type Envelope = AABB<P>;

    ghost object = { carried_objects ⟦<P as RTreeObject>⟧.object (λ c. c.at) };

    fn envelope(&self) -> AABB<P> {
        self.calls.set(self.calls.get().wrapping_add(1));
        self.at.envelope()
    }

    ghost object_law = { λ c h. h };
}

/// Whether the cached envelope is this one, three times over, and the element's own envelope too.
fn is_kept<T: RTreeObject>(element: T, wanted: &T::Envelope) -> bool {
    let cached = CachedEnvelope::new(element);
    let mut is_so = true;
    for _ in 0..3 {
        is_so = cached.envelope() == *wanted && is_so;
    }
    is_so && (*cached).envelope() == *wanted
}

/// Whether a point's cached envelope is its box, with one call for the cache and one by the test itself.
fn is_asked_once<P: Point + Copy>(at: P) -> bool {
    let calls = &Cell::new(0);
    is_kept(Counting { at, calls }, &AABB::from_point(at)) && calls.get() == 2
}

#[test]
fn a_cached_envelope_is_asked_for_once(rt: HostRuntime) {
    assert!(rt; is_asked_once([1i64, 2]));
}
