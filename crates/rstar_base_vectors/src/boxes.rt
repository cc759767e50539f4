//! Tests of boxes: the answers on given corners.

use num_traits::Zero;
use rstar_base::aabb::upright;
use rstar_base::{AABB, Counted, Envelope, EnvelopeDistance, Point, PointDistance, RTreeNum};
use std::alloc::{AllocError, Global};
use std::fmt::Debug;
use std::hash::{DefaultHasher, Hash, Hasher};

/// The box between two corners; the empty box where the first is above the second on some axis.
fn boxed<P: Point + Copy>(lower: P, upper: P) -> AABB<P> {
    if upright(&lower, &upper) {
        AABB::from_bounds(lower, upper)
    } else {
        AABB::new_empty()
    }
}

/// A scalar of an envelope.
type ScalarOf<E> = <<E as Envelope>::Point as Point>::Scalar;

/// Whether an envelope has this area, perimeter, center, and key on axis 1.
fn measures<E: Envelope>(
    made: &E,
    area: &ScalarOf<E>,
    perimeter: &ScalarOf<E>,
    center: &E::Point,
    key: &ScalarOf<E>,
) -> bool {
    1 < <E::Point as Point>::DIMENSIONS
        && made.area() == *area
        && made.perimeter_value() == *perimeter
        && made.center() == *center
        && made.axis_key(1) == *key
}

/// The corners of a box, its area, its perimeter, its center, and its key on axis 1.
type MeasureRow<P> = (
    P,
    P,
    <P as Point>::Scalar,
    <P as Point>::Scalar,
    P,
    <P as Point>::Scalar,
);

/// Whether a box has these corners and measures.
fn has_measures<P: Point + Copy>(row: &MeasureRow<P>) -> bool {
    let made = boxed(row.0, row.1);
    made.lower() == row.0
        && made.upper() == row.1
        && measures(&made, &row.2, &row.3, &row.4, &row.5)
}

// The full range and the empty box, whose measures are held at the greatest scalar and at 0, and a box between.
#[test]
fn measures_and_centers(rt: HostRuntime) {
    let (low, high) = (i128::MIN, i128::MAX);
    let answers = [
        has_measures(&([-128i8, -128], [127, 127], 127, 127, [0, 0], -128)),
        has_measures(&([127i8, 127], [-128, -128], 0, 0, [0, 0], 127)),
        has_measures(&([0i8, -3], [2, 4], 14, 9, [1, 0], -3)),
        has_measures(&([low, low], [high, high], high, high, [0, 0], low)),
    ];
    assert!(rt; answers == [true; 4]);
}

/// Whether the box of two corners is the box from `lower` to `upper`, and the box of the point `lower` has
/// both corners there.
fn has_corners<P: Point + Copy>(one: P, other: P, lower: P, upper: P) -> bool {
    AABB::from_corners(one, other) == boxed(lower, upper)
        && AABB::from_point(lower) == boxed(lower, lower)
}

/// Whether the box around a center is the box from `lower` to `upper`, also for the negative distance.
fn is_round<P: Point + Copy>(center: P, distance: P::Scalar, lower: P, upper: P) -> bool {
    let wanted = boxed(lower, upper);
    let below = P::Scalar::zero().clamped_sub(distance);
    AABB::from_center(center, distance) == wanted && AABB::from_center(center, below) == wanted
}

// Corners come in any order; a box round a center is held in the range.
#[test]
fn boxes_of_corners_and_of_centers(rt: HostRuntime) {
    let answers = [
        has_corners([2i8, -3], [0, 4], [0, -3], [2, 4]),
        has_corners([0i8, 2], [1, 1], [0, 1], [1, 2]),
        has_corners([2i8, -3], [2, -3], [2, -3], [2, -3]),
        has_corners([0i8, 2], [0, 2], [0, 2], [0, 2]),
        has_corners([127i8, -128], [127, -128], [127, -128], [127, -128]),
        is_round([100i8, 0], 50, [50, -50], [127, 50]),
    ];
    assert!(rt; answers == [true; 6]);
}

/// The corners of a box, a point, the nearest point of the box, its squared distance, and MINMAXDIST.
type DistanceRow<P> = (P, P, P, P, <P as Point>::Scalar, <P as Point>::Scalar);

/// Whether a box has this nearest point, squared distance and MINMAXDIST.
fn box_is_so_far<P: Point + Copy>(row: &DistanceRow<P>) -> bool {
    let made = boxed(row.0, row.1);
    made.min_point(&row.2) == row.3
        && made.distance_2(&row.2) == row.4
        && made.min_max_dist_2(&row.2) == row.5
}

/// The same of several boxes.
fn are_so_far<P: Point + Copy>(rows: &[DistanceRow<P>]) -> bool {
    for row in rows {
        if !box_is_so_far(row) {
            return false;
        }
    }
    true
}

#[test]
fn distances_from_a_point(rt: HostRuntime) {
    assert!(rt;
        are_so_far(&[
            ([0i8, -3], [2, 4], [5, 1], [2, 1], 9, 25),
            ([0, -3], [2, 4], [5, -7], [2, -3], 25, 41),
            ([0, 0], [10, 0], [9, 0], [9, 0], 0, 1),
            ([0, 0], [10, 4], [9, 0], [9, 0], 0, 17),
            // All farther faces come to 127, held; less the difference of one axis that would be 27.
            ([0, 0], [10, 10], [0, 0], [0, 0], 0, 100),
            (
                [-128, -128],
                [-128, -128],
                [127, 127],
                [-128, -128],
                127,
                127,
            ),
        ])
    );
}

/// Whether an envelope is a point: not empty, of area 1, and at distance 0 from a point.
fn is_dot<E: Envelope>(dot: &E, point: &E::Point, zero: &ScalarOf<E>, one: &ScalarOf<E>) -> bool {
    !dot.is_empty()
        && dot.area() == *one
        && dot.perimeter_value() == *zero
        && dot.min_max_dist_2(point) == *zero
        && dot.distance_2(point) == *zero
        && dot.contains_point(point)
}

// The empty box of points with no axis is a point.
#[test]
fn a_box_with_no_axis(rt: HostRuntime) {
    let none: [i32; 0] = [];
    assert!(rt; is_dot(&AABB::new_empty(), &none, &0, &1));
}

/// Whether the bounding box of some points is the box from `lower` to `upper`.
fn is_hull<P: Point + Copy>(points: &[P], lower: P, upper: P) -> bool {
    AABB::from_points(points) == boxed(lower, upper)
}

#[test]
fn boxes_of_points(rt: HostRuntime) {
    let none: [[i32; 2]; 0] = [];
    let answers = [
        is_hull(&[[1i32, 5], [2, 3], [1, 5], [1, 5]], [1, 3], [2, 5]),
        is_hull(&[[7i32, -7]], [7, -7], [7, -7]),
        is_hull(&none, [1, 1], [0, 0]),
        is_hull(&[(3i32, 3, 3), (4, 4, 4)], (3, 3, 3), (4, 4, 4)),
    ];
    assert!(rt; answers == [true; 4]);
}

/// The corners of a box; for the empty box the first is above the second.
type Corners = ([i64; 2], [i64; 2]);

const FULL: Corners = ([i64::MIN, i64::MIN], [i64::MAX, i64::MAX]);

const EMPTY: Corners = ([i64::MAX, i64::MAX], [i64::MIN, i64::MIN]);

/// Two boxes, whether they intersect, whether the first contains the second, the area of the intersection,
/// and the merge.
type PairRow<P> = ((P, P), (P, P), bool, bool, <P as Point>::Scalar, (P, P));

/// Whether two envelopes intersect, contain, overlap and merge as expected.
fn is_paired<E: Envelope>(
    one: &mut E,
    other: &E,
    intersects: bool,
    contains: bool,
    shared: &ScalarOf<E>,
    merge: &E,
) -> bool {
    let answers = one.intersects(other) == intersects
        && one.contains_envelope(other) == contains
        && one.intersection_area(other) == *shared
        && one.merged(other) == *merge;
    one.merge(other);
    answers && *one == *merge
}

/// Whether a pair of boxes answers as expected.
fn pair_is_so<P: Point + Copy>(row: &PairRow<P>) -> bool {
    let mut first = boxed(row.0.0, row.0.1);
    let second = boxed(row.1.0, row.1.1);
    let both = boxed(row.5.0, row.5.1);
    is_paired(&mut first, &second, row.2, row.3, &row.4, &both)
}

/// Whether all pairs of boxes answer as expected.
fn are_paired<P: Point + Copy>(rows: &[PairRow<P>]) -> bool {
    for row in rows {
        if !pair_is_so(row) {
            return false;
        }
    }
    true
}

// Merged with the empty box, a box stays as it is: rstar's test `empty_rect`.
#[test]
fn pairs_of_boxes(rt: HostRuntime) {
    let unit: Corners = ([0, 0], [1, 1]);
    let two: Corners = ([0, 0], [2, 2]);
    let wide: Corners = ([0, 0], [4, 5]);
    assert!(rt;
        are_paired(&[
            // They touch.
            (two, ([2, 1], [4, 5]), true, false, 0, wide),
            (two, ([3, 0], [4, 1]), false, false, 0, ([0, 0], [4, 2])),
            (two, ([1, -1], [4, 1]), true, false, 1, ([0, -1], [4, 2])),
            (wide, ([2, 1], [4, 5]), true, true, 8, wide),
            (unit, EMPTY, false, true, 0, unit),
            (EMPTY, unit, false, false, 0, unit),
            (EMPTY, FULL, true, false, 0, FULL),
        ])
    );
    let none = ([127i8, 127], [-128, -128]);
    let all = ([-128, -128], [127, 127]);
    assert!(rt;
        are_paired(&[
            (([0, 0], [1, 1]), none, false, true, 0, ([0, 0], [1, 1])),
            (none, all, true, false, 0, all),
        ])
    );
}

/// Whether boxes contain a point, and are empty, as expected.
fn have_points<P: Point + Copy>(rows: &[((P, P), P, bool, bool)]) -> bool {
    for (corners, point, contained, empty) in rows {
        let made = boxed(corners.0, corners.1);
        if made.contains_point(point) != *contained || made.is_empty() != *empty {
            return false;
        }
    }
    true
}

#[test]
fn points_in_boxes(rt: HostRuntime) {
    assert!(rt;
        have_points(&[
            (([0i64, 0], [4, 5]), [4, 0], true, false),
            (([0, 0], [2, 2]), [4, 0], false, false),
            (([0, 0], [2, 2]), [2, 3], false, false),
            (EMPTY, [0, 0], false, true),
        ])
    );
}

/// Whether three values are strictly increasing, and the maximum of the first and the last is the last.
fn rise<V: Ord + Copy>(low: V, wide: V, high: V) -> bool {
    low < wide && wide < high && low != wide && high.max(low) == high
}

/// The hash of a value.
pub(crate) fn hashed<T: Hash>(item: &T) -> u64 {
    let mut state = DefaultHasher::new();
    item.hash(&mut state);
    state.finish()
}

/// Whether the debug text of a value is this one.
fn is_shown<V: Debug>(alloc: Global, value: &V, text: &str) -> bool {
    let shown: Result<String, AllocError> = format!(in alloc; "{value:?}");
    match &shown {
        Ok(shown) => shown.as_str() == text,
        Err(_) => false,
    }
}

// Whether a box has two corners in order; boxes by their corners, by their lower ones first; equal ones hash alike, and
// show their corners.
#[test]
fn boxes_are_ordered_hashed_and_shown_by_their_corners(rt: HostRuntime) {
    assert!(rt; upright(&[0i64, -3], &[2, 4]));
    assert!(rt; !upright(&[0i64, 5], &[2, 4]));
    let low = AABB::from_corners([0i64, 5], [1, 6]);
    let wide = AABB::from_corners([0, 5], [9, 6]);
    assert!(rt; rise(low, wide, AABB::from_corners([1, 0], [1, 1])));
    let one = AABB::from_corners([0i64, 2], [1, 1]);
    assert!(rt; hashed(&one) == hashed(&AABB::from_corners([0i64, 1], [1, 2])));
    assert!(rt; is_shown(rt.alloc(), &one, "AABB { lower: [0, 1], upper: [1, 2] }"));
}

/// Whether a counted box has this box and this count, and is empty where the count is 0.
fn has_count<P: Point>(counted: &Counted<P>, aabb: &AABB<P>, count: usize) -> bool {
    *counted.aabb() == *aabb && counted.count() == count && counted.is_empty() == (count == 0)
}

/// Whether merging an envelope with itself changes it as expected, and merging the empty envelope with it
/// gives it; and whether the merge of two empty envelopes is empty and equals it as expected.
fn merges_alike<E: Envelope>(one: &E, twice: bool, nothing: bool) -> bool {
    let empty = E::new_empty();
    (one.merged(one) == *one) == twice
        && (empty == *one) == nothing
        && empty.merged(one) == *one
        && empty.is_empty()
}

/// Whether a box counts this often, alone and merged with itself. The empty envelope equals it where the
/// count is 0.
fn merges<P: Point>(one: &Counted<P>, aabb: &AABB<P>, count: usize, twice: usize) -> bool {
    has_count(one, aabb, count)
        && has_count(&one.merged(one), aabb, twice)
        && merges_alike(one, count == twice, count == 0)
}

// What is counted, merged with itself: the count before and after. A box with no axis is not empty, and counts; the
// count of nothing is 0.
#[test]
fn merges_add_counts(rt: HostRuntime) {
    let rows: [(AABB<[i64; 2]>, usize, usize); 3] = [
        (AABB::from_point([1, 2]), 1, 2),
        (AABB::from_corners([0, 0], [2, 2]), 1, 2),
        (AABB::new_empty(), 0, 0),
    ];
    for &(aabb, count, twice) in &rows {
        assert!(rt; merges(&Counted::new(aabb), &aabb, count, twice));
    }
    let none: [i64; 0] = [];
    let one = AABB::from_point(none);
    assert!(rt; merges(&Counted::new(one), &one, 1, 2));
}

// rstar's test `test_min_max_dist_2_issue_40_regression` with the decimals cut to four and taken as whole numbers.
#[test]
fn a_min_max_distance_is_that_of_a_corner(rt: HostRuntime) {
    let place = [6950i64, 2207, 8186];
    let boxed = AABB::from_corners([7018, 2121, 8120], [7297, 2302, 8194]);
    let corner = [7018, 2302, 8120].distance_2(&place);
    assert!(rt; boxed.min_max_dist_2(&place) == 18005 && corner == 18005);
}

/// Whether two envelopes lie so far apart from either side, squared: 0 exactly where they intersect.
fn lie_apart<E: EnvelopeDistance>(one: &E, other: &E, apart: ScalarOf<E>) -> bool {
    one.distance_2_to_envelope(other) == apart
        && other.distance_2_to_envelope(one) == apart
        && one.intersects(other) == apart.is_zero()
}

// Two boxes by their corners, and their squared distance, held at the greatest scalar.
#[test]
fn boxes_lie_apart(rt: HostRuntime) {
    type Row = ([i8; 2], [i8; 2], [i8; 2], [i8; 2], i8);
    const ROWS: [Row; 7] = [
        ([0, 0], [2, 2], [2, 2], [3, 3], 0),
        ([0, 0], [2, 2], [1, -4], [1, 4], 0),
        ([0, 0], [2, 2], [3, 3], [4, 4], 2),
        ([0, 0], [2, 2], [0, 7], [9, 9], 25),
        ([0, 0], [2, 2], [-9, -7], [-8, -6], 100),
        ([0, 0], [2, 2], [13, 1], [14, 1], 121),
        ([-128, 0], [-128, 0], [127, 0], [127, 0], 127),
    ];
    for &(a, b, c, d, apart) in &ROWS {
        let one = AABB::from_corners(a, b);
        let other = AABB::from_corners(c, d);
        assert!(rt;
            lie_apart(&one, &other, apart)
                && lie_apart(&Counted::new(one), &Counted::new(other), apart)
        );
    }
}
