//! Tests of scalars and points: each scalar type at its ends, and each point type.

use num_traits::Zero;
use rstar_base::mint::{Point2, Point3};
use rstar_base::{Point, RTreeNum};

/// Whether sums and differences of the ends of a scalar type are clamped.
fn sums_at_ends<S: RTreeNum>(low: S, high: S, minus_one: S) -> bool {
    let sums = (
        low.clamped_add(low),
        low.clamped_add(high),
        high.clamped_add(high),
    );
    let differences = (
        low.clamped_sub(high),
        high.clamped_sub(high),
        high.clamped_sub(low),
    );
    sums == (low, minus_one, high) && differences == (low, S::zero(), high)
}

/// Whether products of the ends are clamped, and scalars compare.
fn products_at_ends<S: RTreeNum>(low: S, high: S, minus_one: S) -> bool {
    let held = (
        low.clamped_mul(low),
        low.clamped_mul(minus_one),
        high.clamped_mul(S::one()),
    );
    let below = (low.clamped_mul(high), high.clamped_mul(low), low.ord());
    held == (high, high, high) && below == (low, low, low)
}

/// Whether half sums of the ends are exact.
fn half_sums_at_ends<S: RTreeNum>(low: S, high: S, minus_one: S) -> bool {
    let zero = S::zero();
    (high.half_sum(high), low.half_sum(low)) == (high, low)
        && (low.half_sum(high), minus_one.half_sum(zero)) == (zero, zero)
}

/// Whether squared distances of the ends are clamped, and those of near numbers exact.
fn distances_at_ends<S: RTreeNum>(low: S, high: S, minus_one: S) -> bool {
    let zero = S::zero();
    let held = (
        low.distance_2(high),
        high.distance_2(low),
        low.distance_2(minus_one),
    );
    let exact = (minus_one.distance_2(zero), high.distance_2(high));
    held == (high, high, high) && exact == (S::one(), zero)
}

/// Whether half sums and products are as in these rows.
fn answers<S: RTreeNum>(halves: &[(S, S, S)], products: &[(S, S, S)]) -> bool {
    for (a, b, half) in halves {
        if a.half_sum(*b) != *half {
            return false;
        }
    }
    for (a, b, product) in products {
        if a.clamped_mul(*b) != *product {
            return false;
        }
    }
    true
}

/// Whether a scalar type answers as expected at its least value, its greatest, and -1, and in these rows.
fn is_held<S: RTreeNum>(
    low: S,
    high: S,
    minus_one: S,
    halves: &[(S, S, S)],
    products: &[(S, S, S)],
) -> bool {
    sums_at_ends(low, high, minus_one)
        && products_at_ends(low, high, minus_one)
        && half_sums_at_ends(low, high, minus_one)
        && distances_at_ends(low, high, minus_one)
        && answers(halves, products)
}

#[test]
fn scalars_are_held_at_their_ends(rt: HostRuntime) {
    let answers = [
        is_held(
            i8::MIN,
            i8::MAX,
            -1,
            &[(-3, 0, -1), (127, 127, 127), (-128, -127, -127)],
            &[
                (11, 11, 121),
                (12, 12, 127),
                (-16, 8, -128),
                (-11, 12, -128),
            ],
        ),
        is_held(
            i16::MIN,
            i16::MAX,
            -1,
            &[(-3, 0, -1)],
            &[(181, 181, 32761), (182, 182, 32767)],
        ),
        is_held(
            i32::MIN,
            i32::MAX,
            -1,
            &[(-3, 0, -1)],
            &[(46340, 46340, 2147395600), (46341, 46341, 2147483647)],
        ),
        is_held(
            i64::MIN,
            i64::MAX,
            -1,
            &[(-3, 0, -1)],
            &[
                (2147483647, 2147483647, 4611686014132420609),
                (2147483648, 2147483648, 4611686018427387904),
                (-2147483648, 2147483647, -4611686016279904256),
                (3037000499, 3037000499, 9223372030926249001),
                (3037000500, 3037000500, 9223372036854775807),
            ],
        ),
        is_held(
            isize::MIN,
            isize::MAX,
            -1,
            &[(-3, 0, -1)],
            &[(3037000500, -3037000500, -9223372036854775808)],
        ),
        is_held(
            i128::MIN,
            i128::MAX,
            -1,
            &[(-3, 0, -1), (3, -4, 0), (4, -3, 0), (-3, -4, -3), (3, 4, 3)],
            &[(9223372036854775808, 4, 36893488147419103232)],
        ),
    ];
    assert!(rt; answers == [true; 6]);
}

#[test]
fn the_greatest_squared_distances_that_fit(rt: HostRuntime) {
    let exact = (
        (-1i64).distance_2(3037000498),
        3037000499isize.distance_2(0),
        46339i32.distance_2(-1),
    );
    let held = (
        (-1i64).distance_2(3037000499),
        3037000500isize.distance_2(0),
        46340i32.distance_2(-1),
    );
    assert!(rt; exact == (9223372030926249001, 9223372030926249001, 2147395600));
    assert!(rt; held == (9223372036854775807, 9223372036854775807, 2147483647));
}

/// Whether a point has these coordinates, except for 0 on one axis.
fn reads<P: Point>(point: &P, coordinates: &[P::Scalar], axis: usize) -> bool {
    for (k, coordinate) in coordinates.iter().enumerate() {
        if P::DIMENSIONS <= k {
            return false;
        }
        let wanted = if k == axis {
            P::Scalar::zero()
        } else {
            *coordinate
        };
        if point.nth(k) != wanted {
            return false;
        }
    }
    true
}

/// Whether a point has these coordinates, also after 0 is written on an axis. The points then differ exactly
/// where that coordinate was not 0.
fn reads_and_writes<P: Point + Copy>(point: P, coordinates: &[P::Scalar], axis: usize) -> bool {
    if P::DIMENSIONS != coordinates.len() || !reads(&point, coordinates, P::DIMENSIONS) {
        return false;
    }
    let mut written = point;
    let mut is_other = false;
    if axis < P::DIMENSIONS {
        is_other = point.nth(axis) != P::Scalar::zero();
        *written.nth_mut(axis) = P::Scalar::zero();
    }
    reads(&written, coordinates, axis) && (written != point) == is_other && point == point
}

#[test]
fn tuples_arrays_and_named_coordinates(rt: HostRuntime) {
    let ten = (0i64, 1, 2, 3, 4, 5, 6, 7, 8, 9);
    let none: [i32; 0] = [];
    let second = Point2 { x: 1i64, y: 2 };
    let third = Point3 {
        x: 1i128,
        y: 2,
        z: 3,
    };
    let answers = [
        reads_and_writes((1i64,), &[1], 0),
        reads_and_writes((1i64, 2), &[1, 2], 0),
        reads_and_writes((1i64, 2), &[1, 2], 1),
        reads_and_writes((0i64, 1, 2), &[0, 1, 2], 2),
        reads_and_writes((1i64, 2, 3, 4), &[1, 2, 3, 4], 3),
        reads_and_writes((1i64, 2, 3, 4, 5), &[1, 2, 3, 4, 5], 2),
        reads_and_writes((1i8, 2, 3, 4, 5, 6), &[1, 2, 3, 4, 5, 6], 5),
        reads_and_writes((1i16, 2, 3, 4, 5, 6, 7), &[1, 2, 3, 4, 5, 6, 7], 6),
        reads_and_writes((1i32, 2, 3, 4, 5, 6, 7, 8), &[1, 2, 3, 4, 5, 6, 7, 8], 0),
        reads_and_writes(
            (1isize, 2, 3, 4, 5, 6, 7, 8, 9),
            &[1, 2, 3, 4, 5, 6, 7, 8, 9],
            4,
        ),
        reads_and_writes(ten, &[0, 1, 2, 3, 4, 5, 6, 7, 8, 9], 9),
        reads_and_writes(none, &none, 0),
        reads_and_writes([7i64], &[7], 0),
        reads_and_writes([7i64, -3], &[7, -3], 1),
        reads_and_writes([7i64, -3, 5], &[7, -3, 5], 1),
        reads_and_writes(second, &[1, 2], 1),
        reads_and_writes(third, &[1, 2, 3], 2),
    ];
    assert!(rt; answers == [true; 17]);
}

#[test]
fn the_generator_is_asked_in_order(rt: HostRuntime) {
    let mut asked = 0usize;
    let pair = <(i64, i64)>::generate(|axis| {
        let in_order = axis == asked;
        asked = asked.wrapping_add(1);
        if in_order { 1 } else { 0 }
    });
    assert!(rt; pair == (1, 1));
    let mut asked = 0usize;
    let array = <[i64; 3]>::generate(|axis| {
        let in_order = axis == asked;
        asked = asked.wrapping_add(1);
        if in_order { 1 } else { 0 }
    });
    assert!(rt; array == [1, 1, 1]);
}
