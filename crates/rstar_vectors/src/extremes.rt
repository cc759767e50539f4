//! Extreme numbers, many equal points, and points of one axis and of none.

ghost use Rattle.std.specs.Prelude.{◌≤◌};
ghost use Rattle.rstar_base.specs.Sizes.{IsNarrow};

use crate::neighbour_rows::{answers, come_and_go};
use crate::scenarios::{in_steps, inserted, let_go};
use crate::selections::found;
use crate::trials::{By, Drained, Order, Step, go_through};
use rstar::object::{Distance, PointOf};
use rstar::{AABB, DefaultParams, Point, PointDistance};
use std::alloc::Global;

/// Points of two axes; one of them, at a corner; a place between; 0 and the greatest squared distance; and the one below that.
type Ends<'a, P> = (
    &'a [P],
    P,
    P,
    &'a [<P as Point>::Scalar],
    <P as Point>::Scalar,
);

/// All points of two axes whose coordinates are among the least scalar, -1, 0 and the greatest, with a place between whose
/// coordinates are alike.
macro_rules! ends {
    ($low:expr, $high:expr, $between:expr) => {
        (
            &[
                [$low, $low],
                [$low, -1],
                [$low, 0],
                [$low, $high],
                [-1, $low],
                [-1, -1],
                [-1, 0],
                [-1, $high],
                [0, $low],
                [0, -1],
                [0, 0],
                [0, $high],
                [$high, $low],
                [$high, -1],
                [$high, 0],
                [$high, $high],
            ],
            [$high; 2],
            [$between; 2],
            &[0, $high],
            $high - 1,
        )
    };
}

/// Whether of some points one lies at a corner, and all others at the greatest squared distance from it, and all of them so
/// far from a place between: each is within that distance, and none within less.
fn are_held<P: Point + Copy>(alloc: Global, ends: &Ends<'_, P>) -> bool
    requires narrow { IsNarrow P.row }
    requires dimensions { 2 ≤ P.DIMENSIONS }
{
    let &(points, corner, between, first, less) = ends;
    first.len() == 2
        && come_and_go(alloc, points, corner, first, &[])
        && come_and_go(alloc, points, between, &first[1..], &[])
        && has_within(alloc, points, between, first[1], points.len())
        && has_within(alloc, points, between, less, 0)
}

/// Whether so many of some points lie within a squared distance of a place, as a scan of them finds.
fn has_within<P: Point + Copy>(
    alloc: Global,
    points: &[P],
    place: P,
    limit: P::Scalar,
    count: usize,
) -> bool {
    match found(alloc, points, AABB::from_point(place), place, limit) {
        Some(counts) => counts[4] == count,
        None => false,
    }
}

// Distances that no scalar can hold are held at the greatest: the first of sixteen points lies in its own place, and the
// others as far away as can be; from a place between, all of them do.
#[test]
fn all_scalars_at_their_ends(rt: HostRuntime) {
    const I8: Ends<'static, [i8; 2]> = ends!(i8::MIN, i8::MAX, 60);
    const I16: Ends<'static, [i16; 2]> = ends!(i16::MIN, i16::MAX, i16::MAX / 2);
    const I32: Ends<'static, [i32; 2]> = ends!(i32::MIN, i32::MAX, i32::MAX / 2);
    const I64: Ends<'static, [i64; 2]> = ends!(i64::MIN, i64::MAX, i64::MAX / 2);
    const ISIZE: Ends<'static, [isize; 2]> = ends!(isize::MIN, isize::MAX, isize::MAX / 2);
    const I128: Ends<'static, [i128; 2]> = ends!(i128::MIN, i128::MAX, i128::MAX / 2);
    assert!(rt;
        are_held(rt.alloc(), &I8)
            && are_held(rt.alloc(), &I16)
            && are_held(rt.alloc(), &I32)
            && are_held(rt.alloc(), &I64)
            && are_held(rt.alloc(), &ISIZE)
            && are_held(rt.alloc(), &I128)
    );
}

// Five thousand points in one place: the tree stands, with its nodes' sizes, after each insertion; all of them are
// nearest to a place, and leave it; and each is taken out by `==`, after which the tree stands, until one more is not there.
#[test]
fn thousands_of_equal_points(rt: HostRuntime) {
    const STEPS: [Step; 4] = [
        Step::InSized(0, 5000, 3, 6),
        Step::Out(0, 5000, Order::Forward, By::Likeness),
        Step::Left(0),
        Step::Drain(Drained::Near, 1, 0),
    ];
    let same = in_steps(rt.alloc(), 5000, [3, 3], [0, 0]);
    let asked = (AABB::from_point([0, 0]), [0, 0], 18);
    assert!(rt; same.len() == 5000 && come_and_go(rt.alloc(), &same, [0, 0], &[18], &[]));
    assert_eq!(rt;
        go_through::<_, DefaultParams>(rt.alloc(), &same, 0, &asked, &STEPS),
        Ok(())
    );
}

/// Whether all neighbours of a place in a tree of these elements, of any number of axes, lie at these squared distances, by
/// each call.
fn come<T: PointDistance + Copy>(
    alloc: Global,
    elements: &[T],
    place: PointOf<T>,
    distances: &[Distance<T>],
) -> bool
where
    PointOf<T>: Copy,
    requires { IsNarrow T.Envelope.Point.row }
{
    let tree = inserted::<T, DefaultParams>(alloc, elements);
    let is_so = (tree.size() == elements.len())
        & matches!(answers(alloc, &tree, place, distances, &[]), Ok(true));
    let_go(tree);
    is_so
}

// Points of one axis, and points without axes, which all lie at distance 0.
#[test]
fn one_axis_and_none(rt: HostRuntime) {
    const LINE: [[i32; 1]; 20] = [
        [0],
        [1],
        [2],
        [3],
        [4],
        [5],
        [6],
        [7],
        [8],
        [9],
        [10],
        [11],
        [12],
        [13],
        [14],
        [15],
        [16],
        [17],
        [18],
        [19],
    ];
    const SQUARES: [i32; 20] = [
        0, 1, 4, 9, 16, 25, 36, 49, 64, 81, 100, 121, 144, 169, 196, 225, 256, 289, 324, 361,
    ];
    const NOWHERE: [[i32; 0]; 10] = [[]; 10];
    assert!(rt; come(rt.alloc(), &LINE, [0], &SQUARES) && come(rt.alloc(), &NOWHERE, [], &[0; 10]));
}
