//! Forced reinsertion: trees stay whole and sized, and a fixed sequence of points gives a fixed shape.

ghost use Rattle.std.specs.Prelude.{◌≤◌};
ghost use Rattle.rstar.specs.Trees.{IsWholeTree};

use crate::node_sizes::{Emptying, Large, Small, Splitting};
use crate::payloads::Asked;
use crate::scenarios::{goes_in, points, stands_within};
use crate::trials::{ALL, Step, go_through};
use rstar::object::PointOf;
use rstar::{
    AABB, DefaultParams, Envelope, EqualEnvelopes, Point, PointDistance, RTree, RTreeObject,
    RTreeParams,
};
use std::alloc::Global;

/// Whether elements can be inserted one after another, each time with one element more and from `least` to
/// `most` children for each parent.
pub(crate) fn all_go_in<T: RTreeObject + Copy, Params: RTreeParams>(
    tree: &mut RTree<T, Params>,
    elements: &[T],
    least: usize,
    most: usize,
) -> bool
    requires { IsWholeTree T.Envelope.boxes T.object Params.MAX_SIZE tree.old }
    ensures { IsWholeTree T.Envelope.boxes T.object Params.MAX_SIZE tree.new }
{
    for element in elements {
        let count = tree.size().saturating_add(1);
        let is_in = goes_in(tree, *element);
        let is_so = is_in & (tree.size() == count) & stands_within(tree, least, most);
        if !is_so {
            return false;
        }
    }
    true
}

/// Inserts elements into trees of all these node sizes, which are whole after each.
fn go_in_at_each_size<T: EqualEnvelopes + PointDistance + Copy>(
    alloc: Global,
    elements: &[T],
    asked: &Asked<T>,
) -> Result<(), usize>
where
    PointOf<T>: Copy,
    requires { 2 ≤ T.Envelope.Point.DIMENSIONS }
{
    let small = [Step::InSized(0, ALL, 2, 4)];
    go_through::<T, DefaultParams>(alloc, elements, 0, asked, &[Step::InSized(0, ALL, 3, 6)])?;
    go_through::<T, Splitting>(alloc, elements, 0, asked, &small)?;
    go_through::<T, Small>(alloc, elements, 0, asked, &small)?;
    go_through::<T, Emptying>(alloc, elements, 0, asked, &[Step::InSized(0, ALL, 1, 10)])?;
    go_through::<T, Large>(alloc, elements, 0, asked, &[Step::InSized(0, ALL, 10, 20)])
}

#[test]
fn a_thousand_insertions_leave_whole_and_sized_trees(rt: HostRuntime) {
    let all = points(rt.alloc(), 1000);
    let none = (AABB::from_point([0, 0]), [0, 0], 0);
    assert_eq!(rt; go_in_at_each_size(rt.alloc(), &all, &none), Ok(()));
}
