//! Loops over neighbours, at concrete types and at any.

ghost use Rattle.std.specs.Prelude.{◌≡◌, ◌≤◌, ℕ, [], length, pos, min, map, Ok, IsOk, IfOk, IfSome, IfNone};
ghost use Rattle.std.specs.Iterator.{IsFinite, Drains};
ghost use Rattle.std.specs.List.Sorted.{IsPermutation};
ghost use Rattle.rstar_base.specs.Points.{table};
ghost use Rattle.rstar_base.specs.Sizes.{IsNarrow};
ghost use Rattle.rstar.specs.Lists.{AreInOrder, AreNearestOf, IsNearest, AreSomeNearest};
ghost use Rattle.rstar.specs.Nodes.{parents_of};
ghost use Rattle.rstar.specs.Trees.{root_of, elements_in, IsWholeTree};

use crate::neighbour_rows::fits;
use rstar::algorithm::nearest_neighbor::{
    nearest_neighbor_with_distance_2, nearest_neighbors_with_distance_2,
};
use rstar::params::{DefaultParams, RTreeParams};
use rstar::rtree::RTree;
use rstar_base::{AABB, Distance, Envelope, Point, PointDistance, PointOf, RTreeNum, RTreeObject};
use std::alloc::{AllocError, Global};

/// A place.
type At = [i64; 2];

/// All elements of a tree, the nearest first, and the number of parents visited.
pub(crate) fn in_order<'a, T: PointDistance>(
    alloc: Global,
    tree: &'a RTree<T>,
    place: PointOf<T>,
) -> Result<(Vec<&'a T>, usize), AllocError>
    requires narrow { IsNarrow T.Envelope.Point.row }
    requires whole { IsWholeTree T.Envelope.boxes T.object ⟦<DefaultParams as RTreeParams>⟧.MAX_SIZE tree.now }
    ensures all { IfOk result (λ r. IsPermutation (elements_in tree.now) (map (λ t. t.now) r.0.items)) }
    ensures order { IfOk result (λ r. AreInOrder (λ t. T.distances.distance_2 t (table T.Envelope.Point.DIMENSIONS
        (T.Envelope.Point.coord place))) (map (λ t. t.now) r.0.items)) }
    ensures opened { IfOk result (λ r. r.1 ≡ min (parents_of (root_of tree.now)) usize.MAX) }
{
    fits::<PointOf<T>>();
    let mut neighbors = tree.nearest_neighbor_iter(place);
    let mut all = Vec::new(alloc);
    while let Some(found) = neighbors.next() {
        let item = found?;
        all.push(item)?;
    }
    Ok((all, neighbors.opened()))
}

/// The nearest element, by the first call of `next`, which is not refused where there are few.
fn first_of<'a, T: PointDistance>(
    tree: &'a RTree<T>,
    place: PointOf<T>,
) -> Option<Result<&'a T, AllocError>>
    requires narrow { IsNarrow T.Envelope.Point.row }
    requires whole { IsWholeTree T.Envelope.boxes T.object ⟦<DefaultParams as RTreeParams>⟧.MAX_SIZE tree.now }
    ensures none { IfNone result (elements_in tree.now ≡ []) }
    ensures few { length (elements_in tree.now) ≤ 32 → IfSome result IsOk }
{
    fits::<PointOf<T>>();
    let mut neighbors = tree.nearest_neighbor_iter(place);
    neighbors.next()
}

/// All items of an iterator over results, by a `for`, or its first refusal.
fn listed<A: Drop, I: Iterator<Item = Result<A, AllocError>>>(
    alloc: Global,
    items: I,
) -> Result<Vec<A>, AllocError>
    requires can { I.can_next items }
    requires ends { IsFinite (I.remaining items) }
    ensures { IfOk result (λ all. Drains I.next_gives items (map Ok all.items)) }
{
    let mut all = Vec::new(alloc);
    for item in items {
        let found = item?;
        all.push(found)?;
    }
    Ok(all)
}

/// The `most` nearest points by `take`, the nearest first; all where there are fewer.
fn nearest_points<'a>(
    alloc: Global,
    tree: &'a RTree<At>,
    place: At,
    most: usize,
) -> Result<Vec<&'a At>, AllocError>
    requires { IsWholeTree ⟦<AABB<[i64; 2]> as Envelope>⟧.boxes ⟦<[i64; 2] as RTreeObject>⟧.object
        ⟦<DefaultParams as RTreeParams>⟧.MAX_SIZE tree.now }
    ensures { IfOk result (λ ts. AreNearestOf
        (λ t. ⟦<[i64; 2] as PointDistance>⟧.distances.distance_2 t (table 2 (⟦<[i64; 2] as Point>⟧.coord place)))
        (elements_in tree.now) most (map (λ t. t.now) ts.items)) }
{
    listed(alloc, tree.nearest_neighbor_iter(place).take(most))
}

/// All points by `try_collect`, the nearest first.
fn points_in_order<'a>(
    alloc: Global,
    tree: &'a RTree<At>,
    place: At,
) -> Result<Vec<&'a At>, AllocError>
    requires { IsWholeTree ⟦<AABB<[i64; 2]> as Envelope>⟧.boxes ⟦<[i64; 2] as RTreeObject>⟧.object
        ⟦<DefaultParams as RTreeParams>⟧.MAX_SIZE tree.now }
    ensures all { IfOk result (λ ts. IsPermutation (elements_in tree.now) (map (λ t. t.now) ts.items)) }
    ensures order { IfOk result (λ ts. AreInOrder (λ t. ⟦<[i64; 2] as PointDistance>⟧.distances.distance_2 t
        (table 2 (⟦<[i64; 2] as Point>⟧.coord place))) (map (λ t. t.now) ts.items)) }
{
    tree.nearest_neighbor_iter(place).try_collect(alloc)
}

/// A nearest element with its squared distance, by the function over a root.
pub(crate) fn one_below<'a, T: PointDistance>(
    tree: &'a RTree<T>,
    place: PointOf<T>,
) -> Result<Option<(&'a T, Distance<T>)>, AllocError>
    requires { IsWholeTree T.Envelope.boxes T.object ⟦<DefaultParams as RTreeParams>⟧.MAX_SIZE tree.now }
    ensures none { IfOk result (λ r. IfNone r (elements_in tree.now ≡ [])) }
    ensures one { IfOk result (λ r. IfSome r (λ x. IsNearest (λ t. T.distances.distance_2 t
        (table T.Envelope.Point.DIMENSIONS (T.Envelope.Point.coord place))) (elements_in tree.now) x.0.now)) }
    ensures few { parents_of (root_of tree.now) ≤ 32 → IsOk result }
{
    nearest_neighbor_with_distance_2(tree.root(), place)
}

/// All elements at the least squared distance, by the function over a root.
pub(crate) fn all_below<'a, T: PointDistance>(
    tree: &'a RTree<T>,
    place: PointOf<T>,
) -> Result<Option<(Vec<&'a T>, Distance<T>)>, AllocError>
    requires { IsWholeTree T.Envelope.boxes T.object ⟦<DefaultParams as RTreeParams>⟧.MAX_SIZE tree.now }
    ensures { IfOk result (λ r. IfSome r (λ x. (d : ℕ) × (T.Envelope.Point.Scalar.value x.1 ≡ pos d) × AreSomeNearest
        (λ t. T.distances.distance_2 t (table T.Envelope.Point.DIMENSIONS (T.Envelope.Point.coord place)))
        (elements_in tree.now) d (map (λ t. t.now) x.0.items))) }
{
    nearest_neighbors_with_distance_2(tree.root(), place)
}

#[cfg(test)]
mod tests {
    use super::*;
    use crate::scenarios::{inserted, let_go};

    /// Whether these elements are given, in this order.
    fn are_lent<T: PartialEq>(lent: Result<Vec<&T>, AllocError>, wanted: &[T]) -> bool {
        match &lent {
            Ok(all) => {
                if all.len() != wanted.len() {
                    return false;
                }
                for k in 0..wanted.len() {
                    if *all[k] != wanted[k] {
                        return false;
                    }
                }
                true
            }
            Err(_) => false,
        }
    }

    #[test]
    fn loops_give_the_nearest_points_first(rt: HostRuntime) {
        const PLACES: [At; 3] = [[5, 5], [0, 0], [2, 2]];
        let tree = inserted::<At, DefaultParams>(rt.alloc(), &PLACES);
        let is_so = are_lent(
            nearest_points(rt.alloc(), &tree, [0, 1], 2),
            &[[0, 0], [2, 2]],
        ) && are_lent(
            points_in_order(rt.alloc(), &tree, [6, 6]),
            &[[5, 5], [2, 2], [0, 0]],
        );
        let is_first = match first_of(&tree, [6, 6]) {
            Some(Ok(place)) => *place == [5, 5],
            _ => false,
        };
        let_go(tree);
        assert!(rt; is_so & is_first);
    }
}
