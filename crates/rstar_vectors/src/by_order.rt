//! Neighbours in the stated order: a caller that loops over all of them, rows, and a plain sort beside the tree.

ghost use Rattle.std.specs.Prelude.{◌≡◌, ◌≤◌, List, min, pos, map, IfOk};
ghost use Rattle.std.specs.List.{AllByRecursion};
ghost use Rattle.std.specs.List.Sorted.{IsPermutation};
ghost use Rattle.rstar_base.specs.Points.{table};
ghost use Rattle.rstar_base.specs.Sizes.{IsNarrow};
ghost use Rattle.rstar.specs.ByOrder.{IsSearchingByOrder};
ghost use Rattle.rstar.specs.Lists.{AreAlike, AreOrdered, IsNotLater, by_distance};
ghost use Rattle.rstar.specs.Nodes.{parents_of};
ghost use Rattle.rstar.specs.Trees.{root_of, elements_in, IsWholeTree};

use crate::neighbour_rows::{fits, is_as_told};
use crate::scenarios::{ALONG_A_LINE, Outlined, alone, fences_of, inserted, let_go, loaded};
use rstar::algorithm::nearest_neighbor::NearestNeighborByOrderIterator;
use rstar::object::{Distance, PointDistance, PointOf, RTreeObject};
use rstar::point::{Point, RTreeNum};
use rstar::{DefaultParams, Envelope, RTree, RTreeParams};
use std::alloc::{AllocError, Global};

/// All elements of a tree with their squared distances, in the stated order, by distance from a place and then by their
/// own; and how many parents are opened for them. Any list of these elements in that order is this one, up to elements that
/// compare equal.
pub(crate) fn in_stated_order<'a, T: PointDistance + Ord>(
    alloc: Global,
    tree: &'a RTree<T>,
    place: PointOf<T>,
) -> Result<(Vec<(&'a T, Distance<T>)>, usize), AllocError>
    requires narrow { IsNarrow T.Envelope.Point.row }
    requires whole { IsWholeTree T.Envelope.boxes T.object ⟦<DefaultParams as RTreeParams>⟧.MAX_SIZE tree.now }
    ensures all { IfOk result (λ r. IsPermutation (elements_in tree.now) (map (λ n. n.0.now) r.0.items)) }
    ensures order { IfOk result (λ r. AreOrdered (IsNotLater (λ t. T.distances.distance_2 t
        (table T.Envelope.Point.DIMENSIONS (T.Envelope.Point.coord place))) T.cmp) (map (λ n. n.0.now) r.0.items)) }
    ensures one { IfOk result (λ r. (other : List T) → IsPermutation (elements_in tree.now) other
        → AreOrdered (IsNotLater (λ t. T.distances.distance_2 t
        (table T.Envelope.Point.DIMENSIONS (T.Envelope.Point.coord place))) T.cmp) other
        → AreAlike (by_distance (λ t. T.distances.distance_2 t
        (table T.Envelope.Point.DIMENSIONS (T.Envelope.Point.coord place))) T.cmp) (map (λ n. n.0.now) r.0.items) other) }
    ensures distances { IfOk result (λ r. AllByRecursion (λ n. T.Envelope.Point.Scalar.value n.1
        ≡ pos (T.distances.distance_2 n.0.now (table T.Envelope.Point.DIMENSIONS (T.Envelope.Point.coord place))))
        r.0.items) }
    ensures opened { IfOk result (λ r. r.1 ≡ min (parents_of (root_of tree.now)) usize.MAX) }
{
    fits::<PointOf<T>>();
    let mut neighbors = tree.nearest_neighbor_iter_by_order(place);
    let mut all = Vec::new(alloc);
    while let Some(found) = neighbors.next() {
        let item = found?;
        all.push(item)?;
    }
    Ok((all, neighbors.opened()))
}

/// The elements with their squared distances from a place, by distance and then by their own order: a plain sort. Where memory
/// is refused there are fewer.
fn sorted<T: PointDistance + Ord + Copy>(
    alloc: Global,
    elements: &[T],
    place: &PointOf<T>,
) -> Vec<(Distance<T>, T)> {
    let mut all = Vec::new(alloc);
    for element in elements {
        let _refused = all.push((element.distance_2(place), *element)).is_err();
    }
    all.sort_unstable();
    all
}

/// Whether an iterator gives just these elements, with their distances, and so many parents are opened after each, as
/// far as these numbers go; and then none.
fn gives<T: PointDistance + Ord>(
    neighbors: &mut NearestNeighborByOrderIterator<'_, T>,
    wanted: &[(Distance<T>, T)],
    opened: &[usize],
) -> bool
    requires narrow { IsNarrow T.Envelope.Point.row }
    requires searching { IsSearchingByOrder T.Envelope.boxes T.object T.distances T.cmp T.Envelope.Point.DIMENSIONS
        T.Envelope.Point.coord T.Envelope.Point.Scalar.cmp T.Envelope.Point.Scalar.value neighbors.old }
{
    // What a search finds of the layout in eight seconds more is told: the iterator that is lent fits in memory.
    fits::<PointOf<T>>();
    for k in 0..wanted.len() {
        let is_next = match neighbors.next() {
            Some(Ok((element, distance))) => {
                distance == wanted[k].0
                    && *element == wanted[k].1
                    && is_as_told(neighbors.opened(), opened.get(k))
            }
            _ => false,
        };
        if !is_next {
            return false;
        }
    }
    neighbors.next().is_none()
}

/// Whether just these elements are lent, with their distances.
fn are_lent<T: PartialEq, D: PartialEq>(lent: &[(&T, D)], wanted: &[(D, T)]) -> bool {
    if lent.len() != wanted.len() {
        return false;
    }
    for k in 0..wanted.len() {
        if *lent[k].0 != wanted[k].1 || lent[k].1 != wanted[k].0 {
            return false;
        }
    }
    true
}

/// Whether a call lends just these elements, with their distances. It takes what the call gave.
fn lends<T: PartialEq, D: PartialEq + Copy>(
    lent: Result<Vec<(&T, D)>, AllocError>,
    wanted: &[(D, T)],
) -> bool {
    match &lent {
        Ok(all) => are_lent(all, wanted),
        Err(_) => false,
    }
}

/// Whether the calls that list elements in the stated order lend just these: all, and the first half.
fn lists<T: PointDistance + Ord>(
    alloc: Global,
    tree: &RTree<T>,
    place: PointOf<T>,
    wanted: &[(Distance<T>, T)],
) -> bool
where
    PointOf<T>: Copy,
    requires narrow { IsNarrow T.Envelope.Point.row }
    requires whole { IsWholeTree T.Envelope.boxes T.object ⟦<DefaultParams as RTreeParams>⟧.MAX_SIZE tree.now }
{
    let half = wanted.len() / 2;
    lends(alone(in_stated_order(alloc, tree, place)), wanted)
        && lends(tree.first_neighbors_by_order(&place, half), &wanted[..half])
}

/// Whether a tree gives just these elements up, in this order, and then none.
fn pops<T: PointDistance + Ord>(
    tree: &mut RTree<T>,
    wanted: &[(Distance<T>, T)],
    place: PointOf<T>,
) -> bool
where
    PointOf<T>: Copy,
    requires whole { IsWholeTree T.Envelope.boxes T.object ⟦<DefaultParams as RTreeParams>⟧.MAX_SIZE tree.old }
{
    for pair in wanted {
        let is_next = match tree.pop_nearest_neighbor_by_order(place) {
            Ok(Some(element)) => element == pair.1,
            _ => false,
        };
        if !is_next {
            return false;
        }
    }
    tree.size() == 0 && matches!(tree.pop_nearest_neighbor_by_order(place), Ok(None))
}

/// Whether elements come as a plain sort puts them, from a tree of insertions by each call that leaves it, with so many
/// parents opened after each; and it gives them up in that order, and so does a load.
fn come_in_order<T: PointDistance + Ord + Copy>(
    alloc: Global,
    elements: &[T],
    place: PointOf<T>,
    opened: &[usize],
) -> bool
where
    PointOf<T>: Copy,
    requires narrow { IsNarrow T.Envelope.Point.row }
    requires dimensions { 2 ≤ T.Envelope.Point.DIMENSIONS }
{
    fits::<PointOf<T>>();
    let mut tree = inserted::<T, DefaultParams>(alloc, elements);
    let mut load = loaded::<T, DefaultParams>(alloc, elements);
    let wanted = &sorted(alloc, elements, &place);
    let is_so = wanted.len() == elements.len()
        && gives(
            &mut tree.nearest_neighbor_iter_by_order(place),
            wanted,
            opened,
        )
        && lists(alloc, &tree, place, wanted)
        && pops(&mut tree, wanted, place)
        && pops(&mut load, wanted, place);
    let_go(tree);
    let_go(load);
    is_so
}

/// Points on seven columns and five rows, so many of them: most of them more than once.
fn crowded(alloc: Global, count: usize) -> Vec<[i32; 2]> {
    let mut points = Vec::new(alloc);
    for i in 0..count {
        let near = i % 1000;
        let _refused = points
            .push([((37 * near) % 7) as i32, ((53 * near) % 5) as i32])
            .is_err();
    }
    points
}

/// Points, a place, and how many parents are opened after each neighbour.
type Row<'a> = (&'a [[i32; 2]], [i32; 2], &'a [usize]);

// None; points that are as near as others, some of them equal; and seven points, of which four lie under a parent that is
// far, and waits. Then a thousand, of which 35 differ.
#[test]
fn points_come_as_a_plain_sort_puts_them(rt: HostRuntime) {
    const ROWS: [Row<'static>; 4] = [
        (&[], [0, 0], &[]),
        (
            &[[0, 2], [1, 0], [-1, 0], [0, 1], [0, 2], [0, -1]],
            [0, 0],
            &[1, 1, 1, 1, 1, 1],
        ),
        (&ALONG_A_LINE, [0, 0], &[2, 2, 2, 3, 3, 3, 3]),
        (&ALONG_A_LINE, [50, 0], &[2, 2, 3, 3, 3, 3, 3]),
    ];
    for row in 0..ROWS.len() {
        let &(list, place, opened) = &ROWS[row];
        assert!(rt; come_in_order(rt.alloc(), list, place, opened), "row {row}");
    }
    let crowd = crowded(rt.alloc(), 1000);
    for &place in &[[3, 2], [4, 1], [-9, 4]] {
        assert!(rt; come_in_order(rt.alloc(), &crowd, place, &[]));
    }
}

// Fences with equal outlines come by their numbers; others at equal distance by their corners first.
#[test]
fn fences_at_equal_distance_come_by_corner_and_number(rt: HostRuntime) {
    const FENCES: [Outlined; 5] = [
        (9, [0, 0], [1, 1]),
        (4, [0, 0], [1, 1]),
        (5, [-3, 0], [-1, 0]),
        (1, [3, 0], [3, 0]),
        (2, [-3, 0], [-3, 0]),
    ];
    let fences = fences_of(rt.alloc(), &FENCES);
    assert!(rt; fences.len() == 5 && come_in_order(rt.alloc(), &fences, [0, 0], &[]));
}
