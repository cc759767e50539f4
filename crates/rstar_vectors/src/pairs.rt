//! What a join of a tree with itself gives, and what lies near a box.
//!
//! What is done to trees is generic, and a test gives it elements.

ghost use Rattle.std.specs.Prelude.{◌≡◌, ◌≤◌, min, map, filter, pos, int_le, IfOk};
ghost use Rattle.std.specs.List.Sorted.{IsPermutation};
ghost use Rattle.rstar.specs.SelfJoins.{self_join, own_meet};
ghost use Rattle.rstar.specs.Trees.{root_of, elements_in, IsWholeTree};

use crate::joins::{Paired, Touching, joined, spread};
use crate::payloads::{Walked, walked};
use crate::scenarios::{ALONG_A_LINE, counts, drained, in_steps, inserted, let_go, loaded};
use rstar::object::Distance;
use rstar::{
    AABB, DefaultParams, Envelope, EnvelopeDistance, Point, RTree, RTreeObject, RTreeParams,
};
use std::alloc::{AllocError, Global};

/// The pairs of elements of a tree that meet, each pair of places once: those that a scan of the elements finds, each with
/// those behind it; and how many pairs of nodes were opened for them.
pub(crate) fn paired<T: RTreeObject, Params: RTreeParams>(
    alloc: Global,
    tree: &RTree<T, Params>,
) -> Result<Paired<'_, T, T>, AllocError>
    requires { IsWholeTree T.Envelope.boxes T.object Params.MAX_SIZE tree.now }
    ensures all { IfOk result (λ r. IsPermutation (map (λ p. (p.0.now, p.1.now)) r.0.items)
        (self_join T.Envelope.boxes.intersects T.object.box_of (elements_in tree.now))) }
    ensures opened { IfOk result (λ r. r.1
        ≡ min (own_meet T.Envelope.boxes.intersects T.object.box_of (root_of tree.now)) usize.MAX) }
{
    match tree.intersecting_pairs() {
        Ok(mut pairs) => match drained(alloc, &mut pairs) {
            Ok(all) => Ok((all, pairs.opened())),
            Err(refused) => Err(refused),
        },
        Err(refused) => Err(refused),
    }
}

/// Whether these are the pairs that a scan of the elements finds, each once, and no more pairs of nodes were opened than by
/// the join of the tree with itself.
fn has_pairs<T: Touching + PartialEq>(
    pairs: Result<Paired<'_, T, T>, AllocError>,
    most: usize,
    elements: &[T],
) -> bool {
    let Ok((pairs, opened)) = &pairs else {
        return false;
    };
    let mut wanted = 0usize;
    let mut has_all = *opened <= most;
    let mut rest = elements;
    while let Some((one, behind)) = rest.split_first() {
        for other in behind {
            if one.touches(other) {
                has_all &= (&**pairs).contains(&(one, other)) || (&**pairs).contains(&(other, one));
                wanted = wanted.saturating_add(1);
            }
        }
        rest = behind;
    }
    has_all && pairs.len() == wanted
}

/// How many pairs of nodes the join of a tree with itself opens.
fn opened_by_join<T: RTreeObject, Params: RTreeParams>(
    alloc: Global,
    tree: &RTree<T, Params>,
) -> usize
    requires { IsWholeTree T.Envelope.boxes T.object Params.MAX_SIZE tree.now }
{
    joined(alloc, tree, tree).map_or(0, |all| all.1)
}

/// Whether a tree of these elements, inserted in turn, and a load have the pairs that a scan finds.
fn pairs_as_scanned<T: RTreeObject + PartialEq + Copy>(alloc: Global, elements: &[T]) -> bool
    requires { 2 ≤ T.Envelope.Point.DIMENSIONS }
{
    let grown = inserted::<T, DefaultParams>(alloc, elements);
    let filled = loaded::<T, DefaultParams>(alloc, elements);
    let is_so = has_pairs(
        paired(alloc, &grown),
        opened_by_join(alloc, &grown),
        elements,
    ) & has_pairs(
        paired(alloc, &filled),
        opened_by_join(alloc, &filled),
        elements,
    );
    let_go(grown);
    let_go(filled);
    is_so
}

// None, one, some under a single root, and trees of several levels.
#[test]
fn pairs_are_those_of_a_scan(rt: HostRuntime) {
    const ROWS: [u64; 6] = [0, 1, 2, 7, 60, 300];
    for &count in &ROWS {
        let all = spread(rt.alloc(), count, 37, 53);
        assert!(rt; pairs_as_scanned(rt.alloc(), &all), "of {count}");
    }
}

/// Whether a tree of these elements, inserted in turn, has so many pairs, and opens so many pairs of nodes for them.
fn meet_each_other<T: RTreeObject + Copy>(
    alloc: Global,
    elements: &[T],
    wanted: (usize, usize),
) -> bool {
    let tree = inserted::<T, DefaultParams>(alloc, elements);
    let is_so = counts(paired(alloc, &tree), wanted.0, Some(wanted.1));
    let_go(tree);
    is_so
}

// Equal points, each pair of places once; and points of which no two meet: the root and its two parents are opened, each
// with itself.
#[test]
fn equal_points_meet_each_other(rt: HostRuntime) {
    let equal = in_steps(rt.alloc(), 40, [3, 3], [0, 0]);
    let tree = inserted::<[i32; 2], DefaultParams>(rt.alloc(), &equal);
    let found = paired(rt.alloc(), &tree).map_or(0, |all| all.0.len());
    let_go(tree);
    assert!(rt; found == 780 && meet_each_other(rt.alloc(), &ALONG_A_LINE, (0, 3)));
}

/// The elements within a squared distance of an envelope, and the number of parents visited.
pub(crate) fn near_envelope<'a, T: RTreeObject>(
    alloc: Global,
    tree: &'a RTree<T>,
    envelope: T::Envelope,
    limit: Distance<T>,
) -> Result<Walked<'a, T>, AllocError>
where
    T::Envelope: EnvelopeDistance,
    requires { IsWholeTree T.Envelope.boxes T.object ⟦<DefaultParams as RTreeParams>⟧.MAX_SIZE tree.now }
    ensures given { IfOk result (λ r. map (λ t. t.now) r.0.items
        ≡ filter (λ t. int_le (pos (T.Envelope.apart envelope (T.object.box_of t)))
        (T.Envelope.Point.Scalar.value limit)) (elements_in tree.now)) }
{
    match tree.locate_within_distance_of_envelope(envelope, limit) {
        Ok(walk) => walked(alloc, walk),
        Err(refused) => Err(refused),
    }
}

/// Whether this many elements of a tree lie within a squared distance of an envelope.
fn lie_near<T: RTreeObject + Copy>(
    alloc: Global,
    elements: &[T],
    envelope: T::Envelope,
    limit: Distance<T>,
    count: usize,
) -> bool
where
    T::Envelope: EnvelopeDistance,
{
    let tree = inserted::<T, DefaultParams>(alloc, elements);
    let is_so = counts(near_envelope(alloc, &tree, envelope, limit), count, None);
    let_go(tree);
    is_so
}

// Points along a line, and a box above it.
#[test]
fn points_lie_near_a_box(rt: HostRuntime) {
    let line = in_steps(rt.alloc(), 100, [0, 0], [1, 0]);
    let above = AABB::from_corners([40, 3], [50, 9]);
    const ROWS: [(i32, usize); 6] = [
        (-1, 0),
        (8, 0),
        (9, 11),
        (10, 13),
        (25, 19),
        (i32::MAX, 100),
    ];
    for row in 0..ROWS.len() {
        let &(limit, count) = &ROWS[row];
        assert!(rt;
            lie_near(rt.alloc(), &line, above, limit, count),
            "row {row}"
        );
    }
}
