//! Neighbours: rows, a plain scan beside the tree, and elements that note when they are asked.

ghost use Rattle.std.proofs.Common.{rules};
ghost use Rattle.std.specs.Cmp.{on_total, partial_order_from_own_ties};
ghost use Rattle.std.specs.Cmp.Rules.{comparing};
ghost use Rattle.std.specs.Mem.{FitsInMemory};
ghost use Rattle.std.specs.Ordering.{as_partial_cmp, eq_by_cmp};
ghost use Rattle.std.specs.Prelude.{◌≡◌, ◌≤◌};
ghost use Rattle.rstar_base.specs.Elements.{carried_objects, carried_distances};
ghost use Rattle.rstar_base.specs.Sizes.{IsNarrow};
ghost use Rattle.rstar_base.specs.laws.CarrierLaws.{carried_laws};
ghost use Rattle.rstar.specs.ByOrder.{IsSearchingByOrder};
ghost use Rattle.rstar.specs.Neighbors.{with_distances, IsSearching};
ghost use Rattle.rstar.specs.Trees.{IsWholeTree};
ghost use Rattle.rstar_vectors.specs.Fits.{iterator_row, alone_row, ordered_row};

use crate::neighbours::{all_below, in_order, one_below};
use crate::scenarios::{ALONG_A_LINE, alone, inserted, let_go, loaded, points};
use rstar::algorithm::nearest_neighbor::{
    NearestNeighborByOrderIterator, NearestNeighborDistance2Iterator, NearestNeighborIterator,
};
use rstar::object::{Distance, PointDistance, PointOf, RTreeObject};
use rstar::point::Point;
use rstar::primitives::{Line, Rectangle};
use rstar::{DefaultParams, Envelope, RTree, RTreeParams};
use rstar_base_vectors::frames::Frame;
use std::alloc::{AllocError, Global};
use std::cell::Cell;
use std::cmp::Ordering;

type At = [i32; 2];

/// Whether a number is as told, where one is told.
pub(crate) fn is_as_told(number: usize, told: Option<&usize>) -> bool {
    match told {
        Some(wanted) => number == *wanted,
        None => true,
    }
}

/// Whether the next neighbour lies at a squared distance, with so many parents opened, where that is told.
fn is_next<T: PointDistance>(
    neighbors: &mut NearestNeighborDistance2Iterator<'_, T>,
    distance: Distance<T>,
    opened: Option<&usize>,
) -> Result<bool, AllocError>
    requires { IsSearching T.Envelope.boxes T.object T.distances T.Envelope.Point.DIMENSIONS
        T.Envelope.Point.coord T.Envelope.Point.Scalar.cmp T.Envelope.Point.Scalar.value neighbors.old }
    ensures { IsSearching T.Envelope.boxes T.object T.distances T.Envelope.Point.DIMENSIONS
        T.Envelope.Point.coord T.Envelope.Point.Scalar.cmp T.Envelope.Point.Scalar.value neighbors.new }
{
    match neighbors.next() {
        Some(Ok((_, found))) => Ok(found == distance && is_as_told(neighbors.opened(), opened)),
        Some(Err(refused)) => Err(refused),
        None => Ok(false),
    }
}

/// Whether an iterator opens no parent before it is asked, gives neighbours at these squared distances with so many
/// parents opened after each, as far as these numbers go, and then none.
fn gives<T: PointDistance>(
    neighbors: &mut NearestNeighborDistance2Iterator<'_, T>,
    distances: &[Distance<T>],
    opened: &[usize],
) -> Result<bool, AllocError>
    requires { IsSearching T.Envelope.boxes T.object T.distances T.Envelope.Point.DIMENSIONS
        T.Envelope.Point.coord T.Envelope.Point.Scalar.cmp T.Envelope.Point.Scalar.value neighbors.old }
{
    let is_fresh = neighbors.opened() == 0;
    for k in 0..distances.len() {
        if !is_next(neighbors, distances[k], opened.get(k))? {
            return Ok(false);
        }
    }
    Ok(is_fresh && neighbors.next().is_none())
}

/// Does nothing but tell that an iterator over neighbours, which holds a point by value, fits in memory.
pub(crate) fn fits<P: Point>()
    requires { IsNarrow P.row }
    ensures with_distances { FitsInMemory (iterator_row P.row P.Scalar.row) }
    ensures alone { FitsInMemory (alone_row P.row P.Scalar.row) }
    ensures ordered { FitsInMemory (ordered_row P.row P.Scalar.row) }
{}

/// What a row asks of an element that was found: how far it is. What compares rows asks for this alone, and not for the some
/// sixty traits that an element type brings.
trait Away<P> {
    /// A squared distance.
    type Far: PartialEq + Copy;

    /// The squared distance from a place.
    fn far(&self, place: &P) -> Self::Far;
}

impl<T: PointDistance> Away<PointOf<T>> for T {
    type Far = Distance<T>;

    fn far(&self, place: &PointOf<T>) -> Distance<T> {
        self.distance_2(place)
    }
}

/// Whether elements lie at these squared distances from a place, in this order.
fn lie_at<P, T: Away<P>>(found: &[&T], place: &P, distances: &[T::Far]) -> bool {
    if found.len() != distances.len() {
        return false;
    }
    for k in 0..distances.len() {
        if found[k].far(place) != distances[k] {
            return false;
        }
    }
    true
}

/// Those numbers at the beginning of an ascending list that equal the first.
fn least_of<S: PartialEq>(ascending: &[S]) -> &[S] {
    for k in 0..ascending.len() {
        if ascending[k] != ascending[0] {
            return ascending.split_at(k).0;
        }
    }
    ascending
}

/// Whether there is a least distance, and it is this.
fn is_at<S: PartialEq>(least: &[S], distance: &S) -> bool {
    match least.first() {
        Some(first) => *first == *distance,
        None => false,
    }
}

/// Whether a neighbour that was found, with its distance, lies at the least distance of some; none, where there is none.
fn is_least<P, T: Away<P>>(
    found: Result<Option<(&T, T::Far)>, AllocError>,
    place: &P,
    least: &[T::Far],
) -> Result<bool, AllocError> {
    match found? {
        Some((element, one)) => Ok(is_at(least, &one) && element.far(place) == one),
        None => Ok(least.is_empty()),
    }
}

/// The same of a neighbour alone.
fn is_least_alone<P, T: Away<P>>(
    found: Result<Option<&T>, AllocError>,
    place: &P,
    least: &[T::Far],
) -> Result<bool, AllocError> {
    match found? {
        Some(element) => Ok(is_at(least, &element.far(place))),
        None => Ok(least.is_empty()),
    }
}

/// Whether elements that were found lie at these squared distances from a place, in this order.
fn are_at<P, T: Away<P>>(
    found: Result<Vec<&T>, AllocError>,
    place: &P,
    distances: &[T::Far],
) -> Result<bool, AllocError> {
    match &found {
        Ok(all) => Ok(lie_at(all, place, distances)),
        Err(_) => Err(AllocError),
    }
}

/// Whether elements that were found with their distances have these, in this order.
pub(crate) fn are_first<T, D: PartialEq + Copy>(
    found: Result<Vec<(&T, D)>, AllocError>,
    distances: &[D],
) -> Result<bool, AllocError> {
    match &found {
        Ok(all) => {
            if all.len() != distances.len() {
                return Ok(false);
            }
            for k in 0..distances.len() {
                if all[k].1 != distances[k] {
                    return Ok(false);
                }
            }
            Ok(true)
        }
        Err(_) => Err(AllocError),
    }
}

/// The same of all nearest neighbours with their distance, and of the least distances.
fn are_least<P, T: Away<P>>(
    found: Result<Option<(Vec<&T>, T::Far)>, AllocError>,
    place: &P,
    least: &[T::Far],
) -> Result<bool, AllocError> {
    match &found {
        Ok(Some((all, one))) => Ok(is_at(least, one) && lie_at(all, place, least)),
        Ok(None) => Ok(least.is_empty()),
        Err(_) => Err(AllocError),
    }
}

/// Whether each call that looks for a nearest neighbour finds one at the least of some distances.
fn calls_find<T: PointDistance>(
    tree: &RTree<T>,
    place: PointOf<T>,
    least: &[Distance<T>],
) -> Result<bool, AllocError>
where
    PointOf<T>: Copy,
    requires whole { IsWholeTree T.Envelope.boxes T.object ⟦<DefaultParams as RTreeParams>⟧.MAX_SIZE tree.now }
{
    Ok(
        is_least_alone(tree.nearest_neighbor(place), &place, least)?
            && is_least(tree.nearest_neighbor_with_distance_2(place), &place, least)?
            && is_least(one_below(tree, place), &place, least)?,
    )
}

/// Whether the iterator without distances gives all at some squared distances, a call that lends the first of them all,
/// and those at the least, and each call that looks for all nearest neighbours those at the least.
fn calls_find_all<T: PointDistance>(
    alloc: Global,
    tree: &RTree<T>,
    place: PointOf<T>,
    distances: &[Distance<T>],
    least: &[Distance<T>],
) -> Result<bool, AllocError>
where
    PointOf<T>: Copy,
    requires narrow { IsNarrow T.Envelope.Point.row }
    requires whole { IsWholeTree T.Envelope.boxes T.object ⟦<DefaultParams as RTreeParams>⟧.MAX_SIZE tree.now }
{
    Ok(
        are_at(alone(in_order(alloc, tree, place)), &place, distances)?
            && are_first(tree.first_neighbors(&place, usize::MAX), distances)?
            && are_first(tree.first_neighbors(&place, least.len()), least)?
            && are_at(tree.nearest_neighbors(&place), &place, least)?
            && are_least(
                tree.nearest_neighbors_with_distance_2(&place),
                &place,
                least,
            )?
            && are_least(all_below(tree, place), &place, least)?,
    )
}

/// Whether all neighbours of a place lie at these squared distances, by each call that leaves the tree, with so many
/// parents opened after each, as far as these numbers go; or the refusal that a call met.
pub(crate) fn answers<T: PointDistance>(
    alloc: Global,
    tree: &RTree<T>,
    place: PointOf<T>,
    distances: &[Distance<T>],
    opened: &[usize],
) -> Result<bool, AllocError>
where
    PointOf<T>: Copy,
    requires narrow { IsNarrow T.Envelope.Point.row }
    requires whole { IsWholeTree T.Envelope.boxes T.object ⟦<DefaultParams as RTreeParams>⟧.MAX_SIZE tree.now }
{
    fits::<PointOf<T>>();
    let least = least_of(distances);
    Ok(
        gives(
            &mut tree.nearest_neighbor_iter_with_distance_2(place),
            distances,
            opened,
        )? && gives(
            &mut tree.nearest_neighbor_iter_with_distance(place),
            distances,
            opened,
        )? && calls_find(tree, place, least)?
            && calls_find_all(alloc, tree, place, distances, least)?,
    )
}

/// Takes one element that equals this one out of a list, and whether there is one.
pub(crate) fn take<T: PartialEq + Copy>(list: &mut Vec<T>, element: &T) -> bool {
    for place in 0..list.len() {
        if list[place] == *element {
            list.swap_remove(place);
            return true;
        }
    }
    false
}

/// Whether what a tree gives up at a place are the elements of a list, each once, at these squared distances, and then
/// none.
fn pops<T: PointDistance + PartialEq + Copy>(
    tree: &mut RTree<T>,
    rest: &mut Vec<T>,
    place: PointOf<T>,
    distances: &[Distance<T>],
) -> bool
where
    PointOf<T>: Copy,
    requires whole { IsWholeTree T.Envelope.boxes T.object ⟦<DefaultParams as RTreeParams>⟧.MAX_SIZE tree.old }
{
    for distance in distances {
        let is_next = match tree.pop_nearest_neighbor(place) {
            Ok(Some(element)) => element.distance_2(&place) == *distance && take(rest, &element),
            _ => false,
        };
        if !is_next {
            return false;
        }
    }
    rest.is_empty() && tree.size() == 0 && matches!(tree.pop_nearest_neighbor(place), Ok(None))
}

/// The squared distances of some elements from a place, the least first; fewer where memory is refused.
pub(crate) fn scanned<T: PointDistance>(
    alloc: Global,
    elements: &[T],
    place: &PointOf<T>,
) -> Vec<Distance<T>> {
    let mut all = Vec::new(alloc);
    for element in elements {
        let _refused = all.push(element.distance_2(place)).is_err();
    }
    all.sort_unstable();
    all
}

/// Copies of some elements; fewer where memory is refused.
fn copies<T: Copy>(alloc: Global, elements: &[T]) -> Vec<T> {
    let mut all = Vec::new(alloc);
    for element in elements {
        let _refused = all.push(*element).is_err();
    }
    all
}

/// Whether all neighbours of a place in a load of these elements lie at these squared distances, by each call, and are
/// then given up in that order.
fn load_comes_and_goes<T: PointDistance + PartialEq + Copy>(
    alloc: Global,
    elements: &[T],
    place: PointOf<T>,
    distances: &[Distance<T>],
) -> bool
where
    PointOf<T>: Copy,
    requires narrow { IsNarrow T.Envelope.Point.row }
    requires dimensions { 2 ≤ T.Envelope.Point.DIMENSIONS }
{
    let mut load = loaded::<T, DefaultParams>(alloc, elements);
    let is_so = matches!(answers(alloc, &load, place, distances, &[]), Ok(true))
        & pops(&mut load, &mut copies(alloc, elements), place, distances);
    let_go(load);
    is_so
}

/// Whether a tree of these elements, and a load of them, answer at a place as a scan of them does, whose squared distances
/// begin with these, with so many parents of the tree opened after each, as far as these numbers go; and the load then
/// gives its elements up in that order.
pub(crate) fn come_and_go<T: PointDistance + PartialEq + Copy>(
    alloc: Global,
    elements: &[T],
    place: PointOf<T>,
    first: &[Distance<T>],
    opened: &[usize],
) -> bool
where
    PointOf<T>: Copy,
    requires narrow { IsNarrow T.Envelope.Point.row }
    requires dimensions { 2 ≤ T.Envelope.Point.DIMENSIONS }
{
    let tree = inserted::<T, DefaultParams>(alloc, elements);
    let wanted = &scanned(alloc, elements, &place);
    let is_so = wanted.starts_with(first)
        & matches!(answers(alloc, &tree, place, wanted, opened), Ok(true))
        & load_comes_and_goes(alloc, elements, place, wanted);
    let_go(tree);
    is_so
}

const LINES: [Line<[i64; 2]>; 2] = [
    Line {
        from: [0, 0],
        to: [10, 0],
    },
    Line {
        from: [9, 5],
        to: [9, 6],
    },
];

// Two lines; and two rectangles that touch, both seen from a corner of the one and from the other's side, the other first.
#[test]
fn lines_and_rectangles_come_by_their_own_distances(rt: HostRuntime) {
    const PLACES: [([i64; 2], [i64; 2]); 2] = [([0, 0], [0, 8]), ([9, 9], [50, 98])];
    assert!(rt; come_and_go(rt.alloc(), &LINES, [9, 0], &[0, 25], &[]));
    let two = [
        Rectangle::from_corners([0i64, 0], [2, 2]),
        Rectangle::from_corners([2, 2], [4, 4]),
    ];
    for row in 0..PLACES.len() {
        let (place, distances) = &PLACES[row];
        assert!(rt;
            come_and_go(rt.alloc(), &two, *place, distances, &[]),
            "row {row}"
        );
    }
}

// The inner frame is nearer to a point between both than the outer one, whose box contains it.
#[test]
fn an_inner_frame_comes_first(rt: HostRuntime) {
    let outer = Frame {
        one: [0i32, 10],
        other: [10, 0],
    };
    let inner = Frame {
        one: [4, 8],
        other: [6, 9],
    };
    assert!(rt; come_and_go(rt.alloc(), &[outer, inner], [5, 5], &[9, 25], &[]));
}

// ---- beside a plain scan

/// Places on, beside and far from the points.
const PLACES: [At; 8] = [
    [0, 0],
    [50, 51],
    [-1, 0],
    [0, 2],
    [-40, 200],
    [100, 102],
    [2000, -3000],
    [50, 0],
];

/// Points, a place, the squared distances of its neighbours, and how many parents are opened after each.
type Row<'a> = (&'a [At], At, &'a [i32], &'a [usize]);

// None in an empty tree; of two points each is the nearest on its own side; of three two are as near; and seven points,
// of which four lie under a parent that is far, and waits. At each place: rstar's tests of neighbours in empty trees, and
// its tests `test_nearest_neighbor`, `test_nearest_neighbors`, `test_nearest_neighbor_iterator` and its sibling with
// distances, on a thousand other points; then all are popped, the nearest first, each once, and then none.
#[test]
fn neighbours_come_and_go_as_by_a_scan(rt: HostRuntime) {
    const ROWS: [Row<'static>; 7] = [
        (&[], [0, 213], &[], &[]),
        (&[[0, 0], [0, 1]], [-1, 0], &[1, 2], &[1, 1]),
        (&[[0, 0], [0, 1]], [0, 2], &[1, 4], &[1, 1]),
        (&[[0, 0], [0, 1]], [0, 0], &[0, 1], &[1, 1]),
        (&[[1, 0], [-1, 0], [0, 2]], [0, 0], &[1, 1, 4], &[1, 1, 1]),
        (
            &ALONG_A_LINE,
            [50, 0],
            &[2304, 2401, 2500, 2500, 2601, 2704, 2809],
            &[],
        ),
        (
            &ALONG_A_LINE,
            [0, 0],
            &[0, 1, 4, 10000, 10201, 10404, 10609],
            &[2, 2, 2, 3, 3, 3, 3],
        ),
    ];
    for row in 0..ROWS.len() {
        let &(list, place, distances, opened) = &ROWS[row];
        assert!(rt;
            come_and_go(rt.alloc(), list, place, distances, opened),
            "row {row}"
        );
    }
    let thousand = points(rt.alloc(), 1000);
    let lists: [&[At]; 6] = [
        &[],
        &[[0, 0]],
        &[[0, 0], [0, 1]],
        &[[1, 0], [-1, 0], [0, 2]],
        &ALONG_A_LINE,
        &thousand,
    ];
    for &list in &lists {
        for &place in &PLACES {
            assert!(rt;
                come_and_go(rt.alloc(), list, place, &[], &[]),
                "of {}",
                list.len()
            );
        }
    }
}

// ---- who is asked

/// An element that counts how often it is asked, in a cell that others share.
#[derive(Clone, Copy)]
struct Noting<'a, T> {
    inner: T,
    asked: &'a Cell<u32>,
}

impl<'a, T> Noting<'a, T> {
    /// The element, once it is counted that it was asked.
    fn note(&self) -> &T
        ensures { result.now ≡ self.now.inner }
    {
        self.asked.set(self.asked.get().wrapping_add(1));
        &self.inner
    }
}

impl<'a, T: Ord> PartialEq for Noting<'a, T> {
    ghost eq = { eq_by_cmp (λ m n. T.cmp m.inner n.inner) };

    ghost laws = { Prim.search (comparing, rules) };

    fn eq(&self, other: &Self) -> bool {
        self.inner.cmp(&other.inner).is_eq()
    }
}

impl<'a, T: Ord> Eq for Noting<'a, T> {
    ghost laws = { Prim.search (comparing, rules) };
}

impl<'a, T: Ord> Ord for Noting<'a, T> {
    ghost cmp = { λ m n. T.cmp m.inner n.inner };

    ghost total = { on_total (λ n. n.inner) T.total };

    ghost matches_partial_cmp = { Prim.search (comparing, rules) };

    ghost matches_eq = { Prim.search (comparing, rules) };

    fn cmp(&self, other: &Self) -> Ordering {
        self.inner.cmp(&other.inner)
    }
}

impl<'a, T: Ord> PartialOrd for Noting<'a, T> {
    ghost partial_cmp = { as_partial_cmp (λ m n. T.cmp m.inner n.inner) };

    ghost laws = { partial_order_from_own_ties (Prim.search (comparing, rules)) (Prim.search (comparing, rules)) };

    fn partial_cmp(&self, other: &Self) -> Option<Ordering> {
        Some(self.cmp(other))
    }
}

impl<'a, T: RTreeObject> RTreeObject for Noting<'a, T> {
    type Envelope = T::Envelope;

    ghost object = { carried_objects T.object (λ n. n.inner) };

    fn envelope(&self) -> T::Envelope {
        self.note().envelope()
    }

    ghost object_law = { λ n h. T.object_law n.inner h };
}

impl<'a, T: PointDistance> PointDistance for Noting<'a, T> {
    ghost distances = { carried_distances T.distances (λ n. n.inner) };

    fn distance_2(&self, point: &PointOf<T>) -> Distance<T> {
        self.note().distance_2(point)
    }

    fn contains_point(&self, point: &PointOf<T>) -> bool {
        self.note().contains_point(point)
    }

    fn distance_2_if_less_or_equal(
        &self,
        point: &PointOf<T>,
        max_distance_2: Distance<T>,
    ) -> Option<Distance<T>> {
        self.note()
            .distance_2_if_less_or_equal(point, max_distance_2)
    }

    ghost distance_laws = { carried_laws T.Envelope.boxes T.object T.distances (λ n. n.inner) T.distance_laws };
}

/// How many neighbours are looked for, how many are given, and how often near elements and far ones are asked for them.
type AskedRow = (usize, usize, u32, u32);

/// How many neighbours come, at most so many, before none does or one is refused, and whether one is; none where another
/// comes after that.
fn come<T: PointDistance>(
    neighbors: &mut NearestNeighborIterator<'_, T>,
    most: usize,
) -> Option<(usize, bool)>
    requires { IsSearching T.Envelope.boxes T.object T.distances T.Envelope.Point.DIMENSIONS
        T.Envelope.Point.coord T.Envelope.Point.Scalar.cmp T.Envelope.Point.Scalar.value
        (with_distances neighbors.old) }
{
    for turn in 0..most {
        let item = neighbors.next();
        if !matches!(item, Some(Ok(_))) {
            let is_over = neighbors.next().is_none() & neighbors.next().is_none();
            return is_over.then_some((turn, item.is_some()));
        }
    }
    Some((most, false))
}

/// The same, with distances.
fn come_with_distance<T: PointDistance>(
    neighbors: &mut NearestNeighborDistance2Iterator<'_, T>,
    most: usize,
) -> Option<(usize, bool)>
    requires { IsSearching T.Envelope.boxes T.object T.distances T.Envelope.Point.DIMENSIONS
        T.Envelope.Point.coord T.Envelope.Point.Scalar.cmp T.Envelope.Point.Scalar.value neighbors.old }
{
    for turn in 0..most {
        let item = neighbors.next();
        if !matches!(item, Some(Ok(_))) {
            let is_over = neighbors.next().is_none() & neighbors.next().is_none();
            return is_over.then_some((turn, item.is_some()));
        }
    }
    Some((most, false))
}

/// The same in the stated order.
fn come_in_stated_order<T: PointDistance + Ord>(
    neighbors: &mut NearestNeighborByOrderIterator<'_, T>,
    most: usize,
) -> Option<(usize, bool)>
    requires { IsSearchingByOrder T.Envelope.boxes T.object T.distances T.cmp T.Envelope.Point.DIMENSIONS
        T.Envelope.Point.coord T.Envelope.Point.Scalar.cmp T.Envelope.Point.Scalar.value neighbors.old }
{
    for turn in 0..most {
        let item = neighbors.next();
        if !matches!(item, Some(Ok(_))) {
            let is_over = neighbors.next().is_none() & neighbors.next().is_none();
            return is_over.then_some((turn, item.is_some()));
        }
    }
    Some((most, false))
}

/// The same by each of the three iterators over neighbours.
pub(crate) fn come_by<T: PointDistance + Ord, Params: RTreeParams>(
    tree: &RTree<T, Params>,
    place: PointOf<T>,
    which: usize,
    most: usize,
) -> Option<(usize, bool)>
where
    PointOf<T>: Copy,
    requires narrow { IsNarrow T.Envelope.Point.row }
    requires whole { IsWholeTree T.Envelope.boxes T.object Params.MAX_SIZE tree.now }
{
    fits::<PointOf<T>>();
    match which {
        0 => come(&mut tree.nearest_neighbor_iter(place), most),
        1 => come_with_distance(&mut tree.nearest_neighbor_iter_with_distance_2(place), most),
        _ => come_in_stated_order(&mut tree.nearest_neighbor_iter_by_order(place), most),
    }
}

/// Whether near elements and far ones, each with their cell, are asked so often for the first neighbours in a tree, by each
/// iterator; they are asked as they are inserted, and counted from then on.
fn asked_so<T: PointDistance + Ord + Copy>(
    alloc: Global,
    elements: &[T],
    place: PointOf<T>,
    near: &Cell<u32>,
    far: &Cell<u32>,
    rows: &[AskedRow],
) -> bool
where
    PointOf<T>: Copy,
    requires narrow { IsNarrow T.Envelope.Point.row }
{
    let tree = inserted::<T, DefaultParams>(alloc, elements);
    let mut is_so = true;
    for &(most, given, first, other) in rows {
        for which in 0..3 {
            near.set(0);
            far.set(0);
            let came = come_by(&tree, place, which, most);
            is_so &= (came == Some((given, false))) & (near.get() == first) & (far.get() == other);
        }
    }
    let_go(tree);
    is_so
}

/// Elements that count, the first so many of them in one cell, the others in another.
fn noted<'a, T: Copy>(
    alloc: Global,
    elements: &[T],
    first_far: usize,
    near: &'a Cell<u32>,
    far: &'a Cell<u32>,
) -> Vec<Noting<'a, T>> {
    let mut list = Vec::new(alloc);
    for k in 0..elements.len() {
        let _refused = list
            .push(Noting {
                inner: elements[k],
                asked: if k < first_far { near } else { far },
            })
            .is_err();
    }
    list
}

/// The same of a tree of elements, of which the first so many lie near and the others far.
fn note_who_is_asked<T: PointDistance + Ord + Copy>(
    alloc: Global,
    elements: &[T],
    first_far: usize,
    place: PointOf<T>,
    rows: &[AskedRow],
) -> bool
where
    PointOf<T>: Copy,
    requires narrow { IsNarrow T.Envelope.Point.row }
{
    let near = Cell::new(0u32);
    let far = Cell::new(0u32);
    let list = noted(alloc, elements, first_far, &near, &far);
    asked_so(alloc, &list, place, &near, &far, rows)
}

// The seven points, three on the left and four on the right: what was asked is not asked again, and none of the four is
// asked before the fourth is looked for.
#[test]
fn below_a_parent_that_waits_no_element_is_asked(rt: HostRuntime) {
    const ROWS: [AskedRow; 9] = [
        (0, 0, 0, 0),
        (1, 1, 3, 0),
        (2, 2, 3, 0),
        (3, 3, 3, 0),
        (4, 4, 3, 4),
        (5, 5, 3, 4),
        (6, 6, 3, 4),
        (7, 7, 3, 4),
        (8, 7, 3, 4),
    ];
    assert!(rt; note_who_is_asked(rt.alloc(), &ALONG_A_LINE, 3, [0, 0], &ROWS));
}
