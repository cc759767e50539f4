//! Tests of joins: the pairs, and how many pairs of nodes are visited.
//!
//! Steps on trees are generic, and a test gives them elements.

ghost use Rattle.std.specs.Prelude.{◌≡◌, ◌≤◌, min, map, IfOk};
ghost use Rattle.std.specs.List.Sorted.{IsPermutation};
ghost use Rattle.rstar.specs.Boxes.{boxes_intersect};
ghost use Rattle.rstar.specs.Joins.{meets_by, join};
ghost use Rattle.rstar.specs.Meets.{meet_of_roots};
ghost use Rattle.rstar.specs.Trees.{root_of, elements_in, IsWholeTree};

use crate::node_sizes::Splitting;
use crate::scenarios::{
    ALONG_A_LINE, Fence, counts, drained, in_steps, inserted, let_go, levels_of, loaded,
};
use rstar::iterators::InEnvelope;
use rstar::primitives::{GeomWithData, Rectangle};
use rstar::{AABB, DefaultParams, Envelope, Point, RTree, RTreeObject, RTreeParams};
use std::alloc::{AllocError, Global};

/// Two corners.
type Corners = ([i32; 2], [i32; 2]);

/// A rectangle with a number.
type Numbered = GeomWithData<Rectangle<[i32; 2]>, u64>;

/// Pairs of elements, and the number of pairs of nodes visited.
pub type Paired<'a, T, U> = (Vec<(&'a T, &'a U)>, usize);

/// The join of two trees as a list, with the number of pairs of nodes visited.
pub(crate) fn joined<'a, T: RTreeObject, U: InEnvelope<T::Envelope>, Params: RTreeParams>(
    alloc: Global,
    left: &'a RTree<T, Params>,
    right: &'a RTree<U, Params>,
) -> Result<Paired<'a, T, U>, AllocError>
    requires left { IsWholeTree T.Envelope.boxes T.object Params.MAX_SIZE left.now }
    requires right { IsWholeTree U.Envelope.boxes U.object Params.MAX_SIZE right.now }
    ensures all { IfOk result (λ r. IsPermutation (map (λ p. (p.0.now, p.1.now)) r.0.items)
        (join (meets_by T.Envelope.boxes U.seen) T.object.box_of U.object.box_of
        (elements_in left.now) (elements_in right.now))) }
    ensures opened { IfOk result (λ r. r.1 ≡ min (meet_of_roots (meets_by T.Envelope.boxes U.seen)
        T.object.box_of U.object.box_of (root_of left.now) (root_of right.now)) usize.MAX) }
{
    match left.intersection_candidates_with_other_tree(right) {
        Ok(mut pairs) => match drained(alloc, &mut pairs) {
            Ok(all) => Ok((all, pairs.opened())),
            Err(refused) => Err(refused),
        },
        Err(refused) => Err(refused),
    }
}

/// The join of a tree of fences and one of points.
pub fn fences_joined<'a>(
    alloc: Global,
    left: &'a RTree<Fence>,
    right: &'a RTree<[i64; 2]>,
) -> Result<Paired<'a, Fence, [i64; 2]>, AllocError>
    requires left { IsWholeTree ⟦<AABB<[i64; 2]> as Envelope>⟧.boxes ⟦<Fence as RTreeObject>⟧.object
        ⟦<DefaultParams as RTreeParams>⟧.MAX_SIZE left.now }
    requires right { IsWholeTree ⟦<AABB<[i64; 2]> as Envelope>⟧.boxes ⟦<[i64; 2] as RTreeObject>⟧.object
        ⟦<DefaultParams as RTreeParams>⟧.MAX_SIZE right.now }
    ensures all { IfOk result (λ r. IsPermutation (map (λ p. (p.0.now, p.1.now)) r.0.items)
        (join boxes_intersect ⟦<Fence as RTreeObject>⟧.object.box_of ⟦<[i64; 2] as RTreeObject>⟧.object.box_of
        (elements_in left.now) (elements_in right.now))) }
    ensures opened { IfOk result (λ r. r.1 ≡ min (meet_of_roots boxes_intersect
        ⟦<Fence as RTreeObject>⟧.object.box_of ⟦<[i64; 2] as RTreeObject>⟧.object.box_of
        (root_of left.now) (root_of right.now)) usize.MAX) }
{
    joined(alloc, left, right)
}

/// Whether a join of two trees of these elements has these counts.
fn meets<T: RTreeObject + Copy, U: InEnvelope<T::Envelope> + Copy>(
    alloc: Global,
    lefts: &[T],
    rights: &[U],
    wanted: (usize, usize),
) -> bool {
    let left = inserted::<T, DefaultParams>(alloc, lefts);
    let right = inserted(alloc, rights);
    let is_so = left.size() == lefts.len()
        && right.size() == rights.len()
        && counts(joined(alloc, &left, &right), wanted.0, Some(wanted.1));
    let_go(left);
    let_go(right);
    is_so
}

/// Whether all joins of these elements have these counts, in either order.
fn meet<
    T: InEnvelope<<U as RTreeObject>::Envelope> + Copy,
    U: InEnvelope<<T as RTreeObject>::Envelope> + Copy,
>(
    alloc: Global,
    lefts: &[T],
    rights: &[T],
    points: &[U],
    counts: &[(usize, usize); 2],
    own: (usize, usize),
) -> bool {
    meets(alloc, lefts, rights, counts[0])
        & meets(alloc, rights, lefts, counts[0])
        & meets(alloc, lefts, points, counts[1])
        & meets(alloc, points, lefts, counts[1])
        & meets(alloc, points, points, own)
}

/// Rectangles between these corners, numbered.
fn numbered(alloc: Global, corners: &[Corners]) -> Vec<Numbered> {
    let mut all = Vec::new(alloc);
    for (one, other) in corners {
        let number = all.len() as u64;
        let _refused = all
            .push(Numbered::new(Rectangle::from_corners(*one, *other), number))
            .is_err();
    }
    all
}

/// The corners of the rectangles of two trees, and the counts of pairs and of visited pairs of nodes: of the
/// two trees, and of the first with one of points.
type Meeting = (&'static [Corners], &'static [Corners], [(usize, usize); 2]);

/// Whether all rows of a table hold.
fn all_meet(alloc: Global, rows: &[Meeting], points: &[[i32; 2]], own: (usize, usize)) -> bool {
    for (lefts, rights, counts) in rows {
        let lefts = numbered(alloc, lefts);
        let rights = numbered(alloc, rights);
        if !meet(alloc, &lefts, &rights, points, counts, own) {
            return false;
        }
    }
    true
}

const SQUARE: Corners = ([0, 0], [2, 2]);

// Seven squares in two groups along a diagonal, which lie under two parents.
const DIAGONAL: [Corners; 7] = [
    ([0, 0], [1, 1]),
    ([1, 1], [2, 2]),
    ([2, 2], [3, 3]),
    ([100, 100], [101, 101]),
    ([101, 101], [102, 102]),
    ([102, 102], [103, 103]),
    ([103, 103], [104, 104]),
];

// With points along a line: trees of one height, and of two, and empty ones on either side.
const AT_A_LINE: [Meeting; 7] = [
    (&[SQUARE, SQUARE], &[([2, 2], [4, 4])], [(2, 1), (6, 3)]),
    (&[([2, 2], [4, 4])], &[SQUARE, SQUARE], [(2, 1), (0, 0)]),
    (&[SQUARE], &[([3, 3], [4, 4])], [(0, 0), (3, 2)]),
    (&[SQUARE], &[], [(0, 0), (3, 2)]),
    (&[SQUARE], &DIAGONAL, [(3, 2), (3, 2)]),
    (&DIAGONAL, &DIAGONAL, [(17, 3), (2, 2)]),
    (&[], &[], [(0, 0), (0, 0)]),
];

// With four points, of which two lie in one place.
const NEAR: [[i32; 2]; 4] = [[0, 0], [2, 2], [2, 2], [5, 5]];

const AT_FOUR: [Meeting; 2] = [
    (&[SQUARE], &[SQUARE], [(1, 1), (3, 1)]),
    (&[SQUARE, ([2, 2], [4, 4])], &[], [(0, 0), (5, 1)]),
];

// With no points.
const AT_NONE: [Meeting; 1] = [(&[SQUARE], &[SQUARE], [(1, 1), (0, 0)])];

// Tables of meetings, each with its points and the counts of these with themselves.
const TABLES: [(&'static [Meeting], &'static [[i32; 2]], (usize, usize)); 3] = [
    (&AT_A_LINE, &ALONG_A_LINE, (7, 3)),
    (&AT_FOUR, &NEAR, (6, 1)),
    (&AT_NONE, &[], (0, 0)),
];

// The rectangles have a number, so that what carries an element is joined with points, and with its like.
#[test]
fn pairs_that_intersect(rt: HostRuntime) {
    for row in 0..TABLES.len() {
        let &(rows, points, own) = &TABLES[row];
        assert!(rt; all_meet(rt.alloc(), rows, points, own), "row {row}");
    }
}

/// An element that a scan can test for intersection.
pub(crate) trait Touching {
    /// Whether the envelopes of two elements intersect.
    fn touches(&self, other: &Self) -> bool;
}

impl<T: RTreeObject> Touching for T {
    fn touches(&self, other: &T) -> bool {
        self.envelope().intersects(&other.envelope())
    }
}

/// Whether pairs are those that a scan of two lists finds, in some order, at least one.
fn are_scanned<T: Touching + PartialEq>(
    paired: Result<Paired<'_, T, T>, AllocError>,
    lefts: &[T],
    rights: &[T],
) -> bool {
    let Ok((pairs, _opened)) = &paired else {
        return false;
    };
    let mut wanted = 0usize;
    let mut has_all = true;
    for left in lefts {
        for right in rights {
            if left.touches(right) {
                has_all = has_all && (&**pairs).contains(&(left, right));
                wanted = wanted.saturating_add(1);
            }
        }
    }
    has_all && 0 < wanted && pairs.len() == wanted
}

/// Whether a join of two bulk loads gives the pairs that a scan finds.
fn met_as_scanned<T: RTreeObject + PartialEq + Copy>(
    alloc: Global,
    lefts: &[T],
    rights: &[T],
) -> bool
    requires { 2 ≤ T.Envelope.Point.DIMENSIONS }
{
    let left = loaded::<T, DefaultParams>(alloc, lefts);
    let right = loaded(alloc, rights);
    let is_so = are_scanned(joined(alloc, &left, &right), lefts, rights);
    let_go(left);
    let_go(right);
    is_so
}

/// Whether joins of two bulk loads, and of the first with itself, give this many pairs.
fn met_by_loads<T: RTreeObject + Copy>(
    alloc: Global,
    lefts: &[T],
    rights: &[T],
    pairs: usize,
    own: usize,
) -> bool
    requires { 2 ≤ T.Envelope.Point.DIMENSIONS }
{
    let left = loaded::<T, DefaultParams>(alloc, lefts);
    let right = loaded(alloc, rights);
    let is_so = counts(joined(alloc, &left, &right), pairs, None)
        & counts(joined(alloc, &left, &left), own, None);
    let_go(left);
    let_go(right);
    is_so
}

/// Whether a tree of small nodes has at least this many levels of parents below its root, and its join with
/// itself gives one pair for each element.
fn meets_itself_at_depth<T: RTreeObject + Copy>(
    alloc: Global,
    elements: &[T],
    levels: usize,
) -> bool {
    let tree = inserted::<T, Splitting>(alloc, elements);
    let is_so = (levels <= levels_of(tree.root().children()))
        & counts(joined(alloc, &tree, &tree), elements.len(), None);
    let_go(tree);
    is_so
}

/// The number of points, the first one, and the step from each to the next.
type Steps = (usize, [i32; 2], [i32; 2]);

// Loads of unequal height; and rstar's `test_trivial_intersections`: so many points that lie between so many others, and
// meet themselves alone.
#[test]
fn loads_of_points_meet(rt: HostRuntime) {
    const ROWS: [(Steps, Steps, usize, usize); 4] = [
        ((28, [0, 0], [1, 0]), (2, [5, 0], [0, 0]), 2, 28),
        ((2, [5, 0], [0, 0]), (28, [0, 0], [1, 0]), 2, 4),
        ((1000, [0, 0], [2, 5]), (2000, [1, 2], [2, 5]), 0, 1000),
        ((2000, [0, 0], [2, 5]), (1000, [1, 2], [2, 5]), 0, 2000),
    ];
    for row in 0..ROWS.len() {
        let &(one, other, pairs, own) = &ROWS[row];
        let all = in_steps(rt.alloc(), one.0, one.1, one.2);
        let rest = in_steps(rt.alloc(), other.0, other.1, other.2);
        assert!(rt;
            met_by_loads(rt.alloc(), &all, &rest, pairs, own),
            "row {row}"
        );
    }
}

// Points that leave small nodes behind, of two to four, inserted in turn: thirteen levels of parents below the root.
#[test]
fn a_deep_tree_meets_itself(rt: HostRuntime) {
    let line = in_steps(rt.alloc(), 600000, [0, 0], [-1, -1]);
    assert!(rt; meets_itself_at_depth(rt.alloc(), &line, 13));
}

/// Rectangles of this number, spread by two factors.
pub(crate) fn spread(
    alloc: Global,
    count: u64,
    across: u64,
    along: u64,
) -> Vec<Rectangle<[i64; 2]>> {
    let mut all = Vec::new(alloc);
    for number in 0..count {
        let x = (number.wrapping_mul(across) % 101) as i64;
        let y = (number.wrapping_mul(along) % 103) as i64;
        let upper = [x + (number % 11) as i64, y + (number % 13) as i64];
        let _refused = all.push(Rectangle::from_corners([x, y], upper)).is_err();
    }
    all
}

// rstar's `test_intersection_between_trees`: loads of 100 and of 42 rectangles; and some that split more.
#[test]
fn joins_give_what_a_scan_gives(rt: HostRuntime) {
    const ROWS: [(u64, u64); 4] = [(100, 42), (42, 100), (3, 500), (300, 300)];
    for row in 0..ROWS.len() {
        let &(left, right) = &ROWS[row];
        let lefts = spread(rt.alloc(), left, 37, 53);
        let rights = spread(rt.alloc(), right, 59, 31);
        assert!(rt; met_as_scanned(rt.alloc(), &lefts, &rights), "row {row}");
    }
}
