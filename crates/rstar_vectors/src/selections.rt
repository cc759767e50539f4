//! Tests of selections: the elements, and how many parents are visited.
//!
//! Steps on trees are generic, and a test gives them elements.

ghost use Rattle.std.specs.Prelude.{◌≡◌, ◌<◌, true, false, pos, int_lt, map, filter, IfOk};
ghost use Rattle.rstar.specs.Selections.{IsLawful};
ghost use Rattle.rstar.specs.Trees.{elements_in, IsWholeTree};

use crate::payloads::{Asked, Walked, all_of, either_at, inside, selected, walked};
use crate::scenarios::{ALONG_A_LINE, counts, has_len, inserted, let_go, points, stands};
use rstar::algorithm::selection_functions::SelectionFunction;
use rstar::object::{Distance, PointDistance, PointOf, RTreeObject};
use rstar::point::{Point, RTreeNum};
use rstar::primitives::Rectangle;
use rstar::{AABB, DefaultParams, Envelope, RTree, RTreeParams};
use std::alloc::{AllocError, Global};
use std::cell::Cell;
use std::ops::ControlFlow;

/// Whether a function selects this many elements of a tree and visits this many parents.
fn selects<T: RTreeObject + Copy, Func: SelectionFunction<T>>(
    alloc: Global,
    elements: &[T],
    func: Func,
    count: usize,
    opened: usize,
) -> bool {
    let tree = inserted::<T, DefaultParams>(alloc, elements);
    let is_so = match tree.locate_with_selection_function(func) {
        Ok(walk) => counts(walked(alloc, walk), count, Some(opened)),
        Err(_) => false,
    } & stands(&tree);
    let_go(tree);
    is_so
}

/// The elements that a lawful function selects, in the order of the tree.
fn chosen<'a, T: RTreeObject, Func: SelectionFunction<T>>(
    alloc: Global,
    tree: &'a RTree<T>,
    func: Func,
) -> Result<Vec<&'a T>, AllocError>
    requires whole { IsWholeTree T.Envelope.boxes T.object ⟦<DefaultParams as RTreeParams>⟧.MAX_SIZE tree.now }
    requires lawful { IsLawful T.Envelope.boxes T.object (Func.accepts func) (Func.selects func) }
    ensures { IfOk result (λ ts. map (λ t. t.now) ts.items ≡ filter (Func.selects func) (elements_in tree.now)) }
{
    let walk = tree.locate_with_selection_function(func)?;
    let (all, _opened) = walked(alloc, walk)?;
    Ok(all)
}

/// Whether iterators give this many elements inside an envelope, and this many in all, each with the parents
/// visited.
fn select_so<T: RTreeObject + Copy>(
    alloc: Global,
    elements: &[T],
    area: T::Envelope,
    in_area: (usize, usize),
    all: (usize, usize),
) -> bool {
    let tree = inserted::<T, DefaultParams>(alloc, elements);
    let is_so = counts(inside(alloc, &tree, area), in_area.0, Some(in_area.1))
        & counts(all_of(alloc, &tree), all.0, Some(all.1));
    let_go(tree);
    is_so
}

/// Points, two corners, and how many points are between them and in all, each with the parents visited.
type Row<'a> = (
    &'a [[i32; 2]],
    ([i32; 2], [i32; 2]),
    (usize, usize),
    (usize, usize),
);

#[test]
fn a_selection_opens_what_its_question_reaches(rt: HostRuntime) {
    const ROWS: [Row<'static>; 5] = [
        (&ALONG_A_LINE, ([0, 0], [2, 0]), (3, 2), (7, 3)),
        (&ALONG_A_LINE, ([50, 0], [60, 0]), (0, 1), (7, 3)),
        (&ALONG_A_LINE, ([200, 200], [201, 201]), (0, 0), (7, 3)),
        (&[], ([0, 0], [0, 0]), (0, 0), (0, 0)),
        (&[[0, 0]], ([0, 0], [0, 0]), (1, 1), (1, 1)),
    ];
    for row in 0..ROWS.len() {
        let &(points, corners, inside, all) = &ROWS[row];
        let area = AABB::from_corners(corners.0, corners.1);
        assert!(rt;
            select_so(rt.alloc(), points, area, inside, all),
            "row {row}"
        );
    }
}

/// A selection function of one's own: it selects the points in the left half of a map that is 100 wide. Its
/// `new` says that it is lawful.
#[derive(Drop)]
pub(crate) struct LeftHalf;

impl LeftHalf {
    /// Selects the points whose first coordinate is below 50.
    pub(crate) fn new() -> Self
        ensures { IsLawful ⟦<AABB<[i32; 2]> as Envelope>⟧.boxes ⟦<[i32; 2] as RTreeObject>⟧.object
            (⟦<LeftHalf as SelectionFunction<[i32; 2]>>⟧.accepts result)
            (⟦<LeftHalf as SelectionFunction<[i32; 2]>>⟧.selects result) }
    {
        LeftHalf
    }
}

impl SelectionFunction<[i32; 2]> for LeftHalf {
    ghost accepts = { λ _ e. int_lt (⟦<AABB<[i32; 2]> as Envelope>⟧.boxes.axis_key e 0) (pos 50) };

    ghost selects = { λ _ t. int_lt (⟦<[i32; 2] as Point>⟧.coord t 0) (pos 50) };

    fn should_unpack_parent(&self, envelope: &AABB<[i32; 2]>) -> bool {
        envelope.axis_key(0) < 50
    }

    fn should_unpack_leaf(&self, leaf: &[i32; 2]) -> bool {
        leaf[0] < 50
    }
}

/// The points in the left half, in the order of the tree.
fn left_points<'a>(
    alloc: Global,
    tree: &'a RTree<[i32; 2]>,
) -> Result<Vec<&'a [i32; 2]>, AllocError>
    requires { IsWholeTree ⟦<AABB<[i32; 2]> as Envelope>⟧.boxes ⟦<[i32; 2] as RTreeObject>⟧.object
        ⟦<DefaultParams as RTreeParams>⟧.MAX_SIZE tree.now }
    ensures { IfOk result (λ ts. map (λ t. t.now) ts.items
        ≡ filter (λ t. int_lt (⟦<[i32; 2] as Point>⟧.coord t 0) (pos 50)) (elements_in tree.now)) }
{
    chosen(alloc, tree, LeftHalf::new())
}

/// Whether a tree of points has this many in the left half.
fn as_many_lie_left(alloc: Global, points: &[[i32; 2]], count: usize) -> bool {
    let tree = inserted::<[i32; 2], DefaultParams>(alloc, points);
    let is_so = has_len(left_points(alloc, &tree), count);
    let_go(tree);
    is_so
}

// rstar's test `test_locate_with_selection_func`, in whole numbers.
#[test]
fn a_function_of_ones_own_selects_what_it_says(rt: HostRuntime) {
    const ON_BOTH_SIDES: [[i32; 2]; 7] = [
        [49, 0],
        [50, 0],
        [51, 1],
        [0, 99],
        [-7, 3],
        [99, 99],
        [48, 48],
    ];
    assert!(rt;
        as_many_lie_left(rt.alloc(), &ALONG_A_LINE, 3)
            && as_many_lie_left(rt.alloc(), &ON_BOTH_SIDES, 4)
    );
}

/// Accepts the parents that begin left of a limit, and selects all points.
#[derive(Clone, Copy, Drop)]
pub(crate) struct LeftOf {
    pub(crate) limit: i32,
}

impl SelectionFunction<[i32; 2]> for LeftOf {
    ghost accepts = { λ f e. int_lt (⟦<AABB<[i32; 2]> as Envelope>⟧.boxes.axis_key e 0) f.limit };

    ghost selects = { λ _ _. true };

    fn should_unpack_parent(&self, envelope: &AABB<[i32; 2]>) -> bool {
        envelope.axis_key(0) < self.limit
    }

    fn should_unpack_leaf(&self, _leaf: &[i32; 2]) -> bool {
        true
    }
}

/// A limit, points, and how many of them are selected, with the parents visited.
type Selected<'a> = (i32, &'a [[i32; 2]], (usize, usize));

// A function that is not lawful misses some. Where no parent is accepted, none is opened: of the last four trees not
// even the root. With one point and no parent accepted at all that is rstar's test `test_root_node_is_not_always_unpacked`.
#[test]
fn unlawful_functions_give_less(rt: HostRuntime) {
    const ROWS: [Selected<'static>; 6] = [
        (1, &[[0, 0]], (1, 1)),
        (1, &ALONG_A_LINE, (3, 2)),
        (1, &[], (0, 0)),
        (i32::MIN, &[[0, 0]], (0, 0)),
        (1, &[[1, 0]], (0, 0)),
        (
            1,
            &[
                [1, 0],
                [2, 0],
                [3, 0],
                [101, 0],
                [102, 0],
                [103, 0],
                [104, 0],
            ],
            (0, 0),
        ),
    ];
    for row in 0..ROWS.len() {
        let &(limit, points, (count, opened)) = &ROWS[row];
        assert!(rt;
            selects(rt.alloc(), points, LeftOf { limit }, count, opened),
            "row {row}"
        );
    }
}

/// Selects all elements, and counts the leaves that it is called with.
#[derive(Drop)]
struct CountingFunc<'a> {
    asked: &'a Cell<u32>,
}

impl<'a, T: RTreeObject> SelectionFunction<T> for CountingFunc<'a> {
    ghost accepts = { λ _ _. true };

    ghost selects = { λ _ _. true };

    fn should_unpack_parent(&self, _envelope: &T::Envelope) -> bool {
        true
    }

    fn should_unpack_leaf(&self, _leaf: &T) -> bool {
        self.asked.set(self.asked.get().wrapping_add(1));
        true
    }
}

/// Whether a function is called with no leaf when an iterator is made, and with one more at each of its
/// first calls.
fn asks_one_by_one<T: RTreeObject, Func: SelectionFunction<T>>(
    tree: &RTree<T>,
    func: Func,
    asked: &Cell<u32>,
) -> bool
    requires { IsWholeTree T.Envelope.boxes T.object ⟦<DefaultParams as RTreeParams>⟧.MAX_SIZE tree.now }
{
    let Ok(mut walk) = tree.locate_with_selection_function(func) else {
        return false;
    };
    let mut is_so = asked.get() == 0;
    for leaves in 1..4 {
        let is_found = walk.next().is_some();
        is_so = is_so && is_found && asked.get() == leaves;
    }
    is_so
}

/// The same in a tree of these elements.
fn asks_of_these<T: RTreeObject + Copy, Func: SelectionFunction<T>>(
    alloc: Global,
    elements: &[T],
    func: Func,
    asked: &Cell<u32>,
) -> bool {
    let tree = inserted::<T, DefaultParams>(alloc, elements);
    let is_so = asks_one_by_one(&tree, func, asked);
    let_go(tree);
    is_so
}

// rstar's test `test_leaves_are_tested_lazily`: each `next` asks one leaf more.
#[test]
fn a_leaf_is_asked_when_the_walk_comes_to_it(rt: HostRuntime) {
    let asked = Cell::new(0u32);
    let func = CountingFunc { asked: &asked };
    assert!(rt; asks_of_these(rt.alloc(), &ALONG_A_LINE, func, &asked));
}

/// Whether a visit of the elements inside an envelope ends at the call that breaks, and returns the break.
fn ends_at<T: RTreeObject + Copy>(
    alloc: Global,
    elements: &[T],
    area: T::Envelope,
    last: usize,
) -> bool {
    let tree = inserted::<T, DefaultParams>(alloc, elements);
    let mut calls = 0usize;
    let answer = tree.locate_in_envelope_int(area, |_element: &T| {
        calls = calls.saturating_add(1);
        if calls == last {
            ControlFlow::Break(calls)
        } else {
            ControlFlow::Continue(())
        }
    });
    let_go(tree);
    match answer {
        ControlFlow::Break(number) => number == last && calls == last,
        ControlFlow::Continue(()) => false,
    }
}

#[test]
fn a_visit_ends_at_a_break(rt: HostRuntime) {
    let area = AABB::from_corners([0, 0], [103, 0]);
    assert!(rt; ends_at(rt.alloc(), &ALONG_A_LINE, area, 3));
}

/// Five answers of a scan for one element: whether it is there, is inside the envelope, intersects it,
/// contains the point, and lies within the distance.
fn answers<T: PointDistance>(element: &T, asked: &Asked<T>) -> [bool; 5] {
    let (area, point, limit) = asked;
    let envelope = element.envelope();
    [
        true,
        area.contains_envelope(&envelope),
        area.intersects(&envelope),
        element.contains_point(point),
        element.distance_2(point) <= *limit,
    ]
}

/// The answers of a scan for each element of a list.
fn scanned<T: PointDistance>(alloc: Global, elements: &[T], asked: &Asked<T>) -> Vec<[bool; 5]> {
    let mut all = Vec::new(alloc);
    for element in elements {
        let _refused = all.push(answers(element, asked)).is_err();
    }
    all
}

/// How many elements of a list pass each of the five questions.
fn counted(scan: &[[bool; 5]]) -> [usize; 5] {
    let mut counts = [0usize; 5];
    for answers in scan {
        for k in 0..5 {
            counts[k] = counts[k].saturating_add(usize::from(answers[k]));
        }
    }
    counts
}

/// Whether the elements found are those of a list that pass a question, and as many. Of equal ones one is
/// enough.
fn are_answers<T: PartialEq>(
    found: &[&T],
    elements: &[T],
    scan: &[[bool; 5]],
    question: usize,
) -> bool
    requires { question < 5 }
{
    if scan.len() != elements.len() {
        return false;
    }
    let mut count = 0usize;
    for k in 0..elements.len() {
        let is_wanted = scan[k][question];
        if (&*found).contains(&&elements[k]) != is_wanted {
            return false;
        }
        count = count.saturating_add(usize::from(is_wanted));
    }
    found.len() == count
}

/// The same of what an iterator gave.
fn gives<T: PartialEq>(
    walked: Result<Walked<'_, T>, AllocError>,
    elements: &[T],
    scan: &[[bool; 5]],
    question: usize,
) -> bool
    requires { question < 5 }
{
    match &walked {
        Ok((found, _opened)) => are_answers(found, elements, scan, question),
        Err(_) => false,
    }
}

/// Whether the iterators of a tree give what a scan of its elements finds.
fn iterators_find<T: PointDistance + PartialEq>(
    alloc: Global,
    tree: &RTree<T>,
    elements: &[T],
    scan: &[[bool; 5]],
    asked: &Asked<T>,
) -> bool
where
    T::Envelope: Copy,
    PointOf<T>: Copy,
    requires { IsWholeTree T.Envelope.boxes T.object ⟦<DefaultParams as RTreeParams>⟧.MAX_SIZE tree.now }
{
    for question in 0..5usize {
        if !gives(
            selected(alloc, tree, question, asked),
            elements,
            scan,
            question,
        ) {
            return false;
        }
    }
    true
}

/// Counts the calls of a visitor that goes on.
fn called(calls: &mut usize) -> ControlFlow<()> {
    *calls = calls.saturating_add(1);
    ControlFlow::Continue(())
}

/// Whether visits have this many calls, and look-ups find an element exactly where there is one.
fn visits_find<T: PointDistance>(
    tree: &RTree<T>,
    area: T::Envelope,
    point: PointOf<T>,
    touching: usize,
    at: usize,
) -> bool
where
    PointOf<T>: Copy,
    requires { IsWholeTree T.Envelope.boxes T.object ⟦<DefaultParams as RTreeParams>⟧.MAX_SIZE tree.now }
{
    let mut touched = 0usize;
    let _end = tree.locate_in_envelope_intersecting_int(area, |_element: &T| called(&mut touched));
    let mut located = 0usize;
    let _end = tree.locate_all_at_point_int(point, |_element: &T| called(&mut located));
    let (one, other) = either_at(tree, point, point);
    touched == touching && located == at && one.is_some() == (at > 0) && other.is_some() == (at > 0)
}

/// The five counts of a tree of these elements; `None` where a call and a scan differ.
pub(crate) fn found<T: PointDistance + PartialEq + Copy>(
    alloc: Global,
    elements: &[T],
    area: T::Envelope,
    point: PointOf<T>,
    limit: Distance<T>,
) -> Option<[usize; 5]>
where
    T::Envelope: Copy,
    PointOf<T>: Copy,
{
    let asked = (area, point, limit);
    let scan = scanned(alloc, elements, &asked);
    let counts = counted(&scan);
    let tree = inserted::<T, DefaultParams>(alloc, elements);
    let is_so = iterators_find(alloc, &tree, elements, &scan, &asked)
        & visits_find(&tree, area, point, counts[2], counts[3]);
    let_go(tree);
    if is_so { Some(counts) } else { None }
}

// Taken literally, the empty box intersects the full range, and lies in it.
#[test]
fn the_empty_box_and_the_full_range(rt: HostRuntime) {
    let full = [Rectangle::from_corners([-128i8, -128], [127, 127])];
    let counts = found(rt.alloc(), &full, AABB::new_empty(), [0, 0], 0);
    assert!(rt; counts == Some([1, 0, 1, 1, 1]));
}

// rstar's tests `test_iteration`, `test_locate_in_envelope` and `test_locate_within_distance`, on other points: two
// corners, of which the first two hold all, and a point and a squared distance; and its test
// `test_locate_within_distance_on_empty_tree`.
#[test]
fn a_thousand_points_are_found_as_by_a_scan(rt: HostRuntime) {
    const ROWS: [([i32; 2], [i32; 2], [i32; 2], i32); 4] = [
        ([0, 0], [100, 102], [20, 60], 900),
        ([50, 50], [100, 100], [0, 0], 0),
        ([0, 0], [9, 102], [50, 50], 10000),
        ([7, 7], [7, 7], [7, 7], 1),
    ];
    let all = points(rt.alloc(), 1000);
    for row in 0..ROWS.len() {
        let &(one, other, origin, limit) = &ROWS[row];
        let area = AABB::from_corners(one, other);
        for &list in &[&[], all.as_slice()] {
            assert!(rt;
                found(rt.alloc(), list, area, origin, limit).is_some(),
                "row {row}"
            );
        }
    }
}

/// A rectangle at each point.
fn rectangles(alloc: Global, points: &[[i32; 2]]) -> Vec<Rectangle<[i32; 2]>> {
    let mut all = Vec::new(alloc);
    for point in points {
        let [x, y] = *point;
        let other = [y.clamped_add(5), x.clamped_sub(5)];
        let _refused = all.push(Rectangle::from_corners(*point, other)).is_err();
    }
    all
}

/// The number of rectangles, two corners of a box, a point and a squared distance, and the counts of the
/// last four questions where there are few.
type About = (usize, [i32; 2], [i32; 2], [i32; 2], i32, [usize; 4]);

// The third of three rectangles intersects the first two.
const ABOUT_RECTANGLES: [About; 17] = [
    (1, [1, 1], [1, 1], [1, 1], 0, [0, 1, 1, 1]),
    (1, [1, 1], [1, 1], [4, 2], 3, [0, 1, 0, 0]),
    (1, [1, 1], [1, 1], [4, 2], 4, [0, 1, 0, 1]),
    (1, [1, 1], [1, 1], [2, 2], 0, [0, 1, 1, 1]),
    (1, [1, 1], [1, 1], [3, 3], 0, [0, 1, 0, 0]),
    (3, [0, 0], [40, 100], [0, 0], 0, [1, 2, 1, 1]),
    (3, [60, 0], [100, 100], [60, 0], 0, [1, 2, 2, 2]),
    (3, [25, 0], [75, 100], [25, 0], 0, [1, 3, 2, 2]),
    (3, [50, 7], [50, 9], [50, 7], 0, [0, 1, 1, 1]),
    (3, [100, 100], [101, 101], [100, 100], 0, [0, 1, 1, 1]),
    (3, [101, 0], [101, 1], [101, 0], 0, [0; 4]),
    (1000, [0, 0], [0, 0], [0, 0], 9, [0; 4]),
    (1000, [50, 50], [50, 50], [50, 50], 9, [0; 4]),
    (1000, [7, 93], [7, 93], [7, 93], 9, [0; 4]),
    (1000, [100, 102], [100, 102], [100, 102], 9, [0; 4]),
    (1000, [105, -5], [105, -5], [105, -5], 9, [0; 4]),
    (1000, [200, 0], [200, 0], [200, 0], 9, [0; 4]),
];

/// Whether counts are as expected, where they are given.
fn are_told(counts: Option<[usize; 5]>, count: usize, told: [usize; 4]) -> bool {
    let [inside, touching, at, near] = told;
    match counts {
        Some(own) => count == 1000 || own == [count, inside, touching, at, near],
        None => false,
    }
}

// One rectangle, three, and rstar's test `test_locate_all`, on a thousand others.
#[test]
fn rectangles_are_found_as_by_a_scan(rt: HostRuntime) {
    let one = [Rectangle::from_corners([0, 0], [2, 2])];
    let three = [
        Rectangle::from_corners([0, 0], [40, 100]),
        Rectangle::from_corners([60, 0], [100, 100]),
        Rectangle::from_corners([25, 0], [75, 100]),
    ];
    let all = rectangles(rt.alloc(), &points(rt.alloc(), 1000));
    for row in 0..ABOUT_RECTANGLES.len() {
        let &(count, lower, upper, point, limit, told) = &ABOUT_RECTANGLES[row];
        let list: &[Rectangle<[i32; 2]>] = match count {
            1 => &one,
            3 => &three,
            _ => &all,
        };
        let area = AABB::from_corners(lower, upper);
        let counts = found(rt.alloc(), list, area, point, limit);
        assert!(rt; are_told(counts, count, told), "row {row}");
    }
}
