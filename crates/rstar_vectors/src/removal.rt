//! Removals, drains that are finished, dropped or forgotten, and trees taken apart.
//!
//! What is done to a tree is generic, and a test gives it elements.

ghost use Rattle.std.specs.Prelude.{◌≡◌, ◌≤◌, false, IfOk};
ghost use Rattle.rstar.specs.Drains.{drained, IsDraining};
ghost use Rattle.rstar.specs.inside.Removals.{IsWithout};
ghost use Rattle.rstar.specs.Trees.{elements_in, IsWholeTree};

use crate::loads::{are_same, deep_points, gather};
use crate::node_sizes::{Emptying, Wide};
use crate::payloads::Asked;
use crate::scenarios::{ALONG_A_LINE, inserted, let_go, levels_of, points, stands, stands_with};
use crate::selections::LeftOf;
use crate::trials::{ALL, By, Drained, Order, State, Step, go_on, go_through};
use rstar::algorithm::selection_functions::{SelectAllFunc, SelectionFunction};
use rstar::iterators::DrainIterator;
use rstar::object::PointOf;
use rstar::primitives::{Line, Rectangle};
use rstar::{
    AABB, DefaultParams, Envelope, EqualEnvelopes, PointDistance, RTree, RTreeObject, RTreeParams,
};
use rstar_base::envelope::copied_envelope;
use std::alloc::{AllocError, Global};
use std::mem::forget;

type Edge = Line<[i32; 2]>;

/// Calls a drain so many times, or until it ends, puts what it gives behind a list, and gives how many elements came.
#[tactic(auto, unfolding(rstar::specs::Drains::IsDraining))]
fn call<T: RTreeObject, R: SelectionFunction<T>, Params: RTreeParams>(
    drain: &mut DrainIterator<'_, T, R, Params>,
    most: usize,
    given: &mut Vec<T>,
) -> usize
    requires { IsDraining T.Envelope.boxes T.object Params.MAX_SIZE R.accepts R.selects drain.old }
    ensures whole { IsWholeTree T.Envelope.boxes T.object Params.MAX_SIZE (drained drain.new) }
    ensures same { drain.new.tree.ghost_name ≡ drain.old.tree.ghost_name }
{
    for call in 0..most {
        match drain.next() {
            Some(element) => {
                if given.push(element).is_err() {
                    return call;
                }
            }
            None => return call,
        }
    }
    most
}

/// Takes one element out by a drain that is dropped after its first `next`, and gives it; none of an empty tree.
fn one_out<T: RTreeObject>(tree: &mut RTree<T>) -> Result<Option<T>, AllocError>
    requires { IsWholeTree T.Envelope.boxes T.object ⟦<DefaultParams as RTreeParams>⟧.MAX_SIZE tree.old }
    ensures left { IfOk result (λ r. IsWithout (elements_in tree.old) r (elements_in tree.new)) }
    ensures whole { IsWholeTree T.Envelope.boxes T.object ⟦<DefaultParams as RTreeParams>⟧.MAX_SIZE tree.new }
{
    match tree.drain() {
        Ok(mut drain) => Ok(drain.next()),
        Err(refused) => Err(refused),
    }
}

/// At most two elements of those that meet an envelope are drained, the drain is dropped, and one is inserted.
fn two_out_one_in<T: RTreeObject>(
    tree: &mut RTree<T>,
    area: T::Envelope,
    one: T,
) -> Result<bool, AllocError>
    requires whole { IsWholeTree T.Envelope.boxes T.object ⟦<DefaultParams as RTreeParams>⟧.MAX_SIZE tree.old }
    requires element { T.Envelope.boxes.is_empty (T.object.box_of one) ≡ false }
    ensures { IsWholeTree T.Envelope.boxes T.object ⟦<DefaultParams as RTreeParams>⟧.MAX_SIZE tree.new }
{
    match tree.drain_in_envelope_intersecting(area) {
        Ok(mut drain) => {
            let _one = drain.next();
            let _other = drain.next();
        }
        Err(refused) => return Err(refused),
    }
    Ok(tree.insert(one).is_ok())
}

/// The same of points: a caller with no proof file.
pub fn two_points_out_one_in(
    tree: &mut RTree<[i64; 2]>,
    area: AABB<[i64; 2]>,
) -> Result<bool, AllocError>
    requires { IsWholeTree ⟦<AABB<[i64; 2]> as Envelope>⟧.boxes ⟦<[i64; 2] as RTreeObject>⟧.object
        ⟦<DefaultParams as RTreeParams>⟧.MAX_SIZE tree.old }
    ensures { IsWholeTree ⟦<AABB<[i64; 2]> as Envelope>⟧.boxes ⟦<[i64; 2] as RTreeObject>⟧.object
        ⟦<DefaultParams as RTreeParams>⟧.MAX_SIZE tree.new }
{
    two_out_one_in(tree, area, [7, 8])
}

/// Whether a tree of these elements stands after such a drain and an insertion, with so many left, none of them at the
/// first point and one at the other, and gives one more out.
fn stands_with_one_in<T: PointDistance + Copy>(
    alloc: Global,
    elements: &[T],
    area: T::Envelope,
    one: T,
    left: usize,
    first: PointOf<T>,
    other: PointOf<T>,
) -> bool {
    let mut tree = inserted::<T, DefaultParams>(alloc, elements);
    let is_in = !one.envelope().is_empty()
        && matches!(two_out_one_in(&mut tree, area, one), Ok(true));
    let is_so = is_in
        & stands_with(&tree, left)
        & tree.remove_at_point(first).is_none()
        & tree.remove_at_point(other).is_some()
        & matches!(one_out(&mut tree), Ok(Some(_)));
    let_go(tree);
    is_so
}

/// Drains at most so many of the elements that are asked for, puts them behind a list, and gives how many came; none where the
/// drain is refused.
pub(crate) fn drain_some<T: PointDistance, Params: RTreeParams>(
    tree: &mut RTree<T, Params>,
    which: Drained,
    asked: &Asked<T>,
    most: usize,
    given: &mut Vec<T>,
) -> Option<usize>
where
    PointOf<T>: Copy,
    requires { IsWholeTree T.Envelope.boxes T.object Params.MAX_SIZE tree.old }
    ensures { IsWholeTree T.Envelope.boxes T.object Params.MAX_SIZE tree.new }
{
    let area = copied_envelope(&asked.0);
    match which {
        Drained::All => match tree.drain() {
            Ok(mut drain) => Some(call(&mut drain, most, given)),
            Err(_) => None,
        },
        Drained::Inside => match tree.drain_in_envelope(area) {
            Ok(mut drain) => Some(call(&mut drain, most, given)),
            Err(_) => None,
        },
        Drained::Touched => match tree.drain_in_envelope_intersecting(area) {
            Ok(mut drain) => Some(call(&mut drain, most, given)),
            Err(_) => None,
        },
        Drained::Near => match tree.drain_within_distance(asked.1, asked.2) {
            Ok(mut drain) => Some(call(&mut drain, most, given)),
            Err(_) => None,
        },
        Drained::Chosen => match tree.drain_with_selection_function(SelectAllFunc) {
            Ok(mut drain) => Some(call(&mut drain, most, given)),
            Err(_) => None,
        },
    }
}

/// Whether an element that is there leaves, by `==`, or at its center, which no other contains, and the tree stands with one
/// less; the last of its kind is then gone.
pub(crate) fn leaves<T: EqualEnvelopes + PointDistance + Copy, Params: RTreeParams>(
    tree: &mut RTree<T, Params>,
    element: &T,
    is_at_place: bool,
    is_last: bool,
) -> bool
    requires { IsWholeTree T.Envelope.boxes T.object Params.MAX_SIZE tree.old }
    ensures { IsWholeTree T.Envelope.boxes T.object Params.MAX_SIZE tree.new }
{
    let before = tree.size();
    let is_there = tree.contains(element);
    let taken = if is_at_place {
        tree.remove_at_point(element.envelope().center())
    } else {
        tree.remove(element)
    };
    is_there
        && taken == Some(*element)
        && tree.size().saturating_add(1) == before
        && !(is_last && (tree.contains(element) || tree.remove(element).is_some()))
        && stands(&*tree)
}

/// Drains so many elements into a list, and forgets the drain: no clause says what the tree is then.
fn forgotten_after<T: RTreeObject>(tree: &mut RTree<T>, calls: usize, given: &mut Vec<T>) -> bool
    requires { IsWholeTree T.Envelope.boxes T.object ⟦<DefaultParams as RTreeParams>⟧.MAX_SIZE tree.old }
{
    match tree.drain() {
        Ok(mut drain) => {
            let came = call(&mut drain, calls, given);
            forget(drain);
            came == calls
        }
        Err(_) => false,
    }
}

/// Whether a tree stands after a drain that is dropped after some calls and one that is forgotten after others, and what was
/// given and what is left are these elements.
fn are_given_or_left<T: RTreeObject + Ord + Copy>(
    alloc: Global,
    elements: &[T],
    dropped: usize,
    calls: usize,
) -> bool {
    let mut tree = inserted::<T, DefaultParams>(alloc, elements);
    let mut all = Vec::new(alloc);
    let came = match tree.drain() {
        Ok(mut drain) => call(&mut drain, dropped, &mut all),
        Err(_) => 0,
    };
    let is_so = forgotten_after(&mut tree, calls, &mut all)
        & (came == dropped)
        & (all.len() == dropped.saturating_add(calls))
        & (tree.size().saturating_add(all.len()) == elements.len())
        & stands(&tree)
        & gather(
            tree.root().children(),
            levels_of(tree.root().children()),
            &mut all,
        )
        .is_ok();
    let_go(tree);
    are_same(alloc, all, elements) && is_so
}

/// Whether a drain by a function takes at most so many out, and leaves so many of those that an envelope touches.
fn drains_at_most<T: EqualEnvelopes + PointDistance + Copy, R: SelectionFunction<T>>(
    alloc: Global,
    elements: &[T],
    func: R,
    most: usize,
    asked: &Asked<T>,
    left: usize,
) -> bool
where
    PointOf<T>: Copy,
{
    let mut tree = inserted::<T, DefaultParams>(alloc, elements);
    let came = match tree.drain_with_selection_function(func) {
        Ok(mut drain) => call(
            &mut drain,
            elements.len().saturating_add(2),
            &mut Vec::new(alloc),
        ),
        Err(_) => ALL,
    };
    let is_so = came <= most && stands_with(&tree, elements.len().saturating_sub(came));
    let steps = [Step::Are(State::Touched, 0, ALL, left)];
    go_on(alloc, tree, elements, asked, &steps) == Ok(()) && is_so
}

/// What a tree gives when it is taken apart.
fn taken_apart<T: RTreeObject>(alloc: Global, tree: RTree<T>) -> Result<Vec<T>, AllocError>
    requires { IsWholeTree T.Envelope.boxes T.object ⟦<DefaultParams as RTreeParams>⟧.MAX_SIZE tree }
{
    match tree.into_iter() {
        Ok(all) => all.collect(alloc),
        Err(_) => Err(AllocError),
    }
}

/// Whether a tree of these elements gives them when it is taken apart, each once and no other.
fn gives_all<T: RTreeObject + Ord + Copy>(alloc: Global, elements: &[T]) -> bool {
    match taken_apart(alloc, inserted(alloc, elements)) {
        Ok(all) => are_same(alloc, all, elements),
        Err(_) => false,
    }
}

/// The rectangles of which such lines are the diagonals.
fn rectangles(alloc: Global, count: usize) -> Vec<Rectangle<[i32; 2]>> {
    let mut rectangles = Vec::new(alloc);
    for edge in &edges(alloc, count) {
        let _refused = rectangles
            .push(Rectangle::from_corners(edge.from, edge.to))
            .is_err();
    }
    rectangles
}

/// So many points, a short line from each of them on.
fn edges(alloc: Global, count: usize) -> Vec<Edge> {
    let mut edges = Vec::new(alloc);
    let points = points(alloc, count);
    for i in 0..points.len() {
        let [x, y] = points[i];
        let _refused = edges
            .push(Line::new(
                [x, y],
                [
                    x.wrapping_add(((29 * (i % 300)) % 11) as i32)
                        .wrapping_sub(5),
                    y.wrapping_add(((31 * (i % 300)) % 13) as i32)
                        .wrapping_sub(6),
                ],
            ))
            .is_err();
    }
    edges
}

// Each point leaves once. A tree that was never filled is drained, and one that is emptied.
#[test]
fn removals_of_all_in_several_orders(rt: HostRuntime) {
    let asked = (AABB::from_point([0, 0]), [0, 0], 10);
    for count in 0..301 {
        let all = points(rt.alloc(), count);
        for &order in &[Order::Forward, Order::Backward, Order::Mixed] {
            let steps = [
                Step::In(0, ALL),
                Step::Out(0, ALL, order, By::Equality),
                Step::Left(0),
                Step::Drain(Drained::Near, 1, 0),
            ];
            let gone = go_through::<_, DefaultParams>(rt.alloc(), &all, 0, &asked, &steps);
            assert_eq!(rt; gone, Ok(()), "of {count}");
        }
    }
    let asked = (AABB::from_point([0i64, 0, 0]), [0, 0, 0], 10);
    let steps = [
        Step::In(0, ALL),
        Step::Out(0, ALL, Order::Forward, By::Equality),
        Step::Drain(Drained::Near, 1, 0),
        Step::Left(0),
    ];
    let gone = go_through::<_, DefaultParams>(rt.alloc(), &[[1, 2, 3]], 0, &asked, &steps);
    assert_eq!(rt; gone, Ok(()), "of three axes");
}

/// From a load of the first half of a list each element leaves for one of the others, and these then leave.
fn half_gives_way<T: EqualEnvelopes + PointDistance + Copy>(
    alloc: Global,
    elements: &[T],
    by: By,
    asked: &Asked<T>,
) -> Result<(), usize>
where
    PointOf<T>: Copy,
    requires { 2 ≤ T.Envelope.Point.DIMENSIONS }
{
    let half = elements.len() / 2;
    let steps = [
        Step::GiveWay(half, by),
        Step::Left(half),
        Step::Out(half, ALL, Order::Backward, By::Equality),
        Step::Left(0),
    ];
    go_through::<T, DefaultParams>(alloc, elements, half, asked, &steps)
}

// Points leave a load once, by `==` or at their places, and others come, and two where a node may have one child; and lines,
// rectangles and points of three axes.
#[test]
fn elements_of_loads_give_way_to_others(rt: HostRuntime) {
    const AT_PLACES: [Step; 2] = [Step::Out(0, ALL, Order::Forward, By::Place), Step::Left(0)];
    const BY_EQUALITY: [Step; 2] = [
        Step::Out(0, ALL, Order::Forward, By::Equality),
        Step::Left(0),
    ];
    let none = (AABB::from_point([0, 0]), [0, 0], 0);
    let all = points(rt.alloc(), 1000);
    let lines = edges(rt.alloc(), 1000);
    let two = [[0, 0], [37, 53]];
    let gone = go_through::<_, DefaultParams>(rt.alloc(), &all, ALL, &none, &AT_PLACES);
    assert_eq!(rt; gone, Ok(()));
    assert_eq!(rt; half_gives_way(rt.alloc(), &all, By::Place, &none), Ok(()));
    let gone = go_through::<_, Emptying>(rt.alloc(), &two, ALL, &none, &BY_EQUALITY);
    assert_eq!(rt; gone, Ok(()));
    let gone = go_through::<_, DefaultParams>(rt.alloc(), &lines, ALL, &none, &BY_EQUALITY);
    assert_eq!(rt; gone, Ok(()));
    for &count in &[25, 27, 97, 111, 385, 447, 500] {
        let some = rectangles(rt.alloc(), 2 * count);
        let gone = half_gives_way(rt.alloc(), &some, By::Equality, &none);
        assert_eq!(rt; gone, Ok(()), "of {count}");
    }
    let none_deep = (AABB::from_point([0, 0, 0]), [0, 0, 0], 0);
    for &count in &[388, 400, 444] {
        let some = deep_points(rt.alloc(), 2 * count);
        let gone = half_gives_way(rt.alloc(), &some, By::Equality, &none_deep);
        assert_eq!(rt; gone, Ok(()), "of {count}");
    }
}

// For each number of calls: a drain that is dropped after them, with an insertion and one more, of seven points and of five;
// and one that is forgotten after them. And a drain by a function that is not lawful, and one element by each of the drains
// of what lies in a box and of what is near.
#[test]
fn drains_that_are_given_up(rt: HostRuntime) {
    const EIGHT: [[i32; 2]; 8] = [
        [0, 0],
        [1, 0],
        [2, 0],
        [100, 0],
        [101, 0],
        [102, 0],
        [103, 0],
        [5, 5],
    ];
    const ONE_OF_EACH: [Step; 4] = [
        Step::In(0, 7),
        Step::Drain(Drained::Inside, 1, 1),
        Step::Drain(Drained::Near, 1, 1),
        Step::Left(5),
    ];
    let far = (AABB::from_corners([100, 0], [103, 0]), [0, 0], 4);
    assert_eq!(rt;
        go_through::<_, DefaultParams>(rt.alloc(), &EIGHT, 0, &far, &ONE_OF_EACH),
        Ok(())
    );
    assert!(rt; drains_at_most(rt.alloc(), &ALONG_A_LINE, LeftOf { limit: 1 }, 3, &far, 4));
    assert!(rt; are_given_or_left(rt.alloc(), &EIGHT[..5], 2, 0));
    for calls in 0..8usize {
        assert!(rt;
            are_given_or_left(rt.alloc(), &ALONG_A_LINE, 0, calls),
            "after {calls}"
        );
        for &count in &[5, 7] {
            let came = calls.min(count);
            let steps = [
                Step::In(0, count),
                Step::Drain(Drained::All, came, came),
                Step::Are(State::Either, 0, count, count),
                Step::In(7, 8),
                Step::Left(count + 1 - came),
                Step::Are(State::There, 7, 8, 1),
                Step::Drain(Drained::All, 1, 1),
                Step::Left(count - came),
            ];
            let gone = go_through::<_, DefaultParams>(rt.alloc(), &EIGHT, 0, &far, &steps);
            assert_eq!(rt; gone, Ok(()), "of {count}, after {calls}");
        }
    }
}

// A node of 90 leaves, and four of 75: a drain keeps the merge of those that it has not come to. Then narrow nodes, and
// rstar's test `test_drain_iterator`, but that no drain is forgotten.
#[test]
fn drains_end_where_none_is_left(rt: HostRuntime) {
    const COUNTS: [usize; 2] = [90, 300];
    const MOST: [usize; 13] = [0, 1, 9, 10, 57, 58, 59, 60, 75, 80, 90, 299, 300];
    const NARROW: [Step; 2] = [Step::In(0, ALL), Step::Parts(40, Some(89))];
    const AGAIN: [Step; 9] = [
        Step::Drain(Drained::All, 250, 250),
        Step::Left(750),
        Step::Drain(Drained::All, 250, 250),
        Step::Left(500),
        Step::Drain(Drained::All, ALL, 500),
        Step::Left(0),
        Step::In(0, ALL),
        Step::Are(State::There, 0, ALL, 1000),
        Step::Parts(80, Some(293)),
    ];
    let half = (AABB::from_corners([0, 0], [50, 102]), [0, 0], 0);
    for &count in &COUNTS {
        let all = points(rt.alloc(), count);
        for &most in &MOST {
            let steps = [
                Step::Drain(Drained::All, most, most.min(count)),
                Step::Parts(most, None),
            ];
            let gone = go_through::<_, Wide>(rt.alloc(), &all, ALL, &half, &steps);
            assert_eq!(rt; gone, Ok(()), "of {count}, at most {most}");
        }
    }
    let area = (AABB::from_corners([20, 20], [70, 80]), [0, 0], 0);
    let all = points(rt.alloc(), 300);
    let many = points(rt.alloc(), 1000);
    assert_eq!(rt;
        go_through::<_, DefaultParams>(rt.alloc(), &all, 0, &area, &NARROW),
        Ok(())
    );
    assert_eq!(rt;
        go_through::<_, DefaultParams>(rt.alloc(), &many, ALL, &area, &AGAIN),
        Ok(())
    );
}

#[test]
fn callers_drain_and_insert_again(rt: HostRuntime) {
    const THREE: [[i64; 2]; 3] = [[0, 0], [1, 1], [2, 2]];
    let all = AABB::from_corners([0, 0], [2, 2]);
    let two = [
        Rectangle::from_corners([0i64, 0], [1, 1]),
        Rectangle::from_corners([5, 5], [6, 6]),
    ];
    let area = AABB::from_corners([1, 1], [4, 4]);
    let one = Rectangle::from_corners([7, 8], [9, 9]);
    assert!(rt;
        stands_with_one_in(rt.alloc(), &THREE, all, [7, 8], 2, [9, 9], [7, 8])
            && stands_with_one_in(rt.alloc(), &two, area, one, 2, [1, 1], [8, 9])
    );
}

#[test]
fn a_tree_is_taken_apart(rt: HostRuntime) {
    const COUNTS: [usize; 5] = [0, 1, 3, 7, 60];
    for &count in &COUNTS {
        assert!(rt;
            gives_all(rt.alloc(), &points(rt.alloc(), count)),
            "of {count}"
        );
    }
}
