//! Calls that may be refused. Where one is, the tree is as it was, and the call, made once more, leaves it as it leaves another
//! tree, its twin, of which nothing is refused; with memory there each answers at once. `scripts/refuse_memory.sh` refuses each
//! allocation between two marks, one a run.

ghost use Rattle.std.specs.Prelude.{◌≡◌, ◌≤◌, false};
ghost use Rattle.rstar_base.specs.Sizes.{IsNarrow};
ghost use Rattle.rstar.specs.Clones.{ClonesEqual};
ghost use Rattle.rstar.specs.Stored.{boxes, places};
ghost use Rattle.rstar.specs.Trees.{IsWholeTree};

use crate::by_order::in_stated_order;
use crate::insertion::has_node;
use crate::joins::joined;
use crate::loads::{shown, shows};
use crate::neighbour_rows::{answers, come_by, scanned};
use crate::node_sizes::Tens;
use crate::payloads::{Asked, selected};
use crate::removal::drain_some;
use crate::scenarios::{
    self, alone, goes_in, inserted, let_go, load_of, loaded, points, stands_with,
};
use crate::stored::{ALONG_A_LINE, read_back};
use crate::trials::Drained;
use rstar::object::{Distance, PointOf};
use rstar::stored::{StoredError, read_stored};
use rstar::{
    AABB, DefaultParams, Envelope, EqualEnvelopes, InsertCause, Point, PointDistance, RTree,
    RTreeObject, RTreeParams,
};
use std::alloc::{AllocError, Global};
use std::fmt::Debug;

/// How many bytes a mark asks for. The script counts the allocations after one such, up to the next.
const MARK: usize = 10007;

/// Asks for a list that nothing but a mark asks for, and whether it was had.
pub(crate) fn is_marked(alloc: Global) -> bool {
    match &Vec::<u8>::with_capacity(alloc, MARK) {
        Ok(list) => MARK <= list.capacity(),
        Err(_) => false,
    }
}

/// Whether two trees show the same: their sizes, and all nodes with their envelopes, in order.
fn are_alike<T: RTreeObject + Debug>(alloc: Global, tree: &RTree<T>, twin: &RTree<T>) -> bool {
    tree.size() == twin.size() && shows(alloc, tree.root(), &shown(alloc, twin.root()))
}

// ---- questions, drains that are made, and pops

/// How many items a call gave; none where it was refused. It takes what the call gave.
fn given<A: Copy>(found: Result<Vec<A>, AllocError>) -> Option<usize> {
    match &found {
        Ok(all) => Some(all.len()),
        Err(_) => None,
    }
}

/// How many elements a question to a tree gives, none where it is refused: the five of `selected`, all pairs of a join of the
/// tree with itself, and all in the stated order, by the iterator and as the first of them; and 1 where the other calls for
/// neighbours give these squared distances, 0 where one gives others.
fn told<T: PointDistance + Ord + Copy>(
    alloc: Global,
    tree: &RTree<T>,
    question: usize,
    asked: &Asked<T>,
    distances: &[Distance<T>],
) -> Option<usize>
where
    T::Envelope: Copy,
    PointOf<T>: Copy,
    requires narrow { IsNarrow T.Envelope.Point.row }
    requires whole { IsWholeTree T.Envelope.boxes T.object ⟦<DefaultParams as RTreeParams>⟧.MAX_SIZE tree.now }
{
    match question {
        5 => given(alone(joined(alloc, tree, tree))),
        6 => given(alone(in_stated_order(alloc, tree, asked.1))),
        7 => given(tree.first_neighbors_by_order(&asked.1, usize::MAX)),
        8 => match answers(alloc, tree, asked.1, distances, &[]) {
            Ok(is_so) => Some(usize::from(is_so)),
            Err(_) => None,
        },
        _ => given(alone(selected(alloc, tree, question, asked))),
    }
}

/// The five drains.
const DRAINS: [Drained; 5] = [
    Drained::All,
    Drained::Inside,
    Drained::Touched,
    Drained::Near,
    Drained::Chosen,
];

/// The same of each call: those questions, each drain that is made and never called, and two that take one element out, a
/// nearest neighbour and the first in the stated order.
fn counted<T: PointDistance + Ord + Copy>(
    alloc: Global,
    tree: &mut RTree<T>,
    call: usize,
    asked: &Asked<T>,
    distances: &[Distance<T>],
) -> Option<usize>
where
    T::Envelope: Copy,
    PointOf<T>: Copy,
    requires narrow { IsNarrow T.Envelope.Point.row }
    requires whole { IsWholeTree T.Envelope.boxes T.object ⟦<DefaultParams as RTreeParams>⟧.MAX_SIZE tree.old }
    ensures { IsWholeTree T.Envelope.boxes T.object ⟦<DefaultParams as RTreeParams>⟧.MAX_SIZE tree.new }
{
    if call < 9 {
        return told(alloc, &*tree, call, asked, distances);
    }
    if call < 14 {
        return drain_some(tree, DRAINS[call - 9], asked, 0, &mut Vec::new(alloc));
    }
    let popped = if call == 14 {
        tree.pop_nearest_neighbor(asked.1)
    } else {
        tree.pop_nearest_neighbor_by_order(asked.1)
    };
    match popped {
        Ok(found) => Some(usize::from(found.is_some())),
        Err(_) => None,
    }
}

/// Whether a call gives so many, at once or, where it was refused and the tree shows the same, once more; and the tree is then
/// as its twin is after the same call.
fn is_answered<T: PointDistance + Ord + Copy + Debug>(
    alloc: Global,
    tree: &mut RTree<T>,
    twin: &mut RTree<T>,
    call: usize,
    asked: &Asked<T>,
    distances: &[Distance<T>],
    wanted: usize,
) -> bool
where
    T::Envelope: Copy,
    PointOf<T>: Copy,
    requires narrow { IsNarrow T.Envelope.Point.row }
    requires whole { IsWholeTree T.Envelope.boxes T.object ⟦<DefaultParams as RTreeParams>⟧.MAX_SIZE tree.old }
    requires twin { IsWholeTree T.Envelope.boxes T.object ⟦<DefaultParams as RTreeParams>⟧.MAX_SIZE twin.old }
    ensures whole { IsWholeTree T.Envelope.boxes T.object ⟦<DefaultParams as RTreeParams>⟧.MAX_SIZE tree.new }
    ensures twin { IsWholeTree T.Envelope.boxes T.object ⟦<DefaultParams as RTreeParams>⟧.MAX_SIZE twin.new }
{
    let is_begun = is_marked(alloc);
    let first = counted(alloc, tree, call, asked, distances);
    let is_ended = is_marked(alloc);
    let is_right = first == Some(wanted)
        || first.is_none()
            && are_alike(alloc, tree, twin)
            && counted(alloc, tree, call, asked, distances) == Some(wanted);
    is_begun
        & is_ended
        & is_right
        & (counted(alloc, twin, call, asked, distances) == Some(wanted))
        & are_alike(alloc, tree, twin)
}

/// All elements of a tree that is taken apart.
fn taken_apart<T: RTreeObject + Copy>(alloc: Global, tree: RTree<T>) -> Result<Vec<T>, AllocError>
    requires { IsWholeTree T.Envelope.boxes T.object ⟦<DefaultParams as RTreeParams>⟧.MAX_SIZE tree }
{
    match tree.into_iter() {
        Ok(all) => all.collect(alloc),
        Err(tree) => {
            let_go(tree);
            Err(AllocError)
        }
    }
}

/// Whether a tree is taken apart as its twin is, at once or, where it was refused and is handed back as it was, once more.
fn is_taken_apart<T: RTreeObject + PartialEq + Copy + Debug>(
    alloc: Global,
    tree: RTree<T>,
    twin: RTree<T>,
) -> bool
    requires whole { IsWholeTree T.Envelope.boxes T.object ⟦<DefaultParams as RTreeParams>⟧.MAX_SIZE tree }
    requires twin { IsWholeTree T.Envelope.boxes T.object ⟦<DefaultParams as RTreeParams>⟧.MAX_SIZE twin }
{
    let is_begun = is_marked(alloc);
    let first = tree.into_iter();
    let is_ended = is_marked(alloc);
    let (all, is_same) = match first {
        Ok(all) => {
            let list: Result<_, _> = all.collect(alloc);
            (list, true)
        }
        Err(back) => {
            let is_same = are_alike(alloc, &back, &twin);
            (taken_apart(alloc, back), is_same)
        }
    };
    let are_same = match (&all, &taken_apart(alloc, twin)) {
        (Ok(all), Ok(others)) => all.as_slice() == others.as_slice(),
        _ => false,
    };
    is_begun & is_ended & is_same & are_same
}

/// Whether each call gives as many of a tree of these elements as told, once more where it is refused, and leaves it as its
/// twin, and the tree is then taken apart.
fn are_answered<T: PointDistance + Ord + Copy + Debug>(
    alloc: Global,
    mut tree: RTree<T>,
    mut twin: RTree<T>,
    elements: &[T],
    asked: &Asked<T>,
    counts: &[usize],
) -> bool
where
    T::Envelope: Copy,
    PointOf<T>: Copy,
    requires narrow { IsNarrow T.Envelope.Point.row }
    requires whole { IsWholeTree T.Envelope.boxes T.object ⟦<DefaultParams as RTreeParams>⟧.MAX_SIZE tree }
    requires twin { IsWholeTree T.Envelope.boxes T.object ⟦<DefaultParams as RTreeParams>⟧.MAX_SIZE twin }
{
    let distances = &scanned(alloc, elements, &asked.1);
    let mut is_so = stands_with(&tree, elements.len());
    for call in 0..counts.len() {
        is_so &= is_answered(
            alloc,
            &mut tree,
            &mut twin,
            call,
            asked,
            distances,
            counts[call],
        );
    }
    is_so & is_taken_apart(alloc, tree, twin)
}

/// Adds numbers of eight bytes.
fn spell(bytes: &mut Vec<u8>, numbers: &[i64]) {
    for number in numbers {
        let _refused = bytes.extend_from_slice(&number.to_le_bytes()).is_err();
    }
}

/// A tree of forty points on the line from [0, 39] to [39, 0], from its ends inwards, as it is read: each alone below its parent,
/// these below one parent, and that below twelve others, each the only child of the one above it. So paths outgrow their twelve
/// places, and heaps their 32: from [0, 0] each of the forty parents is as near as those before it, and none is left out.
fn deep(alloc: Global, points: &[[i64; 2]]) -> RTree<[i64; 2]>
    ensures { IsWholeTree boxes places ⟦<DefaultParams as RTreeParams>⟧.MAX_SIZE result }
{
    let mut bytes = Vec::new(alloc);
    let _refused = bytes.extend_from_slice(b"RST1").is_err();
    spell(&mut bytes, &[40]);
    let _refused = bytes.push(14).is_err();
    for _ in 0..12 {
        spell(&mut bytes, &[1, 0, 0, 39, 39]);
    }
    spell(&mut bytes, &[40, 0, 0, 39, 39]);
    for &[x, y] in points {
        spell(&mut bytes, &[1, x, y, x, y, x, y]);
    }
    match read_stored(alloc, &bytes) {
        Ok(tree) => tree,
        Err(_) => RTree::default(alloc),
    }
}

// Of 28 points in a load, and of forty that lie deep and wide: all, those in a box, those that it touches, those at a point,
// those within a distance, the pairs of the tree with itself, all in the stated order, and whether the other calls for
// neighbours answer; then the five drains are made, and two points are popped.
#[test]
fn calls_that_are_refused(rt: HostRuntime) {
    let load = points(rt.alloc(), 28);
    let asked = (AABB::from_corners([0, 0], [50, 50]), [0, 0], 2500);
    let counts = [28, 7, 7, 1, 7, 28, 28, 28, 1, 0, 0, 0, 0, 0, 1, 1];
    assert!(rt;
        are_answered(
            rt.alloc(),
            loaded(rt.alloc(), &load),
            loaded(rt.alloc(), &load),
            &load,
            &asked,
            &counts,
        )
    );
    let mut line = Vec::new(rt.alloc());
    for k in 0..20 {
        let other = 39i64.saturating_sub(k);
        let _refused = line.push([k, other]).is_err();
        let _refused = line.push([other, k]).is_err();
    }
    let asked = (AABB::from_corners([0, 0], [9, 39]), [0, 0], 1000);
    let counts = [40, 10, 10, 0, 22, 40, 40, 40, 1, 0, 0, 0, 0, 0, 1, 1];
    assert!(rt;
        are_answered(
            rt.alloc(),
            deep(rt.alloc(), &line),
            deep(rt.alloc(), &line),
            &line,
            &asked,
            &counts,
        )
    );
}

/// Whether each iterator over neighbours in a load of these elements, in nodes of ten to forty, gives all, or is refused once
/// and then gives none for good, and the load gives all to another one.
fn ends_once<T: PointDistance + Ord + Copy>(
    alloc: Global,
    elements: &[T],
    place: PointOf<T>,
) -> bool
where
    PointOf<T>: Copy,
    requires narrow { IsNarrow T.Envelope.Point.row }
    requires dimensions { 2 ≤ T.Envelope.Point.DIMENSIONS }
{
    let count = elements.len();
    let tree = loaded::<T, Tens>(alloc, elements);
    let mut is_so = tree.size() == count;
    for which in 0..3 {
        let is_begun = is_marked(alloc);
        let first = come_by(&tree, place, which, usize::MAX);
        let is_ended = is_marked(alloc);
        let is_right = match first {
            Some((came, is_refused)) => is_refused | (came == count),
            None => false,
        };
        let other = come_by(&tree, place, which, usize::MAX);
        is_so &= is_begun & is_ended & is_right & (other == Some((count, false)));
    }
    let_go(tree);
    is_so
}

// Forty points in one node of up to forty, where the first growth of an iterator is that of its heap.
#[test]
fn an_iterator_is_refused_once(rt: HostRuntime) {
    assert!(rt; ends_once(rt.alloc(), &points(rt.alloc(), 40), [0, 0]));
}

// ---- insertions, loads, clones and stored trees

/// Whether an element goes into a tree, at once or, where it was refused for want of memory, was handed back and the tree is as
/// its twin, once more; and the tree is as its twin where the element goes into that too.
fn is_taken<T: EqualEnvelopes + Copy + Debug>(
    alloc: Global,
    tree: &mut RTree<T>,
    twin: &mut RTree<T>,
    element: T,
) -> bool
    requires whole { IsWholeTree T.Envelope.boxes T.object ⟦<DefaultParams as RTreeParams>⟧.MAX_SIZE tree.old }
    requires twin { IsWholeTree T.Envelope.boxes T.object ⟦<DefaultParams as RTreeParams>⟧.MAX_SIZE twin.old }
    requires element { T.Envelope.boxes.is_empty (T.object.box_of element) ≡ false }
    ensures whole { IsWholeTree T.Envelope.boxes T.object ⟦<DefaultParams as RTreeParams>⟧.MAX_SIZE tree.new }
    ensures twin { IsWholeTree T.Envelope.boxes T.object ⟦<DefaultParams as RTreeParams>⟧.MAX_SIZE twin.new }
{
    let is_begun = is_marked(alloc);
    let first = tree.insert(element);
    let is_ended = is_marked(alloc);
    let is_in = match first {
        Ok(()) => true,
        Err(refused) => {
            let is_same = refused.cause == InsertCause::NoMemory
                && refused.element == element
                && are_alike(alloc, tree, twin);
            tree.insert(refused.element).is_ok() && is_same
        }
    };
    is_begun & is_ended & is_in & goes_in(twin, element) & are_alike(alloc, tree, twin)
}

/// Whether a tree is as its twin, and stays so while these elements go into it, one after another.
fn are_taken<T: EqualEnvelopes + Copy + Debug>(
    alloc: Global,
    tree: &mut RTree<T>,
    twin: &mut RTree<T>,
    elements: &[T],
) -> bool
    requires whole { IsWholeTree T.Envelope.boxes T.object ⟦<DefaultParams as RTreeParams>⟧.MAX_SIZE tree.old }
    requires twin { IsWholeTree T.Envelope.boxes T.object ⟦<DefaultParams as RTreeParams>⟧.MAX_SIZE twin.old }
{
    let count = tree.size().saturating_add(elements.len());
    let mut is_so = are_alike(alloc, tree, twin);
    for element in elements {
        if element.envelope().is_empty() || !is_taken(alloc, tree, twin, *element) {
            is_so = false;
        }
    }
    is_so & stands_with(&*tree, count)
}

/// Whether these elements go into an empty tree so; and where the children of the root are told, how many children each of
/// them has, and its envelope, these are there.
fn fill_a_tree<T: EqualEnvelopes + Copy + Debug>(
    alloc: Global,
    elements: &[T],
    children: &[(usize, T::Envelope)],
) -> bool {
    let mut tree: RTree<T> = RTree::default(alloc);
    let mut twin: RTree<T> = RTree::default(alloc);
    let mut is_so = are_taken(alloc, &mut tree, &mut twin, elements);
    let nodes = tree.root().children();
    for (count, envelope) in children {
        is_so &= (nodes.len() == children.len()) & has_node(nodes, *count, envelope);
    }
    let_go(tree);
    let_go(twin);
    is_so
}

/// Whether a tree is as a load of these elements, and others go into both.
fn is_as_loaded<T: EqualEnvelopes + Copy + Debug>(
    alloc: Global,
    mut tree: RTree<T>,
    elements: &[T],
    others: &[T],
) -> bool
    requires dimensions { 2 ≤ T.Envelope.Point.DIMENSIONS }
    requires whole { IsWholeTree T.Envelope.boxes T.object ⟦<DefaultParams as RTreeParams>⟧.MAX_SIZE tree }
{
    let mut twin = loaded(alloc, elements);
    let is_so = are_taken(alloc, &mut tree, &mut twin, others);
    let_go(tree);
    let_go(twin);
    is_so
}

/// A clone of a tree; an empty tree where it is refused.
fn cloned<T: RTreeObject + Copy>(alloc: Global, tree: &RTree<T>) -> RTree<T>
    requires exact { ClonesEqual T.is_clone }
    requires whole { IsWholeTree T.Envelope.boxes T.object ⟦<DefaultParams as RTreeParams>⟧.MAX_SIZE tree.now }
    ensures { IsWholeTree T.Envelope.boxes T.object ⟦<DefaultParams as RTreeParams>⟧.MAX_SIZE result }
{
    match tree.clone() {
        Ok(copy) => copy,
        Err(_) => RTree::default(alloc),
    }
}

/// Whether a load of the first so many elements, and a clone of it, are made at once or once more, and take the others.
fn are_loaded<T: EqualEnvelopes + Copy + Debug>(alloc: Global, all: &[T], count: usize) -> bool
    requires dimensions { 2 ≤ T.Envelope.Point.DIMENSIONS }
    requires exact { ClonesEqual T.is_clone }
{
    let (elements, others) = all.split_at(count.min(all.len()));
    let is_begun = is_marked(alloc);
    let first = load_of::<T, DefaultParams>(alloc, elements);
    let is_ended = is_marked(alloc);
    let tree = match first {
        Ok(tree) => tree,
        Err(_) => loaded(alloc, elements),
    };
    let is_so = is_begun & is_ended & stands_with(&tree, count);
    let is_begun = is_marked(alloc);
    let first = tree.clone();
    let is_ended = is_marked(alloc);
    let copy = match first {
        Ok(copy) => copy,
        Err(_) => cloned(alloc, &tree),
    };
    is_so
        & is_begun
        & is_ended
        & is_as_loaded(alloc, copy, elements, others)
        & is_as_loaded(alloc, tree, elements, others)
}

/// Whether a tree of these points is written and read back the same, at once or, where either is refused for want of memory,
/// once more, and the tree that was read takes others as the one that was written.
fn is_stored(alloc: Global, elements: &[[i64; 2]], others: &[[i64; 2]]) -> bool {
    let mut tree = inserted::<_, DefaultParams>(alloc, elements);
    let is_begun = is_marked(alloc);
    let first = read_back::<DefaultParams, DefaultParams>(alloc, &tree);
    let is_ended = is_marked(alloc);
    let again = match first {
        Err(StoredError::NoMemory) => read_back(alloc, &tree),
        other => other,
    };
    let is_so = match again {
        Ok(mut read) => {
            let is_so = are_taken(alloc, &mut read, &mut tree, others);
            let_go(read);
            is_so
        }
        Err(_) => false,
    };
    let_go(tree);
    is_begun & is_ended & is_so
}

// The seven points on a line: one list of bytes, and the lists of three parents. `scripts/refuse_memory.sh` counts these four, so
// that a tree is written by one allocation.
#[test]
fn stored_trees_that_are_refused(rt: HostRuntime) {
    assert!(rt; is_stored(rt.alloc(), &ALONG_A_LINE, &[]));
}

// Into an empty tree: ten points on a line, the first of them aside; the seven, of which three lie under one parent, and four
// under another; and 22 that wrap around, which reinsert and split more. Then into loads of 25 and of 28 of these, and into
// their clones; and into a tree that was read.
#[test]
fn insertions_and_loads_that_are_refused(rt: HostRuntime) {
    const TEN: [[i32; 2]; 10] = [
        [0, 0],
        [1, 9],
        [2, 8],
        [3, 7],
        [4, 6],
        [5, 5],
        [6, 4],
        [7, 3],
        [8, 2],
        [9, 1],
    ];
    const OTHERS: [[i64; 2]; 6] = [[1, 1], [101, 1], [3, 3], [4, 1], [104, 0], [50, 2]];
    assert!(rt; fill_a_tree(rt.alloc(), &TEN, &[]));
    let left = AABB::from_corners([0, 0], [2, 0]);
    let right = AABB::from_corners([100, 0], [103, 0]);
    assert!(rt;
        fill_a_tree(
            rt.alloc(),
            &scenarios::ALONG_A_LINE,
            &[(3, left), (4, right)]
        )
    );
    let wrapped = points(rt.alloc(), 40);
    assert!(rt; fill_a_tree(rt.alloc(), wrapped.split_at(22.min(wrapped.len())).0, &[]));
    for &count in &[25, 28] {
        assert!(rt; are_loaded(rt.alloc(), &wrapped, count), "of {count}");
    }
    assert!(rt; is_stored(rt.alloc(), &ALONG_A_LINE, &OTHERS));
}
