//! Tests of bulk loads, clones and the debug text of a tree.

ghost use Rattle.std.specs.Prelude.{◌≡◌, ◌≤◌, ◌<◌, false, IfOk};
ghost use Rattle.rstar.specs.Clones.{ClonesEqual};
ghost use Rattle.rstar.specs.Trees.{IsWholeTree};

use crate::node_sizes::Small;
use crate::reinsertion::all_go_in;
use crate::scenarios::{
    Node, goes_in, let_go, let_root_go, levels_of, loaded, points, stands_with,
};
use rstar::algorithm::bulk_load::{bulk_load_sequential, none_empty};
use rstar::node::RTreeNode;
use rstar::object::PointOf;
use rstar::params::{DefaultParams, RTreeParams};
use rstar::primitives::{CachedEnvelope, GeomWithData, Line, OrderedDistances, Rectangle};
use rstar::rtree::RTree;
use rstar_base::{AABB, Envelope, EqualEnvelopes, Point, PointDistance, RTreeObject};
use std::alloc::{AllocError, Global};
use std::fmt::Debug;

// ---- what a root shows

/// Appends the elements below some nodes, left to right, at most `levels` levels of parents down.
pub(crate) fn gather<N: Node>(
    nodes: &[N],
    levels: usize,
    all: &mut Vec<N::Element>,
) -> Result<(), AllocError>
where
    N::Element: Copy,
{
    for node in nodes {
        if let Some(element) = node.element() {
            all.push(*element)?;
        }
        match node.children() {
            Some(below) if 0 < levels => gather(below, levels - 1, all)?,
            _ => {}
        }
    }
    Ok(())
}

/// The number of elements below some nodes, at most `levels` levels of parents down.
fn count_below<N: Node>(nodes: &[N], levels: usize) -> usize {
    let mut count = 0usize;
    for node in nodes {
        let own = match node.children() {
            Some(below) if 0 < levels => count_below(below, levels - 1),
            Some(_) => 0,
            None => 1,
        };
        count = count.saturating_add(own);
    }
    count
}

/// Whether two boxes are disjoint on some axis, or share a border there.
fn are_parted<P: Point>(one: &AABB<P>, other: &AABB<P>) -> bool {
    for axis in 0..P::DIMENSIONS {
        if one.upper().nth(axis) <= other.lower().nth(axis)
            || other.upper().nth(axis) <= one.lower().nth(axis)
        {
            return true;
        }
    }
    false
}

/// A node whose envelope is a box.
trait Boxed: Node {
    /// Whether two nodes are parted on some axis.
    fn is_parted_from(&self, other: &Self) -> bool;
}

impl<P: Point> Boxed for RTreeNode<P> {
    fn is_parted_from(&self, other: &RTreeNode<P>) -> bool {
        are_parted(&self.envelope(), &other.envelope())
    }
}

/// Whether any two of some nodes are parted on some axis.
fn are_all_parted<N: Boxed>(nodes: &[N]) -> bool {
    for k in 0..nodes.len() {
        for before in 0..k {
            if !nodes[before].is_parted_from(&nodes[k]) {
                return false;
            }
        }
    }
    true
}

/// Whether the parents below are cut as a bulk load cuts them: more than `wide` points, at most half of them
/// below each child, at most `most` children, and any two children parted. `least` becomes the least number
/// of children of a parent of leaves, where that is less.
fn is_cut<N: Boxed>(
    children: &[N],
    levels: usize,
    wide: usize,
    most: usize,
    least: &mut usize,
) -> bool {
    if levels == 0 {
        *least = (*least).min(children.len());
        return true;
    }
    let mut count = 0usize;
    let mut longest = 0usize;
    for child in children {
        let Some(below) = child.children() else {
            return false;
        };
        if !is_cut(below, levels - 1, wide, most, least) {
            return false;
        }
        let own = count_below(below, levels - 1);
        count = count.saturating_add(own);
        longest = longest.max(own);
    }
    wide < count
        && longest <= count.div_ceil(2)
        && children.len() <= most
        && are_all_parted(children)
}

/// Whether nodes have these numbers of elements, in ascending order.
fn has_parts<N: Node>(alloc: Global, nodes: &[N], parts: &[usize]) -> bool {
    let levels = levels_of(nodes);
    let mut counts = Vec::new(alloc);
    for node in nodes {
        if let Some(below) = node.children() {
            if counts.push(count_below(below, levels)).is_err() {
                return false;
            }
        }
    }
    counts.sort_unstable();
    counts.as_slice() == parts
}

// ---- loads

/// Whether a list has these items, in some order.
pub(crate) fn are_same<V: Ord + Copy>(alloc: Global, mut list: Vec<V>, items: &[V]) -> bool {
    list.sort_unstable();
    match &mut items.to_vec(alloc) {
        Ok(sources) => {
            sources.sort_unstable();
            list == *sources
        }
        Err(_) => false,
    }
}

/// Whether a bulk load of these points has them all and is cut, and takes more of them one after another.
fn loads_well<P: Point + Copy + Ord, Params: RTreeParams>(
    alloc: Global,
    points: &[P],
    most: usize,
    more: &[P],
) -> bool
    requires { 2 ≤ P.DIMENSIONS }
{
    let mut tree = loaded::<P, Params>(alloc, points);
    let nodes = tree.root().children();
    let levels = levels_of(nodes);
    let mut least = usize::MAX;
    let mut all = Vec::new(alloc);
    let is_gathered = gather(nodes, levels, &mut all).is_ok();
    let is_so = are_same(alloc, all, points)
        & is_gathered
        & stands_with(&tree, points.len())
        & is_cut(nodes, levels, Params::MAX_SIZE, most, &mut least)
        & (least <= Params::MAX_SIZE)
        & all_go_in(&mut tree, more, 1, usize::MAX);
    let_go(tree);
    is_so
}

/// The points of `points`, with a third coordinate.
pub(crate) fn deep_points(alloc: Global, count: usize) -> Vec<[i32; 3]> {
    let mut points = Vec::new(alloc);
    for i in 0..count {
        let near = i % 1000;
        let _refused = points
            .push([
                ((37 * near) % 101) as i32,
                ((53 * near) % 103) as i32,
                ((29 * near) % 31) as i32,
            ])
            .is_err();
    }
    points
}

/// The points of `deep_points`, with a fourth coordinate.
fn points_of_four_axes(alloc: Global, count: usize) -> Vec<[i32; 4]> {
    let deep = deep_points(alloc, count);
    let mut points = Vec::new(alloc);
    for i in 0..deep.len() {
        let [x, y, z] = deep[i];
        let _refused = points.push([x, y, z, x.wrapping_add(z) % 67]).is_err();
    }
    points
}

const LOADED: [[i32; 3]; 40] = [
    [57000000, 108000000, 8900000],
    [3000000, 108000000, 62700000],
    [191600000, 108000000, 6800000],
    [27400000, 108000000, 79000000],
    [47600000, 108000000, 89500000],
    [155700000, 108000000, 25000000],
    [154600000, 108000000, 88300000],
    [151200000, 108000000, 61000000],
    [172900000, 108000000, 35800000],
    [184100000, 108000000, 43400000],
    [175200000, 108000000, 69600000],
    [167400000, 108000000, 70500000],
    [13600000, 108000000, 2200000],
    [159300000, 108000000, 7100000],
    [58600000, 108000000, 27200000],
    [34800000, 108000000, 37300000],
    [50200000, 108000000, 200000],
    [148800000, 108000000, 107200000],
    [3100000, 108000000, 52600000],
    [169500000, 108000000, 55900000],
    [166300000, 108000000, 29800000],
    [31600000, 108000000, 41700000],
    [134800000, 108000000, 73100000],
    [78400000, 108000000, 12600000],
    [22500000, 108000000, 84700000],
    [7900000, 108000000, 81900000],
    [32000000, 108000000, 50400000],
    [171400000, 108000000, 102600000],
    [26400000, 108000000, 22900000],
    [10800000, 108000000, 15800000],
    [166500000, 108000000, 60400000],
    [49600000, 108000000, 23100000],
    [181300000, 108000000, 86500000],
    [120000000, 108000000, 32600000],
    [166100000, 108000000, 81800000],
    [13500000, 108000000, 22900000],
    [42400000, 108000000, 101600000],
    [170800000, 108000000, 79100000],
    [162600000, 108000000, 68200000],
    [44200000, 108000000, 89500000],
];

const INSERTED: [[i32; 3]; 10] = [
    [191600000, 106000000, 6800000],
    [166400000, 106000000, 29800000],
    [159400000, 106000000, 7100000],
    [22500000, 106000000, 84600000],
    [184100000, 106000000, 43400000],
    [50200000, 106000000, 200000],
    [162558520, 106001220, 68200000],
    [134852730, 106000290, 73108124],
    [31636127, 106002980, 41824515],
    [172932530, 106000230, 35850134],
];

const EQUAL: [[i32; 2]; 300] = [[0, 1]; 300];

/// Whether bulk loads of points of two axes, and of equal points, are as they should be, for both node
/// sizes.
fn loads_well_at_both_sizes<P: Point + Copy + Ord>(
    alloc: Global,
    points: &[P],
    same: &[P],
    more: &[P],
) -> bool
    requires { 2 ≤ P.DIMENSIONS }
{
    loads_well::<P, DefaultParams>(alloc, points, 6, more)
        && loads_well::<P, DefaultParams>(alloc, same, 6, more)
        && loads_well::<P, Small>(alloc, points, 4, &[])
}

// From none to 300, and the larger counts of rstar's test `test_bulk_load_leaves_on_one_level`, of points of two, three
// and four axes, and of equal points. A load of 25 has a parent of leaves that is too wide: 7 of them.
#[test]
fn loads_of_many_sizes_are_loaded_and_take_insertions(rt: HostRuntime) {
    const LARGER: [usize; 10] = [
        693, 1024, 1299, 1537, 1791, 6145, 7167, 7777, 25_000, 100_003,
    ];
    for turn in 0..311usize {
        let count = if turn <= 300 {
            turn
        } else {
            LARGER[turn - 301]
        };
        let taken = if matches!(turn, 0 | 25 | 28 | 37 | 300) {
            40
        } else {
            0
        };
        let flat = points(rt.alloc(), count);
        let more = points(rt.alloc(), taken);
        assert!(rt;
            loads_well_at_both_sizes(rt.alloc(), &flat, &EQUAL[..count.min(300)], &more),
            "of {count}"
        );
        let deep = deep_points(rt.alloc(), count);
        assert!(rt;
            loads_well::<[i32; 3], DefaultParams>(rt.alloc(), &deep, 8, &[]),
            "of {count}"
        );
        let deeper = points_of_four_axes(rt.alloc(), count);
        assert!(rt;
            loads_well::<_, DefaultParams>(rt.alloc(), &deeper, 16, &[]),
            "of {count}"
        );
    }
    assert!(rt; loads_well::<[i32; 3], DefaultParams>(rt.alloc(), &LOADED, 8, &INSERTED));
}

/// Whether each of some nodes is a parent with these parts.
fn all_have_parts<N: Node>(alloc: Global, nodes: &[N], parts: &[usize]) -> bool {
    for node in nodes {
        let is_so = match node.children() {
            Some(below) => has_parts(alloc, below, parts),
            None => false,
        };
        if !is_so {
            return false;
        }
    }
    true
}

/// The levels of parents below a root, the number of elements of each child, ascending, and of each child of
/// a child. An empty list is not tested.
type Parts<'a> = (usize, &'a [usize], &'a [usize]);

/// Whether a tree is whole and has this many elements, in these parts.
fn is_in_parts<T: RTreeObject>(
    alloc: Global,
    tree: &RTree<T>,
    count: usize,
    parts: &Parts<'_>,
) -> bool {
    let nodes = tree.root().children();
    stands_with(tree, count)
        & (levels_of(nodes) == parts.0)
        & has_parts(alloc, nodes, parts.1)
        & (parts.2.is_empty() || all_have_parts(alloc, nodes, parts.2))
}

/// The same of a clone of a tree; false where the clone is refused.
fn clone_is_in_parts<T: RTreeObject + Copy>(
    alloc: Global,
    tree: &RTree<T>,
    count: usize,
    parts: &Parts<'_>,
) -> bool
    requires { IsWholeTree T.Envelope.boxes T.object ⟦<DefaultParams as RTreeParams>⟧.MAX_SIZE tree.now }
{
    match tree.clone() {
        Ok(copy) => {
            let is_so = is_in_parts(alloc, &copy, count, parts);
            let_go(copy);
            is_so
        }
        Err(_) => false,
    }
}

/// The same of a bulk load of these elements, and of its clone.
fn load_is_in_parts<T: RTreeObject + Copy>(alloc: Global, elements: &[T], parts: &Parts<'_>) -> bool
    requires { 2 ≤ T.Envelope.Point.DIMENSIONS }
{
    let tree = loaded(alloc, elements);
    let count = elements.len();
    let is_so = is_in_parts(alloc, &tree, count, parts)
        & clone_is_in_parts(alloc, &tree, count, parts);
    let_go(tree);
    is_so
}

/// Whether the root of a bulk load has these numbers of elements below its children. No elements give no
/// root.
fn root_has_parts<T: RTreeObject>(alloc: Global, elements: Vec<T>, parts: &[usize]) -> bool
    requires { 2 ≤ T.Envelope.Point.DIMENSIONS }
{
    if elements.is_empty() || !none_empty(&elements) {
        return false;
    }
    match bulk_load_sequential::<T, DefaultParams>(elements) {
        Ok(root) => {
            let is_so = has_parts(alloc, root.children(), parts);
            let_root_go(root);
            is_so
        }
        Err(_) => false,
    }
}

// How many points, and their parts; of seven with three axes, too, and of a root alone.
#[test]
fn loads_and_clones_have_their_parts(rt: HostRuntime) {
    const ROWS: [(usize, Parts<'static>); 8] = [
        (0, (0, &[], &[])),
        (6, (0, &[], &[])),
        (7, (1, &[1, 2, 2, 2], &[])),
        (25, (1, &[6, 6, 6, 7], &[])),
        (26, (1, &[6, 6, 7, 7], &[])),
        (28, (2, &[7, 7, 7, 7], &[1, 2, 2, 2])),
        (36, (2, &[9, 9, 9, 9], &[])),
        (37, (2, &[9, 9, 9, 10], &[])),
    ];
    const DEEP: Parts<'static> = (1, &[1; 7], &[]);
    for row in 0..ROWS.len() {
        let (count, parts) = &ROWS[row];
        assert!(rt;
            load_is_in_parts(rt.alloc(), &points(rt.alloc(), *count), parts),
            "row {row}"
        );
    }
    let deep = deep_points(rt.alloc(), 7);
    assert!(rt;
        load_is_in_parts(rt.alloc(), &deep, &DEEP)
            && root_has_parts(rt.alloc(), points(rt.alloc(), 25), &[6, 6, 6, 7])
    );
}

// ---- clones and texts

/// The debug text of a value; empty where memory is refused.
pub(crate) fn shown<V: Debug>(alloc: Global, value: &V) -> String {
    match format!(in alloc; "{value:?}") {
        Ok(text) => text,
        Err(_) => String::new(alloc),
    }
}

/// Whether the debug text of a value is this one, and not empty.
pub(crate) fn shows<V: Debug>(alloc: Global, value: &V, text: &str) -> bool {
    !text.is_empty() && shown(alloc, value).as_str() == text
}

/// Whether a clone shows what the tree shows, and an insertion into the clone leaves the tree.
fn stays_alone<T: RTreeObject + Copy + Debug>(
    alloc: Global,
    tree: &RTree<T>,
    copy: &mut RTree<T>,
    element: T,
) -> bool
    requires { IsWholeTree T.Envelope.boxes T.object ⟦<DefaultParams as RTreeParams>⟧.MAX_SIZE copy.old }
{
    let count = tree.size();
    let text = &shown(alloc, tree.root());
    (copy.size() == count)
        & shows(alloc, copy.root(), text)
        & goes_in(copy, element)
        & (tree.size() == count)
        & (count < copy.size())
        & shows(alloc, tree.root(), text)
}

/// The same of a bulk load of these elements, which shows the text where one is given.
fn loads_cloned_alone<T: RTreeObject + Copy + Debug>(
    alloc: Global,
    elements: &[T],
    more: T,
    text: &str,
) -> bool
    requires dimensions { 2 ≤ T.Envelope.Point.DIMENSIONS }
    requires exact { ClonesEqual T.is_clone }
{
    let tree = loaded(alloc, elements);
    let is_shown = (tree.size() == elements.len()) & (text.is_empty() || shows(alloc, &tree, text));
    let is_so = match tree.clone() {
        Ok(mut copy) => {
            let is_alone = stays_alone(alloc, &tree, &mut copy, more);
            let_go(copy);
            is_alone & is_shown
        }
        Err(_) => false,
    };
    let_go(tree);
    is_so
}

// Points in one place, with the text of their load; and so many points, where no text is given.
#[test]
fn loads_show_their_elements_and_clones_the_same(rt: HostRuntime) {
    const ROWS: [(&'static [[i32; 2]], &'static str, usize); 9] = [
        (
            &[[0, 1]; 2],
            "RTree { size: 2, items: {[0, 1], [0, 1]} }",
            0,
        ),
        (&[], "RTree { size: 0, items: {} }", 0),
        (
            &[[0, 1]; 9],
            "RTree { size: 9, items: {[0, 1], [0, 1], [0, 1], [0, 1], [0, 1], [0, 1], [0, 1], [0, 1], [0, 1]} }",
            0,
        ),
        (&[], "", 0),
        (&[], "", 1),
        (&[], "", 7),
        (&[], "", 25),
        (&[], "", 37),
        (&[], "", 300),
    ];
    for row in 0..ROWS.len() {
        let &(same, text, count) = &ROWS[row];
        let flat = points(rt.alloc(), count);
        let list = if text.is_empty() { &flat } else { same };
        assert!(rt;
            loads_cloned_alone(rt.alloc(), list, [7, 7], text),
            "row {row}"
        );
    }
}

// ---- callers

/// A bulk load of three points.
pub fn points_loaded(alloc: Global, more: [i64; 2]) -> Result<RTree<[i64; 2]>, AllocError>
    ensures { IfOk result (IsWholeTree ⟦<AABB<[i64; 2]> as Envelope>⟧.boxes ⟦<[i64; 2] as RTreeObject>⟧.object
        ⟦<DefaultParams as RTreeParams>⟧.MAX_SIZE) }
{
    RTree::bulk_load(Vec::from_array(alloc, [[0, 0], [5, 5], more])?)
}

/// Whether a tree has an element at a point, and its size after one more insertion.
pub fn found_and_count<T: PointDistance>(
    mut tree: RTree<T>,
    point: PointOf<T>,
    more: T,
) -> (bool, usize)
    requires whole { IsWholeTree T.Envelope.boxes T.object ⟦<DefaultParams as RTreeParams>⟧.MAX_SIZE tree }
    requires element { T.Envelope.boxes.is_empty (T.object.box_of more) ≡ false }
{
    let found = tree.locate_at_point(point).is_some();
    let _refused = tree.insert(more).is_err();
    let count = tree.size();
    let_go(tree);
    (found, count)
}

/// The same of a bulk load; false where the further element has an empty envelope.
fn found_in_load<T: PointDistance + Copy>(
    alloc: Global,
    elements: &[T],
    point: PointOf<T>,
    more: T,
    wanted: (bool, usize),
) -> bool
    requires { 2 ≤ T.Envelope.Point.DIMENSIONS }
{
    if more.envelope().is_empty() {
        return false;
    }
    found_and_count(loaded(alloc, elements), point, more) == wanted
}

#[test]
fn callers_load_query_and_insert(rt: HostRuntime) {
    const THREE: [[i64; 2]; 3] = [[0, 0], [5, 5], [7, 8]];
    let near = Rectangle::from_corners([0i64, 0], [2, 2]);
    let far = Rectangle::from_corners([5, 5], [9, 9]);
    let more = Rectangle::from_corners([9, 9], [5, 5]);
    assert!(rt;
        found_in_load(rt.alloc(), &THREE, [5, 5], [1, 1], (true, 4))
            && found_in_load(rt.alloc(), &[near, far], [1, 1], more, (true, 3))
    );
}

/// Whether a bulk load of two elements contains an element and has a nearest to a point.
fn load_contains<T: EqualEnvelopes + PointDistance>(
    alloc: Global,
    one: T,
    other: T,
    wanted: &T,
    at: PointOf<T>,
) -> bool
    requires { 2 ≤ T.Envelope.Point.DIMENSIONS }
{
    let mut elements = Vec::new(alloc);
    if elements.push(one).is_err() || elements.push(other).is_err() || !none_empty(&elements) {
        return false;
    }
    match RTree::<T>::bulk_load(elements) {
        Ok(tree) => {
            let is_there = tree.contains(wanted)
                && matches!(tree.nearest_neighbor(at), Ok(Some(_)));
            let_go(tree);
            is_there
        }
        Err(_) => false,
    }
}

/// Whether bulk loads of two elements contain the first and have a nearest to a point, with numbers and with cached
/// envelopes.
fn loads_contain_the_first<R: EqualEnvelopes + PointDistance + Copy>(
    alloc: Global,
    one: R,
    other: R,
    at: PointOf<R>,
) -> bool
where
    R::Envelope: OrderedDistances,
    PointOf<R>: Copy,
    requires { 2 ≤ R.Envelope.Point.DIMENSIONS }
{
    load_contains(
        alloc,
        GeomWithData::new(one, 7u64),
        GeomWithData::new(other, 7),
        &GeomWithData::new(one, 7),
        at,
    ) && load_contains(
        alloc,
        CachedEnvelope::new(one),
        CachedEnvelope::new(other),
        &CachedEnvelope::new(one),
        at,
    )
}

// rstar's tests `container_in_rtree` and `container_nearest_neighbour`, of a line with a number and of one with its
// envelope beside it.
#[test]
fn loads_contain_what_holds_a_line(rt: HostRuntime) {
    let one = Line::new([0i64, 0], [1, 1]);
    let other = Line::new([0, 0], [-1, 1]);
    assert!(rt; loads_contain_the_first(rt.alloc(), one, other, [0, 0]));
}
