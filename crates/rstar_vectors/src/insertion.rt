//! Insertion and splits: the shapes that fixed sequences of elements give.

ghost use Rattle.std.specs.Prelude.{◌≤◌, false};

use crate::node_sizes::Huge;
use crate::scenarios::{ALONG_A_LINE, inserted, let_go, stands_within};
use rstar::algorithm::rstar::{RStarInsertionStrategy, split_children};
use rstar::node::{RTreeNode, envelope_for_children};
use rstar::params::{
    DefaultParams, InsertCause, InsertError, InsertionStrategy, RTreeParams, verify_parameters,
};
use rstar::rtree::RTree;
use rstar_base::{AABB, Envelope, EqualEnvelopes, Point, RTreeObject};
use std::alloc::{AllocError, Global};

const TWO_HEAPS: [[i32; 2]; 7] = [[12, 12], [0, 0], [10, 10], [2, 2], [11, 11], [3, 3], [1, 1]];

// The two heaps, and four points between and beside them.
const ELEVEN: [[i32; 2]; 11] = [
    [12, 12],
    [0, 0],
    [10, 10],
    [2, 2],
    [11, 11],
    [3, 3],
    [1, 1],
    [6, 6],
    [8, 8],
    [1, 2],
    [2, 1],
];

const NINE: [[i32; 2]; 9] = [
    [0, 0],
    [0, 1],
    [10, 0],
    [10, 1],
    [12, 0],
    [12, 10],
    [14, 10],
    [20, 0],
    [5, 2],
];

#[test]
fn two_dimensions_are_wanted(rt: HostRuntime) {
    assert!(rt; !verify_parameters::<[i32; 1], DefaultParams>());
    assert!(rt; verify_parameters::<[i32; 2], DefaultParams>());
    assert!(rt; verify_parameters::<[i32; 2], Huge>());
}

/// These elements as leaves.
fn leaves_of<T: RTreeObject + Copy>(
    alloc: Global,
    elements: &[T],
) -> Result<Vec<RTreeNode<T>>, AllocError> {
    let mut leaves = Vec::new(alloc);
    for element in elements {
        leaves.push(RTreeNode::Leaf(*element))?;
    }
    Ok(leaves)
}

/// Whether these nodes are so many, with such an envelope.
fn are_so<T: RTreeObject>(nodes: Vec<RTreeNode<T>>, outline: &(usize, T::Envelope)) -> bool {
    nodes.len() == outline.0 && envelope_for_children(&nodes) == outline.1
}

/// Whether a list of these elements as leaves is cut in two: as many in each part, with such an envelope.
fn leaves_are_cut_in<T: RTreeObject + Copy>(
    alloc: Global,
    elements: &[T],
    one: &(usize, T::Envelope),
    other: &(usize, T::Envelope),
) -> bool {
    let Ok(list) = leaves_of(alloc, elements) else {
        return false;
    };
    let Ok(spare) = Vec::with_capacity(alloc, list.len()) else {
        return false;
    };
    if list.len() <= DefaultParams::MAX_SIZE {
        return false;
    }
    let (left, right) = split_children::<T, DefaultParams>(list, spare);
    are_so(left, one) & are_so(right, other)
}

#[test]
fn a_list_is_cut_by_overlap_and_area(rt: HostRuntime) {
    let low = AABB::from_corners([0, 0], [3, 3]);
    let high = AABB::from_corners([10, 10], [12, 12]);
    assert!(rt; leaves_are_cut_in(rt.alloc(), &TWO_HEAPS, &(4, low), &(3, high)));
}

/// Whether one of some nodes has so many children, none for a leaf, and this envelope.
pub(crate) fn has_node<T: RTreeObject>(
    nodes: &[RTreeNode<T>],
    count: usize,
    envelope: &T::Envelope,
) -> bool {
    for node in nodes {
        let held = match node {
            RTreeNode::Leaf(_) => 0,
            RTreeNode::Parent(parent) => parent.children().len(),
        };
        if held == count && node.envelope() == *envelope {
            return true;
        }
    }
    false
}

/// Whether elements, inserted in turn, give a tree that stands, where each parent has three to six children, and the root
/// two: how many children each has, and its envelope.
fn is_shaped<T: RTreeObject + Copy>(
    alloc: Global,
    elements: &[T],
    one: &(usize, T::Envelope),
    other: &(usize, T::Envelope),
) -> bool {
    let tree = inserted::<T, DefaultParams>(alloc, elements);
    let nodes = tree.root().children();
    let is_so = [tree.size(), nodes.len()] == [elements.len(), 2]
        && stands_within(&tree, 3, 6)
        && has_node(nodes, one.0, &one.1)
        && has_node(nodes, other.0, &other.1);
    let_go(tree);
    is_so
}

/// How many children a node has, and the corners of its envelope.
type Outline = (usize, [i32; 2], [i32; 2]);

// Points, inserted in turn, and for both children of the root: how many children, and the envelope. Points without axes
// are split too.
#[test]
fn insertions_shape_the_tree(rt: HostRuntime) {
    const ROWS: [(&'static [[i32; 2]], Outline, Outline); 4] = [
        (&ALONG_A_LINE, (3, [0, 0], [2, 0]), (4, [100, 0], [103, 0])),
        (&TWO_HEAPS, (4, [0, 0], [3, 3]), (3, [10, 10], [12, 12])),
        // The ninth point goes where the overlap grows least.
        (&NINE, (5, [0, 0], [10, 2]), (4, [12, 0], [20, 10])),
        // The farthest children go in again: `[0, 0]` and `[6, 6]` are handed out.
        (&ELEVEN, (6, [0, 0], [3, 3]), (5, [6, 6], [12, 12])),
    ];
    for row in 0..ROWS.len() {
        let &(points, one, other) = &ROWS[row];
        let low = (one.0, AABB::from_corners(one.1, one.2));
        let high = (other.0, AABB::from_corners(other.1, other.2));
        assert!(rt; is_shaped(rt.alloc(), points, &low, &high), "row {row}");
    }
    let ten: [[i32; 0]; 10] = [[]; 10];
    let nowhere = AABB::from_point([]);
    assert!(rt; is_shaped(rt.alloc(), &ten, &(4, nowhere), &(6, nowhere)));
}

/// Whether an insertion that would need more lists than there can be is refused, and gives the element back.
fn is_one_too_many<T: EqualEnvelopes + Copy>(alloc: Global, element: T) -> bool
    requires { 2 ≤ T.Envelope.Point.DIMENSIONS }
{
    if element.envelope().is_empty() {
        return false;
    }
    let mut tree: RTree<T, Huge> = RTree::new_with_params(alloc);
    let refused = match RStarInsertionStrategy::insert(&mut tree, element) {
        Ok(()) => false,
        Err(refused) => refused.cause == InsertCause::TooMany && refused.element == element,
    };
    let is_bare = tree.size() == 0 && tree.root().children().is_empty();
    let_go(tree);
    refused && is_bare
}

#[test]
fn an_insertion_of_too_many_is_refused(rt: HostRuntime) {
    assert!(rt; is_one_too_many::<[i32; 2]>(rt.alloc(), [0, 0]));
}
