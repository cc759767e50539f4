//! Steps that tests of every subject share: trees made of a list of elements, and whether a tree stands.
//!
//! What is done to a tree is generic, a test gives it elements: what is proved once for all types is cheap, the same
//! steps at a concrete type are dear. What may be refused and holds a list, a walk or a tree is matched and lent, where
//! one would write `?`: CONTRIBUTING.md has what each form costs.

ghost use Rattle.std.specs.Prelude.{◌≤◌, None, IfOk};
ghost use Rattle.std.specs.Iterator.{IsFinite, YieldsThen};
ghost use Rattle.rstar.specs.Trees.{IsWholeTree};

use rstar::algorithm::bulk_load::none_empty;
use rstar::node::{ParentNode, RTreeNode};
use rstar::point::RTreeNum;
use rstar::primitives::{GeomWithData, Rectangle};
use rstar::{Envelope, Point, RTree, RTreeObject, RTreeParams};
use std::alloc::{AllocError, Global};

/// Seven points in two groups on a line, which lie under two parents.
pub(crate) const ALONG_A_LINE: [[i32; 2]; 7] = [
    [0, 0],
    [1, 0],
    [2, 0],
    [100, 0],
    [101, 0],
    [102, 0],
    [103, 0],
];

/// Points, each on a line that wraps around in both coordinates: a thousand of them differ. Where memory is refused there
/// are fewer, as in every list that is made for a test.
pub(crate) fn points(alloc: Global, count: usize) -> Vec<[i32; 2]> {
    let mut points = Vec::new(alloc);
    for i in 0..count {
        let near = i % 1000;
        let _refused = points
            .push([((37 * near) % 101) as i32, ((53 * near) % 103) as i32])
            .is_err();
    }
    points
}

/// So many points, the first one and each a step from the one before it.
pub(crate) fn in_steps(
    alloc: Global,
    count: usize,
    first: [i32; 2],
    step: [i32; 2],
) -> Vec<[i32; 2]> {
    let mut points = Vec::new(alloc);
    let [mut x, mut y] = first;
    for _ in 0..count {
        let _refused = points.push([x, y]).is_err();
        x = x.wrapping_add(step[0]);
        y = y.wrapping_add(step[1]);
    }
    points
}

/// All that an iterator gives, up to its end.
pub(crate) fn drained<I: Iterator>(alloc: Global, items: &mut I) -> Result<Vec<I::Item>, AllocError>
where
    I::Item: Drop,
    requires can { I.can_next items.old }
    requires ends { IsFinite (I.remaining items.old) }
    ensures { IfOk result (λ all. YieldsThen I.next_gives items.old all.items None items.new) }
{
    let mut all = Vec::new(alloc);
    while let Some(item) = items.next() {
        all.push(item)?;
    }
    Ok(all)
}

/// Whether a walk gave so many items, with so many nodes opened where that is told. It takes what the walk gave, so that a
/// step lets go of nothing.
pub(crate) fn counts<A: Copy>(
    found: Result<(Vec<A>, usize), AllocError>,
    count: usize,
    opened: Option<usize>,
) -> bool {
    match &found {
        Ok((all, seen)) => all.len() == count && opened.unwrap_or(*seen) == *seen,
        Err(_) => false,
    }
}

/// A list without the count beside it.
pub(crate) fn alone<A: Copy>(
    found: Result<(Vec<A>, usize), AllocError>,
) -> Result<Vec<A>, AllocError> {
    match found {
        Ok((all, _count)) => Ok(all),
        Err(refused) => Err(refused),
    }
}

/// Whether a list was had, with so many items. It takes the list, too.
pub(crate) fn has_len<A: Copy>(list: Result<Vec<A>, AllocError>, count: usize) -> bool {
    match &list {
        Ok(all) => all.len() == count,
        Err(_) => false,
    }
}

/// A rectangle with a number.
pub type Fence = GeomWithData<Rectangle<[i64; 2]>, u64>;

/// So many fences, ten in a row and ten apart, each so wide and so high, numbered from a number on.
pub(crate) fn fences(alloc: Global, count: u8, side: u8, first: u8) -> Vec<Fence> {
    let mut all = Vec::new(alloc);
    for place in 0..count {
        let (x, y) = ((place % 10) as i64 * 10, (place / 10) as i64 * 10);
        let square = Rectangle::from_corners([x, y], [x + side as i64, y + side as i64]);
        let _refused = all
            .push(Fence::new(square, first as u64 + place as u64))
            .is_err();
    }
    all
}

/// A number and two opposite corners.
pub(crate) type Outlined = (u64, [i64; 2], [i64; 2]);

/// Fences with these numbers, each between two corners.
pub(crate) fn fences_of(alloc: Global, rows: &[Outlined]) -> Vec<Fence> {
    let mut all = Vec::new(alloc);
    for &(number, one, other) in rows {
        let _refused = all
            .push(Fence::new(Rectangle::from_corners(one, other), number))
            .is_err();
    }
    all
}

/// Lets a tree go. What drops a tree is proved at each end of a function that lets one go by itself, which is more than a
/// third of what a short step costs; so a step hands its tree on to this.
pub(crate) fn let_go<T: RTreeObject, Params: RTreeParams>(_tree: RTree<T, Params>) {}

/// Lets a root go that no tree holds.
pub(crate) fn let_root_go<T: RTreeObject>(_root: ParentNode<T>) {}

/// Inserts an element, once more where it is refused, and whether it went in: not where its envelope is empty, or it is
/// refused again.
pub(crate) fn goes_in<T: RTreeObject, Params: RTreeParams>(
    tree: &mut RTree<T, Params>,
    element: T,
) -> bool
    requires { IsWholeTree T.Envelope.boxes T.object Params.MAX_SIZE tree.old }
    ensures { IsWholeTree T.Envelope.boxes T.object Params.MAX_SIZE tree.new }
{
    if element.envelope().is_empty() {
        return false;
    }
    match tree.insert(element) {
        Ok(()) => true,
        Err(refused) => tree.insert(refused.element).is_ok(),
    }
}

/// A tree of these elements, inserted in this order; an empty one where one is refused, or has an empty envelope.
pub(crate) fn inserted<T: RTreeObject + Copy, Params: RTreeParams>(
    alloc: Global,
    elements: &[T],
) -> RTree<T, Params>
    ensures { IsWholeTree T.Envelope.boxes T.object Params.MAX_SIZE result }
{
    let mut tree = RTree::default(alloc);
    for element in elements {
        if !goes_in(&mut tree, *element) {
            let_go(tree);
            return RTree::default(alloc);
        }
    }
    tree
}

/// A load of these elements; an empty tree where one of them has an empty envelope.
pub(crate) fn load_of<T: RTreeObject + Copy, Params: RTreeParams>(
    alloc: Global,
    elements: &[T],
) -> Result<RTree<T, Params>, AllocError>
    requires { 2 ≤ T.Envelope.Point.DIMENSIONS }
    ensures { IfOk result (IsWholeTree T.Envelope.boxes T.object Params.MAX_SIZE) }
{
    let list = elements.to_vec(alloc)?;
    if none_empty(&list) {
        RTree::bulk_load_with_params(list)
    } else {
        Ok(RTree::default(alloc))
    }
}

/// The same; an empty tree where it is refused, too.
pub(crate) fn loaded<T: RTreeObject + Copy, Params: RTreeParams>(
    alloc: Global,
    elements: &[T],
) -> RTree<T, Params>
    requires { 2 ≤ T.Envelope.Point.DIMENSIONS }
    ensures { IsWholeTree T.Envelope.boxes T.object Params.MAX_SIZE result }
{
    match load_of(alloc, elements) {
        Ok(tree) => tree,
        Err(_) => RTree::default(alloc),
    }
}

/// What tests read of a node. What goes through nodes asks for this alone: an element type would bring some sixty traits to
/// each of its steps.
pub(crate) trait Node: Sized {
    /// What a leaf holds.
    type Element;

    /// The element of a leaf, none of a parent.
    fn element(&self) -> Option<&Self::Element>;

    /// The children of a parent, none of a leaf.
    fn children(&self) -> Option<&[Self]>;
}

impl<T: RTreeObject> Node for RTreeNode<T> {
    type Element = T;

    fn element(&self) -> Option<&T> {
        match self {
            RTreeNode::Leaf(element) => Some(element),
            RTreeNode::Parent(_) => None,
        }
    }

    fn children(&self) -> Option<&[RTreeNode<T>]> {
        match self {
            RTreeNode::Leaf(_) => None,
            RTreeNode::Parent(parent) => Some(parent.children()),
        }
    }
}

/// The levels of parents among some nodes, down to the first leaf.
pub(crate) fn levels_of<N: Node>(top: &[N]) -> usize {
    let mut nodes = top;
    for levels in 0..64 {
        let Some(first) = nodes.first() else {
            return levels;
        };
        match first.children() {
            Some(below) => nodes = below,
            None => return levels,
        }
    }
    64
}

/// A node with its envelope.
trait Covering: Node {
    /// An envelope.
    type Cover: PartialEq + Drop;

    /// The envelope of nothing.
    fn nothing() -> Self::Cover;

    /// Its own envelope.
    fn cover(&self) -> Self::Cover;

    /// An element's envelope.
    fn cover_of(element: &Self::Element) -> Self::Cover;

    /// Takes an envelope into another.
    fn merge(all: &mut Self::Cover, other: &Self::Cover);
}

impl<T: RTreeObject> Covering for RTreeNode<T> {
    type Cover = T::Envelope;

    fn nothing() -> T::Envelope {
        T::Envelope::new_empty()
    }

    fn cover(&self) -> T::Envelope {
        self.envelope()
    }

    fn cover_of(element: &T) -> T::Envelope {
        element.envelope()
    }

    fn merge(all: &mut T::Envelope, other: &T::Envelope) {
        all.merge(other);
    }
}

/// Merges the envelopes of the elements below some nodes into `all`, and counts them; tells whether each element lies
/// `levels` levels below the nodes, and each parent keeps that merge of its own and has from `least` to `most` children.
fn merge_below<N: Covering>(
    nodes: &[N],
    levels: usize,
    least: usize,
    most: usize,
    all: &mut N::Cover,
    count: &mut usize,
) -> bool {
    for node in nodes {
        let mut own = N::nothing();
        if let Some(element) = node.element() {
            N::merge(&mut own, &N::cover_of(element));
            *count = count.saturating_add(1);
        }
        let is_so = match node.children() {
            Some(children) => {
                levels > 0
                    && least <= children.len()
                    && children.len() <= most
                    && merge_below(children, levels - 1, least, most, &mut own, count)
            }
            None => levels == 0,
        };
        if !is_so || node.cover() != own {
            return false;
        }
        N::merge(all, &own);
    }
    true
}

/// Whether all elements lie on one level, `size` counts them, each envelope is the merge of those of the elements below
/// it, and each parent has from `least` to `most` children, the root at most `most`.
pub(crate) fn stands_within<T: RTreeObject, Params: RTreeParams>(
    tree: &RTree<T, Params>,
    least: usize,
    most: usize,
) -> bool {
    let root = tree.root();
    let mut all = T::Envelope::new_empty();
    let mut count = 0;
    root.children().len() <= most
        && merge_below(
            root.children(),
            levels_of(root.children()),
            least,
            most,
            &mut all,
            &mut count,
        )
        && *root.envelope() == all
        && count == tree.size()
}

/// The same where a parent has one child or any more.
pub(crate) fn stands<T: RTreeObject, Params: RTreeParams>(tree: &RTree<T, Params>) -> bool {
    stands_within(tree, 1, usize::MAX)
}

/// The same, with so many elements.
pub(crate) fn stands_with<T: RTreeObject, Params: RTreeParams>(
    tree: &RTree<T, Params>,
    count: usize,
) -> bool {
    tree.size() == count && stands(tree)
}
