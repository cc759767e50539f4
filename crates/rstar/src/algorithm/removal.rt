//! Removal of one selected element for each call, from a place on. Nothing here takes memory.
//!
//! Steps that not every call needs stay out of line (`#[inline(never)]`), so that the path down is short.

ghost use Rattle.std.specs.Prelude.{◌≡◌, ◌⊎◌, ℕ, ◌-◌, ◌<◌, ◌≤◌, true, false, IfNone, length, replicate, vec_len};
ghost use Rattle.std.specs.List.{remove};
ghost use Rattle.rstar_base.specs.Hulls.{hull};
ghost use Rattle.rstar.specs.declared.node.RTreeNode.{Leaf};
ghost use Rattle.rstar.specs.Lists.{NoneSelected};
ghost use Rattle.rstar.specs.Nodes.{node_box, all_elements};
ghost use Rattle.rstar.specs.inside.Taking.{IsCleared, IsMerged, IsRest, IsRestAt, Takes, TakesBelow, TakesInside, with_first, first_number, lower_numbers, is_selected_leaf, is_a_leaf, is_childless};

pub(crate) mod earliest;

use crate::bounds::{Covered, Merges, Question};
use crate::node::{ParentNode, RTreeNode, envelope_for_children};

/// The merge of the envelopes of the first children of a node, and the number of them.
///
/// A drain keeps it for the node at its place, for the children that it has not reached. So the envelope of
/// a wide node is recomputed without a look at each child.
#[derive(Drop)]
pub struct Rest<E> {
    envelope: E,
    count: usize,
}

/// Removes the next selected element below a parent, from a place on, and recomputes envelopes where a
/// child's changed. `changed` says whether the parent's own envelope did.
///
/// Children are visited from the last to the first, so a drain of everything shifts none. The place has a
/// number for each level: how many children to the right are passed. A missing number is 0. `rest` is that
/// of the node at the last number.
#[cycle(take)]
pub(crate) fn take_below<T: Covered, R: Question<T>>(
    node: &mut ParentNode<T>,
    path: &mut [usize],
    rest: &mut Option<Rest<T::Cover>>,
    changed: &mut bool,
    func: &R,
) -> Option<T>
    ensures { TakesBelow T.Cover.boxes T.object (R.accepts func.now) (R.selects func.now)
        node.old path.old rest.old result node.new path.new rest.new changed.new }
{
    let taken = take_among(&mut node.children, path, rest, changed, func);
    if taken.is_some() && *changed {
        let merged = merge_along(&node.children, path, rest);
        *changed = merged.differs(&node.envelope);
        node.envelope = merged;
    }
    taken
}

/// The merge of the envelopes of these nodes, with the help of what is kept at the place.
///
/// A drain of n nodes merges about the square root of n envelopes for each node. A few nodes are merged at once.
#[inline(always)]
fn merge_along<T: Covered>(
    children: &[RTreeNode<T>],
    path: &[usize],
    rest: &mut Option<Rest<T::Cover>>,
) -> T::Cover
    ensures merged { IsRestAt T.Cover.boxes T.object rest.old path.now children.now
        → result ≡ hull T.Cover.boxes (node_box T.object.box_of) children.now }
    ensures rests { IsRestAt T.Cover.boxes T.object rest.old path.now children.now
        → IsRestAt T.Cover.boxes T.object rest.new path.now children.now }
    ensures still { length path.now ≡ 0 → rest.new ≡ rest.old }
{
    let left = children.len().saturating_sub(first_number(path));
    if path.len() != 1 || left < 32 {
        return envelope_for_children(children);
    }
    let front = front_of(children, left, rest);
    let merged = front
        .envelope
        .merged(&envelope_for_children(&children[front.count..]));
    *rest = Some(front);
    merged
}

/// The merge of the first nodes, recomputed where the next node to visit is among them.
#[inline(never)]
fn front_of<T: Covered>(
    children: &[RTreeNode<T>],
    left: usize,
    rest: &mut Option<Rest<T::Cover>>,
) -> Rest<T::Cover>
    requires { left ≤ length children.now }
    ensures within { result.count ≤ length children.now }
    ensures merged { (passed : ℕ) → left ≡ length children.now - passed
        → IsRest T.Cover.boxes T.object rest.old passed children.now
        → IsMerged T.Cover.boxes T.object result children.now }
{
    match rest.take() {
        Some(kept) if kept.count < left => kept,
        _ => {
            let count = left - left.isqrt();
            Rest {
                envelope: envelope_for_children(&children[..count]),
                count,
            }
        }
    }
}

/// Removes the next selected element of these nodes, and drops a parent without children. `changed` says
/// whether a node was dropped or changed its envelope.
#[cycle(take)]
fn take_among<T: Covered, R: Question<T>>(
    children: &mut Vec<RTreeNode<T>>,
    path: &mut [usize],
    rest: &mut Option<Rest<T::Cover>>,
    changed: &mut bool,
    func: &R,
) -> Option<T>
    ensures takes { Takes T.Cover.boxes T.object (R.accepts func.now) (R.selects func.now)
        children.old.items path.old rest.old result children.new.items path.new rest.new }
    ensures same { IfNone result (children.new ≡ children.old) }
    ensures unchanged { changed.new ≡ false → hull T.Cover.boxes (node_box T.object.box_of) children.new.items
        ≡ hull T.Cover.boxes (node_box T.object.box_of) children.old.items }
{
    for passed in first_number(path)..children.len() {
        let i = children.len() - 1 - passed;
        if is_selected_leaf(&children[i], func) {
            set_first(path, passed);
            *changed = true;
            return Some(element_of(children.remove(i)));
        }
        let taken = take_inside(&mut children[i], path, rest, changed, func);
        if taken.is_some() {
            if is_childless(&children[i]) {
                drop_child(children, i);
                clear_lower(path, rest);
                *changed = true;
            }
            set_first(path, passed);
            return taken;
        }
        clear_lower(path, rest);
    }
    set_first(path, children.len());
    None
}

/// Removes the next selected element below a child, unless it is a leaf or is not accepted.
#[cycle(take)]
fn take_inside<T: Covered, R: Question<T>>(
    child: &mut RTreeNode<T>,
    path: &mut [usize],
    rest: &mut Option<Rest<T::Cover>>,
    changed: &mut bool,
    func: &R,
) -> Option<T>
    ensures takes { TakesInside T.Cover.boxes T.object (R.accepts func.now) (R.selects func.now)
        child.old (lower_numbers path.old) rest.old result child.new (lower_numbers path.new) rest.new }
    ensures unchanged { changed.new ≡ false → node_box T.object.box_of child.new ≡ node_box T.object.box_of child.old }
{
    let RTreeNode::Parent(parent) = child else {
        return None;
    };
    if !may_hold(parent, path, func) {
        return None;
    }
    let lower = path.len().min(1);
    take_below(parent, &mut path[lower..], rest, changed, func)
}

/// Whether a removal goes below a parent: it is accepted, and its children are no leaves that all are passed.
///
/// Where parents lie over each other, most of them do not hold the element. A look at their leaves is a
/// fraction of a call. A drain has a place and goes on from it, without a look at all leaves.
fn may_hold<T: Covered, R: Question<T>>(parent: &ParentNode<T>, path: &[usize], func: &R) -> bool
    ensures { result ≡ false → (R.accepts func.now parent.now.envelope ≡ false)
        ⊎ NoneSelected (R.selects func.now) (all_elements parent.now.children.items) }
{
    func.should_unpack_parent(&parent.envelope)
        && (!path.is_empty() || !are_passed(parent.children.as_slice(), func))
}

/// Whether all of these nodes are leaves that are not selected.
fn are_passed<T: Covered, R: Question<T>>(nodes: &[RTreeNode<T>], func: &R) -> bool
    ensures { result ≡ true → NoneSelected (R.selects func.now) (all_elements nodes.now) }
{
    let mut left = nodes;
    while let Some((first, rest)) = left.split_first() {
        match first {
            RTreeNode::Leaf(t) => {
                if func.should_unpack_leaf(t) {
                    return false;
                }
            }
            RTreeNode::Parent(_) => return false,
        }
        left = rest;
    }
    true
}

/// Whether a node is a selected leaf.
fn is_selected_leaf<T: Covered, R: Question<T>>(node: &RTreeNode<T>, func: &R) -> bool
    ensures { result ≡ is_selected_leaf (R.selects func.now) node.now }
{
    matches!(node, RTreeNode::Leaf(t) if func.should_unpack_leaf(t))
}

/// Whether a node is a parent without children.
fn is_childless<T: Covered>(node: &RTreeNode<T>) -> bool
    ensures { result ≡ is_childless node.now }
{
    matches!(node, RTreeNode::Parent(parent) if parent.children.is_empty())
}

/// The element of a leaf.
pub(super) fn element_of<T: Covered>(leaf: RTreeNode<T>) -> T
    requires { is_a_leaf leaf ≡ true }
    ensures { Leaf result ≡ leaf }
{
    match leaf {
        RTreeNode::Leaf(t) => t,
        RTreeNode::Parent(_) => unreachable!(),
    }
}

/// Drops the node at a place.
#[inline(never)]
fn drop_child<T: Covered>(children: &mut Vec<RTreeNode<T>>, index: usize)
    requires { index < vec_len children.old }
    ensures items { children.new.items ≡ remove children.old.items index }
{
    let _ = children.remove(index);
}

/// The place among the nodes of the first level.
fn first_number(path: &[usize]) -> usize
    ensures { result ≡ first_number path.now }
{
    match path {
        [] => 0,
        [first, ..] => *first,
    }
}

/// Sets the place among the nodes of the first level.
fn set_first(path: &mut [usize], passed: usize)
    ensures { path.new ≡ with_first path.old passed }
{
    if !path.is_empty() {
        path[0] = passed;
    }
}

/// Resets the levels below the first, where there are some, and drops the kept envelope then.
#[inline(always)]
fn clear_lower<E: Drop>(path: &mut [usize], rest: &mut Option<Rest<E>>)
    ensures { IsCleared path.old rest.old path.new rest.new }
{
    if path.len() > 1 {
        clear(&mut path[1..]);
        *rest = None;
    }
}

/// Sets all numbers to 0.
#[inline(never)]
fn clear(path: &mut [usize])
    ensures { path.new ≡ replicate (length path.old) 0 }
{
    path.fill(0);
}
