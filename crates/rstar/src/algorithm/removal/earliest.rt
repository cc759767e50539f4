//! Removal of the earliest selected element by `Ord`. Nothing here takes memory.
//!
//! A read-only recursion finds the child below which it lies; then it is removed below that child in the
//! same way. So one path changes, and each level of it is read once.

ghost use Rattle.std.specs.Prelude.{◌≡◌, [], false, None, slice_index_or};
ghost use Rattle.rstar_base.specs.Hulls.{hull};
ghost use Rattle.rstar.specs.inside.Earliest.{earliest, lent, earlier_at, IsGivenAt, IsEarliestOf};
ghost use Rattle.rstar.specs.Nodes.{node_box, given, all_given};
ghost use Rattle.rstar.specs.inside.Taking.{Takes, TakesBelow};

use crate::algorithm::removal::{drop_child, element_of, is_childless};
use crate::bounds::{Covered, Merges, Question};
use crate::node::{ParentNode, RTreeNode, envelope_for_children};

/// The earliest selected element below a node by `Ord`; the leftmost of several.
#[cycle(earliest)]
fn earliest_in<'a, T: Covered + Ord, R: Question<T>>(
    node: &'a RTreeNode<T>,
    func: &R,
) -> Option<&'a T>
    ensures { lent result ≡ earliest T.cmp (given (R.accepts func.now) (R.selects func.now) node.now) }
{
    match node {
        RTreeNode::Leaf(t) => func.should_unpack_leaf(t).then_some(t),
        RTreeNode::Parent(parent) if func.should_unpack_parent(&parent.envelope) => {
            Some(earliest_below(parent.children.as_slice(), func)?.1)
        }
        RTreeNode::Parent(_) => None,
    }
}

/// The same below several nodes, with the place of the node that it lies below.
#[cycle(earliest)]
fn earliest_below<'a, T: Covered + Ord, R: Question<T>>(
    nodes: &'a [RTreeNode<T>],
    func: &R,
) -> Option<(usize, &'a T)>
    ensures { IsEarliestOf (R.accepts func.now) (R.selects func.now) T.cmp nodes.now result }
{
    let mut found = None;
    for (place, node) in nodes.iter().enumerate() {
        found = earlier(found, place, earliest_in(node, func));
    }
    found
}

/// The earlier of the element found and the next one, with its place.
fn earlier<'a, T: Ord>(
    found: Option<(usize, &'a T)>,
    place: usize,
    next: Option<&'a T>,
) -> Option<(usize, &'a T)>
    ensures { result ≡ earlier_at T.cmp found.entry place next.entry }
{
    let Some(t) = next else {
        return found;
    };
    match found {
        Some(first) if !t.cmp(first.1).is_lt() => found,
        _ => Some((place, t)),
    }
}

/// Removes the earliest selected element below a parent by `Ord`, and recomputes envelopes where a child's
/// changed. `changed` says whether the parent's own envelope did.
#[cycle(take_earliest)]
pub(crate) fn take_earliest<T: Covered + Ord, R: Question<T>>(
    node: &mut ParentNode<T>,
    changed: &mut bool,
    func: &R,
) -> Option<T>
    ensures below { TakesBelow T.Cover.boxes T.object (R.accepts func.now) (R.selects func.now)
        node.old [] None result node.new [] None changed.new }
    ensures first { result ≡ earliest T.cmp
        (all_given (R.accepts func.now) (R.selects func.now) node.old.children.items) }
{
    let place = earliest_below(node.children.as_slice(), func)?.0;
    let taken = take_at(&mut node.children, place, changed, func);
    if *changed {
        let merged = envelope_for_children(&node.children);
        *changed = merged.differs(&node.envelope);
        node.envelope = merged;
    }
    taken
}

/// Removes the earliest selected element below the node at a place, and drops a parent without children.
/// `changed` says whether a node was dropped or changed its envelope.
#[cycle(take_earliest)]
fn take_at<T: Covered + Ord, R: Question<T>>(
    children: &mut Vec<RTreeNode<T>>,
    place: usize,
    changed: &mut bool,
    func: &R,
) -> Option<T>
    requires { IsGivenAt (R.accepts func.now) (R.selects func.now) children.old.items place }
    ensures takes { Takes T.Cover.boxes T.object (R.accepts func.now) (R.selects func.now)
        children.old.items [] None result children.new.items [] None }
    ensures first { (d : _) → result ≡ earliest T.cmp
        (given (R.accepts func.now) (R.selects func.now) (slice_index_or children.old.items place d)) }
    ensures unchanged { changed.new ≡ false → hull T.Cover.boxes (node_box T.object.box_of) children.new.items
        ≡ hull T.Cover.boxes (node_box T.object.box_of) children.old.items }
{
    let RTreeNode::Parent(parent) = &mut children[place] else {
        *changed = true;
        return Some(element_of(children.remove(place)));
    };
    let taken = take_earliest(parent, changed, func);
    if is_childless(&children[place]) {
        drop_child(children, place);
        *changed = true;
    }
    taken
}
