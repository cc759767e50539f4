//! Removal of many elements in one pass, into a list with room. Nothing here takes memory.

ghost use Rattle.std.specs.Prelude.{◌≡◌, ℕ, ◌<◌, ◌≤◌, vec_len, vec_capacity};
ghost use Rattle.rstar.specs.inside.Gathering.{GathersAmong, IsSwappedOut};
ghost use Rattle.rstar.specs.inside.ParentBounds.{IsKept, AreKept};
ghost use Rattle.rstar.specs.Nodes.{children_of};

use crate::algorithm::removal::element_of;
use crate::bounds::{Covered, Question};
use crate::node::{ParentNode, RTreeNode, envelope_for_children};

/// Moves selected elements from below a parent to the end of a list, until the list holds `most` elements or
/// no selected element is left. Envelopes are recomputed once, where elements left.
///
/// It tests each child of an accepted parent once, so a wide node costs no more than its width.
#[cycle(gather)]
pub(crate) fn gather_below<T: Covered, R: Question<T>>(
    node: &mut ParentNode<T>,
    func: &R,
    most: usize,
    taken: &mut Vec<T>,
)
    requires room { most ≤ vec_capacity taken.old }
    ensures gathers { GathersAmong T.Cover.boxes T.object (R.accepts func.now) (R.selects func.now) most
        (children_of node.old) taken.old.items (children_of node.new) taken.new.items }
    ensures kept { (w h : ℕ) → IsKept T.Cover.boxes T.object w node.old
        → AreKept T.Cover.boxes T.object w h (children_of node.old) → IsKept T.Cover.boxes T.object w node.new }
    ensures capacity { vec_capacity taken.new ≡ vec_capacity taken.old }
{
    let before = taken.len();
    gather_among(&mut node.children, func, most, taken);
    if taken.len() > before {
        node.envelope = envelope_for_children(&node.children);
    }
}

/// The same among the nodes of a list. Parents without children are dropped.
///
/// Nodes are visited from the last to the first. The last node takes the place of a dropped one, so nothing shifts.
#[cycle(gather)]
fn gather_among<T: Covered, R: Question<T>>(
    children: &mut Vec<RTreeNode<T>>,
    func: &R,
    most: usize,
    taken: &mut Vec<T>,
)
    requires room { most ≤ vec_capacity taken.old }
    ensures gathers { GathersAmong T.Cover.boxes T.object (R.accepts func.now) (R.selects func.now) most
        children.old.items taken.old.items children.new.items taken.new.items }
    ensures capacity { vec_capacity taken.new ≡ vec_capacity taken.old }
{
    for i in (0..children.len()).rev() {
        if taken.len() >= most {
            return;
        }
        match &mut children[i] {
            RTreeNode::Leaf(t) if func.should_unpack_leaf(t) => {
                taken.push_reserved(element_of(children.swap_remove(i)));
            }
            RTreeNode::Parent(parent) if func.should_unpack_parent(&parent.envelope) => {
                gather_below(parent, func, most, taken);
                if parent.children.is_empty() {
                    swap_out(children, i);
                }
            }
            RTreeNode::Leaf(_) => {}
            RTreeNode::Parent(_) => {}
        }
    }
}

/// Drops the node at a place. The last node takes its place.
#[inline(never)]
fn swap_out<T: Covered>(children: &mut Vec<RTreeNode<T>>, index: usize)
    requires { index < vec_len children.old }
    ensures out { IsSwappedOut children.old.items index children.new.items }
{
    let _ = children.swap_remove(index);
}
