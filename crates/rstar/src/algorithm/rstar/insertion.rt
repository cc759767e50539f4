//! Insertion into prepared memory. Nothing here takes memory, and nothing can fail.

ghost use Rattle.std.specs.Prelude.{◌≡◌, ◌+◌, ◌<◌, ◌≤◌, [], ◌∷◌, ◌++◌, length, vec_len, vec_capacity};
ghost use Rattle.rstar_base.specs.Hulls.{hull};
ghost use Rattle.rstar.specs.declared.node.RTreeNode.{Parent};
ghost use Rattle.rstar.specs.Nodes.{node_box, all_elements};
ghost use Rattle.rstar.specs.inside.ParentBounds.{HasAtMost, CanTakeIn, AddsChild, GoesIn, as_node, has_room, roomy_of, second_roomy};
ghost use Rattle.rstar.specs.inside.Reserves.{IsReady, Spends, BecomesRoot};

use crate::algorithm::rstar::preparation::Reserve;
use crate::algorithm::rstar::split::{move_all, move_over};
use crate::bounds::{Covered, Merges, Placed};
use crate::node::{ParentNode, RTreeNode, envelope_for_children};
use rstar_base::RTreeParams;
use std::mem;

/// Makes room for one more item: the items of a full list move into the last spare list.
fn take_place<A: Drop>(list: &mut Vec<A>, reserve: &mut Reserve<A>)
    requires narrow { vec_len list.old < reserve.old.widest }
    requires ready { IsReady 0 1 reserve.old }
    ensures same { list.new.items ≡ list.old.items }
    ensures length { vec_len list.new ≡ vec_len list.old }
    ensures place { vec_len list.new < vec_capacity list.new }
    ensures spends { Spends (λ n. has_room n list.old) (λ n. has_room n list.new) reserve.old reserve.new }
    ensures used { vec_len reserve.old.spares ≤ vec_len reserve.new.spares + 1 }
{
    if list.len() == list.capacity() {
        let mut spare = reserve.spares.take_last();
        move_over(list, &mut spare);
    }
}

/// Adds a child that the node's envelope already covers. An overfull node is split, and the second part
/// returned.
fn add_child<T: Placed, Params: RTreeParams>(
    node: &mut ParentNode<T>,
    child: RTreeNode<T>,
    reserve: &mut Reserve<RTreeNode<T>>,
) -> Option<ParentNode<T>>
    requires covered { node.old.envelope
        ≡ hull T.Cover.boxes (node_box T.object.box_of) (node.old.children.items ++ child ∷ []) }
    requires narrow { HasAtMost reserve.old.widest node.old }
    requires ready { IsReady Params.MAX_SIZE 1 reserve.old }
    ensures adds { AddsChild T.Cover.boxes T.object reserve.old.widest Params.MIN_SIZE Params.MAX_SIZE
        node.old child node.new result }
    ensures spends { Spends (λ n. has_room n node.old.children)
        (λ n. has_room n node.new.children + length (as_node result)) reserve.old reserve.new }
    ensures used { vec_len reserve.old.spares ≤ vec_len reserve.new.spares + 1 }
{
    if node.children.len() < Params::MAX_SIZE {
        take_place(&mut node.children, reserve);
        node.children.push_reserved(child);
        return None;
    }
    let mut children = reserve.spares.take_last();
    move_all(&mut node.children, &mut reserve.overfull);
    reserve.overfull.push_reserved(child);
    T::split_in_place::<Params>(&mut reserve.overfull, &mut children);
    move_all(&mut reserve.overfull, &mut node.children);
    node.envelope = envelope_for_children(&node.children);
    let envelope = envelope_for_children(&children);
    Some(ParentNode { children, envelope })
}

/// Inserts an element below a node with `levels` levels of parents below it, and returns the second part of
/// a split node.
fn insert_below<T: Placed, Params: RTreeParams>(
    node: &mut ParentNode<T>,
    t: T,
    levels: usize,
    reserve: &mut Reserve<RTreeNode<T>>,
) -> Option<ParentNode<T>>
    requires place { CanTakeIn T.Cover.boxes T.object reserve.old.widest levels node.old t }
    requires ready { IsReady Params.MAX_SIZE (levels + 1) reserve.old }
    ensures tree { GoesIn T.Cover.boxes T.object reserve.old.widest Params.MIN_SIZE Params.MAX_SIZE
        levels t node.old node.new result [] }
    ensures spends { Spends (λ n. roomy_of n levels node.old)
        (λ n. roomy_of n levels node.new + second_roomy n levels result) reserve.old reserve.new }
    ensures used { vec_len reserve.old.spares ≤ vec_len reserve.new.spares + levels + 1 }
{
    let envelope = t.envelope();
    node.envelope.merge(&envelope);
    if levels == 0 {
        return add_child::<T, Params>(node, RTreeNode::Leaf(t), reserve);
    }
    let index = T::choose_subtree(&node.children, &envelope, levels == 1);
    let RTreeNode::Parent(child) = &mut node.children[index] else {
        unreachable!()
    };
    match insert_below::<T, Params>(child, t, levels - 1, reserve) {
        None => None,
        Some(second) => add_child::<T, Params>(node, RTreeNode::Parent(second), reserve),
    }
}

/// Inserts an element below the root, which has `levels` levels of parents below it, and returns the new
/// number of levels.
pub(crate) fn insert_at_root<T: Placed, Params: RTreeParams>(
    root: &mut ParentNode<T>,
    t: T,
    levels: usize,
    reserve: &mut Reserve<RTreeNode<T>>,
) -> usize
    requires place { CanTakeIn T.Cover.boxes T.object reserve.old.widest levels root.old t }
    requires ready { IsReady Params.MAX_SIZE (levels + 2) reserve.old }
    ensures root { BecomesRoot T.Cover.boxes T.object Params.MIN_SIZE Params.MAX_SIZE levels root.old reserve.old
        (t ∷ all_elements root.old.children.items) result root.new reserve.new }
    ensures grown { result ≤ levels + 1 }
    ensures used { vec_len reserve.old.spares ≤ vec_len reserve.new.spares + result + 1 }
{
    let Some(second) = insert_below::<T, Params>(root, t, levels, reserve) else {
        return levels;
    };
    let children = reserve.spares.take_last();
    let envelope = root.envelope.merged(&second.envelope);
    let old = mem::replace(root, ParentNode { children, envelope });
    root.children.push_reserved(RTreeNode::Parent(old));
    root.children.push_reserved(RTreeNode::Parent(second));
    levels + 1
}
