//! Forced reinsertion (Beckmann et al. 1990): an overfull lowest parent hands out some children, which are
//! inserted again from the root. Nothing here takes memory, and nothing can fail.

ghost use Rattle.std.specs.Prelude.{◌≡◌, ◌+◌, ◌*◌, ◌<◌, ◌≤◌, [], ◌∷◌, ◌++◌, vec_len, vec_capacity, None};
ghost use Rattle.std.specs.List.Sorted.{IsPermutation};
ghost use Rattle.rstar_base.specs.Hulls.{hull};
ghost use Rattle.rstar.specs.declared.node.RTreeNode.{Leaf};
ghost use Rattle.rstar.specs.Heights.{spare_lists};
ghost use Rattle.rstar.specs.Nodes.{node_box, all_elements};
ghost use Rattle.rstar.specs.inside.ParentBounds.{HasAtMost, IsSpare, HasMergedBox, AreKept, IsKeptTree, GoesIn, CanTakeIn, CanHandOut, has_room, roomy_of};
ghost use Rattle.rstar.specs.inside.Reserves.{IsReady, BecomesRoot};

use crate::algorithm::rstar::insertion::insert_at_root;
use crate::algorithm::rstar::preparation::Reserve;
use crate::algorithm::rstar::split::{cut_at, make_place, move_all};
use crate::bounds::{Covered, Merges, Placed};
use crate::node::{ParentNode, RTreeNode, envelope_for_children};
use rstar_base::{Envelope, PointDistance, PointOf, RTreeObject, RTreeParams};
use std::cmp::Ordering;

/// Sorts elements by the distance from their centers to a point. It takes no memory.
pub(crate) fn sort_by_distance<T: RTreeObject>(list: &mut [T], point: &PointOf<T>)
    ensures { IsPermutation list.old list.new }
{
    list.sort_unstable_by(|a: &T, b: &T| -> Ordering {
        let distance_2 = a.envelope().center().distance_2(point);
        distance_2.cmp(&b.envelope().center().distance_2(point))
    });
}

/// Adds a leaf that the node's envelope already covers. An overfull node hands out the `REINSERTION_COUNT`
/// children whose centers are farthest from its own, the farthest last.
fn add_leaf<T: Placed, Params: RTreeParams>(
    node: &mut ParentNode<T>,
    t: T,
    widest: usize,
    handed: &mut Vec<RTreeNode<T>>,
    overfull: &mut Vec<RTreeNode<T>>,
)
    requires covered { node.old.envelope
        ≡ hull T.Cover.boxes (node_box T.object.box_of) (node.old.children.items ++ Leaf t ∷ []) }
    requires narrow { HasAtMost widest node.old }
    requires lists { CanHandOut Params.MAX_SIZE Params.REINSERTION_COUNT widest handed.old overfull.old }
    ensures same { IsPermutation (node.old.children.items ++ Leaf t ∷ [])
        (node.new.children.items ++ handed.new.items) }
    ensures fit { HasMergedBox T.Cover.boxes T.object widest node.new }
    ensures count { vec_len handed.new ≤ Params.REINSERTION_COUNT }
    ensures least { Params.MIN_SIZE ≤ vec_len node.old.children → Params.MIN_SIZE ≤ vec_len node.new.children }
    ensures most { vec_len node.old.children ≤ Params.MAX_SIZE → vec_len node.new.children ≤ Params.MAX_SIZE }
    ensures room { has_room widest node.old.children + 1
        ≤ has_room widest node.new.children + has_room widest handed.new }
    ensures overfull { IsSpare (widest + 1) overfull.new }
{
    let leaf = RTreeNode::Leaf(t);
    if node.children.len() < Params::MAX_SIZE {
        make_place(&mut node.children, handed);
        node.children.push_reserved(leaf);
        return;
    }
    move_all(&mut node.children, overfull);
    overfull.push_reserved(leaf);
    T::sort_by_distance(overfull, &node.envelope);
    let kept = overfull.len() - Params::REINSERTION_COUNT;
    cut_at(overfull, kept, handed);
    move_all(overfull, &mut node.children);
    node.envelope = envelope_for_children(&node.children);
}

/// Inserts an element below a node with `levels` levels of parents below it. An overfull lowest parent hands
/// out children, and no node is split.
fn insert_first<T: Placed, Params: RTreeParams>(
    node: &mut ParentNode<T>,
    t: T,
    levels: usize,
    widest: usize,
    handed: &mut Vec<RTreeNode<T>>,
    overfull: &mut Vec<RTreeNode<T>>,
)
    requires place { CanTakeIn T.Cover.boxes T.object widest levels node.old t }
    requires lists { CanHandOut Params.MAX_SIZE Params.REINSERTION_COUNT widest handed.old overfull.old }
    ensures tree { GoesIn T.Cover.boxes T.object widest Params.MIN_SIZE Params.MAX_SIZE levels t node.old
        node.new None (all_elements handed.new.items) }
    ensures leaves { AreKept T.Cover.boxes T.object widest 0 handed.new.items }
    ensures count { vec_len handed.new ≤ Params.REINSERTION_COUNT }
    ensures overfull { IsSpare (widest + 1) overfull.new }

    // No list with room for all that a parent may have is lost. No parent is new, and none goes.
    ensures room { roomy_of widest levels node.old + 1
        ≤ roomy_of widest levels node.new + has_room widest handed.new }
    ensures parents { roomy_of 0 levels node.new ≡ roomy_of 0 levels node.old }
{
    let envelope = t.envelope();
    node.envelope.merge(&envelope);
    if levels == 0 {
        add_leaf::<T, Params>(node, t, widest, handed, overfull);
        return;
    }
    let index = T::choose_subtree(&node.children, &envelope, levels == 1);
    let RTreeNode::Parent(child) = &mut node.children[index] else {
        unreachable!()
    };
    insert_first::<T, Params>(child, t, levels - 1, widest, handed, overfull);
    if !handed.is_empty() {
        node.envelope = envelope_for_children(&node.children);
    }
}

/// Inserts each leaf of a list from the root, the last leaf first, and returns the new number of levels. The
/// list is empty then.
fn insert_again<T: Placed, Params: RTreeParams>(
    root: &mut ParentNode<T>,
    handed: &mut Vec<RTreeNode<T>>,
    levels: usize,
    reserve: &mut Reserve<RTreeNode<T>>,
) -> usize
    requires root { IsKeptTree T.Cover.boxes T.object reserve.old.widest levels root.old }
    requires leaves { AreKept T.Cover.boxes T.object reserve.old.widest 0 handed.old.items }
    requires ready { IsReady Params.MAX_SIZE (vec_len handed.old * (levels + vec_len handed.old + 1)) reserve.old }
    ensures root { BecomesRoot T.Cover.boxes T.object Params.MIN_SIZE Params.MAX_SIZE levels root.old reserve.old
        (all_elements root.old.children.items ++ all_elements handed.old.items) result root.new reserve.new }
    ensures none { handed.new.items ≡ [] }
    ensures capacity { vec_capacity handed.new ≡ vec_capacity handed.old }
{
    let mut current = levels;
    while let Some(leaf) = handed.pop() {
        let RTreeNode::Leaf(t) = leaf else {
            unreachable!()
        };
        current = insert_at_root::<T, Params>(root, t, current, reserve);
    }
    current
}

/// Inserts an element from the root, and returns the new number of levels. With `REINSERTION_COUNT` above 0
/// the first overfull parent hands out children, which are reinserted; every other overfull node is split.
pub(crate) fn insert_with_reinsertion<T: Placed, Params: RTreeParams>(
    root: &mut ParentNode<T>,
    t: T,
    levels: usize,
    reserve: &mut Reserve<RTreeNode<T>>,
) -> usize
    requires place { CanTakeIn T.Cover.boxes T.object reserve.old.widest levels root.old t }
    requires ready { IsReady Params.MAX_SIZE (spare_lists Params.REINSERTION_COUNT (1 + levels)) reserve.old }
    ensures { BecomesRoot T.Cover.boxes T.object Params.MIN_SIZE Params.MAX_SIZE levels root.old reserve.old
        (t ∷ all_elements root.old.children.items) result root.new reserve.new }
{
    if Params::REINSERTION_COUNT == 0 {
        return insert_at_root::<T, Params>(root, t, levels, reserve);
    }
    let mut handed = reserve.spares.take_last();
    insert_first::<T, Params>(
        root,
        t,
        levels,
        reserve.widest,
        &mut handed,
        &mut reserve.overfull,
    );
    let grown = insert_again::<T, Params>(root, &mut handed, levels, reserve);
    // The list that is empty again goes back to its place, which is still there. It is none of those where the children
    // of a parent went over into that one, and left theirs.
    if reserve.widest <= handed.capacity() {
        reserve.spares.push_reserved(handed);
    }
    grown
}
