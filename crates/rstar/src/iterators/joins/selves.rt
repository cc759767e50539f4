//! The join of a tree with itself.

ghost use Rattle.std.specs.Prelude.{◌≡◌, ◌≤◌, IsOk, IfOk};
ghost use Rattle.std.specs.Iterator.{item_count};
ghost use Rattle.rstar.specs.Heights.{levels_below};
ghost use Rattle.rstar.specs.Nodes.{children_of, IsWhole};
ghost use Rattle.rstar.specs.inside.PairWalks.{IsIdle};
ghost use Rattle.rstar.specs.Joins.{meets_by};
ghost use Rattle.rstar.specs.SelfJoins.{pairs_within, own_opened, own_to_come, HasItsLists, IsSelfJoining, IsSelfJoinMade, IsEntered, GivesOwnPair};

use crate::bounds::Meets;
use crate::iterators::joins::walk::PairWalk;
use crate::node::{ParentNode, RTreeNode};
use crate::path::Path;
use std::alloc::AllocError;

/// The pairs of elements of one tree whose envelopes intersect, in some order. Each pair of places comes once, and no
/// place is paired with itself.
///
/// The traversal joins each node with those behind it in its list, and goes on with the list of its children. `next`
/// takes no memory: the paths were reserved before.
#[derive(Drop)]
pub struct SelfIntersectionIterator<'a, T: Meets<T>> {
    root: &'a ParentNode<T>,
    // The pairs of a node with those behind it in its list.
    walk: PairWalk<'a, T, T>,
    // The lists whose nodes are still to be paired with one another.
    lists: Path<&'a [RTreeNode<T>]>,
}

impl<'a, T: Meets<T>> SelfIntersectionIterator<'a, T> {
    /// A join of the elements below a root with themselves. This many levels of parents are below the root.
    #[tactic(auto, unfolding(crate::specs::SelfJoins::own_to_come, crate::specs::SelfJoins::IsSelfJoining))]
    pub(crate) fn new(root: &'a ParentNode<T>, levels: usize) -> Result<Self, AllocError>
        requires whole { IsWhole T.Cover.boxes T.object root.now }
        requires levels { levels ≡ levels_below (children_of root.now) }
        ensures gives { IfOk result (λ it. own_to_come (meets_by T.Cover.boxes T.seen) T.object.box_of it
            ≡ pairs_within (meets_by T.Cover.boxes T.seen) T.object.box_of (children_of root.now)) }
        ensures made { IfOk result (λ it. IsSelfJoinMade T.Cover.boxes T.object (meets_by T.Cover.boxes T.seen) root.now it) }
        ensures joining { IfOk result (λ it. IsSelfJoining T.Cover.boxes T.object (meets_by T.Cover.boxes T.seen) it) }
        ensures near { levels ≤ 11 → IsOk result }
    {
        let alloc = *root.children.allocator();
        let none = &root.children[..0];
        let mut lists = Path::with_room(alloc, none, levels.saturating_add(1))?;
        let mut walk = PairWalk::idle(alloc, none, none, levels)?;
        walk.opened = root.children.len().min(1);
        lists.push_reserved(root.children.as_slice());
        Ok(SelfIntersectionIterator { root, walk, lists })
    }

    /// The number of pairs of nodes visited so far. Each parent with itself counts; the number is clamped to the greatest
    /// `usize`.
    ///
    /// At the end it counts each parent once, and all that a join visits of two nodes of one list.
    pub fn opened(&self) -> usize
        ensures { result ≡ own_opened self.now }
    {
        self.walk.opened
    }

    /// Takes the list that was left last, and says whether there was one. Its first node is paired with those behind it;
    /// these, and the node's children, are left as lists.
    fn enter(&mut self) -> bool
        requires lists { HasItsLists T.Cover.boxes T.object (meets_by T.Cover.boxes T.seen) self.old }
        requires idle { IsIdle self.old.walk }
        ensures { IsEntered T.Cover.boxes T.object (meets_by T.Cover.boxes T.seen) self.old result self.new }
    {
        let Some(nodes) = self.lists.pop() else {
            return false;
        };
        let Some((node, behind)) = nodes.split_first() else {
            return true;
        };
        self.walk.begin(&nodes[..1], behind);
        self.lists.push_reserved(behind);
        let RTreeNode::Parent(parent) = node else {
            return true;
        };
        self.walk.opened = self.walk.opened.saturating_add(1);
        self.lists.push_reserved(parent.children.as_slice());
        true
    }
}

impl<'a, T: Meets<T>> Iterator for SelfIntersectionIterator<'a, T> {
    type Item = (&'a T, &'a T);

    ghost can_next = { IsSelfJoining T.Cover.boxes T.object (meets_by T.Cover.boxes T.seen) };

    ghost next_gives = { GivesOwnPair T.Cover.boxes T.object (meets_by T.Cover.boxes T.seen) };

    ghost remaining = { item_count (own_to_come (meets_by T.Cover.boxes T.seen) T.object.box_of) };

    #[tactic(auto, unfolding(crate::specs::SelfJoins::own_to_come, crate::specs::SelfJoins::IsSelfJoining))]
    fn next(&mut self) -> Option<(&'a T, &'a T)> {
        loop {
            if let Some(pair) = self.walk.advance() {
                return Some(pair);
            }
            if !self.enter() {
                return None;
            }
        }
    }
}
