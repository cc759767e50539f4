//! The traversal of a selection.

ghost use Rattle.std.specs.Prelude.{◌≡◌, ◌≤◌, [], ◌∷◌, IsOk, IfOk};
ghost use Rattle.std.specs.Iterator.{item_count};
ghost use Rattle.rstar.specs.Heights.{levels_below};
ghost use Rattle.rstar.specs.Nodes.{children_of, given_of, IsWhole};
ghost use Rattle.rstar.specs.Selections.{question_of, opened_by, to_come, IsMade, IsWalking, GivesNext};
ghost use Rattle.rstar.specs.inside.Traversals.{HasItsWay, IsStep};
ghost use Rattle.rstar.specs.declared.node.RTreeNode.{Parent};

use crate::bounds::{Covered, Question};
use crate::node::{ParentNode, RTreeNode};
use crate::path::Path;
use crate::visits::enters;
use std::alloc::AllocError;

/// The selected elements of a tree, in some order.
///
/// With a lawful selection function these are all selected elements. The traversal visits a parent where the
/// function accepts its envelope and those above it. `next` takes no memory: the path was reserved before.
#[derive(Drop)]
pub struct SelectionIterator<'a, T: Covered, Func: Question<T>> {
    root: &'a ParentNode<T>,
    func: Func,
    // The nodes that are being read, and below them in the path those that were left for them.
    nodes: &'a [RTreeNode<T>],
    path: Path<&'a [RTreeNode<T>]>,
    opened: usize,
}

impl<'a, T: Covered, Func: Question<T>> SelectionIterator<'a, T, Func> {
    /// A selection below a root with this many levels of parents below it.
    #[tactic(auto, unfolding(crate::specs::Selections::to_come, crate::specs::Selections::IsWalking))]
    pub(crate) fn new(
        root: &'a ParentNode<T>,
        levels: usize,
        func: Func,
    ) -> Result<Self, AllocError>
        requires whole { IsWhole T.Cover.boxes T.object root.now }
        requires levels { levels ≡ levels_below (children_of root.now) }
        ensures gives { IfOk result (λ it. to_come Func.accepts Func.selects it
            ≡ given_of (Func.accepts func) (Func.selects func) root.now) }
        ensures question { IfOk result (λ it. question_of it ≡ func) }
        ensures made { IfOk result (λ it. IsMade Func.accepts root.now (Func.accepts func) it) }
        ensures walking { IfOk result (λ it. IsWalking Func.accepts it) }
        ensures near { levels ≤ 12 → IsOk result }
    {
        let none = &root.children[..0];
        let path = Path::with_room(*root.children.allocator(), none, levels)?;
        if !enters(root, &func) {
            return Ok(SelectionIterator {
                root,
                func,
                nodes: none,
                path,
                opened: 0,
            });
        }
        Ok(SelectionIterator {
            root,
            func,
            nodes: root.children.as_slice(),
            path,
            opened: 1,
        })
    }

    /// The number of parents visited so far. The root counts; the number is clamped to the greatest `usize`.
    ///
    /// At the end it counts all parents that are accepted with those above them. An empty root is never visited.
    pub fn opened(&self) -> usize
        ensures { result ≡ opened_by self.now }
    {
        self.opened
    }

    /// Enters an accepted parent, and leaves the nodes behind it for later.
    fn enter(&mut self, parent: &'a ParentNode<T>, rest: &'a [RTreeNode<T>])
        requires way { HasItsWay Func.accepts self.old }
        requires first { self.old.nodes.now ≡ Parent parent.now ∷ rest.now }
        ensures { IsStep Func.accepts Func.selects self.old [] self.new }
    {
        if !self.func.should_unpack_parent(&parent.envelope) {
            self.nodes = rest;
            return;
        }
        self.opened = self.opened.saturating_add(1);
        if !rest.is_empty() {
            self.path.push_reserved(rest);
        }
        self.nodes = parent.children.as_slice();
    }
}

impl<'a, T: Covered, Func: Question<T>> Iterator for SelectionIterator<'a, T, Func> {
    type Item = &'a T;

    ghost can_next = { IsWalking Func.accepts };

    ghost next_gives = { GivesNext Func.accepts Func.selects };

    ghost remaining = { item_count (to_come Func.accepts Func.selects) };

    #[tactic(auto, unfolding(crate::specs::Selections::to_come, crate::specs::Selections::IsWalking))]
    fn next(&mut self) -> Option<&'a T> {
        loop {
            match self.nodes.split_first() {
                Some((RTreeNode::Leaf(t), rest)) => {
                    self.nodes = rest;
                    if self.func.should_unpack_leaf(t) {
                        return Some(t);
                    }
                }
                Some((RTreeNode::Parent(parent), rest)) => self.enter(parent, rest),
                None => self.nodes = self.path.pop()?,
            }
        }
    }
}
