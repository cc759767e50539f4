//! Iterators that consume a tree.

ghost use Rattle.std.specs.Iterator.{YieldsFirst, item_count};
ghost use Rattle.rstar.specs.IntoIters.{left_to_give, IsGiving};

use crate::bounds::Covered;
use crate::node::{ParentNode, RTreeNode};
use std::mem::replace;

/// All elements of a consumed tree, in some order. `next` takes no memory. Dropping the iterator drops the
/// elements that are left.
#[derive(Drop)]
pub struct IntoIter<T: Covered> {
    // The nodes that are being given, from the last on, and in the path those that were left for them, the lowest last.
    pub(crate) nodes: Vec<RTreeNode<T>>,
    pub(crate) path: Vec<Vec<RTreeNode<T>>>,
}

impl<T: Covered> Iterator for IntoIter<T> {
    type Item = T;

    ghost can_next = { IsGiving };

    ghost next_gives = { λ s r t. YieldsFirst left_to_give s r t × IsGiving t };

    ghost remaining = { item_count left_to_give };

    #[tactic(auto, unfolding(crate::specs::IntoIters::left_to_give, crate::specs::IntoIters::IsGiving))]
    fn next(&mut self) -> Option<T> {
        loop {
            match self.nodes.pop() {
                Some(RTreeNode::Leaf(t)) => return Some(t),
                Some(RTreeNode::Parent(parent)) => {
                    let ParentNode { children, .. } = parent;
                    self.path.push_reserved(replace(&mut self.nodes, children));
                }
                None => self.nodes = self.path.pop()?,
            }
        }
    }
}
