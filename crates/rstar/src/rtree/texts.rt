//! The debug text of a tree.

use crate::node::{ParentNode, RTreeNode};
use crate::rtree::RTree;
use rstar_base::{Envelope, RTreeObject, RTreeParams};
use std::fmt::{self, Debug, DebugSet, Formatter, Write};

/// The elements below a root, as a set.
#[derive(Drop)]
struct Items<'a, T: RTreeObject> {
    root: &'a ParentNode<T>,
}

impl<T: RTreeObject + Debug> Debug for Items<'_, T> {
    fn fmt<W: Write>(&self, f: &mut Formatter<W>) -> fmt::Result {
        let mut set = f.debug_set();
        add_all(&mut set, self.root.children.as_slice());
        set.finish()
    }
}

/// Adds the elements of several nodes.
fn add_all<T: RTreeObject + Debug, W: Write>(set: &mut DebugSet<'_, W>, nodes: &[RTreeNode<T>]) {
    for node in nodes {
        match node {
            RTreeNode::Leaf(t) => {
                set.entry(t);
            }
            RTreeNode::Parent(parent) => add_all(set, parent.children.as_slice()),
        }
    }
}

/// The size and the elements, as `RTree { size: 2, items: {[0, 1], [0, 1]} }`.
impl<T: RTreeObject + Debug, Params: RTreeParams> Debug for RTree<T, Params> {
    fn fmt<W: Write>(&self, f: &mut Formatter<W>) -> fmt::Result {
        f.debug_struct("RTree")
            .field("size", &self.size)
            .field("items", &Items { root: &self.root })
            .finish()
    }
}
