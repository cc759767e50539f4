//! Clones of a tree.

ghost use Rattle.std.specs.Prelude.{ℕ, IfOk};
ghost use Rattle.std.specs.List.{AllByRecursion, AllZip};
ghost use Rattle.rstar.specs.Clones.{ClonesEqual, IsParentClone};
ghost use Rattle.rstar.specs.Nodes.{children_of};
ghost use Rattle.rstar.specs.Loaded.{IsLoaded};
ghost use Rattle.rstar.specs.Shapes.{IsSized};
ghost use Rattle.rstar.specs.Trees.{root_of, elements_in, HasSameOutline, IsUnchanged, IsWholeTree};
ghost use Rattle.rstar.specs.inside.Traversals.{IsLevel};

use crate::algorithm::rstar::preparation::Reserve;
use crate::node::{ParentNode, RTreeNode};
use crate::rtree::RTree;
use rstar_base::envelope::copied_envelope;
use rstar_base::{Envelope, Point, RTreeObject, RTreeParams};
use std::alloc::AllocError;
use std::marker::PhantomData;

impl<T: RTreeObject + Clone, Params: RTreeParams> RTree<T, Params> {
    /// A tree of clones of the elements, with the same nodes. Where each clone equals its element, the tree
    /// shows the same and is whole.
    ///
    /// It is refused where the allocator refuses a list, or a clone of an element.
    #[tactic(auto, unfolding(crate::specs::Trees::IsWholeTree))]
    pub fn clone(&self) -> Result<Self, AllocError>
        requires { IsWholeTree T.Envelope.boxes T.object Params.MAX_SIZE self.now }
        ensures clones { IfOk result (λ tree. AllZip T.is_clone (elements_in self.now) (elements_in tree)) }
        ensures outline { IfOk result (HasSameOutline self.now) }
        ensures same { ClonesEqual T.is_clone → IfOk result (IsUnchanged self.now) }
        ensures whole { ClonesEqual T.is_clone → IfOk result (IsWholeTree T.Envelope.boxes T.object Params.MAX_SIZE) }
        ensures sized { ClonesEqual T.is_clone → IsSized Params.MIN_SIZE Params.MAX_SIZE (root_of self.now)
            → IfOk result (λ tree. IsSized Params.MIN_SIZE Params.MAX_SIZE (root_of tree)) }
        ensures loaded { ClonesEqual T.is_clone
            → IsLoaded T.Envelope.boxes T.object Params.MAX_SIZE T.Envelope.Point.DIMENSIONS (root_of self.now)
            → IfOk result (λ tree. IsLoaded T.Envelope.boxes T.object Params.MAX_SIZE T.Envelope.Point.DIMENSIONS
            (root_of tree)) }
    {
        let root = cloned_parent(&self.root)?;
        Ok(RTree {
            root,
            size: self.size,
            levels: self.levels,
            reserve: Reserve::new(*self.root.children.allocator(), self.reserve.widest),
            params: PhantomData,
        })
    }
}

/// The clone of a parent whose leaves all lie on one level.
fn cloned_parent<T: RTreeObject + Clone>(
    parent: &ParentNode<T>,
) -> Result<ParentNode<T>, AllocError>
    ensures { (h : ℕ) → AllByRecursion (IsLevel h) (children_of parent.now)
        → IfOk result (IsParentClone T.is_clone h parent.now) }
{
    let mut children = Vec::with_capacity(*parent.children.allocator(), parent.children.len())?;
    for node in parent.children.as_slice() {
        let copy = match node {
            RTreeNode::Leaf(t) => RTreeNode::Leaf(t.clone()?),
            RTreeNode::Parent(below) => RTreeNode::Parent(cloned_parent(below)?),
        };
        children.push(copy)?;
    }
    Ok(ParentNode {
        children,
        envelope: copied_envelope(&parent.envelope),
    })
}
