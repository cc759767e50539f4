//! The nodes of a tree.

ghost use Rattle.std.specs.List.{AllByRecursion};
ghost use Rattle.std.specs.Prelude.{◌≡◌};
ghost use Rattle.rstar_base.specs.Hulls.{hull};
ghost use Rattle.rstar.specs.Nodes.{node_box, is_leaf_node, children_of, envelope_of};

use crate::bounds::{Covered, Merges};
use rstar_base::{Distance, Envelope, RTreeObject};

/// A node of a tree: a leaf with one element, or a parent.
#[cycle(node)]
#[derive(Debug, Drop)]
pub enum RTreeNode<T: Covered> {
    /// One element.
    Leaf(T),
    /// A parent.
    Parent(ParentNode<T>),
}

impl<T: Covered> RTreeNode<T> {
    /// Whether the node is a leaf.
    #[tactic(auto, unfolding(crate::specs::Nodes::is_leaf_node, crate::specs::Nodes::fold_tree))]
    pub fn is_leaf(&self) -> bool
        ensures { result ≡ is_leaf_node self.now }
    {
        matches!(self, RTreeNode::Leaf(_))
    }

    /// The envelope of the element, or the one that the parent keeps.
    #[tactic(auto, unfolding(crate::specs::Nodes::node_box, crate::specs::Nodes::fold_tree))]
    pub(crate) fn cover(&self) -> T::Cover
        ensures value { result ≡ node_box T.object.box_of self.now }
        ensures own { T.Cover.boxes.IsValue (node_box T.object.box_of self.now) }
    {
        match self {
            RTreeNode::Leaf(t) => t.envelope(),
            RTreeNode::Parent(parent) => parent.envelope.copied(),
        }
    }
}

/// A parent: nodes, with the merge of the envelopes of all elements below. The root of a tree is one. Only
/// the tree makes and changes parents.
#[cycle(node)]
#[derive(Debug, Drop)]
pub struct ParentNode<T: Covered> {
    pub(crate) children: Vec<RTreeNode<T>>,
    pub(crate) envelope: T::Cover,
}

impl<T: Covered> ParentNode<T> {
    /// The children, left to right.
    pub fn children(&self) -> &[RTreeNode<T>]
        ensures { result.now ≡ children_of self.now }
    {
        self.children.as_slice()
    }

    /// The merge of the envelopes of all elements below.
    pub fn envelope(&self) -> &T::Cover
        ensures { result.now ≡ envelope_of self.now }
    {
        &self.envelope
    }
}

impl<T: RTreeObject> RTreeObject for RTreeNode<T> {
    type Envelope = T::Envelope;

    ghost use Rattle.rstar.specs.Nodes.{node_box};

    ghost object = { record {
      IsValue = λ n. T.Envelope.boxes.IsValue
          (node_box T.object.box_of n);
      box_of = node_box T.object.box_of;
    } };

    fn envelope(&self) -> T::Envelope {
        self.cover()
    }

    #[tactic(auto, unfolding(crate::specs::Nodes::node_box, crate::specs::Nodes::fold_tree))]
    fn axis_key(&self, axis: usize) -> Distance<T> {
        match self {
            RTreeNode::Leaf(t) => t.axis_key(axis),
            RTreeNode::Parent(parent) => parent.envelope.axis_key(axis),
        }
    }

    ghost object_law = { λ n h. h };
}

/// The merge of the envelopes of some nodes. Of none it is the empty envelope. It takes no memory.
pub fn envelope_for_children<T: Covered>(children: &[RTreeNode<T>]) -> T::Cover
    ensures hull { result ≡ hull T.Cover.boxes (node_box T.object.box_of) children.now }
    ensures own { AllByRecursion (λ n. T.Cover.boxes.IsValue (node_box T.object.box_of n)) children.now }
{
    let mut all = T::Cover::new_empty();
    for node in children {
        all.merge(&node.cover());
    }
    all
}
