//! Recursive traversals, which take no memory: look-ups and visits.

ghost use Rattle.std.specs.Prelude.{◌≡◌, ◌≢◌, ◌⊎◌, ℕ, true, false, [], filter};
ghost use Rattle.std.specs.List.{AllZip};
ghost use Rattle.rstar_base.specs.Selections.{IsLawful};
ghost use Rattle.rstar.specs.Changes.{KeepsBox, IsChanged, IsChangedParent};
ghost use Rattle.rstar.specs.Nodes.{all_given, children_of, envelope_of, elements, all_elements, elements_of, IsTree, IsWhole};
ghost use Rattle.rstar.specs.Shapes.{AreTrees, IsAny};
ghost use Rattle.rstar.specs.Visits.{IsFirst, Visits, VisitsWithin, Writes, WritesWithin, KeepsBoxes, marked, all_marked};

use crate::bounds::{Covered, Question};
use crate::node::{ParentNode, RTreeNode};
use rstar_base::{Envelope, RTreeObject, SelectionFunction};
use std::ops::ControlFlow;

/// What a traversal does at the first of several nodes.
pub enum Look<L, N> {
    /// No node is left.
    End,
    /// It yields an element.
    Give(L, N),
    /// It passes the node.
    Pass(N),
    /// It visits a parent.
    Open(N, N),
}

/// A borrow of several nodes. Its lifetime stands in no bound, so that a recursion may take it.
pub trait NodesRef<T: Covered, F: Question<T>>: Copy + Drop {
    /// A borrow of an element.
    type Leaf;

    ghost use Rattle.std.specs.Prelude.{List};
    ghost use Rattle.rstar.specs.declared.node.RTreeNode.{RTreeNode};
    ghost use Rattle.rstar.specs.Visits.{IsLook};

    ghost nodes: { Self → List (RTreeNode T T.Cover) };

    ghost element: { Self.Leaf → T };

    /// Looks at the first node.
    fn look(self, func: &F) -> Look<Self::Leaf, Self>
        ensures { IsLook (F.accepts func.now) (F.selects func.now) nodes element self result };
}

impl<'a, T: Covered, F: Question<T>> NodesRef<T, F> for &'a [RTreeNode<T>] {
    type Leaf = &'a T;

    ghost nodes = { λ s. s.now };

    ghost element = { λ t. t.now };

    fn look(self, func: &F) -> Look<&'a T, &'a [RTreeNode<T>]> {
        let Some((first, rest)) = self.split_first() else {
            return Look::End;
        };
        match first {
            RTreeNode::Leaf(t) => {
                if func.should_unpack_leaf(t) {
                    Look::Give(t, rest)
                } else {
                    Look::Pass(rest)
                }
            }
            RTreeNode::Parent(p) => {
                if func.should_unpack_parent(&p.envelope) {
                    Look::Open(p.children.as_slice(), rest)
                } else {
                    Look::Pass(rest)
                }
            }
        }
    }
}

/// The first selected element below several nodes.
pub(crate) fn first_below<'a, T: Covered, F: Question<T>>(
    nodes: &'a [RTreeNode<T>],
    func: &F,
) -> Option<&'a T>
    ensures { IsFirst (all_given (F.accepts func.now) (F.selects func.now) nodes.now) result }
{
    let mut left = nodes;
    loop {
        match left.look(func) {
            Look::End => return None,
            Look::Give(leaf, _rest) => return Some(leaf),
            Look::Pass(rest) => left = rest,
            Look::Open(below, rest) => {
                if let Some(found) = first_below(below, func) {
                    return Some(found);
                }
                left = rest;
            }
        }
    }
}

/// Whether a traversal enters a root: it has children, and its envelope is accepted.
pub(crate) fn enters<T: Covered, F: Question<T>>(root: &ParentNode<T>, func: &F) -> bool
    ensures entered { result ≡ true → (children_of root.now ≢ []) × (F.accepts func.now (envelope_of root.now) ≡ true) }
    ensures refused { result ≡ false → (children_of root.now ≡ []) ⊎ (F.accepts func.now (envelope_of root.now) ≡ false) }
{
    !root.children.is_empty() && func.should_unpack_parent(&root.envelope)
}

/// Calls the visitor at each selected element below several nodes, until a call breaks.
fn visit_nodes<
    T: Covered,
    F: Question<T>,
    N: NodesRef<T, F>,
    V: FnMut(N::Leaf) -> ControlFlow<B>,
    B: Drop,
>(nodes: N, func: &F, visitor: &mut V) -> ControlFlow<B>
    requires { (state : V) (x : _) → V.pre state x }
    ensures { Visits N.element V.step visitor.old (all_given (F.accepts func.now) (F.selects func.now) (N.nodes nodes))
        result visitor.new }
{
    let mut left = nodes;
    loop {
        match left.look(func) {
            Look::End => return ControlFlow::Continue(()),
            Look::Give(leaf, rest) => {
                if let ControlFlow::Break(b) = visitor(leaf) {
                    return ControlFlow::Break(b);
                }
                left = rest;
            }
            Look::Pass(rest) => left = rest,
            Look::Open(below, rest) => {
                if let ControlFlow::Break(b) = visit_nodes(below, func, visitor) {
                    return ControlFlow::Break(b);
                }
                left = rest;
            }
        }
    }
}

/// Calls the visitor at each selected element below a root, until it breaks. It returns the break and takes
/// no memory. With a function that is not lawful, or a root that is not whole, it may miss some.
pub fn select_nodes<
    'a,
    T: RTreeObject,
    F: SelectionFunction<T>,
    V: FnMut(&'a T) -> ControlFlow<B>,
    B: Drop,
>(root: &'a ParentNode<T>, func: &F, visitor: &mut V) -> ControlFlow<B>
    requires { (state : V) (x : _) → V.pre state x }
    ensures { VisitsWithin (λ t. t.now) V.step (IsWhole T.Envelope.boxes T.object root.now
        × IsLawful T.Envelope.boxes T.object (F.accepts func.now) (F.selects func.now))
        visitor.old (filter (F.selects func.now) (elements_of root.now)) result visitor.new }
{
    if !enters(root, func) {
        return ControlFlow::Continue(());
    }
    visit_nodes(root.children.as_slice(), func, visitor)
}

/// Calls the visitor at each selected element below a node, and lets it write the element.
#[cycle(writing)]
fn visit_node_mut<T: Covered, F: Question<T>, V: FnMut(&mut T) -> ControlFlow<B>, B: Drop>(
    node: &mut RTreeNode<T>,
    func: &F,
    visitor: &mut V,
) -> ControlFlow<B>
    requires { (state : V) (x : _) → V.pre state x }
    ensures written { Writes V.step visitor.old (marked (F.accepts func.now) (F.selects func.now) node.old)
        result visitor.new (elements node.new) }
    ensures changed { KeepsBoxes T.object V.step → (h : ℕ) → IsTree IsAny IsAny h node.old
        → IsChanged (KeepsBox T.object) h node.old node.new }
{
    match node {
        RTreeNode::Leaf(t) => {
            if func.should_unpack_leaf(t) {
                visitor(t)
            } else {
                ControlFlow::Continue(())
            }
        }
        RTreeNode::Parent(parent) => {
            if func.should_unpack_parent(&parent.envelope) {
                visit_nodes_mut(parent.children.as_mut_slice(), func, visitor)
            } else {
                ControlFlow::Continue(())
            }
        }
    }
}

/// The same below several nodes, until a call breaks.
#[cycle(writing)]
fn visit_nodes_mut<T: Covered, F: Question<T>, V: FnMut(&mut T) -> ControlFlow<B>, B: Drop>(
    nodes: &mut [RTreeNode<T>],
    func: &F,
    visitor: &mut V,
) -> ControlFlow<B>
    requires { (state : V) (x : _) → V.pre state x }
    ensures written { Writes V.step visitor.old (all_marked (F.accepts func.now) (F.selects func.now) nodes.old)
        result visitor.new (all_elements nodes.new) }
    ensures changed { KeepsBoxes T.object V.step → (h : ℕ) → AreTrees IsAny IsAny h nodes.old
        → AllZip (IsChanged (KeepsBox T.object) h) nodes.old nodes.new }
{
    let mut index = 0;
    while index < nodes.len() {
        if let ControlFlow::Break(b) = visit_node_mut(&mut nodes[index], func, visitor) {
            return ControlFlow::Break(b);
        }
        index += 1;
    }
    ControlFlow::Continue(())
}

/// Calls the visitor at each selected element below a root, until it breaks, and lets it write. The visitor
/// must keep the envelope of the element; a whole root then stays whole. The call returns the break and
/// takes no memory. With a function that is not lawful it may miss some.
pub fn select_nodes_mut<
    T: RTreeObject,
    F: SelectionFunction<T>,
    V: FnMut(&mut T) -> ControlFlow<B>,
    B: Drop,
>(root: &mut ParentNode<T>, func: &F, visitor: &mut V) -> ControlFlow<B>
    requires callable { (state : V) (x : _) → V.pre state x }
    requires keeps { KeepsBoxes T.object V.step }
    ensures written { WritesWithin V.step (IsWhole T.Envelope.boxes T.object root.old
        × IsLawful T.Envelope.boxes T.object (F.accepts func.now) (F.selects func.now))
        visitor.old (F.selects func.now) (elements_of root.old) result (elements_of root.new) visitor.new }
    ensures whole { IsWhole T.Envelope.boxes T.object root.old → IsWhole T.Envelope.boxes T.object root.new }

    // Where the leaves lie so many levels below the children.
    ensures changed { (h : ℕ) → AreTrees IsAny IsAny h (children_of root.old)
        → IsChangedParent (IsChanged (KeepsBox T.object) h) root.old root.new }
{
    if !enters(root, func) {
        return ControlFlow::Continue(());
    }
    visit_nodes_mut(root.children.as_mut_slice(), func, visitor)
}
