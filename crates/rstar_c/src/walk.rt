//! The way to the elements that a question selects. It is a recursion, and takes no memory.

ghost use Rattle.std.specs.Prelude.{filter, map};
ghost use Rattle.std.specs.List.{flat_map};
ghost use Rattle.rstar.specs.Trees.{elements_in, IsWholeTree};
ghost use Rattle.rstar_base.specs.Selections.{IsLawful};
ghost use Rattle.rstar_c.specs.Put.{ArePut};

use crate::put::room_in;
use rstar::{RTree, RTreeNode, RTreeObject, RTreeParams, SelectionFunction};
use rstar_base::primitives::GeomWithData;

/// What a question does at a node.
pub enum Seen<'a, N> {
    /// It passes the node.
    Passed,
    /// It selects the element with this number.
    Selected(u64),
    /// It goes on to the children.
    Opened(&'a [N]),
}

/// A node of elements with numbers, as a question sees it.
trait Node<F>: Sized {
    ghost use Rattle.std.specs.Prelude.{ℕ, List};
    ghost use Rattle.rstar_c.specs.Seen.{IsSeen};

    // The numbers of the elements from here on that the question selects.
    ghost numbers: { F → Self → List ℕ };

    // How many steps there are from here on.
    ghost size: { Self → ℕ };

    fn look(&self, question: &F) -> Seen<'_, Self>
        ensures { IsSeen (numbers question.now) size self.now result };
}

impl<R: RTreeObject, F: SelectionFunction<GeomWithData<R, u64>>> Node<F>
    for RTreeNode<GeomWithData<R, u64>> {
    ghost use Rattle.std.specs.Prelude.{map};
    ghost use Rattle.rstar.specs.Nodes.{given};
    ghost use Rattle.rstar.specs.inside.Traversals.{steps};

    ghost numbers = { λ question node. map (λ t. t.1) (given (F.accepts question) (F.selects question) node) };

    ghost size = { λ node. steps node };

    fn look(&self, question: &F) -> Seen<'_, RTreeNode<GeomWithData<R, u64>>> {
        match self {
            RTreeNode::Leaf(t) => {
                if question.should_unpack_leaf(t) {
                    Seen::Selected(t.data)
                } else {
                    Seen::Passed
                }
            }
            RTreeNode::Parent(parent) => {
                if question.should_unpack_parent(parent.envelope()) {
                    Seen::Opened(parent.children())
                } else {
                    Seen::Passed
                }
            }
        }
    }
}

/// Writes the numbers that a question selects below some nodes into a list, from a place on and as far as it reaches. It
/// gives the place behind the last, also where the list ends before.
fn put_below<F, N: Node<F>>(nodes: &[N], question: &F, out: &mut [u64], from: usize) -> usize
    ensures { ArePut (flat_map (N.numbers question.now) nodes.now) from out.old out.new result }
{
    let room = room_in(out);
    let mut next = from;
    for node in nodes {
        match node.look(question) {
            Seen::Passed => {}
            Seen::Selected(number) => {
                if next < room {
                    out[next] = number;
                }
                next = next.saturating_add(1);
            }
            Seen::Opened(children) => next = put_below(children, question, out, next),
        }
    }
    next
}

/// Writes the numbers of the elements of a tree that a lawful question selects into a list, from a place on and as far as it
/// reaches. It gives the place behind the last, also where the list ends before.
pub(crate) fn put_lawful<
    R: RTreeObject,
    F: SelectionFunction<GeomWithData<R, u64>>,
    Params: RTreeParams,
>(tree: &RTree<GeomWithData<R, u64>, Params>, question: &F, out: &mut [u64], from: usize) -> usize
    requires whole { IsWholeTree R.Envelope.boxes ⟦<GeomWithData<R, u64> as RTreeObject>⟧.object Params.MAX_SIZE tree.now }
    requires lawful { IsLawful R.Envelope.boxes ⟦<GeomWithData<R, u64> as RTreeObject>⟧.object
        (F.accepts question.now) (F.selects question.now) }
    ensures { ArePut (map (λ t. t.1) (filter (F.selects question.now) (elements_in tree.now))) from out.old out.new result }
{
    let root = tree.root();
    if !question.should_unpack_parent(root.envelope()) {
        return from;
    }
    put_below(root.children(), question, out, from)
}
