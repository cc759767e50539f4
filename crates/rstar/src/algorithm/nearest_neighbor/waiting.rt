//! The items of the priority queue: a node and its distance, with an order for ties.

ghost use Rattle.std.proofs.Common.{rules};
ghost use Rattle.std.specs.Cmp.{IsTotalOrder, partial_order_from_own_ties};
ghost use Rattle.std.specs.Cmp.Rules.{comparing};
ghost use Rattle.std.specs.Ordering.{as_partial_cmp, eq_by_cmp};
ghost use Rattle.std.specs.Prelude.{◌≡◌};
ghost use Rattle.std.specs.declared.cmp.Ordering.{Ordering};
ghost use Rattle.rstar.specs.inside.Searches.{any_first, parents_first, nearest_on_top, TiesBy};
ghost use Rattle.rstar.specs.laws.TieLaws.{any_ties, parents_ties};

use crate::bounds::Covered;
use crate::node::RTreeNode;
use std::cmp::Ordering;
use std::marker::PhantomData;

/// The order of nodes at equal distance.
pub(crate) trait TieOrder<N> {
    ghost order: { N → N → Ordering };

    /// Compares two nodes; the lesser comes first.
    fn compare(a: &N, b: &N) -> Ordering
        ensures { result ≡ order a.now b.now };

    ghost total: { IsTotalOrder order };
}

/// The order of elements at equal distance, and one of nodes that goes by it.
pub(crate) trait ElementOrder<T: Covered>: TieOrder<T> {
    /// The order of nodes.
    type Nodes: TieOrder<RTreeNode<T>>;

    ghost ties: { TiesBy Self.Nodes.order Self.order };
}

/// No order: any node may come first.
pub(crate) struct AnyFirst;

impl<N> TieOrder<N> for AnyFirst {
    ghost order = { any_first };

    fn compare(_a: &N, _b: &N) -> Ordering {
        Ordering::Equal
    }

    ghost total = { Prim.search (comparing, rules) };
}

impl<T: Covered> ElementOrder<T> for AnyFirst {
    type Nodes = AnyFirst;

    ghost ties = { any_ties };
}

/// No order of parents, in a search whose elements come in the order `E`. Each such search has a queue of its
/// own type, which the compiler writes into it in place.
pub(crate) struct ParentsFor<E> {
    order: PhantomData<E>,
}

impl<N, E> TieOrder<N> for ParentsFor<E> {
    ghost order = { any_first };

    fn compare(_a: &N, _b: &N) -> Ordering {
        Ordering::Equal
    }

    ghost total = { Prim.search (comparing, rules) };
}

/// Elements come in their own order.
pub(crate) struct OwnOrder;

impl<T: Ord> TieOrder<T> for OwnOrder {
    ghost order = { T.cmp };

    fn compare(a: &T, b: &T) -> Ordering {
        a.cmp(b)
    }

    ghost total = { T.total };
}

/// Parents come before elements, and elements in their own order.
pub(crate) struct ParentsFirst;

impl<T: Covered + Ord> TieOrder<RTreeNode<T>> for ParentsFirst {
    ghost order = { parents_first T.cmp };

    #[tactic(auto, unfolding(crate::specs::Nodes::leaf_element, crate::specs::Nodes::fold_tree))]
    fn compare(a: &RTreeNode<T>, b: &RTreeNode<T>) -> Ordering {
        match (a, b) {
            (RTreeNode::Leaf(s), RTreeNode::Leaf(t)) => s.cmp(t),
            (RTreeNode::Leaf(_), RTreeNode::Parent(_)) => Ordering::Greater,
            (RTreeNode::Parent(_), RTreeNode::Leaf(_)) => Ordering::Less,
            (RTreeNode::Parent(_), RTreeNode::Parent(_)) => Ordering::Equal,
        }
    }

    ghost total = { Prim.search (comparing, rules) };
}

impl<T: Covered + Ord> ElementOrder<T> for OwnOrder {
    type Nodes = ParentsFirst;

    ghost ties = { parents_ties T.cmp };
}

/// A node and its distance. The nearer of two is the greater, so that a priority queue pops it first. At
/// equal distance the one that comes first is the greater.
#[derive(Drop)]
pub(crate) struct Waiting<N, S, O> {
    pub(crate) node: N,
    pub(crate) distance: S,
    pub(crate) ties: PhantomData<O>,
}

impl<'a, N, S: Ord, O: TieOrder<N>> PartialEq for Waiting<&'a N, S, O> {
    ghost eq = { eq_by_cmp (nearest_on_top S.cmp O.order) };

    ghost laws = { Prim.search (comparing, rules) };

    fn eq(&self, other: &Self) -> bool {
        self.cmp(other).is_eq()
    }
}

impl<'a, N, S: Ord, O: TieOrder<N>> Eq for Waiting<&'a N, S, O> {
    ghost laws = { Prim.search (comparing, rules) };
}

impl<'a, N, S: Ord, O: TieOrder<N>> Ord for Waiting<&'a N, S, O> {
    ghost cmp = { nearest_on_top S.cmp O.order };

    ghost total = { Prim.search (comparing, rules) };

    ghost matches_partial_cmp = { Prim.search (comparing, rules) };

    ghost matches_eq = { Prim.search (comparing, rules) };

    fn cmp(&self, other: &Self) -> Ordering {
        match other.distance.cmp(&self.distance) {
            Ordering::Equal => O::compare(other.node, self.node),
            unequal => unequal,
        }
    }
}

impl<'a, N, S: Ord, O: TieOrder<N>> PartialOrd for Waiting<&'a N, S, O> {
    ghost partial_cmp = { as_partial_cmp (nearest_on_top S.cmp O.order) };

    ghost laws = { partial_order_from_own_ties (Prim.search (comparing, rules)) (Prim.search (comparing, rules)) };

    fn partial_cmp(&self, other: &Self) -> Option<Ordering> {
        Some(self.cmp(other))
    }
}
