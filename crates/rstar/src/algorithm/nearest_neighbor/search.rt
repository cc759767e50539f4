//! The traversal behind the neighbour iterators: a priority queue of nodes, the nearest first.

ghost use Rattle.std.specs.Prelude.{◌≡◌, ◌<◌, ◌++◌, length, pos, OnOk, OnErr, IfOk};
ghost use Rattle.std.specs.List.Sorted.{IsPermutation};
ghost use Rattle.std.specs.Mem.{FitsInMemory};
ghost use Rattle.rstar_base.specs.SmallHeaps.{IsOrdered};
ghost use Rattle.rstar.specs.inside.Fits.{heap_row, search_row};
ghost use Rattle.rstar.specs.declared.algorithm.nearest_neighbor.search.Stage.TheVariants.{Fresh, Running};
ghost use Rattle.rstar.specs.Nodes.{IsWhole};
ghost use Rattle.rstar.specs.Neighbors.{shown, HasBegun, MayWantMemory};
ghost use Rattle.rstar.specs.inside.Searches.{nearest_on_top, waiting_nodes, distance_of, AreWaiting, IsRunning, IsReady, IsUnrefused, held_by, waiting_of};
ghost use Rattle.rstar.specs.inside.SearchSteps.{GivesFirst, GivesNext, IsUnderWay};

use crate::algorithm::nearest_neighbor::waiting::{TieOrder, Waiting};
use crate::bounds::{Measured, SquaredDistance};
use crate::node::{ParentNode, RTreeNode};
use rstar_base::heap::SmallHeap;
use std::alloc::AllocError;
use std::marker::PhantomData;

/// The priority queue of nodes, the nearest on top.
pub(crate) type Heap<'a, T, O> = SmallHeap<Waiting<&'a RTreeNode<T>, <T as Measured>::Distance, O>>;

/// Does nothing. Its contract says that a search held by value fits in memory.
pub(crate) fn fits<S: SquaredDistance>()
    ensures heap { FitsInMemory (heap_row S.row) }
    ensures search { FitsInMemory (search_row S.row) }
{}

/// The distance at which a node is queued: an element's own, or that of a parent's envelope.
#[tactic(auto, unfolding(crate::specs::Nodes::node_distance, crate::specs::Nodes::fold_tree))]
#[inline(always)]
pub(crate) fn distance_to<T: Measured>(node: &RTreeNode<T>, point: &T::Place) -> T::Distance
    ensures { T.Distance.number result ≡ pos (distance_of T.Cover.boxes T.distances (T.at point.now) node.now) }
{
    match node {
        RTreeNode::Leaf(t) => t.distance_2(point),
        RTreeNode::Parent(parent) => T::cover_distance_2(&parent.envelope, point),
    }
}

/// The stage of a search.
#[derive(Drop)]
enum Stage {
    /// The root waits.
    Fresh,
    /// The root was visited.
    Running,
    /// Memory was refused.
    Ended,
}

/// A search for neighbours without its point, which each call borrows. So the size of the value is bounded,
/// and a generic function may hold it. The parameters are the types of root, node and scalar, so that its
/// drop can be checked for any iterator.
#[derive(Drop)]
pub(crate) struct NeighborSearch<'a, R, N, S, O> {
    root: &'a R,
    heap: SmallHeap<Waiting<&'a N, S, O>>,
    /// The number of parents visited, clamped to the greatest `usize`.
    pub(crate) opened: usize,
    stage: Stage,
}

/// A search over the nodes of a tree.
pub(crate) type NodeSearch<'a, T, O> = NeighborSearch<
    'a,
    ParentNode<T>,
    RTreeNode<T>,
    <T as Measured>::Distance,
    O,
>;

impl<'a, T: Measured, O: TieOrder<RTreeNode<T>>> NodeSearch<'a, T, O> {
    /// A search in which the root waits. It takes no memory.
    pub(crate) fn new(root: &'a ParentNode<T>) -> Self
        requires { IsWhole T.Cover.boxes T.object root.now }
        ensures root { result.root ≡ root.entry }
        ensures begun { (p : T.Place) → HasBegun root.now p (shown result p) }
        ensures stage { result.stage ≡ Fresh }
        ensures ready { (p : _) → IsReady T.Cover.boxes T.distances p T.Distance.cmp O.order T.Distance.number T.object
            result }
    {
        NeighborSearch {
            root,
            heap: SmallHeap::new(*root.children.allocator()),
            opened: 0,
            stage: Stage::Fresh,
        }
    }

    /// The nearest element not yet yielded, with its squared distance.
    pub(crate) fn next_neighbor(
        &mut self,
        point: &T::Place,
    ) -> Option<Result<(&'a T, T::Distance), AllocError>>
        requires { IsReady T.Cover.boxes T.distances (T.at point.now) T.Distance.cmp O.order T.Distance.number T.object
            self.old }
        ensures { GivesNext T.Cover.boxes T.distances (T.at point.now) T.Distance.cmp O.order T.Distance.number T.object
            self.old result self.new }
    {
        if let Stage::Ended = self.stage {
            return None;
        }
        if let Err(refused) = self.begin(point) {
            self.stage = Stage::Ended;
            return Some(Err(refused));
        }
        match self.advance(point) {
            Ok(Some(found)) => Some(Ok(found)),
            Ok(None) => None,
            Err(refused) => {
                self.stage = Stage::Ended;
                Some(Err(refused))
            }
        }
    }

    /// Visits the root where it waits.
    fn begin(&mut self, point: &T::Place) -> Result<(), AllocError>
        requires unrefused { IsUnrefused self.old.stage }
        requires ready { IsReady T.Cover.boxes T.distances (T.at point.now) T.Distance.cmp O.order T.Distance.number
            T.object self.old }
        ensures root { self.new.root ≡ self.old.root }
        ensures stage { OnOk result (self.new.stage ≡ Running) }
        ensures under_way { OnOk result (IsUnderWay T.Cover.boxes T.distances (T.at point.now) T.Distance.cmp O.order
            T.Distance.number T.object self.new.root.now (waiting_of self.old) self.new.heap self.new.opened) }
        ensures refused { OnErr result (MayWantMemory (waiting_of self.old)) }
    {
        match self.stage {
            Stage::Fresh => {
                // Does nothing but tell that the point's coordinates are in their range.
                T::known(point);
                self.opened = 1;
                let root = self.root;
                self.add_children(&root.children, point)?;
                self.stage = Stage::Running;
                Ok(())
            }
            Stage::Running => Ok(()),
            Stage::Ended => unreachable!(),
        }
    }

    /// Visits the nearest waiting parents until an element is nearest.
    fn advance(&mut self, point: &T::Place) -> Result<Option<(&'a T, T::Distance)>, AllocError>
        requires { IsRunning T.Cover.boxes T.distances (T.at point.now) T.Distance.cmp O.order T.Distance.number
            T.object self.old.root.now self.old.heap self.old.opened }
        ensures root { self.new.root ≡ self.old.root }
        ensures stage { self.new.stage ≡ self.old.stage }
        ensures gives { IfOk result (GivesFirst T.Cover.boxes T.distances (T.at point.now) T.Distance.cmp O.order
            T.Distance.number T.object self.old self.new) }
        ensures refused { OnErr result (MayWantMemory (waiting_nodes (held_by self.old))) }
    {
        T::known(point);
        while let Some(current) = self.heap.pop() {
            match current.node {
                RTreeNode::Leaf(t) => return Ok(Some((t, current.distance))),
                RTreeNode::Parent(parent) => {
                    self.opened = self.opened.saturating_add(1);
                    self.add_children(&parent.children, point)?;
                }
            }
        }
        Ok(None)
    }

    /// Queues these nodes.
    fn add_children(
        &mut self,
        children: &'a [RTreeNode<T>],
        point: &T::Place,
    ) -> Result<(), AllocError>
        requires { IsOrdered (nearest_on_top T.Distance.cmp O.order) self.old.heap }
        ensures root { self.new.root ≡ self.old.root }
        ensures opened { self.new.opened ≡ self.old.opened }
        ensures stage { self.new.stage ≡ self.old.stage }
        ensures waiting { AreWaiting T.Cover.boxes T.distances (T.at point.now) T.Distance.cmp O.order T.Distance.number
            self.old.heap → AreWaiting T.Cover.boxes T.distances (T.at point.now) T.Distance.cmp O.order
            T.Distance.number self.new.heap }
        ensures added { OnOk result (IsPermutation (waiting_nodes (held_by self.old) ++ children.now)
            (waiting_nodes (held_by self.new))) }
        ensures refused { OnErr result (32 < length (waiting_nodes (held_by self.old) ++ children.now)) }
    {
        for node in children {
            let distance = distance_to(node, point);
            if let Err(_refused) = self.heap.push(Waiting {
                node,
                distance,
                ties: PhantomData,
            }) {
                return Err(AllocError);
            }
        }
        Ok(())
    }
}
