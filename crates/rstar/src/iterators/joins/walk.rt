//! The traversal of a join: the pairs of elements that intersect below two lists of nodes.

ghost use Rattle.std.specs.Prelude.{◌≡◌, ◌+◌, ◌-◌, ◌*◌, ◌^◌, ◌<◌, ◌≤◌, [], false, IsOk, IfOk, IfSome, IfNone, filter, map, flat_map, length, take, if◌then◌else◌};
ghost use Rattle.rstar.specs.declared.node.RTreeNode.{Leaf};
ghost use Rattle.rstar.specs.Nodes.{node_box};
ghost use Rattle.rstar.specs.Lists.{product};
ghost use Rattle.rstar.specs.Meets.{opened_to, both_leaves};
ghost use Rattle.rstar.specs.inside.PairWalks.{marked_items, with_marks, rows_beside, AreJoinable, Begins, IsFirstPair, IsSingle, IsIdle, IsWalk, IsPairStep, IsNextPair};
ghost use Rattle.rstar.specs.Joins.{meets_by};

use crate::bounds::{Covered, Meets};
use crate::node::RTreeNode;
use crate::path::Path;
use std::alloc::{AllocError, Global};

/// The number of pairs tested at once, with one mark for each.
const MARKS: usize = 64;

/// Up to this many nodes on the right, several nodes on the left are tested at once.
const NARROW: usize = 8;

/// A traversal of pairs of nodes: those of two lists, and below each pair that intersects those of their children.
/// Where one of the two is a leaf, the other goes on alone.
#[derive(Drop)]
pub(crate) struct PairWalk<'a, T: Covered, U: Meets<T>> {
    // The pairs that are being read, and in the path what was left of others.
    frame: Frame<&'a [RTreeNode<T>], &'a [RTreeNode<U>]>,
    path: Path<Frame<&'a [RTreeNode<T>], &'a [RTreeNode<U>]>>,
    // The number of pairs of nodes visited, clamped to the greatest `usize`.
    pub(super) opened: usize,
}

/// Pairs of nodes that are still to be read: for the first on the left, eight or one, those on the right that were
/// asked, with marks for the pairs that meet, and those to be asked later; for the others on the left all on the right.
#[derive(Copy)]
struct Frame<L, R> {
    lefts: L,
    asked: R,
    marks: u64,
    later: R,
    rights: R,
}

impl<L: Copy, R: Copy> Clone for Frame<L, R> {
    fn clone(&self) -> Result<Self, AllocError> {
        Ok(*self)
    }
}

/// The outcome of one step of a traversal.
enum PairStep<'a, T, U> {
    /// A pair was found.
    Found(&'a T, &'a U),
    /// The traversal goes on.
    Passed,
    /// The traversal is at its end.
    Ended,
}

/// The children of a single node, or the node itself where it is a leaf.
fn opened_nodes<'a, T: Covered>(nodes: &'a [RTreeNode<T>]) -> &'a [RTreeNode<T>]
    requires { IsSingle nodes.now }
    ensures { result.now ≡ flat_map opened_to nodes.now }
{
    let Some((first, _rest)) = nodes.split_first() else {
        return nodes;
    };
    match first {
        RTreeNode::Leaf(_) => nodes,
        RTreeNode::Parent(parent) => parent.children.as_slice(),
    }
}

/// Whether an envelope intersects that of a node.
#[tactic(auto, unfolding(crate::specs::Nodes::node_box, crate::specs::Nodes::fold_tree))]
fn meets_node<T: Covered, U: Meets<T>>(envelope: &T::Cover, node: &RTreeNode<U>) -> bool
    ensures { result ≡ meets_by T.Cover.boxes U.seen envelope.now (node_box U.object.box_of node.now) }
{
    match node {
        RTreeNode::Leaf(u) => U::meet(envelope, &u.envelope()),
        RTreeNode::Parent(q) => U::meet(envelope, &q.envelope),
    }
}

/// Marks with one more in front, where there is room.
fn with_mark(marks: u64, mark: bool) -> u64
    ensures { marks < 2 ^ 63 → result ≡ (if mark then 1 else 0) + 2 * marks }
{
    let others = marks.wrapping_mul(2);
    if mark { others.wrapping_add(1) } else { others }
}

/// Marks with one more for each node in front, where there is room: whether an envelope intersects the node's.
// The room is a premise of the clauses of marks, and no `requires`: `step` would have to state it in a goal of its own.
fn row_marks<T: Covered, U: Meets<T>>(
    envelope: &T::Cover,
    nodes: &[RTreeNode<U>],
    others: u64,
) -> u64
    ensures { length nodes.now ≤ 64 → others < 2 ^ (64 - length nodes.now) → result ≡ with_marks
        (map (λ n. meets_by T.Cover.boxes U.seen envelope.now (node_box U.object.box_of n)) nodes.now) others }
{
    let mut marks = others;
    let mut rest = nodes;
    while let Some((node, before)) = rest.split_last() {
        marks = with_mark(marks, meets_node(envelope, node));
        rest = before;
    }
    marks
}

/// The marks of the pairs of nodes that intersect, for at most 64 pairs.
fn marks_of<T: Covered, U: Meets<T>>(lefts: &[RTreeNode<T>], rights: &[RTreeNode<U>]) -> u64
    ensures { length lefts.now * length rights.now ≤ 64 → marked_items result (product lefts.now rights.now)
        ≡ filter (λ p. meets_by T.Cover.boxes U.seen (node_box T.object.box_of p.0) (node_box U.object.box_of p.1))
        (product lefts.now rights.now) }
{
    let mut marks = 0;
    let mut rest = lefts;
    while let Some((left, before)) = rest.split_last() {
        marks = row_marks(&left.cover(), rights, marks);
        rest = before;
    }
    marks
}

/// The items from those of the first marked pair on, and the marks of the other pairs.
fn first_marked<'a, L, R>(
    lefts: &'a [L],
    rights: &'a [R],
    marks: u64,
) -> Option<(&'a [L], &'a [R], u64)>
    ensures some { IfSome result (λ r. IsFirstPair lefts.now rights.now marks r.0.now r.1.now r.2) }
    ensures none { IfNone result (marked_items marks (product lefts.now rights.now) ≡ []) }
{
    if marks == 0 {
        return None;
    }
    if rights.is_empty() {
        return None;
    }
    let place = marks.trailing_zeros() as usize;
    let row = place / rights.len();
    if lefts.len() <= row {
        return None;
    }
    let column = place % rights.len();
    Some((&lefts[row..], &rights[column..], marks & (marks - 1)))
}

/// The number of nodes on the left that are tested at once.
fn rows_beside<R>(rights: &[R]) -> usize
    ensures { result ≡ rows_beside rights.now }
{
    if rights.len() <= NARROW { NARROW } else { 1 }
}

/// The elements of two leaves.
#[tactic(auto, unfolding(crate::specs::Nodes::is_leaf_node, crate::specs::Nodes::fold_tree))]
fn two_leaves<'a, T: Covered, U: Covered>(
    left: &'a RTreeNode<T>,
    right: &'a RTreeNode<U>,
) -> Option<(&'a T, &'a U)>
    ensures some { IfSome result (λ p. (left.now ≡ Leaf p.0.now) × (right.now ≡ Leaf p.1.now)) }
    ensures none { IfNone result (both_leaves left.now right.now ≡ false) }
{
    match (left, right) {
        (RTreeNode::Leaf(t), RTreeNode::Leaf(u)) => Some((t, u)),
        _ => None,
    }
}

impl<'a, T: Covered, U: Meets<T>> PairWalk<'a, T, U> {
    /// A traversal with nothing to read, and with room for this many levels of parents. Both lists are empty.
    pub(crate) fn idle(
        alloc: Global,
        lefts: &'a [RTreeNode<T>],
        rights: &'a [RTreeNode<U>],
        levels: usize,
    ) -> Result<Self, AllocError>
        requires lefts { lefts.now ≡ [] }
        requires rights { rights.now ≡ [] }
        ensures idle { IfOk result IsIdle }
        ensures walk { IfOk result (IsWalk (meets_by T.Cover.boxes U.seen) T.object.box_of U.object.box_of) }
        ensures opened { IfOk result (λ walk. walk.opened ≡ 0) }
        ensures room { IfOk result (λ walk. levels ≤ walk.path.capacity) }
        ensures near { levels ≤ 12 → IsOk result }
    {
        let frame = Frame {
            lefts,
            asked: rights,
            marks: 0,
            later: rights,
            rights,
        };
        let path = Path::with_room(alloc, frame, levels)?;
        Ok(PairWalk {
            frame,
            path,
            opened: 0,
        })
    }

    /// Starts with the pairs of two lists of nodes.
    pub(crate) fn begin(&mut self, lefts: &'a [RTreeNode<T>], rights: &'a [RTreeNode<U>])
        requires idle { IsIdle self.old }
        requires fits { AreJoinable self.old.path.capacity lefts.now rights.now }
        ensures { Begins (meets_by T.Cover.boxes U.seen) T.object.box_of U.object.box_of
            self.old lefts.now rights.now self.new }
    {
        self.frame.lefts = lefts;
        self.frame.marks = 0;
        self.frame.later = rights;
        self.frame.rights = rights;
    }

    /// The next pair of elements that intersect, and `None` at the end. It takes no memory.
    pub(crate) fn advance(&mut self) -> Option<(&'a T, &'a U)>
        requires { IsWalk (meets_by T.Cover.boxes U.seen) T.object.box_of U.object.box_of self.old }
        ensures { IsNextPair (meets_by T.Cover.boxes U.seen) T.object.box_of U.object.box_of self.old result self.new }
    {
        loop {
            match self.step() {
                PairStep::Found(t, u) => return Some((t, u)),
                PairStep::Passed => {}
                PairStep::Ended => return None,
            }
        }
    }

    /// Reads an intersecting pair, tests the next pairs, goes on with the next nodes on the left, or goes back.
    fn step(&mut self) -> PairStep<'a, T, U>
        requires { IsWalk (meets_by T.Cover.boxes U.seen) T.object.box_of U.object.box_of self.old }
        ensures { IsPairStep (meets_by T.Cover.boxes U.seen) T.object.box_of U.object.box_of self.old result self.new }
    {
        if self.frame.lefts.is_empty() {
            return self.go_back();
        }
        let rows = self.frame.lefts.len().min(rows_beside(self.frame.rights));
        let (block, others) = self.frame.lefts.split_at(rows);
        if let Some((left, right, marks)) = first_marked(
            block,
            self.frame.asked,
            self.frame.marks,
        ) {
            return self.read(left, right, marks);
        }
        if self.frame.later.is_empty() {
            self.frame.lefts = others;
            self.frame.marks = 0;
            self.frame.later = self.frame.rights;
            return PairStep::Passed;
        }
        let (asked, later) = self.frame.later.split_at(self.frame.later.len().min(MARKS));
        self.frame.marks = marks_of(block, asked);
        self.frame.asked = asked;
        self.frame.later = later;
        PairStep::Passed
    }

    /// Yields or visits the pair of the first nodes, which intersect.
    fn read(
        &mut self,
        lefts: &'a [RTreeNode<T>],
        rights: &'a [RTreeNode<U>],
        marks: u64,
    ) -> PairStep<'a, T, U>
        requires walk { IsWalk (meets_by T.Cover.boxes U.seen) T.object.box_of U.object.box_of self.old }
        requires met { IsFirstPair (take (rows_beside self.old.frame.rights.now) self.old.frame.lefts.now)
            self.old.frame.asked.now self.old.frame.marks lefts.now rights.now marks }
        ensures { IsPairStep (meets_by T.Cover.boxes U.seen) T.object.box_of U.object.box_of self.old result self.new }
    {
        let Some((left, _under)) = lefts.split_first() else {
            return PairStep::Ended;
        };
        let Some((right, _behind)) = rights.split_first() else {
            return PairStep::Ended;
        };
        self.frame.marks = marks;
        if let Some((t, u)) = two_leaves(left, right) {
            return PairStep::Found(t, u);
        }
        self.opened = self.opened.saturating_add(1);
        self.path.push_reserved(self.frame);
        self.frame.lefts = opened_nodes(&lefts[..1]);
        self.frame.rights = opened_nodes(&rights[..1]);
        self.frame.marks = 0;
        self.frame.later = self.frame.rights;
        PairStep::Passed
    }

    /// Goes back to the pairs that were left last.
    fn go_back(&mut self) -> PairStep<'a, T, U>
        requires walk { IsWalk (meets_by T.Cover.boxes U.seen) T.object.box_of U.object.box_of self.old }
        requires none { self.old.frame.lefts.now ≡ [] }
        ensures { IsPairStep (meets_by T.Cover.boxes U.seen) T.object.box_of U.object.box_of self.old result self.new }
    {
        let Some(frame) = self.path.pop() else {
            return PairStep::Ended;
        };
        self.frame = frame;
        PairStep::Passed
    }
}
