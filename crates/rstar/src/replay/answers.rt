//! Commands that leave the tree as it is.

ghost use Rattle.std.specs.Prelude.{◌≡◌, ◌≤◌, ◌++◌, filter, map, IfOk, OnOk};
ghost use Rattle.rstar_base.specs.Selections.{IsLawful};
ghost use Rattle.rstar.specs.declared.replay.Command.TheVariants.{Ask, Nearest, Neighbours, Join};
ghost use Rattle.rstar.specs.Clones.{ClonesEqual};
ghost use Rattle.rstar.specs.Joins.{meets_by, pairs_to_come, IsJoining};
ghost use Rattle.rstar.specs.Lists.{NoneEmpty};
ghost use Rattle.rstar.specs.Nodes.{all_given};
ghost use Rattle.rstar.specs.Steps.{selects, Step, StepByOrder};
ghost use Rattle.rstar.specs.Trees.{elements_in, IsWholeTree};

use crate::algorithm::nearest_neighbor::{ElementOrder, first_nearest};
use crate::bounds::{Covered, Meets, Question};
use crate::iterators::IntersectionIterator;
use crate::node::RTreeNode;
use crate::replay::{Query, Reply, Scanned};
use crate::rtree::RTree;
use crate::visits::{Look, NodesRef, enters};
use rstar_base::algorithm::selection_functions::{
    SelectAllFunc, SelectAtPointFunction, SelectInEnvelopeFuncIntersecting,
    SelectInEnvelopeFunction, SelectWithinDistanceFunction,
};
use rstar_base::{
    Envelope, EqualEnvelopes, Point, PointDistance, PointOf, RTreeNum, RTreeObject, RTreeParams,
    SelectionFunction,
};
use std::alloc::{AllocError, Global};

/// The elements of a query.
#[tactic(auto, using(crate::proofs::commands::Replays::same_bag))]
pub(super) fn ask<T: PointDistance + EqualEnvelopes + Clone, Params: RTreeParams>(
    tree: &RTree<T, Params>,
    query: Query<T>,
) -> Reply<T>
    requires whole { IsWholeTree T.Envelope.boxes T.object Params.MAX_SIZE tree.now }
    requires clones { ClonesEqual T.is_clone }
    ensures { Step ⟦<T as Scanned>⟧.questions (elements_in tree.now) (Ask query) result (elements_in tree.now) }
{
    match ask_query(tree, query) {
        Ok(found) => Reply::Elements(found),
        Err(_) => Reply::NoMemory,
    }
}

/// The same, as a list.
fn ask_query<T: PointDistance + EqualEnvelopes + Clone, Params: RTreeParams>(
    tree: &RTree<T, Params>,
    query: Query<T>,
) -> Result<Vec<T>, AllocError>
    requires whole { IsWholeTree T.Envelope.boxes T.object Params.MAX_SIZE tree.now }
    requires clones { ClonesEqual T.is_clone }
    ensures { IfOk result (λ found. found.items ≡ filter (selects ⟦<T as Scanned>⟧.questions query)
        (elements_in tree.now)) }
{
    match query {
        Query::All => clones_of(tree, SelectAllFunc),
        Query::In(envelope) => clones_of(tree, SelectInEnvelopeFunction::new(envelope)),
        Query::Hit(envelope) => clones_of(tree, SelectInEnvelopeFuncIntersecting::new(envelope)),
        Query::At(point) => clones_of(tree, SelectAtPointFunction::new(point)),
        Query::Within(point, limit) => {
            clones_of(tree, SelectWithinDistanceFunction::new(point, limit))
        }
    }
}

/// Clones of the elements that a function selects.
fn clones_of<T: RTreeObject + Clone, Func: SelectionFunction<T>, Params: RTreeParams>(
    tree: &RTree<T, Params>,
    func: Func,
) -> Result<Vec<T>, AllocError>
    requires whole { IsWholeTree T.Envelope.boxes T.object Params.MAX_SIZE tree.now }
    requires clones { ClonesEqual T.is_clone }
    requires lawful { IsLawful T.Envelope.boxes T.object (Func.accepts func) (Func.selects func) }
    ensures { IfOk result (λ found. found.items ≡ filter (Func.selects func) (elements_in tree.now)) }
{
    let root = tree.root();
    let alloc = *root.children.allocator();
    if !enters(root, &func) {
        return Ok(Vec::new(alloc));
    }
    let mut found = Vec::with_capacity(alloc, ROOM)?;
    clones_below(root.children.as_slice(), &func, &mut found)?;
    Ok(found)
}

/// The capacity that an answer starts with. Most answers are shorter and do not grow.
const ROOM: usize = 32;

/// Appends clones of the selected elements below some nodes.
fn clones_below<'a, T: Covered + Clone, Func: Question<T>>(
    nodes: &'a [RTreeNode<T>],
    func: &Func,
    found: &mut Vec<T>,
) -> Result<(), AllocError>
    requires { ClonesEqual T.is_clone }
    ensures { OnOk result (found.new.items
        ≡ found.old.items ++ all_given (Func.accepts func.now) (Func.selects func.now) nodes.now) }
{
    let mut left = nodes;
    loop {
        match left.look(func) {
            Look::End => return Ok(()),
            Look::Give(t, rest) => {
                found.push(t.clone()?)?;
                left = rest;
            }
            Look::Pass(rest) => left = rest,
            Look::Open(below, rest) => {
                clones_below(below, func, found)?;
                left = rest;
            }
        }
    }
}

/// The first element by distance to a point.
#[tactic(auto, using(crate::proofs::commands::Replays::same_bag))]
pub(super) fn nearest<
    T: PointDistance + EqualEnvelopes + Clone,
    O: ElementOrder<T>,
    Params: RTreeParams,
>(tree: &RTree<T, Params>, point: PointOf<T>) -> Reply<T>
    requires whole { IsWholeTree T.Envelope.boxes T.object Params.MAX_SIZE tree.now }
    requires clones { ClonesEqual T.is_clone }
    ensures { StepByOrder ⟦<T as Scanned>⟧.questions O.order (elements_in tree.now) (Nearest point) result
        (elements_in tree.now) }
{
    let Ok(lent) = first_nearest::<T, O>(tree.root(), &point, 1, 1) else {
        return Reply::NoMemory;
    };
    let Some(near) = lent.first() else {
        return Reply::Nearest(None);
    };
    match near.0.clone() {
        Ok(element) => Reply::Nearest(Some((element, near.1))),
        Err(_) => Reply::NoMemory,
    }
}

/// The first k elements by distance to a point.
#[tactic(auto, using(crate::proofs::commands::Replays::same_bag))]
pub(super) fn neighbours<
    T: PointDistance + EqualEnvelopes + Clone,
    O: ElementOrder<T>,
    Params: RTreeParams,
>(tree: &RTree<T, Params>, point: PointOf<T>, most: usize) -> Reply<T>
    requires whole { IsWholeTree T.Envelope.boxes T.object Params.MAX_SIZE tree.now }
    requires clones { ClonesEqual T.is_clone }
    ensures { StepByOrder ⟦<T as Scanned>⟧.questions O.order (elements_in tree.now) (Neighbours point most) result
        (elements_in tree.now) }
{
    let room = most.min(tree.size());
    let Ok(lent) = first_nearest::<T, O>(tree.root(), &point, most, room) else {
        return Reply::NoMemory;
    };
    match clones_of_lent(&lent) {
        Ok(found) => Reply::Neighbours(found),
        Err(_) => Reply::NoMemory,
    }
}

/// Clones of borrowed elements, each with its distance.
fn clones_of_lent<T: Clone, S: Copy>(lent: &Vec<(&T, S)>) -> Result<Vec<(T, S)>, AllocError>
    requires { ClonesEqual T.is_clone }
    ensures { IfOk result (λ found. found.items ≡ map (λ n. (n.0.now, n.1)) lent.now.items) }
{
    let mut found = Vec::with_capacity(*lent.allocator(), lent.len())?;
    for place in 0..lent.len() {
        let near = &lent[place];
        found.push((near.0.clone()?, near.1))?;
    }
    Ok(found)
}

/// The join of the tree with a list, which is loaded with the default node sizes.
#[tactic(auto, using(crate::proofs::commands::Replays::same_bag))]
pub(super) fn join<T: PointDistance + EqualEnvelopes + Clone, Params: RTreeParams>(
    tree: &RTree<T, Params>,
    list: Vec<T>,
) -> Reply<T>
    requires whole { IsWholeTree T.Envelope.boxes T.object Params.MAX_SIZE tree.now }
    requires clones { ClonesEqual T.is_clone }
    requires dimensions { 2 ≤ T.Envelope.Point.DIMENSIONS }
    requires elements { NoneEmpty T.Envelope.boxes.is_empty T.object.box_of list.items }
    ensures { Step ⟦<T as Scanned>⟧.questions (elements_in tree.now) (Join list) result (elements_in tree.now) }
{
    let alloc = *list.allocator();
    let Ok(other) = RTree::bulk_load(list) else {
        return Reply::NoMemory;
    };
    let Ok(walk) = tree.intersection_candidates_with_other_tree(&other) else {
        return Reply::NoMemory;
    };
    match clones_of_pairs(alloc, walk) {
        Ok(pairs) => Reply::Pairs(pairs),
        Err(_) => Reply::NoMemory,
    }
}

/// Clones of the pairs that a join has left.
fn clones_of_pairs<'a, T: Covered + Clone, U: Meets<T> + Clone>(
    alloc: Global,
    walk: IntersectionIterator<'a, T, U>,
) -> Result<Vec<(T, U)>, AllocError>
    requires joining { IsJoining (meets_by T.Cover.boxes U.seen) T.object.box_of U.object.box_of walk }
    requires left { ClonesEqual T.is_clone }
    requires right { ClonesEqual U.is_clone }
    ensures { IfOk result (λ pairs. pairs.items
        ≡ pairs_to_come (meets_by T.Cover.boxes U.seen) T.object.box_of U.object.box_of walk.entry) }
{
    let mut pairs = Vec::new(alloc);
    let mut items = walk;
    while let Some((t, u)) = items.next() {
        let left = t.clone()?;
        pairs.push((left, u.clone()?))?;
    }
    Ok(pairs)
}
