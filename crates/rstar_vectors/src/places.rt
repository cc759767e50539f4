//! Callers in generic code with all that the calls promise, at points and at an element type of one's own.

ghost use Rattle.std.specs.Prelude.{◌≡◌, ◌∷◌, ◌≤◌, List, [], false, length, map, filter, min, IfOk, IfSome, MatchOption};
ghost use Rattle.std.specs.Iterator.{IsFinite};
ghost use Rattle.rstar.specs.Trees.{IsWholeTree, elements_in};
ghost use Rattle.rstar_vectors.specs.Callers.{IsCountOf};

use crate::scenarios::let_go;
use rstar::params::{DefaultParams, InsertError, RTreeParams};
use rstar::rtree::RTree;
use rstar_base::{AABB, Envelope, Point, RTreeObject};
use rstar_base_vectors::doors::Doors;
use std::alloc::{AllocError, Global};

/// A tree of two elements of any type.
fn pair<T: RTreeObject>(alloc: Global, first: T, second: T) -> Result<RTree<T>, InsertError<T>>
    requires dimensions { 2 ≤ T.Envelope.Point.DIMENSIONS }
    requires first { T.Envelope.boxes.is_empty (T.object.box_of first) ≡ false }
    requires second { T.Envelope.boxes.is_empty (T.object.box_of second) ≡ false }
    ensures whole { IfOk result (λ tree. IsWholeTree T.Envelope.boxes T.object
        ⟦<DefaultParams as RTreeParams>⟧.MAX_SIZE tree) }
{
    let mut tree = RTree::new(alloc);
    if let Err(refused) = tree.insert(first) {
        let_go(tree);
        return Err(refused);
    }
    match tree.insert(second) {
        Ok(()) => Ok(tree),
        Err(refused) => {
            let_go(tree);
            Err(refused)
        }
    }
}

/// The example of README.md.
fn two_points(alloc: Global) -> Result<usize, InsertError<[i64; 2]>> {
    let mut tree = RTree::new(alloc);
    tree.insert([1, 2])?;
    tree.insert([3, 4])?;
    Ok(tree.size())
}

/// All elements, by `collect`.
fn listed<'a, T: RTreeObject>(alloc: Global, tree: &'a RTree<T>) -> Result<Vec<&'a T>, AllocError>
    requires { IsWholeTree T.Envelope.boxes T.object ⟦<DefaultParams as RTreeParams>⟧.MAX_SIZE tree.now }
    ensures { IfOk result (λ v. map (λ r. r.now) v.items ≡ elements_in tree.now) }
{
    match tree.iter() {
        Ok(walk) => walk.collect(alloc),
        Err(refused) => Err(refused),
    }
}

/// The number of items of an iterator, by a `for`.
fn counted<I: Iterator>(items: I) -> usize
where
    I::Item: Drop,
    requires can { I.can_next items }
    requires ends { IsFinite (I.remaining items) }
    ensures { IsCountOf I.next_gives items result }
{
    let mut count = 0usize;
    for _ in items {
        count = count.saturating_add(1);
    }
    count
}

/// The number of elements inside an envelope; `None` where the iterator is refused.
fn counted_inside<T: RTreeObject>(tree: &RTree<T>, envelope: T::Envelope) -> Option<usize>
    requires { IsWholeTree T.Envelope.boxes T.object ⟦<DefaultParams as RTreeParams>⟧.MAX_SIZE tree.now }
    ensures { IfSome result (λ count. count ≡ min (length (filter
        (λ t. T.Envelope.boxes.contains envelope (T.object.box_of t)) (elements_in tree.now))) usize.MAX) }
{
    match tree.locate_in_envelope(envelope) {
        Ok(walk) => Some(counted(walk)),
        Err(_) => None,
    }
}

/// The first element inside an envelope, by one `next`.
fn first_inside<T: RTreeObject>(
    tree: &RTree<T>,
    envelope: T::Envelope,
) -> Result<Option<&T>, AllocError>
    requires { IsWholeTree T.Envelope.boxes T.object ⟦<DefaultParams as RTreeParams>⟧.MAX_SIZE tree.now }
    ensures { IfOk result (λ o. MatchOption o
        (filter (λ t. T.Envelope.boxes.contains envelope (T.object.box_of t)) (elements_in tree.now) ≡ [])
        (λ t. (rest : List T) × (filter
        (λ u. T.Envelope.boxes.contains envelope (T.object.box_of u)) (elements_in tree.now) ≡ t.now ∷ rest))) }
{
    match tree.locate_in_envelope(envelope) {
        Ok(mut walk) => Ok(walk.next()),
        Err(refused) => Err(refused),
    }
}

/// Asks that values of a type may move to another thread, and be shared with one.
fn crosses_threads<X: Send + Sync>(_value: &X) {}

/// Whether a tree has two elements, and this many inside an envelope, at least one. It may cross threads where its
/// elements and their envelopes may.
fn gives_two<T: RTreeObject + Send + Sync>(
    alloc: Global,
    tree: &RTree<T>,
    area: T::Envelope,
    near: usize,
) -> bool
where
    T::Envelope: Copy + Send + Sync,
    requires { IsWholeTree T.Envelope.boxes T.object ⟦<DefaultParams as RTreeParams>⟧.MAX_SIZE tree.now }
{
    crosses_threads(tree);
    tree.size() == 2
        && tree.root().children().len() == 2
        && counted_inside(tree, area) == Some(near)
        && matches!(first_inside(tree, area), Ok(Some(_)))
        && match &listed(alloc, tree) {
            Ok(all) => all.len() == 2,
            Err(_) => false,
        }
}

/// The same of a tree of these two elements.
fn gives_both<T: RTreeObject + Send + Sync>(
    alloc: Global,
    first: T,
    second: T,
    area: T::Envelope,
    near: usize,
) -> bool
where
    T::Envelope: Copy + Send + Sync,
    requires { 2 ≤ T.Envelope.Point.DIMENSIONS }
{
    if first.envelope().is_empty() || second.envelope().is_empty() {
        return false;
    }
    match pair(alloc, first, second) {
        Ok(tree) => {
            let is_so = gives_two(alloc, &tree, area, near);
            let_go(tree);
            is_so
        }
        Err(_) => false,
    }
}

#[test]
fn two_elements(rt: HostRuntime) {
    let area = AABB::from_corners([0, 0], [1, 2]);
    let (front, back) = ([1i64, 2], [1, 2]);
    let (one, other) = (Doors { front, back }, Doors { front, back });
    assert!(rt;
        matches!(two_points(rt.alloc()), Ok(2))
            && gives_both(rt.alloc(), [1i64, 2], [3, 4], area, 1)
            && gives_both(rt.alloc(), one, other, area, 2)
    );
}
