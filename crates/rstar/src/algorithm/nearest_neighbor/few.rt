//! The nearest, and the k nearest for small k: the best elements found so far prune what is farther than the
//! last of them, and the least MINMAXDIST seen prunes a search for one (Roussopoulos et al. 1995).

ghost use Rattle.std.specs.Prelude.{◌≡◌, ◌<◌, ◌≤◌, ◌+◌, ◌≤ℤ◌, ◌++◌, ◌∷◌, [], List, ℕ, true, false, length, pos, map, None, Option, OnOk, OnErr, IsOk, IfOk, IfSome, IfNone, MatchOption, option_to_list};
ghost use Rattle.std.specs.List.{AllByRecursion, insert};
ghost use Rattle.std.specs.Ordering.{flip_args, is_lt};
ghost use Rattle.rstar_base.specs.SmallHeaps.{items_of, IsOrdered, Rises};
ghost use Rattle.rstar.specs.inside.Few.{found_elements, is_one, kept_in, FindsNearest, IsAbove, IsBest, IsFarthest, IsKept, IsLowered, KeepsGreatest, StaysInOrder, TakesIn, Visits, waiting_parents};
ghost use Rattle.rstar.specs.Lists.{IsNotLater, AreFirstOf};
ghost use Rattle.rstar.specs.Nodes.{all_parents, elements_of, parents_of, IsWhole};
ghost use Rattle.rstar.specs.inside.Searches.{any_first, distance_of, nearest_on_top};

use crate::algorithm::nearest_neighbor::search::{distance_to, fits};
use crate::algorithm::nearest_neighbor::waiting::{AnyFirst, ParentsFor, TieOrder, Waiting};
use crate::bounds::{Measured, SquaredDistance};
use crate::node::{ParentNode, RTreeNode};
use rstar_base::heap::SmallHeap;
use std::alloc::AllocError;
use std::marker::PhantomData;

/// The priority queue of parents, the nearest on top.
type Parents<'a, T, E> = SmallHeap<
    Waiting<&'a ParentNode<T>, <T as Measured>::Distance, ParentsFor<E>>,
>;

/// The best elements found so far, the nearest first. One lies in place, and takes no memory.
#[derive(Drop)]
enum Kept<'a, T, S, E> {
    One(Option<Waiting<&'a T, S, E>>),
    Few(Vec<Waiting<&'a T, S, E>>),
}

/// What a search knows: the best elements so far, and a bound, above which nothing is sought. Of a search for
/// one it is a distance within which there is an element. Of others it is the distance of the last of a full
/// list.
#[derive(Drop)]
struct Best<'a, T, S, E> {
    kept: Kept<'a, T, S, E>,
    bound: Option<S>,
}

/// A nearest element to a point with its squared distance; `None` exactly where there is no element.
pub(crate) fn one_nearest<'a, T: Measured>(
    root: &'a ParentNode<T>,
    point: &T::Place,
) -> Result<Option<(&'a T, T::Distance)>, AllocError>
    requires { IsWhole T.Cover.boxes T.object root.now }
    ensures { FindsNearest T.Cover.boxes T.distances (T.at point.now) T.Distance.number root.now result }
{
    // Does nothing but tell that the point's coordinates are in their range.
    T::known(point);
    fits::<T::Distance>();
    let mut best: Best<'a, T, T::Distance, AnyFirst> = Best {
        kept: Kept::One(None),
        bound: None,
    };
    search(root, point, 1, &mut best)?;
    match &best.kept {
        Kept::One(Some(first)) => Ok(Some((first.node, first.distance))),
        Kept::One(None) => Ok(None),
        Kept::Few(_) => unreachable!(),
    }
}

/// The first `most` elements by distance with their squared distances; all where there are fewer. `E` breaks
/// ties.
///
/// Each element found is inserted into a sorted list, so this costs less than a priority queue only for
/// small `most`. `room` is the capacity that the list starts with.
pub(crate) fn first_few<'a, T: Measured, E: TieOrder<T>>(
    root: &'a ParentNode<T>,
    point: &T::Place,
    most: usize,
    room: usize,
) -> Result<Vec<(&'a T, T::Distance)>, AllocError>
    requires { IsWhole T.Cover.boxes T.object root.now }
    ensures first { IfOk result (λ found. AreFirstOf (IsNotLater (λ t. T.distances.distance_2 t (T.at point.now))
        E.order) (elements_of root.now) most (map (λ n. n.0.now) found.items)) }
    ensures distances { IfOk result (λ found. AllByRecursion
        (λ n. T.Distance.number n.1 ≡ pos (T.distances.distance_2 n.0.now (T.at point.now))) found.items) }
{
    fits::<T::Distance>();
    let alloc = *root.children.allocator();
    if most == 0 {
        return Ok(Vec::new(alloc));
    }
    let mut best: Best<'a, T, T::Distance, E> = Best {
        kept: Kept::Few(Vec::with_capacity(alloc, room)?),
        bound: None,
    };
    search(root, point, most, &mut best)?;
    match &best.kept {
        Kept::Few(found) => lent(found),
        Kept::One(_) => unreachable!(),
    }
}

/// Finds the first `most` elements by distance, from nothing found.
fn search<'a, T: Measured, E: TieOrder<T>>(
    root: &'a ParentNode<T>,
    point: &T::Place,
    most: usize,
    best: &mut Best<'a, T, T::Distance, E>,
) -> Result<(), AllocError>
    requires whole { IsWhole T.Cover.boxes T.object root.now }
    requires kept { IsKept T.Distance.number most best.old.bound best.old.kept }
    requires unbound { best.old.bound ≡ None }
    requires none { kept_in best.old.kept ≡ [] }
    ensures same { is_one best.new.kept ≡ is_one best.old.kept }
    ensures first { OnOk result (AreFirstOf (IsNotLater (λ t. T.distances.distance_2 t (T.at point.now)) E.order)
        (elements_of root.now) most (found_elements (kept_in best.new.kept))) }
    ensures distances { OnOk result (AllByRecursion
        (λ w. T.Distance.number w.distance ≡ pos (T.distances.distance_2 w.node.now (T.at point.now)))
        (kept_in best.new.kept)) }
    ensures refused { is_one best.old.kept ≡ true → OnErr result (32 < parents_of root.now) }
{
    // Does nothing but tell that the point's coordinates are in their range.
    T::known(point);
    fits::<T::Distance>();
    let mut heap: Parents<'a, T, E> = SmallHeap::new(*root.children.allocator());
    open(&mut heap, best, &root.children, point, most)?;
    while let Some(current) = heap.pop() {
        if rules_out(best.bound, current.distance) {
            // The others that wait are no nearer.
            return Ok(());
        }
        open(&mut heap, best, &current.node.children, point, most)?;
    }
    Ok(())
}

/// The elements of a list, with their distances.
fn lent<'a, T, S: Copy, E>(found: &Vec<Waiting<&'a T, S, E>>) -> Result<Vec<(&'a T, S)>, AllocError>
    ensures { IfOk result (λ all. all.items ≡ map (λ w. (w.node, w.distance)) found.now.items) }
{
    let mut all = Vec::with_capacity(*found.allocator(), found.len())?;
    for one in found {
        all.push((one.node, one.distance))?;
    }
    Ok(all)
}

/// Whether a distance lies above the bound.
#[inline(always)]
fn rules_out<S: SquaredDistance>(bound: Option<S>, distance: S) -> bool
    ensures above { result ≡ true → (m : ℕ) → S.number distance ≡ pos m → IsAbove S.number bound m }
    ensures within { result ≡ false → (m : ℕ) → S.number distance ≡ pos m → IsAbove S.number bound m → ⊥ }
{
    match bound {
        Some(limit) => !distance.is_within(limit),
        None => false,
    }
}

/// Visits nodes: parents are queued and elements are kept, unless they are ruled out.
fn open<'a, T: Measured, E: TieOrder<T>>(
    heap: &mut Parents<'a, T, E>,
    best: &mut Best<'a, T, T::Distance, E>,
    children: &'a [RTreeNode<T>],
    point: &T::Place,
    most: usize,
) -> Result<(), AllocError>
    requires point { T.Cover.is_point (T.at point.now) }
    requires ordered { IsOrdered (nearest_on_top T.Distance.cmp any_first) heap.old }
    requires best { IsBest T.Distance.cmp E.order T.Distance.number most best.old }
    ensures order { StaysInOrder T.Distance.cmp E.order best.old heap.new best.new }
    ensures visits { OnOk result (Visits T.Distance.cmp E.order T.Distance.number most T.Cover.boxes T.object T.distances
        (T.at point.now) children.now heap.old best.old heap.new best.new) }
    ensures refused { is_one best.old.kept ≡ true
        → OnErr result (32 < all_parents (waiting_parents (items_of heap.old)) + all_parents children.now) }
{
    for child in children {
        offer(heap, best, child, point, most)?;
    }
    Ok(())
}

/// Visits one node.
fn offer<'a, T: Measured, E: TieOrder<T>>(
    heap: &mut Parents<'a, T, E>,
    best: &mut Best<'a, T, T::Distance, E>,
    node: &'a RTreeNode<T>,
    point: &T::Place,
    most: usize,
) -> Result<(), AllocError>
    requires point { T.Cover.is_point (T.at point.now) }
    requires ordered { IsOrdered (nearest_on_top T.Distance.cmp any_first) heap.old }
    requires best { IsBest T.Distance.cmp E.order T.Distance.number most best.old }
    ensures order { StaysInOrder T.Distance.cmp E.order best.old heap.new best.new }
    ensures visits { OnOk result (Visits T.Distance.cmp E.order T.Distance.number most T.Cover.boxes T.object T.distances
        (T.at point.now) (node.now ∷ []) heap.old best.old heap.new best.new) }
    ensures refused { is_one best.old.kept ≡ true
        → OnErr result (32 < all_parents (waiting_parents (items_of heap.old)) + all_parents (node.now ∷ [])) }
{
    let Some(distance) = distance_within(node, point, best.bound) else {
        return Ok(());
    };
    match node {
        RTreeNode::Leaf(t) => take_in(
            best,
            most,
            Waiting {
                node: t,
                distance,
                ties: PhantomData,
            },
        ),
        RTreeNode::Parent(parent) => {
            best.bound = bound_with(best, &parent.envelope, point);
            match heap.push(Waiting {
                node: parent,
                distance,
                ties: PhantomData,
            }) {
                Ok(()) => Ok(()),
                Err(_refused) => Err(AllocError),
            }
        }
    }
}

/// The distance at which a node is queued, where it is at most the bound.
#[tactic(auto, unfolding(crate::specs::Nodes::node_distance, crate::specs::Nodes::fold_tree))]
#[inline(always)]
fn distance_within<T: Measured>(
    node: &RTreeNode<T>,
    point: &T::Place,
    bound: Option<T::Distance>,
) -> Option<T::Distance>
    ensures at { IfSome result
        (λ d. T.Distance.number d ≡ pos (distance_of T.Cover.boxes T.distances (T.at point.now) node.now)) }
    ensures within { IfSome result (λ d. IfSome bound (λ b. T.Distance.number d ≤ℤ T.Distance.number b)) }
    ensures above { IfNone result
        (IsAbove T.Distance.number bound (distance_of T.Cover.boxes T.distances (T.at point.now) node.now)) }
{
    let Some(limit) = bound else {
        return Some(distance_to(node, point));
    };
    match node {
        RTreeNode::Leaf(t) => t.distance_2_if_less_or_equal(point, limit),
        RTreeNode::Parent(parent) => {
            let distance = T::cover_distance_2(&parent.envelope, point);
            distance.is_within(limit).then_some(distance)
        }
    }
}

/// The bound where a parent with this envelope waits: of a search for one at most its MINMAXDIST.
#[inline(always)]
fn bound_with<'a, T: Measured, E>(
    best: &Best<'a, T, T::Distance, E>,
    envelope: &T::Cover,
    point: &T::Place,
) -> Option<T::Distance>
    ensures lowered { IsLowered T.Distance.number (T.Cover.boxes.min_max_dist_2 envelope.now (T.at point.now))
        best.now.bound result }
    ensures kept { (most : ℕ) → IsKept T.Distance.number most best.now.bound best.now.kept → IsKept T.Distance.number
        most result best.now.kept }
{
    match &best.kept {
        Kept::Few(_) => best.bound,
        Kept::One(_) => {
            let reach = T::cover_min_max_dist_2(envelope, point);
            match best.bound {
                Some(limit) => Some(limit.lesser(reach)),
                None => Some(reach),
            }
        }
    }
}

/// Keeps an element where it is one of the first, and lowers the bound to the last of as many as asked for.
#[inline(always)]
fn take_in<'a, T, S: SquaredDistance, E: TieOrder<T>>(
    best: &mut Best<'a, T, S, E>,
    most: usize,
    item: Waiting<&'a T, S, E>,
) -> Result<(), AllocError>
    requires best { IsBest S.cmp E.order S.number most best.old }
    requires within { IfSome best.old.bound (λ b. S.number item.distance ≤ℤ S.number b) }
    ensures falls { Rises (flip_args (nearest_on_top S.cmp E.order)) (kept_in best.new.kept) }
    ensures same { is_one best.new.kept ≡ is_one best.old.kept }
    ensures takes { OnOk result (TakesIn S.cmp E.order S.number most item.entry best.old best.new) }
    ensures one { is_one best.old.kept ≡ true → IsOk result }
{
    match &mut best.kept {
        Kept::One(found) => {
            best.bound = Some(item.distance);
            keep_one(found, item);
        }
        Kept::Few(found) => {
            best.bound = keep_few(found, most, item)?;
        }
    }
    Ok(())
}

/// Inserts an element into a sorted list, as `keep` does. Returns the distance of the last of a full list.
#[inline(always)]
fn keep_few<'a, T, S: SquaredDistance, E: TieOrder<T>>(
    found: &mut Vec<Waiting<&'a T, S, E>>,
    most: usize,
    item: Waiting<&'a T, S, E>,
) -> Result<Option<S>, AllocError>
    requires { Rises (flip_args (nearest_on_top S.cmp E.order)) found.old.items }
    ensures falls { Rises (flip_args (nearest_on_top S.cmp E.order)) found.new.items }
    ensures kept { OnOk result (KeepsGreatest (nearest_on_top S.cmp E.order) most item.entry found.old.items
        found.new.items) }
    ensures last { IfOk result (λ r. IfSome r (IsFarthest S.number most found.new.items)) }
    ensures none { IfOk result (λ r. IfNone r (most ≤ length found.new.items → found.new.items ≡ [])) }
{
    keep(found, most, item)?;
    Ok(last_of(found, most))
}

/// The distance of the last of as many elements as asked for.
fn last_of<'a, T, S: SquaredDistance, E: TieOrder<T>>(
    found: &[Waiting<&'a T, S, E>],
    most: usize,
) -> Option<S>
    requires { Rises (flip_args (nearest_on_top S.cmp E.order)) found.now }
    ensures last { IfSome result (IsFarthest S.number most found.now) }
    ensures none { IfNone result (most ≤ length found.now → found.now ≡ []) }
{
    if found.len() < most {
        return None;
    }
    match found.last() {
        Some(last) => Some(last.distance),
        None => None,
    }
}

/// Keeps the greater of two items, the first where they are equal.
fn keep_one<X: Ord + Drop>(found: &mut Option<X>, item: X)
    ensures { KeepsGreatest X.cmp 1 item (option_to_list found.old) (option_to_list found.new) }
{
    if is_greatest(found, &item) {
        *found = Some(item);
    }
}

/// Whether an item is greater than the one that was found, if any.
fn is_greatest<X: Ord>(found: &Option<X>, item: &X) -> bool
    ensures { MatchOption found.now (result ≡ true) (λ x. result ≡ is_lt (X.cmp x item.now)) }
{
    match found {
        Some(first) => first.cmp(item).is_lt(),
        None => true,
    }
}

/// Inserts an item into a sorted list of at most `most` items, the greatest first. A full list drops its
/// last item, or the new one where that is not greater.
fn keep<X: Ord + Drop>(found: &mut Vec<X>, most: usize, item: X) -> Result<(), AllocError>
    requires { Rises (flip_args X.cmp) found.old.items }
    ensures falls { Rises (flip_args X.cmp) found.new.items }
    ensures kept { OnOk result (KeepsGreatest X.cmp most item found.old.items found.new.items) }
{
    if found.len() < most {
        return put(found, item);
    }
    if !is_behind(found, &item) {
        return Ok(());
    }
    found.pop();
    put(found, item)
}

/// Inserts an item into a sorted list, the greatest first.
fn put<X: Ord + Drop>(found: &mut Vec<X>, item: X) -> Result<(), AllocError>
    ensures falls { Rises (flip_args X.cmp) found.old.items → Rises (flip_args X.cmp) found.new.items }
    ensures put { OnOk result ((place : ℕ) × (found.new.items ≡ insert found.old.items place item)) }
{
    let at = place_of(found, &item);
    match found.insert(at, item) {
        Ok(()) => Ok(()),
        Err(_refused) => Err(AllocError),
    }
}

/// Whether the last item of a list is less than an item.
fn is_behind<X: Ord>(items: &[X], item: &X) -> bool
    ensures last { (front : List X) (last : X) → items.now ≡ front ++ last ∷ [] → result ≡ is_lt (X.cmp last item.now) }
    ensures none { items.now ≡ [] → result ≡ false }
{
    match items.last() {
        Some(last) => last.cmp(item).is_lt(),
        None => false,
    }
}

/// The place of a new item in a sorted list, the greatest first: behind the items that are not less.
fn place_of<X: Ord>(items: &[X], item: &X) -> usize
    ensures bound { result ≤ length items.now }
    ensures falls { Rises (flip_args X.cmp) items.now → Rises (flip_args X.cmp) (insert items.now result item.now) }
{
    let mut at = items.len();
    while 0 < at && items[at - 1].cmp(item).is_lt() {
        at -= 1;
    }
    at
}
