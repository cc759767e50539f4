//! A geofence service: fences are added and removed, and a point is asked for the fences that contain it.
//!
//! The tree stands inside a struct that keeps it whole, so callers know of a list of fences alone. Functions
//! over the tree are generic: each is proved once for all elements.

ghost use Rattle.std.specs.Prelude.{◌≡◌, ◌∷◌, ◌↔◌, [], true, false, length, map, filter, IsTrue, IfOk, IfErr, OnOk, OnErr};
ghost use Rattle.std.specs.List.{Contains};
ghost use Rattle.std.specs.List.Sorted.{IsPermutation};
ghost use Rattle.rstar.specs.Boxes.{box_of_corners, is_empty_box};
ghost use Rattle.rstar.specs.Lists.{NoneSelected};
ghost use Rattle.rstar.specs.Points.{table};
ghost use Rattle.rstar.specs.Segments.{coordinate};
ghost use Rattle.rstar.specs.Trees.{elements_in, IsWholeTree};
ghost use Rattle.rstar_uses.specs.Numbered.{box_of, count_and_sum, covers, fence_of, lies_in};

use rstar::object::PointOf;
use rstar::point::Point;
use rstar::primitives::{GeomWithData, Rectangle};
use rstar::{
    AABB, DefaultParams, Envelope, EqualEnvelopes, InsertError, PointDistance, RTree, RTreeObject,
    RTreeParams,
};
use std::alloc::{AllocError, Global};
use std::marker::Model;

/// A rectangle with the number of the fence.
pub type Fence = GeomWithData<Rectangle<[i64; 2]>, u64>;

/// The fence between two opposite corners, in any order, with a number.
pub fn fence(number: u64, one: [i64; 2], other: [i64; 2]) -> Fence
    ensures is { result ≡ fence_of number one other }
    ensures corners { box_of result ≡ box_of_corners 2 (coordinate one) (coordinate other) }
    ensures filled { is_empty_box (box_of result) ≡ false }
{
    Fence::new(Rectangle::from_corners(one, other), number)
}

/// Fences, in a tree. Equal ones each count.
#[derive(Drop)]
pub struct Fences {
    tree: RTree<Fence>,
}

// Contracts see the list of the fences, in no order that is told. The tree is whole.
impl Model for Fences {
    ghost use Rattle.std.specs.Prelude.{List};
    ghost use Rattle.rstar.specs.Trees.{elements_in, IsWholeTree};
    ghost use Rattle.rstar_uses.specs.Numbered.{Numbered};

    ghost Value = { List Numbered };

    ghost view = { λ s. elements_in s.tree };

    ghost invariant = { λ s. IsWholeTree ⟦<AABB<[i64; 2]> as Envelope>⟧.boxes ⟦<Fence as RTreeObject>⟧.object
        ⟦<DefaultParams as RTreeParams>⟧.MAX_SIZE s.tree };
}

impl Fences {
    /// No fence. It takes no memory.
    pub fn new(alloc: Global) -> Fences
        ensures { result ≡ [] }
    {
        Fences {
            tree: RTree::new(alloc),
        }
    }

    /// Adds a fence. A refusal hands it back and leaves the fences as they were.
    pub fn add(&mut self, fence: Fence) -> Result<(), InsertError<Fence>>
        requires filled { is_empty_box (box_of fence) ≡ false }
        ensures added { OnOk result (IsPermutation (fence ∷ self.old) self.new) }
        ensures handed_back { IfErr result (λ refused. refused.element ≡ fence) }
        ensures unchanged { OnErr result (self.new ≡ self.old) }
    {
        self.tree.insert(fence)
    }

    /// Removes one fence that equals this one. Whether there was one. It takes no memory.
    pub fn remove(&mut self, fence: &Fence) -> bool
        ensures there { IsTrue result ↔ Contains self.old fence.now }
        ensures gone { result ≡ true → IsPermutation self.old (fence.now ∷ self.new) }
        ensures unchanged { result ≡ false → self.new ≡ self.old }
    {
        taken_out(&mut self.tree, fence)
    }

    /// The fences that contain a point, in some order. Borders belong to a fence. Memory may be refused.
    pub fn at(&self, alloc: Global, point: [i64; 2]) -> Result<Vec<&Fence>, AllocError>
        ensures { IfOk result (λ found. IsPermutation (filter (covers point) self.now)
            (map (λ fence. fence.now) found.items)) }
    {
        all_at(alloc, &self.tree, point)
    }

    /// The number of fences.
    pub fn len(&self) -> usize
        ensures { result ≡ length self.now }
    {
        self.tree.size()
    }

    /// The number of fences inside a box, and the sum of their numbers, both clamped to the greatest `u64`.
    /// Memory may be refused.
    pub fn count_and_sum_in(&self, area: AABB<[i64; 2]>) -> Result<(usize, u64), AllocError>
        ensures { IfOk result (λ told. told ≡ count_and_sum (filter (lies_in area) self.now)) }
    {
        count_and_sum(&self.tree, area)
    }
}

/// Removes one element that equals this one. Whether there was one.
pub(crate) fn taken_out<T: EqualEnvelopes>(tree: &mut RTree<T>, element: &T) -> bool
    requires { IsWholeTree T.Envelope.boxes T.object ⟦<DefaultParams as RTreeParams>⟧.MAX_SIZE tree.old }
    ensures taken { result ≡ true → (t : T) × (T.eq t element.now ≡ true)
        × IsPermutation (elements_in tree.old) (t ∷ elements_in tree.new) }
    ensures none { result ≡ false → NoneSelected (λ t. T.eq t element.now) (elements_in tree.old) }
    ensures unchanged { result ≡ false → elements_in tree.new ≡ elements_in tree.old }
    ensures whole { IsWholeTree T.Envelope.boxes T.object ⟦<DefaultParams as RTreeParams>⟧.MAX_SIZE tree.new }
{
    match tree.remove(element) {
        Some(_) => true,
        None => false,
    }
}

/// The elements of a tree that contain a point.
fn all_at<'a, T: PointDistance>(
    alloc: Global,
    tree: &'a RTree<T>,
    point: PointOf<T>,
) -> Result<Vec<&'a T>, AllocError>
    requires { IsWholeTree T.Envelope.boxes T.object ⟦<DefaultParams as RTreeParams>⟧.MAX_SIZE tree.now }
    ensures { IfOk result (λ found. map (λ t. t.now) found.items ≡ filter
        (λ t. T.distances.contains_point t (table T.Envelope.Point.DIMENSIONS (T.Envelope.Point.coord point)))
        (elements_in tree.now)) }
{
    match tree.locate_all_at_point(point) {
        Ok(walk) => walk.collect(alloc),
        Err(refused) => Err(refused),
    }
}

/// The number of elements inside an envelope, and the sum of their numbers, both clamped to the greatest `u64`.
fn count_and_sum<R: RTreeObject>(
    tree: &RTree<GeomWithData<R, u64>>,
    envelope: R::Envelope,
) -> Result<(usize, u64), AllocError>
    requires { IsWholeTree R.Envelope.boxes ⟦<GeomWithData<R, u64> as RTreeObject>⟧.object
        ⟦<DefaultParams as RTreeParams>⟧.MAX_SIZE tree.now }
    ensures { IfOk result (λ told. told ≡ count_and_sum
        (filter (λ t. R.Envelope.boxes.contains envelope (R.object.box_of t.0)) (elements_in tree.now))) }
{
    // In the place of a `?`, which the check pays for in each statement that has a walk in hand.
    let Ok(mut found) = tree.locate_in_envelope(envelope) else {
        return Err(AllocError);
    };
    let mut count = 0usize;
    let mut sum = 0u64;
    while let Some(element) = found.next() {
        count = count.saturating_add(1);
        sum = sum.saturating_add(element.data);
    }
    Ok((count, sum))
}

/// Whether fences with these numbers were found, in this order.
#[cfg(test)]
pub(crate) fn have_numbers(found: Result<Vec<&Fence>, AllocError>, numbers: &[u64]) -> bool {
    match &found {
        Ok(all) => all.iter().map(|one| one.data).eq(numbers.iter().copied()),
        Err(_) => false,
    }
}

#[cfg(test)]
mod tests {
    use super::*;

    /// A fence's number and two corners.
    type Row = (u64, [i64; 2], [i64; 2]);

    /// Two corners of a box, the count of the fences in it and the sum of their numbers; a point, and which
    /// fences contain it, before and after the first is removed.
    type Told = (
        [i64; 2],
        [i64; 2],
        (usize, u64),
        [i64; 2],
        &'static [u64],
        &'static [u64],
    );

    /// Whether these fences answer so.
    fn tell(alloc: Global, list: &[Row], told: &Told) -> bool {
        let (one, other, inside, point, before, after) = *told;
        let mut fences = Fences::new(alloc);
        let mut is_so = true;
        for &(number, one, other) in list {
            is_so &= fences.add(fence(number, one, other)).is_ok();
        }
        is_so &= (fences.len() == list.len())
            & (fences.count_and_sum_in(AABB::from_corners(one, other)) == Ok(inside))
            & have_numbers(fences.at(alloc, point), before);
        if let Some(first) = list.first() {
            let (number, one, other) = *first;
            is_so &= fences.remove(&fence(number, other, one))
                & have_numbers(fences.at(alloc, point), after);
        }
        is_so
    }

    // Equal rectangles with equal numbers count twice, and one of them is taken down. Corners come in any order, and borders
    // belong to a fence.
    #[test]
    fn fences_in_boxes_and_at_points(rt: HostRuntime) {
        const TWICE: [Row; 2] = [(7, [0, 0], [2, 2]), (7, [2, 2], [0, 0])];
        const THREE: [Row; 3] = [
            (7, [0, 0], [2, 2]),
            (8, [5, 5], [9, 9]),
            (9, [5, 5], [9, 10]),
        ];
        const ROWS: [(&'static [Row], Told); 5] = [
            (&[], ([5, 5], [4, 4], (0, 0), [5, 5], &[], &[])),
            (&TWICE, ([0, 0], [2, 2], (2, 14), [2, 2], &[7, 7], &[7])),
            (&TWICE, ([0, 0], [2, 1], (0, 0), [3, 2], &[], &[])),
            (&THREE, ([0, 0], [9, 9], (2, 15), [5, 9], &[8, 9], &[8, 9])),
            (&THREE, ([9, 10], [3, 3], (2, 17), [1, 0], &[7], &[])),
        ];
        for (list, told) in &ROWS {
            assert!(rt; tell(rt.alloc(), list, told));
        }
    }
}
