//! Callers of each selection, look-up and payload borrow: at points, at rectangles with a number, or at any
//! type.

ghost use Rattle.std.specs.Prelude.{◌≡◌, min, map, filter, true, pos, int_le, IfOk, IsTrue, not};
ghost use Rattle.std.specs.List.{list_any};
ghost use Rattle.rstar.specs.Nodes.{reach_of};
ghost use Rattle.rstar.specs.Points.{table};
ghost use Rattle.rstar.specs.Selections.{to_come, reach_by, IsWalking};
ghost use Rattle.rstar.specs.Trees.{root_of, elements_in, IsWholeTree};
ghost use Rattle.rstar.specs.Visits.{IsOneOf};
ghost use Rattle.rstar_vectors.specs.Callers.{IsRenumbered};

use crate::scenarios::{Fence, drained};
use rstar::algorithm::selection_functions::{SelectEqualsFunction, SelectionFunction};
use rstar::iterators::SelectionIterator;
use rstar::object::{Distance, PointOf};
use rstar::point::Point;
use rstar::primitives::GeomWithData;
use rstar::{
    AABB, DefaultParams, Envelope, EqualEnvelopes, PointDistance, RTree, RTreeObject, RTreeParams,
};
use std::alloc::{AllocError, Global};

/// Elements, and the number of parents visited.
pub type Walked<'a, T> = (Vec<&'a T>, usize);

/// All elements of a selection iterator, and the number of parents it has visited at its end.
pub fn walked<'a, T: RTreeObject, Func: SelectionFunction<T>>(
    alloc: Global,
    mut walk: SelectionIterator<'a, T, Func>,
) -> Result<Walked<'a, T>, AllocError>
    requires { IsWalking Func.accepts walk }
    ensures given { IfOk result (λ r. map (λ t. t.now) r.0.items ≡ to_come Func.accepts Func.selects walk.entry) }
    ensures opened { IfOk result (λ r. r.1 ≡ min (reach_by Func.accepts walk.entry) usize.MAX) }
{
    match drained(alloc, &mut walk) {
        Ok(all) => Ok((all, walk.opened())),
        Err(refused) => Err(refused),
    }
}

/// All elements, by `iter`.
pub(crate) fn all_of<'a, T: RTreeObject>(
    alloc: Global,
    tree: &'a RTree<T>,
) -> Result<Walked<'a, T>, AllocError>
    requires { IsWholeTree T.Envelope.boxes T.object ⟦<DefaultParams as RTreeParams>⟧.MAX_SIZE tree.now }
    ensures given { IfOk result (λ r. map (λ t. t.now) r.0.items ≡ elements_in tree.now) }
    ensures opened { IfOk result (λ r. r.1 ≡ min (reach_of (λ e. true) (root_of tree.now)) usize.MAX) }
{
    match tree.iter() {
        Ok(walk) => walked(alloc, walk),
        Err(refused) => Err(refused),
    }
}

/// The elements in an envelope, by `locate_in_envelope`.
pub(crate) fn inside<'a, T: RTreeObject>(
    alloc: Global,
    tree: &'a RTree<T>,
    area: T::Envelope,
) -> Result<Walked<'a, T>, AllocError>
    requires { IsWholeTree T.Envelope.boxes T.object ⟦<DefaultParams as RTreeParams>⟧.MAX_SIZE tree.now }
    ensures given { IfOk result (λ r. map (λ t. t.now) r.0.items ≡ filter
        (λ t. T.Envelope.boxes.contains area (T.object.box_of t)) (elements_in tree.now)) }
    ensures opened { IfOk result (λ r. r.1 ≡ min (reach_of (λ e. T.Envelope.boxes.intersects area e) (root_of tree.now)) usize.MAX) }
{
    match tree.locate_in_envelope(area) {
        Ok(walk) => walked(alloc, walk),
        Err(refused) => Err(refused),
    }
}

/// The elements within a squared distance of a point, by `locate_within_distance`.
fn near<'a, T: PointDistance>(
    alloc: Global,
    tree: &'a RTree<T>,
    point: PointOf<T>,
    limit: Distance<T>,
) -> Result<Walked<'a, T>, AllocError>
    requires { IsWholeTree T.Envelope.boxes T.object ⟦<DefaultParams as RTreeParams>⟧.MAX_SIZE tree.now }
    ensures given { IfOk result (λ r. map (λ t. t.now) r.0.items ≡ filter
        (λ t. int_le (pos (T.distances.distance_2 t (table T.Envelope.Point.DIMENSIONS
        (T.Envelope.Point.coord point)))) (T.Envelope.Point.Scalar.value limit)) (elements_in tree.now)) }
    ensures opened { IfOk result (λ r. r.1 ≡ min (reach_of (λ e. int_le
        (pos (T.Envelope.boxes.distance_2 e (table T.Envelope.Point.DIMENSIONS (T.Envelope.Point.coord point))))
        (T.Envelope.Point.Scalar.value limit)) (root_of tree.now)) usize.MAX) }
{
    match tree.locate_within_distance(point, limit) {
        Ok(walk) => walked(alloc, walk),
        Err(refused) => Err(refused),
    }
}

/// The elements that an envelope intersects, by `locate_in_envelope_intersecting`.
fn touched<'a, T: RTreeObject>(
    alloc: Global,
    tree: &'a RTree<T>,
    area: T::Envelope,
) -> Result<Walked<'a, T>, AllocError>
    requires { IsWholeTree T.Envelope.boxes T.object ⟦<DefaultParams as RTreeParams>⟧.MAX_SIZE tree.now }
    ensures given { IfOk result (λ r. map (λ t. t.now) r.0.items ≡ filter
        (λ t. T.Envelope.boxes.intersects area (T.object.box_of t)) (elements_in tree.now)) }
    ensures opened { IfOk result (λ r. r.1 ≡ min (reach_of (λ e. T.Envelope.boxes.intersects area e) (root_of tree.now)) usize.MAX) }
{
    match tree.locate_in_envelope_intersecting(area) {
        Ok(walk) => walked(alloc, walk),
        Err(refused) => Err(refused),
    }
}

/// The elements that contain a point, by `locate_all_at_point`.
fn here<'a, T: PointDistance>(
    alloc: Global,
    tree: &'a RTree<T>,
    point: PointOf<T>,
) -> Result<Walked<'a, T>, AllocError>
    requires { IsWholeTree T.Envelope.boxes T.object ⟦<DefaultParams as RTreeParams>⟧.MAX_SIZE tree.now }
    ensures given { IfOk result (λ r. map (λ t. t.now) r.0.items ≡ filter
        (λ t. T.distances.contains_point t (table T.Envelope.Point.DIMENSIONS (T.Envelope.Point.coord point)))
        (elements_in tree.now)) }
    ensures opened { IfOk result (λ r. r.1 ≡ min (reach_of (λ e. T.Envelope.boxes.contains_point e
        (table T.Envelope.Point.DIMENSIONS (T.Envelope.Point.coord point))) (root_of tree.now)) usize.MAX) }
{
    match tree.locate_all_at_point(point) {
        Ok(walk) => walked(alloc, walk),
        Err(refused) => Err(refused),
    }
}

/// An envelope, a point, and a squared distance.
pub(crate) type Asked<T> = (<T as RTreeObject>::Envelope, PointOf<T>, Distance<T>);

/// The answer to one of five questions: all elements, those inside an envelope, those that intersect it,
/// those that contain a point, and those within a distance of it.
pub(crate) fn selected<'a, T: PointDistance>(
    alloc: Global,
    tree: &'a RTree<T>,
    question: usize,
    asked: &Asked<T>,
) -> Result<Walked<'a, T>, AllocError>
where
    T::Envelope: Copy,
    PointOf<T>: Copy,
    requires { IsWholeTree T.Envelope.boxes T.object ⟦<DefaultParams as RTreeParams>⟧.MAX_SIZE tree.now }
{
    match question {
        0 => all_of(alloc, tree),
        1 => inside(alloc, tree, asked.0),
        2 => touched(alloc, tree, asked.0),
        3 => here(alloc, tree, asked.1),
        _ => near(alloc, tree, asked.1, asked.2),
    }
}

/// The elements that equal one, by `locate_with_selection_function` with a `SelectEqualsFunction`.
fn equal<'a, T: EqualEnvelopes>(
    alloc: Global,
    tree: &'a RTree<T>,
    wanted: &T,
) -> Result<Walked<'a, T>, AllocError>
    requires { IsWholeTree T.Envelope.boxes T.object ⟦<DefaultParams as RTreeParams>⟧.MAX_SIZE tree.now }
    ensures given { IfOk result (λ r. map (λ t. t.now) r.0.items ≡ filter
        (λ t. T.eq t wanted.now) (elements_in tree.now)) }
    ensures opened { IfOk result (λ r. r.1 ≡ min (reach_of (λ e. T.Envelope.boxes.contains e (T.object.box_of wanted.now)) (root_of tree.now)) usize.MAX) }
{
    let func = SelectEqualsFunction::new(wanted);
    match tree.locate_with_selection_function(func) {
        Ok(walk) => walked(alloc, walk),
        Err(refused) => Err(refused),
    }
}

/// An element that contains a point, by `locate_at_point`, and one that contains another, by `locate_at_point_int`.
pub fn either_at<T: PointDistance>(
    tree: &RTree<T>,
    one: PointOf<T>,
    other: PointOf<T>,
) -> (Option<&T>, Option<&T>)
    requires { IsWholeTree T.Envelope.boxes T.object ⟦<DefaultParams as RTreeParams>⟧.MAX_SIZE tree.now }
    ensures one { IsOneOf (filter (λ t. T.distances.contains_point t
        (table T.Envelope.Point.DIMENSIONS (T.Envelope.Point.coord one))) (elements_in tree.now)) result.0 }
    ensures other { IsOneOf (filter (λ t. T.distances.contains_point t
        (table T.Envelope.Point.DIMENSIONS (T.Envelope.Point.coord other))) (elements_in tree.now)) result.1 }
{
    (tree.locate_at_point(one), tree.locate_at_point_int(other))
}

/// Writes a number into an element that contains a point. Whether there is one.
pub fn renumber<R: PointDistance>(
    tree: &mut RTree<GeomWithData<R, u64>>,
    point: PointOf<R>,
    number: u64,
) -> bool
    requires { IsWholeTree R.Envelope.boxes ⟦<GeomWithData<R, u64> as RTreeObject>⟧.object
        ⟦<DefaultParams as RTreeParams>⟧.MAX_SIZE tree.old }
    ensures found { result ≡ list_any (λ t. ⟦<GeomWithData<R, u64> as PointDistance>⟧.distances.contains_point t
        (table R.Envelope.Point.DIMENSIONS (R.Envelope.Point.coord point))) (elements_in tree.old) }
    ensures written { IsTrue result → IsRenumbered
        (λ t. ⟦<GeomWithData<R, u64> as PointDistance>⟧.distances.contains_point t
        (table R.Envelope.Point.DIMENSIONS (R.Envelope.Point.coord point))) number tree.old tree.new }
    ensures unchanged { IsTrue (not result) → tree.new ≡ tree.old }
    ensures whole { IsWholeTree R.Envelope.boxes ⟦<GeomWithData<R, u64> as RTreeObject>⟧.object
        ⟦<DefaultParams as RTreeParams>⟧.MAX_SIZE tree.new }
{
    match tree.locate_at_point_mut(point) {
        Some(lent) => {
            *lent = number;
            true
        }
        None => false,
    }
}

/// The same, by `locate_at_point_int_mut`.
pub fn renumber_int<R: PointDistance>(
    tree: &mut RTree<GeomWithData<R, u64>>,
    point: PointOf<R>,
    number: u64,
) -> bool
    requires { IsWholeTree R.Envelope.boxes ⟦<GeomWithData<R, u64> as RTreeObject>⟧.object
        ⟦<DefaultParams as RTreeParams>⟧.MAX_SIZE tree.old }
    ensures found { result ≡ list_any (λ t. ⟦<GeomWithData<R, u64> as PointDistance>⟧.distances.contains_point t
        (table R.Envelope.Point.DIMENSIONS (R.Envelope.Point.coord point))) (elements_in tree.old) }
    ensures written { IsTrue result → IsRenumbered
        (λ t. ⟦<GeomWithData<R, u64> as PointDistance>⟧.distances.contains_point t
        (table R.Envelope.Point.DIMENSIONS (R.Envelope.Point.coord point))) number tree.old tree.new }
    ensures unchanged { IsTrue (not result) → tree.new ≡ tree.old }
    ensures whole { IsWholeTree R.Envelope.boxes ⟦<GeomWithData<R, u64> as RTreeObject>⟧.object
        ⟦<DefaultParams as RTreeParams>⟧.MAX_SIZE tree.new }
{
    match tree.locate_at_point_int_mut(point) {
        Some(lent) => {
            *lent = number;
            true
        }
        None => false,
    }
}

/// Writes a number into a fence that contains a point. Whether there is one.
pub fn renumber_fence(tree: &mut RTree<Fence>, point: [i64; 2], number: u64) -> bool
    requires { IsWholeTree ⟦<AABB<[i64; 2]> as Envelope>⟧.boxes ⟦<Fence as RTreeObject>⟧.object
        ⟦<DefaultParams as RTreeParams>⟧.MAX_SIZE tree.old }
    ensures found { result ≡ list_any (λ t. ⟦<Fence as PointDistance>⟧.distances.contains_point t
        (table 2 (⟦<[i64; 2] as Point>⟧.coord point))) (elements_in tree.old) }
    ensures written { IsTrue result → IsRenumbered (λ t. ⟦<Fence as PointDistance>⟧.distances.contains_point t
        (table 2 (⟦<[i64; 2] as Point>⟧.coord point))) number tree.old tree.new }
    ensures unchanged { IsTrue (not result) → tree.new ≡ tree.old }
    ensures whole { IsWholeTree ⟦<AABB<[i64; 2]> as Envelope>⟧.boxes ⟦<Fence as RTreeObject>⟧.object
        ⟦<DefaultParams as RTreeParams>⟧.MAX_SIZE tree.new }
{
    renumber(tree, point, number)
}

#[cfg(test)]
mod tests {
    use super::*;
    use crate::scenarios::{fences, inserted, let_go};

    /// Whether an element that contains a point has this number, by both look-ups.
    fn carries<R: PointDistance>(
        tree: &RTree<GeomWithData<R, u64>>,
        point: PointOf<R>,
        number: u64,
    ) -> bool
    where
        PointOf<R>: Copy,
        requires { IsWholeTree R.Envelope.boxes ⟦<GeomWithData<R, u64> as RTreeObject>⟧.object
            ⟦<DefaultParams as RTreeParams>⟧.MAX_SIZE tree.now }
    {
        match either_at(tree, point, point) {
            (Some(one), Some(other)) => one.data == number && other.data == number,
            _ => false,
        }
    }

    /// Whether a tree has as many elements as a list, and this many of the list's are there.
    fn gives_of<T: EqualEnvelopes>(
        alloc: Global,
        tree: &RTree<T>,
        elements: &[T],
        count: usize,
    ) -> bool
        requires { IsWholeTree T.Envelope.boxes T.object ⟦<DefaultParams as RTreeParams>⟧.MAX_SIZE tree.now }
    {
        let mut there = 0usize;
        for element in elements {
            match &equal(alloc, tree, element) {
                Ok((same, _)) => there = there.saturating_add(usize::from(!same.is_empty())),
                Err(_) => return false,
            }
        }
        tree.size() == elements.len() && there == count
    }

    /// Whether writes at a point, by both look-ups, change one element where one contains the point, and
    /// none elsewhere. The result is read at another point, where an element has the number `number` at
    /// first.
    fn writes<R: PointDistance + EqualEnvelopes + Copy>(
        alloc: Global,
        elements: &[GeomWithData<R, u64>],
        point: PointOf<R>,
        other: PointOf<R>,
        number: u64,
        is_inside: bool,
    ) -> bool
    where
        PointOf<R>: Copy,
    {
        let mut tree = inserted::<GeomWithData<R, u64>, DefaultParams>(alloc, elements);
        let (one, two) = if is_inside {
            (9, 1000)
        } else {
            (number, number)
        };
        let left = elements.len().saturating_sub(usize::from(is_inside));
        let is_so = gives_of(alloc, &tree, elements, elements.len())
            & carries(&tree, other, number)
            & (renumber(&mut tree, point, 9) == is_inside)
            & carries(&tree, other, one)
            & gives_of(alloc, &tree, elements, left)
            & (renumber_int(&mut tree, point, 1000) == is_inside)
            & carries(&tree, other, two);
        let_go(tree);
        is_so
    }

    /// The number that is lent to write at a point.
    fn lent_at<R: PointDistance + Copy>(
        alloc: Global,
        elements: &[GeomWithData<R, u64>],
        point: PointOf<R>,
    ) -> Option<u64> {
        let mut tree = inserted::<GeomWithData<R, u64>, DefaultParams>(alloc, elements);
        let number = match tree.locate_at_point_mut(point) {
            Some(lent) => Some(*lent),
            None => None,
        };
        let_go(tree);
        number
    }

    // How many fences, their side, and the first one's number; a point where it is written, one where it is read, the
    // number there before, and whether a fence contains the first point: inside it, its border included, and outside.
    #[test]
    fn a_number_is_written_where_a_fence_contains_the_point(rt: HostRuntime) {
        const ROWS: [((u8, u8, u8), [i64; 2], [i64; 2], u64, bool); 4] = [
            ((1, 2, 7), [1, 1], [1, 1], 7, true),
            ((1, 2, 7), [3, 3], [1, 1], 7, false),
            ((1, 2, 7), [2, 2], [0, 0], 7, true),
            ((100, 9, 0), [57, 31], [50, 39], 35, true),
        ];
        for row in 0..ROWS.len() {
            let &((count, side, first), point, other, number, is_inside) = &ROWS[row];
            let fences = fences(rt.alloc(), count, side, first);
            assert!(rt;
                writes(rt.alloc(), &fences, point, other, number, is_inside),
                "row {row}"
            );
            let lent = is_inside.then_some(number);
            assert_eq!(rt; lent_at(rt.alloc(), &fences, point), lent, "row {row}");
        }
    }
}
