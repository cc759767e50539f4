//! Visits that read: the first element of each, given by a break.

ghost use Rattle.std.specs.Prelude.{◌≡◌, filter};
ghost use Rattle.std.specs.declared.ops.ControlFlow.TheVariants.{Break};
ghost use Rattle.rstar.specs.Nodes.{elements_of, IsWhole};
ghost use Rattle.rstar.specs.Points.{table};
ghost use Rattle.rstar.specs.Trees.{elements_in, IsWholeTree};
ghost use Rattle.rstar.specs.Visits.{IsFirst};

use rstar::algorithm::selection_functions::SelectAtPointFunction;
use rstar::iterators::select_nodes;
use rstar::node::ParentNode;
use rstar::object::PointOf;
use rstar::point::Point;
use rstar::{AABB, DefaultParams, Envelope, PointDistance, RTree, RTreeObject, RTreeParams};
use std::ops::ControlFlow;

type At = [i64; 2];

/// Breaks with the element.
fn at_once<'a, T>(element: &'a T) -> ControlFlow<&'a T>
    ensures { result ≡ Break element.entry }
{
    ControlFlow::Break(element)
}

/// The first selected element, by `locate_with_selection_function_int`.
fn first_selected<T: PointDistance>(tree: &RTree<T>, point: PointOf<T>) -> Option<&T>
    requires { IsWholeTree T.Envelope.boxes T.object ⟦<DefaultParams as RTreeParams>⟧.MAX_SIZE tree.now }
    ensures { IsFirst (filter (λ t. T.distances.contains_point t
        (table T.Envelope.Point.DIMENSIONS (T.Envelope.Point.coord point))) (elements_in tree.now)) result }
{
    let func = SelectAtPointFunction::new(point);
    let found = tree.locate_with_selection_function_int(func, at_once);
    found.break_value()
}

/// The first element below a root that contains a point, by `select_nodes`.
fn first_below<T: PointDistance>(root: &ParentNode<T>, point: PointOf<T>) -> Option<&T>
    requires { IsWhole T.Envelope.boxes T.object root.now }
    ensures { IsFirst (filter (λ t. T.distances.contains_point t
        (table T.Envelope.Point.DIMENSIONS (T.Envelope.Point.coord point))) (elements_of root.now)) result }
{
    let func = SelectAtPointFunction::new(point);
    select_nodes(root, &func, &mut at_once).break_value()
}

/// The first element inside an envelope, the first that it intersects, and the first that contains a point,
/// each by its visit.
fn come_upon<T: PointDistance>(
    tree: &RTree<T>,
    area: T::Envelope,
    point: PointOf<T>,
) -> (Option<&T>, Option<&T>, Option<&T>)
where
    T::Envelope: Copy,
    requires { IsWholeTree T.Envelope.boxes T.object ⟦<DefaultParams as RTreeParams>⟧.MAX_SIZE tree.now }
    ensures inside { IsFirst (filter (λ t. T.Envelope.boxes.contains area (T.object.box_of t))
        (elements_in tree.now)) result.0 }
    ensures touching { IsFirst (filter (λ t. T.Envelope.boxes.intersects area (T.object.box_of t))
        (elements_in tree.now)) result.1 }
    ensures here { IsFirst (filter (λ t. T.distances.contains_point t
        (table T.Envelope.Point.DIMENSIONS (T.Envelope.Point.coord point))) (elements_in tree.now)) result.2 }
{
    let inside = tree.locate_in_envelope_int(area, at_once).break_value();
    let touched = tree
        .locate_in_envelope_intersecting_int(area, at_once)
        .break_value();
    let here = tree.locate_all_at_point_int(point, at_once).break_value();
    (inside, touched, here)
}

/// The first point that a selection function selects.
fn point_selected(tree: &RTree<At>, point: At) -> Option<&At>
    requires { IsWholeTree ⟦<AABB<[i64; 2]> as Envelope>⟧.boxes ⟦<[i64; 2] as RTreeObject>⟧.object
        ⟦<DefaultParams as RTreeParams>⟧.MAX_SIZE tree.now }
    ensures { IsFirst (filter (λ t. ⟦<[i64; 2] as PointDistance>⟧.distances.contains_point t
        (table 2 (⟦<[i64; 2] as Point>⟧.coord point))) (elements_in tree.now)) result }
{
    first_selected(tree, point)
}

#[cfg(test)]
mod tests {
    use super::*;
    use crate::scenarios::{inserted, let_go};
    use rstar::primitives::Rectangle;
    use std::alloc::Global;

    /// Whether there is an element inside an envelope, one that intersects it, and one at a point.
    type Told = (bool, bool, bool);

    /// Whether visits find elements of a tree as expected.
    fn comes_upon<T: PointDistance + Copy>(
        alloc: Global,
        elements: &[T],
        area: T::Envelope,
        point: PointOf<T>,
        told: Told,
    ) -> bool
    where
        T::Envelope: Copy,
        PointOf<T>: Copy,
    {
        let tree = inserted::<T, DefaultParams>(alloc, elements);
        let (inside, touched, here) = come_upon(&tree, area, point);
        let is_so = ((inside.is_some(), touched.is_some(), here.is_some()) == told)
            & (first_selected(&tree, point).is_some() == told.2)
            & (first_below(tree.root(), point).is_some() == told.2);
        let_go(tree);
        is_so
    }

    // Two corners of a box, and what is told of the one point there is, at the first corner, and of the one
    // rectangle, at the second.
    #[test]
    fn a_visit_comes_upon_what_is_selected(rt: HostRuntime) {
        const ROWS: [(At, At, Told, Told); 4] = [
            ([0, 0], [2, 2], (true, true, false), (true, true, true)),
            ([1, 1], [1, 1], (true, true, true), (false, true, true)),
            ([2, 2], [3, 3], (false, false, false), (false, true, false)),
            ([3, 3], [4, 4], (false, false, false), (false, false, false)),
        ];
        let square = Rectangle::from_corners([0i64, 0], [2, 2]);
        for row in 0..ROWS.len() {
            let &(one, other, point, within) = &ROWS[row];
            let area = AABB::from_corners(one, other);
            assert!(rt;
                comes_upon(rt.alloc(), &[[1i64, 1]], area, one, point)
                    && comes_upon(rt.alloc(), &[square], area, other, within),
                "row {row}"
            );
        }
    }
}
