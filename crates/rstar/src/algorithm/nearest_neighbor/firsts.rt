//! The k nearest, with ties broken by a given order.

ghost use Rattle.std.specs.Prelude.{◌≡◌, pos, map, IfOk};
ghost use Rattle.std.specs.List.{AllByRecursion};
ghost use Rattle.std.specs.declared.cmp.Ordering.{Ordering};
ghost use Rattle.rstar.specs.declared.algorithm.nearest_neighbor.search.Stage.TheVariants.{Fresh};
ghost use Rattle.rstar.specs.Lists.{IsNotLater, AreFirstOf};
ghost use Rattle.rstar.specs.Nodes.{all_elements, elements_of, IsWhole};
ghost use Rattle.rstar.specs.inside.Searches.{waiting_of, IsReady, TiesBy};

use crate::algorithm::nearest_neighbor::few::first_few;
use crate::algorithm::nearest_neighbor::search::{NeighborSearch, NodeSearch, fits};
use crate::algorithm::nearest_neighbor::waiting::{ElementOrder, TieOrder};
use crate::bounds::{Measured, SquaredDistance};
use crate::node::{ParentNode, RTreeNode};
use std::alloc::{AllocError, Global};

/// The greatest number of elements that a sorted list finds; more are found by a priority queue.
const FEW: usize = 32;

/// The first `most` elements by distance with their squared distances; all where there are fewer. `E` breaks
/// ties. `room` is the capacity that the list starts with.
pub(crate) fn first_nearest<'a, T: Measured, E: ElementOrder<T>>(
    root: &'a ParentNode<T>,
    point: &T::Place,
    most: usize,
    room: usize,
) -> Result<Vec<(&'a T, T::Distance)>, AllocError>
    requires { IsWhole T.Cover.boxes T.object root.now }
    ensures first { IfOk result (λ found. AreFirstOf (IsNotLater (λ t. T.distances.distance_2 t (T.at point.now))
        E.order) (elements_of root.now) most (map (λ n. n.0.now) found.items)) }
    ensures distances { IfOk result (λ found. AllByRecursion
        (λ n. T.Distance.number n.1 ≡ pos (T.distances.distance_2 n.0.now (T.at point.now))) found.items) }
{
    if most <= FEW {
        return first_few::<T, E>(root, point, most, room);
    }
    fits::<T::Distance>();
    let mut search: NodeSearch<'_, T, E::Nodes> = NeighborSearch::new(root);
    take_first(&mut search, *root.children.allocator(), point, most, room)
}

/// Takes the first `most` elements from a priority queue, as `first_nearest` does.
fn take_first<'a, T: Measured, O: TieOrder<RTreeNode<T>>>(
    search: &mut NodeSearch<'a, T, O>,
    alloc: Global,
    point: &T::Place,
    most: usize,
    room: usize,
) -> Result<Vec<(&'a T, T::Distance)>, AllocError>
    requires fresh { search.old.stage ≡ Fresh }
    requires ready { (p : _) → IsReady T.Cover.boxes T.distances p T.Distance.cmp O.order T.Distance.number T.object
        search.old }
    ensures first { (order : T → T → Ordering) → TiesBy O.order order → IfOk result (λ found. AreFirstOf
        (IsNotLater (λ t. T.distances.distance_2 t (T.at point.now)) order) (all_elements (waiting_of search.old)) most
        (map (λ n. n.0.now) found.items)) }
    ensures distances { IfOk result (λ found. AllByRecursion
        (λ n. T.Distance.number n.1 ≡ pos (T.distances.distance_2 n.0.now (T.at point.now))) found.items) }
{
    // Does nothing but tell that the point's coordinates are in their range.
    T::known(point);
    let mut found = Vec::with_capacity(alloc, room)?;
    for _turn in 0..most {
        let Some(next) = search.next_neighbor(point) else {
            return Ok(found);
        };
        let (t, distance) = next?;
        found.push((t, distance))?;
    }
    Ok(found)
}
