//! Neighbours: elements by distance, and elements at the least distance (Roussopoulos et al. 1995).

ghost use Rattle.std.specs.Prelude.{◌≡◌, ◌≤◌, ℕ, [], pos, map, IsOk, IfOk, IfSome, IfNone};
ghost use Rattle.rstar_base.specs.Points.{table};
ghost use Rattle.rstar.specs.Nodes.{elements_of, envelope_of, parents_of, IsWhole};
ghost use Rattle.rstar.specs.Lists.{IsNearest, AreSomeNearest};
ghost use Rattle.rstar.specs.Neighbors.{with_distances, search_of, neighbors_left, IsSearching, GivesElement, GivesWithDistance};

mod by_order;
mod few;
mod firsts;
mod search;
mod ties;
mod waiting;

use crate::node::{ParentNode, RTreeNode};
pub use by_order::{NearestNeighborByOrderIterator, NeighborsByOrder};
pub(crate) use few::one_nearest;
pub(crate) use firsts::first_nearest;
pub use rstar_base::heap::SmallHeap;
use rstar_base::{Distance, Envelope, Point, PointDistance, PointOf, RTreeNum, RTreeObject};
pub(crate) use search::{NeighborSearch, fits};
use std::alloc::AllocError;
pub(crate) use ties::all_nearest;
pub(crate) use waiting::{AnyFirst, ElementOrder, OwnOrder};

/// The elements of a tree with their squared distances, the nearest first.
///
/// The traversal visits parents in the order of their distances (MINDIST of Roussopoulos et al. 1995), each
/// once, and none farther than the element that it yields. A push takes memory where more than 32 nodes
/// wait. A refusal comes once, and then `None`.
pub type NearestNeighborDistance2Iterator<'a, T> = NeighborsWithDistance<
    'a,
    ParentNode<T>,
    RTreeNode<T>,
    Distance<T>,
    PointOf<T>,
>;

/// The type of `NearestNeighborDistance2Iterator`. Its parameters are the types of root, node, scalar and
/// point.
#[derive(Drop)]
pub struct NeighborsWithDistance<'a, R, N, S, P> {
    pub(crate) search: NeighborSearch<'a, R, N, S, AnyFirst>,
    pub(crate) point: P,
}

impl<'a, T: PointDistance> NearestNeighborDistance2Iterator<'a, T> {
    /// The number of parents visited so far. The root counts; the number is clamped to the greatest `usize`.
    pub fn opened(&self) -> usize
        ensures { result ≡ (search_of self.now).opened }
    {
        self.search.opened
    }
}

impl<'a, T: PointDistance> Iterator
    for NeighborsWithDistance<'a, ParentNode<T>, RTreeNode<T>, Distance<T>, PointOf<T>> {
    type Item = Result<(&'a T, Distance<T>), AllocError>;

    ghost can_next = { IsSearching T.Envelope.boxes T.object T.distances T.Envelope.Point.DIMENSIONS
        T.Envelope.Point.coord T.Envelope.Point.Scalar.cmp T.Envelope.Point.Scalar.value };

    ghost next_gives = { GivesWithDistance T.Envelope.boxes T.object T.distances T.Envelope.Point.DIMENSIONS
        T.Envelope.Point.coord T.Envelope.Point.Scalar.cmp T.Envelope.Point.Scalar.value };

    ghost remaining = { neighbors_left };

    #[tactic(auto, unfolding(crate::specs::Neighbors::IsSearching))]
    fn next(&mut self) -> Option<Self::Item> {
        self.search.next_neighbor(&self.point)
    }

    fn size_hint(&self) -> (usize, Option<usize>) {
        (0, None)
    }
}

/// The elements of a tree, the nearest first. It is `NearestNeighborDistance2Iterator` without the
/// distances.
pub type NearestNeighborIterator<'a, T> = Neighbors<
    'a,
    ParentNode<T>,
    RTreeNode<T>,
    Distance<T>,
    PointOf<T>,
>;

/// The type of `NearestNeighborIterator`. Its parameters are the types of root, node, scalar and point. It
/// repeats the fields of `NeighborsWithDistance`: a field of that type would cost a size proof at each use.
#[derive(Drop)]
pub struct Neighbors<'a, R, N, S, P> {
    pub(crate) search: NeighborSearch<'a, R, N, S, AnyFirst>,
    pub(crate) point: P,
}

impl<'a, T: PointDistance> NearestNeighborIterator<'a, T> {
    /// The number of parents visited so far. The root counts; the number is clamped to the greatest `usize`.
    pub fn opened(&self) -> usize
        ensures { result ≡ (search_of (with_distances self.now)).opened }
    {
        self.search.opened
    }
}

impl<'a, T: PointDistance> Iterator
    for Neighbors<'a, ParentNode<T>, RTreeNode<T>, Distance<T>, PointOf<T>> {
    type Item = Result<&'a T, AllocError>;

    ghost can_next = { λ it. IsSearching T.Envelope.boxes T.object T.distances T.Envelope.Point.DIMENSIONS
        T.Envelope.Point.coord T.Envelope.Point.Scalar.cmp T.Envelope.Point.Scalar.value (with_distances it) };

    ghost next_gives = { GivesElement T.Envelope.boxes T.object T.distances T.Envelope.Point.DIMENSIONS
        T.Envelope.Point.coord T.Envelope.Point.Scalar.cmp T.Envelope.Point.Scalar.value };

    ghost remaining = { λ it. neighbors_left (with_distances it) };

    #[tactic(auto, unfolding(crate::specs::Neighbors::IsSearching))]
    fn next(&mut self) -> Option<Self::Item> {
        match self.search.next_neighbor(&self.point) {
            None => None,
            Some(found) => match found {
                Ok((t, _distance)) => Some(Ok(t)),
                Err(refused) => Some(Err(refused)),
            },
        }
    }

    fn size_hint(&self) -> (usize, Option<usize>) {
        (0, None)
    }
}

/// A nearest element below a root with its squared distance.
///
/// `None` comes exactly where there is no element. The traversal visits the nearest waiting parent first and
/// prunes what is farther than the least `min_max_dist_2` seen (Roussopoulos et al. 1995). It is never refused
/// below a root of at most 32 parents.
pub fn nearest_neighbor_with_distance_2<'a, T: PointDistance>(
    root: &'a ParentNode<T>,
    point: PointOf<T>,
) -> Result<Option<(&'a T, Distance<T>)>, AllocError>
    requires { IsWhole T.Envelope.boxes T.object root.now }
    ensures none { IfOk result (λ r. IfNone r (elements_of root.now ≡ [])) }
    ensures nearest { IfOk result (λ r. IfSome r (λ x. IsNearest (λ t. T.distances.distance_2 t
        (table T.Envelope.Point.DIMENSIONS (T.Envelope.Point.coord point))) (elements_of root.now) x.0.now)) }
    ensures distance { IfOk result (λ r. IfSome r (λ x. T.Envelope.Point.Scalar.value x.1 ≡ pos (T.distances.distance_2
        x.0.now (table T.Envelope.Point.DIMENSIONS (T.Envelope.Point.coord point))))) }
    ensures not_below { IfOk result (λ r. IfSome r (λ x. T.Envelope.boxes.distance_2 (envelope_of root.now)
        (table T.Envelope.Point.DIMENSIONS (T.Envelope.Point.coord point)) ≤ T.distances.distance_2 x.0.now
        (table T.Envelope.Point.DIMENSIONS (T.Envelope.Point.coord point)))) }
    ensures not_above { IfOk result (λ r. IfSome r (λ x. T.distances.distance_2 x.0.now
        (table T.Envelope.Point.DIMENSIONS (T.Envelope.Point.coord point)) ≤ T.Envelope.boxes.min_max_dist_2
        (envelope_of root.now) (table T.Envelope.Point.DIMENSIONS (T.Envelope.Point.coord point)))) }
    ensures few { parents_of root.now ≤ 32 → IsOk result }
{
    one_nearest(root, &point)
}

/// All elements below a root at the least squared distance, with that distance. There is at least one;
/// `None` comes exactly where there is no element.
///
/// It finds the least distance as `nearest_neighbor` does, and then visits the parents within it. It may be
/// refused the memory of the list or of the queue.
pub fn nearest_neighbors_with_distance_2<'a, T: PointDistance>(
    root: &'a ParentNode<T>,
    point: PointOf<T>,
) -> Result<Option<(Vec<&'a T>, Distance<T>)>, AllocError>
    requires { IsWhole T.Envelope.boxes T.object root.now }
    ensures none { IfOk result (λ r. IfNone r (elements_of root.now ≡ [])) }
    ensures nearest { IfOk result (λ r. IfSome r (λ x. (d : ℕ) × (T.Envelope.Point.Scalar.value x.1 ≡ pos d)
        × AreSomeNearest (λ t. T.distances.distance_2 t (table T.Envelope.Point.DIMENSIONS (T.Envelope.Point.coord point)))
        (elements_of root.now) d (map (λ t. t.now) x.0.items))) }
{
    all_nearest(root, &point)
}
