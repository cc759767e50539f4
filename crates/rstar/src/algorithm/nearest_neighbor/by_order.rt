//! Neighbours in the stated order: by distance, and at equal distance by `Ord`.

ghost use Rattle.std.specs.Prelude.{◌≡◌};
ghost use Rattle.rstar.specs.ByOrder.{search_by_order, neighbors_left, IsSearchingByOrder, GivesByOrder};

use crate::algorithm::nearest_neighbor::search::NeighborSearch;
use crate::algorithm::nearest_neighbor::waiting::ParentsFirst;
use crate::node::{ParentNode, RTreeNode};
use rstar_base::point::known;
use rstar_base::{Distance, Envelope, Point, PointDistance, PointOf, RTreeNum, RTreeObject};
use std::alloc::AllocError;

/// The elements of a tree with their squared distances, by distance and at equal distance by `Ord`.
///
/// The traversal is that of `NearestNeighborDistance2Iterator`, but it visits a waiting parent before it
/// yields an element at the same distance. So after each neighbour exactly the parents at most as far were
/// visited. A push takes memory where more than 32 nodes wait. A refusal comes once, and then `None`.
pub type NearestNeighborByOrderIterator<'a, T> = NeighborsByOrder<
    'a,
    ParentNode<T>,
    RTreeNode<T>,
    Distance<T>,
    PointOf<T>,
>;

/// The type of `NearestNeighborByOrderIterator`. Its parameters are the types of root, node, scalar and
/// point.
#[derive(Drop)]
pub struct NeighborsByOrder<'a, R, N, S, P> {
    pub(crate) search: NeighborSearch<'a, R, N, S, ParentsFirst>,
    pub(crate) point: P,
}

impl<'a, T: PointDistance + Ord> NearestNeighborByOrderIterator<'a, T> {
    /// The number of parents visited so far. The root counts; the number is clamped to the greatest `usize`.
    pub fn opened(&self) -> usize
        ensures { result ≡ (search_by_order self.now).opened }
    {
        self.search.opened
    }
}

impl<'a, T: PointDistance + Ord> Iterator
    for NeighborsByOrder<'a, ParentNode<T>, RTreeNode<T>, Distance<T>, PointOf<T>> {
    type Item = Result<(&'a T, Distance<T>), AllocError>;

    ghost can_next = { IsSearchingByOrder T.Envelope.boxes T.object T.distances T.cmp T.Envelope.Point.DIMENSIONS
        T.Envelope.Point.coord T.Envelope.Point.Scalar.cmp T.Envelope.Point.Scalar.value };

    ghost next_gives = { GivesByOrder T.Envelope.boxes T.object T.distances T.cmp T.Envelope.Point.DIMENSIONS
        T.Envelope.Point.coord T.Envelope.Point.Scalar.cmp T.Envelope.Point.Scalar.value };

    ghost remaining = { neighbors_left };

    #[tactic(auto, unfolding(crate::specs::ByOrder::IsSearchingByOrder))]
    fn next(&mut self) -> Option<Self::Item> {
        // Does nothing but tell that the point's coordinates are in their range.
        known(&self.point);
        self.search.next_neighbor(&self.point)
    }

    fn size_hint(&self) -> (usize, Option<usize>) {
        (0, None)
    }
}
