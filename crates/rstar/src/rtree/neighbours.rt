//! Neighbours.

ghost use Rattle.std.specs.Prelude.{◌≡◌, ◌+◌, ◌≤◌, ℕ, List, [], ◌∷◌, pos, map, IsOk, IfOk, IfSome, IfNone, OnErr};
ghost use Rattle.std.specs.List.{AllByRecursion};
ghost use Rattle.std.specs.List.Sorted.{IsPermutation};
ghost use Rattle.rstar_base.specs.Points.{table};
ghost use Rattle.rstar.specs.ByOrder.{search_by_order, IsSearchingByOrder};
ghost use Rattle.rstar.specs.Lists.{IsNearest, AreNearest, AreSomeNearest, AreNearestOf, by_distance, IsLeast, IsNotLater, AreFirstOf, AreAlike};
ghost use Rattle.rstar.specs.Neighbors.{with_distances, search_of, IsSearching, HasBegun};
ghost use Rattle.rstar.specs.Nodes.{envelope_of, parents_of};
ghost use Rattle.rstar.specs.Trees.{root_of, size_of, elements_in, IsWholeTree};

use crate::algorithm::nearest_neighbor::{
    AnyFirst, NearestNeighborByOrderIterator, NearestNeighborDistance2Iterator,
    NearestNeighborIterator, NeighborSearch, Neighbors, NeighborsByOrder, NeighborsWithDistance,
    OwnOrder, all_nearest, first_nearest, fits, nearest_neighbor_with_distance_2, one_nearest,
};
use crate::rtree::RTree;
use rstar_base::algorithm::selection_functions::SelectWithinDistanceFunction;
use rstar_base::{
    Distance, Envelope, Point, PointDistance, PointOf, RTreeNum, RTreeObject, RTreeParams,
};
use std::alloc::AllocError;

impl<T: PointDistance, Params: RTreeParams> RTree<T, Params> {
    /// All elements, the nearest to a point first.
    ///
    /// Making it takes no memory and visits nothing. `next` is never refused while at most 32 elements are
    /// left.
    ///
    /// ```rust
    /// fits::<PointOf<T>>();
    /// let mut neighbors = tree.nearest_neighbor_iter(place);
    /// let mut all = Vec::new(alloc);
    /// while let Some(found) = neighbors.next() {
    ///     let item = found?;
    ///     all.push(item)?;
    /// }
    /// Ok((all, neighbors.opened()))
    /// ```
    /// *`crates/rstar_vectors/src/neighbours.rt`*
    #[tactic(auto, unfolding(crate::specs::Trees::IsWholeTree))]
    pub fn nearest_neighbor_iter(&self, point: PointOf<T>) -> NearestNeighborIterator<'_, T>
        requires { IsWholeTree T.Envelope.boxes T.object Params.MAX_SIZE self.now }
        ensures begun { HasBegun (root_of self.now) point (search_of (with_distances result)) }
        ensures searching { IsSearching T.Envelope.boxes T.object T.distances T.Envelope.Point.DIMENSIONS
            T.Envelope.Point.coord T.Envelope.Point.Scalar.cmp T.Envelope.Point.Scalar.value (with_distances result) }
    {
        fits::<Distance<T>>();
        let search = NeighborSearch::new(&self.root);
        Neighbors { search, point }
    }

    /// All elements with their squared distances, the nearest to a point first.
    ///
    /// Making it takes no memory and visits nothing. `next` is never refused while at most 32 elements are
    /// left.
    #[tactic(auto, unfolding(crate::specs::Trees::IsWholeTree))]
    pub fn nearest_neighbor_iter_with_distance_2(
        &self,
        point: PointOf<T>,
    ) -> NearestNeighborDistance2Iterator<'_, T>
        requires { IsWholeTree T.Envelope.boxes T.object Params.MAX_SIZE self.now }
        ensures begun { HasBegun (root_of self.now) point (search_of result) }
        ensures searching { IsSearching T.Envelope.boxes T.object T.distances T.Envelope.Point.DIMENSIONS
            T.Envelope.Point.coord T.Envelope.Point.Scalar.cmp T.Envelope.Point.Scalar.value result }
    {
        fits::<Distance<T>>();
        let search = NeighborSearch::new(&self.root);
        NeighborsWithDistance { search, point }
    }

    /// The old name of `nearest_neighbor_iter_with_distance_2`. Distances are squared.
    #[deprecated]
    pub fn nearest_neighbor_iter_with_distance(
        &self,
        point: PointOf<T>,
    ) -> NearestNeighborDistance2Iterator<'_, T>
        requires { IsWholeTree T.Envelope.boxes T.object Params.MAX_SIZE self.now }
        ensures begun { HasBegun (root_of self.now) point (search_of result) }
        ensures searching { IsSearching T.Envelope.boxes T.object T.distances T.Envelope.Point.DIMENSIONS
            T.Envelope.Point.coord T.Envelope.Point.Scalar.cmp T.Envelope.Point.Scalar.value result }
    {
        self.nearest_neighbor_iter_with_distance_2(point)
    }

    /// A nearest element to a point.
    ///
    /// `None` comes exactly where the tree is empty. The cost is that of `nearest_neighbor_with_distance_2`.
    pub fn nearest_neighbor(&self, point: PointOf<T>) -> Result<Option<&T>, AllocError>
        requires { IsWholeTree T.Envelope.boxes T.object Params.MAX_SIZE self.now }
        ensures none { IfOk result (λ r. IfNone r (elements_in self.now ≡ [])) }
        ensures nearest { IfOk result (λ r. IfSome r (λ t. IsNearest (λ t. T.distances.distance_2 t
            (table T.Envelope.Point.DIMENSIONS (T.Envelope.Point.coord point))) (elements_in self.now) t.now)) }
        ensures few { parents_of (root_of self.now) ≤ 32 → IsOk result }
    {
        match self.nearest_neighbor_with_distance_2(point)? {
            Some((t, _distance)) => Ok(Some(t)),
            None => Ok(None),
        }
    }

    /// A nearest element to a point with its squared distance.
    ///
    /// `None` comes exactly where the tree is empty. The traversal visits the nearest waiting parent first
    /// and prunes what is farther than the least `min_max_dist_2` seen (Roussopoulos et al. 1995). It is never
    /// refused in a tree of at most 32 parents.
    #[tactic(auto, unfolding(crate::specs::Trees::IsWholeTree))]
    pub fn nearest_neighbor_with_distance_2(
        &self,
        point: PointOf<T>,
    ) -> Result<Option<(&T, Distance<T>)>, AllocError>
        requires { IsWholeTree T.Envelope.boxes T.object Params.MAX_SIZE self.now }
        ensures none { IfOk result (λ r. IfNone r (elements_in self.now ≡ [])) }
        ensures nearest { IfOk result (λ r. IfSome r (λ x. IsNearest (λ t. T.distances.distance_2 t
            (table T.Envelope.Point.DIMENSIONS (T.Envelope.Point.coord point))) (elements_in self.now) x.0.now)) }
        ensures distance { IfOk result (λ r. IfSome r (λ x. T.Envelope.Point.Scalar.value x.1
            ≡ pos (T.distances.distance_2 x.0.now
            (table T.Envelope.Point.DIMENSIONS (T.Envelope.Point.coord point))))) }
        ensures not_below { IfOk result (λ r. IfSome r (λ x. T.Envelope.boxes.distance_2 (envelope_of (root_of self.now))
            (table T.Envelope.Point.DIMENSIONS (T.Envelope.Point.coord point)) ≤ T.distances.distance_2 x.0.now
            (table T.Envelope.Point.DIMENSIONS (T.Envelope.Point.coord point)))) }
        ensures not_above { IfOk result (λ r. IfSome r (λ x. T.distances.distance_2 x.0.now
            (table T.Envelope.Point.DIMENSIONS (T.Envelope.Point.coord point)) ≤ T.Envelope.boxes.min_max_dist_2
            (envelope_of (root_of self.now)) (table T.Envelope.Point.DIMENSIONS (T.Envelope.Point.coord point)))) }
        ensures few { parents_of (root_of self.now) ≤ 32 → IsOk result }
    {
        nearest_neighbor_with_distance_2(&self.root, point)
    }

    /// Removes a nearest element to a point.
    ///
    /// `None` comes, with the tree as it was, exactly where the tree is empty. It finds the least distance
    /// as `nearest_neighbor` does, which alone may be refused; the tree is then as it was. Then it visits
    /// parents within that distance until it removes an element.
    #[tactic(auto, unfolding(crate::specs::Trees::IsWholeTree))]
    pub fn pop_nearest_neighbor(&mut self, point: PointOf<T>) -> Result<Option<T>, AllocError>
        requires { IsWholeTree T.Envelope.boxes T.object Params.MAX_SIZE self.old }
        ensures taken { IfOk result (λ r. IfSome r (λ t. IsPermutation (elements_in self.old)
            (t ∷ elements_in self.new))) }
        ensures counted { IfOk result (λ r. IfSome r (λ _. size_of self.old ≡ size_of self.new + 1)) }
        ensures nearest { IfOk result (λ r. IfSome r (λ t. IsNearest (λ t. T.distances.distance_2 t
            (table T.Envelope.Point.DIMENSIONS (T.Envelope.Point.coord point))) (elements_in self.old) t)) }
        ensures none { IfOk result (λ r. IfNone r (elements_in self.old ≡ [])) }
        ensures kept { IfOk result (λ r. IfNone r (self.new ≡ self.old)) }
        ensures refused { OnErr result (self.new ≡ self.old) }
        ensures few { parents_of (root_of self.old) ≤ 32 → IsOk result }
        ensures whole { IsWholeTree T.Envelope.boxes T.object Params.MAX_SIZE self.new }
    {
        let Some(found) = one_nearest(&self.root, &point)? else {
            return Ok(None);
        };
        let func = SelectWithinDistanceFunction::new(point, found.1);
        Ok(self.remove_with_selection_function(func))
    }

    /// All elements at the least distance to a point, in some order.
    ///
    /// It finds the least distance as `nearest_neighbor` does, and then visits the parents within it. It may
    /// be refused the memory of the list or of the queue.
    #[tactic(auto, unfolding(crate::specs::Trees::IsWholeTree))]
    pub fn nearest_neighbors(&self, point: &PointOf<T>) -> Result<Vec<&T>, AllocError>
        requires { IsWholeTree T.Envelope.boxes T.object Params.MAX_SIZE self.now }
        ensures { IfOk result (λ ts. (d : ℕ) × AreNearest (λ t. T.distances.distance_2 t
            (table T.Envelope.Point.DIMENSIONS (T.Envelope.Point.coord point.now))) (elements_in self.now) d
            (map (λ t. t.now) ts.items)) }
    {
        match all_nearest(&self.root, point)? {
            Some((all, _distance)) => Ok(all),
            None => Ok(Vec::new(*self.root.children.allocator())),
        }
    }

    /// All elements at the least squared distance to a point, with that distance. There is at least one;
    /// `None` comes exactly where the tree is empty.
    ///
    /// It finds the least distance as `nearest_neighbor` does, and then visits the parents within it. It may
    /// be refused the memory of the list or of the queue.
    #[tactic(auto, unfolding(crate::specs::Trees::IsWholeTree))]
    pub fn nearest_neighbors_with_distance_2(
        &self,
        point: &PointOf<T>,
    ) -> Result<Option<(Vec<&T>, Distance<T>)>, AllocError>
        requires { IsWholeTree T.Envelope.boxes T.object Params.MAX_SIZE self.now }
        ensures none { IfOk result (λ r. IfNone r (elements_in self.now ≡ [])) }
        ensures nearest { IfOk result (λ r. IfSome r (λ x. (d : ℕ) × (T.Envelope.Point.Scalar.value x.1 ≡ pos d)
            × AreSomeNearest (λ t. T.distances.distance_2 t
            (table T.Envelope.Point.DIMENSIONS (T.Envelope.Point.coord point.now))) (elements_in self.now) d
            (map (λ t. t.now) x.0.items))) }
    {
        all_nearest(&self.root, point)
    }

    /// The `most` nearest elements to a point with their squared distances, the nearest first. Where there
    /// are fewer it gives all.
    ///
    /// Its list takes memory once, for at most as many elements as the tree has. One element costs what
    /// `nearest_neighbor` costs. Up to 32 are found in a second list of that room, which prunes the
    /// traversal; more cost what `nearest_neighbor_iter_with_distance_2` costs. It may be refused these lists
    /// or the queue.
    ///
    /// ```rust
    /// pub fn nearest(&self, place: &[i64; 2], most: usize) -> Result<Vec<(&Vehicle, i64)>, AllocError>
    ///     ensures first { IfOk result (λ found. AreNearestOf
    ///         (λ t. ⟦<Vehicle as PointDistance>⟧.distances.distance_2 t (table 2 (⟦<[i64; 2] as Point>⟧.coord place.now)))
    ///         self.now most (map (λ n. n.0.now) found.items)) }
    ///     ensures distances { IfOk result (λ found. AllByRecursion (λ n. n.1 ≡ pos
    ///         (⟦<Vehicle as PointDistance>⟧.distances.distance_2 n.0.now (table 2 (⟦<[i64; 2] as Point>⟧.coord place.now))))
    ///         found.items) }
    /// {
    ///     self.free.first_neighbors(place, most)
    /// }
    /// ```
    /// *`crates/rstar_uses/src/dispatch.rt`*
    #[tactic(auto, unfolding(crate::specs::Trees::IsWholeTree))]
    pub fn first_neighbors(
        &self,
        point: &PointOf<T>,
        most: usize,
    ) -> Result<Vec<(&T, Distance<T>)>, AllocError>
        requires { IsWholeTree T.Envelope.boxes T.object Params.MAX_SIZE self.now }
        ensures first { IfOk result (λ found. AreNearestOf (λ t. T.distances.distance_2 t
            (table T.Envelope.Point.DIMENSIONS (T.Envelope.Point.coord point.now))) (elements_in self.now) most
            (map (λ n. n.0.now) found.items)) }
        ensures distances { IfOk result (λ found. AllByRecursion (λ n. T.Envelope.Point.Scalar.value n.1
            ≡ pos (T.distances.distance_2 n.0.now
            (table T.Envelope.Point.DIMENSIONS (T.Envelope.Point.coord point.now)))) found.items) }
    {
        first_nearest::<T, AnyFirst>(&self.root, point, most, most.min(self.size))
    }
}

impl<T: PointDistance + Ord, Params: RTreeParams> RTree<T, Params> {
    /// All elements with their squared distances in the stated order. That order is by distance, and at
    /// equal distance by `Ord`.
    ///
    /// Making it takes no memory and visits nothing. `next` is never refused while at most 32 elements are
    /// left.
    #[tactic(auto, unfolding(crate::specs::Trees::IsWholeTree))]
    pub fn nearest_neighbor_iter_by_order(
        &self,
        point: PointOf<T>,
    ) -> NearestNeighborByOrderIterator<'_, T>
        requires { IsWholeTree T.Envelope.boxes T.object Params.MAX_SIZE self.now }
        ensures begun { HasBegun (root_of self.now) point (search_by_order result) }
        ensures searching { IsSearchingByOrder T.Envelope.boxes T.object T.distances T.cmp T.Envelope.Point.DIMENSIONS
            T.Envelope.Point.coord T.Envelope.Point.Scalar.cmp T.Envelope.Point.Scalar.value result }
    {
        fits::<Distance<T>>();
        let search = NeighborSearch::new(&self.root);
        NeighborsByOrder { search, point }
    }

    /// The first `most` elements in the stated order with their squared distances. Where there are fewer it
    /// gives all. They are one list, up to elements that compare equal.
    ///
    /// The cost and the refusals are those of `first_neighbors`.
    #[tactic(auto, unfolding(crate::specs::Trees::IsWholeTree))]
    pub fn first_neighbors_by_order(
        &self,
        point: &PointOf<T>,
        most: usize,
    ) -> Result<Vec<(&T, Distance<T>)>, AllocError>
        requires { IsWholeTree T.Envelope.boxes T.object Params.MAX_SIZE self.now }
        ensures first { IfOk result (λ found. AreFirstOf (IsNotLater (λ t. T.distances.distance_2 t
            (table T.Envelope.Point.DIMENSIONS (T.Envelope.Point.coord point.now))) T.cmp) (elements_in self.now) most
            (map (λ n. n.0.now) found.items)) }
        ensures only { IfOk result (λ found. (other : List T) → AreFirstOf (IsNotLater (λ t. T.distances.distance_2 t
            (table T.Envelope.Point.DIMENSIONS (T.Envelope.Point.coord point.now))) T.cmp) (elements_in self.now) most
            other → AreAlike (by_distance (λ t. T.distances.distance_2 t
            (table T.Envelope.Point.DIMENSIONS (T.Envelope.Point.coord point.now))) T.cmp)
            (map (λ n. n.0.now) found.items) other) }
        ensures distances { IfOk result (λ found. AllByRecursion (λ n. T.Envelope.Point.Scalar.value n.1
            ≡ pos (T.distances.distance_2 n.0.now
            (table T.Envelope.Point.DIMENSIONS (T.Envelope.Point.coord point.now)))) found.items) }
    {
        first_nearest::<T, OwnOrder>(&self.root, point, most, most.min(self.size))
    }

    /// Removes the first element in the stated order. That order is by distance to a point, and at equal
    /// distance by `Ord`.
    ///
    /// `None` comes, with the tree as it was, exactly where the tree is empty. It finds the least distance
    /// as `nearest_neighbor` does, which alone may be refused; the tree is then as it was. Then it changes
    /// one path, and reads once, at each level, the parents below within that distance.
    #[tactic(auto, unfolding(crate::specs::Trees::IsWholeTree))]
    pub fn pop_nearest_neighbor_by_order(
        &mut self,
        point: PointOf<T>,
    ) -> Result<Option<T>, AllocError>
        requires { IsWholeTree T.Envelope.boxes T.object Params.MAX_SIZE self.old }
        ensures taken { IfOk result (λ r. IfSome r (λ t. IsPermutation (elements_in self.old)
            (t ∷ elements_in self.new))) }
        ensures counted { IfOk result (λ r. IfSome r (λ _. size_of self.old ≡ size_of self.new + 1)) }
        ensures first { IfOk result (λ r. IfSome r (λ t. IsLeast (IsNotLater (λ t. T.distances.distance_2 t
            (table T.Envelope.Point.DIMENSIONS (T.Envelope.Point.coord point))) T.cmp) (elements_in self.old) t)) }
        ensures none { IfOk result (λ r. IfNone r (elements_in self.old ≡ [])) }
        ensures kept { IfOk result (λ r. IfNone r (self.new ≡ self.old)) }
        ensures refused { OnErr result (self.new ≡ self.old) }
        ensures few { parents_of (root_of self.old) ≤ 32 → IsOk result }
        ensures whole { IsWholeTree T.Envelope.boxes T.object Params.MAX_SIZE self.new }
    {
        let Some(near) = one_nearest(&self.root, &point)? else {
            return Ok(None);
        };
        let func = SelectWithinDistanceFunction::new(point, near.1);
        Ok(self.take_earliest(&func))
    }
}
