//! Joins: with another tree, and of a tree with itself.

ghost use Rattle.std.specs.Prelude.{◌≤◌, max, IsOk, IfOk};
ghost use Rattle.std.specs.List.Sorted.{IsPermutation};
ghost use Rattle.rstar.specs.Heights.{height_of};
ghost use Rattle.rstar.specs.Joins.{meets_by, join, pairs_to_come, IsJoinMade, IsJoining};
ghost use Rattle.rstar.specs.Meets.{meet_of_roots};
ghost use Rattle.rstar.specs.SelfJoins.{self_join, own_to_come, own_meet, IsSelfJoinMade, IsSelfJoining};
ghost use Rattle.rstar.specs.Trees.{root_of, elements_in, IsWholeTree};

use crate::iterators::{InEnvelope, IntersectionIterator, SelfIntersectionIterator};
use crate::rtree::RTree;
use rstar_base::{Envelope, RTreeObject, RTreeParams};
use std::alloc::AllocError;

impl<T: RTreeObject, Params: RTreeParams> RTree<T, Params> {
    /// The pairs of an element of each tree whose envelopes intersect, in some order. Each pair of places
    /// comes once. Touching is enough.
    ///
    /// It visits the pairs of nodes whose envelopes intersect. It takes memory, and may be refused, only
    /// where a tree has more than 13 levels of parents.
    ///
    /// ```rust
    /// match left.intersection_candidates_with_other_tree(right) {
    ///     Ok(mut pairs) => match drained(alloc, &mut pairs) {
    ///         Ok(all) => Ok((all, pairs.opened())),
    ///         Err(refused) => Err(refused),
    ///     },
    ///     Err(refused) => Err(refused),
    /// }
    /// ```
    /// *`crates/rstar_vectors/src/joins.rt`*
    #[tactic(auto, unfolding(crate::specs::Trees::IsWholeTree))]
    pub fn intersection_candidates_with_other_tree<
        'a,
        U: InEnvelope<T::Envelope>,
        OtherParams: RTreeParams,
    >(
        &'a self,
        other: &'a RTree<U, OtherParams>,
    ) -> Result<IntersectionIterator<'a, T, U>, AllocError>
        requires this { IsWholeTree T.Envelope.boxes T.object Params.MAX_SIZE self.now }
        requires other { IsWholeTree U.Envelope.boxes U.object OtherParams.MAX_SIZE other.now }
        ensures all { IfOk result (λ it. IsPermutation
            (pairs_to_come (meets_by T.Envelope.boxes U.seen) T.object.box_of U.object.box_of it)
            (join (meets_by T.Envelope.boxes U.seen) T.object.box_of U.object.box_of
            (elements_in self.now) (elements_in other.now))) }
        ensures made { IfOk result (λ it. IsJoinMade (meets_by T.Envelope.boxes U.seen)
            T.object.box_of U.object.box_of (root_of self.now) (root_of other.now) it) }
        ensures joining { IfOk result (λ it. IsJoining (meets_by T.Envelope.boxes U.seen)
            T.object.box_of U.object.box_of it) }
        ensures near { max (height_of (root_of self.now)) (height_of (root_of other.now)) ≤ 13 → IsOk result }
    {
        IntersectionIterator::new(&self.root, &other.root, self.levels.max(other.levels))
    }

    /// The pairs of elements whose envelopes intersect, in some order. Each pair of places comes once, and no place is
    /// paired with itself. Touching is enough.
    ///
    /// It visits the pairs of nodes whose envelopes intersect, and no more than the join of the tree with itself does.
    /// Memory may be refused for the paths of a tree of more than 12 levels of parents.
    ///
    /// ```rust
    /// let met = tree.intersecting_pairs()?;
    /// let mut pairs: Vec<Pair<'_, GeomWithData<R, u64>>> = met.collect(alloc)?;
    /// pairs.retain(|&(one, other)| one.data != other.data);
    /// Ok(pairs)
    /// ```
    /// *`crates/rstar_uses/src/overlaps.rt`*
    #[tactic(auto, unfolding(crate::specs::Trees::IsWholeTree))]
    pub fn intersecting_pairs(&self) -> Result<SelfIntersectionIterator<'_, T>, AllocError>
        requires { IsWholeTree T.Envelope.boxes T.object Params.MAX_SIZE self.now }
        ensures all { IfOk result (λ it. IsPermutation (own_to_come T.Envelope.boxes.intersects T.object.box_of it)
            (self_join T.Envelope.boxes.intersects T.object.box_of (elements_in self.now))) }
        ensures made { IfOk result (λ it.
            IsSelfJoinMade T.Envelope.boxes T.object T.Envelope.boxes.intersects (root_of self.now) it) }
        ensures fewer { own_meet T.Envelope.boxes.intersects T.object.box_of (root_of self.now)
            ≤ meet_of_roots T.Envelope.boxes.intersects T.object.box_of T.object.box_of (root_of self.now) (root_of self.now) }
        ensures joining { IfOk result (λ it. IsSelfJoining T.Envelope.boxes T.object T.Envelope.boxes.intersects it) }
        ensures near { height_of (root_of self.now) ≤ 12 → IsOk result }
    {
        SelfIntersectionIterator::new(&self.root, self.levels)
    }
}
