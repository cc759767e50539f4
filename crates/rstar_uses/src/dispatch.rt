//! A dispatch planner: vehicles that are free, of which the nearest is sent.

ghost use Rattle.std.specs.Prelude.{◌≡◌, ◌==◌, ◌∷◌, ◌&&◌, ◌↔◌, ◌%◌, ℕ, ℤ, Bool, List, [], true, false, map, filter, pos, int_le, IsTrue, IfOk, IfErr, IfSome, IfNone, OnOk, OnErr};
ghost use Rattle.std.specs.List.{AllByRecursion, Contains, list_any};
ghost use Rattle.std.specs.List.Sorted.{IsPermutation};
ghost use Rattle.rstar.specs.Lists.{IsNearest, AreNearestOf};
ghost use Rattle.rstar.specs.Neighbors.{IsGoingOn, IsSearching, search_of, elements_waiting};
ghost use Rattle.rstar.specs.Points.{table};
ghost use Rattle.rstar.specs.Trees.{elements_in, IsWholeTree};
ghost use Rattle.rstar_uses.specs.Tests.{Decides};

use crate::geofence::taken_out;
use rstar::algorithm::nearest_neighbor::NearestNeighborDistance2Iterator;
use rstar::object::Distance;
use rstar::point::not_above;
use rstar::primitives::GeomWithData;
use rstar::{
    AABB, DefaultParams, Envelope, EqualEnvelopes, InsertError, Point, PointDistance, RTree,
    RTreeNum, RTreeObject, RTreeParams,
};
use std::alloc::{AllocError, Global};
use std::marker::Model;

/// Where a vehicle waits, and its number.
pub type Vehicle = GeomWithData<[i64; 2], u64>;

/// The vehicles that are free, in a tree.
#[derive(Drop)]
pub struct Dispatch {
    free: RTree<Vehicle>,
}

// Contracts see the list of the free vehicles, each a place and a number. The tree is whole.
impl Model for Dispatch {
    ghost use Rattle.std.specs.Prelude.{ℕ, ℤ, List};
    ghost use Rattle.rstar.specs.Trees.{elements_in, IsWholeTree};

    ghost Value = { List (List ℤ × ℕ) };

    ghost view = { λ s. elements_in s.free };

    ghost invariant = { λ s. IsWholeTree ⟦<AABB<[i64; 2]> as Envelope>⟧.boxes ⟦<Vehicle as RTreeObject>⟧.object
        ⟦<DefaultParams as RTreeParams>⟧.MAX_SIZE s.free };
}

impl Dispatch {
    /// No vehicle is free.
    pub fn new(alloc: Global) -> Dispatch
        ensures { result ≡ [] }
    {
        Dispatch {
            free: RTree::new(alloc),
        }
    }

    /// One vehicle more is free. A refusal hands it back and leaves all as it was.
    pub fn add(&mut self, place: [i64; 2], number: u64) -> Result<(), InsertError<Vehicle>>
        ensures added { OnOk result (IsPermutation ((place, number) ∷ self.old) self.new) }
        ensures handed_back { IfErr result (λ refused. refused.element ≡ (place, number)) }
        ensures unchanged { OnErr result (self.new ≡ self.old) }
    {
        self.free.insert(Vehicle::new(place, number))
    }

    /// Sends a vehicle than which none that is free is nearer to a place: it is free no more. Of several it sends one,
    /// and none exactly where none is free. A refusal leaves all as it was.
    pub fn send(&mut self, place: [i64; 2]) -> Result<Option<Vehicle>, AllocError>
        ensures sent { IfOk result (λ r. IfSome r (λ v. IsPermutation self.old (v ∷ self.new))) }
        ensures nearest { IfOk result (λ r. IfSome r (λ v. IsNearest
            (λ t. ⟦<Vehicle as PointDistance>⟧.distances.distance_2 t (table 2 (⟦<[i64; 2] as Point>⟧.coord place)))
            self.old v)) }
        ensures none { IfOk result (λ r. IfNone r (self.old ≡ [])) }
        ensures kept { IfOk result (λ r. IfNone r (self.new ≡ self.old)) }
        ensures refused { OnErr result (self.new ≡ self.old) }
    {
        self.free.pop_nearest_neighbor(place)
    }

    /// The vehicles nearest to a place, the nearest first, each with its squared distance: so many, or all that are free.
    pub fn nearest(&self, place: &[i64; 2], most: usize) -> Result<Vec<(&Vehicle, i64)>, AllocError>
        ensures first { IfOk result (λ found. AreNearestOf
            (λ t. ⟦<Vehicle as PointDistance>⟧.distances.distance_2 t (table 2 (⟦<[i64; 2] as Point>⟧.coord place.now)))
            self.now most (map (λ n. n.0.now) found.items)) }
        ensures distances { IfOk result (λ found. AllByRecursion (λ n. n.1 ≡ pos
            (⟦<Vehicle as PointDistance>⟧.distances.distance_2 n.0.now (table 2 (⟦<[i64; 2] as Point>⟧.coord place.now))))
            found.items) }
    {
        self.free.first_neighbors(place, most)
    }

    /// The vehicles that pass a test and are at most a squared distance away from a place, the nearest first, each
    /// with that distance: so many, or all.
    pub fn nearest_able<F: Fn(&Vehicle) -> bool>(
        &self,
        alloc: Global,
        place: [i64; 2],
        limit: i64,
        most: usize,
        is_able: F,
    ) -> Result<Vec<(&Vehicle, i64)>, AllocError>
        requires { F.IsAlwaysCallable is_able }
        ensures first { IfOk result (λ found. (able : List ℤ × ℕ → Bool) → Decides F.Fn is_able able → AreNearestOf
            (λ t. ⟦<Vehicle as PointDistance>⟧.distances.distance_2 t (table 2 (⟦<[i64; 2] as Point>⟧.coord place)))
            (filter (λ t. able t && int_le (pos (⟦<Vehicle as PointDistance>⟧.distances.distance_2 t
            (table 2 (⟦<[i64; 2] as Point>⟧.coord place)))) limit) self.now) most (map (λ n. n.0.now) found.items)) }
        ensures distances { IfOk result (λ found. AllByRecursion (λ n. n.1 ≡ pos
            (⟦<Vehicle as PointDistance>⟧.distances.distance_2 n.0.now (table 2 (⟦<[i64; 2] as Point>⟧.coord place))))
            found.items) }
    {
        let mut neighbors = self.free.nearest_neighbor_iter_with_distance_2(place);
        first_able(alloc, &mut neighbors, limit, most, is_able)
    }

    /// A vehicle moves from one place to another. Whether there was one. A refusal leaves all as it was, and has the
    /// vehicle at the other place.
    pub fn relocate(
        &mut self,
        number: u64,
        from: [i64; 2],
        to: [i64; 2],
    ) -> Result<bool, InsertError<Vehicle>>
        ensures there { IfOk result (λ there. IsTrue there ↔ Contains self.old (from, number)) }
        ensures moved { IfOk result (λ there. there ≡ true
            → IsPermutation ((to, number) ∷ self.old) ((from, number) ∷ self.new)) }
        ensures kept { IfOk result (λ there. there ≡ false → self.new ≡ self.old) }
        ensures handed_back { IfErr result (λ refused. refused.element ≡ (to, number)) }
        ensures refused { OnErr result (self.new ≡ self.old) }
    {
        replaced(
            &mut self.free,
            &Vehicle::new(from, number),
            Vehicle::new(to, number),
        )
    }
}

/// Of the elements that a search still gives, those that pass a test and are at most a squared distance away, the nearest
/// first, each with that distance: so many, or all.
fn first_able<'a, T: PointDistance, F: Fn(&T) -> bool>(
    alloc: Global,
    neighbors: &mut NearestNeighborDistance2Iterator<'a, T>,
    limit: Distance<T>,
    most: usize,
    is_able: F,
) -> Result<Vec<(&'a T, Distance<T>)>, AllocError>
    requires searching { IsSearching T.Envelope.boxes T.object T.distances T.Envelope.Point.DIMENSIONS
        T.Envelope.Point.coord T.Envelope.Point.Scalar.cmp T.Envelope.Point.Scalar.value neighbors.old }
    requires going_on { IsGoingOn (search_of neighbors.old) }
    requires callable { F.IsAlwaysCallable is_able }
    ensures first { IfOk result (λ found. (able : T → Bool) → Decides F.Fn is_able able → AreNearestOf
        (λ t. T.distances.distance_2 t (table T.Envelope.Point.DIMENSIONS
        (T.Envelope.Point.coord (search_of neighbors.old).point)))
        (filter (λ t. able t && int_le (pos (T.distances.distance_2 t (table T.Envelope.Point.DIMENSIONS
        (T.Envelope.Point.coord (search_of neighbors.old).point)))) (T.Envelope.Point.Scalar.value limit))
        (elements_waiting (search_of neighbors.old))) most (map (λ n. n.0.now) found.items)) }
    ensures distances { IfOk result (λ found. AllByRecursion (λ n. T.Envelope.Point.Scalar.value n.1
        ≡ pos (T.distances.distance_2 n.0.now (table T.Envelope.Point.DIMENSIONS
        (T.Envelope.Point.coord (search_of neighbors.old).point)))) found.items) }
{
    let mut found = Vec::new(alloc);
    'search: while found.len() < most {
        let Some(item) = neighbors.next() else {
            return Ok(found);
        };
        let (element, distance) = item?;
        if !not_above(distance, limit) {
            return Ok(found);
        }
        if is_able(element) {
            found.push((element, distance))?;
        }
    }
    Ok(found)
}

/// Puts an element in the place of one that equals another. Whether there was one.
fn replaced<T: EqualEnvelopes>(tree: &mut RTree<T>, old: &T, new: T) -> Result<bool, InsertError<T>>
    requires whole { IsWholeTree T.Envelope.boxes T.object ⟦<DefaultParams as RTreeParams>⟧.MAX_SIZE tree.old }
    requires filled { T.Envelope.boxes.is_empty (T.object.box_of new) ≡ false }
    ensures there { IfOk result (λ there. there ≡ list_any (λ t. T.eq t old.now) (elements_in tree.old)) }
    ensures replaced { IfOk result (λ there. there ≡ true → (t : T) × (T.eq t old.now ≡ true)
        × IsPermutation (new ∷ elements_in tree.old) (t ∷ elements_in tree.new)) }
    ensures kept { IfOk result (λ there. there ≡ false → elements_in tree.new ≡ elements_in tree.old) }
    ensures handed_back { IfErr result (λ refused. refused.element ≡ new) }
    ensures refused { OnErr result (elements_in tree.new ≡ elements_in tree.old) }
    ensures whole { IsWholeTree T.Envelope.boxes T.object ⟦<DefaultParams as RTreeParams>⟧.MAX_SIZE tree.new }
{
    if !tree.contains(old) {
        return Ok(false);
    }
    tree.insert(new)?;
    Ok(taken_out(tree, old))
}

#[cfg(test)]
mod tests {
    use super::*;

    /// A place, how many vehicles are asked for there, at what squared distances they are, and which is sent.
    type Call = ([i64; 2], usize, &'static [i64], Option<u64>);

    /// A greatest squared distance, how many vehicles with an odd number are asked for within it, and at what squared
    /// distances they are.
    type Question = (i64, usize, &'static [i64]);

    /// Vehicles wait at these places.
    fn waiting(alloc: Global, places: &[([i64; 2], u64)]) -> Dispatch {
        let mut dispatch = Dispatch::new(alloc);
        for &(place, number) in places {
            let _refused = dispatch.add(place, number).is_err();
        }
        dispatch
    }

    /// Whether vehicles at these squared distances were found, in this order.
    fn are_at(found: Result<Vec<(&Vehicle, i64)>, AllocError>, distances: &[i64]) -> bool {
        match &found {
            Ok(all) => all.iter().map(|one| one.1).eq(distances.iter().copied()),
            Err(_) => false,
        }
    }

    /// Whether the vehicle with this number is sent, or none.
    fn is_sent(sent: Result<Option<Vehicle>, AllocError>, number: Option<u64>) -> bool {
        match sent {
            Ok(Some(vehicle)) => number == Some(vehicle.data),
            Ok(None) => number.is_none(),
            Err(_) => false,
        }
    }

    /// Whether the nearest vehicles are told, and the nearest is sent, at each call.
    fn are_sent(dispatch: &mut Dispatch, calls: &[Call]) -> bool {
        let mut is_so = true;
        for &(place, most, nearest, sent) in calls {
            is_so &= are_at(dispatch.nearest(&place, most), nearest);
            is_so &= is_sent(dispatch.send(place), sent);
        }
        is_so
    }

    /// The nearest vehicles with an odd number from the origin.
    fn nearest_odd(
        alloc: Global,
        dispatch: &Dispatch,
        limit: i64,
        most: usize,
    ) -> Result<Vec<(&Vehicle, i64)>, AllocError>
        ensures { IfOk result (λ found. AreNearestOf
            (λ t. ⟦<Vehicle as PointDistance>⟧.distances.distance_2 t (table 2 (λ _. pos 0)))
            (filter (λ t. t.1 % 2 == 1 && int_le (pos (⟦<Vehicle as PointDistance>⟧.distances.distance_2 t
            (table 2 (λ _. pos 0)))) limit) dispatch.now) most (map (λ n. n.0.now) found.items)) }
    {
        dispatch.nearest_able(alloc, [0, 0], limit, most, |one| one.data % 2 == 1)
    }

    /// Whether vehicles with an odd number are found so from the origin.
    fn are_found(alloc: Global, dispatch: &Dispatch, questions: &[Question]) -> bool {
        let mut is_so = true;
        for &(limit, most, distances) in questions {
            is_so &= are_at(nearest_odd(alloc, dispatch, limit, most), distances);
        }
        is_so
    }

    const WAITING: [([i64; 2], u64); 3] = [([5, 5], 7), ([0, 0], 8), ([2, 2], 9)];

    // Three vehicles are sent one after another: one that was sent is free no more, and then there is none.
    #[test]
    fn the_nearest_is_sent(rt: HostRuntime) {
        const CALLS: [Call; 4] = [
            ([6, 6], 3, &[2, 32, 72], Some(7)),
            ([0, 1], 2, &[1, 5], Some(8)),
            ([0, 1], 2, &[5], Some(9)),
            ([0, 1], 2, &[], None),
        ];
        let mut dispatch = waiting(rt.alloc(), &WAITING);
        assert!(rt; are_sent(&mut dispatch, &CALLS));
    }

    // The vehicle at the origin has an even number. One that moves is found where it is; one that is not there does not.
    #[test]
    fn the_nearest_that_pass_a_test(rt: HostRuntime) {
        const QUESTIONS: [Question; 4] = [
            (50, 2, &[8, 50]),
            (49, 2, &[8]),
            (50, 1, &[8]),
            (7, 2, &[]),
        ];
        let mut dispatch = waiting(rt.alloc(), &WAITING);
        assert!(rt; are_found(rt.alloc(), &dispatch, &QUESTIONS));
        let there = dispatch.relocate(7, [5, 5], [1, 0]);
        let not_there = dispatch.relocate(7, [5, 5], [3, 3]);
        assert!(rt; matches!(there, Ok(true)) && matches!(not_there, Ok(false)));
        assert!(rt; are_found(rt.alloc(), &dispatch, &[(50, 2, &[1, 8])]));
    }
}
