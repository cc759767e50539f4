//! The rectangles behind a handle.

ghost use Rattle.std.specs.Prelude.{◌≡◌, ◌∷◌, ℕ, [], true, false, filter, length, map, take, IfOk, OnOk, OnErr, IfSome, IfNone};
ghost use Rattle.std.specs.List.{All, Contains};
ghost use Rattle.std.specs.List.Sorted.{IsPermutation};
ghost use Rattle.rstar.specs.Joins.{join};
ghost use Rattle.rstar.specs.Lists.{IsLeast, NoneSelected};
ghost use Rattle.rstar.specs.Steps.{selects, TakesSome};
ghost use Rattle.rstar.specs.Trees.{elements_in, IsWholeTree};
ghost use Rattle.rstar.specs.SelfJoins.{self_join};
ghost use Rattle.rstar_base.specs.Boxes.{boxes_intersect, is_empty_box};
ghost use Rattle.rstar_c.specs.Answers.{AreNearestPut, AreNearestEach, ArePairsGiven};
ghost use Rattle.rstar_c.specs.Items.{Item, box_of, corners_of, IsBefore, item_of, items_of, number};
ghost use Rattle.rstar_c.specs.Put.{over, ArePut};

use crate::items::{Corners, Item, NodeSizes, Place, item};
use crate::put::{put_items, put_neighbours, room_in};
use crate::trees::{drained, put_own_pairs, put_pairs_between, put_selected};
use rstar::replay::{Query, Scanned};
use rstar::{AABB, Envelope, EqualEnvelopes, InsertError, RTree, RTreeObject, RTreeParams};
use std::alloc::{AllocError, Global};
use std::marker::Model;

/// Rectangles with IDs, in a tree.
#[derive(Drop)]
pub struct Store {
    pub(crate) tree: RTree<Item, NodeSizes>,
}

// Contracts see the list of the items. The tree is whole.
impl Model for Store {
    ghost use Rattle.std.specs.Prelude.{List};
    ghost use Rattle.rstar.specs.Trees.{elements_in, IsWholeTree};
    ghost use Rattle.rstar_c.specs.Items.{Item};

    ghost Value = { List Item };

    ghost view = { λ s. elements_in s.tree };

    ghost invariant = { λ s. IsWholeTree ⟦<AABB<[i64; 2]> as Envelope>⟧.boxes ⟦<Item as RTreeObject>⟧.object
        ⟦<NodeSizes as RTreeParams>⟧.MAX_SIZE s.tree };
}

impl Store {
    /// No rectangle. It takes no memory yet.
    pub(crate) fn new(alloc: Global) -> Store
        ensures { result ≡ [] }
    {
        Store {
            tree: RTree::new_with_params(alloc),
        }
    }

    /// Rectangles between two corners each, with their IDs, loaded at once.
    pub(crate) fn load(alloc: Global, boxes: &[Corners], ids: &[u64]) -> Result<Store, AllocError>
        requires { length boxes.now ≡ length ids.now }
        ensures { IfOk result (IsPermutation (items_of boxes.now ids.now)) }
    {
        Ok(Store {
            tree: RTree::bulk_load_with_params(listed(alloc, boxes, ids)?)?,
        })
    }

    /// The number of rectangles.
    pub(crate) fn size(&self) -> usize
        ensures { result ≡ length self.now }
    {
        self.tree.size()
    }

    /// One rectangle more. Where it is refused all is as it was.
    pub(crate) fn insert(&mut self, id: u64, corners: &Corners) -> Result<(), InsertError<Item>>
        ensures added { OnOk result (IsPermutation (item_of id corners.now ∷ self.old) self.new) }
        ensures unchanged { OnErr result (self.new ≡ self.old) }
    {
        self.tree.insert(item(id, corners))
    }

    /// Takes out one rectangle with this ID and this box, and says whether there was one.
    pub(crate) fn remove(&mut self, id: u64, corners: &Corners) -> bool
        ensures taken { result ≡ true → IsPermutation self.old (item_of id corners.now ∷ self.new) }
        ensures none { result ≡ false → Contains self.old (item_of id corners.now) → ⊥ }
        ensures unchanged { result ≡ false → self.new ≡ self.old }
    {
        taken_out(&mut self.tree, &item(id, corners))
    }

    /// Whether there is a rectangle with this ID and this box.
    pub(crate) fn contains(&self, id: u64, corners: &Corners) -> bool
        ensures there { result ≡ true → Contains self.now (item_of id corners.now) }
        ensures none { result ≡ false → Contains self.now (item_of id corners.now) → ⊥ }
    {
        self.tree.contains(&item(id, corners))
    }

    /// Writes the corners and the IDs of all rectangles into two lists, as far as these reach, and gives how many there are.
    pub(crate) fn put_all(
        &self,
        boxes: &mut [Corners],
        ids: &mut [u64],
    ) -> Result<usize, AllocError>
        ensures counted { IfOk result (λ found. found ≡ length self.now) }
        ensures boxes { OnOk result (boxes.new ≡ over (map corners_of self.now) boxes.old) }
        ensures ids { OnOk result (ids.new ≡ over (map number self.now) ids.old) }
        ensures refused { OnErr result ((boxes.new ≡ boxes.old) × (ids.new ≡ ids.old)) }
    {
        let size = self.size();
        match self.tree.iter() {
            Ok(items) => {
                put_items(items, boxes, ids);
                Ok(size)
            }
            Err(refused) => Err(refused),
        }
    }

    /// Writes the IDs of the rectangles that a query selects into a list, from a place on and as far as it reaches. It gives
    /// the place behind the last, also where the list ends before.
    pub(crate) fn put_selected(&self, query: Query<Item>, ids: &mut [u64], from: usize) -> usize
        ensures { ArePut (map number (filter (selects ⟦<Item as Scanned>⟧.questions query) self.now)) from
            ids.old ids.new result }
    {
        put_selected(&self.tree, query, ids, from)
    }

    /// Writes the IDs and the squared distances of the rectangles nearest to a point into two lists, from a place on. They
    /// come in the order of neighbours. It gives the place behind the last.
    pub(crate) fn put_nearest(
        &self,
        place: &Place,
        most: usize,
        ids: &mut [u64],
        distances: &mut [i64],
        from: usize,
    ) -> Result<usize, AllocError>
        ensures put { IfOk result
            (AreNearestPut place.now most self.now from ids.old ids.new distances.old distances.new) }
        ensures refused { OnErr result ((ids.new ≡ ids.old) × (distances.new ≡ distances.old)) }
    {
        let near = self.tree.first_neighbors_by_order(&place.at, most)?;
        Ok(put_neighbours(&near, ids, distances, from))
    }

    /// The same for many points, one behind the other, from the first place of both lists on.
    pub(crate) fn put_each_nearest(
        &self,
        places: &[Place],
        most: usize,
        ids: &mut [u64],
        distances: &mut [i64],
    ) -> Result<usize, AllocError>
        ensures put { IfOk result
            (AreNearestEach places.now most self.now ids.old ids.new distances.old distances.new) }
        ensures refused { OnErr result ((count : ℕ) × (written : ℕ)
            × AreNearestEach (take count places.now) most self.now ids.old ids.new distances.old distances.new written) }
    {
        // The proof needs to know that the lengths fit.
        let (_room, _other) = (room_in(ids), room_in(distances));
        let mut next = 0;
        for place in places {
            next = self.put_nearest(place, most, ids, distances, next)?;
        }
        Ok(next)
    }

    /// Writes the IDs of the pairs of rectangles that intersect into two lists, each pair once, and gives how many there are.
    pub(crate) fn put_pairs(
        &self,
        first: &mut [u64],
        second: &mut [u64],
    ) -> Result<usize, AllocError>
        ensures given { IfOk result (ArePairsGiven number (self_join boxes_intersect box_of self.now)
            first.old first.new second.old second.new) }
        ensures refused { OnErr result ((first.new ≡ first.old) × (second.new ≡ second.old)) }
    {
        put_own_pairs(&self.tree, first, second)
    }

    /// The same of the pairs of a rectangle of one store and one of another.
    pub(crate) fn put_pairs_with(
        &self,
        other: &Store,
        first: &mut [u64],
        second: &mut [u64],
    ) -> Result<usize, AllocError>
        ensures given { IfOk result (ArePairsGiven number (join boxes_intersect box_of box_of self.now other.now)
            first.old first.new second.old second.new) }
        ensures refused { OnErr result ((first.new ≡ first.old) × (second.new ≡ second.old)) }
    {
        put_pairs_between(&self.tree, &other.tree, first, second)
    }

    /// Takes the rectangles out that a query selects, up to so many. `None` where memory is refused; all is as it was then.
    pub(crate) fn drain(&mut self, query: Query<Item>, most: usize) -> Option<Vec<Item>>
        ensures taken { IfSome result (λ taken. TakesSome (selects ⟦<Item as Scanned>⟧.questions query) most
            self.old taken.items self.new) }
        ensures refused { IfNone result (self.new ≡ self.old) }
    {
        drained(&mut self.tree, query, most)
    }

    /// Takes out the first rectangle in the order of neighbours.
    pub(crate) fn pop_nearest(&mut self, place: &Place) -> Result<Option<Item>, AllocError>
        ensures taken { IfOk result (λ r. IfSome r (λ t. IsPermutation self.old (t ∷ self.new))) }
        ensures first { IfOk result (λ r. IfSome r (λ t. IsLeast (IsBefore place.now) self.old t)) }
        ensures none { IfOk result (λ r. IfNone r (self.old ≡ [])) }
        ensures unchanged { IfOk result (λ r. IfNone r (self.new ≡ self.old)) }
        ensures refused { OnErr result (self.new ≡ self.old) }
    {
        self.tree.pop_nearest_neighbor_by_order(place.at)
    }
}

/// Takes one element that equals this one out of a tree, and says whether there was one.
fn taken_out<T: EqualEnvelopes, Params: RTreeParams>(
    tree: &mut RTree<T, Params>,
    element: &T,
) -> bool
    requires { IsWholeTree T.Envelope.boxes T.object Params.MAX_SIZE tree.old }
    ensures taken { result ≡ true → (t : T) × (T.eq t element.now ≡ true)
        × IsPermutation (elements_in tree.old) (t ∷ elements_in tree.new) }
    ensures none { result ≡ false → NoneSelected (λ t. T.eq t element.now) (elements_in tree.old) }
    ensures unchanged { result ≡ false → elements_in tree.new ≡ elements_in tree.old }
    ensures whole { IsWholeTree T.Envelope.boxes T.object Params.MAX_SIZE tree.new }
{
    match tree.remove(element) {
        Some(_) => true,
        None => false,
    }
}

/// The items of boxes and IDs.
fn listed(alloc: Global, boxes: &[Corners], ids: &[u64]) -> Result<Vec<Item>, AllocError>
    requires { length boxes.now ≡ length ids.now }
    ensures items { IfOk result (λ items. items.items ≡ items_of boxes.now ids.now) }
    ensures filled { IfOk result (λ items. All (λ item. is_empty_box (box_of item) ≡ false) items.items) }
{
    let mut items = Vec::with_capacity(alloc, ids.len())?;
    for (i, id) in ids.iter().enumerate() {
        items.push(item(*id, &boxes[i]))?;
    }
    Ok(items)
}
