//! Nearest rectangles. They come by distance, at equal distance by their corners, and then by their IDs.

ghost use Rattle.std.specs.Prelude.{◌≡◌, ◌≢◌, ◌↔◌, ◌*◌, ◌⊎◌, ℕ, [], ◌∷◌, pos, true, false, length, min, take};
ghost use Rattle.std.specs.List.Sorted.{IsPermutation};
ghost use Rattle.rstar.specs.Lists.{IsLeast};
ghost use Rattle.rstar_c.specs.Answers.{AreNearestPut, AreNearestEach};
ghost use Rattle.rstar_c.specs.Handles.{items_in};
ghost use Rattle.rstar_c.specs.Items.{Item, corners_of, distance_to, IsBefore, number};

use crate::index::{Index, taken};
use crate::items::{Corners, Place, corners_of};
use crate::statuses::{BAD_LENGTH, NO_MEMORY, OK};
use rstar::PointDistance;
use std::alloc::Global;

/// Writes the IDs and the squared distances of the rectangles nearest to a point, as many as both lists have room for, and
/// how many these are.
#[unsafe(no_mangle)]
pub extern "C" fn rstar_index_nearest(
    alloc: Global,
    index: &mut Index,
    place: &Place,
    ids: &mut [u64],
    distances: &mut [i64],
    found: &mut usize,
) -> i32
    ensures same { index.new.held.value ≡ index.old.held.value }
    ensures put { result ≡ OK → AreNearestPut place.now (length ids.old) (items_in index.old) 0 ids.old ids.new
        distances.old distances.new found.new }
    ensures lengths { (result ≡ BAD_LENGTH) ↔ (length ids.old ≢ length distances.old) }
    ensures refused { result ≢ OK → result ≢ BAD_LENGTH → result ≡ NO_MEMORY }
    ensures empty { index.old.held.value ≡ [] → result ≢ NO_MEMORY }
    ensures unwritten { result ≢ OK → (ids.new ≡ ids.old) × (distances.new ≡ distances.old) × (found.new ≡ found.old) }
{
    if ids.len() != distances.len() {
        return BAD_LENGTH;
    }
    let most = ids.len();
    let Some(store) = taken(alloc, index) else {
        *found = 0;
        return OK;
    };
    let status = match store.put_nearest(place, most, ids, distances, 0) {
        Ok(count) => {
            *found = count;
            OK
        }
        Err(_) => NO_MEMORY,
    };
    *index = Index::of(store);
    status
}

/// The same for many points, `most` for each, the rectangles of one point behind those of the other. Each point gets the
/// lesser of `most` and the number of rectangles; `found` says how many that is. Where memory is refused both lists have
/// the answers for the first points.
#[unsafe(no_mangle)]
pub extern "C" fn rstar_index_nearest_each(
    alloc: Global,
    index: &mut Index,
    places: &[Place],
    most: usize,
    ids: &mut [u64],
    distances: &mut [i64],
    found: &mut usize,
) -> i32
    ensures same { index.new.held.value ≡ index.old.held.value }
    ensures put { result ≡ OK → (written : ℕ) × AreNearestEach places.now most (items_in index.old) ids.old ids.new
        distances.old distances.new written }
    ensures counted { result ≡ OK → found.new ≡ min most (length (items_in index.old)) }
    ensures lengths { (result ≡ BAD_LENGTH) ↔ ((length ids.old ≢ length places.now * most)
        ⊎ (length distances.old ≢ length places.now * most)) }
    ensures refused { result ≢ OK → result ≢ BAD_LENGTH → result ≡ NO_MEMORY }
    ensures empty { index.old.held.value ≡ [] → result ≢ NO_MEMORY }
    ensures uncounted { result ≢ OK → found.new ≡ found.old }
    ensures partly { result ≡ NO_MEMORY → (count : ℕ) × (written : ℕ) × AreNearestEach (take count places.now) most
        (items_in index.old) ids.old ids.new distances.old distances.new written }
    ensures unwritten { result ≡ BAD_LENGTH → (ids.new ≡ ids.old) × (distances.new ≡ distances.old) }
{
    if !are_long(places.len(), most, ids.len(), distances.len()) {
        return BAD_LENGTH;
    }
    let Some(store) = taken(alloc, index) else {
        *found = 0;
        return OK;
    };
    let status = match store.put_each_nearest(places, most, ids, distances) {
        Ok(_) => {
            *found = most.min(store.size());
            OK
        }
        Err(_) => NO_MEMORY,
    };
    *index = Index::of(store);
    status
}

/// Whether two lists have room for `most` answers to each of so many questions, and for no more.
fn are_long(count: usize, most: usize, room: usize, other_room: usize) -> bool
    ensures long { result ≡ true → (room ≡ count * most) × (other_room ≡ count * most) }
    ensures not { result ≡ false → (room ≢ count * most) ⊎ (other_room ≢ count * most) }
{
    match count.checked_mul(most) {
        Some(wanted) => room == wanted && other_room == wanted,
        None => false,
    }
}

/// Takes the first rectangle in the order of neighbours out, and writes its ID, its corners and its squared distance.
/// `found` is false where there was none, and nothing else is written then.
#[unsafe(no_mangle)]
pub extern "C" fn rstar_index_pop_nearest(
    alloc: Global,
    index: &mut Index,
    place: &Place,
    id: &mut u64,
    corners: &mut Corners,
    distance: &mut i64,
    found: &mut bool,
) -> i32
    ensures taken { result ≡ OK → found.new ≡ true → (item : Item)
        × IsLeast (IsBefore place.now) (items_in index.old) item
        × IsPermutation (items_in index.old) (item ∷ items_in index.new)
        × (id.new ≡ number item) × (corners.new ≡ corners_of item) × (distance.new ≡ pos (distance_to place.now item)) }
    ensures none { result ≡ OK → found.new ≡ false → items_in index.old ≡ [] }
    ensures same { (result ≡ OK → found.new ≡ false) → index.new.held.value ≡ index.old.held.value }
    ensures unwritten { (result ≡ OK → found.new ≡ false)
        → (id.new ≡ id.old) × (corners.new ≡ corners.old) × (distance.new ≡ distance.old) }
    ensures refused { result ≢ OK → (result ≡ NO_MEMORY) × (found.new ≡ found.old) }
    ensures empty { index.old.held.value ≡ [] → result ≡ OK }
{
    let Some(mut store) = taken(alloc, index) else {
        *found = false;
        return OK;
    };
    let status = match store.pop_nearest(place) {
        Ok(Some(item)) => {
            *id = item.data;
            *corners = corners_of(&item);
            *distance = item.distance_2(&place.at);
            *found = true;
            OK
        }
        Ok(None) => {
            *found = false;
            OK
        }
        Err(_) => NO_MEMORY,
    };
    *index = Index::of(store);
    status
}
