//! Rectangles that are taken out by a question.

ghost use Rattle.std.specs.Prelude.{◌≡◌, ◌≢◌, ◌↔◌, ◌<◌, [], filter, length};
ghost use Rattle.rstar_c.specs.Answers.{IsDrained};
ghost use Rattle.rstar_c.specs.Handles.{items_in};
ghost use Rattle.rstar_c.specs.Items.{covers, is_within, lies_in, meets};

use crate::index::{Index, taken};
use crate::items::{Corners, Place};
use crate::questions::{At, Inside, Meeting, Question, put_drained};
use crate::statuses::{NO_MEMORY, NO_ROOM, OK};
use std::alloc::Global;

/// Takes the rectangles out that a question chooses, and writes their IDs. Where the list is too short for these nothing
/// is taken out, and `found` says how long it must be.
fn take<Q: Question>(
    alloc: Global,
    index: &mut Index,
    question: Q,
    shape: &Q::Shape,
    ids: &mut [u64],
    found: &mut usize,
) -> i32
    ensures drained { result ≡ OK → IsDrained (Q.chosen question shape.now) (items_in index.old) (items_in index.new)
        ids.old ids.new found.new }
    ensures unchanged { result ≢ OK → (index.new.held.value ≡ index.old.held.value) × (ids.new ≡ ids.old) }
    ensures room { (result ≡ NO_ROOM) ↔ (length ids.old < length (filter (Q.chosen question shape.now) (items_in index.old))) }
    ensures wanted { result ≡ NO_ROOM → found.new ≡ length (filter (Q.chosen question shape.now) (items_in index.old)) }
    ensures refused { result ≢ OK → result ≢ NO_ROOM → (result ≡ NO_MEMORY) × (found.new ≡ found.old) }
    ensures empty { index.old.held.value ≡ [] → (result ≡ OK) × (index.new.held.value ≡ []) }
{
    let Some(mut store) = taken(alloc, index) else {
        *found = 0;
        return OK;
    };
    let status = put_drained(&mut store, question, shape, ids, found);
    *index = Index::of(store);
    status
}

/// Takes the rectangles out that meet a box, and writes their IDs. Where the list is too short for these nothing is
/// taken out, and `found` says how long it must be.
#[unsafe(no_mangle)]
pub extern "C" fn rstar_index_drain_meeting(
    alloc: Global,
    index: &mut Index,
    area: &Corners,
    ids: &mut [u64],
    found: &mut usize,
) -> i32
    ensures drained { result ≡ OK
        → IsDrained (meets area.now) (items_in index.old) (items_in index.new) ids.old ids.new found.new }
    ensures unchanged { result ≢ OK → (index.new.held.value ≡ index.old.held.value) × (ids.new ≡ ids.old) }
    ensures room { (result ≡ NO_ROOM) ↔ (length ids.old < length (filter (meets area.now) (items_in index.old))) }
    ensures wanted { result ≡ NO_ROOM → found.new ≡ length (filter (meets area.now) (items_in index.old)) }
    ensures refused { result ≢ OK → result ≢ NO_ROOM → (result ≡ NO_MEMORY) × (found.new ≡ found.old) }
    ensures empty { index.old.held.value ≡ [] → (result ≡ OK) × (index.new.held.value ≡ []) }
{
    take(alloc, index, Meeting, area, ids, found)
}

/// Takes the rectangles out that lie inside a box, and writes their IDs. Where the list is too short for these nothing is
/// taken out, and `found` says how long it must be.
#[unsafe(no_mangle)]
pub extern "C" fn rstar_index_drain_inside(
    alloc: Global,
    index: &mut Index,
    area: &Corners,
    ids: &mut [u64],
    found: &mut usize,
) -> i32
    ensures drained { result ≡ OK
        → IsDrained (lies_in area.now) (items_in index.old) (items_in index.new) ids.old ids.new found.new }
    ensures unchanged { result ≢ OK → (index.new.held.value ≡ index.old.held.value) × (ids.new ≡ ids.old) }
    ensures room { (result ≡ NO_ROOM) ↔ (length ids.old < length (filter (lies_in area.now) (items_in index.old))) }
    ensures wanted { result ≡ NO_ROOM → found.new ≡ length (filter (lies_in area.now) (items_in index.old)) }
    ensures refused { result ≢ OK → result ≢ NO_ROOM → (result ≡ NO_MEMORY) × (found.new ≡ found.old) }
    ensures empty { index.old.held.value ≡ [] → (result ≡ OK) × (index.new.held.value ≡ []) }
{
    take(alloc, index, Inside, area, ids, found)
}

/// Takes the rectangles out that a point lies in, or on the border of, and writes their IDs. Where the list is too
/// short for these nothing is taken out, and `found` says how long it must be.
#[unsafe(no_mangle)]
pub extern "C" fn rstar_index_drain_at(
    alloc: Global,
    index: &mut Index,
    place: &Place,
    ids: &mut [u64],
    found: &mut usize,
) -> i32
    ensures drained { result ≡ OK
        → IsDrained (covers place.now) (items_in index.old) (items_in index.new) ids.old ids.new found.new }
    ensures unchanged { result ≢ OK → (index.new.held.value ≡ index.old.held.value) × (ids.new ≡ ids.old) }
    ensures room { (result ≡ NO_ROOM) ↔ (length ids.old < length (filter (covers place.now) (items_in index.old))) }
    ensures wanted { result ≡ NO_ROOM → found.new ≡ length (filter (covers place.now) (items_in index.old)) }
    ensures refused { result ≢ OK → result ≢ NO_ROOM → (result ≡ NO_MEMORY) × (found.new ≡ found.old) }
    ensures empty { index.old.held.value ≡ [] → (result ≡ OK) × (index.new.held.value ≡ []) }
{
    take(alloc, index, At, place, ids, found)
}

/// Takes the rectangles out whose squared distance from a point is at most `distance`, and writes their IDs. Where the
/// list is too short for these nothing is taken out, and `found` says how long it must be.
#[unsafe(no_mangle)]
pub extern "C" fn rstar_index_drain_within(
    alloc: Global,
    index: &mut Index,
    place: &Place,
    distance: i64,
    ids: &mut [u64],
    found: &mut usize,
) -> i32
    ensures drained { result ≡ OK
        → IsDrained (is_within distance place.now) (items_in index.old) (items_in index.new) ids.old ids.new found.new }
    ensures unchanged { result ≢ OK → (index.new.held.value ≡ index.old.held.value) × (ids.new ≡ ids.old) }
    ensures room { (result ≡ NO_ROOM) ↔ (length ids.old < length (filter (is_within distance place.now) (items_in index.old))) }
    ensures wanted { result ≡ NO_ROOM → found.new ≡ length (filter (is_within distance place.now) (items_in index.old)) }
    ensures refused { result ≢ OK → result ≢ NO_ROOM → (result ≡ NO_MEMORY) × (found.new ≡ found.old) }
    ensures empty { index.old.held.value ≡ [] → (result ≡ OK) × (index.new.held.value ≡ []) }
{
    take(alloc, index, distance, place, ids, found)
}
