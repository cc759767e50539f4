//! Questions for the rectangles that a box or a point selects. None takes memory.

ghost use Rattle.std.specs.Prelude.{◌≡◌, ◌≢◌, ◌↔◌, ◌+◌, filter, length};
ghost use Rattle.rstar_c.specs.Answers.{IsFound, AreFound};
ghost use Rattle.rstar_c.specs.Handles.{items_in};
ghost use Rattle.rstar_c.specs.Items.{covers, is_within, lies_in, meets, number};

use crate::index::{Index, taken};
use crate::items::{Corners, Place};
use crate::questions::{At, Inside, Meeting, Question, put_each, put_found};
use crate::statuses::{BAD_LENGTH, OK};
use crate::store::Store;
use std::alloc::Global;

/// Writes the IDs of the rectangles that a question chooses, as many as there is room for, and gives how many there are.
fn ask<Q: Question>(
    alloc: Global,
    index: &mut Index,
    question: Q,
    shape: &Q::Shape,
    ids: &mut [u64],
) -> usize
    ensures same { index.new.held.value ≡ index.old.held.value }
    ensures found { IsFound number (filter (Q.chosen question shape.now) (items_in index.old)) ids.old ids.new result }
{
    match taken(alloc, index) {
        Some(store) => {
            let found = put_found(&store, question, shape, ids);
            *index = Index::of(store);
            found
        }
        None => 0,
    }
}

/// The same for many shapes: where the IDs of each begin, and at last where they end.
fn ask_each<Q: Question>(
    alloc: Global,
    index: &mut Index,
    question: Q,
    shapes: &[Q::Shape],
    offsets: &mut [usize],
    ids: &mut [u64],
) -> i32
    ensures same { index.new.held.value ≡ index.old.held.value }
    ensures found { result ≡ OK
        → AreFound number (λ a. filter (Q.chosen question a) (items_in index.old)) shapes.now offsets.new
        ids.old ids.new }
    ensures lengths { (result ≡ OK) ↔ (length offsets.old ≡ length shapes.now + 1) }
    ensures refused { result ≢ OK → (result ≡ BAD_LENGTH) × (offsets.new ≡ offsets.old) × (ids.new ≡ ids.old) }
{
    if offsets.is_empty() || offsets.len() - 1 != shapes.len() {
        return BAD_LENGTH;
    }
    match taken(alloc, index) {
        Some(store) => {
            put_each(&store, question, shapes, offsets, ids);
            *index = Index::of(store);
        }
        None => put_each(&Store::new(alloc), question, shapes, offsets, ids),
    }
    OK
}

/// Writes the IDs of the rectangles that meet a box, and gives how many there are. Touching is enough.
#[unsafe(no_mangle)]
pub extern "C" fn rstar_index_meeting(
    alloc: Global,
    index: &mut Index,
    area: &Corners,
    ids: &mut [u64],
) -> usize
    ensures same { index.new.held.value ≡ index.old.held.value }
    ensures found { IsFound number (filter (meets area.now) (items_in index.old)) ids.old ids.new result }
{
    ask(alloc, index, Meeting, area, ids)
}

/// Writes the IDs of the rectangles that lie inside a box, and gives how many there are. They may touch its border.
#[unsafe(no_mangle)]
pub extern "C" fn rstar_index_inside(
    alloc: Global,
    index: &mut Index,
    area: &Corners,
    ids: &mut [u64],
) -> usize
    ensures same { index.new.held.value ≡ index.old.held.value }
    ensures found { IsFound number (filter (lies_in area.now) (items_in index.old)) ids.old ids.new result }
{
    ask(alloc, index, Inside, area, ids)
}

/// Writes the IDs of the rectangles that a point lies in, or on the border of, and gives how many there are.
#[unsafe(no_mangle)]
pub extern "C" fn rstar_index_at(
    alloc: Global,
    index: &mut Index,
    place: &Place,
    ids: &mut [u64],
) -> usize
    ensures same { index.new.held.value ≡ index.old.held.value }
    ensures found { IsFound number (filter (covers place.now) (items_in index.old)) ids.old ids.new result }
{
    ask(alloc, index, At, place, ids)
}

/// Writes the IDs of the rectangles whose squared distance from a point is at most `distance`, and gives how many there are.
#[unsafe(no_mangle)]
pub extern "C" fn rstar_index_within(
    alloc: Global,
    index: &mut Index,
    place: &Place,
    distance: i64,
    ids: &mut [u64],
) -> usize
    ensures same { index.new.held.value ≡ index.old.held.value }
    ensures found { IsFound number (filter (is_within distance place.now) (items_in index.old)) ids.old ids.new result }
{
    ask(alloc, index, distance, place, ids)
}

/// The same as `rstar_index_meeting` for many boxes.
#[unsafe(no_mangle)]
pub extern "C" fn rstar_index_meeting_each(
    alloc: Global,
    index: &mut Index,
    areas: &[Corners],
    offsets: &mut [usize],
    ids: &mut [u64],
) -> i32
    ensures same { index.new.held.value ≡ index.old.held.value }
    ensures found { result ≡ OK → AreFound number (λ a. filter (meets a) (items_in index.old)) areas.now
        offsets.new ids.old ids.new }
    ensures lengths { (result ≡ OK) ↔ (length offsets.old ≡ length areas.now + 1) }
    ensures refused { result ≢ OK → (result ≡ BAD_LENGTH) × (offsets.new ≡ offsets.old) × (ids.new ≡ ids.old) }
{
    ask_each(alloc, index, Meeting, areas, offsets, ids)
}

/// The same as `rstar_index_inside` for many boxes.
#[unsafe(no_mangle)]
pub extern "C" fn rstar_index_inside_each(
    alloc: Global,
    index: &mut Index,
    areas: &[Corners],
    offsets: &mut [usize],
    ids: &mut [u64],
) -> i32
    ensures same { index.new.held.value ≡ index.old.held.value }
    ensures found { result ≡ OK → AreFound number (λ a. filter (lies_in a) (items_in index.old)) areas.now
        offsets.new ids.old ids.new }
    ensures lengths { (result ≡ OK) ↔ (length offsets.old ≡ length areas.now + 1) }
    ensures refused { result ≢ OK → (result ≡ BAD_LENGTH) × (offsets.new ≡ offsets.old) × (ids.new ≡ ids.old) }
{
    ask_each(alloc, index, Inside, areas, offsets, ids)
}

/// The same as `rstar_index_at` for many points.
#[unsafe(no_mangle)]
pub extern "C" fn rstar_index_at_each(
    alloc: Global,
    index: &mut Index,
    places: &[Place],
    offsets: &mut [usize],
    ids: &mut [u64],
) -> i32
    ensures same { index.new.held.value ≡ index.old.held.value }
    ensures found { result ≡ OK → AreFound number (λ a. filter (covers a) (items_in index.old)) places.now
        offsets.new ids.old ids.new }
    ensures lengths { (result ≡ OK) ↔ (length offsets.old ≡ length places.now + 1) }
    ensures refused { result ≢ OK → (result ≡ BAD_LENGTH) × (offsets.new ≡ offsets.old) × (ids.new ≡ ids.old) }
{
    ask_each(alloc, index, At, places, offsets, ids)
}

/// The same as `rstar_index_within` for many points.
#[unsafe(no_mangle)]
pub extern "C" fn rstar_index_within_each(
    alloc: Global,
    index: &mut Index,
    places: &[Place],
    distance: i64,
    offsets: &mut [usize],
    ids: &mut [u64],
) -> i32
    ensures same { index.new.held.value ≡ index.old.held.value }
    ensures found { result ≡ OK → AreFound number (λ a. filter (is_within distance a) (items_in index.old)) places.now
        offsets.new ids.old ids.new }
    ensures lengths { (result ≡ OK) ↔ (length offsets.old ≡ length places.now + 1) }
    ensures refused { result ≢ OK → (result ≡ BAD_LENGTH) × (offsets.new ≡ offsets.old) × (ids.new ≡ ids.old) }
{
    ask_each(alloc, index, distance, places, offsets, ids)
}
