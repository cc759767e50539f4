//! What changes an index, and what tells what it holds.

ghost use Rattle.std.specs.Prelude.{◌≡◌, ◌≢◌, ◌↔◌, [], ◌∷◌, true, false, length, map};
ghost use Rattle.std.specs.List.{Contains};
ghost use Rattle.std.specs.List.Sorted.{IsPermutation};
ghost use Rattle.rstar_c.specs.Handles.{items_in};
ghost use Rattle.rstar_c.specs.Items.{corners_of, item_of, items_of, number};
ghost use Rattle.rstar_c.specs.Put.{over};

use crate::index::{Index, taken};
use crate::items::Corners;
use crate::statuses::{BAD_LENGTH, NO_MEMORY, OK, TOO_MANY};
use crate::store::Store;
use std::alloc::Global;

/// Takes all rectangles out, and frees their memory. The handle may be used again.
#[unsafe(no_mangle)]
pub extern "C" fn rstar_index_clear(alloc: Global, index: &mut Index)
    ensures { index.new.held.value ≡ [] }
{
    *index = Index::none(alloc);
}

/// The number of rectangles.
#[unsafe(no_mangle)]
pub extern "C" fn rstar_index_len(alloc: Global, index: &mut Index) -> usize
    ensures counted { result ≡ length (items_in index.old) }
    ensures same { index.new.held.value ≡ index.old.held.value }
{
    match taken(alloc, index) {
        Some(store) => {
            let size = store.size();
            *index = Index::of(store);
            size
        }
        None => 0,
    }
}

/// Rectangles in the place of all that a handle holds, loaded at once: a box and an ID each.
#[unsafe(no_mangle)]
pub extern "C" fn rstar_index_load(
    alloc: Global,
    index: &mut Index,
    boxes: &[Corners],
    ids: &[u64],
) -> i32
    ensures loaded { result ≡ OK → IsPermutation (items_of boxes.now ids.now) (items_in index.new) }
    ensures unchanged { result ≢ OK → index.new.held.value ≡ index.old.held.value }
    ensures lengths { (result ≡ BAD_LENGTH) ↔ (length boxes.now ≢ length ids.now) }
    ensures refused { result ≢ OK → result ≢ BAD_LENGTH → result ≡ NO_MEMORY }
{
    if boxes.len() != ids.len() {
        return BAD_LENGTH;
    }
    match Store::load(alloc, boxes, ids) {
        Ok(store) => match Box::new(alloc, store) {
            Ok(store) => {
                *index = Index::of(store);
                OK
            }
            Err(_) => NO_MEMORY,
        },
        Err(_) => NO_MEMORY,
    }
}

/// One rectangle more, between two corners.
#[unsafe(no_mangle)]
pub extern "C" fn rstar_index_insert(
    alloc: Global,
    index: &mut Index,
    id: u64,
    corners: &Corners,
) -> i32
    ensures added { result ≡ OK → IsPermutation (item_of id corners.now ∷ items_in index.old) (items_in index.new) }
    ensures unchanged { result ≢ OK → index.new.held.value ≡ index.old.held.value }
    ensures many { (result ≡ TOO_MANY) ↔ (length (items_in index.old) ≡ usize.MAX) }
    ensures refused { result ≢ OK → result ≢ TOO_MANY → result ≡ NO_MEMORY }
{
    match taken(alloc, index) {
        Some(mut store) => {
            let status = if store.size() == usize::MAX {
                TOO_MANY
            } else {
                match store.insert(id, corners) {
                    Ok(()) => OK,
                    Err(_) => NO_MEMORY,
                }
            };
            *index = Index::of(store);
            status
        }
        // An insertion that is refused leaves an empty handle empty.
        None => match Box::new(alloc, Store::new(alloc)) {
            Ok(mut store) => match store.insert(id, corners) {
                Ok(()) => {
                    *index = Index::of(store);
                    OK
                }
                Err(_) => NO_MEMORY,
            },
            Err(_) => NO_MEMORY,
        },
    }
}

/// Takes one rectangle with this ID and this box out. `false` means that there was none.
#[unsafe(no_mangle)]
pub extern "C" fn rstar_index_remove(
    alloc: Global,
    index: &mut Index,
    id: u64,
    corners: &Corners,
) -> bool
    ensures taken { result ≡ true → IsPermutation (items_in index.old) (item_of id corners.now ∷ items_in index.new) }
    ensures none { result ≡ false → Contains (items_in index.old) (item_of id corners.now) → ⊥ }
    ensures unchanged { result ≡ false → index.new.held.value ≡ index.old.held.value }
{
    match taken(alloc, index) {
        Some(mut store) => {
            let was_there = store.remove(id, corners);
            *index = Index::of(store);
            was_there
        }
        None => false,
    }
}

/// Whether there is a rectangle with this ID and this box.
#[unsafe(no_mangle)]
pub extern "C" fn rstar_index_contains(
    alloc: Global,
    index: &mut Index,
    id: u64,
    corners: &Corners,
) -> bool
    ensures there { (result ≡ true) ↔ Contains (items_in index.old) (item_of id corners.now) }
    ensures same { index.new.held.value ≡ index.old.held.value }
{
    match taken(alloc, index) {
        Some(store) => {
            let is_there = store.contains(id, corners);
            *index = Index::of(store);
            is_there
        }
        None => false,
    }
}

/// Writes the corners, the lower one first, and the IDs of all rectangles, as many as there is room for, and how many there
/// are.
#[unsafe(no_mangle)]
pub extern "C" fn rstar_index_items(
    alloc: Global,
    index: &mut Index,
    boxes: &mut [Corners],
    ids: &mut [u64],
    found: &mut usize,
) -> i32
    ensures same { index.new.held.value ≡ index.old.held.value }
    ensures counted { result ≡ OK → found.new ≡ length (items_in index.old) }
    ensures boxes { result ≡ OK → boxes.new ≡ over (map corners_of (items_in index.old)) boxes.old }
    ensures ids { result ≡ OK → ids.new ≡ over (map number (items_in index.old)) ids.old }
    ensures refused { result ≢ OK → (result ≡ NO_MEMORY) × (boxes.new ≡ boxes.old) × (ids.new ≡ ids.old)
        × (found.new ≡ found.old) }
    ensures empty { index.old.held.value ≡ [] → result ≡ OK }
{
    let Some(store) = taken(alloc, index) else {
        *found = 0;
        return OK;
    };
    let status = match store.put_all(boxes, ids) {
        Ok(count) => {
            *found = count;
            OK
        }
        Err(_) => NO_MEMORY,
    };
    *index = Index::of(store);
    status
}
