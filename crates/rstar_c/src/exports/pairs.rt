//! The pairs of rectangles that meet.

ghost use Rattle.std.specs.Prelude.{◌≡◌, ◌≢◌, ◌↔◌, [], length};
ghost use Rattle.rstar.specs.Joins.{join};
ghost use Rattle.rstar.specs.SelfJoins.{self_join};
ghost use Rattle.rstar_base.specs.Boxes.{boxes_intersect};
ghost use Rattle.rstar_c.specs.Answers.{ArePairsGiven};
ghost use Rattle.rstar_c.specs.Handles.{items_in};
ghost use Rattle.rstar_c.specs.Items.{box_of, number};

use crate::index::{Index, taken};
use crate::statuses::{BAD_LENGTH, NO_MEMORY, OK};
use crate::store::Store;
use std::alloc::Global;

/// Writes the IDs of the pairs of rectangles that meet: each pair once, and none with itself. Touching is enough.
#[unsafe(no_mangle)]
pub extern "C" fn rstar_index_pairs(
    alloc: Global,
    index: &mut Index,
    first: &mut [u64],
    second: &mut [u64],
    found: &mut usize,
) -> i32
    ensures same { index.new.held.value ≡ index.old.held.value }
    ensures given { result ≡ OK → ArePairsGiven number (self_join boxes_intersect box_of (items_in index.old))
        first.old first.new second.old second.new found.new }
    ensures lengths { (result ≡ BAD_LENGTH) ↔ (length first.old ≢ length second.old) }
    ensures refused { result ≢ OK → result ≢ BAD_LENGTH → result ≡ NO_MEMORY }
    ensures empty { index.old.held.value ≡ [] → result ≢ NO_MEMORY }
    ensures unwritten { result ≢ OK → (first.new ≡ first.old) × (second.new ≡ second.old) × (found.new ≡ found.old) }
{
    if first.len() != second.len() {
        return BAD_LENGTH;
    }
    let Some(store) = taken(alloc, index) else {
        *found = 0;
        return OK;
    };
    let status = match store.put_pairs(first, second) {
        Ok(count) => {
            *found = count;
            OK
        }
        Err(_) => NO_MEMORY,
    };
    *index = Index::of(store);
    status
}

/// Writes the IDs of the pairs of a rectangle of one index and one of another that meet.
#[unsafe(no_mangle)]
pub extern "C" fn rstar_index_pairs_between(
    alloc: Global,
    index: &mut Index,
    other: &mut Index,
    first: &mut [u64],
    second: &mut [u64],
    found: &mut usize,
) -> i32
    ensures same { index.new.held.value ≡ index.old.held.value }
    ensures other { other.new.held.value ≡ other.old.held.value }
    ensures given { result ≡ OK → ArePairsGiven number
        (join boxes_intersect box_of box_of (items_in index.old) (items_in other.old))
        first.old first.new second.old second.new found.new }
    ensures lengths { (result ≡ BAD_LENGTH) ↔ (length first.old ≢ length second.old) }
    ensures refused { result ≢ OK → result ≢ BAD_LENGTH → result ≡ NO_MEMORY }
    ensures empty { index.old.held.value ≡ [] → result ≢ NO_MEMORY }
    ensures other_empty { other.old.held.value ≡ [] → result ≢ NO_MEMORY }
    ensures unwritten { result ≢ OK → (first.new ≡ first.old) × (second.new ≡ second.old) × (found.new ≡ found.old) }
{
    if first.len() != second.len() {
        return BAD_LENGTH;
    }
    let Some(store) = taken(alloc, index) else {
        *found = 0;
        return OK;
    };
    let status = put_with(alloc, &store, other, first, second, found);
    *index = Index::of(store);
    status
}

/// Writes the IDs of the pairs of a rectangle of a store and one of another index that meet.
fn put_with(
    alloc: Global,
    store: &Store,
    other: &mut Index,
    first: &mut [u64],
    second: &mut [u64],
    found: &mut usize,
) -> i32
    ensures other { other.new.held.value ≡ other.old.held.value }
    ensures given { result ≡ OK → ArePairsGiven number (join boxes_intersect box_of box_of store.now (items_in other.old))
        first.old first.new second.old second.new found.new }
    ensures unwritten { result ≢ OK → (first.new ≡ first.old) × (second.new ≡ second.old) × (found.new ≡ found.old) }
    ensures refused { result ≢ OK → result ≡ NO_MEMORY }
    ensures empty { other.old.held.value ≡ [] → result ≡ OK }
{
    let Some(held) = taken(alloc, other) else {
        *found = 0;
        return OK;
    };
    let status = match store.put_pairs_with(&held, first, second) {
        Ok(count) => {
            *found = count;
            OK
        }
        Err(_) => NO_MEMORY,
    };
    *other = Index::of(held);
    status
}
