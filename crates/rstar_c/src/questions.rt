//! The questions: which rectangles are asked for.

ghost use Rattle.std.specs.Prelude.{◌≡◌, ◌≢◌, ◌↔◌, ◌+◌, ◌<◌, filter, length};
ghost use Rattle.rstar_c.specs.Answers.{AreFound, IsDrained, IsFound};
ghost use Rattle.rstar_c.specs.Items.{covers, is_within, lies_in, meets, number};

use crate::items::{Corners, Item, Place, between};
use crate::put::{put_list, room_in};
use crate::statuses::{NO_MEMORY, NO_ROOM, OK};
use crate::store::Store;
use rstar::replay::{Query, Scanned};

/// A question, to be asked of one shape or of many.
pub(crate) trait Question: Copy {
    /// What it is asked of, a box or a point.
    type Shape;

    ghost use Rattle.std.specs.Prelude.{◌≡◌, Bool};
    ghost use Rattle.rstar.specs.Steps.{selects};
    ghost use Rattle.rstar_c.specs.Items.{Item};

    // Which items are asked for.
    ghost chosen: { Self → Self.Shape → Item → Bool };

    /// The query of a tree that selects these.
    fn query(self, shape: &Self::Shape) -> Query<Item>
        ensures { selects ⟦<Item as Scanned>⟧.questions result ≡ chosen self shape.now };
}

/// What meets a box.
#[derive(Clone, Copy)]
pub(crate) struct Meeting;

impl Question for Meeting {
    type Shape = Corners;

    ghost chosen = { λ _ corners item. meets corners item };

    fn query(self, shape: &Corners) -> Query<Item> {
        Query::Hit(between(shape))
    }
}

/// What lies inside a box.
#[derive(Clone, Copy)]
pub(crate) struct Inside;

impl Question for Inside {
    type Shape = Corners;

    ghost chosen = { λ _ corners item. lies_in corners item };

    fn query(self, shape: &Corners) -> Query<Item> {
        Query::In(between(shape))
    }
}

/// What a point lies in.
#[derive(Clone, Copy)]
pub(crate) struct At;

impl Question for At {
    type Shape = Place;

    ghost chosen = { λ _ place item. covers place item };

    fn query(self, shape: &Place) -> Query<Item> {
        Query::At(shape.at)
    }
}

/// What is within a squared distance of a point: the question is that distance.
impl Question for i64 {
    type Shape = Place;

    ghost chosen = { λ distance place item. is_within distance place item };

    fn query(self, shape: &Place) -> Query<Item> {
        Query::Within(shape.at, self)
    }
}

/// Asks one shape, into a list from its begin, and gives how many rectangles there are.
pub(crate) fn put_found<Q: Question>(
    store: &Store,
    question: Q,
    shape: &Q::Shape,
    ids: &mut [u64],
) -> usize
    ensures { IsFound number (filter (Q.chosen question shape.now) store.now) ids.old ids.new result }
{
    // A count of the items fits, and so does one of those that are chosen.
    let size = store.size();
    let _ = size;
    store.put_selected(question.query(shape), ids, 0)
}

/// Asks many shapes, one behind the other: where the IDs of each begin, and at last where they end.
pub(crate) fn put_each<Q: Question>(
    store: &Store,
    question: Q,
    shapes: &[Q::Shape],
    offsets: &mut [usize],
    ids: &mut [u64],
)
    requires { length offsets.old ≡ length shapes.now + 1 }
    ensures { AreFound number (λ a. filter (Q.chosen question a) store.now) shapes.now offsets.new ids.old ids.new }
{
    // The proof needs to know that the length fits.
    let _room = room_in(ids);
    let mut next = 0;
    for (i, shape) in shapes.iter().enumerate() {
        offsets[i] = next;
        next = store.put_selected(question.query(shape), ids, next);
    }
    offsets[shapes.len()] = next;
}

/// Takes the rectangles out that a question chooses, and writes their IDs, where the list has room for them.
pub(crate) fn put_drained<Q: Question>(
    store: &mut Store,
    question: Q,
    shape: &Q::Shape,
    ids: &mut [u64],
    found: &mut usize,
) -> i32
    ensures drained { result ≡ OK → IsDrained (Q.chosen question shape.now) store.old store.new ids.old ids.new found.new }
    ensures unchanged { result ≢ OK → (store.new ≡ store.old) × (ids.new ≡ ids.old) }
    ensures room { (result ≡ NO_ROOM) ↔ (length ids.old < length (filter (Q.chosen question shape.now) store.old)) }
    ensures wanted { result ≡ NO_ROOM → found.new ≡ length (filter (Q.chosen question shape.now) store.old) }
    ensures refused { result ≢ OK → result ≢ NO_ROOM → (result ≡ NO_MEMORY) × (found.new ≡ found.old) }
{
    let count = put_found(store, question, shape, &mut []);
    if ids.len() < count {
        *found = count;
        return NO_ROOM;
    }
    match store.drain(question.query(shape), count) {
        Some(taken) => {
            *found = put_list(&taken, ids);
            OK
        }
        None => NO_MEMORY,
    }
}
