//! Numbers that are written into a caller's lists.

ghost use Rattle.std.specs.Prelude.{◌≡◌, ◌+◌, length, map, min};
ghost use Rattle.std.specs.Iterator.{IsFinite};
ghost use Rattle.rstar_c.specs.Items.{corners_of, number};
ghost use Rattle.rstar_c.specs.Put.{over, put_from, IsTwicePut};

use crate::items::{Corners, Item, corners_of};
use rstar_base::primitives::GeomWithData;

/// How many numbers a list has room for, as a number that fits.
#[inline]
pub(crate) fn room_in<X>(list: &[X]) -> usize
    ensures { result ≡ length list.now }
{
    list.len()
}

/// Writes the numbers of all pairs that an iterator gives into two lists, as far as these reach, and gives how many pairs
/// there are.
pub(crate) fn put_pairs<
    'a,
    R: 'a,
    I: Iterator<Item = (&'a GeomWithData<R, u64>, &'a GeomWithData<R, u64>)>,
>(pairs: I, first: &mut [u64], second: &mut [u64]) -> usize
where
    requires can { I.can_next pairs }
    requires ends { IsFinite (I.remaining pairs) }
    ensures { IsTwicePut I.next_gives (λ p. p.0.now.1) (λ p. p.1.now.1) pairs first.old first.new second.old second.new
        result }
{
    let (room, other_room) = (room_in(first), room_in(second));
    let mut next = 0;
    for (one, other) in pairs {
        if next < room {
            first[next] = one.data;
        }
        if next < other_room {
            second[next] = other.data;
        }
        next = next.saturating_add(1);
    }
    next
}

/// Writes the numbers and the distances of a list into two lists, from a place on and as far as these reach. It gives the
/// place behind the last, also where a list ends before.
pub(crate) fn put_neighbours<R, S: Copy + Drop>(
    near: &[(&GeomWithData<R, u64>, S)],
    ids: &mut [u64],
    distances: &mut [S],
    from: usize,
) -> usize
    ensures counted { result ≡ min (from + length near.now) usize.MAX }
    ensures ids { ids.new ≡ put_from from (map (λ n. n.0.now.1) near.now) ids.old }
    ensures distances { distances.new ≡ put_from from (map (λ n. n.1) near.now) distances.old }
{
    let (room, other_room) = (room_in(ids), room_in(distances));
    let mut next = from;
    for &(item, distance) in near {
        if next < room {
            ids[next] = item.data;
        }
        if next < other_room {
            distances[next] = distance;
        }
        next = next.saturating_add(1);
    }
    next
}

/// Writes the numbers of a list into another, as far as that reaches, and gives how many they are.
pub(crate) fn put_list<R>(items: &[GeomWithData<R, u64>], ids: &mut [u64]) -> usize
    ensures counted { result ≡ length items.now }
    ensures written { ids.new ≡ over (map (λ t. t.1) items.now) ids.old }
{
    let (count, room) = (items.len(), room_in(ids));
    let mut next = 0;
    for item in items {
        if next < room {
            ids[next] = item.data;
        }
        next = next.saturating_add(1);
    }
    count
}

/// Writes the corners and the numbers of all items that an iterator gives into two lists, as far as these reach, and gives
/// how many there are.
pub(crate) fn put_items<'a, I: Iterator<Item = &'a Item>>(
    items: I,
    boxes: &mut [Corners],
    ids: &mut [u64],
) -> usize
where
    requires can { I.can_next items }
    requires ends { IsFinite (I.remaining items) }
    ensures { IsTwicePut I.next_gives (λ t. corners_of t.now) (λ t. number t.now) items boxes.old boxes.new ids.old ids.new
        result }
{
    let (room, other_room) = (room_in(boxes), room_in(ids));
    let mut next = 0;
    for item in items {
        if next < room {
            boxes[next] = corners_of(item);
        }
        if next < other_room {
            ids[next] = item.data;
        }
        next = next.saturating_add(1);
    }
    next
}
