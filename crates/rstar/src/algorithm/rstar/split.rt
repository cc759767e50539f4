//! The split of an overfull list of children (Beckmann et al. 1990).

ghost use Rattle.std.specs.Prelude.{◌≡◌, ◌+◌, ◌<◌, ◌≤◌, ℕ, [], ◌++◌, ◌&&◌, ◌||◌, not, take, drop, length, vec_len, vec_capacity, pos, unsigned_abs, int_lt};
ghost use Rattle.std.specs.List.Sorted.{IsPermutation};
ghost use Rattle.rstar.specs.inside.ParentBounds.{has_room};
ghost use Rattle.rstar.specs.Cuts.{IsArrangement, overlap_at, areas_at, IsLeastCut};

use rstar_base::object::{envelope_of_all, sort_envelopes};
use rstar_base::{Distance, Envelope, Point, RTreeNum, RTreeObject, RTreeParams, point};
use std::mem;

/// Moves the items from `at` on into the spare list. It takes no memory.
pub(crate) fn cut_at<A: Drop>(list: &mut Vec<A>, at: usize, spare: &mut Vec<A>)
    requires within { at ≤ vec_len list.old }
    requires empty { spare.old.items ≡ [] }
    requires room { vec_len list.old ≤ vec_capacity spare.old + at }
    ensures first { list.new.items ≡ take at list.old.items }
    ensures second { spare.new.items ≡ drop at list.old.items }
    ensures first_length { vec_len list.new ≡ at }
    ensures second_length { vec_len spare.new + at ≡ vec_len list.old }
    ensures first_capacity { vec_capacity list.new ≡ vec_capacity list.old }
    ensures second_capacity { vec_capacity spare.old ≤ vec_capacity spare.new }
{
    while at < list.len() {
        let item = list.take_last();
        spare.push_reserved(item);
    }
    spare.reverse();
}

/// Moves all items of a list into an empty one. It takes no memory.
pub(crate) fn move_all<A>(list: &mut Vec<A>, empty: &mut Vec<A>)
    requires empty { empty.old.items ≡ [] }
    requires room { vec_len list.old ≤ vec_capacity empty.old }
    ensures left { list.new.items ≡ [] }
    ensures moved { empty.new.items ≡ list.old.items }
    ensures length { vec_len empty.new ≡ vec_len list.old }
    ensures capacity { vec_capacity list.new ≡ vec_capacity list.old }
    ensures empty_capacity { vec_capacity empty.old ≤ vec_capacity empty.new }
{
    if empty.append(list).is_err() {
        unreachable!()
    }
}

/// Moves all items of a list into an empty one, which takes its place. It takes no memory.
pub(crate) fn move_over<A>(list: &mut Vec<A>, empty: &mut Vec<A>)
    requires empty { empty.old.items ≡ [] }
    requires room { vec_len list.old ≤ vec_capacity empty.old }
    ensures same { list.new.items ≡ list.old.items }
    ensures length { vec_len list.new ≡ vec_len list.old }
    ensures capacity { vec_capacity empty.old ≤ vec_capacity list.new }
    ensures left { empty.new.items ≡ [] }
    ensures left_capacity { vec_capacity empty.new ≡ vec_capacity list.old }
{
    move_all(list, empty);
    mem::swap(list, empty);
}

/// Makes room for one more item: the items of a full list move into the empty list. It takes no memory.
pub(crate) fn make_place<A>(list: &mut Vec<A>, empty: &mut Vec<A>)
    requires empty { empty.old.items ≡ [] }
    requires room { vec_len list.old < vec_capacity empty.old }
    ensures same { list.new.items ≡ list.old.items }
    ensures length { vec_len list.new ≡ vec_len list.old }
    ensures place { vec_len list.new < vec_capacity list.new }
    ensures left { empty.new.items ≡ [] }
    ensures rooms { (n : ℕ) → has_room n list.old + has_room n empty.old ≤ has_room n list.new + has_room n empty.new }
{
    if list.len() == list.capacity() {
        move_over(list, empty);
    }
}

/// The overlap of the two parts at a cut, and the sum of their areas, clamped.
fn measures_at<T: RTreeObject>(list: &[T], k: usize) -> (Distance<T>, Distance<T>)
    requires { k ≤ length list.now }
    ensures overlap { T.Envelope.Point.Scalar.value result.0
        ≡ pos (overlap_at T.Envelope.boxes T.object.box_of list.now k) }
    ensures areas { T.Envelope.Point.Scalar.value result.1
        ≡ pos (areas_at T.Envelope.boxes T.object.box_of (unsigned_abs T.Envelope.Point.Scalar.high) list.now k) }
{
    let (front, back) = list.split_at(k);
    let first = envelope_of_all(front);
    let second = envelope_of_all(back);
    (
        first.intersection_area(&second),
        first.area().clamped_add(second.area()),
    )
}

/// Whether a pair is less than another, by the first numbers and then by the second.
fn is_below<S: RTreeNum>(x: (S, S), y: (S, S)) -> bool
    ensures { result ≡ (int_lt (S.value x.0) (S.value y.0)
        || (not (int_lt (S.value y.0) (S.value x.0)) && int_lt (S.value x.1) (S.value y.1))) }
{
    x.0 < y.0 || !(y.0 < x.0) && x.1 < y.1
}

/// The first least cut among the allowed ones.
fn least_cut<T: RTreeObject, Params: RTreeParams>(list: &[T]) -> usize
    requires { Params.MAX_SIZE < length list.now }
    ensures { IsLeastCut T.Envelope.boxes T.object.box_of (unsigned_abs T.Envelope.Point.Scalar.high)
        Params.MIN_SIZE list.now result }
{
    let mut best = Params::MIN_SIZE;
    let mut least = measures_at(list, best);
    for k in Params::MIN_SIZE + 1..list.len() - Params::MIN_SIZE + 1 {
        let here = measures_at(list, k);
        if is_below(here, least) {
            best = k;
            least = here;
        }
    }
    best
}

/// The least sum of the two parts' perimeter values, over the allowed cuts of a list.
fn least_perimeter<T: RTreeObject, Params: RTreeParams>(list: &[T]) -> Distance<T>
    requires { Params.MAX_SIZE < length list.now }
{
    let mut least = perimeter_at(list, Params::MIN_SIZE);
    for k in Params::MIN_SIZE + 1..list.len() - Params::MIN_SIZE + 1 {
        least = point::least(least, perimeter_at(list, k));
    }
    least
}

/// The sum of the two parts' perimeter values at a cut, clamped.
fn perimeter_at<T: RTreeObject>(list: &[T], k: usize) -> Distance<T>
    requires { k ≤ length list.now }
{
    let (front, back) = list.split_at(k);
    envelope_of_all(front)
        .perimeter_value()
        .clamped_add(envelope_of_all(back).perimeter_value())
}

/// The first axis of least perimeter. Each axis sorts the list as the axis before left it.
fn least_axis<T: RTreeObject, Params: RTreeParams>(list: &mut [T]) -> usize
    requires many { Params.MAX_SIZE < length list.old }
    requires axes { 0 < T.Envelope.Point.DIMENSIONS }
    ensures same { IsPermutation list.old list.new }
    ensures axis { result < T.Envelope.Point.DIMENSIONS }
{
    sort_envelopes(0, list);
    let mut best = 0;
    let mut least = least_perimeter::<T, Params>(list);
    for axis in 1..<T::Envelope as Envelope>::Point::DIMENSIONS {
        sort_envelopes(axis, list);
        let here = least_perimeter::<T, Params>(list);
        if here < least {
            best = axis;
            least = here;
        }
    }
    best
}

/// Sorts the list along the axis of least perimeter, where there is an axis.
fn arrange<T: RTreeObject, Params: RTreeParams>(list: &mut [T])
    requires { Params.MAX_SIZE < length list.old }
    ensures { IsArrangement T.Envelope.Point.DIMENSIONS
        (λ t axis. T.Envelope.boxes.axis_key (T.object.box_of t) axis) list.old list.new }
{
    if 0 < <T::Envelope as Envelope>::Point::DIMENSIONS {
        let axis = least_axis::<T, Params>(list);
        sort_envelopes(axis, list);
    }
}

/// Splits the list at a least cut, after it is sorted along the best axis. It takes no memory.
pub(crate) fn split_in_place<T: RTreeObject, Params: RTreeParams>(
    list: &mut Vec<T>,
    spare: &mut Vec<T>,
)
    requires many { Params.MAX_SIZE < vec_len list.old }
    requires empty { spare.old.items ≡ [] }
    requires room { vec_len list.old ≤ vec_capacity spare.old + Params.MIN_SIZE }
    ensures arranged { IsArrangement T.Envelope.Point.DIMENSIONS
        (λ t axis. T.Envelope.boxes.axis_key (T.object.box_of t) axis) list.old.items
        (list.new.items ++ spare.new.items) }
    ensures least { IsLeastCut T.Envelope.boxes T.object.box_of (unsigned_abs T.Envelope.Point.Scalar.high)
        Params.MIN_SIZE (list.new.items ++ spare.new.items) (vec_len list.new) }
    ensures lengths { vec_len list.new + vec_len spare.new ≡ vec_len list.old }
    ensures first { Params.MIN_SIZE ≤ vec_len list.new }
    ensures second { Params.MIN_SIZE ≤ vec_len spare.new }
    ensures first_capacity { vec_capacity list.new ≡ vec_capacity list.old }
    ensures second_capacity { vec_capacity spare.old ≤ vec_capacity spare.new }
{
    arrange::<T, Params>(list);
    let at = least_cut::<T, Params>(list);
    cut_at(list, at, spare);
}
