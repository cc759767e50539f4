//! Selection without a sort, the body of `partition_envelopes`.
ghost use Rattle.std.specs.Prelude.{◌≡◌, ◌<◌, ◌≤◌, ◌≤ℤ◌, ◌+◌, ◌*◌, ℤ, ℕ, false, length, slice_index_or, true};
ghost use Rattle.std.specs.List.Sorted.{IsPermutation};
ghost use Rattle.rstar_base.specs.Orders.{IsSplitAt};
ghost use Rattle.rstar_base.specs.Slabs.{IsAround};

use crate::envelope::Envelope;
use crate::object::{Distance, RTreeObject, sort_envelopes};
use crate::point::{RTreeNum, greatest, least, not_above};

/// Partitions the elements around place `k` by `axis_key`.
///
/// It takes no memory. After `2 log2 n` pivots the rest is sorted, so the cost is bounded.
pub(crate) fn partition_by_selection<T: RTreeObject>(axis: usize, list: &mut [T], k: usize)
    requires axis { axis < T.Envelope.Point.DIMENSIONS }
    requires place { k < length list.old }
    ensures same { IsPermutation list.old list.new }
    ensures split { IsSplitAt (λ t. T.Envelope.boxes.axis_key (T.object.box_of t) axis) k list.new }
{
    let turns = 2 * list.len().ilog2();
    select(axis, list, k, turns);
}

/// A list of at most this length is sorted, which costs less than a partition.
const SHORT: usize = 16;

/// A list of at least this length takes its pivot from a sample.
const LONG: usize = 400;

/// The same with at most `turns` pivots, and then a sort.
#[cycle(select)]
fn select<T: RTreeObject>(axis: usize, list: &mut [T], k: usize, turns: u32)
    requires axis { axis < T.Envelope.Point.DIMENSIONS }
    requires place { k < length list.old }
    ensures same { IsPermutation list.old list.new }
    ensures split { IsSplitAt (λ t. T.Envelope.boxes.axis_key (T.object.box_of t) axis) k list.new }
{
    if turns == 0 || list.len() <= SHORT {
        sort_envelopes(axis, list);
        return;
    }
    let pivot = pivot_for(axis, list, k, turns - 1);
    let (from, to) = split_around(axis, list, pivot);
    if k < from {
        let (front, _) = list.split_at_mut(from);
        select(axis, front, k, turns - 1);
    } else if to <= k {
        let (_, back) = list.split_at_mut(to);
        select(axis, back, k - to, turns - 1);
    }
}

/// A key near place `k`. In a long list it is selected from a sample (Floyd and Rivest 1975), so that two
/// and a half passes are seldom exceeded.
#[cycle(select)]
fn pivot_for<T: RTreeObject>(axis: usize, list: &mut [T], k: usize, turns: u32) -> Distance<T>
    requires axis { axis < T.Envelope.Point.DIMENSIONS }
    requires place { k < length list.old }
    ensures same { IsPermutation list.old list.new }
{
    if list.len() < LONG {
        return middle_key(axis, list);
    }
    let (from, to) = sample_around(list.len(), k);
    let (_, rest) = list.split_at_mut(from);
    let (sample, _) = rest.split_at_mut(to - from);
    select(axis, sample, k - from, turns);
    key_at(axis, list, k)
}

/// The bounds of a sample around `k`. The place of `k` in it is that in the list, shifted a little so that
/// `k` falls on the shorter side of the pivot.
fn sample_around(len: usize, k: usize) -> (usize, usize)
    requires { k < len }
    ensures from { result.0 ≤ k }
    ensures to { k < result.1 }
    ensures within { result.1 ≤ len }
{
    let digits = len.ilog2() as usize;
    let part = (digits * digits / 6).max(1);
    let size = (len / part).max(1);
    let away = size / part;
    let rank = if k < len / 2 {
        (k / part).saturating_add(away)
    } else {
        (k / part).saturating_sub(away)
    };
    let from = k.saturating_sub(rank.min(size - 1)).min(len - size);
    (from, from + size)
}

/// Whether a key belongs before the pivot: smaller ones do, and equal ones where `with_same` is true.
fn is_first<S: RTreeNum>(key: S, pivot: S, with_same: bool) -> bool
    ensures first { result ≡ true → S.value key ≤ℤ S.value pivot }
    ensures other { result ≡ false → S.value pivot ≤ℤ S.value key }
{
    if with_same {
        not_above(key, pivot)
    } else {
        let reaches = not_above(pivot, key);
        !reaches
    }
}

/// The key of the element at this place.
fn key_at<T: RTreeObject>(axis: usize, list: &[T], k: usize) -> Distance<T>
    requires axis { axis < T.Envelope.Point.DIMENSIONS }
    requires place { k < length list.now }
    ensures { (d : T) → T.Envelope.Point.Scalar.value result
        ≡ T.Envelope.boxes.axis_key (T.object.box_of (slice_index_or list.now k d)) axis }
{
    list[k].axis_key(axis)
}

/// The median of three keys, or of nine in a long list. Any pivot is correct; this one halves the list more
/// often.
fn middle_key<T: RTreeObject>(axis: usize, list: &[T]) -> Distance<T>
    requires axis { axis < T.Envelope.Point.DIMENSIONS }
    requires some { 0 < length list.now }
{
    let step = list.len() / 9;
    if step < 8 {
        let quarter = list.len() / 4;
        return middle_of(axis, list, quarter, quarter);
    }
    let a = middle_of(axis, list, 0, step);
    let b = middle_of(axis, list, 3 * step, step);
    let c = middle_of(axis, list, 6 * step, step);
    middle(a, b, c)
}

/// The median of the keys at `at`, `at + step` and `at + 2 * step`.
fn middle_of<T: RTreeObject>(axis: usize, list: &[T], at: usize, step: usize) -> Distance<T>
    requires axis { axis < T.Envelope.Point.DIMENSIONS }
    requires places { at + 2 * step < length list.now }
{
    middle(
        key_at(axis, list, at),
        key_at(axis, list, at + step),
        key_at(axis, list, at + 2 * step),
    )
}

/// The median of three.
fn middle<S: RTreeNum>(a: S, b: S, c: S) -> S {
    greatest(least(a, b), least(greatest(a, b), c))
}

/// Moves the elements with keys below the pivot to the front; where there are none, those with keys equal to
/// it.
fn split_around<T: RTreeObject>(axis: usize, list: &mut [T], pivot: Distance<T>) -> (usize, usize)
    requires { axis < T.Envelope.Point.DIMENSIONS }
    ensures same { IsPermutation list.old list.new }
    ensures order { result.0 ≤ result.1 }
    ensures within { result.1 ≤ length list.old }
    ensures around { IsAround (λ t. T.Envelope.boxes.axis_key (T.object.box_of t) axis)
        (T.Envelope.Point.Scalar.value pivot) result.0 result.1 list.new }
{
    let less = gather(axis, list, pivot, false);
    if less != 0 {
        return (less, less);
    }
    let same = gather(axis, list, pivot, true);
    (0, same)
}

/// The end of a run of elements that all belong in front, or all behind.
fn run_end<T: RTreeObject>(
    axis: usize,
    list: &[T],
    from: usize,
    pivot: Distance<T>,
    with_same: bool,
    first: bool,
) -> usize
    requires axis { axis < T.Envelope.Point.DIMENSIONS }
    requires from { from ≤ length list.now }
    ensures order { from ≤ result }
    ensures within { result ≤ length list.now }
    ensures at_most { first ≡ true → (i : ℕ) (d : T) → from ≤ i → i < result
        → T.Envelope.boxes.axis_key (T.object.box_of (slice_index_or list.now i d)) axis
        ≤ℤ T.Envelope.Point.Scalar.value pivot }
    ensures at_least { first ≡ false → (i : ℕ) (d : T) → from ≤ i → i < result
        → T.Envelope.Point.Scalar.value pivot
        ≤ℤ T.Envelope.boxes.axis_key (T.object.box_of (slice_index_or list.now i d)) axis }
{
    let mut at = from;
    while at < list.len() {
        let stands_first = is_first(key_at(axis, list, at), pivot, with_same);
        if stands_first != first {
            return at;
        }
        at += 1;
    }
    at
}

/// Moves the elements with keys below the pivot, and those equal to it where `with_same` is true, to the
/// front, and counts them.
///
/// The leading elements that belong in front, and then those that belong behind, are skipped: a list of
/// equal keys does not move. The rest is swapped without a branch on the key.
fn gather<T: RTreeObject>(axis: usize, list: &mut [T], pivot: Distance<T>, with_same: bool) -> usize
    requires { axis < T.Envelope.Point.DIMENSIONS }
    ensures same { IsPermutation list.old list.new }
    ensures within { result ≤ length list.old }
    ensures around { IsAround (λ t. T.Envelope.boxes.axis_key (T.object.box_of t) axis)
        (T.Envelope.Point.Scalar.value pivot) result result list.new }
{
    let mut less = run_end(axis, &*list, 0, pivot, with_same, true);
    let mut at = run_end(axis, &*list, less, pivot, with_same, false);
    while at < list.len() {
        let first = is_first(key_at(axis, list, at), pivot, with_same);
        list.swap(less, at);
        if first {
            less += 1;
        }
        at += 1;
    }
    less
}
