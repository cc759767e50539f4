//! Tests of slabs, cluster numbers and partitions.

ghost use Rattle.std.specs.Prelude.{◌<◌};

use crate::marks::is_marked;
use num_traits::Zero;
use rstar_base::clusters::{ClusterGroupIterator, calculate_number_of_clusters_on_axis};
use rstar_base::object::partition_envelopes;
use rstar_base::point::least;
use rstar_base::{DefaultParams, Distance, Envelope, RTreeObject};
use std::alloc::{AllocError, Global};

/// Whether there is a slab of this length, with this least key on an axis, or 0 where that is less. Elements
/// and their envelopes have the same keys.
fn is_slab<T: RTreeObject>(
    slab: &Option<Result<Vec<T>, AllocError>>,
    axis: usize,
    length: usize,
    wanted: Distance<T>,
) -> bool
    requires { axis < T.Envelope.Point.DIMENSIONS }
{
    let Some(Ok(slab)) = slab else {
        return false;
    };
    let mut key = Distance::<T>::zero();
    let mut are_own = true;
    for element in slab.iter() {
        let own = element.axis_key(axis);
        are_own = own == element.envelope().axis_key(axis) && are_own;
        key = least(key, own);
    }
    are_own && slab.len() == length && key == wanted
}

/// Whether elements are cut along an axis into slabs of these lengths and least keys.
fn are_cut<T: RTreeObject>(
    elements: Vec<T>,
    clusters: usize,
    axis: usize,
    wanted: &[(usize, Distance<T>)],
) -> bool
    requires clusters { 0 < clusters }
    requires axis { axis < T.Envelope.Point.DIMENSIONS }
{
    let mut slabs = ClusterGroupIterator::new(elements, clusters, axis);
    let mut are_so = true;
    for (length, key) in wanted {
        are_so = is_slab(&slabs.next(), axis, *length, *key) && are_so;
    }
    are_so && slabs.next().is_none() && slabs.cluster_dimension() == axis
}

/// The points [0, 0], [-1, -1], .., of this number.
fn falling(alloc: Global, count: usize) -> Vec<[i32; 2]> {
    let mut points = Vec::new(alloc);
    let mut at = 0i32;
    for _ in 0..count {
        let _refused = points.push([at, at]).is_err();
        at = at.wrapping_sub(1);
    }
    points
}

/// Whether the points of `falling` are cut along an axis into slabs of these lengths and least coordinates.
fn cuts(
    alloc: Global,
    count: usize,
    clusters: usize,
    axis: usize,
    wanted: &[(usize, i32)],
) -> bool {
    if clusters == 0 || 2 <= axis {
        return false;
    }
    are_cut(falling(alloc, count), clusters, axis, wanted)
}

// How many points, the number of slabs, the axis, and the lengths and least coordinates.
const CUTS: [(usize, usize, usize, &'static [(usize, i32)]); 5] = [
    (
        374,
        5,
        0,
        &[(75, -74), (75, -149), (75, -224), (75, -299), (74, -373)],
    ),
    (2, 5, 0, &[(1, 0), (1, -1)]),
    (3, 1, 0, &[(3, -2)]),
    (3, 2, 1, &[(2, -1), (1, -2)]),
    (0, 1, 0, &[]),
];

#[test]
fn slabs_have_their_sizes_and_come_from_the_greatest_on(rt: HostRuntime) {
    for &(count, clusters, axis, wanted) in &CUTS {
        assert!(rt; cuts(rt.alloc(), count, clusters, axis, wanted));
    }
}

/// Whether slabs come until all elements came, or none comes after a refused one.
fn come_to_an_end<T: RTreeObject>(elements: Vec<T>, clusters: usize, axis: usize) -> bool
    requires clusters { 0 < clusters }
    requires axis { axis < T.Envelope.Point.DIMENSIONS }
{
    let count = elements.len();
    let mut came = 0usize;
    let mut slabs = ClusterGroupIterator::new(elements, clusters, axis);
    for _ in 0..count {
        match &slabs.next() {
            Some(Ok(slab)) => came = came.saturating_add(slab.len()),
            Some(Err(_)) => return came < count && slabs.next().is_none(),
            None => return came == count,
        }
    }
    came == count && slabs.next().is_none()
}

/// Whether the points [0, 0], [-1, -1], .. come so between two marks.
fn come_between_marks(alloc: Global, count: usize, clusters: usize) -> bool {
    let points = falling(alloc, count);
    is_marked(alloc) & (clusters == 0 || come_to_an_end(points, clusters, 0)) & is_marked(alloc)
}

// Three points in one slab, which is the list itself, so that no allocation can be refused, and nine in three, of which two are
// lists of their own: `scripts/refuse_memory.sh` counts these two.
#[test]
fn a_refused_slab_ends_the_slabs(rt: HostRuntime) {
    assert!(rt; come_between_marks(rt.alloc(), 3, 1));
    assert!(rt; come_between_marks(rt.alloc(), 9, 3));
}

#[test]
fn cluster_numbers_are_whole_roots(rt: HostRuntime) {
    const ROWS: [(usize, usize); 6] = [
        (7, 1),
        (25, 2),
        (36, 2),
        (37, 1),
        (216, 2),
        (usize::MAX, 2),
    ];
    for &(count, clusters) in &ROWS {
        assert!(rt;
            count > 6
                && calculate_number_of_clusters_on_axis::<[i32; 2], DefaultParams>(count)
                    == clusters
        );
    }
}

// Whether the first coordinates do not fall across place `k` of the list.
fn is_split(points: &[[i32; 2]], k: usize) -> bool {
    for (i, point) in points.iter().enumerate() {
        let at = points[k.min(points.len() - 1)][0];
        if i < k && point[0] > at || i > k && point[0] < at {
            return false;
        }
    }
    true
}

/// Whether a partition splits these points at a place.
fn are_split(points: &mut [[i32; 2]], k: usize) -> bool {
    if points.len() <= k {
        return false;
    }
    partition_envelopes(0, points, k);
    is_split(points, k)
}

/// Whether a partition splits the first `count` of the points [0, 0], [29 % keys, 0], [58 % keys, 0], .. at
/// a place.
fn splits(count: usize, keys: u16, k: usize) -> bool {
    let mut points = [[0i32, 0]; 1000];
    let mut number = 0u16;
    for point in &mut points {
        point[0] = i32::from(number % keys.max(1));
        number = number.wrapping_add(29);
    }
    count <= points.len() && are_split(&mut points[..count], k)
}

// How many points, and how many different keys they have; and a thousand equal points, which are the same after it.
#[test]
fn a_partition_splits_equal_keys_too(rt: HostRuntime) {
    for &(count, keys) in &[(1usize, 1u16), (2, 1), (3, 2), (40, 3), (41, 7), (64, 64)] {
        for k in 0..count {
            assert!(rt; splits(count, keys, k));
        }
    }
    // Lists that are long enough for a sample.
    for &(count, keys, k) in &[
        (400usize, 7u16, 0usize),
        (401, 400, 399),
        (1000, 1000, 333),
        (1000, 3, 500),
    ] {
        assert!(rt; splits(count, keys, k));
    }
    let mut equal = [[5i32, 5]; 1000];
    assert!(rt; are_split(&mut equal, 3));
    for point in &equal {
        assert!(rt; point[0] == 5 && point[1] == 5);
    }
}
