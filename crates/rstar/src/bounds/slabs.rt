//! The operations on elements that a bulk load needs beside their envelopes.

ghost use Rattle.std.specs.List.{AllByRecursion};
ghost use Rattle.std.specs.Prelude.{◌≡◌, ℕ, ◌<◌, ◌≤◌, max, length};
ghost use Rattle.rstar_base.specs.Clusters.{IsClusterNumber};
ghost use Rattle.rstar_base.specs.Hulls.{hull};
ghost use Rattle.rstar.specs.inside.Loads.{CutsSlab};

use crate::bounds::Covered;
use rstar_base::clusters::calculate_number_of_clusters_on_axis;
use rstar_base::object::{self, partition_envelopes};
use rstar_base::{Envelope, Point, RTreeObject, RTreeParams};

/// An element that a bulk load can cut into slabs.
pub trait InSlabs: Covered {
    ghost axes: { ℕ };

    /// The number of axes.
    fn axes() -> usize
        ensures { result ≡ axes };

    /// The merge of the envelopes of all elements; the empty envelope where there are none.
    fn envelope_of_all(list: &[Self]) -> Self::Cover
        ensures hull { result ≡ hull Self.Cover.boxes Self.object.box_of list.now }
        ensures own { AllByRecursion Self.object.IsValue list.now };

    /// Partitions the last `rest` elements of a list so that the `size` elements of the greatest keys come last.
    /// Returns how many they are: `size`, or all where there are fewer.
    fn cut_slab(axis: usize, list: &mut Vec<Self>, rest: usize, size: usize) -> usize
        requires axis { axis < axes }
        requires some { 0 < size }
        requires within { rest ≤ length list.old.items }
        ensures { CutsSlab (λ t. Self.Cover.boxes.axis_key (Self.object.box_of t) axis) size rest list.old.items result
            list.new.items };

    /// The number of slabs along each axis, for a node of `n` elements.
    fn slabs_on_axis<Params: RTreeParams>(n: usize) -> usize
        requires large { Params.MAX_SIZE < n }
        requires axes { 2 ≤ axes }
        ensures least { 2 ≤ result }
        ensures number { (c : ℕ) × IsClusterNumber Params.MAX_SIZE axes n c × (result ≡ max c 2) };
}

impl<T: RTreeObject> InSlabs for T {
    ghost axes = { T.Envelope.Point.DIMENSIONS };

    fn axes() -> usize {
        <<T::Envelope as Envelope>::Point as Point>::DIMENSIONS
    }

    fn envelope_of_all(list: &[T]) -> T::Envelope {
        object::envelope_of_all(list)
    }

    fn cut_slab(axis: usize, list: &mut Vec<T>, rest: usize, size: usize) -> usize {
        if rest <= size {
            return rest;
        }
        let first = list.len() - rest;
        let (_, last) = list.as_mut_slice().split_at_mut(first);
        partition_envelopes(axis, last, rest - size);
        size
    }

    fn slabs_on_axis<Params: RTreeParams>(n: usize) -> usize {
        calculate_number_of_clusters_on_axis::<T, Params>(n).max(2)
    }
}
